//! What was done to the files of a folder, which contracts see, and of which nothing is in memory.

ghost use Rattle.std.specs.Prelude.{◌≡◌, [], ◌∷◌};
ghost use Rattle.std.specs.IoError.{error_kind};
ghost use Rattle.share_files.specs.Failures.{failure_of};

use crate::bytes::Verdict;
use crate::name::ShareFile;
use std::io;
use std::io::ErrorKind;
use std::marker::Model;
use std::snapshot::Snapshot;
use wire::message::Digest;

/// What stands under a file's name.
#[derive(Clone, Copy, Debug, PartialEq, Eq)]
pub enum Standing {
    /// No regular file, as a folder, a link or a pipe.
    Odd,
    /// A file of so many bytes, and whether nobody wrote to it for so long that nobody will.
    Regular(u64, bool),
}

/// What one call of the system did to the files of a folder, or found of them.
#[derive(Drop)]
pub enum Act {
    /// The files of a storage index were listed, or of every one; or these are those of a storage
    /// index as they were listed before.
    Listed(Snapshot<Vec<ShareFile>>),
    /// They could not be listed.
    Unlisted,
    /// This stands under a file's name.
    Found(ShareFile, Standing),
    /// Its bytes have a digest, or another.
    Judged(ShareFile, Digest, Verdict),
    /// An empty file was made under a name that was free.
    Made(ShareFile),
    /// A file got another name.
    Moved(ShareFile, ShareFile),
    /// A file was removed.
    Removed(ShareFile),
    /// Nothing stands under a file's name.
    Gone(ShareFile),
    /// What was to be done with a file failed.
    Failed(ShareFile),
}

impl Act {
    /// What failed at a file by an error of the system.
    pub(crate) fn failure(error: &io::Error, file: &ShareFile) -> Act
        ensures { result ≡ failure_of (error_kind error.now) file.now }
    {
        match error.kind() {
            ErrorKind::NotFound => Act::Gone(*file),
            _ => Act::Failed(*file),
        }
    }
}

/// All acts, the last one first, as the steps that made them say. It has no bytes.
#[derive(Drop)]
#[cycle(acts)]
pub(crate) struct Acts {
    step: Snapshot<Step>,
}

// The last step, after all before it.
#[derive(Drop)]
#[cycle(acts)]
enum Step {
    /// Nothing was done.
    Nothing,
    /// One more act.
    Acted(Snapshot<Acts>, Snapshot<Act>),
}

impl Model for Acts {
    ghost use Rattle.share_files.specs.ActsState.{ActsState};

    ghost Value = { ActsState };

    ghost use Rattle.share_files.specs.Steps.{after_step};

    ghost view = { λ a. after_step a.step.value };

    ghost size = { λ a. a.steps };

    ghost use Rattle.std.proofs.Common.{arith};

    ghost size_decreases = { λ a h. Prim.grind arith };
}

impl Acts {
    /// Nothing was done.
    pub(crate) fn new() -> Acts
        ensures { result.done ≡ [] }
    {
        let step = Step::Nothing;
        Acts {
            step: Snapshot::of(&step),
        }
    }

    /// One more act.
    pub(crate) fn with(&self, act: &Act) -> Acts
        ensures { result.done ≡ act.now ∷ self.now.done }
    {
        let step = Step::Acted(Snapshot::of(self), Snapshot::of(act));
        Acts {
            step: Snapshot::of(&step),
        }
    }
}
