//! What a file is found to be by its cap, and how files are counted by that.

ghost use Rattle.std.specs.Prelude.{◌≡◌, IfOk};
ghost use Rattle.std.specs.String.{string_bytes};
ghost use Rattle.grid_surveys.specs.Verdicts.{compared_text, counted_with, verdict_status};
ghost use Rattle.grid_surveys.specs.Verdicts.{verdict_word};

use grid_lists::DONE;
use std::alloc::{AllocError, Global};

/// The status of a file that differs.
const DIFFERS: u8 = 5;

/// What a file is found to be.
#[derive(Clone, Copy)]
pub enum Verdict {
    /// The one of the cap.
    Same,
    /// Another: it has not the size of the cap's file.
    OtherSize,
    /// Another of that size, or one that was put under another secret, or in other segments.
    OtherBytes,
}

impl Verdict {
    /// The word that tells it.
    pub fn word(self) -> &'static str
        ensures { result.now ≡ verdict_word self }
    {
        match self {
            Verdict::Same => "same",
            Verdict::OtherSize | Verdict::OtherBytes => "differs",
        }
    }

    /// The exit status: 0 of the same file, and else 5.
    pub fn status(self) -> u8
        ensures { result ≡ verdict_status self }
    {
        match self {
            Verdict::Same => DONE,
            Verdict::OtherSize | Verdict::OtherBytes => DIFFERS,
        }
    }

    /// What is told of it beside that word, if anything is.
    pub(crate) fn reason(self) -> Option<&'static str> {
        match self {
            Verdict::Same => None,
            Verdict::OtherSize => Some(OTHER_SIZE),
            Verdict::OtherBytes => Some(OTHER_BYTES),
        }
    }
}

const OTHER_SIZE: &str = "the file has not the size of its cap";

const OTHER_BYTES: &str =
    "the file has the size of its cap, but other bytes, or another secret or segment size";

/// How many files there are, and how many are which. One that is refused has no verdict.
#[derive(Clone, Copy)]
pub struct Compared {
    pub files: u64,
    pub same: u64,
    pub differ: u64,
    pub refused: u64,
}

/// None yet.
pub(crate) const NO_FILES: Compared = Compared {
    files: 0,
    same: 0,
    differ: 0,
    refused: 0,
};

impl Compared {
    /// With one file more.
    pub(crate) fn counted(self, verdict: Option<Verdict>) -> Compared
        ensures { result ≡ counted_with self verdict }
    {
        let mut counts = self;
        counts.files = counts.files.saturating_add(1);
        match verdict {
            Some(Verdict::Same) => counts.same = counts.same.saturating_add(1),
            Some(_) => counts.differ = counts.differ.saturating_add(1),
            None => counts.refused = counts.refused.saturating_add(1),
        }
        counts
    }

    /// The last line, which tells how many there are.
    pub(crate) fn line(&self, alloc: Global) -> Result<String, AllocError>
        ensures { IfOk result (λ text. string_bytes text ≡ compared_text self.now) }
    {
        let (files, same) = (self.files, self.same);
        let (differ, refused) = (self.differ, self.refused);
        format!(in alloc; "files {files} same {same} differ {differ} refused {refused}\n")
    }
}
