//! What an operation is started for.

ghost use Rattle.std.specs.Prelude.{◌≡◌, IfOk};

use crate::message::copied;
use cap_text::{ReadCap, VerifyCap};
use file_encoding::Params;
use proved_parts::Bytes;
use std::alloc::{AllocError, Global};

/// Why a repair made no shares.
#[derive(Clone, Copy, Debug, PartialEq, Eq)]
pub enum Unmade {
    /// Fewer shares are good than are needed.
    NotEnoughShares,
    /// The good shares contradict one another, or are no code word of the file.
    Inconsistent,
}

/// What an operation is started for.
#[derive(Drop)]
pub enum Job {
    /// The upload of a file: its bytes, the convergence secret and the parameters.
    Upload(Bytes, Bytes, Params),
    /// The upload of a source that changes: two texts of one length, of which the first bytes that
    /// it hands out, so many, are of the one and later ones of the other; the convergence secret
    /// and the parameters. The file is what the second of two passes over it brings.
    Changing(Bytes, Bytes, u64, Bytes, Params),
    /// The download of a cap's file, from one position to before another.
    Download(ReadCap, u64, u64),
    /// The check of a cap's shares.
    Check(VerifyCap),
    /// The repair of a cap's file, for so many servers at least: the upload of all its shares,
    /// which were made anew of those that a check found good.
    Repair(VerifyCap, u16),
    /// A repair that was over at once, and why.
    NoRepair(VerifyCap, Unmade),
}

impl Job {
    /// The same job once more.
    pub fn copied(&self, alloc: Global) -> Result<Job, AllocError>
        ensures { IfOk result (λ job. job ≡ self.now) }
    {
        match self {
            Job::Upload(file, secret, params) => Ok(Job::Upload(
                copied(alloc, file)?,
                copied(alloc, secret)?,
                *params,
            )),
            Job::Changing(file, other, after, secret, params) => Ok(Job::Changing(
                copied(alloc, file)?,
                copied(alloc, other)?,
                *after,
                copied(alloc, secret)?,
                *params,
            )),
            Job::Download(cap, from, to) => Ok(Job::Download(*cap, *from, *to)),
            Job::Check(cap) => Ok(Job::Check(*cap)),
            Job::Repair(cap, happy) => Ok(Job::Repair(*cap, *happy)),
            Job::NoRepair(cap, why) => Ok(Job::NoRepair(*cap, *why)),
        }
    }
}
