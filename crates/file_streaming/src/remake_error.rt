//! Why the shares of a file are not made anew.

ghost use Rattle.std.specs.Prelude.{◌≡◌};
ghost use Rattle.file_streaming.specs.RemakeError.{remake_error_of, remake_number};

use sources::PartFault;
use std::alloc::{AllocError, AllocFailed};

/// Why the shares of a file are not made anew from its padded ciphertext.
#[derive(Clone, Copy, Debug, PartialEq, Eq)]
pub enum RemakeError {
    /// No memory was left.
    OutOfMemory,
    /// The root over the segments, or over the shares, is not the one that the extension block
    /// tells.
    Inconsistent,
    /// The source ended early.
    SourceChanged,
    /// A read of the source failed.
    SourceFault,
}

impl RemakeError {
    /// The number of the refusal.
    pub fn number(self) -> u8
        ensures { result ≡ remake_number self }
    {
        match self {
            RemakeError::OutOfMemory => 1,
            RemakeError::Inconsistent => 72,
            RemakeError::SourceChanged => 74,
            RemakeError::SourceFault => 75,
        }
    }
}

impl From<AllocError> for RemakeError {
    ghost use Rattle.file_streaming.specs.declared.remake_error.RemakeError.TheVariants.{OutOfMemory};

    ghost from_gives = { λ _ e. e ≡ OutOfMemory };

    fn from(_error: AllocError) -> RemakeError {
        RemakeError::OutOfMemory
    }
}

impl<T: Drop> From<AllocFailed<T>> for RemakeError {
    ghost use Rattle.file_streaming.specs.declared.remake_error.RemakeError.TheVariants.{OutOfMemory};

    ghost from_gives = { λ _ e. e ≡ OutOfMemory };

    fn from(_error: AllocFailed<T>) -> RemakeError {
        RemakeError::OutOfMemory
    }
}

impl From<PartFault> for RemakeError {
    ghost from_gives = { λ fault e. e ≡ remake_error_of fault };

    fn from(fault: PartFault) -> RemakeError {
        match fault {
            PartFault::Ended => RemakeError::SourceChanged,
            PartFault::Unreadable => RemakeError::SourceFault,
        }
    }
}
