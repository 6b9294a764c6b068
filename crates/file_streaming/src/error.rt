//! Why a file is not made ready.

ghost use Rattle.std.specs.Prelude.{◌≡◌};
ghost use Rattle.file_streaming.specs.PrepareError.{error_of, refusal_number};

use sources::PartFault;
use std::alloc::{AllocError, AllocFailed};

/// Why a file is not made ready for its upload.
#[derive(Clone, Copy, Debug, PartialEq, Eq)]
pub enum PrepareError {
    /// No memory was left.
    OutOfMemory,
    /// The file has more than `ueb::MAX_FILE_SIZE` bytes.
    TooLarge,
    /// The file has more than `ueb::MAX_SEGMENTS` segments of this size.
    TooManySegments,
    /// Two passes over the source had two keys, or it ended early.
    SourceChanged,
    /// A read of the source failed.
    SourceFault,
}

impl PrepareError {
    /// The number of the refusal.
    pub fn number(self) -> u8
        ensures { result ≡ refusal_number self }
    {
        match self {
            PrepareError::OutOfMemory => 1,
            PrepareError::TooLarge => 30,
            PrepareError::TooManySegments => 31,
            PrepareError::SourceChanged => 74,
            PrepareError::SourceFault => 75,
        }
    }
}

impl From<AllocError> for PrepareError {
    ghost use Rattle.file_streaming.specs.declared.error.PrepareError.TheVariants.{OutOfMemory};

    ghost from_gives = { λ _ e. e ≡ OutOfMemory };

    fn from(_error: AllocError) -> PrepareError {
        PrepareError::OutOfMemory
    }
}

impl<T: Drop> From<AllocFailed<T>> for PrepareError {
    ghost use Rattle.file_streaming.specs.declared.error.PrepareError.TheVariants.{OutOfMemory};

    ghost from_gives = { λ _ e. e ≡ OutOfMemory };

    fn from(_error: AllocFailed<T>) -> PrepareError {
        PrepareError::OutOfMemory
    }
}

impl From<PartFault> for PrepareError {
    ghost from_gives = { λ fault e. e ≡ error_of fault };

    fn from(fault: PartFault) -> PrepareError {
        match fault {
            PartFault::Ended => PrepareError::SourceChanged,
            PartFault::Unreadable => PrepareError::SourceFault,
        }
    }
}
