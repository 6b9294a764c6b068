//! Why a file is not encoded.

ghost use Rattle.std.specs.Prelude.{◌≡◌};
ghost use Rattle.file_encoding.specs.Refusals.{encode_refusal_number};

use std::alloc::{AllocError, AllocFailed};

/// Why a file is not encoded.
#[derive(Clone, Copy, Debug, PartialEq, Eq)]
pub enum EncodeError {
    /// No memory was left.
    OutOfMemory,
    /// A parameter is outside its range.
    BadParameters,
    /// The file has more than `ueb::MAX_FILE_SIZE` bytes.
    TooLarge,
    /// The file has more than `ueb::MAX_SEGMENTS` segments of this size.
    TooManySegments,
}

impl EncodeError {
    /// The number of the refusal.
    pub fn number(self) -> u8
        ensures { result ≡ encode_refusal_number self }
    {
        match self {
            EncodeError::OutOfMemory => 1,
            EncodeError::BadParameters => 2,
            EncodeError::TooLarge => 30,
            EncodeError::TooManySegments => 31,
        }
    }
}

impl From<AllocError> for EncodeError {
    ghost use Rattle.file_encoding.specs.declared.error.EncodeError.TheVariants.{OutOfMemory};

    ghost from_gives = { λ _ e. e ≡ OutOfMemory };

    fn from(_error: AllocError) -> EncodeError {
        EncodeError::OutOfMemory
    }
}

impl<T: Drop> From<AllocFailed<T>> for EncodeError {
    ghost use Rattle.file_encoding.specs.declared.error.EncodeError.TheVariants.{OutOfMemory};

    ghost from_gives = { λ _ e. e ≡ OutOfMemory };

    fn from(_error: AllocFailed<T>) -> EncodeError {
        EncodeError::OutOfMemory
    }
}
