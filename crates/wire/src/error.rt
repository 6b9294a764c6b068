//! Why bytes are no frame.

ghost use Rattle.std.specs.Prelude.{◌≡◌, Some};
ghost use Rattle.wire.specs.declared.error.WireError.TheVariants.{OutOfMemory};
ghost use Rattle.wire.specs.Refusals.{refusal_number, refusal_text};

use std::alloc::{AllocError, AllocFailed};
use std::error::Error;
use std::fmt;

/// Why a frame was not read.
#[derive(Clone, Copy, Debug, PartialEq, Eq)]
pub enum WireError {
    /// There was not enough memory.
    OutOfMemory,
    /// A frame's length is 0 or above 65,536.
    BadLength,
    /// A body is empty, or begins with no kind of message.
    BadKind,
    /// Behind the kind bytes are missing or left over, or a field is out of its range.
    BadFields,
}

impl WireError {
    /// The number that the program prints with this refusal.
    pub fn number(self) -> u8
        ensures { result ≡ refusal_number self }
    {
        match self {
            WireError::OutOfMemory => 1,
            WireError::BadLength => 50,
            WireError::BadKind => 51,
            WireError::BadFields => 52,
        }
    }
}

impl fmt::Display for WireError {
    ghost output = { λ e. Some (refusal_text e) };

    fn fmt<W: fmt::Write>(&self, f: &mut fmt::Formatter<W>) -> fmt::Result {
        let name = match self {
            WireError::OutOfMemory => "OutOfMemory",
            WireError::BadLength => "BadLength",
            WireError::BadKind => "BadKind",
            WireError::BadFields => "BadFields",
        };
        f.write_str(name)
    }
}

impl Error for WireError {}

impl From<AllocError> for WireError {
    ghost from_gives = { λ _ e. e ≡ OutOfMemory };

    fn from(_e: AllocError) -> WireError {
        WireError::OutOfMemory
    }
}

impl<T: Drop> From<AllocFailed<T>> for WireError {
    ghost from_gives = { λ _ e. e ≡ OutOfMemory };

    fn from(_e: AllocFailed<T>) -> WireError {
        WireError::OutOfMemory
    }
}
