//! Why an extension block was not written or read.

ghost use Rattle.std.specs.Prelude.{◌≡◌};

use crate::key::Key;
use std::alloc::{AllocError, AllocFailed};
use std::error::Error;
use std::fmt;

/// Why an extension block was not written or read. `read` tells the first fault, in the order of
/// its documentation.
#[derive(Clone, Copy, Debug, PartialEq, Eq)]
pub enum UebError {
    /// Memory ran out.
    OutOfMemory,
    /// Something that stands in a field's position is no field: no key with a colon, or no
    /// netstring behind it.
    Malformed,
    /// A key is not greater, byte by byte, than the key before it.
    KeyOrder,
    /// This key is the first of the eleven that is not there.
    MissingKey(Key),
    /// The value of this key is not what the file's cap and the segment size ask for.
    Disagrees(Key),
    /// There are more than `MAX_LENGTH` bytes.
    TooLong,
}

impl UebError {
    ghost use Rattle.ueb.specs.Error.{number_of};

    /// The refusal's number, which the program prints.
    pub fn number(self) -> u8
        ensures { result ≡ number_of self }
    {
        match self {
            UebError::OutOfMemory => 1,
            UebError::Malformed => 20,
            UebError::KeyOrder => 21,
            UebError::MissingKey(_) => 22,
            UebError::Disagrees(_) => 23,
            UebError::TooLong => 24,
        }
    }
}

impl fmt::Display for UebError {
    ghost use Rattle.std.specs.Prelude.{Some};
    ghost use Rattle.ueb.specs.Error.{name_of};

    ghost output = { λ error. Some (name_of error) };

    fn fmt<W: fmt::Write>(&self, f: &mut fmt::Formatter<W>) -> fmt::Result {
        let (name, key) = match self {
            UebError::OutOfMemory => ("OutOfMemory", ""),
            UebError::Malformed => ("Malformed", ""),
            UebError::KeyOrder => ("KeyOrder", ""),
            UebError::MissingKey(key) => ("MissingKey ", key.name()),
            UebError::Disagrees(key) => ("Disagrees ", key.name()),
            UebError::TooLong => ("TooLong", ""),
        };
        write!(f, "{name}{key}")
    }
}

impl Error for UebError {}

impl From<AllocError> for UebError {
    ghost use Rattle.std.specs.Prelude.{◌≡◌};
    ghost use Rattle.ueb.specs.declared.error.UebError.TheVariants.{OutOfMemory};

    ghost from_gives = { λ _ e. e ≡ OutOfMemory };

    fn from(_error: AllocError) -> UebError {
        UebError::OutOfMemory
    }
}

impl<T: Drop> From<AllocFailed<T>> for UebError {
    ghost use Rattle.std.specs.Prelude.{◌≡◌};
    ghost use Rattle.ueb.specs.declared.error.UebError.TheVariants.{OutOfMemory};

    ghost from_gives = { λ _ e. e ≡ OutOfMemory };

    fn from(_error: AllocFailed<T>) -> UebError {
        UebError::OutOfMemory
    }
}
