//! Why a call is refused.

ghost use Rattle.std.specs.Prelude.{◌≡◌, Some};
ghost use Rattle.cap_text.specs.CapError.{name_of, number_of};

use std::alloc::{AllocError, AllocFailed};
use std::error::Error;
use std::fmt;

/// Why a text is no cap, or a call was refused.
#[derive(Clone, Copy, Debug, PartialEq, Eq)]
pub enum CapError {
    /// No memory was left.
    OutOfMemory,
    /// The text does not begin as a cap does.
    UnknownKind,
    /// A part is not the base32 text of a key, a storage index or a hash.
    BadBase32,
    /// A number is not in decimal, has a leading zero, or is above 2^64 - 1.
    BadNumber,
    /// The shares needed, their total or the size is outside its range.
    BadParameters,
    /// There are not five parts after the beginning.
    WrongParts,
    /// The data of a literal cap has more than 55 bytes.
    LitTooLong,
}

impl CapError {
    /// The number of the refusal.
    pub fn number(self) -> u8
        ensures { result ≡ number_of self }
    {
        match self {
            CapError::OutOfMemory => 1,
            CapError::UnknownKind => 10,
            CapError::BadBase32 => 11,
            CapError::BadNumber => 12,
            CapError::BadParameters => 13,
            CapError::WrongParts => 14,
            CapError::LitTooLong => 15,
        }
    }
}

impl fmt::Display for CapError {
    ghost output = { λ fault. Some (name_of fault) };

    fn fmt<W: fmt::Write>(&self, f: &mut fmt::Formatter<W>) -> fmt::Result {
        f.write_str(match self {
            CapError::OutOfMemory => "OutOfMemory",
            CapError::UnknownKind => "UnknownKind",
            CapError::BadBase32 => "BadBase32",
            CapError::BadNumber => "BadNumber",
            CapError::BadParameters => "BadParameters",
            CapError::WrongParts => "WrongParts",
            CapError::LitTooLong => "LitTooLong",
        })
    }
}

impl Error for CapError {}

impl From<AllocError> for CapError {
    ghost use Rattle.cap_text.specs.declared.error.CapError.TheVariants.{OutOfMemory};

    ghost from_gives = { λ _ e. e ≡ OutOfMemory };

    fn from(_error: AllocError) -> CapError {
        CapError::OutOfMemory
    }
}

impl<T: Drop> From<AllocFailed<T>> for CapError {
    ghost use Rattle.cap_text.specs.declared.error.CapError.TheVariants.{OutOfMemory};

    ghost from_gives = { λ _ e. e ≡ OutOfMemory };

    fn from(_error: AllocFailed<T>) -> CapError {
        CapError::OutOfMemory
    }
}
