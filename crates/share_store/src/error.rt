//! Why a call of a store fails.

ghost use Rattle.std.specs.Prelude.{◌≡◌, Some};
ghost use Rattle.share_store.specs.Refusals.{refusal_number, refusal_text};

use std::alloc::{AllocError, AllocFailed};
use std::error::Error;
use std::{fmt, io};

/// Why a call of a store fails. After either the call may be made again.
#[derive(Clone, Copy, Debug, PartialEq, Eq)]
pub enum StoreError {
    /// There was not enough memory.
    OutOfMemory,
    /// What the store stands on failed, as a disk does.
    StoreFault,
}

impl StoreError {
    /// The number of the refusal.
    pub fn number(self) -> u8
        ensures { result ≡ refusal_number self }
    {
        match self {
            StoreError::OutOfMemory => 1,
            StoreError::StoreFault => 60,
        }
    }
}

impl fmt::Display for StoreError {
    ghost output = { λ e. Some (refusal_text e) };

    fn fmt<W: fmt::Write>(&self, f: &mut fmt::Formatter<W>) -> fmt::Result {
        let name = match self {
            StoreError::OutOfMemory => "OutOfMemory",
            StoreError::StoreFault => "StoreFault",
        };
        f.write_str(name)
    }
}

impl Error for StoreError {}

impl From<AllocError> for StoreError {
    ghost use Rattle.share_store.specs.declared.error.StoreError.TheVariants.{OutOfMemory};

    ghost from_gives = { λ _ e. e ≡ OutOfMemory };

    fn from(_error: AllocError) -> StoreError {
        StoreError::OutOfMemory
    }
}

impl<T: Drop> From<AllocFailed<T>> for StoreError {
    ghost use Rattle.share_store.specs.declared.error.StoreError.TheVariants.{OutOfMemory};

    ghost from_gives = { λ _ e. e ≡ OutOfMemory };

    fn from(_error: AllocFailed<T>) -> StoreError {
        StoreError::OutOfMemory
    }
}

impl From<io::Error> for StoreError {
    ghost use Rattle.std.specs.IoError.{error_kind};
    ghost use Rattle.share_store.specs.Refusals.{refusal_of};

    ghost from_gives = { λ error e. e ≡ refusal_of (error_kind error) };

    fn from(error: io::Error) -> StoreError {
        match error.kind() {
            io::ErrorKind::OutOfMemory => StoreError::OutOfMemory,
            _ => StoreError::StoreFault,
        }
    }
}
