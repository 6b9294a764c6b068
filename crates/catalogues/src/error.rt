//! Why a call is refused.

ghost use Rattle.std.specs.Prelude.{◌≡◌, Some};
ghost use Rattle.catalogues.specs.CatalogueError.{name_of, number_of};

use std::alloc::{AllocError, AllocFailed};
use std::error::Error;
use std::fmt;

/// Why a text is no catalogue, or a call was refused.
#[derive(Clone, Copy, Debug, PartialEq, Eq)]
pub enum CatalogueError {
    /// No memory was left.
    OutOfMemory,
    /// The text does not begin with the first line of a catalogue.
    NotACatalogue,
    /// The line of this number, from 1 on, is not that of a cap and a name.
    NotALine(u64),
    /// What is no name, or not one of a file below a folder.
    BadName,
}

impl CatalogueError {
    /// The number of the refusal.
    pub fn number(self) -> u8
        ensures { result ≡ number_of self }
    {
        match self {
            CatalogueError::OutOfMemory => 1,
            CatalogueError::NotACatalogue => 110,
            CatalogueError::NotALine(_) => 111,
            CatalogueError::BadName => 112,
        }
    }
}

impl fmt::Display for CatalogueError {
    ghost output = { λ fault. Some (name_of fault) };

    fn fmt<W: fmt::Write>(&self, f: &mut fmt::Formatter<W>) -> fmt::Result {
        match self {
            CatalogueError::OutOfMemory => f.write_str("OutOfMemory"),
            CatalogueError::NotACatalogue => f.write_str("NotACatalogue"),
            CatalogueError::NotALine(line) => write!(f, "NotALine {line}"),
            CatalogueError::BadName => f.write_str("BadName"),
        }
    }
}

impl Error for CatalogueError {}

impl From<AllocError> for CatalogueError {
    ghost use Rattle.catalogues.specs.declared.error.CatalogueError.TheVariants.{OutOfMemory};

    ghost from_gives = { λ _ e. e ≡ OutOfMemory };

    fn from(_error: AllocError) -> CatalogueError {
        CatalogueError::OutOfMemory
    }
}

impl<T: Drop> From<AllocFailed<T>> for CatalogueError {
    ghost use Rattle.catalogues.specs.declared.error.CatalogueError.TheVariants.{OutOfMemory};

    ghost from_gives = { λ _ e. e ≡ OutOfMemory };

    fn from(_error: AllocFailed<T>) -> CatalogueError {
        CatalogueError::OutOfMemory
    }
}
