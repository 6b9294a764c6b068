//! Why a call of a disk fails.

ghost use Rattle.std.specs.Prelude.{◌≡◌, ◌↔◌, ◌⊎◌, IsTrue};
ghost use Rattle.std.specs.declared.io.ErrorKind.TheVariants.{PermissionDenied, Unsupported};
ghost use Rattle.disks.specs.Faults.{IsReason, IsWithoutLinks};

use std::alloc::{AllocError, AllocFailed};
use std::io;

/// Why a call of a disk fails.
#[derive(Clone, Copy, Debug)]
pub enum DiskError {
    /// There was not enough memory.
    OutOfMemory,
    /// Something stands under the name already.
    AlreadyExists,
    /// Nothing stands there.
    NotFound,
    /// The system failed so.
    System(io::Error),
    /// The disk failed, or it was asked what it does not do.
    Failed,
}

// The numbers that the system has for these two.
const NO_ENTRY: i32 = 2;

const EXISTS: i32 = 17;

impl DiskError {
    /// Whether a link failed so because the disk has none.
    pub fn is_without_links(&self) -> bool
        ensures { IsTrue result ↔ IsWithoutLinks self.now }
    {
        match self {
            DiskError::System(error) => is_without_links(error.kind()),
            _ => false,
        }
    }

    /// What the system says of this.
    pub fn reason(self) -> io::Error
        ensures { IsReason self result }
    {
        match self {
            DiskError::OutOfMemory => io::Error::from(io::ErrorKind::OutOfMemory),
            DiskError::AlreadyExists => io::Error::from_raw_os_error(EXISTS),
            DiskError::NotFound => io::Error::from_raw_os_error(NO_ENTRY),
            DiskError::System(error) => error,
            DiskError::Failed => io::Error::other("another program changed it"),
        }
    }
}

// Whether a link fails so where the system has none.
fn is_without_links(kind: io::ErrorKind) -> bool
    ensures { IsTrue result ↔ (kind ≡ Unsupported) ⊎ (kind ≡ PermissionDenied) }
{
    matches!(
        kind,
        io::ErrorKind::Unsupported | io::ErrorKind::PermissionDenied
    )
}

impl From<AllocError> for DiskError {
    fn from(_error: AllocError) -> DiskError {
        DiskError::OutOfMemory
    }
}

impl<T: Drop> From<AllocFailed<T>> for DiskError {
    fn from(_error: AllocFailed<T>) -> DiskError {
        DiskError::OutOfMemory
    }
}

impl From<io::Error> for DiskError {
    fn from(error: io::Error) -> DiskError {
        match error.kind() {
            io::ErrorKind::OutOfMemory => DiskError::OutOfMemory,
            io::ErrorKind::AlreadyExists => DiskError::AlreadyExists,
            io::ErrorKind::NotFound => DiskError::NotFound,
            _ => DiskError::System(error),
        }
    }
}
