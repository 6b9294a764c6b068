//! Locks of the system.

use std::fs::{File, TryLockError};
use std::io;

/// Locks of files and folders, each of which one process holds alone, or some hold together.
pub trait Locks {
    /// A lock. It is let go of where it is dropped, and where its process ends.
    type Lock: Drop;

    /// Takes the lock of the file or the folder at a path, alone. None where it is held already.
    fn try_lock(&self, path: &str) -> io::Result<Option<Self::Lock>>;

    /// Takes it together with those that take it so. None where a process holds it alone.
    fn try_lock_shared(&self, path: &str) -> io::Result<Option<Self::Lock>>;
}

impl Locks for HostRuntime {
    type Lock = File;

    fn try_lock(&self, path: &str) -> io::Result<Option<File>> {
        let file = File::open(self, path)?;
        let taken = file.try_lock();
        locked(file, taken)
    }

    fn try_lock_shared(&self, path: &str) -> io::Result<Option<File>> {
        let file = File::open(self, path)?;
        let taken = file.try_lock_shared();
        locked(file, taken)
    }
}

// The lock of a file that was asked for, where it was free.
fn locked(file: File, taken: Result<(), TryLockError>) -> io::Result<Option<File>> {
    match taken {
        Ok(()) => Ok(Some(file)),
        Err(TryLockError::WouldBlock) => Ok(None),
        Err(TryLockError::Error(error)) => Err(error),
    }
}
