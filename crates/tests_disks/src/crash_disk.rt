//! The disk of a folder in memory that stops at a call.

use disks::disk::Disk;
use disks::error::DiskError;
use std::alloc::Global;
use std::cell::RefCell;
use test_disks::Held;

// A disk over such a folder.
#[derive(Drop)]
pub(crate) struct CrashDisk<'a> {
    pub(crate) alloc: Global,
    pub(crate) held: &'a RefCell<Held>,
}

// An open file of it.
#[derive(Clone, Copy)]
pub(crate) struct CrashFile {
    number: usize,
}

// The folder, opened.
#[derive(Clone, Copy)]
pub(crate) struct CrashFolder;

impl<'a> Disk for CrashDisk<'a> {
    ghost use Rattle.std.specs.Prelude.{[], false};
    ghost use Rattle.disks.specs.Changed.{empty};

    type File = CrashFile;

    type Folder = CrashFolder;

    ghost place = { λ d. [] };

    ghost folder = { λ d. empty };

    ghost past = { λ d. [] };

    ghost honest = { λ d. ⊥ };

    ghost relied = { λ name bytes. false };

    ghost inode = { λ f. 0 };

    fn create(&mut self, name: &str) -> Result<CrashFile, DiskError> {
        let Ok(mut held) = self.held.try_borrow_mut() else {
            return Err(DiskError::Failed);
        };
        let number = held.create(self.alloc, name)?;
        Ok(CrashFile { number })
    }

    fn append(&mut self, file: &mut CrashFile, bytes: &[u8]) -> Result<(), DiskError> {
        match self.held.try_borrow_mut() {
            Ok(mut held) => held.append(file.number, bytes),
            Err(_) => Err(DiskError::Failed),
        }
    }

    fn sync_file(&mut self, file: &CrashFile) -> Result<(), DiskError> {
        match self.held.try_borrow_mut() {
            Ok(mut held) => held.sync_file(file.number),
            Err(_) => Err(DiskError::Failed),
        }
    }

    fn rename(
        &mut self,
        file: &CrashFile,
        _length: u64,
        from: &str,
        to: &str,
    ) -> Result<(), DiskError> {
        match self.held.try_borrow_mut() {
            Ok(mut held) => held.rename(self.alloc, file.number, from, to),
            Err(_) => Err(DiskError::Failed),
        }
    }

    fn link(&mut self, from: &str, to: &str) -> Result<(), DiskError> {
        match self.held.try_borrow_mut() {
            Ok(mut held) => held.link(self.alloc, from, to),
            Err(_) => Err(DiskError::Failed),
        }
    }

    fn open_folder(&mut self) -> Result<CrashFolder, DiskError> {
        match self.held.try_borrow_mut() {
            Ok(mut held) => {
                held.call()?;
                Ok(CrashFolder)
            }
            Err(_) => Err(DiskError::Failed),
        }
    }

    fn sync_folder(&mut self, _opened: &CrashFolder) -> Result<(), DiskError> {
        match self.held.try_borrow_mut() {
            Ok(mut held) => held.sync_names(self.alloc),
            Err(_) => Err(DiskError::Failed),
        }
    }

    fn open(&mut self, name: &str) -> Result<CrashFile, DiskError> {
        let Ok(held) = self.held.try_borrow() else {
            return Err(DiskError::Failed);
        };
        match held.found(name) {
            Some(number) => Ok(CrashFile { number }),
            None => Err(DiskError::NotFound),
        }
    }

    fn read_at(
        &mut self,
        file: &mut CrashFile,
        offset: u64,
        out: &mut [u8],
    ) -> Result<(), DiskError> {
        match self.held.try_borrow() {
            Ok(held) => held.read_at(file.number, offset, out),
            Err(_) => Err(DiskError::Failed),
        }
    }

    fn find(&mut self, name: &str) -> Result<Option<u64>, DiskError> {
        match self.held.try_borrow() {
            Ok(held) => Ok(held.length(name)),
            Err(_) => Err(DiskError::Failed),
        }
    }

    fn list(&mut self, alloc: Global) -> Result<Vec<String>, DiskError> {
        match self.held.try_borrow() {
            Ok(held) => held.list(alloc),
            Err(_) => Err(DiskError::Failed),
        }
    }

    fn remove(&mut self, name: &str) -> Result<(), DiskError> {
        match self.held.try_borrow_mut() {
            Ok(mut held) => held.remove(self.alloc, name),
            Err(_) => Err(DiskError::Failed),
        }
    }
}
