//! A folder of the system. Of what the system does nothing is known to a proof, so a `SystemDisk`
//! is nowhere proved honest: that it is, is trusted.

ghost use Rattle.std.specs.Prelude.{◌≡◌};
ghost use Rattle.std.specs.String.{string_bytes};

use crate::disk::Disk;
use crate::error::DiskError;
use std::alloc::Global;
use std::fs::{File, Metadata, OpenFile, OpenOptions};
use std::io::{Read, Seek, SeekFrom, Write};
use std::os::unix::fs::{MetadataExt, OpenOptionsExt};
use std::rt::Files;
use std::{fs, io};

/// A folder of the system, by its path.
#[derive(Drop)]
pub struct SystemDisk<R: Files> {
    /// The system.
    pub rt: R,
    /// The folder's path.
    pub folder: String,
    /// Who may read the files that are made, as far as the system lets them.
    pub mode: u32,
}

// All may read them.
const SHARED: u32 = 0o666;

/// An open file of such a folder.
#[derive(Drop)]
pub struct SystemFile<F> {
    file: F,
    // where the next byte is read
    position: u64,
}

impl<R: Files + AllocGlobal + Drop> SystemDisk<R> {
    /// The folder at a path.
    pub fn new(rt: R, folder: String) -> SystemDisk<R>
        ensures { string_bytes result.folder ≡ string_bytes folder }
    {
        SystemDisk::with_mode(rt, folder, SHARED)
    }

    /// The same, with files for those whom this mode tells.
    pub fn with_mode(rt: R, folder: String, mode: u32) -> SystemDisk<R>
        ensures { string_bytes result.folder ≡ string_bytes folder }
    {
        SystemDisk { rt, folder, mode }
    }

    fn path(&self, name: &str) -> Result<String, DiskError> {
        let folder = self.folder.as_str();
        Ok(format!(in self.rt.alloc(); "{folder}/{name}")?)
    }

    // Only regular files are opened: a pipe that nobody writes to is not waited for.
    fn length(&self, path: &str) -> Result<Option<u64>, DiskError> {
        match fs::symlink_metadata(&self.rt, path) {
            Ok(found) if found.is_file() => Ok(Some(found.len())),
            Ok(_) => Ok(None),
            Err(error) if error.kind() == io::ErrorKind::NotFound => Ok(None),
            Err(error) => Err(DiskError::from(error)),
        }
    }
}

// A failure, whatever the cause.
fn as_failed(outcome: io::Result<()>) -> Result<(), DiskError> {
    match outcome {
        Ok(()) => Ok(()),
        Err(error) => Err(DiskError::System(error)),
    }
}

// Whether both are of one file.
fn is_same_file(one: &Metadata, other: &Metadata) -> bool {
    one.dev() == other.dev() && one.ino() == other.ino()
}

impl<R: Files + AllocGlobal + Clone + Drop> Disk for SystemDisk<R> {
    ghost use Rattle.std.specs.Prelude.{[], false};
    ghost use Rattle.disks.specs.Changed.{empty};

    type File = SystemFile<R::File>;

    type Folder = R::File;

    ghost place = { λ d. string_bytes d.folder };

    ghost folder = { λ d. empty };

    ghost past = { λ d. [] };

    ghost honest = { λ d. ⊥ };

    ghost relied = { λ name bytes. false };

    ghost inode = { λ f. 0 };

    // What is written comes at the end of the file, also where another program cuts it meanwhile,
    // which no store does.
    fn create(&mut self, name: &str) -> Result<SystemFile<R::File>, DiskError> {
        let path = self.path(name)?;
        let mut options = OpenOptions::new();
        options.append(true).create_new(true);
        options.mode(self.mode);
        Ok(SystemFile {
            file: options.open(&self.rt, path.as_str())?,
            position: 0,
        })
    }

    fn append(&mut self, file: &mut SystemFile<R::File>, bytes: &[u8]) -> Result<(), DiskError> {
        as_failed(file.file.write_all(bytes))
    }

    fn sync_file(&mut self, file: &SystemFile<R::File>) -> Result<(), DiskError> {
        as_failed(file.file.sync_all())
    }

    fn rename(
        &mut self,
        file: &SystemFile<R::File>,
        length: u64,
        from: &str,
        to: &str,
    ) -> Result<(), DiskError> {
        let from = self.path(from)?;
        let to = self.path(to)?;
        let there = fs::symlink_metadata(&self.rt, from.as_str())?;
        let own = file.file.metadata()?;
        if !is_same_file(&there, &own) || own.len() != length {
            return Err(DiskError::Failed);
        }
        Ok(fs::rename(&self.rt, from.as_str(), to.as_str())?)
    }

    fn link(&mut self, from: &str, to: &str) -> Result<(), DiskError> {
        let from = self.path(from)?;
        let to = self.path(to)?;
        Ok(fs::hard_link(&self.rt, from.as_str(), to.as_str())?)
    }

    fn open_folder(&mut self) -> Result<R::File, DiskError> {
        Ok(File::open(&self.rt, self.folder.as_str())?)
    }

    fn sync_folder(&mut self, opened: &R::File) -> Result<(), DiskError> {
        as_failed(opened.sync_all())
    }

    fn open(&mut self, name: &str) -> Result<SystemFile<R::File>, DiskError> {
        let path = self.path(name)?;
        if self.length(path.as_str())?.is_none() {
            return Err(DiskError::NotFound);
        }
        Ok(SystemFile {
            file: File::open(&self.rt, path.as_str())?,
            position: 0,
        })
    }

    fn read_at(
        &mut self,
        file: &mut SystemFile<R::File>,
        offset: u64,
        out: &mut [u8],
    ) -> Result<(), DiskError> {
        if file.position != offset {
            file.file.seek(SeekFrom::Start(offset))?;
        }
        file.file.read_exact(out)?;
        file.position = offset.saturating_add(out.len() as u64);
        Ok(())
    }

    fn find(&mut self, name: &str) -> Result<Option<u64>, DiskError> {
        let path = self.path(name)?;
        self.length(path.as_str())
    }

    // A name that is not UTF-8 is passed over.
    fn list(&mut self, alloc: Global) -> Result<Vec<String>, DiskError> {
        let mut names = Vec::new(alloc);
        for entry in fs::read_dir(&self.rt, self.folder.as_str())? {
            match entry {
                Ok(entry) => names.push(String::from_str(alloc, entry.file_name())?)?,
                Err(error) if error.kind() == io::ErrorKind::InvalidFilename => {}
                Err(error) => return Err(DiskError::from(error)),
            }
        }
        Ok(names)
    }

    fn remove(&mut self, name: &str) -> Result<(), DiskError> {
        let path = self.path(name)?;
        Ok(fs::remove_file(&self.rt, path.as_str())?)
    }
}
