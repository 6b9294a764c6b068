//! The folders of a grid in memory, which stop at a call all at once.

use disks::error::DiskError;
use std::alloc::Global;
use std::{fs, io};
use test_disks::Held;

// A folder, by its path.
#[derive(Drop)]
struct Folder {
    path: String,
    held: Held,
}

// Some folders, the calls that changed them, and how many of them go well.
#[derive(Drop)]
pub(crate) struct Folders {
    folders: Vec<Folder>,
    calls: u64,
    stop: u64,
}

// The folder and the name of a path.
fn split(path: &str) -> (&str, &str) {
    match path.rsplit_once('/') {
        Some((folder, name)) => (folder, name),
        None => ("", path),
    }
}

fn as_io<T: Drop>(outcome: Result<T, DiskError>) -> io::Result<T> {
    match outcome {
        Ok(value) => Ok(value),
        Err(error) => Err(error.reason()),
    }
}

fn stopped() -> io::Error {
    io::Error::from(io::ErrorKind::Other)
}

impl Folders {
    // None, of which so many calls go well.
    pub(crate) fn new(alloc: Global, stop: u64) -> Folders {
        Folders {
            folders: Vec::new(alloc),
            calls: 0,
            stop,
        }
    }

    // Whether all calls went well.
    pub(crate) fn is_done(&self) -> bool {
        self.calls <= self.stop
    }

    // Counts a call, which may be the one at which all stops.
    pub(crate) fn call(&mut self) -> io::Result<()> {
        self.calls = self.calls.saturating_add(1);
        if self.calls <= self.stop {
            Ok(())
        } else {
            Err(stopped())
        }
    }

    // Takes a folder of the host with its files, all of which are on the disk.
    pub(crate) fn take(&mut self, rt: &HostRuntime, path: &str) -> io::Result<()> {
        let alloc = rt.alloc();
        let mut held = Held::new(alloc, u64::MAX);
        for entry in fs::read_dir(rt, path)? {
            let entry = entry?;
            let name = entry.file_name();
            let file = format!(in alloc; "{path}/{name}")?;
            if fs::symlink_metadata(rt, file.as_str())?.is_file() {
                let bytes = fs::read(rt, file.as_str())?;
                as_io(stand(alloc, &mut held, name, bytes.as_slice()))?;
            }
        }
        as_io(held.sync_names(alloc))?;
        let path = String::from_str(alloc, path)?;
        self.folders.push(Folder { path, held })?;
        Ok(())
    }

    // A folder by its path.
    pub(crate) fn folder(&self, path: &str) -> Option<&Held> {
        for folder in &self.folders {
            if folder.path.as_str() == path {
                return Some(&folder.held);
            }
        }
        None
    }

    // A folder and the name of a path in it.
    fn place<'a, 'b>(&'a mut self, path: &'b str) -> io::Result<(&'a mut Held, &'b str)> {
        let (above, name) = split(path);
        for folder in self.folders.iter_mut() {
            if folder.path.as_str() == above {
                return Ok((&mut folder.held, name));
            }
        }
        Err(stopped())
    }

    // Whether a path is in one of the folders.
    pub(crate) fn has(&self, path: &str) -> bool {
        self.folder(split(path).0).is_some()
    }

    pub(crate) fn create(&mut self, alloc: Global, path: &str) -> io::Result<()> {
        self.call()?;
        let (held, name) = self.place(path)?;
        as_io(held.create(alloc, name))?;
        Ok(())
    }

    // The number of the file at a path.
    pub(crate) fn found(&mut self, path: &str) -> io::Result<usize> {
        let (held, name) = self.place(path)?;
        held.found(name)
            .ok_or(io::Error::from(io::ErrorKind::NotFound))
    }

    pub(crate) fn append(&mut self, path: &str, number: usize, bytes: &[u8]) -> io::Result<()> {
        self.call()?;
        as_io(self.place(path)?.0.append(number, bytes))
    }

    pub(crate) fn sync_file(&mut self, path: &str, number: usize) -> io::Result<()> {
        self.call()?;
        as_io(self.place(path)?.0.sync_file(number))
    }

    // Puts the names of a folder on the disk; of one that is none of these, nothing.
    pub(crate) fn sync_names(&mut self, alloc: Global, path: &str) -> io::Result<()> {
        self.call()?;
        for folder in self.folders.iter_mut() {
            if folder.path.as_str() == path {
                as_io(folder.held.sync_names(alloc))?;
            }
        }
        Ok(())
    }

    // A file gets another name in its folder.
    pub(crate) fn rename(&mut self, alloc: Global, from: &str, to: &str) -> io::Result<()> {
        self.call()?;
        let number = self.found(from)?;
        let (held, old) = self.place(from)?;
        as_io(held.rename(alloc, number, old, split(to).1))
    }

    pub(crate) fn link(&mut self, alloc: Global, from: &str, to: &str) -> io::Result<()> {
        self.call()?;
        let (held, old) = self.place(from)?;
        as_io(held.link(alloc, old, split(to).1))
    }

    pub(crate) fn remove(&mut self, alloc: Global, path: &str) -> io::Result<()> {
        self.call()?;
        let (held, name) = self.place(path)?;
        as_io(held.remove(alloc, name))
    }
}

// Makes a file whose bytes are on the disk.
fn stand(alloc: Global, held: &mut Held, name: &str, bytes: &[u8]) -> Result<(), DiskError> {
    let number = held.create(alloc, name)?;
    held.append(number, bytes)?;
    held.sync_file(number)
}
