//! The new file beside the one that a `get` is to write, which gets its name once it is whole.

ghost use Rattle.std.specs.Prelude.{◌≢◌};
ghost use Rattle.std.specs.String.{string_bytes};

use crate::target::{MOST_PARTS, folder_of, part_name};
use disks::disk::Disk;
use disks::error::DiskError;
use disks::moving::Unmoved;
use disks::system::{SystemDisk, SystemFile};
use disks::written;
use grid_faults::Fault;
use std::alloc::{AllocError, Global};
use std::io;
use std::io::Write;
use std::rt::Files;
use user_files::{at_path, folder_before, last_name};

/// A new file beside the one that is to have its bytes, and their folder. What is done there are
/// the calls of `disks::written`.
#[derive(Drop)]
pub struct Beside<R: Files + AllocGlobal + Clone + Drop> {
    disk: SystemDisk<R>,
    file: SystemFile<R::File>,
    names: Names,
    length: u64,
    fault: Option<io::Error>,
}

// Its own name and its path, and those of the file that it is to become.
#[derive(Drop)]
struct Names {
    own: String,
    last: String,
    path: String,
    whole: String,
    ghost apart: { string_bytes own ≢ string_bytes last },
}

impl Names {
    // Those of the file beside a path that is tried so far behind the first.
    fn new(alloc: Global, whole: &str, turn: u8) -> Result<Names, Fault> {
        let last = last_name(whole);
        let own = part_name(alloc, last, turn)?;
        Ok(Names {
            path: path_beside(alloc, whole, last, own.as_str())?,
            own,
            last: String::from_str(alloc, last)?,
            whole: String::from_str(alloc, whole)?,
        })
    }

    // The path that a fault names: its own, or the folder's once it was renamed.
    fn told(&self, is_renamed: bool) -> &str {
        if is_renamed {
            folder_of(self.whole.as_str())
        } else {
            self.path.as_str()
        }
    }

    // A file that was begun with them, or the fault, which names its path.
    fn begun<F: Drop>(
        self,
        alloc: Global,
        outcome: Result<F, DiskError>,
    ) -> Result<(F, Names), Fault> {
        match outcome {
            Ok(file) => Ok((file, self)),
            Err(error) => at_path(alloc, Err(error.reason()), self.path.as_str()),
        }
    }
}

// The path of a name in the folder of a path whose last name this is.
fn path_beside(alloc: Global, whole: &str, last: &str, own: &str) -> Result<String, AllocError> {
    let front = whole.strip_suffix(last).unwrap_or("");
    format!(in alloc; "{front}{own}")
}

impl<R: Files + AllocGlobal + Clone + Drop> Beside<R> {
    /// Makes it beside the file of a path, under the first of its names that is not taken.
    pub(crate) fn begin(rt: &R, whole: &str) -> Result<Beside<R>, Fault> {
        let folder = String::from_str(rt.alloc(), folder_before(whole))?;
        let mut disk = SystemDisk::new(rt.clone()?, folder);
        let (file, names) = first_free(rt.alloc(), &mut disk, whole)?;
        Ok(Beside {
            disk,
            file,
            names,
            length: 0,
            fault: None,
        })
    }

    /// Puts it on the disk, renames it, and puts its new name on the disk.
    pub(crate) fn keep(self) -> Result<(), Fault> {
        let Beside {
            mut disk,
            file,
            names,
            length,
            fault: _,
        } = self;
        match finish_named(&mut disk, &file, length, &names) {
            Ok(()) => Ok(()),
            Err(unmoved) => {
                let reason = unmoved.error.reason();
                at_path(disk.rt.alloc(), Err(reason), names.told(unmoved.is_moved))
            }
        }
    }

    /// Leaves it as it is, or removes one without a byte. Gives its path, and why it could not be
    /// written.
    pub(crate) fn give_up(self) -> (String, Option<io::Error>) {
        let Beside {
            mut disk,
            file: _file,
            names,
            length,
            fault,
        } = self;
        if length == 0 {
            let _ = give_up_named(&mut disk, &names);
        }
        (names.path, fault)
    }
}

// Puts a file of so many bytes on the disk, and gives it the name that it is to have.
fn finish_named<D: Disk>(
    disk: &mut D,
    file: &D::File,
    length: u64,
    names: &Names,
) -> Result<(), Unmoved> {
    written::finish(disk, file, length, names.own.as_str(), names.last.as_str())
}

// Removes a file, if it has no byte.
fn give_up_named<D: Disk>(disk: &mut D, names: &Names) -> Result<(), DiskError> {
    written::give_up(disk, names.own.as_str())
}

// A new file beside a path.
fn first_free<R>(
    alloc: Global,
    disk: &mut SystemDisk<R>,
    whole: &str,
) -> Result<(SystemFile<R::File>, Names), Fault>
where
    R: Files + AllocGlobal + Clone + Drop,
{
    for turn in 1..MOST_PARTS {
        let names = Names::new(alloc, whole, turn)?;
        match written::begin(disk, names.own.as_str()) {
            Err(DiskError::AlreadyExists) => {}
            begun => return names.begun(alloc, begun),
        }
    }
    let names = Names::new(alloc, whole, MOST_PARTS)?;
    let begun = written::begin(disk, names.own.as_str());
    names.begun(alloc, begun)
}

impl<R: Files + AllocGlobal + Clone + Drop> Write for Beside<R> {
    fn write(&mut self, buf: &[u8]) -> io::Result<usize> {
        match written::write(&mut self.disk, &mut self.file, buf) {
            Ok(()) => {
                self.length = self.length.saturating_add(buf.len() as u64);
                Ok(buf.len())
            }
            Err(error) => {
                let error = error.reason();
                self.fault = Some(error);
                Err(error)
            }
        }
    }

    // What was written is with the system.
    fn flush(&mut self) -> io::Result<()> {
        Ok(())
    }
}
