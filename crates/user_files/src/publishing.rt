//! Files that appear whole, with their bytes on the disk, and never in place of another that was
//! not meant.

ghost use Rattle.std.specs.Prelude.{◌≢◌, IfOk};
ghost use Rattle.std.specs.String.{string_bytes};

use crate::names::random_name;
use crate::paths::last_name;
use disks::system::SystemDisk;
use disks::whole;
use disks::whole::Published;
use std::fs::{File, OpenFile};
use std::io;
use std::random::RandomSource;
use std::rt::Files;

/// Files that all may read whom the system lets, and files of their owner alone.
pub const SHARED: u32 = 0o666;

pub const OWNER_ONLY: u32 = 0o600;

/// A file that is to be made.
#[derive(Clone, Copy)]
pub struct NewFile<'a> {
    /// The folder in which it stands, and its path.
    pub folder: &'a str,
    pub path: &'a str,
    pub text: &'a [u8],
    /// Who may read it.
    pub mode: u32,
}

/// Makes a file where nothing has its name, and says whether it did. The name and the bytes are on
/// the disk then.
///
/// It is written under a name of its own, and linked: so it is never seen in part. Where the file
/// system has no links it is written under its name, and a kill may leave it in part. A kill may
/// leave the other name, which begins with the file's and a dot.
pub fn publish<R>(rt: &R, file: &NewFile<'_>) -> io::Result<bool>
where
    R: Files + RandomSource + AllocGlobal,
{
    let name = last_name(file.path);
    let own = own_name(rt, name)?;
    let mut disk = disk_of(rt, file)?;
    match whole::publish(&mut disk, own.as_str(), name, file.text) {
        Ok(published) => Ok(published != Published::Taken),
        Err(unmade) => Err(unmade.error.reason()),
    }
}

/// Makes a file, or one in place of another. The name and the bytes are on the disk then.
pub fn replace<R>(rt: &R, file: &NewFile<'_>) -> io::Result<()>
where
    R: Files + RandomSource + AllocGlobal,
{
    let name = last_name(file.path);
    let own = own_name(rt, name)?;
    let mut disk = disk_of(rt, file)?;
    match whole::replace(&mut disk, own.as_str(), name, file.text) {
        Ok(()) => Ok(()),
        Err(unmade) => Err(unmade.error.reason()),
    }
}

// A name of its own, beside the file's.
fn own_name<R>(rt: &R, name: &str) -> io::Result<String>
where
    R: RandomSource + AllocGlobal,
    ensures { IfOk result (λ own. string_bytes own ≢ name.now) }
{
    let random = random_name(rt)?;
    Ok(format!(in rt.alloc(); "{name}.{random}")?)
}

// The folder in which a file is made.
fn disk_of<'a, R>(rt: &'a R, file: &NewFile<'_>) -> io::Result<SystemDisk<&'a R>>
where
    R: Files + AllocGlobal,
{
    let folder = String::from_str(rt.alloc(), file.folder)?;
    Ok(SystemDisk::with_mode(rt, folder, file.mode))
}

/// Puts the names that stand in a folder on the disk.
pub fn sync_folder<R: Files>(rt: &R, folder: &str) -> io::Result<()> {
    File::open(rt, folder)?.sync_all()
}
