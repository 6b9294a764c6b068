//! Files below the folder into which those of a catalogue are got.

ghost use Rattle.std.specs.Prelude.{◌≡◌, ◌++◌, IfOk, codes};
ghost use Rattle.std.specs.String.{string_bytes};

use crate::listed::unnamed;
use grid_faults::Fault;
use std::alloc::{AllocError, Global};
use std::fs::{self, Metadata};
use std::io::{self, ErrorKind};
use std::rt::Files;
use user_files::{at_path, folder_before, sync_folder};

/// A name as a text. A fault of its file where it is no UTF-8: the system is asked for none.
pub fn text_of(alloc: Global, name: &[u8]) -> Result<&str, Fault>
    ensures { IfOk result (λ text. text.now ≡ name.entry.now) }
{
    match str::from_utf8(name) {
        Ok(text) => Ok(text),
        Err(_) => Err(unnamed(alloc, name, ErrorKind::InvalidFilename)),
    }
}

/// The path of a file below a folder.
pub fn path_in(alloc: Global, folder: &str, name: &str) -> Result<String, AllocError>
    ensures { IfOk result
        (λ path. string_bytes path ≡ folder.now ++ (codes "/" ++ name.now)) }
{
    format!(in alloc; "{folder}/{name}")
}

/// Has the folder stand into which files are got. It may be a link to one.
pub(crate) fn make_folder<R: Files + AllocGlobal>(rt: &R, folder: &str) -> Result<(), Fault> {
    stand(rt, folder, fs::metadata(rt, folder))
}

/// Has the folders stand that lead to a name below a folder. None of them may be a link.
pub(crate) fn make_way<R>(rt: &R, folder: &str, name: &str) -> Result<(), Fault>
where
    R: Files + AllocGlobal,
{
    let Some((way, _)) = name.rsplit_once('/') else {
        return Ok(());
    };
    let mut path = String::from_str(rt.alloc(), folder)?;
    for part in way.split('/') {
        path = path_in(rt.alloc(), path.as_str(), part)?;
        stand(rt, path.as_str(), fs::symlink_metadata(rt, path.as_str()))?;
    }
    Ok(())
}

// Has a folder stand at a path, at which this was found. What is made is on the disk.
fn stand<R>(rt: &R, folder: &str, found: io::Result<Metadata>) -> Result<(), Fault>
where
    R: Files + AllocGlobal,
{
    let stands = match found {
        Ok(found) if found.is_dir() => Ok(()),
        Ok(_) => Err(io::Error::from(ErrorKind::NotADirectory)),
        Err(error) if error.kind() == ErrorKind::NotFound => make(rt, folder),
        Err(error) => Err(error),
    };
    at_path(rt.alloc(), stands, folder)
}

// Makes a folder, and puts its name on the disk.
fn make<R: Files + AllocGlobal>(rt: &R, folder: &str) -> io::Result<()> {
    fs::create_dir(rt, folder)?;
    sync_folder(rt, folder_before(folder))
}

/// Refuses a path at which something stands, but for a regular file that may be overwritten. A
/// link is not followed.
pub(crate) fn may_write<R>(rt: &R, path: &str, overwrite: bool) -> Result<(), Fault>
where
    R: Files + AllocGlobal,
{
    let reason = match fs::symlink_metadata(rt, path) {
        Err(error) if error.kind() == ErrorKind::NotFound => return Ok(()),
        Err(error) => error,
        Ok(found) if found.is_file() && overwrite => return Ok(()),
        Ok(_) => io::Error::from(ErrorKind::AlreadyExists),
    };
    at_path(rt.alloc(), Err(reason), path)
}
