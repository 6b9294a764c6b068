//! The folders of a grid: each server has one, `server-000` to `server-255`.

ghost use Rattle.std.specs.Prelude.{◌≡◌, ◌↔◌, ◌<◌, length, IfErr, IfOk, IsOk};
ghost use Rattle.std.specs.String.{string_bytes};
ghost use Rattle.share_folders.specs.Names.{in_folder};
ghost use Rattle.grid_faults.specs.Servers.{server_name};

use crate::marks::try_mark;
use grid_faults::{Fault, is_memory, server_name};
use share_folders::disk::{Durability, make_folder};
use share_folders::folder::Purpose;
use std::alloc::{AllocError, Global};
use std::fs::{Metadata, OpenOptions};
use std::io::{ErrorKind, Write};
use std::os::unix::fs::FileTypeExt;
use std::rt::Files;
use std::{fs, io};
use user_files::{at_path, if_there};
use wire::message::NodeId;

/// Refuses a grid's folder that is not there.
pub fn is_grid<R: Files + AllocGlobal + Clone + Drop>(rt: &R, grid: &str) -> Result<(), Fault>
    ensures { IsOk result → 0 < length grid.now }
{
    let alloc = rt.alloc();
    at_path(alloc, named(grid), grid)?;
    at_path(alloc, fs::read_dir(rt, grid), grid)?;
    Ok(())
}

/// Refuses what can be no grid's folder: a path without a name, and one at which there is something
/// else. A folder that is not there can be made.
pub fn can_be_grid<R: Files + AllocGlobal>(rt: &R, grid: &str) -> Result<(), Fault>
    ensures { IsOk result → 0 < length grid.now }
{
    let alloc = rt.alloc();
    at_path(alloc, named(grid), grid)?;
    let outcome = match fs::metadata(rt, grid) {
        Ok(found) if !found.is_dir() => Err(io::Error::from(ErrorKind::NotADirectory)),
        Ok(_) => Ok(()),
        Err(error) if error.kind() == ErrorKind::NotFound => Ok(()),
        Err(error) => Err(error),
    };
    at_path(alloc, outcome, grid)
}

// A path has a name.
fn named(path: &str) -> io::Result<()>
    ensures { IsOk result ↔ (0 < length path.now) }
{
    if path.is_empty() {
        return Err(io::Error::from(ErrorKind::NotFound));
    }
    Ok(())
}

/// Makes the folder of a grid where it is not there. Synced, its name is on the disk then, whoever
/// made it.
pub fn make_grid<R>(rt: &R, grid: &str, durability: Durability) -> Result<(), Fault>
where
    R: Files + AllocGlobal,
{
    at_path(rt.alloc(), make_folder(rt, grid, durability), grid)
}

/// The path of a server's folder.
pub fn server_folder(alloc: Global, grid: &str, server: NodeId) -> Result<String, AllocError>
    ensures { IfOk result
        (λ folder. string_bytes folder ≡ in_folder grid.now (server_name server)) }
{
    let name = server_name(alloc, server)?;
    format!(in alloc; "{grid}/{name}")
}

/// Whether what stands under a server's name is for one that runs elsewhere: a socket that leads to
/// it, or a file that has its address.
pub fn is_elsewhere(found: &Metadata) -> bool {
    found.is_file() || found.file_type().is_socket()
}

/// Whether a server is served elsewhere: a socket or a regular file stands under its name. An error
/// only where memory was refused.
pub fn is_served_elsewhere<R>(rt: &R, grid: &str, server: NodeId) -> Result<bool, Fault>
where
    R: Files + AllocGlobal,
    ensures { IfErr result (λ fault. fault ≡ Fault.OutOfMemory) }
{
    let path = server_folder(rt.alloc(), grid, server)?;
    match if_there(fs::metadata(rt, path.as_str()))? {
        Some(found) => Ok(is_elsewhere(&found)),
        None => Ok(false),
    }
}

// The name of the file that is made to try a folder. No share has it.
const PROBE: &str = ".probe";

/// Why a server cannot serve, as the system tells it, found by trying: its folder is read, and for
/// writing it is made where it is not there, and a file of one byte is written in it and removed. A
/// grid that knows its servers wants its mark first, and none is made there. None where all of that
/// went well.
pub fn folder_fault<R>(
    rt: &R,
    grid: &str,
    server: NodeId,
    purpose: Purpose,
) -> Result<Option<io::Error>, Fault>
where
    R: Files + AllocGlobal + Clone + Drop,
    ensures { IfErr result (λ fault. fault ≡ Fault.OutOfMemory) }
{
    let folder = server_folder(rt.alloc(), grid, server)?;
    match try_server(rt, grid, server, folder.as_str(), purpose) {
        Ok(()) => Ok(None),
        Err(error) if is_memory(&error) => Err(Fault::OutOfMemory),
        Err(error) => Ok(Some(error)),
    }
}

// Tries a server's folder, with its mark.
fn try_server<R>(
    rt: &R,
    grid: &str,
    server: NodeId,
    folder: &str,
    purpose: Purpose,
) -> io::Result<()>
where
    R: Files + AllocGlobal + Clone + Drop,
{
    try_mark(rt, grid, server)?;
    try_folder(rt, folder, purpose)
}

// Tries a folder, for reading or for writing too.
fn try_folder<R>(rt: &R, folder: &str, purpose: Purpose) -> io::Result<()>
where
    R: Files + AllocGlobal + Clone + Drop,
{
    match purpose {
        Purpose::Reading => try_reading(rt, folder),
        Purpose::Writing(durability) => {
            make_folder(rt, folder, durability)?;
            try_reading(rt, folder)?;
            try_writing(rt, folder)
        }
    }
}

// Reads the names in a folder. One that is not UTF-8 is no share's, and no fault.
fn try_reading<R>(rt: &R, folder: &str) -> io::Result<()>
where
    R: Files + AllocGlobal + Clone + Drop,
{
    for entry in fs::read_dir(rt, folder)? {
        match entry {
            Err(error) if error.kind() != ErrorKind::InvalidFilename => return Err(error),
            _ => {}
        }
    }
    Ok(())
}

// Writes a file of one byte in a folder, and removes it. One that an earlier trial left is removed
// first: what stands there may be no file.
fn try_writing<R: Files + AllocGlobal>(rt: &R, folder: &str) -> io::Result<()> {
    let path = format!(in rt.alloc(); "{folder}/{PROBE}")?;
    match fs::remove_file(rt, path.as_str()) {
        Err(error) if error.kind() != ErrorKind::NotFound => return Err(error),
        _ => {}
    }
    let written = write_new(rt, path.as_str());
    let removed = fs::remove_file(rt, path.as_str());
    written?;
    removed
}

// Makes a file of one byte where nothing stands.
fn write_new<R: Files>(rt: &R, path: &str) -> io::Result<()> {
    let mut options = OpenOptions::new();
    options.write(true).create_new(true);
    options.open(rt, path)?.write_all(b"1")
}
