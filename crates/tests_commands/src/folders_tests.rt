//! Why a server cannot serve, of folders that are there, are missing, or are none.

use grid_marks::{folder_fault, make_grid, server_folder};
use grid_servers::{Durability, Purpose, lock_folders};
use std::io::ErrorKind;
use std::test::Fail;
use std::{fs, io};
use user_files::Locks;

const WRITING: Purpose = Purpose::Writing(Durability::Synced);

// The folder of a test, with a name of its own.
fn grid(rt: &HostRuntime, name: &str) -> io::Result<String> {
    let process = std::process::id(rt.process());
    Ok(format!(in rt.alloc(); "/tmp/folder-tests-{process}-{name}")?)
}

// Why server 7 cannot serve.
fn fault(rt: &HostRuntime, grid: &str, purpose: Purpose) -> Option<ErrorKind> {
    match folder_fault(rt, grid, 7, purpose) {
        Ok(Some(error)) => Some(error.kind()),
        Ok(None) => None,
        Err(_) => Some(ErrorKind::OutOfMemory),
    }
}

// A folder is read, and written to, and holds then what it held.
#[test]
fn standing_folders_serve(rt: HostRuntime) -> Result<(), Fail> {
    let grid = grid(&rt, "standing")?;
    assert!(rt; make_grid(&rt, grid.as_str(), Durability::Synced).is_ok());
    let folder = server_folder(rt.alloc(), grid.as_str(), 7)?;
    assert!(rt; folder.as_str().ends_with("/server-007"));
    assert!(rt; fault(&rt, grid.as_str(), Purpose::Reading) == Some(ErrorKind::NotFound));
    assert!(rt; fault(&rt, grid.as_str(), WRITING).is_none());
    assert!(rt; fault(&rt, grid.as_str(), Purpose::Reading).is_none());
    let probe = format!(in rt.alloc(); "{folder}/.probe")?;
    fs::write(&rt, probe.as_str(), "left by an earlier trial")?;
    assert!(rt; fault(&rt, grid.as_str(), WRITING).is_none());
    assert!(rt; !fs::exists(&rt, probe.as_str())?);
    fs::remove_dir_all(&rt, grid.as_str())?;
    Ok(())
}

// What is no folder does not serve, and is left as it is.
#[test]
fn files_do_not_serve(rt: HostRuntime) -> Result<(), Fail> {
    let grid = grid(&rt, "file")?;
    fs::create_dir_all(&rt, grid.as_str())?;
    let folder = server_folder(rt.alloc(), grid.as_str(), 7)?;
    fs::write(&rt, folder.as_str(), "no folder")?;
    assert!(rt; fault(&rt, grid.as_str(), Purpose::Reading) == Some(ErrorKind::NotADirectory));
    assert!(rt; fault(&rt, grid.as_str(), WRITING) == Some(ErrorKind::AlreadyExists));
    assert!(rt; fs::read(&rt, folder.as_str())?.as_slice() == b"no folder".as_slice());
    fs::remove_dir_all(&rt, grid.as_str())?;
    Ok(())
}

// A folder in which no file can be made does not serve for writing.
#[test]
fn probes_that_cannot_be_made(rt: HostRuntime) -> Result<(), Fail> {
    let grid = grid(&rt, "probe")?;
    let folder = server_folder(rt.alloc(), grid.as_str(), 7)?;
    let probe = format!(in rt.alloc(); "{folder}/.probe")?;
    fs::create_dir_all(&rt, probe.as_str())?;
    assert!(rt; fault(&rt, grid.as_str(), Purpose::Reading).is_none());
    assert!(rt; fault(&rt, grid.as_str(), WRITING) == Some(ErrorKind::IsADirectory));
    fs::remove_dir_all(&rt, grid.as_str())?;
    Ok(())
}

// Whether commands may write to these folders at once.
fn may_write(rt: &HostRuntime, grid: &str) -> bool {
    let (Ok(first), Ok(second)) = (
        lock_folders(rt, grid, &[0, 7]),
        lock_folders(rt, grid, &[7]),
    ) else {
        return false;
    };
    first.len() == 1 && second.len() == 1
}

// Commands write to a folder side by side, and not while a process serves it. What is no folder has
// no lock.
#[test]
fn folders_that_are_served_are_closed(rt: HostRuntime) -> Result<(), Fail> {
    let grid = grid(&rt, "locked")?;
    let folder = server_folder(rt.alloc(), grid.as_str(), 7)?;
    fs::create_dir_all(&rt, folder.as_str())?;
    assert!(rt; may_write(&rt, grid.as_str()));
    let served = rt.try_lock(folder.as_str())?;
    assert!(rt; served.is_some() && rt.try_lock(folder.as_str())?.is_none());
    match lock_folders(&rt, grid.as_str(), &[7]) {
        Ok(_) => return Err(Fail::from("written to while it is served")),
        Err(fault) => assert!(rt; fault.number() == 105),
    }
    drop(served);
    let writing = lock_folders(&rt, grid.as_str(), &[7]);
    assert!(rt; rt.try_lock(folder.as_str())?.is_none() && may_write(&rt, grid.as_str()));
    drop(writing);
    fs::remove_dir_all(&rt, grid.as_str())?;
    Ok(())
}
