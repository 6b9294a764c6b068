//! A folder in which tests run commands: one for each process that is this process's own.
#![tactic(auto)]

use std::alloc::AllocError;
use std::{fs, io, process};

/// A path in that folder.
pub fn path(rt: &HostRuntime, rest: &str) -> Result<String, AllocError> {
    let process = process::id(rt.process());
    format!(in rt.alloc(); "/tmp/grid-tests-{process}{rest}")
}

/// This text with that folder in place of each `@`.
pub fn placed(rt: &HostRuntime, text: &str) -> Result<String, AllocError> {
    let root = path(rt, "")?;
    let mut placed = String::new(rt.alloc());
    for (number, part) in text.split('@').enumerate() {
        if number != 0 {
            placed.push_str(root.as_str())?;
        }
        placed.push_str(part)?;
    }
    Ok(placed)
}

/// Writes a file in it.
pub fn writes(rt: &HostRuntime, rest: &str, bytes: &[u8]) -> io::Result<()> {
    fs::write(rt, path(rt, rest)?.as_str(), bytes)
}

/// Makes a folder in it.
pub fn makes_folder(rt: &HostRuntime, rest: &str) -> io::Result<()> {
    fs::create_dir_all(rt, path(rt, rest)?.as_str())
}

/// Whether something stands at a path in it.
pub fn stands(rt: &HostRuntime, rest: &str) -> io::Result<bool> {
    fs::exists(rt, path(rt, rest)?.as_str())
}

/// Whether a file in it has these bytes.
pub fn holds(rt: &HostRuntime, rest: &str, bytes: &[u8]) -> io::Result<bool> {
    Ok(fs::read(rt, path(rt, rest)?.as_str())?.as_slice() == bytes)
}

/// Makes the folder anew, with nothing in it.
pub fn begins(rt: &HostRuntime) -> bool {
    removes_all(rt) && makes_folder(rt, "").is_ok()
}

/// Removes it with all that it holds, where it is there.
pub fn removes_all(rt: &HostRuntime) -> bool {
    let Ok(root) = path(rt, "") else {
        return false;
    };
    match fs::exists(rt, root.as_str()) {
        Ok(true) => fs::remove_dir_all(rt, root.as_str()).is_ok(),
        Ok(false) => true,
        Err(_) => false,
    }
}

/// So many bytes, of which byte i is i modulo 251.
pub fn counted(rt: &HostRuntime, size: usize) -> Result<Vec<u8>, AllocError> {
    let mut bytes = Vec::with_capacity(rt.alloc(), size)?;
    for i in 0..size {
        bytes.push((i % 251) as u8)?;
    }
    Ok(bytes)
}
