//! What makes names and bytes outlast a power failure.

use std::fs::{File, OpenFile};
use std::rt::Files;
use std::{fs, io};

/// Whether closed shares outlast a power failure of their machine.
#[derive(Clone, Copy, PartialEq, Eq)]
pub enum Durability {
    /// The bytes of a share and its closed name are on the disk before its close is answered.
    Synced,
    /// The system writes them when it likes: after a power failure a closed share may be gone, or
    /// stand under its name without its bytes.
    Unsynced,
}

/// Makes a folder, and those above it, where they are not there. Synced, its name is on the disk
/// then, whoever made it, and so are the names of those that are made. An error may leave some of
/// them made.
pub fn make_folder<R: Files + AllocGlobal>(
    rt: &R,
    folder: &str,
    durability: Durability,
) -> io::Result<()> {
    if is_folder(rt, folder) {
        return sync_name(rt, folder, durability);
    }
    let above = above(folder);
    if !is_folder(rt, above) {
        make_all(rt, above, durability)?;
    }
    make_one(rt, folder, durability)
}

// Makes the folders of a path that are not there, from the highest to the lowest.
fn make_all<R: Files + AllocGlobal>(rt: &R, path: &str, durability: Durability) -> io::Result<()> {
    for end in 1..=path.len() {
        if let Some((folder, rest)) = path.split_at_checked(end) {
            let is_whole = rest.is_empty() || rest.starts_with('/');
            if is_whole && !is_folder(rt, folder) {
                make_one(rt, folder, durability)?;
            }
        }
    }
    Ok(())
}

// Makes a folder in one that is there. Nothing is made in a folder whose own name may not be on the
// disk: a program that made it may have ended before it had put it there.
fn make_one<R: Files + AllocGlobal>(
    rt: &R,
    folder: &str,
    durability: Durability,
) -> io::Result<()> {
    sync_readable_name(rt, above(folder), durability)?;
    if let Err(error) = fs::create_dir(rt, folder) {
        if !is_folder(rt, folder) {
            return Err(error);
        }
    }
    sync_name(rt, folder, durability)
}

fn is_folder<R: Files>(rt: &R, path: &str) -> bool {
    fs::metadata(rt, path).is_ok_and(|found| found.is_dir())
}

// The folder in which a path's last name stands.
fn above(path: &str) -> &str {
    match path.trim_end_matches('/').rsplit_once('/') {
        Some((above, _)) if !above.is_empty() => above,
        None if !path.starts_with('/') => ".",
        _ => "/",
    }
}

// Whether a path ends in `.` or `..`, which are no names that a folder was given.
fn ends_in_dots(path: &str) -> bool {
    let path = path.trim_end_matches('/');
    let last = match path.rsplit_once('/') {
        Some((_, last)) => last,
        None => path,
    };
    last == "." || last == ".."
}

// Synced, puts the name of a folder that stands on the disk.
fn sync_name<R: Files + AllocGlobal>(
    rt: &R,
    folder: &str,
    durability: Durability,
) -> io::Result<()> {
    if durability == Durability::Unsynced {
        return Ok(());
    }
    if ends_in_dots(folder) {
        let above = format!(in rt.alloc(); "{folder}/..")?;
        return sync_folder(rt, above.as_str());
    }
    sync_folder(rt, above(folder))
}

/// The same, where the folder in which the name stands may be read: that of all users may be one
/// that no user can.
pub fn sync_readable_name<R: Files + AllocGlobal>(
    rt: &R,
    folder: &str,
    durability: Durability,
) -> io::Result<()> {
    match sync_name(rt, folder, durability) {
        Err(error) if error.kind() == io::ErrorKind::PermissionDenied => Ok(()),
        outcome => outcome,
    }
}

/// Puts the names that stand in a folder on the disk.
pub(crate) fn sync_folder<R: Files>(rt: &R, folder: &str) -> io::Result<()> {
    File::open(rt, folder)?.sync_all()
}
