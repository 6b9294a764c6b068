//! The folders of servers, and the marks that they get.

ghost use Rattle.std.specs.Prelude.{IfOk};
ghost use Rattle.grid_marks.specs.Servers.{IsOwn};

use crate::addresses::{AddressFile, publish_addresses};
use crate::folders::{is_elsewhere, is_served_elsewhere, server_folder};
use crate::mark::{Kind, Mark};
use crate::marks::{Likeness, find_mark, likeness_of, mark_path};
use grid_faults::{Fault, server_name, told_path};
use share_folders::disk::{Durability, make_folder};
use std::alloc::{AllocError, Global};
use std::fs::Metadata;
use std::io::ErrorKind;
use std::ops::Range;
use std::os::unix::fs::MetadataExt;
use std::random::RandomSource;
use std::rt::Files;
use std::{fs, io};
use user_files::{NewFile, SHARED, at_path, if_there, publish, sync_folder};
use wire::message::NodeId;

/// The numbers of a folder's file system, and of the folder in it.
type Numbers = (u64, u64);

/// The folders of some servers, by the numbers that the system has for them.
pub(crate) type Folders = Vec<(Numbers, NodeId)>;

/// Notes a server's folder. `SameFolder` where another server has it.
pub(crate) fn note_folder(
    alloc: Global,
    folders: &mut Folders,
    folder: &Metadata,
    server: NodeId,
) -> Result<(), Fault> {
    let numbers = (folder.dev(), folder.ino());
    if let Some(first) = server_with(folders.as_slice(), numbers) {
        return Err(same_folder(alloc, first, server)?);
    }
    folders.push((numbers, server))?;
    Ok(())
}

// The server whose folder has these numbers.
fn server_with(folders: &[(Numbers, NodeId)], numbers: Numbers) -> Option<NodeId> {
    for (others, server) in folders {
        if *others == numbers {
            return Some(*server);
        }
    }
    None
}

/// Notes the folders of these servers that can be seen: one that cannot is in nobody's way.
pub(crate) fn note_seen<R>(
    rt: &R,
    grid: &str,
    servers: &[NodeId],
    folders: &mut Folders,
) -> Result<(), Fault>
where
    R: Files + AllocGlobal,
{
    for server in servers {
        let folder = server_folder(rt.alloc(), grid, *server)?;
        if let Some(found) = if_there(fs::metadata(rt, folder.as_str()))? {
            folders.push(((found.dev(), found.ino()), *server))?;
        }
    }
    Ok(())
}

/// A server's folder, where it stands already; one that runs elsewhere has none here. What stands
/// there and is for no server is refused, and so is a link to nothing, as to a disk that is not
/// mounted.
pub(crate) fn standing_folder<R>(
    rt: &R,
    grid: &str,
    server: NodeId,
) -> Result<Option<Metadata>, Fault>
where
    R: Files + AllocGlobal,
{
    let folder = server_folder(rt.alloc(), grid, server)?;
    let found = match fs::metadata(rt, folder.as_str()) {
        Ok(found) if found.is_dir() => Ok(Some(found)),
        Ok(found) if is_elsewhere(&found) => Ok(None),
        Ok(_) => Err(io::Error::from(ErrorKind::NotADirectory)),
        Err(error) if error.kind() != ErrorKind::NotFound => Err(error),
        Err(error) => match fs::symlink_metadata(rt, folder.as_str()) {
            Ok(_) => Err(error),
            Err(_) => Ok(None),
        },
    };
    at_path(rt.alloc(), found, folder.as_str())
}

/// Refuses a server's folder that has another mark. One that runs elsewhere has none here.
pub(crate) fn refuse_other_mark<R>(
    rt: &R,
    grid: &str,
    server: NodeId,
    known: &Mark,
) -> Result<(), Fault>
where
    R: Files + AllocGlobal,
{
    if !is_served_elsewhere(rt, grid, server)? {
        has_own_mark(rt, grid, server, known)?;
    }
    Ok(())
}

/// Whether a server's folder has its mark already. Another mark is refused.
pub(crate) fn has_own_mark<R>(
    rt: &R,
    grid: &str,
    server: NodeId,
    known: &Mark,
) -> Result<bool, Fault>
where
    R: Files + AllocGlobal,
{
    let alloc = rt.alloc();
    let folder = server_folder(alloc, grid, server)?;
    let path = mark_path(alloc, folder.as_str())?;
    let found = find_mark(rt, path.as_str(), Kind::Server);
    let found = at_path(alloc, found, path.as_str())?;
    let likeness = likeness_of(&found, &Mark::of_server(known.identity, server));
    is_own(alloc, likeness, server, path.as_str())
}

/// Whether what stands where a server's mark may stand, at this path, is its mark. `SameFolder`
/// where it is that of another server of the grid, and `OtherMark` where it is any other.
pub(crate) fn is_own(
    alloc: Global,
    likeness: Likeness,
    server: NodeId,
    path: &str,
) -> Result<bool, Fault>
    ensures { IfOk result (λ own. IsOwn own likeness) }
{
    match likeness {
        Likeness::Nothing => Ok(false),
        Likeness::Same => Ok(true),
        Likeness::OtherServer(first) => Err(same_folder(alloc, first, server)?),
        Likeness::OtherGrid | Likeness::NoMark => Err(Fault::OtherMark(told_path(alloc, path)?)),
    }
}

// The fault of two servers whose folders are one.
fn same_folder(alloc: Global, first: NodeId, second: NodeId) -> Result<Fault, AllocError> {
    let first = server_name(alloc, first)?;
    Ok(Fault::SameFolder(first, server_name(alloc, second)?))
}

/// Writes these files of servers that are served elsewhere, and marks all others of these servers.
/// All that is on the disk then.
pub(crate) fn mark_servers<R>(
    rt: &R,
    grid: &str,
    servers: Range<NodeId>,
    known: &Mark,
    elsewhere: &[AddressFile<'_>],
) -> Result<(), Fault>
where
    R: Files + RandomSource + AllocGlobal,
{
    publish_addresses(rt, grid, elsewhere)?;
    for server in servers {
        mark_server(rt, grid, server, known)?;
    }
    Ok(())
}

/// Makes a server's folder where it is not there, and marks it. The mark is on the disk then. One
/// that is served elsewhere has its mark from whoever serves it.
pub(crate) fn mark_server<R>(rt: &R, grid: &str, server: NodeId, known: &Mark) -> Result<(), Fault>
where
    R: Files + RandomSource + AllocGlobal,
{
    if is_served_elsewhere(rt, grid, server)? {
        return Ok(());
    }
    let alloc = rt.alloc();
    let folder = server_folder(alloc, grid, server)?;
    let made = make_folder(rt, folder.as_str(), Durability::Synced);
    at_path(alloc, made, folder.as_str())?;
    // a folder that was reached by two ways is seen here
    if !has_own_mark(rt, grid, server, known)? {
        return publish_own(rt, grid, server, known);
    }
    at_path(alloc, sync_folder(rt, folder.as_str()), folder.as_str())
}

// Writes the mark of a server. Another call may have been first, which wrote the same mark.
fn publish_own<R>(rt: &R, grid: &str, server: NodeId, known: &Mark) -> Result<(), Fault>
where
    R: Files + RandomSource + AllocGlobal,
{
    let alloc = rt.alloc();
    let folder = server_folder(alloc, grid, server)?;
    let path = mark_path(alloc, folder.as_str())?;
    let mark = Mark::of_server(known.identity, server);
    if publish_mark(rt, folder.as_str(), path.as_str(), &mark)?
        || has_own_mark(rt, grid, server, known)?
    {
        return Ok(());
    }
    Err(Fault::OtherMark(told_path(alloc, path.as_str())?))
}

/// Writes a mark in a folder, whole and on the disk, where nothing stands at its path, and says
/// whether it did.
pub fn publish_mark<R>(rt: &R, folder: &str, path: &str, mark: &Mark) -> Result<bool, Fault>
where
    R: Files + RandomSource + AllocGlobal,
{
    let text = mark.text(rt.alloc())?;
    let file = mark_file(folder, path, text.as_str());
    at_path(rt.alloc(), publish(rt, &file), path)
}

/// The file of a mark, of this text.
pub(crate) fn mark_file<'a>(folder: &'a str, path: &'a str, text: &'a str) -> NewFile<'a> {
    NewFile {
        folder,
        path,
        text: text.as_bytes(),
        mode: SHARED,
    }
}
