//! How a grid comes to know its servers: its folder and theirs are marked.
//!
//! The mark of the grid has another name until all servers have theirs, so that a grid that was
//! left half marked is one that does not know its servers, and can be marked again. That name
//! stands for one identity as long as the grid has no mark: so two calls at once write the same
//! marks, and one of them is refused at the end.

ghost use Rattle.std.specs.Prelude.{◌≡◌, ◌↔◌, ◌<◌, length, IfErr, IfOk, IsOk};
ghost use Rattle.grid_marks.specs.Addresses.{AreOf};

use crate::addresses::{AddressFile, refuse_others, refuse_taken};
use crate::folders::{can_be_grid, make_grid};
use crate::mark::{Identity, Kind, Mark, identity_of};
use crate::marking::{
    Folders, mark_file, mark_servers, note_folder, publish_mark, refuse_other_mark, standing_folder,
};
use crate::marks::{Found, find_mark, mark_path};
use grid_faults::Fault;
use share_folders::disk::Durability;
use std::alloc::{AllocError, Global};
use std::fs;
use std::io::ErrorKind;
use std::random::RandomSource;
use std::rt::{Clock, Files};
use std::time::SystemTime;
use user_files::{at_path, replace};

/// Refuses what can be no grid's folder, and a grid that knows its servers already.
pub fn can_be_marked<R>(rt: &R, grid: &str) -> Result<(), Fault>
where
    R: Files + AllocGlobal,
    ensures { IsOk result → 0 < length grid.now }
{
    can_be_grid(rt, grid)?;
    match find_at(rt, mark_path(rt.alloc(), grid)?)? {
        Found::Nothing => Ok(()),
        Found::Mark(_) | Found::Other => Err(Fault::AlreadyGrid),
    }
}

/// Has a grid know that it has so many servers. Its folder and theirs are made where they are not
/// there, and keep what they hold; the marks are on the disk when this ends. A server that is
/// served elsewhere, by a socket or a file under its name, is counted, and has no mark from here:
/// so those of these files, which are written first.
///
/// `BadParameters` where one of the files is that of no such server, `SameFolder` where the folders
/// of two servers are one, `OtherMark` where one has a mark already, which is not that of an
/// earlier call that came to no end, and a fault of the path where something else stands in the
/// place of a file. What can be found before anything is written is refused then. `AlreadyGrid`
/// where an earlier call, or another at the same time, began with another number, and where another
/// came to its end first.
pub fn mark_grid<R>(
    rt: &R,
    grid: &str,
    servers: u16,
    elsewhere: &[AddressFile<'_>],
) -> Result<(), Fault>
where
    R: Files + Clock + RandomSource + AllocGlobal + Clone + Drop,
    ensures { IfOk result (λ _. AreOf 0 servers elsewhere.now) }
{
    refuse_others(elsewhere, 0..servers)?;
    let begun = begun_mark(rt, grid, servers)?;
    refuse_folders(rt, grid, &begun)?;
    refuse_taken(rt, grid, elsewhere)?;
    write_marks(rt, grid, &begun, elsewhere)
}

// Marks a grid and its servers, by a mark that another call began with, or a new one.
fn write_marks<R>(
    rt: &R,
    grid: &str,
    begun: &Mark,
    elsewhere: &[AddressFile<'_>],
) -> Result<(), Fault>
where
    R: Files + RandomSource + AllocGlobal,
{
    make_grid(rt, grid, Durability::Synced)?;
    let known = begin(rt, grid, begun)?;
    mark_servers(rt, grid, 0..begun.number, &known, elsewhere)?;
    end(rt, grid, &known)
}

// The mark that an earlier call began with, or a new one.
fn begun_mark<R>(rt: &R, grid: &str, servers: u16) -> Result<Mark, Fault>
where
    R: Files + Clock + AllocGlobal,
{
    match find_at(rt, part_path(rt.alloc(), grid)?)? {
        Found::Mark(begun) => agreed(begun, servers),
        Found::Nothing | Found::Other => Ok(Mark {
            identity: new_identity(rt, grid)?,
            kind: Kind::Grid,
            number: servers,
        }),
    }
}

// A mark that was begun with, where it has this number. A call goes on with no other.
fn agreed(begun: Mark, servers: u16) -> Result<Mark, Fault>
    ensures agreed { IsOk result ↔ (begun.number ≡ servers) }
    ensures same { IfOk result (λ mark. mark ≡ begun) }
    ensures refused { IfErr result (λ fault. fault ≡ Fault.AlreadyGrid) }
{
    if begun.number == servers {
        return Ok(begun);
    }
    Err(Fault::AlreadyGrid)
}

// An identity that no other grid has: of the folder's path, and the time.
fn new_identity<R>(rt: &R, grid: &str) -> Result<Identity, Fault>
where
    R: Clock + AllocGlobal,
{
    let alloc = rt.alloc();
    let now = at_path(alloc, SystemTime::now(rt), "the clock")?;
    let since = now
        .duration_since(SystemTime::UNIX_EPOCH)
        .unwrap_or_default();
    let (seconds, nanoseconds) = (since.as_secs(), since.subsec_nanos());
    let seed = format!(in alloc; "{grid} {seconds} {nanoseconds}")?;
    Ok(identity_of(seed.as_bytes()))
}

// Refuses servers of which two have one folder, and folders with other marks.
fn refuse_folders<R>(rt: &R, grid: &str, known: &Mark) -> Result<(), Fault>
where
    R: Files + AllocGlobal,
{
    let mut folders = Vec::new(rt.alloc());
    for server in 0..known.number {
        if let Some(folder) = standing_folder(rt, grid, server)? {
            note_folder(rt.alloc(), &mut folders, &folder, server)?;
        }
    }
    for server in 0..known.number {
        refuse_other_mark(rt, grid, server, known)?;
    }
    Ok(())
}

/// The name of the mark of a grid whose servers have not all their marks.
pub(crate) const PART: &str = "grid-mark.part";

// The path of that mark.
fn part_path(alloc: Global, grid: &str) -> Result<String, AllocError> {
    format!(in alloc; "{grid}/{PART}")
}

// What stands at the path of a grid's mark.
fn find_at<R>(rt: &R, path: String) -> Result<Found, Fault>
where
    R: Files + AllocGlobal,
{
    let found = find_mark(rt, path.as_str(), Kind::Grid);
    at_path(rt.alloc(), found, path.as_str())
}

// Begins with a mark, or goes on with the one that another call began with. `AlreadyGrid` where
// another has come to its end.
fn begin<R>(rt: &R, grid: &str, wanted: &Mark) -> Result<Mark, Fault>
where
    R: Files + RandomSource + AllocGlobal,
{
    let begun = claim(rt, grid, wanted)?;
    match find_at(rt, mark_path(rt.alloc(), grid)?)? {
        Found::Nothing => agreed(begun, wanted.number),
        Found::Mark(_) | Found::Other => {
            remove_part(rt, grid)?;
            Err(Fault::AlreadyGrid)
        }
    }
}

/// The mark under the name of one that is not whole yet: this one, where there was none. What is no
/// mark is replaced, as a write that was cut off leaves it where files have no links.
pub(crate) fn claim<R>(rt: &R, grid: &str, wanted: &Mark) -> Result<Mark, Fault>
where
    R: Files + RandomSource + AllocGlobal,
{
    let path = part_path(rt.alloc(), grid)?;
    if publish_mark(rt, grid, path.as_str(), wanted)? {
        return Ok(*wanted);
    }
    match find_at(rt, path)? {
        Found::Mark(begun) => Ok(begun),
        Found::Other => replace_part(rt, grid, wanted),
        Found::Nothing => Err(Fault::AlreadyGrid),
    }
}

/// Puts this mark in the place of one that is not whole yet.
pub(crate) fn replace_part<R>(rt: &R, grid: &str, wanted: &Mark) -> Result<Mark, Fault>
where
    R: Files + RandomSource + AllocGlobal,
    ensures { IfOk result (λ mark. mark ≡ wanted.now) }
{
    let alloc = rt.alloc();
    let (path, text) = (part_path(alloc, grid)?, wanted.text(alloc)?);
    let file = mark_file(grid, path.as_str(), text.as_str());
    at_path(alloc, replace(rt, &file), path.as_str())?;
    Ok(*wanted)
}

/// Writes the mark of a grid, whose servers have theirs. `AlreadyGrid` where it has one.
pub(crate) fn end<R>(rt: &R, grid: &str, known: &Mark) -> Result<(), Fault>
where
    R: Files + RandomSource + AllocGlobal,
{
    let path = mark_path(rt.alloc(), grid)?;
    if !publish_mark(rt, grid, path.as_str(), known)? {
        return Err(Fault::AlreadyGrid);
    }
    remove_part(rt, grid)
}

// Removes the mark that is not whole yet, of a grid that has its mark: nobody goes on with it.
fn remove_part<R>(rt: &R, grid: &str) -> Result<(), Fault>
where
    R: Files + AllocGlobal,
{
    let path = part_path(rt.alloc(), grid)?;
    let removed = match fs::remove_file(rt, path.as_str()) {
        Err(error) if error.kind() == ErrorKind::NotFound => Ok(()),
        outcome => outcome,
    };
    at_path(rt.alloc(), removed, path.as_str())
}
