//! How a grid that knows its servers gets a new disk for one, or servers more.

ghost use Rattle.std.specs.Prelude.{◌≡◌, ◌↔◌, ◌≤◌, ◌<◌, ◌+◌, ◌-◌, IfOk, IfSome, IfNone, IsErr};
ghost use Rattle.std.specs.Prelude.{IsOk, IsTrue};
ghost use Rattle.grid_marks.specs.Addresses.{AreOf};
ghost use Rattle.grid_marks.specs.Servers.{IsAlike, IsPassedOver};

use crate::addresses::{AddressFile, refuse_others, refuse_taken};
use crate::folders::server_folder;
use crate::init::{PART, claim, replace_part};
use crate::mark::{Kind, MAX_SERVERS, Mark};
use crate::marking::{
    has_own_mark, mark_server, mark_servers, note_folder, note_seen, refuse_other_mark,
    standing_folder,
};
use crate::marks::{MARK, known_mark, mark_path};
use disks::error::DiskError;
use disks::moving::{Unmoved, move_finished};
use disks::system::SystemDisk;
use grid_faults::{Fault, first_servers, told_path};
use std::alloc::Global;
use std::fs::Metadata;
use std::io::ErrorKind;
use std::random::RandomSource;
use std::rt::Files;
use std::{fs, io};
use user_files::at_path;
use wire::message::NodeId;

// What the name of a mark begins with that is not whole yet.
const MARK_BEGUN: &[u8] = b"grid-mark.";

/// Gives a server's folder, which is new and empty, the server's mark, as where its disk was lost.
/// A folder `lost+found` may stand in it. The mark is on the disk then.
///
/// `UnknownGrid` where the grid has no mark, `BadParameters` where it has no such server, a fault
/// of the folder where it does not stand, `SameFolder` and `OtherMark` where it has another mark,
/// `NotEmpty` where it holds anything, and `SameFolder` where it is another server's folder too.
/// Nothing is written then.
pub fn replace_server<R>(rt: &R, grid: &str, server: NodeId) -> Result<(), Fault>
where
    R: Files + RandomSource + AllocGlobal + Clone + Drop,
    ensures { IsOk result → server < MAX_SERVERS }
{
    let known = known_mark(rt, grid)?;
    if server >= known.number {
        return Err(Fault::BadParameters);
    }
    has_own_mark(rt, grid, server, &known)?;
    refuse_full(rt, grid, server)?;
    refuse_shared(rt, grid, server, &known)?;
    mark_server(rt, grid, server, &known)
}

// Refuses a server's folder that does not stand, or is not empty.
fn refuse_full<R>(rt: &R, grid: &str, server: NodeId) -> Result<(), Fault>
where
    R: Files + AllocGlobal + Clone + Drop,
{
    let alloc = rt.alloc();
    let folder = server_folder(alloc, grid, server)?;
    if at_path(alloc, is_empty(rt, folder.as_str()), folder.as_str())? {
        return Ok(());
    }
    Err(Fault::NotEmpty(told_path(alloc, folder.as_str())?))
}

// Whether a folder holds nothing but what a new server's may.
fn is_empty<R>(rt: &R, folder: &str) -> io::Result<bool>
where
    R: Files + AllocGlobal + Clone + Drop,
{
    for entry in fs::read_dir(rt, folder)? {
        match entry {
            Ok(entry) if is_passed_over(entry.file_name()) => {}
            Ok(_) => return Ok(false),
            Err(error) if error.kind() == ErrorKind::InvalidFilename => return Ok(false),
            Err(error) => return Err(error),
        }
    }
    Ok(true)
}

// Whether a new server's folder may hold this: what a file system makes, and its mark, also where
// an earlier call was cut off.
fn is_passed_over(name: &str) -> bool
    ensures { IsTrue result ↔ IsPassedOver name.now }
{
    name == "lost+found" || name == "grid-mark" || name.as_bytes().starts_with(MARK_BEGUN)
}

// Refuses a server's folder that another server of the grid has too.
fn refuse_shared<R>(rt: &R, grid: &str, server: NodeId, known: &Mark) -> Result<(), Fault>
where
    R: Files + AllocGlobal,
{
    let alloc = rt.alloc();
    let mut folders = Vec::new(alloc);
    let mut others = first_servers(alloc, known.number)?;
    others.retain(|other| *other != server);
    note_seen(rt, grid, others.as_slice(), &mut folders)?;
    match standing_folder(rt, grid, server)? {
        Some(folder) => note_folder(alloc, &mut folders, &folder, server),
        None => Ok(()),
    }
}

/// Has a grid that knows its servers know so many more, and gives how many they are then. Their
/// folders are made where they are not there, and these files are written of those that are served
/// elsewhere. The marks are on the disk when this ends; a call that was cut off leaves the old
/// number, and can be made again.
///
/// `UnknownGrid` where the grid has no mark, `BadParameters` where the servers were more than 256,
/// or one of the files is that of no new server, and the other faults as of `mark_grid`.
/// `AlreadyGrid` where another call at the same time, or one that was cut off, adds another number
/// of servers, and where another came to its end first.
pub fn add_servers<R>(
    rt: &R,
    grid: &str,
    more: u16,
    elsewhere: &[AddressFile<'_>],
) -> Result<u16, Fault>
where
    R: Files + RandomSource + AllocGlobal + Clone + Drop,
    ensures number { IfOk result (λ servers. (more ≤ servers) × (servers ≤ MAX_SERVERS)) }
    ensures elsewhere { IfOk result
        (λ servers. AreOf (servers - more) servers elsewhere.now) }
{
    let old = known_mark(rt, grid)?;
    let Some(new) = grown(&old, more) else {
        return Err(Fault::BadParameters);
    };
    refuse_others(elsewhere, old.number..new.number)?;
    grow(rt, grid, &old, &new, elsewhere)?;
    Ok(new.number)
}

// Has a grid of one mark have another one of more servers.
fn grow<R>(
    rt: &R,
    grid: &str,
    old: &Mark,
    new: &Mark,
    elsewhere: &[AddressFile<'_>],
) -> Result<(), Fault>
where
    R: Files + RandomSource + AllocGlobal + Clone + Drop,
{
    refuse_new(rt, grid, old, new)?;
    refuse_taken(rt, grid, elsewhere)?;
    begin_growth(rt, grid, old, new)?;
    mark_servers(rt, grid, old.number..new.number, new, elsewhere)?;
    end_growth(rt, grid, old, new)
}

// The mark of a grid with so many servers more. None where they are too many.
fn grown(old: &Mark, more: u16) -> Option<Mark>
    ensures fits { IfSome result (λ new. (new.identity ≡ old.now.identity)
        × (new.kind ≡ Kind.Grid) × (new.number ≡ old.now.number + more)
        × (new.number ≤ MAX_SERVERS)) }
    ensures none { IfNone result (MAX_SERVERS < old.now.number + more) }
{
    let number = old.number.checked_add(more)?;
    if number > MAX_SERVERS {
        return None;
    }
    Some(Mark {
        identity: old.identity,
        kind: Kind::Grid,
        number,
    })
}

// Refuses new servers' folders that other servers have too, or that have another mark.
fn refuse_new<R>(rt: &R, grid: &str, old: &Mark, new: &Mark) -> Result<(), Fault>
where
    R: Files + AllocGlobal,
{
    let alloc = rt.alloc();
    let mut folders = Vec::new(alloc);
    let known = first_servers(alloc, old.number)?;
    note_seen(rt, grid, known.as_slice(), &mut folders)?;
    for server in old.number..new.number {
        if let Some(folder) = standing_folder(rt, grid, server)? {
            note_folder(alloc, &mut folders, &folder, server)?;
        }
        refuse_other_mark(rt, grid, server, new)?;
    }
    Ok(())
}

/// What a mark that was begun with is to a call that makes a grid greater.
#[derive(Clone, Copy)]
enum Begun {
    /// Its own: another call was cut off, or is about the same.
    Same,
    /// Of a call that came to its end.
    Stale,
    /// Of a call that adds another number of servers.
    Other,
}

// What a mark that was begun with is to the growth from one mark to another.
fn begun_as(begun: &Mark, old: &Mark, new: &Mark) -> Begun
    ensures same { (result ≡ Begun.Same) ↔ IsAlike new.now begun.now }
    ensures other { result ≡ Begun.Other → (begun.now.identity ≡ old.now.identity)
        × (old.now.number < begun.now.number) }
    ensures stale { result ≡ Begun.Stale → begun.now.identity ≡ old.now.identity
        → begun.now.number ≤ old.now.number }
{
    let (one, wanted, known) = (begun.identity, new.identity, old.identity);
    if one == wanted && begun.number == new.number {
        return Begun::Same;
    }
    if one == known && begun.number > old.number {
        return Begun::Other;
    }
    Begun::Stale
}

// Begins with a grid's new mark, or goes on with it.
fn begin_growth<R>(rt: &R, grid: &str, old: &Mark, new: &Mark) -> Result<(), Fault>
where
    R: Files + RandomSource + AllocGlobal,
{
    let begun = claim(rt, grid, new)?;
    match begun_as(&begun, old, new) {
        Begun::Same => Ok(()),
        Begun::Stale => {
            replace_part(rt, grid, new)?;
            Ok(())
        }
        Begun::Other => Err(Fault::AlreadyGrid),
    }
}

// Puts a grid's new mark in the place of the old one, if that still stands there.
fn end_growth<R>(rt: &R, grid: &str, old: &Mark, new: &Mark) -> Result<(), Fault>
where
    R: Files + RandomSource + AllocGlobal,
{
    if !known_mark(rt, grid)?.is_alike(old) || !claim(rt, grid, new)?.is_alike(new) {
        return Err(Fault::AlreadyGrid);
    }
    let folder = String::from_str(rt.alloc(), grid)?;
    let mut disk = SystemDisk::new(rt, folder);
    match move_finished(&mut disk, PART, MARK) {
        Ok(()) => Ok(()),
        Err(unmoved) => growth_fault(rt.alloc(), grid, unmoved),
    }
}

// Why the new mark of a grid is not in its place, or not on the disk. `AlreadyGrid` where another
// call took it away.
fn growth_fault(alloc: Global, grid: &str, unmoved: Unmoved) -> Result<(), Fault>
    ensures { IsErr result }
{
    if unmoved.is_moved {
        return at_path(alloc, Err(unmoved.error.reason()), grid);
    }
    match unmoved.error {
        DiskError::NotFound | DiskError::Failed => Err(Fault::AlreadyGrid),
        error => {
            let path = mark_path(alloc, grid)?;
            at_path(alloc, Err(error.reason()), path.as_str())
        }
    }
}
