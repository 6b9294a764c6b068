//! The marks of a grid that knows its servers. In such a grid a folder that has not the mark of its
//! server is none, as one over which no disk is mounted.

ghost use Rattle.std.specs.Prelude.{◌≡◌, ◌↔◌, ◌≤◌, ◌<◌, ◌++◌, codes, IfOk, IfSome, IsNone, IsOk};
ghost use Rattle.std.specs.String.{string_bytes};
ghost use Rattle.grid_marks.specs.Marks.{IsGrids, IsServers};
ghost use Rattle.grid_marks.specs.Servers.{IsOfKind, IsThis};

use crate::folders::server_folder;
use crate::mark::{Kind, MAX_SERVERS, Mark};
use grid_faults::{Fault, told_path};
use std::alloc::{AllocError, Global};
use std::io::ErrorKind;
use std::rt::Files;
use std::{fs, io};
use user_files::{at_path, read_at_most};
use wire::message::NodeId;

// The greatest file that may be a mark, in bytes.
const MAX_MARK_SIZE: u64 = 64;

// Why a folder is not taken for its server's.
const NO_SERVER: &str = "the grid has no such server";

const NO_MARK: &str = "it has no mark of this grid";

const BAD_MARK: &str = "its mark is none";

const OTHER_GRID: &str = "it has the mark of another grid";

const OTHER_SERVER: &str = "it has the mark of another server";

const BAD_GRID_MARK: &str = "the mark of the grid is none";

/// What stands where a mark may stand.
#[derive(Clone, Copy)]
pub(crate) enum Found {
    Nothing,
    Mark(Mark),
    /// What is no mark.
    Other,
}

/// How what stands there is like the mark of a server that is wanted there.
#[derive(Clone, Copy)]
pub(crate) enum Likeness {
    Nothing,
    Same,
    /// The same grid's, of another server.
    OtherServer(NodeId),
    OtherGrid,
    NoMark,
}

/// The name of the mark in a grid's folder or in a server's. No share has such a name.
pub(crate) const MARK: &str = "grid-mark";

/// The path of the mark in a grid's folder or in a server's.
pub fn mark_path(alloc: Global, folder: &str) -> Result<String, AllocError>
    ensures { IfOk result (λ path. string_bytes path ≡ folder.now ++ codes "/grid-mark") }
{
    format!(in alloc; "{folder}/{MARK}")
}

/// Looks for a mark of this kind at a path.
pub(crate) fn find_mark<R>(rt: &R, path: &str, kind: Kind) -> io::Result<Found>
where
    R: Files + AllocGlobal,
    ensures { IfOk result (IsOfKind kind) }
{
    match fs::metadata(rt, path) {
        Ok(found) if found.is_file() => {}
        Ok(_) => return Ok(Found::Other),
        Err(error) if error.kind() == ErrorKind::NotFound => return Ok(Found::Nothing),
        Err(error) => return Err(error),
    }
    match read_at_most(rt, path, MAX_MARK_SIZE)? {
        Some(text) => read_mark(rt.alloc(), kind, &text),
        None => Ok(Found::Other),
    }
}

// What the text of a mark's file says.
fn read_mark(alloc: Global, kind: Kind, text: &[u8]) -> io::Result<Found>
    ensures { IfOk result (IsOfKind kind) }
{
    match Mark::read(alloc, kind, text) {
        Ok(Some(mark)) => Ok(Found::Mark(mark)),
        Ok(None) => Ok(Found::Other),
        Err(_) => Err(io::Error::from(ErrorKind::OutOfMemory)),
    }
}

/// The mark of a grid; none of one that does not know its servers.
pub fn grid_mark<R>(rt: &R, grid: &str) -> Result<Option<Mark>, Fault>
where
    R: Files + AllocGlobal,
    ensures { IfOk result (λ found. IfSome found IsGrids) }
{
    let alloc = rt.alloc();
    let path = mark_path(alloc, grid)?;
    let found = find_mark(rt, path.as_str(), Kind::Grid);
    match at_path(alloc, found, path.as_str())? {
        Found::Nothing => Ok(None),
        Found::Mark(mark) => Ok(Some(mark)),
        Found::Other => Err(Fault::BadMark(told_path(alloc, path.as_str())?)),
    }
}

/// The mark in the folder of a server; none where it has none. `BadMark` where what stands there is
/// no server's.
pub fn folder_mark<R>(rt: &R, folder: &str) -> Result<Option<Mark>, Fault>
where
    R: Files + AllocGlobal,
    ensures { IfOk result (λ found. IfSome found IsServers) }
{
    let alloc = rt.alloc();
    let path = mark_path(alloc, folder)?;
    let found = find_mark(rt, path.as_str(), Kind::Server);
    match at_path(alloc, found, path.as_str())? {
        Found::Nothing => Ok(None),
        Found::Mark(mark) if mark.number < MAX_SERVERS => Ok(Some(mark)),
        Found::Mark(_) | Found::Other => Err(Fault::BadMark(told_path(alloc, path.as_str())?)),
    }
}

/// The mark of a grid. `UnknownGrid` of one that does not know its servers.
pub(crate) fn known_mark<R>(rt: &R, grid: &str) -> Result<Mark, Fault>
where
    R: Files + AllocGlobal,
    ensures { IfOk result IsGrids }
{
    match grid_mark(rt, grid)? {
        Some(mark) => Ok(mark),
        None => Err(Fault::UnknownGrid(told_path(rt.alloc(), grid)?)),
    }
}

/// Refuses a folder that is no grid's that knows its servers: `UnknownGrid` where it has no mark,
/// also where it is not there, and `BadMark` where its mark is none.
pub fn known_grid<R>(rt: &R, grid: &str) -> Result<(), Fault>
where
    R: Files + AllocGlobal,
{
    known_mark(rt, grid)?;
    Ok(())
}

/// How many servers a grid has that knows its servers. None of another.
pub fn grid_servers_count<R>(rt: &R, grid: &str) -> Result<Option<u16>, Fault>
where
    R: Files + AllocGlobal,
    ensures { IfOk result (λ count. IfSome count (λ n. n ≤ MAX_SERVERS)) }
{
    match grid_mark(rt, grid)? {
        Some(mark) => Ok(Some(mark.number)),
        None => Ok(None),
    }
}

/// Refuses the folder of a server that is not there, or has not its mark, in a grid that knows its
/// servers. In another grid no folder is refused.
pub fn try_mark<R>(rt: &R, grid: &str, server: NodeId) -> io::Result<()>
where
    R: Files + AllocGlobal,
{
    let path = mark_path(rt.alloc(), grid)?;
    match find_mark(rt, path.as_str(), Kind::Grid)? {
        Found::Nothing => Ok(()),
        Found::Mark(mark) => try_known(rt, grid, server, &mark),
        Found::Other => Err(io::Error::other(BAD_GRID_MARK)),
    }
}

/// The same in a grid that has this mark.
pub fn try_known<R>(rt: &R, grid: &str, server: NodeId, known: &Mark) -> io::Result<()>
where
    R: Files + AllocGlobal,
    ensures { IsOk result → server < known.now.number }
{
    if server >= known.number {
        return Err(io::Error::other(NO_SERVER));
    }
    let folder = server_folder(rt.alloc(), grid, server)?;
    if !fs::metadata(rt, folder.as_str())?.is_dir() {
        return Err(io::Error::from(ErrorKind::NotADirectory));
    }
    let path = mark_path(rt.alloc(), folder.as_str())?;
    let found = find_mark(rt, path.as_str(), Kind::Server)?;
    match reason_of(likeness_of(&found, &Mark::of_server(known.identity, server))) {
        None => Ok(()),
        Some(reason) => Err(io::Error::other(reason)),
    }
}

// Why a folder is not taken for its server's; none where it is.
fn reason_of(likeness: Likeness) -> Option<&'static str>
    ensures { IsNone result ↔ (likeness ≡ Likeness.Same) }
{
    match likeness {
        Likeness::Same => None,
        Likeness::Nothing => Some(NO_MARK),
        Likeness::NoMark => Some(BAD_MARK),
        Likeness::OtherGrid => Some(OTHER_GRID),
        Likeness::OtherServer(_) => Some(OTHER_SERVER),
    }
}

/// How what was found is like the mark of a server that was wanted.
pub(crate) fn likeness_of(found: &Found, wanted: &Mark) -> Likeness
    ensures same { (result ≡ Likeness.Same) ↔ IsThis wanted.now found.now }
    ensures nothing { (result ≡ Likeness.Nothing) ↔ (found.now ≡ Found.Nothing) }
{
    let mark = match found {
        Found::Nothing => return Likeness::Nothing,
        Found::Other => return Likeness::NoMark,
        Found::Mark(mark) => *mark,
    };
    let (one, other) = (mark.identity, wanted.identity);
    if one != other {
        return Likeness::OtherGrid;
    }
    if mark.number != wanted.number {
        return Likeness::OtherServer(mark.number);
    }
    Likeness::Same
}
