//! How a grid whose own mark was lost gets it back from its servers'.

ghost use Rattle.std.specs.Prelude.{◌≡◌, ◌≤◌, Some, IfOk, IfSome, IfNone};
ghost use Rattle.grid_marks.specs.Servers.{identity_after};

use crate::folders::server_folder;
use crate::init::{can_be_marked, end};
use crate::mark::{Identity, Kind, MAX_SERVERS, Mark};
use crate::marking::is_own;
use crate::marks::{Found, find_mark, likeness_of, mark_path};
use grid_faults::{Fault, told_path};
use std::fs;
use std::random::RandomSource;
use std::rt::Files;
use user_files::if_there;
use wire::message::NodeId;

// What the folders of a grid's servers tell of it.
#[derive(Clone, Copy)]
struct Told {
    /// The identity of the marks that were found.
    identity: Option<Identity>,
    /// How many servers the grid has at least.
    least: u16,
}

/// Writes the mark of a grid by those of its servers, and gives how many servers it has: so many as
/// are asked for, or as many as those whose folders stand need. A folder without a mark is left as
/// it is, and `replace_server` gives it one.
///
/// `AlreadyGrid` where the grid has a mark, `OtherMark` where a server's is of another grid than
/// the first, or is none, `SameFolder` where it is that of another server, `UnknownGrid` where no
/// server has one, and `BadParameters` where fewer servers are asked for than stand, or more than
/// 256. Nothing is written then.
pub fn adopt_grid<R>(rt: &R, grid: &str, servers: Option<u16>) -> Result<u16, Fault>
where
    R: Files + RandomSource + AllocGlobal + Clone + Drop,
    ensures few { IfOk result (λ number. number ≤ MAX_SERVERS) }
    ensures asked { IfSome servers (λ wanted. IfOk result (λ number. number ≡ wanted)) }
{
    can_be_marked(rt, grid)?;
    let told = told_by_servers(rt, grid)?;
    let Some(identity) = told.identity else {
        return Err(Fault::UnknownGrid(told_path(rt.alloc(), grid)?));
    };
    let Some(number) = adopted_number(servers, told.least) else {
        return Err(Fault::BadParameters);
    };
    let mark = Mark {
        identity,
        kind: Kind::Grid,
        number,
    };
    end(rt, grid, &mark)?;
    Ok(number)
}

// How many servers a grid has that has so many at least. None where fewer are asked for, or more
// than there can be.
fn adopted_number(asked: Option<u16>, least: u16) -> Option<u16>
    ensures within { IfSome result (λ number. (least ≤ number) × (number ≤ MAX_SERVERS)) }
    ensures asked { IfSome asked (λ wanted. least ≤ wanted → wanted ≤ MAX_SERVERS
        → result ≡ Some wanted) }
    ensures taken { IfSome asked (λ wanted. IfSome result (λ number. number ≡ wanted)) }
    ensures least { IfNone asked (least ≤ MAX_SERVERS → result ≡ Some least) }
{
    let number = asked.unwrap_or(least);
    if number < least || number > MAX_SERVERS {
        return None;
    }
    Some(number)
}

// What the folders of a grid's servers tell of it.
fn told_by_servers<R>(rt: &R, grid: &str) -> Result<Told, Fault>
where
    R: Files + AllocGlobal,
{
    let mut told = Told {
        identity: None,
        least: 0,
    };
    for server in 0..MAX_SERVERS {
        told = ask_folder(rt, grid, server, told)?;
    }
    Ok(told)
}

// The same with a further server's folder. One that cannot be seen tells nothing but that it is
// there.
fn ask_folder<R>(rt: &R, grid: &str, server: NodeId, told: Told) -> Result<Told, Fault>
where
    R: Files + AllocGlobal,
{
    let alloc = rt.alloc();
    let folder = server_folder(alloc, grid, server)?;
    if if_there(fs::symlink_metadata(rt, folder.as_str()))?.is_none() {
        return Ok(told);
    }
    let path = mark_path(alloc, folder.as_str())?;
    let found = if_there(find_mark(rt, path.as_str(), Kind::Server))?.unwrap_or(Found::Nothing);
    let identity = identity_after(told.identity, &found);
    if let Some(identity) = identity {
        let wanted = Mark::of_server(identity, server);
        is_own(alloc, likeness_of(&found, &wanted), server, path.as_str())?;
    }
    Ok(Told {
        identity,
        least: server.saturating_add(1),
    })
}

// The identity of the first mark that was found.
fn identity_after(before: Option<Identity>, found: &Found) -> Option<Identity>
    ensures { result ≡ identity_after before found.now }
{
    match (before, found) {
        (None, Found::Mark(mark)) => Some(mark.identity),
        _ => before,
    }
}
