//! Finds how the servers of a grid stand. No share is read, and no server is asked.

ghost use Rattle.std.specs.Prelude.{◌≡◌, IfOk, IfSome, map};
ghost use Rattle.grid_marks.specs.Marks.{IsGrids};
ghost use Rattle.grid_rules.specs.Ways.{AreWays};

use crate::held::held_in;
use crate::states::{GridState, Lack, ServerState, State};
use connections::Address;
use grid_faults::{Fault, is_memory, told_path};
use grid_marks::{Mark, folder_mark, grid_mark, server_folder};
use grid_servers::{Site, address_of, find_site};
use grid_shares::grid_ways;
use share_files::FolderFiles;
use std::alloc::{AllocError, Global};
use std::random::RandomSource;
use std::rt::Files;
use std::time::SystemTime;
use wire::message::NodeId;

/// What a grid is that has these servers.
pub(crate) fn find_grid<R>(rt: &R, grid: &str, servers: &[NodeId]) -> Result<GridState, Fault>
where
    R: Files + RandomSource + AllocGlobal + Clone + Drop,
    ensures servers { IfOk result (λ found. map (λ s. s.server) found.servers.items ≡ servers.now) }
    ensures mark { IfOk result (λ found. IfSome found.mark IsGrids) }
    ensures ways { IfOk result (λ found. IfSome found.ways AreWays) }
{
    let mark = grid_mark(rt, grid)?;
    let ways = grid_ways(rt, grid)?;
    let servers = find_servers(rt, grid, &mark, servers)?;
    Ok(GridState {
        mark,
        ways,
        servers,
    })
}

// How these servers stand.
fn find_servers<R>(
    rt: &R,
    grid: &str,
    known: &Option<Mark>,
    servers: &[NodeId],
) -> Result<Vec<ServerState>, Fault>
where
    R: Files + RandomSource + AllocGlobal + Clone + Drop,
    ensures { IfOk result (λ found. map (λ s. s.server) found.items ≡ servers.now) }
{
    let mut found = Vec::new(rt.alloc());
    for server in servers {
        found.push(find_server(rt, grid, known, *server)?)?;
    }
    Ok(found)
}

// How a server stands.
fn find_server<R>(
    rt: &R,
    grid: &str,
    known: &Option<Mark>,
    server: NodeId,
) -> Result<ServerState, Fault>
where
    R: Files + RandomSource + AllocGlobal + Clone + Drop,
    ensures { IfOk result (λ found. found.server ≡ server) }
{
    let state = match find_site(rt, grid, server)? {
        Site::Missing => State::Lacking(Lack::Missing),
        Site::Other => State::Lacking(Lack::Unreadable),
        Site::Folder => at_folder(rt, grid, known, server)?,
        site => elsewhere(rt.alloc(), grid, server, &site)?,
    };
    Ok(ServerState { server, state })
}

// A server in whose place a socket or a file stands.
fn elsewhere(alloc: Global, grid: &str, server: NodeId, site: &Site) -> Result<State, AllocError> {
    match address_of(alloc, grid, server, site)? {
        Some(address) => Ok(State::Elsewhere(address_text(alloc, &address)?)),
        None => Ok(State::Lacking(Lack::NoAddress)),
    }
}

// An address, as it is told.
fn address_text(alloc: Global, address: &Address) -> Result<String, AllocError> {
    match address {
        Address::Unix(path) => {
            let path = told_path(alloc, path.as_str())?;
            format!(in alloc; "unix:{path}")
        }
        Address::Tcp(address) => format!(in alloc; "{address}"),
    }
}

// A server whose folder stands. In a grid that knows its servers it wants its mark.
fn at_folder<R>(rt: &R, grid: &str, known: &Option<Mark>, server: NodeId) -> Result<State, Fault>
where
    R: Files + RandomSource + AllocGlobal + Clone + Drop,
{
    let folder = server_folder(rt.alloc(), grid, server)?;
    if let Some(known) = known {
        let wanted = Mark::of_server(known.identity, server);
        if let Some(lack) = mark_lack(rt, folder.as_str(), &wanted)? {
            return Ok(State::Lacking(lack));
        }
    }
    list_folder(rt, folder.as_str())
}

// Why a folder is not that of the server with this mark; none where it is.
fn mark_lack<R>(rt: &R, folder: &str, wanted: &Mark) -> Result<Option<Lack>, Fault>
where
    R: Files + AllocGlobal,
{
    match folder_mark(rt, folder) {
        Ok(Some(mark)) if mark.is_alike(wanted) => Ok(None),
        Ok(None) => Ok(Some(Lack::NoMark)),
        Ok(Some(_)) | Err(Fault::BadMark(_)) => Ok(Some(Lack::OtherMark)),
        Err(Fault::File(..)) => Ok(Some(Lack::Unreadable)),
        Err(fault) => Err(fault),
    }
}

// What a folder holds.
fn list_folder<R>(rt: &R, folder: &str) -> Result<State, Fault>
where
    R: Files + RandomSource + AllocGlobal + Clone + Drop,
{
    match FolderFiles::new(rt, folder, SystemTime::UNIX_EPOCH).list_all() {
        Ok(listing) => Ok(State::Here(held_in(listing.files.as_slice(), listing.total))),
        Err(error) if is_memory(&error) => Err(Fault::OutOfMemory),
        Err(_) => Ok(State::Lacking(Lack::Unreadable)),
    }
}
