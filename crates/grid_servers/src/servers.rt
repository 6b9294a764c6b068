//! The servers of a grid, by their numbers.

ghost use Rattle.std.specs.Prelude.{◌≡◌, ◌<◌, length, nat_eq, IfOk};
ghost use Rattle.std.specs.List.{IsDistinct};
ghost use Rattle.grid_servers.specs.Servers.{servers_without};

use grid_faults::{Fault, first_servers, is_memory, told_path};
use grid_marks::{
    MAX_SERVERS, grid_mark, is_elsewhere, is_grid, is_served_elsewhere, known_grid, server_folder,
};
use std::alloc::{AllocError, Global};
use std::fs;
use std::io::ErrorKind;
use std::rt::Files;
use user_files::at_path;
use wire::message::NodeId;

// So many servers there are at most.
const ALL_SERVERS: usize = MAX_SERVERS as usize;

/// The numbers of the servers of a grid, rising: all of those that it knows, or those whose folders
/// stand there and those that are served elsewhere.
pub fn standing_servers<R>(rt: &R, grid: &str) -> Result<Vec<NodeId>, Fault>
where
    R: Files + AllocGlobal + Clone + Drop,
    ensures { IfOk result (λ servers. IsDistinct nat_eq servers.items) }
{
    match grid_mark(rt, grid)? {
        Some(known) => Ok(first_servers(rt.alloc(), known.number)?),
        None => found_servers(rt, grid),
    }
}

/// The same of a grid that has a server at least. `NoServers` of one that has none.
pub fn some_servers<R>(rt: &R, grid: &str) -> Result<Vec<NodeId>, Fault>
where
    R: Files + AllocGlobal + Clone + Drop,
    ensures { IfOk result (λ servers. IsDistinct nat_eq servers.items
        × (0 < length servers.items)) }
{
    let servers = standing_servers(rt, grid)?;
    refuse_none(rt.alloc(), grid, servers)
}

/// The servers of a grid that are asked, of which there is one at least. With `is_known` the grid
/// has to be marked.
pub fn asked_servers<R>(rt: &R, grid: &str, is_known: bool) -> Result<Vec<NodeId>, Fault>
where
    R: Files + AllocGlobal + Clone + Drop,
    ensures some { IfOk result (λ servers. 0 < length servers.items) }
    ensures distinct { IfOk result (λ servers. IsDistinct nat_eq servers.items) }
{
    is_grid(rt, grid)?;
    if is_known {
        known_grid(rt, grid)?;
    }
    some_servers(rt, grid)
}

/// Those of the servers of a grid that are asked whose folders are looked at: all that are not
/// served elsewhere, of which there is one at least. `NoServers` where there is none. With
/// `is_known` the grid has to be marked.
pub fn folder_servers<R>(rt: &R, grid: &str, is_known: bool) -> Result<Vec<NodeId>, Fault>
where
    R: Files + AllocGlobal + Clone + Drop,
    ensures some { IfOk result (λ servers. 0 < length servers.items) }
    ensures distinct { IfOk result (λ servers. IsDistinct nat_eq servers.items) }
{
    let servers = asked_servers(rt, grid, is_known)?;
    let elsewhere = servers_elsewhere(rt, grid, servers.as_slice())?;
    let here = servers_without(rt.alloc(), servers.as_slice(), elsewhere.as_slice())?;
    refuse_none(rt.alloc(), grid, here)
}

// Those of these servers that are served elsewhere.
fn servers_elsewhere<R>(rt: &R, grid: &str, servers: &[NodeId]) -> Result<Vec<NodeId>, Fault>
where
    R: Files + AllocGlobal,
{
    let mut elsewhere = Vec::new(rt.alloc());
    for server in servers {
        if is_served_elsewhere(rt, grid, *server)? {
            elsewhere.push(*server)?;
        }
    }
    Ok(elsewhere)
}

// Refuses that there is no server.
fn refuse_none(alloc: Global, grid: &str, servers: Vec<NodeId>) -> Result<Vec<NodeId>, Fault>
    ensures same { IfOk result (λ same. same ≡ servers) }
    ensures some { IfOk result (λ same. 0 < length same.items) }
{
    if servers.is_empty() {
        return Err(Fault::NoServers(told_path(alloc, grid)?));
    }
    Ok(servers)
}

/// Whether there is no grid yet: a folder that is not there, or has no mark and no server.
pub fn is_new_grid<R>(rt: &R, grid: &str) -> Result<bool, Fault>
where
    R: Files + AllocGlobal + Clone + Drop,
{
    match grid_mark(rt, grid)? {
        Some(_) => Ok(false),
        None => Ok(found_servers(rt, grid)?.is_empty()),
    }
}

// The numbers of the servers that stand in a grid, rising.
fn found_servers<R>(rt: &R, grid: &str) -> Result<Vec<NodeId>, Fault>
where
    R: Files + AllocGlobal + Clone + Drop,
    ensures { IfOk result (λ servers. IsDistinct nat_eq servers.items) }
{
    let named = named_servers(rt, grid)?;
    let mut servers = Vec::new(rt.alloc());
    for server in 0..MAX_SERVERS {
        if is_standing(rt, grid, server, &named)? {
            servers.push(server)?;
        }
    }
    Ok(servers)
}

// Which servers have a name in a grid's folder, by their numbers: one look in place of one for each
// server. A folder that is not there has none, and one that cannot be read is a fault.
fn named_servers<R>(rt: &R, grid: &str) -> Result<[bool; ALL_SERVERS], Fault>
where
    R: Files + AllocGlobal + Clone + Drop,
{
    let mut named = [false; ALL_SERVERS];
    let entries = match fs::read_dir(rt, grid) {
        Err(error) if error.kind() == ErrorKind::NotFound => return Ok(named),
        outcome => at_path(rt.alloc(), outcome, grid)?,
    };
    for entry in entries {
        match entry {
            // a name that is not UTF-8 is no server's
            Err(error) if error.kind() == ErrorKind::InvalidFilename => {}
            outcome => {
                let entry = at_path(rt.alloc(), outcome, grid)?;
                if let Some(server) = server_named(entry.file_name()) {
                    named[usize::from(server)] = true;
                }
            }
        }
    }
    Ok(named)
}

// The number of the server that may have this name.
fn server_named(name: &str) -> Option<u8> {
    let digits = name.strip_prefix("server-")?;
    digits.parse::<u8>().ok()
}

// Whether there is a server's folder in a grid, or what leads to one that is served elsewhere.
fn is_standing<R: Files + AllocGlobal>(
    rt: &R,
    grid: &str,
    server: NodeId,
    named: &[bool],
) -> Result<bool, Fault> {
    if named.get(usize::from(server)) != Some(&true) {
        return Ok(false);
    }
    let folder = server_folder(rt.alloc(), grid, server)?;
    match fs::metadata(rt, folder.as_str()) {
        Ok(found) => Ok(found.is_dir() || is_elsewhere(&found)),
        Err(error) if is_memory(&error) => Err(Fault::OutOfMemory),
        // one that cannot be asked stands there, and is silent
        Err(error) => Ok(error.kind() != ErrorKind::NotFound),
    }
}

/// These servers without those, in their order.
pub fn servers_without(
    alloc: Global,
    servers: &[NodeId],
    without: &[NodeId],
) -> Result<Vec<NodeId>, AllocError>
    ensures left { IfOk result (λ left. left.items ≡ servers_without servers.now without.now) }
    ensures distinct { IsDistinct nat_eq servers.now
        → IfOk result (λ left. IsDistinct nat_eq left.items) }
{
    let mut left = Vec::new(alloc);
    for server in servers {
        if !without.contains(server) {
            left.push(*server)?;
        }
    }
    Ok(left)
}
