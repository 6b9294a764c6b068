//! What is told with `-v` of servers that serve badly, and always of numbers that may not be.

use crate::progress::Progress;
use connections::ConnectionFault;
use grid_faults::{Fault, Limit, server_name, told_path};
use grid_marks::{folder_fault, server_folder};
use grid_servers::{FolderGrid, Purpose, Site, find_site, is_silent};
use std::alloc::Global;
use std::io::{self, IsTerminal, Write};
use std::net::Net;
use std::rt::{Clock, Files};
use wire::message::NodeId;

// What is told of a server, and the reason where its folder or its connection shows none.
type Remark = (&'static str, &'static str);

const SILENT: Remark = ("silent", "it does not answer");

const REFUSED: Remark = ("refused", "it takes no further shares");

// Why a server is silent that is served elsewhere, or is to be.
const OTHER_GREETING: &str = "it greets as another server, or speaks another version";

const NO_FRAME: &str = "it sent what is no message";

const ENDED: &str = "the connection to it ended";

const NO_ADDRESS: &str = "its file tells no address";

/// Tells of each of these servers that is silent, or that refused shares, with the path of its
/// folder and the system's reason, where that is found by trying. Of one that is served elsewhere
/// the reason is how the connection to it ended.
pub fn note_servers<R, E>(
    rt: &R,
    grid: &str,
    servers: &[NodeId],
    nodes: &FolderGrid<R>,
    purpose: Purpose,
    progress: &mut Progress<'_, R, E>,
) -> Result<(), Fault>
where
    R: Files + Net + Clock + AllocGlobal + Clone + Drop,
    E: Write + IsTerminal,
{
    if !progress.is_verbose() {
        return Ok(());
    }
    for server in servers {
        if let Some(remark) = remark_of(*server, nodes, progress) {
            let line = line_of(rt, grid, *server, nodes, purpose, remark)?;
            progress.note(line.as_str());
        }
    }
    Ok(())
}

// What is told of a server, if it serves badly.
fn remark_of<R, E>(
    server: NodeId,
    nodes: &FolderGrid<R>,
    progress: &Progress<'_, R, E>,
) -> Option<Remark>
where
    R: Files + Net + Clock + AllocGlobal + Clone + Drop,
    E: Write + IsTerminal,
{
    if is_silent(nodes, server) {
        return Some(SILENT);
    }
    if progress.is_refusal(server) {
        return Some(REFUSED);
    }
    None
}

// The line of a server that serves badly.
fn line_of<R>(
    rt: &R,
    grid: &str,
    server: NodeId,
    nodes: &FolderGrid<R>,
    purpose: Purpose,
    remark: Remark,
) -> Result<String, Fault>
where
    R: Files + Net + Clock + AllocGlobal + Clone + Drop,
{
    match remark_elsewhere(rt, grid, server, nodes, remark)? {
        Some(remark) => server_line(rt.alloc(), grid, server, remark, None),
        None => {
            let reason = folder_fault(rt, grid, server, purpose)?;
            server_line(rt.alloc(), grid, server, remark, reason)
        }
    }
}

// What is told of a server that is served elsewhere, or whose file should tell where. None of one
// over a folder.
fn remark_elsewhere<R>(
    rt: &R,
    grid: &str,
    server: NodeId,
    nodes: &FolderGrid<R>,
    remark: Remark,
) -> Result<Option<Remark>, Fault>
where
    R: Files + Net + Clock + AllocGlobal + Clone + Drop,
{
    let (what, _) = remark;
    if let Some(Some(remote)) = nodes.remotes().get(usize::from(server)) {
        if remote.is_away() {
            return Ok(Some((what, cause_of(remote.fault()))));
        }
        return Ok(Some(remark));
    }
    match find_site(rt, grid, server)? {
        Site::File(_) => Ok(Some((what, NO_ADDRESS))),
        _ => Ok(None),
    }
}

// Why nothing comes from a server elsewhere, by how the last connection to it ended.
fn cause_of(fault: Option<ConnectionFault>) -> &'static str {
    match fault {
        Some(ConnectionFault::OtherGreeting) => OTHER_GREETING,
        Some(ConnectionFault::NoFrame) => NO_FRAME,
        Some(ConnectionFault::Ended) => ENDED,
        Some(ConnectionFault::OutOfMemory) | None => SILENT.1,
    }
}

// The line of a server, with the system's reason where there is one.
fn server_line(
    alloc: Global,
    grid: &str,
    server: NodeId,
    remark: Remark,
    reason: Option<io::Error>,
) -> Result<String, Fault> {
    let name = server_name(alloc, server)?;
    let folder = server_folder(alloc, grid, server)?;
    let path = told_path(alloc, folder.as_str())?;
    let (what, cause) = remark;
    let line = match reason {
        Some(error) => format!(in alloc; "{name} {what}: {error} ({path})\n"),
        None => format!(in alloc; "{name} {what}: {cause} ({path})\n"),
    };
    Ok(line?)
}

/// Tells of a server that answered a share which failed a check.
pub fn note_blame<R, E>(
    rt: &R,
    grid: &str,
    server: NodeId,
    share: u8,
    progress: &mut Progress<'_, R, E>,
) -> Result<(), Fault>
where
    R: Clock + AllocGlobal,
    E: Write + IsTerminal,
{
    let alloc = rt.alloc();
    let name = server_name(alloc, server)?;
    let folder = server_folder(alloc, grid, server)?;
    let path = told_path(alloc, folder.as_str())?;
    let line = format!(in alloc; "{name} blamed: share {share} fails its checks ({path})\n")?;
    progress.note(line.as_str());
    Ok(())
}

/// Tells of each number that is outside its range.
pub fn note_limits<R, E>(
    rt: &R,
    limits: &[Limit<'_>],
    progress: &mut Progress<'_, R, E>,
) -> Result<(), Fault>
where
    R: Clock + AllocGlobal,
    E: Write + IsTerminal,
{
    for limit in limits {
        if !limit.is_kept() {
            progress.tell(limit.line(rt.alloc())?.as_str());
        }
    }
    Ok(())
}
