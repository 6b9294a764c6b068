//! Locks of the folders of a grid's servers, which keep apart who writes there.

ghost use Rattle.std.specs.Prelude.{IfErr};
ghost use Rattle.grid_servers.specs.Locks.{IsLockFault};

use grid_faults::{Fault, is_memory, told_path};
use grid_marks::{server_folder, try_mark};
use std::io;
use std::rt::Files;
use user_files::{Locks, if_there};
use wire::message::NodeId;

/// Takes the locks of the folders of these servers that stand, together with other commands that
/// write there: they are to be held as long as these are written to. `InUse` where a process serves
/// the folder of one. Where a file system has no locks there is none to take.
pub fn lock_folders<R>(rt: &R, grid: &str, servers: &[NodeId]) -> Result<Vec<R::Lock>, Fault>
where
    R: Files + Locks + AllocGlobal,
    ensures { IfErr result IsLockFault }
{
    let mut locks = Vec::new(rt.alloc());
    for server in servers {
        if let Some(lock) = lock_folder(rt, grid, *server)? {
            locks.push(lock)?;
        }
    }
    Ok(locks)
}

// Takes the lock of a server's folder, where there is one to take.
fn lock_folder<R>(rt: &R, grid: &str, server: NodeId) -> Result<Option<R::Lock>, Fault>
where
    R: Files + Locks + AllocGlobal,
    ensures { IfErr result IsLockFault }
{
    let folder = server_folder(rt.alloc(), grid, server)?;
    match try_folder(rt, folder.as_str()) {
        Ok(Some(lock)) => Ok(Some(lock)),
        Ok(None) => {
            refuse_served(rt, grid, server)?;
            Ok(None)
        }
        Err(error) if is_memory(&error) => Err(Fault::OutOfMemory),
        Err(_) => Ok(None),
    }
}

// Takes the lock of a folder. What is none is not opened: a pipe would hold the program up.
fn try_folder<R>(rt: &R, folder: &str) -> io::Result<Option<R::Lock>>
where
    R: Files + Locks + AllocGlobal,
{
    let itself = format!(in rt.alloc(); "{folder}/.")?;
    rt.try_lock_shared(itself.as_str())
}

// Refuses a folder that a process serves. One that has not the mark of its server is none of the
// grid's, and nothing is written to it.
fn refuse_served<R>(rt: &R, grid: &str, server: NodeId) -> Result<(), Fault>
where
    R: Files + AllocGlobal,
    ensures { IfErr result IsLockFault }
{
    if if_there(try_mark(rt, grid, server))?.is_none() {
        return Ok(());
    }
    let folder = server_folder(rt.alloc(), grid, server)?;
    Err(Fault::InUse(told_path(rt.alloc(), folder.as_str())?))
}
