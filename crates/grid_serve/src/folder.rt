//! The folder that is served.

ghost use Rattle.std.specs.Prelude.{IfOk, IfSome};
ghost use Rattle.grid_marks.specs.Marks.{IsServers};
ghost use Rattle.grid_serve.specs.Plans.{HasWanted, IsOpenedFor};

use crate::counted::CountedStore;
use crate::fault::ServeFault;
use crate::marking::{mark_folder, refuse_other};
use grid_faults::{Fault, told_path};
use grid_marks::{Mark, folder_mark};
use server_core::server::{CAPACITY, Server};
use share_folders::folder::{Durability, FolderStore, Purpose};
use share_store::error::StoreError;
use std::io::ErrorKind;
use std::random::RandomSource;
use std::rt::Files;
use std::{fs, io};
use user_files::{Locks, at_path};

/// What is served, where and how.
#[derive(Clone, Copy)]
pub struct Serve<'a> {
    /// The folder, which has to stand.
    pub folder: &'a str,
    /// The address at which it listens: `unix:PATH`, or numbers with a port.
    pub listen: &'a str,
    /// Whether other machines may reach the address.
    pub anyone: bool,
    /// How many bytes of new shares it takes at most, if that is said.
    pub room: Option<u64>,
    /// The mark that the folder has or gets, as its line spells it, if that is said.
    pub mark: Option<&'a str>,
    pub durability: Durability,
    /// Whether it tells who comes and who goes.
    pub verbose: bool,
}

/// The server of a folder, which counts the shares that it takes.
pub(crate) type FolderServer<R> = Server<CountedStore<FolderStore<R>>>;

/// Takes the lock of a folder that stands. `InUse` where another process serves it, or writes there
/// as a command does.
pub(crate) fn lock_folder<R>(rt: &R, folder: &str) -> Result<R::Lock, ServeFault>
where
    R: Files + Locks + AllocGlobal,
{
    let alloc = rt.alloc();
    at_path(alloc, stands(rt, folder), folder)?;
    match at_path(alloc, rt.try_lock(folder), folder)? {
        Some(lock) => Ok(lock),
        None => Err(ServeFault::Fault(Fault::InUse(told_path(alloc, folder)?))),
    }
}

// Refuses what is no folder.
fn stands<R: Files>(rt: &R, folder: &str) -> io::Result<()> {
    if fs::metadata(rt, folder)?.is_dir() {
        return Ok(());
    }
    Err(io::Error::from(ErrorKind::NotADirectory))
}

/// The mark that a folder has or is to have. `OtherMark` where it has another one.
pub(crate) fn mark_to_have<R>(
    rt: &R,
    folder: &str,
    wanted: Option<Mark>,
) -> Result<Option<Mark>, ServeFault>
where
    R: Files + AllocGlobal,
    requires { IfSome wanted IsServers }
    ensures servers { IfOk result (λ mark. IfSome mark IsServers) }
    ensures wanted { IfOk result (HasWanted wanted) }
{
    let found = folder_mark(rt, folder)?;
    refuse_other(rt.alloc(), folder, found, wanted)?;
    Ok(found.or(wanted))
}

/// The server of a folder. The folder gets the mark that it is to have. A fault of the folder where
/// its shares cannot be read, or, synced, their names not be put on the disk.
pub(crate) fn open_server<R>(
    rt: &R,
    serve: &Serve<'_>,
    mark: Option<Mark>,
) -> Result<FolderServer<R>, ServeFault>
where
    R: Files + RandomSource + AllocGlobal + Clone + Drop,
    ensures { IfOk result (IsOpenedFor serve.now) }
{
    let purpose = Purpose::Writing(serve.durability);
    let store = match FolderStore::open(rt, serve.folder, purpose) {
        Ok(store) => store,
        Err(error) => return Err(unopened(rt, serve.folder, error)),
    };
    if let Some(mark) = mark {
        mark_folder(rt, serve.folder, &mark)?;
    }
    let alloc = rt.alloc();
    let capacity = serve.room.unwrap_or(CAPACITY).min(CAPACITY);
    let readonly = store.is_readonly();
    let counted = CountedStore::new(alloc, store);
    Ok(Server::start(alloc, counted, capacity, readonly))
}

// Why the store of a folder was not opened.
fn unopened<R: AllocGlobal>(rt: &R, folder: &str, error: StoreError) -> ServeFault {
    match error {
        StoreError::OutOfMemory => ServeFault::Fault(Fault::OutOfMemory),
        StoreError::StoreFault => match told_path(rt.alloc(), folder) {
            Ok(path) => ServeFault::Fault(Fault::File(path, io::Error::other(UNREADABLE))),
            Err(refused) => ServeFault::from(refused),
        },
    }
}

// Why a folder that stands is not served.
const UNREADABLE: &str = "its shares cannot be read, or their names not be put on the disk";
