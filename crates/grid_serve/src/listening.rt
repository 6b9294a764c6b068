//! The address at which a folder is served.

ghost use Rattle.std.specs.Prelude.{◌≡◌, false, IfOk};
ghost use Rattle.connections.specs.Addresses.{IsAddressText, IsLocal};
ghost use Rattle.grid_serving.specs.Loops.{begun_loop};

use crate::fault::ServeFault;
use connections::{Address, AddressError, Greeting, Socket};
use grid_faults::{Fault, told_path};
use grid_serving::Serving;
use server_core::server::Server;
use share_store::store::Store;
use std::alloc::Global;
use std::fs::{self, OpenOptions};
use std::io::{self, ErrorKind};
use std::net::Net;
use std::os::unix::fs::FileTypeExt;
use std::rt::{Clock, Files};
use user_files::{Locks, at_path};

/// The address that a text spells. `BadAddress` where it spells none, and `NotLocal` where other
/// machines may reach it and are not to.
pub(crate) fn read_address(alloc: Global, text: &str, anyone: bool) -> Result<Address, ServeFault>
    ensures value { IfOk result (IsAddressText text.now) }
    ensures local { IfOk result (λ address. anyone ≡ false → IsLocal address) }
{
    let address = match Address::read(alloc, text) {
        Ok(address) => address,
        Err(error) => return Err(refused(alloc, text, error)),
    };
    if anyone || address.is_local() {
        return Ok(address);
    }
    Err(refused(alloc, text, AddressError::NotLocal))
}

// Why a text is not taken for an address.
fn refused(alloc: Global, text: &str, error: AddressError) -> ServeFault {
    let told = match told_path(alloc, text) {
        Ok(told) => told,
        Err(refused) => return ServeFault::from(refused),
    };
    match error {
        AddressError::OutOfMemory => ServeFault::Fault(Fault::OutOfMemory),
        AddressError::BadAddress => ServeFault::BadAddress(told),
        AddressError::NotLocal => ServeFault::NotLocal(told),
    }
}

// Why an address is not free.
fn in_use(alloc: Global, address: &str) -> ServeFault {
    match told_path(alloc, address) {
        Ok(address) => ServeFault::Fault(Fault::InUse(address)),
        Err(refused) => ServeFault::from(refused),
    }
}

/// Makes sure that no other process listens at an address, or is about to. `InUse` where one does,
/// and a fault of the file of a Unix socket, or of its lock, where that is none.
///
/// Of a Unix socket the lock is held of a file whose name is the socket's and `.lock`, and which
/// stays; a socket is removed that a process left. A TCP address the system gives to one process
/// alone, so there is no lock of it.
pub(crate) fn claim_address<R>(
    rt: &R,
    address: &Address,
    text: &str,
) -> Result<Option<R::Lock>, ServeFault>
where
    R: Files + Net + Locks + AllocGlobal,
{
    let Address::Unix(path) = address else {
        return Ok(None);
    };
    let lock = lock_socket(rt, path.as_str(), text)?;
    free_path(rt, address, path.as_str(), text)?;
    Ok(Some(lock))
}

// Takes the lock of a Unix socket.
fn lock_socket<R>(rt: &R, path: &str, text: &str) -> Result<R::Lock, ServeFault>
where
    R: Files + Locks + AllocGlobal,
{
    let alloc = rt.alloc();
    let beside = format!(in alloc; "{path}.lock")?;
    match at_path(alloc, lock_file(rt, beside.as_str()), beside.as_str())? {
        Some(lock) => Ok(lock),
        None => Err(in_use(alloc, text)),
    }
}

// Takes the lock of a file, which is made where nothing stands. What is no file is refused: a pipe
// would hold the program up, and a link leads elsewhere.
fn lock_file<R: Files + Locks>(rt: &R, path: &str) -> io::Result<Option<R::Lock>> {
    make_file(rt, path)?;
    if fs::symlink_metadata(rt, path)?.is_file() {
        return rt.try_lock(path);
    }
    Err(io::Error::from(ErrorKind::AlreadyExists))
}

// Makes an empty file where nothing stands.
fn make_file<R: Files>(rt: &R, path: &str) -> io::Result<()> {
    let mut options = OpenOptions::new();
    options.write(true).create_new(true);
    match options.open(rt, path) {
        Err(error) if error.kind() != ErrorKind::AlreadyExists => Err(error),
        _ => Ok(()),
    }
}

// Removes the socket at a path, where nobody listens there any more.
fn free_path<R>(rt: &R, address: &Address, path: &str, text: &str) -> Result<(), ServeFault>
where
    R: Files + Net + AllocGlobal,
{
    let alloc = rt.alloc();
    match at_path(alloc, state_of(rt, address, path), path)? {
        State::Free => Ok(()),
        State::Left => Ok(at_path(alloc, fs::remove_file(rt, path), path)?),
        State::InUse => Err(in_use(alloc, text)),
    }
}

// How the path of a Unix socket is.
enum State {
    /// Nothing stands there.
    Free,
    /// A socket stands there at which nobody listens.
    Left,
    InUse,
}

// How the path of a Unix socket is: a process that listens there is found by connecting to it.
fn state_of<R: Files + Net>(rt: &R, address: &Address, path: &str) -> io::Result<State> {
    match fs::symlink_metadata(rt, path) {
        Ok(found) if found.file_type().is_socket() => {}
        Ok(_) => return Err(io::Error::from(ErrorKind::AlreadyExists)),
        Err(error) if error.kind() == ErrorKind::NotFound => return Ok(State::Free),
        Err(error) => return Err(error),
    }
    match Socket::connect(rt, address) {
        Ok(_) => Ok(State::InUse),
        Err(error) => state_by(error),
    }
}

// The same by the error of connecting. Where so many wait already that none more may, it is in use.
fn state_by(error: io::Error) -> io::Result<State> {
    match error.kind() {
        ErrorKind::ConnectionRefused => Ok(State::Left),
        ErrorKind::WouldBlock => Ok(State::InUse),
        _ => Err(error),
    }
}

/// Listens at an address. `InUse` where another process does.
pub(crate) fn listen<R, S>(
    rt: &R,
    server: Server<S>,
    own: &Greeting,
    address: &Address,
    text: &str,
) -> Result<Serving<S>, ServeFault>
where
    R: Files + Net + Clock + AllocGlobal,
    S: Store + Drop,
    ensures { IfOk result (λ s. s ≡ begun_loop s.listener server own.now) }
{
    match Serving::start(rt, server, own, address) {
        Ok(serving) => Ok(serving),
        Err(error) if error.kind() == ErrorKind::AddrInUse => Err(in_use(rt.alloc(), text)),
        Err(error) => Err(ServeFault::of_sockets(rt.alloc(), text, error)),
    }
}
