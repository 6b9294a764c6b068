//! What stands under the names of servers in a grid's folder: a folder, or the way to a server that
//! is served elsewhere.

ghost use Rattle.std.specs.Prelude.{◌≡◌, ◌↔◌, ◌≤◌, ℕ, List, length, IfErr, IfNone, IfOk, IfSome};
ghost use Rattle.std.specs.Prelude.{IsNone, IsTrue};
ghost use Rattle.connections.specs.Addresses.{IsAddressText, IsNoAddress};
ghost use Rattle.connections.specs.declared.address.Address.{Address};
ghost use Rattle.grid_servers.specs.Sites.{IsAddress, IsLineOf, IsOnlyLine, IsServedAt, IsShort};

use connections::{Address, AddressError};
use grid_faults::{Fault, is_memory};
use grid_marks::{is_elsewhere, is_served_elsewhere, server_folder};
use std::alloc::{AllocError, Global};
use std::io::ErrorKind;
use std::ops::Range;
use std::rt::Files;
use std::{fs, io};
use user_files::{at_path, if_there, read_at_most};
use wire::message::NodeId;

/// What stands under the name of a server in a grid's folder.
#[derive(Drop)]
pub enum Site {
    /// Nothing.
    Missing,
    /// A folder.
    Folder,
    /// A Unix socket at which the server is served.
    Socket,
    /// A regular file with this text, which may tell an address.
    File(String),
    /// What is for no server, as a device and a file that is no text or has too many bytes, and
    /// what cannot be looked at.
    Other,
}

/// How many bytes a file has at most that may tell an address.
const MOST_TOLD: u64 = 4096;

/// What stands under the name of a server in a grid's folder. An error only where memory was
/// refused.
pub fn find_site<R>(rt: &R, grid: &str, server: NodeId) -> Result<Site, Fault>
where
    R: Files + AllocGlobal,
    ensures short { IfOk result IsShort }
    ensures memory { IfErr result (λ fault. fault ≡ Fault.OutOfMemory) }
{
    let path = server_folder(rt.alloc(), grid, server)?;
    match fs::metadata(rt, path.as_str()) {
        Ok(found) if found.is_dir() => Ok(Site::Folder),
        Ok(found) if found.is_file() => file_at(rt, path.as_str()),
        Ok(found) if is_elsewhere(&found) => Ok(Site::Socket),
        Err(error) if is_memory(&error) => Err(Fault::OutOfMemory),
        Err(error) if error.kind() == ErrorKind::NotFound => Ok(Site::Missing),
        _ => Ok(Site::Other),
    }
}

// A regular file, with its text.
fn file_at<R>(rt: &R, path: &str) -> Result<Site, Fault>
where
    R: Files + AllocGlobal,
    ensures short { IfOk result IsShort }
    ensures memory { IfErr result (λ fault. fault ≡ Fault.OutOfMemory) }
{
    match if_there(read_at_most(rt, path, MOST_TOLD))? {
        Some(Some(bytes)) => Ok(file_of(bytes)),
        _ => Ok(Site::Other),
    }
}

// The file of these bytes.
fn file_of(bytes: Vec<u8>) -> Site
    requires { length bytes.items ≤ MOST_TOLD }
    ensures { IsShort result }
{
    match String::from_utf8(bytes) {
        Ok(text) => Site::File(text),
        Err(_) => Site::Other,
    }
}

/// Refuses a file under the name of one of these servers that tells no address: a fault of that
/// file.
pub fn refuse_no_address<R>(rt: &R, grid: &str, servers: Range<NodeId>) -> Result<(), Fault>
where
    R: Files + AllocGlobal,
{
    for server in servers {
        if !tells_address(rt, grid, server)? {
            let path = server_folder(rt.alloc(), grid, server)?;
            let told: io::Result<()> = Err(io::Error::other(NO_ADDRESS));
            at_path(rt.alloc(), told, path.as_str())?;
        }
    }
    Ok(())
}

// Why the file of a server is refused.
const NO_ADDRESS: &str = "it tells no address";

// Whether the file of a server tells an address, where a file stands under its name.
fn tells_address<R>(rt: &R, grid: &str, server: NodeId) -> Result<bool, Fault>
where
    R: Files + AllocGlobal,
{
    match find_site(rt, grid, server)? {
        Site::File(text) => Ok(told_address(rt.alloc(), text.as_str())?.is_some()),
        Site::Other => Ok(!is_served_elsewhere(rt, grid, server)?),
        Site::Missing | Site::Folder | Site::Socket => Ok(true),
    }
}

/// Where the server is reached that this stands for: a socket by its own path in the grid's folder,
/// and a file of one line by the address that the line writes. None of anything else.
pub fn address_of(
    alloc: Global,
    grid: &str,
    server: NodeId,
    site: &Site,
) -> Result<Option<Address>, AllocError>
    ensures some { IfOk result (λ found. IfSome found (IsServedAt grid.now server site.now)) }
    ensures none { IfOk result (λ found. IfNone found
        ((address : Address) → ¬ IsServedAt grid.now server site.now address)) }
{
    match site {
        Site::Socket => Ok(Some(Address::Unix(server_folder(alloc, grid, server)?))),
        Site::File(text) => told_address(alloc, text.as_str()),
        Site::Missing | Site::Folder | Site::Other => Ok(None),
    }
}

// The address that a text of one line writes.
fn told_address(alloc: Global, text: &str) -> Result<Option<Address>, AllocError>
    ensures some { IfOk result (λ found. IfSome found (IsLineOf text.now)) }
    ensures none { IfOk result (λ found. IfNone found
        ((address : Address) → ¬ IsLineOf text.now address)) }
{
    match only_line(text) {
        Some(line) => written_address(alloc, line),
        None => Ok(None),
    }
}

// The line of a text that has one alone.
fn only_line(text: &str) -> Option<&str>
    ensures some { IfSome result (λ line. IsOnlyLine text.now line.now) }
    ensures none { IsNone result → (line : List ℕ) → ¬ IsOnlyLine text.now line }
{
    match text.split_once('\n') {
        None => Some(text),
        Some((line, rest)) if rest.is_empty() => Some(line),
        Some(_) => None,
    }
}

/// Whether a line writes an address.
pub fn is_address(alloc: Global, line: &str) -> Result<bool, AllocError>
    ensures { IfOk result (λ is. IsTrue is ↔ IsAddress line.now) }
{
    Ok(written_address(alloc, line)?.is_some())
}

// The address that a line writes.
fn written_address(alloc: Global, line: &str) -> Result<Option<Address>, AllocError>
    ensures some { IfOk result (λ found. IfSome found (IsAddressText line.now)) }
    ensures none { IfOk result (λ found. IfNone found (IsNoAddress line.now)) }
{
    match Address::read(alloc, line) {
        Ok(address) => Ok(Some(address)),
        Err(AddressError::OutOfMemory) => Err(AllocError),
        Err(AddressError::BadAddress) => Ok(None),
        Err(AddressError::NotLocal) => unreachable!(),
    }
}
