//! Servers that are served elsewhere, by files of one line that tell where.

ghost use Rattle.std.specs.Prelude.{◌≡◌, ◌↔◌, ◌≤◌, ◌<◌, ◌++◌, ◌∷◌, [], All, IfOk, IsTrue};
ghost use Rattle.std.specs.String.{string_bytes};
ghost use Rattle.grid_marks.specs.Addresses.{AreOf, HasLine};

use crate::folders::server_folder;
use grid_faults::Fault;
use std::alloc::{AllocError, Global};
use std::io::ErrorKind;
use std::ops::Range;
use std::random::RandomSource;
use std::rt::Files;
use std::{fs, io};
use user_files::{NewFile, SHARED, at_path, publish, read_at_most, sync_folder};
use wire::message::NodeId;

/// A file of one line, which stands under the name of a server in place of its folder, and tells
/// the address at which the server is served.
#[derive(Clone, Copy)]
pub struct AddressFile<'a> {
    pub server: NodeId,
    /// The line, without its end.
    pub address: &'a str,
}

/// Refuses files of servers that are none of these: `BadParameters`.
pub(crate) fn refuse_others(
    elsewhere: &[AddressFile<'_>],
    servers: Range<NodeId>,
) -> Result<(), Fault>
    ensures { IfOk result (λ _. AreOf servers.start servers.«end» elsewhere.now) }
{
    for file in elsewhere {
        if file.server < servers.start || file.server >= servers.end {
            return Err(Fault::BadParameters);
        }
    }
    Ok(())
}

/// Refuses what stands in the place of one of these files and is another. One of the same line may
/// stand there, as an earlier call that came to no end left it.
pub(crate) fn refuse_taken<R>(
    rt: &R,
    grid: &str,
    elsewhere: &[AddressFile<'_>],
) -> Result<(), Fault>
where
    R: Files + AllocGlobal,
{
    for file in elsewhere {
        let path = server_folder(rt.alloc(), grid, file.server)?;
        at_path(
            rt.alloc(),
            holds(rt, path.as_str(), file.address),
            path.as_str(),
        )?;
    }
    Ok(())
}

/// Writes these files where they do not stand, each whole. They are on the disk then.
pub(crate) fn publish_addresses<R>(
    rt: &R,
    grid: &str,
    elsewhere: &[AddressFile<'_>],
) -> Result<(), Fault>
where
    R: Files + RandomSource + AllocGlobal,
{
    for file in elsewhere {
        let path = server_folder(rt.alloc(), grid, file.server)?;
        let published = publish_address(rt, grid, path.as_str(), file.address);
        at_path(rt.alloc(), published, path.as_str())?;
    }
    Ok(())
}

// Writes the file of an address at a path in a grid's folder. Another call may have been first,
// which wrote the same line.
fn publish_address<R>(rt: &R, grid: &str, path: &str, address: &str) -> io::Result<()>
where
    R: Files + RandomSource + AllocGlobal,
{
    let text = file_text(rt.alloc(), address)?;
    let file = NewFile {
        folder: grid,
        path,
        text: text.as_bytes(),
        mode: SHARED,
    };
    if publish(rt, &file)? {
        return Ok(());
    }
    match holds(rt, path, address)? {
        true => sync_folder(rt, grid),
        false => Err(io::Error::from(ErrorKind::NotFound)),
    }
}

// Whether the file of an address stands at a path. An error where anything else does.
fn holds<R>(rt: &R, path: &str, address: &str) -> io::Result<bool>
where
    R: Files + AllocGlobal,
{
    match fs::symlink_metadata(rt, path) {
        Err(error) if error.kind() == ErrorKind::NotFound => return Ok(false),
        Err(error) => return Err(error),
        Ok(_) => {}
    }
    if fs::metadata(rt, path)?.is_file() {
        let most = (address.len() as u64).saturating_add(1);
        if let Some(text) = read_at_most(rt, path, most)? {
            if has_line(rt.alloc(), &text, address)? {
                return Ok(true);
            }
        }
    }
    Err(io::Error::from(ErrorKind::AlreadyExists))
}

// Whether a text is this line, with its end or without.
fn has_line(alloc: Global, text: &[u8], line: &str) -> Result<bool, AllocError>
    ensures { IfOk result (λ has. IsTrue has ↔ HasLine line.now text.now) }
{
    let whole = file_text(alloc, line)?;
    Ok(text == line.as_bytes() || text == whole.as_bytes())
}

// The text of the file of an address.
fn file_text(alloc: Global, address: &str) -> Result<String, AllocError>
    ensures { IfOk result (λ text. string_bytes text ≡ address.now ++ (10 ∷ [])) }
{
    format!(in alloc; "{address}\n")
}
