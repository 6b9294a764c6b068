//! Where the bytes of a `get` are written, by what stands at the path that the user named.

ghost use Rattle.std.specs.Prelude.{◌≡◌, ◌++◌, IfOk, codes, decimal};
ghost use Rattle.std.specs.String.{string_bytes};
ghost use Rattle.grid_gets.specs.Target.{IsFound, folder_of, part_name, stem, target_of};

use std::alloc::{AllocError, Global};
use std::fs::Metadata;
use std::io::ErrorKind;
use std::path::Path;

/// How many links one after another are followed, as the system does.
pub(crate) const MOST_LINKS: u8 = 40;

/// How many names are tried for the file beside a path.
pub(crate) const MOST_PARTS: u8 = 99;

// How many bytes a name may have that leaves room for `.part.99` behind it: file systems take 255.
const MOST_OWN: usize = 247;

// What stands for a longer name.
const STEM: &str = "grid-get";

/// What stands at a path, where links are followed.
#[derive(Clone, Copy, PartialEq, Eq)]
pub(crate) enum Found {
    Nothing,
    /// A regular file.
    File,
    Folder,
    /// A device, a FIFO or a socket.
    Other,
}

/// Where bytes are written that are to stand at a path.
#[derive(Clone, Copy)]
pub(crate) enum Target {
    /// To a file beside it, which gets its name once it is whole.
    Beside,
    /// To what stands there.
    Straight,
    /// Nowhere, with the reason.
    Refused(ErrorKind),
}

/// What the system says of a path.
pub(crate) fn found_of(metadata: &Metadata) -> Found
    ensures { IsFound metadata.now result }
{
    if metadata.is_file() {
        Found::File
    } else if metadata.is_dir() {
        Found::Folder
    } else {
        Found::Other
    }
}

/// Where the bytes are written that are to stand at a path, at which this was found.
pub(crate) fn target_of(path: &str, found: Found) -> Target
    ensures { result ≡ target_of path.now found }
{
    if path.is_empty() {
        return Target::Refused(ErrorKind::NotFound);
    }
    match found {
        Found::Nothing | Found::File => Target::Beside,
        Found::Folder => Target::Refused(ErrorKind::IsADirectory),
        Found::Other => Target::Straight,
    }
}

/// The folder that a path's name stands in.
pub(crate) fn folder_of(path: &str) -> &str
    ensures { result.now ≡ folder_of path.now }
{
    match Path::new(path).parent() {
        Some(folder) if !folder.as_str().is_empty() => folder.as_str(),
        _ => ".",
    }
}

/// The name of a new file beside the one of a name, of which that for 1 is tried first, and that
/// for 2 next. Where the name leaves no room for more it begins with `grid-get` in its place.
pub(crate) fn part_name(alloc: Global, name: &str, turn: u8) -> Result<String, AllocError>
    ensures { IfOk result (λ own. string_bytes own ≡ part_name name.now turn) }
{
    let stem = stem(name);
    if turn < 2 {
        return format!(in alloc; "{stem}.part");
    }
    later_name(alloc, stem, turn)
}

// The name of one that is not the first.
fn later_name(alloc: Global, stem: &str, turn: u8) -> Result<String, AllocError>
    ensures { IfOk result
        (λ own. string_bytes own ≡ stem.now ++ codes ".part." ++ decimal turn) }
{
    format!(in alloc; "{stem}.part.{turn}")
}

// What the name of a file beside one of this name begins with.
fn stem(name: &str) -> &str
    ensures { result.now ≡ stem name.now }
{
    if name.len() <= MOST_OWN { name } else { STEM }
}
