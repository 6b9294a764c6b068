//! The servers of an `init` that are served elsewhere.

ghost use Rattle.std.specs.Prelude.{◌≡◌, ◌^◌, ◌<◌, [], map, nat_eq, IfOk, IfSome, IsOk};
ghost use Rattle.std.specs.List.{IsDistinct};
ghost use Rattle.grid_commands.specs.Elsewhere.{AreNamed, NamesServer};

use crate::init::within;
use grid_faults::{Fault, Limit};
use grid_marks::AddressFile;
use grid_servers::{is_address, refuse_no_address};
use grid_telling::Progress;
use std::alloc::{AllocError, Global};
use std::io::{IsTerminal, Write};
use std::ops::Range;
use std::rt::{Clock, Files};
use wire::message::NodeId;

/// The files of the servers that these words name, each as `NUMBER=ADDRESS`. `BadParameters` where
/// a word names none, or two name one server; that is told.
pub(crate) fn named_servers<'a, R, E>(
    rt: &R,
    words: &[&'a str],
    progress: &mut Progress<'_, R, E>,
) -> Result<Vec<AddressFile<'a>>, Fault>
where
    R: Clock + AllocGlobal,
    E: Write + IsTerminal,
    ensures named { IfOk result
        (λ files. AreNamed words.now (map (λ f. f.server) files.items)) }
    ensures distinct { IfOk result
        (λ files. IsDistinct nat_eq (map (λ f. f.server) files.items)) }
{
    match read_words(rt.alloc(), words)? {
        Some(files) => Ok(files),
        None => {
            progress.tell(NONE_NAMED);
            Err(Fault::BadParameters)
        }
    }
}

// What is told of words that name no servers.
const NONE_NAMED: &str = "--server is NUMBER=ADDRESS, for each such server once, and ADDRESS is \
unix:PATH or an IP address with a port\n";

// The files of the servers that these words name. None where a word names none, or two name one.
fn read_words<'a>(
    alloc: Global,
    words: &[&'a str],
) -> Result<Option<Vec<AddressFile<'a>>>, AllocError>
    ensures named { IfOk result (λ read. IfSome read
        (λ files. AreNamed words.now (map (λ f. f.server) files.items))) }
    ensures distinct { IfOk result (λ read. IfSome read
        (λ files. IsDistinct nat_eq (map (λ f. f.server) files.items))) }
{
    let mut files = Vec::new(alloc);
    let mut servers = Vec::new(alloc);
    for word in words {
        match read_word(alloc, *word)? {
            Some(file) if !servers.contains(&file.server) => {
                servers.push(file.server)?;
                files.push(file)?;
            }
            _ => return Ok(None),
        }
    }
    Ok(Some(files))
}

// The file of the server that a word names.
fn read_word<'a>(alloc: Global, word: &'a str) -> Result<Option<AddressFile<'a>>, AllocError>
    ensures { IfOk result (λ read. IfSome read (λ file. NamesServer word.entry.now file.server)) }
{
    let Some((digits, address)) = word.split_once('=') else {
        return Ok(None);
    };
    let Ok(server) = digits.parse::<NodeId>() else {
        return Ok(None);
    };
    if is_address(alloc, address)? {
        Ok(Some(AddressFile { server, address }))
    } else {
        Ok(None)
    }
}

/// Refuses files of servers that a grid does not get, of which the range is told, and files that
/// stand under the names of those that it gets and tell no address.
pub(crate) fn refuse_others<R, E>(
    rt: &R,
    grid: &str,
    elsewhere: &[AddressFile<'_>],
    servers: Range<NodeId>,
    progress: &mut Progress<'_, R, E>,
) -> Result<(), Fault>
where
    R: Files + Clock + AllocGlobal,
    E: Write + IsTerminal,
{
    for file in elsewhere {
        let limit = Limit {
            option: "--server",
            value: u64::from(file.server),
            least: u64::from(servers.start),
            most: u64::from(servers.end.saturating_sub(1)),
        };
        within(rt, &limit, progress)?;
    }
    refuse_no_address(rt, grid, servers)
}

/// Refuses such files where no server is new.
pub(crate) fn refuse_any(elsewhere: &[AddressFile<'_>]) -> Result<(), Fault>
    ensures { IsOk result → elsewhere.now ≡ [] }
{
    if elsewhere.is_empty() {
        return Ok(());
    }
    Err(Fault::BadParameters)
}
