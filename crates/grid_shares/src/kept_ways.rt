//! The ways of a grid: by which numbers its files are put, where words do not say. They stand in a
//! file beside the grid's mark.

ghost use Rattle.std.specs.Prelude.{◌≡◌, ◌++◌, codes, IfOk, IfSome};
ghost use Rattle.std.specs.String.{string_bytes};
ghost use Rattle.grid_rules.specs.Ways.{AreWays};
ghost use Rattle.grid_shares.specs.KeptWays.{IsAskedBy, numbers_after, ways_found};

use file_encoding::Params;
use grid_faults::{Fault, told_path};
use grid_rules::{read_ways, ways_text};
use grid_words::{NumberWords, PutWords};
use std::alloc::{AllocError, Global};
use std::io::ErrorKind;
use std::random::RandomSource;
use std::rt::Files;
use std::{fs, io};
use user_files::{NewFile, SHARED, at_path, publish, read_at_most, sync_folder};

// The greatest file that may hold a grid's ways, in bytes. Their text has at most 43.
const MAX_WAYS_SIZE: u64 = 64;

// What stands where the ways of a grid may stand.
#[derive(Clone, Copy)]
enum Found {
    Nothing,
    Ways(Params),
    // What is no text of ways.
    Other,
}

/// The path of the file with a grid's ways. No share and no server has such a name.
pub fn ways_path(alloc: Global, grid: &str) -> Result<String, AllocError>
    ensures { IfOk result (λ path. string_bytes path ≡ grid.now ++ codes "/grid-ways") }
{
    format!(in alloc; "{grid}/grid-ways")
}

/// The ways of a grid; none where no file has them. A fault of that file where it cannot be looked
/// at or read, and `BadMark` where what stands there is no text of ways.
pub fn grid_ways<R>(rt: &R, grid: &str) -> Result<Option<Params>, Fault>
where
    R: Files + AllocGlobal,
    ensures { IfOk result (λ ways. IfSome ways AreWays) }
{
    if grid.is_empty() {
        return Ok(None);
    }
    let alloc = rt.alloc();
    let path = ways_path(alloc, grid)?;
    match at_path(alloc, find_ways(rt, path.as_str()), path.as_str())? {
        Found::Nothing => Ok(None),
        Found::Ways(ways) => Ok(Some(ways)),
        Found::Other => Err(Fault::BadMark(told_path(alloc, path.as_str())?)),
    }
}

// Looks for ways at a path. Where the grid's folder is no folder there are none.
fn find_ways<R>(rt: &R, path: &str) -> io::Result<Found>
where
    R: Files + AllocGlobal,
    ensures { IfOk result (λ found. IfSome (ways_found found) AreWays) }
{
    match fs::metadata(rt, path) {
        Ok(found) if found.is_file() => {}
        Ok(_) => return Ok(Found::Other),
        Err(error) if is_missing(&error) => return Ok(Found::Nothing),
        Err(error) => return Err(error),
    }
    match read_at_most(rt, path, MAX_WAYS_SIZE)? {
        Some(text) => Ok(ways_in(text.as_slice())),
        None => Ok(Found::Other),
    }
}

// Whether nothing stands at a path.
fn is_missing(error: &io::Error) -> bool {
    matches!(error.kind(), ErrorKind::NotFound | ErrorKind::NotADirectory)
}

// What the text of a file of ways says.
fn ways_in(text: &[u8]) -> Found
    ensures { IfSome (ways_found result) AreWays }
{
    match read_ways(text) {
        Some(ways) => Found::Ways(ways),
        None => Found::Other,
    }
}

/// Keeps ways with a grid whose folder stands, in a file that appears whole, and is on the disk
/// then. Where the grid has the same ways already it keeps that file; a fault of the path where it
/// has others, and `BadMark` where what stands there is no text of ways.
pub fn keep_ways<R>(rt: &R, grid: &str, ways: &Params) -> Result<(), Fault>
where
    R: Files + RandomSource + AllocGlobal,
{
    let alloc = rt.alloc();
    let (path, text) = (ways_path(alloc, grid)?, ways_text(alloc, ways)?);
    let file = NewFile {
        folder: grid,
        path: path.as_str(),
        text: text.as_bytes(),
        mode: SHARED,
    };
    if at_path(alloc, publish(rt, &file), path.as_str())? {
        return Ok(());
    }
    match grid_ways(rt, grid)? {
        Some(kept) if kept == *ways => at_path(alloc, sync_folder(rt, grid), path.as_str()),
        _ => Err(taken(alloc, path.as_str())?),
    }
}

/// Refuses other ways than these, which an earlier call kept, with a fault of their file; `BadMark`
/// where what stands there is no text of ways.
pub fn refuse_other_ways<R>(rt: &R, grid: &str, ways: &Params) -> Result<(), Fault>
where
    R: Files + AllocGlobal,
{
    match grid_ways(rt, grid)? {
        Some(kept) if kept != *ways => {
            let path = ways_path(rt.alloc(), grid)?;
            Err(taken(rt.alloc(), path.as_str())?)
        }
        _ => Ok(()),
    }
}

// The fault of a path at which something else stands.
fn taken(alloc: Global, path: &str) -> Result<Fault, AllocError> {
    let reason = io::Error::from(ErrorKind::AlreadyExists);
    Ok(Fault::of_path(told_path(alloc, path)?, reason))
}

/// The words of a put, with the numbers of its grid's ways in place of those that it does not
/// write. Faults as of `grid_ways`.
pub fn words_by_ways<'a, R>(rt: &R, words: &PutWords<'a>) -> Result<PutWords<'a>, Fault>
where
    R: Files + AllocGlobal,
    ensures { IfOk result (IsAskedBy words.now) }
{
    let ways = grid_ways(rt, words.grid)?;
    Ok(with_ways(rt.alloc(), words, ways)?)
}

// The words with the numbers of these ways.
fn with_ways<'a>(
    alloc: Global,
    words: &PutWords<'a>,
    ways: Option<Params>,
) -> Result<PutWords<'a>, AllocError>
    requires { IfSome ways AreWays }
    ensures { IfOk result (IsAskedBy words.now) }
{
    Ok(PutWords {
        files: Vec::from_slice(alloc, words.files.as_slice())?,
        list: words.list,
        since: words.since,
        grid: words.grid,
        secret: words.secret,
        numbers: numbers_after(words.numbers, ways),
        servers: words.servers,
        net: words.net,
        no_sync: words.no_sync,
        mend: words.mend,
        quiet: words.quiet,
        known: words.known,
        verbose: words.verbose,
    })
}

// The numbers that are written, and those of the ways in place of the others.
fn numbers_after(words: NumberWords, ways: Option<Params>) -> NumberWords
    ensures { result ≡ numbers_after words ways }
{
    match ways {
        None => words,
        Some(ways) => NumberWords {
            needed: words.needed.or(Some(u64::from(ways.needed()))),
            happy: words.happy.or(Some(u64::from(ways.happy()))),
            total: words.total.or(Some(u64::from(ways.total()))),
            max_segment: words.max_segment.or(Some(u64::from(ways.max_segment()))),
        },
    }
}
