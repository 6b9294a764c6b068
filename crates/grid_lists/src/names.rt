//! The names of a list of files.

ghost use Rattle.std.specs.Prelude.{◌≡◌, ◌≤◌, ◌*◌, ◌^◌, ◌==◌, IfOk, length, map};
ghost use Rattle.std.specs.List.{slice_split};
ghost use Rattle.grid_lists.specs.Names.{names_in};

use grid_faults::Fault;
use grid_words::{ListWords, STANDARD_INPUT};
use std::alloc::{AllocError, Global};
use std::fs::{self, File, OpenFile};
use std::io::{self, Read};
use std::random::RandomSource;
use std::rt::Files;
use user_files::{Input, at_path, open_input};

/// The greatest list, and the greatest catalogue, in bytes.
const MOST_LIST: u64 = 64 << 20;

/// How many names it may have: each takes 16 bytes more as they are told apart.
const MOST_NAMES: usize = 2 << 20;

// The room for one that is read from a pipe: a byte more than it may have, and one to see its end.
const ROOM: usize = (64 << 20) + 2;

// How standard input is told.
const INPUT_NAME: &str = "standard input";

pub(crate) const LINE_FEED: u8 = b'\n';

const NUL: u8 = 0;

/// The text of the list that these words name, which is held; an empty one where they name none. A
/// fault of its file where that cannot be read, and `TooLarge` where it has more than 64 MiB or
/// 2,097,152 names.
pub(crate) fn read_list<R>(rt: &R, list: &ListWords<'_>, temporary: &str) -> Result<Vec<u8>, Fault>
where
    R: Files + io::Input + RandomSource + AllocGlobal,
{
    let path = match list {
        ListWords::Unsaid => return Ok(Vec::new(rt.alloc())),
        ListWords::Lines(path) => *path,
        ListWords::Nuls(path) => *path,
    };
    bounded(read_text(rt, path, temporary)?, end_of(list))
}

/// The text of a list or of a catalogue, which is held. A fault of its file where that cannot be
/// read, and `TooLarge` where it has more than 64 MiB, of which no more is read: a pipe may have no
/// end.
pub fn read_text<R>(rt: &R, path: &str, temporary: &str) -> Result<Vec<u8>, Fault>
where
    R: Files + io::Input + RandomSource + AllocGlobal,
    ensures few { IfOk result (λ text. length text.items ≤ 64 * 2 ^ 20) }
{
    if path == STANDARD_INPUT {
        return read_once(rt.alloc(), &mut rt.reader(), INPUT_NAME);
    }
    if !at_path(rt.alloc(), fs::metadata(rt, path), path)?.is_file() {
        let mut pipe = at_path(rt.alloc(), File::open(rt, path), path)?;
        return read_once(rt.alloc(), &mut pipe, path);
    }
    match open_input(rt, path, temporary, MOST_LIST)? {
        Input::Held(text) => Ok(text),
        Input::Opened(_, _) => Err(Fault::TooLarge),
    }
}

// All that a reader has, which is read once.
fn read_once<S: Read>(alloc: Global, reader: &mut S, name: &str) -> Result<Vec<u8>, Fault>
    ensures few { IfOk result (λ text. length text.items ≤ 64 * 2 ^ 20) }
{
    let mut text = Vec::with_capacity(alloc, ROOM)?;
    let read = reader.take(MOST_LIST + 1).read_to_end(&mut text);
    at_path(alloc, read, name)?;
    if text.len() as u64 > MOST_LIST {
        return Err(Fault::TooLarge);
    }
    Ok(text)
}

/// The text of a list whose names, or of a catalogue whose lines, end with this byte, where they
/// are not too many.
pub(crate) fn bounded(text: Vec<u8>, end: u8) -> Result<Vec<u8>, Fault> {
    if text.iter().filter(|byte| **byte == end).count() > MOST_NAMES {
        return Err(Fault::TooLarge);
    }
    Ok(text)
}

/// The byte that ends each name of such a list.
pub(crate) fn end_of(list: &ListWords<'_>) -> u8 {
    match list {
        ListWords::Nuls(_) => NUL,
        ListWords::Lines(_) | ListWords::Unsaid => LINE_FEED,
    }
}

/// The names of a list, each of which ends with this byte; the last may lack it.
pub(crate) fn names_in(alloc: Global, text: &[u8], end: u8) -> Result<Vec<&[u8]>, AllocError>
    ensures { IfOk result (λ names. map (λ n. n.now) names.items ≡ names_in end text.now) }
{
    match text.split_last() {
        None => Ok(Vec::new(alloc)),
        Some((last, before)) => {
            if *last == end {
                pieces(alloc, before, end)
            } else {
                pieces(alloc, text, end)
            }
        }
    }
}

// What stands between such bytes.
fn pieces(alloc: Global, text: &[u8], end: u8) -> Result<Vec<&[u8]>, AllocError>
    ensures { IfOk result
        (λ pieces. map (λ p. p.now) pieces.items ≡ slice_split (λ c. c == end) text.now) }
{
    text.split(|byte| *byte == end).collect(alloc)
}
