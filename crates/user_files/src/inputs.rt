//! What is stored: a file, or what comes over standard input or a pipe.

ghost use Rattle.std.specs.Prelude.{◌↔◌, codes, IfOk, IfSome, IsTrue};
ghost use Rattle.std.specs.Io.{StartsWith};
ghost use Rattle.user_files.specs.Input.{IsWithin};

use crate::files::{at_path, if_there, read_at_most};
use crate::pieces::{PIECE_SIZE, has_bytes, read_beginning, read_to_limit};
use crate::spooling::{Spooling, spool};
use grid_faults::Fault;
use std::alloc::Global;
use std::fs::{File, OpenFile};
use std::io::{Read, Seek};
use std::os::unix::fs::FileTypeExt;
use std::random::RandomSource;
use std::rt::Files;
use std::{fs, io};

/// The path that stands for standard input, the path at which the system has it, and how it is
/// told.
const STANDARD_INPUT: &str = "-";

const INPUT_PATH: &str = "/dev/stdin";

const INPUT_NAME: &str = "standard input";

/// Where the system tells at which position standard input stands, how many bytes of that are read
/// at most, and what they begin with at position 0.
const INPUT_STATE: &str = "/proc/self/fdinfo/0";

const MAX_STATE_SIZE: u64 = 4096;

const AT_START: &[u8] = b"pos:\t0\n";

/// What is to be stored.
#[derive(Drop)]
pub enum Input<F: Drop> {
    /// All its bytes. It is not read again.
    Held(Vec<u8>),
    /// A file of more bytes than are held, and how many it had when it was opened. It can be read
    /// as often as is needed.
    Opened(F, u64),
}

/// What stands at a path, or for the path `-` what standard input has left: its bytes, where there
/// are at most `most`; else a file, open.
///
/// A regular file is read from its start. One that is held is read twice, and is `SourceChanged`
/// where it had other bytes or another length then. Of anything else, as a pipe, all bytes are read
/// once; where they are more, they are kept in a file without a name, that is made in the folder
/// `temporary`. A fault of the file where it cannot be read, or is a device with more bytes, and
/// one of that folder where the bytes cannot be kept. Memory holds at most `most` bytes and a piece
/// of 64 KiB.
pub fn open_input<R>(
    rt: &R,
    path: &str,
    temporary: &str,
    most: u64,
) -> Result<Input<R::File>, Fault>
where
    R: Files + io::Input + RandomSource + AllocGlobal,
    ensures { IfOk result (IsWithin most) }
{
    let name = if path == STANDARD_INPUT {
        INPUT_NAME
    } else {
        path
    };
    let spooling = Spooling { name, temporary };
    if path == STANDARD_INPUT {
        return open_standard(rt, &spooling, most);
    }
    let file = at_path(rt.alloc(), File::open(rt, path), path)?;
    read_opened(rt, file, &spooling, most)
}

// The same of standard input. A regular file that stands at its start can be opened anew, and read
// as often as is needed.
fn open_standard<R>(rt: &R, spooling: &Spooling<'_>, most: u64) -> Result<Input<R::File>, Fault>
where
    R: Files + io::Input + RandomSource + AllocGlobal,
    ensures { IfOk result (IsWithin most) }
{
    if is_at_start(rt)? {
        if let Some(file) = if_there(File::open(rt, INPUT_PATH))? {
            return read_opened(rt, file, spooling, most);
        }
    }
    let mut input = rt.reader();
    hold_or_spool(rt, &mut input, spooling, most)
}

// Whether standard input is a regular file, and stands at its start. Where the system does not tell
// it is taken for one that is read once.
fn is_at_start<R: Files + AllocGlobal>(rt: &R) -> Result<bool, Fault> {
    let found = if_there(fs::metadata(rt, INPUT_PATH))?;
    if !found.is_some_and(|file| file.is_file()) {
        return Ok(false);
    }
    match if_there(read_at_most(rt, INPUT_STATE, MAX_STATE_SIZE))? {
        Some(Some(state)) => Ok(tells_start(&state)),
        _ => Ok(false),
    }
}

// Whether what the system tells of an open file has its position at 0.
fn tells_start(state: &[u8]) -> bool
    ensures { IsTrue result ↔ StartsWith state.now (codes "pos:\t0\n") }
{
    state.starts_with(AT_START)
}

// What an open file has, which was not read yet.
fn read_opened<R>(
    rt: &R,
    mut file: R::File,
    spooling: &Spooling<'_>,
    most: u64,
) -> Result<Input<R::File>, Fault>
where
    R: Files + RandomSource + AllocGlobal,
    ensures { IfOk result (IsWithin most) }
{
    let alloc = rt.alloc();
    let found = at_path(alloc, file.metadata(), spooling.name)?;
    if found.file_type().is_char_device() {
        return hold_device(alloc, &mut file, spooling.name, most);
    }
    if !found.is_file() {
        return hold_or_spool(rt, &mut file, spooling, most);
    }
    match at_path(
        alloc,
        read_file(alloc, file, found.len(), most),
        spooling.name,
    )? {
        Some(input) => Ok(input),
        None => Err(Fault::SourceChanged),
    }
}

// What a regular file has, which had so many bytes when it was opened. None where it changed.
fn read_file<F>(alloc: Global, mut file: F, size: u64, most: u64) -> io::Result<Option<Input<F>>>
where
    F: Read + Seek + OpenFile + Drop,
    ensures { IfOk result (λ read. IfSome read (IsWithin most)) }
{
    if size > most {
        return Ok(Some(Input::Opened(file, size)));
    }
    match read_to_limit(alloc, &mut file, size, most)? {
        Some(bytes) if is_same_again(alloc, &mut file, size, &bytes)? => {
            Ok(Some(Input::Held(bytes)))
        }
        Some(_) => Ok(None),
        None => reopened(file, most),
    }
}

// Whether a file has these bytes when it is read again, and the size that it had.
fn is_same_again<F>(alloc: Global, file: &mut F, size: u64, bytes: &[u8]) -> io::Result<bool>
where
    F: Read + Seek + OpenFile,
{
    file.rewind()?;
    let mut buffer = vec![in alloc; 0u8; PIECE_SIZE]?;
    let is_same = has_bytes(file, bytes, &mut buffer)?;
    Ok(is_same && file.metadata()?.len() == size)
}

// A file that was shorter when it was opened, with the bytes that it has now. None where it became
// shorter again.
fn reopened<F: OpenFile + Drop>(file: F, most: u64) -> io::Result<Option<Input<F>>>
    ensures { IfOk result (λ read. IfSome read (IsWithin most)) }
{
    let size = file.metadata()?.len();
    if size > most {
        return Ok(Some(Input::Opened(file, size)));
    }
    Ok(None)
}

// All that a device has, which is read once. One that has more bytes than are held may have no end,
// and is not kept.
fn hold_device<F, S>(
    alloc: Global,
    reader: &mut S,
    name: &str,
    most: u64,
) -> Result<Input<F>, Fault>
where
    F: Drop,
    S: Read,
    ensures { IfOk result (IsWithin most) }
{
    let read = read_to_limit(alloc, &mut *reader, 0, most);
    match at_path(alloc, read, name)? {
        Some(bytes) => Ok(Input::Held(bytes)),
        None => at_path(alloc, Err(io::Error::other(ENDLESS)), name),
    }
}

// Why a device is not stored that has too many bytes.
const ENDLESS: &str = "a device with more bytes than can be held";

// All that a reader has, which is read once: its bytes, or a file without a name that has them.
fn hold_or_spool<R, S>(
    rt: &R,
    reader: &mut S,
    spooling: &Spooling<'_>,
    most: u64,
) -> Result<Input<R::File>, Fault>
where
    R: Files + RandomSource + AllocGlobal,
    S: Read,
    ensures { IfOk result (IsWithin most) }
{
    let alloc = rt.alloc();
    let begun = read_beginning(alloc, &mut *reader, most, most);
    let begun = at_path(alloc, begun, spooling.name)?;
    if begun.len() as u64 <= most {
        return Ok(Input::Held(begun));
    }
    let (file, size) = spool(rt, begun, reader, spooling)?;
    Ok(Input::Opened(file, size))
}
