//! Bytes that can be read once, as those of a pipe, kept in a file without a name: it is gone when
//! it is closed, also by a kill.

ghost use Rattle.std.specs.Prelude.{◌≡◌, ◌≤◌, ◌<◌, ◌+◌, length, IfOk, IfSome};
ghost use Rattle.std.specs.Io.KnownBytes.{Appends, IsAtEnd};
ghost use Rattle.user_files.specs.Pieces.{Copies};

use crate::files::at_path;
use crate::names::random_name;
use crate::pieces::{PIECE_SIZE, read_some};
use grid_faults::Fault;
use std::alloc::Global;
use std::fs::OpenOptions;
use std::io::{ErrorKind, Read, Seek, Write};
use std::os::unix::fs::OpenOptionsExt;
use std::random::RandomSource;
use std::rt::Files;
use std::{fs, io};
use ueb::MAX_FILE_SIZE;

// Who may read the file while it has a name: its owner.
const OWNER_ONLY: u32 = 0o600;

// How many names are tried.
const TRIES: usize = 8;

/// From where to where bytes are kept, by their paths.
#[derive(Clone, Copy)]
pub(crate) struct Spooling<'a> {
    /// How what is read is told.
    pub(crate) name: &'a str,
    /// The folder in which the file is made.
    pub(crate) temporary: &'a str,
}

/// A file without a name with the bytes that were read already and all that a reader has left, at
/// its start, and how many they are. `TooLarge` past 2^40 bytes.
pub(crate) fn spool<R, S>(
    rt: &R,
    begun: Vec<u8>,
    reader: &mut S,
    spooling: &Spooling<'_>,
) -> Result<(R::File, u64), Fault>
where
    R: Files + RandomSource + AllocGlobal,
    S: Read,
    ensures many { IfOk result (λ spooled. length begun.items ≤ spooled.1) }
    ensures all { IfOk result (λ spooled. IfSome (S.remaining reader.old)
        (λ left. spooled.1 ≡ length begun.items + length left)) }
{
    let alloc = rt.alloc();
    let mut file = open_nameless(rt, spooling.temporary)?;
    at_path(alloc, file.write_all(&begun), spooling.temporary)?;
    let written = begun.len() as u64;
    drop(begun);
    let size = copy_left(alloc, reader, &mut file, written, spooling)?;
    at_path(alloc, file.rewind(), spooling.temporary)?;
    Ok((file, size))
}

// Copies all that a reader has left behind so many bytes, and says how many they are then.
fn copy_left<S: Read, W: Write>(
    alloc: Global,
    reader: &mut S,
    writer: &mut W,
    written: u64,
    spooling: &Spooling<'_>,
) -> Result<u64, Fault>
    ensures many { IfOk result (λ size. written ≤ size) }
    ensures all { IfOk result (λ size. IfSome (S.remaining reader.old)
        (λ left. Appends (W.contents writer.old) (W.contents writer.new) left
        × (size ≡ written + length left))) }
{
    let mut buffer = vec![in alloc; 0u8; PIECE_SIZE]?;
    copy_pieces(alloc, reader, writer, &mut buffer, written, spooling)
}

// The same by a buffer.
fn copy_pieces<S: Read, W: Write>(
    alloc: Global,
    reader: &mut S,
    writer: &mut W,
    buffer: &mut [u8],
    written: u64,
    spooling: &Spooling<'_>,
) -> Result<u64, Fault>
    requires { 0 < length buffer.old }
    ensures many { IfOk result (λ size. written ≤ size) }
    ensures all { IfOk result (λ size. IfSome (S.remaining reader.old)
        (λ left. Appends (W.contents writer.old) (W.contents writer.new) left
        × (size ≡ written + length left))) }
{
    let mut size = written;
    for _ in 0..u64::MAX {
        let count = copy_piece(alloc, reader, writer, buffer, spooling)?;
        match size.checked_add(count as u64) {
            Some(_) if count == 0 => return Ok(size),
            Some(more) if more <= MAX_FILE_SIZE => size = more,
            _ => return Err(Fault::TooLarge),
        }
    }
    Err(Fault::TooLarge)
}

// Copies some bytes, and says how many: none at the end.
fn copy_piece<S: Read, W: Write>(
    alloc: Global,
    reader: &mut S,
    writer: &mut W,
    buffer: &mut [u8],
    spooling: &Spooling<'_>,
) -> Result<usize, Fault>
    requires { 0 < length buffer.old }
    ensures copies { IfOk result (λ count. Copies (S.remaining reader.old)
        (S.remaining reader.new) (W.contents writer.old) (W.contents writer.new) count) }
    ensures end { IfOk result (λ count. count ≡ 0 → IsAtEnd (S.remaining reader.new)) }
    ensures room { length buffer.new ≡ length buffer.old }
{
    let count = at_path(alloc, read_some(reader, buffer), spooling.name)?;
    let written = writer.write_all(&buffer[..count]);
    at_path(alloc, written, spooling.temporary)?;
    Ok(count)
}

// A file that is made in a folder, and has no name any more.
fn open_nameless<R>(rt: &R, temporary: &str) -> Result<R::File, Fault>
where
    R: Files + RandomSource + AllocGlobal,
{
    let alloc = rt.alloc();
    for _ in 0..TRIES {
        match try_nameless(rt, temporary) {
            Err(error) if error.kind() == ErrorKind::AlreadyExists => {}
            outcome => return at_path(alloc, outcome, temporary),
        }
    }
    let error = io::Error::from(ErrorKind::AlreadyExists);
    at_path(alloc, Err(error), temporary)
}

// The same under a name that is tried.
fn try_nameless<R>(rt: &R, temporary: &str) -> io::Result<R::File>
where
    R: Files + RandomSource + AllocGlobal,
{
    let name = random_name(rt)?;
    let path = format!(in rt.alloc(); "{temporary}/grid-put-{name}")?;
    let mut options = OpenOptions::new();
    options.read(true).write(true).create_new(true);
    options.mode(OWNER_ONLY);
    let file = options.open(rt, path.as_str())?;
    fs::remove_file(rt, path.as_str())?;
    Ok(file)
}
