//! A file of a list: its name, its path, its line, and what is told where it is refused.

ghost use Rattle.std.specs.Prelude.{◌≡◌, IfErr, IfOk, OnOk};
ghost use Rattle.std.specs.Io.KnownBytes.{Appends};
ghost use Rattle.catalogues.specs.Catalogues.{IsEntry};
ghost use Rattle.catalogues.specs.Lines.{line_text};
ghost use Rattle.catalogues.specs.Names.{IsName};
ghost use Rattle.grid_lists.specs.Ends.{IsCutShort};

use cap_text::Cap;
use catalogues::{CatalogueError, is_name, line_of};
use grid_faults::{Fault, reason_line, told_path};
use grid_telling::{Failure, Progress, print};
use grid_words::STANDARD_INPUT;
use std::alloc::{AllocError, Global};
use std::fs;
use std::io::{self, ErrorKind, IsTerminal, Write};
use std::rt::{Clock, Files};
use user_files::at_path;

// The path of a file that has it.
const NAMED_SO: &str = "./-";

/// The path at which the system has the file of a name, which `-` is as any other unless it may
/// stand for standard input. A fault of the file where the name is empty, has a NUL or is no UTF-8:
/// the system is asked for none of these.
pub fn path_of(alloc: Global, name: &[u8], has_input: bool) -> Result<String, Fault>
    ensures { IfOk result (λ _. IsName name.now) }
{
    if !is_name(name) {
        let reason = if name.is_empty() {
            ErrorKind::NotFound
        } else {
            ErrorKind::InvalidInput
        };
        return Err(unnamed(alloc, name, reason));
    }
    match str::from_utf8(name) {
        Ok(path) if path == STANDARD_INPUT && !has_input => Ok(String::from_str(alloc, NAMED_SO)?),
        Ok(path) => Ok(String::from_str(alloc, path)?),
        Err(_) => Err(unnamed(alloc, name, ErrorKind::InvalidFilename)),
    }
}

/// Refuses what a list names and is no regular file: a folder has no bytes, and a pipe may have a
/// writer that never comes.
pub fn may_be_listed<R: Files + AllocGlobal>(rt: &R, path: &str) -> Result<(), Fault> {
    at_path(rt.alloc(), is_regular(rt, path), path)
}

// Whether a regular file stands at a path, or why not.
fn is_regular<R: Files>(rt: &R, path: &str) -> io::Result<()> {
    let found = fs::metadata(rt, path)?;
    if found.is_file() {
        Ok(())
    } else if found.is_dir() {
        Err(io::Error::from(ErrorKind::IsADirectory))
    } else {
        Err(io::Error::other(NO_FILE))
    }
}

// Why a pipe or a device of a list is not stored.
const NO_FILE: &str = "it is no regular file";

/// The fault of a name that is no path.
pub(crate) fn unnamed(alloc: Global, name: &[u8], reason: ErrorKind) -> Fault {
    match told_name(alloc, name) {
        Ok(told) => Fault::File(told, io::Error::from(reason)),
        Err(error) => Fault::from(error),
    }
}

// A name as it is told. What is no UTF-8 in it is told as U+FFFD.
fn told_name(alloc: Global, name: &[u8]) -> Result<String, AllocError> {
    let text = String::from_utf8_lossy(alloc, name)?;
    told_path(alloc, text.as_str())
}

/// Writes bytes of a catalogue. What is written of bytes at which the writer fails is not known.
pub(crate) fn write_text<O: Write>(out: &mut O, text: &[u8]) -> Result<(), Failure>
    ensures written { OnOk result (Appends (O.contents out.old) (O.contents out.new) text.now) }
    ensures undone { IfErr result (λ failure. failure ≡ Failure.Writer) }
{
    match print(out, text) {
        Ok(()) => Ok(()),
        Err(_) => Err(Failure::Writer),
    }
}

/// Writes the line of a file that has this cap. Nothing is written where memory is refused.
pub(crate) fn write_line<O: Write>(
    alloc: Global,
    cap: &Cap,
    name: &[u8],
    out: &mut O,
) -> Result<(), Failure>
    requires { IsName name.now }
    ensures entry { IfOk result (λ _. IsEntry (record { cap = cap.now; name = name.now })) }
    ensures written { IfOk result (λ _. Appends (O.contents out.old) (O.contents out.new)
        (line_text cap.now name.now)) }
    ensures undone { IfErr result
        (λ failure. IsCutShort failure (O.contents out.new ≡ O.contents out.old)) }
{
    match line_of(alloc, cap, name) {
        Ok(line) => {
            write_text(out, &line)?;
            Ok(())
        }
        // It is a name, so no more is refused than memory.
        Err(_) => Err(Failure::Fault(Fault::OutOfMemory)),
    }
}

/// Tells the fault of a file that was refused, with its name and, before it, the line that tells
/// why.
pub fn tell_refused<R, E>(
    alloc: Global,
    name: &[u8],
    fault: &Fault,
    progress: &mut Progress<'_, R, E>,
) -> Result<(), AllocError>
where
    R: Clock + AllocGlobal,
    E: Write + IsTerminal,
{
    if let Some(line) = reason_line(alloc, fault)? {
        progress.tell(line.as_str());
    }
    let name = told_name(alloc, name)?;
    let line = format!(in alloc; "grid: {} {fault} ({name})\n", fault.number())?;
    progress.tell(line.as_str());
    Ok(())
}

/// Tells why a text is no catalogue, or which line of it is none.
pub fn tell_unread<R, E>(
    alloc: Global,
    error: CatalogueError,
    progress: &mut Progress<'_, R, E>,
) -> Result<(), AllocError>
where
    R: Clock + AllocGlobal,
    E: Write + IsTerminal,
{
    let line = format!(in alloc; "grid: {} {error}\n", error.number())?;
    progress.tell(line.as_str());
    Ok(())
}

/// Tells a name that leads to no file below a folder.
pub fn tell_misnamed<R, E>(
    alloc: Global,
    name: &[u8],
    error: CatalogueError,
    progress: &mut Progress<'_, R, E>,
) -> Result<(), AllocError>
where
    R: Clock + AllocGlobal,
    E: Write + IsTerminal,
{
    let name = told_name(alloc, name)?;
    let line = format!(in alloc; "grid: {} {error} ({name})\n", error.number())?;
    progress.tell(line.as_str());
    Ok(())
}

/// Tells something of a file, with its name.
pub fn tell_named<R, E>(
    alloc: Global,
    name: &[u8],
    words: &str,
    progress: &mut Progress<'_, R, E>,
) -> Result<(), AllocError>
where
    R: Clock + AllocGlobal,
    E: Write + IsTerminal,
{
    let name = told_name(alloc, name)?;
    let line = format!(in alloc; "{words} ({name})\n")?;
    progress.tell(line.as_str());
    Ok(())
}

/// Tells that no file of a catalogue has one of the names that are asked for.
pub fn tell_unfound<R, E>(progress: &mut Progress<'_, R, E>)
where
    R: Clock + AllocGlobal,
    E: Write + IsTerminal,
{
    progress.tell(UNFOUND);
}

const UNFOUND: &str = "no file of the catalogue has such a name\ngrid: 112 BadName\n";
