//! The exit status, and what is told of a command that has no result.

ghost use Rattle.std.specs.Prelude.{◌≡◌, IfErr, IfOk};
ghost use Rattle.std.specs.Io.KnownBytes.{Appends};
ghost use Rattle.clap.specs.Words.{kind_of};
ghost use Rattle.grid_faults.specs.Fault.{fault_status};
ghost use Rattle.grid_telling.specs.declared.outcome.Failure.TheVariants.{Writer};
ghost use Rattle.grid_commands.specs.Exit.{IsExit, IsToldAs, words_status};

use clap::error::ErrorKind;
use grid_faults::{Fault, reason_line};
use grid_telling::{Failure, print};
use std::alloc::{AllocError, Global};
use std::io::Write;

/// The exit status of what is done.
pub(crate) const DONE: u8 = 0;

/// That of wrong words.
pub(crate) const WRONG_WORDS: u8 = 2;

/// That of a failed file, writer or allocation.
const FAILED: u8 = 7;

/// The exit status of a command that ended so. Why it has no result is told.
pub(crate) fn exit_of<E: Write>(alloc: Global, ended: Result<u8, Failure>, err: &mut E) -> u8
    ensures { IsExit ended result }
{
    match ended {
        Ok(status) => status,
        Err(Failure::Writer) => report(alloc, err, &Fault::Output),
        Err(Failure::Fault(fault)) => report(alloc, err, &fault),
    }
}

/// Writes a fault's line, with the line that tells why before it, and gives the exit status.
pub(crate) fn report<E: Write>(alloc: Global, err: &mut E, fault: &Fault) -> u8
    ensures { IsToldAs (fault_status fault.now) result }
{
    let reason = reason_line(alloc, fault);
    let line = format!(in alloc; "grid: {} {fault}\n", fault.number());
    tell_fault(err, reason, line, fault.status())
}

/// Writes a fault's line, with the line that tells why before it, if there is one, and gives this
/// exit status.
pub(crate) fn tell_fault<E: Write>(
    err: &mut E,
    reason: Result<Option<String>, AllocError>,
    line: Result<String, AllocError>,
    status: u8,
) -> u8
    ensures { IsToldAs status result }
{
    if let Ok(Some(reason)) = reason {
        let _ = err.write_all(reason.as_bytes());
    }
    match line {
        Ok(line) => write(err, line.as_bytes(), status),
        Err(_) => write(err, b"grid: 1 OutOfMemory\n", FAILED),
    }
}

/// Tells why words ask for no command, or the help that they ask for, and gives the exit status.
pub(crate) fn tell_words<O, E>(alloc: Global, error: &clap::Error, out: &mut O, err: &mut E) -> u8
where
    O: Write,
    E: Write,
    ensures { IsToldAs (words_status (kind_of error.now)) result }
{
    match error.kind() {
        ErrorKind::OutOfMemory => report(alloc, err, &Fault::OutOfMemory),
        ErrorKind::DisplayHelp | ErrorKind::DisplayVersion => match show(alloc, out, error) {
            Ok(()) => DONE,
            Err(fault) => report(alloc, err, &fault),
        },
        _ => match show(alloc, err, error) {
            Ok(()) => WRONG_WORDS,
            Err(_) => FAILED,
        },
    }
}

// Writes `clap`'s text, which ends its own lines.
fn show<W: Write>(alloc: Global, to: &mut W, error: &clap::Error) -> Result<(), Fault>
    ensures { IfErr result (λ fault. fault_status fault ≡ 7) }
{
    let text = format!(in alloc; "{error}")?;
    print(to, text.as_bytes()).map_err(|_| Fault::Output)
}

/// Writes bytes, and gives this exit status, or that of a failed writer.
pub(crate) fn write<W: Write>(to: &mut W, bytes: &[u8], status: u8) -> u8
    ensures { IsToldAs status result }
{
    match print(to, bytes) {
        Ok(()) => status,
        Err(_) => FAILED,
    }
}

/// Writes a result, and gives this exit status.
pub(crate) fn written<W: Write>(out: &mut W, bytes: &[u8], status: u8) -> Result<u8, Failure>
    ensures done { IfOk result
        (λ exit. (exit ≡ status) × Appends (W.contents out.old) (W.contents out.new) bytes.now) }
    ensures undone { IfErr result (λ failure. failure ≡ Writer) }
{
    match print(out, bytes) {
        Ok(()) => Ok(status),
        Err(_) => Err(Failure::Writer),
    }
}
