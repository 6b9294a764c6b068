//! `grid world`: a script of a world, run.

ghost use Rattle.std.specs.Prelude.{IfErr, IfOk};
ghost use Rattle.grid_commands.specs.Commands.{IsUnwritten, IsWorld};

use crate::exit::written;
use crate::running::run_text;
use grid_faults::Fault;
use grid_rules::world_status;
use grid_telling::Failure;
use std::io::Write;
use std::rt::Files;
use user_files::{at_path, read_at_most};

/// The greatest script, in bytes.
const MAX_SCRIPT_SIZE: u64 = 1 << 40;

/// Runs the script of a file, writes what it tells, and gives the exit status: that of inconsistent
/// shares where bytes that were handed out do not agree.
pub(crate) fn world<R, O>(rt: &R, path: &str, out: &mut O) -> Result<u8, Failure>
where
    R: Files + AllocGlobal,
    O: Write,
    ensures done { IfOk result
        (λ status. IsWorld status (O.contents out.old) (O.contents out.new)) }
    ensures undone { IfErr result
        (λ failure. IsUnwritten failure (O.contents out.old) (O.contents out.new)) }
{
    let ending = run_text(rt.alloc(), &read(rt, path)?)?;
    written(out, ending.lines.as_bytes(), world_status(ending.agrees))
}

// The bytes of a script's file.
fn read<R: Files + AllocGlobal>(rt: &R, path: &str) -> Result<Vec<u8>, Fault> {
    let read = read_at_most(rt, path, MAX_SCRIPT_SIZE);
    match at_path(rt.alloc(), read, path)? {
        Some(text) => Ok(text),
        None => Err(Fault::TooLarge),
    }
}
