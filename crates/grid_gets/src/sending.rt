//! Bytes that are sent on.

ghost use Rattle.std.specs.Prelude.{◌≡◌, IfErr, OnOk};
ghost use Rattle.std.specs.Io.KnownBytes.{Appends};
ghost use Rattle.grid_telling.specs.declared.outcome.Failure.TheVariants as failures;

use grid_telling::{Failure, print};
use std::io::Write;

/// Writes bytes, and all that was written before them. It fails only where the writer does.
pub(crate) fn send<O: Write>(out: &mut O, bytes: &[u8]) -> Result<(), Failure>
    ensures ok { OnOk result (Appends (O.contents out.old) (O.contents out.new) bytes.now) }
    ensures err { IfErr result (λ failure. failure ≡ failures.Writer) }
{
    match print(out, bytes) {
        Ok(()) => Ok(()),
        Err(_) => Err(Failure::Writer),
    }
}
