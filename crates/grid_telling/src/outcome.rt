//! How a command ends that does not do all that was asked.

ghost use Rattle.std.specs.Prelude.{◌≡◌, OnOk};
ghost use Rattle.std.specs.Io.KnownBytes.{Appends};

use grid_faults::Fault;
use std::alloc::AllocError;
use std::io::{self, Write};

/// Why a command ended without its result.
#[derive(Drop)]
pub enum Failure {
    Fault(Fault),
    /// The result could not be written.
    Writer,
}

impl From<Fault> for Failure {
    ghost use Rattle.grid_telling.specs.declared.outcome.Failure.TheVariants as failures;

    ghost from_gives = { λ fault failure. failure ≡ failures.Fault fault };

    fn from(fault: Fault) -> Failure {
        Failure::Fault(fault)
    }
}

impl From<AllocError> for Failure {
    ghost use Rattle.grid_telling.specs.declared.outcome.Failure.TheVariants as failures;
    ghost use Rattle.grid_faults.specs.declared.fault.Fault.TheVariants as faults;

    ghost from_gives = { λ _ failure. failure ≡ failures.Fault faults.OutOfMemory };

    fn from(_error: AllocError) -> Failure {
        Failure::Fault(Fault::OutOfMemory)
    }
}

/// Writes bytes of a result, and all that was written before them.
pub fn print<O: Write>(out: &mut O, bytes: &[u8]) -> Result<(), Failure>
    ensures { OnOk result (Appends (O.contents out.old) (O.contents out.new) bytes.now) }
{
    match write_flushed(out, bytes) {
        Ok(()) => Ok(()),
        Err(_) => Err(Failure::Writer),
    }
}

// Writes bytes, and sends them on.
#[tactic(auto, using(crate::proofs::Flushing::appended_kept))]
fn write_flushed<O: Write>(out: &mut O, bytes: &[u8]) -> io::Result<()>
    ensures { OnOk result (Appends (O.contents out.old) (O.contents out.new) bytes.now) }
{
    out.write_all(bytes)?;
    out.flush()
}
