//! A frame goes from one end of a connection to the other.

ghost use Rattle.std.specs.Prelude.{◌≡◌, ◌++◌, ◌≤◌, List, ℕ, IsErrOf, OnErr, OnOk, drop, length};
ghost use Rattle.std.specs.Prelude.{take};
ghost use Rattle.local_grid.specs.Carrying.{Breaks, Carries, Fails, Passes};
ghost use Rattle.local_grid.specs.declared.passing.CarryFault.{CarryFault};

use crate::ends::Ends;
use crate::link::Way;
use std::alloc::AllocError;
use std::io;

/// The most bytes that are on their way at a time.
const STEP: usize = 4096;

/// Why bytes did not come.
pub(crate) enum CarryFault {
    OutOfMemory,
    /// A call on a socket failed, or came to the end of what the other end sent.
    Socket,
}

impl From<AllocError> for CarryFault {
    ghost use Rattle.local_grid.specs.declared.passing.CarryFault.TheVariants.{OutOfMemory};

    ghost from_gives = { λ _ fault. fault ≡ OutOfMemory };

    fn from(_error: AllocError) -> CarryFault {
        CarryFault::OutOfMemory
    }
}

impl From<io::Error> for CarryFault {
    ghost use Rattle.local_grid.specs.declared.passing.CarryFault.TheVariants.{Socket};

    ghost from_gives = { λ _ fault. fault ≡ Socket };

    fn from(_error: io::Error) -> CarryFault {
        CarryFault::Socket
    }
}

/// Sends a frame a way, at most 4,096 bytes before as many are read, and adds what came.
pub(crate) fn carry<E: Ends>(
    ends: &mut E,
    way: Way,
    frame: &[u8],
    came: &mut Vec<u8>,
) -> Result<(), CarryFault>
    ensures ok { OnOk result ((bytes : List ℕ) × (came.new.items ≡ came.old.items ++ bytes)
        × Carries E.calls way ends.old frame.now bytes ends.new) }
    ensures socket { IsErrOf result CarryFault.Socket → Breaks E.calls way ends.old }
{
    let mut rest = frame;
    'pieces: while !rest.is_empty() {
        let (piece, others) = rest.split_at(rest.len().min(STEP));
        carry_piece(ends, way, piece, came)?;
        rest = others;
    }
    Ok(())
}

// The same of one piece.
fn carry_piece<E: Ends>(
    ends: &mut E,
    way: Way,
    piece: &[u8],
    came: &mut Vec<u8>,
) -> Result<(), CarryFault>
    requires { length piece.now ≤ 4096 }
    ensures ok { OnOk result ((bytes : List ℕ) × (came.new.items ≡ came.old.items ++ bytes)
        × Passes E.calls way ends.old piece.now bytes ends.new) }
    ensures socket { IsErrOf result CarryFault.Socket → Fails E.calls way ends.old }
{
    let before = came.len();
    came.resize(before + piece.len(), 0)?;
    ends.send(way, piece)?;
    receive_behind(ends, way, came.as_mut_slice(), before)?;
    Ok(())
}

// Fills what stands behind so many bytes with what comes.
#[tactic(auto, using(std::proofs::lemmas::Slice::overwrites))]
fn receive_behind<E: Ends>(ends: &mut E, way: Way, came: &mut [u8], before: usize) -> io::Result<()>
    requires { before ≤ length came.old }
    ensures ok { OnOk result (E.calls.came ends.old way (drop before came.new) ends.new) }
    ensures front { take before came.new ≡ take before came.old }
    ensures long { length came.new ≡ length came.old }
    ensures err { OnErr result (E.calls.failed ends.old way ends.new) }
{
    ends.receive(way, &mut came[before..])
}
