//! Why the loop ends before its client.

ghost use Rattle.std.specs.Prelude.{◌≡◌, Some};
ghost use Rattle.local_grid.specs.Refusals.{refusal_number, refusal_text};

use std::alloc::AllocError;
use std::error::Error;
use std::fmt;

/// Why the loop ended while its client was running.
#[derive(Clone, Copy, PartialEq, Eq)]
pub enum LoopError {
    /// There was not enough memory.
    OutOfMemory,
    /// The client was running after as many turns as the loop takes.
    TurnLimit,
}

impl LoopError {
    /// The number of the refusal.
    pub fn number(self) -> u8
        ensures { result ≡ refusal_number self }
    {
        match self {
            LoopError::OutOfMemory => 1,
            LoopError::TurnLimit => 92,
        }
    }
}

impl fmt::Display for LoopError {
    ghost output = { λ e. Some (refusal_text e) };

    fn fmt<W: fmt::Write>(&self, f: &mut fmt::Formatter<W>) -> fmt::Result {
        let name = match self {
            LoopError::OutOfMemory => "OutOfMemory",
            LoopError::TurnLimit => "TurnLimit",
        };
        f.write_str(name)
    }
}

impl From<AllocError> for LoopError {
    ghost use Rattle.local_grid.specs.declared.error.LoopError.TheVariants.{OutOfMemory};

    ghost from_gives = { λ _ e. e ≡ OutOfMemory };

    fn from(_error: AllocError) -> LoopError {
        LoopError::OutOfMemory
    }
}
