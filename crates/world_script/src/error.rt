//! Why a text is no script.

ghost use Rattle.std.specs.Prelude.{◌≡◌, ◌<◌, ◌+◌, ◌^◌};
ghost use Rattle.world_script.specs.Script.{error_at};
ghost use Rattle.world_script.specs.ScriptError.{refusal_number};

use std::alloc::{AllocError, AllocFailed};

/// Why a text is no script.
#[derive(Clone, Copy, Debug, PartialEq, Eq)]
pub enum ScriptError {
    /// There was not enough memory.
    OutOfMemory,
    /// The line of this number, from 1 on, spells no command that may stand there.
    BadScript(usize),
}

impl ScriptError {
    /// The number of the refusal.
    pub fn number(self) -> u8
        ensures { result ≡ refusal_number self }
    {
        match self {
            ScriptError::OutOfMemory => 1,
            ScriptError::BadScript(_) => 93,
        }
    }
}

impl From<AllocError> for ScriptError {
    ghost use Rattle.std.specs.Prelude.{◌≡◌};
    ghost use Rattle.world_script.specs.declared.error.ScriptError.TheVariants.{OutOfMemory};

    ghost from_gives = { λ _ error. error ≡ OutOfMemory };

    fn from(_error: AllocError) -> ScriptError {
        ScriptError::OutOfMemory
    }
}

// Why a line is no command.
#[derive(Clone, Copy, PartialEq, Eq)]
pub(crate) enum LineError {
    OutOfMemory,
    NoCommand,
}

impl LineError {
    // The error of a script whose line of this number, from 0 on, is at fault.
    pub(crate) fn at(self, line: usize) -> ScriptError
        requires { line + 1 < 2 ^ 64 }
        ensures { result ≡ error_at self line }
    {
        match self {
            LineError::OutOfMemory => ScriptError::OutOfMemory,
            LineError::NoCommand => ScriptError::BadScript(line + 1),
        }
    }
}

impl From<AllocError> for LineError {
    ghost use Rattle.std.specs.Prelude.{◌≡◌};
    ghost use Rattle.world_script.specs.declared.error.LineError.TheVariants.{OutOfMemory};

    ghost from_gives = { λ _ error. error ≡ OutOfMemory };

    fn from(_error: AllocError) -> LineError {
        LineError::OutOfMemory
    }
}

impl<T: Drop> From<AllocFailed<T>> for ScriptError {
    ghost use Rattle.std.specs.Prelude.{◌≡◌};
    ghost use Rattle.world_script.specs.declared.error.ScriptError.TheVariants.{OutOfMemory};

    ghost from_gives = { λ _ error. error ≡ OutOfMemory };

    fn from(_error: AllocFailed<T>) -> ScriptError {
        ScriptError::OutOfMemory
    }
}

impl<T: Drop> From<AllocFailed<T>> for LineError {
    ghost use Rattle.std.specs.Prelude.{◌≡◌};
    ghost use Rattle.world_script.specs.declared.error.LineError.TheVariants.{OutOfMemory};

    ghost from_gives = { λ _ error. error ≡ OutOfMemory };

    fn from(_error: AllocFailed<T>) -> LineError {
        LineError::OutOfMemory
    }
}
