//! Which fault of `grid` the refusal of a script or of its world becomes.

ghost use Rattle.std.specs.Prelude.{◌≡◌};
ghost use Rattle.grid_commands.specs.Faults.{fault_of_script, fault_of_world};

use grid_faults::Fault;
use world_script::{ScriptError, WorldError};

/// The fault that a script's refusal becomes.
pub(crate) fn fault_of_script(error: ScriptError) -> Fault
    ensures { result ≡ fault_of_script error }
{
    match error {
        ScriptError::OutOfMemory => Fault::OutOfMemory,
        ScriptError::BadScript(line) => Fault::BadScript(line),
    }
}

/// The fault that the refusal of a script's world becomes.
pub(crate) fn fault_of_world(error: WorldError) -> Fault
    ensures { result ≡ fault_of_world error }
{
    match error {
        WorldError::OutOfMemory => Fault::OutOfMemory,
        WorldError::BadEvent => Fault::BadEvent,
        WorldError::Stopped => Fault::Stopped,
    }
}
