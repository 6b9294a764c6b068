//! The text of a script, run.

ghost use Rattle.std.specs.Prelude.{IfErr, IfOk};
ghost use Rattle.world_script.specs.Playing.{IsEnding};
ghost use Rattle.world_script.specs.Script.{AreNodes, lines_of};
ghost use Rattle.grid_commands.specs.Faults.{IsFaultOf, IsWorldFault};
ghost use Rattle.grid_commands.specs.Texts.{IsEndOf};

use crate::faults::{fault_of_script, fault_of_world};
use grid_faults::Fault;
use std::alloc::Global;
use world_script::{Ending, Script, parse, run_script};

/// Runs the script that a text spells: what its operations came to.
///
/// Refuses with `BadScript` just where the lines are no script, with `BadEvent` where a command has
/// no event or one that the world refuses, and with `OutOfMemory`.
pub(crate) fn run_text(alloc: Global, text: &[u8]) -> Result<Ending, Fault>
    ensures ended { IfOk result (IsEndOf (lines_of text.now)) }
    ensures refused { IfErr result (IsFaultOf (lines_of text.now)) }
{
    match parse(alloc, text) {
        Ok(script) => run(alloc, &script),
        Err(error) => Err(fault_of_script(error)),
    }
}

// Runs a script.
fn run(alloc: Global, script: &Script) -> Result<Ending, Fault>
    requires { AreNodes script.now }
    ensures ended { IfOk result (IsEnding script.now) }
    ensures refused { IfErr result (IsWorldFault script.now) }
{
    run_script(alloc, script).map_err(fault_of_world)
}
