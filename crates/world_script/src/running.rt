//! A script, run.

ghost use Rattle.std.specs.Prelude.{◌≡◌, ◌≢◌, Err, IfOk, false};
ghost use Rattle.world.specs.declared.event.WorldError.TheVariants.{BadEvent, Stopped};
ghost use Rattle.world_script.specs.Script.{AreNodes};
ghost use Rattle.world_script.specs.Playing.{IsEnding, IsEndingFrom, IsRefused, IsRefusedFrom};

use crate::command::Script;
use crate::delivered::Delivered;
use crate::ending::{Ending, ending_of};
use crate::liars::ScriptLiar;
use crate::plan::Plan;
use std::alloc::Global;
use world::World;
use world::event::WorldError;
use world::liar::Liar;

/// Runs a script: what its operations came to.
///
/// Refuses with `BadEvent` where a command has no event, or one that the world refuses, and with
/// `OutOfMemory`.
pub fn run_script(alloc: Global, script: &Script) -> Result<Ending, WorldError>
    requires { AreNodes script.now }
    ensures ended { IfOk result (IsEnding script.now) }
    ensures refused { result ≡ Err BadEvent → IsRefused script.now }
    ensures going { result ≢ Err Stopped }
{
    let mut liars: Vec<Box<dyn Liar>> = Vec::new(alloc);
    for kind in script.liars.iter() {
        liars.push(Box::new(alloc, ScriptLiar::new(alloc, *kind))?)?;
    }
    play(alloc, World::new(alloc, script.honest, liars)?, script)
}

// Plays the commands of a script in a world.
fn play(alloc: Global, mut world: World, script: &Script) -> Result<Ending, WorldError>
    requires { world.stopped ≡ false }
    ensures ended { IfOk result (IsEndingFrom world.state script.now) }
    ensures refused { result ≡ Err BadEvent → IsRefusedFrom world.state script.now }
    ensures going { result ≢ Err Stopped }
{
    let mut delivered = Delivered::new(alloc);
    let mut events: u128 = 0;
    for command in script.commands.iter() {
        let mut plan = Plan::of(alloc, command, script.honest, world.operations())?;
        for _ in 0..plan.most() {
            let Some(event) = plan.next(&mut delivered, world.sent().len()) else {
                break;
            };
            world.step(&event)?;
            delivered.note(&event)?;
            events += 1;
        }
    }
    world.know_trusted();
    Ok(ending_of(alloc, world.operations(), events)?)
}
