//! Events, each taken or refused.

ghost use Rattle.std.specs.Prelude.{◌≡◌, ◌↔◌, ◌+◌, ◌≤◌, IsTrue, length};
ghost use Rattle.world.specs.declared.event.Event.TheVariants.{Deliver, FailStore, Forge, Pass};
ghost use Rattle.world.specs.declared.event.Event.TheVariants.{Refuse, Repair, Restart, Start};
ghost use Rattle.world.specs.declared.event.Event.TheVariants.{Tick, Turn};
ghost use Rattle.world.specs.Consistent.{IsConsistent, Preserves};
ghost use Rattle.world.specs.State.{IsLiar, IsNode, state_of};
ghost use Rattle.world.specs.Taking.{IsTaken};

use crate::event::Event;
use crate::liar::Liar;
use crate::scene::Scene;
use proved_parts::Bytes;
use wire::message::NodeId;
use world_operations::job::Job;
use world_operations::message::{Sent, copied};
use world_operations::task::StartError;

impl Scene {
    // Is it a liar?
    fn is_liar(&self, node: NodeId) -> bool
        ensures { IsTrue result ↔ IsLiar (state_of self.now) node }
    {
        let position = usize::from(node);
        self.servers.len() <= position && position < self.servers.len() + self.heard.len()
    }

    // Is it a node?
    fn is_node(&self, node: NodeId) -> bool
        ensures { IsTrue result ↔ IsNode (state_of self.now) node }
    {
        usize::from(node) < self.servers.len() + self.heard.len()
    }

    // An honest node starts an operation.
    fn take_start(&mut self, node: NodeId, job: &Job) -> Result<(), StartError>
        requires { length self.old.servers.items + length self.old.heard.items ≤ 256 }
        ensures taken { IsTaken (state_of self.old) (Start node job.now) result
            (state_of self.new) }
        ensures keeps { Preserves (state_of self.old) (state_of self.new) }
    {
        if usize::from(node) >= self.servers.len() {
            return Err(StartError::Refused);
        }
        self.start(node, job)
    }

    // An honest node starts a repair.
    fn take_repair(&mut self, node: NodeId, number: usize, happy: u16) -> Result<(), StartError>
        requires few { length self.old.servers.items + length self.old.heard.items ≤ 256 }
        requires consistent { IsConsistent (state_of self.old) }
        ensures taken { IsTaken (state_of self.old) (Repair node number happy) result
            (state_of self.new) }
        ensures keeps { Preserves (state_of self.old) (state_of self.new) }
    {
        if usize::from(node) >= self.servers.len() {
            return Err(StartError::Refused);
        }
        self.repair(node, number, happy)
    }

    // A message comes to its receiver.
    fn take_delivery(&mut self, position: usize) -> Result<(), StartError>
        ensures taken { IsTaken (state_of self.old) (Deliver position) result (state_of self.new) }
        ensures keeps { Preserves (state_of self.old) (state_of self.new) }
    {
        if position >= self.sent.len() {
            return Err(StartError::Refused);
        }
        match self.deliver(position) {
            Ok(()) => Ok(()),
            Err(_) => Err(StartError::OutOfMemory),
        }
    }

    // A liar sends these bytes to a node.
    fn take_forgery(&mut self, liar: NodeId, to: NodeId, body: &Bytes) -> Result<(), StartError>
        requires { length self.old.servers.items + length self.old.heard.items ≤ 256 }
        ensures taken { IsTaken (state_of self.old) (Forge liar to body.now) result
            (state_of self.new) }
        ensures keeps { Preserves (state_of self.old) (state_of self.new) }
    {
        if !self.is_liar(liar) || !self.is_node(to) {
            return Err(StartError::Refused);
        }
        let body = copied(self.alloc, body)?;
        match self.say(liar, to, body) {
            Ok(()) => Ok(()),
            Err(_) => Err(StartError::OutOfMemory),
        }
    }

    // An honest node's clock ticks.
    fn take_tick(&mut self, node: NodeId) -> Result<(), StartError>
        ensures taken { IsTaken (state_of self.old) (Tick node) result (state_of self.new) }
        ensures keeps { Preserves (state_of self.old) (state_of self.new) }
    {
        if usize::from(node) >= self.servers.len() {
            return Err(StartError::Refused);
        }
        match self.tick(node) {
            Ok(()) => Ok(()),
            Err(_) => Err(StartError::OutOfMemory),
        }
    }

    // An honest node restarts.
    fn take_restart(&mut self, node: NodeId) -> Result<(), StartError>
        ensures taken { IsTaken (state_of self.old) (Restart node) result (state_of self.new) }
        ensures keeps { Preserves (state_of self.old) (state_of self.new) }
    {
        if usize::from(node) >= self.servers.len() {
            return Err(StartError::Refused);
        }
        self.restart(node);
        Ok(())
    }

    // An honest node's store fails at its next call that can fail.
    fn take_failure(&mut self, node: NodeId) -> Result<(), StartError>
        ensures taken { IsTaken (state_of self.old) (FailStore node) result (state_of self.new) }
        ensures keeps { Preserves (state_of self.old) (state_of self.new) }
    {
        if usize::from(node) >= self.servers.len() {
            return Err(StartError::Refused);
        }
        self.fail_store(node);
        Ok(())
    }

    // A running operation ends as one that found no memory.
    fn take_refusal(&mut self, number: usize) -> Result<(), StartError>
        ensures taken { IsTaken (state_of self.old) (Refuse number) result (state_of self.new) }
        ensures keeps { Preserves (state_of self.old) (state_of self.new) }
    {
        if !self.is_running(number) {
            return Err(StartError::Refused);
        }
        self.refuse(number);
        Ok(())
    }

    // A liar sends what it likes, or nothing.
    fn take_turn(&mut self, liars: &mut Vec<Box<dyn Liar>>, node: NodeId) -> Result<(), StartError>
        requires { length self.old.servers.items + length self.old.heard.items ≤ 256 }
        ensures taken { IsTaken (state_of self.old) (Turn node) result (state_of self.new) }
        ensures keeps { Preserves (state_of self.old) (state_of self.new) }
    {
        if !self.is_liar(node) {
            return Err(StartError::Refused);
        }
        let position = usize::from(node) - self.servers.len();
        let Some((to, body)) = turn_of(liars, position, self.heard[position].as_slice()) else {
            return Ok(());
        };
        if !self.is_node(to) {
            return Ok(());
        }
        match self.say(node, to, body) {
            Ok(()) => Ok(()),
            Err(_) => Err(StartError::OutOfMemory),
        }
    }

    /// Takes an event, unless it names what is not there or cannot be.
    pub(crate) fn take_event(
        &mut self,
        liars: &mut Vec<Box<dyn Liar>>,
        event: &Event,
    ) -> Result<(), StartError>
        requires few { length self.old.servers.items + length self.old.heard.items ≤ 256 }
        requires consistent { IsConsistent (state_of self.old) }
        ensures taken { IsTaken (state_of self.old) event.now result (state_of self.new) }
        ensures keeps { Preserves (state_of self.old) (state_of self.new) }
    {
        match event {
            Event::Start(node, job) => self.take_start(*node, job),
            Event::Repair(node, number, happy) => self.take_repair(*node, *number, *happy),
            Event::Deliver(position) => self.take_delivery(*position),
            Event::Forge(liar, to, body) => self.take_forgery(*liar, *to, body),
            Event::Turn(liar) => self.take_turn(liars, *liar),
            Event::Pass(seconds) => {
                self.pass(*seconds);
                Ok(())
            }
            Event::Tick(node) => self.take_tick(*node),
            Event::Restart(node) => self.take_restart(*node),
            Event::FailStore(node) => self.take_failure(*node),
            Event::Refuse(number) => self.take_refusal(*number),
        }
    }
}

// What the liar at a position says at its turn.
fn turn_of(
    liars: &mut Vec<Box<dyn Liar>>,
    position: usize,
    heard: &[Sent],
) -> Option<(NodeId, Bytes)> {
    let liar = liars.get_mut(position)?;
    match liar.turn(heard) {
        Ok(said) => said,
        Err(_) => None,
    }
}
