//! A world: its nodes, and what its events make of it.

ghost use Rattle.std.specs.Prelude.{◌≡◌, ◌+◌, ◌<◌, ◌≤◌, [], IfErr, IfOk, false, length, replicate};
ghost use Rattle.std.specs.Prelude.{option_map, slice_get, vec_len};
ghost use Rattle.world_operations.specs.Status.{status_of};
ghost use Rattle.world_operations.specs.declared.operation.Operation.{Operation};
ghost use Rattle.world.specs.Binding.{IsBound};
ghost use Rattle.world.specs.Headline.{IsTrusted};
ghost use Rattle.world.specs.Later.{IsLater};
ghost use Rattle.world.specs.Repairs.{AreTrustedRepairs};
ghost use Rattle.world.specs.State.{new_server, new_world};
ghost use Rattle.world.specs.Taking.{IsRun, StepGives};

use crate::event::{Event, WorldError};
use crate::liar::{Heard, Liar};
use crate::scene::Scene;
use download_core::status::Piece;
use server_core::server::{CAPACITY, Server};
use share_store::memory::MemoryStore;
use std::alloc::{AllocError, Global};
use std::marker::Model;
use world_operations::message::Sent;
use world_operations::operation::Operation;
use world_operations::status::Status;
use world_operations::task::StartError;

/// A world of honest nodes and of liars. Whatever its events are, and whatever its calls answered:
/// the headline holds of it (`IsTrusted`), so does what is said of repairs (`AreTrustedRepairs`)
/// and of what binds downloads (`IsBound`), and what was answered before stays (`IsLater`).
#[derive(Drop)]
pub struct World {
    scene: Scene,
    liars: Vec<Box<dyn Liar>>,
    stopped: bool,
}

impl Model for World {
    ghost use Rattle.world.specs.Consistent.{IsKept};
    ghost use Rattle.world.specs.State.{WorldValue, state_of};

    ghost Value = { WorldValue };

    ghost view = { λ w. record { state = state_of w.scene; stopped = w.stopped } };

    ghost invariant = { λ w. IsKept (state_of w.scene) };
}

// A server with an empty store.
fn empty_server(alloc: Global) -> Server<MemoryStore>
    ensures { result ≡ new_server }
{
    Server::start(alloc, MemoryStore::new(alloc), CAPACITY, false)
}

// So many servers with empty stores.
fn new_servers(alloc: Global, count: usize) -> Result<Vec<Server<MemoryStore>>, AllocError>
    ensures { IfOk result (λ servers. servers.items ≡ replicate count new_server) }
{
    let mut servers = Vec::with_capacity(alloc, count)?;
    for _ in 0..count {
        servers.push(empty_server(alloc))?;
    }
    Ok(servers)
}

// So many liars heard nothing.
fn new_heard(alloc: Global, count: usize) -> Result<Vec<Heard>, AllocError>
    ensures { IfOk result (λ heard. heard.items ≡ replicate count []) }
{
    let mut heard = Vec::with_capacity(alloc, count)?;
    for _ in 0..count {
        heard.push(Heard::new(alloc))?;
    }
    Ok(heard)
}

impl World {
    /// So many honest nodes with empty stores, from number 0 on, and then these liars. There is one
    /// honest node at least, and there are at most 256 nodes.
    pub fn new(alloc: Global, honest: u16, liars: Vec<Box<dyn Liar>>) -> Result<World, AllocError>
        requires some { 0 < honest }
        requires few { honest + vec_len liars ≤ 256 }
        ensures value { IfOk result (λ world. world
            ≡ record { state = new_world honest (vec_len liars); stopped = false }) }
        ensures trusted { IfOk result (λ world. IsTrusted world.state) }
        ensures repairs { IfOk result (λ world. AreTrustedRepairs world.state) }
        ensures bound { IfOk result (λ world. IsBound world.state) }
    {
        let scene = Scene {
            alloc,
            servers: new_servers(alloc, usize::from(honest))?,
            heard: new_heard(alloc, liars.len())?,
            operations: Vec::new(alloc),
            sent: Vec::new(alloc),
            clock: 0,
        };
        Ok(World {
            scene,
            liars,
            stopped: false,
        })
    }

    /// Takes one event.
    pub fn step(&mut self, event: &Event) -> Result<(), WorldError>
        ensures gives { StepGives self.old event.now result self.new }
        ensures later { IsLater self.old.state self.new.state }
        ensures trusted { IsTrusted self.new.state }
        ensures repairs { AreTrustedRepairs self.new.state }
        ensures bound { IsBound self.new.state }
    {
        if self.stopped {
            return Err(WorldError::Stopped);
        }
        match self.scene.take_event(&mut self.liars, event) {
            Ok(()) => Ok(()),
            Err(StartError::Refused) => Err(WorldError::BadEvent),
            Err(StartError::OutOfMemory) => {
                self.stopped = true;
                Err(WorldError::OutOfMemory)
            }
        }
    }

    /// Takes events in order, each as `step` does, up to the first that is refused, and says how
    /// many were taken.
    pub fn run(&mut self, events: &[Event]) -> (usize, Result<(), WorldError>)
        ensures run { IsRun self.old events.now result.0 result.1 self.new }
        ensures later { IsLater self.old.state self.new.state }
        ensures trusted { IsTrusted self.new.state }
        ensures repairs { AreTrustedRepairs self.new.state }
        ensures bound { IsBound self.new.state }
    {
        self.know_trusted();
        for taken in 0..events.len() {
            match self.step(&events[taken]) {
                Ok(()) => {}
                Err(error) => return (taken, Err(error)),
            }
        }
        (events.len(), Ok(()))
    }

    /// A law: the headline holds of every world, and so does what is said of repairs and of what
    /// binds downloads. The call does nothing.
    pub fn know_trusted(&self)
        ensures trusted { IsTrusted self.now.state }
        ensures repairs { AreTrustedRepairs self.now.state }
        ensures bound { IsBound self.now.state }
    {
        let _stopped = self.stopped;
    }

    /// All operations, by number: what became of each, and what it handed out.
    pub fn operations(&self) -> &[Operation]
        ensures { result.now ≡ self.now.state.operations }
    {
        self.scene.operations.as_slice()
    }

    /// What became of the operation of this number, if there is one.
    pub fn status(&self, number: usize) -> Option<Status>
        ensures { result ≡ option_map status_of (slice_get self.now.state.operations number) }
    {
        match self.operations().get(number) {
            Some(operation) => Some(operation.status()),
            None => None,
        }
    }

    /// What the operation of this number handed out, if there is one.
    pub fn given(&self, number: usize) -> Option<&[Piece]>
        ensures { option_map (λ given. given.now) result ≡ option_map (λ (op : Operation). op.given)
            (slice_get self.now.state.operations number) }
    {
        match self.operations().get(number) {
            Some(operation) => Some(operation.given.as_slice()),
            None => None,
        }
    }

    /// All messages that were ever sent, in order.
    pub fn sent(&self) -> &[Sent]
        ensures { result.now ≡ self.now.state.sent }
    {
        self.scene.sent.as_slice()
    }
}
