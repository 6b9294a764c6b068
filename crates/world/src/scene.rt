//! The state of a world, and how each kind of event changes it.

ghost use Rattle.std.specs.Prelude.{◌≡◌, ◌↔◌, ◌+◌, ◌<◌, ◌≤◌, ◌++◌, ◌∷◌, [], IfOk, IsErrOf, OnOk};
ghost use Rattle.std.specs.Prelude.{Some};
ghost use Rattle.std.specs.Prelude.{Contains, List, length, map, nat_eq, slice_get, slice_set};
ghost use Rattle.std.specs.Prelude.{IsTrue, vec_len};
ghost use Rattle.wire.specs.Frames.{IsBodyOf};
ghost use Rattle.world_operations.specs.declared.message.Sent.{Sent};
ghost use Rattle.world_operations.specs.declared.operation.Operation.{Operation};
ghost use Rattle.world_operations.specs.Follow.{IsNewTask};
ghost use Rattle.world_operations.specs.Jobs.{MayStart};
ghost use Rattle.world_operations.specs.Moves.{Begins};
ghost use Rattle.world_operations.specs.Tasks.{IsRightTask};
ghost use Rattle.world.specs.Consistent.{Preserves};
ghost use Rattle.world.specs.State.{nodes_of, servers_of, state_of};
ghost use Rattle.world.specs.declared.event.Event.TheVariants.{FailStore, Refuse};
ghost use Rattle.world.specs.Step.{Delivers, HaveTicked, IsRunning, Opens, RestartsAt};
ghost use Rattle.world.specs.Step.{ServerGets, Starts, Step, TaskGets, TicksAt, later_by};
ghost use Rattle.world.specs.Step.{with_heard, with_sent};

use crate::liar::Heard;
use crate::nodes::{nodes_up_to, servers_at};
use crate::parts::{
    answer_at, fail_server, flush_at, forget_all, is_live_at, is_request, is_running,
    push_operation, read_body, restart_server, serve_at, set_life, tick_at, tick_server,
};
use proved_parts::Bytes;
use server_core::error::ServerFault;
use server_core::server::Server;
use share_store::memory::MemoryStore;
use std::alloc::{AllocError, Global};
use wire::message::{Message, NodeId};
use world_operations::job::Job;
use world_operations::message::{Sent, push_sent, spell};
use world_operations::operation::{Life, Operation};
use world_operations::task::{StartError, Task};

/// Honest nodes 0, 1, .. have servers; liars come after them, each with what it heard.
#[derive(Drop)]
pub(crate) struct Scene {
    pub(crate) alloc: Global,
    pub(crate) servers: Vec<Server<MemoryStore>>,
    pub(crate) heard: Vec<Heard>,
    pub(crate) operations: Vec<Operation>,
    pub(crate) sent: Vec<Sent>,
    pub(crate) clock: u64,
}

impl Scene {
    // A request comes to a server, whose answer is sent.
    fn serve(&mut self, from: NodeId, to: NodeId, message: &Message) -> Result<(), AllocError>
        requires { to < length self.old.servers.items }
        ensures ok { OnOk result ((x : Sent) → x.from ≡ from → x.to ≡ to
            → ServerGets (state_of self.old) x message.now (state_of self.new)) }
        ensures keeps { (x : Sent) → x.from ≡ from → x.to ≡ to → Contains self.old.sent.items x
            → IsBodyOf message.now x.body → Preserves (state_of self.old) (state_of self.new) }
    {
        match serve_at(
            &mut self.servers,
            usize::from(to),
            from,
            message,
            self.clock,
        ) {
            Ok(Some(answer)) => push_sent(&mut self.sent, spell(self.alloc, to, from, &answer)?),
            Ok(None) | Err(ServerFault::StoreFault) => Ok(()),
            Err(ServerFault::OutOfMemory) => Err(AllocError),
        }
    }

    // An answer comes to the operation of its session, if that is a live one of its receiver.
    fn answer(&mut self, from: NodeId, to: NodeId, message: Message) -> Result<(), AllocError>
        ensures ok { OnOk result ((x : Sent) → x.from ≡ from → x.to ≡ to
            → TaskGets (state_of self.old) x message (state_of self.new)) }
        ensures keeps { (x : Sent) → x.from ≡ from → x.to ≡ to → Contains self.old.sent.items x
            → IsBodyOf message x.body → Preserves (state_of self.old) (state_of self.new) }
    {
        let position = message.session as usize;
        if position >= self.operations.len() || !is_live_at(&self.operations[position], to) {
            return Ok(());
        }
        answer_at(
            self.alloc,
            &mut self.operations,
            position,
            from,
            message,
            self.clock,
            &mut self.sent,
        )
    }

    // A message comes to its receiver's server, or to one of its operations.
    fn take(&mut self, from: NodeId, to: NodeId, message: Message) -> Result<(), AllocError>
        requires { to < length self.old.servers.items }
        ensures ok { OnOk result ((x : Sent) → x.from ≡ from → x.to ≡ to
            → IsBodyOf message x.body → Delivers (state_of self.old) x (state_of self.new)) }
        ensures keeps { (x : Sent) → x.from ≡ from → x.to ≡ to → Contains self.old.sent.items x
            → IsBodyOf message x.body → Preserves (state_of self.old) (state_of self.new) }
    {
        if is_request(&message.body) {
            return self.serve(from, to, &message);
        }
        self.answer(from, to, message)
    }

    // A liar hears the message at a position, if there is such a liar.
    fn hear(&mut self, position: usize, liar: usize) -> Result<(), AllocError>
        requires { position < length self.old.sent.items }
        ensures ok { OnOk result ((x : Sent) → slice_get self.old.sent.items position ≡ Some x
            → state_of self.new ≡ with_heard (state_of self.old) liar x
            (slice_get self.old.heard.items liar)) }
        ensures keeps { Preserves (state_of self.old) (state_of self.new) }
    {
        if liar >= self.heard.len() {
            return Ok(());
        }
        let sent = self.sent[position].copied(self.alloc)?;
        hear_at(&mut self.heard, liar, sent)
    }

    /// The message at a position comes to its receiver, again too.
    pub(crate) fn deliver(&mut self, position: usize) -> Result<(), AllocError>
        requires { position < length self.old.sent.items }
        ensures ok { OnOk result ((x : Sent) → slice_get self.old.sent.items position ≡ Some x
            → Delivers (state_of self.old) x (state_of self.new)) }
        ensures keeps { Preserves (state_of self.old) (state_of self.new) }
    {
        let sent = &self.sent[position];
        let (from, to) = (sent.from, sent.to);
        if usize::from(to) >= self.servers.len() {
            let liar = usize::from(to) - self.servers.len();
            return self.hear(position, liar);
        }
        match read_body(self.alloc, self.sent[position].body.as_slice())? {
            Some(message) => self.take(from, to, message),
            None => Ok(()),
        }
    }

    // The machine of an operation that begins.
    fn begin(&self, job: &Job) -> Result<Task, StartError>
        requires { length self.now.servers.items + length self.now.heard.items ≤ 256 }
        ensures begins { IfOk result (Begins job.now (servers_of (state_of self.now))
            (nodes_of (state_of self.now)) (length self.now.operations.items) self.now.clock) }
        ensures may { IfOk result (λ _. MayStart job.now) }
        ensures new { IfOk result (IsNewTask (nodes_of (state_of self.now))
            (length self.now.operations.items) job.now) }
        ensures refused { IsErrOf result StartError.Refused → MayStart job.now → ⊥ }
        ensures right { IfOk result IsRightTask }
    {
        let number = self.operations.len() as u64;
        let nodes = nodes_up_to(self.alloc, self.servers.len() + self.heard.len())?;
        let servers = servers_at(self.alloc, &nodes)?;
        let task = Task::begin(self.alloc, job, &servers, &nodes, number, self.clock)?;
        task.know_right();
        Ok(task)
    }

    /// An operation begins with this machine, and sends what it has to send.
    pub(crate) fn open(&mut self, node: NodeId, job: Job, task: Task) -> Result<(), AllocError>
        requires honest { node < length self.old.servers.items }
        requires new { IsNewTask (nodes_of (state_of self.old)) (length self.old.operations.items)
            job task }
        requires right { IsRightTask task }
        ensures ok { OnOk result (Opens (state_of self.old) node job task (state_of self.new)) }
        ensures keeps { Preserves (state_of self.old) (state_of self.new) }
    {
        let number = self.operations.len();
        let operation = Operation::new(self.alloc, node, job, self.sent.len(), task);
        push_operation(&mut self.operations, operation)?;
        flush_at(self.alloc, &mut self.operations, number, &mut self.sent)
    }

    /// An honest node starts an operation, unless the job is none that may be started.
    pub(crate) fn start(&mut self, node: NodeId, job: &Job) -> Result<(), StartError>
        requires few { length self.old.servers.items + length self.old.heard.items ≤ 256 }
        requires honest { node < length self.old.servers.items }
        ensures may { OnOk result (MayStart job.now) }
        ensures ok { OnOk result (Starts (state_of self.old) node job.now (state_of self.new)) }
        ensures refused { IsErrOf result StartError.Refused
            → (state_of self.new ≡ state_of self.old) × (MayStart job.now → ⊥) }
        ensures keeps { Preserves (state_of self.old) (state_of self.new) }
    {
        let task = self.begin(job)?;
        let job = job.copied(self.alloc)?;
        self.open(node, job, task)?;
        Ok(())
    }

    // The operations of a node tick.
    fn tick_operations(&mut self, node: NodeId) -> Result<(), AllocError>
        ensures ok { OnOk result (HaveTicked (state_of self.old) node (state_of self.new)) }
        ensures keeps { Preserves (state_of self.old) (state_of self.new) }
    {
        for number in 0..self.operations.len() {
            tick_at(
                self.alloc,
                &mut self.operations,
                number,
                node,
                self.clock,
                &mut self.sent,
            )?;
        }
        Ok(())
    }

    /// An honest node's clock ticks.
    pub(crate) fn tick(&mut self, node: NodeId) -> Result<(), AllocError>
        requires { node < length self.old.servers.items }
        ensures ok { OnOk result (TicksAt (state_of self.old) node (state_of self.new)) }
        ensures keeps { Preserves (state_of self.old) (state_of self.new) }
    {
        tick_server(&mut self.servers, usize::from(node), self.clock);
        self.tick_operations(node)
    }

    /// An honest node forgets its open buckets and its operations that run.
    pub(crate) fn restart(&mut self, node: NodeId)
        requires { node < length self.old.servers.items }
        ensures step { RestartsAt (state_of self.old) node (state_of self.new) }
        ensures keeps { Preserves (state_of self.old) (state_of self.new) }
    {
        restart_server(&mut self.servers, usize::from(node));
        forget_all(&mut self.operations, node);
    }

    /// An honest node's store fails at its next call that can fail.
    pub(crate) fn fail_store(&mut self, node: NodeId)
        requires { node < length self.old.servers.items }
        ensures step { Step (state_of self.old) (FailStore node) (state_of self.new) }
        ensures keeps { Preserves (state_of self.old) (state_of self.new) }
    {
        fail_server(&mut self.servers, usize::from(node));
    }

    /// Does the operation at a position run?
    pub(crate) fn is_running(&self, number: usize) -> bool
        ensures { IsTrue result ↔ ((op : Operation)
            × (slice_get self.now.operations.items number ≡ Some op) × IsRunning op) }
    {
        match self.operations.get(number) {
            Some(operation) => is_running(operation),
            None => false,
        }
    }

    /// The operation at a position ends as one that found no memory.
    pub(crate) fn refuse(&mut self, number: usize)
        requires { number < length self.old.operations.items }
        ensures step { Step (state_of self.old) (Refuse number) (state_of self.new) }
        ensures keeps { Preserves (state_of self.old) (state_of self.new) }
    {
        set_life(&mut self.operations, number, Life::Refused);
    }

    /// So many seconds pass.
    pub(crate) fn pass(&mut self, seconds: u64)
        ensures step { state_of self.new ≡ later_by seconds (state_of self.old) }
        ensures keeps { Preserves (state_of self.old) (state_of self.new) }
    {
        self.clock = self.clock.saturating_add(seconds);
    }

    /// A liar sends these bytes.
    pub(crate) fn say(&mut self, from: NodeId, to: NodeId, body: Bytes) -> Result<(), AllocError>
        requires { length self.old.servers.items ≤ from }
        ensures ok { OnOk result
            (state_of self.new ≡ with_sent (state_of self.old) from to body) }
        ensures keeps { Preserves (state_of self.old) (state_of self.new) }
    {
        push_sent(&mut self.sent, Sent { from, to, body })
    }
}

// The liar at a position hears a message.
fn hear_at(heard: &mut Vec<Heard>, position: usize, sent: Sent) -> Result<(), AllocError>
    requires { position < vec_len heard.old }
    ensures ok { OnOk result ((h : List Sent) → slice_get heard.old.items position ≡ Some h
        → heard.new.items ≡ slice_set heard.old.items position (h ++ sent ∷ [])) }
    ensures len { length heard.new.items ≡ length heard.old.items }
{
    heard[position].push(sent)
}
