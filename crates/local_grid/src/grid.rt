//! The grid of one process, and the loop over it.

ghost use Rattle.std.specs.Prelude.{◌≡◌, ◌≤◌, ◌⊎◌, Some, None, map, true};
ghost use Rattle.std.specs.Prelude.{IfOk, OnOk, OnErr, IsErrOf};
ghost use Rattle.local_grid.specs.Nodes.{ticked};
ghost use Rattle.local_grid.specs.Turns.{Asks, Finishes, GoesOn, GoesPast, IsCutShort, RunsOut};
ghost use Rattle.local_grid.specs.Turns.{Stops, StopsAfter, Turns, passed, passed_to};
ghost use Rattle.local_grid.specs.declared.error.LoopError.{LoopError};

use crate::error::LoopError;
use crate::link::Link;
use crate::node::Node;
use crate::waiting::hash_waiting;
use request_record::operation::Operation;
use share_store::store::Store;
use std::alloc::{AllocError, Global};
use std::marker::Model;
use wire::message::{Body, Message, NodeId};

/// The most turns that the loop takes for one operation.
const MOST_TURNS: u64 = 100_000_000;

/// The seconds that pass where there is nothing to carry.
const STEP: u64 = 5;

/// The servers of a grid, which one operation asks, and the clock.
#[derive(Drop)]
pub struct LocalGrid<S: Store, L: Link> {
    nodes: Vec<Option<Node<S, L>>>,
    clock: u64,
    // Room for the frame that is on its way.
    frame: Vec<u8>,
}

impl<S: Store, L: Link> Model for LocalGrid<S, L> {
    ghost use Rattle.local_grid.specs.Turns.{GridState};

    ghost Value = { GridState S L };

    ghost view = { λ g. record { nodes = g.nodes.items; clock = g.clock } };
}

// A node takes note of a second, where there is one.
fn tick_at<S: Store, L: Link>(position: &mut Option<Node<S, L>>, now: u64)
    ensures { position.new ≡ ticked now position.old }
{
    if let Some(node) = position {
        node.tick(now);
    }
}

// Each node takes note of a second.
fn tick_each<S: Store, L: Link>(nodes: &mut Vec<Option<Node<S, L>>>, now: u64)
    ensures { nodes.new.items ≡ map (ticked now) nodes.old.items }
{
    for position in nodes.iter_mut() {
        tick_at(position, now);
    }
}

impl<S: Store, L: Link> LocalGrid<S, L> {
    /// The nodes stand at their numbers, and `None` at a number that no node has. The clock begins
    /// at 0 seconds.
    pub fn new(alloc: Global, nodes: Vec<Option<Node<S, L>>>) -> LocalGrid<S, L>
        ensures { result ≡ record { nodes = nodes.items; clock = 0 } }
    {
        LocalGrid {
            nodes,
            clock: 0,
            frame: Vec::new(alloc),
        }
    }

    /// The nodes, by number.
    pub fn nodes(&self) -> &[Option<Node<S, L>>]
        ensures { result.now ≡ self.now.nodes }
    {
        &self.nodes
    }

    /// The second.
    pub fn clock(&self) -> u64
        ensures { result ≡ self.now.clock }
    {
        self.clock
    }

    /// Carries frames between an operation and the nodes until the operation is at its end. In each
    /// turn the operation's next message goes to its node, and the node's answer comes back. Where
    /// there is nothing to carry, the clock goes on by 5 seconds, and nodes and operation tick. A
    /// node whose store fails, or whose link loses a message, is silent from then on, and the
    /// others go on.
    ///
    /// `TurnLimit` where the operation still runs after 100,000,000 turns, and `OutOfMemory` where
    /// memory was refused in the middle of a turn: then a server may have done what was asked of
    /// it, and its answer has not come; all else is as the turn had it until then.
    pub fn run<O: Operation>(&mut self, operation: &mut O) -> Result<(), LoopError>
        ensures ok { OnOk result (Finishes O.calls S.calls L.carries 100000000
            (record { operation = operation.old; grid = self.old })
            (record { operation = operation.new; grid = self.new })) }
        ensures turn_limit { IsErrOf result LoopError.TurnLimit
            → GoesPast O.calls S.calls L.carries 100000000
            (record { operation = operation.old; grid = self.old })
            (record { operation = operation.new; grid = self.new }) }
        ensures memory { IsErrOf result LoopError.OutOfMemory
            → RunsOut O.calls S.calls L.carries L.gives_up 100000000
            (record { operation = operation.old; grid = self.old })
            (record { operation = operation.new; grid = self.new }) }
        ensures clock { self.old.clock ≤ self.new.clock }
    {
        self.run_within(operation, MOST_TURNS)
    }

    /// The same with a limit of turns of the caller's.
    pub fn run_within<O: Operation>(
        &mut self,
        operation: &mut O,
        limit: u64,
    ) -> Result<(), LoopError>
        ensures ok { OnOk result (Finishes O.calls S.calls L.carries limit
            (record { operation = operation.old; grid = self.old })
            (record { operation = operation.new; grid = self.new })) }
        ensures turn_limit { IsErrOf result LoopError.TurnLimit
            → GoesPast O.calls S.calls L.carries limit
            (record { operation = operation.old; grid = self.old })
            (record { operation = operation.new; grid = self.new }) }
        ensures memory { IsErrOf result LoopError.OutOfMemory
            → RunsOut O.calls S.calls L.carries L.gives_up limit
            (record { operation = operation.old; grid = self.old })
            (record { operation = operation.new; grid = self.new }) }
        ensures clock { self.old.clock ≤ self.new.clock }
    {
        for _ in 0..limit {
            if !operation.is_running() {
                return Ok(());
            }
            self.turn(operation)?;
        }
        if operation.is_running() {
            return Err(LoopError::TurnLimit);
        }
        Ok(())
    }

    // One turn of an operation that runs.
    fn turn<O: Operation>(&mut self, operation: &mut O) -> Result<(), AllocError>
        requires { O.calls.runs operation.old ≡ true }
        ensures ok { OnOk result (Turns O.calls S.calls L.carries
            (record { operation = operation.old; grid = self.old })
            (record { operation = operation.new; grid = self.new })) }
        ensures err { OnErr result (IsCutShort O.calls S.calls L.carries L.gives_up
            (record { operation = operation.old; grid = self.old })
            (record { operation = operation.new; grid = self.new })) }
        ensures clock { self.old.clock ≤ self.new.clock }
    {
        let alloc = *self.frame.allocator();
        match operation.take_outgoing(alloc)? {
            Some((node, message)) => self.carry(operation, node, &message),
            None => self.wait(operation),
        }
    }

    // Carries a message of the operation's, and the answer.
    fn carry<O: Operation>(
        &mut self,
        operation: &mut O,
        node: NodeId,
        message: &Message,
    ) -> Result<(), AllocError>
        ensures ok { OnOk result (GoesOn O.calls S.calls L.carries operation.old self.old
            (Some (node, message.now)) (record { operation = operation.new; grid = self.new })) }
        ensures err { OnErr result (StopsAfter O.calls S.calls L.carries L.gives_up operation.old
            self.old (Some (node, message.now))
            (record { operation = operation.new; grid = self.new })) }
        ensures clock { self.new.clock ≡ self.old.clock }
    {
        match self.exchange(node, message)? {
            Some(answer) => operation.on_message(node, answer, self.clock),
            None => Ok(()),
        }
    }

    /// Carries a message to its node, and gives what comes back. It is what a turn of `run` does
    /// with a message, for a loop that has other servers beside these.
    pub fn exchange(
        &mut self,
        node: NodeId,
        message: &Message,
    ) -> Result<Option<Message>, AllocError>
        ensures ok { IfOk result
            (λ answer. Asks S.calls L.carries self.old node message.now answer self.new) }
        ensures err { OnErr result
            (Stops S.calls L.carries L.gives_up self.old node message.now self.new) }
        ensures clock { self.new.clock ≡ self.old.clock }
    {
        self.hash_waiting(node, message);
        self.ask(node, message)
    }

    // Before a server is given a piece more, what waits there is hashed beside what waits at other
    // servers.
    fn hash_waiting(&mut self, node: NodeId, message: &Message)
        ensures { self.new ≡ self.old }
    {
        if matches!(message.body, Body::Write(_, _, _)) {
            hash_waiting(&mut self.nodes, usize::from(node));
        }
    }

    // Lets five seconds pass, of which the nodes and the operation take note.
    fn wait<O: Operation>(&mut self, operation: &mut O) -> Result<(), AllocError>
        ensures ok { OnOk result (GoesOn O.calls S.calls L.carries operation.old self.old None
            (record { operation = operation.new; grid = self.new })) }
        ensures err { OnErr result (StopsAfter O.calls S.calls L.carries L.gives_up operation.old
            self.old None (record { operation = operation.new; grid = self.new })) }
        ensures clock { self.old.clock ≤ self.new.clock }
    {
        self.pass();
        operation.tick(self.clock)
    }

    // Five seconds, of which the nodes take note.
    fn pass(&mut self)
        ensures passed { self.new ≡ passed self.old }
        ensures clock { self.old.clock ≤ self.new.clock }
    {
        self.pass_to(self.clock.saturating_add(STEP));
    }

    /// It is this second, of which the nodes take note.
    pub fn pass_to(&mut self, now: u64)
        ensures { self.new ≡ passed_to now self.old }
    {
        self.clock = now;
        tick_each(&mut self.nodes, self.clock);
    }

    // What comes back from a node.
    fn ask(&mut self, node: NodeId, message: &Message) -> Result<Option<Message>, AllocError>
        ensures ok { IfOk result
            (λ answer. Asks S.calls L.carries self.old node message.now answer self.new) }
        ensures err { OnErr result
            (Stops S.calls L.carries L.gives_up self.old node message.now self.new) }
        ensures clock { self.new.clock ≡ self.old.clock }
    {
        let position = usize::from(node);
        if position >= self.nodes.len() {
            return Ok(None);
        }
        match &mut self.nodes[position] {
            Some(asked) => asked.exchange(message, self.clock, &mut self.frame),
            None => Ok(None),
        }
    }
}
