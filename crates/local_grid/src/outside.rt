//! The servers that an operation asks, and the clock.

ghost use Rattle.std.specs.Prelude.{◌≡◌, ◌≤◌, IfOk, OnErr};
ghost use Rattle.local_grid.specs.Outside.{OutsideCalls};

use std::alloc::AllocError;
use wire::message::{Message, NodeId};

/// What happens while an operation waits.
#[derive(Drop)]
pub enum Happening {
    /// A message came from a server.
    Came(NodeId, Message),
    /// It is this second.
    Second(u64),
}

/// The servers that an operation asks, and the clock, by relations of their own: what each call
/// does, from the state before it to the state after it.
pub trait Outside {
    /// What each call does.
    ghost calls: { OutsideCalls Self };

    /// The second.
    fn clock(&self) -> u64
        ensures { result ≡ calls.clock self.now };

    /// Hands a message to a server, and gives the answer of one that answers at once.
    fn hand(&mut self, node: NodeId, message: &Message) -> Result<Option<Message>, AllocError>
        ensures ok { IfOk result
            (λ answer. calls.handed self.old node message.now answer self.new) }
        ensures err { OnErr result (calls.hand_stops self.old node message.now self.new) }
        ensures clock { calls.clock self.new ≡ calls.clock self.old };

    /// Waits for what happens next.
    fn wait(&mut self) -> Result<Happening, AllocError>
        ensures ok { IfOk result (λ happening. calls.happened self.old happening self.new) }
        ensures err { OnErr result (calls.wait_stops self.old self.new) }
        ensures clock { calls.clock self.old ≤ calls.clock self.new };
}
