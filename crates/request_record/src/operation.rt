//! What every operation is: an upload, a download and a check ask servers in the same way.

ghost use Rattle.std.specs.Prelude.{◌≡◌, IfOk, OnOk, OnErr};
ghost use Rattle.request_record.specs.Follow.{Follows, IsSaid, Nothing};
ghost use Rattle.request_record.specs.Operations.{OperationCalls};

use std::alloc::{AllocError, Global};
use wire::message::{Message, NodeId};

/// An operation that asks servers, by relations of its own: what each call does, from the state
/// before it to the state after it. Whatever a call does, also one that was refused memory, the
/// record goes on: what was asked stays asked, and no answer is in it but those that came.
pub trait Operation {
    /// What each call does.
    ghost calls: { OperationCalls Self };

    /// Has it still to be carried on?
    fn is_running(&self) -> bool
        ensures { result ≡ calls.runs self.now };

    /// Takes the next message to send, and the node that it is for. `None` where there is none.
    fn take_outgoing(&mut self, alloc: Global) -> Result<Option<(NodeId, Message)>, AllocError>
        ensures ok { IfOk result (λ taken. calls.takes self.old taken self.new) }
        ensures err { OnErr result (calls.gives_up self.old self.new) }
        ensures follows { Follows Nothing (calls.requests self.old) (calls.requests self.new) };

    /// Takes a message from a node over, at a second.
    fn on_message(&mut self, from: NodeId, message: Message, now: u64) -> Result<(), AllocError>
        ensures ok { OnOk result (calls.hears self.old from message now self.new) }
        ensures err { OnErr result (calls.gives_up self.old self.new) }
        ensures follows { Follows (IsSaid from message (calls.requests self.old).session)
            (calls.requests self.old) (calls.requests self.new) };

    /// Takes note of a second.
    fn tick(&mut self, now: u64) -> Result<(), AllocError>
        ensures ok { OnOk result (calls.ticks self.old now self.new) }
        ensures err { OnErr result (calls.gives_up self.old self.new) }
        ensures follows { Follows Nothing (calls.requests self.old) (calls.requests self.new) };
}
