//! Messages that were sent.

ghost use Rattle.std.specs.Prelude.{◌≡◌, ◌++◌, ◌∷◌, [], IfOk, OnErr, OnOk};
ghost use Rattle.wire.specs.Frames.{IsMessage};
ghost use Rattle.world_operations.specs.Moves.{sent_to};

use proved_parts::Bytes;
use std::alloc::{AllocError, Global};
use wire::message::{Message, NodeId};

/// A message that was sent, with its true sender and receiver.
#[derive(Drop)]
pub struct Sent {
    /// The node that sent it.
    pub from: NodeId,
    /// The node that it is for.
    pub to: NodeId,
    /// The body of a frame, as `wire::decode` reads it.
    pub body: Bytes,
}

impl Sent {
    /// The same message once more.
    pub fn copied(&self, alloc: Global) -> Result<Sent, AllocError>
        ensures { IfOk result (λ sent. sent ≡ self.now) }
    {
        Ok(Sent {
            from: self.from,
            to: self.to,
            body: copied(alloc, &self.body)?,
        })
    }
}

/// The same bytes once more.
pub fn copied(alloc: Global, bytes: &Bytes) -> Result<Bytes, AllocError>
    ensures { IfOk result (λ same. same ≡ bytes.now) }
{
    Ok(Bytes::from_vec(Vec::from_slice(alloc, bytes.as_slice())?))
}

/// What is sent where a node sends this message.
pub fn spell(alloc: Global, from: NodeId, to: NodeId, message: &Message) -> Result<Sent, AllocError>
    ensures value { IfOk result (λ sent. sent ≡ sent_to from to message.now) }
    ensures right { IsMessage message.now }
{
    let body = Bytes::from_vec(message.encode_body(alloc)?);
    Ok(Sent { from, to, body })
}

/// One more message that was sent.
pub fn push_sent(all: &mut Vec<Sent>, sent: Sent) -> Result<(), AllocError>
    ensures ok { OnOk result (all.new.items ≡ all.old.items ++ sent ∷ []) }
    ensures err { OnErr result (all.new.items ≡ all.old.items) }
{
    all.push(sent)?;
    Ok(())
}
