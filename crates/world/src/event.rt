//! Events, and why one is refused.

ghost use Rattle.std.specs.Prelude.{◌≡◌};
ghost use Rattle.world.specs.Refusals.{refusal_number};

use proved_parts::Bytes;
use std::alloc::{AllocError, AllocFailed};
use wire::message::NodeId;
use world_operations::job::Job;

/// One atomic step of one actor. Nodes are named by their numbers, messages and operations by their
/// positions.
#[derive(Drop)]
pub enum Event {
    /// An honest node starts an operation.
    Start(NodeId, Job),
    /// An honest node repairs a file, by what its own check of this number found, which is done:
    /// for so many servers at least.
    Repair(NodeId, usize, u16),
    /// A message that was sent comes to its receiver, again too.
    Deliver(usize),
    /// A liar sends these bytes to a node.
    Forge(NodeId, NodeId, Bytes),
    /// A liar sends what it likes, or nothing.
    Turn(NodeId),
    /// So many seconds pass.
    Pass(u64),
    /// An honest node's clock ticks.
    Tick(NodeId),
    /// An honest node forgets its open buckets and its running operations.
    Restart(NodeId),
    /// An honest node's store fails at the next call that can fail.
    FailStore(NodeId),
    /// A running operation ends as one that found no memory.
    Refuse(usize),
}

/// Why an event is refused.
#[derive(Clone, Copy, Debug, PartialEq, Eq)]
pub enum WorldError {
    /// There was not enough memory. The world is stopped.
    OutOfMemory,
    /// The event names what is not there, or cannot be. The world is as it was.
    BadEvent,
    /// The world was stopped before.
    Stopped,
}

impl WorldError {
    /// The number of the refusal.
    pub fn number(self) -> u8
        ensures { result ≡ refusal_number self }
    {
        match self {
            WorldError::OutOfMemory => 1,
            WorldError::BadEvent => 80,
            WorldError::Stopped => 81,
        }
    }
}

impl From<AllocError> for WorldError {
    ghost use Rattle.world.specs.declared.event.WorldError.TheVariants.{OutOfMemory};

    ghost from_gives = { λ _ error. error ≡ OutOfMemory };

    fn from(_error: AllocError) -> WorldError {
        WorldError::OutOfMemory
    }
}

impl<T: Drop> From<AllocFailed<T>> for WorldError {
    ghost use Rattle.world.specs.declared.event.WorldError.TheVariants.{OutOfMemory};

    ghost from_gives = { λ _ error. error ≡ OutOfMemory };

    fn from(_error: AllocFailed<T>) -> WorldError {
        WorldError::OutOfMemory
    }
}
