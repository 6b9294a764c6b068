//! An operation that is watched.

ghost use Rattle.std.specs.Prelude.{◌≡◌};

use request_record::operation::Operation;
use std::alloc::{AllocError, Global};
use std::marker::Model;
use wire::message::{Message, NodeId};

/// What looks on while an operation is carried on. It is told of each message, and changes none.
pub trait Watch {
    /// The operation asks this server so.
    fn asked(&mut self, server: NodeId, message: &Message);

    /// The operation hears this from a server.
    fn heard(&mut self, server: NodeId, message: &Message);
}

impl<W: Watch> Watch for &mut W {
    fn asked(&mut self, server: NodeId, message: &Message) {
        (**self).asked(server, message);
    }

    fn heard(&mut self, server: NodeId, message: &Message) {
        (**self).heard(server, message);
    }
}

/// An operation with what looks on.
#[derive(Drop)]
pub struct Watched<O: Operation, W: Watch> {
    operation: O,
    watch: W,
}

impl<O: Operation, W: Watch> Model for Watched<O, W> {
    ghost Value = { O };

    ghost view = { λ w. w.operation };
}

impl<O: Operation, W: Watch> Watched<O, W> {
    /// Takes an operation over, and what looks on.
    pub fn new(operation: O, watch: W) -> Watched<O, W>
        ensures { result ≡ operation }
    {
        Watched { operation, watch }
    }

    /// The operation.
    pub fn operation(&self) -> &O
        ensures { result.now ≡ self.now }
    {
        &self.operation
    }
}

impl<O: Operation, W: Watch + Drop> Watched<O, W> {
    /// The operation, without what looked on.
    pub fn into_operation(self) -> O
        ensures { result ≡ self }
    {
        self.operation
    }
}

impl<O: Operation, W: Watch> Operation for Watched<O, W> {
    ghost calls = { O.calls };

    fn is_running(&self) -> bool {
        self.operation.is_running()
    }

    fn take_outgoing(&mut self, alloc: Global) -> Result<Option<(NodeId, Message)>, AllocError> {
        let taken = self.operation.take_outgoing(alloc)?;
        if let Some((server, message)) = &taken {
            self.watch.asked(*server, message);
        }
        Ok(taken)
    }

    fn on_message(&mut self, from: NodeId, message: Message, now: u64) -> Result<(), AllocError> {
        self.watch.heard(from, &message);
        self.operation.on_message(from, message, now)
    }

    fn tick(&mut self, now: u64) -> Result<(), AllocError> {
        self.operation.tick(now)
    }
}
