//! The links between the client and its servers.

ghost use Rattle.std.specs.Prelude.{◌≡◌, Some, IfOk, OnErr};
ghost use Rattle.local_grid.specs.Nodes.{Carries};

use crate::frames::message_of;
use std::alloc::{AllocError, Global};
use std::marker::Model;
use wire::message::Message;

/// The two ways of a link.
#[derive(Clone, Copy, PartialEq, Eq)]
pub enum Way {
    ToServer,
    ToClient,
}

/// A link between the client and one server, by relations of its own: what comes out at the end of
/// a way where a message goes in, and what is left of the link where memory was refused.
pub trait Link {
    /// A message went a way, and this message came out, or nothing.
    ghost carries: { Carries Self };

    /// Memory was refused on a way.
    ghost gives_up: { Self → Self → Type 0 };

    /// Carries a message as a frame. `None` where nothing came out, or no frame of a message.
    /// `frame` is room for the frame, which is used again and again.
    fn carry(
        &mut self,
        way: Way,
        message: &Message,
        frame: &mut Vec<u8>,
    ) -> Result<Option<Message>, AllocError>
        ensures ok { IfOk result (λ came. carries self.old way message.now came self.new) }
        ensures err { OnErr result (gives_up self.old self.new) };
}

/// A link in memory: a frame is read where it was written. Each message comes.
#[derive(Drop)]
pub struct MemoryLink {
    alloc: Global,
}

impl Model for MemoryLink {
    ghost Value = { Unit {0} };

    ghost view = { λ l. tt };
}

impl MemoryLink {
    /// A link that has carried nothing.
    pub fn new(alloc: Global) -> MemoryLink
        ensures { result ≡ tt }
    {
        MemoryLink { alloc }
    }
}

impl Link for MemoryLink {
    ghost carries = { λ link way message came after. came ≡ Some message };

    ghost gives_up = { λ link after. Unit {0} };

    fn carry(
        &mut self,
        _way: Way,
        message: &Message,
        frame: &mut Vec<u8>,
    ) -> Result<Option<Message>, AllocError> {
        message.encode_to(frame)?;
        message_of(self.alloc, frame)
    }
}
