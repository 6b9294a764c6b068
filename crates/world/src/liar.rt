//! Liars: nodes of which nothing is assumed.

ghost use Rattle.std.specs.Prelude.{◌≡◌, ◌++◌, ◌∷◌, [], OnErr, OnOk};
ghost use Rattle.world_operations.specs.declared.message.Sent.{Sent};

use proved_parts::Bytes;
use std::alloc::{AllocError, Global};
use std::marker::Model;
use wire::message::NodeId;
use world_operations::message::Sent;

/// A liar's turn failed.
#[derive(Clone, Copy, Debug, PartialEq, Eq)]
pub struct LiarFault;

/// A node of which nothing is assumed.
pub trait Liar: Drop {
    /// What it sends at its turn, and to which node. `heard` is all that came to it, in order.
    fn turn(&mut self, heard: &[Sent]) -> Result<Option<(NodeId, Bytes)>, LiarFault>;
}

/// All that came to a liar, in order.
#[derive(Drop)]
pub(crate) struct Heard {
    items: Vec<Sent>,
}

impl Model for Heard {
    ghost use Rattle.std.specs.Prelude.{List};
    ghost use Rattle.world_operations.specs.declared.message.Sent.{Sent};

    ghost Value = { List Sent };

    ghost view = { λ h. h.items.items };
}

impl Heard {
    /// Nothing.
    pub(crate) fn new(alloc: Global) -> Heard
        ensures { result ≡ [] }
    {
        Heard {
            items: Vec::new(alloc),
        }
    }

    /// The messages.
    pub(crate) fn as_slice(&self) -> &[Sent]
        ensures { result.now ≡ self.now }
    {
        self.items.as_slice()
    }

    /// One more message came.
    pub(crate) fn push(&mut self, sent: Sent) -> Result<(), AllocError>
        ensures ok { OnOk result (self.new ≡ self.old ++ sent ∷ []) }
        ensures err { OnErr result (self.new ≡ self.old) }
    {
        self.items.push(sent)?;
        Ok(())
    }
}
