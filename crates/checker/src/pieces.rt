//! The bytes that a check keeps of a share.

ghost use Rattle.std.specs.Prelude.{◌≡◌, ◌++◌, IfOk, OnOk};
ghost use Rattle.checker.specs.Pieces.{HasAdded, IsEmpty};

use std::alloc::{AllocError, Global};

/// The bytes that were read of a share, where they are kept.
#[derive(Drop)]
pub(crate) struct Pieces {
    /// Whether they are kept.
    pub(crate) keeps: bool,
    /// Those from the first on, in order.
    pub(crate) front: Vec<u8>,
    /// Those of the extension block's length and of the extension block.
    pub(crate) back: Vec<u8>,
}

impl Pieces {
    /// None were read. Takes no memory.
    pub(crate) fn new(alloc: Global, keeps: bool) -> Pieces
        ensures { IsEmpty keeps result }
    {
        Pieces {
            keeps,
            front: Vec::new(alloc),
            back: Vec::new(alloc),
        }
    }

    /// Keeps the next bytes, where they are kept: from the first on, or those behind the rest.
    pub(crate) fn add(&mut self, behind: bool, bytes: &[u8]) -> Result<(), AllocError>
        ensures { OnOk result (HasAdded behind bytes.now self.old self.new) }
    {
        if !self.keeps {
            return Ok(());
        }
        if behind {
            self.back.extend_from_slice(bytes)
        } else {
            self.front.extend_from_slice(bytes)
        }
    }

    /// All of them, in the order of their positions.
    pub(crate) fn joined(&self, alloc: Global) -> Result<Vec<u8>, AllocError>
        ensures { IfOk result (λ bytes. bytes.items ≡ self.now.front.items ++ self.now.back.items) }
    {
        let mut bytes = Vec::from_slice(alloc, &self.front)?;
        bytes.extend_from_slice(&self.back)?;
        Ok(bytes)
    }
}
