//! Leaves that are held of shares.

ghost use Rattle.std.specs.Prelude.{◌≡◌, ◌↔◌, IfOk, IsTrue, [], replicate, slice_index_or};

use std::alloc::{AllocError, Global};
use std::marker::Model;

/// The leaves of the block tree of a share, one for each segment, or none.
#[derive(Drop)]
pub(crate) struct Held {
    leaves: Vec<[u8; 32]>,
}

impl Model for Held {
    ghost use Rattle.std.specs.Prelude.{ℕ, List};

    ghost Value = { List (List ℕ) };

    ghost view = { λ h. h.leaves.items };
}

impl Held {
    /// No leaves.
    pub fn none(alloc: Global) -> Held
        ensures { result ≡ [] }
    {
        Held {
            leaves: Vec::new(alloc),
        }
    }

    /// No leaves of so many shares.
    pub fn none_of(alloc: Global, count: usize) -> Result<Vec<Held>, AllocError>
        ensures { IfOk result (λ held. held.items ≡ replicate count []) }
    {
        let mut held = Vec::with_capacity(alloc, count)?;
        for _ in 0..count {
            held.push(Held::none(alloc))?;
        }
        Ok(held)
    }

    /// These leaves.
    pub fn of(leaves: Vec<[u8; 32]>) -> Held
        ensures { result ≡ leaves.items }
    {
        Held { leaves }
    }

    /// Whether no leaves are held.
    pub fn is_none(&self) -> bool
        ensures { IsTrue result ↔ (self.now ≡ []) }
    {
        self.leaves.is_empty()
    }

    /// Whether the leaves tell this hash for the block of a segment.
    pub fn has_leaf(&self, segment: u32, hash: &[u8; 32]) -> bool
        ensures { IsTrue result ↔ (hash.now ≡ slice_index_or self.now segment []) }
    {
        let segment = segment as usize;
        segment < self.leaves.len() && *hash == self.leaves[segment]
    }
}
