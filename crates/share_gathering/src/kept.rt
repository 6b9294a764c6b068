//! What is kept of the bytes of a source, whose shares are made of them piece by piece.

ghost use Rattle.std.specs.Prelude.{◌≡◌, ◌≤◌, ◌<◌, ◌^◌, ℕ, List, length, IfOk};
ghost use Rattle.block_making.specs.Making.{AreSlots};
ghost use Rattle.share_gathering.specs.KeptFile.{kept_length};

use crate::buffers::Buffers;
use block_making::{BlockSlots, Encoder, window_for};
use merkle::Tree;
use share_layout::{Geometry, Offsets};
use std::alloc::{AllocError, Global};
use std::marker::Model;

/// What is kept of the bytes of a source: the digests of the shares that are made of them, and the
/// trees of their hashes. Of the bytes it holds those of eight segments and of some blocks at most.
#[derive(Drop)]
pub struct Kept {
    pub geometry: Geometry,
    pub extension_block: Vec<u8>,
    pub ciphertext_tree: Tree,
    pub block_trees: Vec<Tree>,
    pub share_hashes: Vec<Vec<u8>>,
    pub digests: Vec<[u8; 32]>,
    pub encoder: Encoder,
    pub buffers: Buffers,
    pub slots: BlockSlots,
}

impl Model for Kept {
    ghost use Rattle.std.specs.Prelude.{map};
    ghost use Rattle.share_gathering.specs.Kept.{IsHeld};
    ghost use Rattle.share_gathering.specs.KeptFile.{KeptFile, kept_with};

    ghost Value = { KeptFile };

    ghost view = { λ k. kept_with k.geometry k.encoder.cipher k.extension_block.items
        k.ciphertext_tree k.block_trees.items k.digests.items };

    // It is of some bytes, and what is hidden belongs to it.
    ghost invariant = { λ k. IsHeld (kept_with k.geometry k.encoder.cipher k.extension_block.items
        k.ciphertext_tree k.block_trees.items k.digests.items)
        (map (λ h. h.items) k.share_hashes.items) k.encoder k.buffers k.slots };
}

impl Kept {
    /// The digests of the shares, by number.
    pub fn digests(&self) -> &[[u8; 32]]
        ensures digests { result.now ≡ self.now.digests }
        ensures few { length self.now.digests ≤ 256 }
    {
        &self.digests
    }

    /// The length of each share in bytes.
    pub fn share_length(&self) -> u64
        ensures length { result ≡ kept_length self.now }
        ensures some { 1 ≤ result }
        ensures short { result ≤ 2 ^ 41 }
    {
        let offsets = Offsets::of(&self.geometry);
        offsets.extension_block + (offsets.layout.width() + self.extension_block.len()) as u64
    }
}

/// Slots for the blocks of a file. They are free.
pub fn file_slots(alloc: Global, geometry: &Geometry) -> Result<BlockSlots, AllocError>
    ensures { (leaves : List (List (List ℕ))) → IfOk result (AreSlots geometry.now leaves) }
{
    let size = geometry.block_size();
    let window = window_for(size, geometry.segment_count());
    Ok(BlockSlots::new(alloc, geometry.total(), size, window)?)
}
