//! The block tree of a share.

ghost use Rattle.std.specs.Prelude.{◌≡◌, ◌+◌, ◌*◌, ◌^◌, ◌<◌, ◌≤◌, ◌↔◌, IfOk, OnErr, OnOk, Err};
ghost use Rattle.std.specs.Prelude.{Some, None, true, false, length};
ghost use Rattle.merkle.specs.Known.{KnowsHashes};
ghost use Rattle.merkle.specs.Partial.{IsNotConsistent, IsPartial, Takes, starting};
ghost use Rattle.download_parts.specs.Offers.{nodes_offered};
ghost use Rattle.download_parts.specs.Trees.{ProvesBlock, RefutesBlock, known_leaf};

use crate::error::TreeFault;
use crate::part::Nodes;
use crate::partial::{leaf_of, offer_nodes, tree_with};
use merkle::{Padding, Partial};
use share_verify::Check;
use std::alloc::{AllocError, Global};
use std::marker::Model;
use tagged_hash::{Tag, tagged};

/// The nodes that are known of the block tree of a share. It has a leaf for each segment, which is
/// the hash of the segment's block.
#[derive(Drop)]
pub struct BlockTree {
    tree: Partial,
    leaves: u32,
}

impl Model for BlockTree {
    ghost use Rattle.merkle.specs.Partial.{PartialState};
    ghost use Rattle.download_parts.specs.Trees.{IsBlockTree};

    ghost Value = { PartialState };

    ghost view = { λ b. b.tree };

    ghost invariant = { λ b. IsBlockTree b.tree b.leaves };
}

impl BlockTree {
    /// The tree of which the root alone is known, over so many segments, with their padding.
    pub(crate) fn new(
        alloc: Global,
        root: &[u8; 32],
        leaves: u32,
        padding: &Padding,
    ) -> Result<BlockTree, AllocError>
        requires { padding.now ≡ leaves }
        ensures tree { IfOk result (λ tree. tree ≡ starting root.now leaves) }
        ensures right { IfOk result IsPartial }
        ensures hashes { IfOk result KnowsHashes }
    {
        Ok(BlockTree {
            tree: tree_with(alloc, root, padding)?,
            leaves,
        })
    }

    /// Takes nodes of a row, whose hashes are the bytes, 32 each. They are refused, as failing the
    /// check of the block tree, where they do not go with what is known. A piece of a plan is whole
    /// groups of nodes, and where it comes after the levels above it the nodes of the share's own
    /// block tree are taken.
    pub fn take_nodes(
        &mut self,
        alloc: Global,
        nodes: &Nodes,
        bytes: &[u8],
    ) -> Result<(), TreeFault>
        requires low { nodes.now.row ≤ 20 }
        requires inside { nodes.now.from + nodes.now.count ≤ 2 ^ nodes.now.row }
        requires long { length bytes.now ≡ 32 * nodes.now.count }
        ensures taken { OnOk result (Takes self.old (nodes_offered nodes.now bytes.now) self.new) }
        // When it is refused.
        ensures refused { (check : Check) → result ≡ Err (TreeFault.Check check)
            → (check ≡ Check.BlockTree)
            × IsNotConsistent self.old (nodes_offered nodes.now bytes.now) }
        ensures unchanged { OnErr result (self.new ≡ self.old) }
        ensures sound { IsPartial self.old }
        ensures right { IsPartial self.new }
        ensures hashes { KnowsHashes self.new }
        ensures root { self.new.root ≡ self.old.root }
        ensures count { self.new.leaf_count ≡ self.old.leaf_count }
    {
        offer_nodes(alloc, &mut self.tree, nodes, bytes, Check::BlockTree)
    }

    /// The hash of a segment's block, where it is known. There is such a segment.
    pub fn leaf(&self, segment: u32) -> Option<[u8; 32]>
        requires { segment < self.now.leaf_count }
        ensures value { result ≡ known_leaf self.now segment }
        ensures right { IsPartial self.now }
    {
        leaf_of(&self.tree, self.leaves, segment)
    }

    /// Whether a block is the one of a segment. `None` where the hash of the segment's block is not
    /// known. There is such a segment.
    pub fn proves(&self, segment: u32, block: &[u8]) -> Option<bool>
        requires { segment < self.now.leaf_count }
        ensures proved { (result ≡ Some true) ↔ ProvesBlock self.now segment block.now }
        ensures refuted { (result ≡ Some false) → RefutesBlock self.now segment block.now }
        ensures not_known { (result ≡ None) ↔ (known_leaf self.now segment ≡ None) }
        ensures right { IsPartial self.now }
    {
        let leaf = self.leaf(segment)?;
        Some(leaf == tagged(Tag::Block, block))
    }
}
