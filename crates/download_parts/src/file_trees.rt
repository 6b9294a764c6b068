//! The share tree and the ciphertext tree of a file.

ghost use Rattle.std.specs.Prelude.{◌≡◌, ℕ, ◌+◌, ◌*◌, ◌^◌, ◌<◌, ◌≤◌, IfOk, IfSome, OnErr};
ghost use Rattle.std.specs.Prelude.{OnOk, Err, List, Some, is_some, length};
ghost use Rattle.merkle.specs.Partial.{IsNotConsistent, Takes, known_siblings, starting};
ghost use Rattle.merkle.specs.Path.{LeadsBy};
ghost use Rattle.merkle.specs.Tree.{height};
ghost use Rattle.share_layout.specs.Geometry.{hashes_size, segment_count};
ghost use Rattle.download_parts.specs.Offers.{nodes_offered, share_hashes_offered};
ghost use Rattle.download_parts.specs.Refusal.{HasNumbers, IsHashesRefusal};
ghost use Rattle.download_parts.specs.Trees.{AreTrees, HaveSameRoots, IsBlockRoot, IsBlockTree};
ghost use Rattle.download_parts.specs.Trees.{known_leaf, share_leaves, starting_trees};

use crate::block_tree::BlockTree;
use crate::error::TreeFault;
use crate::offers::{chained, own_position};
use crate::part::Nodes;
use crate::partial::{leaf_of, offer, offer_nodes, tree_with};
use merkle::{Padding, Partial, height};
use share_layout::{Geometry, carries_numbers};
use share_verify::Check;
use std::alloc::{AllocError, Global};
use std::marker::Model;
use ueb::Ueb;

/// The nodes that are known of the share tree and of the ciphertext tree of a file. Each leads to
/// its root, which the extension block tells.
#[derive(Drop)]
pub struct FileTrees {
    geometry: Geometry,
    shares: Partial,
    ciphertext: Partial,
}

impl Model for FileTrees {
    ghost use Rattle.download_parts.specs.Trees.{AreTrees, FileTreesState, trees_state};

    ghost Value = { FileTreesState };

    ghost view = { λ t. trees_state t.geometry t.shares t.ciphertext };

    ghost invariant = { λ t. AreTrees (trees_state t.geometry t.shares t.ciphertext) };
}

impl FileTrees {
    /// The trees of which the extension block alone tells something: their roots.
    pub fn new(alloc: Global, ueb: &Ueb, geometry: &Geometry) -> Result<FileTrees, AllocError>
        ensures trees { IfOk result (λ trees. trees ≡ starting_trees ueb.now geometry.now) }
        ensures right { IfOk result AreTrees }
    {
        let positions = Padding::of(share_leaves(geometry));
        let segments = Padding::of(geometry.segment_count());
        Ok(FileTrees {
            geometry: *geometry,
            shares: tree_with(alloc, ueb.share_root_hash(), &positions)?,
            ciphertext: tree_with(alloc, ueb.crypttext_root_hash(), &segments)?,
        })
    }

    /// Takes the share hashes of a share, and gives the tree over its blocks, of which the root is
    /// then known. There is such a share, and the bytes have the length of share hashes.
    ///
    /// They are refused as failing the check of the layout where they carry other numbers than
    /// those of the nodes that lead from the share to the root, and else as failing the check of
    /// the share hashes where they do not go with what is known of the share tree.
    pub fn take_share_hashes(
        &mut self,
        alloc: Global,
        share: u16,
        bytes: &[u8],
    ) -> Result<BlockTree, TreeFault>
        requires there { share < self.old.geometry.total }
        requires long { length bytes.now ≡ hashes_size self.old.geometry }
        ensures taken { OnOk result (Takes self.old.shares
            (share_hashes_offered self.old.geometry.total share bytes.now) self.new.shares) }
        ensures tree { IfOk result (λ tree.
            tree ≡ starting tree.root (segment_count self.old.geometry)) }
        ensures leads { IfOk result (λ tree.
            IsBlockTree tree (segment_count self.old.geometry)) }
        ensures root { IfOk result (λ tree. known_leaf self.new.shares share ≡ Some tree.root) }
        ensures block_root { IfOk result (λ tree.
            IsBlockRoot self.old.shares.root self.old.geometry.total share tree.root) }
        ensures other { self.new.ciphertext ≡ self.old.ciphertext }
        // When each refusal comes.
        ensures refused { (check : Check) → result ≡ Err (TreeFault.Check check)
            → IsHashesRefusal self.old share bytes.now check }
        ensures numbers { ¬ HasNumbers self.old share bytes.now
            → result ≡ Err (TreeFault.Check Check.Layout) }
        ensures unchanged { OnErr result (self.new ≡ self.old) }
        ensures roots { HaveSameRoots self.old self.new }
        ensures sound { AreTrees self.old }
        ensures right { AreTrees self.new }
    {
        if !carries_numbers(&self.geometry, share, bytes) {
            return Err(TreeFault::Check(Check::Layout));
        }
        let height = share_height(&self.geometry);
        let leaf = u32::from(share);
        let offers = chained(alloc, height, leaf, bytes)?;
        let root = offers[own_position(height, leaf) as usize].1;
        let padding = self.ciphertext.padding();
        let tree = BlockTree::new(alloc, &root, self.geometry.segment_count(), padding)?;
        offer(&mut self.shares, &offers, Check::ShareHashes)?;
        Ok(tree)
    }

    /// Takes nodes of a row of the ciphertext tree, whose hashes are the bytes, 32 each. They are
    /// refused, as failing the check of the ciphertext tree, where they do not go with what is
    /// known.
    pub fn take_nodes(
        &mut self,
        alloc: Global,
        nodes: &Nodes,
        bytes: &[u8],
    ) -> Result<(), TreeFault>
        requires low { nodes.now.row ≤ 20 }
        requires inside { nodes.now.from + nodes.now.count ≤ 2 ^ nodes.now.row }
        requires long { length bytes.now ≡ 32 * nodes.now.count }
        ensures taken { OnOk result (Takes self.old.ciphertext
            (nodes_offered nodes.now bytes.now) self.new.ciphertext) }
        ensures other { self.new.shares ≡ self.old.shares }
        // When it is refused.
        ensures refused { (check : Check) → result ≡ Err (TreeFault.Check check)
            → (check ≡ Check.CiphertextTree)
            × IsNotConsistent self.old.ciphertext (nodes_offered nodes.now bytes.now) }
        ensures unchanged { OnErr result (self.new ≡ self.old) }
        ensures roots { HaveSameRoots self.old self.new }
        ensures sound { AreTrees self.old }
        ensures right { AreTrees self.new }
    {
        offer_nodes(
            alloc,
            &mut self.ciphertext,
            nodes,
            bytes,
            Check::CiphertextTree,
        )
    }

    /// The hash of a segment, where it is known. There is such a segment.
    pub fn leaf(&self, segment: u32) -> Option<[u8; 32]>
        requires { segment < segment_count self.now.geometry }
        ensures value { result ≡ known_leaf self.now.ciphertext segment }
        ensures right { AreTrees self.now }
    {
        leaf_of(&self.ciphertext, self.geometry.segment_count(), segment)
    }

    /// The siblings of a segment's hash and of the nodes above it, from the hash upward, where the
    /// hash is known. There is such a segment.
    pub fn path(&self, segment: u32) -> Result<Option<Vec<[u8; 32]>>, AllocError>
        requires { segment < segment_count self.now.geometry }
        ensures known { IfOk result (λ path.
            is_some path ≡ is_some (known_leaf self.now.ciphertext segment)) }
        ensures siblings { IfOk result (λ path. IfSome path (λ siblings.
            siblings.items ≡ known_siblings self.now.ciphertext segment)) }
        // By them the hash leads to the root.
        ensures leads { IfOk result (λ path. IfSome path (λ siblings. (hash : List ℕ)
            → known_leaf self.now.ciphertext segment ≡ Some hash
            → LeadsBy (segment_count self.now.geometry) self.now.ciphertext.root segment hash
            siblings.items)) }
        ensures right { AreTrees self.now }
    {
        self.ciphertext.path(segment)
    }
}

// The height of the share tree.
fn share_height(geometry: &Geometry) -> u32
    ensures value { result ≡ height geometry.now.total }
    ensures low { result ≤ 8 }
    ensures room { geometry.now.total ≤ 2 ^ result }
{
    height(u32::from(geometry.total()))
}

// How many positions the share tree has for leaves: a power of two.
fn share_leaves(geometry: &Geometry) -> u32
    ensures value { result ≡ share_leaves geometry.now.total }
    ensures range { (0 < result) × (result ≤ 256) }
{
    1 << share_height(geometry)
}
