//! The leaves of the block tree of a share.

ghost use Rattle.std.specs.Prelude.{◌≡◌, ◌≢◌, ◌-◌, ◌*◌, ◌^◌, ◌<◌, ◌≤◌, IfNone, IfOk, IfSome};
ghost use Rattle.std.specs.Prelude.{IsTrue, false, length};
ghost use Rattle.merkle.specs.Partial.{IsPartial, starting};
ghost use Rattle.merkle.specs.Tree.{height, max_leaves, tree_root};
ghost use Rattle.share_layout.specs.Geometry.{hashes_size, segment_count};
ghost use Rattle.share_layout.specs.Layout.{offsets_of};
ghost use Rattle.share_verify.specs.CapBlock.{geometry_by};
ghost use Rattle.download_parts.specs.Trees.{IsBlockRoot};
ghost use Rattle.share_source.specs.Leaves.{AreLeavesOf, AreNoHashes, AreNoLeaves, KnowsRoot};
ghost use Rattle.share_source.specs.Reads.{WasRead};

use crate::bytes::ShareBytes;
use crate::hashes::read_hashes;
use crate::leaf_reading::read_bytes;
use download_parts::{BlockTree, FileTrees, Nodes, TreeFault};
use merkle::Tree;
use share_layout::{Geometry, Offsets};
use share_verify::geometry_of;
use std::alloc::{AllocError, Global};
use ueb::Ueb;

/// The leaves of the block tree of a share of this number, read of the share at a position: one for
/// each segment. `None` where a read failed, where the share's own hashes do not lead to the root
/// over all shares, or where the tree over the leaves is another than that to which they lead.
///
/// Beside the leaves it holds the tree over them, while it compares its root.
pub fn read_leaves<B: ShareBytes>(
    alloc: Global,
    ueb: &Ueb,
    bytes: &mut B,
    position: usize,
    number: u16,
) -> Result<Option<Vec<[u8; 32]>>, AllocError>
    ensures leaves { IfOk result (λ found. IfSome found (λ leaves.
        AreLeavesOf ueb.now number leaves.items)) }
    ensures none { IfOk result (λ found. IfNone found
        (AreNoLeaves B.gives B.fails ueb.now position number bytes.old bytes.new)) }
    ensures reads { WasRead B.gives B.fails bytes.old bytes.new }
{
    if number >= ueb.total_shares() {
        return Ok(None);
    }
    let geometry = geometry_of(ueb);
    let Some(mut tree) = read_root(alloc, ueb, bytes, position, number)? else {
        return Ok(None);
    };
    let first = Offsets::of(&geometry).block_tree + inner_size(&geometry);
    let Some(leaves) = read_hashes(alloc, bytes, position, first, geometry.segment_count())? else {
        return Ok(None);
    };
    if has_root(alloc, &mut tree, &leaves)? {
        Ok(Some(leaves))
    } else {
        Ok(None)
    }
}

// How many bytes of a block tree stand before its leaves.
fn inner_size(geometry: &Geometry) -> u64
    ensures { result ≡ (2 ^ height (segment_count geometry.now) - 1) * 32 }
{
    u64::from(geometry.tree_size() / 64) * 32
}

// The block tree of a share, of which the root is known by the share's own hashes.
fn read_root<B: ShareBytes>(
    alloc: Global,
    ueb: &Ueb,
    bytes: &mut B,
    position: usize,
    number: u16,
) -> Result<Option<BlockTree>, AllocError>
    requires { number < ueb.now.total_shares }
    ensures root { IfOk result (λ found. IfSome found (λ tree.
        KnowsRoot B.gives ueb.now position number bytes.old tree bytes.new)) }
    ensures none { IfOk result (λ found. IfNone found
        (AreNoHashes B.gives B.fails ueb.now position number bytes.old bytes.new)) }
    ensures reads { WasRead B.gives B.fails bytes.old bytes.new }
{
    let geometry = geometry_of(ueb);
    let offsets = Offsets::of(&geometry);
    let size = geometry.hashes_size() as usize;
    let Some(hashes) = read_bytes(alloc, bytes, position, offsets.share_hashes, size)? else {
        return Ok(None);
    };
    let mut trees = FileTrees::new(alloc, ueb, &geometry)?;
    match trees.take_share_hashes(alloc, number, &hashes) {
        Ok(tree) => Ok(Some(tree)),
        Err(TreeFault::Check(_)) => Ok(None),
        Err(TreeFault::OutOfMemory) => Err(AllocError),
    }
}

// Whether the tree over these leaves has the root that is known.
fn has_root(alloc: Global, tree: &mut BlockTree, leaves: &[[u8; 32]]) -> Result<bool, AllocError>
    requires some { 0 < length leaves.now }
    requires few { length leaves.now ≤ max_leaves }
    requires tree { tree.old ≡ starting tree.old.root (length leaves.now) }
    ensures yes { IfOk result (λ has. IsTrue has → tree_root leaves.now ≡ tree.old.root) }
    ensures no { IfOk result (λ has. has ≡ false → tree_root leaves.now ≢ tree.old.root) }
{
    let root = Tree::build(alloc, leaves)?.root();
    let node = Nodes {
        row: 0,
        from: 0,
        count: 1,
    };
    match tree.take_nodes(alloc, &node, &root) {
        Ok(()) => Ok(true),
        Err(TreeFault::Check(_)) => Ok(false),
        Err(TreeFault::OutOfMemory) => Err(AllocError),
    }
}
