// Pieces of shares, taken into trees.

ghost use Rattle.std.specs.Prelude.{◌≡◌, ◌+◌, ◌*◌, ◌^◌, ◌≤◌, IfOk};
ghost use Rattle.share_layout.specs.Geometry.{segment_count};
ghost use Rattle.download_parts.specs.Plan.{IsNodePiece};

use download_parts::{BlockTree, FileTrees, NodePiece, Nodes, Part, Plan, Read, TreeFault};
use share_layout::Geometry;
use std::alloc::Global;

/// The bytes of a read; none, where the share ends before.
pub(crate) fn part_of(share: &[u8], read: Read) -> &[u8] {
    let end = read.offset.saturating_add(u64::from(read.length));
    share.get(read.offset as usize..end as usize).unwrap_or(&[])
}

/// Takes share hashes. Those of another length, and of a share that is none of the file's, are out
/// of memory.
pub(crate) fn take_hashes(
    alloc: Global,
    trees: &mut FileTrees,
    geometry: &Geometry,
    share: u16,
    bytes: &[u8],
) -> Result<BlockTree, TreeFault>
    requires same { trees.old.geometry ≡ geometry.now }
    ensures same { trees.new.geometry ≡ geometry.now }
    ensures count { IfOk result (λ tree. tree.leaf_count ≡ segment_count geometry.now) }
{
    if share >= geometry.total() || bytes.len() != geometry.hashes_size() as usize {
        return Err(TreeFault::OutOfMemory);
    }
    trees.take_share_hashes(alloc, share, bytes)
}

/// Takes nodes of a block tree. Those of another length are out of memory.
pub(crate) fn take_block_nodes(
    alloc: Global,
    tree: &mut BlockTree,
    nodes: &Nodes,
    bytes: &[u8],
) -> Result<(), TreeFault>
    requires low { nodes.now.row ≤ 20 }
    requires inside { nodes.now.from + nodes.now.count ≤ 2 ^ nodes.now.row }
    ensures count { tree.new.leaf_count ≡ tree.old.leaf_count }
{
    if bytes.len() as u64 != 32 * u64::from(nodes.count) {
        return Err(TreeFault::OutOfMemory);
    }
    tree.take_nodes(alloc, nodes, bytes)
}

/// Takes nodes of a ciphertext tree. Those of another length are out of memory.
pub(crate) fn take_ciphertext_nodes(
    alloc: Global,
    trees: &mut FileTrees,
    nodes: &Nodes,
    bytes: &[u8],
) -> Result<(), TreeFault>
    requires low { nodes.now.row ≤ 20 }
    requires inside { nodes.now.from + nodes.now.count ≤ 2 ^ nodes.now.row }
    ensures same { trees.new.geometry ≡ trees.old.geometry }
{
    if bytes.len() as u64 != 32 * u64::from(nodes.count) {
        return Err(TreeFault::OutOfMemory);
    }
    trees.take_nodes(alloc, nodes, bytes)
}

/// Takes a piece of both trees of a share.
pub(crate) fn take_piece(
    alloc: Global,
    trees: &mut FileTrees,
    tree: &mut BlockTree,
    plan: &Plan,
    piece: &NodePiece,
    share: &[u8],
) -> Result<(), TreeFault>
    requires { IsNodePiece plan.now.geometry plan.now.first plan.now.end piece.now }
    ensures same { trees.new.geometry ≡ trees.old.geometry }
    ensures count { tree.new.leaf_count ≡ tree.old.leaf_count }
{
    let nodes = plan.nodes(piece);
    let block = part_of(share, plan.read(&Part::BlockTree(*piece)));
    take_block_nodes(alloc, tree, &nodes, block)?;
    let ciphertext = part_of(share, plan.read(&Part::CiphertextTree(*piece)));
    take_ciphertext_nodes(alloc, trees, &nodes, ciphertext)
}

/// Takes all pieces of both trees of a share, upper levels first.
pub(crate) fn take_pieces(
    alloc: Global,
    trees: &mut FileTrees,
    tree: &mut BlockTree,
    plan: &Plan,
    share: &[u8],
) -> Result<(), TreeFault>
    ensures same { trees.new.geometry ≡ trees.old.geometry }
    ensures count { tree.new.leaf_count ≡ tree.old.leaf_count }
{
    for level in 0..plan.level_count() {
        for index in 0..plan.piece_count(level) {
            take_piece(alloc, trees, tree, plan, &NodePiece { level, index }, share)?;
        }
    }
    Ok(())
}
