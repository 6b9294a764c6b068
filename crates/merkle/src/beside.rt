//! A tree that is built beside another over as many leaves.

ghost use Rattle.std.specs.Prelude.{◌≡◌, ◌+◌, ◌*◌, ◌<◌, ◌≤◌, ◌⊎◌, ℕ, [], length, slice_index_or};
ghost use Rattle.merkle.specs.Nodes.{HasPadding};
ghost use Rattle.merkle.specs.Tree.{max_leaves, node_count, tree_nodes};
ghost use Rattle.tagged_hash.specs.TaggedHash.{node_hash};

use crate::numbers::height;
use crate::padding::own_end;
use crate::tree::fill_eight;
use tagged_hash::pair;

/// Fills all nodes of a tree that have leaves below them. The nodes over empty leaves alone stand
/// there.
pub(crate) fn fill_beside(nodes: &mut [[u8; 32]], leaves: &[[u8; 32]])
    requires some { 0 < length leaves.now }
    requires few { length leaves.now ≤ max_leaves }
    requires nodes { length nodes.old ≡ node_count (length leaves.now) }
    requires padding { HasPadding (length leaves.now) nodes.old }
    ensures { nodes.new ≡ tree_nodes leaves.now }
{
    let leaf_count = leaves.len() as u32;
    let mut row = height(leaf_count);
    put_leaves(nodes, (1 << row) - 1, leaves);
    while row > 0 {
        row -= 1;
        fill_between(nodes, (1 << row) - 1, own_end(leaf_count, row));
    }
}

// Writes leaves from this position on.
fn put_leaves(nodes: &mut [[u8; 32]], first: usize, leaves: &[[u8; 32]])
    requires { first + length leaves.now ≤ length nodes.old }
    ensures long { length nodes.new ≡ length nodes.old }
    ensures made { (k : ℕ) → k < length leaves.now
        → slice_index_or nodes.new (first + k) [] ≡ slice_index_or leaves.now k [] }
    ensures others { (k : ℕ) → (k < first) ⊎ (first + length leaves.now ≤ k)
        → slice_index_or nodes.new k [] ≡ slice_index_or nodes.old k [] }
{
    nodes[first..first + leaves.len()].copy_from_slice(leaves);
}

// Fills the nodes from one on and before another. Their children stand behind them.
fn fill_between(nodes: &mut [[u8; 32]], first: usize, end: usize)
    requires order { first ≤ end }
    requires behind { end ≤ 2 * first + 1 }
    requires inside { 2 * end < length nodes.old }
    ensures long { length nodes.new ≡ length nodes.old }
    ensures made { (k : ℕ) → first ≤ k → k < end → slice_index_or nodes.new k [] ≡ node_hash
        (slice_index_or nodes.old (2 * k + 1) []) (slice_index_or nodes.old (2 * k + 2) []) }
    ensures others { (k : ℕ) → (k < first) ⊎ (end ≤ k)
        → slice_index_or nodes.new k [] ≡ slice_index_or nodes.old k [] }
{
    let mut i = first;
    'groups: while end - i >= 8 {
        fill_eight(nodes, i);
        i += 8;
    }
    while i < end {
        let node = pair(&nodes[2 * i + 1], &nodes[2 * i + 2]);
        nodes[i] = node;
        i += 1;
    }
}
