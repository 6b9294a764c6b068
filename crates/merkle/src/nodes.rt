//! Whether hashes are the nodes of a tree.

ghost use Rattle.std.specs.Prelude.{◌≡◌, ◌+◌, ◌*◌, ◌%◌, ◌^◌, ◌<◌, ◌≤◌, ◌↔◌, ℕ, IsTrue, [], length};
ghost use Rattle.std.specs.Prelude.{slice_index_or};
ghost use Rattle.merkle.specs.Nodes.{ArePairs, AreTreeNodes, HasPadding, IsPadded, IsPair};
ghost use Rattle.merkle.specs.Tree.{max_leaves, node_count};
ghost use Rattle.tagged_hash.specs.TaggedHash.{empty_leaf_hash, node_hash};

use crate::numbers::height;
use crate::padding::own_end;
use crate::rows::{empty_leaves_from, parents_from};
use tagged_hash::{empty_leaf, pair};

/// Whether hashes are all nodes of a tree, row by row from the root, whose leaves are the first
/// `leaf_count` of the last row: each inner node the hash of its children, and the positions after
/// the leaves padded. There are as many hashes as such a tree has nodes, and at most 2^20 leaves.
/// It takes no memory.
pub fn are_tree_nodes(nodes: &[[u8; 32]], leaf_count: u32) -> bool
    requires few { leaf_count ≤ max_leaves }
    requires nodes { length nodes.now ≡ node_count leaf_count }
    ensures { IsTrue result ↔ AreTreeNodes leaf_count nodes.now }
{
    are_pairs(nodes) && is_padded(&nodes[nodes.len() / 2..], leaf_count as usize)
}

/// Whether hashes are all nodes of a tree, as `are_tree_nodes` asks, where `beside` are all nodes
/// of a tree over as many leaves, at least one. Both have the same nodes over empty leaves alone:
/// these are compared, and only the others are hashed. It takes no memory.
pub fn are_tree_nodes_beside(nodes: &[[u8; 32]], leaf_count: u32, beside: &[[u8; 32]]) -> bool
    requires some { 0 < leaf_count }
    requires few { leaf_count ≤ max_leaves }
    requires nodes { length nodes.now ≡ node_count leaf_count }
    requires as_many { length beside.now ≡ node_count leaf_count }
    requires beside { AreTreeNodes leaf_count beside.now }
    ensures { IsTrue result ↔ AreTreeNodes leaf_count nodes.now }
{
    has_padding(nodes, leaf_count, beside) && are_own_pairs(nodes, leaf_count)
}

// Whether the nodes over empty leaves alone are those of another tree over as many leaves.
fn has_padding(nodes: &[[u8; 32]], leaf_count: u32, beside: &[[u8; 32]]) -> bool
    requires some { 0 < leaf_count }
    requires few { leaf_count ≤ max_leaves }
    requires nodes { length nodes.now ≡ node_count leaf_count }
    requires as_many { length beside.now ≡ node_count leaf_count }
    requires padding { HasPadding leaf_count beside.now }
    ensures { IsTrue result ↔ HasPadding leaf_count nodes.now }
{
    for row in 0..height(leaf_count) + 1 {
        if !are_same(
            nodes,
            beside,
            own_end(leaf_count, row),
            (1 << (row + 1)) - 1,
        ) {
            return false;
        }
    }
    true
}

// Whether two lists of hashes have the same from one position on and before another.
fn are_same(left: &[[u8; 32]], right: &[[u8; 32]], first: usize, end: usize) -> bool
    requires left { end ≤ length left.now }
    requires right { end ≤ length right.now }
    ensures { IsTrue result ↔ ((i : ℕ) → first ≤ i → i < end
        → slice_index_or left.now i [] ≡ slice_index_or right.now i []) }
{
    for i in first..end {
        if left[i] != right[i] {
            return false;
        }
    }
    true
}

// Whether each node that has children is the hash of the two, where the nodes over empty leaves
// alone are right: only the others are hashed.
fn are_own_pairs(nodes: &[[u8; 32]], leaf_count: u32) -> bool
    requires some { 0 < leaf_count }
    requires few { leaf_count ≤ max_leaves }
    requires nodes { length nodes.now ≡ node_count leaf_count }
    requires padding { HasPadding leaf_count nodes.now }
    ensures { IsTrue result ↔ ArePairs nodes.now }
{
    for row in 0..height(leaf_count) {
        if !are_pairs_between(nodes, (1 << row) - 1, own_end(leaf_count, row)) {
            return false;
        }
    }
    true
}

// Whether each node that has children is the hash of the two.
fn are_pairs(nodes: &[[u8; 32]]) -> bool
    requires { length nodes.now % 2 ≡ 1 }
    ensures { IsTrue result ↔ ArePairs nodes.now }
{
    are_pairs_between(nodes, 0, nodes.len() / 2)
}

// Whether each node from one on and before another is the hash of its two children.
fn are_pairs_between(nodes: &[[u8; 32]], first: usize, end: usize) -> bool
    requires order { first ≤ end }
    requires inside { 2 * end < length nodes.now }
    ensures { IsTrue result ↔ ((i : ℕ) → first ≤ i → i < end → IsPair nodes.now i) }
{
    let groups = (end - first) / 8;
    for group in 0..groups {
        if !are_eight_pairs(nodes, first + 8 * group) {
            return false;
        }
    }
    for i in first + 8 * groups..end {
        if !is_pair(&nodes[i], &nodes[2 * i + 1], &nodes[2 * i + 2]) {
            return false;
        }
    }
    true
}

// Whether each of eight nodes from this one on is the hash of its two children.
fn are_eight_pairs(nodes: &[[u8; 32]], first: usize) -> bool
    requires { 2 * first + 17 ≤ length nodes.now }
    ensures { IsTrue result ↔ ((i : ℕ) → first ≤ i → i < first + 8 → IsPair nodes.now i) }
{
    let parents = parents_from(nodes, first);
    for k in 0..8 {
        if nodes[first + k] != parents[k] {
            return false;
        }
    }
    true
}

// Whether a node is the hash of these two.
fn is_pair(node: &[u8; 32], left: &[u8; 32], right: &[u8; 32]) -> bool
    ensures { IsTrue result ↔ (node.now ≡ node_hash left.now right.now) }
{
    *node == pair(left, right)
}

// Whether a row goes on with empty leaves after its first ones.
fn is_padded(row: &[[u8; 32]], leaf_count: usize) -> bool
    requires { length row.now < 2 ^ 32 }
    ensures { IsTrue result ↔ IsPadded leaf_count row.now }
{
    let groups = row.len().saturating_sub(leaf_count) / 8;
    for group in 0..groups {
        if !are_eight_empty(row, leaf_count + 8 * group) {
            return false;
        }
    }
    for position in leaf_count + 8 * groups..row.len() {
        if !is_empty_leaf(&row[position], position as u32) {
            return false;
        }
    }
    true
}

// Whether each of eight leaves from this one on is the empty leaf of its position.
fn are_eight_empty(row: &[[u8; 32]], first: usize) -> bool
    requires inside { first + 8 ≤ length row.now }
    requires few { length row.now < 2 ^ 32 }
    ensures { IsTrue result ↔ ((i : ℕ) → first ≤ i → i < first + 8
        → slice_index_or row.now i [] ≡ empty_leaf_hash i) }
{
    let eight = empty_leaves_from(first as u32);
    for k in 0..8 {
        if row[first + k] != eight[k] {
            return false;
        }
    }
    true
}

// Whether a leaf is the empty leaf of this position.
fn is_empty_leaf(leaf: &[u8; 32], position: u32) -> bool
    ensures { IsTrue result ↔ (leaf.now ≡ empty_leaf_hash position) }
{
    *leaf == empty_leaf(position)
}
