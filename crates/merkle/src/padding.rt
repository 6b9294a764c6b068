//! The nodes of a tree that have empty leaves alone below them.

ghost use Rattle.std.specs.Prelude.{◌≡◌, ◌+◌, ◌-◌, ◌^◌, ◌<◌, ◌≤◌, ℕ, [], IfSome};
ghost use Rattle.merkle.specs.Nodes.{own_end};
ghost use Rattle.merkle.specs.Partial.{is_padding, padding};
ghost use Rattle.merkle.specs.Taking.{empty_leaves, empty_node};
ghost use Rattle.merkle.specs.Tree.{height, max_leaves, node, padded_to, tree_root};

use crate::numbers::height;
use crate::rows::empty_leaves_from;
use crate::tree::fill;
use std::marker::Model;
use tagged_hash::{empty_leaf, pair};

// The most rows of a tree.
const MAX_ROWS: usize = 21;

// So many empty leaves below one node are hashed eight side by side, and so are the nodes above
// them, of which they have so many rows.
const RUN: u32 = 128;

const RUN_ROWS: u32 = 7;

/// The nodes over empty leaves alone, which are the same in all trees of so many leaves. Contracts
/// see how many.
///
/// It keeps those that stand beside the way from the last leaf to the root, one a row at most:
/// others are not wanted where the nodes above leaves are offered.
#[derive(Drop)]
pub struct Padding {
    leaf_count: u32,
    // Each by how many rows it is above the leaves.
    beside: [Option<[u8; 32]>; MAX_ROWS],
}

impl Model for Padding {
    ghost use Rattle.std.specs.Prelude.{◌<◌, ◌≤◌, ℕ};
    ghost use Rattle.merkle.specs.Taking.{AreBeside};
    ghost use Rattle.merkle.specs.Tree.{max_leaves};

    ghost Value = { ℕ };

    ghost view = { λ p. p.leaf_count };

    ghost invariant = { λ p. (0 < p.leaf_count) × (p.leaf_count ≤ max_leaves)
        × AreBeside p.leaf_count p.beside };
}

impl Padding {
    /// The padding of trees of so many leaves, which are 1 to 2^20. Each empty leaf is hashed once,
    /// and so is each node above them, most of them eight side by side.
    pub fn of(leaf_count: u32) -> Padding
        requires some { 0 < leaf_count }
        requires few { leaf_count ≤ max_leaves }
        ensures { result ≡ leaf_count }
    {
        let height = height(leaf_count);
        let mut beside = [None; MAX_ROWS];
        for i in 0..height {
            let last = (leaf_count - 1) >> i;
            if last % 2 == 0 {
                beside[i as usize] = Some(padding_node(height, height - i, last + 1));
            }
        }
        Padding { leaf_count, beside }
    }

    /// The same padding once more.
    pub(crate) fn copy(&self) -> Padding
        ensures same { result ≡ self.now }
        ensures some { 0 < result }
        ensures few { result ≤ max_leaves }
    {
        Padding {
            leaf_count: self.leaf_count,
            beside: self.beside,
        }
    }

    /// The height of the trees.
    pub(crate) fn height(&self) -> u32
        ensures value { result ≡ height self.now }
        ensures low { result ≤ 20 }
        ensures room { self.now ≤ 2 ^ result }
        ensures least { (k : ℕ) → k < result → 2 ^ k < self.now }
    {
        height(self.leaf_count)
    }

    /// Whether all leaves below the node of this number are empty leaves.
    pub(crate) fn has(&self, number: u32) -> bool
        ensures { result ≡ is_padding self.now number }
    {
        is_padding(self.leaf_count, number)
    }

    /// The node of this number, where all leaves below it are empty leaves.
    pub(crate) fn node(&self, number: u32) -> Option<[u8; 32]>
        ensures { result ≡ padding self.now number }
    {
        if !is_padding(self.leaf_count, number) {
            return None;
        }
        let height = height(self.leaf_count);
        let row = crate::numbers::height(number + 2) - 1;
        let position = number + 1 - (1 << row);
        match self.kept(height - row, position) {
            Some(hash) => Some(hash),
            None => Some(padding_node(height, row, position)),
        }
    }

    // The node so many rows above the leaves at this position, where it is kept.
    fn kept(&self, rows: u32, position: u32) -> Option<[u8; 32]>
        requires { rows ≤ 20 }
        ensures { IfSome result (λ hash.
            hash ≡ empty_node self.now (height self.now - rows) position) }
    {
        if position == ((self.leaf_count - 1) >> rows) + 1 {
            self.beside[rows as usize]
        } else {
            None
        }
    }
}

/// The number behind the last node of a row that has a leaf below it, in a tree of so many leaves:
/// all nodes from there on to the end of the row are over empty leaves alone.
pub(crate) fn own_end(leaf_count: u32, row: u32) -> usize
    requires some { 0 < leaf_count }
    requires few { leaf_count ≤ max_leaves }
    requires row { row ≤ height leaf_count }
    ensures value { result ≡ own_end leaf_count row }
    ensures inside { result < 2 ^ row + 2 ^ row }
{
    let last = (leaf_count - 1) >> (height(leaf_count) - row);
    (1usize << row) + last as usize
}

// Whether all leaves below the node of this number are empty leaves.
fn is_padding(leaf_count: u32, number: u32) -> bool
    requires few { leaf_count ≤ max_leaves }
    ensures { result ≡ is_padding leaf_count number }
{
    let height = height(leaf_count);
    if number >= (1 << (height + 1)) - 1 {
        return false;
    }
    let row = crate::numbers::height(number + 2) - 1;
    let position = number + 1 - (1 << row);
    position << (height - row) >= leaf_count
}

// The node at a position of a row of a tree of this height that has empty leaves alone.
fn padding_node(height: u32, row: u32, position: u32) -> [u8; 32]
    requires low { height ≤ 20 }
    requires inside { row ≤ height }
    requires there { position < 2 ^ row }
    ensures { result ≡ node height (padded_to (2 ^ height) []) row position }
{
    if row == height {
        return empty_leaf(position);
    }
    if row + RUN_ROWS == height {
        return node_over_run(RUN * position);
    }
    let left = padding_node(height, row + 1, 2 * position);
    let right = padding_node(height, row + 1, 2 * position + 1);
    pair(&left, &right)
}

// The node over the 128 empty leaves from this one on.
fn node_over_run(first: u32) -> [u8; 32]
    requires { first + 128 ≤ 2 ^ 20 }
    ensures { result ≡ tree_root (empty_leaves first 128) }
{
    let leaves = empty_run(first);
    let mut nodes = [[0; 32]; 2 * RUN as usize - 1];
    fill(&mut nodes, &leaves, RUN as usize);
    nodes[0]
}

// The 128 empty leaves from this one on.
fn empty_run(first: u32) -> [[u8; 32]; RUN as usize]
    requires { first + 128 ≤ 2 ^ 20 }
    ensures { result ≡ empty_leaves first 128 }
{
    let mut leaves = [[0; 32]; RUN as usize];
    for group in 0..leaves.len() / 8 {
        let eight = empty_leaves_from(first + 8 * group as u32);
        leaves[8 * group..8 * group + 8].copy_from_slice(&eight);
    }
    leaves
}
