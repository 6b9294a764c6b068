//! Trees that keep all their nodes.

ghost use Rattle.std.specs.Prelude.{◌≡◌, ◌+◌, ◌-◌, ◌*◌, ◌^◌, ◌<◌, ◌≤◌, ℕ, List, [], length};
ghost use Rattle.std.specs.Prelude.{map, slice_index_or, IfOk};
ghost use Rattle.std.specs.List.{range_with_len};
ghost use Rattle.merkle.specs.Path.{LeadsBy, siblings_of};
ghost use Rattle.merkle.specs.Tree.{height, leaves_among, max_leaves, needed_numbers, padded_to};
ghost use Rattle.merkle.specs.Tree.{sibling_number, tree_nodes, tree_root};
ghost use Rattle.tagged_hash.specs.TaggedHash.{empty_leaf_hash, node_hash};

use crate::beside::fill_beside;
use crate::numbers::{height, needed_number, sibling_number};
use crate::rows::{empty_leaves_from, parents_from};
use std::alloc::{AllocError, Global};
use std::marker::Model;
use tagged_hash::{empty_leaf, pair};

/// A hash tree with all its nodes, which contracts see as the list of its leaves.
#[derive(Drop)]
pub struct Tree {
    // Row by row from the root.
    nodes: Vec<[u8; 32]>,
    leaf_count: u32,
}

impl Model for Tree {
    ghost Value = { List (List ℕ) };

    ghost view = { λ t. leaves_among t.nodes.items t.leaf_count };

    ghost invariant = { λ t. (0 < t.leaf_count) × (t.leaf_count ≤ max_leaves)
        × (length (leaves_among t.nodes.items t.leaf_count) ≡ t.leaf_count)
        × (t.nodes.items ≡ tree_nodes (leaves_among t.nodes.items t.leaf_count)) };
}

impl Tree {
    /// The tree over `leaves`, which are 1 to 2^20. It takes 32 bytes a node: less than 128 a leaf.
    pub fn build(alloc: Global, leaves: &[[u8; 32]]) -> Result<Tree, AllocError>
        requires some { 0 < length leaves.now }
        requires few { length leaves.now ≤ max_leaves }
        ensures { IfOk result (λ tree. tree ≡ leaves.now) }
    {
        let leaf_count = leaves.len() as u32;
        let width = 1usize << height(leaf_count);
        let mut nodes = vec![in alloc; [0u8; 32]; 2 * width - 1]?;
        fill(&mut nodes, leaves, width);
        Ok(Tree { nodes, leaf_count })
    }

    /// The tree over `leaves`, as `build` gives it. Where this tree has as many, its nodes over
    /// empty leaves alone are copied, and only the others are hashed.
    pub fn build_beside(&self, alloc: Global, leaves: &[[u8; 32]]) -> Result<Tree, AllocError>
        requires some { 0 < length leaves.now }
        requires few { length leaves.now ≤ max_leaves }
        ensures { IfOk result (λ tree. tree ≡ leaves.now) }
    {
        if leaves.len() == self.leaf_count as usize {
            self.build_as_many(alloc, leaves)
        } else {
            Tree::build(alloc, leaves)
        }
    }

    // The tree over as many leaves as this one has.
    fn build_as_many(&self, alloc: Global, leaves: &[[u8; 32]]) -> Result<Tree, AllocError>
        requires { length leaves.now ≡ length self.now }
        ensures { IfOk result (λ tree. tree ≡ leaves.now) }
    {
        let leaf_count = self.leaf_count;
        let mut nodes = Vec::from_slice(alloc, &self.nodes)?;
        fill_beside(&mut nodes, leaves);
        Ok(Tree { nodes, leaf_count })
    }

    /// The root, which is the first node.
    pub fn root(&self) -> [u8; 32]
        ensures { result ≡ tree_root self.now }
    {
        self.nodes[0]
    }

    /// All nodes, row by row from the root.
    pub fn nodes(&self) -> &[[u8; 32]]
        ensures { result.now ≡ tree_nodes self.now }
    {
        self.nodes.as_slice()
    }

    /// The numbers of the nodes that lead from a leaf to the root, rising: the leaf, its sibling
    /// and those of the nodes above it, without the root unless it is the leaf. There is such a
    /// leaf.
    pub fn needed(&self, alloc: Global, leaf: u32) -> Result<Vec<u32>, AllocError>
        requires { leaf < length self.now }
        ensures { IfOk result (λ numbers.
            numbers.items ≡ needed_numbers (height (length self.now)) leaf) }
    {
        needed_in(alloc, height(self.leaf_count), leaf)
    }

    /// The siblings of a leaf and of the nodes above it, from the leaf upward, as `check_path`
    /// takes them. There is such a leaf.
    pub fn path(&self, alloc: Global, leaf: u32) -> Result<Vec<[u8; 32]>, AllocError>
        requires { leaf < length self.now }
        ensures siblings { IfOk result (λ siblings. siblings.items ≡ siblings_of self.now leaf) }
        ensures leads { IfOk result (λ siblings. LeadsBy (length self.now) (tree_root self.now) leaf
            (slice_index_or self.now leaf []) siblings.items) }
    {
        let height = height(self.leaf_count);
        siblings_in(alloc, &self.nodes, height, leaf)
    }
}

// Fills all nodes of a tree with `width` positions for leaves.
pub(crate) fn fill(nodes: &mut [[u8; 32]], leaves: &[[u8; 32]], width: usize)
    requires wide { width ≤ max_leaves }
    requires power { width ≡ 2 ^ height (length leaves.now) }
    requires room { length leaves.now ≤ width }
    requires nodes { length nodes.old ≡ 2 * width - 1 }
    ensures { nodes.new ≡ tree_nodes leaves.now }
{
    pad(&mut nodes[width - 1..], leaves);
    let mut i = width - 1;
    // The children of eight nodes stand behind them from node 7 on.
    'rows: while i >= 15 {
        i -= 8;
        fill_eight(nodes, i);
    }
    while i > 0 {
        i -= 1;
        let node = pair(&nodes[2 * i + 1], &nodes[2 * i + 2]);
        nodes[i] = node;
    }
}

// Fills eight nodes from this one on. Their children stand behind them.
pub(crate) fn fill_eight(nodes: &mut [[u8; 32]], first: usize)
    requires behind { 7 ≤ first }
    requires inside { 2 * first + 17 ≤ length nodes.old }
    ensures long { length nodes.new ≡ length nodes.old }
    ensures made { (k : ℕ) → first ≤ k → k < first + 8 → slice_index_or nodes.new k [] ≡ node_hash
        (slice_index_or nodes.old (2 * k + 1) []) (slice_index_or nodes.old (2 * k + 2) []) }
    ensures before { (k : ℕ) → k < first
        → slice_index_or nodes.new k [] ≡ slice_index_or nodes.old k [] }
    ensures others { (k : ℕ) → first + 8 ≤ k
        → slice_index_or nodes.new k [] ≡ slice_index_or nodes.old k [] }
{
    let parents = parents_from(nodes, first);
    nodes[first..first + 8].copy_from_slice(&parents);
}

// Writes the leaves and, after them, the empty leaves of their positions.
fn pad(row: &mut [[u8; 32]], leaves: &[[u8; 32]])
    requires room { length leaves.now ≤ length row.old }
    requires few { length row.old < 2 ^ 32 }
    ensures { row.new ≡ padded_to (length row.old) leaves.now }
{
    let mut at = 0;
    while at < row.len() {
        if at >= leaves.len() && row.len() - at >= 8 {
            put_eight(row, at);
            at += 8;
        } else {
            put_leaf(row, leaves, at);
            at += 1;
        }
    }
}

// Writes eight empty leaves from this position on.
fn put_eight(row: &mut [[u8; 32]], at: usize)
    requires inside { at + 8 ≤ length row.old }
    requires few { length row.old < 2 ^ 32 }
    ensures long { length row.new ≡ length row.old }
    ensures made { (k : ℕ) → at ≤ k → k < at + 8
        → slice_index_or row.new k [] ≡ empty_leaf_hash k }
    ensures before { (k : ℕ) → k < at → slice_index_or row.new k [] ≡ slice_index_or row.old k [] }
{
    let eight = empty_leaves_from(at as u32);
    row[at..at + 8].copy_from_slice(&eight);
}

// Writes the leaf of this position, which may be an empty one.
fn put_leaf(row: &mut [[u8; 32]], leaves: &[[u8; 32]], at: usize)
    requires inside { at < length row.old }
    requires few { length row.old < 2 ^ 32 }
    requires room { length leaves.now ≤ length row.old }
    ensures long { length row.new ≡ length row.old }
    ensures made { slice_index_or row.new at []
        ≡ slice_index_or (padded_to (length row.old) leaves.now) at [] }
    ensures before { (k : ℕ) → k < at → slice_index_or row.new k [] ≡ slice_index_or row.old k [] }
{
    let leaf = if at < leaves.len() {
        leaves[at]
    } else {
        empty_leaf(at as u32)
    };
    row[at] = leaf;
}

// The numbers of the nodes that lead from a leaf to the root of a tree of this height.
pub(crate) fn needed_in(alloc: Global, height: u32, leaf: u32) -> Result<Vec<u32>, AllocError>
    requires low { height ≤ 20 }
    requires inside { leaf < 2 ^ height }
    ensures { IfOk result (λ numbers. numbers.items ≡ needed_numbers height leaf) }
{
    let mut numbers = Vec::with_capacity(alloc, height as usize + 1)?;
    for position in 0..height + 1 {
        numbers.push(needed_number(height, leaf, position))?;
    }
    Ok(numbers)
}

// The siblings of a leaf and of the nodes above it, from the leaf upward, among the nodes of a tree
// of this height.
fn siblings_in(
    alloc: Global,
    nodes: &[[u8; 32]],
    height: u32,
    leaf: u32,
) -> Result<Vec<[u8; 32]>, AllocError>
    requires low { height ≤ 20 }
    requires inside { leaf < 2 ^ height }
    requires nodes { length nodes.now + 1 ≡ 2 ^ (height + 1) }
    ensures { IfOk result (λ siblings. siblings.items ≡ map (λ i. slice_index_or nodes.now
        (sibling_number height leaf i) []) (range_with_len 0 height)) }
{
    let mut siblings = Vec::with_capacity(alloc, height as usize)?;
    for i in 0..height {
        let number = sibling_number(height, leaf, i);
        siblings.push(nodes[number as usize])?;
    }
    Ok(siblings)
}
