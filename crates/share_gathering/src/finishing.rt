//! What follows from the leaves that a pass over a file gathered: trees, and the hashes of these
//! that shares carry.

ghost use Rattle.std.specs.Prelude.{◌≡◌, ◌*◌, ◌<◌, ◌≤◌, ◌^◌, length, map, All, take, IfOk};
ghost use Rattle.std.specs.List.{range_with_len};
ghost use Rattle.merkle.specs.Tree.{height, needed_numbers, tree_root};
ghost use Rattle.share_layout.specs.Layout.{spelled};
ghost use Rattle.file_encoding.specs.Blocks.{numbered};
ghost use Rattle.file_encoding.specs.Encoding.{share_hashes};
ghost use Rattle.share_gathering.specs.Finishing.{HaveLeaves, hashes_length};

use crate::shares::ShareSoFar;
use merkle::Tree;
use share_layout::Layout;
use std::alloc::{AllocError, Global};

/// What the shares of a file hold behind their blocks, beside the tree that is no longer used.
#[derive(Drop)]
pub struct Behind {
    pub ciphertext_tree: Tree,
    pub block_trees: Vec<Tree>,
    pub share_hashes: Vec<Vec<u8>>,
    pub extension_block: Vec<u8>,
}

/// What is kept of a file beside its key: what its shares hold behind their blocks, and their
/// digests.
#[derive(Drop)]
pub struct Finished {
    pub behind: Behind,
    pub digests: Vec<[u8; 32]>,
}

/// The trees of a file: over its segments, over the blocks of each share, and over the roots of
/// these.
#[derive(Drop)]
pub struct Trees {
    pub ciphertext: Tree,
    pub blocks: Vec<Tree>,
    pub shares: Tree,
}

// The trees over the leaves of the shares, each beside another tree of the file. The leaves are let
// go as each tree is made.
fn build_block_trees(
    alloc: Global,
    beside: &Tree,
    shares: Vec<ShareSoFar>,
) -> Result<Vec<Tree>, AllocError>
    requires { All (λ share. HaveLeaves share.leaves.items) shares.items }
    ensures { IfOk result
        (λ trees. trees.items ≡ map (λ share. share.leaves.items) shares.items) }
{
    let mut trees = Vec::with_capacity(alloc, shares.len())?;
    for share in shares {
        trees.push(beside.build_beside(alloc, &share.leaves)?)?;
    }
    Ok(trees)
}

// The tree over the roots of trees.
fn build_share_tree(alloc: Global, block_trees: &[Tree]) -> Result<Tree, AllocError>
    requires some { 0 < length block_trees.now }
    requires few { length block_trees.now ≤ 256 }
    ensures { IfOk result (λ tree. tree ≡ map tree_root block_trees.now) }
{
    let mut roots = Vec::with_capacity(alloc, block_trees.len())?;
    for tree in block_trees {
        roots.push(tree.root())?;
    }
    Tree::build(alloc, &roots)
}

/// The trees over the leaves of a file's segments and of its shares.
pub fn build_trees(
    alloc: Global,
    leaves: &[[u8; 32]],
    shares: Vec<ShareSoFar>,
) -> Result<Trees, AllocError>
    requires leaves { HaveLeaves leaves.now }
    requires all { All (λ share. HaveLeaves share.leaves.items) shares.items }
    requires some { 0 < length shares.items }
    requires few { length shares.items ≤ 256 }
    ensures ciphertext { IfOk result (λ trees. trees.ciphertext ≡ leaves.now) }
    ensures blocks { IfOk result
        (λ trees. trees.blocks.items ≡ map (λ share. share.leaves.items) shares.items) }
    ensures shares { IfOk result (λ trees. trees.shares ≡ map tree_root trees.blocks.items) }
{
    let ciphertext = Tree::build(alloc, leaves)?;
    let blocks = build_block_trees(alloc, &ciphertext, shares)?;
    let shares = build_share_tree(alloc, &blocks)?;
    Ok(Trees {
        ciphertext,
        blocks,
        shares,
    })
}

// The numbers of the nodes that lead from a leaf to the root.
fn needed_nodes(alloc: Global, tree: &Tree, leaf: u16) -> Result<Vec<u32>, AllocError>
    requires { leaf < length tree.now }
    ensures numbers { IfOk result (λ numbers. numbers.items ≡ needed_numbers
        (height (length tree.now)) leaf) }
{
    tree.needed(alloc, u32::from(leaf))
}

// The nodes of these numbers, each behind its number in two bytes.
fn write_numbered(alloc: Global, nodes: &[[u8; 32]], numbers: &[u32]) -> Result<Vec<u8>, AllocError>
    requires inside { All (λ n. n < length nodes.now) numbers.now }
    requires few { length nodes.now ≤ 2 ^ 16 }
    ensures value { IfOk result (λ bytes. bytes.items ≡ numbered nodes.now numbers.now) }
    ensures long { IfOk result (λ bytes. length bytes.items ≡ 34 * length numbers.now) }
{
    let mut bytes = Vec::new(alloc);
    for number in numbers {
        bytes.extend_from_slice(&(*number as u16).to_be_bytes())?;
        bytes.extend_from_slice(&nodes[*number as usize])?;
    }
    Ok(bytes)
}

// The hashes that a share carries of the share tree.
fn write_share_hashes(alloc: Global, tree: &Tree, share: u16) -> Result<Vec<u8>, AllocError>
    requires there { share < length tree.now }
    requires few { length tree.now ≤ 256 }
    ensures value { IfOk result (λ hashes. hashes.items ≡ share_hashes tree.now share) }
    ensures long { IfOk result
        (λ hashes. length hashes.items ≡ hashes_length (length tree.now)) }
{
    let numbers = needed_nodes(alloc, tree, share)?;
    write_numbered(alloc, tree.nodes(), &numbers)
}

/// The share hashes of all shares.
pub fn write_all_hashes(alloc: Global, tree: &Tree, total: u16) -> Result<Vec<Vec<u8>>, AllocError>
    requires all { length tree.now ≡ total }
    requires few { total ≤ 256 }
    ensures value { IfOk result (λ hashes. map (λ h. h.items) hashes.items
        ≡ map (share_hashes tree.now) (range_with_len 0 total)) }
    ensures long { IfOk result
        (λ hashes. All (λ h. length h.items ≡ hashes_length total) hashes.items) }
{
    let mut hashes = Vec::with_capacity(alloc, usize::from(total))?;
    for number in 0..total {
        hashes.push(write_share_hashes(alloc, tree, number)?)?;
    }
    Ok(hashes)
}

/// A length as it stands before the extension block in a share, at the beginning of eight bytes,
/// and how many of them there are.
pub(crate) fn spelled_length(layout: Layout, len: usize) -> ([u8; 8], usize)
    requires { len < 2 ^ 32 }
    ensures text { take result.1 result.0 ≡ spelled layout len }
    ensures short { result.1 ≤ 8 }
{
    match layout {
        Layout::One => {
            let bytes = (len as u32).to_be_bytes();
            ([bytes[0], bytes[1], bytes[2], bytes[3], 0, 0, 0, 0], 4)
        }
        Layout::Two => ((len as u64).to_be_bytes(), 8),
    }
}
