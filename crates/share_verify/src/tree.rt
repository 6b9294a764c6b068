//! Hash trees as they stand in a section of a share.

ghost use Rattle.std.specs.Prelude.{◌≡◌, ◌+◌, ◌-◌, ◌*◌, ◌%◌, ◌^◌, ◌<◌, ◌≤◌, ◌↔◌, IsTrue, []};
ghost use Rattle.std.specs.Prelude.{length, slice_index_or};
ghost use Rattle.merkle.specs.Tree.{height, leaves_among, max_leaves};
ghost use Rattle.share_verify.specs.TreeSection.{IsTreeSection, IsTreeWithRoot, hashes_in, root_in};

use merkle::{are_tree_nodes, are_tree_nodes_beside};

/// The hashes that stand in a section, one after another.
pub(crate) fn hashes_in(section: &[u8]) -> &[[u8; 32]]
    ensures { result.now ≡ hashes_in section.now }
{
    let (hashes, _) = section.as_chunks::<32>();
    hashes
}

/// The root of the tree in a section.
pub(crate) fn root_in(section: &[u8]) -> &[u8; 32]
    requires { 32 ≤ length section.now }
    ensures { result.now ≡ root_in section.now }
{
    &hashes_in(section)[0]
}

/// The leaves of the tree in a section that has the length of a tree over so many.
pub fn leaves_in(section: &[u8], leaf_count: u32) -> &[[u8; 32]]
    requires { length section.now ≡ (2 * 2 ^ height leaf_count - 1) * 32 }
    ensures leaves { result.now ≡ leaves_among (hashes_in section.now) leaf_count }
    ensures count { length result.now ≡ leaf_count }
{
    let nodes = hashes_in(section);
    let first = first_leaf(nodes, leaf_count);
    &nodes[first..first + leaf_count as usize]
}

// Where the leaves stand among the nodes of a tree over so many.
fn first_leaf(nodes: &[[u8; 32]], leaf_count: u32) -> usize
    requires { length nodes.now ≡ 2 * 2 ^ height leaf_count - 1 }
    ensures value { result ≡ 2 ^ height leaf_count - 1 }
    ensures room { result + leaf_count ≤ length nodes.now }
{
    nodes.len() / 2
}

/// Whether a section is the nodes of a tree over `leaf_count` leaves that has this root, as
/// `is_tree_section` asks.
pub(crate) fn is_tree_with_root(section: &[u8], leaf_count: u32, root: &[u8; 32]) -> bool
    requires few { leaf_count ≤ max_leaves }
    requires long { length section.now ≡ (2 * 2 ^ height leaf_count - 1) * 32 }
    ensures { IsTrue result ↔ IsTreeWithRoot leaf_count root.now section.now }
{
    is_tree_section(section, leaf_count) && *root_in(section) == *root
}

/// Whether a section is the nodes of a tree over `leaf_count` leaves, row by row: each inner node
/// the hash of its children, and the positions after the leaves padded. It has the length of such a
/// tree.
pub(crate) fn is_tree_section(section: &[u8], leaf_count: u32) -> bool
    requires few { leaf_count ≤ max_leaves }
    requires long { length section.now ≡ (2 * 2 ^ height leaf_count - 1) * 32 }
    ensures { IsTrue result ↔ IsTreeSection leaf_count section.now }
{
    are_tree_nodes(hashes_in(section), leaf_count)
}

/// Whether a section is the nodes of a tree over `leaf_count` leaves, as `is_tree_section` asks,
/// where `beside` is one that is: what both have over empty leaves alone is compared, and not
/// hashed.
pub(crate) fn is_tree_section_beside(section: &[u8], leaf_count: u32, beside: &[u8]) -> bool
    requires some { 0 < leaf_count }
    requires few { leaf_count ≤ max_leaves }
    requires long { length section.now ≡ (2 * 2 ^ height leaf_count - 1) * 32 }
    requires as_long { length beside.now ≡ (2 * 2 ^ height leaf_count - 1) * 32 }
    requires beside { IsTreeSection leaf_count beside.now }
    ensures { IsTrue result ↔ IsTreeSection leaf_count section.now }
{
    are_tree_nodes_beside(hashes_in(section), leaf_count, hashes_in(beside))
}
