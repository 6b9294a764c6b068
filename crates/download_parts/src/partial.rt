//! One tree of which some nodes are known.

ghost use Rattle.std.specs.Prelude.{◌≡◌, ◌+◌, ◌*◌, ◌^◌, ◌<◌, ◌≤◌, IfOk, OnErr, OnOk, Err, length};
ghost use Rattle.merkle.specs.Known.{KnowsHashes};
ghost use Rattle.merkle.specs.Partial.{IsNotConsistent, IsPartial, Takes, starting};
ghost use Rattle.merkle.specs.Tree.{max_leaves};
ghost use Rattle.download_parts.specs.Offers.{nodes_offered};
ghost use Rattle.download_parts.specs.Trees.{known_leaf};

use crate::error::TreeFault;
use crate::offers::{Offer, numbered};
use crate::part::Nodes;
use merkle::{OfferError, Padding, Partial, height, node_number};
use share_verify::Check;
use std::alloc::{AllocError, Global};

/// The tree with this root over as many leaves as the padding is of.
pub(crate) fn tree_with(
    alloc: Global,
    root: &[u8; 32],
    padding: &Padding,
) -> Result<Partial, AllocError>
    ensures tree { IfOk result (λ tree. tree ≡ starting root.now padding.now) }
    ensures right { IfOk result IsPartial }
    ensures hashes { IfOk result KnowsHashes }
{
    know_hash(root);
    let tree = Partial::new(alloc, root, padding)?;
    let _ = tree.node(0);
    Ok(tree)
}

/// What is known of a leaf of a tree over so many.
pub(crate) fn leaf_of(tree: &Partial, leaves: u32, leaf: u32) -> Option<[u8; 32]>
    requires count { tree.now.leaf_count ≡ leaves }
    requires few { leaves ≤ max_leaves }
    requires inside { leaf < leaves }
    ensures { result ≡ known_leaf tree.now leaf }
{
    tree.node(node_number(height(leaves), leaf))
}

/// Offers nodes to a tree. They are refused as failing this check.
pub(crate) fn offer(tree: &mut Partial, offers: &[Offer], check: Check) -> Result<(), TreeFault>
    ensures taken { OnOk result (Takes tree.old offers.now tree.new) }
    ensures refused { (other : Check) → result ≡ Err (TreeFault.Check other)
        → (other ≡ check) × IsNotConsistent tree.old offers.now }
    ensures unchanged { OnErr result (tree.new ≡ tree.old) }
    ensures right { IsPartial tree.new }
{
    let taken = match tree.offer(offers) {
        Ok(()) => Ok(()),
        Err(OfferError::NotConsistent) => Err(TreeFault::Check(check)),
        Err(OfferError::OutOfMemory) => Err(TreeFault::OutOfMemory),
    };
    let _ = tree.node(0);
    taken
}

/// Offers these nodes, whose hashes are the bytes.
pub(crate) fn offer_nodes(
    alloc: Global,
    tree: &mut Partial,
    nodes: &Nodes,
    bytes: &[u8],
    check: Check,
) -> Result<(), TreeFault>
    requires sound { IsPartial tree.old }
    requires low { nodes.now.row ≤ 20 }
    requires inside { nodes.now.from + nodes.now.count ≤ 2 ^ nodes.now.row }
    requires long { length bytes.now ≡ 32 * nodes.now.count }
    ensures taken { OnOk result (Takes tree.old (nodes_offered nodes.now bytes.now) tree.new) }
    ensures refused { (other : Check) → result ≡ Err (TreeFault.Check other)
        → (other ≡ check) × IsNotConsistent tree.old (nodes_offered nodes.now bytes.now) }
    ensures unchanged { OnErr result (tree.new ≡ tree.old) }
    ensures right { IsPartial tree.new }
    ensures hashes { KnowsHashes tree.old → KnowsHashes tree.new }
{
    let offers = numbered(alloc, nodes, bytes)?;
    offer(tree, &offers, check)
}

// A law: a hash has 32 bytes. The call does nothing.
fn know_hash(hash: &[u8; 32])
    ensures { length hash.now ≡ 32 }
{
    let _ = hash;
}
