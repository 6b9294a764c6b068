//! Trees of which some nodes are known.

ghost use Rattle.std.specs.Prelude.{◌≡◌, ◌<◌, ◌≤◌, ◌^◌, ℕ, List, Some, Err, is_some};
ghost use Rattle.std.specs.Prelude.{IfOk, IfSome, OnErr, OnOk};
ghost use Rattle.merkle.specs.Path.{LeadsBy};
ghost use Rattle.merkle.specs.Known.{KnownPathsAreKnown};
ghost use Rattle.merkle.specs.Offers.{OwnNodesAreConsistent};
ghost use Rattle.merkle.specs.Partial.{IsNotConsistent, IsPartial, KnownLeavesGiveTheRoot};
ghost use Rattle.merkle.specs.Partial.{KnownLeavesLead, PartialState, Takes, known_at};
ghost use Rattle.merkle.specs.Partial.{known_siblings, leaf_number, missing_numbers, starting};
ghost use Rattle.merkle.specs.Tree.{max_leaves};

use crate::error::OfferError;
use crate::numbers::{node_number, sibling_number};
use crate::padding::Padding;
use crate::taking::{is_known, known_node, take, take_out};
use crate::tree::needed_in;
use std::alloc::{AllocError, Global};
use std::collections::HashMap;
use std::marker::Model;

/// A hash tree of which the root is given, and other nodes as they are offered. Each node that is
/// known leads to the root. It takes memory for the nodes that were offered and those above them.
#[derive(Drop)]
pub struct Partial {
    root: [u8; 32],
    padded: Padding,
    alloc: Global,
    // The root, the nodes that were offered and those above them.
    nodes: HashMap<u32, [u8; 32]>,
}

impl Model for Partial {
    ghost use Rattle.std.specs.Prelude.{◌<◌, ◌≤◌, nat_eq};
    ghost use Rattle.std.specs.HashMap.{get};
    ghost use Rattle.merkle.specs.Partial.{PartialState, padding, partial_state};
    ghost use Rattle.merkle.specs.Taking.{IsKept};
    ghost use Rattle.merkle.specs.Tree.{max_leaves};

    ghost Value = { PartialState };

    ghost view = { λ p. partial_state p.root p.padded (get nat_eq p.nodes) };

    ghost invariant = { λ p. (0 < p.padded) × (p.padded ≤ max_leaves)
        × IsKept p.padded (padding p.padded) p.root (get nat_eq p.nodes) };
}

impl Partial {
    /// The tree with this root over as many leaves as the padding is of.
    pub fn new(alloc: Global, root: &[u8; 32], padding: &Padding) -> Result<Partial, AllocError>
        ensures { IfOk result (λ p. p ≡ starting root.now padding.now) }
    {
        let mut nodes = HashMap::new(alloc);
        nodes.insert(0, *root)?;
        Ok(Partial {
            root: *root,
            padded: padding.copy(),
            alloc,
            nodes,
        })
    }

    /// The padding, which other trees of as many leaves can share.
    pub fn padding(&self) -> &Padding
        ensures { result.now ≡ self.now.leaf_count }
    {
        &self.padded
    }

    /// What is known of the node of this number. A node over empty leaves alone that does not stand
    /// beside the way from the last leaf to the root is computed from its leaves.
    pub fn node(&self, number: u32) -> Option<[u8; 32]>
        ensures value { result ≡ known_at self.now number }
        ensures right { IsPartial self.now }
    {
        known_node(&self.nodes, &self.padded, number)
    }

    // Whether the node of this number is known.
    fn knows(&self, number: u32) -> bool
        ensures { result ≡ is_some (known_at self.now number) }
    {
        is_known(&self.nodes, &self.padded, number)
    }

    /// Takes nodes, each a number and a hash, where they and the nodes above them go with what is
    /// known: each of them but the root has a sibling that is known, offered or above an offered
    /// node, and each parent is the hash of its two children. Otherwise, and where a number is not
    /// one of the tree's, they are refused, and nothing changes.
    pub fn offer(&mut self, offers: &[(u32, [u8; 32])]) -> Result<(), OfferError>
        ensures taken { OnOk result (Takes self.old offers.now self.new) }
        ensures not_consistent { result ≡ Err OfferError.NotConsistent
            → IsNotConsistent self.old offers.now }
        ensures unchanged { OnErr result (self.new ≡ self.old) }
    {
        let mut added = Vec::new(self.alloc);
        match take(&mut self.nodes, &self.padded, offers, &mut added) {
            Ok(()) => Ok(()),
            Err(error) => {
                take_out(&mut self.nodes, &added);
                Err(error)
            }
        }
    }

    /// The numbers of the nodes that lead from a leaf to the root and are not known yet, rising.
    /// There is such a leaf.
    pub fn needed(&self, leaf: u32) -> Result<Vec<u32>, AllocError>
        requires { leaf < self.now.leaf_count }
        ensures { IfOk result (λ numbers. numbers.items ≡ missing_numbers self.now leaf) }
    {
        let numbers = needed_in(self.alloc, self.padded.height(), leaf)?;
        let mut missing = Vec::new(self.alloc);
        for number in &numbers {
            if !self.knows(*number) {
                missing.push(*number)?;
            }
        }
        Ok(missing)
    }

    /// The siblings of a leaf that is known and of the nodes above it, from the leaf upward, as
    /// `check_path` takes them. There is such a leaf.
    pub fn path(&self, leaf: u32) -> Result<Option<Vec<[u8; 32]>>, AllocError>
        requires { leaf < self.now.leaf_count }
        ensures known { IfOk result (λ path. is_some path
            ≡ is_some (known_at self.now (leaf_number self.now.leaf_count leaf))) }
        ensures siblings { IfOk result (λ path. IfSome path (λ siblings.
            siblings.items ≡ known_siblings self.now leaf)) }
        ensures leads { IfOk result (λ path. IfSome path (λ siblings. (hash : List ℕ)
            → known_at self.now (leaf_number self.now.leaf_count leaf) ≡ Some hash
            → LeadsBy self.now.leaf_count self.now.root leaf hash siblings.items)) }
    {
        let height = self.padded.height();
        if self.node(node_number(height, leaf)).is_none() {
            return Ok(None);
        }
        let mut siblings = Vec::with_capacity(self.alloc, height as usize)?;
        for i in 0..height {
            let Some(hash) = self.node(sibling_number(height, leaf, i)) else {
                unreachable!();
            };
            siblings.push(hash)?;
        }
        Ok(Some(siblings))
    }
}

/// A law of the definitions: each leaf that is known leads to the root by siblings that are known.
/// The law is the contract; the call does nothing.
pub fn known_leaves_lead()
    ensures { KnownLeavesLead }
{}

/// A law of the definitions: where all leaves are known, the root is that of the tree over them.
/// The law is the contract; the call does nothing.
pub fn known_leaves_give_the_root()
    ensures { KnownLeavesGiveTheRoot }
{}

/// A law of the definitions: all that is hashed on the path of a leaf that is known is the hash
/// input of a node whose two children are known. The law is the contract; the call does nothing.
pub fn known_paths_are_known()
    ensures { KnownPathsAreKnown }
{}

/// A law of the definitions: nodes of a tree, each with its sibling, are not refused as not
/// consistent where all that is known are nodes of that tree. The law is the contract; the call
/// does nothing.
pub fn own_nodes_are_consistent()
    ensures { OwnNodesAreConsistent }
{}
