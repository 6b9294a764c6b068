//! How nodes that are offered are taken into what was told of a tree.

ghost use Rattle.std.specs.Prelude.{◌≡◌, ◌≢◌, ◌^◌, ◌+◌, ◌-◌, ◌*◌, ◌%◌, ◌<◌, ◌≤◌, ◌⊎◌, ℕ, List, []};
ghost use Rattle.std.specs.Prelude.{IsTrue, None, Some, Err, length, slice_index_or};
ghost use Rattle.std.specs.Prelude.{is_some, nat_eq, OnOk};
ghost use Rattle.std.specs.HashMap.{get};
ghost use Rattle.merkle.specs.Partial.{IsExtended, Known, known_by, padding, parent};
ghost use Rattle.merkle.specs.Tree.{node_count};
ghost use Rattle.merkle.specs.Taking.{Adds, GrowsBy, IsGrown, IsKept, IsListed, IsOther};
ghost use Rattle.merkle.specs.Taking.{IsUnjoinable, Joins};
ghost use Rattle.merkle.specs.Tree.{max_leaves};

use crate::error::OfferError;
use crate::padding::Padding;
use std::alloc::AllocError;
use std::collections::HashMap;
use tagged_hash::pair;

// Takes the nodes that are offered and those above them, and lists the numbers of those that were
// not told before.
pub(crate) fn take(
    nodes: &mut HashMap<u32, [u8; 32]>,
    padded: &Padding,
    offers: &[(u32, [u8; 32])],
    added: &mut Vec<u32>,
) -> Result<(), OfferError>
    requires few { padded.now ≤ max_leaves }
    requires some { 0 < padded.now }
    requires kept { (root : List ℕ)
        × IsKept padded.now (padding padded.now) root (get nat_eq nodes.old) }
    requires none { added.old.items ≡ [] }
    ensures grown { IsGrown (get nat_eq nodes.old) added.new.items (get nat_eq nodes.new) }
    ensures taken { OnOk result (IsExtended padded.now
        (known_by (padding padded.now) (get nat_eq nodes.old)) offers.now
        (known_by (padding padded.now) (get nat_eq nodes.new))) }
    ensures kept { OnOk result ((root : List ℕ)
        → IsKept padded.now (padding padded.now) root (get nat_eq nodes.old)
        → IsKept padded.now (padding padded.now) root (get nat_eq nodes.new)) }
    ensures refused { result ≡ Err OfferError.NotConsistent → (new : Known)
        → ¬ IsExtended padded.now (known_by (padding padded.now) (get nat_eq nodes.old))
        offers.now new }
{
    let height = padded.height();
    for offer in offers {
        let (number, hash) = *offer;
        if number >= (1 << (height + 1)) - 1 {
            return Err(OfferError::NotConsistent);
        }
        add(nodes, padded, number, &hash, added)?;
    }
    let mut row = height;
    while row > 0 {
        let listed = added.len();
        for i in 0..listed {
            let number = added[i];
            if (number + 1) >> row == 1 && !follows_sibling(added, i) {
                join(nodes, padded, number, added)?;
            }
        }
        row -= 1;
    }
    Ok(())
}

// Whether the number at a position of a list is a right child's, and its left sibling's stands just
// before it: the node above the two was added with the left one.
fn follows_sibling(numbers: &[u32], position: usize) -> bool
    requires inside { position < length numbers.now }
    ensures { IsTrue result → (0 < position)
        × (slice_index_or numbers.now (position - 1) 0 % 2 ≡ 1)
        × (slice_index_or numbers.now position 0 ≡ slice_index_or numbers.now
        (position - 1) 0 + 1) }
{
    if position == 0 {
        return false;
    }
    let before = numbers[position - 1];
    before % 2 == 1 && before.checked_add(1) == Some(numbers[position])
}

// Adds the node above another, which is the hash of its two children.
fn join(
    nodes: &mut HashMap<u32, [u8; 32]>,
    padded: &Padding,
    number: u32,
    added: &mut Vec<u32>,
) -> Result<(), OfferError>
    requires few { padded.now ≤ max_leaves }
    requires below { 0 < number }
    requires inside { number < node_count padded.now }
    ensures joins { OnOk result
        (Joins (padding padded.now) (get nat_eq nodes.old) number (get nat_eq nodes.new)) }
    ensures refused { result ≡ Err OfferError.NotConsistent
        → IsUnjoinable (padding padded.now) (get nat_eq nodes.old) number }
    ensures grows { GrowsBy (get nat_eq nodes.old) added.old.items (parent number)
        (get nat_eq nodes.new) added.new.items }
{
    let above = (number - 1) / 2;
    let left = known_node(nodes, padded, 2 * above + 1);
    let right = known_node(nodes, padded, 2 * above + 2);
    let (Some(left), Some(right)) = (left, right) else {
        return Err(OfferError::NotConsistent);
    };
    let hash = pair(&left, &right);
    add(nodes, padded, above, &hash, added)
}

// Adds a node, and lists its number, where it was not told before.
fn add(
    nodes: &mut HashMap<u32, [u8; 32]>,
    padded: &Padding,
    number: u32,
    hash: &[u8; 32],
    added: &mut Vec<u32>,
) -> Result<(), OfferError>
    requires few { padded.now ≤ max_leaves }
    ensures adds { OnOk result (Adds (padding padded.now)
        (get nat_eq nodes.old) number hash.now (get nat_eq nodes.new)) }
    ensures refused { result ≡ Err OfferError.NotConsistent
        → IsOther (padding padded.now) (get nat_eq nodes.old) number hash.now }
    ensures grows { GrowsBy (get nat_eq nodes.old) added.old.items number
        (get nat_eq nodes.new) added.new.items }
{
    if let Some(known) = known_node(nodes, padded, number) {
        if known != *hash {
            return Err(OfferError::NotConsistent);
        }
    }
    if !nodes.contains_key(&number) {
        keep(nodes, number, hash, added)?;
    }
    Ok(())
}

// Keeps a node that was not told, and lists its number.
fn keep(
    nodes: &mut HashMap<u32, [u8; 32]>,
    number: u32,
    hash: &[u8; 32],
    added: &mut Vec<u32>,
) -> Result<(), AllocError>
    requires { get nat_eq nodes.old number ≡ None }
    ensures here { OnOk result (get nat_eq nodes.new number ≡ Some hash.now) }
    ensures apart { (other : ℕ) → other ≢ number
        → get nat_eq nodes.new other ≡ get nat_eq nodes.old other }
    ensures grows { GrowsBy (get nat_eq nodes.old) added.old.items number
        (get nat_eq nodes.new) added.new.items }
{
    added.push(number)?;
    nodes.insert(number, *hash)?;
    Ok(())
}

/// Takes nodes of these numbers out again.
pub(crate) fn take_out(nodes: &mut HashMap<u32, [u8; 32]>, numbers: &[u32])
    ensures out { (number : ℕ) → IsListed numbers.now number
        → get nat_eq nodes.new number ≡ None }
    ensures rest { (number : ℕ) → (get nat_eq nodes.new number ≡ get nat_eq nodes.old number)
        ⊎ IsListed numbers.now number }
{
    for number in numbers {
        nodes.remove(number);
    }
}

/// Whether the node of this number is known, where these nodes were told.
pub(crate) fn is_known(nodes: &HashMap<u32, [u8; 32]>, padded: &Padding, number: u32) -> bool
    requires few { padded.now ≤ max_leaves }
    ensures { result ≡ is_some (known_by (padding padded.now) (get nat_eq nodes.now) number) }
{
    nodes.contains_key(&number) || padded.has(number)
}

/// What is known of the node of this number, where these nodes were told.
pub(crate) fn known_node(
    nodes: &HashMap<u32, [u8; 32]>,
    padded: &Padding,
    number: u32,
) -> Option<[u8; 32]>
    requires few { padded.now ≤ max_leaves }
    ensures { result ≡ known_by (padding padded.now) (get nat_eq nodes.now) number }
{
    match nodes.get(&number) {
        Some(hash) => Some(*hash),
        None => padded.node(number),
    }
}
