//! Bytes of a share, as nodes that are offered to a tree.

ghost use Rattle.std.specs.Prelude.{◌≡◌, ◌+◌, ◌*◌, ◌^◌, ◌<◌, ◌≤◌, IfOk, drop, length};
ghost use Rattle.std.specs.Prelude.{slice_index_or};
ghost use Rattle.merkle.specs.Tree.{needed_numbers, node_number};
ghost use Rattle.share_verify.specs.ShareHashes.{entries_in};
ghost use Rattle.download_parts.specs.Offers.{nodes_offered, numbered};

use crate::part::Nodes;
use merkle::{needed_number, node_number};
use std::alloc::{AllocError, Global};

/// A node's number and its hash.
pub(crate) type Offer = (u32, [u8; 32]);

/// The hashes of these nodes, one after another in the bytes.
pub(crate) fn numbered(alloc: Global, nodes: &Nodes, bytes: &[u8]) -> Result<Vec<Offer>, AllocError>
    requires low { nodes.now.row ≤ 20 }
    requires inside { nodes.now.from + nodes.now.count ≤ 2 ^ nodes.now.row }
    requires long { length bytes.now ≡ 32 * nodes.now.count }
    ensures { IfOk result (λ offers. offers.items ≡ nodes_offered nodes.now bytes.now) }
{
    let (hashes, _) = bytes.as_chunks::<32>();
    let mut offers = Vec::with_capacity(alloc, hashes.len())?;
    let mut position = nodes.from;
    for hash in hashes {
        offers.push((node_number(nodes.row, position), *hash))?;
        position += 1;
    }
    Ok(offers)
}

/// The hashes that lead from a leaf to the root of a tree of this height, one after another in the
/// bytes, each behind the two bytes of its number, which they carry.
pub(crate) fn chained(
    alloc: Global,
    height: u32,
    leaf: u32,
    bytes: &[u8],
) -> Result<Vec<Offer>, AllocError>
    requires low { height ≤ 8 }
    requires inside { leaf < 2 ^ height }
    requires long { length bytes.now ≡ (height + 1) * 34 }
    ensures offers { IfOk result (λ offers. offers.items
        ≡ numbered (needed_numbers height leaf) (entries_in bytes.now)) }
    ensures count { IfOk result (λ offers. length offers.items ≡ height + 1) }
{
    let (entries, _) = bytes.as_chunks::<34>();
    let mut offers = Vec::with_capacity(alloc, entries.len())?;
    for position in 0..height + 1 {
        let hash = hash_of(&entries[position as usize]);
        offers.push((needed_number(height, leaf, position), hash))?;
    }
    Ok(offers)
}

// The hash of an entry, behind the number.
fn hash_of(entry: &[u8; 34]) -> [u8; 32]
    ensures { result ≡ drop 2 entry.now }
{
    let mut hash = [0; 32];
    hash.copy_from_slice(&entry[2..]);
    hash
}

/// The position of a leaf's own hash among those that lead from it to the root of a tree of this
/// height.
pub(crate) fn own_position(height: u32, leaf: u32) -> u32
    requires low { height ≤ 8 }
    requires inside { leaf < 2 ^ height }
    ensures within { result ≤ height }
    ensures own { slice_index_or (needed_numbers height leaf) result 0 ≡ node_number height leaf }
{
    (height + leaf % 2).saturating_sub(1)
}
