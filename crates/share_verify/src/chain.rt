//! The hashes of the share tree that a share carries.

ghost use Rattle.std.specs.Prelude.{◌≡◌, ℕ, take, drop, ◌+◌, ◌-◌, ◌/◌, ◌^◌, ◌<◌, ◌≤◌, ◌↔◌, IsTrue};
ghost use Rattle.std.specs.Prelude.{[], length, slice_index_or, Some, None, IfNone, IfSome};
ghost use Rattle.std.specs.Int.{w16, to_be_bytes};
ghost use Rattle.std.specs.Str.{bytes_eq};
ghost use Rattle.merkle.specs.Tree.{height, sibling_number};
ghost use Rattle.share_verify.specs.ShareHashes.{LeadsByEntries, carried_hash, entries_in};

use merkle::{check_path, node_number, sibling_number};

/// The length of a share hash: two bytes for the number of its node, and the hash.
pub(crate) const ENTRY_LENGTH: usize = 34;

/// The most siblings that a leaf of a share tree has.
const MAX_HEIGHT: usize = 8;

/// The share hashes that stand in a section, one after another.
pub(crate) fn entries_in(section: &[u8]) -> &[[u8; ENTRY_LENGTH]]
    ensures { result.now ≡ entries_in section.now }
{
    let (entries, _) = section.as_chunks::<ENTRY_LENGTH>();
    entries
}

/// Whether the share hashes lead from this hash, that of a leaf of the tree over `total` shares, to
/// its root. There are as many as that tree has rows.
pub(crate) fn leads_by_entries(
    total: u16,
    root: &[u8; 32],
    leaf: u16,
    hash: &[u8; 32],
    entries: &[[u8; ENTRY_LENGTH]],
) -> bool
    requires few { total ≤ 256 }
    requires inside { leaf < total }
    requires entries { length entries.now ≡ height total + 1 }
    ensures { IsTrue result ↔ LeadsByEntries total root.now leaf hash.now entries.now }
{
    let height = height_of(total, entries);
    let own = node_number(height, u32::from(leaf)) as u16;
    if !carries(entries, own, hash) {
        return false;
    }
    let Some(siblings) = sibling_hashes(entries, height, leaf) else {
        return false;
    };
    check_path(
        root,
        u32::from(total),
        u32::from(leaf),
        hash,
        &siblings[..height as usize],
    )
}

// The height of the tree over `total` shares, which is one less than the share hashes that each
// carries.
fn height_of(total: u16, entries: &[[u8; ENTRY_LENGTH]]) -> u32
    requires few { total ≤ 256 }
    requires entries { length entries.now ≡ height total + 1 }
    ensures value { result ≡ height total }
    ensures low { result ≤ 8 }
    ensures room { total ≤ 2 ^ result }
{
    (entries.len() - 1) as u32
}

// The hashes of the siblings of a leaf and of the nodes above it, from the leaf upward, in a tree
// of this height.
fn sibling_hashes(
    entries: &[[u8; ENTRY_LENGTH]],
    height: u32,
    leaf: u16,
) -> Option<[[u8; 32]; MAX_HEIGHT]>
    requires low { height ≤ 8 }
    requires inside { leaf < 2 ^ height }
    ensures size { IfSome result (λ siblings. length siblings ≡ 8) }
    ensures all { IfSome result (λ siblings. (i : ℕ) → i < height
        → carried_hash entries.now (sibling_number height leaf i)
        ≡ Some (slice_index_or siblings i [])) }
    ensures missing { IfNone result ((i : ℕ) × (i < height)
        × (carried_hash entries.now (sibling_number height leaf i) ≡ None)) }
{
    let mut siblings = [[0u8; 32]; MAX_HEIGHT];
    for i in 0..height {
        let number = sibling_number(height, u32::from(leaf), i);
        let Some(hash) = carried_hash(entries, number as u16) else {
            return None;
        };
        siblings[i as usize] = hash;
    }
    Some(siblings)
}

// Whether this hash stands after a node's number.
fn carries(entries: &[[u8; ENTRY_LENGTH]], number: u16, hash: &[u8; 32]) -> bool
    ensures { IsTrue result ↔ (carried_hash entries.now number ≡ Some hash.now) }
{
    match carried_hash(entries, number) {
        Some(carried) => carried == *hash,
        None => false,
    }
}

// The hash that stands after a node's number.
fn carried_hash(entries: &[[u8; ENTRY_LENGTH]], number: u16) -> Option<[u8; 32]>
    ensures { result ≡ carried_hash entries.now number }
{
    for entry in entries {
        if is_number(entry, number) {
            return Some(hash_of(entry));
        }
    }
    None
}

// Whether an entry begins with this number.
fn is_number(entry: &[u8; ENTRY_LENGTH], number: u16) -> bool
    ensures { result ≡ bytes_eq (take 2 entry.now) (to_be_bytes w16 number) }
{
    &entry[..2] == number.to_be_bytes().as_slice()
}

// The hash of an entry, after the number.
fn hash_of(entry: &[u8; ENTRY_LENGTH]) -> [u8; 32]
    ensures { result ≡ drop 2 entry.now }
{
    let mut hash = [0; 32];
    hash.copy_from_slice(&entry[2..]);
    hash
}
