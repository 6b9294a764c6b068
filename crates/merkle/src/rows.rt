//! Nodes of a row and empty leaves, eight side by side.

ghost use Rattle.std.specs.Prelude.{◌≡◌, ◌+◌, ◌*◌, ◌^◌, ◌<◌, ◌≤◌, ◌++◌, ℕ, [], length};
ghost use Rattle.std.specs.Prelude.{All, IsTrue, decimal, slice_index_or};
ghost use Rattle.tagged_hash.specs.TaggedHash.{empty_leaf_hash, netstring, node_hash, tagged_hash};
ghost use Rattle.tagged_hash.specs.declared.tag.Tag.TheVariants.{EmptyLeaf};

use tagged_hash::{DecimalText, Tag, empty_leaf, tagged_eight};

/// The hashes that eight nodes of a tree should have, from this one on, by their children.
pub(crate) fn parents_from(nodes: &[[u8; 32]], first: usize) -> [[u8; 32]; 8]
    requires { 2 * first + 17 ≤ length nodes.now }
    ensures { (k : ℕ) → k < 8 → slice_index_or result k [] ≡ node_hash
        (slice_index_or nodes.now (2 * (first + k) + 1) [])
        (slice_index_or nodes.now (2 * (first + k) + 2) []) }
{
    parents_of(&nodes[2 * first + 1..2 * first + 17])
}

// The hashes of eight pairs of nodes that stand one after another.
fn parents_of(nodes: &[[u8; 32]]) -> [[u8; 32]; 8]
    requires { length nodes.now ≡ 16 }
    ensures { (k : ℕ) → k < 8 → slice_index_or result k [] ≡ node_hash
        (slice_index_or nodes.now (2 * k) []) (slice_index_or nodes.now (2 * k + 1) []) }
{
    let texts = [
        pair_text(&nodes[0], &nodes[1]),
        pair_text(&nodes[2], &nodes[3]),
        pair_text(&nodes[4], &nodes[5]),
        pair_text(&nodes[6], &nodes[7]),
        pair_text(&nodes[8], &nodes[9]),
        pair_text(&nodes[10], &nodes[11]),
        pair_text(&nodes[12], &nodes[13]),
        pair_text(&nodes[14], &nodes[15]),
    ];
    let messages: [&[u8]; 8] = [
        &texts[0], &texts[1], &texts[2], &texts[3], &texts[4], &texts[5], &texts[6], &texts[7],
    ];
    tagged_eight(Tag::TreeNode, &messages, 72)
}

/// Eight empty leaves, from this one on.
pub(crate) fn empty_leaves_from(first: u32) -> [[u8; 32]; 8]
    requires { first + 8 ≤ 2 ^ 32 }
    ensures { (k : ℕ) → k < 8 → slice_index_or result k [] ≡ empty_leaf_hash (first + k) }
{
    let positions = [
        decimal(first),
        decimal(first + 1),
        decimal(first + 2),
        decimal(first + 3),
        decimal(first + 4),
        decimal(first + 5),
        decimal(first + 6),
        decimal(first + 7),
    ];
    let digits = positions[0].len();
    if have_length(&positions, digits) {
        return empty_leaves_of(&positions, digits);
    }
    [
        empty_leaf(first),
        empty_leaf(first + 1),
        empty_leaf(first + 2),
        empty_leaf(first + 3),
        empty_leaf(first + 4),
        empty_leaf(first + 5),
        empty_leaf(first + 6),
        empty_leaf(first + 7),
    ]
}

// A position in decimal.
fn decimal(position: u32) -> DecimalText
    ensures { result ≡ decimal position }
{
    DecimalText::new(u64::from(position))
}

// Whether all of these have so many digits.
fn have_length(positions: &[DecimalText; 8], digits: usize) -> bool
    ensures { IsTrue result → All (λ position. length position ≡ digits) positions.now }
{
    positions.iter().all(|position| position.len() == digits)
}

// The empty leaves of eight positions, which have so many digits.
fn empty_leaves_of(positions: &[DecimalText; 8], digits: usize) -> [[u8; 32]; 8]
    requires short { digits ≤ 20 }
    requires long { All (λ position. length position ≡ digits) positions.now }
    ensures { (k : ℕ) → k < 8
        → slice_index_or result k [] ≡ tagged_hash EmptyLeaf (slice_index_or positions.now k []) }
{
    let messages: [&[u8]; 8] = [
        positions[0].as_bytes(),
        positions[1].as_bytes(),
        positions[2].as_bytes(),
        positions[3].as_bytes(),
        positions[4].as_bytes(),
        positions[5].as_bytes(),
        positions[6].as_bytes(),
        positions[7].as_bytes(),
    ];
    tagged_eight(Tag::EmptyLeaf, &messages, digits)
}

// What is hashed of two nodes behind the tag: the netstring of each.
fn pair_text(left: &[u8; 32], right: &[u8; 32]) -> [u8; 72]
    ensures { result ≡ netstring left.now ++ netstring right.now }
{
    let mut text = [0; 72];
    text[..36].copy_from_slice(&hash_text(left));
    text[36..].copy_from_slice(&hash_text(right));
    text
}

// The netstring of a hash.
fn hash_text(hash: &[u8; 32]) -> [u8; 36]
    ensures { result ≡ netstring hash.now }
{
    let mut text = *b"32:................................,";
    text[3..35].copy_from_slice(hash);
    text
}
