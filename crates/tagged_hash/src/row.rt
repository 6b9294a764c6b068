//! Tagged hashes of messages of one length, eight of them side by side.

ghost use Rattle.std.specs.Prelude.{◌≡◌, ◌+◌, ◌*◌, ◌<◌, ◌≤◌, ◌^◌, ℕ, []};
ghost use Rattle.std.specs.Prelude.{All, drop, length, map, slice_index_or, take};
ghost use Rattle.tagged_hash.specs.TaggedHash.{tagged_hash};

use crate::tag::Tag;
use crate::tagged;
use sha2_lanes::double_sha256_of_eight;

/// From so many messages on, eight lanes hash them faster than one after the other, where vectors
/// have 32 bytes: the lanes that are left over are filled up.
pub const WORTH_LANES: usize = 3;

/// The hashes under `tag` of eight messages of `len` bytes each.
pub fn tagged_eight(tag: Tag, messages: &[&[u8]; 8], len: usize) -> [[u8; 32]; 8]
    requires len { len < 2 ^ 63 }
    requires messages { All (λ m. length m.now ≡ len) messages.now }
    ensures { result ≡ map (λ m. tagged_hash tag m.now) messages.now }
{
    double_sha256_of_eight(tag.netstring(), messages, len)
}

/// The hashes under `tag` of the first pieces of a text, as many as `hashes` has positions. Pieces
/// have `size` bytes; the last of the text may be shorter, and those behind it are empty.
pub fn tagged_pieces(tag: Tag, text: &[u8], size: usize, hashes: &mut [[u8; 32]])
    ensures { (i : ℕ) → i < length hashes.old → slice_index_or hashes.new i []
        ≡ tagged_hash tag (take size (drop (i * size) text.now)) }
{
    let whole = whole_pieces(text, size).min(hashes.len());
    for group in 0..whole.div_ceil(8) {
        let first = 8 * group;
        let end = whole.min(first + 8);
        hash_group(
            tag,
            pieces_from(text, size, first),
            size,
            &mut hashes[first..end],
        );
    }
    for i in whole..hashes.len() {
        hashes[i] = tagged(tag, piece(text, size, i));
    }
}

// How many pieces of `size` bytes the text has, where they have any.
fn whole_pieces(text: &[u8], size: usize) -> usize
    ensures { result * size ≤ length text.now }
{
    text.len().checked_div(size).unwrap_or(0)
}

// The hashes of the first pieces of a text, which have `size` bytes each.
fn hash_group(tag: Tag, text: &[u8], size: usize, hashes: &mut [[u8; 32]])
    requires some { 0 < length hashes.old }
    requires few { length hashes.old ≤ 8 }
    requires whole { length hashes.old * size ≤ length text.now }
    ensures { (j : ℕ) → j < length hashes.old → slice_index_or hashes.new j []
        ≡ tagged_hash tag (take size (drop (j * size) text.now)) }
{
    if hashes.len() < WORTH_LANES {
        for j in 0..hashes.len() {
            hashes[j] = tagged(tag, piece(text, size, j));
        }
    } else {
        let last = hashes.len() - 1;
        let all = hash_eight(tag, text, size, last);
        hashes.copy_from_slice(&all[..last + 1]);
    }
}

// The hashes of the first eight pieces of a text, which have `size` bytes each: piece `last` also
// stands for those after it.
fn hash_eight(tag: Tag, text: &[u8], size: usize, last: usize) -> [[u8; 32]; 8]
    requires { (last + 1) * size ≤ length text.now }
    ensures { (j : ℕ) → j < 8 → j ≤ last → slice_index_or result j []
        ≡ tagged_hash tag (take size (drop (j * size) text.now)) }
{
    let messages = [
        piece(text, size, 0),
        piece(text, size, last.min(1)),
        piece(text, size, last.min(2)),
        piece(text, size, last.min(3)),
        piece(text, size, last.min(4)),
        piece(text, size, last.min(5)),
        piece(text, size, last.min(6)),
        piece(text, size, last.min(7)),
    ];
    tagged_eight(tag, &messages, size)
}

// The piece of this number.
fn piece(text: &[u8], size: usize, number: usize) -> &[u8]
    ensures { result.now ≡ take size (drop (number * size) text.now) }
{
    let rest = pieces_from(text, size, number);
    &rest[..size.min(rest.len())]
}

/// The text from the piece of this number on, where pieces have `size` bytes.
pub fn pieces_from(text: &[u8], size: usize, number: usize) -> &[u8]
    ensures { result.now ≡ drop (number * size) text.now }
{
    &text[text.len().min(number.saturating_mul(size))..]
}
