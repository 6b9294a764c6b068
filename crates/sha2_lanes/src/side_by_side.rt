//! Eight hashers side by side, each with its own message.

ghost use Rattle.std.specs.Prelude.{◌≡◌, ◌+◌, ◌*◌, ◌%◌, ◌^◌, ◌<◌, ◌≤◌, ◌++◌, ◌⊎◌, ℕ, List};
ghost use Rattle.std.specs.Prelude.{Some, drop, length, slice_get, slice_index, take};
ghost use Rattle.sha2.specs.Sha256.{hash_after};
ghost use Rattle.sha2_lanes.specs.Lanes.{AreVectors, lane, text};
ghost use Rattle.sha2_lanes.specs.Stream.{Holds, HoldsIn};
ghost use Rattle.sha2_lanes.specs.declared.stream.Sha256Stream.{Sha256Stream};

use crate::message::BLOCK_LEN;
use crate::round::compress;
use crate::stream::{GROUP_LEN, Sha256Stream};
use crate::words::{transposed, words};
use std::simd::prelude::*;

/// Adds to each of eight messages its piece, as `Sha256Stream::update` does: side by side as far as
/// all the pieces have whole groups of blocks. The messages and the pieces have lengths of their
/// own.
pub fn update_eight(streams: &mut [Sha256Stream; 8], pieces: &[&[u8]; 8])
    ensures { (j : ℕ) (m : List ℕ) → j < 8 → HoldsIn streams.old j m
        → HoldsIn streams.new j (m ++ text pieces.now j) }
{
    let starts = fill_each(streams, pieces);
    let rests = rests_of(pieces, &starts);
    let count = groups_in_all(&rests);
    if count > 0 {
        add_groups(streams, &rests, count);
    }
    add_rests(streams, &rests, GROUP_LEN * count);
}

// Adds to each message the beginning of its piece, up to the edge of a group or to the piece's end,
// and says how long these are.
fn fill_each(streams: &mut [Sha256Stream; 8], pieces: &[&[u8]; 8]) -> [usize; 8]
    ensures within { (j : ℕ) → j < 8 → slice_index result j ≤ length (text pieces.now j) }
    ensures given { (j : ℕ) (m : List ℕ) → j < 8 → HoldsIn streams.old j m
        → HoldsIn streams.new j (m ++ take (slice_index result j) (text pieces.now j)) }
    ensures edges { (j : ℕ) (m : List ℕ) → j < 8 → HoldsIn streams.old j m
        → (slice_index result j ≡ length (text pieces.now j))
        ⊎ ((length m + slice_index result j) % 512 ≡ 0) }
{
    let mut starts = [0; 8];
    for j in 0..8 {
        let start = streams[j].fill(pieces[j]);
        starts[j] = start;
    }
    starts
}

// The pieces behind these beginnings.
fn rests_of<'a>(pieces: &[&'a [u8]; 8], starts: &[usize; 8]) -> [&'a [u8]; 8]
    requires { (j : ℕ) → j < 8 → slice_index starts.now j ≤ length (text pieces.now j) }
    ensures { (j : ℕ) → j < 8
        → text result j ≡ drop (slice_index starts.now j) (text pieces.now j) }
{
    [
        rest(pieces[0], starts[0]),
        rest(pieces[1], starts[1]),
        rest(pieces[2], starts[2]),
        rest(pieces[3], starts[3]),
        rest(pieces[4], starts[4]),
        rest(pieces[5], starts[5]),
        rest(pieces[6], starts[6]),
        rest(pieces[7], starts[7]),
    ]
}

// The piece behind its beginning.
fn rest(piece: &[u8], start: usize) -> &[u8]
    requires { start ≤ length piece.now }
    ensures { result.now ≡ drop start piece.now }
{
    &piece[start..]
}

// How many whole groups each of the pieces has at least.
fn groups_in_all(pieces: &[&[u8]; 8]) -> usize
    ensures in_range { 512 * result < 2 ^ 64 }
    ensures within { (j : ℕ) → j < 8 → 512 * result ≤ length (text pieces.now j) }
{
    let mut count = usize::MAX / GROUP_LEN;
    for j in 0..8 {
        count = count.min(pieces[j].len() / GROUP_LEN);
    }
    count
}

// Adds so many whole groups of each piece to the messages, which end at the edges of groups.
fn add_groups(streams: &mut [Sha256Stream; 8], pieces: &[&[u8]; 8], count: usize)
    requires in_range { 512 * count < 2 ^ 64 }
    requires within { (j : ℕ) → j < 8 → 512 * count ≤ length (text pieces.now j) }
    ensures { (j : ℕ) (m : List ℕ) → j < 8 → length m % 512 ≡ 0 → HoldsIn streams.old j m
        → HoldsIn streams.new j (m ++ take (512 * count) (text pieces.now j)) }
{
    let mut lanes = lanes_of(&hashes_of(streams));
    for i in 0..8 * count {
        compress(&mut lanes, words(pieces, BLOCK_LEN * i));
    }
    take_hashes(streams, &words_of(lanes), count);
}

// So many groups were added to each message, which ended at the edge of a group: these are the hash
// values after them, one behind another.
fn take_hashes(streams: &mut [Sha256Stream; 8], hashes: &[u32; 64], count: usize)
    ensures { (j : ℕ) (s : Sha256Stream) (m groups : List ℕ) → j < 8
        → slice_get streams.old j ≡ Some s → Holds s m → length m % 512 ≡ 0
        → length groups ≡ 512 * count
        → take 8 (drop (8 * j) hashes.now) ≡ hash_after s.hash groups (8 * count)
        → HoldsIn streams.new j (m ++ groups) }
{
    for j in 0..8 {
        streams[j].take_groups(&hashes[8 * j..8 * j + 8], count);
    }
}

// The hash values of the hashers, one behind another.
fn hashes_of(streams: &[Sha256Stream; 8]) -> [u32; 64]
    ensures { (j : ℕ) (s : Sha256Stream) → j < 8 → slice_get streams.now j ≡ Some s
        → take 8 (drop (8 * j) result) ≡ s.hash }
{
    let mut hashes = [0; 64];
    for j in 0..8 {
        hashes[8 * j..8 * j + 8].copy_from_slice(streams[j].hash());
    }
    hashes
}

// The hash values, eight words each, in the lanes.
fn lanes_of(hashes: &[u32; 64]) -> [u32x8; 8]
    ensures vectors { AreVectors 8 result }
    ensures lanes { (j : ℕ) → j < 8 → lane result j ≡ take 8 (drop (8 * j) hashes.now) }
{
    transposed([
        hash_of(hashes, 0),
        hash_of(hashes, 1),
        hash_of(hashes, 2),
        hash_of(hashes, 3),
        hash_of(hashes, 4),
        hash_of(hashes, 5),
        hash_of(hashes, 6),
        hash_of(hashes, 7),
    ])
}

// The hash value of message `j`.
#[inline(always)]
fn hash_of(hashes: &[u32; 64], j: usize) -> u32x8
    requires { j < 8 }
    ensures long { length result ≡ 8 }
    ensures words { result ≡ take 8 (drop (8 * j) hashes.now) }
{
    u32x8::from_slice(&hashes[8 * j..])
}

// The words of the lanes, one lane after another.
fn words_of(lanes: [u32x8; 8]) -> [u32; 64]
    requires { AreVectors 8 lanes }
    ensures { (j : ℕ) → j < 8 → take 8 (drop (8 * j) result) ≡ lane lanes j }
{
    let rows = transposed(lanes);
    let mut hashes = [0; 64];
    for j in 0..8 {
        hashes[8 * j..8 * j + 8].copy_from_slice(&rows[j].to_array());
    }
    hashes
}

// Adds to each message its piece from byte `start` on.
fn add_rests(streams: &mut [Sha256Stream; 8], pieces: &[&[u8]; 8], start: usize)
    requires { (j : ℕ) → j < 8 → start ≤ length (text pieces.now j) }
    ensures { (j : ℕ) (m : List ℕ) → j < 8 → HoldsIn streams.old j m
        → HoldsIn streams.new j (m ++ drop start (text pieces.now j)) }
{
    for j in 0..8 {
        streams[j].update(&pieces[j][start..]);
    }
}
