//! Eight messages with their padding, block by block.

ghost use Rattle.std.specs.Prelude.{◌≡◌, ◌+◌, ◌-◌, ◌*◌, ◌/◌, ◌<◌, ◌≤◌, ◌^◌, ◌++◌, ℕ};
ghost use Rattle.std.specs.Prelude.{drop, length, slice_index, take};
ghost use Rattle.sha2.specs.Sha256.{final_hash, initial_hash_256, padded_message};
ghost use Rattle.sha2_lanes.specs.Lanes.{AreLong, AreVectors, AreWords, lane, message, text};

use crate::round::compress;
use crate::words::words;
use std::simd::prelude::*;

// How many bytes a block has.
pub(crate) const BLOCK_LEN: usize = 64;

// Puts bytes, which stand in a text from byte `offset` on, into the text's block from byte `start`
// on: those that lie within the block.
fn put(block: &mut [u8; 64], start: usize, offset: usize, bytes: &[u8])
    requires start { start + 64 < 2 ^ 64 }
    requires offset { offset + length bytes.now < 2 ^ 64 }
    ensures inside { (i : ℕ) → i < 64 → offset ≤ start + i
        → start + i < offset + length bytes.now
        → slice_index block.new i ≡ slice_index bytes.now (start + i - offset) }
    ensures before { (i : ℕ) → i < 64 → start + i < offset
        → slice_index block.new i ≡ slice_index block.old i }
    ensures behind { (i : ℕ) → i < 64 → offset + length bytes.now ≤ start + i
        → slice_index block.new i ≡ slice_index block.old i }
{
    let from = start.max(offset);
    let to = (start + BLOCK_LEN).min(offset + bytes.len());
    if from < to {
        block[from - start..to - start].copy_from_slice(&bytes[from - offset..to - offset]);
    }
}

// The block that begins at byte `start` of a prefix and a message with their padding.
fn padded_block(prefix: &[u8], message: &[u8], start: usize) -> [u8; 64]
    requires short { length prefix.now < 2 ^ 32 }
    requires within { start + 64 ≤ (length prefix.now + length message.now + 72) / 64 * 64 }
    ensures { (i : ℕ) → i < 64 → slice_index result i
        ≡ slice_index (padded_message (prefix.now ++ message.now)) (start + i) }
{
    let total = prefix.len() + message.len();
    let end = (total + 72) / BLOCK_LEN * BLOCK_LEN;
    let bits = (total as u64).wrapping_mul(8).to_be_bytes();
    let mut block = [0u8; 64];
    put(&mut block, start, 0, prefix);
    put(&mut block, start, prefix.len(), message);
    put(&mut block, start, total, &[0x80]);
    put(&mut block, start, end - 8, &bits);
    block
}

// The words of block `b` of each of the eight messages with their padding.
#[inline(always)]
fn block_words(prefix: &[u8], messages: &[&[u8]; 8], len: usize, b: usize) -> [u32x8; 16]
    requires messages { AreLong len messages.now }
    requires prefix { length prefix.now < 2 ^ 32 }
    requires len { len < 2 ^ 63 }
    requires block { b < (length prefix.now + len + 72) / 64 }
    ensures { AreWords (λ j. take 64 (drop (b * 64)
        (padded_message (message prefix.now messages.now j)))) result }
{
    let start = BLOCK_LEN * b;
    if prefix.len() <= start && start + BLOCK_LEN <= prefix.len() + len {
        words(messages, start - prefix.len())
    } else {
        edge_words(prefix, messages, start)
    }
}

// The words of the blocks from byte `start` of the eight messages with their padding on, where they
// do not lie within the messages.
fn edge_words(prefix: &[u8], messages: &[&[u8]; 8], start: usize) -> [u32x8; 16]
    requires prefix { length prefix.now < 2 ^ 32 }
    requires within { (j : ℕ) → j < 8
        → start + 64 ≤ (length prefix.now + length (text messages.now j) + 72) / 64 * 64 }
    ensures { AreWords (λ j. take 64 (drop start
        (padded_message (message prefix.now messages.now j)))) result }
{
    let mut blocks = [[0u8; 64]; 8];
    for j in 0..8 {
        blocks[j] = padded_block(prefix, messages[j], start);
    }
    words(
        &[
            &blocks[0], &blocks[1], &blocks[2], &blocks[3], &blocks[4], &blocks[5], &blocks[6],
            &blocks[7],
        ],
        0,
    )
}

// The hash values of the eight messages, in the lanes.
pub(crate) fn hashes(prefix: &[u8], messages: &[&[u8]; 8], len: usize) -> [u32x8; 8]
    requires messages { AreLong len messages.now }
    requires prefix { length prefix.now < 2 ^ 32 }
    requires len { len < 2 ^ 63 }
    ensures vectors { AreVectors 8 result }
    ensures lanes { (j : ℕ) → j < 8
        → lane result j ≡ final_hash initial_hash_256 (message prefix.now messages.now j) }
{
    let mut h = initial();
    for b in 0..(prefix.len() + len + 72) / BLOCK_LEN {
        let words = block_words(prefix, messages, len, b);
        compress(&mut h, words);
    }
    h
}

// The initial hash value in each lane.
pub(crate) fn initial() -> [u32x8; 8]
    ensures vectors { AreVectors 8 result }
    ensures lanes { (j : ℕ) → j < 8 → lane result j ≡ initial_hash_256 }
{
    [
        u32x8::splat(0x6a09e667),
        u32x8::splat(0xbb67ae85),
        u32x8::splat(0x3c6ef372),
        u32x8::splat(0xa54ff53a),
        u32x8::splat(0x510e527f),
        u32x8::splat(0x9b05688c),
        u32x8::splat(0x1f83d9ab),
        u32x8::splat(0x5be0cd19),
    ]
}
