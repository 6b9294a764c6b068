//! AES-128 (FIPS 197) in counter mode (NIST SP 800-38A, 6.5).
//!
//! The key stream is the encrypted counters 0, 1, 2, .., each a block of 16 bytes, high byte first;
//! so any part of a text can be encrypted or decrypted alone, by its offset in the text. No call
//! takes memory.
//!
//! Sixteen blocks are encrypted at once, cut into slices of one bit of each byte, by exclusive ors,
//! ands and moves of whole vectors of 32 bytes alone: no look-up and no branch depends on the key
//! or the text. In a long text, how the first round of a counter changes with its last byte is
//! computed once for all. That is how the code is written, and nothing is proved of the time that a
//! call takes.
#![tactic(auto)]

ghost use Rattle.std.specs.Prelude.{◌≡◌, ◌+◌, ◌*◌, ◌/◌, ◌%◌, ◌<◌, ◌≤◌, ◌^◌, ℕ, List, [], length};
ghost use Rattle.std.specs.Prelude.{bit_xor, slice_index, slice_index_or};
ghost use Rattle.aes_ctr.specs.Aes.{AreKeys, encrypted, round_key, rounds, xor_bytes};
ghost use Rattle.aes_ctr.specs.CounterMode.{stream_byte, xored_from};
ghost use Rattle.aes_ctr.specs.Slices.{AreSlices, block_in};
ghost use Rattle.aes_ctr.specs.Differences.{AreDifferences, counter_round};

use key::{RoundKey, round_keys};
use rounds::{add, last_round, round};
use slices::{Slices, counters, first_block, repeated, transposed};
use std::marker::Model;
use std::simd::prelude::*;

mod key;
mod rounds;
mod slices;
mod substitution;

// How many bytes of the key stream are made at once: sixteen blocks of 16.
const STREAM_LEN: usize = 256;

// How many such pieces make a stretch of the stream: its 256 counters differ in their last byte
// alone.
const GROUPS: usize = 16;

// How many bytes a stretch has.
const STRETCH_LEN: usize = GROUPS * STREAM_LEN;

// From how many bytes on a table of differences is worth its making.
const LONG_LEN: usize = 4 * STRETCH_LEN;

// How many bytes a vector holds.
const VECTOR_LEN: usize = 32;

/// AES-128 under one key, which contracts see as its 16 bytes.
#[derive(Drop)]
pub struct Aes128 {
    // The keys of the eleven rounds. The first is the key itself.
    keys: [RoundKey; 11],
}

impl Model for Aes128 {
    ghost Value = { List ℕ };

    ghost view = { λ a. slice_index_or a.keys 0 [] };

    ghost invariant = { λ a. AreKeys (slice_index_or a.keys 0 []) a.keys };
}

impl Aes128 {
    /// The cipher under this key, with its key expansion (FIPS 197, 5.2).
    pub fn new(key: &[u8; 16]) -> Aes128
        ensures { result ≡ key.now }
    {
        Aes128 {
            keys: round_keys(key),
        }
    }

    /// One block encrypted (FIPS 197, 5.1).
    pub fn encrypt_block(&self, block: &[u8; 16]) -> [u8; 16]
        ensures { result ≡ encrypted self.now block.now }
    {
        let first = self.first_round(repeated(u8x16::from_array(*block)));
        first_block(self.later_rounds(first))
    }

    /// Xors `text` with the key stream from its byte `offset` on: this encrypts, and decrypts, the
    /// part of a text that begins at that byte. It ends below byte 2^64.
    pub fn xor_at(&self, offset: u64, text: &mut [u8])
        requires { offset + length text.old < 2 ^ 64 }
        ensures { text.new ≡ xored_from self.now offset text.old }
    {
        if text.len() < LONG_LEN {
            self.xor_pieces(offset, text);
        } else {
            self.xor_stretches(offset, text);
        }
    }

    // The same, stretch by stretch, with a table of the differences that a counter's last byte
    // makes after the first round.
    fn xor_stretches(&self, offset: u64, text: &mut [u8])
        requires { offset + length text.old < 2 ^ 64 }
        ensures { text.new ≡ xored_from self.now offset text.old }
    {
        let table = self.differences();
        let len = text.len();
        let mut done = 0;
        while done < len {
            let start = offset + done as u64;
            let skip = (start % STRETCH_LEN as u64) as usize;
            let count = (STRETCH_LEN - skip).min(len - done);
            self.xor_within_stretch(start, &table, &mut text[done..done + count]);
            done += count;
        }
    }

    // Adds the key stream from `offset` on to `part`, which lies within one stretch.
    fn xor_within_stretch(&self, offset: u64, table: &[Slices; GROUPS], part: &mut [u8])
        requires in_range { offset + length part.old < 2 ^ 64 }
        requires within { offset % STRETCH_LEN + length part.old ≤ STRETCH_LEN }
        requires table { AreDifferences self.now table.now }
        ensures { part.new ≡ xored_from self.now offset part.old }
    {
        if part.len() == STRETCH_LEN {
            self.xor_stretch(offset / STRETCH_LEN as u64, table, part);
        } else {
            self.xor_pieces(offset, part);
        }
    }

    // Adds a whole stretch of the key stream.
    fn xor_stretch(&self, index: u64, table: &[Slices; GROUPS], stretch: &mut [u8])
        requires in_range { index < 2 ^ 52 }
        requires table { AreDifferences self.now table.now }
        requires whole { length stretch.old ≡ STRETCH_LEN }
        ensures { stretch.new ≡ xored_from self.now (STRETCH_LEN * index) stretch.old }
    {
        let first = self.first_round(counters(GROUPS as u64 * index));
        for g in 0..GROUPS {
            let at = STREAM_LEN * g;
            self.add_stream(add(first, table[g]), &mut stretch[at..at + STREAM_LEN]);
        }
    }

    // For each group of sixteen counters below 256, what its first round differs by from that of
    // the first group.
    fn differences(&self) -> [Slices; GROUPS]
        ensures { AreDifferences self.now result }
    {
        let first = self.first_round(counters(0));
        let mut table = [first; GROUPS];
        for g in 0..GROUPS {
            table[g] = add(self.first_round(counters(g as u64)), first);
        }
        table
    }

    // Adds the key stream to a text, piece by piece.
    fn xor_pieces(&self, offset: u64, text: &mut [u8])
        requires { offset + length text.old < 2 ^ 64 }
        ensures { text.new ≡ xored_from self.now offset text.old }
    {
        let len = text.len();
        let mut done = 0;
        while done < len {
            let start = offset + done as u64;
            let skip = (start % STREAM_LEN as u64) as usize;
            let count = (STREAM_LEN - skip).min(len - done);
            self.xor_within(start, &mut text[done..done + count]);
            done += count;
        }
    }

    // Adds the key stream from `offset` on to `part`, which lies within one piece of the stream.
    fn xor_within(&self, offset: u64, part: &mut [u8])
        requires { offset % STREAM_LEN + length part.old ≤ STREAM_LEN }
        ensures { part.new ≡ xored_from self.now offset part.old }
    {
        let index = offset / STREAM_LEN as u64;
        let len = part.len();
        if len == STREAM_LEN {
            self.xor_piece(index, part);
        } else {
            let skip = (offset % STREAM_LEN as u64) as usize;
            let stream = self.stream(index);
            add_bytes(part, &stream[skip..skip + len]);
        }
    }

    // Piece `index` of the key stream: what it makes of zeros.
    fn stream(&self, index: u64) -> [u8; STREAM_LEN]
        requires { index < 2 ^ 56 }
        ensures { (k : ℕ) → k < STREAM_LEN
            → slice_index result k ≡ stream_byte self.now (STREAM_LEN * index + k) }
    {
        let mut bytes = [0; STREAM_LEN];
        self.xor_piece(index, &mut bytes);
        bytes
    }

    // Adds piece `index` of the key stream to a piece of the text.
    fn xor_piece(&self, index: u64, piece: &mut [u8])
        requires in_range { index < 2 ^ 56 }
        requires whole { length piece.old ≡ STREAM_LEN }
        ensures { piece.new ≡ xored_from self.now (STREAM_LEN * index) piece.old }
    {
        self.add_stream(self.first_round(counters(index)), piece);
    }

    // Adds the key stream of sixteen counters to a piece of the text, straight from the vectors.
    // `state` is the counters after their first round.
    fn add_stream(&self, state: Slices, piece: &mut [u8])
        requires slices { AreSlices state }
        requires whole { length piece.old ≡ STREAM_LEN }
        ensures { (index : ℕ)
            → ((j : ℕ) → j < 16 → block_in state j ≡ counter_round self.now (16 * index + j))
            → piece.new ≡ xored_from self.now (STREAM_LEN * index) piece.old }
    {
        let vectors = transposed(self.later_rounds(state));
        for t in 0..8 {
            add_vector(piece, VECTOR_LEN * t, vectors[t]);
        }
    }

    // Sixteen blocks after the first addition of a key and one round.
    #[inline(always)]
    fn first_round(&self, blocks: Slices) -> Slices
        requires { AreSlices blocks }
        ensures slices { AreSlices result }
        ensures blocks { (j : ℕ) → j < 16
            → block_in result j ≡ rounds self.now (block_in blocks j) 1 }
    {
        round(add(blocks, self.keys[0].slices()), self.keys[1].slices())
    }

    // The other rounds: what was encrypted as far as that, encrypted.
    #[inline(always)]
    fn later_rounds(&self, first: Slices) -> Slices
        requires { AreSlices first }
        ensures slices { AreSlices result }
        ensures blocks { (j : ℕ) (block : List ℕ) → j < 16
            → block_in first j ≡ rounds self.now block 1
            → block_in result j ≡ encrypted self.now block }
    {
        let mut state = first;
        'rounds: for r in 2..10 {
            let next = round(state, self.keys[r].slices());
            state = next;
        }
        last_round(state, self.keys[10].slices())
    }
}

// Adds a vector to the bytes of `text` from `at` on.
#[inline(always)]
fn add_vector(text: &mut [u8], at: usize, vector: u8x32)
    requires within { at + VECTOR_LEN ≤ length text.old }
    requires long { length vector ≡ VECTOR_LEN }
    ensures below { (k : ℕ) → k < at → slice_index text.new k ≡ slice_index text.old k }
    ensures added { (i : ℕ) → i < VECTOR_LEN
        → slice_index text.new (at + i)
        ≡ bit_xor (slice_index text.old (at + i)) (slice_index vector i) }
    ensures above { (k : ℕ) → at + VECTOR_LEN ≤ k
        → slice_index text.new k ≡ slice_index text.old k }
{
    let sum = u8x32::from_slice(&text[at..]) ^ vector;
    sum.copy_to_slice(&mut text[at..]);
}

// Adds `stream` to `text`, byte by byte.
#[inline(always)]
fn add_bytes(text: &mut [u8], stream: &[u8])
    requires { length text.old ≡ length stream.now }
    ensures { text.new ≡ xor_bytes text.old stream.now }
{
    for i in 0..text.len() {
        text[i] ^= stream[i];
    }
}
