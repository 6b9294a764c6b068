//! The words of eight blocks, side by side.

ghost use Rattle.std.specs.Prelude.{◌≡◌, ◌+◌, ◌*◌, ◌^◌, ◌<◌, ◌≤◌, ℕ, List, []};
ghost use Rattle.std.specs.Prelude.{drop, length, slice_index, slice_index_or, take};
ghost use Rattle.sha2.specs.Sha256.{word_at};
ghost use Rattle.sha2_lanes.specs.Lanes.{AreVectors, AreWords, lane, spread_words, text};

use std::simd::prelude::*;

// The eight words from byte `at` on.
#[inline(always)]
fn row(m: &[u8], at: usize) -> u32x8
    requires { at + 32 ≤ length m.now }
    ensures long { length result ≡ 8 }
    ensures words { (k : ℕ) → k < 8 → slice_index result k ≡ word_at m.now (at + 4 * k) }
{
    let bytes = u8x32::from_slice(&m[at..]);
    u32x8::from_le_bytes(bytes.swizzle([
        3, 2, 1, 0, 7, 6, 5, 4, 11, 10, 9, 8, 15, 14, 13, 12, 19, 18, 17, 16, 23, 22, 21, 20, 27,
        26, 25, 24, 31, 30, 29, 28,
    ]))
}

// The eight lists that are the lanes of the eight vectors.
#[inline(always)]
pub(crate) fn transposed(rows: [u32x8; 8]) -> [u32x8; 8]
    requires { AreVectors 8 rows }
    ensures vectors { AreVectors 8 result }
    ensures lanes { (j : ℕ) → j < 8 → lane result j ≡ slice_index_or rows j [] }
{
    spread(spread(spread(rows)))
}

// The vectors one after the other, as 64 words: each of the first 32 words goes to the double of
// its position, and the others fill the gaps.
#[inline(always)]
fn spread(rows: [u32x8; 8]) -> [u32x8; 8]
    requires { AreVectors 8 rows }
    ensures vectors { AreVectors 8 result }
    ensures value { result ≡ spread_words rows }
{
    let [a, b, c, d, e, f, g, h] = rows;
    let (s0, s1) = a.interleave(e);
    let (s2, s3) = b.interleave(f);
    let (s4, s5) = c.interleave(g);
    let (s6, s7) = d.interleave(h);
    [s0, s1, s2, s3, s4, s5, s6, s7]
}

// Eight words of eight messages, from byte `at` of each on.
#[inline(always)]
fn half(messages: &[&[u8]; 8], at: usize) -> [u32x8; 8]
    requires { (j : ℕ) → j < 8 → at + 32 ≤ length (text messages.now j) }
    ensures vectors { AreVectors 8 result }
    ensures words { (j k : ℕ) → j < 8 → k < 8
        → slice_index (lane result j) k ≡ word_at (text messages.now j) (at + 4 * k) }
{
    transposed([
        row(messages[0], at),
        row(messages[1], at),
        row(messages[2], at),
        row(messages[3], at),
        row(messages[4], at),
        row(messages[5], at),
        row(messages[6], at),
        row(messages[7], at),
    ])
}

// The words of the block from byte `at` of each on.
#[inline(always)]
pub(crate) fn words(messages: &[&[u8]; 8], at: usize) -> [u32x8; 16]
    requires in_range { at + 64 < 2 ^ 64 }
    requires room { (j : ℕ) → j < 8 → at + 64 ≤ length (text messages.now j) }
    ensures { AreWords (λ j. take 64 (drop at (text messages.now j))) result }
{
    let [a, b, c, d, e, f, g, h] = half(messages, at);
    let [i, j, k, l, n, o, p, q] = half(messages, at + 32);
    [a, b, c, d, e, f, g, h, i, j, k, l, n, o, p, q]
}
