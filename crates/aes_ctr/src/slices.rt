//! Sixteen blocks side by side, a bit of each byte in each of eight slices.

ghost use Rattle.std.specs.Prelude.{◌≡◌, ◌+◌, ◌-◌, ◌*◌, ◌%◌, ◌/◌, ◌^◌, ◌<◌, ◌==◌, ◌∷◌, ◌++◌};
ghost use Rattle.std.specs.Prelude.{if◌then◌else◌, ℕ, [], length, replicate, slice_index};
ghost use Rattle.std.specs.Prelude.{slice_index_or, bit_and};
ghost use Rattle.std.specs.Simd.Lanes.{Each1};
ghost use Rattle.std.specs.Int.{w128, bit_at, to_be_bytes};
ghost use Rattle.aes_ctr.specs.Slices.{AreSlices, block_in};

use std::simd::prelude::*;

// Slice i has bit i of each byte. The even blocks are in the low halves of the slices and the odd
// ones in the high halves, so that byte p of a half has as its bit j what byte p of the half's
// block j has.
pub(crate) type Slices = [u8x32; 8];

// The same block sixteen times.
#[inline(always)]
pub(crate) fn repeated(block: u8x16) -> Slices
    requires long { length block ≡ 16 }
    requires bytes { Each1 (λ b. b < 256) block }
    ensures slices { AreSlices result }
    ensures blocks { (j : ℕ) → j < 16 → block_in result j ≡ block }
{
    let both = twice(block);
    [
        spread::<1>(both),
        spread::<2>(both),
        spread::<4>(both),
        spread::<8>(both),
        spread::<16>(both),
        spread::<32>(both),
        spread::<64>(both),
        spread::<128>(both),
    ]
}

// The block in both halves.
#[inline(always)]
fn twice(block: u8x16) -> u8x32
    requires { length block ≡ 16 }
    ensures { result ≡ block ++ block }
{
    block.swizzle([
        0, 1, 2, 3, 4, 5, 6, 7, 8, 9, 10, 11, 12, 13, 14, 15, 0, 1, 2, 3, 4, 5, 6, 7, 8, 9, 10, 11,
        12, 13, 14, 15,
    ])
}

// For each byte all bits set where it has this one, and else none.
#[inline(always)]
fn spread<const BIT: u8>(both: u8x32) -> u8x32
    ensures long { length result ≡ 32 }
    ensures lanes { (q : ℕ) → q < 32
        → slice_index result q ≡ (if bit_and (slice_index both q) BIT == BIT then 255 else 0) }
{
    let bit = u8x32::splat(BIT);
    (both & bit)
        .simd_eq(bit)
        .select(u8x32::splat(255), u8x32::splat(0))
}

// The sixteen counters from 16 * `index` on.
#[inline(always)]
pub(crate) fn counters(index: u64) -> Slices
    requires { index < 2 ^ 60 }
    ensures slices { AreSlices result }
    ensures blocks { (j : ℕ) → j < 16 → block_in result j ≡ to_be_bytes w128 (16 * index + j) }
{
    let [a, b, c, d, e, f, g, h] = (16 * index).to_be_bytes();
    let block = u8x16::from_array([0, 0, 0, 0, 0, 0, 0, 0, a, b, c, d, e, f, g, h]);
    let [s0, s1, s2, s3, s4, s5, s6, s7] = repeated(block);
    [
        s0 | last_bytes(0, 0b1111_1111),
        s1 | last_bytes(0b1010_1010, 0b1010_1010),
        s2 | last_bytes(0b1100_1100, 0b1100_1100),
        s3 | last_bytes(0b1111_0000, 0b1111_0000),
        s4,
        s5,
        s6,
        s7,
    ]
}

// Zeros, but for the last byte of each half.
#[inline(always)]
fn last_bytes(even: u8, odd: u8) -> u8x32
    ensures { result ≡ replicate 15 0 ++ even ∷ replicate 15 0 ++ odd ∷ [] }
{
    u8x32::from_array([
        0, 0, 0, 0, 0, 0, 0, 0, 0, 0, 0, 0, 0, 0, 0, even, 0, 0, 0, 0, 0, 0, 0, 0, 0, 0, 0, 0, 0,
        0, 0, odd,
    ])
}

// The first of the blocks.
pub(crate) fn first_block(slices: Slices) -> [u8; 16]
    requires { AreSlices slices }
    ensures { result ≡ block_in slices 0 }
{
    let [first, _, _, _, _, _, _, _] = transposed(slices);
    first.extract::<0, 16>().to_array()
}

// The sixteen blocks, one after the other, two in each vector: the bits of the slices, transposed
// by exchanges of halves.
#[inline(always)]
pub(crate) fn transposed(slices: Slices) -> Slices
    requires { AreSlices slices }
    ensures slices { AreSlices result }
    ensures blocks { (t : ℕ) → t < 8
        → slice_index_or result t [] ≡ block_in slices (2 * t) ++ block_in slices (2 * t + 1) }
{
    let [q0, q1, q2, q3, q4, q5, q6, q7] = slices;
    let (q0, q1) = exchanged_1(q0, q1);
    let (q2, q3) = exchanged_1(q2, q3);
    let (q4, q5) = exchanged_1(q4, q5);
    let (q6, q7) = exchanged_1(q6, q7);
    let (q0, q2) = exchanged_2(q0, q2);
    let (q1, q3) = exchanged_2(q1, q3);
    let (q4, q6) = exchanged_2(q4, q6);
    let (q5, q7) = exchanged_2(q5, q7);
    let (q0, q4) = exchanged_4(q0, q4);
    let (q1, q5) = exchanged_4(q1, q5);
    let (q2, q6) = exchanged_4(q2, q6);
    let (q3, q7) = exchanged_4(q3, q7);
    [q0, q1, q2, q3, q4, q5, q6, q7]
}

// The odd bits of `low` change places with the even bits of `high`.
#[inline(always)]
fn exchanged_1(low: u8x32, high: u8x32) -> (u8x32, u8x32)
    ensures long { (length result.0 ≡ 32) × (length result.1 ≡ 32) }
    ensures bytes { (q : ℕ) → q < 32
        → (slice_index result.0 q < 256) × (slice_index result.1 q < 256) }
    ensures first { (q b : ℕ) → q < 32 → b < 8 → bit_at (slice_index result.0 q) b
        ≡ (if b % 2 == 0 then bit_at (slice_index low q) b
        else bit_at (slice_index high q) (b - 1)) }
    ensures second { (q b : ℕ) → q < 32 → b < 8 → bit_at (slice_index result.1 q) b
        ≡ (if b % 2 == 0 then bit_at (slice_index low q) (b + 1)
        else bit_at (slice_index high q) b) }
{
    let even = u8x32::splat(0b0101_0101);
    let odd = u8x32::splat(0b1010_1010);
    (
        (low & even) | ((high & even) << u8x32::splat(1)),
        ((low & odd) >> u8x32::splat(1)) | (high & odd),
    )
}

// The same with pairs of bits.
#[inline(always)]
fn exchanged_2(low: u8x32, high: u8x32) -> (u8x32, u8x32)
    ensures long { (length result.0 ≡ 32) × (length result.1 ≡ 32) }
    ensures bytes { (q : ℕ) → q < 32
        → (slice_index result.0 q < 256) × (slice_index result.1 q < 256) }
    ensures first { (q b : ℕ) → q < 32 → b < 8 → bit_at (slice_index result.0 q) b
        ≡ (if b / 2 % 2 == 0 then bit_at (slice_index low q) b
        else bit_at (slice_index high q) (b - 2)) }
    ensures second { (q b : ℕ) → q < 32 → b < 8 → bit_at (slice_index result.1 q) b
        ≡ (if b / 2 % 2 == 0 then bit_at (slice_index low q) (b + 2)
        else bit_at (slice_index high q) b) }
{
    let even = u8x32::splat(0b0011_0011);
    let odd = u8x32::splat(0b1100_1100);
    (
        (low & even) | ((high & even) << u8x32::splat(2)),
        ((low & odd) >> u8x32::splat(2)) | (high & odd),
    )
}

// The same with groups of four bits.
#[inline(always)]
fn exchanged_4(low: u8x32, high: u8x32) -> (u8x32, u8x32)
    ensures long { (length result.0 ≡ 32) × (length result.1 ≡ 32) }
    ensures bytes { (q : ℕ) → q < 32
        → (slice_index result.0 q < 256) × (slice_index result.1 q < 256) }
    ensures first { (q b : ℕ) → q < 32 → b < 8 → bit_at (slice_index result.0 q) b
        ≡ (if b / 4 % 2 == 0 then bit_at (slice_index low q) b
        else bit_at (slice_index high q) (b - 4)) }
    ensures second { (q b : ℕ) → q < 32 → b < 8 → bit_at (slice_index result.1 q) b
        ≡ (if b / 4 % 2 == 0 then bit_at (slice_index low q) (b + 4)
        else bit_at (slice_index high q) b) }
{
    let even = u8x32::splat(0b0000_1111);
    let odd = u8x32::splat(0b1111_0000);
    (
        (low & even) | ((high & even) << u8x32::splat(4)),
        ((low & odd) >> u8x32::splat(4)) | (high & odd),
    )
}
