//! The rounds, on sixteen blocks at once (FIPS 197, 5.1).

ghost use Rattle.std.specs.Prelude.{◌≡◌, ◌+◌, ◌*◌, ◌/◌, ◌%◌, ◌<◌, ℕ, length, map};
ghost use Rattle.aes_ctr.specs.Aes.{last_round, mix_columns, round, shift_rows, xor_bytes};
ghost use Rattle.aes_ctr.specs.Byte.{times_x};
ghost use Rattle.aes_ctr.specs.Slices.{AreSlices, block_in, moved_in_halves, turned_columns};

use crate::slices::Slices;
use crate::substitution::substituted;
use std::simd::prelude::*;

// One round but the last.
#[inline(always)]
pub(crate) fn round(slices: Slices, key: Slices) -> Slices
    requires slices { AreSlices slices }
    requires key { AreSlices key }
    ensures slices { AreSlices result }
    ensures blocks { (j : ℕ) → j < 16
        → block_in result j ≡ round (block_in key j) (block_in slices j) }
{
    add(mixed(shifted(substituted(slices))), key)
}

// The last round.
#[inline(always)]
pub(crate) fn last_round(slices: Slices, key: Slices) -> Slices
    requires slices { AreSlices slices }
    requires key { AreSlices key }
    ensures slices { AreSlices result }
    ensures blocks { (j : ℕ) → j < 16
        → block_in result j ≡ last_round (block_in key j) (block_in slices j) }
{
    add(shifted(substituted(slices)), key)
}

// The sum of the blocks at each position.
#[inline(always)]
pub(crate) fn add(a: Slices, b: Slices) -> Slices
    requires first { AreSlices a }
    requires second { AreSlices b }
    ensures slices { AreSlices result }
    ensures blocks { (j : ℕ) → block_in result j ≡ xor_bytes (block_in a j) (block_in b j) }
{
    let [a0, a1, a2, a3, a4, a5, a6, a7] = a;
    let [b0, b1, b2, b3, b4, b5, b6, b7] = b;
    [
        a0 ^ b0,
        a1 ^ b1,
        a2 ^ b2,
        a3 ^ b3,
        a4 ^ b4,
        a5 ^ b5,
        a6 ^ b6,
        a7 ^ b7,
    ]
}

// Row r of each block turned left by r places.
#[inline(always)]
fn shifted(slices: Slices) -> Slices
    requires { AreSlices slices }
    ensures slices { AreSlices result }
    ensures blocks { (j : ℕ) → block_in result j ≡ shift_rows (block_in slices j) }
{
    let [s0, s1, s2, s3, s4, s5, s6, s7] = slices;
    [
        shifted_slice(s0),
        shifted_slice(s1),
        shifted_slice(s2),
        shifted_slice(s3),
        shifted_slice(s4),
        shifted_slice(s5),
        shifted_slice(s6),
        shifted_slice(s7),
    ]
}

#[inline(always)]
fn shifted_slice(slice: u8x32) -> u8x32
    requires { length slice ≡ 32 }
    ensures { result ≡ moved_in_halves (λ p. (p + 4 * (p % 4)) % 16) slice }
{
    slice.swizzle([
        0, 5, 10, 15, 4, 9, 14, 3, 8, 13, 2, 7, 12, 1, 6, 11, 16, 21, 26, 31, 20, 25, 30, 19, 24,
        29, 18, 23, 28, 17, 22, 27,
    ])
}

// Each column times the matrix of MixColumns: twice the sum of a byte and the one below it, with
// the other three added.
#[inline(always)]
fn mixed(slices: Slices) -> Slices
    requires { AreSlices slices }
    ensures slices { AreSlices result }
    ensures blocks { (j : ℕ) → j < 16 → block_in result j ≡ mix_columns (block_in slices j) }
{
    let below = turned(slices);
    let sums = add(slices, below);
    add(add(doubled(sums), below), turned(turned(sums)))
}

// Each column turned up by one row.
#[inline(always)]
fn turned(slices: Slices) -> Slices
    requires { AreSlices slices }
    ensures slices { AreSlices result }
    ensures blocks { (j : ℕ) → block_in result j ≡ turned_columns (block_in slices j) }
{
    let [s0, s1, s2, s3, s4, s5, s6, s7] = slices;
    [
        turned_slice(s0),
        turned_slice(s1),
        turned_slice(s2),
        turned_slice(s3),
        turned_slice(s4),
        turned_slice(s5),
        turned_slice(s6),
        turned_slice(s7),
    ]
}

#[inline(always)]
fn turned_slice(slice: u8x32) -> u8x32
    requires { length slice ≡ 32 }
    ensures { result ≡ moved_in_halves (λ p. 4 * (p / 4) + (p + 1) % 4) slice }
{
    slice.swizzle([
        1, 2, 3, 0, 5, 6, 7, 4, 9, 10, 11, 8, 13, 14, 15, 12, 17, 18, 19, 16, 21, 22, 23, 20, 25,
        26, 27, 24, 29, 30, 31, 28,
    ])
}

// Each byte times x.
#[inline(always)]
fn doubled(slices: Slices) -> Slices
    requires { AreSlices slices }
    ensures slices { AreSlices result }
    ensures blocks { (j : ℕ) → j < 16 → block_in result j ≡ map times_x (block_in slices j) }
{
    let [s0, s1, s2, s3, s4, s5, s6, s7] = slices;
    [s7, s0 ^ s7, s1, s2 ^ s7, s3 ^ s7, s4, s5, s6]
}
