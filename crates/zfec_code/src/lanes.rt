//! Multiples of whole blocks, by vectors of 32 bytes.
//!
//! A product by c is additive, so c times a byte is c times its low nibble plus c times its high
//! one, and each of the two is a look-up in a table of 16 bytes, which is one byte shuffle within
//! each half of a vector: the table stands there twice.

ghost use Rattle.std.specs.Prelude.{◌≡◌, ℕ, ◌+◌, ◌-◌, ◌*◌, ◌/◌, ◌%◌, ◌<◌, ◌≤◌, length, slice_index};
ghost use Rattle.std.specs.Prelude.{bit_xor};
ghost use Rattle.std.specs.Simd.Lanes.{Each1};
ghost use Rattle.zfec_code.specs.Field.{product, AddsMultiple, AddsThreeMultiples};
ghost use Rattle.zfec_code.specs.Nibbles.{IsTable};

use crate::field::mul;
use std::simd::prelude::*;

/// How many bytes a vector holds.
const LANES: usize = 32;

/// Adds `c` times each byte of `src` to the byte of `dst` at its position.
pub fn add_mul(dst: &mut [u8], src: &[u8], c: u8)
    requires { length dst.old ≡ length src.now }
    ensures { AddsMultiple dst.old dst.new src.now c }
{
    let factor = Factor::new(c);
    let whole = dst.len() / LANES;
    for i in 0..whole {
        let multiple = factor.times(src, i * LANES);
        add_lanes(dst, i * LANES, multiple);
    }
    for i in whole * LANES..dst.len() {
        dst[i] ^= mul(c, src[i]);
    }
}

/// Adds the multiples of three sources in one pass: to each byte of `dst` `factors[0]` times the
/// byte of `x` at its position, `factors[1]` times that of `y` and `factors[2]` times that of `z`.
pub fn add_mul_three(dst: &mut [u8], x: &[u8], y: &[u8], z: &[u8], factors: [u8; 3])
    requires first { length dst.old ≡ length x.now }
    requires second { length dst.old ≡ length y.now }
    requires third { length dst.old ≡ length z.now }
    ensures { AddsThreeMultiples dst.old dst.new x.now y.now z.now factors }
{
    let [a, b, c] = factors;
    let by_a = Factor::new(a);
    let by_b = Factor::new(b);
    let by_c = Factor::new(c);
    let whole = dst.len() / LANES;
    for i in 0..whole {
        let at = i * LANES;
        add_lanes(
            dst,
            at,
            by_a.times(x, at) ^ by_b.times(y, at) ^ by_c.times(z, at),
        );
    }
    for i in whole * LANES..dst.len() {
        dst[i] ^= mul(a, x[i]) ^ mul(b, y[i]) ^ mul(c, z[i]);
    }
}

/// A byte to multiply by, with the tables of its products with the low and the high nibbles.
#[derive(Drop)]
struct Factor {
    value: u8,
    low: u8x32,
    high: u8x32,
    ghost low_nibbles: { IsTable low value 1 },
    ghost high_nibbles: { IsTable high value 16 },
}

impl Factor {
    fn new(value: u8) -> Factor
        ensures { result.value ≡ value }
    {
        let low = u8x32::from_array(multiples(value, 1));
        let high = u8x32::from_array(multiples(value, 16));
        Factor { value, low, high }
    }

    // The multiples of the 32 bytes of `src` from `at` on.
    #[inline(always)]
    fn times(&self, src: &[u8], at: usize) -> u8x32
        requires { at + 32 ≤ length src.now }
        ensures size { length result ≡ 32 }
        ensures each { (j : ℕ) → j < 32
            → slice_index result j ≡ product self.now.value (slice_index src.now (at + j)) }
    {
        let bytes = u8x32::from_slice(&src[at..]);
        by_low_nibble(self.low, bytes) ^ by_high_nibble(self.high, bytes)
    }
}

// The products of `c` and 0, `step`, 2 `step`, up to 15 `step`, twice.
fn multiples(c: u8, step: usize) -> [u8; 32]
    requires { step ≤ 16 }
    ensures { IsTable result c step }
{
    let mut table = [0u8; 32];
    for i in 0..32 {
        table[i] = mul(c, (i % 16 * step) as u8);
    }
    table
}

// Adds 32 bytes to those of `dst` from `at` on.
#[inline(always)]
fn add_lanes(dst: &mut [u8], at: usize, lanes: u8x32)
    requires in_dst { at + 32 ≤ length dst.old }
    requires long { length lanes ≡ 32 }
    ensures below { (k : ℕ) → k < at → slice_index dst.new k ≡ slice_index dst.old k }
    ensures added { (k : ℕ) → at ≤ k → k < at + 32
        → slice_index dst.new k ≡ bit_xor (slice_index dst.old k) (slice_index lanes (k - at)) }
    ensures above { (k : ℕ) → at + 32 ≤ k → slice_index dst.new k ≡ slice_index dst.old k }
{
    let sum = u8x32::from_slice(&dst[at..]) ^ lanes;
    sum.copy_to_slice(&mut dst[at..]);
}

// Each byte's low nibble looked up in the half of the table where the byte stands.
#[inline(always)]
fn by_low_nibble(table: u8x32, bytes: u8x32) -> u8x32
    requires { length bytes ≡ 32 }
    ensures size { length result ≡ 32 }
    ensures lanes { (i : ℕ) → i < 32 → slice_index result i
        ≡ slice_index table (16 * (i / 16) + slice_index bytes i % 16) }
{
    table.swizzle_dyn_within::<16>(bytes & u8x32::splat(15))
}

// The same of its high nibble.
#[inline(always)]
fn by_high_nibble(table: u8x32, bytes: u8x32) -> u8x32
    requires long { length bytes ≡ 32 }
    requires fit { Each1 (λ x. x < 256) bytes }
    ensures size { length result ≡ 32 }
    ensures lanes { (i : ℕ) → i < 32 → slice_index result i
        ≡ slice_index table (16 * (i / 16) + slice_index bytes i / 16) }
{
    table.swizzle_dyn_within::<16>(bytes >> u8x32::splat(4))
}
