//! Sums of blocks: each byte is the sum of the blocks' bytes at its position, each times its
//! block's coefficient.

ghost use Rattle.std.specs.Prelude.{◌≡◌, ℕ, ◌+◌, ◌*◌, ◌<◌, ◌≤◌, List, [], length, slice_index};
ghost use Rattle.std.specs.Prelude.{slice_index_or, EachIndex, map};
ghost use Rattle.std.specs.List.{slice_range};
ghost use Rattle.zfec_code.specs.Rows.{weighted_sum};

use crate::lanes::{add_mul, add_mul_three};

/// Blocks, each with its number.
pub(crate) trait Blocks {
    /// Whether there is a block of this number.
    ghost has: { Self → ℕ → Type 0 };

    /// The bytes of each.
    ghost block: { Self → ℕ → List ℕ };

    /// Block `j`.
    fn get(&self, j: usize) -> &[u8]
        requires { has self.now j }
        ensures { result.now ≡ block self.now j };
}

/// Blocks of `size` bytes, one after another.
#[derive(Drop)]
pub(crate) struct Joined<'a> {
    pub(crate) bytes: &'a [u8],
    pub(crate) size: usize,
}

impl<'a> Blocks for Joined<'a> {
    ghost has = { λ s j. j * s.size + s.size ≤ length s.bytes.now };

    ghost block = { λ s j. slice_range s.bytes.now (j * s.size) (j * s.size + s.size) };

    fn get(&self, j: usize) -> &[u8] {
        let start = j * self.size;
        &self.bytes[start..start + self.size]
    }
}

/// The blocks of shares, in their order.
#[derive(Drop)]
pub(crate) struct Shares<'a>(pub(crate) &'a [(u16, &'a [u8])]);

impl<'a> Blocks for Shares<'a> {
    ghost has = { λ s j. j < length s.0.now };

    ghost block = { λ s j. slice_index_or (map (λ x. x.1.now) s.0.now) j [] };

    fn get(&self, j: usize) -> &[u8] {
        self.0[j].1
    }
}

/// Writes to `out` the sum of the first blocks, as many as `row` has coefficients: three at once,
/// and the rest one by one.
pub(crate) fn combine<B: Blocks>(row: &[u8], blocks: &B, out: &mut [u8])
    requires given { (j : ℕ) → j < length row.now → B.has blocks.now j }
    requires lengths { (j : ℕ) → j < length row.now
        → length out.old ≡ length (B.block blocks.now j) }
    ensures sums { EachIndex out.new (λ t.
        slice_index out.new t ≡ weighted_sum (length row.now) (slice_index row.now)
        (λ j. slice_index (B.block blocks.now j) t)) }
    ensures bytes { (m : ℕ) → slice_index row.now m < 256 }
{
    out.fill(0);
    let whole = row.len() / 3 * 3;
    for i in 0..row.len() / 3 {
        let j = i * 3;
        let factors = [row[j], row[j + 1], row[j + 2]];
        add_mul_three(
            out,
            blocks.get(j),
            blocks.get(j + 1),
            blocks.get(j + 2),
            factors,
        );
    }
    for j in whole..row.len() {
        add_mul(out, blocks.get(j), row[j]);
    }
}
