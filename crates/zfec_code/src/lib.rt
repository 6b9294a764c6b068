//! zfec's erasure code: from k primary blocks n shares, of which any k give the blocks back.
//!
//! The bytes of the primary blocks at one position are the values of a polynomial of degree below k
//! over the field of 256 elements at the points 0, 1, x, x^2, ..; the byte of that position in
//! share i is its value at point i. So share i below k is primary block i.
#![tactic(auto)]

ghost use Rattle.std.specs.Prelude.{◌≡◌, ◌≢◌, ℕ, ◌*◌, ◌<◌, ◌≤◌, List, length, map, All, IfOk};
ghost use Rattle.std.specs.Prelude.{IfErr, OnOk, OnErr, IsErrOf, ◌⊎◌};
ghost use Rattle.zfec_code.specs.Shares.{IsShareOf, Parameters, AreParameters, HaveLengths};
ghost use Rattle.zfec_code.specs.Shares.{AreSharesOf};
ghost use Rattle.zfec_code.specs.declared.CodeError.TheVariants.{OutOfMemory};
ghost use Rattle.zfec_code.specs.CodeError.{refusal_number};
ghost use Rattle.zfec_code.specs.Laws.{FormulaGivesShares, PrimariesAreUnique};
ghost use Rattle.zfec_code.specs.Laws.{ShareValuesAreUnique};
ghost use Rattle.zfec_code.specs.Rows.{AreDistinct, primary_points};
ghost use Rattle.zfec_code.specs.Tables.{IsTable};

mod decoding;
pub mod field;
mod interpolation;
pub mod lanes;
mod sums;
mod tables;

pub use decoding::Decoder;
use decoding::{are_below, has_repeat, have_lengths, numbers_of};
use field::point;
use interpolation::Nodes;
use std::alloc::{AllocError, AllocFailed, Global};
use std::marker::Model;
use sums::{Blocks, Joined, combine};

/// The greatest number of shares.
pub const MAX_SHARES: u16 = 256;

/// Why a call is refused.
#[derive(Clone, Copy, Debug, PartialEq, Eq)]
pub enum CodeError {
    /// No memory was left.
    OutOfMemory,
    /// k is 0, or above n, or n is above 256.
    BadParameters,
    /// Two shares have one number.
    RepeatedShare,
    /// A share's number is not below n.
    ShareOutOfRange,
    /// There are not k shares, their lengths differ, or the output is not k times as long as one.
    LengthMismatch,
}

impl CodeError {
    /// The number of the refusal.
    pub fn number(self) -> u8
        ensures { result ≡ refusal_number self }
    {
        match self {
            CodeError::OutOfMemory => 1,
            CodeError::BadParameters => 2,
            CodeError::RepeatedShare => 3,
            CodeError::ShareOutOfRange => 4,
            CodeError::LengthMismatch => 5,
        }
    }
}

impl From<AllocError> for CodeError {
    ghost from_gives = { λ _ e. e ≡ OutOfMemory };

    fn from(_error: AllocError) -> CodeError {
        CodeError::OutOfMemory
    }
}

impl<T: Drop> From<AllocFailed<T>> for CodeError {
    ghost from_gives = { λ _ e. e ≡ OutOfMemory };

    fn from(_error: AllocFailed<T>) -> CodeError {
        CodeError::OutOfMemory
    }
}

/// A code of k primary blocks and n shares, with a row of k coefficients for each share that is no
/// primary block.
#[derive(Drop)]
pub struct Code {
    k: usize,
    n: usize,
    rows: Vec<u8>,
}

impl Model for Code {
    ghost Value = { Parameters };

    ghost view = { λ c. record { k = c.k; n = c.n } };

    ghost invariant = { λ c. IsTable c.k c.n c.rows.items };
}

impl Code {
    /// The code for `k` primary blocks and `n` shares. It keeps `(n - k) * k` bytes, which is all
    /// that `encode` needs.
    ///
    /// Refuses `BadParameters` unless `1 <= k <= n <= 256`, and `OutOfMemory`.
    pub fn new(alloc: Global, k: u16, n: u16) -> Result<Code, CodeError>
        ensures ok { IfOk result (λ code. AreParameters k n × (code ≡ record { k = k; n = n })) }
        ensures bad_parameters { IsErrOf result CodeError.BadParameters → ¬ AreParameters k n }
        ensures no_other { IfErr result (λ e.
            (e ≡ CodeError.OutOfMemory) ⊎ (e ≡ CodeError.BadParameters)) }
    {
        if k == 0 || k > n || n > MAX_SHARES {
            return Err(CodeError::BadParameters);
        }
        let k = usize::from(k);
        let n = usize::from(n);
        let rows = parity_rows(alloc, k, n)?;
        Ok(Code { k, n, rows })
    }

    /// Writes share number `share` to `out`, which is as long as one block. `primaries` holds the
    /// `k` primary blocks, one after another. Takes no memory.
    pub fn encode(&self, primaries: &[u8], share: u16, out: &mut [u8])
        requires blocks { length primaries.now ≡ self.now.k * length out.old }
        requires in_range { share < self.now.n }
        ensures { IsShareOf self.now.k primaries.now share out.new }
    {
        let share = usize::from(share);
        let blocks = Joined {
            bytes: primaries,
            size: out.len(),
        };
        if share < self.k {
            out.copy_from_slice(blocks.get(share));
            return;
        }
        let start = (share - self.k) * self.k;
        combine(&self.rows[start..start + self.k], &blocks, out);
    }

    /// Makes ready to decode shares with these `k` numbers, in any order. A decoder keeps
    /// `k * k` bytes, and serves any count of segments.
    ///
    /// Refuses, tested in this order: `LengthMismatch` (not `k` numbers), `ShareOutOfRange` (a
    /// number not below n) and `RepeatedShare`; and `OutOfMemory`.
    pub fn decoder(&self, alloc: Global, numbers: Vec<u16>) -> Result<Decoder, CodeError>
        ensures decoder { IfOk result (λ decoder. decoder ≡ numbers.items) }

        // The refusals, in the order of their tests.
        ensures ok { OnOk result ((length numbers.items ≡ self.now.k)
            × All (λ i. i < self.now.n) numbers.items × AreDistinct numbers.items) }
        ensures length_mismatch { IsErrOf result CodeError.LengthMismatch
            → length numbers.items ≢ self.now.k }
        ensures out_of_range { IsErrOf result CodeError.ShareOutOfRange
            → (length numbers.items ≡ self.now.k) × (¬ All (λ i. i < self.now.n) numbers.items) }
        ensures repeated { IsErrOf result CodeError.RepeatedShare
            → (length numbers.items ≡ self.now.k)
            × All (λ i. i < self.now.n) numbers.items × (¬ AreDistinct numbers.items) }
        ensures no_other { IsErrOf result CodeError.BadParameters → ⊥ }
    {
        if numbers.len() != self.k {
            return Err(CodeError::LengthMismatch);
        }
        if !are_below(&numbers, self.n) {
            return Err(CodeError::ShareOutOfRange);
        }
        if has_repeat(&numbers) {
            return Err(CodeError::RepeatedShare);
        }
        Ok(Decoder::new(alloc, numbers)?)
    }

    /// Writes the `k` primary blocks, one after another, to `out`, from any `k` shares in any
    /// order, each with its number.
    ///
    /// Refuses, tested in this order: `LengthMismatch` (not `k` shares, shares of unequal length,
    /// or `out` not `k` times as long as one), `ShareOutOfRange` (a number not below n) and
    /// `RepeatedShare`; and `OutOfMemory`. On every refusal `out` is unchanged.
    pub fn decode(
        &self,
        alloc: Global,
        shares: &[(u16, &[u8])],
        out: &mut [u8],
    ) -> Result<(), CodeError>
        ensures decoded { OnOk result ((primaries : List ℕ) → length primaries ≡ length out.old
            → AreSharesOf self.now.k primaries (map (λ s. s.0) shares.now)
            (map (λ s. s.1.now) shares.now)
            → out.new ≡ primaries) }
        // Any k blocks of one length are shares of what they decode to.
        ensures shares_of { OnOk result (AreSharesOf self.now.k out.new (map (λ s. s.0) shares.now)
            (map (λ s. s.1.now) shares.now)) }

        // The refusals, in the order of their tests.
        ensures ok { OnOk result (HaveLengths self.now.k (map (λ s. s.1.now) shares.now)
            (length out.old) × All (λ s. s.0 < self.now.n) shares.now
            × AreDistinct (map (λ s. s.0) shares.now)) }
        ensures length_mismatch { IsErrOf result CodeError.LengthMismatch
            → ¬ HaveLengths self.now.k (map (λ s. s.1.now) shares.now) (length out.old) }
        ensures out_of_range { IsErrOf result CodeError.ShareOutOfRange
            → HaveLengths self.now.k (map (λ s. s.1.now) shares.now) (length out.old)
            × (¬ All (λ s. s.0 < self.now.n) shares.now) }
        ensures repeated { IsErrOf result CodeError.RepeatedShare
            → HaveLengths self.now.k (map (λ s. s.1.now) shares.now) (length out.old)
            × All (λ s. s.0 < self.now.n) shares.now × (¬ AreDistinct (map (λ s. s.0) shares.now)) }
        ensures no_other { IsErrOf result CodeError.BadParameters → ⊥ }
        ensures err { OnErr result (out.new ≡ out.old) }
    {
        if !have_lengths(shares, self.k, out.len()) {
            return Err(CodeError::LengthMismatch);
        }
        let decoder = self.decoder(alloc, numbers_of(alloc, shares)?)?;
        decoder.decode(shares, out);
        Ok(())
    }
}

/// The law that Lagrange's formula gives each share's bytes, so that a file's encoding is a
/// function of the file. It does nothing.
pub fn formula_gives_shares()
    ensures { FormulaGivesShares }
{}

/// The law that a share's byte is one number: the column of primary bytes determines it. It does
/// nothing.
pub fn share_values_are_unique()
    ensures { ShareValuesAreUnique }
{}

/// The law that any k shares, with different numbers, are those of one list of primary blocks. It
/// does nothing.
pub fn primaries_are_unique()
    ensures { PrimariesAreUnique }
{}

/// The rows of the shares from number `k` up to `n`, one after another.
fn parity_rows(alloc: Global, k: usize, n: usize) -> Result<Vec<u8>, AllocError>
    requires { AreParameters k n }
    ensures { IfOk result (λ rows. IsTable k n rows.items) }
{
    let nodes = Nodes::new(alloc, points_of_primaries(alloc, k)?)?;
    let mut rows = Vec::with_capacity(alloc, (n - k) * k)?;
    for share in k..n {
        nodes.push_row(point(share as u8), &mut rows)?;
    }
    Ok(rows)
}

/// The points of the `k` primary shares.
fn points_of_primaries(alloc: Global, k: usize) -> Result<Vec<u8>, AllocError>
    requires { k ≤ 256 }
    ensures { IfOk result (λ points. points.items ≡ primary_points k) }
{
    let mut points = Vec::with_capacity(alloc, k)?;
    for i in 0..k {
        points.push(point(i as u8))?;
    }
    Ok(points)
}
