//! Decoding: the primary blocks from any k shares. The coefficients depend on the shares' numbers
//! alone, so they are computed once for all segments.

ghost use Rattle.std.specs.Prelude.{◌≡◌, ℕ, ◌+◌, ◌*◌, ◌<◌, ◌≤◌, List, [], length, slice_index};
ghost use Rattle.std.specs.Prelude.{slice_index_or, map, All, IfOk, OnOk, EachIndex, IsTrue, ◌↔◌};
ghost use Rattle.std.specs.Prelude.{MatchBool, Contains};
ghost use Rattle.zfec_code.specs.Field.{point_of};
ghost use Rattle.zfec_code.specs.Shares.{AreSharesOf, HaveLengths, evaluate};
ghost use Rattle.zfec_code.specs.Rows.{AreDistinct};
ghost use Rattle.zfec_code.specs.Tables.{AreDecodingRows, IsDecodingTable, IsThrough};

use crate::field::point;
use crate::interpolation::Nodes;
use crate::sums::{Shares, combine};
use std::alloc::{AllocError, Global};
use std::marker::Model;

/// What decodes the shares with k given numbers: a row of k coefficients for each primary block.
#[derive(Drop)]
pub struct Decoder {
    numbers: Vec<u16>,
    rows: Vec<u8>,
}

impl Model for Decoder {
    ghost Value = { List ℕ };

    ghost view = { λ d. d.numbers.items };

    ghost invariant = { λ d. IsDecodingTable d.numbers.items d.rows.items };
}

impl Decoder {
    /// Takes the numbers, and computes the coefficients.
    pub(crate) fn new(alloc: Global, numbers: Vec<u16>) -> Result<Decoder, AllocError>
        requires few { length numbers.items ≤ 256 }
        requires small { All (λ i. i < 256) numbers.items }
        requires distinct { AreDistinct numbers.items }
        ensures { IfOk result (λ decoder. decoder ≡ numbers.items) }
    {
        let nodes = Nodes::new(alloc, points_at(alloc, &numbers)?)?;
        let rows = decoding_rows(alloc, &nodes, &numbers)?;
        Ok(Decoder { numbers, rows })
    }

    /// Writes the k primary blocks, one after another, to `out`, from the shares with the decoder's
    /// numbers, in their order. Takes no memory.
    pub fn decode(&self, shares: &[(u16, &[u8])], out: &mut [u8])
        requires numbers { map (λ s. s.0) shares.now ≡ self.now }
        requires lengths { HaveLengths (length self.now) (map (λ s. s.1.now) shares.now)
            (length out.old) }
        ensures decoded { (primaries : List ℕ) → length primaries ≡ length out.old
            → AreSharesOf (length self.now) primaries (map (λ s. s.0) shares.now)
            (map (λ s. s.1.now) shares.now)
            → out.new ≡ primaries }
        ensures shares_of { AreSharesOf (length self.now) out.new (map (λ s. s.0) shares.now)
            (map (λ s. s.1.now) shares.now) }
    {
        let k = self.numbers.len();
        if k == 0 {
            return;
        }
        know_bytes(shares);
        let size = out.len() / k;
        for primary in 0..k {
            self.decode_block(
                shares,
                primary,
                &mut out[primary * size..(primary + 1) * size],
            );
        }
    }

    /// Writes one primary block: a copy of its share where that is given, else the sum of the
    /// shares' bytes, each times its coefficient.
    fn decode_block(&self, shares: &[(u16, &[u8])], primary: usize, block: &mut [u8])
        requires numbers { map (λ s. s.0) shares.now ≡ self.now }
        requires in_range { primary < length self.now }
        requires lengths { All (λ s. length s.1.now ≡ length block.old) shares.now }
        ensures { EachIndex block.new (λ t. (coefficients : List ℕ)
            → IsThrough coefficients (map (λ s. s.0) shares.now) (map (λ s. s.1.now) shares.now) t
            → slice_index block.new t ≡ evaluate coefficients (point_of primary)) }
    {
        for (number, bytes) in shares {
            if usize::from(*number) == primary {
                block.copy_from_slice(*bytes);
                return;
            }
        }
        let k = self.numbers.len();
        let start = primary * k;
        combine(&self.rows[start..start + k], &Shares(shares), block);
    }
}

// A law: each byte of the shares is one. The call does nothing.
fn know_bytes(shares: &[(u16, &[u8])])
    ensures { (m : ℕ) → m < length shares.now → (t : ℕ)
        → slice_index (slice_index_or (map (λ s. s.1.now) shares.now) m []) t < 256 }
{
    for (_, bytes) in shares {
        know_byte_text(bytes);
    }
}

// A law: each byte of a share is one. The call does nothing.
fn know_byte_text(bytes: &[u8])
    ensures { (t : ℕ) → slice_index bytes.now t < 256 }
{}

/// The points of the shares with these numbers.
fn points_at(alloc: Global, numbers: &[u16]) -> Result<Vec<u8>, AllocError>
    requires { All (λ i. i < 256) numbers.now }
    ensures { IfOk result (λ points. points.items ≡ map point_of numbers.now) }
{
    let mut points = Vec::with_capacity(alloc, numbers.len())?;
    for number in numbers {
        points.push(point(*number as u8))?;
    }
    Ok(points)
}

/// A row for each primary block, one after another.
fn decoding_rows(alloc: Global, nodes: &Nodes, numbers: &[u16]) -> Result<Vec<u8>, AllocError>
    requires few { length numbers.now ≤ 256 }
    requires small { All (λ i. i < 256) numbers.now }
    requires points { nodes.now.points.items ≡ map point_of numbers.now }
    ensures { IfOk result (λ rows. AreDecodingRows numbers.now (length numbers.now) rows.items) }
{
    let k = numbers.len();
    let mut rows = Vec::with_capacity(alloc, k * k)?;
    for primary in 0..k {
        push_row(nodes, numbers, primary as u16, &mut rows)?;
    }
    Ok(rows)
}

/// Appends the row of a primary block: zeros where its own share is given, which is copied.
fn push_row(
    nodes: &Nodes,
    numbers: &[u16],
    primary: u16,
    rows: &mut Vec<u8>,
) -> Result<(), AllocError>
    requires byte { primary < 256 }
    requires small { All (λ i. i < 256) numbers.now }
    requires points { nodes.now.points.items ≡ map point_of numbers.now }
    requires before { AreDecodingRows numbers.now primary rows.old.items }
    ensures { OnOk result (AreDecodingRows numbers.now (primary + 1) rows.new.items) }
{
    if is_given(numbers, primary) {
        rows.resize(rows.len() + numbers.len(), 0)?;
    } else {
        nodes.push_row(point(primary as u8), rows)?;
    }
    Ok(())
}

/// Whether a primary block's own share is among those with these numbers.
fn is_given(numbers: &[u16], primary: u16) -> bool
    ensures { MatchBool result (Contains numbers.now primary) (¬ Contains numbers.now primary) }
{
    numbers.contains(&primary)
}

/// Whether each number is below `n`.
pub(crate) fn are_below(numbers: &[u16], n: usize) -> bool
    ensures { IsTrue result ↔ All (λ i. i < n) numbers.now }
{
    numbers.iter().all(|number| usize::from(*number) < n)
}

/// Whether a number is there twice.
pub(crate) fn has_repeat(numbers: &[u16]) -> bool
    ensures { MatchBool result (¬ AreDistinct numbers.now) (AreDistinct numbers.now) }
{
    for i in 0..numbers.len() {
        for j in 0..i {
            if numbers[i] == numbers[j] {
                return true;
            }
        }
    }
    false
}

/// The shares' numbers.
pub(crate) fn numbers_of(alloc: Global, shares: &[(u16, &[u8])]) -> Result<Vec<u16>, AllocError>
    ensures { IfOk result (λ numbers. numbers.items ≡ map (λ s. s.0) shares.now) }
{
    let mut numbers = Vec::with_capacity(alloc, shares.len())?;
    for (number, _) in shares {
        numbers.push(*number)?;
    }
    Ok(numbers)
}

/// Whether there are `k` shares, all of one length, and `out_length` is `k` times that.
pub(crate) fn have_lengths(shares: &[(u16, &[u8])], k: usize, out_length: usize) -> bool
    requires { 0 < k }
    ensures { MatchBool result (HaveLengths k (map (λ s. s.1.now) shares.now) out_length)
        (¬ HaveLengths k (map (λ s. s.1.now) shares.now) out_length) }
{
    if shares.len() != k {
        return false;
    }
    let size = shares[0].1.len();
    if !have_length(shares, size) {
        return false;
    }
    if out_length / k != size || out_length % k != 0 {
        return false;
    }
    true
}

/// Whether each share has `size` bytes.
fn have_length(shares: &[(u16, &[u8])], size: usize) -> bool
    ensures { IsTrue result ↔ All (λ s. length s.1.now ≡ size) shares.now }
{
    shares.iter().all(|(_, bytes)| bytes.len() == size)
}
