//! Where the bytes of an upload's shares come from.

ghost use Rattle.std.specs.Prelude.{◌≡◌, ◌+◌, ◌-◌, ◌<◌, ◌≤◌, ◌++◌, ℕ, List, [], length, map, take};
ghost use Rattle.std.specs.Prelude.{drop, slice_index_or, OnOk, IfOk, IfErr};
ghost use Rattle.tagged_hash.specs.TaggedHash.{share_digest};
ghost use Rattle.upload_core.specs.Pieces.{HaveOneLength, length_of, piece_of};
ghost use Rattle.upload_core.specs.PieceFault.{fault_number};
ghost use Rattle.upload_core.specs.declared.pieces.PieceFault.{PieceFault};

use std::alloc::{AllocError, Global};
use std::marker::Model;
use tagged_hash::{Tag, WORTH_LANES, share_digest, tagged_eight};
use wire::message::Digest;

/// Why a piece of a share could not be had.
#[derive(Clone, Copy, Debug, PartialEq, Eq)]
pub enum PieceFault {
    /// An allocation was refused.
    OutOfMemory,
    /// The source has not the bytes any more that its shares were made of.
    SourceChanged,
    /// The source could not be read.
    SourceFault,
}

impl PieceFault {
    /// The number of the fault.
    pub fn number(self) -> u8
        ensures { result ≡ fault_number self }
    {
        match self {
            PieceFault::OutOfMemory => 1,
            PieceFault::SourceChanged => 74,
            PieceFault::SourceFault => 75,
        }
    }
}

/// A source of the pieces of an upload's shares, by relations of its own: what each call gives,
/// from the state before it to the state after it.
pub trait Pieces {
    /// The digests of its shares, by number, and the length that all of them have.
    ghost digests: { Self → List (List ℕ) };

    ghost share_length: { Self → ℕ };

    /// It gave these bytes of a share from an offset on.
    ghost gives: { Self → ℕ → ℕ → List ℕ → Self → Type 0 };

    /// It gave none of so many bytes, for this fault.
    ghost fails: { Self → ℕ → ℕ → ℕ → PieceFault → Self → Type 0 };

    /// Fills `out` with the bytes of a share from an offset on. They lie in the share.
    fn piece(&mut self, share: u8, offset: u64, out: &mut [u8]) -> Result<(), PieceFault>
        requires number { share < length (digests self.old) }
        requires inside { offset + length out.old ≤ share_length self.old }
        ensures ok { OnOk result (gives self.old share offset out.new self.new) }
        ensures err { IfErr result
            (λ fault. fails self.old share offset (length out.old) fault self.new) }
        ensures same { digests self.new ≡ digests self.old }
        ensures long { share_length self.new ≡ share_length self.old };
}

/// Whole shares of one length, in memory, which contracts see as the list of their bytes.
#[derive(Drop)]
pub struct WholeShares {
    shares: Vec<Vec<u8>>,
}

impl Model for WholeShares {
    ghost use Rattle.std.specs.Prelude.{map, List, ℕ};
    ghost use Rattle.upload_core.specs.Pieces.{HaveOneLength};

    ghost Value = { List (List ℕ) };

    ghost view = { λ s. map (λ share. share.items) s.shares.items };

    ghost invariant = { λ s. HaveOneLength (map (λ share. share.items) s.shares.items) };
}

impl WholeShares {
    /// Takes the shares over, by number: no byte is copied. They have one length.
    pub fn new(shares: Vec<Vec<u8>>) -> WholeShares
        requires { HaveOneLength (map (λ share. share.items) shares.items) }
        ensures { result ≡ map (λ share. share.items) shares.items }
    {
        WholeShares { shares }
    }

    /// The digests of the shares, by number.
    pub fn digests(&self, alloc: Global) -> Result<Vec<Digest>, AllocError>
        ensures { IfOk result (λ digests. digests.items ≡ map share_digest self.now) }
    {
        digests_of(alloc, &self.shares)
    }
}

impl Pieces for WholeShares {
    ghost digests = { λ shares. map share_digest shares };

    ghost share_length = { λ shares. length_of shares };

    ghost gives = { λ shares share offset bytes after.
        (bytes ≡ piece_of shares share offset (length bytes)) × (after ≡ shares) };

    ghost fails = { λ shares share offset len fault after. ⊥ };

    fn piece(&mut self, share: u8, offset: u64, out: &mut [u8]) -> Result<(), PieceFault> {
        let bytes = part_of(&self.shares[usize::from(share)], offset as usize, out.len());
        out.copy_from_slice(bytes);
        Ok(())
    }
}

// So many bytes of a share from an offset on.
fn part_of(share: &[u8], offset: usize, len: usize) -> &[u8]
    requires { offset + len ≤ length share.now }
    ensures { result.now ≡ take len (drop offset share.now) }
{
    &share[offset..][..len]
}

// The digest of each share. They have one length.
fn digests_of(alloc: Global, shares: &[Vec<u8>]) -> Result<Vec<Digest>, AllocError>
    requires { HaveOneLength (map (λ share. share.items) shares.now) }
    ensures { IfOk result
        (λ digests. digests.items ≡ map (λ share. share_digest share.items) shares.now) }
{
    let mut digests = Vec::with_capacity(alloc, shares.len())?;
    for group in 0..shares.len().div_ceil(8) {
        let first = 8 * group;
        add_group(&mut digests, shares, first, shares.len().min(first + 8))?;
    }
    Ok(digests)
}

// Adds the digests of up to eight shares, from number `first` to before `end`.
fn add_group(
    digests: &mut Vec<Digest>,
    shares: &[Vec<u8>],
    first: usize,
    end: usize,
) -> Result<(), AllocError>
    requires one_length { HaveOneLength (map (λ share. share.items) shares.now) }
    requires some { first < end }
    requires few { end ≤ first + 8 }
    requires within { end ≤ length shares.now }
    ensures { OnOk result (digests.new.items ≡ digests.old.items
        ++ take (end - first) (drop first (map (λ share. share_digest share.items) shares.now))) }
{
    if end - first < WORTH_LANES {
        for number in first..end {
            digests.push(share_digest(&shares[number]))?;
        }
        return Ok(());
    }
    let all = eight_digests(shares, first, end - 1);
    digests.extend_from_slice(&all[..end - first])?;
    Ok(())
}

// The digests of eight shares from number `first` on: share `last` also stands for those after it.
fn eight_digests(shares: &[Vec<u8>], first: usize, last: usize) -> [Digest; 8]
    requires one_length { HaveOneLength (map (λ share. share.items) shares.now) }
    requires some { first ≤ last }
    requires within { last < length shares.now }
    ensures { (j : ℕ) → j < 8 → first + j ≤ last → slice_index_or result j []
        ≡ slice_index_or (map (λ share. share_digest share.items) shares.now) (first + j) [] }
{
    let messages = [
        share_at(shares, first),
        share_at(shares, last.min(first + 1)),
        share_at(shares, last.min(first + 2)),
        share_at(shares, last.min(first + 3)),
        share_at(shares, last.min(first + 4)),
        share_at(shares, last.min(first + 5)),
        share_at(shares, last.min(first + 6)),
        share_at(shares, last.min(first + 7)),
    ];
    tagged_eight(Tag::WholeShare, &messages, messages[0].len())
}

// The share of this number.
fn share_at(shares: &[Vec<u8>], number: usize) -> &[u8]
    requires one_length { HaveOneLength (map (λ share. share.items) shares.now) }
    requires within { number < length shares.now }
    ensures long { length result.now ≡ length_of (map (λ share. share.items) shares.now) }
    ensures digest { share_digest result.now
        ≡ slice_index_or (map (λ share. share_digest share.items) shares.now) number [] }
{
    &shares[number]
}
