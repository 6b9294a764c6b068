// The digests of a file's shares: they are begun beside the hash of its ciphertext, and finished
// with the shares.

ghost use Rattle.std.specs.Prelude.{◌≡◌, ◌+◌, ◌<◌, ℕ, [], IfOk, drop, length, map, slice_index_or};
ghost use Rattle.std.specs.Int.{div_ceil};
ghost use Rattle.sha2_lanes.specs.Lanes.{text};
ghost use Rattle.tagged_hash.specs.TaggedHash.{share_digest, tagged_hash};
ghost use Rattle.tagged_hash.specs.declared.tag.Tag.TheVariants.{Ciphertext};
ghost use Rattle.tagged_hash.specs.Wholes.{AreGiven};
ghost use Rattle.file_encoding.specs.Digests.{beginning_of, begun_bytes};

use crate::draft::Begun;
use crate::share::Share;
use std::alloc::{AllocError, Global};
use tagged_hash::{Endings, Tag, TaggedHasher, WholeHashers, finish_digests};

/// The hash of a ciphertext, and hashers of its shares, seven by seven.
#[derive(Drop)]
pub(crate) struct HashedBeside {
    pub crypttext_hash: [u8; 32],
    pub wholes: Vec<WholeHashers>,
}

/// Hashes a ciphertext, and beside it the bytes of begun shares, which have one length.
pub(crate) fn hash_beside(
    alloc: Global,
    ciphertext: &[u8],
    begun: &[Begun],
) -> Result<HashedBeside, AllocError>
    ensures ciphertext { IfOk result
        (λ h. h.crypttext_hash ≡ tagged_hash Ciphertext ciphertext.now) }
    ensures groups { IfOk result (λ h. length h.wholes.items ≡ div_ceil (length begun.now) 7) }
    ensures given { IfOk result
        (λ h. AreGiven (length begun.now) (begun_bytes begun.now) h.wholes.items) }
{
    let groups = begun.len().div_ceil(7);
    let mut wholes = Vec::with_capacity(alloc, groups)?;
    let mut hasher = TaggedHasher::new(Tag::Ciphertext);
    let mut hashed = 0;
    for group in 0..groups {
        let first = 7 * group;
        let mut whole = WholeHashers::new(begun.len() - first);
        let pieces = eight_drafts(begun, first);
        hashed += whole.update_beside(&pieces, &mut hasher, &ciphertext[hashed..]);
        wholes.push(whole)?;
    }
    hasher.update(&ciphertext[hashed..]);
    Ok(HashedBeside {
        crypttext_hash: hasher.finish(),
        wholes,
    })
}

// The bytes of eight begun shares from a number on, and of the last in place of those that are
// missing.
fn eight_drafts(begun: &[Begun], first: usize) -> [&[u8]; 8]
    requires { first < length begun.now }
    ensures { (j : ℕ) → j < 8 → first + j < length begun.now
        → text result j ≡ begun_bytes begun.now (first + j) }
{
    [
        draft_bytes(begun, first),
        draft_bytes(begun, first + 1),
        draft_bytes(begun, first + 2),
        draft_bytes(begun, first + 3),
        draft_bytes(begun, first + 4),
        draft_bytes(begun, first + 5),
        draft_bytes(begun, first + 6),
        draft_bytes(begun, first + 7),
    ]
}

// The bytes of the begun share of this number, or of the last.
fn draft_bytes(begun: &[Begun], number: usize) -> &[u8]
    requires { 0 < length begun.now }
    ensures { number < length begun.now → result.now ≡ begun_bytes begun.now number }
{
    begun[number.min(begun.len() - 1)].draft.bytes()
}

// Shares, of which so many bytes were given to their hashers.
#[derive(Clone, Copy)]
struct ShareEndings<'a> {
    shares: &'a [Share],
    given: usize,
}

impl<'a> Endings for ShareEndings<'a> {
    ghost count = { λ e. length e.shares.now };

    ghost ending = { λ e i. drop e.given (slice_index_or e.shares.now i []) };

    fn give(&self, first: usize, whole: &mut WholeHashers) {
        whole.update(&eight_endings(self.shares, self.given, first));
    }
}

/// The digests of shares, whose hashers were given so many bytes of each.
pub(crate) fn digests_of(
    alloc: Global,
    shares: &[Share],
    given: usize,
    wholes: Vec<WholeHashers>,
) -> Result<Vec<[u8; 32]>, AllocError>
    requires groups { length wholes.items ≡ div_ceil (length shares.now) 7 }
    requires given { AreGiven (length shares.now) (beginning_of shares.now given) wholes.items }
    ensures { IfOk result (λ digests. digests.items ≡ map share_digest shares.now) }
{
    let endings = ShareEndings { shares, given };
    finish_digests(alloc, &endings, shares.len(), wholes)
}

// What stands behind so many bytes in eight shares from a number on, and in the last in place of
// those that are missing.
fn eight_endings(shares: &[Share], given: usize, first: usize) -> [&[u8]; 8]
    requires { first < length shares.now }
    ensures { (j : ℕ) → j < 8 → first + j < length shares.now
        → text result j ≡ drop given (slice_index_or shares.now (first + j) []) }
{
    [
        ending_at(shares, given, first),
        ending_at(shares, given, first + 1),
        ending_at(shares, given, first + 2),
        ending_at(shares, given, first + 3),
        ending_at(shares, given, first + 4),
        ending_at(shares, given, first + 5),
        ending_at(shares, given, first + 6),
        ending_at(shares, given, first + 7),
    ]
}

// What stands behind so many bytes in the share of this number, or in the last.
fn ending_at(shares: &[Share], given: usize, number: usize) -> &[u8]
    requires { 0 < length shares.now }
    ensures { number < length shares.now
        → result.now ≡ drop given (slice_index_or shares.now number []) }
{
    let share = shares[number.min(shares.len() - 1)].as_slice();
    &share[given.min(share.len())..]
}
