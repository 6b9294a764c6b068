//! What is to become of the file of a closed share.

ghost use Rattle.std.specs.Prelude.{◌≡◌, option_copied};
ghost use Rattle.share_files.specs.Fates.{fate_by, fate_by_length, fate_of, fate_read};

use crate::bytes::Verdict;
use std::time::SystemTime;
use wire::message::{Digest, StorageIndex};

/// What the files of one storage index are held against before its shares are put.
#[derive(Clone, Copy)]
pub struct Wanted<'a> {
    pub index: StorageIndex,
    /// How many bytes each share of the file has.
    pub length: u64,
    /// The digests of all shares that were made, by number, where bytes are to be read too.
    pub digests: Option<&'a [Digest]>,
    /// The numbers of shares that are read meanwhile: their files stay.
    pub reading: &'a [u8],
    pub now: SystemTime,
}

/// What the file of a closed share is, as far as its name and its length tell.
#[derive(Clone, Copy)]
pub struct Claim {
    /// The share's number.
    pub share: u8,
    /// The digest in the name.
    pub digest: Digest,
    /// How many bytes the file has; `None` where it is no regular file.
    pub length: Option<u64>,
}

/// What is to become of the file of a closed share.
#[derive(Clone, Copy, Debug, PartialEq, Eq)]
pub enum Fate {
    /// It stays.
    Keep,
    /// Its bytes tell: they are read.
    Read,
    /// It is none of the shares that are put.
    SetAside,
    /// It is no regular file: it stays, and is told.
    Odd,
}

/// What is to become of the file of a closed share, as far as its name and its length tell. Where
/// nothing is wanted its bytes alone tell.
pub fn fate_of(claim: &Claim, wanted: Option<&Wanted<'_>>) -> Fate
    ensures { result ≡ fate_of claim.now (option_copied wanted.entry) }
{
    match (claim.length, wanted) {
        (None, _) => Fate::Odd,
        (Some(_), None) => Fate::Read,
        (Some(length), Some(wanted)) => fate_by_length(length, claim, wanted),
    }
}

// The same where it has a length and something is wanted.
fn fate_by_length(length: u64, claim: &Claim, wanted: &Wanted<'_>) -> Fate
    ensures { result ≡ fate_by_length length claim.now wanted.entry.now }
{
    if wanted.reading.contains(&claim.share) {
        return Fate::Keep;
    }
    if length != wanted.length {
        return Fate::SetAside;
    }
    match wanted.digests {
        None => Fate::Keep,
        Some(made) => fate_by(made.get(claim.share as usize), &claim.digest),
    }
}

// The same by the digest that the share was made with.
fn fate_by(made: Option<&Digest>, digest: &Digest) -> Fate
    ensures { result ≡ fate_by (option_copied made.entry) digest.now }
{
    match made {
        Some(made) if *made == *digest => Fate::Read,
        _ => Fate::SetAside,
    }
}

/// What is to become of it once its bytes were read.
pub fn fate_read(verdict: Verdict) -> Fate
    ensures { result ≡ fate_read verdict }
{
    match verdict {
        Verdict::Whole => Fate::Keep,
        Verdict::Damaged => Fate::SetAside,
    }
}
