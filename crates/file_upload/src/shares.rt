//! Shares that are there, made ready for their upload.

ghost use Rattle.std.specs.Prelude.{◌≡◌, ◌^◌, length, map, IfOk};
ghost use Rattle.tagged_hash.specs.TaggedHash.{share_digest};
ghost use Rattle.upload_core.specs.Pieces.{length_of};
ghost use Rattle.file_upload.specs.Shares.{AreFit, ready_shares, shares_goal};

use cap_text::VerifyCap;
use file_encoding::Share;
use std::alloc::{AllocError, Global};
use upload_core::ReadyUpload;
use upload_core::pieces::WholeShares;
use upload_core::status::UploadGoal;
use wire::message::{Digest, ShareLength};

/// The upload of a verify cap's shares, whose digests are known, and of which `happy` servers at
/// least are to hold one of their own.
pub(crate) fn ready_shares(
    alloc: Global,
    cap: VerifyCap,
    happy: u16,
    shares: Vec<Share>,
    digests: Vec<Digest>,
) -> Result<ReadyUpload<WholeShares>, AllocError>
    requires fit { AreFit shares.items }
    requires digests { digests.items ≡ map share_digest shares.items }
    ensures { IfOk result (λ ready. ready ≡ ready_shares cap happy shares.items) }
{
    let length = first_length(&shares);
    let pieces = WholeShares::new(bytes_of(alloc, shares)?);
    Ok(ready_pieces(cap, happy, pieces, digests, length))
}

/// The same of shares whose digests are not known yet: those that were made anew.
pub(crate) fn ready_remade(
    alloc: Global,
    cap: VerifyCap,
    happy: u16,
    shares: Vec<Share>,
) -> Result<ReadyUpload<WholeShares>, AllocError>
    requires { AreFit shares.items }
    ensures { IfOk result (λ ready. ready ≡ ready_shares cap happy shares.items) }
{
    let length = first_length(&shares);
    let pieces = WholeShares::new(bytes_of(alloc, shares)?);
    let digests = pieces.digests(alloc)?;
    Ok(ready_pieces(cap, happy, pieces, digests, length))
}

// The upload of shares whose digests and length are known.
fn ready_pieces(
    cap: VerifyCap,
    happy: u16,
    pieces: WholeShares,
    digests: Vec<Digest>,
    length: usize,
) -> ReadyUpload<WholeShares>
    requires fit { AreFit pieces }
    requires digests { digests.items ≡ map share_digest pieces }
    requires length { length ≡ length_of pieces }
    ensures { result ≡ ready_shares cap happy pieces }
{
    let length = ShareLength::new(length as u64).unwrap();
    let goal = UploadGoal::new(cap, digests, length);
    ReadyUpload::new(pieces, goal, happy)
}

// The length of the first share.
fn first_length(shares: &[Share]) -> usize
    ensures { result ≡ length_of shares.now }
{
    match shares.first() {
        Some(share) => share.as_slice().len(),
        None => 0,
    }
}

// The shares as their bytes, of which none is copied.
fn bytes_of(alloc: Global, shares: Vec<Share>) -> Result<Vec<Vec<u8>>, AllocError>
    ensures { IfOk result (λ all. map (λ bytes. bytes.items) all.items ≡ shares.items) }
{
    let mut all = Vec::with_capacity(alloc, shares.len())?;
    for share in shares {
        all.push(share.into_vec())?;
    }
    Ok(all)
}
