//! Pieces of shares that are made anew, beside the shares of whole encodings.

use crate::prepare_tests::counted;
use cap_text::{Cap, VerifyCap};
use file_encoding::{Encoded, Params, Share, encode_all};
use file_streaming::{PieceError, RemadeFile, RemakeError, padded_size, prepare_remade};
use share_verify::{read_share, read_ueb};
use sources::{SliceSource, Source};
use std::alloc::{AllocError, Global};
use std::test::Fail;

// The padded ciphertext: the blocks of the first shares, segment by segment.
pub(crate) fn padded_text(
    alloc: Global,
    cap: &VerifyCap,
    shares: &[Share],
) -> Result<Option<Vec<u8>>, AllocError> {
    let mut text = Vec::new(alloc);
    let Some(first) = shares.first() else {
        return Ok(None);
    };
    let Ok(read) = read_share(cap, 0, first.as_slice()) else {
        return Ok(None);
    };
    let geometry = read.geometry;
    let block = geometry.block_size() as usize;
    for number in 0..geometry.segment_count() {
        for share in 0..geometry.needed() {
            let Some(bytes) = shares.get(usize::from(share)) else {
                return Ok(None);
            };
            let Ok(own) = read_share(cap, share, bytes.as_slice()) else {
                return Ok(None);
            };
            let begin = (number as usize).saturating_mul(block);
            let end = begin.saturating_add(block).min(own.view.blocks.len());
            if let Some(part) = own.view.blocks.get(begin..end) {
                text.extend_from_slice(part)?;
            }
        }
    }
    Ok(Some(text))
}

// What is kept of a text for the file of these shares.
fn remade_of(
    alloc: Global,
    cap: &VerifyCap,
    shares: &[Share],
    source: &mut SliceSource<'_>,
) -> Result<Option<Result<RemadeFile, RemakeError>>, AllocError> {
    let Some(first) = shares.first() else {
        return Ok(None);
    };
    let Ok(read) = read_share(cap, 0, first.as_slice()) else {
        return Ok(None);
    };
    let block = Vec::from_slice(alloc, read.view.extension_block)?;
    let Ok(ueb) = read_ueb(cap, &block) else {
        return Ok(None);
    };
    if source.len() != padded_size(&ueb) {
        return Ok(None);
    }
    Ok(Some(prepare_remade(alloc, source, cap, &ueb, block)))
}

// A piece of a share, or none where it does not lie in the share.
fn piece_of(
    remade: &mut RemadeFile,
    source: &mut SliceSource<'_>,
    number: usize,
    offset: u64,
    out: &mut [u8],
) -> Option<Result<(), PieceError>> {
    if number > 255 || number >= remade.digests().len() {
        return None;
    }
    let length = remade.share_length();
    if offset > length || out.len() as u64 > length - offset {
        return None;
    }
    Some(remade.piece(source, number as u8, offset, out))
}

// Whether a piece from an offset on is that of the whole share.
fn has_piece(
    remade: &mut RemadeFile,
    source: &mut SliceSource<'_>,
    number: usize,
    share: &[u8],
    offset: u64,
    out: &mut [u8],
) -> bool {
    let end = offset
        .saturating_add(out.len() as u64)
        .min(share.len() as u64);
    let Some(part) = share.get(offset as usize..end as usize) else {
        return false;
    };
    let Some(room) = out.get_mut(..part.len()) else {
        return false;
    };
    matches!(piece_of(remade, source, number, offset, room), Some(Ok(()))) && *room == *part
}

// Whether all pieces are those of the whole shares.
fn has_pieces(
    remade: &mut RemadeFile,
    source: &mut SliceSource<'_>,
    shares: &[Share],
    out: &mut [u8],
) -> bool {
    if out.is_empty() || shares.len() != remade.digests().len() {
        return false;
    }
    let size = out.len() as u64;
    for piece in 0..remade.share_length().div_ceil(size) {
        let offset = piece.saturating_mul(size);
        for number in 0..shares.len() {
            let share = shares[number].as_slice();
            if !has_piece(remade, source, number, share, offset, out) {
                return false;
            }
        }
    }
    true
}

// A file's verify cap, its shares, and its padded ciphertext.
#[derive(Drop)]
pub(crate) struct Whole {
    pub cap: VerifyCap,
    pub shares: Vec<Share>,
    pub text: Vec<u8>,
}

// A file: its size, shares needed and in all, and bytes a segment.
pub(crate) fn whole_file(
    alloc: Global,
    numbers: (usize, u64, u64, u64),
) -> Result<Option<Whole>, AllocError> {
    let (size, needed, total, segment) = numbers;
    let file = counted(alloc, size)?;
    let Ok(params) = Params::new(needed, 1, total, segment) else {
        return Ok(None);
    };
    let Ok(Encoded { cap, shares, .. }) = encode_all(alloc, &file, b"", &params) else {
        return Ok(None);
    };
    let Cap::Chk(cap) = cap else {
        return Ok(None);
    };
    let cap = cap.to_verify();
    match padded_text(alloc, &cap, &shares)? {
        Some(text) => Ok(Some(Whole { cap, shares, text })),
        None => Ok(None),
    }
}

// Whether the shares of a file are made anew of its padded ciphertext, in pieces of so many bytes.
fn is_given(alloc: Global, whole: &Whole, piece: usize) -> Result<bool, AllocError> {
    let mut source = SliceSource::new(&whole.text);
    let made = remade_of(alloc, &whole.cap, &whole.shares, &mut source)?;
    let Some(Ok(mut remade)) = made else {
        return Ok(false);
    };
    let mut out = vec![in alloc; 7u8; piece]?;
    Ok(has_pieces(&mut remade, &mut source, &whole.shares, &mut out))
}

// Whether they are refused once the byte at a place is another.
fn is_refused(alloc: Global, whole: &mut Whole, place: usize) -> Result<bool, AllocError> {
    if let Some(byte) = whole.text.get_mut(place) {
        *byte ^= 1;
    }
    let mut source = SliceSource::new(&whole.text);
    let made = remade_of(alloc, &whole.cap, &whole.shares, &mut source)?;
    Ok(matches!(made, Some(Err(RemakeError::Inconsistent))))
}

// Whether a file is made anew, in pieces of so many bytes; and refused where the last byte of its
// padded ciphertext, padding or not, or one in the middle is another.
fn is_remade(
    alloc: Global,
    numbers: (usize, u64, u64, u64),
    piece: usize,
) -> Result<bool, AllocError> {
    let Some(mut whole) = whole_file(alloc, numbers)? else {
        return Ok(false);
    };
    if !is_given(alloc, &whole, piece)? {
        return Ok(false);
    }
    let last = whole.text.len().saturating_sub(1);
    let middle = whole.text.len() / 2;
    Ok(is_refused(alloc, &mut whole, last)? && is_refused(alloc, &mut whole, middle)?)
}

#[test]
fn shares_are_remade_piece_by_piece(rt: HostRuntime) -> Result<(), Fail> {
    let alloc = rt.alloc();
    assert!(rt; is_remade(alloc, (56, 3, 10, 131_072), 100)?);
    assert!(rt; is_remade(alloc, (131_074, 3, 10, 131_072), 32_768)?);
    assert!(rt; is_remade(alloc, (30_000, 2, 5, 4096), 1000)?);
    assert!(rt; is_remade(alloc, (30_001, 7, 20, 1000), 999)?);
    assert!(rt; is_remade(alloc, (200, 56, 200, 64), 500)?);
    Ok(())
}
