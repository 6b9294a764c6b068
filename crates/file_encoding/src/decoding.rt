// Segments, decoded from the blocks of as many shares as are needed.

ghost use Rattle.std.specs.Prelude.{◌≡◌, ◌<◌, ◌++◌, ◌*◌, ◌^◌, ℕ, List, All, [], length, map, IfOk};
ghost use Rattle.std.specs.Prelude.{IfErr, IsErrOf, OnOk, IsTrue, ◌↔◌, ◌⊎◌};
ghost use Rattle.tagged_hash.specs.TaggedHash.{tagged_hash};
ghost use Rattle.tagged_hash.specs.declared.tag.Tag.TheVariants.{CiphertextSegment};
ghost use Rattle.share_layout.specs.Geometry.{IsGeometry, segment_count};
ghost use Rattle.zfec_code.specs.Shares.{AreSharesOf};
ghost use Rattle.proved_parts.specs.FileOf.{segment_hashes};
ghost use Rattle.share_layout.specs.Pieces.{block_at, block_length};
ghost use Rattle.file_encoding.specs.Padded.{plain_segments};
ghost use Rattle.file_encoding.specs.Regenerated.{DecodeTo};
ghost use Rattle.file_encoding.specs.Reading.{HasWrongSegment};
ghost use Rattle.file_encoding.specs.Decoding.{AreBlocks};

use crate::blocks::Segments;
use crate::reading::ReadError;
use share_layout::Geometry;
use std::alloc::{AllocError, Global};
use tagged_hash::{Tag, tagged};
use zfec_code::{Code, CodeError, Decoder};

/// The padded text that all blocks of some shares decode to, each with its share's number, or
/// `Inconsistent` where a segment, without its padding, has not the hash of its leaf.
pub(crate) fn decode_padded(
    alloc: Global,
    geometry: &Geometry,
    blocks: &[(u16, &[u8])],
    leaves: &[[u8; 32]],
) -> Result<Vec<u8>, ReadError>
    requires blocks { AreBlocks geometry.now (map (λ s. s.0) blocks.now)
        (map (λ s. s.1.now) blocks.now) }
    requires leaves { length leaves.now ≡ segment_count geometry.now }
    ensures decoded { IfOk result (λ text. DecodeTo geometry.now (map (λ s. s.0) blocks.now)
        (map (λ s. s.1.now) blocks.now) text.items) }
    ensures valid { IfOk result (λ _. IsGeometry geometry.now) }
    ensures leaves { IfOk result (λ text. segment_hashes (plain_segments geometry.now text.items)
        ≡ leaves.now) }
    ensures inconsistent { IsErrOf result ReadError.Inconsistent
        → HasWrongSegment geometry.now (map (λ s. s.0) blocks.now)
        (map (λ s. s.1.now) blocks.now) leaves.now }
    ensures no_other { IfErr result (λ e. (e ≡ ReadError.OutOfMemory)
        ⊎ (e ≡ ReadError.Inconsistent)) }
{
    let decoder = new_decoder(alloc, geometry, blocks)?;
    // Room for all of it, so that the text is never moved.
    let room = usize::from(geometry.needed()) * geometry.share_data_size() as usize;
    let mut text = Vec::with_capacity(alloc, room)?;
    for number in 0..geometry.segment_count() {
        let start = text.len();
        push_padded(alloc, geometry, &decoder, blocks, number, &mut text)?;
        let length = geometry.segment_length(number) as usize;
        if !is_leaf(&text[start..start + length], &leaves[number as usize]) {
            return Err(ReadError::Inconsistent);
        }
    }
    Ok(text)
}

// Appends the segment of this number, with its padding.
fn push_padded(
    alloc: Global,
    geometry: &Geometry,
    decoder: &Decoder,
    blocks: &[(u16, &[u8])],
    number: u32,
    out: &mut Vec<u8>,
) -> Result<(), AllocError>
    requires decoder { decoder.now ≡ map (λ s. s.0) blocks.now }
    requires blocks { AreBlocks geometry.now (map (λ s. s.0) blocks.now)
        (map (λ s. s.1.now) blocks.now) }
    requires there { number < segment_count geometry.now }
    ensures { OnOk result ((padded : List ℕ) × (out.new.items ≡ out.old.items ++ padded)
        × (length padded ≡ geometry.now.needed * block_length geometry.now number)
        × AreSharesOf geometry.now.needed padded (map (λ s. s.0) blocks.now)
        (map (block_at geometry.now number) (map (λ s. s.1.now) blocks.now))) }
{
    let these = blocks_at(alloc, geometry, blocks, number)?;
    let start = out.len();
    let size = usize::from(geometry.needed()) * geometry.block_length(number) as usize;
    out.resize(start + size, 0)?;
    decoder.decode(&these, &mut out[start..]);
    Ok(())
}

// Whether this is the hash of a segment.
fn is_leaf(segment: &[u8], leaf: &[u8; 32]) -> bool
    ensures { IsTrue result ↔ (tagged_hash CiphertextSegment segment.now ≡ leaf.now) }
{
    tagged(Tag::CiphertextSegment, segment) == *leaf
}

// The decoder for the shares of these numbers, which serves all segments.
fn new_decoder(
    alloc: Global,
    geometry: &Geometry,
    blocks: &[(u16, &[u8])],
) -> Result<Decoder, AllocError>
    requires { AreBlocks geometry.now (map (λ s. s.0) blocks.now) (map (λ s. s.1.now) blocks.now) }
    ensures { IfOk result (λ decoder. decoder ≡ map (λ s. s.0) blocks.now) }
{
    let code = new_code(alloc, geometry)?;
    let numbers = numbers_of(alloc, blocks)?;
    match code.decoder(alloc, numbers) {
        Ok(decoder) => Ok(decoder),
        Err(CodeError::OutOfMemory) => Err(AllocError),
        Err(_) => unreachable!(),
    }
}

// The shares' numbers.
fn numbers_of(alloc: Global, blocks: &[(u16, &[u8])]) -> Result<Vec<u16>, AllocError>
    ensures { IfOk result (λ numbers. numbers.items ≡ map (λ s. s.0) blocks.now) }
{
    let mut numbers = Vec::with_capacity(alloc, blocks.len())?;
    for (number, _) in blocks {
        numbers.push(*number)?;
    }
    Ok(numbers)
}

// The code of a file's segments.
fn new_code(alloc: Global, geometry: &Geometry) -> Result<Code, AllocError>
    ensures { IfOk result (λ code. (code.k ≡ geometry.now.needed)
        × (code.n ≡ geometry.now.total)) }
{
    match Code::new(alloc, geometry.needed(), geometry.total()) {
        Ok(code) => Ok(code),
        Err(CodeError::OutOfMemory) => Err(AllocError),
        Err(_) => unreachable!(),
    }
}

// The blocks of a segment, each with its share's number.
fn blocks_at<'a>(
    alloc: Global,
    geometry: &Geometry,
    blocks: &[(u16, &'a [u8])],
    number: u32,
) -> Result<Vec<(u16, &'a [u8])>, AllocError>
    requires { number < segment_count geometry.now }
    ensures numbers { IfOk result (λ these. map (λ s. s.0) these.items
        ≡ map (λ s. s.0) blocks.now) }
    ensures blocks { IfOk result (λ these. map (λ s. s.1.now) these.items
        ≡ map (block_at geometry.now number) (map (λ s. s.1.now) blocks.now)) }
{
    let mut these = Vec::with_capacity(alloc, blocks.len())?;
    for (share, text) in blocks {
        these.push((*share, block_of(geometry, text, number)))?;
    }
    Ok(these)
}

// The block of a segment among a share's blocks.
fn block_of<'a>(geometry: &Geometry, blocks: &'a [u8], number: u32) -> &'a [u8]
    requires { number < segment_count geometry.now }
    ensures { result.now ≡ block_at geometry.now number blocks.now }
{
    let segments = Segments {
        text: blocks,
        size: geometry.block_size() as usize,
        count: geometry.segment_count() as usize,
    };
    segments.segment(number as usize)
}
