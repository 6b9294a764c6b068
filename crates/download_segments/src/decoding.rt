//! Segments, decoded from blocks.

ghost use Rattle.std.specs.Prelude.{◌≡◌, ◌*◌, ◌<◌, IfOk, length, map};
ghost use Rattle.share_layout.specs.Geometry.{segment_count};
ghost use Rattle.share_layout.specs.Pieces.{block_length, pieces, segment_length};
ghost use Rattle.proved_parts.specs.Decoding.{DecodesBlocks};
ghost use Rattle.download_segments.specs.Decoding.{AreShareNumbers, IsDecoding, blocks_in};

use proved_parts::decode_segment;
use share_layout::Geometry;
use std::alloc::{AllocError, Global};
use std::marker::Model;
use zfec_code::{Code, CodeError, Decoder};

/// Decodes the segments of a file from the blocks of shares with given numbers.
#[derive(Drop)]
pub struct Decoding {
    geometry: Geometry,
    numbers: Vec<u16>,
    decoder: Decoder,
}

impl Model for Decoding {
    ghost use Rattle.std.specs.Prelude.{◌≡◌};
    ghost use Rattle.download_segments.specs.Decoding.{AreShareNumbers, DecodingState};

    ghost Value = { DecodingState };

    ghost view = { λ d. record { geometry = d.geometry; numbers = d.numbers.items } };

    ghost invariant = { λ d. AreShareNumbers d.geometry d.numbers.items
        × (d.decoder ≡ d.numbers.items) };
}

impl Decoding {
    /// Makes ready to decode blocks of the shares with these numbers. Any as many different shares
    /// as are needed will do, in any order.
    pub fn new(
        alloc: Global,
        geometry: &Geometry,
        numbers: Vec<u16>,
    ) -> Result<Decoding, AllocError>
        requires { AreShareNumbers geometry.now numbers.items }
        ensures { IfOk result (λ decoding.
            decoding ≡ record { geometry = geometry.now; numbers = numbers.items }) }
    {
        let decoder = decoder_of(alloc, geometry, Vec::from_slice(alloc, &numbers)?)?;
        Ok(Decoding {
            geometry: *geometry,
            numbers,
            decoder,
        })
    }

    /// The segment of ciphertext with this number. There is such a segment. Its blocks, in the
    /// order of the shares' numbers, stand one after another in `joined`.
    pub fn decode(&self, alloc: Global, number: u32, joined: &[u8]) -> Result<Vec<u8>, AllocError>
        requires there { number < segment_count self.now.geometry }
        requires long { length joined.now
            ≡ self.now.geometry.needed * block_length self.now.geometry number }
        ensures decodes { IfOk result (λ segment. DecodesBlocks self.now.geometry self.now.numbers
            (blocks_in self.now.geometry number joined.now) number segment.items) }
        ensures length { IfOk result (λ segment.
            length segment.items ≡ segment_length self.now.geometry number) }
        ensures sound { IsDecoding self.now }
    {
        let size = self.geometry.block_length(number) as usize;
        let blocks = split_blocks(alloc, &self.numbers, joined, size)?;
        let mut segment = vec![in alloc; 0u8; joined.len()]?;
        let whole = decode_segment(&self.geometry, &self.decoder, number, &blocks, &mut segment);
        segment.truncate(whole);
        Ok(segment)
    }
}

// The decoder of blocks of shares with these numbers.
fn decoder_of(alloc: Global, geometry: &Geometry, numbers: Vec<u16>) -> Result<Decoder, AllocError>
    requires { AreShareNumbers geometry.now numbers.items }
    ensures { IfOk result (λ decoder. decoder ≡ numbers.items) }
{
    let code = match Code::new(alloc, geometry.needed(), geometry.total()) {
        Ok(code) => code,
        Err(CodeError::OutOfMemory) => return Err(AllocError),
        Err(_) => unreachable!(),
    };
    match code.decoder(alloc, numbers) {
        Ok(decoder) => Ok(decoder),
        Err(CodeError::OutOfMemory) => Err(AllocError),
        Err(_) => unreachable!(),
    }
}

// Blocks of so many bytes each, which stand one after another, each with the number of its share.
fn split_blocks<'a>(
    alloc: Global,
    numbers: &[u16],
    joined: &'a [u8],
    size: usize,
) -> Result<Vec<(u16, &'a [u8])>, AllocError>
    requires { length joined.now ≡ length numbers.now * size }
    ensures numbers { IfOk result (λ blocks. map (λ b. b.0) blocks.items ≡ numbers.now) }
    ensures blocks { IfOk result (λ blocks. map (λ b. b.1.now) blocks.items
        ≡ pieces (length numbers.now) size joined.now) }
{
    let mut blocks = Vec::with_capacity(alloc, numbers.len())?;
    let mut rest = joined;
    for number in numbers {
        let (block, others) = rest.split_at(size);
        blocks.push((*number, block))?;
        rest = others;
    }
    Ok(blocks)
}
