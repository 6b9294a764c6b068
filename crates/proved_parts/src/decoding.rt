// Segments, decoded from blocks.

ghost use Rattle.std.specs.Prelude.{◌≡◌, ◌<◌, length, map, take};
ghost use Rattle.zfec_code.specs.Shares.{HaveSize};
ghost use Rattle.share_layout.specs.Geometry.{segment_count};
ghost use Rattle.share_layout.specs.Pieces.{block_length, segment_length};
ghost use Rattle.proved_parts.specs.Decoding.{DecodesBlocks};

use share_layout::Geometry;
use zfec_code::Decoder;

/// Writes to `padded` the segment of ciphertext with this number, and zeros or whatever pads it
/// behind it, and gives the segment's length. The blocks are those of the segment, as many as are
/// needed, with the decoder's numbers, in their order. Takes no memory.
pub fn decode_segment(
    geometry: &Geometry,
    decoder: &Decoder,
    number: u32,
    blocks: &[(u16, &[u8])],
    padded: &mut [u8],
) -> usize
    requires there { number < segment_count geometry.now }
    requires needed { length decoder.now ≡ geometry.now.needed }
    requires numbers { map (λ s. s.0) blocks.now ≡ decoder.now }
    requires lengths { HaveSize geometry.now.needed (block_length geometry.now number)
        (map (λ s. s.1.now) blocks.now) (length padded.old) }
    ensures length { result ≡ segment_length geometry.now number }
    ensures decodes { DecodesBlocks geometry.now (map (λ s. s.0) blocks.now)
        (map (λ s. s.1.now) blocks.now) number
        (take (segment_length geometry.now number) padded.new) }
{
    decoder.decode(blocks, padded);
    geometry.segment_length(number) as usize
}
