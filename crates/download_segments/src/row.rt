//! Eight segments of one length, side by side.

ghost use Rattle.std.specs.Prelude.{◌≡◌, ◌<◌, ◌^◌, ℕ, All, [], length, map, slice_index_or};
ghost use Rattle.tagged_hash.specs.TaggedHash.{tagged_hash};
ghost use Rattle.tagged_hash.specs.declared.tag.Tag.TheVariants.{CiphertextSegment};

use tagged_hash::{Tag, tagged_eight};

/// The hashes of eight segments, which have `size` bytes each.
pub(crate) fn segment_hashes(segments: &[Vec<u8>], size: usize) -> [[u8; 32]; 8]
    requires eight { length segments.now ≡ 8 }
    requires long { All (λ s. length s.items ≡ size) segments.now }
    requires low { size < 2 ^ 32 }
    ensures { (i : ℕ) → i < 8 → slice_index_or result i [] ≡ tagged_hash CiphertextSegment
        (slice_index_or (map (λ s. s.items) segments.now) i []) }
{
    let messages: [&[u8]; 8] = [
        &segments[0],
        &segments[1],
        &segments[2],
        &segments[3],
        &segments[4],
        &segments[5],
        &segments[6],
        &segments[7],
    ];
    tagged_eight(Tag::CiphertextSegment, &messages, size)
}
