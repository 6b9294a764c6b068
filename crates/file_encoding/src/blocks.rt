// The segments of a text, and their hashes.

ghost use Rattle.std.specs.Prelude.{◌≡◌, ◌≤◌, ◌<◌, ◌+◌, ◌-◌, ◌*◌, ◌/◌, ◌%◌, ◌^◌, ◌++◌, ℕ, List};
ghost use Rattle.std.specs.Prelude.{length, take, drop, map, IfOk, OnOk, slice_index};
ghost use Rattle.tagged_hash.specs.TaggedHash.{tagged_hash};
ghost use Rattle.tagged_hash.specs.declared.tag.Tag.TheVariants.{Block, CiphertextSegment};
ghost use Rattle.zfec_code.specs.ShareValue.{share_block};
ghost use Rattle.zfec_code.specs.Shares.{IsShareOf};
ghost use Rattle.share_layout.specs.Geometry.{IsGeometry, segment_count};
ghost use Rattle.share_layout.specs.Pieces.{pieces};
ghost use Rattle.proved_parts.specs.FileOf.{segment_hashes};

use share_layout::Geometry;
use std::alloc::{AllocError, Global};
use tagged_hash::{Tag, tagged_pieces};
use zfec_code::Code;

/// A text that is cut into so many segments of `size` bytes, the last perhaps shorter.
#[derive(Clone, Copy)]
pub(crate) struct Segments<'a> {
    pub text: &'a [u8],
    pub size: usize,
    pub count: usize,
}

impl<'a> Segments<'a> {
    /// The segments of a file's text with this geometry, which may be padded.
    pub(crate) fn of(geometry: &Geometry, text: &'a [u8]) -> Segments<'a>
        ensures text { result.text.now ≡ text.now }
        ensures size { result.size ≡ geometry.now.segment_size }
        ensures count { result.count ≡ segment_count geometry.now }
        ensures few { result.count ≤ 2 ^ 20 }
        ensures small { result.size ≤ 2 ^ 21 }
        ensures some { 0 < result.count }
        ensures valid { IsGeometry geometry.now }
    {
        Segments {
            text,
            size: geometry.segment_size() as usize,
            count: geometry.segment_count() as usize,
        }
    }

    /// The segment of this number.
    pub(crate) fn segment(&self, number: usize) -> &'a [u8]
        requires few { number < 2 ^ 20 }
        requires small { self.now.size ≤ 2 ^ 21 }
        ensures { result.now ≡ take self.now.size
            (drop (number * self.now.size) self.now.text.now) }
    {
        let start = self.text.len().min(number * self.size);
        let end = self.text.len().min(start + self.size);
        &self.text[start..end]
    }

    /// The hashes of the segments: the leaves of the ciphertext tree.
    pub(crate) fn hashes(&self, alloc: Global) -> Result<Vec<[u8; 32]>, AllocError>
        requires few { self.now.count ≤ 2 ^ 20 }
        requires small { self.now.size ≤ 2 ^ 21 }
        ensures hashes { IfOk result (λ hashes. hashes.items ≡ segment_hashes
            (pieces self.now.count self.now.size self.now.text.now)) }
        ensures count { IfOk result (λ hashes. length hashes.items ≡ self.now.count) }
    {
        let mut hashes = vec![in alloc; [0u8; 32]; self.count]?;
        tagged_pieces(Tag::CiphertextSegment, self.text, self.size, &mut hashes);
        Ok(hashes)
    }
}
