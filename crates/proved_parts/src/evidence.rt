// Evidence, and whether a cap proves it.

ghost use Rattle.std.specs.Prelude.{◌≡◌, ◌↔◌, List, length, All, IsTrue};
ghost use Rattle.tagged_hash.specs.TaggedHash.{tagged_hash};
ghost use Rattle.tagged_hash.specs.declared.tag.Tag.TheVariants.{CiphertextSegment};
ghost use Rattle.merkle.specs.Path.{LeadsBy};
ghost use Rattle.share_layout.specs.Geometry.{segment_count};
ghost use Rattle.merkle.specs.Inputs.{AreHashes};
ghost use Rattle.proved_parts.specs.Evidence.{IsProved};
ghost use Rattle.proved_parts.specs.Parts.{IsSegmentBy};

use crate::bytes::{Bytes, Path};
use cap_text::VerifyCap;
use merkle::check_path;
use share_layout::Geometry;
use share_verify::{geometry_of, read_ueb};
use std::marker::Model;
use tagged_hash::{Tag, tagged};
use ueb::Ueb;

/// One segment of ciphertext, and the path from its hash to the root of the ciphertext tree.
#[derive(Drop)]
pub struct EvidencePart {
    /// The segment's number, from 0.
    pub number: u32,
    /// Its bytes.
    pub segment: Bytes,
    /// The siblings from its leaf upward.
    pub path: Path,
}

/// Parts, in any order.
#[derive(Drop)]
pub struct PartList {
    items: Vec<EvidencePart>,
}

impl Model for PartList {
    ghost use Rattle.std.specs.Prelude.{List};
    ghost use Rattle.proved_parts.specs.declared.evidence.EvidencePart.{EvidencePart};

    ghost Value = { List EvidencePart };

    ghost view = { λ l. l.items.items };
}

impl PartList {
    /// Takes the parts over, without memory.
    pub fn from_vec(items: Vec<EvidencePart>) -> PartList
        ensures { result ≡ items.items }
    {
        PartList { items }
    }

    /// The parts.
    pub fn as_slice(&self) -> &[EvidencePart]
        ensures { result.now ≡ self.now }
    {
        self.items.as_slice()
    }

    /// Gives the parts back, without memory.
    pub fn into_vec(self) -> Vec<EvidencePart>
        ensures { result.items ≡ self }
    {
        self.items
    }
}

/// What shows that segments are those of a cap's file: the extension block, and the segments with
/// their paths.
#[derive(Drop)]
pub struct Evidence {
    /// The extension block's text.
    pub extension_block: Bytes,
    /// The segments.
    pub parts: PartList,
}

impl Evidence {
    /// Whether the cap proves each part. Takes no memory.
    pub fn proves(&self, cap: &VerifyCap) -> bool
        ensures { IsTrue result ↔ IsProved cap.now self.now }
    {
        let Ok(ueb) = read_ueb(cap, self.extension_block.as_slice()) else {
            return false;
        };
        are_parts(&ueb, self.parts.as_slice())
    }
}

/// Whether each of these is a segment of the file of this extension block.
fn are_parts(ueb: &Ueb, parts: &[EvidencePart]) -> bool
    ensures { IsTrue result
        ↔ All (λ p. IsSegmentBy ueb.now p.number p.segment p.path) parts.now }
{
    parts.iter().all(|part| is_part(ueb, part))
}

/// Whether a part is a segment of the file of this extension block.
fn is_part(ueb: &Ueb, part: &EvidencePart) -> bool
    ensures { IsTrue result
        ↔ IsSegmentBy ueb.now part.now.number part.now.segment part.now.path }
{
    let geometry = geometry_of(ueb);
    let segment = part.segment.as_slice();
    part.number < geometry.segment_count()
        && segment.len() == geometry.segment_length(part.number) as usize
        && leads(&geometry, ueb, part.number, segment, part.path.as_slice())
}

/// Whether the segment's hash leads to the root of the ciphertext tree by these siblings.
fn leads(geometry: &Geometry, ueb: &Ueb, number: u32, segment: &[u8], siblings: &[[u8; 32]]) -> bool
    ensures leads { IsTrue result ↔ LeadsBy (segment_count geometry.now) ueb.now.crypttext_root_hash
        number (tagged_hash CiphertextSegment segment.now) siblings.now }
    ensures hashes { AreHashes siblings.now }
{
    check_path(
        ueb.crypttext_root_hash(),
        geometry.segment_count(),
        number,
        &tagged(Tag::CiphertextSegment, segment),
        siblings,
    )
}
