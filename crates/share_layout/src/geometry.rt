//! How a file is cut up, and how long each part of its shares is.

ghost use Rattle.std.specs.Prelude.{◌≡◌, ◌+◌, ◌*◌, ◌^◌, ◌<◌, ◌≤◌, ◌↔◌, ◌++◌, Ok, Err, IfOk, take};
ghost use Rattle.std.specs.Prelude.{drop};
ghost use Rattle.std.specs.Int.{w32, to_be_bytes};
ghost use Rattle.std.specs.List.{flat_map};
ghost use Rattle.merkle.specs.Tree.{height};
ghost use Rattle.ueb.specs.Limits.{max_file_size, max_segments};
ghost use Rattle.ueb.specs.Shape.{rounded_up};
ghost use Rattle.share_layout.specs.Geometry.{GivesItself};
ghost use Rattle.share_layout.specs.Layout.{header, header_size, layout_of, spelled, version};
ghost use Rattle.share_layout.specs.Pieces.{SegmentsArePieces, SegmentsHaveLengths};

use crate::error::LayoutError;
use crate::layout::{Layout, spell};
use crate::offsets::Offsets;
use merkle::height;
use std::marker::Model;
use ueb::{MAX_FILE_SIZE, MAX_SEGMENT_SIZE, MAX_SEGMENTS, MAX_SHARES};

/// How a file of some size is cut into segments, and these into blocks, of which any `needed` of
/// `total` give a segment back.
///
/// The file has 1 to `ueb::MAX_FILE_SIZE` bytes, and at most `ueb::MAX_SEGMENTS` segments. There
/// are 1 to `ueb::MAX_SHARES` shares. The segment size is a multiple of the shares needed. What is
/// cut up can also be the file's text with its padding: see `padded`.
#[derive(Clone, Copy, PartialEq, Eq)]
pub struct Geometry {
    size: u64,
    needed: u16,
    total: u16,
    segment_size: u32,
}

impl Model for Geometry {
    ghost use Rattle.share_layout.specs.Geometry.{Geometry, IsGeometry, geometry_with};

    ghost Value = { Geometry };

    ghost view = { λ g. geometry_with g.size g.needed g.total g.segment_size };

    ghost invariant = { λ g.
        IsGeometry (geometry_with g.size g.needed g.total g.segment_size) };

    ghost inverse = { λ g. record {
      size = g.size;
      needed = g.needed;
      total = g.total;
      segment_size = g.segment_size;
    } };
}

impl Geometry {
    ghost use Rattle.share_layout.specs.Geometry.{geometry_of, HasGeometry, IsGeometryFault};
    ghost use Rattle.share_layout.specs.Geometry.{IsGeometry, segment_count, tail_length};
    ghost use Rattle.share_layout.specs.Geometry.{with_padding};
    ghost use Rattle.share_layout.specs.Geometry.{block_size, tail_block_size, share_data_size};
    ghost use Rattle.share_layout.specs.Geometry.{tree_size, hashes_size};
    ghost use Rattle.share_layout.specs.Layout.{header_numbers};
    ghost use Rattle.share_layout.specs.Pieces.{block_length, segment_length};

    /// The geometry of a file of `size` bytes, of which `needed` of `total` shares are needed, with
    /// segments of at most `max` bytes, or of the least multiple of `needed` from there on.
    ///
    /// Otherwise the first fault in this order: `BadParameters` (size 0, not 1 <= needed <= total
    /// <= 256, or `max` not 1 to `ueb::MAX_SEGMENT_SIZE`), `TooLarge`, `TooManySegments`.
    pub fn of(size: u64, needed: u16, total: u16, max: u32) -> Result<Geometry, LayoutError>
        ensures given { IfOk result (λ g. g ≡ geometry_of size needed total max) }
        ensures parameters { IfOk result (λ _. HasGeometry size needed total max) }
        ensures valid { IfOk result IsGeometry }
        // What has a geometry is given it.
        ensures complete { HasGeometry size needed total max
            → result ≡ Ok (geometry_of size needed total max) }
        // When each refusal comes.
        ensures refused { (error : LayoutError)
            → (result ≡ Err error) ↔ IsGeometryFault size needed total max error }
    {
        if size == 0
            || needed == 0
            || needed > total
            || total > MAX_SHARES
            || max == 0
            || max > MAX_SEGMENT_SIZE
        {
            return Err(LayoutError::BadParameters);
        }
        if size > MAX_FILE_SIZE {
            return Err(LayoutError::TooLarge);
        }
        let segment_size = rounded_up(u64::from(max).min(size), needed);
        if size.div_ceil(segment_size) > u64::from(MAX_SEGMENTS) {
            return Err(LayoutError::TooManySegments);
        }
        Ok(Geometry {
            size,
            needed,
            total,
            segment_size: segment_size as u32,
        })
    }

    /// The geometry of the file's text with its padding: its size is the least multiple of the
    /// shares needed that is the file's or more, and so up to 255 bytes above
    /// `ueb::MAX_FILE_SIZE`. It has as many segments.
    pub fn padded(&self) -> Geometry
        ensures value { result ≡ with_padding self.now }
        ensures valid { IsGeometry result }
    {
        Geometry {
            size: rounded_up(self.size, self.needed),
            ..*self
        }
    }

    /// The file's size in bytes.
    pub fn size(&self) -> u64
        ensures value { result ≡ self.now.size }
        ensures valid { IsGeometry self.now }
    {
        self.size
    }

    /// How many shares give the file back.
    pub fn needed(&self) -> u16
        ensures value { result ≡ self.now.needed }
        ensures valid { IsGeometry self.now }
    {
        self.needed
    }

    /// How many shares there are in all.
    pub fn total(&self) -> u16
        ensures value { result ≡ self.now.total }
        ensures valid { IsGeometry self.now }
    {
        self.total
    }

    /// The size of each segment but the last, in bytes.
    pub fn segment_size(&self) -> u32
        ensures value { result ≡ self.now.segment_size }
        ensures valid { IsGeometry self.now }
    {
        self.segment_size
    }

    /// How many segments the file has.
    pub fn segment_count(&self) -> u32
        ensures value { result ≡ segment_count self.now }
        ensures valid { IsGeometry self.now }
        ensures range { (0 < result) × (result ≤ max_segments) }
    {
        self.size.div_ceil(u64::from(self.segment_size)) as u32
    }

    /// The length of the last segment, in bytes: a whole segment's or less.
    pub fn tail_length(&self) -> u32
        ensures value { result ≡ tail_length self.now }
        ensures valid { IsGeometry self.now }
        ensures range { (0 < result) × (result ≤ self.now.segment_size) }
    {
        let left = (self.size % u64::from(self.segment_size)) as u32;
        if left == 0 { self.segment_size } else { left }
    }

    /// The length of each block but those of the last segment, in bytes.
    pub fn block_size(&self) -> u32
        ensures value { result ≡ block_size self.now }
        ensures valid { IsGeometry self.now }
        ensures range { (0 < result) × (result ≤ self.now.segment_size) }
    {
        self.segment_size / u32::from(self.needed)
    }

    /// The length of each block of the last segment, in bytes.
    pub fn tail_block_size(&self) -> u32
        ensures value { result ≡ tail_block_size self.now }
        ensures valid { IsGeometry self.now }
        ensures range { (0 < result) × (result ≤ block_size self.now) }
    {
        self.tail_length().div_ceil(u32::from(self.needed))
    }

    /// The length of a share's blocks together, in bytes.
    pub fn share_data_size(&self) -> u64
        ensures value { result ≡ share_data_size self.now }
        ensures valid { IsGeometry self.now }
        ensures range { (0 < result) × (result ≤ max_file_size) }
    {
        self.size.div_ceil(u64::from(self.needed))
    }

    /// The length of a segment, in bytes.
    pub fn segment_length(&self, number: u32) -> u32
        requires { number < segment_count self.now }
        ensures value { result ≡ segment_length self.now number }
        ensures valid { IsGeometry self.now }
        ensures range { (0 < result) × (result ≤ self.now.segment_size) }
    {
        let before = u64::from(number) * u64::from(self.segment_size);
        u64::from(self.segment_size).min(self.size - before) as u32
    }

    /// The length of each block of a segment, in bytes.
    pub fn block_length(&self, number: u32) -> u32
        requires { number < segment_count self.now }
        ensures value { result ≡ block_length self.now number }
        ensures valid { IsGeometry self.now }
        ensures range { (0 < result) × (result ≤ block_size self.now) }
        ensures enough { segment_length self.now number ≤ result * self.now.needed }
    {
        self.segment_length(number).div_ceil(u32::from(self.needed))
    }

    // The number of leaves of a tree with a leaf for each segment, those that fill it up to a power
    // of two among them.
    fn tree_width(&self) -> u32
        ensures value { result ≡ 2 ^ height (segment_count self.now) }
        ensures valid { IsGeometry self.now }
        ensures range { (0 < result) × (result ≤ max_segments) }
    {
        1 << height(self.segment_count())
    }

    /// The height of the tree with a leaf for each share.
    pub(crate) fn share_tree_height(&self) -> u32
        ensures value { result ≡ height self.now.total }
        ensures valid { IsGeometry self.now }
        ensures low { result ≤ 8 }
        ensures room { self.now.total ≤ 2 ^ result }
    {
        height(u32::from(self.total))
    }

    /// The length of each section of a share that holds a tree, in bytes.
    pub fn tree_size(&self) -> u32
        ensures value { result ≡ tree_size self.now }
        ensures valid { IsGeometry self.now }
        ensures range { (32 ≤ result) × (result < 2 ^ 26) }
    {
        (2 * self.tree_width() - 1) * 32
    }

    /// The length of a share's share hashes, in bytes.
    pub fn hashes_size(&self) -> u32
        ensures value { result ≡ hashes_size self.now }
        ensures valid { IsGeometry self.now }
        ensures range { (34 ≤ result) × (result ≤ 306) }
    {
        (self.share_tree_height() + 1) * 34
    }

    /// The layout of the file's shares: the second where a number in a header of the first does not
    /// fit its four bytes.
    pub fn layout(&self) -> Layout
        ensures { result ≡ layout_of self.now }
    {
        if Offsets::by(Layout::One, self).extension_block < 1 << 32 {
            Layout::One
        } else {
            Layout::Two
        }
    }

    /// Writes the header of each share over the first bytes of `out`, and gives its length: 36 or
    /// 68.
    pub fn header(&self, out: &mut [u8; 68]) -> usize
        ensures length { result ≡ header_size (layout_of self.now) }
        ensures header { take result out.new ≡ header self.now }
        ensures rest { drop result out.new ≡ drop result out.old }
    {
        let layout = self.layout();
        spell_header(layout, self.header_numbers(layout), out);
        layout.header_size()
    }

    // The numbers in a header behind the version.
    fn header_numbers(&self, layout: Layout) -> [u64; 8]
        ensures { result ≡ header_numbers layout self.now }
    {
        let offsets = Offsets::by(layout, self);
        [
            u64::from(self.block_size()),
            self.share_data_size(),
            layout.header_size() as u64,
            offsets.unused,
            offsets.ciphertext_tree,
            offsets.block_tree,
            offsets.share_hashes,
            offsets.extension_block,
        ]
    }
}

// The least multiple of `k` that is `n` or more.
fn rounded_up(n: u64, k: u16) -> u64
    requires some { 0 < k }
    requires low { n < 2 ^ 48 }
    ensures value { result ≡ rounded_up n k }
    ensures above { n ≤ result }
    ensures low { result < n + k }
{
    n.div_ceil(u64::from(k)) * u64::from(k)
}

// Writes the version and then the numbers over the first bytes.
fn spell_header(layout: Layout, numbers: [u64; 8], out: &mut [u8; 68])
    ensures header { take (header_size layout) out.new
        ≡ to_be_bytes w32 (version layout) ++ flat_map (spelled layout) numbers }
    ensures rest { drop (header_size layout) out.new ≡ drop (header_size layout) out.old }
{
    out[..4].copy_from_slice(&layout.version().to_be_bytes());
    let width = layout.width();
    for i in 0..8 {
        let offset = 4 + width * i;
        spell(layout, numbers[i], &mut out[offset..offset + width]);
    }
}

/// A law of the definitions: the lengths of a file's segments and of their blocks. The law is the
/// contract; the call does nothing.
pub fn segments_have_lengths()
    ensures { SegmentsHaveLengths }
{}

/// A law of the definitions: a segment is the piece of its number. The law is the contract; the
/// call does nothing.
pub fn segments_are_pieces()
    ensures { SegmentsArePieces }
{}

/// A law of the definitions: a geometry whose segment size is at most `ueb::MAX_SEGMENT_SIZE` is
/// the one that `Geometry::of` gives for its own segment size. The law is the contract; the call
/// does nothing.
pub fn geometry_gives_itself()
    ensures { GivesItself }
{}
