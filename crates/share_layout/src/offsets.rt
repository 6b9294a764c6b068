//! Where a share's sections stand.

ghost use Rattle.std.specs.Prelude.{◌≡◌, ◌^◌, ◌≤◌, ◌<◌, ◌↔◌, IsTrue, IsOk, Ok, Err, IfOk, length};
ghost use Rattle.share_layout.specs.declared.error.LayoutError.{LayoutError};
ghost use Rattle.share_layout.specs.Geometry.{IsGeometry};
ghost use Rattle.share_layout.specs.Layout.{header_size, offsets_by, offsets_of, width};
ghost use Rattle.share_layout.specs.Offsets.{header_number, layout_in, offsets_in, section_at};
ghost use Rattle.share_layout.specs.Offsets.{AreRising, HasOwnOffsets, HasVersion};
ghost use Rattle.share_layout.specs.Reading.{IsHeaderFault};
ghost use Rattle.share_layout.specs.Cutting.{IsVersionFault};

use crate::error::{LayoutError, Section};
use crate::geometry::Geometry;
use crate::layout::{Layout, number_at};

/// Where the sections of a share stand: the offsets of their first bytes. The blocks stand behind
/// the header.
#[derive(Clone, Copy, PartialEq, Eq)]
pub struct Offsets {
    /// The share's layout.
    pub layout: Layout,
    /// The offset of the tree that is no longer used.
    pub unused: u64,
    /// The offset of the ciphertext tree.
    pub ciphertext_tree: u64,
    /// The offset of the block tree.
    pub block_tree: u64,
    /// The offset of the share hashes.
    pub share_hashes: u64,
    /// The offset of the extension block's length, behind which the extension block stands.
    pub extension_block: u64,
}

impl Offsets {
    /// The offsets in the shares of a file with this geometry.
    pub fn of(geometry: &Geometry) -> Offsets
        ensures offsets { result ≡ offsets_of geometry.now }
        ensures valid { IsGeometry geometry.now }
        ensures rising { AreRising result }
        ensures small { result.extension_block < 2 ^ 41 }
    {
        Offsets::by(geometry.layout(), geometry)
    }

    /// The offsets that a share's header tells. Bytes that follow the header are not looked at.
    ///
    /// Otherwise the first fault in this order: `Truncated(Header)`, where the bytes begin with
    /// version 2 and are fewer than 68, or begin otherwise and are fewer than 36; `BadVersion`;
    /// `BadOffset`, where the blocks do not stand behind the header or an offset is not above the
    /// one before it.
    pub fn read(bytes: &[u8]) -> Result<Offsets, LayoutError>
        ensures offsets { IfOk result (λ offsets. offsets ≡ offsets_in bytes.now) }
        ensures version { IfOk result (λ offsets. HasVersion offsets.layout bytes.now) }
        ensures right { IfOk result (λ _. HasOwnOffsets bytes.now) }
        // When each refusal comes.
        ensures refused { (error : LayoutError)
            → (result ≡ Err error) ↔ IsHeaderFault bytes.now error }
    {
        let layout = Layout::in_header(bytes);
        if let Err(error) = check_version(layout, bytes) {
            return Err(error);
        }
        let offsets = Offsets::told(layout, bytes);
        if offsets.are_own(bytes) {
            Ok(offsets)
        } else {
            Err(LayoutError::BadOffset)
        }
    }

    /// The offsets in a layout.
    pub(crate) fn by(layout: Layout, geometry: &Geometry) -> Offsets
        ensures offsets { result ≡ offsets_by layout geometry.now }
        ensures valid { IsGeometry geometry.now }
        ensures rising { AreRising result }
        ensures small { result.extension_block < 2 ^ 41 }
    {
        let tree = u64::from(geometry.tree_size());
        let unused = layout.header_size() as u64 + geometry.share_data_size();
        let share_hashes = unused + 3 * tree;
        Offsets {
            layout,
            unused,
            ciphertext_tree: unused + tree,
            block_tree: unused + 2 * tree,
            share_hashes,
            extension_block: share_hashes + u64::from(geometry.hashes_size()),
        }
    }

    // The offsets that a header tells.
    fn told(layout: Layout, bytes: &[u8]) -> Offsets
        requires layout { layout ≡ layout_in bytes.now }
        requires long { header_size layout ≤ length bytes.now }
        ensures { result ≡ offsets_in bytes.now }
    {
        Offsets {
            layout,
            unused: header_number(layout, bytes, 3),
            ciphertext_tree: header_number(layout, bytes, 4),
            block_tree: header_number(layout, bytes, 5),
            share_hashes: header_number(layout, bytes, 6),
            extension_block: header_number(layout, bytes, 7),
        }
    }

    // Whether these offsets, which a header tells, are as they can be.
    fn are_own(&self, bytes: &[u8]) -> bool
        requires offsets { self.now ≡ offsets_in bytes.now }
        requires long { header_size self.now.layout ≤ length bytes.now }
        ensures { IsTrue result ↔ HasOwnOffsets bytes.now }
    {
        let data = header_number(self.layout, bytes, 2);
        data == self.layout.header_size() as u64 && self.are_rising()
    }

    // Whether each offset is above the one before it.
    fn are_rising(&self) -> bool
        ensures { IsTrue result ↔ AreRising self.now }
    {
        (self.layout.header_size() as u64) < self.unused
            && self.unused < self.ciphertext_tree
            && self.ciphertext_tree < self.block_tree
            && self.block_tree < self.share_hashes
            && self.share_hashes < self.extension_block
    }

    /// The section in which an offset of a share lies.
    pub(crate) fn section_at(&self, offset: u64) -> Section
        ensures { result ≡ section_at self.now offset }
    {
        if offset < self.layout.header_size() as u64 {
            Section::Header
        } else if offset < self.unused {
            Section::Data
        } else if offset < self.ciphertext_tree {
            Section::Unused
        } else if offset < self.block_tree {
            Section::CiphertextTree
        } else if offset < self.share_hashes {
            Section::BlockTree
        } else if offset < self.extension_block {
            Section::ShareHashes
        } else {
            Section::Ueb
        }
    }
}

/// Whether bytes begin with a whole header of this layout, or the first fault of its length and its
/// version.
pub(crate) fn check_version(layout: Layout, bytes: &[u8]) -> Result<(), LayoutError>
    ensures ok { IsOk result ↔ HasVersion layout bytes.now }
    ensures refused { (error : LayoutError)
        → (result ≡ Err error) ↔ IsVersionFault layout bytes.now error }
{
    if bytes.len() < Layout::in_header(bytes).header_size() {
        return Err(LayoutError::Truncated(Section::Header));
    }
    if !bytes.starts_with(&layout.version().to_be_bytes()) {
        return Err(LayoutError::BadVersion);
    }
    Ok(())
}

// A header's number, by its offset among the eight behind the version.
fn header_number(layout: Layout, bytes: &[u8], i: usize) -> u64
    requires layout { layout ≡ layout_in bytes.now }
    requires long { header_size layout ≤ length bytes.now }
    requires there { i < 8 }
    ensures { result ≡ header_number bytes.now i }
{
    number_at(layout, bytes, 4 + layout.width() * i)
}
