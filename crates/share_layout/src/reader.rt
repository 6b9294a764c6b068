//! Reading a share.

ghost use Rattle.std.specs.Prelude.{◌≡◌, ◌≤◌, ◌↔◌, ℕ, IsTrue, List, length, IfOk, MatchResult, Err};
ghost use Rattle.share_layout.specs.Layout.{header_size};
ghost use Rattle.share_layout.specs.Share.{IsShare, Sections};
ghost use Rattle.share_layout.specs.Offsets.{AreRising, LocatesUeb};
ghost use Rattle.share_layout.specs.Laws.{HasOneReading, LocateTheirBlocks, TellTheirOffsets};
ghost use Rattle.share_layout.specs.Reading.{HasHeader, IsLocateFault, IsReadFault, sections_in};
ghost use Rattle.share_layout.specs.Cutting.{IsCut, IsCutFault};

use crate::error::{LayoutError, Section};
use crate::geometry::Geometry;
use crate::layout::number_at;
use crate::offsets::{Offsets, check_version};
use crate::share_hashes::carries_numbers;
use crate::view::ShareView;
use ueb::MAX_LENGTH;

/// The extension block of a share, by the offsets that the share's own header tells.
///
/// Otherwise the first fault in this order: those of `Offsets::read`; `BadOffset`, where the
/// extension block's length is there and is over `ueb::MAX_LENGTH` or bytes follow the extension
/// block; `Truncated` with the section that the first missing byte belongs to.
pub fn locate_ueb(bytes: &[u8]) -> Result<&[u8], LayoutError>
    // What is found is the extension block.
    ensures accepted { IfOk result (λ block. LocatesUeb bytes.now block.now) }
    // An extension block that stands there is found.
    ensures complete { (block : List ℕ) → LocatesUeb bytes.now block
        → MatchResult result (λ found. found.now ≡ block) (λ _. ⊥) }
    // When each refusal comes.
    ensures refused { (error : LayoutError)
        → (result ≡ Err error) ↔ IsLocateFault bytes.now error }
{
    locate(bytes)
}

impl<'a> ShareView<'a> {
    /// The sections of share `number` of a file with this geometry.
    ///
    /// Otherwise the first fault in this order: `Truncated(Header)`, a header being measured as by
    /// `Offsets::read`; `BadVersion`, where the layout is not the geometry's; `BadOffset`, where a
    /// number in the header is not the geometry's, and where the extension block's length is there
    /// and is over `ueb::MAX_LENGTH` or bytes follow the extension block; `Truncated` with the
    /// section that the first missing byte belongs to; `BadShareHashes`, where the file has no such
    /// share or the share hashes carry other numbers than it needs.
    pub fn read(
        bytes: &'a [u8],
        number: u16,
        geometry: &Geometry,
    ) -> Result<ShareView<'a>, LayoutError>
        // What is read is such a share.
        ensures accepted { IfOk result
            (λ view. IsShare geometry.now number bytes.now (sections_in view)) }
        // Such a share is read.
        ensures complete { (sections : Sections) → IsShare geometry.now number bytes.now sections
            → MatchResult result (λ view. sections_in view ≡ sections) (λ _. ⊥) }
        // When each refusal comes.
        ensures refused { (error : LayoutError)
            → (result ≡ Err error) ↔ IsReadFault geometry.now number bytes.now error }
    {
        read_share(bytes, number, geometry)
    }
}

/// A law of the definitions: bytes are a share in one way at most. The law is the contract; the
/// call does nothing.
pub fn shares_have_one_reading()
    ensures { HasOneReading }
{}

/// A law of the definitions: where bytes begin with the header of a geometry, `Offsets::read` gives
/// the geometry's offsets. The law is the contract; the call does nothing.
pub fn headers_tell_their_offsets()
    ensures { TellTheirOffsets }
{}

/// A law of the definitions: the header of a share leads to the share's extension block. The law is
/// the contract; the call does nothing.
pub fn shares_locate_their_blocks()
    ensures { LocateTheirBlocks }
{}

// The extension block, or the first fault.
fn locate(bytes: &[u8]) -> Result<&[u8], LayoutError>
    ensures { MatchResult result (λ block. LocatesUeb bytes.now block.now)
        (IsLocateFault bytes.now) }
{
    let offsets = match Offsets::read(bytes) {
        Ok(offsets) => offsets,
        Err(error) => return Err(error),
    };
    match cut(bytes, offsets) {
        Ok(view) => Ok(view.extension_block),
        Err(error) => Err(error),
    }
}

// The sections, or the first fault.
fn read_share<'a>(
    bytes: &'a [u8],
    number: u16,
    geometry: &Geometry,
) -> Result<ShareView<'a>, LayoutError>
    ensures { MatchResult result (λ view. IsShare geometry.now number bytes.now (sections_in view))
        (IsReadFault geometry.now number bytes.now) }
{
    if let Err(error) = check_version(geometry.layout(), bytes) {
        return Err(error);
    }
    if !has_header(bytes, geometry) {
        return Err(LayoutError::BadOffset);
    }
    let view = match cut(bytes, Offsets::of(geometry)) {
        Ok(view) => view,
        Err(error) => return Err(error),
    };
    if carries_numbers(geometry, number, view.share_hashes) {
        Ok(view)
    } else {
        Err(LayoutError::BadShareHashes)
    }
}

// The sections at some offsets behind a header, or the first fault. An offset and a length that a
// header tells may be near 2^64: what is there is compared with them by what is left of it.
fn cut(bytes: &[u8], offsets: Offsets) -> Result<ShareView<'_>, LayoutError>
    requires long { header_size offsets.layout ≤ length bytes.now }
    requires rising { AreRising offsets }
    ensures { MatchResult result (λ view. IsCut offsets bytes.now (sections_in view))
        (IsCutFault offsets bytes.now) }
{
    let length = bytes.len() as u64;
    let width = offsets.layout.width();
    if length - (width as u64) < offsets.extension_block {
        return Err(LayoutError::Truncated(offsets.section_at(length)));
    }
    let block = offsets.extension_block as usize + width;
    let told = number_at(offsets.layout, bytes, offsets.extension_block as usize);
    let left = (bytes.len() - block) as u64;
    if told > MAX_LENGTH as u64 || left > told {
        return Err(LayoutError::BadOffset);
    }
    if left < told {
        return Err(LayoutError::Truncated(Section::Ueb));
    }
    Ok(ShareView {
        blocks: &bytes[offsets.layout.header_size()..offsets.unused as usize],
        unused: &bytes[offsets.unused as usize..offsets.ciphertext_tree as usize],
        ciphertext_tree: &bytes[offsets.ciphertext_tree as usize..offsets.block_tree as usize],
        block_tree: &bytes[offsets.block_tree as usize..offsets.share_hashes as usize],
        share_hashes: &bytes[offsets.share_hashes as usize..offsets.extension_block as usize],
        extension_block: &bytes[block..],
    })
}

/// Whether bytes begin with the header of each share of a file with this geometry.
pub fn has_header(bytes: &[u8], geometry: &Geometry) -> bool
    ensures { IsTrue result ↔ HasHeader geometry.now bytes.now }
{
    let mut header = [0; 68];
    let length = geometry.header(&mut header);
    bytes.starts_with(&header[..length])
}
