//! The header of a share, as it is read.

ghost use Rattle.std.specs.Prelude.{◌≡◌, ◌≤◌, ◌↔◌, ◌++◌, ◌+◌, ◌<◌, ◌^◌, length, take, IfOk};
ghost use Rattle.std.specs.Prelude.{Err, IsTrue};
ghost use Rattle.share_layout.specs.Layout.{header, header_size};
ghost use Rattle.share_layout.specs.Offsets.{layout_in};
ghost use Rattle.share_reading.specs.Header.{IsReachable, IsRightHeader, IsSecond};

use crate::error::OpeningError;
use share_layout::{Geometry, Offsets};
use ueb::MAX_LENGTH;

/// The first 36 bytes of a header that begins with version 2: 32 more belong to it.
#[derive(Clone, Copy, PartialEq, Eq)]
pub struct HeaderStart {
    /// The bytes.
    pub bytes: [u8; 36],
    pub ghost long: { length bytes ≡ 36 },
    pub ghost second: { IsSecond bytes },
}

/// A header that was read whole, and the offsets that it tells.
#[derive(Clone, Copy, PartialEq, Eq)]
pub struct ShareHeader {
    /// The header, in the first 36 or 68 bytes: as many as its layout gives it.
    pub bytes: [u8; 68],
    /// The offsets.
    pub offsets: Offsets,
    pub ghost right: { IsRightHeader bytes offsets },
}

impl ShareHeader {
    ghost use Rattle.share_reading.specs.Opening.{text_of};
    ghost use Rattle.share_reading.specs.Refusal.{IsHeaderRefusal};
    ghost use Rattle.share_reading.specs.declared.error.OpeningError.{OpeningError};

    /// The header: 36 or 68 bytes.
    pub fn text(&self) -> &[u8]
        ensures { result.now ≡ text_of self.now }
    {
        &self.bytes[..self.offsets.layout.header_size()]
    }

    /// The header that these bytes are, or why its share is given up.
    pub(crate) fn read(bytes: &[u8]) -> Result<ShareHeader, OpeningError>
        requires whole { length bytes.now ≡ header_size (layout_in bytes.now) }
        ensures read { IfOk result (λ header. text_of header ≡ bytes.now) }
        ensures refused { (error : OpeningError)
            → (result ≡ Err error) ↔ IsHeaderRefusal bytes.now error }
    {
        let offsets = match Offsets::read(bytes) {
            Ok(offsets) => offsets,
            Err(error) => return Err(OpeningError::Header(error)),
        };
        if !is_reachable(&offsets) {
            return Err(OpeningError::TooFar);
        }
        let mut whole = [0; 68];
        whole[..bytes.len()].copy_from_slice(bytes);
        Ok(ShareHeader {
            bytes: whole,
            offsets,
        })
    }
}

impl HeaderStart {
    ghost use Rattle.share_reading.specs.Opening.{text_of};
    ghost use Rattle.share_reading.specs.Refusal.{IsHeaderRefusal};
    ghost use Rattle.share_reading.specs.declared.error.OpeningError.{OpeningError};

    /// These 36 bytes.
    pub(crate) fn of(bytes: &[u8]) -> HeaderStart
        requires long { length bytes.now ≡ 36 }
        requires second { IsSecond bytes.now }
        ensures { result.bytes ≡ bytes.now }
    {
        let mut start = [0; 36];
        start.copy_from_slice(bytes);
        HeaderStart { bytes: start }
    }

    /// The header that begins so and goes on with these 32 bytes, or why its share is given up.
    pub(crate) fn complete(&self, rest: &[u8]) -> Result<ShareHeader, OpeningError>
        requires rest { length rest.now ≡ 32 }
        ensures read { IfOk result (λ header. text_of header ≡ self.now.bytes ++ rest.now) }
        ensures refused { (error : OpeningError)
            → (result ≡ Err error) ↔ IsHeaderRefusal (self.now.bytes ++ rest.now) error }
    {
        let header = joined(&self.bytes, rest);
        ShareHeader::read(&header)
    }
}

// Whether an extension block of any length, at its offset, ends before 2^64.
fn is_reachable(offsets: &Offsets) -> bool
    ensures { IsTrue result ↔ IsReachable offsets.now }
{
    offsets.extension_block <= u64::MAX - (offsets.layout.width() + MAX_LENGTH) as u64
}

/// Whether the header of each share of a file with this geometry begins with these bytes.
pub(crate) fn begins_header(start: &[u8; 36], geometry: &Geometry) -> bool
    ensures { IsTrue result ↔ (take 36 (header geometry.now) ≡ start.now) }
{
    let mut header = [0; 68];
    geometry.header(&mut header);
    header.starts_with(start)
}

// The 36 bytes, and then the others.
fn joined(start: &[u8; 36], rest: &[u8]) -> [u8; 68]
    requires { length rest.now ≡ 32 }
    ensures { result ≡ start.now ++ rest.now }
{
    let mut whole = [0; 68];
    whole[..36].copy_from_slice(start);
    whole[36..].copy_from_slice(rest);
    whole
}
