//! The extension block of a share, behind its header.

ghost use Rattle.std.specs.Prelude.{◌≡◌, ◌≤◌, ◌<◌, ◌+◌, ◌^◌, ◌↔◌, IfOk, Err, length};
ghost use Rattle.ueb.specs.Limits.{max_length};

use crate::error::OpeningError;
use crate::header::ShareHeader;
use crate::opening::Progress;
use cap_text::VerifyCap;
use share_layout::{Geometry, Offsets, has_header};
use share_verify::{geometry_of, read_ueb};
use ueb::Ueb;

/// A header that was read whole, and the length of the extension block of its share.
#[derive(Clone, Copy, PartialEq, Eq)]
pub struct PendingBlock {
    /// The header.
    pub header: ShareHeader,
    /// The extension block's length: 1 to `ueb::MAX_LENGTH` bytes.
    pub block_length: u32,
    pub ghost some: { 0 < block_length },
    pub ghost short: { block_length ≤ max_length },
}

/// What the beginning of a share says, once all of it is tested.
#[derive(Clone, Copy, PartialEq, Eq)]
pub struct Opened {
    /// What the extension block says.
    pub ueb: Ueb,
    /// The geometry by the extension block.
    pub geometry: Geometry,
    /// The offsets of the share's sections, which are those of all shares of the file.
    pub offsets: Offsets,
}

impl PendingBlock {
    ghost use Rattle.share_reading.specs.Opening.{Advances, next_offset, text_of};
    ghost use Rattle.share_reading.specs.Refusal.{IsBlockRefusal};
    ghost use Rattle.share_reading.specs.declared.error.OpeningError.{OpeningError};
    ghost use Rattle.share_reading.specs.declared.opening.Opening.{Opening};
    ghost use Rattle.share_reading.specs.declared.opening.Opening.TheVariants as openings;

    /// The offset of the extension block.
    pub(crate) fn offset(&self) -> u64
        ensures value { result ≡ next_offset (openings.Block self.now) }
        ensures small { result + max_length < 2 ^ 64 }
    {
        let offsets = &self.header.offsets;
        offsets.extension_block + offsets.layout.width() as u64
    }

    /// What comes of the bytes that stand at the extension block's offset.
    pub(crate) fn take(&self, cap: &VerifyCap, bytes: &[u8]) -> Result<Progress, OpeningError>
        requires long { length bytes.now ≡ self.now.block_length }
        ensures taken { IfOk result (Advances cap.now (openings.Block self.now) bytes.now) }
        ensures refused { (error : OpeningError) → (result ≡ Err error)
            ↔ IsBlockRefusal cap.now (text_of self.now.header) bytes.now error }
    {
        let ueb = match read_ueb(cap, bytes) {
            Ok(ueb) => ueb,
            Err(fault) => return Err(OpeningError::Ueb(fault)),
        };
        let geometry = geometry_of(&ueb);
        if !has_header(self.header.text(), &geometry) {
            return Err(OpeningError::OtherHeader);
        }
        Ok(Progress::Done(Opened {
            ueb,
            geometry,
            offsets: Offsets::of(&geometry),
        }))
    }
}
