//! The bytes of a share between its header and its extension block.

ghost use Rattle.std.specs.Prelude.{◌≡◌, ◌≤◌, ◌<◌, ◌+◌, ◌↔◌, IfOk, Err};
ghost use Rattle.cap_text.specs.Cap.{VerifyCapValue};
ghost use Rattle.share_layout.specs.Layout.{header_size};
ghost use Rattle.share_reading.specs.JudgingSize.{judging_size};
ghost use Rattle.share_verify.specs.CapBlock.{geometry_by};
ghost use Rattle.share_verify.specs.declared.check.Check.{Check};
ghost use Rattle.wire.specs.Limits.{most_data};

use crate::block::Opened;
use crate::reading::{Progress, ShareReading};
use share_layout::Offsets;
use share_verify::{Check, geometry_of};
use ueb::Ueb;
use wire::message::MAX_PIECE;

/// The bytes between the header and the extension block of a share whose beginning is read.
#[derive(Clone, Copy, PartialEq, Eq)]
pub struct Rest {
    /// What the extension block says.
    pub ueb: Ueb,
    /// The offsets of the share's sections.
    pub offsets: Offsets,
    /// The offset of the first byte that is not read.
    pub next: u64,
    pub ghost behind: { header_size offsets.layout ≤ next },
    pub ghost more: { next < offsets.extension_block },
}

impl Rest {
    ghost use Rattle.share_reading.specs.Reading.{Advances, BeginsRest, IsStop, next_length};
    ghost use Rattle.share_reading.specs.declared.reading.ShareReading.TheVariants as readings;

    /// How many bytes a `Judged` may keep of the share: a hash for each block, eight blocks, the
    /// trees and the share hashes, all of it twice, since its lists may have room for as much more.
    pub fn judging_size(&self) -> u64
        ensures { result ≡ judging_size (geometry_by self.now.ueb) }
    {
        let geometry = geometry_of(&self.ueb);
        let hashes = 32 * u64::from(geometry.segment_count());
        let blocks = 8 * u64::from(geometry.block_size());
        let trees = 3 * u64::from(geometry.tree_size()) + u64::from(geometry.hashes_size());
        2 * (hashes + blocks + trees)
    }

    /// What is read next of a share whose beginning is opened.
    pub(crate) fn begin(opened: &Opened) -> Progress
        ensures { BeginsRest opened.now result }
    {
        let offsets = opened.offsets;
        let next = offsets.layout.header_size() as u64;
        if next < offsets.extension_block {
            Progress::Next(ShareReading::Remaining(Rest {
                ueb: opened.ueb,
                offsets,
                next,
            }))
        } else {
            Progress::Whole
        }
    }

    /// How many bytes to read next: 1 to 32,768.
    pub(crate) fn next_length(&self) -> u32
        ensures value { result ≡ next_length (readings.Remaining self.now) }
        ensures range { (0 < result) × (result ≤ most_data) }
        ensures within { self.now.next + result ≤ self.now.offsets.extension_block }
    {
        (self.offsets.extension_block - self.next).min(MAX_PIECE as u64) as u32
    }

    /// What comes of the next bytes, or `Layout` where they are not as many as were asked for.
    pub(crate) fn take(&self, bytes: &[u8]) -> Result<Progress, Check>
        ensures taken { (cap : VerifyCapValue)
            → IfOk result (Advances cap (readings.Remaining self.now) bytes.now) }
        ensures refused { (cap : VerifyCapValue) (check : Check) → (result ≡ Err check)
            ↔ IsStop cap (readings.Remaining self.now) bytes.now check }
    {
        let length = self.next_length();
        if bytes.len() != length as usize {
            return Err(Check::Layout);
        }
        let end = self.offsets.extension_block;
        let next = self.next + u64::from(length);
        if next < end {
            return Ok(Progress::Next(ShareReading::Remaining(Rest {
                ueb: self.ueb,
                offsets: self.offsets,
                next,
            })));
        }
        Ok(Progress::Whole)
    }
}
