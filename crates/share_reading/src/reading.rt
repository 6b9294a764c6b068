//! How far a share is read, piece by piece.

ghost use Rattle.std.specs.Prelude.{◌≡◌, ◌≤◌, ◌<◌, ◌↔◌, IfOk, Err};
ghost use Rattle.wire.specs.Limits.{most_data};
ghost use Rattle.share_verify.specs.declared.check.Check.{Check};
ghost use Rattle.share_reading.specs.Reading.{Advances, IsStop};
ghost use Rattle.share_reading.specs.Reading.{is_behind, next_length, next_offset};

use crate::block::Opened;
use crate::opening::{Opening, Progress as OpeningProgress};
use crate::rest::Rest;
use cap_text::VerifyCap;
use share_verify::Check;

/// How far a share is read.
#[derive(Clone, Copy, PartialEq, Eq)]
pub enum ShareReading {
    /// Its beginning is read.
    Beginning(Opening),
    /// Its beginning was read and tested, and the bytes before its extension block are read.
    Remaining(Rest),
}

/// What comes of the bytes that a read brought.
#[derive(Clone, Copy, PartialEq, Eq)]
pub enum Progress {
    /// More is to be read.
    Next(ShareReading),
    /// All bytes of the share are read.
    Whole,
}

impl ShareReading {
    /// The reading of a share of which nothing was read.
    pub fn start() -> ShareReading
        ensures { result ≡ ShareReading.Beginning Opening.Start }
    {
        ShareReading::Beginning(Opening::start())
    }

    /// The offset of the first byte to read next.
    pub fn next_offset(&self) -> u64
        ensures { result ≡ next_offset self.now }
    {
        match self {
            ShareReading::Beginning(opening) => opening.next_offset(),
            ShareReading::Remaining(rest) => rest.next,
        }
    }

    /// How many bytes to read next: 1 to 32,768.
    pub fn next_length(&self) -> u32
        ensures value { result ≡ next_length self.now }
        ensures range { (0 < result) × (result ≤ most_data) }
    {
        match self {
            ShareReading::Beginning(opening) => opening.next_length(),
            ShareReading::Remaining(rest) => rest.next_length(),
        }
    }

    /// Whether the bytes to read next stand behind those of the rest: the extension block and its
    /// length are read before the bytes that stand before them.
    pub fn is_behind(&self) -> bool
        ensures { result ≡ is_behind self.now }
    {
        matches!(
            self,
            ShareReading::Beginning(Opening::Header(_)) | ShareReading::Beginning(Opening::Block(_))
        )
    }

    /// What comes of the bytes that the read of `next_length` bytes from `next_place` on brought,
    /// or the check that the share fails: that of the first fault of its beginning, and `Layout`
    /// where they are not as many.
    pub fn take(&self, cap: &VerifyCap, bytes: &[u8]) -> Result<Progress, Check>
        ensures taken { IfOk result (Advances cap.now self.now bytes.now) }
        ensures refused { (check : Check) → (result ≡ Err check)
            ↔ IsStop cap.now self.now bytes.now check }
    {
        match self {
            ShareReading::Beginning(opening) => match opening.take(cap, bytes) {
                Ok(OpeningProgress::Next(next)) => Ok(Progress::Next(ShareReading::Beginning(
                    next,
                ))),
                Ok(OpeningProgress::Done(opened)) => Ok(Rest::begin(&opened)),
                Err(error) => Err(error.check()),
            },
            ShareReading::Remaining(rest) => rest.take(bytes),
        }
    }
}
