//! The beginning of a share, read piece by piece.

ghost use Rattle.std.specs.Prelude.{◌≡◌, ◌≤◌, ◌<◌, ◌+◌, ◌++◌, ◌^◌, ◌↔◌, IsTrue, IfOk, Err, List};
ghost use Rattle.std.specs.Prelude.{length};
ghost use Rattle.ueb.specs.Limits.{max_length};
ghost use Rattle.share_layout.specs.Layout.{width};
ghost use Rattle.share_layout.specs.Offsets.{layout_in, number_at};
ghost use Rattle.share_reading.specs.Opening.{Advances, Agrees, Continues, next_length};
ghost use Rattle.share_reading.specs.Opening.{next_offset};
ghost use Rattle.share_reading.specs.Opening.{text_of};
ghost use Rattle.share_reading.specs.OpeningReads.{Brought, IsLedToBy, IsOpening};
ghost use Rattle.share_reading.specs.Refusal.{IsHeaderRefusal, IsLengthRefusal, IsRefused};
ghost use Rattle.share_reading.specs.declared.error.OpeningError.{OpeningError};

use crate::block::{Opened, PendingBlock};
use crate::error::OpeningError;
use crate::header::{HeaderStart, ShareHeader, begins_header};
use cap_text::VerifyCap;
use share_layout::{Geometry, Layout, has_header, number_at};
use ueb::MAX_LENGTH;

/// What was read of the beginning of a share.
#[derive(Clone, Copy, PartialEq, Eq)]
pub enum Opening {
    /// Nothing: the first 36 bytes are read next.
    Start,
    /// The first 36 bytes, which begin with version 2: the next 32 are read next.
    Second(HeaderStart),
    /// The header: the extension block's length is read next.
    Header(ShareHeader),
    /// The header and the extension block's length: the extension block is read next.
    Block(PendingBlock),
}

/// What comes of the bytes that a read brought.
#[derive(Clone, Copy, PartialEq, Eq)]
pub enum Progress {
    /// The opening goes on.
    Next(Opening),
    /// The beginning of the share is read and tested.
    Done(Opened),
}

impl Opening {
    /// The opening of a share of which nothing was read.
    pub fn start() -> Opening
        ensures { result ≡ Opening.Start }
    {
        Opening::Start
    }

    /// The offset of the first byte to read next.
    pub fn next_offset(&self) -> u64
        ensures value { result ≡ next_offset self.now }
        ensures small { result + next_length self.now < 2 ^ 64 }
    {
        match self {
            Opening::Start => 0,
            Opening::Second(_) => 36,
            Opening::Header(header) => header.offsets.extension_block,
            Opening::Block(block) => block.offset(),
        }
    }

    /// How many bytes to read next: 1 to `ueb::MAX_LENGTH`.
    pub fn next_length(&self) -> u32
        ensures value { result ≡ next_length self.now }
        ensures range { (0 < result) × (result ≤ max_length) }
        // A read of so many bytes is one of an opening.
        ensures opening { (reads : List Brought) → IsLedToBy reads self.now
            → IsOpening reads (next_offset self.now) result }
    {
        match self {
            Opening::Start => 36,
            Opening::Second(_) => 32,
            Opening::Header(header) => header.offsets.layout.width() as u32,
            Opening::Block(block) => block.block_length,
        }
    }

    /// What comes of the bytes that the read of `next_length` bytes from `next_place` on brought.
    ///
    /// The extension block is the one of the cap's file, by its hash, and the header the one of all
    /// shares of a file with that extension block. Otherwise the first fault, in the order of
    /// `OpeningError`; no extension block is read behind a length of 0 or over `ueb::MAX_LENGTH`.
    pub fn take(&self, cap: &VerifyCap, bytes: &[u8]) -> Result<Progress, OpeningError>
        ensures taken { IfOk result (Advances cap.now self.now bytes.now) }
        ensures refused { (error : OpeningError)
            → (result ≡ Err error) ↔ IsRefused cap.now self.now bytes.now error }
    {
        if bytes.len() != self.next_length() as usize {
            return Err(OpeningError::OtherLength);
        }
        Ok(Progress::Next(match self {
            Opening::Start => begin(bytes)?,
            Opening::Second(start) => complete(start, bytes)?,
            Opening::Header(header) => take_length(header, bytes)?,
            Opening::Block(block) => return block.take(cap, bytes),
        }))
    }

    /// Whether what was read of the header is as in the shares of a file with this geometry.
    pub fn agrees(&self, geometry: &Geometry) -> bool
        ensures { IsTrue result ↔ Agrees geometry.now self.now }
    {
        match self {
            Opening::Start => true,
            Opening::Second(start) => begins_header(&start.bytes, geometry),
            Opening::Header(header) => has_header(header.text(), geometry),
            Opening::Block(block) => has_header(block.header.text(), geometry),
        }
    }
}

// The opening with the first 36 bytes of a share.
fn begin(bytes: &[u8]) -> Result<Opening, OpeningError>
    requires long { length bytes.now ≡ 36 }
    ensures continues { IfOk result (Continues Opening.Start bytes.now) }
    ensures refused { (error : OpeningError) → (result ≡ Err error)
        ↔ ((layout_in bytes.now ≡ Layout.One) × IsHeaderRefusal bytes.now error) }
{
    match Layout::in_header(bytes) {
        Layout::One => match ShareHeader::read(bytes) {
            Ok(header) => Ok(Opening::Header(header)),
            Err(error) => Err(error),
        },
        Layout::Two => Ok(Opening::Second(HeaderStart::of(bytes))),
    }
}

// The opening with a header that begins so and goes on with these 32 bytes.
fn complete(start: &HeaderStart, bytes: &[u8]) -> Result<Opening, OpeningError>
    requires long { length bytes.now ≡ 32 }
    ensures continues { IfOk result (Continues (Opening.Second start.now) bytes.now) }
    ensures refused { (error : OpeningError)
        → (result ≡ Err error) ↔ IsHeaderRefusal (start.now.bytes ++ bytes.now) error }
{
    match start.complete(bytes) {
        Ok(header) => Ok(Opening::Header(header)),
        Err(error) => Err(error),
    }
}

// The opening with the extension block's length behind this header.
fn take_length(header: &ShareHeader, bytes: &[u8]) -> Result<Opening, OpeningError>
    requires long { length bytes.now ≡ width header.now.offsets.layout }
    ensures continues { IfOk result (Continues (Opening.Header header.now) bytes.now) }
    ensures refused { (error : OpeningError) → (result ≡ Err error)
        ↔ IsLengthRefusal (number_at header.now.offsets.layout bytes.now 0) error }
{
    let told = number_at(header.offsets.layout, bytes, 0);
    if told > MAX_LENGTH as u64 {
        return Err(OpeningError::TooLong);
    }
    if told == 0 {
        return Err(OpeningError::NoBlock);
    }
    Ok(Opening::Block(PendingBlock {
        header: *header,
        block_length: told as u32,
    }))
}
