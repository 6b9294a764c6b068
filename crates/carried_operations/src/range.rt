//! Ranges of shares, and the reads that fetch them.

ghost use Rattle.std.specs.Prelude.{◌≡◌, ◌+◌, ◌<◌, ◌^◌};
ghost use Rattle.carried_operations.specs.Ranges.{read_at, read_count};

use request_record::requests::Asked;
use wire::message::{MAX_PIECE, NodeId, ReadLength};

/// A share at a server.
#[derive(Clone, Copy, PartialEq, Eq)]
pub struct SharePlace {
    pub server: NodeId,
    /// The share's number.
    pub share: u8,
}

/// A range of a share at a server, in bytes.
#[derive(Clone, Copy, PartialEq, Eq)]
pub struct ShareRange {
    pub place: SharePlace,
    pub offset: u64,
    pub length: u64,
}

impl ShareRange {
    /// How many reads fetch it.
    pub(crate) fn read_count(&self) -> u64
        ensures { result ≡ read_count self.now.length }
    {
        self.length.div_ceil(MAX_PIECE as u64)
    }

    /// The read of this number.
    pub(crate) fn read_at(&self, number: u64) -> Asked
        requires fits { self.now.offset + self.now.length < 2 ^ 64 }
        requires there { number < read_count self.now.length }
        ensures { result ≡ read_at self.now number }
    {
        let start = number * MAX_PIECE as u64;
        let length = (self.length - start).min(MAX_PIECE as u64) as u32;
        let length = ReadLength::new(length).unwrap();
        Asked::Reading(self.place.share, self.offset + start, length)
    }
}
