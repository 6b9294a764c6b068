//! Where a download stands, and why one does not begin.

ghost use Rattle.std.specs.Prelude.{◌≡◌};
ghost use Rattle.download_core.specs.Refusals.{refusal_number};

pub use download_segments::Piece;
pub use download_shares::holding::Blame;

/// Where a download stands.
#[derive(Clone, Copy, PartialEq, Eq)]
pub enum DownloadStatus {
    Running,
    /// All bytes of the range were made.
    Done,
    /// Nothing is outstanding, and fewer share numbers than are needed are left.
    NotEnoughShares,
    /// Blocks that are each proved decode to a segment that is not the one proved for its position.
    Inconsistent,
    /// A call found no memory.
    Failed,
}

/// Why a download does not begin.
#[derive(Clone, Copy, Debug, PartialEq, Eq)]
pub enum DownloadError {
    /// No memory.
    OutOfMemory,
    /// The range ends before it begins, or behind the file's end.
    BadRange,
}

impl DownloadError {
    /// The number of the refusal.
    pub fn number(self) -> u8
        ensures { result ≡ refusal_number self }
    {
        match self {
            DownloadError::OutOfMemory => 1,
            DownloadError::BadRange => 73,
        }
    }
}
