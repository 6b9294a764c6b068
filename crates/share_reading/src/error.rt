//! Why a share that was begun to be read is given up.

ghost use Rattle.std.specs.Prelude.{◌≡◌};
ghost use Rattle.share_reading.specs.Refusal.{check_of, refusal_number};

use share_layout::LayoutError;
use share_verify::{Check, ShareFault};

/// Why a share is given up at its beginning. Each call tells the first fault, in this order.
#[derive(Clone, Copy, Debug, PartialEq, Eq)]
pub enum OpeningError {
    /// A read brought another number of bytes than it asked for.
    OtherLength,
    /// The header tells no offsets: `BadVersion` or `BadOffset`.
    Header(LayoutError),
    /// The header tells so high an offset that an extension block there might end past 2^64.
    TooFar,
    /// The extension block's length is over `ueb::MAX_LENGTH`.
    TooLong,
    /// The extension block's length is 0.
    NoBlock,
    /// The bytes are not the extension block of the cap's file: `OtherUeb` or `Ueb`.
    Ueb(ShareFault),
    /// The header is not the one that the extension block asks for.
    OtherHeader,
}

impl OpeningError {
    /// The number of the refusal, which is its check's.
    pub fn number(self) -> u8
        ensures { result ≡ refusal_number self }
    {
        self.check().number()
    }

    /// The check that the share fails: of the extension block, where that is empty or another, and
    /// else of the layout.
    pub fn check(&self) -> Check
        ensures { result ≡ check_of self.now }
    {
        match self {
            OpeningError::NoBlock | OpeningError::Ueb(_) => Check::Ueb,
            OpeningError::OtherLength
            | OpeningError::Header(_)
            | OpeningError::TooFar
            | OpeningError::TooLong
            | OpeningError::OtherHeader => Check::Layout,
        }
    }
}
