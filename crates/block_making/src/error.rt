//! Why a piece of a share is not had.

ghost use Rattle.std.specs.Prelude.{◌≡◌};
ghost use Rattle.block_making.specs.PieceError.{piece_error_of, piece_number};

use sources::PartFault;

/// Why a piece of a share could not be had.
#[derive(Clone, Copy, Debug, PartialEq, Eq)]
pub enum PieceError {
    /// The source has not the bytes any more that its shares are made of.
    SourceChanged,
    /// A read of the source failed.
    SourceFault,
}

impl PieceError {
    /// The number of the refusal.
    pub fn number(self) -> u8
        ensures { result ≡ piece_number self }
    {
        match self {
            PieceError::SourceChanged => 74,
            PieceError::SourceFault => 75,
        }
    }
}

impl From<PartFault> for PieceError {
    ghost from_gives = { λ fault e. e ≡ piece_error_of fault };

    fn from(fault: PartFault) -> PieceError {
        match fault {
            PartFault::Ended => PieceError::SourceChanged,
            PartFault::Unreadable => PieceError::SourceFault,
        }
    }
}
