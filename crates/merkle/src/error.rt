//! Why nodes that are offered are not taken.

ghost use Rattle.std.specs.Prelude.{◌≡◌};
ghost use Rattle.merkle.specs.OfferError.{offer_refusal_number};

use std::alloc::{AllocError, AllocFailed};
use std::error::Error;
use std::fmt;

/// Why nodes that were offered are not taken.
#[derive(Clone, Copy, Debug, PartialEq, Eq)]
pub enum OfferError {
    /// An allocation was refused.
    OutOfMemory,
    /// The nodes do not go with the root and what is known.
    NotConsistent,
}

impl OfferError {
    /// The number of the refusal.
    pub fn number(self) -> u8
        ensures { result ≡ offer_refusal_number self }
    {
        match self {
            OfferError::OutOfMemory => 1,
            OfferError::NotConsistent => 6,
        }
    }
}

impl fmt::Display for OfferError {
    ghost use Rattle.std.specs.Prelude.{Some};
    ghost use Rattle.merkle.specs.OfferError.{offer_refusal_text};

    ghost output = { λ error. Some (offer_refusal_text error) };

    fn fmt<W: fmt::Write>(&self, f: &mut fmt::Formatter<W>) -> fmt::Result {
        f.write_str(match self {
            OfferError::OutOfMemory => "OutOfMemory",
            OfferError::NotConsistent => "NotConsistent",
        })
    }
}

impl Error for OfferError {}

impl From<AllocError> for OfferError {
    ghost use Rattle.merkle.specs.declared.error.OfferError.TheVariants.{OutOfMemory};

    ghost from_gives = { λ _ e. e ≡ OutOfMemory };

    fn from(_error: AllocError) -> OfferError {
        OfferError::OutOfMemory
    }
}

impl<T: Drop> From<AllocFailed<T>> for OfferError {
    ghost use Rattle.merkle.specs.declared.error.OfferError.TheVariants.{OutOfMemory};

    ghost from_gives = { λ _ e. e ≡ OutOfMemory };

    fn from(_error: AllocFailed<T>) -> OfferError {
        OfferError::OutOfMemory
    }
}
