//! The caps of Tahoe-LAFS immutable files, and their base32.
//!
//! A cap names a file. A read cap has the key that decrypts it, a verify cap has the storage index
//! in the key's place, and a literal cap is the file itself. A cap keeps the ranges of its fields
//! by its type. Each cap has one text, and no other text is read as that cap.
#![tactic(auto)]

mod base32;
mod bit_queue;
mod cap;
mod error;
mod fields;
mod text;

pub use base32::{from_base32, to_base32};
pub use cap::{
    Cap, LitCap, MAX_LIT_LETTERS, MAX_LIT_SIZE, MAX_SHARES, MAX_SIZE, MIN_SIZE, ReadCap, VerifyCap,
};
pub use error::CapError;
