//! The extension block of an immutable file: what a share says of the whole file, beside its own
//! data.
//!
//! An extension block is a text of fields, `key:length:value,` each, in rising order of their keys.
//! Eleven keys are known. Four numbers (shares needed, shares in all, the file's size and the size
//! of a segment) and three hashes determine their values. Other keys may stand between them, and
//! are skipped. The format is that of Tahoe-LAFS ("URI extension block"), where it holds these
//! eleven keys.
//!
//! `Ueb` is such a block's contents. `Ueb::write` gives its text, and `Ueb::read` takes back any
//! text of the grammar, or tells its first fault.
#![tactic(auto)]

mod block;
mod error;
mod fields;
mod key;
mod limits;
mod reading;
mod values;
mod writing;

pub use block::{Expect, Ueb};
pub use error::UebError;
pub use key::Key;
pub use limits::{
    MAX_FILE_SIZE, MAX_LENGTH, MAX_SEGMENT_SIZE, MAX_SEGMENTS, MAX_SHARES, MIN_FILE_SIZE,
    constants_are_the_limits,
};
