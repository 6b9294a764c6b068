//! How a share is read, from its first byte to the verdict on it.
//!
//! An `Opening` is what was read of the beginning of one share so far: its header, the length of
//! its extension block, and the extension block, each tested before anything more is read. It names
//! the bytes to read next, takes them, and ends with what the extension block of the cap's file
//! says, or with the first fault.
//!
//! A `Reading` is how far one share is read whole: its beginning, as an `Opening` has it, and then
//! the bytes between its header and its extension block, in pieces of at most 32,768 bytes. So each
//! byte of the share is read once, and none behind its end. It knows nothing of servers or
//! messages, and keeps no bytes of the share but those of its header: whoever reads the share asks
//! for the bytes.
//!
//! A `Judged` takes them as they come, and has the verdict once all are there. So nobody needs to
//! keep a share: it keeps a hash for each block, and the trees.
#![tactic(auto)]

mod block;
mod error;
mod header;
mod judged;
mod laws;
pub mod opening;
mod opening_laws;
mod reading;
mod rest;
mod verdict;

pub use block::{Opened, PendingBlock};
pub use error::OpeningError;
pub use header::{HeaderStart, ShareHeader};
pub use judged::{Found, Judged};
pub use laws::{
    readings_ask, readings_end, readings_go_on, readings_stop, verdicts_are_exclusive,
    whole_shares_are_one,
};
pub use opening::Opening;
pub use opening_laws::{reads_lead_on, reads_rise, refused_shares_fail};
pub use reading::{Progress, ShareReading};
pub use rest::Rest;
pub use verdict::Verdict;
