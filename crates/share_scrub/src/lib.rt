//! The server's half of a check, which needs no cap: the closed shares of a folder are read, and
//! each is compared with the digest in its name. And what stands in the way of shares that are put.
#![tactic(auto)]

mod ahead;
mod folder;
mod mending;

pub use ahead::read_ahead;
pub use folder::{Action, Finding, Handling, Scrub, State};
pub use mending::{Cleared, LeftShare, Outcome, clear_way};
