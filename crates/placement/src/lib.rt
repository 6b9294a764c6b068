//! The placement of shares on servers, after the Tahoe-LAFS specification `servers-of-happiness`:
//! the order of the servers for a storage index, the happiness of (server, share) pairs with a
//! certificate that it is right, and the plan of an upload.
//!
//! Servers and shares go by number. A pair `(server, share)` says that the server holds the share.
#![tactic(auto)]

mod matching;
mod pairs;
mod plan;
mod ranking;
mod search;

pub use matching::{Matching, check, happiness};
pub use plan::{Plan, place};
pub use ranking::{ServerId, order};
