//! The commands that look at the shares of a file which are stored: `check` reads them, and
//! `repair` makes the missing ones again.
//!
//! A `check` is a check, and a `repair` a check and an upload, which `carried_operations` carries
//! to their ends. What is told of them is told by what the servers answered.
#![tactic(auto)]

mod carrying;
mod checking;
mod choosing;
mod made_shares;
mod remaking;
mod repairing;
mod standing;

pub use checking::{check, check_file};
pub use repairing::{Repairing, may_repair, repair, repair_file};
pub use standing::{OpenGrid, Place};

// The exit status of what is done.
const DONE: u8 = 0;
