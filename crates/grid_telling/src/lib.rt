//! What a command of `grid` tells on standard error while it runs: how far it is, where that is a
//! terminal, and which servers serve badly, where the user asks for it; and how it ends where it
//! has no result.
#![tactic(auto)]

mod notes;
mod outcome;
mod progress;
mod progress_lines;

pub use notes::{note_blame, note_limits, note_servers};
pub use outcome::{Failure, print};
pub use progress::{Counting, Progress};
pub use progress_lines::Verb;
