//! Commands that look at many files: a `check` and a `repair` of a catalogue tell how each of its
//! files was found, and how many there are. A `verify` compares files with their caps.
#![tactic(auto)]

mod comparing;
mod looking;
mod making;
mod objects;
mod seen;
mod told;
mod verdicts;
mod verifying;

pub use looking::{check_files, repair_files};
pub use making::may_verify;
pub use verifying::{verify, verify_files};
