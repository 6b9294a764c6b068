//! What a `get` does: a range of a file is got span by span, and written to a writer or a file.
#![tactic(auto)]

mod beside;
mod output;
mod range;
mod sending;
mod spans;
mod standing;
mod suspects;
mod target;
mod tried;
mod watching;

pub use output::{DiskFiles, NamedFiles};
pub use range::{get, get_file};
pub use standing::{OpenGrid, Place};
