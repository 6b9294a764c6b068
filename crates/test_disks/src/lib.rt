//! A folder in memory, and what a crash may leave of it.
#![tactic(auto)]

mod held;

pub use held::Held;
