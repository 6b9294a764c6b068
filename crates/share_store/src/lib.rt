//! Where a server keeps its shares: what a store is, and one in memory.
#![tactic(auto)]

pub mod error;
pub mod memory;
pub mod shelf;
pub mod store;
pub mod table;
