//! What a store keeps in a folder, and what servers over it keep, whatever happens to them.
#![tactic(auto)]

pub mod laws;
pub mod opening;
pub mod serving_laws;
pub mod store;
