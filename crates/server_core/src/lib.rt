//! The server: one answer to each request, by the first line of its table that fits.
#![tactic(auto)]

mod bucket;
mod buckets;
pub mod error;
pub mod keeping;
pub mod laws;
pub mod server;
