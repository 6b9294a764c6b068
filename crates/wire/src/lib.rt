//! The messages between clients and servers, and the frames that carry them.
#![tactic(auto)]

pub mod decoding;
mod encoding;
pub mod error;
pub mod feed;
mod fields;
pub mod kind;
pub mod laws;
pub mod message;
