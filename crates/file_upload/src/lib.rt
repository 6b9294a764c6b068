//! The upload of a file: of whole shares from memory, and of a file that is not held, whose shares
//! are made again, piece by piece, from what is kept of it and from its source.
#![tactic(auto)]

pub mod laws;
pub mod prepared;
pub mod remade;
pub mod repair;
mod shares;
pub mod streamed;
pub mod streamed_prepared;
