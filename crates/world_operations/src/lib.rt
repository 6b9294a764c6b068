//! Operations of a world's nodes: uploads, downloads, checks and repairs as one type, each with
//! what it was started for and what it handed out.
//!
//! Each call of an operation is one call of its machine. After it the pieces that a download made
//! are handed out, and all that the machine has to send is sent. A repair is the upload of shares
//! that are made anew of those that a check found good.
#![tactic(auto)]

mod carrying;
pub mod job;
pub mod message;
pub mod operation;
pub mod pieces;
mod repair;
pub mod status;
pub mod task;
pub mod upload_pieces;

pub use carrying::carry_task;
