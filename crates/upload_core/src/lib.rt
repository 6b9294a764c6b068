//! Uploads: what one asks of servers, what they acknowledge, and how it ends.
//!
//! An upload asks every server what it holds, places the shares, carries each transfer to its end,
//! and says Happy only by what servers acknowledged by digest. It does not care where the bytes of
//! its shares come from: `trait Pieces` gives them as they are sent. Each upload begins as a
//! `ReadyUpload`.
#![tactic(auto)]

mod acknowledged;
mod ending;
pub mod pieces;
mod ready;
mod rounds;
mod state;
pub mod status;
mod steps;
mod trails;
mod transfers;
mod upload;
mod windows;

pub use ready::ReadyUpload;
pub use upload::Upload;
