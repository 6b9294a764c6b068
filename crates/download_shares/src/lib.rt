//! The shares that servers hold of a file, as a download finds them: which there are, and what
//! their beginnings say.
//!
//! `Holdings` is which servers told that they hold which shares, what an operation asked of each of
//! these, and which of them are left to read.
//!
//! `Beginnings` is `Holdings` with the headers and extension blocks of these shares, read until one
//! extension block of the cap's file is found. Before that, the beginning of a share is read by an
//! `Opening`, one read after another. Then each header that was read, or is still out, is compared
//! with the one that the extension block asks for, and what is read of shares is another's task.
#![tactic(auto)]

pub mod answers;
pub mod beginnings;
pub mod begun;
pub mod holding;
pub mod holdings;
mod loads;
mod numbers;
mod table;

pub use answers::bytes_at;
pub use beginnings::{Beginnings, News};
pub use begun::Begun;
pub use holdings::Holdings;
