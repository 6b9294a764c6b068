//! One server of a grid for any number of clients, in one thread: each connection is a client with
//! a node of its own, and has its turn only when there may be something to do.
//!
//! A client is answered in the order of its messages. While so many bytes wait for it that its
//! connection is full, no further message of it is heard. With a client its buckets end.
#![tactic(auto)]

mod client;
mod clients;
mod desk;
mod laws;
mod limits;
mod serving;

pub use client::{Client, TurnFault};
pub use clients::{Clients, Gone, Why};
pub use desk::Desk;
pub use laws::buckets_are_of_clients;
pub use limits::{GREETING_LIMIT, MOST_CLIENTS, STEPS, STILL_LIMIT, WAITING_LIMIT};
pub use serving::{News, Serving};
