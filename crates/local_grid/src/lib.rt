//! The loop that carries messages between one operation and servers, and tells it the time: over
//! whatever servers there are, and over those of one process. Which operation it is it does not
//! know.
#![tactic(auto)]

mod carrying;
mod ends;
pub mod error;
pub mod frames;
pub mod grid;
pub mod link;
mod local;
pub mod node;
mod outside;
mod passing;
mod socket_link;
mod sockets;
mod waiting;
pub mod watched;

pub use carrying::carry_on;
pub use ends::{Ends, SocketPair};
pub use local::turns_of_one_process;
pub use outside::{Happening, Outside};
pub use socket_link::{GridLink, SocketLink};
pub use sockets::{connect, listen};
