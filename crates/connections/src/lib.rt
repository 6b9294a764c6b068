//! Connections whose calls never wait: greetings and frames that come over them, and those that go.
//!
//! Each end sends its greeting first, and frames behind it. Nothing is given out of what comes but
//! messages, each once its frame is whole, and none before the greeting of the other end is whole
//! and fits. A greeting has one length and is never parsed: two are compared. A fault ends a
//! connection for good.
#![tactic(auto)]

mod address;
mod connection;
mod ends;
mod fault;
mod greeting_laws;
mod greeting_text;
mod laws;
mod room;
mod socket;

pub use address::{Address, AddressError};
pub use connection::{Connection, Heard, MAX_HELD, MAX_WAITING, Sent, Side};
pub use ends::{Arrival, Nonblocking, Wire};
pub use fault::ConnectionFault;
pub use greeting_laws::{any_server_fits_no_mark, own_greeting_fits, wanted_mark_fits_alone};
pub use greeting_text::{GREETING_SIZE, Greeting, fits, greeting};
pub use laws::{all_that_came_is_given, all_that_is_queued_goes, what_is_queued_is_given};
pub use room::{ROOM_SIZE, Room};
pub use socket::{Listener, Socket};
