//! Why a command of `grid` ended without its result, and what a grid's folders and servers are
//! named.
//!
//! Each fault has a number, an exit status, a text, and some a line that tells why; a path is told
//! in one line; a grid's folders have names, by which its servers are ordered; and each number of a
//! command has its range.
#![tactic(auto)]

mod fault;
mod limits;
mod paths;
mod reason;
mod servers;

pub use fault::{Fault, is_memory};
pub use limits::Limit;
pub use paths::told_path;
pub use reason::reason_line;
pub use servers::{first_servers, made_line, server_name, servers_of};
