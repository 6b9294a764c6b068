//! World scripts: which commands a text spells, and what they come to.
//!
//! A script has one command a line, of words parted by one space each. Empty lines and lines that
//! begin with `#` are skipped. The first command names the nodes. A text is read whole before
//! anything is run.
//!
//! A script that runs makes a world, and its commands make events one after the other, each from
//! what the world is by then. At the end there is a line for each operation, one that says whether
//! all bytes agree, and one that counts the events.
#![tactic(auto)]

mod agreement;
mod command;
mod delivered;
mod ending;
mod error;
mod events;
mod fields;
mod liars;
mod line;
mod lines;
mod nodes;
mod operation_lines;
mod plan;
mod running;
mod verb;

pub use command::{Command, Kind, Script};
pub use ending::Ending;
pub use error::ScriptError;
pub use liars::ScriptLiar;
pub use lines::parse;
pub use running::run_script;
pub use world::event::WorldError;
