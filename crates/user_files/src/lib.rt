//! The files of the user: what is read to be stored, and what is made beside them.
//!
//! What is read is held in memory up to a limit, or kept in a file without a name; what is made
//! appears whole under its name, or not at all.
#![tactic(auto)]

mod files;
mod inputs;
mod locks;
mod names;
mod paths;
mod pieces;
mod publishing;
mod spooling;

pub use files::{at_path, if_there, read_at_most};
pub use inputs::{Input, open_input};
pub use locks::Locks;
pub use paths::{folder_before, last_name};
pub use publishing::{NewFile, OWNER_ONLY, SHARED, publish, replace, sync_folder};
