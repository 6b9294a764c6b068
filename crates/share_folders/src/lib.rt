//! A store over the files of a folder.
#![tactic(auto)]

pub mod disk;
pub mod files;
pub mod folder;
pub mod kept;
mod lengths;
pub mod listing;
pub mod names;
mod opened;
pub mod table;
