//! The file of a download whose extension block is accepted: the shares that are read, the segments
//! that are made of their blocks, and what proves each of these. It knows nothing of servers. Of
//! requests it knows their positions in the record, where it reads the blocks.
//!
//! `PartialFile` asks each reader for parts of its share, takes their answers one after another,
//! and makes the next segment where as many blocks of it as are needed were taken.
#![tactic(auto)]

mod asides;
mod blocks;
mod evidence;
mod file;
mod group;
mod laws;
mod making;
mod reader;
mod row;
mod taking;
mod window;

pub use file::{Made, PartialFile};
pub use laws::{
    first_parts_are_proved, given_are_hashed, given_stays, hashed_stays,
    inconsistent_is_no_code_word, reads_stay, segments_are_made_once, tested_stays, whole_files,
};
pub use reader::Waiting;
