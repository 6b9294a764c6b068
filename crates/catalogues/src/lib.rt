//! Catalogues: which file has which cap.
//!
//! A catalogue is a text of lines. The first tells when it was begun, and with which numbers and
//! secret; each other one has the cap of a file and its name, as `sha256sum` writes a sum and a
//! name. A name is some bytes, none of them a NUL; where it has a backslash, a line feed or a
//! carriage return, these are escaped, and the line begins with a backslash. Each catalogue has one
//! text, and a text is read exactly where it is that of one.
#![tactic(auto)]

mod below;
mod error;
mod head;
mod kept;
mod known;
mod laws;
mod lines;
mod name;
mod patterns;
mod pieces;
mod reading;

pub use below::{MAX_PART, Parts, name_below, parts_below};
pub use error::CatalogueError;
pub use head::{Head, MAX_SEGMENT_SIZE, MAX_SHARES, Moment, Numbers};
pub use kept::{FileState, is_kept};
pub use known::Known;
pub use laws::{catalogues_are_one, lines_are_one, lines_are_read};
pub use lines::{Line, line_of, named_line};
pub use name::{Name, is_name};
pub use patterns::chooses;
pub use pieces::number_behind;
pub use reading::{Catalogue, entry_count};
