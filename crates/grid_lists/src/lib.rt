//! Commands over many files: a `put` of several stores one after the other, and writes a catalogue
//! of those that are stored, in which lines of an earlier one may be kept; a `get` of a catalogue
//! writes its files below a folder.
#![tactic(auto)]

mod beginning;
mod below;
mod getting;
mod listed;
mod names;
mod putting;
mod since;
mod statuses;

pub use below::{path_in, text_of};
pub use getting::{begin_entries, find_grid, get_files};
pub use listed::{
    may_be_listed, path_of, tell_misnamed, tell_named, tell_refused, tell_unfound, tell_unread,
};
pub use names::read_text;
pub use putting::put;
pub use statuses::{DONE, UNREAD};
