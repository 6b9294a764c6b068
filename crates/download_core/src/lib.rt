//! Downloads: what one asks of servers, what it takes of the answers, and how it ends.
//!
//! A download asks every server what it holds, and opens a few shares at once until it finds an
//! extension block that has the cap's hash. Then it reads of as many shares as are needed what its
//! range needs: a `FileReading` has the shares that are read, what each is asked for, and what is
//! taken of their answers. The download hands out the bytes of a segment once its hash leads to the
//! extension block's root.
#![tactic(auto)]

mod asking;
mod download;
mod ending;
mod file_reading;
mod laws;
mod pressing;
mod state;
pub mod status;
mod steps;
mod taking;

pub use download::{
    Download, evidence_is_of_the_given, given_are_shown, inconsistent_shows_no_code_word,
    right_blocks_lead, taken_follow, whole_files,
};
pub use file_reading::{FileReading, Settled};
pub use laws::{blocks_are_answered, sending_stays};
