//! The shares of files, stored on the servers of a grid: a `put` makes them and places them, and a
//! `repair`, which makes them otherwise, places them by the same calls.
//!
//! Placing shares is an upload, which `carried_operations` carries to its end. What is told of it
//! is told by what the servers answered. By which numbers files are put the words say, or the ways
//! of the grid, or else these are the usual ones.
#![tactic(auto)]

mod kept_ways;
mod mending;
mod numbers;
mod one_process;
mod placing;
mod putting;
mod standing;

pub use kept_ways::{grid_ways, keep_ways, refuse_other_ways, ways_path, words_by_ways};
pub use numbers::{
    Choices, USUAL_MAX_SEGMENT, meant_params, read_choices, read_numbers, said_secret,
};
pub use one_process::steps_of_one_process;
pub use placing::{Placing, Stored, durability_of, place_shares};
pub use putting::{PutFile, may_put, put, put_file, secret_of};
pub use standing::OpenGrid;

// The exit status of what is done.
const DONE: u8 = 0;

/// What a command takes from outside its words.
#[derive(Clone, Copy)]
pub struct Environment<'a> {
    /// Whether a grid has to be one that `init` marked, as with `--known`.
    pub known: bool,
    /// The folder in which a pipe is kept that a `put` cannot hold.
    pub temporary: &'a str,
    /// The folder of the grid that is meant where no word names one.
    pub grid: Option<&'a str>,
    /// The path of a file that holds the secret of a `put` whose words say none.
    pub secret_file: Option<&'a str>,
}

/// What a command prints, and its exit status.
#[derive(Drop)]
pub struct Outcome {
    pub text: Vec<u8>,
    pub status: u8,
}
