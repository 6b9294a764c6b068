//! The command line of `grid`: which words there are, what they ask for, and the help that tells
//! them. Each command stands in `commands`, its arguments in `arguments`, and `words` reads them.
#![tactic(auto)]

mod arguments;
mod catalogue_arguments;
mod catalogue_words;
mod commands;
mod verify_arguments;
mod verify_words;
mod words;

pub use catalogue_words::{CheckFilesWords, ChosenWords, GetFilesWords, RepairFilesWords};
pub use commands::VERSION;
pub use verify_words::{VerifyFilesWords, VerifyWords};
pub use words::{
    CheckWords, GetWords, InitWords, ListWords, Marking, NumberWords, PutWords, RepairWords,
    Request, STANDARD_INPUT, ScrubWords, SecretWords, ServeWords, StatusWords, read_words,
};
