//! What tests of downloads share: the shares that a server holds, what it answers, and a file that
//! whoever made its cap made so that its shares are no code word.
#![tactic(auto)]

pub mod held;
pub mod no_code_word;
