//! Which row it is that a line makes.

use crate::blocks::Block;
use crate::bytes::{first_word, no_such_row};
use crate::caps::{read_base32, read_cap, tell_limits, tell_literal, write_base32};
use crate::frames::read_frame;
use std::alloc::Global;
use std::io;

// What a row does.
#[derive(Clone, Copy)]
enum Verb {
    Base32,
    Bytes,
    Cap,
    Literal,
    Limits,
    Block,
    Change,
    As,
    Frame,
}

// The word that begins each row.
const VERBS: [(&str, Verb); 9] = [
    ("base32", Verb::Base32),
    ("bytes", Verb::Bytes),
    ("cap", Verb::Cap),
    ("literal", Verb::Literal),
    ("limits", Verb::Limits),
    ("block", Verb::Block),
    ("change", Verb::Change),
    ("as", Verb::As),
    ("frame", Verb::Frame),
];

// What a row does that begins with this word.
fn verb_of(word: &str) -> Option<Verb> {
    for &(name, verb) in &VERBS {
        if name == word {
            return Some(verb);
        }
    }
    None
}

/// Plays the row of a line: what it tells goes to `told`.
pub(crate) fn play(
    alloc: Global,
    block: &mut Block,
    line: &str,
    told: &mut String,
) -> io::Result<()> {
    let (word, rest) = first_word(line);
    let Some(verb) = verb_of(word) else {
        return Err(no_such_row());
    };
    match verb {
        Verb::Base32 => write_base32(alloc, rest, told),
        Verb::Bytes => read_base32(alloc, rest, told),
        Verb::Cap => read_cap(alloc, rest, told),
        Verb::Literal => tell_literal(alloc, rest, told),
        Verb::Limits => tell_limits(alloc, rest, told),
        Verb::Block => block.read(alloc, rest, told),
        Verb::Change => block.read_changed(alloc, rest, told),
        Verb::As => block.read_as(alloc, rest, told),
        Verb::Frame => read_frame(alloc, rest, told),
    }
}
