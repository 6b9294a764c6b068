//! Which row it is that words make.

use crate::acts::{
    compare, copy, count, keep, link, list, make_counted, make_folders, make_readonly, make_zeros,
    remove_each, rename, write_lines, write_text,
};
use crate::changes::{append, cut, flip, splice};
use crate::commands::{play_both, play_command};
use crate::names::no_such_row;
use crate::scripts::{play_script, play_scripts};
use crate::trees::{alike, save};
use grid_commands::Locks;
use std::io;
use std::net::Net;
use std::random::RandomSource;
use std::rt::Runtime;

// What a row does.
#[derive(Clone, Copy)]
enum Verb {
    Grid,
    Both,
    Script,
    Scripts,
    Counted,
    Zeros,
    Write,
    Lines,
    Append,
    Flip,
    Cut,
    Splice,
    Folder,
    Readonly,
    Remove,
    Keep,
    Rename,
    Copy,
    Link,
    List,
    Count,
    Compare,
    Save,
    Alike,
}

// The word that begins each row.
const VERBS: [(&str, Verb); 24] = [
    ("grid", Verb::Grid),
    ("both", Verb::Both),
    ("script", Verb::Script),
    ("scripts", Verb::Scripts),
    ("counted", Verb::Counted),
    ("zeros", Verb::Zeros),
    ("write", Verb::Write),
    ("lines", Verb::Lines),
    ("append", Verb::Append),
    ("flip", Verb::Flip),
    ("cut", Verb::Cut),
    ("splice", Verb::Splice),
    ("folder", Verb::Folder),
    ("readonly", Verb::Readonly),
    ("remove", Verb::Remove),
    ("keep", Verb::Keep),
    ("rename", Verb::Rename),
    ("copy", Verb::Copy),
    ("link", Verb::Link),
    ("list", Verb::List),
    ("count", Verb::Count),
    ("compare", Verb::Compare),
    ("save", Verb::Save),
    ("alike", Verb::Alike),
];

// What a row does that begins with this word.
fn verb_of(word: &str) -> Option<Verb> {
    for &(name, verb) in &VERBS {
        if name == word {
            return Some(verb);
        }
    }
    None
}

/// Plays the row of these words: what it tells goes to `told`.
pub(crate) fn play<R: Runtime + RandomSource + AllocGlobal + Net + Locks>(
    rt: &R,
    words: &[&str],
    told: &mut String,
) -> io::Result<()> {
    let Some((name, rest)) = words.split_first() else {
        return Err(no_such_row());
    };
    match verb_of(name) {
        None => Err(no_such_row()),
        Some(Verb::Grid) => play_command(rt, words, told),
        Some(Verb::Both) => play_both(rt, rest, told),
        Some(Verb::Script) => play_script(rt, rest, told),
        Some(Verb::Scripts) => play_scripts(rt, rest, told),
        Some(Verb::List) => list(rt, rest, told),
        Some(Verb::Count) => count(rt, rest, told),
        Some(Verb::Compare) => compare(rt, rest, told),
        Some(Verb::Alike) => alike(rt, rest, told),
        Some(verb) => act(rt, verb, rest),
    }
}

// Does what a row asks for that tells nothing.
fn act<R: Runtime + AllocGlobal>(rt: &R, verb: Verb, words: &[&str]) -> io::Result<()> {
    match verb {
        Verb::Counted => make_counted(rt, words),
        Verb::Zeros => make_zeros(rt, words),
        Verb::Write => write_text(rt, words),
        Verb::Lines => write_lines(rt, words),
        Verb::Append => append(rt, words),
        Verb::Flip => flip(rt, words),
        Verb::Cut => cut(rt, words),
        Verb::Splice => splice(rt, words),
        Verb::Folder => make_folders(rt, words),
        Verb::Readonly => make_readonly(rt, words),
        Verb::Remove => remove_each(rt, words),
        Verb::Keep => keep(rt, words),
        Verb::Rename => rename(rt, words),
        Verb::Copy => copy(rt, words),
        Verb::Link => link(rt, words),
        Verb::Save => save(rt, words),
        Verb::Grid | Verb::Both | Verb::Script | Verb::Scripts => Ok(()),
        Verb::List | Verb::Count | Verb::Compare | Verb::Alike => Ok(()),
    }
}
