//! Commands of `grid`, and how they are told.

use crate::acts::likeness;
use crate::folders::path_of;
use crate::names::{no_such_row, number};
use grid_commands::{DiskFiles, Environment, Locks, grid};
use std::alloc::AllocError;
use std::net::Net;
use std::random::RandomSource;
use std::rt::{Clock, Files};
use std::{fs, io};
use test_writers::Told;

// The environment of these commands: no variable is set, and files that do not last stand here.
const HERE: Environment<'static> = Environment {
    known: false,
    temporary: ".",
    grid: None,
    secret_file: None,
};

/// What a command wrote to standard output and to standard error, and its status.
#[derive(Drop)]
pub(crate) struct Ended {
    status: u8,
    out: Vec<u8>,
    err: Told,
}

impl Ended {
    fn equals(&self, other: &Ended) -> bool {
        self.status == other.status
            && self.out.as_slice() == other.out.as_slice()
            && self.err.as_slice() == other.err.as_slice()
    }

    /// Whether what was written to standard output has this text.
    pub(crate) fn wrote(&self, text: &str) -> bool {
        text_of(self.out.as_slice()).is_some_and(|told| told.contains(text))
    }
}

/// Runs a command, and tells what it came to.
pub(crate) fn play_command<R>(rt: &R, words: &[&str], told: &mut String) -> io::Result<()>
where
    R: Files + io::Input + Net + Clock + RandomSource + Locks + AllocGlobal + Clone + Drop,
{
    let (command, wanted) = parted(words);
    tell(rt, &run(rt, command), wanted, told)
}

/// Runs a command in memory, and again over sockets. Tells what it came to, once where that is the
/// same.
pub(crate) fn play_both<R>(rt: &R, words: &[&str], told: &mut String) -> io::Result<()>
where
    R: Files + io::Input + Net + Clock + RandomSource + Locks + AllocGlobal + Clone + Drop,
{
    let (command, wanted) = parted(words);
    let mut with_net = command.to_vec(rt.alloc())?;
    with_net.push("--net")?;
    let (first, second) = (run(rt, command), run(rt, with_net.as_slice()));
    tell(rt, &first, wanted, told)?;
    if first.equals(&second) {
        return Ok(());
    }
    told.push_str("! and with --net:\n")?;
    tell(rt, &second, wanted, told)
}

// The words before the first `|`, and those behind it.
fn parted<'a>(words: &'a [&'a str]) -> (&'a [&'a str], &'a [&'a str]) {
    let mut parts = words.split(|word| *word == "|");
    let command = parts.next().unwrap_or(&[]);
    (command, parts.next().unwrap_or(&[]))
}

/// Runs a command.
pub(crate) fn run<R>(rt: &R, words: &[&str]) -> Ended
where
    R: Files + io::Input + Net + Clock + RandomSource + Locks + AllocGlobal + Clone + Drop,
{
    let (mut out, mut err) = (Vec::new(rt.alloc()), Told::new(rt.alloc(), false));
    let mut files = DiskFiles::new(rt);
    let status = grid(rt, words, &HERE, &mut files, &mut out, &mut err);
    Ended { status, out, err }
}

// Tells what a command came to. Where its output is wanted to be a file, or a part of one, only
// whether it is.
fn tell<R: Files + AllocGlobal + Clone + Drop>(
    rt: &R,
    ended: &Ended,
    wanted: &[&str],
    told: &mut String,
) -> io::Result<()> {
    if wanted.is_empty() {
        tell_text(told, "", ended.out.as_slice())?;
    } else {
        told.push_str(likeness(is_file(rt, ended.out.as_slice(), wanted)?))?;
    }
    Ok(tell_end(told, ended)?)
}

// Tells standard error and the status.
fn tell_end(told: &mut String, ended: &Ended) -> Result<(), AllocError> {
    tell_text(told, "!", ended.err.as_slice())?;
    write!(told, "status {}\n", ended.status)
}

// Tells the lines of a text, each behind a mark.
fn tell_text(told: &mut String, mark: &str, bytes: &[u8]) -> Result<(), AllocError> {
    let Some(text) = text_of(bytes) else {
        return write!(told, "{mark}{} bytes that are no text\n", bytes.len());
    };
    for line in text.lines() {
        let gap = if mark.is_empty() || line.is_empty() {
            ""
        } else {
            " "
        };
        write!(told, "{mark}{gap}{line}\n")?;
    }
    if text.is_empty() || text.ends_with('\n') {
        return Ok(());
    }
    told.push_str("\\ no line end\n")
}

// Bytes as a text that may be shown.
fn text_of(bytes: &[u8]) -> Option<&str> {
    let text = str::from_utf8(bytes).ok()?;
    if text
        .chars()
        .all(|letter| letter == '\n' || !letter.is_ascii_control())
    {
        Some(text)
    } else {
        None
    }
}

// Whether an output is the file, or the part of it, that these words name.
fn is_file<R: Files + AllocGlobal + Clone + Drop>(
    rt: &R,
    out: &[u8],
    wanted: &[&str],
) -> io::Result<bool> {
    let (file, from, to) = part_of(wanted)?;
    let bytes = fs::read(rt, path_of(rt, file)?.as_str())?;
    let to = to.unwrap_or(bytes.len());
    Ok(bytes.get(from..to).is_some_and(|part| part == out))
}

// The file that the words behind `same` name, and the offsets from and to which it is meant.
fn part_of<'a>(wanted: &'a [&'a str]) -> io::Result<(&'a str, usize, Option<usize>)> {
    match wanted {
        [_, file] => Ok((*file, 0, None)),
        [_, file, from, to] => Ok((*file, number(from)?, Some(number(to)?))),
        _ => Err(no_such_row()),
    }
}
