//! Scripts of worlds.

use crate::commands::{play_command, run};
use crate::names::{first, no_such_row, number};
use grid_commands::Locks;
use std::alloc::Global;
use std::net::Net;
use std::random::RandomSource;
use std::rt::{Clock, Files};
use std::{fs, io};

// The command that runs a script.
const COMMAND: [&str; 3] = ["grid", "world", "script"];

/// `script LINE;LINE..`: runs the script of these lines, and tells what it came to.
pub(crate) fn play_script<R>(rt: &R, words: &[&str], told: &mut String) -> io::Result<()>
where
    R: Files + io::Input + Net + Clock + RandomSource + Locks + AllocGlobal + Clone + Drop,
{
    let lines = words.join(rt.alloc(), " ")?;
    write_script(rt, lines.as_str())?;
    play_command(rt, &COMMAND, told)?;
    fs::remove_file(rt, "script")
}

/// `scripts FROM TO LINE;LINE.. | TEXT | TEXT..`: runs the script of these lines once for each
/// number from one to before the other, which a `#` stands for. Tells in how many of them what it
/// wrote has a text.
pub(crate) fn play_scripts<R>(rt: &R, words: &[&str], told: &mut String) -> io::Result<()>
where
    R: Files + io::Input + Net + Clock + RandomSource + Locks + AllocGlobal + Clone + Drop,
{
    let (from, rest) = first(words)?;
    let (to, rest) = first(rest)?;
    let numbers = (number(from)?, number(to)?);
    let mut parts = rest.split(|word| *word == "|");
    let lines = parts.next().unwrap_or(&[]).join(rt.alloc(), " ")?;
    for text in parts {
        tell_count(
            rt,
            numbers,
            lines.as_str(),
            text.join(rt.alloc(), " ")?.as_str(),
            told,
        )?;
    }
    fs::remove_file(rt, "script")
}

// Tells in how many scripts of a series what it wrote has this text.
fn tell_count<R>(
    rt: &R,
    (from, to): (usize, usize),
    lines: &str,
    text: &str,
    told: &mut String,
) -> io::Result<()>
where
    R: Files + io::Input + Net + Clock + RandomSource + Locks + AllocGlobal + Clone + Drop,
{
    let mut count: usize = 0;
    for position in from..to {
        let position = format!(in rt.alloc(); "{position}")?;
        write_script(
            rt,
            lines.replace(rt.alloc(), "#", position.as_str())?.as_str(),
        )?;
        count = count.saturating_add(usize::from(run(rt, &COMMAND).wrote(text)));
    }
    Ok(write!(told, "{count} of {}: {text}\n", to.saturating_sub(from))?)
}

// Makes the file of a script.
fn write_script<R: Files + AllocGlobal>(rt: &R, lines: &str) -> io::Result<()> {
    let mut text = String::new(rt.alloc());
    for line in lines.split(';') {
        push_line(rt.alloc(), &mut text, line.trim())?;
    }
    fs::write(rt, "script", text.as_str())
}

// Adds a line of a script: `COUNT * LINE` so many times, and one that ends in `FROM..TO` once for
// each number from one to before the other.
fn push_line(alloc: Global, text: &mut String, line: &str) -> io::Result<()> {
    if let Some((count, repeated)) = line.split_once(" * ") {
        for _ in 0..number(count)? {
            write!(text, "{repeated}\n")?;
        }
        return Ok(());
    }
    let Some((from, to)) = line.split_once("..") else {
        return Ok(write!(text, "{line}\n")?);
    };
    let Some((before, from)) = from.rsplit_once(' ') else {
        return Err(no_such_row());
    };
    for position in number(from)?..number(to)? {
        write!(text, "{before} {position}\n")?;
    }
    Ok(())
}
