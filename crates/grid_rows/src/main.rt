//! Plays rows: commands of `grid`, and small acts on files between them. What each came to is
//! written as a transcript.
//!
//! Each line of standard input is written again. An empty one, and one that begins with `#`, is no
//! row. Any other follows a `$`, and behind it stands what it told: of a command its standard
//! output, its standard error behind `!`, and its exit status; of an act what it looked for, or
//! behind `!` why it could not be done.
//!
//! - `grid WORD..`: runs the command.
//! - `both grid WORD..`: runs it, and again with `--net`; told once where it comes to the same.
//! - `script LINE;LINE..`: runs the script of a world. A line `COUNT * LINE` stands there so many
//!   times, and one that ends in `FROM..TO` once for each number from one to before the other.
//! - `scripts FROM TO LINE;LINE.. | TEXT..`: runs a script for each such number, which a `#` stands
//!   for, and tells in how many of them what it wrote has each text.
//! - `.. | same FILE [FROM TO]`: in place of the output tells whether it is this file, or this
//!   part of it.
//! - `NAME=VALUE`: a word `$NAME` stands for the value from then on.
//! - `counted FILE SIZE`: makes a file whose byte i is i modulo 251.
//! - `zeros FILE SIZE`, `write FILE TEXT`, `lines FILE LINE..`: makes a file of zeros, of a text,
//!   of lines with no line end behind the last.
//! - `append FILE TEXT`: puts a text behind the file's end.
//! - `flip FILE OFFSET`: changes the lowest bit of the byte there.
//! - `cut FILE SIZE`: ends the file there.
//! - `splice FILE FROM TO HEX`: puts these bytes in the place of those from one offset to another.
//! - `folder FOLDER..`: makes folders.
//! - `readonly FOLDER..`: makes the folders of servers that take no shares.
//! - `remove PATH..`: removes files, and folders with all that they hold.
//! - `keep FOLDER NAME..`: removes all in a folder but these.
//! - `rename FROM TO`, `copy FROM TO`, `link FROM TO`: makes another name, a second file, a
//!   symbolic link.
//! - `list FOLDER`: tells the names in a folder, and the sizes of files.
//! - `count FOLDER`: tells the names in a folder of folders, and how many names each of them has.
//! - `compare FILE FILE`: tells whether two files are the same.
//! - `save FOLDER COPY`: copies a folder of folders with the files in these.
//! - `alike FOLDER FOLDER`: tells whether two such folders have the same names and bytes.
//!
//! Words are parted by spaces. What stands between two `"` is one word, and may be empty. A path
//! whose last part is `*` is that of the only name in a folder, as that of a server's only share.
#![tactic(auto)]

mod acts;
mod changes;
mod commands;
mod folders;
mod names;
mod rows;
mod scripts;
mod trees;

use grid_commands::Locks;
use names::{Names, assignment, words_of};
use rows::play;
use std::io::{self, BufRead, BufReader};
use std::net::Net;
use std::random::RandomSource;
use std::rt::Runtime;

fn main(rt: HostRuntime) -> io::Result<()> {
    let mut names = Names::new(rt.alloc());
    for line in BufReader::new(rt.alloc(), rt.reader())?.lines(rt.alloc()) {
        tell(&rt, &mut names, line?.as_str())?;
    }
    Ok(())
}

// Plays a line, and writes what it came to.
fn tell<R: Runtime + RandomSource + AllocGlobal + Net + Locks>(
    rt: &R,
    names: &mut Names,
    line: &str,
) -> io::Result<()> {
    if line.is_empty() || line.starts_with('#') {
        return rt.println(line);
    }
    println!(rt; "$ {line}")?;
    match assignment(line) {
        Some((name, value)) => Ok(names.add(rt.alloc(), name, value)?),
        None => tell_row(rt, names, line),
    }
}

// Plays a row, and writes what it told, and behind that why it could not be done.
fn tell_row<R: Runtime + RandomSource + AllocGlobal + Net + Locks>(
    rt: &R,
    names: &Names,
    line: &str,
) -> io::Result<()> {
    let words = words_of(rt.alloc(), names, line)?;
    let mut told = String::new(rt.alloc());
    let outcome = play(rt, words.as_slice(), &mut told);
    rt.print(told.as_str())?;
    match outcome {
        Ok(()) => Ok(()),
        Err(error) => println!(rt; "! {error}"),
    }
}
