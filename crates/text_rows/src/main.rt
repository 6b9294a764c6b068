//! Plays rows: texts and bytes of caps, extension blocks and frames. What each was read as is
//! written as a transcript.
//!
//! Each line of standard input is written again. An empty one, and one that begins with `#`, is no
//! row. Any other follows a `$`, and behind it stands what it came to: the fields, or behind `!`
//! the number and the name of the refusal.
//!
//! - `base32 BYTES`: the base32 text of bytes.
//! - `bytes COUNT TEXT`: the so many bytes that a base32 text spells.
//! - `cap TEXT`: the cap that a text is, and that it is written the same; of a read cap also its
//!   verify cap.
//! - `literal BYTES`: the literal cap of a file.
//! - `limits NEEDED TOTAL SIZE`: the read cap with these numbers, a key of sevens and a hash of
//!   nines.
//! - `block NEEDED TOTAL SIZE BYTES`: the extension block that bytes are, of a file with these
//!   numbers, and whether it is written the same.
//! - `change OLD [NEW]`: the block of the last row `block`, with a text in the place of another.
//! - `as NEEDED TOTAL SIZE`: that block, of a file with these numbers.
//! - `frame HEX..`: the message whose frame bytes are, and that it is written the same. A refusal
//!   is told again behind more bytes.
//!
//! In a text and in bytes, what stands between two `\` is hex, and all else stands for itself. In
//! hex, `COUNT*HEX` stands for bytes that come so many times.
#![tactic(auto)]

mod blocks;
mod bytes;
mod caps;
mod frames;
mod rows;

use blocks::Block;
use rows::play;
use std::io::{self, BufRead, BufReader};

fn main(rt: HostRuntime) -> io::Result<()> {
    let mut block = Block::none(rt.alloc());
    for line in BufReader::new(rt.alloc(), rt.reader())?.lines(rt.alloc()) {
        tell(&rt, &mut block, line?.as_str())?;
    }
    Ok(())
}

// Plays a line, and writes what it came to.
fn tell<R: Print + AllocGlobal>(rt: &R, block: &mut Block, line: &str) -> io::Result<()> {
    if line.is_empty() || line.starts_with('#') {
        return rt.println(line);
    }
    println!(rt; "$ {line}")?;
    let mut told = String::new(rt.alloc());
    let outcome = play(rt.alloc(), block, line, &mut told);
    rt.print(told.as_str())?;
    match outcome {
        Ok(()) => Ok(()),
        Err(error) => println!(rt; "! {error}"),
    }
}
