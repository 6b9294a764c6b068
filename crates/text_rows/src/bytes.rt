//! Bytes as rows spell them, and numbers.

use std::alloc::{AllocError, Global};
use std::fmt::Display;
use std::io;

/// A line that is no row.
pub(crate) fn no_such_row() -> io::Error {
    io::Error::from(io::ErrorKind::InvalidInput)
}

/// The bytes that a text spells: between two `\` in hex, all else as they are.
pub(crate) fn bytes_of(alloc: Global, text: &str) -> io::Result<Vec<u8>> {
    let mut bytes = Vec::new(alloc);
    for (position, part) in text.split('\\').enumerate() {
        if position % 2 == 1 {
            add_hex(alloc, &mut bytes, part)?;
        } else {
            bytes.extend_from_slice(part.as_bytes())?;
        }
    }
    Ok(bytes)
}

/// Adds the bytes that words in hex spell.
pub(crate) fn add_hex(alloc: Global, bytes: &mut Vec<u8>, words: &str) -> io::Result<()> {
    for word in words.split_whitespace() {
        let (count, digits) = word.split_once('*').unwrap_or(("1", word));
        let Ok(part) = hex::decode(alloc, digits) else {
            return Err(no_such_row());
        };
        for _ in 0..number(count)? {
            bytes.extend_from_slice(part.as_slice())?;
        }
    }
    Ok(())
}

/// The number that a word spells.
pub(crate) fn number(word: &str) -> io::Result<usize> {
    match word.parse() {
        Ok(number) => Ok(number),
        Err(_) => Err(no_such_row()),
    }
}

/// The first word of a text, and what follows it.
pub(crate) fn first_word(text: &str) -> (&str, &str) {
    text.split_once(' ').unwrap_or((text, ""))
}

/// Shares needed and in all, and a file's size.
#[derive(Clone, Copy)]
pub(crate) struct Numbers {
    pub(crate) needed: u16,
    pub(crate) total: u16,
    pub(crate) size: u64,
}

/// The numbers that a text begins with, and what follows them.
pub(crate) fn numbers_in(text: &str) -> io::Result<(Numbers, &str)> {
    let (needed, rest) = first_word(text);
    let (total, rest) = first_word(rest);
    let (size, rest) = first_word(rest);
    let (Ok(needed), Ok(total), Ok(size)) = (needed.parse(), total.parse(), size.parse()) else {
        return Err(no_such_row());
    };
    let numbers = Numbers {
        needed,
        total,
        size,
    };
    Ok((numbers, rest))
}

/// Tells what bytes are: as they are where they can be read, else in hex.
pub(crate) fn tell_bytes(
    alloc: Global,
    told: &mut String,
    name: &str,
    bytes: &[u8],
) -> Result<(), AllocError> {
    if let Some(text) = readable(bytes) {
        return write!(told, "{name} {text}\n");
    }
    let digits = hex::encode(alloc, bytes)?;
    write!(told, "{name} \\{digits}\\\n")
}

// Bytes as a text that can be read.
fn readable(bytes: &[u8]) -> Option<&str> {
    let text = str::from_utf8(bytes).ok()?;
    if !text.is_empty() && text.chars().all(|letter| letter.is_ascii_graphic()) {
        Some(text)
    } else {
        None
    }
}

/// Tells a refusal.
pub(crate) fn tell_refusal<E: Display>(
    told: &mut String,
    number: u8,
    refusal: &E,
) -> Result<(), AllocError> {
    write!(told, "! {number} {refusal}\n")
}

/// Tells whether what was read is written the same.
pub(crate) fn tell_again(told: &mut String, is_same: bool) -> Result<(), AllocError> {
    told.push_str(if is_same {
        "written the same\n"
    } else {
        "written otherwise\n"
    })
}
