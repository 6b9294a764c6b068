//! The words of a row, and the names that stand for values in it.

use std::alloc::{AllocError, Global};
use std::io;

/// Names, each with the value that it stands for.
#[derive(Drop)]
pub(crate) struct Names {
    values: Vec<(String, String)>,
}

impl Names {
    /// No name stands for anything yet.
    pub(crate) fn new(alloc: Global) -> Names {
        Names {
            values: Vec::new(alloc),
        }
    }

    /// Has a name stand for a value from now on.
    pub(crate) fn add(&mut self, alloc: Global, name: &str, value: &str) -> Result<(), AllocError> {
        let (name, value) = (
            String::from_str(alloc, name)?,
            String::from_str(alloc, value)?,
        );
        self.values.push((name, value))?;
        Ok(())
    }

    // What a word stands for: itself, but for a `$` and a name.
    fn value<'a>(&'a self, word: &'a str) -> &'a str {
        let Some(wanted) = word.strip_prefix('$') else {
            return word;
        };
        for (name, value) in self.values.iter().rev() {
            if name.as_str() == wanted {
                return value.as_str();
            }
        }
        word
    }
}

/// The name and the value of a line `NAME=VALUE`.
pub(crate) fn assignment(line: &str) -> Option<(&str, &str)> {
    line.split_once('=').filter(|(name, _)| !name.contains(' '))
}

/// The words of a line. What stands between two `"` is one word.
pub(crate) fn words_of<'a>(
    alloc: Global,
    names: &'a Names,
    line: &'a str,
) -> Result<Vec<&'a str>, AllocError> {
    let mut words = Vec::new(alloc);
    for (position, part) in line.split('"').enumerate() {
        if position % 2 == 1 {
            words.push(part)?;
        } else {
            for word in part.split_whitespace() {
                words.push(names.value(word))?;
            }
        }
    }
    Ok(words)
}

/// Words that make no row, or a position that is none.
pub(crate) fn no_such_row() -> io::Error {
    io::Error::from(io::ErrorKind::InvalidInput)
}

/// The first of words, and the others.
pub(crate) fn first<'a>(words: &'a [&'a str]) -> io::Result<(&'a str, &'a [&'a str])> {
    match words.split_first() {
        Some((word, others)) => Ok((*word, others)),
        None => Err(no_such_row()),
    }
}

/// The two words that there are.
pub(crate) fn two<'a>(words: &'a [&'a str]) -> io::Result<(&'a str, &'a str)> {
    match words {
        [one, other] => Ok((*one, *other)),
        _ => Err(no_such_row()),
    }
}

/// The number that a word spells.
pub(crate) fn number(word: &str) -> io::Result<usize> {
    match word.parse() {
        Ok(number) => Ok(number),
        Err(_) => Err(no_such_row()),
    }
}
