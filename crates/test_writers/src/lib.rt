//! A writer that tests hand to the program in place of standard error.
#![tactic(auto)]

use std::alloc::{AllocError, Global};
use std::io::{self, IsTerminal, Write};

/// Takes what is written, and says whether it is a terminal.
#[derive(Drop)]
pub struct Told {
    text: Vec<u8>,
    is_terminal: bool,
}

impl Told {
    /// Nothing is told yet.
    pub fn new(alloc: Global, is_terminal: bool) -> Told {
        Told {
            text: Vec::new(alloc),
            is_terminal,
        }
    }

    /// The same with room for so many bytes.
    pub fn with_capacity(alloc: Global, capacity: usize) -> Result<Told, AllocError> {
        Ok(Told {
            text: Vec::with_capacity(alloc, capacity)?,
            is_terminal: false,
        })
    }

    /// What was written.
    pub fn as_slice(&self) -> &[u8] {
        self.text.as_slice()
    }

    /// What was written behind the line of a grid that was made, where there is one.
    pub fn rest(&self) -> &[u8] {
        let text = self.text.as_slice();
        if !text.starts_with(b"made ") {
            return text;
        }
        match text.iter().position(|byte| *byte == b'\n') {
            Some(end) => text.get(end + 1..).unwrap_or(&[]),
            None => text,
        }
    }
}

impl Write for Told {
    fn write(&mut self, buf: &[u8]) -> io::Result<usize> {
        self.text.extend_from_slice(buf)?;
        Ok(buf.len())
    }

    fn flush(&mut self) -> io::Result<()> {
        Ok(())
    }
}

impl IsTerminal for Told {
    fn is_terminal(&self) -> bool {
        self.is_terminal
    }
}
