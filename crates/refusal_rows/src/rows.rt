//! Rows of refusals, and how they are written.

use std::alloc::{AllocError, Global};
use std::fmt::{Debug, Display};
use std::io;

// A refusal: its number, what its text begins with, and the type that has it, by its path.
#[derive(Drop)]
struct Row {
    number: u8,
    text: String,
    path: &'static str,
    status: Option<u8>,
}

/// All refusals that were told.
#[derive(Drop)]
pub(crate) struct Rows {
    alloc: Global,
    rows: Vec<Row>,
}

impl Rows {
    /// None yet.
    pub(crate) fn new(alloc: Global) -> Rows {
        Rows {
            alloc,
            rows: Vec::new(alloc),
        }
    }

    /// Adds a refusal that has a text.
    pub(crate) fn tell<E: Display>(
        &mut self,
        path: &'static str,
        number: u8,
        refusal: &E,
    ) -> Result<(), AllocError> {
        let text = format!(in self.alloc; "{refusal}")?;
        self.push(path, number, text, None)
    }

    /// Adds one that has a text and an exit status.
    pub(crate) fn tell_with_status<E: Display>(
        &mut self,
        path: &'static str,
        number: u8,
        refusal: &E,
        status: u8,
    ) -> Result<(), AllocError> {
        let text = format!(in self.alloc; "{refusal}")?;
        self.push(path, number, text, Some(status))
    }

    /// Adds one that has no text: it is named by its variant.
    pub(crate) fn name<E: Debug>(
        &mut self,
        path: &'static str,
        number: u8,
        refusal: &E,
    ) -> Result<(), AllocError> {
        let text = format!(in self.alloc; "{refusal:?}")?;
        self.push(path, number, text, None)
    }

    fn push(
        &mut self,
        path: &'static str,
        number: u8,
        text: String,
        status: Option<u8>,
    ) -> Result<(), AllocError> {
        Ok(
            self.rows.push(Row {
                number,
                text,
                path,
                status,
            })?,
        )
    }

    /// Writes the rows in the order of their numbers, and those of one number as they were told.
    pub(crate) fn print<R: Print>(&self, rt: &R) -> io::Result<()> {
        for number in 0..=u8::MAX {
            for row in &self.rows {
                if row.number == number {
                    row.print(rt)?;
                }
            }
        }
        Ok(())
    }
}

impl Row {
    fn print<R: Print>(&self, rt: &R) -> io::Result<()> {
        let name = name_in(self.text.as_str());
        println!(rt; "{} {name} {}", self.number, self.path)?;
        match self.status {
            Some(status) => println!(rt; "{} {name} status {status}", self.number),
            None => Ok(()),
        }
    }
}

// The name that a text begins with, without what the refusal is about.
fn name_in(text: &str) -> &str {
    let (name, _) = text.split_once(' ').unwrap_or((text, ""));
    let (name, _) = name.split_once('(').unwrap_or((name, ""));
    name
}
