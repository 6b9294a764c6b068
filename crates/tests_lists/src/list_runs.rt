//! Runs of commands over files of the tests' folder.

use grid_commands::{DiskFiles, Environment, grid};
use std::alloc::AllocError;
use std::io::Write;
use test_writers::Told;

/// The environment of these commands: no variable is set.
pub(crate) const HERE: Environment<'static> = Environment {
    known: false,
    temporary: "/tmp",
    grid: None,
    secret_file: None,
};

/// One share of one, at one server.
pub(crate) const ONES: [&str; 8] = ["--k", "1", "--happy", "1", "--n", "1", "--servers", "1"];

// The status where memory is out before a command began.
const NO_MEMORY: u8 = 255;

/// What a command wrote and told, and its status.
#[derive(Drop)]
pub(crate) struct Came {
    pub(crate) status: u8,
    pub(crate) out: Vec<u8>,
    pub(crate) told: Vec<u8>,
}

impl Came {
    // Where the first line ends.
    fn first_end(&self) -> usize {
        let out = self.out.as_slice();
        out.iter()
            .position(|byte| *byte == b'\n')
            .unwrap_or(out.len())
    }

    /// What was written behind the first line.
    pub(crate) fn lines(&self) -> &[u8] {
        let out = self.out.as_slice();
        out.get(self.first_end().saturating_add(1)..).unwrap_or(&[])
    }

    /// What tells secrets apart: the last letters of the first line.
    pub(crate) fn under(&self) -> &[u8] {
        let end = self.first_end();
        let out = self.out.as_slice();
        out.get(end.saturating_sub(26)..end).unwrap_or(&[])
    }

    /// Whether it ended so, and wrote nothing.
    pub(crate) fn is_silent(&self, status: u8) -> bool {
        self.status == status && self.out.is_empty()
    }

    /// Whether it ended so, and wrote this.
    pub(crate) fn wrote(&self, status: u8, out: &str) -> bool {
        self.status == status && self.out.as_slice() == out.as_bytes()
    }

    /// Whether a line with this text was told.
    pub(crate) fn tells(&self, line: &[u8]) -> bool {
        self.told
            .split(|byte| *byte == b'\n')
            .any(|told| told == line)
    }
}

/// Runs the words of a line in an environment.
pub(crate) fn run_line(rt: &HostRuntime, line: &str, environment: &Environment<'_>) -> Came {
    let mut out = Vec::new(rt.alloc());
    let mut err = Told::new(rt.alloc(), false);
    let words: Result<Vec<&str>, AllocError> = line.split(' ').collect(rt.alloc());
    let status = match words {
        Ok(words) => {
            let mut disk = DiskFiles::new(rt);
            let words = words.as_slice();
            grid(rt, words, environment, &mut disk, &mut out, &mut err)
        }
        Err(_) => NO_MEMORY,
    };
    let told = Vec::from_slice(rt.alloc(), err.rest()).unwrap_or(Vec::new(rt.alloc()));
    Came { status, out, told }
}

/// Runs a command over these files and this grid, with these words behind them.
pub(crate) fn run(
    rt: &HostRuntime,
    command: &str,
    files: &[&str],
    folder: &str,
    more: &[&str],
) -> Came {
    let mut out = Vec::new(rt.alloc());
    let mut came = run_into(rt, command, files, folder, more, &mut out);
    came.out = out;
    came
}

/// The same with a standard output of its own.
pub(crate) fn run_into<O: Write>(
    rt: &HostRuntime,
    command: &str,
    files: &[&str],
    folder: &str,
    more: &[&str],
    out: &mut O,
) -> Came {
    let mut err = Told::new(rt.alloc(), false);
    let status = match words_of(rt, command, files, folder, more) {
        Ok(words) => {
            let mut disk = DiskFiles::new(rt);
            grid(rt, words.as_slice(), &HERE, &mut disk, out, &mut err)
        }
        Err(_) => NO_MEMORY,
    };
    let told = Vec::from_slice(rt.alloc(), err.rest()).unwrap_or(Vec::new(rt.alloc()));
    Came {
        status,
        out: Vec::new(rt.alloc()),
        told,
    }
}

/// Two words, and more behind them.
pub(crate) fn joined<'a>(
    rt: &HostRuntime,
    first: &'a str,
    second: &'a str,
    more: &[&'a str],
) -> Result<Vec<&'a str>, AllocError> {
    let mut words = Vec::from_slice(rt.alloc(), &[first, second])?;
    words.extend_from_slice(more)?;
    Ok(words)
}

// The words of a command line.
fn words_of<'a>(
    rt: &HostRuntime,
    command: &'a str,
    files: &[&'a str],
    folder: &'a str,
    more: &[&'a str],
) -> Result<Vec<&'a str>, AllocError> {
    let mut words = Vec::from_slice(rt.alloc(), &["grid", command])?;
    words.extend_from_slice(files)?;
    words.extend_from_slice(&["--grid", folder])?;
    words.extend_from_slice(more)?;
    Ok(words)
}
