//! The program `grid`: hands its words and its environment to the commands, and ends with their
//! status.
#![tactic(auto)]

use grid_commands::{DiskFiles, Environment, grid, refuse_words};
use std::env::VarError;
use std::process::ExitCode;
use std::{env, io};

// The variable that asks for grids that are marked, and how.
const KNOWN: &str = "GRID_KNOWN";

const YES: &str = "1";

// The variable that names the folder for files that last as long as a command, and the usual one.
const TEMPORARY: &str = "TMPDIR";

const USUAL_TEMPORARY: &str = "/tmp";

// The variable that names the grid's folder, and the one that names the file of the secret.
const GRID: &str = "GRID";

const SECRET_FILE: &str = "GRID_SECRET_FILE";

// The values of the variables, where they are set.
#[derive(Drop)]
struct Variables {
    known: Option<String>,
    temporary: Option<String>,
    grid: Option<String>,
    secret_file: Option<String>,
}

impl Variables {
    // What a command takes of them.
    fn environment(&self) -> Environment<'_> {
        Environment {
            known: text_of(&self.known) == Some(YES),
            temporary: text_of(&self.temporary).unwrap_or(USUAL_TEMPORARY),
            grid: text_of(&self.grid),
            secret_file: text_of(&self.secret_file),
        }
    }
}

fn main(rt: HostRuntime) -> ExitCode {
    let status = match run(&rt) {
        Ok(status) => status,
        Err(error) => refuse_words(rt.alloc(), &error, &mut rt.stderr()),
    };
    ExitCode::from(status)
}

// Runs the command of the words and the variables, and gives its status.
fn run(rt: &HostRuntime) -> io::Result<u8> {
    let words = words(rt)?;
    let variables = read_variables(rt)?;
    let mut files = DiskFiles::new(rt);
    let (mut out, mut err) = (rt.stdout(), rt.stderr());
    Ok(grid(
        rt,
        words.as_slice(),
        &variables.environment(),
        &mut files,
        &mut out,
        &mut err,
    ))
}

// The words of the command line.
fn words(rt: &HostRuntime) -> io::Result<Vec<String>> {
    Ok(env::args(rt)?.collect(rt.alloc())?)
}

// The variables of the environment. What names a grid or the file of a secret is not passed over
// where it is no UTF-8, but refused.
fn read_variables(rt: &HostRuntime) -> io::Result<Variables> {
    let (known, temporary) = (env::var(rt, KNOWN), env::var(rt, TEMPORARY));
    Ok(Variables {
        known: if_text(value_of(known))?,
        temporary: if_text(value_of(temporary))?,
        grid: value_of(env::var(rt, GRID))?,
        secret_file: value_of(env::var(rt, SECRET_FILE))?,
    })
}

// The value of a variable, where it is set. One that is no UTF-8 is refused.
fn value_of(variable: Result<String, VarError>) -> io::Result<Option<String>> {
    match variable {
        Ok(value) => Ok(Some(value)),
        Err(VarError::NotPresent) => Ok(None),
        Err(VarError::NotUnicode) => Err(io::Error::from(io::ErrorKind::InvalidData)),
        Err(VarError::OutOfMemory) => Err(io::Error::from(io::ErrorKind::OutOfMemory)),
    }
}

// The same, where one that is no UTF-8 counts as not set.
fn if_text(value: io::Result<Option<String>>) -> io::Result<Option<String>> {
    match value {
        Err(error) if error.kind() == io::ErrorKind::InvalidData => Ok(None),
        other => other,
    }
}

// The text of a variable. One that is empty counts as not set.
fn text_of(value: &Option<String>) -> Option<&str> {
    match value {
        Some(text) if !text.is_empty() => Some(text.as_str()),
        _ => None,
    }
}
