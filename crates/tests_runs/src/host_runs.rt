//! Runs of commands in the tests' folder, over such a host.

use crate::host::{OddHost, Plan};
use grid_commands::{DiskFiles, Environment, grid};
use std::alloc::AllocError;
use std::{fs, io};
use test_folders::{counted, makes_folder, path, stands, writes};
use test_writers::Told;

// The cap of the file of 131,074 bytes whose byte i is i modulo 251, at 3 of 10, by a program that
// shares no code with these crates.
pub(crate) const CAP_131074: &str = "URI:CHK:x45opozjlsd45uhibsv2apw46e:\
    upsh3wg4mj5hhojd7qv6ug2rqe7zphsxgbnniumsdns2twtt3vyq:3:10:131074";

// The environment of these commands: no variable is set.
pub(crate) const HERE: Environment<'static> = Environment {
    known: false,
    temporary: "/tmp",
    grid: None,
    secret_file: None,
};

// Removes the folder, where it is there.
pub(crate) fn remove(rt: &HostRuntime) -> io::Result<()> {
    if stands(rt, "")? {
        fs::remove_dir_all(rt, path(rt, "")?.as_str())?;
    }
    Ok(())
}

// Makes the folder anew, with these bytes as its file.
pub(crate) fn begin(rt: &HostRuntime, size: usize) -> io::Result<()> {
    remove(rt)?;
    makes_folder(rt, "")?;
    writes(rt, "/file", counted(rt, size)?.as_slice())
}

// What the words of a line write to standard output and to standard error, and their status.
#[derive(Drop)]
pub(crate) struct Ended {
    pub status: u8,
    pub out: Vec<u8>,
    pub err: Told,
}

impl Ended {
    pub(crate) fn is(&self, status: u8, out: &[u8], err: &str) -> bool {
        self.status == status && self.out.as_slice() == out && self.err.rest() == err.as_bytes()
    }

    pub(crate) fn equals(&self, other: &Ended) -> bool {
        self.status == other.status
            && self.out.as_slice() == other.out.as_slice()
            && self.err.as_slice() == other.err.as_slice()
    }
}

// Runs the words of a line on a host, where standard error is a terminal or not.
pub(crate) fn run(host: &OddHost<'_>, line: &str, is_terminal: bool) -> Result<Ended, AllocError> {
    let alloc = host.rt.alloc();
    let words: Vec<&str> = line.split(' ').collect(alloc)?;
    let (mut out, mut err) = (Vec::new(alloc), Told::new(alloc, is_terminal));
    let mut files = DiskFiles::new(host);
    let status = grid(
        host,
        words.as_slice(),
        &HERE,
        &mut files,
        &mut out,
        &mut err,
    );
    Ok(Ended { status, out, err })
}

// `put` of the folder's file into its grid, with these options.
pub(crate) fn put(rt: &HostRuntime, plan: &Plan, options: &str) -> Result<Ended, AllocError> {
    let root = path(rt, "")?;
    let line = format!(in rt.alloc(); "grid put {root}/file --grid {root}/grid{options}")?;
    run(&OddHost { rt: *rt, plan }, line.as_str(), false)
}

// A command on a cap and that grid, with these options.
pub(crate) fn of_cap(
    rt: &HostRuntime,
    plan: &Plan,
    (command, cap, options): (&str, &str, &str),
) -> Result<Ended, AllocError> {
    let root = path(rt, "")?;
    let line = format!(in rt.alloc(); "grid {command} {cap} --grid {root}/grid{options}")?;
    run(&OddHost { rt: *rt, plan }, line.as_str(), false)
}
