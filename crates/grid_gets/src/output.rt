//! The file that a `get` writes with `-o`.

ghost use Rattle.std.specs.Prelude.{◌≡◌, ◌∷◌, [], IfOk, List, None, OnErr, OnOk, Option};
ghost use Rattle.grid_gets.specs.Files.{Adds, FileAct, ended, opened};

use crate::beside::Beside;
use crate::target::{Found, MOST_LINKS, Target, found_of, target_of};
use grid_faults::Fault;
use grid_telling::Failure;
use std::fs;
use std::fs::{OpenFile, OpenOptions};
use std::io::{self, ErrorKind, Write};
use std::path::Path;
use std::rt::Files;
use user_files::at_path;

/// The files that a `-o` names.
pub trait NamedFiles {
    /// What takes the bytes that are to stand at a path.
    type File: Write + Drop;

    /// What was done with them, where that is known.
    ghost acts: { Self → Option (List FileAct) } = { λ _. None };

    /// Opens what is written so that the bytes stand at this path.
    fn open(&mut self, path: &str) -> Result<Self::File, Fault>
        ensures opened { IfOk result (λ file. Adds (acts self.old) (acts self.new)
            (opened path.now (Self.File.contents file) ∷ [])) }
        ensures refused { OnErr result (acts self.new ≡ acts self.old) };

    /// Ends it, of which so much was written as this outcome says. One that is whole is put on the
    /// disk, and gets its name.
    fn end(&mut self, file: Self::File, outcome: Result<(), Failure>) -> Result<(), Failure>
        ensures ended { Adds (acts self.old) (acts self.new)
            (ended (Self.File.contents file) outcome ∷ []) }
        ensures whole { OnOk result (outcome ≡ Ok tt) };
}

/// The files of the system. No clause says what it does with them.
#[derive(Drop)]
pub struct DiskFiles<'a, R> {
    rt: &'a R,
}

impl<'a, R> DiskFiles<'a, R> {
    /// Those of this system.
    pub fn new(rt: &'a R) -> DiskFiles<'a, R> {
        DiskFiles { rt }
    }
}

impl<'a, R: Files + AllocGlobal + Clone + Drop> NamedFiles for DiskFiles<'a, R> {
    type File = Part<R>;

    // The empty path, a folder and what cannot be looked at are refused, and nothing is made then.
    // A regular file that stands there is not opened.
    fn open(&mut self, path: &str) -> Result<Part<R>, Fault> {
        Part::create(self.rt, path)
    }

    fn end(&mut self, file: Part<R>, outcome: Result<(), Failure>) -> Result<(), Failure> {
        file.finish(self.rt, outcome)
    }
}

/// What the bytes are written to.
#[derive(Drop)]
pub enum Part<R: Files + AllocGlobal + Clone + Drop> {
    /// A new file beside the one that is to have them, which is renamed once it is whole, and stays
    /// where it does not get whole, but for one that has no byte.
    Beside(Beside<R>),
    /// What is no regular file, as a device, and is written itself.
    Straight(Straight<R>),
}

/// What is no regular file, and its path.
#[derive(Drop)]
pub struct Straight<R: Files> {
    file: R::File,
    path: String,
    fault: Option<io::Error>,
}

impl<R: Files + AllocGlobal + Clone + Drop> Part<R> {
    // What is written so that the bytes stand at this path.
    fn create(rt: &R, path: &str) -> Result<Part<R>, Fault> {
        let found = found_at(rt, path)?;
        match target_of(path, found) {
            Target::Beside => {
                let whole = behind_links(rt, path, found)?;
                Ok(Part::Beside(Beside::begin(rt, whole.as_str())?))
            }
            Target::Straight => Ok(Part::Straight(Straight::open(rt, path)?)),
            Target::Refused(reason) => refused(rt, path, reason),
        }
    }

    // Ends the file: one that is whole is put on the disk, and gets its name.
    fn finish(self, rt: &R, outcome: Result<(), Failure>) -> Result<(), Failure>
        ensures { OnOk result (outcome ≡ Ok tt) }
    {
        match outcome {
            Ok(()) => Ok(self.keep(rt)?),
            Err(failure) => Err(self.give_up(rt, failure)),
        }
    }

    // Puts what was written on the disk, and gives it its name.
    fn keep(self, rt: &R) -> Result<(), Fault> {
        match self {
            Part::Beside(part) => part.keep(),
            Part::Straight(part) => {
                let synced = sync_device(&part.file);
                at_path(rt.alloc(), synced, part.path.as_str())
            }
        }
    }

    // Leaves the file as it is, or removes a new one without a byte. Where it could not be written
    // the fault names it.
    fn give_up(self, rt: &R, failure: Failure) -> Failure {
        let (path, fault) = match self {
            Part::Beside(part) => part.give_up(),
            Part::Straight(part) => (part.path, part.fault),
        };
        match failure {
            Failure::Writer => {
                let fault = fault.unwrap_or(io::Error::from(ErrorKind::Other));
                let written: io::Result<()> = Err(fault);
                match at_path(rt.alloc(), written, path.as_str()) {
                    Ok(()) => Failure::Writer,
                    Err(fault) => Failure::Fault(fault),
                }
            }
            failure => failure,
        }
    }
}

impl<R: Files + AllocGlobal> Straight<R> {
    // What stands at this path, which is neither made nor cut.
    fn open(rt: &R, path: &str) -> Result<Straight<R>, Fault> {
        let alloc = rt.alloc();
        let mut options = OpenOptions::new();
        options.write(true);
        let file = at_path(alloc, options.open(rt, path), path)?;
        Ok(Straight {
            file,
            path: String::from_str(alloc, path)?,
            fault: None,
        })
    }
}

// What stands at a path, where links are followed.
fn found_at<R: Files + AllocGlobal>(rt: &R, path: &str) -> Result<Found, Fault> {
    match fs::metadata(rt, path) {
        Ok(metadata) => Ok(found_of(&metadata)),
        Err(error) if error.kind() == ErrorKind::NotFound => Ok(Found::Nothing),
        Err(error) => at_path(rt.alloc(), Err(error), path),
    }
}

// The refusal of a path for this reason.
fn refused<R: Files + AllocGlobal, T>(rt: &R, path: &str, reason: ErrorKind) -> Result<T, Fault> {
    at_path(rt.alloc(), Err(io::Error::from(reason)), path)
}

// The path at the end of the links that begin at this one, at which this was found.
fn behind_links<R: Files + AllocGlobal>(rt: &R, path: &str, found: Found) -> Result<String, Fault> {
    match next_link(rt, path)? {
        Some(next) => behind_link(rt, path, next, found),
        None => Ok(String::from_str(rt.alloc(), path)?),
    }
}

// The path at the end of the links that begin at this one and go on with the next. It is refused
// where something else is found there, as behind a link of the system to a file that has no name
// any more.
fn behind_link<R: Files + AllocGlobal>(
    rt: &R,
    path: &str,
    next: String,
    found: Found,
) -> Result<String, Fault> {
    let mut end = next;
    for _ in 1..MOST_LINKS {
        match next_link(rt, end.as_str())? {
            Some(next) => end = next,
            None if found_at(rt, end.as_str())? == found => return Ok(end),
            None => return refused(rt, path, ErrorKind::NotFound),
        }
    }
    refused(rt, path, ErrorKind::FilesystemLoop)
}

// The path that a link leads to, from the link's folder where it is relative; none where the path
// is no link.
fn next_link<R: Files + AllocGlobal>(rt: &R, path: &str) -> Result<Option<String>, Fault> {
    let alloc = rt.alloc();
    if !is_link(rt, path)? {
        return Ok(None);
    }
    let text = at_path(alloc, fs::read_link(rt, path), path)?;
    let next = Path::new(path).with_file_name(alloc, text.as_str())?;
    Ok(Some(next.into_string()))
}

// Whether a path is a link.
fn is_link<R: Files + AllocGlobal>(rt: &R, path: &str) -> Result<bool, Fault> {
    match fs::symlink_metadata(rt, path) {
        Ok(metadata) => Ok(metadata.is_symlink()),
        Err(error) if error.kind() == ErrorKind::NotFound => Ok(false),
        Err(error) => at_path(rt.alloc(), Err(error), path),
    }
}

// Puts on the disk what was written to a device, or to what has none.
fn sync_device<F: OpenFile>(file: &F) -> io::Result<()> {
    match file.sync_all() {
        Err(error) if error.kind() == ErrorKind::InvalidInput => Ok(()),
        outcome => outcome,
    }
}

impl<R: Files> Write for Straight<R> {
    ghost contents = { λ part. R.File.contents part.file };

    fn write(&mut self, buf: &[u8]) -> io::Result<usize> {
        let outcome = self.file.write(buf);
        if let Err(error) = &outcome {
            self.fault = Some(*error);
        }
        outcome
    }

    fn flush(&mut self) -> io::Result<()> {
        let outcome = self.file.flush();
        if let Err(error) = &outcome {
            self.fault = Some(*error);
        }
        outcome
    }
}

impl<R: Files + AllocGlobal + Clone + Drop> Write for Part<R> {
    fn write(&mut self, buf: &[u8]) -> io::Result<usize> {
        match self {
            Part::Beside(part) => part.write(buf),
            Part::Straight(part) => part.write(buf),
        }
    }

    fn flush(&mut self) -> io::Result<()> {
        match self {
            Part::Beside(part) => part.flush(),
            Part::Straight(part) => part.flush(),
        }
    }
}
