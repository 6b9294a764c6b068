//! What a scrub tells of each file, of a folder that could not be read, and of all files.

ghost use Rattle.std.specs.Prelude.{◌≡◌, IfOk, OnOk};
ghost use Rattle.std.specs.Io.KnownBytes.{Appends};
ghost use Rattle.std.specs.String.{string_bytes};
ghost use Rattle.grid_stores.specs.Scrubs.{file_text, finding_text, folder_text, last_text};
ghost use Rattle.grid_stores.specs.Scrubs.{named_text};

use grid_faults::{Fault, is_memory, server_name};
use grid_rules::{Scrubbed, finding_json, finding_line};
use grid_telling::{Failure, Progress, print};
use share_scrub::{Action, Finding, State};
use std::alloc::Global;
use std::io::{self, IsTerminal, Write};
use std::rt::Clock;
use wire::message::NodeId;

/// How the files of a server are told.
#[derive(Clone, Copy)]
pub(crate) struct Telling {
    pub(crate) alloc: Global,
    pub(crate) json: bool,
    pub(crate) server: NodeId,
}

/// Tells of a file, where it is no whole share; with `-v` also why it could not be read or handled.
pub(crate) fn tell_file<R, O, E>(
    telling: &Telling,
    found: &Finding,
    out: &mut O,
    progress: &mut Progress<'_, R, E>,
) -> Result<(), Failure>
where
    R: Clock + AllocGlobal,
    O: Write,
    E: Write + IsTerminal,
    ensures { OnOk result (Appends (O.contents out.old) (O.contents out.new)
        (file_text telling.now.json telling.now.server found.now)) }
{
    match &found.state {
        State::Whole => Ok(()),
        _ => {
            progress.clear();
            note_reason(telling, found, progress)?;
            print(out, finding_text(telling, found)?.as_bytes())
        }
    }
}

// The line of a file, or its object.
fn finding_text(telling: &Telling, found: &Finding) -> Result<String, Fault>
    ensures { IfOk result (λ text. string_bytes text
        ≡ finding_text telling.now.json telling.now.server found.now) }
{
    if telling.json {
        finding_json(telling.alloc, telling.server, found)
    } else {
        finding_line(telling.alloc, telling.server, found)
    }
}

// With `-v`, tells why a file could not be read or handled.
fn note_reason<R, E>(
    telling: &Telling,
    found: &Finding,
    progress: &mut Progress<'_, R, E>,
) -> Result<(), Fault>
where
    R: Clock + AllocGlobal,
    E: Write + IsTerminal,
{
    if let Some(error) = reason_of(&found.state) {
        let name = server_name(telling.alloc, telling.server)?;
        let share = found.file.key.1;
        let line = format!(in telling.alloc; "{name} share {share}: {error}\n")?;
        progress.note(line.as_str());
    }
    Ok(())
}

// Why a file could not be read, set aside, settled or removed.
fn reason_of(state: &State) -> Option<io::Error> {
    match state {
        State::Unreadable(error)
        | State::Damaged(Action::Failed(error))
        | State::LeftOpen(_, Action::Failed(error))
        | State::Aside(_, Action::Failed(error))
        | State::HalfAside(_, Action::Failed(error)) => Some(*error),
        _ => None,
    }
}

/// Tells of a folder that could not be read; with `-v` also why.
pub(crate) fn tell_folder<R, O, E>(
    telling: &Telling,
    error: io::Error,
    out: &mut O,
    progress: &mut Progress<'_, R, E>,
) -> Result<(), Failure>
where
    R: Clock + AllocGlobal,
    O: Write,
    E: Write + IsTerminal,
    ensures { OnOk result (Appends (O.contents out.old) (O.contents out.new)
        (folder_text telling.now.json telling.now.server)) }
{
    if is_memory(&error) {
        return Err(Failure::Fault(Fault::OutOfMemory));
    }
    let alloc = telling.alloc;
    let name = server_name(alloc, telling.server)?;
    progress.clear();
    progress.note(format!(in alloc; "{name} unreadable: {error}\n")?.as_str());
    print(out, folder_text(telling, name.as_str())?.as_bytes())
}

// The line of a folder that could not be read, of the server with this name, or its object.
fn folder_text(telling: &Telling, name: &str) -> Result<String, Fault>
    ensures { IfOk result
        (λ text. string_bytes text ≡ named_text telling.now.json name.now) }
{
    let line = if telling.json {
        format!(in telling.alloc; "{{\"server\":\"{name}\",\"verdict\":\"unreadable\"}}\n")
    } else {
        format!(in telling.alloc; "{name} unreadable\n")
    };
    Ok(line?)
}

/// The last line, or the last object.
pub(crate) fn last_text(alloc: Global, json: bool, counted: &Scrubbed) -> Result<String, Fault>
    ensures { IfOk result (λ text. string_bytes text ≡ last_text json counted.now) }
{
    let text = if json {
        counted.json(alloc)
    } else {
        counted.line(alloc)
    };
    Ok(text?)
}
