//! `grid status`: what a grid is, and what the folders of its servers hold, without a look at any
//! share.

ghost use Rattle.std.specs.Prelude.{◌≡◌, IfOk};
ghost use Rattle.grid_stores.specs.States.{status_of};
ghost use Rattle.grid_stores.specs.Status.{IsStatusBy, status_text};

use crate::finding::find_grid;
use crate::states::{GridState, Lack, ServerState, State, status_of};
use crate::status_json::status_json;
use crate::status_lines::status_lines;
use grid_faults::{Fault, server_name, told_path};
use grid_marks::{folder_fault, server_folder};
use grid_servers::{Purpose, asked_servers};
use grid_shares::{Environment, Outcome};
use grid_telling::Progress;
use grid_words::StatusWords;
use std::alloc::{AllocError, Global};
use std::io::{self, IsTerminal, Write};
use std::random::RandomSource;
use std::rt::{Clock, Files};
use wire::message::NodeId;

/// What a grid is: its mark and its ways, how each of its servers stands, and how many files of
/// each kind their folders hold, by their names. The exit status is 4 where a server does not
/// stand, neither here nor elsewhere. With `-v` it is told why.
pub fn status<R, E>(
    rt: &R,
    words: &StatusWords<'_>,
    environment: &Environment<'_>,
    progress: &mut Progress<'_, R, E>,
) -> Result<Outcome, Fault>
where
    R: Files + Clock + RandomSource + AllocGlobal + Clone + Drop,
    E: Write + IsTerminal,
    ensures { IfOk result (IsStatusBy words.now) }
{
    let servers = asked_servers(rt, words.grid, words.known || environment.known)?;
    let found = find_grid(rt, words.grid, servers.as_slice())?;
    note_lacks(rt, words.grid, found.servers.as_slice(), progress)?;
    outcome_of(rt.alloc(), words.json, &found)
}

// What is printed of a grid, and the exit status.
fn outcome_of(alloc: Global, json: bool, found: &GridState) -> Result<Outcome, Fault>
    ensures text { IfOk result (λ outcome. outcome.text.items ≡ status_text json found.now) }
    ensures status { IfOk result (λ outcome. outcome.status ≡ status_of found.now.servers.items) }
{
    Ok(Outcome {
        text: status_text(alloc, json, found)?,
        status: status_of(found.servers.as_slice()),
    })
}

// The lines of a grid, or its object.
fn status_text(alloc: Global, json: bool, found: &GridState) -> Result<Vec<u8>, Fault>
    ensures { IfOk result (λ text. text.items ≡ status_text json found.now) }
{
    if json {
        status_json(alloc, found)
    } else {
        Ok(status_lines(alloc, found)?.into_bytes())
    }
}

// With `-v`, tells why each of these servers does not stand that does not.
fn note_lacks<R, E>(
    rt: &R,
    grid: &str,
    servers: &[ServerState],
    progress: &mut Progress<'_, R, E>,
) -> Result<(), Fault>
where
    R: Files + Clock + AllocGlobal + Clone + Drop,
    E: Write + IsTerminal,
{
    if !progress.is_verbose() {
        return Ok(());
    }
    for found in servers {
        if let State::Lacking(lack) = &found.state {
            note_lack(rt, grid, found.server, *lack, progress)?;
        }
    }
    Ok(())
}

// Tells the path of a server that does not stand, and why, as the system or its mark tells it.
fn note_lack<R, E>(
    rt: &R,
    grid: &str,
    server: NodeId,
    lack: Lack,
    progress: &mut Progress<'_, R, E>,
) -> Result<(), Fault>
where
    R: Files + Clock + AllocGlobal + Clone + Drop,
    E: Write + IsTerminal,
{
    let Some(reason) = folder_fault(rt, grid, server, Purpose::Reading)? else {
        return Ok(());
    };
    let line = note_line(rt.alloc(), grid, server, lack, reason)?;
    progress.note(line.as_str());
    Ok(())
}

// The line of such a server, as other commands have that of one that serves badly.
fn note_line(
    alloc: Global,
    grid: &str,
    server: NodeId,
    lack: Lack,
    reason: io::Error,
) -> Result<String, AllocError> {
    let (name, word) = (server_name(alloc, server)?, lack.word());
    let path = folder_path(alloc, grid, server)?;
    format!(in alloc; "{name} {word}: {reason} ({path})\n")
}

// The path of a server's folder, as it is told.
fn folder_path(alloc: Global, grid: &str, server: NodeId) -> Result<String, AllocError> {
    let folder = server_folder(alloc, grid, server)?;
    told_path(alloc, folder.as_str())
}
