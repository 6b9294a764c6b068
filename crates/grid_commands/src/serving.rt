//! `grid serve`: a folder, served until the process is ended.

ghost use Rattle.grid_serve.specs.Faults.{serve_status};
ghost use Rattle.grid_commands.specs.Exit.{IsServingEnd, IsToldAs};
ghost use Rattle.grid_commands.specs.Serving.{IsServeBy};

use crate::exit::{DONE, tell_fault};
use grid_serve::{Durability, Serve, ServeFault, serve};
use grid_words::ServeWords;
use std::alloc::Global;
use std::io::Write;
use std::net::Net;
use std::random::RandomSource;
use std::rt::{Clock, Files};
use user_files::Locks;

/// Serves a folder until the process is ended. Why it is not served, or no longer, is told, and the
/// exit status given.
pub(crate) fn serve_folder<R, E>(rt: &R, words: &ServeWords<'_>, err: &mut E) -> u8
where
    R: Files + Net + Clock + RandomSource + Locks + AllocGlobal + Clone + Drop,
    E: Write,
    ensures { IsServingEnd result }
{
    match serve(rt, &served(words), err) {
        Ok(()) => DONE,
        Err(fault) => report_serving(rt.alloc(), err, &fault),
    }
}

// What is served, where and how.
fn served<'a>(words: &ServeWords<'a>) -> Serve<'a>
    ensures { IsServeBy words.now result }
{
    let durability = if words.no_sync {
        Durability::Unsynced
    } else {
        Durability::Synced
    };
    Serve {
        folder: words.folder,
        listen: words.listen,
        anyone: words.anyone,
        room: words.room,
        mark: words.mark,
        durability,
        verbose: words.verbose,
    }
}

// Writes a fault's line, with the line that tells why before it, and gives the exit status.
fn report_serving<E: Write>(alloc: Global, err: &mut E, fault: &ServeFault) -> u8
    ensures { IsToldAs (serve_status fault.now) result }
{
    let reason = fault.reason_line(alloc);
    let line = format!(in alloc; "grid: {} {fault}\n", fault.number());
    tell_fault(err, reason, line, fault.status())
}
