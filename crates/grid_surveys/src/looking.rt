//! `grid check` and `grid repair` of the files of a catalogue.

ghost use Rattle.std.specs.Prelude.{◌≡◌, IfErr, IfOk, IfSome, OnOk, max};
ghost use Rattle.std.specs.Io.KnownBytes.{Appends};
ghost use Rattle.grid_servers.specs.Grids.{grid_calls};
ghost use Rattle.grid_shares.specs.Standing.{WereOpened};
ghost use Rattle.grid_repairs.specs.Checks.{WereChecked, verify_of};
ghost use Rattle.grid_surveys.specs.LookEnds.{CameTo, IsToldAs, counted_after, grid_of};
ghost use Rattle.grid_surveys.specs.LookEnds.{status_with, task_of};
ghost use Rattle.grid_lists.specs.Statuses.{unread_status};
ghost use Rattle.grid_surveys.specs.Looks.{AreLookedAt, IsCutOff, IsLookDone, IsLookUndone, IsSeen};
ghost use Rattle.grid_surveys.specs.Looks.{checking, counts_text, repairing, unfound_status};

use crate::seen::{Class, Counts, Look, Seen, fault_class};
use crate::told::{counts_line, seen_line};
use cap_text::Cap;
use catalogues::{Catalogue, Line, chooses};
use grid_faults::Fault;
use grid_lists::{
    DONE, UNREAD, begin_entries, find_grid, read_text, tell_refused, tell_unfound, tell_unread,
};
use grid_repairs::{OpenGrid, Place, Repairing, check_file, may_repair, repair_file};
use grid_shares::Environment;
use grid_telling::{Failure, Progress, print};
use grid_words::{CheckFilesWords, RepairFilesWords};
use std::alloc::Global;
use std::io::{self, IsTerminal, Write};
use std::net::Net;
use std::random::RandomSource;
use std::rt::{Clock, Files};
use user_files::Locks;

// What is done with each file, over a grid that has to be marked or not.
#[derive(Clone, Copy)]
struct Looking<'a> {
    look: Look<'a>,
    is_known: bool,
}

/// Checks the files of a catalogue that are chosen, one after the other, and gives the exit status:
/// the greatest of theirs. Each has a line, of what is found of it and its name; the last line
/// tells how many there are. What is no line of a catalogue is told by its number, and ends it. A
/// file that is refused is told, with its name, and the others go on. An `Err` that is not for want
/// of memory or of an output that failed wrote nothing.
pub fn check_files<R, O, E>(
    rt: &R,
    words: &CheckFilesWords<'_>,
    environment: &Environment<'_>,
    out: &mut O,
    progress: &mut Progress<'_, R, E>,
) -> Result<u8, Failure>
where
    R: Files + io::Input + Net + Clock + RandomSource + Locks + AllocGlobal + Clone + Drop,
    O: Write,
    E: Write + IsTerminal,
    ensures done { IfOk result (λ status. IsLookDone
        (grid_calls R.Stream.contents R.Stream.remaining) (checking words.now) status
        (O.contents out.old) (O.contents out.new)) }
    ensures undone { IfErr result
        (λ failure. IsLookUndone failure (O.contents out.old) (O.contents out.new)) }
{
    let looking = Looking {
        look: Look::Check(words),
        is_known: words.known || environment.known,
    };
    let text = read_text(rt, words.chosen.caps, environment.temporary)?;
    look_files(rt, looking, &text, out, progress)
}

/// Repairs them, as `check_files` checks them. A happiness that no file may have is refused before
/// the first.
pub fn repair_files<R, O, E>(
    rt: &R,
    words: &RepairFilesWords<'_>,
    environment: &Environment<'_>,
    out: &mut O,
    progress: &mut Progress<'_, R, E>,
) -> Result<u8, Failure>
where
    R: Files + io::Input + Net + Clock + RandomSource + Locks + AllocGlobal + Clone + Drop,
    O: Write,
    E: Write + IsTerminal,
    ensures done { IfOk result (λ status. IsLookDone
        (grid_calls R.Stream.contents R.Stream.remaining) (repairing words.now) status
        (O.contents out.old) (O.contents out.new)) }
    ensures undone { IfErr result
        (λ failure. IsLookUndone failure (O.contents out.old) (O.contents out.new)) }
{
    may_repair(rt, words.happy, progress)?;
    let looking = Looking {
        look: Look::Repair(words),
        is_known: words.known || environment.known,
    };
    let text = read_text(rt, words.chosen.caps, environment.temporary)?;
    look_files(rt, looking, &text, out, progress)
}

// Looks at the files of a text, if it is a catalogue.
fn look_files<R, O, E>(
    rt: &R,
    looking: Looking<'_>,
    text: &[u8],
    out: &mut O,
    progress: &mut Progress<'_, R, E>,
) -> Result<u8, Failure>
where
    R: Files + Net + Clock + RandomSource + Locks + AllocGlobal + Clone + Drop,
    O: Write,
    E: Write + IsTerminal,
    ensures done { IfOk result (λ status. IsLookDone
        (grid_calls R.Stream.contents R.Stream.remaining) (task_of looking.entry.look) status
        (O.contents out.old) (O.contents out.new)) }
    ensures undone { IfErr result
        (λ failure. IsLookUndone failure (O.contents out.old) (O.contents out.new)) }
{
    match Catalogue::open(text) {
        Ok(catalogue) => {
            find_grid(rt, looking.look.grid(), looking.is_known)?;
            begin_entries(text, progress);
            look_lines(rt, looking, catalogue, out, progress)
        }
        Err(error) => {
            tell_unread(rt.alloc(), error, progress)?;
            Ok(UNREAD)
        }
    }
}

// Looks at the files of the lines that are left.
fn look_lines<R, O, E>(
    rt: &R,
    looking: Looking<'_>,
    mut catalogue: Catalogue<'_>,
    out: &mut O,
    progress: &mut Progress<'_, R, E>,
) -> Result<u8, Failure>
where
    R: Files + Net + Clock + RandomSource + Locks + AllocGlobal + Clone + Drop,
    O: Write,
    E: Write + IsTerminal,
    ensures done { IfOk result (λ status. AreLookedAt
        (grid_calls R.Stream.contents R.Stream.remaining) (task_of looking.entry.look)
        catalogue.entry.left status (O.contents out.old) (O.contents out.new)) }
    ensures undone { IfErr result IsCutOff }
{
    let (mut reading, mut writing) = (None, None);
    let mut tally = NO_FILES;
    loop {
        match catalogue.next_line() {
            Ok(Some(line)) => {
                let came = look_line(rt, looking, line, &mut reading, &mut writing, out, progress)?;
                tally = tally.after(came);
                progress.end_file();
            }
            Ok(None) => return end(rt.alloc(), looking.look, tally, out, progress),
            Err(error) => {
                tell_unread(rt.alloc(), error, progress)?;
                let tally = tally.after_no_line();
                return end(rt.alloc(), looking.look, tally, out, progress);
            }
        }
    }
}

/// What became of a file that was chosen.
#[derive(Clone, Copy)]
pub(crate) struct Came {
    pub class: Class,
    pub status: u8,
}

// The files so far: how many there are, and the greatest of their statuses.
#[derive(Clone, Copy)]
struct Tally {
    counts: Counts,
    status: u8,
}

const NO_FILES: Tally = Tally {
    counts: Counts {
        files: 0,
        whole: 0,
        weak: 0,
        lost: 0,
    },
    status: DONE,
};

impl Tally {
    // With what became of one line more, if its file was chosen.
    fn after(self, came: Option<Came>) -> Tally
        ensures counts { result.counts ≡ counted_after self.counts came }
        ensures status { result.status ≡ status_with self.status came }
    {
        match came {
            Some(came) => Tally {
                counts: self.counts.counted(came.class),
                status: self.status.max(came.status),
            },
            None => self,
        }
    }

    // Where what follows is no line.
    fn after_no_line(self) -> Tally
        ensures counts { result.counts ≡ self.counts }
        ensures status { result.status ≡ max self.status unread_status }
    {
        Tally {
            counts: self.counts,
            status: self.status.max(UNREAD),
        }
    }
}

// Writes how many files there are, and gives the status behind all lines. Where names were asked
// for and no file was chosen, that is told.
fn end<R, O, E>(
    alloc: Global,
    look: Look<'_>,
    tally: Tally,
    out: &mut O,
    progress: &mut Progress<'_, R, E>,
) -> Result<u8, Failure>
where
    R: Clock + AllocGlobal,
    O: Write,
    E: Write + IsTerminal,
    ensures status { IfOk result (λ status. status
        ≡ max tally.status (unfound_status (task_of look.entry) tally.counts)) }
    ensures written { IfOk result (λ _. Appends (O.contents out.old) (O.contents out.new)
        (counts_text (task_of look.entry) tally.counts)) }
    ensures undone { IfErr result IsCutOff }
{
    let line = counts_line(alloc, look, tally.counts)?;
    write(out, line.as_bytes())?;
    if look.names().is_empty() || tally.counts.files > 0 {
        return Ok(tally.status.max(DONE));
    }
    tell_unfound(progress);
    Ok(tally.status.max(UNREAD))
}

// Writes bytes of the result.
fn write<O: Write>(out: &mut O, bytes: &[u8]) -> Result<(), Failure>
    ensures written { OnOk result (Appends (O.contents out.old) (O.contents out.new) bytes.now) }
    ensures undone { IfErr result IsCutOff }
{
    match print(out, bytes) {
        Ok(()) => Ok(()),
        Err(_) => Err(Failure::Writer),
    }
}

// Looks at the file of a line where its name is chosen, and gives what became of it then.
fn look_line<R, O, E>(
    rt: &R,
    looking: Looking<'_>,
    line: Line<'_>,
    reading: &mut Option<OpenGrid<R>>,
    writing: &mut Option<grid_shares::OpenGrid<R>>,
    out: &mut O,
    progress: &mut Progress<'_, R, E>,
) -> Result<Option<Came>, Failure>
where
    R: Files + Net + Clock + RandomSource + Locks + AllocGlobal + Clone + Drop,
    O: Write,
    E: Write + IsTerminal,
    requires reading { IfSome reading.old (WereChecked
        (grid_calls R.Stream.contents R.Stream.remaining) (grid_of looking.look)) }
    requires writing { IfSome writing.old (λ g. WereOpened
        (grid_calls R.Stream.contents R.Stream.remaining) (grid_of looking.look) g.grid) }
    ensures came { IfOk result (CameTo (grid_calls R.Stream.contents R.Stream.remaining)
        (task_of looking.entry.look) line.entry.cap line.entry.name (O.contents out.old)
        (O.contents out.new)) }
    ensures undone { IfErr result IsCutOff }
    ensures reading { IfSome reading.new (WereChecked
        (grid_calls R.Stream.contents R.Stream.remaining) (grid_of looking.entry.look)) }
    ensures writing { IfSome writing.new (λ g. WereOpened
        (grid_calls R.Stream.contents R.Stream.remaining) (grid_of looking.entry.look) g.grid) }
{
    let Line { cap, name } = line;
    let name = name.to_vec(rt.alloc())?;
    if !chooses(rt.alloc(), looking.look.names(), &name)? {
        return Ok(None);
    }
    let seen = look_at(rt, looking, &cap, reading, writing, progress);
    let came = tell_seen(rt.alloc(), looking.look, seen, &name, out, progress)?;
    Ok(Some(came))
}

// Writes the line of a file that was looked at, or tells why it was refused.
fn tell_seen<R, O, E>(
    alloc: Global,
    look: Look<'_>,
    seen: Result<Seen, Fault>,
    name: &[u8],
    out: &mut O,
    progress: &mut Progress<'_, R, E>,
) -> Result<Came, Failure>
where
    R: Clock + AllocGlobal,
    O: Write,
    E: Write + IsTerminal,
    ensures told { IfOk result (IsToldAs (task_of look.entry) seen name.now (O.contents out.old)
        (O.contents out.new)) }
    ensures undone { IfErr result IsCutOff }
{
    match seen {
        Ok(seen) => {
            let line = seen_line(alloc, look.is_json(), &seen, name)?;
            write(out, &line)?;
            Ok(Came {
                class: seen.class(),
                status: seen.status(look),
            })
        }
        Err(fault) => {
            tell_refused(alloc, name, &fault, progress)?;
            Ok(Came {
                class: fault_class(&fault),
                status: fault.status(),
            })
        }
    }
}

// Checks or repairs the file of a cap.
fn look_at<R, E>(
    rt: &R,
    looking: Looking<'_>,
    cap: &Cap,
    reading: &mut Option<OpenGrid<R>>,
    writing: &mut Option<grid_shares::OpenGrid<R>>,
    progress: &mut Progress<'_, R, E>,
) -> Result<Seen, Fault>
where
    R: Files + Net + Clock + RandomSource + Locks + AllocGlobal + Clone + Drop,
    E: Write + IsTerminal,
    requires reading { IfSome reading.old (WereChecked
        (grid_calls R.Stream.contents R.Stream.remaining) (grid_of looking.look)) }
    requires writing { IfSome writing.old (λ g. WereOpened
        (grid_calls R.Stream.contents R.Stream.remaining) (grid_of looking.look) g.grid) }
    ensures seen { IfOk result (IsSeen (grid_calls R.Stream.contents R.Stream.remaining)
        (task_of looking.entry.look) (verify_of cap.now)) }
    ensures reading { IfSome reading.new (WereChecked
        (grid_calls R.Stream.contents R.Stream.remaining) (grid_of looking.entry.look)) }
    ensures writing { IfSome writing.new (λ g. WereOpened
        (grid_calls R.Stream.contents R.Stream.remaining) (grid_of looking.entry.look) g.grid) }
{
    match looking.look {
        Look::Check(words) => check_one(rt, words, looking.is_known, cap, reading, progress),
        Look::Repair(words) => repair_one(
            rt,
            words,
            looking.is_known,
            cap,
            reading,
            writing,
            progress,
        ),
    }
}

// Checks the file of a cap.
fn check_one<R, E>(
    rt: &R,
    words: &CheckFilesWords<'_>,
    is_known: bool,
    cap: &Cap,
    reading: &mut Option<OpenGrid<R>>,
    progress: &mut Progress<'_, R, E>,
) -> Result<Seen, Fault>
where
    R: Files + Net + Clock + RandomSource + AllocGlobal + Clone + Drop,
    E: Write + IsTerminal,
    requires { IfSome reading.old (WereChecked
        (grid_calls R.Stream.contents R.Stream.remaining) words.now.grid.now) }
    ensures seen { IfOk result (IsSeen (grid_calls R.Stream.contents R.Stream.remaining)
        (checking words.now) (verify_of cap.now)) }
    ensures reading { IfSome reading.new (WereChecked
        (grid_calls R.Stream.contents R.Stream.remaining) words.now.grid.now) }
{
    let place = Place {
        grid: words.grid,
        over_sockets: words.net,
        is_known,
    };
    match check_file(rt, &place, cap, reading, progress)? {
        Some(report) => Ok(Seen::Checked(report)),
        None => Ok(Seen::Literal),
    }
}

// Repairs it.
fn repair_one<R, E>(
    rt: &R,
    words: &RepairFilesWords<'_>,
    is_known: bool,
    cap: &Cap,
    reading: &mut Option<OpenGrid<R>>,
    writing: &mut Option<grid_shares::OpenGrid<R>>,
    progress: &mut Progress<'_, R, E>,
) -> Result<Seen, Fault>
where
    R: Files + Net + Clock + RandomSource + Locks + AllocGlobal + Clone + Drop,
    E: Write + IsTerminal,
    requires reading { IfSome reading.old (WereChecked
        (grid_calls R.Stream.contents R.Stream.remaining) words.now.grid.now) }
    requires writing { IfSome writing.old (λ g. WereOpened
        (grid_calls R.Stream.contents R.Stream.remaining) words.now.grid.now g.grid) }
    ensures seen { IfOk result (IsSeen (grid_calls R.Stream.contents R.Stream.remaining)
        (repairing words.now) (verify_of cap.now)) }
    ensures reading { IfSome reading.new (WereChecked
        (grid_calls R.Stream.contents R.Stream.remaining) words.now.grid.now) }
    ensures writing { IfSome writing.new (λ g. WereOpened
        (grid_calls R.Stream.contents R.Stream.remaining) words.now.grid.now g.grid) }
{
    let repairing = Repairing {
        place: Place {
            grid: words.grid,
            over_sockets: words.net,
            is_known,
        },
        happy: words.happy,
        no_sync: words.no_sync,
        mend: words.mend,
    };
    match repair_file(rt, &repairing, cap, reading, writing, progress)? {
        Some(stored) => Ok(Seen::Repaired(stored)),
        None => Ok(Seen::Literal),
    }
}
