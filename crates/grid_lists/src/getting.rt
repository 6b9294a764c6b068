//! `grid get` of the files of a catalogue.

ghost use Rattle.std.specs.Prelude.{◌≡◌, ◌==◌, ◌⊎◌, ◌<◌, ◌&&◌, ◌||◌, IfErr, IfOk, IfSome, IsOk};
ghost use Rattle.std.specs.Prelude.{OnErr, OnOk, if◌then◌else◌, is_some, length, not, unwrap_or};
ghost use Rattle.grid_faults.specs.declared.fault.Fault.TheVariants.{OutOfMemory};
ghost use Rattle.grid_gets.specs.Gets.{WereRead};
ghost use Rattle.grid_lists.specs.GetEnds.{CameOf, CameOfChosen, IsWritten, MayBeWritten};
ghost use Rattle.grid_lists.specs.Gets.{AreGottenFrom, IsGetFiles};
ghost use Rattle.grid_lists.specs.Statuses.{status_after, unread_status};
ghost use Rattle.grid_servers.specs.Grids.{grid_calls};
ghost use Rattle.grid_telling.specs.declared.outcome.Failure.TheVariants as failures;

use crate::below::{make_folder, make_way, may_write, path_in, text_of};
use crate::listed::{tell_misnamed, tell_refused, tell_unfound, tell_unread};
use crate::names::read_text;
use crate::statuses::{DONE, UNREAD, status_after};
use cap_text::Cap;
use catalogues::{Catalogue, Line, chooses, entry_count, name_below};
use grid_faults::Fault;
use grid_gets::{NamedFiles, OpenGrid, Place, get_file};
use grid_marks::{is_grid, known_grid};
use grid_shares::Environment;
use grid_telling::{Failure, Progress};
use grid_words::GetFilesWords;
use std::alloc::AllocError;
use std::io::{self, IsTerminal, Write};
use std::net::Net;
use std::random::RandomSource;
use std::rt::{Clock, Files};

/// Gets the files of a catalogue that are chosen, each below a folder under its name, and gives the
/// exit status. What is no line of a catalogue is told by its number, and ends it. A file that is
/// refused is told, with its name, and the others go on; so is a name that leads to no file below a
/// folder. The status is the first that is not 0. An `Err` that is not for want of memory did
/// nothing.
pub fn get_files<R, F, E>(
    rt: &R,
    words: &GetFilesWords<'_>,
    environment: &Environment<'_>,
    files: &mut F,
    progress: &mut Progress<'_, R, E>,
) -> Result<u8, Failure>
where
    R: Files + io::Input + Net + Clock + RandomSource + AllocGlobal + Clone + Drop,
    F: NamedFiles,
    E: Write + IsTerminal,
    ensures done { IfOk result (λ status. IsGetFiles
        (grid_calls R.Stream.contents R.Stream.remaining) words.now status (F.acts files.old)
        (F.acts files.new)) }
    ensures undone { IfErr result (λ failure. (failure ≡ failures.Fault OutOfMemory)
        ⊎ (F.acts files.new ≡ F.acts files.old)) }
{
    let text = read_text(rt, words.caps, environment.temporary)?;
    match Catalogue::open(&text) {
        Ok(catalogue) => {
            begin(rt, words, words.known || environment.known)?;
            begin_entries(&text, progress);
            Ok(get_lines(rt, words, catalogue, files, progress)?)
        }
        Err(error) => {
            tell_unread(rt.alloc(), error, progress)?;
            Ok(UNREAD)
        }
    }
}

/// The files of a catalogue are done from now on, whose number is told as they are. Nothing is told
/// of all of them where one of its lines is none.
pub fn begin_entries<R, E>(text: &[u8], progress: &mut Progress<'_, R, E>)
where
    R: Clock + AllocGlobal,
    E: Write + IsTerminal,
{
    if let Ok(count) = entry_count(text) {
        progress.begin_files(count);
    }
}

// Refuses what is no grid, and where only one that is marked is wanted, another. Has the folder
// stand into which files are got.
fn begin<R>(rt: &R, words: &GetFilesWords<'_>, is_known: bool) -> Result<(), Fault>
where
    R: Files + AllocGlobal + Clone + Drop,
{
    find_grid(rt, words.grid, is_known)?;
    make_folder(rt, words.into)
}

/// Refuses what is no grid, and where only one that is marked is wanted, another.
pub fn find_grid<R>(rt: &R, grid: &str, is_known: bool) -> Result<(), Fault>
where
    R: Files + AllocGlobal + Clone + Drop,
    ensures named { IsOk result → 0 < length grid.now }
{
    is_grid(rt, grid)?;
    if is_known {
        known_grid(rt, grid)?;
    }
    Ok(())
}

// Gets the files of the lines that are left.
fn get_lines<'a, R, F, E>(
    rt: &'a R,
    words: &'a GetFilesWords<'a>,
    mut catalogue: Catalogue<'_>,
    files: &mut F,
    progress: &mut Progress<'_, R, E>,
) -> Result<u8, AllocError>
where
    R: Files + Net + Clock + RandomSource + AllocGlobal + Clone + Drop,
    F: NamedFiles,
    E: Write + IsTerminal,
    ensures { IfOk result (λ status. AreGottenFrom
        (grid_calls R.Stream.contents R.Stream.remaining) words.now catalogue.entry.left status
        (F.acts files.old) (F.acts files.new)) }
{
    let mut kept = None;
    let mut tally = NO_LINES;
    loop {
        match catalogue.next_line() {
            Ok(Some(line)) => {
                let came = get_line(rt, words, line, &mut kept, files, progress)?;
                tally = tally.after(came);
                progress.end_file();
            }
            Ok(None) => return Ok(end(words, tally, progress)),
            Err(error) => {
                tell_unread(rt.alloc(), error, progress)?;
                return Ok(end(words, tally.after_no_line(), progress));
            }
        }
    }
}

// The status of the lines so far, and whether one of their files was chosen.
#[derive(Clone, Copy)]
struct Tally {
    status: u8,
    is_found: bool,
}

const NO_LINES: Tally = Tally {
    status: DONE,
    is_found: false,
};

impl Tally {
    // With one line more, whose file has this status if it was chosen.
    fn after(self, came: Option<u8>) -> Tally
        ensures status { result.status ≡ status_after self.status (unwrap_or came 0) }
        ensures found { result.is_found ≡ (self.is_found || is_some came) }
    {
        Tally {
            status: status_after(self.status, came.unwrap_or(DONE)),
            is_found: self.is_found || came.is_some(),
        }
    }

    // Where what follows is no line.
    fn after_no_line(self) -> Tally
        ensures status { result.status ≡ status_after self.status unread_status }
        ensures found { result.is_found ≡ self.is_found }
    {
        Tally {
            status: status_after(self.status, UNREAD),
            is_found: self.is_found,
        }
    }
}

// The status behind all lines. Where names were asked for and no file was found, that is told.
fn end<R, E>(words: &GetFilesWords<'_>, tally: Tally, progress: &mut Progress<'_, R, E>) -> u8
where
    R: Clock + AllocGlobal,
    E: Write + IsTerminal,
    ensures { result ≡ status_after tally.status
        (if not (length words.now.names.items == 0) && not tally.is_found
        then unread_status else 0) }
{
    if words.names.is_empty() || tally.is_found {
        return status_after(tally.status, DONE);
    }
    tell_unfound(progress);
    status_after(tally.status, UNREAD)
}

// Gets the file of a line where its name is chosen, and gives its status then.
fn get_line<'a, R, F, E>(
    rt: &'a R,
    words: &'a GetFilesWords<'a>,
    line: Line<'_>,
    kept: &mut Option<OpenGrid<'a, R>>,
    files: &mut F,
    progress: &mut Progress<'_, R, E>,
) -> Result<Option<u8>, AllocError>
where
    R: Files + Net + Clock + RandomSource + AllocGlobal + Clone + Drop,
    F: NamedFiles,
    E: Write + IsTerminal,
    requires { IfSome kept.old
        (WereRead (grid_calls R.Stream.contents R.Stream.remaining) words.now.grid.now) }
    ensures came { IfOk result (CameOf (grid_calls R.Stream.contents R.Stream.remaining) words.now
        line.entry.cap line.entry.name (F.acts files.old) (F.acts files.new)) }
    ensures kept { IfSome kept.new
        (WereRead (grid_calls R.Stream.contents R.Stream.remaining) words.now.grid.now) }
{
    let Line { cap, name } = line;
    let name = name.to_vec(rt.alloc())?;
    if !chooses(rt.alloc(), words.names.as_slice(), &name)? {
        return Ok(None);
    }
    Ok(Some(get_chosen(rt, words, cap, &name, kept, files, progress)?))
}

// Gets the file of a cap under a name that is chosen, or tells why it is refused. Gives its status.
fn get_chosen<'a, R, F, E>(
    rt: &'a R,
    words: &'a GetFilesWords<'a>,
    cap: Cap,
    name: &[u8],
    kept: &mut Option<OpenGrid<'a, R>>,
    files: &mut F,
    progress: &mut Progress<'_, R, E>,
) -> Result<u8, AllocError>
where
    R: Files + Net + Clock + RandomSource + AllocGlobal + Clone + Drop,
    F: NamedFiles,
    E: Write + IsTerminal,
    requires { IfSome kept.old
        (WereRead (grid_calls R.Stream.contents R.Stream.remaining) words.now.grid.now) }
    ensures came { IfOk result (CameOfChosen (grid_calls R.Stream.contents R.Stream.remaining)
        words.now cap name.now (F.acts files.old) (F.acts files.new)) }
    ensures kept { IfSome kept.new
        (WereRead (grid_calls R.Stream.contents R.Stream.remaining) words.now.grid.now) }
{
    match name_below(name) {
        Ok(rest) => match get_below(rt, words, cap, rest, kept, files, progress) {
            Ok(()) => Ok(DONE),
            Err(fault) => {
                tell_refused(rt.alloc(), name, &fault, progress)?;
                Ok(fault.status())
            }
        },
        Err(error) => {
            tell_misnamed(rt.alloc(), name, error, progress)?;
            Ok(UNREAD)
        }
    }
}

// Gets the file of a cap under a name below the folder.
fn get_below<'a, R, F, E>(
    rt: &'a R,
    words: &'a GetFilesWords<'a>,
    cap: Cap,
    name: &[u8],
    kept: &mut Option<OpenGrid<'a, R>>,
    files: &mut F,
    progress: &mut Progress<'_, R, E>,
) -> Result<(), Fault>
where
    R: Files + Net + Clock + RandomSource + AllocGlobal + Clone + Drop,
    F: NamedFiles,
    E: Write + IsTerminal,
    requires { IfSome kept.old
        (WereRead (grid_calls R.Stream.contents R.Stream.remaining) words.now.grid.now) }
    ensures ok { OnOk result (IsWritten (grid_calls R.Stream.contents R.Stream.remaining) words.now
        cap name.now (F.acts files.old) (F.acts files.new)) }
    ensures err { OnErr result (MayBeWritten (grid_calls R.Stream.contents R.Stream.remaining)
        words.now cap name.now (F.acts files.old) (F.acts files.new)) }
    ensures kept { IfSome kept.new
        (WereRead (grid_calls R.Stream.contents R.Stream.remaining) words.now.grid.now) }
{
    let name = text_of(rt.alloc(), name)?;
    let path = path_in(rt.alloc(), words.into, name)?;
    make_way(rt, words.into, name)?;
    may_write(rt, path.as_str(), words.overwrite)?;
    let place = Place {
        grid: words.grid,
        over_sockets: words.net,
    };
    match get_file(rt, &place, cap, path.as_str(), kept, files, progress) {
        Ok(()) => Ok(()),
        Err(failure) => Err(fault_of(failure)),
    }
}

// The fault of a file that was not got.
fn fault_of(failure: Failure) -> Fault {
    match failure {
        Failure::Fault(fault) => fault,
        Failure::Writer => Fault::Output,
    }
}
