//! The commands of `grid`, which keeps files on a grid of servers that need not be trusted.
//!
//! `grid` takes the words of the command line and two writers, and gives the exit status. An `init`
//! marks the folders of a grid and of its servers. A `put` stores shares, in `grid_shares`, of one
//! file or of many, in `grid_lists`; a `check` and a `repair` look at those that are stored, in
//! `grid_repairs`; a `get` is one download or several, in `grid_gets`. Where these are of the files
//! of a catalogue they stand in `grid_lists` and `grid_surveys`. A `verify` compares files with
//! their caps, without servers, in `grid_surveys` too. A `scrub` reads the servers' folders, and a
//! `status` counts what is in them, in `grid_stores`; a `serve` is one server of a grid, until the
//! process is ended; `world` runs a script, whose text is read whole before anything runs.
//!
//! Which words there are stands in `grid_words`, and what is told in `grid_faults`, `grid_rules`
//! and `grid_telling`.
#![tactic(auto)]

mod cap_files;
mod elsewhere;
mod exit;
mod faults;
mod init;
mod running;
mod script;
mod serving;

ghost use Rattle.std.specs.Prelude.{◌≡◌, IfErr, IfOk, IsOkAnd, map, option_map};
ghost use Rattle.std.specs.Io.KnownBytes.{Appends};
ghost use Rattle.std.specs.IoError.{error_kind};
ghost use Rattle.grid_commands.specs.Commands.{AreCapLines, EndsByItself, IsCheckFor, IsGet};
ghost use Rattle.grid_commands.specs.Commands.{IsGetBegun, IsGetFiled, IsGetFiledOf, IsGetLeft};
ghost use Rattle.grid_commands.specs.Commands.{IsGetOf, IsRepairFor, IsRunBy, IsServedBy};
ghost use Rattle.grid_commands.specs.Commands.{IsUnwritten, IsVerifyFor};
ghost use Rattle.grid_commands.specs.Exit.{IsToldAs, unread_status};
ghost use Rattle.grid_commands.specs.Grid.{IsGridBy};
ghost use Rattle.grid_servers.specs.Grids.{grid_calls};
ghost use Rattle.sources.specs.Opened.{GivesOpened};

use crate::cap_files::{cap_text, check_words, get_words, repair_words, verify_words};
use crate::exit::{DONE, WRONG_WORDS, exit_of, report, tell_words, write, written};
use crate::serving::serve_folder;
use grid_faults::Fault;
use grid_gets::get;
pub use grid_gets::{DiskFiles, NamedFiles};
use grid_lists::{get_files, put};
use grid_repairs::{check, repair};
use grid_rules::{cap_lines, read_cap};
pub use grid_shares::Environment;
use grid_shares::Outcome;
use grid_stores::{scrub, status};
use grid_surveys::{check_files, may_verify, repair_files, verify, verify_files};
use grid_telling::{Failure, Progress};
use grid_words::{CheckWords, GetWords, RepairWords, Request, VerifyWords, read_words};
use std::alloc::Global;
use std::convert::AsStr;
use std::io::{self, IsTerminal};
use std::net::Net;
use std::random::RandomSource;
use std::rt::{Clock, Files};
pub use user_files::Locks;

/// Runs the command that `words` asks for, of which the first is the program's name. A grid that no
/// word names is that of the environment, if there is one. Its result goes to `out`, and a fault,
/// as one line with its number and name, to `err`. A `get` writes as it reads, so that a beginning
/// of its range may stand on `out` where it ends with a fault; with `-o` it goes to one of `files`,
/// and with `--caps` each file does, and nothing to `out`.
///
/// Where `err` is a terminal, a command that takes more than a second tells there how far it is,
/// and clears that line before it ends. With `-v` it tells a line of each server that serves badly.
/// A fault of these lines is passed over. Before the line of a fault stands one that tells why,
/// where there is more to tell.
///
/// | Status | Where it ended |
/// |---|---|
/// | 0 | it is done |
/// | 2 | the words are wrong |
/// | 3 | its input is refused |
/// | 4 | an upload is unhappy, or a `status` finds a server that does not stand |
/// | 5 | there are too few shares, a `check` finds so, a `scrub` damage, a `verify` another file |
/// | 6 | shares are inconsistent, or a `world` prints that its bytes do not agree |
/// | 7 | a file, a folder, a socket or memory failed, or `out` or `err` |
///
/// Where `out` fails, its result ends there.
pub fn grid<R, S, F, O, E>(
    rt: &R,
    words: &[S],
    environment: &Environment<'_>,
    files: &mut F,
    out: &mut O,
    err: &mut E,
) -> u8
where
    R: Files + io::Input + Net + Clock + RandomSource + Locks + AllocGlobal + Clone + Drop,
    S: AsStr,
    F: NamedFiles,
    O: io::Write,
    E: io::Write + IsTerminal,
    ensures { IsGridBy (GivesOpened R.File.stream_position R.File.stream_bytes R.File.remaining)
        (grid_calls R.Stream.contents R.Stream.remaining)
        (option_map (λ folder. folder.now) environment.now.grid) (map S.text words.now) result
        (O.contents out.old) (O.contents out.new) (F.acts files.old) (F.acts files.new) }
{
    match read_words(rt.alloc(), environment.grid, words) {
        Ok(request) => serve(rt, &request, environment, files, out, err),
        Err(error) => tell_words(rt.alloc(), &error, out, err),
    }
}

// Runs a command that was read, and gives the exit status.
fn serve<R, F, O, E>(
    rt: &R,
    request: &Request<'_>,
    environment: &Environment<'_>,
    files: &mut F,
    out: &mut O,
    err: &mut E,
) -> u8
where
    R: Files + io::Input + Net + Clock + RandomSource + Locks + AllocGlobal + Clone + Drop,
    F: NamedFiles,
    O: io::Write,
    E: io::Write + IsTerminal,
    ensures { IsServedBy (GivesOpened R.File.stream_position R.File.stream_bytes R.File.remaining)
        (grid_calls R.Stream.contents R.Stream.remaining) request.now result (O.contents out.old)
        (O.contents out.new) (F.acts files.old) (F.acts files.new) }
{
    match request {
        Request::Serve(words) => serve_folder(rt, words, err),
        _ => perform(rt, request, environment, files, out, err),
    }
}

// Runs a command that ends by itself, and gives the exit status.
fn perform<R, F, O, E>(
    rt: &R,
    request: &Request<'_>,
    environment: &Environment<'_>,
    files: &mut F,
    out: &mut O,
    err: &mut E,
) -> u8
where
    R: Files + io::Input + Net + Clock + RandomSource + Locks + AllocGlobal + Clone + Drop,
    F: NamedFiles,
    O: io::Write,
    E: io::Write + IsTerminal,
    requires { EndsByItself request.now }
    ensures { IsServedBy (GivesOpened R.File.stream_position R.File.stream_bytes R.File.remaining)
        (grid_calls R.Stream.contents R.Stream.remaining) request.now result (O.contents out.old)
        (O.contents out.new) (F.acts files.old) (F.acts files.new) }
{
    let mut progress = Progress::new(rt, &mut *err);
    progress.set_verbose(request.is_verbose());
    let ended = run(rt, request, environment, files, out, &mut progress);
    progress.clear();
    exit_of(rt.alloc(), ended, err)
}

/// What `grid` does where the words of the command line could not be read, and gives the same exit
/// statuses: a word that is not UTF-8 is a wrong word, and else memory was refused.
pub fn refuse_words<E: io::Write>(alloc: Global, error: &io::Error, err: &mut E) -> u8
    ensures { IsToldAs (unread_status (error_kind error.now)) result }
{
    match error.kind() {
        io::ErrorKind::InvalidData => write(err, NOT_UTF8, WRONG_WORDS),
        _ => report(alloc, err, &Fault::OutOfMemory),
    }
}

const NOT_UTF8: &[u8] = b"error: invalid UTF-8 was detected in one or more arguments\n\n\
For more information, try '--help'.\n";

// Runs a command, writes its result, and gives the exit status.
fn run<R, F, O, E>(
    rt: &R,
    request: &Request<'_>,
    environment: &Environment<'_>,
    files: &mut F,
    out: &mut O,
    progress: &mut Progress<'_, R, E>,
) -> Result<u8, Failure>
where
    R: Files + io::Input + Net + Clock + RandomSource + Locks + AllocGlobal + Clone + Drop,
    F: NamedFiles,
    O: io::Write,
    E: io::Write + IsTerminal,
    requires { EndsByItself request.now }
    ensures { IsRunBy (GivesOpened R.File.stream_position R.File.stream_bytes R.File.remaining)
        (grid_calls R.Stream.contents R.Stream.remaining) request.now result (O.contents out.old)
        (O.contents out.new) (F.acts files.old) (F.acts files.new) }
{
    match request {
        Request::Init(words) => printed(out, init::init(rt, words, progress)),
        Request::Put(words) => put(rt, words, environment, out, progress),
        Request::Get(words) => got(rt, words, environment, files, out, progress),
        Request::GetFiles(words) => get_files(rt, words, environment, files, progress),
        Request::Check(words) => told(out, checked(rt, words, environment, progress)),
        Request::CheckFiles(words) => check_files(rt, words, environment, out, progress),
        Request::Verify(words) => told(out, verified(rt, words, environment, progress)),
        Request::VerifyFiles(words) => verify_files(rt, words, environment, out, progress),
        Request::Repair(words) => told(out, repaired(rt, words, environment, progress)),
        Request::RepairFiles(words) => repair_files(rt, words, environment, out, progress),
        Request::Scrub(words) => scrub(rt, words, environment, out, progress),
        Request::Status(words) => told(out, status(rt, words, environment, progress)),
        Request::Serve(_) => unreachable!(),
        Request::World(path) => script::world(rt, path, out),
        Request::Describe(text) => printed(out, describe(rt.alloc(), text)),
    }
}

// Gets a range of the file of a cap that is a word or stands in a file, and gives the exit status.
fn got<R, F, O, E>(
    rt: &R,
    words: &GetWords<'_>,
    environment: &Environment<'_>,
    files: &mut F,
    out: &mut O,
    progress: &mut Progress<'_, R, E>,
) -> Result<u8, Failure>
where
    R: Files + io::Input + Net + Clock + RandomSource + AllocGlobal + Clone + Drop,
    F: NamedFiles,
    O: io::Write,
    E: io::Write + IsTerminal,
    ensures done { IfOk result (λ status. IsGetOf (grid_calls R.Stream.contents R.Stream.remaining)
        words.now status (O.contents out.old) (O.contents out.new)) }
    ensures undone { IfErr result (λ failure. IsGetLeft
        (grid_calls R.Stream.contents R.Stream.remaining) words.now failure (O.contents out.old)
        (O.contents out.new)) }
    ensures filed { IsGetFiledOf (grid_calls R.Stream.contents R.Stream.remaining) words.now
        result (F.acts files.old) (F.acts files.new) }
{
    let cap = cap_text(rt, words.cap, words.cap_file)?;
    let asked = get_words(words, cap.as_str());
    got_range(rt, &asked, environment, files, out, progress)
}

// Checks the file of such a cap.
fn checked<R, E>(
    rt: &R,
    words: &CheckWords<'_>,
    environment: &Environment<'_>,
    progress: &mut Progress<'_, R, E>,
) -> Result<Outcome, Fault>
where
    R: Files + io::Input + Net + Clock + RandomSource + AllocGlobal + Clone + Drop,
    E: io::Write + IsTerminal,
    ensures { IfOk result
        (IsCheckFor (grid_calls R.Stream.contents R.Stream.remaining) words.now) }
{
    let cap = cap_text(rt, words.cap, words.cap_file)?;
    let asked = check_words(words, cap.as_str());
    check(rt, &asked, environment, progress)
}

// Compares a file with such a cap.
fn verified<R, E>(
    rt: &R,
    words: &VerifyWords<'_>,
    environment: &Environment<'_>,
    progress: &mut Progress<'_, R, E>,
) -> Result<Outcome, Fault>
where
    R: Files + io::Input + Clock + RandomSource + AllocGlobal + Clone + Drop,
    E: io::Write + IsTerminal,
    ensures { IfOk result (IsVerifyFor (GivesOpened R.File.stream_position R.File.stream_bytes
        R.File.remaining) words.now) }
{
    may_verify(words, progress)?;
    let cap = cap_text(rt, words.cap, words.cap_file)?;
    let asked = verify_words(words, cap.as_str());
    verify(rt, &asked, environment, progress)
}

// Repairs the file of such a cap.
fn repaired<R, E>(
    rt: &R,
    words: &RepairWords<'_>,
    environment: &Environment<'_>,
    progress: &mut Progress<'_, R, E>,
) -> Result<Outcome, Fault>
where
    R: Files + io::Input + Net + Clock + RandomSource + Locks + AllocGlobal + Clone + Drop,
    E: io::Write + IsTerminal,
    ensures { IfOk result
        (IsRepairFor (grid_calls R.Stream.contents R.Stream.remaining) words.now) }
{
    let cap = cap_text(rt, words.cap, words.cap_file)?;
    let asked = repair_words(words, cap.as_str());
    repair(rt, &asked, environment, progress)
}

// Gets a range, and gives the exit status.
fn got_range<R, F, O, E>(
    rt: &R,
    words: &GetWords<'_>,
    environment: &Environment<'_>,
    files: &mut F,
    out: &mut O,
    progress: &mut Progress<'_, R, E>,
) -> Result<u8, Failure>
where
    R: Files + Net + Clock + RandomSource + AllocGlobal + Clone + Drop,
    F: NamedFiles,
    O: io::Write,
    E: io::Write + IsTerminal,
    ensures done { IfOk result (λ status. IsGet (grid_calls R.Stream.contents R.Stream.remaining)
        words.now status (O.contents out.old) (O.contents out.new)) }
    ensures undone { IfErr result (λ failure. IsGetBegun
        (grid_calls R.Stream.contents R.Stream.remaining) words.now words.now.output failure
        (O.contents out.old) (O.contents out.new)) }
    ensures filed { IsGetFiled (grid_calls R.Stream.contents R.Stream.remaining) words.now
        words.now.output result (F.acts files.old) (F.acts files.new) }
{
    let is_known = words.known || environment.known;
    match get(rt, words, is_known, files, out, progress) {
        Ok(()) => Ok(DONE),
        Err(failure) => Err(failure),
    }
}

// Writes what a command came to, and gives the exit status.
fn told<O: io::Write>(out: &mut O, outcome: Result<Outcome, Fault>) -> Result<u8, Failure>
    ensures done { IfOk result (λ status. IsOkAnd outcome (λ told. (status ≡ told.status)
        × Appends (O.contents out.old) (O.contents out.new) told.text.items)) }
    ensures undone { IfErr result
        (λ failure. IsUnwritten failure (O.contents out.old) (O.contents out.new)) }
{
    let outcome = outcome?;
    written(out, &outcome.text, outcome.status)
}

// Writes lines, and gives the exit status.
fn printed<O: io::Write>(out: &mut O, lines: Result<Vec<u8>, Fault>) -> Result<u8, Failure>
    ensures done { IfOk result (λ status. IsOkAnd lines (λ told. (status ≡ 0)
        × Appends (O.contents out.old) (O.contents out.new) told.items)) }
    ensures undone { IfErr result
        (λ failure. IsUnwritten failure (O.contents out.old) (O.contents out.new)) }
{
    let lines = lines?;
    written(out, &lines, DONE)
}

// The lines that tell what the cap says that this text spells.
fn describe(alloc: Global, text: &str) -> Result<Vec<u8>, Fault>
    ensures { IfOk result (λ lines. AreCapLines text.now lines.items) }
{
    let cap = read_cap(text)?;
    Ok(cap_lines(alloc, &cap)?.into_bytes())
}
