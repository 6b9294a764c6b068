//! `grid put` of one file or of many.

ghost use Rattle.std.specs.Prelude.{◌≡◌, ◌⊎◌, ◌++◌, ℕ, Bool, List, IfErr, IfOk, IfSome, Some};
ghost use Rattle.std.specs.Prelude.{is_some, map, true};
ghost use Rattle.std.specs.Io.KnownBytes.{Appends};
ghost use Rattle.catalogues.specs.Catalogues.{IsEntry};
ghost use Rattle.catalogues.specs.Heads.{first_text};
ghost use Rattle.catalogues.specs.Lines.{line_text};
ghost use Rattle.catalogues.specs.Names.{IsName};
ghost use Rattle.sources.specs.Opened.{GivesOpened};
ghost use Rattle.grid_servers.specs.Grids.{grid_calls};
ghost use Rattle.grid_shares.specs.Puts.{AreChoicesBy, IsPutBy, put_status, said_by};
ghost use Rattle.grid_shares.specs.Standing.{WereOpened};
ghost use Rattle.grid_lists.specs.Ends.{AreListedBefore, IsCutShort, IsListed, IsManyCutOff};
ghost use Rattle.grid_lists.specs.Puts.{AreListed, IsHeadBy, IsPutDone, IsPutMany, IsPutOne};
ghost use Rattle.grid_lists.specs.Puts.{IsPutByWays, IsPutCutOff, IsPutUndone, is_one, is_unsaid};
ghost use Rattle.grid_lists.specs.Since.{IsSince};

use crate::beginning::{Begun, begin_list, input_twice};
use crate::listed::{may_be_listed, path_of, tell_refused, tell_unread, write_line, write_text};
use crate::names::{end_of, names_in, read_list};
use crate::since::{Earlier, kept_cap, read_since, tell_since};
use crate::statuses::{DONE, UNREAD, status_after};
use cap_text::Cap;
use catalogues::{CatalogueError, Head, Known};
use grid_faults::Fault;
use grid_shares::{Choices, Environment, OpenGrid, PutFile, put_file, read_choices, words_by_ways};
use grid_telling::{Failure, Progress, print};
use grid_words::{ListWords, PutWords};
use std::alloc::{AllocError, Global};
use std::io::{self, IsTerminal, Write};
use std::net::Net;
use std::random::RandomSource;
use std::rt::{Clock, Files};
use user_files::Locks;

// What files are stored by.
#[derive(Clone, Copy)]
struct Storing<'a> {
    words: &'a PutWords<'a>,
    choices: &'a Choices,
    environment: &'a Environment<'a>,
    // What is known of the catalogue of which lines are kept, and the first line of the new one.
    since: &'a Option<Known>,
    head: &'a Head,
}

/// Stores the files of these words, and gives the exit status. Of one file its cap and its
/// happiness are written. Of several, or of a list, or where an earlier catalogue is named, a
/// catalogue is: its first line, and then that of each file, as soon as it is stored. The line that
/// the earlier one has for a file is kept, and the file is not read, where it has not changed since
/// that one was begun; where its text is none, nothing is written. A file that is refused is told,
/// with its name, and the others go on; the status is the first that is not 0.
///
/// Numbers that the words do not write are those of the grid's ways, or else the usual ones. A
/// fault of these ways (`grid_ways`) comes before all others.
///
/// Where it ends with a fault nothing was written; or memory was refused at one of several files,
/// and the catalogue of those before it was. Where the writer fails, nothing is known of what it
/// has.
pub fn put<R, O, E>(
    rt: &R,
    words: &PutWords<'_>,
    environment: &Environment<'_>,
    out: &mut O,
    progress: &mut Progress<'_, R, E>,
) -> Result<u8, Failure>
where
    R: Files + io::Input + Net + Clock + RandomSource + Locks + AllocGlobal + Clone + Drop,
    O: Write,
    E: Write + IsTerminal,
    ensures done { IfOk result (λ status. IsPutByWays (GivesOpened R.File.stream_position
        R.File.stream_bytes R.File.remaining) (grid_calls R.Stream.contents R.Stream.remaining)
        words.now status (O.contents out.old) (O.contents out.new)) }
    ensures undone { IfErr result (λ failure. IsPutUndone (GivesOpened R.File.stream_position
        R.File.stream_bytes R.File.remaining) (grid_calls R.Stream.contents R.Stream.remaining)
        words.now failure (O.contents out.old) (O.contents out.new)) }
{
    match words_by_ways(rt, words) {
        Ok(asked) => put_asked(rt, &asked, environment, out, progress),
        Err(fault) => Err(Failure::Fault(fault)),
    }
}

// Stores the files of words that have the numbers of the grid's ways.
fn put_asked<R, O, E>(
    rt: &R,
    words: &PutWords<'_>,
    environment: &Environment<'_>,
    out: &mut O,
    progress: &mut Progress<'_, R, E>,
) -> Result<u8, Failure>
where
    R: Files + io::Input + Net + Clock + RandomSource + Locks + AllocGlobal + Clone + Drop,
    O: Write,
    E: Write + IsTerminal,
    ensures done { IfOk result (λ status. IsPutDone (GivesOpened R.File.stream_position
        R.File.stream_bytes R.File.remaining) (grid_calls R.Stream.contents R.Stream.remaining)
        words.now status (O.contents out.old) (O.contents out.new)) }
    ensures undone { IfErr result (λ failure. IsPutCutOff (GivesOpened R.File.stream_position
        R.File.stream_bytes R.File.remaining) (grid_calls R.Stream.contents R.Stream.remaining)
        words.now failure (O.contents out.old) (O.contents out.new)) }
{
    match only_file(words) {
        Some(path) => put_one(rt, words, path, environment, out, progress),
        None => put_list(rt, words, environment, out, progress),
    }
}

// The file of these words, if they name one, and no list or catalogue.
fn only_file<'a>(words: &PutWords<'a>) -> Option<&'a str>
    ensures { is_some result ≡ is_one words.now }
{
    let files = words.files.as_slice();
    if files.len() == 1 && is_unsaid(&words.list) && words.since.is_none() {
        Some(files[0])
    } else {
        None
    }
}

fn is_unsaid(list: &ListWords<'_>) -> bool
    ensures { result ≡ is_unsaid list.now }
{
    matches!(list, ListWords::Unsaid)
}

// Stores a file that is the only one.
fn put_one<R, O, E>(
    rt: &R,
    words: &PutWords<'_>,
    path: &str,
    environment: &Environment<'_>,
    out: &mut O,
    progress: &mut Progress<'_, R, E>,
) -> Result<u8, Failure>
where
    R: Files + io::Input + Net + Clock + RandomSource + Locks + AllocGlobal + Clone + Drop,
    O: Write,
    E: Write + IsTerminal,
    ensures done { IfOk result (λ status. IsPutOne (GivesOpened R.File.stream_position
        R.File.stream_bytes R.File.remaining) (grid_calls R.Stream.contents R.Stream.remaining)
        words.now status (O.contents out.old) (O.contents out.new)) }
    ensures undone { IfErr result (λ failure. (failure ≡ Failure.Writer)
        ⊎ (O.contents out.new ≡ O.contents out.old)) }
{
    let outcome = grid_shares::put(rt, words, path, environment, progress)?;
    match print(out, &outcome.text) {
        Ok(()) => Ok(outcome.status),
        Err(_) => Err(Failure::Writer),
    }
}

// Stores several files, or those of a list. What may not be, and a fault of the grid's folder, of
// the list or of the catalogue of which lines are to be kept, end it before the first line.
fn put_list<R, O, E>(
    rt: &R,
    words: &PutWords<'_>,
    environment: &Environment<'_>,
    out: &mut O,
    progress: &mut Progress<'_, R, E>,
) -> Result<u8, Failure>
where
    R: Files + io::Input + Net + Clock + RandomSource + Locks + AllocGlobal + Clone + Drop,
    O: Write,
    E: Write + IsTerminal,
    ensures done { IfOk result (λ status. IsPutMany (GivesOpened R.File.stream_position
        R.File.stream_bytes R.File.remaining) (grid_calls R.Stream.contents R.Stream.remaining)
        words.now status (O.contents out.old) (O.contents out.new)) }
    ensures undone { IfErr result (λ failure. IsManyCutOff (GivesOpened R.File.stream_position
        R.File.stream_bytes R.File.remaining) (grid_calls R.Stream.contents R.Stream.remaining)
        words.now failure (O.contents out.old) (O.contents out.new)) }
{
    let choices = read_choices(rt, words, environment, progress)?;
    if let Some(told) = input_twice(words) {
        progress.tell(told);
        return Err(Failure::Fault(Fault::BadParameters));
    }
    let begun = begin_list(rt, words, &choices, words.known || environment.known)?;
    put_begun(rt, words, environment, &begun, out, progress)
}

// The same in a grid that may be put to: reads the list, and the catalogue of which lines are to be
// kept. Where that is none it is told, and nothing is written.
fn put_begun<R, O, E>(
    rt: &R,
    words: &PutWords<'_>,
    environment: &Environment<'_>,
    begun: &Begun,
    out: &mut O,
    progress: &mut Progress<'_, R, E>,
) -> Result<u8, Failure>
where
    R: Files + io::Input + Net + Clock + RandomSource + Locks + AllocGlobal + Clone + Drop,
    O: Write,
    E: Write + IsTerminal,
    requires choices { AreChoicesBy words.now begun.now.choices }
    requires line { (secret : List ℕ) × (said_by begun.now.choices ≡ Some secret)
        × IsHeadBy words.now secret begun.now.head
        × (begun.now.line.items ≡ first_text begun.now.head) }
    ensures done { IfOk result (λ status. IsPutMany (GivesOpened R.File.stream_position
        R.File.stream_bytes R.File.remaining) (grid_calls R.Stream.contents R.Stream.remaining)
        words.now status (O.contents out.old) (O.contents out.new)) }
    ensures undone { IfErr result (λ failure. IsManyCutOff (GivesOpened R.File.stream_position
        R.File.stream_bytes R.File.remaining) (grid_calls R.Stream.contents R.Stream.remaining)
        words.now failure (O.contents out.old) (O.contents out.new)) }
{
    let list = read_list(rt, &words.list, environment.temporary)?;
    match read_since(rt, words, environment.temporary)? {
        Earlier::Told(since) => {
            put_since(rt, words, environment, begun, &since, &list, out, progress)
        }
        Earlier::Unread => {
            tell_unread(rt.alloc(), CatalogueError::NotACatalogue, progress)?;
            Ok(UNREAD)
        }
    }
}

// The same with a list's text, and what is known of the catalogue.
fn put_since<R, O, E>(
    rt: &R,
    words: &PutWords<'_>,
    environment: &Environment<'_>,
    begun: &Begun,
    since: &Option<Known>,
    list: &[u8],
    out: &mut O,
    progress: &mut Progress<'_, R, E>,
) -> Result<u8, Failure>
where
    R: Files + io::Input + Net + Clock + RandomSource + Locks + AllocGlobal + Clone + Drop,
    O: Write,
    E: Write + IsTerminal,
    requires choices { AreChoicesBy words.now begun.now.choices }
    requires line { (secret : List ℕ) × (said_by begun.now.choices ≡ Some secret)
        × IsHeadBy words.now secret begun.now.head
        × (begun.now.line.items ≡ first_text begun.now.head) }
    requires since { IsSince words.now since.now }
    ensures done { IfOk result (λ status. IsPutMany (GivesOpened R.File.stream_position
        R.File.stream_bytes R.File.remaining) (grid_calls R.Stream.contents R.Stream.remaining)
        words.now status (O.contents out.old) (O.contents out.new)) }
    ensures undone { IfErr result (λ failure. IsManyCutOff (GivesOpened R.File.stream_position
        R.File.stream_bytes R.File.remaining) (grid_calls R.Stream.contents R.Stream.remaining)
        words.now failure (O.contents out.old) (O.contents out.new)) }
{
    tell_since(rt.alloc(), since, &begun.head, progress)?;
    let storing = Storing {
        words,
        choices: &begun.choices,
        environment,
        since,
        head: &begun.head,
    };
    put_listed(rt, &storing, &begun.line, list, out, progress)
}

// Writes the first line, and stores the files: those of words, and those of the list's text.
fn put_listed<R, O, E>(
    rt: &R,
    storing: &Storing<'_>,
    line: &[u8],
    text: &[u8],
    out: &mut O,
    progress: &mut Progress<'_, R, E>,
) -> Result<u8, Failure>
where
    R: Files + io::Input + Net + Clock + RandomSource + Locks + AllocGlobal + Clone + Drop,
    O: Write,
    E: Write + IsTerminal,
    requires choices { AreChoicesBy storing.now.words.now storing.now.choices.now }
    requires line { (secret : List ℕ) × (said_by storing.now.choices.now ≡ Some secret)
        × IsHeadBy storing.now.words.now secret storing.now.head.now
        × (line.now ≡ first_text storing.now.head.now) }
    requires since { IsSince storing.now.words.now storing.now.since.now }
    ensures done { IfOk result (λ status. IsPutMany (GivesOpened R.File.stream_position
        R.File.stream_bytes R.File.remaining) (grid_calls R.Stream.contents R.Stream.remaining)
        storing.now.words.now status (O.contents out.old) (O.contents out.new)) }
    ensures undone { IfErr result (λ failure. IsManyCutOff (GivesOpened R.File.stream_position
        R.File.stream_bytes R.File.remaining) (grid_calls R.Stream.contents R.Stream.remaining)
        storing.now.words.now failure (O.contents out.old) (O.contents out.new)) }
{
    let words = storing.words;
    let files = bytes_of(rt.alloc(), words.files.as_slice())?;
    let names = names_in(rt.alloc(), text, end_of(&words.list))?;
    write_text(out, line)?;
    put_both(
        rt,
        storing,
        files.as_slice(),
        names.as_slice(),
        out,
        progress,
    )
}

// Stores the files of these names, among which `-` is standard input, and then those of others.
fn put_both<R, O, E>(
    rt: &R,
    storing: &Storing<'_>,
    files: &[&[u8]],
    names: &[&[u8]],
    out: &mut O,
    progress: &mut Progress<'_, R, E>,
) -> Result<u8, Failure>
where
    R: Files + io::Input + Net + Clock + RandomSource + Locks + AllocGlobal + Clone + Drop,
    O: Write,
    E: Write + IsTerminal,
    requires { AreChoicesBy storing.now.words.now storing.now.choices.now }
    ensures listed { IfOk result (λ status. AreListed (GivesOpened R.File.stream_position
        R.File.stream_bytes R.File.remaining) (grid_calls R.Stream.contents R.Stream.remaining)
        storing.now.words.now (said_by storing.now.choices.now) storing.now.since.now
        storing.now.head.now (map (λ f. f.now) files.now ++ map (λ n. n.now) names.now) 0 status
        (O.contents out.old) (O.contents out.new)) }
    ensures undone { IfErr result (λ failure. IsCutShort failure (AreListedBefore (GivesOpened
        R.File.stream_position R.File.stream_bytes R.File.remaining)
        (grid_calls R.Stream.contents R.Stream.remaining) storing.now.words.now
        (said_by storing.now.choices.now) storing.now.since.now storing.now.head.now
        (map (λ f. f.now) files.now ++ map (λ n. n.now) names.now) (O.contents out.old)
        (O.contents out.new))) }
{
    let mut kept = None;
    progress.begin_files((files.len() as u64).saturating_add(names.len() as u64));
    let status = put_names(rt, storing, files, true, DONE, &mut kept, out, progress)?;
    put_names(rt, storing, names, false, status, &mut kept, out, progress)
}

// Stores the files of these names one after the other, behind others that came to this status. The
// servers stay open from one to the next.
fn put_names<R, O, E>(
    rt: &R,
    storing: &Storing<'_>,
    names: &[&[u8]],
    has_input: bool,
    first: u8,
    kept: &mut Option<OpenGrid<R>>,
    out: &mut O,
    progress: &mut Progress<'_, R, E>,
) -> Result<u8, Failure>
where
    R: Files + io::Input + Net + Clock + RandomSource + Locks + AllocGlobal + Clone + Drop,
    O: Write,
    E: Write + IsTerminal,
    requires choices { AreChoicesBy storing.now.words.now storing.now.choices.now }
    requires kept { IfSome kept.old (λ g. WereOpened
        (grid_calls R.Stream.contents R.Stream.remaining) storing.now.words.now.grid.now g.grid) }
    ensures listed { IfOk result (λ status. AreListed (GivesOpened R.File.stream_position
        R.File.stream_bytes R.File.remaining) (grid_calls R.Stream.contents R.Stream.remaining)
        storing.now.words.now (said_by storing.now.choices.now) storing.now.since.now
        storing.now.head.now (map (λ n. n.now) names.now) first status (O.contents out.old)
        (O.contents out.new)) }
    ensures undone { IfErr result (λ failure. IsCutShort failure (AreListedBefore (GivesOpened
        R.File.stream_position R.File.stream_bytes R.File.remaining)
        (grid_calls R.Stream.contents R.Stream.remaining) storing.now.words.now
        (said_by storing.now.choices.now) storing.now.since.now storing.now.head.now
        (map (λ n. n.now) names.now) (O.contents out.old) (O.contents out.new))) }
    ensures kept { IfSome kept.new (λ g. WereOpened
        (grid_calls R.Stream.contents R.Stream.remaining) storing.now.words.now.grid.now g.grid) }
{
    let mut status = first;
    for name in names {
        let own = put_name(rt, storing, *name, has_input, kept, out, progress)?;
        status = status_after(status, own);
        progress.end_file();
    }
    Ok(status)
}

// Writes the line of the file of a name, which is kept or stored, or tells why it is refused. Gives
// its status.
fn put_name<R, O, E>(
    rt: &R,
    storing: &Storing<'_>,
    name: &[u8],
    has_input: bool,
    kept: &mut Option<OpenGrid<R>>,
    out: &mut O,
    progress: &mut Progress<'_, R, E>,
) -> Result<u8, Failure>
where
    R: Files + io::Input + Net + Clock + RandomSource + Locks + AllocGlobal + Clone + Drop,
    O: Write,
    E: Write + IsTerminal,
    requires choices { AreChoicesBy storing.now.words.now storing.now.choices.now }
    requires kept { IfSome kept.old (λ g. WereOpened
        (grid_calls R.Stream.contents R.Stream.remaining) storing.now.words.now.grid.now g.grid) }
    ensures listed { IfOk result (λ status. IsListed (GivesOpened R.File.stream_position
        R.File.stream_bytes R.File.remaining) (grid_calls R.Stream.contents R.Stream.remaining)
        storing.now.words.now (said_by storing.now.choices.now) storing.now.since.now
        storing.now.head.now name.now status (O.contents out.old) (O.contents out.new)) }
    ensures undone { IfErr result
        (λ failure. IsCutShort failure (O.contents out.new ≡ O.contents out.old)) }
    ensures kept { IfSome kept.new (λ g. WereOpened
        (grid_calls R.Stream.contents R.Stream.remaining) storing.now.words.now.grid.now g.grid) }
{
    if let Some(cap) = kept_cap(rt, storing.since, storing.head, name, has_input) {
        return write_kept(rt.alloc(), &cap, name, out);
    }
    put_anew(rt, storing, name, has_input, kept, out, progress)
}

// Writes the line of a file that is kept, and gives its status.
fn write_kept<O: Write>(alloc: Global, cap: &Cap, name: &[u8], out: &mut O) -> Result<u8, Failure>
    requires { IsName name.now }
    ensures entry { IfOk result (λ _. IsEntry (record { cap = cap.now; name = name.now })) }
    ensures status { IfOk result (λ status. status ≡ 0) }
    ensures written { IfOk result (λ _. Appends (O.contents out.old) (O.contents out.new)
        (line_text cap.now name.now)) }
    ensures undone { IfErr result
        (λ failure. IsCutShort failure (O.contents out.new ≡ O.contents out.old)) }
{
    write_line(alloc, cap, name, out)?;
    Ok(DONE)
}

// Writes the line of a file that was stored, and gives its status.
fn write_stored<O: Write>(
    alloc: Global,
    file: &PutFile,
    name: &[u8],
    out: &mut O,
) -> Result<u8, Failure>
    requires { IsName name.now }
    ensures entry { IfOk result
        (λ _. IsEntry (record { cap = file.now.cap; name = name.now })) }
    ensures status { IfOk result (λ status. status ≡ put_status file.now) }
    ensures written { IfOk result (λ _. Appends (O.contents out.old) (O.contents out.new)
        (line_text file.now.cap name.now)) }
    ensures undone { IfErr result
        (λ failure. IsCutShort failure (O.contents out.new ≡ O.contents out.old)) }
{
    write_line(alloc, &file.cap, name, out)?;
    Ok(file.status())
}

// Stores the file of a name and writes its line, or tells why it is refused. Gives its status.
fn put_anew<R, O, E>(
    rt: &R,
    storing: &Storing<'_>,
    name: &[u8],
    has_input: bool,
    kept: &mut Option<OpenGrid<R>>,
    out: &mut O,
    progress: &mut Progress<'_, R, E>,
) -> Result<u8, Failure>
where
    R: Files + io::Input + Net + Clock + RandomSource + Locks + AllocGlobal + Clone + Drop,
    O: Write,
    E: Write + IsTerminal,
    requires choices { AreChoicesBy storing.now.words.now storing.now.choices.now }
    requires kept { IfSome kept.old (λ g. WereOpened
        (grid_calls R.Stream.contents R.Stream.remaining) storing.now.words.now.grid.now g.grid) }
    ensures listed { IfOk result (λ status. IsListed (GivesOpened R.File.stream_position
        R.File.stream_bytes R.File.remaining) (grid_calls R.Stream.contents R.Stream.remaining)
        storing.now.words.now (said_by storing.now.choices.now) storing.now.since.now
        storing.now.head.now name.now status (O.contents out.old) (O.contents out.new)) }
    ensures undone { IfErr result
        (λ failure. IsCutShort failure (O.contents out.new ≡ O.contents out.old)) }
    ensures kept { IfSome kept.new (λ g. WereOpened
        (grid_calls R.Stream.contents R.Stream.remaining) storing.now.words.now.grid.now g.grid) }
{
    match put_named(rt, storing, name, has_input, kept, progress) {
        Ok(file) => write_stored(rt.alloc(), &file, name, out),
        Err(fault) => {
            tell_refused(rt.alloc(), name, &fault, progress)?;
            Ok(fault.status())
        }
    }
}

// Stores the file of a name.
fn put_named<R, E>(
    rt: &R,
    storing: &Storing<'_>,
    name: &[u8],
    has_input: bool,
    kept: &mut Option<OpenGrid<R>>,
    progress: &mut Progress<'_, R, E>,
) -> Result<PutFile, Fault>
where
    R: Files + io::Input + Net + Clock + RandomSource + Locks + AllocGlobal + Clone + Drop,
    E: Write + IsTerminal,
    requires choices { AreChoicesBy storing.now.words.now storing.now.choices.now }
    requires kept { IfSome kept.old (λ g. WereOpened
        (grid_calls R.Stream.contents R.Stream.remaining) storing.now.words.now.grid.now g.grid) }
    ensures put { IfOk result (λ file. (was_open : Bool) × IsPutBy (GivesOpened
        R.File.stream_position R.File.stream_bytes R.File.remaining)
        (grid_calls R.Stream.contents R.Stream.remaining) storing.now.words.now
        (said_by storing.now.choices.now) was_open file) }
    ensures name { IfOk result (λ _. IsName name.now) }
    ensures kept { IfSome kept.new (λ g. WereOpened
        (grid_calls R.Stream.contents R.Stream.remaining) storing.now.words.now.grid.now g.grid) }
{
    let path = path_of(rt.alloc(), name, has_input)?;
    if !has_input {
        may_be_listed(rt, path.as_str())?;
    }
    let (words, choices) = (storing.words, storing.choices);
    put_file(
        rt,
        words,
        choices,
        path.as_str(),
        storing.environment,
        kept,
        progress,
    )
}

// The bytes of texts.
fn bytes_of<'a>(alloc: Global, texts: &'a [&'a str]) -> Result<Vec<&'a [u8]>, AllocError>
    ensures { IfOk result
        (λ bytes. map (λ b. b.now) bytes.items ≡ map (λ t. t.now) texts.now) }
{
    let mut bytes = Vec::new(alloc);
    for text in texts {
        bytes.push(text.as_bytes())?;
    }
    Ok(bytes)
}
