//! The lines of an earlier catalogue that a put keeps.

ghost use Rattle.std.specs.Prelude.{IfOk, IfSome};
ghost use Rattle.catalogues.specs.Names.{IsName};
ghost use Rattle.grid_lists.specs.Ends.{IsEarlier};
ghost use Rattle.grid_lists.specs.Since.{IsKeptSince};

use crate::names::{LINE_FEED, bounded, read_text};
use cap_text::Cap;
use catalogues::{CatalogueError, FileState, Head, Known, Moment, is_kept, is_name};
use grid_faults::Fault;
use grid_telling::Progress;
use grid_words::{PutWords, STANDARD_INPUT};
use std::alloc::{AllocError, Global};
use std::fs::{self, Metadata};
use std::io::{self, IsTerminal, Write};
use std::os::unix::fs::MetadataExt;
use std::random::RandomSource;
use std::rt::{Clock, Files};

/// What a put goes on from.
#[derive(Drop)]
pub(crate) enum Earlier {
    /// What the catalogue tells that words name, if they name one.
    Told(Option<Known>),
    /// A text that is no catalogue.
    Unread,
}

/// Reads the catalogue that these words name, if they name one. A fault of its file where that
/// cannot be read, and `TooLarge` where it has more than 64 MiB or 2,097,152 lines.
pub(crate) fn read_since<R>(rt: &R, words: &PutWords<'_>, temporary: &str) -> Result<Earlier, Fault>
where
    R: Files + io::Input + RandomSource + AllocGlobal,
    ensures { IfOk result (IsEarlier words.now) }
{
    let Some(path) = words.since else {
        return Ok(Earlier::Told(None));
    };
    let text = bounded(read_text(rt, path, temporary)?, LINE_FEED)?;
    match Known::read(rt.alloc(), &text) {
        Ok(known) => Ok(Earlier::Told(Some(known))),
        Err(CatalogueError::NotACatalogue) => Ok(Earlier::Unread),
        Err(_) => Err(Fault::OutOfMemory),
    }
}

/// Tells what is not kept of a catalogue: no line, where its first one may not stand before this
/// one, and none behind what is no line.
pub(crate) fn tell_since<R, E>(
    alloc: Global,
    since: &Option<Known>,
    head: &Head,
    progress: &mut Progress<'_, R, E>,
) -> Result<(), AllocError>
where
    R: Clock + AllocGlobal,
    E: Write + IsTerminal,
{
    let Some(known) = since else {
        return Ok(());
    };
    if !known.head().may_keep(head) {
        progress.tell(OTHER_HEAD);
    }
    if let Some(CatalogueError::NotALine(number)) = known.fault() {
        let line = format!(in alloc;
            "line {number} of the catalogue is none, and what follows it is not looked at\n"
        )?;
        progress.tell(line.as_str());
    }
    Ok(())
}

// What is told where no line of a catalogue is kept.
const OTHER_HEAD: &str = "all files are read: the catalogue was begun with other numbers or \
another secret, or later than now by the clock\n";

/// The cap of the line that is kept of an earlier catalogue, for the file of a name. Among words
/// `-` is standard input, which has none.
pub(crate) fn kept_cap<R: Files>(
    rt: &R,
    since: &Option<Known>,
    head: &Head,
    name: &[u8],
    has_input: bool,
) -> Option<Cap>
    ensures kept { IfSome result (IsKeptSince since.now head.now name.now) }
    ensures name { IfSome result (λ _. IsName name.now) }
{
    let Some(known) = since else {
        return None;
    };
    if !is_name(name) {
        return None;
    }
    let Some(cap) = known.cap_of(name) else {
        return None;
    };
    let Some(file) = state_of(rt, name, has_input) else {
        return None;
    };
    if is_kept(known.head(), head, &cap, &file) {
        Some(cap)
    } else {
        None
    }
}

// What the system tells of the regular file of a name. A link is not followed: what it leads to is
// another file once the link is changed, which the times of that file do not tell.
fn state_of<R: Files>(rt: &R, name: &[u8], has_input: bool) -> Option<FileState> {
    match str::from_utf8(name) {
        Ok(path) if path == STANDARD_INPUT && has_input => None,
        Ok(path) => match fs::symlink_metadata(rt, path) {
            Ok(found) => told_state(&found),
            Err(_) => None,
        },
        Err(_) => None,
    }
}

// What is told of a regular file. Times before 1970 are not told.
fn told_state(found: &Metadata) -> Option<FileState> {
    if !found.is_file() {
        return None;
    }
    let changed = moment_of(found.ctime(), found.ctime_nsec())?;
    let modified = moment_of(found.mtime(), found.mtime_nsec())?;
    Some(FileState {
        size: found.len(),
        changed,
        modified,
    })
}

// A moment by the seconds and the nanoseconds that the system tells.
fn moment_of(seconds: i64, nanoseconds: i64) -> Option<Moment> {
    match (u64::try_from(seconds), u32::try_from(nanoseconds)) {
        (Ok(seconds), Ok(nanoseconds)) => Some(Moment {
            seconds,
            nanoseconds,
        }),
        _ => None,
    }
}
