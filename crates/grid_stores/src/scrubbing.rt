//! `grid scrub`: the closed shares of all servers are read, and compared with the digests in their
//! names.

ghost use Rattle.std.specs.Prelude.{◌≡◌, ◌<◌, length, IfOk, IfSome, OnOk};
ghost use Rattle.share_scrub.specs.Seen.{WasSeen};
ghost use Rattle.grid_stores.specs.Scrubbing.{AreLooked, AreTold, IsLooked};
ghost use Rattle.grid_stores.specs.Scrubs.{IsScrub, none_counted, status_by};

use crate::scrub_telling::{Telling, last_text, tell_file, tell_folder};
use grid_faults::Fault;
use grid_marks::{server_folder, try_mark};
use grid_rules::Scrubbed;
use grid_servers::folder_servers;
use grid_shares::Environment;
use grid_telling::{Counting, Failure, Progress, Verb, print};
use grid_words::ScrubWords;
use share_scrub::{Finding, Handling, Scrub, read_ahead};
use share_store::error::StoreError;
use std::io::{self, IsTerminal, Write};
use std::random::RandomSource;
use std::rt::{Clock, Files};
use std::time::SystemTime;
use wire::message::NodeId;

/// The exit status where a folder could not be read.
const INCOMPLETE: u8 = 5;

// So many folders are listed at once, so that shares of several are read side by side.
const FOLDERS: usize = 8;

// The servers that come next, and what is done about their files.
#[derive(Drop)]
struct Coming<'a, R: Files> {
    handling: Handling,
    // those whose folders are not listed yet
    servers: &'a [NodeId],
    // the folders of those before them, the next one first
    folders: Vec<io::Result<Scrub<R>>>,
}

/// Tells of each share of a grid that is damaged, cannot be read or is no regular file, and of each
/// file that was left open or set aside. Gives the exit status: that of too few shares where not
/// all shares are whole.
pub fn scrub<R, O, E>(
    rt: &R,
    words: &ScrubWords<'_>,
    environment: &Environment<'_>,
    out: &mut O,
    progress: &mut Progress<'_, R, E>,
) -> Result<u8, Failure>
where
    R: Files + Clock + RandomSource + AllocGlobal + Clone + Drop,
    O: Write,
    E: Write + IsTerminal,
    ensures { IfOk result
        (λ status. IsScrub words.now status (O.contents out.old) (O.contents out.new)) }
{
    let standing = folder_servers(rt, words.grid, words.known || environment.known)?;
    progress.begin(Verb::Scrub, Counting::Added, 0);
    let mut counted = Scrubbed::NONE;
    let are_read = scrub_servers(rt, words, standing.as_slice(), &mut counted, out, progress)?;
    progress.clear();
    print(out, last_text(rt.alloc(), words.json, &counted)?.as_bytes())?;
    Ok(status_by(are_read, &counted))
}

// The exit status, where all folders could be read or not.
fn status_by(are_read: bool, counted: &Scrubbed) -> u8
    ensures { result ≡ status_by are_read counted.now }
{
    if are_read {
        counted.status()
    } else {
        INCOMPLETE
    }
}

// Looks at the files of these servers. False where the folder of one cannot be read.
fn scrub_servers<R, O, E>(
    rt: &R,
    words: &ScrubWords<'_>,
    servers: &[NodeId],
    counted: &mut Scrubbed,
    out: &mut O,
    progress: &mut Progress<'_, R, E>,
) -> Result<bool, Failure>
where
    R: Files + Clock + RandomSource + AllocGlobal + Clone + Drop,
    O: Write,
    E: Write + IsTerminal,
    requires { counted.old ≡ none_counted }
    ensures { IfOk result (λ are_read. AreLooked words.now.json servers.now are_read counted.new
        (O.contents out.old) (O.contents out.new)) }
{
    let mut coming = Coming {
        handling: handling_of(rt, words),
        servers,
        folders: Vec::new(rt.alloc()),
    };
    let mut are_read = true;
    for server in servers {
        let is_read = scrub_server(rt, words, *server, &mut coming, counted, out, progress)?;
        are_read = are_read && is_read;
    }
    Ok(are_read)
}

// Lists the folder whose turn it is, unless that was done, and those of the servers after it.
fn next_folder<R, E>(
    rt: &R,
    grid: &str,
    coming: &mut Coming<'_, R>,
    progress: &mut Progress<'_, R, E>,
) -> Result<io::Result<Scrub<R>>, Fault>
where
    R: Files + Clock + RandomSource + AllocGlobal + Clone + Drop,
    E: Write + IsTerminal,
{
    for _ in coming.folders.len()..FOLDERS {
        if let Some((server, servers)) = coming.servers.split_first() {
            coming.servers = servers;
            let folder = begin_scrub(rt, grid, *server);
            if let Ok(files) = &folder {
                progress.expect(files.total());
            }
            coming.folders.push(folder)?;
        }
    }
    if coming.folders.is_empty() {
        return Ok(Err(io::Error::from(io::ErrorKind::NotFound)));
    }
    Ok(coming.folders.remove(0))
}

// What is done about the files.
fn handling_of<R: Clock>(rt: &R, words: &ScrubWords<'_>) -> Handling {
    Handling {
        set_aside: words.set_aside,
        remove_open: words.remove_open,
        remove_damaged: words.remove_damaged,
        // without a clock no open file is left over
        now: SystemTime::now(rt).unwrap_or(SystemTime::UNIX_EPOCH),
    }
}

// Looks at the files of a server. False where its folder cannot be read.
fn scrub_server<R, O, E>(
    rt: &R,
    words: &ScrubWords<'_>,
    server: NodeId,
    coming: &mut Coming<'_, R>,
    counted: &mut Scrubbed,
    out: &mut O,
    progress: &mut Progress<'_, R, E>,
) -> Result<bool, Failure>
where
    R: Files + Clock + RandomSource + AllocGlobal + Clone + Drop,
    O: Write,
    E: Write + IsTerminal,
    ensures { IfOk result (λ is_read. IsLooked words.now.json server is_read counted.old
        counted.new (O.contents out.old) (O.contents out.new)) }
{
    let telling = Telling {
        alloc: rt.alloc(),
        json: words.json,
        server,
    };
    match next_folder(rt, words.grid, coming, progress)? {
        Ok(mut files) => {
            let (others, handling) = (&mut coming.folders, &coming.handling);
            scrub_files(
                &mut files, others, handling, &telling, counted, out, progress,
            )?;
            Ok(true)
        }
        Err(error) => {
            tell_folder(&telling, error, out, progress)?;
            Ok(false)
        }
    }
}

// The files of a server, whose folder has its mark in a grid that knows its servers.
fn begin_scrub<R>(rt: &R, grid: &str, server: NodeId) -> io::Result<Scrub<R>>
where
    R: Files + RandomSource + AllocGlobal + Clone + Drop,
{
    try_mark(rt, grid, server)?;
    let folder = server_folder(rt.alloc(), grid, server)?;
    Scrub::begin(rt, folder.as_str())
}

// Looks at the files that are listed, and tells of those that are not as they should be.
fn scrub_files<R, O, E>(
    files: &mut Scrub<R>,
    others: &mut [io::Result<Scrub<R>>],
    handling: &Handling,
    telling: &Telling,
    counted: &mut Scrubbed,
    out: &mut O,
    progress: &mut Progress<'_, R, E>,
) -> Result<(), Failure>
where
    R: Files + Clock + RandomSource + AllocGlobal + Clone + Drop,
    O: Write,
    E: Write + IsTerminal,
    ensures { OnOk result (AreTold telling.now.json telling.now.server counted.old counted.new
        (O.contents out.old) (O.contents out.new)) }
{
    while let Some(found) = next_file(files, others, handling, progress)? {
        counted.count(&found.state);
        tell_file(telling, &found, out, progress)?;
    }
    Ok(())
}

// The next file, of which there is something to tell. Shares are read before their turn, also those
// of the folders that come next, where enough can be hashed side by side.
fn next_file<R, E>(
    files: &mut Scrub<R>,
    others: &mut [io::Result<Scrub<R>>],
    handling: &Handling,
    progress: &mut Progress<'_, R, E>,
) -> Result<Option<Finding>, Fault>
where
    R: Files + Clock + RandomSource + AllocGlobal + Clone + Drop,
    E: Write + IsTerminal,
    ensures fewer { IfOk result
        (λ found. IfSome found (λ _. length files.new.left < length files.old.left)) }
    ensures seen { IfOk result (λ found. IfSome found WasSeen) }
{
    read_ahead(files, others, progress);
    match files.next(handling, progress) {
        Ok(found) => Ok(found),
        Err(StoreError::OutOfMemory | StoreError::StoreFault) => Err(Fault::OutOfMemory),
    }
}
