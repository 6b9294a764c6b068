//! `grid put`: a file becomes shares on servers, and a cap.

ghost use Rattle.std.specs.Prelude.{◌≡◌, ◌≤◌, ◌<◌, ◌*◌, ◌/◌, ℕ, List, length, max, IfOk, IfSome};
ghost use Rattle.std.specs.Prelude.{IsOk, is_some, nat_eq, option_map};
ghost use Rattle.std.specs.List.{IsDistinct};
ghost use Rattle.std.specs.String.{string_bytes};
ghost use Rattle.tagged_hash.specs.ConvergentKey.{IsSecret};
ghost use Rattle.ueb.specs.Limits.{min_file_size};
ghost use Rattle.file_encoding.specs.Params.{parameters_of};
ghost use Rattle.file_streaming.specs.Prepared.{IsPreparedFrom};
ghost use Rattle.file_upload.specs.Prepared.{prepared_of, upload_of};
ghost use Rattle.file_upload.specs.declared.prepared.FileUpload.TheVariants.{Literal, Shares};
ghost use Rattle.sources.specs.Opened.{GivesOpened};
ghost use Rattle.grid_servers.specs.Grids.{grid_calls};
ghost use Rattle.file_upload.specs.Ready.{ready_stream};
ghost use Rattle.file_upload.specs.Streamed.{Streaming};
ghost use Rattle.upload_core.specs.Calls.{upload_calls};
ghost use Rattle.grid_shares.specs.Puts.{AreChoicesBy, IsLiteralOf, IsPutAlone, IsPutBy, IsPutOf};
ghost use Rattle.grid_shares.specs.Puts.{IsToldOf, happiness_text, numbers_of, put_status};
ghost use Rattle.grid_shares.specs.Puts.{put_text, said_by, streamed_calls, whole_calls};
ghost use Rattle.grid_shares.specs.Standing.{WereOpened};

use crate::numbers::{Choices, read_choices, server_count};
use crate::placing::{Placing, Stored, durability_of, place_shares};
use crate::standing::OpenGrid;
use crate::{DONE, Environment, Outcome};
use cap_text::{Cap, LitCap, ReadCap};
use file_encoding::Params;
use file_upload::prepared::{FileUpload, prepare};
use file_upload::streamed_prepared::prepare_stream;
use grid_faults::{Fault, first_servers, made_line, told_path};
use grid_marks::{MAX_SERVERS, can_be_grid, grid_servers_count, known_grid, make_grid};
use grid_rules::becoming::{fault_of_encoding, fault_of_preparing};
use grid_servers::{grid_secret, is_new_grid};
use grid_telling::{Progress, Verb};
use grid_words::PutWords;
use sources::{FileSource, Source};
use std::alloc::{AllocError, Global};
use std::io::{self, IsTerminal, Write};
use std::net::Net;
use std::random::RandomSource;
use std::rt::{Clock, Files};
use upload_core::ReadyUpload;
use upload_core::pieces::Pieces;
use user_files::{Input, Locks, open_input};

/// The greatest file that its cap holds, in bytes.
const MAX_LITERAL_SIZE: usize = 55;

/// How many servers are used in a grid that does not know its servers, if nothing else is said.
const USUAL_SERVERS: u16 = 10;

/// How many bytes of shares a `put` holds at most. A file whose shares are no more is held, read a
/// second time and compared, and encoded whole, which is fast; with the file and what the encoding
/// takes it holds some 100 MB then. A greater file is never held.
const HELD_SHARES: u64 = 63 << 20;

/// A file that was put.
#[derive(Drop)]
pub struct PutFile {
    pub cap: Cap,
    /// What its shares came to; none of a small file, which its cap holds.
    pub stored: Option<Stored>,
}

impl PutFile {
    /// The exit status: 0, or 5 where something could not be set aside.
    pub fn status(&self) -> u8
        ensures { result ≡ put_status self.now }
    {
        match &self.stored {
            Some(stored) => stored.status(),
            None => DONE,
        }
    }
}

/// What a `put` stores by: its words, the numbers, and the secret, where one is said.
#[derive(Clone, Copy)]
struct Putting<'a> {
    words: &'a PutWords<'a>,
    params: &'a Params,
    said: Option<&'a [u8]>,
    is_known: bool,
}

/// Stores the file of a path, and gives the lines with its cap and its happiness.
pub fn put<R, E>(
    rt: &R,
    words: &PutWords<'_>,
    path: &str,
    environment: &Environment<'_>,
    progress: &mut Progress<'_, R, E>,
) -> Result<Outcome, Fault>
where
    R: Files + io::Input + Net + Clock + RandomSource + Locks + AllocGlobal + Clone + Drop,
    E: Write + IsTerminal,
    ensures { IfOk result (IsPutAlone (GivesOpened R.File.stream_position R.File.stream_bytes
        R.File.remaining) (grid_calls R.Stream.contents R.Stream.remaining) words.now) }
{
    let choices = read_choices(rt, words, environment, progress)?;
    let mut kept = None;
    let file = put_file(rt, words, &choices, path, environment, &mut kept, progress)?;
    let text = lines_of(rt.alloc(), &file, words.quiet)?;
    Ok(Outcome {
        text,
        status: file.status(),
    })
}

/// Stores the file of a path, or for `-` what standard input has left. The cap of a small file
/// holds it, and no server is needed. The servers that are kept open are asked where they may be,
/// and those are kept that were (`OpenGrid`).
pub fn put_file<R, E>(
    rt: &R,
    words: &PutWords<'_>,
    choices: &Choices,
    path: &str,
    environment: &Environment<'_>,
    kept: &mut Option<OpenGrid<R>>,
    progress: &mut Progress<'_, R, E>,
) -> Result<PutFile, Fault>
where
    R: Files + io::Input + Net + Clock + RandomSource + Locks + AllocGlobal + Clone + Drop,
    E: Write + IsTerminal,
    requires choices { AreChoicesBy words.now choices.now }
    requires kept { IfSome kept.old (λ g. WereOpened
        (grid_calls R.Stream.contents R.Stream.remaining) words.now.grid.now g.grid) }
    ensures put { IfOk result (IsPutBy (GivesOpened R.File.stream_position R.File.stream_bytes
        R.File.remaining) (grid_calls R.Stream.contents R.Stream.remaining) words.now
        (said_by choices.now) (is_some kept.old)) }
    ensures kept { IfSome kept.new (λ g. WereOpened
        (grid_calls R.Stream.contents R.Stream.remaining) words.now.grid.now g.grid) }
{
    let putting = Putting {
        words,
        params: &choices.params,
        said: choices.secret(),
        is_known: words.known || environment.known,
    };
    let most = most_held(&choices.params);
    match open_input(rt, path, environment.temporary, most)? {
        Input::Held(file) => put_held(rt, &putting, file, kept, progress),
        Input::Opened(file, size) => put_opened(rt, &putting, file, size, kept, progress),
    }
}

// The bytes of the greatest file that is held: its shares have `total / needed` times so many, and
// a little more. One that its cap holds is always held.
fn most_held(params: &Params) -> u64
    ensures { result
        ≡ max (HELD_SHARES * params.now.needed / params.now.total) MAX_LITERAL_SIZE }
{
    let most = HELD_SHARES * u64::from(params.needed()) / u64::from(params.total());
    most.max(MAX_LITERAL_SIZE as u64)
}

// A file that its cap holds.
fn literal(cap: LitCap) -> PutFile
    ensures { IsLiteralOf cap result }
{
    PutFile {
        cap: Cap::Lit(cap),
        stored: None,
    }
}

// Stores a file that is held. A fault of the grid's folder comes before those of the file's size,
// and a small file does not need the folder.
fn put_held<R, E>(
    rt: &R,
    putting: &Putting<'_>,
    file: Vec<u8>,
    kept: &mut Option<OpenGrid<R>>,
    progress: &mut Progress<'_, R, E>,
) -> Result<PutFile, Fault>
where
    R: Files + Net + Clock + RandomSource + Locks + AllocGlobal + Clone + Drop,
    E: Write + IsTerminal,
    requires said { IfSome putting.now.said (λ secret. IsSecret secret.now) }
    requires kept { IfSome kept.old (λ g. WereOpened
        (grid_calls R.Stream.contents R.Stream.remaining) putting.now.words.now.grid.now g.grid) }
    ensures small { length file.items < min_file_size → IfOk result (IsLiteralOf file.items) }
    ensures stored { min_file_size ≤ length file.items → IfOk result (λ put.
        (secret : List ℕ) × IfSome putting.now.said (λ said. secret ≡ said.now)
        × IsPutOf whole_calls (grid_calls R.Stream.contents R.Stream.remaining)
        putting.now.words.now.grid.now (is_some kept.old) putting.now.words.now.mend
        (upload_of (prepared_of file.items secret putting.now.params.now))
        (prepared_of file.items secret putting.now.params.now).cap put) }
    ensures kept { IfSome kept.new (λ g. WereOpened
        (grid_calls R.Stream.contents R.Stream.remaining) putting.now.words.now.grid.now g.grid) }
{
    let size = file.as_slice().len();
    let secret = secret_for(rt, putting, size)?;
    progress.encode(Verb::Put, size as u64);
    match encode(rt.alloc(), file, &secret, putting.params)? {
        FileUpload::Shares(upload) => {
            let cap = *upload.cap();
            place(rt, putting, &cap, upload.into_upload(), kept, progress)
        }
        FileUpload::Literal(cap) => Ok(literal(cap)),
    }
}

// Stores an open file of so many bytes, which is not held.
fn put_opened<R, E>(
    rt: &R,
    putting: &Putting<'_>,
    file: R::File,
    size: u64,
    kept: &mut Option<OpenGrid<R>>,
    progress: &mut Progress<'_, R, E>,
) -> Result<PutFile, Fault>
where
    R: Files + Net + Clock + RandomSource + Locks + AllocGlobal + Clone + Drop,
    E: Write + IsTerminal,
    requires said { IfSome putting.now.said (λ secret. IsSecret secret.now) }
    requires not_small { min_file_size ≤ size }
    requires numbers { putting.now.params.now ≡ numbers_of putting.now.words.now }
    requires kept { IfSome kept.old (λ g. WereOpened
        (grid_calls R.Stream.contents R.Stream.remaining) putting.now.words.now.grid.now g.grid) }
    ensures put { IfOk result (IsPutBy (GivesOpened R.File.stream_position R.File.stream_bytes
        R.File.remaining) (grid_calls R.Stream.contents R.Stream.remaining) putting.now.words.now
        (option_map (λ s. s.now) putting.now.said) (is_some kept.old)) }
    ensures kept { IfSome kept.new (λ g. WereOpened
        (grid_calls R.Stream.contents R.Stream.remaining) putting.now.words.now.grid.now g.grid) }
{
    may_put(rt, putting.words.grid, putting.is_known)?;
    let secret = secret_of(rt, putting.words.grid, putting.said)?;
    progress.encode(Verb::Put, size);
    let source = FileSource::new(file, size);
    put_source(rt, putting, source, &secret, kept, progress)
}

// Stores what a source has, which is read twice.
fn put_source<R, S, E>(
    rt: &R,
    putting: &Putting<'_>,
    source: S,
    secret: &[u8],
    kept: &mut Option<OpenGrid<R>>,
    progress: &mut Progress<'_, R, E>,
) -> Result<PutFile, Fault>
where
    R: Files + Net + Clock + RandomSource + Locks + AllocGlobal + Clone + Drop,
    S: Source + Drop,
    E: Write + IsTerminal,
    requires secret { IsSecret secret.now }
    requires not_small { min_file_size ≤ S.size source }
    requires kept { IfSome kept.old (λ g. WereOpened
        (grid_calls R.Stream.contents R.Stream.remaining) putting.now.words.now.grid.now g.grid) }
    ensures put { IfOk result (λ put. (stream : Streaming S)
        × IsPreparedFrom S.gives (S.size source) source secret.now
        (parameters_of putting.now.params.now) stream.kept stream.source
        × IsPutOf (streamed_calls S.gives S.failures)
        (grid_calls R.Stream.contents R.Stream.remaining) putting.now.words.now.grid.now
        (is_some kept.old) putting.now.words.now.mend
        (ready_stream stream putting.now.params.now.happy) stream.kept.cap put) }
    ensures kept { IfSome kept.new (λ g. WereOpened
        (grid_calls R.Stream.contents R.Stream.remaining) putting.now.words.now.grid.now g.grid) }
{
    let ready = prepare_stream(rt.alloc(), source, secret, putting.params);
    let ready = ready.map_err(fault_of_preparing)?;
    let cap = *ready.pieces().cap();
    place(rt, putting, &cap, ready, kept, progress)
}

/// Refuses what can be no grid's folder, and where only a grid that is marked is wanted, one that
/// is not. A path with no name is always refused.
pub fn may_put<R>(rt: &R, grid: &str, is_known: bool) -> Result<(), Fault>
where
    R: Files + AllocGlobal,
    ensures { IsOk result → 0 < length grid.now }
{
    can_be_grid(rt, grid)?;
    if is_known {
        known_grid(rt, grid)?;
    }
    Ok(())
}

// The secret for a file of so many bytes, whose grid may take it. One that its cap holds needs
// none.
fn secret_for<R>(rt: &R, putting: &Putting<'_>, size: usize) -> Result<Vec<u8>, Fault>
where
    R: Files + AllocGlobal,
    requires { IfSome putting.now.said (λ secret. IsSecret secret.now) }
    ensures secret { IfOk result (λ secret. IsSecret secret.items) }
    ensures said { IfOk result (λ secret. min_file_size ≤ size
        → IfSome putting.now.said (λ said. secret.items ≡ said.now)) }
{
    if size <= MAX_LITERAL_SIZE {
        return Ok(Vec::new(rt.alloc()));
    }
    may_put(rt, putting.words.grid, putting.is_known)?;
    secret_of(rt, putting.words.grid, putting.said)
}

/// The secret that a file's key depends on: the one that was said, else the grid's, and where it
/// has none no byte.
pub fn secret_of<R>(rt: &R, grid: &str, said: Option<&[u8]>) -> Result<Vec<u8>, Fault>
where
    R: Files + AllocGlobal,
    requires { IfSome said (λ secret. IsSecret secret.now) }
    ensures secret { IfOk result (λ secret. IsSecret secret.items) }
    ensures said { IfOk result (λ secret. IfSome said.entry (λ said. secret.items ≡ said.now)) }
{
    match said {
        Some(secret) => Ok(Vec::from_slice(rt.alloc(), secret)?),
        None => {
            let kept = grid_secret(rt, grid)?;
            Ok(kept.unwrap_or(Vec::new(rt.alloc())))
        }
    }
}

// How many servers the shares are placed on, from the first on: as many as were said, or as the
// grid knows, or 10.
fn servers_for<R>(rt: &R, putting: &Putting<'_>) -> Result<u16, Fault>
where
    R: Files + AllocGlobal,
    ensures { IfOk result (λ count. (0 < count) × (count ≤ MAX_SERVERS)) }
{
    match putting.words.servers {
        Some(servers) => server_count(servers),
        None => {
            let known = grid_servers_count(rt, putting.words.grid)?;
            server_count(u64::from(known.unwrap_or(USUAL_SERVERS)))
        }
    }
}

// Encodes a file, whose bytes are let go then.
fn encode(alloc: Global, file: Vec<u8>, secret: &[u8], params: &Params) -> Result<FileUpload, Fault>
    requires { IsSecret secret.now }
    ensures literal { length file.items < min_file_size
        → IfOk result (λ upload. upload ≡ Literal file.items) }
    ensures shares { min_file_size ≤ length file.items → IfOk result
        (λ upload. upload ≡ Shares (prepared_of file.items secret.now params.now)) }
{
    prepare(alloc, &file, secret, params).map_err(fault_of_encoding)
}

// Places the shares on the servers of the grid, which is made where it is not there. It is there
// where its servers are kept open.
fn place<R, P, E>(
    rt: &R,
    putting: &Putting<'_>,
    cap: &ReadCap,
    ready: ReadyUpload<P>,
    kept: &mut Option<OpenGrid<R>>,
    progress: &mut Progress<'_, R, E>,
) -> Result<PutFile, Fault>
where
    R: Files + Net + Clock + RandomSource + Locks + AllocGlobal + Clone + Drop,
    P: Pieces + Drop,
    E: Write + IsTerminal,
    requires { IfSome kept.old (λ g. WereOpened (grid_calls R.Stream.contents R.Stream.remaining)
        putting.now.words.now.grid.now g.grid) }
    ensures put { IfOk result (IsPutOf (upload_calls P.gives P.fails)
        (grid_calls R.Stream.contents R.Stream.remaining) putting.now.words.now.grid.now
        (is_some kept.old) putting.now.words.now.mend ready cap.now) }
    ensures kept { IfSome kept.new (λ g. WereOpened
        (grid_calls R.Stream.contents R.Stream.remaining) putting.now.words.now.grid.now g.grid) }
{
    let words = putting.words;
    let servers = first_servers(rt.alloc(), servers_for(rt, putting)?)?;
    let placing = Placing {
        grid: words.grid,
        servers: servers.as_slice(),
        durability: durability_of(words.no_sync),
        mend: words.mend,
        net: words.net,
        verb: Verb::Put,
    };
    if kept.is_none() {
        begin_grid(rt, &placing, progress)?;
    }
    let stored = place_shares(rt, &placing, kept, ready, &[], progress)?;
    progress.clear();
    Ok(stored_file(cap, stored))
}

// A file whose shares were stored.
fn stored_file(cap: &ReadCap, stored: Stored) -> PutFile
    ensures { IsToldOf cap.now stored result }
{
    PutFile {
        cap: Cap::Chk(*cap),
        stored: Some(stored),
    }
}

// Makes the folder of the grid, where it is not there. A grid that is new is told always: the
// commonest way to lose a file is a grid in a place that was not meant.
fn begin_grid<R, E>(
    rt: &R,
    placing: &Placing<'_>,
    progress: &mut Progress<'_, R, E>,
) -> Result<(), Fault>
where
    R: Files + Clock + AllocGlobal + Clone + Drop,
    E: Write + IsTerminal,
{
    let is_new = is_new_grid(rt, placing.grid)?;
    make_grid(rt, placing.grid, placing.durability)?;
    if is_new {
        let grid = told_path(rt.alloc(), placing.grid)?;
        let line = made_line(rt.alloc(), grid.as_str(), placing.servers.len())?;
        progress.tell(line.as_str());
    }
    Ok(())
}

// The lines with a file's cap and its happiness, or the cap alone.
fn lines_of(alloc: Global, file: &PutFile, quiet: bool) -> Result<Vec<u8>, AllocError>
    ensures { IfOk result (λ lines. lines.items ≡ put_text file.now quiet) }
{
    let happiness = happiness_line(alloc, &file.stored, quiet)?;
    let text = format!(in alloc; "{}\n{happiness}", file.cap)?;
    Ok(text.into_bytes())
}

// The line with the happiness, where there is one that is to be told.
fn happiness_line(alloc: Global, stored: &Option<Stored>, quiet: bool) -> Result<String, AllocError>
    ensures { IfOk result (λ line. string_bytes line ≡ happiness_text stored.now quiet) }
{
    match stored {
        None => Ok(String::new(alloc)),
        Some(stored) => {
            if quiet {
                Ok(String::new(alloc))
            } else {
                format!(in alloc; "happiness {}\n", stored.happiness)
            }
        }
    }
}
