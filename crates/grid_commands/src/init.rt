//! `grid init`: a grid comes to know its servers, or other servers than before.

ghost use Rattle.std.specs.Prelude.{◌≡◌, ◌≤◌, ◌<◌, ◌-◌, ◌^◌, ◌++◌, ℕ, All, IfOk, IfSome, List};
ghost use Rattle.std.specs.Prelude.{unwrap_or};
ghost use Rattle.std.specs.String.{string_bytes};
ghost use Rattle.grid_marks.specs.Addresses.{AreOf};
ghost use Rattle.grid_commands.specs.Elsewhere.{IsNewServer};
ghost use Rattle.grid_commands.specs.Inits.{IsCountBy, IsInitBy, IsSecretText, TakesWays};
ghost use Rattle.grid_commands.specs.Inits.{servers_line, ways_lines, writes_ways};

use crate::elsewhere::{named_servers, refuse_any, refuse_others};
use file_encoding::Params;
use grid_faults::{Fault, Limit, told_path};
use grid_marks::{
    AddressFile, MAX_SERVERS, add_servers, adopt_grid, can_be_marked, grid_servers_count,
    make_grid, mark_grid, replace_server,
};
use grid_rules::ways_text;
use grid_servers::{
    Durability, draw_secret, grid_secret, keep_secret, read_secret_file, refuse_no_address,
    secret_path, standing_servers,
};
use grid_shares::{keep_ways, meant_params, read_numbers, refuse_other_ways};
use grid_telling::{Progress, note_limits};
use grid_words::{InitWords, Marking, NumberWords};
use std::alloc::Global;
use std::io::{self, ErrorKind, IsTerminal, Write};
use std::random::RandomSource;
use std::rt::{Clock, Files};
use user_files::at_path;

/// How many servers a new grid has, if nothing else is said.
const USUAL_SERVERS: u64 = 10;

/// The word that asks for a secret of the system's, in place of the path of a file.
const NEW_SECRET: &str = "new";

/// Marks a grid and the folders of its servers, and gives the line with how many there are; one
/// with where the grid's secret lies, where one was asked for; and one with the grid's ways, where
/// one of their numbers was written.
#[tactic(auto, using(crate::proofs::ElsewhereLemmas::all_servers))]
pub(crate) fn init<R, E>(
    rt: &R,
    words: &InitWords<'_>,
    progress: &mut Progress<'_, R, E>,
) -> Result<Vec<u8>, Fault>
where
    R: Files + Clock + RandomSource + AllocGlobal + Clone + Drop,
    E: Write + IsTerminal,
    ensures { IfOk result (λ lines. IsInitBy words.now lines.items) }
{
    refuse_ways(words)?;
    let elsewhere = named_servers(rt, words.elsewhere.as_slice(), progress)?;
    let servers = mark(rt, words, elsewhere.as_slice(), progress)?;
    lines_of(rt.alloc(), words, servers)
}

// Refuses ways for a grid that has its mark.
fn refuse_ways(words: &InitWords<'_>) -> Result<(), Fault>
    ensures { IfOk result
        (λ _. TakesWays words.now.marking (writes_ways words.now.ways)) }
{
    match words.marking {
        Marking::New(_) | Marking::Adopt(_) => Ok(()),
        Marking::Replace(_) | Marking::Add(_) => {
            if writes_ways(words.ways) {
                return Err(Fault::BadParameters);
            }
            Ok(())
        }
    }
}

// Whether a number is written that a grid keeps.
fn writes_ways(words: NumberWords) -> bool
    ensures { result ≡ writes_ways words }
{
    words.needed.is_some()
        || words.happy.is_some()
        || words.total.is_some()
        || words.max_segment.is_some()
}

// The lines that tell of a grid with so many servers.
fn lines_of(alloc: Global, words: &InitWords<'_>, servers: u16) -> Result<Vec<u8>, Fault>
    ensures { IfOk result (λ lines. (secret : List ℕ)
        × IsSecretText words.now.grid.now words.now.secret_file secret
        × (lines.items ≡ servers_line servers ++ (secret ++ ways_lines words.now.ways))) }
{
    let secret = secret_text(alloc, words)?;
    let ways = ways_line(alloc, words.ways)?;
    Ok(format!(in alloc; "servers {servers}\n{secret}{ways}")?.into_bytes())
}

// The line with the grid's ways, where one of their numbers is written.
fn ways_line(alloc: Global, words: NumberWords) -> Result<String, Fault>
    ensures { IfOk result (λ text. string_bytes text ≡ ways_lines words) }
{
    if !writes_ways(words) {
        return Ok(String::from_str(alloc, "")?);
    }
    let ways = meant_params(words)?;
    Ok(ways_text(alloc, &ways)?)
}

// The line that tells where the grid's secret lies, where one is asked for.
fn secret_text(alloc: Global, words: &InitWords<'_>) -> Result<String, Fault>
    ensures { IfOk result
        (λ text. IsSecretText words.now.grid.now words.now.secret_file (string_bytes text)) }
{
    match words.secret_file {
        None => Ok(String::from_str(alloc, "")?),
        Some(_) => {
            let path = secret_path(alloc, words.grid)?;
            let told = told_path(alloc, path.as_str())?;
            Ok(format!(in alloc; "secret {told}\n")?)
        }
    }
}

// Does what is asked of the marks, and gives how many servers the grid has then.
#[tactic(auto, using(crate::proofs::ElsewhereLemmas::all_of_new, crate::proofs::ElsewhereLemmas::all_of_more, crate::proofs::ElsewhereLemmas::none_new))]
fn mark<R, E>(
    rt: &R,
    words: &InitWords<'_>,
    elsewhere: &[AddressFile<'_>],
    progress: &mut Progress<'_, R, E>,
) -> Result<u16, Fault>
where
    R: Files + Clock + RandomSource + AllocGlobal + Clone + Drop,
    E: Write + IsTerminal,
    ensures marked { IfOk result (λ count. IsCountBy words.now.marking count) }
    ensures few { IfOk result (λ count. count ≤ 256) }
    ensures new { IfOk result (λ count.
        All (λ file. IsNewServer words.now.marking count file.server) elsewhere.now) }
{
    match words.marking {
        Marking::New(servers) => new_grid(rt, words, servers, elsewhere, progress),
        Marking::Add(more) => add(rt, words.grid, more, elsewhere, progress),
        Marking::Replace(server) => {
            refuse_any(elsewhere)?;
            replace(rt, words.grid, server, progress)
        }
        Marking::Adopt(servers) => {
            refuse_any(elsewhere)?;
            adopt(rt, words, servers, progress)
        }
    }
}

// A new grid of so many servers, or 10.
fn new_grid<R, E>(
    rt: &R,
    words: &InitWords<'_>,
    servers: Option<u64>,
    elsewhere: &[AddressFile<'_>],
    progress: &mut Progress<'_, R, E>,
) -> Result<u16, Fault>
where
    R: Files + Clock + RandomSource + AllocGlobal + Clone + Drop,
    E: Write + IsTerminal,
    ensures count { IfOk result (λ count. (count ≡ unwrap_or servers 10) × (count ≤ 256)) }
    ensures new { IfOk result (λ count. AreOf 0 count elsewhere.now) }
{
    let servers = new_count(rt, words.grid, servers, progress)?;
    refuse_others(rt, words.grid, elsewhere, 0..servers, progress)?;
    begin_kept(rt, words, progress)?;
    mark_grid(rt, words.grid, servers, elsewhere)?;
    Ok(servers)
}

// How many servers a new grid has: so many, or 10. A folder that stands there is not left out.
fn new_count<R, E>(
    rt: &R,
    grid: &str,
    servers: Option<u64>,
    progress: &mut Progress<'_, R, E>,
) -> Result<u16, Fault>
where
    R: Files + Clock + AllocGlobal + Clone + Drop,
    E: Write + IsTerminal,
    ensures { IfOk result (λ count. (count ≡ unwrap_or servers 10) × (count ≤ 256)) }
{
    let asked = servers.unwrap_or(USUAL_SERVERS);
    within(rt, &server_limit(asked, 1), progress)?;
    can_be_marked(rt, grid)?;
    let least = standing_count(rt, grid)?;
    within(rt, &server_limit(asked, least), progress)
}

/// The most servers of a grid.
const MOST_SERVERS: u64 = MAX_SERVERS as u64;

// The mark of a server that was lost, for an empty folder.
fn replace<R, E>(
    rt: &R,
    grid: &str,
    server: u64,
    progress: &mut Progress<'_, R, E>,
) -> Result<u16, Fault>
where
    R: Files + Clock + RandomSource + AllocGlobal + Clone + Drop,
    E: Write + IsTerminal,
    ensures { IfOk result (λ count. (server ≤ count - 1) × (count ≤ 256)) }
{
    let servers = known_count(rt, grid)?;
    let limit = Limit {
        option: "--replace",
        value: server,
        least: 0,
        most: u64::from(servers).saturating_sub(1),
    };
    let server = within(rt, &limit, progress)?;
    replace_server(rt, grid, server)?;
    Ok(servers)
}

// So many servers more.
fn add<R, E>(
    rt: &R,
    grid: &str,
    more: u64,
    elsewhere: &[AddressFile<'_>],
    progress: &mut Progress<'_, R, E>,
) -> Result<u16, Fault>
where
    R: Files + Clock + RandomSource + AllocGlobal + Clone + Drop,
    E: Write + IsTerminal,
    ensures count { IfOk result (λ count. (more ≤ count) × (count ≤ 256)) }
    ensures new { IfOk result (λ count. AreOf (count - more) count elsewhere.now) }
{
    let known = known_count(rt, grid)?;
    let limit = Limit {
        option: "--add",
        value: more,
        least: 1,
        most: MOST_SERVERS.saturating_sub(u64::from(known)),
    };
    let more = within(rt, &limit, progress)?;
    let servers = known..known.saturating_add(more);
    refuse_others(rt, grid, elsewhere, servers, progress)?;
    add_servers(rt, grid, more, elsewhere)
}

// The grid's mark anew, by those of its servers, of which there are so many, where that is said.
fn adopt<R, E>(
    rt: &R,
    words: &InitWords<'_>,
    servers: Option<u64>,
    progress: &mut Progress<'_, R, E>,
) -> Result<u16, Fault>
where
    R: Files + Clock + RandomSource + AllocGlobal + Clone + Drop,
    E: Write + IsTerminal,
    ensures asked { IfSome servers (λ wanted. IfOk result (λ count. count ≡ wanted)) }
    ensures few { IfOk result (λ count. count ≤ 256) }
{
    can_be_marked(rt, words.grid)?;
    let servers = match servers {
        Some(servers) => {
            let least = standing_count(rt, words.grid)?;
            Some(within(rt, &server_limit(servers, least), progress)?)
        }
        None => None,
    };
    refuse_no_address(rt, words.grid, 0..MAX_SERVERS)?;
    begin_kept(rt, words, progress)?;
    adopt_grid(rt, words.grid, servers)
}

// How many servers a grid knows; in one that does not know them there is none to replace.
fn known_count<R>(rt: &R, grid: &str) -> Result<u16, Fault>
where
    R: Files + AllocGlobal,
    ensures { IfOk result (λ count. count ≤ 256) }
{
    match grid_servers_count(rt, grid)? {
        Some(servers) => Ok(servers),
        None => Err(Fault::UnknownGrid(told_path(rt.alloc(), grid)?)),
    }
}

// Keeps the secret and the ways with the grid that the words ask for. Numbers in no range, and
// other ways than an earlier call kept, are refused before the secret is kept, and another secret
// before the ways are.
fn begin_kept<R, E>(
    rt: &R,
    words: &InitWords<'_>,
    progress: &mut Progress<'_, R, E>,
) -> Result<(), Fault>
where
    R: Files + Clock + RandomSource + AllocGlobal,
    E: Write + IsTerminal,
{
    if !writes_ways(words.ways) {
        return begin_secret(rt, words);
    }
    let ways = read_numbers(rt, words.ways, None, progress)?;
    refuse_other_ways(rt, words.grid, &ways)?;
    begin_secret(rt, words)?;
    begin_ways(rt, words.grid, &ways)
}

// Keeps ways with a grid whose folder is made where it is not there.
fn begin_ways<R>(rt: &R, grid: &str, ways: &Params) -> Result<(), Fault>
where
    R: Files + RandomSource + AllocGlobal,
{
    make_grid(rt, grid, Durability::Synced)?;
    keep_ways(rt, grid, ways)
}

// Keeps the secret with the grid that the words ask for. One that an earlier call kept, which came
// to no end, stays where it is the same, or where any new one is wanted.
fn begin_secret<R>(rt: &R, words: &InitWords<'_>) -> Result<(), Fault>
where
    R: Files + RandomSource + AllocGlobal,
{
    let Some(asked) = words.secret_file else {
        return Ok(());
    };
    let kept = grid_secret(rt, words.grid)?;
    if asked == NEW_SECRET {
        return match kept {
            Some(_) => Ok(()),
            None => with_grid(rt, words.grid, None),
        };
    }
    let secret = read_secret_file(rt, asked)?;
    match kept {
        None => with_grid(rt, words.grid, Some(secret.as_slice())),
        Some(kept) if kept.as_slice() == secret.as_slice() => Ok(()),
        Some(_) => other_secret(rt, words.grid),
    }
}

// Keeps a secret, or a new one, with a grid whose folder is made where it is not there.
fn with_grid<R>(rt: &R, grid: &str, secret: Option<&[u8]>) -> Result<(), Fault>
where
    R: Files + RandomSource + AllocGlobal,
{
    make_grid(rt, grid, Durability::Synced)?;
    match secret {
        Some(secret) => keep_secret(rt, grid, secret),
        None => draw_secret(rt, grid),
    }
}

// The fault of a grid that keeps another secret.
fn other_secret<R>(rt: &R, grid: &str) -> Result<(), Fault>
where
    R: Files + AllocGlobal,
{
    let path = secret_path(rt.alloc(), grid)?;
    let stands: io::Result<()> = Err(io::Error::from(ErrorKind::AlreadyExists));
    at_path(rt.alloc(), stands, path.as_str())
}

// How many servers a grid has to have at least: one, and as many as those whose folders stand there
// need, of which none is left out.
fn standing_count<R>(rt: &R, grid: &str) -> Result<u64, Fault>
where
    R: Files + AllocGlobal + Clone + Drop,
{
    let standing = standing_servers(rt, grid)?;
    match standing.last() {
        Some(server) => Ok(u64::from(*server) + 1),
        None => Ok(1),
    }
}

/// What was given for an option, which is told where it may not be.
pub(crate) fn within<R, E>(
    rt: &R,
    limit: &Limit<'_>,
    progress: &mut Progress<'_, R, E>,
) -> Result<u16, Fault>
where
    R: Clock + AllocGlobal,
    E: Write + IsTerminal,
    requires { limit.now.most < 2 ^ 16 }
    ensures { IfOk result (λ count. (limit.now.least ≤ count) × (count ≤ limit.now.most)
        × (count ≡ limit.now.value)) }
{
    if limit.is_kept() {
        return Ok(limit.value as u16);
    }
    note_limits(rt, &[*limit], progress)?;
    Err(Fault::BadParameters)
}

// How many servers a grid is to have, from the least to 256.
fn server_limit<'a>(servers: u64, least: u64) -> Limit<'a>
    ensures value { (result.value ≡ servers) × (result.least ≡ least) }
    ensures most { result.most ≡ MAX_SERVERS }
{
    Limit {
        option: "--servers",
        value: servers,
        least,
        most: MOST_SERVERS,
    }
}
