//! By which numbers and which secret files are put.

ghost use Rattle.std.specs.Prelude.{◌≡◌, ◌<◌, ◌≤◌, IfOk, IfSome, false, option_map};
ghost use Rattle.tagged_hash.specs.ConvergentKey.{IsSecret};
ghost use Rattle.grid_shares.specs.Puts.{AreChoicesBy, IsSaidBy, meant_numbers, said_by};

use crate::Environment;
use file_encoding::{MAX_CHOSEN_SEGMENT_SIZE, MAX_SECRET_SIZE, Params};
use grid_faults::{Fault, Limit};
use grid_marks::MAX_SERVERS;
use grid_rules::becoming::fault_of_encoding;
use grid_servers::read_secret_file;
use grid_telling::{Progress, note_limits};
use grid_words::{NumberWords, PutWords, SecretWords};
use std::io::{IsTerminal, Write};
use std::rt::{Clock, Files};

/// The greatest number of shares.
const MAX_SHARES: u64 = 256;

/// By which numbers files are put where neither words nor the ways of a grid say it.
const USUAL_NEEDED: u64 = 3;

const USUAL_HAPPY: u64 = 7;

const USUAL_TOTAL: u64 = 10;

/// The greatest segment of files, in bytes, where nothing else is said.
pub const USUAL_MAX_SEGMENT: u64 = 131_072;

// The numbers that are meant, in no range yet.
#[derive(Clone, Copy)]
struct Meant {
    needed: u64,
    happy: u64,
    total: u64,
    max_segment: u64,
}

/// By which numbers files are put, and by which secret, where one is said.
#[derive(Drop)]
pub struct Choices {
    pub params: Params,
    /// Of at most 64 bytes.
    pub said: Option<Vec<u8>>,
}

impl Choices {
    /// The secret, where one is said.
    pub fn secret(&self) -> Option<&[u8]>
        ensures said { option_map (λ s. s.now) result ≡ said_by self.now }
        ensures secret { IfSome self.now.said (λ s. IsSecret s.items)
            → IfSome result (λ s. IsSecret s.now) }
    {
        match &self.said {
            Some(secret) => Some(secret.as_slice()),
            None => None,
        }
    }
}

/// The numbers of a put, each in its range, and the secret that the words say, or else the file
/// that the environment names. What is in no range is told.
pub fn read_choices<R, E>(
    rt: &R,
    words: &PutWords<'_>,
    environment: &Environment<'_>,
    progress: &mut Progress<'_, R, E>,
) -> Result<Choices, Fault>
where
    R: Files + Clock + AllocGlobal,
    E: Write + IsTerminal,
    ensures choices { IfOk result (AreChoicesBy words.now) }
    ensures said { IfOk result (λ choices.
        IsSaidBy words.now.secret environment.now.secret_file (said_by choices)) }
{
    let params = read_numbers(rt, words.numbers, words.servers, progress)?;
    let said = said_secret(rt, &words.secret, environment.secret_file, progress)?;
    Ok(Choices { params, said })
}

/// The numbers that words write, or the usual ones, in their ranges: `BadParameters` where one is
/// not, or the number of servers is not 1 to 256, where there is one. Each that is not is told.
pub fn read_numbers<R, E>(
    rt: &R,
    words: NumberWords,
    servers: Option<u64>,
    progress: &mut Progress<'_, R, E>,
) -> Result<Params, Fault>
where
    R: Clock + AllocGlobal,
    E: Write + IsTerminal,
    ensures { IfOk result (λ params. params ≡ meant_numbers words) }
{
    note_limits(rt, &limits_of(meant_by(words), servers), progress)?;
    let params = meant_params(words)?;
    if let Some(servers) = servers {
        server_count(servers)?;
    }
    Ok(params)
}

/// The same, where nothing is told.
pub fn meant_params(words: NumberWords) -> Result<Params, Fault>
    ensures { IfOk result (λ params. params ≡ meant_numbers words) }
{
    let meant = meant_by(words);
    Params::new(meant.needed, meant.happy, meant.total, meant.max_segment).map_err(
        fault_of_encoding,
    )
}

// The numbers that are written, and the usual ones in place of those that are not.
fn meant_by(words: NumberWords) -> Meant
    ensures { meant_numbers words ≡ record {
      needed = result.needed;
      happy = result.happy;
      total = result.total;
      max_segment = result.max_segment;
    } }
{
    Meant {
        needed: words.needed.unwrap_or(USUAL_NEEDED),
        happy: words.happy.unwrap_or(USUAL_HAPPY),
        total: words.total.unwrap_or(USUAL_TOTAL),
        max_segment: words.max_segment.unwrap_or(USUAL_MAX_SEGMENT),
    }
}

// The numbers of a put, and their ranges. Where no number of servers is written there is none that
// could be outside its range.
fn limits_of(meant: Meant, servers: Option<u64>) -> [Limit<'static>; 5] {
    let total = meant.total.min(MAX_SHARES);
    [
        limit("--k", meant.needed, total),
        limit("--happy", meant.happy, total),
        limit("--n", meant.total, MAX_SHARES),
        limit(
            "--segment",
            meant.max_segment,
            u64::from(MAX_CHOSEN_SEGMENT_SIZE),
        ),
        limit("--servers", servers.unwrap_or(1), u64::from(MAX_SERVERS)),
    ]
}

// A number from 1 to the most.
fn limit(option: &'static str, value: u64, most: u64) -> Limit<'static> {
    Limit {
        option,
        value,
        least: 1,
        most,
    }
}

/// The number of servers, which is 1 to 256.
pub(crate) fn server_count(servers: u64) -> Result<u16, Fault>
    ensures { IfOk result (λ count. (0 < count) × (count ≤ MAX_SERVERS)) }
{
    if servers == 0 || servers > u64::from(MAX_SERVERS) {
        return Err(Fault::BadParameters);
    }
    Ok(servers as u16)
}

/// The secret that the words say, or else that of a file, where one is named; it has at most 64
/// bytes. None where nothing is said. One that is longer is told, and `BadParameters`; a fault of
/// its file where that cannot be read.
pub fn said_secret<R, E>(
    rt: &R,
    words: &SecretWords<'_>,
    file: Option<&str>,
    progress: &mut Progress<'_, R, E>,
) -> Result<Option<Vec<u8>>, Fault>
where
    R: Files + Clock + AllocGlobal,
    E: Write + IsTerminal,
    ensures secret { IfOk result (λ said. IfSome said (λ secret. IsSecret secret.items)) }
    ensures said { IfOk result (λ said.
        IsSaidBy words.now file.entry (option_map (λ s. s.items) said)) }
{
    let said = written_secret(rt, words, file)?;
    if is_long(&said) {
        progress.tell(LONG_SECRET);
        return Err(Fault::BadParameters);
    }
    Ok(said)
}

// Whether it has too many bytes.
fn is_long(said: &Option<Vec<u8>>) -> bool
    ensures { result ≡ false → IfSome said.now (λ secret. IsSecret secret.items) }
{
    match said {
        Some(secret) => secret.len() > MAX_SECRET_SIZE,
        None => false,
    }
}

// The secret that the words say, of any length; where they say none, that of a file, where one is
// named.
fn written_secret<R>(
    rt: &R,
    words: &SecretWords<'_>,
    file: Option<&str>,
) -> Result<Option<Vec<u8>>, Fault>
where
    R: Files + AllocGlobal,
    ensures { IfOk result (λ said.
        IsSaidBy words.now file.entry (option_map (λ s. s.items) said)) }
{
    match (words, file) {
        (SecretWords::Unsaid, None) => Ok(None),
        (SecretWords::Unsaid, Some(path)) => Ok(Some(read_secret_file(rt, path)?)),
        (SecretWords::Text(text), _) => Ok(Some(Vec::from_slice(rt.alloc(), text.as_bytes())?)),
        (SecretWords::File(path), _) => Ok(Some(read_secret_file(rt, path)?)),
    }
}

// What is told of a secret that is too long.
const LONG_SECRET: &str = "a secret has at most 64 bytes\n";
