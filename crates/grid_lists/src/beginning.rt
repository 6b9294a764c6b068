//! How a put of many files begins.

ghost use Rattle.std.specs.Prelude.{◌≡◌, ◌<◌, ℕ, List, IfOk, Some};
ghost use Rattle.tagged_hash.specs.ConvergentKey.{IsSecret};
ghost use Rattle.catalogues.specs.Heads.{IsInRange, fingerprint_of, first_text};
ghost use Rattle.grid_lists.specs.Puts.{IsHeadBy};
ghost use Rattle.grid_shares.specs.Puts.{AreChoicesBy, said_by};

use catalogues::{Head, Moment, Numbers};
use file_encoding::Params;
use grid_faults::Fault;
use grid_shares::{Choices, may_put, secret_of};
use grid_words::{ListWords, PutWords, STANDARD_INPUT};
use std::rt::{Clock, Files};
use std::time::SystemTime;

/// How the files of a list are put, and the first line of their catalogue.
#[derive(Drop)]
pub(crate) struct Begun {
    pub choices: Choices,
    /// What the first line of their catalogue tells.
    pub head: Head,
    pub line: Vec<u8>,
}

/// All files are put under one secret, which is read once, in a grid that may be put to. The first
/// line of the catalogue tells secrets apart.
pub(crate) fn begin_list<R>(
    rt: &R,
    words: &PutWords<'_>,
    choices: &Choices,
    is_known: bool,
) -> Result<Begun, Fault>
where
    R: Files + Clock + AllocGlobal,
    requires { AreChoicesBy words.now choices.now }
    ensures choices { IfOk result (λ begun. AreChoicesBy words.now begun.choices) }
    ensures line { IfOk result (λ begun. (secret : List ℕ)
        × (said_by begun.choices ≡ Some secret) × IsHeadBy words.now secret begun.head
        × (begun.line.items ≡ first_text begun.head)) }
{
    may_put(rt, words.grid, is_known)?;
    let secret = secret_of(rt, words.grid, choices.secret())?;
    let params = choices.params;
    let head = head_of(rt, &params, &secret);
    let line = head.text(rt.alloc())?;
    let said = Some(secret);
    Ok(Begun {
        choices: Choices { params, said },
        head,
        line,
    })
}

// What the first line tells: the moment, the numbers, and what tells secrets apart. Without a clock
// the catalogue counts as begun in 1970.
fn head_of<R: Clock>(rt: &R, params: &Params, secret: &[u8]) -> Head
    requires { IsSecret secret.now }
    ensures range { IsInRange result }
    ensures numbers { result.numbers ≡ record {
      needed = params.now.needed;
      total = params.now.total;
      segment_size = params.now.max_segment;
    } }
    ensures fingerprint { result.fingerprint ≡ fingerprint_of result.numbers secret.now }
{
    let numbers = Numbers {
        needed: params.needed(),
        total: params.total(),
        segment_size: params.max_segment(),
    };
    Head {
        begun: moment(rt),
        numbers,
        fingerprint: numbers.fingerprint(secret),
    }
}

// What time it is.
fn moment<R: Clock>(rt: &R) -> Moment
    ensures { result.nanoseconds < 1000000000 }
{
    let now = SystemTime::now(rt).unwrap_or(SystemTime::UNIX_EPOCH);
    match now.duration_since(SystemTime::UNIX_EPOCH) {
        Ok(since) => Moment {
            seconds: since.as_secs(),
            nanoseconds: since.subsec_nanos(),
        },
        Err(_) => Moment {
            seconds: 0,
            nanoseconds: 0,
        },
    }
}

/// What is told where standard input is to be two of these: the list, the catalogue and a file.
pub(crate) fn input_twice(words: &PutWords<'_>) -> Option<&'static str> {
    let is_list = match &words.list {
        ListWords::Unsaid => false,
        ListWords::Lines(path) | ListWords::Nuls(path) => *path == STANDARD_INPUT,
    };
    let is_since = match words.since {
        Some(path) => path == STANDARD_INPUT,
        None => false,
    };
    let is_file = words.files.iter().any(|file| *file == STANDARD_INPUT);
    if is_list && is_since {
        Some(LIST_AND_CATALOGUE)
    } else if is_list && is_file {
        Some(LIST_AND_FILE)
    } else if is_since && is_file {
        Some(CATALOGUE_AND_FILE)
    } else {
        None
    }
}

const LIST_AND_FILE: &str = "standard input is the list, and cannot be a file too\n";

const LIST_AND_CATALOGUE: &str = "standard input is the list, and cannot be the catalogue too\n";

const CATALOGUE_AND_FILE: &str = "standard input is the catalogue, and cannot be a file too\n";
