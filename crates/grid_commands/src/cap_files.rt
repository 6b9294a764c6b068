//! Caps that stand in a file, in place of a word.

ghost use Rattle.std.specs.Prelude.{◌≡◌, IfOk, IfSome, None, take};
ghost use Rattle.std.specs.String.{string_bytes};
ghost use Rattle.grid_commands.specs.CapFiles.{IsFirstLine};

use grid_faults::Fault;
use grid_words::{CheckWords, GetWords, RepairWords, STANDARD_INPUT, VerifyWords};
use std::alloc::Global;
use std::fs::{File, OpenFile};
use std::io::{self, Read};
use std::rt::Files;
use user_files::at_path;

/// How standard input is told.
const INPUT_NAME: &str = "standard input";

/// How many bytes are read at most: no cap has half of it, so a text of so many is none.
const MOST_BYTES: u64 = 256;

const LINE_FEED: u8 = b'\n';

/// The text that is to be a cap: a word, or what the file of this path has in place of it. That may
/// end with a line feed.
pub(crate) fn cap_text<R>(rt: &R, word: &str, file: Option<&str>) -> Result<String, Fault>
where
    R: Files + io::Input + AllocGlobal,
    ensures { file.entry ≡ None → IfOk result (λ text. string_bytes text ≡ word.now) }
{
    match file {
        Some(path) => read_cap_file(rt, path),
        None => Ok(String::from_str(rt.alloc(), word)?),
    }
}

// What the file of a path has. What is no UTF-8 in it is no cap, and stays none.
fn read_cap_file<R>(rt: &R, path: &str) -> Result<String, Fault>
where
    R: Files + io::Input + AllocGlobal,
{
    let alloc = rt.alloc();
    let bytes = if path == STANDARD_INPUT {
        at_path(alloc, first_bytes(alloc, rt.reader()), INPUT_NAME)
    } else {
        at_path(alloc, open_and_read(rt, path), path)
    };
    Ok(String::from_utf8_lossy(alloc, first_line(&bytes?))?)
}

fn open_and_read<R: Files + AllocGlobal>(rt: &R, path: &str) -> io::Result<Vec<u8>> {
    first_bytes(rt.alloc(), File::open(rt, path)?)
}

// The first bytes of a reader.
fn first_bytes<F: Read + Drop>(alloc: Global, reader: F) -> io::Result<Vec<u8>>
    ensures { IfOk result
        (λ bytes. IfSome (F.remaining reader) (λ all. bytes.items ≡ take 256 all)) }
{
    let mut bytes = Vec::with_capacity(alloc, MOST_BYTES as usize)?;
    reader.take(MOST_BYTES).read_to_end(&mut bytes)?;
    Ok(bytes)
}

// A text without the line feed at its end.
fn first_line(text: &[u8]) -> &[u8]
    ensures { IsFirstLine text.entry.now result.now }
{
    match text.split_last() {
        Some((last, line)) if *last == LINE_FEED => line,
        _ => text,
    }
}

/// The words of a get with this cap.
pub(crate) fn get_words<'b: 'a, 'a>(words: &GetWords<'b>, cap: &'a str) -> GetWords<'a>
    ensures { result ≡ record words.now { cap = cap.entry } }
{
    GetWords { cap, ..*words }
}

/// Those of a check.
pub(crate) fn check_words<'b: 'a, 'a>(words: &CheckWords<'b>, cap: &'a str) -> CheckWords<'a>
    ensures { result ≡ record words.now { cap = cap.entry } }
{
    CheckWords { cap, ..*words }
}

/// Those of a repair.
pub(crate) fn repair_words<'b: 'a, 'a>(words: &RepairWords<'b>, cap: &'a str) -> RepairWords<'a>
    ensures { result ≡ record words.now { cap = cap.entry } }
{
    RepairWords { cap, ..*words }
}

/// Those of a verify.
pub(crate) fn verify_words<'b: 'a, 'a>(words: &VerifyWords<'b>, cap: &'a str) -> VerifyWords<'a>
    ensures { result ≡ record words.now { cap = cap.entry } }
{
    VerifyWords { cap, ..*words }
}
