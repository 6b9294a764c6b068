//! How far a command is, in one line.

ghost use Rattle.std.specs.Prelude.{◌≡◌, ◌<◌, ◌≤◌, length, IfOk, IfSome};
ghost use Rattle.std.specs.String.{string_bytes};
ghost use Rattle.grid_telling.specs.ProgressLine.{bytes_line, encoding_line, files_line};
ghost use Rattle.grid_telling.specs.ProgressLine.{left_text, progress_line, remark_text};
ghost use Rattle.grid_telling.specs.ProgressLine.{seconds_left};
ghost use Rattle.grid_telling.specs.ProgressLine.{verb_text, waits_text};

use grid_faults::server_name;
use std::alloc::{AllocError, Global};
use wire::message::NodeId;

/// What a command does.
#[derive(Clone, Copy, PartialEq, Eq)]
pub enum Verb {
    Put,
    Get,
    Check,
    Verify,
    Repair,
    Scrub,
}

/// How many bytes are done, of how many.
#[derive(Clone, Copy, PartialEq, Eq)]
pub(crate) struct Amount {
    pub done: u64,
    pub total: u64,
}

/// How many files are done, of how many, and how many bytes of all of them.
#[derive(Clone, Copy, PartialEq, Eq)]
pub(crate) struct FileCount {
    pub done: u32,
    pub total: u32,
    pub bytes: u64,
}

/// What is told beside it.
#[derive(Clone, Copy, PartialEq, Eq)]
pub(crate) enum Remark {
    Nothing,
    /// So many seconds are left, if it goes on as it did.
    Left(u64),
    /// Nothing came for some seconds, and this server was asked last.
    WaitsFor(NodeId),
}

/// The line of a command that moves bytes, of fewer than 80 columns, without an end. It counts
/// 1,000 bytes as one kB.
pub(crate) fn progress_line(
    alloc: Global,
    verb: Verb,
    amount: &Amount,
    remark: Remark,
) -> Result<String, AllocError>
    ensures short { IfOk result (λ line. length (string_bytes line) < 80) }
    ensures line { IfOk result (λ line. string_bytes line
        ≡ progress_line verb amount.now remark) }
{
    let remark = remark_text(alloc, remark)?;
    bytes_line(alloc, verb, amount.done, amount.total, remark.as_str())
}

// The same with the text of the remark.
fn bytes_line(
    alloc: Global,
    verb: Verb,
    done: u64,
    total: u64,
    remark: &str,
) -> Result<String, AllocError>
    requires { length remark.now ≤ 29 }
    ensures short { IfOk result (λ line. length (string_bytes line) < 80) }
    ensures line { IfOk result (λ line. string_bytes line
        ≡ bytes_line verb done total remark.now) }
{
    let (verb, done, total) = (verb_text(verb), done / 1000, total / 1000);
    format!(in alloc; "{verb}: {done} of {total} kB{remark}")
}

/// The line of a command over many files, of fewer than 80 columns, without an end. It counts
/// 1,000,000 bytes as one MB.
pub(crate) fn files_line(
    alloc: Global,
    verb: Verb,
    files: &FileCount,
    remark: Remark,
) -> Result<String, AllocError>
    ensures short { IfOk result (λ line. length (string_bytes line) < 80) }
    ensures line { IfOk result (λ line. string_bytes line
        ≡ files_line verb files.now (remark_text remark)) }
{
    let remark = remark_text(alloc, remark)?;
    counted_line(alloc, verb, files, remark.as_str())
}

// The same with the text of the remark.
fn counted_line(
    alloc: Global,
    verb: Verb,
    files: &FileCount,
    remark: &str,
) -> Result<String, AllocError>
    requires { length remark.now ≤ 29 }
    ensures short { IfOk result (λ line. length (string_bytes line) < 80) }
    ensures line { IfOk result (λ line. string_bytes line
        ≡ files_line verb files.now remark.now) }
{
    let (verb, done, total) = (verb_text(verb), files.done, files.total);
    let bytes = files.bytes / 1_000_000;
    format!(in alloc; "{verb} {done} of {total}: {bytes} MB{remark}")
}

/// The line of a command that encodes a file of so many bytes, of fewer than 80 columns, without an
/// end.
pub(crate) fn encoding_line(alloc: Global, verb: Verb, size: u64) -> Result<String, AllocError>
    ensures short { IfOk result (λ line. length (string_bytes line) < 80) }
    ensures line { IfOk result (λ line. string_bytes line ≡ encoding_line verb size) }
{
    let (verb, size) = (verb_text(verb), size / 1000);
    format!(in alloc; "{verb}: encoding {size} kB")
}

/// How many seconds are left after so many milliseconds, if it goes on as it did. `None` where
/// nothing is done yet.
pub(crate) fn seconds_left(elapsed: u64, amount: &Amount) -> Option<u64>
    ensures { IfSome result (λ seconds. seconds ≡ seconds_left elapsed amount.now) }
{
    if amount.done == 0 {
        return None;
    }
    let rest = amount.total.saturating_sub(amount.done);
    let left = u128::from(elapsed) * u128::from(rest) / u128::from(amount.done) / 1000;
    u64::try_from(left).ok()
}

fn verb_text(verb: Verb) -> &'static str
    ensures { result.now ≡ verb_text verb }
{
    match verb {
        Verb::Put => "put",
        Verb::Get => "get",
        Verb::Check => "check",
        Verb::Verify => "verify",
        Verb::Repair => "repair",
        Verb::Scrub => "scrub",
    }
}

fn remark_text(alloc: Global, remark: Remark) -> Result<String, AllocError>
    ensures short { IfOk result (λ text. length (string_bytes text) ≤ 29) }
    ensures text { IfOk result (λ text. string_bytes text ≡ remark_text remark) }
{
    match remark {
        Remark::Nothing => Ok(String::new(alloc)),
        Remark::Left(seconds) => left_text(alloc, seconds),
        Remark::WaitsFor(server) => waits_text(alloc, server),
    }
}

fn left_text(alloc: Global, seconds: u64) -> Result<String, AllocError>
    ensures short { IfOk result (λ text. length (string_bytes text) ≤ 29) }
    ensures text { IfOk result (λ text. string_bytes text ≡ left_text seconds) }
{
    format!(in alloc; ", {seconds} s left")
}

fn waits_text(alloc: Global, server: NodeId) -> Result<String, AllocError>
    ensures short { IfOk result (λ text. length (string_bytes text) ≤ 29) }
    ensures text { IfOk result (λ text. string_bytes text ≡ waits_text server) }
{
    let name = server_name(alloc, server)?;
    format!(in alloc; ", waiting for {name}")
}
