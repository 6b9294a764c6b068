//! The lines that tell what a script came to.

ghost use Rattle.std.specs.Prelude.{◌≡◌, ◌*◌, ◌≤◌, ◌^◌, IfOk, length};
ghost use Rattle.std.specs.String.{string_bytes};
ghost use Rattle.world_script.specs.Telling.{byte_count, done_text, end_lines, kind_text};
ghost use Rattle.world_script.specs.Telling.{operation_line, status_text};
ghost use Rattle.world_operations.specs.Status.{status_of};

use download_core::status::Piece;
use std::alloc::{AllocError, Global};
use world_operations::job::Job;
use world_operations::operation::Operation;
use world_operations::status::Status;

// The line of an operation: its number, what it is and what became of it.
pub(crate) fn operation_line(
    alloc: Global,
    number: usize,
    operation: &Operation,
) -> Result<String, AllocError>
    ensures { IfOk result (λ line. string_bytes line ≡ operation_line number operation.now) }
{
    let (kind, status) = (kind_text(&operation.job), status_text(alloc, operation)?);
    format!(in alloc; "{number} {kind} {status}\n")
}

fn kind_text(job: &Job) -> &'static str
    ensures { result.now ≡ kind_text job.now }
{
    match job {
        Job::Upload(_, _, _) | Job::Changing(_, _, _, _, _) => "upload",
        Job::Download(_, _, _) => "download",
        Job::Check(_) => "check",
        Job::Repair(_, _) | Job::NoRepair(_, _) => "repair",
    }
}

// What became of an operation. A download that is done tells how many bytes it handed out.
fn status_text(alloc: Global, operation: &Operation) -> Result<String, AllocError>
    ensures { IfOk result (λ text. string_bytes text
        ≡ status_text (status_of operation.now) operation.now.job operation.now.given) }
{
    match operation.status() {
        Status::Happy(pairs) => format!(in alloc; "happy {pairs}"),
        Status::Unhappy(reached, wanted) => format!(in alloc; "unhappy {reached} {wanted}"),
        Status::Done => done_text(alloc, operation),
        Status::Running => String::from_str(alloc, "running"),
        Status::Forgotten => String::from_str(alloc, "forgotten"),
        Status::NotEnoughShares => String::from_str(alloc, "not-enough"),
        Status::Inconsistent => String::from_str(alloc, "inconsistent"),
        Status::Failed(_) => String::from_str(alloc, "failed"),
    }
}

fn done_text(alloc: Global, operation: &Operation) -> Result<String, AllocError>
    ensures { IfOk result
        (λ text. string_bytes text ≡ done_text operation.now.job operation.now.given) }
{
    match operation.job {
        Job::Download(_, _, _) => {
            let bytes = byte_count(operation.given.as_slice());
            format!(in alloc; "done {bytes}")
        }
        _ => String::from_str(alloc, "done"),
    }
}

// How many bytes these pieces have together.
fn byte_count(pieces: &[Piece]) -> u128
    ensures { result ≡ byte_count pieces.now }
{
    let mut count: u128 = 0;
    for piece in pieces {
        count += piece.bytes.as_slice().len() as u128;
    }
    count
}

// The lines after those of the operations.
pub(crate) fn end_lines(alloc: Global, agrees: bool, events: u128) -> Result<String, AllocError>
    ensures { IfOk result (λ lines. string_bytes lines ≡ end_lines agrees events) }
{
    let word = if agrees { "yes" } else { "no" };
    format!(in alloc; "agree {word}\nevents {events}\n")
}
