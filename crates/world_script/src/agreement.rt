//! Whether all bytes agree that were handed out.

ghost use Rattle.std.specs.Prelude.{◌≡◌, ◌↔◌, All, IfOk, IsTrue, true};
ghost use Rattle.download_segments.specs.declared.piece.Piece.{Piece};
ghost use Rattle.world_script.specs.Agreement.{Agree};
ghost use Rattle.world_script.specs.Agreeing.{AgreesWith, AllHave, AreSame, GoOn, Has, IsHappy};

use crate::events::upload_cap;
use cap_text::ReadCap;
use download_core::status::Piece;
use std::alloc::{AllocError, Global};
use world_operations::job::Job;
use world_operations::operation::Operation;
use world_operations::status::Status;

// Did no two downloads of one cap hand out different bytes for one offset, and none of a happy
// upload's cap another byte than its file has there?
pub(crate) fn agree(alloc: Global, operations: &[Operation]) -> Result<bool, AllocError>
    ensures { IfOk result (λ agrees. (agrees ≡ true) ↔ Agree operations.now) }
{
    for operation in operations {
        let agrees = agree_with(alloc, operation, operations)?;
        if !agrees {
            return Ok(false);
        }
    }
    Ok(true)
}

// Do all downloads agree with an operation?
fn agree_with(
    alloc: Global,
    operation: &Operation,
    operations: &[Operation],
) -> Result<bool, AllocError>
    ensures { IfOk result
        (λ agrees. (agrees ≡ true) ↔ AgreesWith operation.now operations.now) }
{
    match &operation.job {
        Job::Download(cap, _, _) => Ok(have_pieces(cap, operation, operations)),
        Job::Upload(file, _, _) if is_happy(operation) => match upload_cap(alloc, &operation.job)? {
            Some(cap) => Ok(have_bytes(&cap, 0, file.as_slice(), operations)),
            None => Ok(true),
        },
        Job::Upload(_, _, _) | Job::Changing(_, _, _, _, _) => Ok(true),
        Job::Check(_) | Job::Repair(_, _) | Job::NoRepair(_, _) => Ok(true),
    }
}

// Is it an upload that answered Happy?
fn is_happy(operation: &Operation) -> bool
    ensures { IsTrue result ↔ IsHappy operation.now }
{
    matches!(operation.status(), Status::Happy(_))
}

// Do all downloads of a cap agree with the pieces that an operation handed out?
fn have_pieces(cap: &ReadCap, operation: &Operation, operations: &[Operation]) -> bool
    ensures { IsTrue result ↔ All (λ (piece : Piece). AllHave cap.now piece.offset piece.bytes
        operations.now) operation.now.given }
{
    for piece in operation.given.as_slice() {
        if !have_bytes(cap, piece.offset, piece.bytes.as_slice(), operations) {
            return false;
        }
    }
    true
}

// Do all downloads of a cap agree with bytes from an offset on?
fn have_bytes(cap: &ReadCap, offset: u64, bytes: &[u8], operations: &[Operation]) -> bool
    ensures { IsTrue result ↔ AllHave cap.now offset bytes.now operations.now }
{
    for operation in operations {
        if !has_bytes(cap, offset, bytes, operation) {
            return false;
        }
    }
    true
}

// Does an operation, if it is a download of this cap, agree with bytes from an offset on?
fn has_bytes(cap: &ReadCap, offset: u64, bytes: &[u8], operation: &Operation) -> bool
    ensures { IsTrue result ↔ Has cap.now offset bytes.now operation.now }
{
    match &operation.job {
        Job::Download(other, _, _) if other == cap => {
            have_same(offset, bytes, operation.given.as_slice())
        }
        _ => true,
    }
}

// Do all pieces agree with bytes from an offset on?
fn have_same(offset: u64, bytes: &[u8], pieces: &[Piece]) -> bool
    ensures { IsTrue result
        ↔ All (λ (piece : Piece). AreSame piece.offset piece.bytes offset bytes.now) pieces.now }
{
    for piece in pieces {
        if !are_same(piece.offset, piece.bytes.as_slice(), offset, bytes) {
            return false;
        }
    }
    true
}

// Have bytes from two offsets on the same byte wherever both have one?
fn are_same(offset: u64, bytes: &[u8], other_offset: u64, others: &[u8]) -> bool
    ensures { IsTrue result ↔ AreSame offset bytes.now other_offset others.now }
{
    if offset <= other_offset {
        go_on(bytes, other_offset - offset, others)
    } else {
        go_on(others, offset - other_offset, bytes)
    }
}

// Do bytes from an offset on go on as others do, as far as both go?
fn go_on(bytes: &[u8], from: u64, others: &[u8]) -> bool
    ensures { IsTrue result ↔ GoOn bytes.now from others.now }
{
    if from >= bytes.len() as u64 {
        return true;
    }
    for offset in 0..others.len().min(bytes.len() - from as usize) {
        if bytes[from as usize + offset] != others[offset] {
            return false;
        }
    }
    true
}
