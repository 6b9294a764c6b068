//! The blocks of a segment, of the answers in the record.

ghost use Rattle.std.specs.Prelude.{◌≡◌, ◌<◌, ◌++◌, ◌*◌, All, IfOk, IfSome, IsNone};
ghost use Rattle.std.specs.Prelude.{IsTrue, OnOk, false, length};
ghost use Rattle.share_layout.specs.Geometry.{segment_count};
ghost use Rattle.share_layout.specs.Pieces.{block_length};
ghost use Rattle.download_supply.specs.Blocks.{IsHeld};
ghost use Rattle.download_file.specs.Answers.{answer_at, block_of, blocks_of};
ghost use Rattle.download_file.specs.Making.{AwaitsBlock};
ghost use Rattle.download_file.specs.Steps.{AreProved, AreReady, HasAll, HasBlock, IsNotReady};
ghost use Rattle.download_file.specs.Steps.{IsWrong, LacksSome};

use crate::reader::Reader;
use download_segments::Handout;
use download_supply::Supply;
use request_record::requests::Requests;
use std::alloc::{AllocError, Global};

// The bytes that are the answer to the request at a position, and none where they are not.
fn answer_at(requests: &Requests, position: usize) -> &[u8]
    ensures { result.now ≡ answer_at requests.now.entries position }
{
    match requests.bytes_at(position) {
        Some(bytes) => bytes,
        None => &[],
    }
}

/// The blocks of a segment that the readers at these positions hold, one after another, each of
/// this length.
pub(crate) fn join_blocks(
    alloc: Global,
    requests: &Requests,
    readers: &[Reader],
    positions: &[usize],
    number: u32,
    size: u32,
) -> Result<Vec<u8>, AllocError>
    requires { All (HasBlock readers.now number size) positions.now }
    ensures { IfOk result (λ joined.
        joined.items ≡ blocks_of requests.now.entries readers.now number positions.now) }
{
    let room = positions.len().saturating_mul(size as usize);
    let mut joined = Vec::with_capacity(alloc, room)?;
    for position in positions {
        push_block(
            requests,
            readers[*position].supply(),
            number,
            size,
            &mut joined,
        )?;
    }
    Ok(joined)
}

// Adds the block of a segment, which has this length.
fn push_block(
    requests: &Requests,
    supply: &Supply,
    number: u32,
    size: u32,
    joined: &mut Vec<u8>,
) -> Result<(), AllocError>
    requires held { IsHeld supply.now number }
    requires long { size ≡ block_length supply.now.geometry number }
    ensures { OnOk result (joined.new.items
        ≡ joined.old.items ++ block_of requests.now.entries supply.now number) }
{
    let mut skipped = supply.block_offset(number) as usize;
    let mut left = size as usize;
    for position in supply.block_positions(number) {
        let bytes = answer_at(requests, *position);
        let from = skipped.min(bytes.len());
        let upto = bytes.len().min(from + left);
        joined.extend_from_slice(&bytes[from..upto])?;
        left -= upto - from;
        skipped -= from;
    }
    Ok(())
}

/// The first of the readers at these positions whose block of a segment is not the one that its
/// block tree tells. The blocks stand one after another, each of this length.
pub(crate) fn find_wrong(
    readers: &[Reader],
    positions: &[usize],
    number: u32,
    joined: &[u8],
    size: u32,
) -> Option<usize>
    requires there { All (λ position. position < length readers.now) positions.now }
    requires ready { AreReady readers.now positions.now number }
    requires long { length joined.now ≡ length positions.now * size }
    ensures wrong { IfSome result
        (IsWrong readers.now positions.now number joined.now size) }
    ensures right { IsNone result → AreProved readers.now positions.now number joined.now size
        (length positions.now) }
{
    let mut rest = joined;
    for position in positions {
        let (block, others) = rest.split_at(size as usize);
        if !readers[*position].supply().proves(number, block) {
            return Some(*position);
        }
        rest = others;
    }
    None
}

// Whether each of the readers at these positions has the block of a segment, and knows its hash.
fn are_ready(readers: &[Reader], positions: &[usize], number: u32) -> bool
    requires { All (λ position. position < length readers.now) positions.now }
    ensures yes { IsTrue result → AreReady readers.now positions.now number }
    ensures no { result ≡ false → IsNotReady readers.now positions.now number }
{
    // Blocks are asked in turn, so that the last one tells most often that one is missing.
    if !is_last_ready(readers, positions, number) {
        return false;
    }
    for position in positions {
        if !readers[*position].supply().is_ready(number) {
            return false;
        }
    }
    true
}

// Whether the last of these readers, where there is one, has the block of a segment, and knows its
// hash.
fn is_last_ready(readers: &[Reader], positions: &[usize], number: u32) -> bool
    requires { All (λ position. position < length readers.now) positions.now }
    ensures { result ≡ false → IsNotReady readers.now positions.now number }
{
    match positions.last() {
        Some(position) => readers[*position].supply().is_ready(number),
        None => true,
    }
}

/// Whether as many shares as are needed are read, all their blocks of a segment were taken, and the
/// segment's hash is known.
pub(crate) fn has_all(handout: &Handout, readers: &[Reader], live: &[usize], number: u32) -> bool
    requires there { number < segment_count handout.now.geometry }
    requires live { All (λ position. position < length readers.now) live.now }
    ensures yes { IsTrue result → HasAll handout.now readers.now live.now number }
    ensures no { result ≡ false → LacksSome handout.now readers.now live.now number }
{
    live.len() == usize::from(handout.geometry().needed())
        && handout.knows(number)
        && are_ready(readers, live, number)
}

/// Whether one of the readers at these positions has not its block of a segment, and something
/// waits of it.
pub(crate) fn awaits_block(readers: &[Reader], live: &[usize], number: u32) -> bool
    requires { All (λ position. position < length readers.now) live.now }
    ensures { IsTrue result → AwaitsBlock readers.now live.now number }
{
    for position in live {
        let reader = &readers[*position];
        if reader.first_position().is_some() && !reader.supply().is_ready(number) {
            return true;
        }
    }
    false
}
