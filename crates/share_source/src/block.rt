//! The extension block of a share.

ghost use Rattle.std.specs.Prelude.{◌≡◌, ◌≤◌, ◌<◌, IfNone, IfOk, IfSome, length};
ghost use Rattle.share_source.specs.Block.{Goes, IsNoBlock, IsReadBlock};
ghost use Rattle.share_source.specs.Reads.{WasRead};

use crate::bytes::ShareBytes;
use crate::leaf_reading::read_bytes;
use cap_text::VerifyCap;
use share_reading::Opening;
use share_reading::opening::Progress;
use std::alloc::{AllocError, Global};
use ueb::Ueb;

/// The extension block of a cap's file, and what it says.
#[derive(Drop)]
pub struct ReadBlock {
    pub ueb: Ueb,
    pub bytes: Vec<u8>,
}

// What comes of the next read of a share's beginning.
#[derive(Drop)]
enum Step {
    /// The opening goes on.
    Next(Opening),
    /// The extension block was read.
    Done(ReadBlock),
    /// The bytes could not be read, or are refused.
    Refused,
}

/// How many reads lead to an extension block at most: of two parts of the header, of the block's
/// length, and of the block.
const MOST_READS: usize = 4;

/// The extension block of a cap's file, read of the share at a position. `None` where a read
/// failed, or where the share's beginning is none of the file's.
pub fn read_block<B: ShareBytes>(
    alloc: Global,
    cap: &VerifyCap,
    bytes: &mut B,
    position: usize,
) -> Result<Option<ReadBlock>, AllocError>
    ensures block { IfOk result (λ found. IfSome found (IsReadBlock cap.now)) }
    ensures none { IfOk result (λ found. IfNone found
        (IsNoBlock B.gives B.fails cap.now position bytes.old bytes.new)) }
    ensures reads { WasRead B.gives B.fails bytes.old bytes.new }
{
    let mut opening = Opening::start();
    'reads: for done in 0..MOST_READS {
        match read_next(alloc, cap, bytes, position, &opening)? {
            Step::Next(next) => opening = next,
            Step::Done(block) => return Ok(Some(block)),
            Step::Refused => return Ok(None),
        }
    }
    unreachable!()
}

// Reads the bytes that an opening asks for next.
fn read_next<B: ShareBytes>(
    alloc: Global,
    cap: &VerifyCap,
    bytes: &mut B,
    position: usize,
    opening: &Opening,
) -> Result<Step, AllocError>
    ensures goes { IfOk result (λ step.
        Goes B.gives B.fails cap.now position opening.now bytes.old step bytes.new) }
    ensures reads { WasRead B.gives B.fails bytes.old bytes.new }
{
    let (offset, size) = (opening.next_offset(), opening.next_length() as usize);
    let Some(text) = read_bytes(alloc, bytes, position, offset, size)? else {
        return Ok(Step::Refused);
    };
    match opening.take(cap, &text) {
        Ok(Progress::Next(next)) => Ok(Step::Next(next)),
        Ok(Progress::Done(opened)) => Ok(Step::Done(ReadBlock {
            ueb: opened.ueb,
            bytes: text,
        })),
        Err(_) => Ok(Step::Refused),
    }
}
