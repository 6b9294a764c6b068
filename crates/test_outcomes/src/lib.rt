//! What tests of worlds look at: how operations ended, what they handed out, which shares they
//! blame or find, and what was sent.
#![tactic(auto)]

use checker::Check;
use checker::status::ShareVerdict;
use download_core::Download;
use download_core::status::{Blame, Piece};
use proved_parts::{Evidence, find_clash};
use share_reading::Verdict;
use share_verify::Check as Section;
use std::alloc::Global;
use test_shares::no_code_word::{SEGMENT_SIZE, SIZE};
use wire::decoding::decode;
use wire::message::{Body, NodeId};
use world::World;
use world_operations::message::Sent;
use world_operations::operation::Operation;
use world_operations::status::Status;
use world_operations::task::Task;

/// Did an operation come to this, and hand out so many pieces of so many bytes, which are all this
/// one, if there is one?
pub fn ends_so(
    world: &World,
    number: usize,
    status: Status,
    counts: (usize, usize),
    byte: Option<u8>,
) -> bool {
    match world.given(number) {
        Some(pieces) => {
            world.status(number) == Some(status)
                && counts == (pieces.len(), byte_count(pieces))
                && are_all(pieces, byte)
        }
        None => false,
    }
}

fn byte_count(pieces: &[Piece]) -> usize {
    let mut count: usize = 0;
    for piece in pieces {
        count = count.saturating_add(piece.bytes.as_slice().len());
    }
    count
}

fn are_all(pieces: &[Piece], byte: Option<u8>) -> bool {
    for piece in pieces {
        for other in piece.bytes.as_slice() {
            if byte.is_some() && byte != Some(*other) {
                return false;
            }
        }
    }
    true
}

/// Is the message at this position so, or is there none?
pub fn is_said(world: &World, position: usize, said: Option<(NodeId, NodeId, u8)>) -> bool {
    match (world.sent().get(position), said) {
        (Some(sent), Some((from, to, byte))) => {
            sent.from == from && sent.to == to && sent.body.as_slice() == [byte].as_slice()
        }
        (None, None) => true,
        _ => false,
    }
}

/// Does a download blame these shares at servers, in this order, and no others?
pub fn blames(operations: &[Operation], number: usize, wanted: &[(NodeId, u8, Section)]) -> bool {
    match operations.get(number) {
        Some(operation) => match &operation.task {
            Task::Downloading(download) => are_these(download.blamed(), wanted),
            _ => false,
        },
        None => false,
    }
}

fn are_these(blamed: &[Blame], wanted: &[(NodeId, u8, Section)]) -> bool {
    if blamed.len() != wanted.len() {
        return false;
    }
    for (blame, want) in blamed.iter().zip(wanted) {
        if (blame.server, blame.share, blame.check) != *want {
            return false;
        }
    }
    true
}

/// Does a check find so many shares good, and this of each other?
pub fn finds(
    alloc: Global,
    operations: &[Operation],
    number: usize,
    good: usize,
    wanted: &[(NodeId, u8, Verdict)],
) -> bool {
    match operations.get(number) {
        Some(operation) => match &operation.task {
            Task::Checking(check) => tells(alloc, check, good, wanted),
            _ => false,
        },
        None => false,
    }
}

fn tells(alloc: Global, check: &Check, good: usize, wanted: &[(NodeId, u8, Verdict)]) -> bool {
    match check.report(alloc) {
        Ok(Some(report)) => are_found(report.verdicts.as_slice(), good, wanted),
        _ => false,
    }
}

// No share at a server has two verdicts.
fn are_found(verdicts: &[ShareVerdict], good: usize, wanted: &[(NodeId, u8, Verdict)]) -> bool {
    let mut count: usize = 0;
    for found in verdicts {
        if found.verdict == Verdict::Good {
            count = count.saturating_add(1);
        } else if !wanted.contains(&(found.server, found.share, found.verdict)) {
            return false;
        }
    }
    count == good && verdicts.len() == good.saturating_add(wanted.len())
}

/// Does each Read of a share that was sent to a node lie in one of these parts?
pub fn reads_lie(
    alloc: Global,
    all: &[Sent],
    node: NodeId,
    share: u8,
    parts: &[(u64, u64)],
) -> bool {
    for sent in all {
        if sent.to == node && !lies_in(alloc, sent, share, parts) {
            return false;
        }
    }
    true
}

// What is no Read of this share does.
fn lies_in(alloc: Global, sent: &Sent, share: u8, parts: &[(u64, u64)]) -> bool {
    let Ok(message) = decode(alloc, sent.body.as_slice()) else {
        return true;
    };
    match &message.body {
        Body::Read(id, offset, length) if id.share == share => {
            is_within(
                *offset,
                offset.saturating_add(u64::from(length.get())),
                parts,
            )
        }
        _ => true,
    }
}

fn is_within(from: u64, to: u64, parts: &[(u64, u64)]) -> bool {
    for (start, end) in parts {
        if *start <= from && to <= *end {
            return true;
        }
    }
    false
}

/// Did a node say so many messages at least?
pub fn says(all: &[Sent], node: NodeId, count: usize) -> bool {
    let mut said: usize = 0;
    for sent in all {
        if sent.from == node {
            said = said.saturating_add(1);
        }
    }
    count <= said
}

/// Did the first downloads, each from a pair of servers of the file that is no code word, end as
/// they have to? Its ciphertext tree tells that its second segment is bytes `told`. From the right
/// pair all of the file comes, and from any other its first segment, which is a code word, and no
/// more. No position has two bytes.
pub fn kept_end(alloc: Global, world: &World, told: u8, pairs: &[(u8, u8)]) -> bool {
    for (number, pair) in pairs.iter().enumerate() {
        let (status, counts) = if is_right(told, *pair) {
            (Status::Done, (2, SIZE))
        } else {
            (Status::Inconsistent, (1, SEGMENT_SIZE))
        };
        if !ends_so(world, number, status, counts, None) {
            return false;
        }
    }
    match world.operations().get(..pairs.len()) {
        Some(operations) => agree(alloc, operations),
        None => false,
    }
}

// Do the shares of this pair of servers give a second segment of these bytes? For byte 9 there are
// none.
fn is_right(told: u8, pair: (u8, u8)) -> bool {
    (told, pair) == (7, (0, 1)) || (told, pair) == (8, (2, 3))
}

// Do all downloads of one file agree?
fn agree(alloc: Global, operations: &[Operation]) -> bool {
    let Ok(mut known) = vec![in alloc; None; SIZE] else {
        return false;
    };
    for operation in operations {
        for piece in operation.given.as_slice() {
            if !agrees(known.as_mut_slice(), piece) {
                return false;
            }
        }
    }
    true
}

// Has a piece the bytes that are known? Those that are not known yet are so from then on.
fn agrees(known: &mut [Option<u8>], piece: &Piece) -> bool {
    for (i, byte) in piece.bytes.as_slice().iter().enumerate() {
        let Some(position) = known.get_mut((piece.offset as usize).saturating_add(i)) else {
            return false;
        };
        if position.is_some() && *position != Some(*byte) {
            return false;
        }
        *position = Some(*byte);
    }
    true
}

/// Has no evidence of the downloads a clash with another? Each of them has some.
pub fn are_without_clash(alloc: Global, operations: &[Operation]) -> bool {
    let mut kept = Vec::new(alloc);
    for operation in operations {
        if let Task::Downloading(download) = &operation.task {
            if !keep(alloc, download, &mut kept) {
                return false;
            }
        }
    }
    have_no_clash(alloc, kept.as_slice())
}

fn keep(alloc: Global, download: &Download, kept: &mut Vec<Evidence>) -> bool {
    match download.evidence(alloc) {
        Ok(Some(evidence)) => kept.push(evidence).is_ok(),
        _ => false,
    }
}

fn have_no_clash(alloc: Global, kept: &[Evidence]) -> bool {
    for one in kept {
        for other in kept {
            if !matches!(find_clash(alloc, one, other), Ok(None)) {
                return false;
            }
        }
    }
    true
}
