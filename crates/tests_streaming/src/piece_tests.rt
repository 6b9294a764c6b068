//! Pieces of shares, beside the shares of whole encodings.

use crate::prepare_tests::{Halting, counted};
use block_making::BlockSlots;
use file_encoding::{Params, Share, encode_all};
use file_streaming::{PieceError, Prepared, prepare};
use sources::{ChangingSource, FileSource, SliceSource, Source};
use std::alloc::{AllocError, Global};
use std::test::Fail;

// In which order the pieces of all shares are made.
#[derive(Clone, Copy)]
enum Order {
    // The first piece of each share, then the second of each, and so on.
    InStep,
    // The same from the last to the first.
    Backwards,
    // All pieces of a share, and then those of the next.
    OneByOne,
}

const ORDERS: [Order; 3] = [Order::InStep, Order::Backwards, Order::OneByOne];

// A piece of a share, or none where it does not lie in the share.
fn piece_of<S: Source>(
    prepared: &mut Prepared,
    source: &mut S,
    number: u64,
    offset: u64,
    out: &mut [u8],
) -> Option<Result<(), PieceError>> {
    if number > 255 || number as usize >= prepared.digests().len() {
        return None;
    }
    let length = prepared.share_length();
    if offset > length || out.len() as u64 > length - offset {
        return None;
    }
    Some(prepared.piece(source, number as u8, offset, out))
}

// The share and the piece of a turn, of so many shares and pieces of each.
fn turn_of(order: Order, shares: u64, pieces: u64, turn: u64) -> (u64, u64) {
    if shares == 0 || pieces == 0 {
        return (0, 0);
    }
    match order {
        Order::InStep => (turn % shares, turn / shares),
        Order::Backwards => {
            let turn = shares
                .saturating_mul(pieces)
                .saturating_sub(turn)
                .saturating_sub(1);
            (turn % shares, turn / shares)
        }
        Order::OneByOne => (turn / pieces, turn % pieces),
    }
}

// The bytes of a piece, as the whole share has them.
fn part_of(shares: &[Share], number: u64, offset: u64, length: u64) -> Option<&[u8]> {
    let share = shares.get(number as usize)?.as_slice();
    let end = offset.saturating_add(length).min(share.len() as u64);
    share.get(offset as usize..end as usize)
}

// Whether a piece is that of the whole share.
fn has_piece<S: Source>(
    prepared: &mut Prepared,
    source: &mut S,
    shares: &[Share],
    position: (u64, u64),
    out: &mut [u8],
) -> bool {
    let (number, piece) = position;
    let offset = piece.saturating_mul(out.len() as u64);
    let Some(part) = part_of(shares, number, offset, out.len() as u64) else {
        return false;
    };
    let Some(room) = out.get_mut(..part.len()) else {
        return false;
    };
    piece_of(prepared, source, number, offset, room) == Some(Ok(())) && *room == *part
}

// Whether all pieces of this length, made in an order, are those of the whole shares.
fn has_pieces<S: Source>(
    prepared: &mut Prepared,
    source: &mut S,
    shares: &[Share],
    order: Order,
    out: &mut [u8],
) -> bool {
    if out.is_empty() {
        return false;
    }
    let count = shares.len() as u64;
    let pieces = prepared.share_length().div_ceil(out.len() as u64);
    for turn in 0..count.saturating_mul(pieces) {
        let offset = turn_of(order, count, pieces, turn);
        if !has_piece(prepared, source, shares, offset, out) {
            return false;
        }
    }
    true
}

// Whether the pieces of this length are those of the whole encoding, in each order.
fn is_made_again(
    alloc: Global,
    file: &[u8],
    numbers: (u64, u64, u64),
    length: usize,
) -> Result<bool, AllocError> {
    let (needed, total, segment) = numbers;
    let Ok(params) = Params::new(needed, 1, total, segment) else {
        return Ok(false);
    };
    let Ok(encoded) = encode_all(alloc, file, b"", &params) else {
        return Ok(false);
    };
    if file.len() < 56 {
        return Ok(false);
    }
    let mut out = vec![in alloc; 7u8; length]?;
    for order in ORDERS {
        let mut source = SliceSource::new(file);
        let Ok(mut prepared) = prepare(alloc, &mut source, b"", &params) else {
            return Ok(false);
        };
        if !has_pieces(&mut prepared, &mut source, &encoded.shares, order, &mut out) {
            return Ok(false);
        }
    }
    Ok(true)
}

// Numbers of a file of 301 bytes, and lengths of pieces.
static MIDDLE: [((u64, u64, u64), usize); 7] = [
    ((1, 2, 100), 32),
    ((3, 10, 100), 1),
    ((3, 10, 100), 45),
    ((3, 10, 3), 64),
    ((3, 10, 100), 1000),
    ((2, 17, 50), 20),
    ((256, 256, 131_072), 100),
];

// Whether a file of so many bytes is made again.
fn counted_is_made(
    alloc: Global,
    size: usize,
    numbers: (u64, u64, u64),
    length: usize,
) -> Result<bool, AllocError> {
    let file = counted(alloc, size)?;
    is_made_again(alloc, &file, numbers, length)
}

// One segment and many, blocks that are shorter than a piece and longer ones, one share and 256.
#[test]
fn pieces_are_those_of_the_shares(rt: HostRuntime) -> Result<(), Fail> {
    assert!(rt; is_made_again(rt.alloc(), &[0; 56], (1, 1, 131_072), 7)?);
    assert!(rt; counted_is_made(rt.alloc(), 56, (3, 10, 131_072), 13)?);
    for (numbers, length) in MIDDLE {
        assert!(rt;
            counted_is_made(rt.alloc(), 301, numbers, length)?,
            "{length}"
        );
    }
    assert!(rt; counted_is_made(rt.alloc(), 131_074, (3, 10, 131_072), 32_768)?);
    Ok(())
}

// Whether the pieces of a file of zero bytes, made in step, are given where so many reads succeed.
fn is_enough(
    alloc: Global,
    numbers: (u64, u64, u64),
    length: usize,
    reads: u64,
) -> Result<bool, AllocError> {
    let (needed, total, segment) = numbers;
    let Ok(params) = Params::new(needed, 1, total, segment) else {
        return Ok(false);
    };
    let Ok(encoded) = encode_all(alloc, &[0; 300], b"", &params) else {
        return Ok(false);
    };
    let reader = Halting {
        left: reads,
        fails: true,
    };
    let mut source = FileSource::new(reader, 300);
    let Ok(mut prepared) = prepare(alloc, &mut source, b"", &params) else {
        return Ok(false);
    };
    let mut out = vec![in alloc; 7u8; length]?;
    Ok(has_pieces(
        &mut prepared,
        &mut source,
        &encoded.shares,
        Order::InStep,
        &mut out,
    ))
}

// While all shares go in step each segment is read once more than by the two passes, which read
// eight at a time: 1, 3, 4 and 20 segments.
#[test]
fn segments_are_read_once_in_step(rt: HostRuntime) -> Result<(), Fail> {
    let alloc = rt.alloc();
    for (needed, total, segment, length, reads) in [
        (1, 1, 300, 100, 1 + 2),
        (1, 9, 100, 70, 3 + 2),
        (3, 10, 90, 40, 4 + 2),
        (3, 10, 15, 200, 20 + 6),
    ] {
        let numbers = (needed, total, segment);
        assert!(rt; is_enough(alloc, numbers, length, reads)?);
        assert!(rt; !is_enough(alloc, numbers, length, reads - 1)?);
    }
    Ok(())
}

// A source that changes between pieces: a block that was made before is given still, one of a later
// segment is refused, and what stands around the blocks is given.
#[test]
fn pieces_of_changed_sources(rt: HostRuntime) -> Result<(), Fail> {
    let alloc = rt.alloc();
    let Ok(params) = Params::new(1, 1, 2, 100) else {
        return Err(Fail::from("numbers"));
    };
    let file = vec![in alloc; 0u8; 300]?;
    let other = vec![in alloc; 255u8; 300]?;
    let mut source = ChangingSource::new(file, other, 700);
    let Ok(mut prepared) = prepare(alloc, &mut source, b"", &params) else {
        return Err(Fail::from("prepare"));
    };
    let mut out = [0u8; 100];
    let given = Some(Ok(()));
    let changed = Some(Err(PieceError::SourceChanged));
    assert!(rt; piece_of(&mut prepared, &mut source, 0, 36, &mut out) == given);
    assert!(rt; piece_of(&mut prepared, &mut source, 1, 36, &mut out) == given);
    assert!(rt; piece_of(&mut prepared, &mut source, 0, 136, &mut out) == changed);
    assert!(rt; piece_of(&mut prepared, &mut source, 1, 136, &mut out) == changed);
    assert!(rt; piece_of(&mut prepared, &mut source, 0, 36, &mut out) == given);
    assert!(rt; piece_of(&mut prepared, &mut source, 1, 0, &mut out) == given);
    assert!(rt; piece_of(&mut prepared, &mut source, 0, 335, &mut out) == changed);
    assert!(rt; piece_of(&mut prepared, &mut source, 0, 336, &mut out) == given);
    Ok(())
}

// Each read of a source fails in turn: the two of its passes, and that of a piece.
#[test]
fn each_read_fails_in_turn(rt: HostRuntime) -> Result<(), Fail> {
    let alloc = rt.alloc();
    let Ok(params) = Params::new(1, 1, 1, 131_072) else {
        return Err(Fail::from("numbers"));
    };
    for left in 0..4 {
        let reader = Halting { left, fails: true };
        let mut source = FileSource::new(reader, 56);
        let Ok(mut prepared) = prepare(alloc, &mut source, b"", &params) else {
            assert!(rt; left < 2);
            continue;
        };
        let expected = if left == 2 {
            Err(PieceError::SourceFault)
        } else {
            Ok(())
        };
        let outcome = piece_of(&mut prepared, &mut source, 0, 36, &mut [0; 56]);
        assert!(rt; 2 <= left && outcome == Some(expected));
    }
    Ok(())
}

// There are slots for as many of the shares as have room, and a block stays until another of its
// share stands in its slot.
#[test]
fn slots_keep_blocks(rt: HostRuntime) -> Result<(), Fail> {
    let alloc = rt.alloc();
    let mut slots = BlockSlots::new(alloc, 256, 1 << 27, 4)?;
    slots.put(0, 0, b"one");
    slots.put(0, 3, b"two");
    slots.put(1, 3, b"three");
    slots.put(2, 3, b"four");
    assert!(rt; slots.get(0, 0) == Some(&b"one"[..]));
    assert!(rt; slots.get(0, 3) == Some(&b"two"[..]));
    assert!(rt; slots.get(1, 3).is_none() && slots.get(2, 3).is_none());
    slots.put(0, 7, b"five");
    assert!(rt; slots.get(0, 3).is_none() && slots.get(0, 7) == Some(&b"five"[..]));
    assert!(rt; slots.wants(0, 1) && !slots.wants(0, 0) && !slots.wants(0, 4));
    assert!(rt; !slots.wants(1, 1));
    slots.advance(0, 2);
    assert!(rt; !slots.wants(0, 1) && slots.wants(0, 5) && !slots.wants(0, 6));
    Ok(())
}
