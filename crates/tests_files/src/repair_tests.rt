//! Shares that are made anew without the key, beside the digests of each file's shares that other
//! programs computed.

use crate::file_encoding_tests::{
    NO_SECRET, ONE, Refused, SEGMENT, SMALL_SEGMENTS, THREE_OF_TEN, TWO_SEGMENTS, counted, encoded,
    have_digests, no_code_word, taken,
};
use cap_text::{Cap, VerifyCap};
use file_encoding::{Encoded, ReadError, RegenerateError, Share, regenerate, regenerate_all};
use std::alloc::{AllocError, Global};
use std::test::Fail;

// The shares of these numbers, each with its number.
fn of_numbers<'a>(
    alloc: Global,
    shares: &'a [Share],
    numbers: &[u16],
) -> Result<Vec<(u16, &'a [u8])>, AllocError> {
    let mut given = Vec::new(alloc);
    for number in numbers {
        if let Some(share) = shares.get(usize::from(*number)) {
            given.push((*number, share.as_slice()))?;
        }
    }
    Ok(given)
}

// A file whose byte i is i modulo 251, as it is stored.
#[derive(Drop)]
struct Stored {
    cap: VerifyCap,
    shares: Vec<Share>,
}

// Stores such a file: its size, shares needed and in all, bytes a segment.
fn store_counted(
    alloc: Global,
    numbers: (usize, u64, u64, u64),
    secret: &str,
) -> Result<Stored, Refused> {
    let (size, needed, total, segment) = numbers;
    let file = taken(counted(alloc, size))?;
    let Encoded { cap, shares, .. } = taken(encoded(alloc, &file, secret, needed, total, segment))?;
    match verify_cap(&cap) {
        Some(cap) => Ok(Stored { cap, shares }),
        None => Err(Refused),
    }
}

// The verify cap of a file's cap.
fn verify_cap(cap: &Cap) -> Option<VerifyCap> {
    match cap {
        Cap::Chk(cap) => Some(cap.to_verify()),
        Cap::Verify(_) | Cap::Lit(_) => None,
    }
}

// Whether all shares of a file, made anew of those of these numbers, have this length and these
// digests.
fn are_made(
    alloc: Global,
    stored: &Stored,
    numbers: &[u16],
    len: usize,
    digests: &[&str],
) -> Result<bool, Refused> {
    let given = taken(of_numbers(alloc, &stored.shares, numbers))?;
    let made = taken(regenerate_all(alloc, &stored.cap, &given))?;
    taken(have_digests(alloc, &made, len, digests))
}

#[test]
fn shares_are_made_anew_of_others(rt: HostRuntime) -> Result<(), Fail> {
    let alloc = rt.alloc();
    let small = store_counted(alloc, (56, 3, 10, SEGMENT), NO_SECRET)?;
    assert!(rt; are_made(alloc, &small, &[7, 2, 9], 633, &THREE_OF_TEN)?);
    let two = store_counted(alloc, (131_074, 3, 10, SEGMENT), NO_SECRET)?;
    assert!(rt; are_made(alloc, &two, &[9, 8, 7, 0], 44_510, &TWO_SEGMENTS)?);
    let many = store_counted(alloc, (30_000, 2, 5, 4096), "friends of the grid")?;
    assert!(rt; are_made(alloc, &many, &[4, 3], 16_930, &SMALL_SEGMENTS)?);
    Ok(())
}

// Whether a share was not made, for this.
fn is_refused(share: Result<Vec<u8>, RegenerateError>, wanted: RegenerateError) -> bool {
    match share {
        Ok(_) => false,
        Err(error) => error == wanted,
    }
}

#[test]
fn one_share_is_made_anew(rt: HostRuntime) -> Result<(), Fail> {
    let alloc = rt.alloc();
    let small = store_counted(alloc, (56, 3, 10, SEGMENT), NO_SECRET)?;
    let given = of_numbers(alloc, &small.shares, &[1, 4, 8])?;
    let share = taken(regenerate(alloc, &small.cap, &given, 5))?;
    let wanted = &THREE_OF_TEN[5..6];
    assert!(rt; have_digests(alloc, &[Share::from_vec(share)], 633, wanted)?);
    let none = regenerate(alloc, &small.cap, &given, 10);
    assert!(rt; is_refused(none, RegenerateError::BadNumber));
    let few = regenerate(alloc, &small.cap, given.get(1..).unwrap_or(&[]), 5);
    assert!(rt; is_refused(few, RegenerateError::NotEnoughShares));
    Ok(())
}

// Neither the share whose segment has another hash than its leaf, nor the one that decodes to the
// segment of the leaf, where the shares have another root than the extension block tells.
#[test]
fn no_code_word_is_not_made_anew(rt: HostRuntime) -> Result<(), Fail> {
    let alloc = rt.alloc();
    let (cap, right, wrong) = no_code_word(alloc)?;
    for (number, share) in [(0, &right), (1, &wrong)] {
        let made = regenerate(
            alloc,
            &cap.to_verify(),
            &[(number, share.as_slice())],
            number,
        );
        assert!(rt; is_refused(made, RegenerateError::Inconsistent));
    }
    Ok(())
}

// A share of one is made of itself; where memory is refused nothing else is answered.
#[test]
fn refused_memory_in_repair(rt: HostRuntime) {
    let alloc = rt.alloc();
    let Ok(one) = store_counted(alloc, (56, 1, 1, SEGMENT), NO_SECRET) else {
        return;
    };
    let Some(share) = one.shares.first() else {
        return;
    };
    let is_right = match regenerate_all(alloc, &one.cap, &[(0, share.as_slice())]) {
        Ok(made) => made.len() == ONE.len(),
        Err(error) => error == ReadError::OutOfMemory,
    };
    assert!(rt; is_right);
}
