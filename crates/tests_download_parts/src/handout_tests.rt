// A file of three shares and three segments, whose hashes are from a program of its own, in Python:
// segment j is 100 bytes 200 + j. The key is the bytes 0 to 15.

ghost use Rattle.std.specs.Prelude.{◌≤◌};

use crate::outside_tests::{CIPHERTEXT_LEAVES, CIPHERTEXT_ROOT, LEAVES, is_last_path};
use download_segments::Handout;
use proved_parts::EvidencePart;
use share_verify::geometry_of;
use std::alloc::{AllocError, Global};
use std::test::Fail;
use ueb::{Expect, Ueb};

// The bytes 50 to before 250 of the file, by openssl.
const PLAIN: [u8; 200] = [
    0xe3, 0xe6, 0xfc, 0xa2, 0x0a, 0xf0, 0x98, 0x95, 0xfe, 0x96, 0x54, 0x7f, 0x34, 0x9e, 0xf8, 0xab,
    0x7e, 0x17, 0xc2, 0xe4, 0x13, 0x78, 0x4d, 0xda, 0x99, 0x1a, 0x0e, 0xa1, 0x19, 0x77, 0x53, 0x4a,
    0x51, 0x41, 0xac, 0xba, 0x49, 0x89, 0x88, 0x96, 0xeb, 0x15, 0x57, 0xd5, 0x18, 0xd3, 0x1c, 0x96,
    0x34, 0x9a, 0xa1, 0x60, 0x66, 0x23, 0x08, 0x1b, 0xe0, 0x2e, 0x68, 0x8b, 0xdf, 0xab, 0x70, 0xfb,
    0xe6, 0xd0, 0x0f, 0xe2, 0xf1, 0x20, 0x77, 0x11, 0xe2, 0x1a, 0x2f, 0xb2, 0xda, 0xd0, 0x6c, 0xed,
    0x0e, 0xa4, 0x30, 0x86, 0x14, 0x51, 0x3e, 0x1f, 0x9c, 0xc4, 0x19, 0x70, 0x83, 0x5a, 0xa8, 0x8b,
    0xad, 0x93, 0xd6, 0xfa, 0xea, 0x97, 0xbe, 0x25, 0xc6, 0x32, 0x23, 0xfd, 0xdf, 0xc1, 0xa5, 0x80,
    0x47, 0xfd, 0x4a, 0x55, 0x8a, 0xe5, 0x39, 0x35, 0x97, 0xf5, 0x66, 0x5d, 0x3d, 0xe4, 0x7b, 0xd2,
    0x5f, 0x09, 0x2e, 0x5c, 0xcb, 0x53, 0xa5, 0xe2, 0x5f, 0x3a, 0x58, 0x95, 0x58, 0x19, 0xae, 0x6c,
    0x2c, 0x74, 0xd1, 0xad, 0x46, 0xd9, 0xbb, 0xfc, 0x36, 0x95, 0x0f, 0x7e, 0x3c, 0xcc, 0x01, 0x56,
    0x51, 0xc5, 0x75, 0x54, 0xcd, 0xc4, 0x52, 0x3c, 0xc9, 0xa4, 0x47, 0xb7, 0x08, 0x05, 0xf8, 0xdf,
    0x66, 0x1a, 0x28, 0x86, 0x15, 0x6d, 0x7e, 0x09, 0x21, 0x9d, 0x2c, 0xe2, 0xf4, 0xae, 0x73, 0xb8,
    0xc3, 0x44, 0x9e, 0x01, 0x5d, 0x08, 0x4b, 0xb1,
];

pub(crate) const KEY: [u8; 16] = [0, 1, 2, 3, 4, 5, 6, 7, 8, 9, 10, 11, 12, 13, 14, 15];

// The bytes of the file from one offset up to another are wanted.
fn handout(alloc: Global, from: u64, to: u64) -> Result<Handout, AllocError>
    requires ordered { from ≤ to }
    requires inside { to ≤ 300 }
{
    let expect = Expect {
        needed: 2,
        total: 3,
        size: 300,
    };
    let block = Ueb::new(&expect, 100, [0; 32], CIPHERTEXT_ROOT, [0; 32]);
    Handout::new(alloc, &KEY, &block, &geometry_of(&block), from, to)
}

/// Hands out the next segment, of which each byte is this one. `None` where there is none, or its
/// hash is not known.
pub(crate) fn hand_out(
    alloc: Global,
    handout: &mut Handout,
    byte: u8,
) -> Result<Option<bool>, AllocError> {
    let Some(number) = handout.next() else {
        return Ok(None);
    };
    if !handout.knows(number) {
        return Ok(None);
    }
    let length = handout.geometry().segment_length(number);
    let segment = vec![in alloc; byte; length as usize]?;
    Ok(Some(handout.hand_out(number, segment)?))
}

#[test]
fn pieces_are_decrypted(rt: HostRuntime) -> Result<(), Fail> {
    let alloc = rt.alloc();
    let mut handout = handout(alloc, 50, 250)?;
    assert!(rt; hand_out(alloc, &mut handout, 200)? == None);
    assert!(rt; handout.take_nodes(&LEAVES, &CIPHERTEXT_LEAVES) == Ok(()));
    assert!(rt; hand_out(alloc, &mut handout, 201)? == Some(false));
    assert!(rt; hands_out_all(alloc, &mut handout)?);
    let made = pieces_at(alloc, &mut handout, &[50, 100, 200])?;
    assert!(rt; made.is_some_and(|made| made.as_slice() == PLAIN.as_slice()));
    assert!(rt; handout.take().is_none());
    Ok(())
}

// Whether it hands out the three segments, and is complete with the last.
fn hands_out_all(alloc: Global, handout: &mut Handout) -> Result<bool, AllocError> {
    for byte in 200..203u8 {
        if handout.is_complete() || hand_out(alloc, handout, byte)? != Some(true) {
            return Ok(false);
        }
    }
    Ok(handout.is_complete() && handout.next() == None)
}

// The bytes of its pieces, where they begin at these offsets.
fn pieces_at(
    alloc: Global,
    handout: &mut Handout,
    offsets: &[u64],
) -> Result<Option<Vec<u8>>, AllocError> {
    let mut made = Vec::new(alloc);
    for offset in offsets {
        match handout.take() {
            Some(piece) if piece.offset == *offset => {
                made.extend_from_slice(piece.bytes.as_slice())?;
            }
            _ => return Ok(None),
        }
    }
    Ok(Some(made))
}

#[test]
fn a_segment_has_its_path(rt: HostRuntime) -> Result<(), Fail> {
    let alloc = rt.alloc();
    let mut handout = handout(alloc, 0, 0)?;
    assert!(rt; handout.is_complete() && handout.next() == None);
    assert!(rt; handout.take_nodes(&LEAVES, &CIPHERTEXT_LEAVES) == Ok(()));
    assert!(rt; last_part(alloc, &handout, 201)?.is_none());
    assert!(rt; last_part(alloc, &handout, 202)?.is_some_and(|part| has_last_path(&part)));
    Ok(())
}

// What segment 2 is proved by, where each byte of it is this one. `None` where it is not proved.
fn last_part(
    alloc: Global,
    handout: &Handout,
    byte: u8,
) -> Result<Option<EvidencePart>, AllocError> {
    if handout.geometry().segment_count() != 3 {
        return Ok(None);
    }
    handout.part_of(2, vec![in alloc; byte; 100]?)
}

// Whether a part is segment 2 with its path.
fn has_last_path(part: &EvidencePart) -> bool {
    part.number == 2 && is_last_path(part.path.as_slice())
}
