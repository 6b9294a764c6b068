//! The one share of a file of 17 segments, right and with a byte changed, in reads of several
//! lengths: what is told at the end is what is told of the whole share.

use cap_text::{Cap, VerifyCap};
use file_encoding::{Encoded, Params, encode_all};
use share_layout::Offsets;
use share_verify::{Judging, ShareFault, read_ueb, verify_share};
use std::alloc::Global;

// The file's length, and that of its segments. As one share is needed, its blocks are the segments.
const SIZE: usize = 1_000;

const SEGMENT: u64 = 60;

// How many bytes a read brings.
const READS: [usize; 9] = [1, 7, 59, 60, 61, 479, 480, 1_000, 100_000];

// Where the blocks begin, and where the share hashes do: behind three trees of 63 hashes.
const BLOCKS: usize = 36;

const HASHES: usize = 7_084;

// Bytes of the share, and the first fault of one in which that byte is another one.
const WRONG: [(usize, ShareFault); 12] = [
    (BLOCKS, ShareFault::Data),
    (BLOCKS + 479, ShareFault::Data),
    (BLOCKS + 480, ShareFault::Data),
    (BLOCKS + 959, ShareFault::Data),
    (BLOCKS + 999, ShareFault::Data),
    (BLOCKS + 1_000, ShareFault::Unused),
    (BLOCKS + 3_015, ShareFault::Unused),
    (BLOCKS + 3_016, ShareFault::CiphertextTree),
    (BLOCKS + 5_032, ShareFault::BlockTree),
    (HASHES - 1, ShareFault::BlockTree),
    (HASHES + 2, ShareFault::ShareHashes),
    (HASHES + 33, ShareFault::ShareHashes),
];

// A share, and the cap that it is of.
#[derive(Drop)]
struct Shared {
    cap: VerifyCap,
    share: Vec<u8>,
}

fn made_share(alloc: Global) -> Option<Shared> {
    let mut file = Vec::with_capacity(alloc, SIZE).ok()?;
    for i in 0..SIZE {
        file.push((i % 251) as u8).ok()?;
    }
    let params = Params::new(1, 1, 1, SEGMENT).ok()?;
    let encoded = encode_all(alloc, &file, &[], &params).ok()?;
    let share = encoded.shares.first()?.as_slice();
    Some(Shared {
        cap: verify_cap(&encoded)?,
        share: Vec::from_slice(alloc, share).ok()?,
    })
}

fn verify_cap(encoded: &Encoded) -> Option<VerifyCap> {
    match encoded.cap {
        Cap::Chk(cap) => Some(cap.to_verify()),
        _ => None,
    }
}

// What is told of a share that comes in reads of so many bytes.
fn judged(
    alloc: Global,
    cap: &VerifyCap,
    num: u16,
    share: &[u8],
    read: usize,
) -> Option<Result<(), ShareFault>> {
    let offsets = Offsets::read(share).ok()?;
    let end = offsets.extension_block as usize;
    let block = share.get(end.saturating_add(offsets.layout.width())..)?;
    let mut judging = Judging::begin(alloc, &read_ueb(cap, block).ok()?);
    let mut left = share.get(offsets.layout.header_size()..end)?;
    for _ in 0..share.len() {
        if judging.is_whole() {
            return Some(judging.verdict(num));
        }
        let length = read.min(left.len());
        judging.take(left.get(..length)?).ok()?;
        left = left.get(length..)?;
    }
    None
}

// Whether each read tells of the share what is told of the whole.
fn are_as_whole(alloc: Global, cap: &VerifyCap, num: u16, share: &[u8]) -> bool {
    let whole = verify_share(cap, num, share);
    for read in &READS {
        if judged(alloc, cap, num, share, *read) != Some(whole) {
            return false;
        }
    }
    true
}

// The share with another byte at an offset.
fn changed(alloc: Global, share: &[u8], offset: usize) -> Option<Vec<u8>> {
    let mut bytes = Vec::from_slice(alloc, share).ok()?;
    *bytes.get_mut(offset)? ^= 1;
    Some(bytes)
}

// Whether a share with another byte at an offset has this fault first, whole and in each read.
fn has_fault(alloc: Global, shared: &Shared, offset: usize, fault: ShareFault) -> bool {
    match changed(alloc, &shared.share, offset) {
        Some(share) => {
            verify_share(&shared.cap, 0, &share) == Err(fault)
                && are_as_whole(alloc, &shared.cap, 0, &share)
        }
        None => false,
    }
}

#[test]
fn right_shares_pass(rt: HostRuntime) {
    let made = made_share(rt.alloc());
    assert!(rt; made.is_some());
    if let Some(it) = &made {
        assert!(rt; verify_share(&it.cap, 0, &it.share) == Ok(()));
        assert!(rt; are_as_whole(rt.alloc(), &it.cap, 0, &it.share));
        // There is no share 1.
        assert!(rt; verify_share(&it.cap, 1, &it.share) != Ok(()));
        assert!(rt; are_as_whole(rt.alloc(), &it.cap, 1, &it.share));
    }
}

#[test]
fn wrong_shares_have_their_first_fault(rt: HostRuntime) {
    let made = made_share(rt.alloc());
    assert!(rt; made.is_some());
    if let Some(it) = &made {
        for (i, (offset, fault)) in WRONG.iter().enumerate() {
            assert!(rt; has_fault(rt.alloc(), it, *offset, *fault), "share {i}");
        }
    }
}

// The number of a share hash is another one.
#[test]
fn wrong_numbers_are_told_as_of_the_whole(rt: HostRuntime) {
    let made = made_share(rt.alloc());
    assert!(rt; made.is_some());
    if let Some(it) = &made {
        let share = changed(rt.alloc(), &it.share, HASHES);
        assert!(rt; share.is_some());
        if let Some(share) = &share {
            assert!(rt; are_as_whole(rt.alloc(), &it.cap, 0, share));
        }
    }
}
