// Evidence of a file of 300 bytes at two of three, in three segments of 100 bytes.

use cap_text::{Cap, VerifyCap};
use file_encoding::{Encoded, Params, Share, encode_all, read_ciphertext};
use merkle::Tree;
use proved_parts::{Bytes, Evidence, EvidencePart, PartList, Path, find_clash};
use share_layout::locate_ueb;
use share_verify::{geometry_of, read_ueb};
use std::alloc::Global;
use tagged_hash::{Tag, tagged};

// What evidence of a file is made from: its cap, its extension block and its ciphertext.
#[derive(Drop)]
struct Source {
    cap: VerifyCap,
    block: Vec<u8>,
    ciphertext: Vec<u8>,
}

// The file, whose byte i is i modulo 251, under a secret of at most 64 bytes.
fn source_of(alloc: Global, secret: &[u8]) -> Option<Source> {
    let Encoded { cap, shares, .. } = encoded(alloc, secret)?;
    let Cap::Chk(cap) = cap else {
        return None;
    };
    read_source(alloc, cap.to_verify(), shares.get(0)?, shares.get(2)?)
}

fn encoded(alloc: Global, secret: &[u8]) -> Option<Encoded> {
    let mut file = vec![in alloc; 0u8; 300].ok()?;
    for (i, byte) in file.iter_mut().enumerate() {
        *byte = (i % 251) as u8;
    }
    if secret.len() > 64 {
        return None;
    }
    let params = Params::new(2, 1, 3, 100).ok()?;
    encode_all(alloc, &file, secret, &params).ok()
}

// What shares 0 and 2 say.
fn read_source(alloc: Global, cap: VerifyCap, first: &Share, last: &Share) -> Option<Source> {
    let strings = [(0, first.as_slice()), (2, last.as_slice())];
    let ciphertext = read_ciphertext(alloc, &cap, &strings).ok()?;
    let block = Vec::from_slice(alloc, locate_ueb(first.as_slice()).ok()?).ok()?;
    Some(Source {
        cap,
        block,
        ciphertext,
    })
}

// A segment of a ciphertext of three; no bytes, where there is none with this number.
fn segment(ciphertext: &[u8], number: usize) -> &[u8] {
    match number {
        0 => ciphertext.get(..100).unwrap_or(&[]),
        1 => ciphertext.get(100..200).unwrap_or(&[]),
        2 => ciphertext.get(200..).unwrap_or(&[]),
        _ => &[],
    }
}

// The siblings of one of the three segments.
fn path(alloc: Global, ciphertext: &[u8], number: u32) -> Option<Vec<[u8; 32]>> {
    let leaves = [
        tagged(Tag::CiphertextSegment, segment(ciphertext, 0)),
        tagged(Tag::CiphertextSegment, segment(ciphertext, 1)),
        tagged(Tag::CiphertextSegment, segment(ciphertext, 2)),
    ];
    if number > 2 {
        return None;
    }
    Tree::build(alloc, &leaves).ok()?.path(alloc, number).ok()
}

// A part with copies of these bytes and hashes.
fn part(alloc: Global, number: u32, segment: &[u8], path: &[[u8; 32]]) -> Option<EvidencePart> {
    let segment = Vec::from_slice(alloc, segment).ok()?;
    let path = Vec::from_slice(alloc, path).ok()?;
    Some(EvidencePart {
        number,
        segment: Bytes::from_vec(segment),
        path: Path::from_vec(path),
    })
}

// Evidence with a copy of this extension block.
fn evidence(alloc: Global, block: &[u8], parts: Vec<EvidencePart>) -> Option<Evidence> {
    let block = Vec::from_slice(alloc, block).ok()?;
    Some(Evidence {
        extension_block: Bytes::from_vec(block),
        parts: PartList::from_vec(parts),
    })
}

// The evidence of the segments with these numbers.
fn own_evidence(alloc: Global, source: &Source, numbers: &[u32]) -> Option<Evidence> {
    let mut parts = Vec::new(alloc);
    for &number in numbers {
        let path = path(alloc, &source.ciphertext, number)?;
        let segment = segment(&source.ciphertext, number as usize);
        parts.push(part(alloc, number, segment, &path)?).ok()?;
    }
    evidence(alloc, &source.block, parts)
}

// Whether evidence of one part is proved; none, where memory is out.
fn one_proves(
    alloc: Global,
    cap: &VerifyCap,
    block: &[u8],
    number: u32,
    segment: &[u8],
    path: &[[u8; 32]],
) -> Option<bool> {
    let part = part(alloc, number, segment, path)?;
    let parts = vec![in alloc; part].ok()?;
    Some(evidence(alloc, block, parts)?.proves(cap))
}

// Changes the lowest bit of a byte.
fn flip(bytes: &mut [u8], at: usize) {
    if at < bytes.len() {
        bytes[at] ^= 1;
    }
}

// Whether the segments with these numbers are proved for the file's cap and not for another.
fn are_proved(alloc: Global, mine: &Source, other: &Source, numbers: &[u32]) -> bool {
    match own_evidence(alloc, mine, numbers) {
        Some(evidence) => evidence.proves(&mine.cap) && !evidence.proves(&other.cap),
        None => false,
    }
}

#[test]
fn own_segments_are_proved(rt: HostRuntime) {
    let alloc = rt.alloc();
    let (Some(mine), Some(other)) = (source_of(alloc, b""), source_of(alloc, b"friends")) else {
        assert!(rt; false);
        return;
    };
    assert!(rt; mine.ciphertext.len() == 300);
    assert!(rt; are_proved(alloc, &mine, &other, &[0, 1, 2]));
    assert!(rt; are_proved(alloc, &mine, &other, &[2, 0, 2]));
    assert!(rt; are_proved(alloc, &other, &mine, &[1]));
    // No part, but the extension block.
    assert!(rt; are_proved(alloc, &mine, &other, &[]));
}

// The extension block tells the segments that evidence is about.
#[test]
fn the_extension_block_tells_the_segments(rt: HostRuntime) {
    let Some(mine) = source_of(rt.alloc(), b"") else {
        assert!(rt; false);
        return;
    };
    match read_ueb(&mine.cap, &mine.block) {
        Ok(ueb) => {
            let geometry = geometry_of(&ueb);
            assert!(rt; geometry.segment_count() == 3);
            assert!(rt; geometry.segment_size() == 100);
        }
        Err(_) => assert!(rt; false),
    }
}

// Each byte of the extension block and of the segment counts.
#[test]
fn a_changed_byte_is_not_proved(rt: HostRuntime) {
    let alloc = rt.alloc();
    let Some(
        Source {
            cap,
            mut block,
            mut ciphertext,
        },
    ) = source_of(alloc, b"")
    else {
        assert!(rt; false);
        return;
    };
    let Some(path) = path(alloc, &ciphertext, 2) else {
        assert!(rt; false);
        return;
    };
    for at in 0..block.len() {
        flip(&mut block, at);
        let proved = one_proves(alloc, &cap, &block, 2, segment(&ciphertext, 2), &path);
        assert!(rt; proved == Some(false), "byte {at} of the extension block");
        flip(&mut block, at);
    }
    for at in 200..ciphertext.len() {
        flip(&mut ciphertext, at);
        let proved = one_proves(alloc, &cap, &block, 2, segment(&ciphertext, 2), &path);
        assert!(rt; proved == Some(false), "byte {at} of the ciphertext");
        flip(&mut ciphertext, at);
    }
    let proved = one_proves(alloc, &cap, &block, 2, segment(&ciphertext, 2), &path);
    assert!(rt; proved == Some(true));
}

// Each byte of each sibling counts, and that there are two siblings.
#[test]
fn another_path_is_not_proved(rt: HostRuntime) {
    let alloc = rt.alloc();
    let Some(
        Source {
            cap,
            block,
            ciphertext,
        },
    ) = source_of(alloc, b"")
    else {
        assert!(rt; false);
        return;
    };
    let Some(mut path) = path(alloc, &ciphertext, 1) else {
        assert!(rt; false);
        return;
    };
    let segment = segment(&ciphertext, 1);
    for at in 0..32 {
        for hash in path.iter_mut() {
            flip(hash, at);
        }
        let proved = one_proves(alloc, &cap, &block, 1, segment, &path);
        assert!(rt; proved == Some(false), "byte {at}");
        for hash in path.iter_mut() {
            flip(hash, at);
        }
    }
    let Some((first, _)) = path.split_first() else {
        assert!(rt; false);
        return;
    };
    let longer = [*first; 3];
    for siblings in [&[][..], &longer[..1], &longer] {
        assert!(rt; one_proves(alloc, &cap, &block, 1, segment, siblings) == Some(false));
    }
    assert!(rt; one_proves(alloc, &cap, &block, 1, segment, &path) == Some(true));
}

#[test]
fn another_number_or_length_is_not_proved(rt: HostRuntime) {
    let alloc = rt.alloc();
    let Some(
        Source {
            cap,
            block,
            ciphertext,
        },
    ) = source_of(alloc, b"")
    else {
        assert!(rt; false);
        return;
    };
    let Some(path) = path(alloc, &ciphertext, 1) else {
        assert!(rt; false);
        return;
    };
    for number in [0, 2, 3, 5, u32::MAX] {
        let proved = one_proves(alloc, &cap, &block, number, segment(&ciphertext, 1), &path);
        assert!(rt; proved == Some(false), "as {number}");
    }
    for (start, end) in [(100, 199), (101, 200), (100, 201), (100, 100)] {
        let cut = ciphertext.get(start..end).unwrap_or(&[]);
        let proved = one_proves(alloc, &cap, &block, 1, cut, &path);
        assert!(rt; proved == Some(false), "{start} to {end}");
    }
}

// Whether two pieces of evidence give no clash.
fn have_no_clash(alloc: Global, first: &Evidence, second: &Evidence) -> bool {
    matches!(find_clash(alloc, first, second), Ok(None))
}

// The file's evidence of segment 1, with one bit of the segment turned.
fn changed_evidence(alloc: Global, source: &Source) -> Option<Evidence> {
    let mut changed = Vec::from_slice(alloc, segment(&source.ciphertext, 1)).ok()?;
    flip(&mut changed, 40);
    let path = path(alloc, &source.ciphertext, 1)?;
    let part = part(alloc, 1, &changed, &path)?;
    evidence(alloc, &source.block, vec![in alloc; part].ok()?)
}

// Whether no clash is found in pieces of evidence of which at most one is proved for a cap, or
// which have one segment for each number; none, where memory is out.
fn finds_no_clash(alloc: Global) -> Option<bool> {
    let mine = source_of(alloc, b"")?;
    let all = own_evidence(alloc, &mine, &[0, 1, 2])?;
    let some = own_evidence(alloc, &mine, &[2, 1])?;
    let changed = changed_evidence(alloc, &mine)?;
    Some(
        have_no_clash(alloc, &all, &all)
            && have_no_clash(alloc, &all, &some)
            && have_no_clash(alloc, &all, &changed)
            && have_no_clash(alloc, &changed, &some)
            && !changed.proves(&mine.cap)
            && all.proves(&mine.cap),
    )
}

#[test]
fn no_clash_is_found(rt: HostRuntime) {
    assert!(rt; finds_no_clash(rt.alloc()) == Some(true));
}

#[test]
fn refused_memory_in_evidence(rt: HostRuntime) {
    assert!(rt; finds_no_clash(rt.alloc()) != Some(false));
}

// The file under another secret has other segments and another extension block, with another hash.
#[test]
fn two_encodings_have_no_clash(rt: HostRuntime) {
    let alloc = rt.alloc();
    let (Some(mine), Some(other)) = (source_of(alloc, b""), source_of(alloc, b"friends")) else {
        assert!(rt; false);
        return;
    };
    let mine = own_evidence(alloc, &mine, &[0, 1, 2]);
    let (Some(mine), Some(other)) = (mine, own_evidence(alloc, &other, &[0, 1, 2])) else {
        assert!(rt; false);
        return;
    };
    assert!(rt; have_no_clash(alloc, &mine, &other));
    assert!(rt; have_no_clash(alloc, &other, &mine));
}
