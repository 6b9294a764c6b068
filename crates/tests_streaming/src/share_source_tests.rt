//! The padded ciphertext of a file, decoded from shares of whole encodings, some of which fail or
//! change.

use crate::remade_tests::{Whole, whole_file};
use share_source::{ShareBytes, ShareSource};
use share_verify::read_share;
use sources::{PartFault, Source, SourceFault, read_part};
use std::alloc::{AllocError, Global};
use std::test::Fail;
use zfec_code::CodeError;

// What becomes of a share's reads from one on, the first being number 1. The first two are those of
// its own hashes and of its leaves, and each later one is that of a block.
#[derive(Clone, Copy, Drop, PartialEq, Eq)]
enum Fault {
    Fails(u64),
    Changes(u64),
    Never,
}

// A share in memory.
#[derive(Drop)]
struct KeptShare {
    bytes: Vec<u8>,
    fault: Fault,
    reads: u64,
}

#[derive(Drop)]
struct KeptShares {
    shares: Vec<KeptShare>,
}

impl ShareBytes for KeptShares {
    ghost use Rattle.std.specs.Prelude.{⊤};

    ghost gives = { λ _ _ _ _ _. ⊤ };

    ghost fails = { λ _ _ _ _ _. ⊤ };

    fn read(&mut self, position: usize, offset: u64, out: &mut [u8]) -> Result<(), SourceFault> {
        match self.shares.get_mut(position) {
            Some(share) => read_kept(share, offset, out),
            None => Err(SourceFault::Unreadable),
        }
    }
}

fn read_kept(share: &mut KeptShare, offset: u64, out: &mut [u8]) -> Result<(), SourceFault> {
    share.reads = share.reads.saturating_add(1);
    let end = offset.saturating_add(out.len() as u64);
    let Some(part) = share.bytes.get(offset as usize..end as usize) else {
        return Err(SourceFault::Unreadable);
    };
    if part.len() != out.len() {
        return Err(SourceFault::Unreadable);
    }
    out.copy_from_slice(part);
    match share.fault {
        Fault::Fails(from) if share.reads >= from => Err(SourceFault::Unreadable),
        Fault::Changes(from) if share.reads >= from => {
            if let Some(byte) = out.first_mut() {
                *byte ^= 1;
            }
            Ok(())
        }
        _ => Ok(()),
    }
}

// The source over shares of a file, of each of which the number is told and what becomes of it, or
// why there is none; none where these are no shares of it.
fn source_over(
    alloc: Global,
    whole: &Whole,
    chosen: &[(u16, Fault)],
) -> Result<Option<Result<ShareSource<KeptShares>, CodeError>>, AllocError> {
    let mut numbers = Vec::new(alloc);
    let mut shares = Vec::new(alloc);
    let mut ueb = None;
    for (number, fault) in chosen {
        let Some(share) = whole.shares.get(usize::from(*number)) else {
            return Ok(None);
        };
        let Ok(read) = read_share(&whole.cap, *number, share.as_slice()) else {
            return Ok(None);
        };
        ueb = Some(read.ueb);
        numbers.push(*number)?;
        shares.push(KeptShare {
            bytes: Vec::from_slice(alloc, share.as_slice())?,
            fault: *fault,
            reads: 0,
        })?;
    }
    match ueb {
        Some(ueb) => {
            let bytes = KeptShares { shares };
            Ok(Some(ShareSource::new(alloc, ueb, numbers, bytes)))
        }
        None => Ok(None),
    }
}

// Whether a source brings a text, in parts as long as `out`, and no more.
fn is_text_of(source: &mut ShareSource<KeptShares>, text: &[u8], out: &mut [u8]) -> bool {
    let mut offset = 0;
    for part in text.chunks(out.len().max(1)) {
        let Some(room) = out.get_mut(..part.len()) else {
            return false;
        };
        if offset > text.len() as u64
            || read_part(source, offset, room) != Ok(())
            || *room != *part
        {
            return false;
        }
        offset = offset.saturating_add(part.len() as u64);
    }
    source.read_at(offset, out) == Ok(0)
}

// Whether the whole text is read, in parts of so many bytes, and these positions are read then.
fn is_read(
    alloc: Global,
    chosen: &[(u16, Fault)],
    size: usize,
    last: &[usize],
) -> Result<bool, AllocError> {
    let Some(whole) = small_file(alloc)? else {
        return Ok(false);
    };
    let Some(Ok(mut source)) = source_over(alloc, &whole, chosen)? else {
        return Ok(false);
    };
    let mut out = vec![in alloc; 7u8; size]?;
    Ok(
        source.len() == whole.text.len() as u64
            && is_text_of(&mut source, &whole.text, &mut out)
            && source.failures() == 0
            && !source.lacks_memory()
            && source.reading() == last,
    )
}

// Shares of a small file with three segments, any three of six.
fn small_file(alloc: Global) -> Result<Option<Whole>, AllocError> {
    whole_file(alloc, (2500, 3, 6, 1000))
}

#[test]
fn the_padded_text_is_decoded(rt: HostRuntime) -> Result<(), Fail> {
    let alloc = rt.alloc();
    let first = [(0, Fault::Never), (1, Fault::Never), (2, Fault::Never)];
    let last = [
        (5, Fault::Never),
        (3, Fault::Never),
        (3, Fault::Never),
        (4, Fault::Never),
    ];
    for size in [1, 333, 1000, 4000] {
        assert!(rt; is_read(alloc, &first, size, &[0, 1, 2])?);
        assert!(rt; is_read(alloc, &last, size, &[0, 1, 3])?);
    }
    Ok(())
}

// A share that fails at its third block, or changes a byte there, is struck out, and the same text
// comes.
#[test]
fn spares_take_the_places_of_shares_that_are_struck_out(rt: HostRuntime) -> Result<(), Fail> {
    let alloc = rt.alloc();
    let fails = [
        (1, Fault::Never),
        (4, Fault::Fails(5)),
        (2, Fault::Never),
        (1, Fault::Never),
        (5, Fault::Never),
    ];
    let changes = [
        (1, Fault::Never),
        (4, Fault::Changes(5)),
        (2, Fault::Never),
        (4, Fault::Changes(1)),
        (4, Fault::Never),
    ];
    assert!(rt; is_read(alloc, &fails, 1000, &[0, 4, 2])?);
    assert!(rt; is_read(alloc, &changes, 500, &[0, 4, 2])?);
    Ok(())
}

// A share whose own hashes or leaves cannot be read, or change, is struck out before a block of it
// is read, and so is a spare.
#[test]
fn shares_without_leaves_are_struck_out(rt: HostRuntime) -> Result<(), Fail> {
    let faults = [
        Fault::Fails(1),
        Fault::Changes(1),
        Fault::Fails(2),
        Fault::Changes(2),
    ];
    for fault in faults {
        let chosen = [
            (1, fault),
            (4, Fault::Never),
            (2, Fault::Never),
            (1, fault),
            (5, Fault::Never),
        ];
        assert!(rt; is_read(rt.alloc(), &chosen, 1000, &[4, 1, 2])?);
    }
    Ok(())
}

// Whether a read fails where too few shares are left, and none that was struck out is read again.
fn fails_in_the_end(alloc: Global, chosen: &[(u16, Fault)]) -> Result<bool, AllocError> {
    let Some(whole) = small_file(alloc)? else {
        return Ok(false);
    };
    let Some(Ok(mut source)) = source_over(alloc, &whole, chosen)? else {
        return Ok(false);
    };
    let mut out = [0u8; 1000];
    let before = read_part(&mut source, 0, &mut out) == Ok(());
    let second = source.read_at(1500, &mut out) == Err(SourceFault::Unreadable);
    let again = read_part(&mut source, 0, &mut out) == Err(PartFault::Unreadable);
    let counted = source.failures() == 2 && !source.lacks_memory();
    let shares = source.into_bytes().shares;
    let read = matches!(shares.get(1), Some(share) if share.reads == 4);
    Ok(before && second && again && counted && read)
}

#[test]
fn a_read_fails_where_too_few_are_left(rt: HostRuntime) -> Result<(), Fail> {
    for fault in [Fault::Fails(4), Fault::Changes(4)] {
        let chosen = [
            (0, Fault::Never),
            (1, fault),
            (2, Fault::Never),
            (2, Fault::Never),
        ];
        assert!(rt; fails_in_the_end(rt.alloc(), &chosen)?);
    }
    Ok(())
}

// Whether a segment is read whose first share fails, or the read says that memory was refused for
// leaves or for a spare, and the next one goes on.
fn reads_or_lacks_memory(alloc: Global) -> Result<bool, AllocError> {
    let chosen = [
        (4, Fault::Fails(1)),
        (1, Fault::Never),
        (2, Fault::Never),
        (5, Fault::Never),
    ];
    let Some(whole) = small_file(alloc)? else {
        return Ok(true);
    };
    let Some(Ok(mut source)) = source_over(alloc, &whole, &chosen)? else {
        return Ok(true);
    };
    let mut out = [0u8; 1000];
    if read_part(&mut source, 1002, &mut out) != Ok(()) {
        let told = source.lacks_memory() && source.failures() == 1;
        return Ok(told && read_part(&mut source, 1002, &mut out) == Ok(()));
    }
    Ok(!source.lacks_memory() && source.failures() == 0)
}

#[test]
fn refused_memory_for_a_spare(rt: HostRuntime) {
    assert!(rt; reads_or_lacks_memory(rt.alloc()).unwrap_or(true));
}

// Whether shares are refused that are too few for the file.
fn are_too_few(alloc: Global, chosen: &[(u16, Fault)]) -> Result<bool, AllocError> {
    let Some(whole) = small_file(alloc)? else {
        return Ok(false);
    };
    let source = source_over(alloc, &whole, chosen)?;
    Ok(matches!(source, Some(Err(CodeError::LengthMismatch))))
}

#[test]
fn too_few_shares_are_refused(rt: HostRuntime) -> Result<(), Fail> {
    let two = [(0, Fault::Never), (1, Fault::Never), (1, Fault::Never)];
    assert!(rt; are_too_few(rt.alloc(), &two)?);
    Ok(())
}
