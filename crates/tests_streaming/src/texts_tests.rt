//! Texts in memory, and one that takes another's place while it is read.

use sources::{
    ChangingSource, PartFault, SliceSource, Source, changes_are_brought, read_part, texts_stay,
    unlike_passes_differ,
};
use std::alloc::{AllocError, Global};
use std::test::Fail;

const TEXT: &[u8] = b"eleven byte";

// What a read of the text brings at an offset, with room for so many bytes.
fn is_read_as(offset: u64, room: usize, expected: &[u8]) -> bool {
    let mut source = SliceSource::new(TEXT);
    let mut out = [b'-'; 20];
    match source.read_at(offset, &mut out[..room.min(20)]) {
        Ok(count) => count == expected.len() && out.starts_with(expected) && source.failures() == 0,
        Err(_) => false,
    }
}

#[test]
fn slices_are_read_to_their_ends(rt: HostRuntime) {
    assert_eq!(rt; SliceSource::new(TEXT).len(), 11);
    assert!(rt; is_read_as(0, 20, TEXT));
    assert!(rt; is_read_as(0, 6, b"eleven"));
    assert!(rt; is_read_as(7, 20, b"byte"));
    assert!(rt; is_read_as(10, 1, b"e"));
    assert!(rt; is_read_as(3, 0, b""));
    assert!(rt; is_read_as(11, 20, b""));
    assert!(rt; is_read_as(u64::MAX, 20, b""));
}

#[test]
fn parts_of_slices(rt: HostRuntime) {
    let mut source = SliceSource::new(TEXT);
    let mut out = [0u8; 4];
    assert!(rt; read_part(&mut source, 7, &mut out) == Ok(()));
    assert!(rt; out == *b"byte");
    assert!(rt; read_part(&mut source, 11, &mut out[..0]) == Ok(()));
    assert!(rt; read_part(&mut source, 8, &mut out) == Err(PartFault::Ended));
    assert!(rt; read_part(&mut source, 11, &mut out[..1]) == Err(PartFault::Ended));
    texts_stay();
    unlike_passes_differ::<SliceSource>();
}

// What two passes bring of 56 zero bytes and 56 bytes ff, where so many bytes come from the first.
fn two_passes(alloc: Global, after: u64) -> Result<([u8; 56], [u8; 56]), AllocError> {
    let file = vec![in alloc; 0u8; 56]?;
    let other = vec![in alloc; 255u8; 56]?;
    let mut source = ChangingSource::new(file, other, after);
    let mut first = [7u8; 56];
    let mut second = [7u8; 56];
    let _ = read_part(&mut source, 0, &mut first);
    let _ = read_part(&mut source, 0, &mut second);
    Ok((first, second))
}

#[test]
fn passes_over_two_texts(rt: HostRuntime) -> Result<(), Fail> {
    assert!(rt; two_passes(rt.alloc(), 0)? == ([255; 56], [255; 56]));
    assert!(rt; two_passes(rt.alloc(), 56)? == ([0; 56], [255; 56]));
    assert!(rt; two_passes(rt.alloc(), 112)? == ([0; 56], [0; 56]));
    assert!(rt; two_passes(rt.alloc(), u64::MAX)? == ([0; 56], [0; 56]));
    let (first, second) = two_passes(rt.alloc(), 20)?;
    assert!(rt; first.starts_with(&[0; 20]) && first.ends_with(&[255; 36]) && second == [255; 56]);
    let (first, second) = two_passes(rt.alloc(), 57)?;
    assert!(rt; first == [0; 56] && second[0] == 0 && second.ends_with(&[255; 55]));
    changes_are_brought();
    Ok(())
}

#[test]
fn a_changing_source_never_fails(rt: HostRuntime) -> Result<(), Fail> {
    let file = Vec::from_slice(rt.alloc(), b"one")?;
    let other = Vec::from_slice(rt.alloc(), b"two")?;
    let mut source = ChangingSource::new(file, other, 2);
    let mut out = [b'-'; 3];
    assert_eq!(rt; source.len(), 3);
    // Two bytes are left of the first text, and then the other one is at hand at every offset.
    assert!(rt; source.read_at(0, &mut out) == Ok(2) && out == *b"on-");
    assert!(rt; source.read_at(0, &mut out) == Ok(3) && out == *b"two");
    assert!(rt; source.read_at(3, &mut out) == Ok(0));
    assert_eq!(rt; source.failures(), 0);
    Ok(())
}
