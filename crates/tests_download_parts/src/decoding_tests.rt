// Blocks of a segment of 100 bytes, 100 to 199, of which two are needed. The block of share 2 is
// from a program of its own, in Python.

use download_segments::Decoding;
use share_layout::Geometry;
use std::alloc::{AllocError, Global};
use std::test::Fail;

const BLOCK_2: [u8; 50] = [
    0x9d, 0x9c, 0x87, 0x86, 0x91, 0x90, 0x9b, 0x9a, 0x95, 0x94, 0xef, 0xee, 0xc9, 0xc8, 0xc3, 0xc2,
    0xcd, 0xcc, 0xd7, 0xd6, 0xc1, 0xc0, 0xcb, 0xca, 0xc5, 0xc4, 0xff, 0xfe, 0xe4, 0xe5, 0xee, 0xef,
    0xe0, 0xe1, 0xfa, 0xfb, 0xec, 0xed, 0xe6, 0xe7, 0xe8, 0xe9, 0x12, 0x13, 0x34, 0x35, 0x3e, 0x3f,
    0x30, 0x31,
];

// The segment of a file of 100 bytes, of the blocks of two of three shares. `None` where these are
// not two shares of such a file, or the blocks have not their lengths.
fn decoded(
    alloc: Global,
    first: u16,
    second: u16,
    joined: &[u8],
) -> Result<Option<Vec<u8>>, AllocError> {
    let Ok(geometry) = Geometry::of(100, 2, 3, 100) else {
        return Ok(None);
    };
    if first == second || first >= geometry.total() || second >= geometry.total() {
        return Ok(None);
    }
    if joined.len() != usize::from(geometry.needed()) * geometry.block_length(0) as usize {
        return Ok(None);
    }
    let numbers = Vec::from_array(alloc, [first, second])?;
    let decoding = Decoding::new(alloc, &geometry, numbers)?;
    Ok(Some(decoding.decode(alloc, 0, joined)?))
}

#[test]
fn blocks_are_decoded(rt: HostRuntime) -> Result<(), Fail> {
    let mut whole = Vec::new(rt.alloc());
    for byte in 100..200u8 {
        whole.push(byte)?;
    }
    assert!(rt; whole.len() == 100);
    let (first, second) = whole.split_at(50);
    let cases = [
        (0, first, 1, second),
        (1, second, 0, first),
        (2, BLOCK_2.as_slice(), 0, first),
        (1, second, 2, BLOCK_2.as_slice()),
    ];
    for (number, block, other, another) in cases {
        let mut joined = Vec::from_slice(rt.alloc(), block)?;
        joined.extend_from_slice(another)?;
        let Some(segment) = decoded(rt.alloc(), number, other, &joined)? else {
            panic!(rt; "{number} and {other}");
        };
        assert!(rt;
            segment.as_slice() == whole.as_slice(),
            "{number} and {other}"
        );
    }
    Ok(())
}
