// Shares in the second layout, and where it begins.

use crate::share_layout_tests::{geometry, has_fault, locate_refusal, read_refusal, share_three};
use cap_text::ReadCap;
use file_encoding::{ShareFault, verify_share};
use share_layout::{Geometry, Layout, LayoutError, Section, locate_ueb};
use std::alloc::Global;
use std::test::Fail;
use tagged_hash::{Tag, tagged};

// Whether a file of this size, at one share of one in segments of 2^20 bytes, has shares of this
// layout that begin so.
fn begins(size: u64, layout: Layout, wanted: &[u8]) -> bool {
    let Ok(geometry) = Geometry::of(size, 1, 1, 1 << 20) else {
        return false;
    };
    let mut header = [0; 68];
    let length = geometry.header(&mut header);
    geometry.layout() == layout
        && length == layout.header_size()
        && header.get(..length) == Some(wanted)
}

// The greatest file whose header fits four bytes a number, and the one of a byte more.
const LAST_OF_ONE: [u32; 9] = [
    1,
    1 << 20,
    4_294_180_889,
    36,
    4_294_180_925,
    4_294_443_037,
    4_294_705_149,
    4_294_967_261,
    u32::MAX,
];

const FIRST_OF_TWO: [u8; 68] = [
    0, 0, 0, 2, 0, 0, 0, 0, 0, 0x10, 0, 0, 0, 0, 0, 0, 0xff, 0xf4, 0, 0x1a, 0, 0, 0, 0, 0, 0, 0,
    0x44, 0, 0, 0, 0, 0xff, 0xf4, 0, 0x5e, 0, 0, 0, 0, 0xff, 0xf8, 0, 0x3e, 0, 0, 0, 0, 0xff, 0xfc,
    0, 0x1e, 0, 0, 0, 0, 0xff, 0xff, 0xff, 0xfe, 0, 0, 0, 1, 0, 0, 0, 0x20,
];

// The numbers of a header of the first layout, in four bytes each.
fn in_four_bytes(numbers: &[u32; 9]) -> [u8; 36] {
    let mut header = [0; 36];
    for i in 0..9 {
        header[4 * i..4 * i + 4].copy_from_slice(&numbers[i].to_be_bytes());
    }
    header
}

#[test]
fn the_second_layout_begins_where_the_first_ends(rt: HostRuntime) {
    let last = in_four_bytes(&LAST_OF_ONE);
    assert!(rt; begins(4_294_180_889, Layout::One, &last));
    assert!(rt; begins(4_294_180_890, Layout::Two, &FIRST_OF_TWO));
}

#[test]
fn the_greatest_file_has_2_to_the_20_segments(rt: HostRuntime) {
    let count = match Geometry::of(1 << 40, 1, 1, 1 << 20) {
        Ok(geometry) => geometry.segment_count(),
        Err(_) => 0,
    };
    assert!(rt; count == 1 << 20);
}

// A header is measured by the version that it begins with: cut to any length it is truncated, and
// behind it the data are.
#[test]
fn a_header_is_measured_by_its_version(rt: HostRuntime) {
    let last = in_four_bytes(&LAST_OF_ONE);
    for len in 0..68 {
        let cut = LayoutError::Truncated(if len < 68 {
            Section::Header
        } else {
            Section::Data
        });
        assert!(rt; has_fault(&FIRST_OF_TWO[..len], cut), "at {len}");
    }
    assert!(rt; has_fault(&FIRST_OF_TWO, LayoutError::Truncated(Section::Data)));
    for len in 0..36 {
        assert!(rt;
            has_fault(&last[..len], LayoutError::Truncated(Section::Header)),
            "at {len}"
        );
    }
    assert!(rt; has_fault(&last, LayoutError::Truncated(Section::Data)));
}

// A header of eight-byte numbers that names offsets near 2^64.
#[test]
fn offsets_of_a_lying_long_header_do_not_wrap(rt: HostRuntime) {
    let mut bytes = [0u8; 80];
    let numbers = [
        0,
        0,
        68,
        u64::MAX - 4,
        u64::MAX - 3,
        u64::MAX - 2,
        u64::MAX - 1,
        u64::MAX,
    ];
    bytes[3] = 2;
    for i in 0..8 {
        bytes[8 * i + 4..8 * i + 12].copy_from_slice(&numbers[i].to_be_bytes());
    }
    assert!(rt; has_fault(&bytes, LayoutError::Truncated(Section::Data)));
    bytes[67] = 0;
    assert!(rt; has_fault(&bytes, LayoutError::BadOffset));
}

// Share 3 of 56 bytes, spelled in the second layout: all offsets are 32 bytes further, and the
// length of the extension block has eight bytes.
fn spelled_long(alloc: Global) -> Option<Vec<u8>> {
    let share = share_three(alloc)?;
    let mut long = Vec::from_slice(alloc, &[0, 0, 0, 2]).ok()?;
    for number in [19u64, 19, 68, 87, 119, 151, 183, 353] {
        long.extend_from_slice(&number.to_be_bytes()).ok()?;
    }
    long.extend_from_slice(share.get(36..321)?).ok()?;
    long.extend_from_slice(&[0; 4]).ok()?;
    long.extend_from_slice(share.get(321..)?).ok()?;
    Some(long)
}

#[test]
fn a_small_file_has_no_share_in_the_second_layout(rt: HostRuntime) {
    let (Some(geometry), Some(long)) = (geometry(), spelled_long(rt.alloc())) else {
        assert!(rt; false);
        return;
    };
    assert!(rt; locate_refusal(&long).is_none());
    assert!(rt; read_refusal(&long, 3, &geometry) == Some(LayoutError::BadVersion));
}

// A share of a small file that is spelled in the second layout.
#[test]
fn a_small_file_has_no_right_share_in_the_second_layout(rt: HostRuntime) -> Result<(), Fail> {
    let (Some(short), Some(long)) = (share_three(rt.alloc()), spelled_long(rt.alloc())) else {
        assert!(rt; false);
        return Ok(());
    };
    let block = locate_ueb(&long).unwrap_or(&[]);
    let hash = tagged(Tag::ExtensionBlock, block);
    let cap = ReadCap::new([0; 16], hash, 3, 10, 56)?.to_verify();
    assert!(rt; verify_share(&cap, 3, &short) == Ok(()));
    let fault = ShareFault::Layout(LayoutError::BadVersion);
    assert!(rt; verify_share(&cap, 3, &long) == Err(fault));
    Ok(())
}
