// Beginnings of shares in both layouts, and beginnings with one fault.

use cap_text::{CapError, ReadCap, VerifyCap};
use share_layout::{Geometry, Layout, LayoutError};
use share_reading::opening::Progress;
use share_reading::{Opened, Opening, OpeningError};
use share_verify::{Check, ShareFault};
use std::test::Fail;

// The extension block of a file of 56 zero bytes, one of one, and the hash of it that its cap
// holds. Both were computed by two programs of their own.
const HASH: [u8; 32] = [
    0x65, 0x16, 0xf3, 0xd3, 0xd2, 0x00, 0xe3, 0x41, 0xd7, 0x76, 0xec, 0xd2, 0x23, 0xb5, 0x80, 0xbf,
    0x5a, 0x9c, 0x43, 0xfc, 0x3a, 0x02, 0xad, 0xc0, 0x14, 0x1c, 0xb2, 0x15, 0xa8, 0x16, 0x7d, 0xcd,
];

const BLOCK: &[u8; 305] = b"\
    codec_name:3:crs,codec_params:6:56-1-1,crypttext_hash:32:}\xd8\xb63\x80]\x13\xc8\
    \xeb\xaf\x17R\x03\x040.\x9e\xf3\xc8\xbel\xf0\x9a\xe1\xca\xbc\xceh(\x0f\xe9\xe8,c\
    rypttext_root_hash:32:\xc2\x04\xcc\xf0-N*\xa6\xd3\xf4\x0d\xfa\xa0q\x11}ju\xd70\
    \xad\x08\xf2\x8b\xeb\xc7\xde.6\xa7\x8f\xc4,needed_shares:1:1,num_segments:1:1,se\
    gment_size:2:56,share_root_hash:32:\xf0\xabOI\xf0\xc4\x80v*B\xe5\xa0\xe6E\x82\
    \xbeC\xfc\xbfwQiK\x81\xe2R\xe4\xf7A*{\x15,size:2:56,tail_codec_params:6:56-1-1,t\
    otal_shares:1:1,";

// The header of its share.
const HEADER: [u32; 9] = [1, 56, 56, 36, 92, 124, 156, 188, 222];

// An extension block of a file of 4,294,180,890 bytes, the least whose shares are in layout 2, and
// its hash by Python's hashlib.
const LARGE_SIZE: u64 = 4_294_180_890;

const LARGE_BLOCK: &[u8; 333] = b"\
    codec_name:3:crs,codec_params:11:1048576-1-1,crypttext_hash:32:\x01\x01\x01\x01\
    \x01\x01\x01\x01\x01\x01\x01\x01\x01\x01\x01\x01\x01\x01\x01\x01\x01\x01\x01\x01\
    \x01\x01\x01\x01\x01\x01\x01\x01,crypttext_root_hash:32:\x02\x02\x02\x02\x02\x02\
    \x02\x02\x02\x02\x02\x02\x02\x02\x02\x02\x02\x02\x02\x02\x02\x02\x02\x02\x02\x02\
    \x02\x02\x02\x02\x02\x02,needed_shares:1:1,num_segments:4:4096,segment_size:7:10\
    48576,share_root_hash:32:\x03\x03\x03\x03\x03\x03\x03\x03\x03\x03\x03\x03\x03\
    \x03\x03\x03\x03\x03\x03\x03\x03\x03\x03\x03\x03\x03\x03\x03\x03\x03\x03\x03,siz\
    e:10:4294180890,tail_codec_params:10:262170-1-1,total_shares:1:1,";

const LARGE_HASH: [u8; 32] = [
    0xe6, 0x66, 0x34, 0xf9, 0x90, 0x53, 0x37, 0xfe, 0x13, 0x13, 0x18, 0xd4, 0x70, 0xf1, 0xa0, 0xd3,
    0x2c, 0x4c, 0xda, 0x37, 0xe0, 0x86, 0xc6, 0x89, 0xc6, 0xb0, 0x75, 0xa3, 0xcd, 0x57, 0x49, 0x77,
];

// The numbers of the header of its share behind the version.
const LARGE_HEADER: [u64; 8] = [
    1 << 20,
    4_294_180_890,
    68,
    4_294_180_958,
    4_294_443_070,
    4_294_705_182,
    4_294_967_294,
    4_294_967_328,
];

// The numbers of a header of the first layout, in four bytes each.
fn in_four_bytes(numbers: &[u32; 9]) -> [u8; 36] {
    let mut header = [0; 36];
    for i in 0..9 {
        header[4 * i..4 * i + 4].copy_from_slice(&numbers[i].to_be_bytes());
    }
    header
}

// A header of the second layout.
fn in_eight_bytes(numbers: &[u64; 8]) -> [u8; 68] {
    let mut header = [0; 68];
    header[3] = 2;
    for i in 0..8 {
        header[4 + 8 * i..12 + 8 * i].copy_from_slice(&numbers[i].to_be_bytes());
    }
    header
}

// What a share begins with: its header, the offset of the extension block's length, that length,
// and the extension block.
#[derive(Clone, Copy)]
struct Beginning<'a> {
    header: &'a [u8],
    offset: u64,
    told: &'a [u8],
    block: &'a [u8],
}

impl Beginning<'_> {
    fn read(&self, offset: u64, length: u32) -> &[u8] {
        if offset == self.offset {
            return self.told;
        }
        if offset > self.offset {
            return self.block;
        }
        let start = offset as usize;
        let end = start.saturating_add(length as usize);
        match self.header.get(start..end) {
            Some(bytes) => bytes,
            None => &[],
        }
    }

    // What it says, and how many reads it took.
    fn open(&self, cap: &VerifyCap) -> (Result<Opened, OpeningError>, usize) {
        let mut opening = Opening::start();
        for reads in 1..5 {
            let bytes = self.read(opening.next_offset(), opening.next_length());
            match opening.take(cap, bytes) {
                Ok(Progress::Next(next)) => opening = next,
                Ok(Progress::Done(opened)) => return (Ok(opened), reads),
                Err(error) => return (Err(error), reads),
            }
        }
        (Err(OpeningError::OtherLength), 0)
    }
}

fn small_cap() -> Result<VerifyCap, CapError> {
    Ok(ReadCap::new([0; 16], HASH, 1, 1, 56)?.to_verify())
}

// The refusal, and how many reads it took.
fn refusal(
    cap: &VerifyCap,
    header: &[u8],
    offset: u64,
    told: &[u8],
    block: &[u8],
) -> (Option<OpeningError>, usize) {
    let beginning = Beginning {
        header,
        offset,
        told,
        block,
    };
    let (result, reads) = beginning.open(cap);
    match result {
        Ok(_) => (None, reads),
        Err(error) => (Some(error), reads),
    }
}

#[test]
fn a_share_of_layout_1_is_opened_by_three_reads(rt: HostRuntime) -> Result<(), Fail> {
    let header = in_four_bytes(&HEADER);
    let beginning = Beginning {
        header: &header,
        offset: 222,
        told: &[0, 0, 1, 49],
        block: BLOCK,
    };
    let cap = small_cap()?;
    let (result, reads) = beginning.open(&cap);
    let Ok(opened) = result else {
        assert!(rt; false, "not opened");
        return Ok(());
    };
    assert!(rt; reads == 3);
    assert!(rt; opened.ueb.segment_size() == 56);
    assert!(rt; opened.ueb.total_shares() == 1);
    assert!(rt; opened.geometry == Geometry::of(56, 1, 1, 131_072)?);
    assert!(rt; opened.offsets.layout == Layout::One);
    assert!(rt; opened.offsets.share_hashes == 188);
    assert!(rt; opened.offsets.extension_block == 222);
    Ok(())
}

#[test]
fn a_share_of_layout_2_is_opened_by_four_reads(rt: HostRuntime) -> Result<(), Fail> {
    let header = in_eight_bytes(&LARGE_HEADER);
    let beginning = Beginning {
        header: &header,
        offset: 4_294_967_328,
        told: &[0, 0, 0, 0, 0, 0, 1, 77],
        block: LARGE_BLOCK,
    };
    let cap = ReadCap::new([0; 16], LARGE_HASH, 1, 1, LARGE_SIZE)?.to_verify();
    let (result, reads) = beginning.open(&cap);
    let Ok(opened) = result else {
        assert!(rt; false, "not opened");
        return Ok(());
    };
    assert!(rt; reads == 4);
    assert!(rt; opened.ueb.size() == LARGE_SIZE);
    assert!(rt; opened.offsets.layout == Layout::Two);
    assert!(rt; opened.offsets.extension_block == 4_294_967_328);
    Ok(())
}

// Which number of the header is another, what it is, and the refusal.
static OTHER_NUMBERS: [(usize, u32, OpeningError, usize); 4] = [
    (0, 3, OpeningError::Header(LayoutError::BadVersion), 1),
    (1, 57, OpeningError::OtherHeader, 3),
    (3, 37, OpeningError::Header(LayoutError::BadOffset), 1),
    (4, 36, OpeningError::Header(LayoutError::BadOffset), 1),
];

#[test]
fn other_headers_are_refused(rt: HostRuntime) -> Result<(), Fail> {
    let cap = small_cap()?;
    for &(i, number, error, reads) in &OTHER_NUMBERS {
        let mut numbers = HEADER;
        numbers[i] = number;
        let header = in_four_bytes(&numbers);
        let found = refusal(&cap, &header, 222, &[0, 0, 1, 49], BLOCK);
        assert!(rt; found == (Some(error), reads), "number {i}");
        assert!(rt; error.check() == Check::Layout, "number {i}");
    }
    Ok(())
}

// The bytes of the extension block's length, the refusal and its check.
static LENGTHS: [(&[u8], OpeningError, Check); 5] = [
    (&[0, 0, 0, 0], OpeningError::NoBlock, Check::Ueb),
    (&[0, 0, 0x10, 1], OpeningError::TooLong, Check::Layout),
    (&[255, 255, 255, 255], OpeningError::TooLong, Check::Layout),
    (&[0, 0, 1], OpeningError::OtherLength, Check::Layout),
    (&[0, 0, 0, 1, 49], OpeningError::OtherLength, Check::Layout),
];

#[test]
fn no_block_is_read_behind_other_lengths(rt: HostRuntime) -> Result<(), Fail> {
    let cap = small_cap()?;
    let header = in_four_bytes(&HEADER);
    for &(told, error, check) in &LENGTHS {
        assert!(rt; refusal(&cap, &header, 222, told, BLOCK) == (Some(error), 2));
        assert!(rt; error.check() == check);
    }
    Ok(())
}

#[test]
fn other_blocks_are_refused(rt: HostRuntime) -> Result<(), Fail> {
    let cap = small_cap()?;
    let header = in_four_bytes(&HEADER);
    let other = OpeningError::Ueb(ShareFault::OtherUeb);
    assert!(rt; refusal(&cap, &header, 222, &[0, 0, 1, 77], LARGE_BLOCK) == (Some(other), 3));
    assert!(rt; other.check() == Check::Ueb);
    let short = BLOCK.get(..304).unwrap_or(&[]);
    assert!(rt; refusal(&cap, &header, 222, &[0, 0, 1, 48], short) == (Some(other), 3));
    let length = OpeningError::OtherLength;
    assert!(rt; refusal(&cap, &header, 222, &[0, 0, 1, 48], BLOCK) == (Some(length), 3));
    Ok(())
}

#[test]
fn headers_cut_short_are_of_another_length(rt: HostRuntime) -> Result<(), Fail> {
    let cap = small_cap()?;
    let header = in_eight_bytes(&LARGE_HEADER);
    let length = OpeningError::OtherLength;
    let start = header.get(..35).unwrap_or(&[]);
    assert!(rt; refusal(&cap, start, 1 << 40, &[], &[]) == (Some(length), 1));
    let start = header.get(..67).unwrap_or(&[]);
    assert!(rt; refusal(&cap, start, 1 << 40, &[], &[]) == (Some(length), 2));
    Ok(())
}

#[test]
fn offsets_near_2_to_the_64_are_refused(rt: HostRuntime) -> Result<(), Fail> {
    let cap = small_cap()?;
    let mut numbers = LARGE_HEADER;
    numbers[7] = u64::MAX - 4_104;
    let header = in_eight_bytes(&numbers);
    let length = OpeningError::OtherLength;
    assert!(rt; refusal(&cap, &header, 1 << 40, &[], &[]) == (Some(length), 3));
    numbers[7] += 1;
    let header = in_eight_bytes(&numbers);
    assert!(rt; refusal(&cap, &header, 1 << 40, &[], &[]) == (Some(OpeningError::TooFar), 2));
    assert!(rt; OpeningError::TooFar.check() == Check::Layout);
    Ok(())
}

#[test]
fn an_opening_agrees_with_its_own_geometry(rt: HostRuntime) -> Result<(), Fail> {
    let small = Geometry::of(56, 1, 1, 131_072)?;
    let large = Geometry::of(LARGE_SIZE, 1, 1, 1 << 20)?;
    let cap = small_cap()?;
    let start = Opening::start();
    assert!(rt; start.agrees(&small) && start.agrees(&large));
    let header = in_eight_bytes(&LARGE_HEADER);
    let (first, rest) = header.split_at(36);
    let Ok(Progress::Next(second)) = start.take(&cap, first) else {
        assert!(rt; false, "not read");
        return Ok(());
    };
    assert!(rt; second.agrees(&large) && !second.agrees(&small));
    let Ok(Progress::Next(whole)) = second.take(&cap, rest) else {
        assert!(rt; false, "not read");
        return Ok(());
    };
    assert!(rt; whole.agrees(&large) && !whole.agrees(&small));
    assert!(rt; whole.next_offset() == 4_294_967_328 && whole.next_length() == 8);
    Ok(())
}
