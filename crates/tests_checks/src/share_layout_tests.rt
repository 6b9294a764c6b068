// Geometries and shares of worked examples, and shares with one fault.

ghost use Rattle.std.specs.Prelude.{◌≡◌, ◌≤◌, ◌+◌, false, length, IsTrue, OnErr};
ghost use Rattle.ueb.specs.Limits.{max_length};
ghost use Rattle.share_layout.specs.Layout.{header_size, layout_of, offsets_of};

use file_encoding::{Encoded, Params, Share, encode_all};
use share_layout::{Geometry, LayoutError, Offsets, Section, ShareView, ShareWriter, locate_ueb};
use std::alloc::Global;
use std::io;
use std::test::Fail;

// Size, shares needed and in all, greatest segment; segment size, segments, tail, block, tail's
// block; the header's numbers.
static GEOMETRIES: [((u64, u16, u16, u32), [u32; 5], [u32; 9]); 6] = [
    (
        (56, 3, 10, 131_072),
        [57, 1, 56, 19, 19],
        [1, 19, 19, 36, 55, 87, 119, 151, 321],
    ),
    (
        (56, 1, 1, 131_072),
        [56, 1, 56, 56, 56],
        [1, 56, 56, 36, 92, 124, 156, 188, 222],
    ),
    (
        (131_073, 3, 10, 131_072),
        [131_073, 1, 131_073, 43_691, 43_691],
        [
            1, 43_691, 43_691, 36, 43_727, 43_759, 43_791, 43_823, 43_993,
        ],
    ),
    (
        (131_074, 3, 10, 131_072),
        [131_073, 2, 1, 43_691, 1],
        [
            1, 43_691, 43_692, 36, 43_728, 43_824, 43_920, 44_016, 44_186,
        ],
    ),
    (
        (256, 256, 256, 131_072),
        [256, 1, 256, 1, 1],
        [1, 1, 1, 36, 37, 69, 101, 133, 439],
    ),
    (
        (300, 3, 10, 100),
        [102, 3, 96, 34, 32],
        [1, 34, 100, 36, 136, 360, 584, 808, 978],
    ),
];

#[test]
fn geometries_have_their_sizes(rt: HostRuntime) -> Result<(), Fail> {
    for &((size, needed, total, max), sizes, numbers) in &GEOMETRIES {
        let geometry = Geometry::of(size, needed, total, max)?;
        assert!(rt;
            (geometry.size(), geometry.needed(), geometry.total()) == (size, needed, total)
        );
        assert!(rt; has_sizes(&geometry, sizes), "at {size}");
        assert!(rt; has_numbers(&geometry, &numbers), "at {size}");
    }
    Ok(())
}

// Whether these are the sizes of its segments, their count, and the sizes of its last segment, of
// its blocks and of the last block.
fn has_sizes(geometry: &Geometry, sizes: [u32; 5]) -> bool {
    let [segment, segments, tail, block, tail_block] = sizes;
    geometry.segment_size() == segment
        && geometry.segment_count() == segments
        && geometry.tail_length() == tail
        && geometry.block_size() == block
        && geometry.tail_block_size() == tail_block
}

// Whether the header of its shares has these numbers, the third of which is the data's size.
fn has_numbers(geometry: &Geometry, numbers: &[u32; 9]) -> bool {
    let mut header = [0; 68];
    let length = geometry.header(&mut header);
    length == 36
        && geometry.share_data_size() == u64::from(numbers[2])
        && (0..9usize).all(|i| {
            header.get(4 * i..4 * i + 4) == Some(&numbers[i].to_be_bytes()[..])
        })
}

#[test]
fn a_geometry_gives_itself(rt: HostRuntime) -> Result<(), Fail> {
    for &((size, needed, total, max), _, _) in &GEOMETRIES {
        let geometry = Geometry::of(size, needed, total, max)?;
        let again = Geometry::of(size, needed, total, geometry.segment_size())?;
        assert!(rt; geometry == again, "at {size}");
    }
    Ok(())
}

// Size, shares needed and in all, greatest segment; the size with the padding, and the length of a
// share's blocks.
static PADDED: [((u64, u16, u16, u32), u64, u64); 6] = [
    ((56, 3, 10, 131_072), 57, 19),
    ((300, 3, 10, 100), 300, 100),
    (
        ((1 << 40) - 1, 3, 10, 1_048_576),
        1_099_511_627_775,
        366_503_875_925,
    ),
    (
        (1 << 40, 3, 10, 1_048_576),
        1_099_511_627_778,
        366_503_875_926,
    ),
    (
        (1 << 40, 255, 256, 1_048_576),
        1_099_511_628_030,
        4_311_810_306,
    ),
    (
        (1 << 40, 256, 256, 1_048_576),
        1_099_511_627_776,
        4_294_967_296,
    ),
];

// A text with its padding has as many segments as its file, and shares with the same header.
#[test]
fn padded_texts_have_their_sizes(rt: HostRuntime) -> Result<(), Fail> {
    for &((size, needed, total, max), whole, blocks) in &PADDED {
        let geometry = Geometry::of(size, needed, total, max)?;
        let padded = geometry.padded();
        let sizes = (padded.size(), padded.share_data_size());
        assert!(rt;
            sizes == (whole, blocks) && padded.padded() == padded,
            "at {size}"
        );
        assert!(rt;
            padded.segment_count() == geometry.segment_count(),
            "at {size}"
        );
        let (mut own, mut header) = ([0u8; 68], [0u8; 68]);
        let lengths = (geometry.header(&mut own), padded.header(&mut header));
        assert!(rt; lengths.0 == lengths.1 && own == header, "at {size}");
    }
    Ok(())
}

// Size, shares needed and in all, greatest segment, and the refusal, where there is one.
static LIMITS: [((u64, u16, u16, u32), Option<LayoutError>); 20] = [
    ((0, 3, 10, 131_072), Some(LayoutError::BadParameters)),
    ((1, 3, 10, 131_072), None),
    ((56, 0, 10, 131_072), Some(LayoutError::BadParameters)),
    ((56, 3, 2, 131_072), Some(LayoutError::BadParameters)),
    ((56, 3, 3, 131_072), None),
    ((56, 3, 257, 131_072), Some(LayoutError::BadParameters)),
    ((56, 256, 256, 131_072), None),
    ((56, 1, 1, 0), Some(LayoutError::BadParameters)),
    ((56, 1, 1, 1), None),
    ((56, 1, 1, 1_048_831), None),
    ((56, 1, 1, 1_048_832), Some(LayoutError::BadParameters)),
    ((1 << 40, 256, 256, 1_048_831), None),
    ((1 << 40, 1, 1, 1_048_576), None),
    (
        (1 << 40, 1, 1, 1_048_575),
        Some(LayoutError::TooManySegments),
    ),
    ((1 << 40, 1, 1, 131_072), Some(LayoutError::TooManySegments)),
    (
        ((1 << 40) + 1, 1, 1, 1_048_576),
        Some(LayoutError::TooLarge),
    ),
    (
        ((1 << 40) + 1, 0, 1, 1_048_576),
        Some(LayoutError::BadParameters),
    ),
    ((u64::MAX, 1, 1, 1), Some(LayoutError::TooLarge)),
    ((1_048_576, 1, 1, 1), None),
    ((1_048_577, 1, 1, 1), Some(LayoutError::TooManySegments)),
];

#[test]
fn geometries_have_limits(rt: HostRuntime) {
    for &((size, needed, total, max), refusal) in &LIMITS {
        let found = Geometry::of(size, needed, total, max).err();
        assert!(rt; found == refusal, "at {size} {needed} {total} {max}");
    }
}

#[test]
fn refusals_have_names(rt: HostRuntime) -> Result<(), Fail> {
    let rows = [
        (LayoutError::BadParameters, "BadParameters"),
        (LayoutError::TooLarge, "TooLarge"),
        (LayoutError::TooManySegments, "TooManySegments"),
        (LayoutError::BadVersion, "BadVersion"),
        (LayoutError::BadOffset, "BadOffset"),
        (
            LayoutError::Truncated(Section::CiphertextTree),
            "Truncated CiphertextTree",
        ),
        (LayoutError::BadShareHashes, "BadShareHashes"),
        (LayoutError::WriterFault, "WriterFault"),
    ];
    for (error, text) in rows {
        assert!(rt; format!(in rt.alloc(); "{error}")?.as_str() == text);
    }
    Ok(())
}

// Writes a share: what stands between its header and its extension block, and then that.
fn put_all<W: io::Write>(
    share: &mut ShareWriter<W>,
    middle: &[u8],
    extension_block: &[u8],
) -> Result<(), LayoutError>
    requires start { share.old.offset ≡ 0 }
    requires sound { share.old.failed ≡ false }
    requires whole { header_size (layout_of share.old.geometry) + length middle.now
        ≡ (offsets_of share.old.geometry).extension_block }
    requires short { length extension_block.now ≤ max_length }
    ensures { OnErr result (IsTrue share.new.failed) }
{
    share.put(middle)?;
    share.put_extension_block(extension_block)
}

// Whether this stands between the header and the extension block of a share.
fn fits(geometry: &Geometry, middle: &[u8], extension_block: &[u8]) -> bool
    ensures { IsTrue result → (header_size (layout_of geometry.now) + length middle.now
        ≡ (offsets_of geometry.now).extension_block)
        × (length extension_block.now ≤ max_length) }
{
    let header = geometry.layout().header_size() as u64;
    Offsets::of(geometry).extension_block == header + middle.len() as u64
        && extension_block.len() <= ueb::MAX_LENGTH
}

// A writer that takes so many bytes, at most seven a call, then fails once, and then takes all.
#[derive(Drop)]
struct Short {
    taken: Vec<u8>,
    left: usize,
}

impl io::Write for Short {
    fn write(&mut self, buf: &[u8]) -> io::Result<usize> {
        if self.left == 0 {
            self.left = usize::MAX;
            return Err(io::Error::from(io::ErrorKind::BrokenPipe));
        }
        let count = buf.len().min(self.left).min(7);
        self.taken.extend_from_slice(&buf[..count])?;
        self.left -= count;
        Ok(count)
    }

    fn flush(&mut self) -> io::Result<()> {
        Ok(())
    }
}

// What went out of a share to a writer that takes so many bytes and then fails, and whether the
// share writer failed, for good.
fn written(
    alloc: Global,
    middle: &[u8],
    extension_block: &[u8],
    number: u16,
    left: usize,
) -> Option<(Vec<u8>, bool)> {
    let writer = Short {
        taken: Vec::new(alloc),
        left,
    };
    let geometry = geometry()?;
    if !fits(&geometry, middle, extension_block) {
        return None;
    }
    let mut share = ShareWriter::new(writer, &geometry, number);
    let mut failed = false;
    if put_all(&mut share, middle, extension_block).is_err() {
        failed = share.put(&[]) == Err(LayoutError::WriterFault)
            && share.put_extension_block(&[]) == Err(LayoutError::WriterFault);
    }
    Some((share.into_inner().taken, failed))
}

// Whether the sections of a share, written to a writer that fails after so many bytes, give a
// beginning of it, and the share writer fails where that is not all.
fn is_beginning(alloc: Global, share: &[u8], number: u16, left: usize) -> bool {
    let (Some(middle), Ok(extension_block)) = (share.get(36..321), locate_ueb(share)) else {
        return false;
    };
    match written(alloc, middle, extension_block, number, left) {
        Some((taken, failed)) => {
            failed == (left < share.len())
                && Some(taken.as_slice()) == share.get(..left.min(share.len()))
        }
        None => false,
    }
}

// The shares of the file of 56 bytes at 3 of 10, whose byte i is i.
fn shares_of_ten(alloc: Global) -> Option<Vec<Share>> {
    let mut file = [0u8; 56];
    for i in 0..56 {
        file[i] = i as u8;
    }
    let params = Params::new(3, 1, 10, 131_072).ok()?;
    let Encoded { shares, .. } = encode_all(alloc, &file, b"", &params).ok()?;
    Some(shares)
}

// Share 3 of that file.
pub(crate) fn share_three(alloc: Global) -> Option<Vec<u8>> {
    let shares = shares_of_ten(alloc)?;
    Vec::from_slice(alloc, shares.get(3)?.as_slice()).ok()
}

pub(crate) fn geometry() -> Option<Geometry> {
    Geometry::of(56, 3, 10, 131_072).ok()
}

// The sections of each share of a file make the share.
#[test]
fn sections_make_each_share(rt: HostRuntime) {
    let Some(shares) = shares_of_ten(rt.alloc()) else {
        assert!(rt; false);
        return;
    };
    assert!(rt; shares.len() == 10);
    let mut number = 0u16;
    for share in &shares {
        assert!(rt;
            is_beginning(rt.alloc(), share.as_slice(), number, 1000),
            "{number}"
        );
        number = number.wrapping_add(1);
    }
}

#[test]
fn a_failed_writer_ends_a_share(rt: HostRuntime) {
    let Some(share) = share_three(rt.alloc()) else {
        assert!(rt; false);
        return;
    };
    assert!(rt; share.len() == 633);
    for left in 0..=633 {
        assert!(rt; is_beginning(rt.alloc(), &share, 3, left), "at {left}");
    }
}

// The header of a share at 3 of 10.
const HEADER: [u8; 36] = [
    0, 0, 0, 1, 0, 0, 0, 19, 0, 0, 0, 19, 0, 0, 0, 36, 0, 0, 0, 55, 0, 0, 0, 87, 0, 0, 0, 119, 0,
    0, 0, 151, 0, 0, 1, 65,
];

// Whether the sections of a share stand at their offsets.
fn has_sections(share: &[u8], geometry: &Geometry) -> bool {
    let Ok(view) = ShareView::read(share, 3, geometry) else {
        return false;
    };
    Some(view.blocks) == share.get(36..55)
        && Some(view.unused) == share.get(55..87)
        && Some(view.ciphertext_tree) == share.get(87..119)
        && Some(view.block_tree) == share.get(119..151)
        && Some(view.share_hashes) == share.get(151..321)
        && Some(view.extension_block) == share.get(325..)
        && locate_ueb(share).ok() == share.get(325..)
}

#[test]
fn a_share_has_its_sections(rt: HostRuntime) {
    let (Some(geometry), Some(share)) = (geometry(), share_three(rt.alloc())) else {
        assert!(rt; false);
        return;
    };
    assert!(rt; share.starts_with(&HEADER));
    assert!(rt; share.get(321..325) == Some(&[0u8, 0, 1, 52][..]));
    assert!(rt; has_sections(&share, &geometry));
}

// The refusal of a share of this number, where there is one.
pub(crate) fn read_refusal(share: &[u8], number: u16, geometry: &Geometry) -> Option<LayoutError> {
    ShareView::read(share, number, geometry).err()
}

// The refusal of a share by its header's own numbers, where there is one.
pub(crate) fn locate_refusal(share: &[u8]) -> Option<LayoutError> {
    locate_ueb(share).err()
}

#[test]
fn shares_carry_the_numbers_of_their_nodes(rt: HostRuntime) {
    let (Some(geometry), Some(mut share)) = (geometry(), share_three(rt.alloc())) else {
        assert!(rt; false);
        return;
    };
    let other = Some(LayoutError::BadShareHashes);
    for (number, refusal) in [
        (2, None),
        (3, None),
        (4, other),
        (1, other),
        (10, other),
        (u16::MAX, other),
    ] {
        assert!(rt;
            read_refusal(&share, number, &geometry) == refusal,
            "at {number}"
        );
    }
    for (offset, refusal) in [
        (151, other),
        (152, other),
        (153, None),
        (184, None),
        (186, other),
        (288, other),
    ] {
        if offset < share.len() {
            share[offset] ^= 1;
            assert!(rt;
                read_refusal(&share, 3, &geometry) == refusal,
                "at {offset}"
            );
            assert!(rt; locate_refusal(&share).is_none());
            share[offset] ^= 1;
        }
    }
}

// The section of the first byte that is missing from a share of 633 bytes that is cut to this
// length.
fn section_of(len: usize) -> Section {
    match len {
        0..=35 => Section::Header,
        36..=54 => Section::Data,
        55..=86 => Section::Unused,
        87..=118 => Section::CiphertextTree,
        119..=150 => Section::BlockTree,
        151..=320 => Section::ShareHashes,
        _ => Section::Ueb,
    }
}

#[test]
fn a_cut_share_names_its_section(rt: HostRuntime) {
    let (Some(geometry), Some(share)) = (geometry(), share_three(rt.alloc())) else {
        assert!(rt; false);
        return;
    };
    for len in 0..share.len() {
        let cut = &share[..len];
        let fault = LayoutError::Truncated(section_of(len));
        assert!(rt;
            ShareView::read(cut, 3, &geometry) == Err(fault),
            "at {len}"
        );
        assert!(rt; has_fault(cut, fault), "at {len}");
    }
}

#[test]
fn a_changed_header_is_refused(rt: HostRuntime) {
    let (Some(geometry), Some(mut share)) = (geometry(), share_three(rt.alloc())) else {
        assert!(rt; false);
        return;
    };
    for offset in 0..36 {
        if offset < share.len() {
            share[offset] ^= 1;
            let refusal = if offset < 4 {
                LayoutError::BadVersion
            } else {
                LayoutError::BadOffset
            };
            let read = read_refusal(&share, 3, &geometry);
            assert!(rt; read == Some(refusal), "at {offset}");
            let located = match offset {
                0..=3 => Some(LayoutError::BadVersion),
                4..=11 => None,
                _ => Some(LayoutError::BadOffset),
            };
            if offset < 16 {
                assert!(rt; locate_refusal(&share) == located, "at {offset}");
            }
            share[offset] ^= 1;
        }
    }
}

#[test]
fn a_share_ends_with_its_extension_block(rt: HostRuntime) {
    let (Some(geometry), Some(mut share)) = (geometry(), share_three(rt.alloc())) else {
        assert!(rt; false);
        return;
    };
    assert!(rt; share.push(0).is_ok());
    let other = Some(LayoutError::BadOffset);
    assert!(rt; read_refusal(&share, 3, &geometry) == other);
    assert!(rt; locate_refusal(&share) == other);
    share.pop();
    let short = Some(LayoutError::Truncated(Section::Ueb));
    // The length of the extension block, its two low bytes.
    for (high, low, refusal) in [
        (1, 52, None),
        (1, 51, other),
        (1, 53, short),
        (16, 0, short),
        (16, 1, other),
        (0, 0, other),
    ] {
        if share.len() > 324 {
            share[323] = high;
            share[324] = low;
            assert!(rt;
                read_refusal(&share, 3, &geometry) == refusal,
                "at {high} {low}"
            );
            assert!(rt; locate_refusal(&share) == refusal, "at {high} {low}");
        }
    }
}

// Whether this is the first fault of a share, by its header's own numbers.
pub(crate) fn has_fault(bytes: &[u8], fault: LayoutError) -> bool {
    locate_ueb(bytes) == Err(fault)
}

#[test]
fn offsets_of_a_lying_header_do_not_wrap(rt: HostRuntime) {
    let mut bytes = [0u8; 40];
    let numbers = [
        1,
        0,
        0,
        36,
        u32::MAX - 4,
        u32::MAX - 3,
        u32::MAX - 2,
        u32::MAX - 1,
        u32::MAX,
    ];
    for i in 0..9 {
        bytes[4 * i..4 * i + 4].copy_from_slice(&numbers[i].to_be_bytes());
    }
    assert!(rt; has_fault(&bytes, LayoutError::Truncated(Section::Data)));
    bytes[34] = 0;
    assert!(rt; has_fault(&bytes, LayoutError::BadOffset));
}
