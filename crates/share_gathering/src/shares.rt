//! What is gathered of each share while the segments of its file go by.

ghost use Rattle.std.specs.Prelude.{◌≡◌, ◌+◌, ◌-◌, ◌*◌, ◌<◌, ◌≤◌, ◌++◌, ℕ, List, IfOk, OnOk};
ghost use Rattle.std.specs.Prelude.{drop, length, map, replicate, take};
ghost use Rattle.sha2_lanes.specs.Lanes.{text};
ghost use Rattle.tagged_hash.specs.TaggedHash.{tagged_hash};
ghost use Rattle.tagged_hash.specs.TaggedHasher.{Holds};
ghost use Rattle.tagged_hash.specs.declared.tag.Tag.{Tag};
ghost use Rattle.share_layout.specs.Geometry.{block_size};
ghost use Rattle.share_layout.specs.Pieces.{pieces};
ghost use Rattle.share_gathering.specs.Gathered.{gathered_none};
ghost use Rattle.share_gathering.specs.Groups.{IsGroup, row_of};
ghost use Rattle.share_gathering.specs.Shares.{AreGivenMore, CanGather, HaveBlocksMore};
ghost use Rattle.share_gathering.specs.Shares.{HaveWholesMore, HoldShares, HoldSharesMore};

use crate::few::{add_blocks, have_free_lanes};
use crate::groups::Group;
use block_making::{encode_lane, lane_of};
use share_layout::Geometry;
use std::alloc::{AllocError, Global};
use tagged_hash::{Tag, TaggedHasher, WholeHashers, tagged_pieces};
use zfec_code::Code;

/// What is gathered of a share alone: the leaves of its block tree.
#[derive(Drop)]
pub struct ShareSoFar {
    pub leaves: Vec<[u8; 32]>,
}

/// All shares of a file, of which no block is gathered.
pub fn begin_shares(alloc: Global, geometry: &Geometry) -> Result<Vec<ShareSoFar>, AllocError>
    ensures count { IfOk result (λ shares. length shares.items ≡ geometry.now.total) }
    ensures begun { IfOk result
        (λ shares. HoldShares (gathered_none geometry.now) shares.items) }
{
    let total = geometry.total();
    let mut shares = Vec::with_capacity(alloc, usize::from(total))?;
    while shares.len() < usize::from(total) {
        let leaves = Vec::with_capacity(alloc, geometry.segment_count() as usize)?;
        shares.push(ShareSoFar { leaves })?;
    }
    Ok(shares)
}

/// Gathers the blocks of a group of segments, which stand one after another with zeros behind the
/// last. The buffer has room for those of eight shares.
pub fn add_segments(
    code: &Code,
    geometry: &Geometry,
    group: Group,
    segments: &[u8],
    lanes: &mut [u8],
    shares: &mut [ShareSoFar],
    wholes: &mut [WholeHashers],
) -> Result<(), AllocError>
    requires { CanGather geometry.now code.now group segments.now lanes.old shares.old wholes.old }
    ensures shares { OnOk result (HoldSharesMore geometry.now group
        (take group.len segments.now) shares.old shares.new) }
    ensures wholes { OnOk result (AreGivenMore geometry.now group
        (take group.len segments.now) wholes.old wholes.new) }
{
    let mut nobody = TaggedHasher::new(Tag::WholeShare);
    add_segments_beside(
        code,
        geometry,
        group,
        segments,
        lanes,
        shares,
        wholes,
        &mut nobody,
        &[],
    )
}

/// The same, and another hasher is given its text: it rides beside the whole shares, as far as
/// there are such.
pub fn add_segments_beside(
    code: &Code,
    geometry: &Geometry,
    group: Group,
    segments: &[u8],
    lanes: &mut [u8],
    shares: &mut [ShareSoFar],
    wholes: &mut [WholeHashers],
    other: &mut TaggedHasher,
    beside: &[u8],
) -> Result<(), AllocError>
    requires { CanGather geometry.now code.now group segments.now lanes.old shares.old wholes.old }
    ensures shares { OnOk result (HoldSharesMore geometry.now group
        (take group.len segments.now) shares.old shares.new) }
    ensures wholes { OnOk result (AreGivenMore geometry.now group
        (take group.len segments.now) wholes.old wholes.new) }
    ensures other { (tag : Tag) (text : List ℕ) → Holds other.old tag text
        → OnOk result (Holds other.new tag (text ++ beside.now)) }
{
    if have_free_lanes(geometry) {
        add_few(
            code, geometry, group, segments, lanes, shares, wholes, other, beside,
        )
    } else {
        add_sevens(
            code, geometry, group, segments, lanes, shares, wholes, other, beside,
        )
    }
}

// The same for any number of shares, seven at a time.
fn add_sevens(
    code: &Code,
    geometry: &Geometry,
    group: Group,
    segments: &[u8],
    lanes: &mut [u8],
    shares: &mut [ShareSoFar],
    wholes: &mut [WholeHashers],
    other: &mut TaggedHasher,
    beside: &[u8],
) -> Result<(), AllocError>
    requires { CanGather geometry.now code.now group segments.now lanes.old shares.old wholes.old }
    ensures shares { OnOk result (HaveBlocksMore group.count (block_size geometry.now)
        (row_of geometry.now group (take group.len segments.now)) shares.old shares.new) }
    ensures wholes { OnOk result (HaveWholesMore geometry.now.total
        (row_of geometry.now group (take group.len segments.now)) wholes.old wholes.new) }
    ensures other { (tag : Tag) (text : List ℕ) → Holds other.old tag text
        → OnOk result (Holds other.new tag (text ++ beside.now)) }
{
    let size = geometry.block_size() as usize;
    let mut given = 0;
    for seven in 0..shares.len().div_ceil(7) {
        let first = 7 * seven;
        let end = shares.len().min(first + 7);
        encode_rows(code, geometry, group, segments, first, end - first, lanes);
        add_rows(lanes, group, size, &mut shares[first..end])?;
        let blocks = all_lanes(lanes, group.row);
        given += wholes[seven].update_beside(&blocks, other, &beside[given..]);
    }
    other.update(&beside[given..]);
    Ok(())
}

// The same for at most three shares: each block is hashed beside the whole shares.
fn add_few(
    code: &Code,
    geometry: &Geometry,
    group: Group,
    segments: &[u8],
    lanes: &mut [u8],
    shares: &mut [ShareSoFar],
    wholes: &mut [WholeHashers],
    other: &mut TaggedHasher,
    beside: &[u8],
) -> Result<(), AllocError>
    requires can { CanGather geometry.now code.now group segments.now lanes.old shares.old
        wholes.old }
    requires few { geometry.now.total ≤ 3 }
    ensures shares { OnOk result (HaveBlocksMore group.count (block_size geometry.now)
        (row_of geometry.now group (take group.len segments.now)) shares.old shares.new) }
    ensures wholes { OnOk result (HaveWholesMore geometry.now.total
        (row_of geometry.now group (take group.len segments.now)) wholes.old wholes.new) }
    ensures other { (tag : Tag) (text : List ℕ) → Holds other.old tag text
        → OnOk result (Holds other.new tag (text ++ beside.now)) }
{
    let size = geometry.block_size() as usize;
    encode_rows(code, geometry, group, segments, 0, shares.len(), lanes);
    add_blocks(lanes, group, size, shares, &mut wholes[0], other, beside)
}

// Writes the blocks of so many shares, from one on, into lanes: those of a share stand one after
// another.
fn encode_rows(
    code: &Code,
    geometry: &Geometry,
    group: Group,
    segments: &[u8],
    first: usize,
    count: usize,
    lanes: &mut [u8],
)
    requires group { IsGroup geometry.now group }
    requires needed { code.now.k ≡ geometry.now.needed }
    requires total { code.now.n ≡ geometry.now.total }
    requires segments { length segments.now ≡ 8 * geometry.now.segment_size }
    requires padding { drop group.len segments.now
        ≡ replicate (8 * geometry.now.segment_size - group.len) 0 }
    requires few { count ≤ 8 }
    requires room { 8 * group.row ≤ length lanes.old }
    requires in_range { first + count ≤ geometry.now.total }
    ensures { (i : ℕ) → i < count → take group.row (drop (i * group.row) lanes.new)
        ≡ row_of geometry.now group (take group.len segments.now) (first + i) }
{
    for lane in 0..count {
        let share = (first + lane) as u16;
        let start = lane * group.row;
        let row = &mut lanes[start..start + group.row];
        encode_row(code, geometry, group, segments, share, row);
    }
}

// Writes the blocks of a share one after another.
fn encode_row(
    code: &Code,
    geometry: &Geometry,
    group: Group,
    segments: &[u8],
    share: u16,
    row: &mut [u8],
)
    requires group { IsGroup geometry.now group }
    requires needed { code.now.k ≡ geometry.now.needed }
    requires total { code.now.n ≡ geometry.now.total }
    requires segments { length segments.now ≡ 8 * geometry.now.segment_size }
    requires padding { drop group.len segments.now
        ≡ replicate (8 * geometry.now.segment_size - group.len) 0 }
    requires in_range { share < geometry.now.total }
    requires row { length row.old ≡ group.row }
    ensures { row.new ≡ row_of geometry.now group (take group.len segments.now) share }
{
    let segment_size = geometry.segment_size() as usize;
    let block_size = geometry.block_size() as usize;
    let needed = usize::from(geometry.needed());
    for i in 0..group.count {
        let size = geometry.block_length(group.first + i) as usize;
        let start = i as usize * segment_size;
        let offset = i as usize * block_size;
        let padded = &segments[start..start + size * needed];
        encode_lane(
            code,
            padded,
            share,
            size,
            0,
            &mut row[offset..offset + size],
        );
    }
}

// Gathers the hashes of the next blocks of at most eight shares, each in its lane. Blocks have
// `size` bytes, and the last of a lane perhaps fewer.
fn add_rows(
    lanes: &[u8],
    group: Group,
    size: usize,
    shares: &mut [ShareSoFar],
) -> Result<(), AllocError>
    requires few { length shares.old ≤ 8 }
    requires at_once { group.count ≤ 8 }
    requires room { 8 * group.row ≤ length lanes.now }
    ensures { OnOk result (HaveBlocksMore group.count size
        (λ i. take group.row (drop (i * group.row) lanes.now)) shares.old shares.new) }
{
    let count = group.count as usize;
    for lane in 0..shares.len() {
        let row = lane_of(lanes, group.row, lane);
        add_leaves(Tag::Block, row, size, count, &mut shares[lane].leaves)?;
    }
    Ok(())
}

/// Adds the hashes of the pieces of a text, at most eight of `size` bytes, the last perhaps
/// shorter. They are hashed side by side.
pub fn add_leaves(
    tag: Tag,
    text: &[u8],
    size: usize,
    count: usize,
    leaves: &mut Vec<[u8; 32]>,
) -> Result<(), AllocError>
    requires { count ≤ 8 }
    ensures { OnOk result (leaves.new.items
        ≡ leaves.old.items ++ map (tagged_hash tag) (pieces count size text.now)) }
{
    let mut hashes = [[0; 32]; 8];
    tagged_pieces(tag, text, size, &mut hashes[..count]);
    leaves.extend_from_slice(&hashes[..count])?;
    Ok(())
}

// The blocks in eight lanes of `size` bytes.
fn all_lanes(lanes: &[u8], size: usize) -> [&[u8]; 8]
    requires { 8 * size ≤ length lanes.now }
    ensures { (j : ℕ) → j < 8 → text result j ≡ take size (drop (j * size) lanes.now) }
{
    [
        lane_of(lanes, size, 0),
        lane_of(lanes, size, 1),
        lane_of(lanes, size, 2),
        lane_of(lanes, size, 3),
        lane_of(lanes, size, 4),
        lane_of(lanes, size, 5),
        lane_of(lanes, size, 6),
        lane_of(lanes, size, 7),
    ]
}
