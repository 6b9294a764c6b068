//! Few shares leave lanes free: in these their blocks are hashed beside the whole shares.

ghost use Rattle.std.specs.Prelude.{◌≡◌, ◌*◌, ◌<◌, ◌≤◌, ◌++◌, ℕ, List, [], ◌∷◌, IsTrue};
ghost use Rattle.std.specs.Prelude.{OnOk, drop, length, slice_index_or, take};
ghost use Rattle.sha2_lanes.specs.Lanes.{text};
ghost use Rattle.tagged_hash.specs.TaggedHasher.{Holds};
ghost use Rattle.tagged_hash.specs.declared.tag.Tag.{Tag};
ghost use Rattle.tagged_hash.specs.Wholes.{IsGivenAt};
ghost use Rattle.share_gathering.specs.Shares.{HaveBecome, HaveBlocksMore};

use crate::groups::Group;
use crate::shares::ShareSoFar;
use block_making::lane_of;
use share_layout::Geometry;
use std::alloc::AllocError;
use tagged_hash::{TaggedHasher, WholeHashers, pieces_from};

// What eight hashers begin and end with each of them hashes alone, some half a KiB: blocks that
// are not much longer are better hashed eight of a share side by side.
const LONG_BLOCK: u32 = 4 << 10;

// Whether the blocks of a file's shares are hashed beside the whole shares: there are lanes for
// both, and the blocks are long. A share that is alone needs no lanes: it is faster by itself.
pub(crate) fn have_free_lanes(geometry: &Geometry) -> bool
    ensures { IsTrue result → geometry.now.total ≤ 3 }
{
    matches!(geometry.total(), 2 | 3) && geometry.block_size() >= LONG_BLOCK
}

// Gathers the blocks of at most three shares, each in its lane, and gives another hasher its text.
// Blocks have `size` bytes, and the last of a lane perhaps fewer.
pub(crate) fn add_blocks(
    lanes: &[u8],
    group: Group,
    size: usize,
    shares: &mut [ShareSoFar],
    whole: &mut WholeHashers,
    other: &mut TaggedHasher,
    beside: &[u8],
) -> Result<(), AllocError>
    requires few { length shares.old ≤ 3 }
    requires room { 8 * group.row ≤ length lanes.now }
    ensures shares { OnOk result (HaveBlocksMore group.count size
        (λ i. take group.row (drop (i * group.row) lanes.now)) shares.old shares.new) }
    ensures whole { OnOk result ((j : ℕ) (given : List ℕ) → j < 3 → IsGivenAt whole.old j given
        → IsGivenAt whole.new j (given
        ++ take (group.count * size) (take group.row (drop (j * group.row) lanes.now)))) }
    ensures other { (tag : Tag) (text : List ℕ) → Holds other.old tag text
        → OnOk result (Holds other.new tag (text ++ beside.now)) }
{
    let mut given = 0;
    for number in 0..group.count {
        let blocks = blocks_at(lanes, group.row, size, number as usize);
        let hashed = whole.update_hashing(&blocks, other, &beside[given..]);
        given += hashed.len;
        push_hashes(&hashed.blocks, shares)?;
    }
    other.update(&beside[given..]);
    Ok(())
}

// The blocks of this number of the first three shares, each in its lane.
fn blocks_at(lanes: &[u8], row: usize, size: usize, number: usize) -> [&[u8]; 3]
    requires { 8 * row ≤ length lanes.now }
    ensures { (j : ℕ) → j < 3 → text result j
        ≡ take size (drop (number * size) (take row (drop (j * row) lanes.now))) }
{
    [
        block_at(lane_of(lanes, row, 0), size, number),
        block_at(lane_of(lanes, row, 1), size, number),
        block_at(lane_of(lanes, row, 2), size, number),
    ]
}

// The block of this number in a row.
fn block_at(row: &[u8], size: usize, number: usize) -> &[u8]
    ensures { result.now ≡ take size (drop (number * size) row.now) }
{
    let rest = pieces_from(row, size, number);
    &rest[..size.min(rest.len())]
}

// Gives each of at most three shares the leaf of its next block.
fn push_hashes(hashes: &[[u8; 32]; 3], shares: &mut [ShareSoFar]) -> Result<(), AllocError>
    requires { length shares.old ≤ 3 }
    ensures { OnOk result (HaveBecome
        (λ i old new. new.leaves.items
        ≡ old.leaves.items ++ slice_index_or hashes.now i [] ∷ [])
        shares.old shares.new) }
{
    for lane in 0..shares.len() {
        shares[lane].leaves.push(hashes[lane])?;
    }
    Ok(())
}
