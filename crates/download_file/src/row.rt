//! Eight segments in a row, whose blocks are hashed side by side.

ghost use Rattle.std.specs.Prelude.{◌≡◌, ◌↔◌, ◌+◌, ◌*◌, ◌^◌, ◌<◌, ◌≤◌, ℕ, All, IfOk, IsTrue};
ghost use Rattle.std.specs.Prelude.{false, length, map};
ghost use Rattle.share_layout.specs.Geometry.{segment_count};
ghost use Rattle.download_file.specs.Rows.{AreRowsProved, HasRow, HaveRow, IsRow, ProvesBlocks};
ghost use Rattle.download_file.specs.Steps.{AreReady};

use crate::blocks::{has_all, join_blocks};
use crate::reader::Reader;
use download_segments::{Handout, block_hashes};
use download_supply::Supply;
use request_record::requests::Requests;
use std::alloc::{AllocError, Global};

/// Whether eight segments from this one on are wanted to their ends, as many shares as are needed
/// are read, all their blocks of these segments were taken, and the segments' hashes are known.
pub(crate) fn has_row(handout: &Handout, readers: &[Reader], live: &[usize], number: u32) -> bool
    requires there { number < segment_count handout.now.geometry }
    requires live { All (λ position. position < length readers.now) live.now }
    ensures yes { IsTrue result → HasRow handout.now readers.now live.now number }
    ensures no { result ≡ false → ¬ HasRow handout.now readers.now live.now number }
{
    if !handout.wants_row(number) {
        return false;
    }
    for i in 0..8 {
        if !has_all(handout, readers, live, number + i) {
            return false;
        }
    }
    true
}

/// The blocks of eight segments from this one on, each of this length: of each segment those that
/// the readers at these positions hold, one after another.
pub(crate) fn join_row(
    alloc: Global,
    requests: &Requests,
    readers: &[Reader],
    positions: &[usize],
    number: u32,
    size: u32,
) -> Result<Vec<Vec<u8>>, AllocError>
    requires held { HaveRow readers.now number size positions.now }
    requires low { number + 8 < 2 ^ 32 }
    ensures eight { IfOk result (λ rows. length rows.items ≡ 8) }
    ensures rows { IfOk result (λ rows. IsRow requests.now.entries readers.now number positions.now
        (map (λ r. r.items) rows.items)) }
{
    let mut rows = Vec::with_capacity(alloc, 8)?;
    for i in 0..8 {
        let row = join_blocks(alloc, requests, readers, positions, number + i, size)?;
        rows.push(row)?;
    }
    Ok(rows)
}

/// Whether each of the readers at these positions has, of eight segments from this one on, the
/// blocks that its block tree tells. Of each segment they stand one after another, each of this
/// length.
pub(crate) fn are_right(
    readers: &[Reader],
    positions: &[usize],
    number: u32,
    rows: &[Vec<u8>],
    size: u32,
) -> bool
    requires there { All (λ position. position < length readers.now) positions.now }
    requires ready { (i : ℕ) → i < 8 → AreReady readers.now positions.now (number + i) }
    requires low { number + 8 < 2 ^ 32 }
    requires eight { length rows.now ≡ 8 }
    requires long { All (λ r. length r.items ≡ length positions.now * size) rows.now }
    ensures { IsTrue result ↔ AreRowsProved readers.now positions.now number
        (map (λ r. r.items) rows.now) size (length positions.now) }
{
    for k in 0..positions.len() {
        if !are_proved(readers[positions[k]].supply(), number, rows, size, k) {
            return false;
        }
    }
    true
}

// Whether the blocks at this position of each of eight segments, which have this length, are those
// that the block tree of a supply tells.
fn are_proved(supply: &Supply, number: u32, rows: &[Vec<u8>], size: u32, k: usize) -> bool
    requires within { number + 8 ≤ supply.now.end }
    requires low { number + 8 < 2 ^ 32 }
    requires eight { length rows.now ≡ 8 }
    requires long { All (λ r. k * size + size ≤ length r.items) rows.now }
    ensures { IsTrue result ↔ ProvesBlocks supply.now number
        (map (λ r. r.items) rows.now) size k }
{
    let hashes = block_hashes(rows, size, k);
    let mut position = number;
    for hash in &hashes {
        if !supply.proves_hash(position, hash) {
            return false;
        }
        position += 1;
    }
    true
}
