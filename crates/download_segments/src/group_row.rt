//! The blocks of eight segments in a row, which are hashed side by side.

ghost use Rattle.std.specs.Prelude.{◌≡◌, ◌+◌, ◌*◌, ◌^◌, ◌<◌, ◌≤◌, ℕ, [], All, length, map};
ghost use Rattle.std.specs.Prelude.{slice_index_or};
ghost use Rattle.tagged_hash.specs.TaggedHash.{tagged_hash};
ghost use Rattle.tagged_hash.specs.declared.tag.Tag.TheVariants.{Block};
ghost use Rattle.download_segments.specs.GroupMaking.{nth, nth_block};

use tagged_hash::{Tag, tagged_eight};

/// The hashes of the blocks at this position of each of eight segments, which have this length.
pub fn block_hashes(rows: &[Vec<u8>], size: u32, k: usize) -> [[u8; 32]; 8]
    requires eight { length rows.now ≡ 8 }
    requires long { All (λ r. k * size + size ≤ length r.items) rows.now }
    requires low { size < 2 ^ 32 }
    ensures { (i : ℕ) → i < 8 → slice_index_or result i [] ≡ tagged_hash Block
        (nth_block (nth (map (λ r. r.items) rows.now) i) size k) }
{
    let size = size as usize;
    let messages = [
        nth_block(&rows[0], size, k),
        nth_block(&rows[1], size, k),
        nth_block(&rows[2], size, k),
        nth_block(&rows[3], size, k),
        nth_block(&rows[4], size, k),
        nth_block(&rows[5], size, k),
        nth_block(&rows[6], size, k),
        nth_block(&rows[7], size, k),
    ];
    tagged_eight(Tag::Block, &messages, size)
}

// The block of this number, of blocks of one length that stand one after another.
fn nth_block(row: &[u8], size: usize, k: usize) -> &[u8]
    requires { k * size + size ≤ length row.now }
    ensures value { result.now ≡ nth_block row.now size k }
    ensures long { length result.now ≡ size }
{
    let from = k * size;
    &row[from..from + size]
}
