//! The blocks of a share against its block tree.

ghost use Rattle.std.specs.Prelude.{◌≤◌, ◌↔◌, IsTrue, List, ℕ, length};
ghost use Rattle.share_verify.specs.Hashed.{BeginsWith};
ghost use Rattle.share_verify.specs.Leaves.{AreBlockHashes};

use crate::hashed::HashedBlocks;
use tagged_hash::{Tag, pieces_from, tagged_pieces};

/// Whether the leaves are the hashes of the blocks, which have `block_size` bytes each, the last
/// one perhaps fewer, where the first ones are known by their hashes alone.
pub(crate) fn are_leaves_of(
    leaves: &[[u8; 32]],
    block_size: usize,
    blocks: &HashedBlocks<'_>,
) -> bool
    requires { length blocks.now.hashes.now ≤ length leaves.now }
    ensures { (text : List ℕ)
        → BeginsWith block_size text blocks.now.hashes.now blocks.now.rest.now
        → IsTrue result ↔ AreBlockHashes leaves.now block_size text }
{
    let (first, others) = leaves.split_at(blocks.hashes.len());
    first == blocks.hashes && are_hashes_of(others, block_size, blocks.rest)
}

// Whether the leaves are the hashes of the blocks, which have `block_size` bytes each, the last one
// perhaps fewer.
fn are_hashes_of(leaves: &[[u8; 32]], block_size: usize, blocks: &[u8]) -> bool
    ensures { IsTrue result ↔ AreBlockHashes leaves.now block_size blocks.now }
{
    for group in 0..leaves.len().div_ceil(8) {
        let first = 8 * group;
        let end = leaves.len().min(first + 8);
        let rest = pieces_from(blocks, block_size, first);
        if !are_first_hashes(&leaves[first..end], block_size, rest) {
            return false;
        }
    }
    true
}

// Whether the leaves, of which there are at most eight, are the hashes of the first blocks.
fn are_first_hashes(leaves: &[[u8; 32]], block_size: usize, blocks: &[u8]) -> bool
    requires { length leaves.now ≤ 8 }
    ensures { IsTrue result ↔ AreBlockHashes leaves.now block_size blocks.now }
{
    let mut hashes = [[0u8; 32]; 8];
    let count = leaves.len();
    tagged_pieces(Tag::Block, blocks, block_size, &mut hashes[..count]);
    leaves == &hashes[..count]
}
