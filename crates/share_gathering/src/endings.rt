//! What the shares of a file hold behind their blocks, as their hashers are given it.

ghost use Rattle.std.specs.Prelude.{◌≡◌, ◌+◌, ◌<◌, ◌≤◌, ◌++◌, ℕ, List, [], length, map};
ghost use Rattle.std.specs.Prelude.{replicate, slice_index_or, IfOk};
ghost use Rattle.std.specs.Int.{div_ceil};
ghost use Rattle.std.specs.List.{range_with_len};
ghost use Rattle.sha2_lanes.specs.Lanes.{text};
ghost use Rattle.merkle.specs.Tree.{tree_nodes};
ghost use Rattle.tagged_hash.specs.TaggedHash.{tagged_hash};
ghost use Rattle.tagged_hash.specs.declared.tag.Tag.TheVariants.{WholeShare};
ghost use Rattle.ueb.specs.Limits.{max_length};
ghost use Rattle.share_verify.specs.Pieces.{joined};
ghost use Rattle.share_gathering.specs.Finishing.{bytes_behind};
ghost use Rattle.tagged_hash.specs.Wholes.{AreGiven, IsGivenAt};

use crate::finishing::{Behind, spelled_length};
use merkle::Tree;
use share_layout::Geometry;
use std::alloc::{AllocError, Global};
use tagged_hash::{Endings, WholeHashers, finish_digests};

// What all shares of a file hold behind their blocks.
#[derive(Clone, Copy)]
struct BehindBlocks<'a> {
    geometry: &'a Geometry,
    behind: &'a Behind,
    ghost trees: { length behind.now.block_trees.items ≡ geometry.now.total },
    ghost hashes: { length behind.now.share_hashes.items ≡ geometry.now.total },
    ghost short: { length behind.now.extension_block.items ≤ max_length },
}

impl<'a> Endings for BehindBlocks<'a> {
    ghost count = { λ e. e.geometry.now.total };

    ghost ending = { λ e i. bytes_behind e.geometry.now e.behind.now i };

    fn give(&self, first: usize, whole: &mut WholeHashers) {
        let behind = self.behind;
        add_zeros(whole, self.geometry.tree_size() as usize);
        whole.update_all(behind.ciphertext_tree.nodes().as_flattened());
        whole.update(&eight_trees(&behind.block_trees, first));
        whole.update(&eight_hashes(&behind.share_hashes, first));
        let layout = self.geometry.layout();
        let (length, width) = spelled_length(layout, behind.extension_block.len());
        whole.update_all(&length[..width]);
        whole.update_all(&behind.extension_block);
    }
}

/// The digests of the shares of a file, whose headers and blocks were given to their hashers.
pub fn digests_of(
    alloc: Global,
    geometry: &Geometry,
    behind: &Behind,
    wholes: Vec<WholeHashers>,
) -> Result<Vec<[u8; 32]>, AllocError>
    requires trees { length behind.now.block_trees.items ≡ geometry.now.total }
    requires hashes { length behind.now.share_hashes.items ≡ geometry.now.total }
    requires short { length behind.now.extension_block.items ≤ max_length }
    requires groups { length wholes.items ≡ div_ceil geometry.now.total 7 }
    ensures { (written : ℕ → List ℕ) → AreGiven geometry.now.total written wholes.items
        → IfOk result (λ digests. digests.items ≡ map (λ i. tagged_hash WholeShare
        (written i ++ bytes_behind geometry.now behind.now i))
        (range_with_len 0 geometry.now.total)) }
{
    let endings = BehindBlocks { geometry, behind };
    finish_digests(alloc, &endings, usize::from(geometry.total()), wholes)
}

// Gives each share so many zero bytes.
fn add_zeros(whole: &mut WholeHashers, len: usize)
    ensures { (j : ℕ) (given : List ℕ) → j < 7 → IsGivenAt whole.old j given
        → IsGivenAt whole.new j (given ++ replicate len 0) }
{
    let zeros = [0; 4096];
    for _part in 0..len / 4096 {
        whole.update_all(&zeros);
    }
    whole.update_all(&zeros[..len % 4096]);
}

// The nodes of the tree of a number, and those of the last tree in place of one that is missing.
fn tree_bytes(trees: &[Tree], number: usize) -> &[u8]
    requires { 0 < length trees.now }
    ensures { number < length trees.now
        → result.now ≡ joined (tree_nodes (slice_index_or trees.now number [])) }
{
    trees[number.min(trees.len() - 1)].nodes().as_flattened()
}

// The nodes of eight trees from a number on.
fn eight_trees(trees: &[Tree], first: usize) -> [&[u8]; 8]
    requires { first < length trees.now }
    ensures { (j : ℕ) → j < 8 → first + j < length trees.now
        → text result j ≡ joined (tree_nodes (slice_index_or trees.now (first + j) [])) }
{
    [
        tree_bytes(trees, first),
        tree_bytes(trees, first + 1),
        tree_bytes(trees, first + 2),
        tree_bytes(trees, first + 3),
        tree_bytes(trees, first + 4),
        tree_bytes(trees, first + 5),
        tree_bytes(trees, first + 6),
        tree_bytes(trees, first + 7),
    ]
}

// The hashes of a number, and the last in place of those that are missing.
fn hashes_at(hashes: &[Vec<u8>], number: usize) -> &[u8]
    requires { 0 < length hashes.now }
    ensures { number < length hashes.now
        → result.now ≡ slice_index_or (map (λ h. h.items) hashes.now) number [] }
{
    &hashes[number.min(hashes.len() - 1)]
}

// Eight shares' hashes from a number on.
fn eight_hashes(hashes: &[Vec<u8>], first: usize) -> [&[u8]; 8]
    requires { first < length hashes.now }
    ensures { (j : ℕ) → j < 8 → first + j < length hashes.now
        → text result j ≡ slice_index_or (map (λ h. h.items) hashes.now) (first + j) [] }
{
    [
        hashes_at(hashes, first),
        hashes_at(hashes, first + 1),
        hashes_at(hashes, first + 2),
        hashes_at(hashes, first + 3),
        hashes_at(hashes, first + 4),
        hashes_at(hashes, first + 5),
        hashes_at(hashes, first + 6),
        hashes_at(hashes, first + 7),
    ]
}
