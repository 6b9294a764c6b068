// What follows from the leaves that a pass over a file gathered: trees, the extension block and the
// digests of the shares.

ghost use Rattle.std.specs.Prelude.{◌≡◌, ◌<◌, ◌≤◌, ℕ, List, length, map, All};
ghost use Rattle.std.specs.Prelude.{IfOk};
ghost use Rattle.std.specs.Int.{div_ceil};
ghost use Rattle.std.specs.List.{range_with_len};
ghost use Rattle.merkle.specs.Tree.{tree_root};
ghost use Rattle.tagged_hash.specs.TaggedHash.{tagged_hash};
ghost use Rattle.tagged_hash.specs.TaggedHasher.{Holds};
ghost use Rattle.tagged_hash.specs.declared.tag.Tag.TheVariants.{Ciphertext};
ghost use Rattle.ueb.specs.Block.{ueb_text};
ghost use Rattle.ueb.specs.Limits.{max_length};
ghost use Rattle.ueb.specs.Shape.{IsFile, IsSegmentSize};
ghost use Rattle.file_encoding.specs.Encoding.{share_hashes};
ghost use Rattle.share_gathering.specs.Finishing.{HaveLeaves};
ghost use Rattle.file_streaming.specs.Finishing.{IsFinished};
ghost use Rattle.share_gathering.specs.Gathered.{Gathered, IsGathered};
ghost use Rattle.share_gathering.specs.Shares.{HoldShares};
ghost use Rattle.tagged_hash.specs.Wholes.{AreGiven};

use crate::geometry::write_extension_block;
use share_gathering::{
    Behind, Finished, ShareSoFar, Trees, build_trees, digests_of, write_all_hashes,
};
use share_layout::Geometry;
use std::alloc::{AllocError, Global};
use tagged_hash::{TaggedHasher, WholeHashers};

// What shares hold behind their blocks, by the trees of their file and the hash of its ciphertext.
fn write_behind(
    alloc: Global,
    geometry: &Geometry,
    crypttext_hash: [u8; 32],
    trees: Trees,
) -> Result<Behind, AllocError>
    requires all { length trees.shares ≡ geometry.now.total }
    requires file { IsFile geometry.now.needed geometry.now.total geometry.now.size }
    requires segments { IsSegmentSize geometry.now.needed geometry.now.size
        geometry.now.segment_size }
    ensures ciphertext { IfOk result (λ behind. behind.ciphertext_tree ≡ trees.ciphertext) }
    ensures blocks { IfOk result (λ behind. behind.block_trees.items ≡ trees.blocks.items) }
    ensures hashes { IfOk result (λ behind. map (λ h. h.items) behind.share_hashes.items
        ≡ map (share_hashes trees.shares) (range_with_len 0 geometry.now.total)) }
    ensures extension_block { IfOk result (λ behind. behind.extension_block.items
        ≡ ueb_text (record {
          needed_shares = geometry.now.needed;
          total_shares = geometry.now.total;
          size = geometry.now.size;
          segment_size = geometry.now.segment_size;
          crypttext_hash = crypttext_hash;
          crypttext_root_hash = tree_root trees.ciphertext;
          share_root_hash = tree_root trees.shares;
        })) }
    ensures short { IfOk result (λ behind. length behind.extension_block.items ≤ max_length) }
{
    let share_hashes = write_all_hashes(alloc, &trees.shares, geometry.total())?;
    let extension_block = write_extension_block(
        alloc,
        geometry,
        crypttext_hash,
        trees.ciphertext.root(),
        trees.shares.root(),
    )?;
    Ok(Behind {
        ciphertext_tree: trees.ciphertext,
        block_trees: trees.blocks,
        share_hashes,
        extension_block,
    })
}

/// What is kept of a file whose segments are gathered.
pub(crate) fn finish(
    alloc: Global,
    geometry: &Geometry,
    ciphertext: TaggedHasher,
    leaves: &[[u8; 32]],
    shares: Vec<ShareSoFar>,
    wholes: Vec<WholeHashers>,
) -> Result<Finished, AllocError>
    requires leaves { HaveLeaves leaves.now }
    requires all { All (λ share. HaveLeaves share.leaves.items) shares.items }
    requires count { length shares.items ≡ geometry.now.total }
    requires groups { length wholes.items ≡ div_ceil geometry.now.total 7 }
    requires file { IsFile geometry.now.needed geometry.now.total geometry.now.size }
    requires segments { IsSegmentSize geometry.now.needed geometry.now.size
        geometry.now.segment_size }
    ensures { (text : List ℕ) (s : Gathered) → IsGathered geometry.now text s
        → Holds ciphertext Ciphertext s.ciphertext → leaves.now ≡ s.leaves
        → HoldShares s shares.items → AreGiven geometry.now.total s.written wholes.items
        → IfOk result (IsFinished geometry.now text) }
{
    let trees = build_trees(alloc, leaves, shares)?;
    let behind = write_behind(alloc, geometry, ciphertext.finish(), trees)?;
    let digests = digests_of(alloc, geometry, &behind, wholes)?;
    Ok(Finished { behind, digests })
}
