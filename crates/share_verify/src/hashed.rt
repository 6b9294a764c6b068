//! A share of which the first blocks are known by their hashes alone.

ghost use Rattle.std.specs.Prelude.{◌≡◌, ◌≤◌, ◌*◌, ◌+◌, ◌++◌, List, MatchResult, ℕ, length};
ghost use Rattle.cap_text.specs.Cap.{VerifyCapValue};
ghost use Rattle.share_layout.specs.Geometry.{hashes_size, segment_count, share_data_size};
ghost use Rattle.share_layout.specs.Geometry.{tree_size};
ghost use Rattle.share_layout.specs.Share.{share_bytes};
ghost use Rattle.share_verify.specs.CapBlock.{IsUebFor, geometry_by};
ghost use Rattle.share_verify.specs.Hashed.{AreHashed, HaveHashLengths, sections_with};
ghost use Rattle.share_verify.specs.Verify.{IsFirstFault, IsSoundShare};

use crate::fault::ShareFault;
use crate::reading::geometry_of;
use crate::sections::check_sections;
use share_layout::{Geometry, LayoutError, carries_numbers};
use ueb::Ueb;

/// The blocks of a share, of which the first are known by their hashes alone.
#[derive(Clone, Copy)]
pub struct HashedBlocks<'a> {
    /// The hashes of the first blocks.
    pub hashes: &'a [[u8; 32]],
    /// The bytes of the blocks behind these.
    pub rest: &'a [u8],
}

/// The sections of a share that stand between its blocks and its extension block, as slices.
#[derive(Clone, Copy)]
pub struct HashSections<'a> {
    /// The offset of the tree that is no longer used: `Geometry::tree_size` bytes.
    pub unused: &'a [u8],
    /// The ciphertext tree: as many.
    pub ciphertext_tree: &'a [u8],
    /// The block tree: as many.
    pub block_tree: &'a [u8],
    /// The share hashes: `Geometry::hashes_size` bytes.
    pub share_hashes: &'a [u8],
}

impl<'a> HashSections<'a> {
    /// The sections that these bytes are, in a share of a file with this geometry: three times
    /// `Geometry::tree_size` bytes, and `Geometry::hashes_size`.
    pub fn cut(bytes: &'a [u8], geometry: &Geometry) -> HashSections<'a>
        requires { length bytes.now ≡ 3 * tree_size geometry.now + hashes_size geometry.now }
        ensures text { bytes.now ≡ result.unused.now ++ result.ciphertext_tree.now
            ++ result.block_tree.now ++ result.share_hashes.now }
        ensures lengths { HaveHashLengths geometry.now result }
    {
        let tree = geometry.tree_size() as usize;
        let (unused, trees) = bytes.split_at(tree);
        let (ciphertext_tree, rest) = trees.split_at(tree);
        let (block_tree, share_hashes) = rest.split_at(tree);
        HashSections {
            unused,
            ciphertext_tree,
            block_tree,
            share_hashes,
        }
    }
}

/// Whether a share of a file with this extension block is share `num` of it, where the first blocks
/// are known by their hashes alone: what `verify_share` says of the share's bytes.
///
/// Its header is the one of the file's shares, so the first fault is one of these, in their order:
/// `Layout`, with `BadShareHashes`; `Unused`, `CiphertextTree`, `BlockTree`, `ShareHashes`, `Data`.
pub fn verify_hashed(
    ueb: &Ueb,
    num: u16,
    blocks: &HashedBlocks<'_>,
    sections: &HashSections<'_>,
) -> Result<(), ShareFault>
    requires few { length blocks.now.hashes.now ≤ segment_count (geometry_by ueb.now) }
    requires lengths { HaveHashLengths (geometry_by ueb.now) sections.now }
    ensures { (cap : VerifyCapValue) (text extension_block : List ℕ)
        → AreHashed (geometry_by ueb.now) text blocks.now
        → length text ≡ share_data_size (geometry_by ueb.now)
        → IsUebFor cap extension_block ueb.now
        → let share = share_bytes (geometry_by ueb.now)
        (sections_with sections.now text extension_block) in
        MatchResult result (λ _. IsSoundShare cap num share) (IsFirstFault cap num share) }
{
    let geometry = geometry_of(ueb);
    let _ = geometry.size();
    if !carries_numbers(&geometry, num, sections.share_hashes) {
        return Err(ShareFault::Layout(LayoutError::BadShareHashes));
    }
    check_sections(ueb, &geometry, num, blocks, sections)
}
