//! The sections of a share, against its extension block.

ghost use Rattle.std.specs.Prelude.{◌≡◌, ◌<◌, ◌≤◌, ◌↔◌, ◌*◌, ◌+◌, ◌-◌, ◌^◌, IsTrue, IsOk, Err};
ghost use Rattle.std.specs.Prelude.{List, ℕ, length, replicate};
ghost use Rattle.merkle.specs.Tree.{height};
ghost use Rattle.share_layout.specs.Geometry.{segment_count};
ghost use Rattle.share_layout.specs.Reading.{sections_in};
ghost use Rattle.share_layout.specs.Share.{HaveLengths};
ghost use Rattle.share_verify.specs.Pieces.{block_hashes, pieces};
ghost use Rattle.share_verify.specs.CapBlock.{geometry_by};
ghost use Rattle.share_verify.specs.Hashed.{AreHashed, BeginsWith, HaveHashLengths, sections_with};
ghost use Rattle.share_verify.specs.ShareHashes.{LeadsByEntries, entries_in};
ghost use Rattle.share_verify.specs.TreeSection.{HoldsTree, IsTreeSection, root_in};
ghost use Rattle.share_verify.specs.Verify.{AreSound, IsSectionFault};
ghost use Rattle.share_verify.specs.declared.fault.ShareFault.{ShareFault};

use crate::blocks::are_leaves_of;
use crate::chain::{entries_in, leads_by_entries};
use crate::fault::ShareFault;
use crate::hashed::{HashSections, HashedBlocks};
use crate::tree::{is_tree_section_beside, is_tree_with_root, leaves_in, root_in};
use share_layout::{Geometry, ShareView};
use ueb::Ueb;

/// Whether the sections of share `num` are as the extension block asks, or their first fault. They
/// have the lengths of the extension block's geometry.
pub(crate) fn check_view(
    ueb: &Ueb,
    geometry: &Geometry,
    num: u16,
    view: &ShareView<'_>,
) -> Result<(), ShareFault>
    requires geometry { geometry.now ≡ geometry_by ueb.now }
    requires number { num < ueb.now.total_shares }
    requires lengths { HaveLengths geometry.now (sections_in view.now) }
    ensures sound { IsOk result ↔ AreSound ueb.now num (sections_in view.now) }
    ensures refused { (fault : ShareFault) → (result ≡ Err fault)
        ↔ IsSectionFault ueb.now num (sections_in view.now) fault }
{
    let blocks = HashedBlocks {
        hashes: &[],
        rest: view.blocks,
    };
    let sections = HashSections {
        unused: view.unused,
        ciphertext_tree: view.ciphertext_tree,
        block_tree: view.block_tree,
        share_hashes: view.share_hashes,
    };
    check_sections(ueb, geometry, num, &blocks, &sections)
}

/// Whether the sections of share `num` are as the extension block asks, or their first fault, where
/// the first blocks are known by their hashes alone.
pub(crate) fn check_sections(
    ueb: &Ueb,
    geometry: &Geometry,
    num: u16,
    blocks: &HashedBlocks<'_>,
    sections: &HashSections<'_>,
) -> Result<(), ShareFault>
    requires geometry { geometry.now ≡ geometry_by ueb.now }
    requires number { num < ueb.now.total_shares }
    requires few { length blocks.now.hashes.now ≤ segment_count geometry.now }
    requires lengths { HaveHashLengths geometry.now sections.now }
    ensures sound { (text block : List ℕ) → AreHashed geometry.now text blocks.now
        → IsOk result ↔ AreSound ueb.now num (sections_with sections.now text block) }
    ensures refused { (text block : List ℕ) (fault : ShareFault)
        → AreHashed geometry.now text blocks.now → (result ≡ Err fault)
        ↔ IsSectionFault ueb.now num (sections_with sections.now text block) fault }
{
    let segments = geometry.segment_count();
    if !is_zero(sections.unused) {
        return Err(ShareFault::Unused);
    }
    if !is_tree_with_root(
        sections.ciphertext_tree,
        segments,
        ueb.crypttext_root_hash(),
    ) {
        return Err(ShareFault::CiphertextTree);
    }
    if !is_tree_section_beside(sections.block_tree, segments, sections.ciphertext_tree) {
        return Err(ShareFault::BlockTree);
    }
    if !has_share_hashes(ueb, num, sections) {
        return Err(ShareFault::ShareHashes);
    }
    if !is_tree_of(
        sections.block_tree,
        segments,
        geometry.block_size() as usize,
        blocks,
    ) {
        return Err(ShareFault::Data);
    }
    Ok(())
}

// Whether all bytes are zeros.
fn is_zero(bytes: &[u8]) -> bool
    ensures { IsTrue result ↔ (bytes.now ≡ replicate (length bytes.now) 0) }
{
    bytes.iter().all(|byte| *byte == 0)
}

// Whether the share hashes lead from the block tree's root to the extension block's share root.
fn has_share_hashes(ueb: &Ueb, num: u16, sections: &HashSections<'_>) -> bool
    requires number { num < ueb.now.total_shares }
    requires tree { 32 ≤ length sections.now.block_tree.now }
    requires hashes { length sections.now.share_hashes.now
        ≡ (height ueb.now.total_shares + 1) * 34 }
    ensures { IsTrue result ↔ LeadsByEntries ueb.now.total_shares ueb.now.share_root_hash num
        (root_in sections.now.block_tree.now) (entries_in sections.now.share_hashes.now) }
{
    leads_by_entries(
        ueb.total_shares(),
        ueb.share_root_hash(),
        num,
        root_in(sections.block_tree),
        entries_in(sections.share_hashes),
    )
}

// Whether the tree in a section is the one over the hashes of the blocks, which have `block_size`
// bytes each, the last one perhaps fewer. It is a tree over as many leaves as there are blocks.
fn is_tree_of(
    section: &[u8],
    block_count: u32,
    block_size: usize,
    blocks: &HashedBlocks<'_>,
) -> bool
    requires long { length section.now ≡ (2 * 2 ^ height block_count - 1) * 32 }
    requires tree { IsTreeSection block_count section.now }
    requires few { length blocks.now.hashes.now ≤ block_count }
    ensures { (text : List ℕ)
        → BeginsWith block_size text blocks.now.hashes.now blocks.now.rest.now
        → IsTrue result ↔ HoldsTree section.now (block_hashes
        (pieces block_count block_size text)) }
{
    are_leaves_of(leaves_in(section, block_count), block_size, blocks)
}
