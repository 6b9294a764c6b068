// What follows from the leaves that a pass over a padded ciphertext gathered.

ghost use Rattle.std.specs.Prelude.{◌≡◌, ◌⊎◌, ◌<◌, ◌≤◌, ℕ, List, length, IfErr, IfOk, IsErrOf};
ghost use Rattle.ueb.specs.Limits.{max_length};
ghost use Rattle.share_layout.specs.Geometry.{IsGeometry, with_padding};
ghost use Rattle.share_verify.specs.CapBlock.{geometry_by};
ghost use Rattle.file_streaming.specs.Remaking.{HasOtherRoot, IsRemadeFinished, IsRemaking};

use crate::remake_error::RemakeError;
use crate::remaking::Remaking;
use share_gathering::{Behind, Finished, build_trees, digests_of, write_all_hashes};
use share_layout::Geometry;
use std::alloc::Global;
use ueb::Ueb;

/// What is kept of a padded ciphertext whose segments are gathered. Refuses `Inconsistent` where
/// the root over them, or over the shares, is not the one that the extension block tells, and
/// `OutOfMemory`.
pub(crate) fn finish_remade(
    alloc: Global,
    geometry: &Geometry,
    remaking: Remaking,
    ueb: &Ueb,
    extension_block: Vec<u8>,
) -> Result<Finished, RemakeError>
    requires geometry { geometry.now ≡ with_padding (geometry_by ueb.now) }
    requires valid { IsGeometry (geometry_by ueb.now) }
    requires text { (text : List ℕ) × IsRemaking geometry.now ueb.now.size text remaking }
    requires short { length extension_block.items ≤ max_length }
    ensures finished { (text : List ℕ) → IsRemaking geometry.now ueb.now.size text remaking
        → IfOk result (IsRemadeFinished ueb.now text extension_block.items) }
    ensures inconsistent { (text : List ℕ) → IsRemaking geometry.now ueb.now.size text remaking
        → IsErrOf result RemakeError.Inconsistent → HasOtherRoot ueb.now text }
    ensures no_other { IfErr result
        (λ e. (e ≡ RemakeError.OutOfMemory) ⊎ (e ≡ RemakeError.Inconsistent)) }
{
    let Remaking {
        leaves,
        shares,
        wholes,
    } = remaking;
    let trees = build_trees(alloc, &leaves, shares)?;
    if trees.ciphertext.root() != *ueb.crypttext_root_hash() {
        return Err(RemakeError::Inconsistent);
    }
    if trees.shares.root() != *ueb.share_root_hash() {
        return Err(RemakeError::Inconsistent);
    }
    let share_hashes = write_all_hashes(alloc, &trees.shares, geometry.total())?;
    let behind = Behind {
        ciphertext_tree: trees.ciphertext,
        block_trees: trees.blocks,
        share_hashes,
        extension_block,
    };
    let digests = digests_of(alloc, geometry, &behind, wholes)?;
    Ok(Finished { behind, digests })
}
