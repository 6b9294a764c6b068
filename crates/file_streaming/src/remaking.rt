// A pass over a padded ciphertext: its segments are encoded and hashed, some at a time, and let go
// before the next.

ghost use Rattle.std.specs.Prelude.{◌≡◌, ◌⊎◌, ◌*◌, ◌<◌, ◌≤◌, ℕ, length, take, IfErr, IfOk};
ghost use Rattle.std.specs.Prelude.{IsErrOf, OnOk};
ghost use Rattle.std.specs.Int.{div_ceil};
ghost use Rattle.share_layout.specs.Geometry.{block_size, segment_count};
ghost use Rattle.sources.specs.Change.{HasEndedEarly};
ghost use Rattle.sources.specs.Source.{HasFailedMore};
ghost use Rattle.share_gathering.specs.Gathered.{gathered_none};
ghost use Rattle.share_gathering.specs.Groups.{IsGroup, at_once};
ghost use Rattle.file_streaming.specs.Remaking.{HasMore, HoldsShares, IsGroupRemade};
ghost use Rattle.file_streaming.specs.Remaking.{IsRemakingFrom};

use crate::remake_error::RemakeError;
use share_gathering::{
    Group, ShareSoFar, add_leaves, add_segments, begin_shares, begin_wholes, segments_at_once,
};
use share_layout::Geometry;
use sources::{Source, read_part};
use std::alloc::{AllocError, Global};
use tagged_hash::{Tag, WholeHashers};
use zfec_code::Code;

/// What is gathered of a padded ciphertext: the leaves of the ciphertext tree, and the shares by
/// number with the hashers of their bytes.
#[derive(Drop)]
pub(crate) struct Remaking {
    pub leaves: Vec<[u8; 32]>,
    pub shares: Vec<ShareSoFar>,
    pub wholes: Vec<WholeHashers>,
}

impl Remaking {
    // Nothing is gathered yet but the headers of all shares.
    fn begin(alloc: Global, geometry: &Geometry) -> Result<Remaking, AllocError>
        ensures none { IfOk result (λ x. length x.leaves.items ≡ 0) }
        ensures begun { IfOk result (HoldsShares geometry.now (gathered_none geometry.now)) }
    {
        Ok(Remaking {
            leaves: Vec::with_capacity(alloc, geometry.segment_count() as usize)?,
            shares: begin_shares(alloc, geometry)?,
            wholes: begin_wholes(alloc, geometry)?,
        })
    }

    // Gathers a group of padded segments, which stand at the beginning of the first buffer. What
    // is behind `size` bytes of the text is padding. The other buffer has room for the blocks of
    // eight shares.
    fn add(
        &mut self,
        code: &Code,
        geometry: &Geometry,
        size: u64,
        group: Group,
        segments: &mut [u8],
        lanes: &mut [u8],
    ) -> Result<(), AllocError>
        requires group { IsGroup geometry.now group }
        requires needed { code.now.k ≡ geometry.now.needed }
        requires total { code.now.n ≡ geometry.now.total }
        requires segments { length segments.old ≡ 8 * geometry.now.segment_size }
        requires lanes { length lanes.old ≡ 8 * (at_once geometry.now * block_size geometry.now) }
        requires shares { length self.old.shares.items ≡ geometry.now.total }
        requires wholes { length self.old.wholes.items ≡ div_ceil geometry.now.total 7 }
        ensures shares { OnOk result
            (length self.new.shares.items ≡ length self.old.shares.items) }
        ensures wholes { OnOk result
            (length self.new.wholes.items ≡ length self.old.wholes.items) }
        ensures more { OnOk result (HasMore geometry.now size group
            (take group.len segments.old) self.old self.new) }
    {
        let plain = (group.len as u64).min(size.saturating_sub(group.offset)) as usize;
        let segment_size = geometry.segment_size() as usize;
        let count = group.count as usize;
        add_leaves(
            Tag::CiphertextSegment,
            &segments[..plain],
            segment_size,
            count,
            &mut self.leaves,
        )?;
        segments[group.len..].fill(0);
        add_segments(
            code,
            geometry,
            group,
            segments,
            lanes,
            &mut self.shares,
            &mut self.wholes,
        )?;
        Ok(())
    }
}

// Reads a group of padded segments and gathers them.
fn remake_group<S: Source>(
    source: &mut S,
    geometry: &Geometry,
    size: u64,
    group: Group,
    code: &Code,
    segments: &mut [u8],
    lanes: &mut [u8],
    remaking: &mut Remaking,
) -> Result<(), RemakeError>
    requires group { IsGroup geometry.now group }
    requires needed { code.now.k ≡ geometry.now.needed }
    requires total { code.now.n ≡ geometry.now.total }
    requires segments { length segments.old ≡ 8 * geometry.now.segment_size }
    requires lanes { length lanes.old ≡ 8 * (at_once geometry.now * block_size geometry.now) }
    requires shares { length remaking.old.shares.items ≡ geometry.now.total }
    requires wholes { length remaking.old.wholes.items ≡ div_ceil geometry.now.total 7 }
    ensures shares { OnOk result (length remaking.new.shares.items ≡ geometry.now.total) }
    ensures wholes { OnOk result
        (length remaking.new.wholes.items ≡ div_ceil geometry.now.total 7) }
    ensures remade { OnOk result (IsGroupRemade S.gives source.old geometry.now size group
        remaking.old remaking.new source.new) }
    ensures ended { IsErrOf result RemakeError.SourceChanged
        → HasEndedEarly S.gives source.old geometry.now.size source.new }
    ensures failed { IsErrOf result RemakeError.SourceFault
        → HasFailedMore (S.failures source.old) (S.failures source.new) }
    ensures size { S.size source.new ≡ S.size source.old }
    ensures failures { OnOk result (S.failures source.new ≡ S.failures source.old) }
    ensures no_other { IfErr result (λ e. (e ≡ RemakeError.OutOfMemory)
        ⊎ (e ≡ RemakeError.SourceChanged) ⊎ (e ≡ RemakeError.SourceFault)) }
{
    read_part(source, group.offset, &mut segments[..group.len])?;
    remaking.add(code, geometry, size, group, segments, lanes)?;
    Ok(())
}

/// Reads a source of padded ciphertext once, and gathers what is kept of it. What is behind `size`
/// bytes is padding.
pub(crate) fn remake<S: Source>(
    alloc: Global,
    source: &mut S,
    geometry: &Geometry,
    size: u64,
    code: &Code,
    segments: &mut [u8],
    lanes: &mut [u8],
) -> Result<Remaking, RemakeError>
    requires needed { code.now.k ≡ geometry.now.needed }
    requires total { code.now.n ≡ geometry.now.total }
    requires segments { length segments.old ≡ 8 * geometry.now.segment_size }
    requires lanes { length lanes.old ≡ 8 * (at_once geometry.now * block_size geometry.now) }
    // No segment is padding alone.
    requires plain { (number : ℕ) → number < segment_count geometry.now
        → number * geometry.now.segment_size ≤ size }
    ensures remade { IfOk result
        (λ x. IsRemakingFrom S.gives source.old geometry.now size x source.new) }
    ensures ended { IsErrOf result RemakeError.SourceChanged
        → HasEndedEarly S.gives source.old geometry.now.size source.new }
    ensures failed { IsErrOf result RemakeError.SourceFault
        → HasFailedMore (S.failures source.old) (S.failures source.new) }
    ensures size { S.size source.new ≡ S.size source.old }
    ensures no_other { IfErr result (λ e. (e ≡ RemakeError.OutOfMemory)
        ⊎ (e ≡ RemakeError.SourceChanged) ⊎ (e ≡ RemakeError.SourceFault)) }
{
    let mut remaking = Remaking::begin(alloc, geometry)?;
    let at_once = segments_at_once(geometry);
    for number in 0..geometry.segment_count().div_ceil(at_once) {
        let group = Group::of(geometry, at_once * number);
        remake_group(
            source,
            geometry,
            size,
            group,
            code,
            segments,
            lanes,
            &mut remaking,
        )?;
    }
    Ok(remaking)
}
