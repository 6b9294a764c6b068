// The second pass over a source: its segments are encrypted, encoded and hashed, some at a time,
// and let go before the next.

ghost use Rattle.std.specs.Prelude.{◌≡◌, ◌⊎◌, ◌+◌, ◌*◌, ◌<◌, ◌++◌, ℕ, List, []};
ghost use Rattle.std.specs.Prelude.{length, take, IfErr, IfOk, IsErrOf, OnOk, Some};
ghost use Rattle.std.specs.Int.{div_ceil};
ghost use Rattle.aes_ctr.specs.CounterMode.{xored_from};
ghost use Rattle.tagged_hash.specs.TaggedHasher.{HoldsFile};
ghost use Rattle.share_layout.specs.Geometry.{block_size};
ghost use Rattle.sources.specs.Change.{HasEndedEarly};
ghost use Rattle.sources.specs.Source.{HasFailedMore};
ghost use Rattle.share_gathering.specs.Gathered.{Gathered, gathered_none};
ghost use Rattle.file_streaming.specs.Gathering.{HasGathered, IsGatheredFrom};
ghost use Rattle.share_gathering.specs.Groups.{IsGroup, at_once};
ghost use Rattle.file_streaming.specs.Gathering.{IsGroupGathered};
ghost use Rattle.share_gathering.specs.Groups.{gathered_group};

use crate::error::PrepareError;
use aes_ctr::Aes128;
use block_making::Encoder;
use share_gathering::{
    Group, ShareSoFar, add_leaves, add_segments_beside, begin_shares, begin_wholes, file_code,
    segments_at_once,
};
use share_layout::Geometry;
use sources::{Source, read_part};
use std::alloc::{AllocError, Global};
use tagged_hash::{KeyHasher, Tag, TaggedHasher, WholeHashers};
use zfec_code::Code;

/// What is gathered of a file: its key, the hash of its ciphertext, the leaves of the ciphertext
/// tree, and its shares by number with the hashers of their bytes.
#[derive(Drop)]
pub(crate) struct Gathering {
    pub key: KeyHasher,
    pub ciphertext: TaggedHasher,
    pub leaves: Vec<[u8; 32]>,
    pub shares: Vec<ShareSoFar>,
    pub wholes: Vec<WholeHashers>,
}

/// What the segments of a file are encrypted and encoded by.
#[derive(Drop)]
pub(crate) struct FileEncoder {
    pub code: Code,
    pub cipher: Aes128,
}

impl FileEncoder {
    /// The same for blocks that are made again.
    pub(crate) fn into_encoder(self) -> Encoder
        ensures needed { result.code ≡ self.code }
        ensures cipher { result.cipher ≡ Some self.cipher }
    {
        Encoder {
            code: self.code,
            cipher: Some(self.cipher),
        }
    }
}

/// The encoder of a file with this key.
pub(crate) fn file_encoder(
    alloc: Global,
    geometry: &Geometry,
    key: &[u8; 16],
) -> Result<FileEncoder, AllocError>
    ensures needed { IfOk result (λ encoder. encoder.code.k ≡ geometry.now.needed) }
    ensures total { IfOk result (λ encoder. encoder.code.n ≡ geometry.now.total) }
    ensures cipher { IfOk result (λ encoder. encoder.cipher ≡ key.now) }
{
    Ok(FileEncoder {
        code: file_code(alloc, geometry)?,
        cipher: Aes128::new(key),
    })
}

impl Gathering {
    // Nothing is gathered yet but the headers of all shares.
    fn begin(alloc: Global, geometry: &Geometry, key: KeyHasher) -> Result<Gathering, AllocError>
        ensures count { IfOk result (λ x. length x.shares.items ≡ geometry.now.total) }
        ensures wholes { IfOk result
            (λ x. length x.wholes.items ≡ div_ceil geometry.now.total 7) }
        ensures begun { (secret : List ℕ) → HoldsFile key geometry.now.needed geometry.now.total
            geometry.now.segment_size secret []
            → IfOk result (HasGathered geometry.now (gathered_none geometry.now) secret []) }
    {
        let leaves = Vec::with_capacity(alloc, geometry.segment_count() as usize)?;
        Ok(Gathering {
            key,
            ciphertext: TaggedHasher::new(Tag::Ciphertext),
            leaves,
            shares: begin_shares(alloc, geometry)?,
            wholes: begin_wholes(alloc, geometry)?,
        })
    }

    // Gathers a group of segments, which stand at the beginning of the first buffer. Their bytes
    // are lost. The other buffer has room for the blocks of eight shares.
    fn add(
        &mut self,
        encoder: &FileEncoder,
        geometry: &Geometry,
        group: Group,
        segments: &mut [u8],
        lanes: &mut [u8],
    ) -> Result<(), AllocError>
        requires group { IsGroup geometry.now group }
        requires needed { encoder.now.code.k ≡ geometry.now.needed }
        requires total { encoder.now.code.n ≡ geometry.now.total }
        requires segments { length segments.old ≡ 8 * geometry.now.segment_size }
        requires lanes { length lanes.old ≡ 8 * (at_once geometry.now * block_size geometry.now) }
        requires shares { length self.old.shares.items ≡ geometry.now.total }
        requires wholes { length self.old.wholes.items ≡ div_ceil geometry.now.total 7 }
        ensures shares { OnOk result
            (length self.new.shares.items ≡ length self.old.shares.items) }
        ensures wholes { OnOk result
            (length self.new.wholes.items ≡ length self.old.wholes.items) }
        ensures gathered { (s : Gathered) (secret file : List ℕ)
            → HasGathered geometry.now s secret file self.old
            → OnOk result (HasGathered geometry.now (gathered_group geometry.now group
            (xored_from encoder.now.cipher group.offset (take group.len segments.old)) s)
            secret (file ++ take group.len segments.old) self.new) }
    {
        let size = geometry.segment_size() as usize;
        let text = &mut segments[..group.len];
        self.key.update(text);
        encoder.cipher.xor_at(group.offset, text);
        let count = group.count as usize;
        add_leaves(Tag::CiphertextSegment, text, size, count, &mut self.leaves)?;
        segments[group.len..].fill(0);
        let padded: &[u8] = segments;
        add_segments_beside(
            &encoder.code,
            geometry,
            group,
            padded,
            lanes,
            &mut self.shares,
            &mut self.wholes,
            &mut self.ciphertext,
            &padded[..group.len],
        )?;
        Ok(())
    }
}

// Reads a group of segments and gathers them.
fn gather_group<S: Source>(
    source: &mut S,
    geometry: &Geometry,
    group: Group,
    encoder: &FileEncoder,
    segments: &mut [u8],
    lanes: &mut [u8],
    gathering: &mut Gathering,
) -> Result<(), PrepareError>
    requires group { IsGroup geometry.now group }
    requires needed { encoder.now.code.k ≡ geometry.now.needed }
    requires total { encoder.now.code.n ≡ geometry.now.total }
    requires segments { length segments.old ≡ 8 * geometry.now.segment_size }
    requires lanes { length lanes.old ≡ 8 * (at_once geometry.now * block_size geometry.now) }
    requires shares { length gathering.old.shares.items ≡ geometry.now.total }
    requires wholes { length gathering.old.wholes.items ≡ div_ceil geometry.now.total 7 }
    ensures shares { OnOk result (length gathering.new.shares.items ≡ geometry.now.total) }
    ensures wholes { OnOk result
        (length gathering.new.wholes.items ≡ div_ceil geometry.now.total 7) }
    ensures gathered { OnOk result (IsGroupGathered S.gives source.old geometry.now
        encoder.now.cipher group gathering.old gathering.new source.new) }
    ensures ended { IsErrOf result PrepareError.SourceChanged
        → HasEndedEarly S.gives source.old geometry.now.size source.new }
    ensures failed { IsErrOf result PrepareError.SourceFault
        → HasFailedMore (S.failures source.old) (S.failures source.new) }
    ensures size { S.size source.new ≡ S.size source.old }
    ensures failures { OnOk result (S.failures source.new ≡ S.failures source.old) }
    ensures no_other { IfErr result (λ e. (e ≡ PrepareError.OutOfMemory)
        ⊎ (e ≡ PrepareError.SourceChanged) ⊎ (e ≡ PrepareError.SourceFault)) }
{
    read_part(source, group.offset, &mut segments[..group.len])?;
    gathering.add(encoder, geometry, group, segments, lanes)?;
    Ok(())
}

/// Reads a source once, and gathers what is kept of it. The hasher was given no file yet.
pub(crate) fn gather<S: Source>(
    alloc: Global,
    source: &mut S,
    geometry: &Geometry,
    encoder: &FileEncoder,
    hasher: KeyHasher,
    segments: &mut [u8],
    lanes: &mut [u8],
) -> Result<Gathering, PrepareError>
    requires needed { encoder.now.code.k ≡ geometry.now.needed }
    requires total { encoder.now.code.n ≡ geometry.now.total }
    requires segments { length segments.old ≡ 8 * geometry.now.segment_size }
    requires lanes { length lanes.old ≡ 8 * (at_once geometry.now * block_size geometry.now) }
    ensures gathered { (secret : List ℕ) → HoldsFile hasher geometry.now.needed
        geometry.now.total geometry.now.segment_size secret []
        → IfOk result (λ x. IsGatheredFrom S.gives source.old geometry.now
        encoder.now.cipher secret x source.new) }
    ensures ended { IsErrOf result PrepareError.SourceChanged
        → HasEndedEarly S.gives source.old geometry.now.size source.new }
    ensures failed { IsErrOf result PrepareError.SourceFault
        → HasFailedMore (S.failures source.old) (S.failures source.new) }
    ensures size { S.size source.new ≡ S.size source.old }
    ensures no_other { IfErr result (λ e. (e ≡ PrepareError.OutOfMemory)
        ⊎ (e ≡ PrepareError.SourceChanged) ⊎ (e ≡ PrepareError.SourceFault)) }
{
    let mut gathering = Gathering::begin(alloc, geometry, hasher)?;
    let at_once = segments_at_once(geometry);
    for number in 0..geometry.segment_count().div_ceil(at_once) {
        let group = Group::of(geometry, at_once * number);
        gather_group(
            source,
            geometry,
            group,
            encoder,
            segments,
            lanes,
            &mut gathering,
        )?;
    }
    Ok(gathering)
}
