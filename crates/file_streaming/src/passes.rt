// Two passes over a source: the first for its key, the second for the key again and all hashes.

ghost use Rattle.std.specs.Prelude.{◌≡◌, ◌⊎◌, [], IfErr, IfOk, IsErrOf};
ghost use Rattle.tagged_hash.specs.ConvergentKey.{IsSecret};
ghost use Rattle.tagged_hash.specs.TaggedHasher.{HoldsFile};
ghost use Rattle.sources.specs.Source.{HasFailedMore};
ghost use Rattle.share_gathering.specs.Buffers.{AreBuffers};
ghost use Rattle.file_streaming.specs.Passes.{AreTwoPasses, IsOtherPass, IsSecondPass, key_by};
ghost use Rattle.file_streaming.specs.Prepared.{PassesDiffer};

use crate::error::PrepareError;
use crate::first_pass::read_key;
use crate::gathering::{FileEncoder, Gathering, file_encoder, gather};
use share_gathering::{Buffers, ShareSoFar};
use share_layout::Geometry;
use sources::Source;
use std::alloc::Global;
use tagged_hash::{KeyHasher, TaggedHasher, WholeHashers};

// The hasher of a file's key, which was given no byte yet.
fn key_hasher(geometry: &Geometry, secret: &[u8]) -> KeyHasher
    requires { IsSecret secret.now }
    ensures { HoldsFile result geometry.now.needed geometry.now.total geometry.now.segment_size
        secret.now [] }
{
    KeyHasher::new(
        geometry.needed(),
        geometry.total(),
        geometry.segment_size(),
        secret,
    )
}

/// The key of a source, what the second pass over it gathered, and what it was gathered by.
#[derive(Drop)]
pub(crate) struct Passes {
    pub key: [u8; 16],
    pub encoder: FileEncoder,
    pub buffers: Buffers,
    pub ciphertext: TaggedHasher,
    pub leaves: Vec<[u8; 32]>,
    pub shares: Vec<ShareSoFar>,
    pub wholes: Vec<WholeHashers>,
}

// Reads a source a second time. It has to have the key of the first time.
fn read_again<S: Source>(
    alloc: Global,
    source: &mut S,
    geometry: &Geometry,
    secret: &[u8],
    key: [u8; 16],
    mut buffers: Buffers,
) -> Result<Passes, PrepareError>
    requires secret { IsSecret secret.now }
    requires buffers { AreBuffers geometry.now buffers }
    ensures passes { IfOk result
        (λ p. IsSecondPass S.gives source.old geometry.now secret.now p source.new) }
    ensures key { IfOk result (λ p. p.key ≡ key) }
    ensures changed { IsErrOf result PrepareError.SourceChanged
        → IsOtherPass S.gives source.old geometry.now secret.now key source.new }
    ensures fault { IsErrOf result PrepareError.SourceFault
        → HasFailedMore (S.failures source.old) (S.failures source.new) }
    ensures size { S.size source.new ≡ S.size source.old }
    ensures no_other { IfErr result (λ e. (e ≡ PrepareError.OutOfMemory)
        ⊎ (e ≡ PrepareError.SourceChanged) ⊎ (e ≡ PrepareError.SourceFault)) }
{
    let encoder = file_encoder(alloc, geometry, &key)?;
    let hasher = key_hasher(geometry, secret);
    let gathering = gather(
        alloc,
        source,
        geometry,
        &encoder,
        hasher,
        &mut buffers.segments,
        &mut buffers.lanes,
    )?;
    let Gathering {
        key: second,
        ciphertext,
        leaves,
        shares,
        wholes,
    } = gathering;
    if second.finish() != key {
        return Err(PrepareError::SourceChanged);
    }
    Ok(Passes {
        key,
        encoder,
        buffers,
        ciphertext,
        leaves,
        shares,
        wholes,
    })
}

/// Reads a source twice. Both passes have to have one key.
pub(crate) fn read_twice<S: Source>(
    alloc: Global,
    source: &mut S,
    geometry: &Geometry,
    secret: &[u8],
) -> Result<Passes, PrepareError>
    requires { IsSecret secret.now }
    ensures passes { IfOk result
        (λ p. AreTwoPasses S.gives source.old geometry.now secret.now p source.new) }
    ensures changed { IsErrOf result PrepareError.SourceChanged
        → PassesDiffer S.gives geometry.now.size source.old (key_by geometry.now secret.now)
        source.new }
    ensures fault { IsErrOf result PrepareError.SourceFault
        → HasFailedMore (S.failures source.old) (S.failures source.new) }
    ensures size { S.size source.new ≡ S.size source.old }
    ensures no_other { IfErr result (λ e. (e ≡ PrepareError.OutOfMemory)
        ⊎ (e ≡ PrepareError.SourceChanged) ⊎ (e ≡ PrepareError.SourceFault)) }
{
    let mut buffers = Buffers::of(alloc, geometry)?;
    let hasher = key_hasher(geometry, secret);
    let key = read_key(source, geometry.size(), hasher, &mut buffers.segments)?;
    read_again(alloc, source, geometry, secret, key, buffers)
}
