//! A file that was made ready for its upload.

ghost use Rattle.std.specs.Prelude.{◌≡◌, ◌⊎◌, ◌+◌, ◌<◌, ◌≤◌, ◌^◌, ℕ, List, length, IfErr, IfOk};
ghost use Rattle.std.specs.Prelude.{IsErrOf, OnOk};
ghost use Rattle.aes_ctr.specs.CounterMode.{xored};
ghost use Rattle.tagged_hash.specs.ConvergentKey.{IsSecret};
ghost use Rattle.ueb.specs.Limits.{max_file_size, min_file_size};
ghost use Rattle.ueb.specs.Shape.{IsFile, IsSegmentSize};
ghost use Rattle.file_encoding.specs.Params.{HasTooManySegments, IsEncodable, parameters_of};
ghost use Rattle.sources.specs.Source.{HasFailedMore};
ghost use Rattle.block_making.specs.Making.{WereRead};
ghost use Rattle.file_streaming.specs.Passes.{IsPassOf};
ghost use Rattle.file_streaming.specs.Piece.{GivesPiece, IsOfNoFile};
ghost use Rattle.file_streaming.specs.Prepared.{IsPreparedFrom, PassesDiffer, key_for};
ghost use Rattle.file_streaming.specs.Prepared.{prepared_by, share_length};

use crate::error::PrepareError;
use crate::finishing::finish;
use crate::geometry::{file_cap, file_geometry};
use crate::passes::{Passes, read_twice};
use block_making::PieceError;
use cap_text::ReadCap;
use file_encoding::Params;
use share_gathering::{Finished, Kept, file_slots};
use share_layout::Geometry;
use sources::Source;
use std::alloc::{AllocError, Global};
use std::marker::Model;
use tagged_hash::{Tag, tagged};

/// What is kept of a file: its cap, the digests of its shares, and the trees of its hashes. Of the
/// file's bytes it holds those of eight segments and of some blocks at most.
#[derive(Drop)]
pub struct Prepared {
    cap: ReadCap,
    kept: Kept,
}

impl Model for Prepared {
    ghost use Rattle.std.specs.Prelude.{◌≡◌, Some};
    ghost use Rattle.file_streaming.specs.Prepared.{PreparedFile, prepared_with};

    ghost Value = { PreparedFile };

    ghost view = { λ p. prepared_with p.kept.geometry p.cap p.kept.extension_block p.kept.leaves
        p.kept.block_leaves p.kept.digests };

    ghost invariant = { λ p. p.kept.key ≡ Some p.cap.key };
}

impl Prepared {
    /// The file's cap.
    pub fn cap(&self) -> &ReadCap
        ensures { result.now ≡ self.now.cap }
    {
        &self.cap
    }

    /// The digests of the file's shares, by number.
    pub fn digests(&self) -> &[[u8; 32]]
        ensures digests { result.now ≡ self.now.digests }
        ensures few { length self.now.digests ≤ 256 }
    {
        self.kept.digests()
    }

    /// The length of each share in bytes.
    pub fn share_length(&self) -> u64
        ensures length { result ≡ share_length self.now }
        ensures some { 1 ≤ result }
        ensures short { result ≤ 2 ^ 41 }
    {
        self.kept.share_length()
    }

    /// Fills `out` with the bytes of a share from an offset on. They lie in the share.
    ///
    /// Its blocks come from their slots, or else their segments are read and encoded again, each
    /// once, with the blocks of other shares that go on with them. Each block has to have the hash
    /// of the second pass. Refuses `SourceChanged` where the source brought other bytes than then,
    /// or ended early, and `SourceFault` where a read failed. `out` then holds any bytes. Takes no
    /// memory.
    pub fn piece<S: Source>(
        &mut self,
        source: &mut S,
        share: u8,
        offset: u64,
        out: &mut [u8],
    ) -> Result<(), PieceError>
        requires number { share < length self.old.digests }
        requires inside { offset + length out.old ≤ share_length self.old }
        ensures gives { OnOk result (GivesPiece self.old share offset out.new) }
        ensures read { OnOk result (WereRead S.gives source.old self.old.geometry offset
            (length out.old) source.new) }
        ensures changed { IsErrOf result PieceError.SourceChanged
            → IsOfNoFile S.gives self.old source.old source.new }
        ensures fault { IsErrOf result PieceError.SourceFault
            → HasFailedMore (S.failures source.old) (S.failures source.new) }
        ensures size { S.size source.new ≡ S.size source.old }
        ensures failures { OnOk result (S.failures source.new ≡ S.failures source.old) }
        ensures same { self.new ≡ self.old }
    {
        self.kept.piece(source, share, offset, out)
    }
}

// What is kept of a file that was read twice.
fn keep(alloc: Global, geometry: Geometry, passes: Passes) -> Result<Prepared, AllocError>
    requires some { (file : List ℕ) × IsPassOf geometry file passes }
    requires file { IsFile geometry.needed geometry.total geometry.size }
    requires segments { IsSegmentSize geometry.needed geometry.size geometry.segment_size }
    ensures { (file : List ℕ) → IsPassOf geometry file passes → IfOk result
        (λ p. p ≡ prepared_by geometry passes.key (xored passes.key file)) }
{
    let Passes {
        key,
        encoder,
        buffers,
        ciphertext,
        leaves,
        shares,
        wholes,
    } = passes;
    let finished = finish(alloc, &geometry, ciphertext, &leaves, shares, wholes)?;
    let Finished { behind, digests } = finished;
    let ueb_hash = tagged(Tag::ExtensionBlock, &behind.extension_block);
    let cap = file_cap(&geometry, key, ueb_hash);
    let kept = Kept {
        geometry,
        extension_block: behind.extension_block,
        ciphertext_tree: behind.ciphertext_tree,
        block_trees: behind.block_trees,
        share_hashes: behind.share_hashes,
        digests,
        encoder: encoder.into_encoder(),
        buffers,
        slots: file_slots(alloc, &geometry)?,
    };
    Ok(Prepared { cap, kept })
}

/// Reads a source twice, each byte once from offset 0 up: for the key, and for the key again and
/// all hashes. Both keys have to be equal.
///
/// The secret has at most 64 bytes, and the source at least `ueb::MIN_FILE_SIZE`. Refuses
/// `TooLarge` and `TooManySegments`, in this order, before the first read; then `SourceChanged`
/// where the two passes had two keys or the source ended early, `SourceFault` where a read failed,
/// and `OutOfMemory`.
pub fn prepare<S: Source>(
    alloc: Global,
    source: &mut S,
    secret: &[u8],
    params: &Params,
) -> Result<Prepared, PrepareError>
    requires secret { IsSecret secret.now }
    requires not_small { min_file_size ≤ S.size source.old }
    ensures prepared { IfOk result (λ p. IsPreparedFrom S.gives (S.size source.old)
        source.old secret.now (parameters_of params.now) p source.new) }
    ensures fits { IfOk result (λ _. IsEncodable (S.size source.old) params.now) }
    ensures size { S.size source.new ≡ S.size source.old }
    // When each refusal comes.
    ensures too_large { IsErrOf result PrepareError.TooLarge
        → max_file_size < S.size source.old }
    ensures too_many { IsErrOf result PrepareError.TooManySegments
        → HasTooManySegments (S.size source.old) params.now }
    ensures changed { IsErrOf result PrepareError.SourceChanged
        → PassesDiffer S.gives (S.size source.old) source.old
        (λ file. key_for file secret.now (parameters_of params.now)) source.new }
    ensures fault { IsErrOf result PrepareError.SourceFault
        → HasFailedMore (S.failures source.old) (S.failures source.new) }
    // A file that has no encoding is refused for its size alone, and nothing of it is read.
    ensures early { (IsEncodable (S.size source.old) params.now → ⊥) → source.new ≡ source.old }
    ensures refused { (IsEncodable (S.size source.old) params.now → ⊥) → IfErr result (λ e.
        (e ≡ PrepareError.TooLarge) ⊎ (e ≡ PrepareError.TooManySegments)) }
    // A file that has an encoding is not refused for its size.
    ensures memory { IsEncodable (S.size source.old) params.now → IfErr result (λ e.
        (e ≡ PrepareError.OutOfMemory) ⊎ (e ≡ PrepareError.SourceChanged)
        ⊎ (e ≡ PrepareError.SourceFault)) }
{
    let geometry = file_geometry(source.len(), params)?;
    let passes = read_twice(alloc, source, &geometry, secret)?;
    Ok(keep(alloc, geometry, passes)?)
}
