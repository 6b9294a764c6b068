//! Shares that are made anew, without the key, from the padded ciphertext of their file.

ghost use Rattle.std.specs.Prelude.{◌≡◌, ◌+◌, ◌<◌, ◌≤◌, ◌^◌, length, IfOk};
ghost use Rattle.std.specs.Prelude.{IsErrOf, OnOk};
ghost use Rattle.ueb.specs.Shape.{rounded_up};
ghost use Rattle.share_verify.specs.CapBlock.{IsUebFor};
ghost use Rattle.sources.specs.Change.{HasEndedEarly};
ghost use Rattle.sources.specs.Source.{HasFailedMore};
ghost use Rattle.block_making.specs.Making.{WereRead};
ghost use Rattle.share_gathering.specs.KeptFile.{GivesKept, kept_length};
ghost use Rattle.file_streaming.specs.Remade.{IsOfNoText, IsOtherText, IsRemadeFrom};

use crate::remade_ending::finish_remade;
use crate::remake_error::RemakeError;
use crate::remaking::remake;
use block_making::{Encoder, PieceError};
use cap_text::VerifyCap;
use share_gathering::{Buffers, Finished, Kept, file_code, file_slots};
use share_verify::geometry_of;
use sources::Source;
use std::alloc::Global;
use std::marker::Model;
use ueb::Ueb;

/// What is kept of a file whose shares are made anew: its verify cap, the digests of its shares,
/// and the trees of their hashes. Of the ciphertext it holds eight segments and some blocks at
/// most.
#[derive(Drop)]
pub struct RemadeFile {
    cap: VerifyCap,
    kept: Kept,
}

impl Model for RemadeFile {
    ghost use Rattle.file_streaming.specs.Remade.{RemadeFile};

    ghost Value = { RemadeFile };

    ghost view = { λ r. record { cap = r.cap; kept = r.kept } };
}

impl RemadeFile {
    /// The file's verify cap.
    pub fn cap(&self) -> &VerifyCap
        ensures { result.now ≡ self.now.cap }
    {
        &self.cap
    }

    /// The digests of the file's shares, by number.
    pub fn digests(&self) -> &[[u8; 32]]
        ensures digests { result.now ≡ self.now.kept.digests }
        ensures few { length self.now.kept.digests ≤ 256 }
    {
        self.kept.digests()
    }

    /// The length of each share in bytes.
    pub fn share_length(&self) -> u64
        ensures length { result ≡ kept_length self.now.kept }
        ensures some { 1 ≤ result }
        ensures short { result ≤ 2 ^ 41 }
    {
        self.kept.share_length()
    }

    /// Fills `out` with the bytes of a share from an offset on. They lie in the share.
    ///
    /// Its blocks come from their slots, or else their segments are read and encoded again, each
    /// once, with the blocks of other shares that go on with them. Each block has to have the hash
    /// of the first pass. Refuses `SourceChanged` where the source brought other bytes than then,
    /// or ended early, and `SourceFault` where a read failed. `out` then holds any bytes. Takes no
    /// memory.
    pub fn piece<S: Source>(
        &mut self,
        source: &mut S,
        share: u8,
        offset: u64,
        out: &mut [u8],
    ) -> Result<(), PieceError>
        requires number { share < length self.old.kept.digests }
        requires inside { offset + length out.old ≤ kept_length self.old.kept }
        ensures gives { OnOk result (GivesKept self.old.kept share offset out.new) }
        ensures read { OnOk result (WereRead S.gives source.old self.old.kept.geometry offset
            (length out.old) source.new) }
        ensures changed { IsErrOf result PieceError.SourceChanged
            → IsOfNoText S.gives self.old source.old source.new }
        ensures fault { IsErrOf result PieceError.SourceFault
            → HasFailedMore (S.failures source.old) (S.failures source.new) }
        ensures size { S.size source.new ≡ S.size source.old }
        ensures failures { OnOk result (S.failures source.new ≡ S.failures source.old) }
        ensures same { self.new ≡ self.old }
    {
        self.kept.piece(source, share, offset, out)
    }
}

/// How many bytes a file has with its padding, by what its extension block says.
pub fn padded_size(ueb: &Ueb) -> u64
    ensures { result ≡ rounded_up ueb.now.size ueb.now.needed_shares }
{
    let needed = u64::from(ueb.needed_shares());
    ueb.size().div_ceil(needed) * needed
}

/// Reads a padded ciphertext of a cap's file once, each byte once from offset 0 up, and keeps what
/// its shares are made of. The extension block is copied into them: it is one of the cap, with
/// these contents. The source has as many bytes as the file has with its padding.
///
/// Refuses `SourceChanged` where the source ended early, `SourceFault` where a read failed,
/// `Inconsistent` where the root over the segments, or over the shares, is not the one that the
/// extension block tells, and `OutOfMemory`.
pub fn prepare_remade<S: Source>(
    alloc: Global,
    source: &mut S,
    cap: &VerifyCap,
    ueb: &Ueb,
    extension_block: Vec<u8>,
) -> Result<RemadeFile, RemakeError>
    requires ueb { IsUebFor cap.now extension_block.items ueb.now }
    requires size { S.size source.old ≡ rounded_up ueb.now.size ueb.now.needed_shares }
    ensures remade { IfOk result (λ remade. IsRemadeFrom S.gives source.old cap.now
        extension_block.items ueb.now remade source.new) }
    ensures size { S.size source.new ≡ S.size source.old }
    // When each refusal comes.
    ensures inconsistent { IsErrOf result RemakeError.Inconsistent
        → IsOtherText S.gives source.old ueb.now source.new }
    ensures changed { IsErrOf result RemakeError.SourceChanged
        → HasEndedEarly S.gives source.old (S.size source.old) source.new }
    ensures fault { IsErrOf result RemakeError.SourceFault
        → HasFailedMore (S.failures source.old) (S.failures source.new) }
{
    let file = geometry_of(ueb);
    let geometry = file.padded();
    let code = file_code(alloc, &geometry)?;
    let mut buffers = Buffers::of(alloc, &geometry)?;
    let remaking = remake(
        alloc,
        source,
        &geometry,
        file.size(),
        &code,
        &mut buffers.segments,
        &mut buffers.lanes,
    )?;
    let Finished { behind, digests } = finish_remade(
        alloc,
        &geometry,
        remaking,
        ueb,
        extension_block,
    )?;
    let kept = Kept {
        geometry,
        extension_block: behind.extension_block,
        ciphertext_tree: behind.ciphertext_tree,
        block_trees: behind.block_trees,
        share_hashes: behind.share_hashes,
        digests,
        encoder: Encoder { code, cipher: None },
        buffers,
        slots: file_slots(alloc, &geometry)?,
    };
    Ok(RemadeFile { cap: *cap, kept })
}
