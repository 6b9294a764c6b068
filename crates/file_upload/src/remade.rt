//! A source of the pieces of shares that are made anew, which holds none of them.

ghost use Rattle.std.specs.Prelude.{◌≡◌, ◌+◌, ◌<◌, ◌≤◌, length, IfErr, IfOk, OnOk};
ghost use Rattle.share_gathering.specs.KeptFile.{kept_length};
ghost use Rattle.file_upload.specs.RemadeStream.{GaveNoRemade, GaveRemade, ready_remade};
ghost use Rattle.file_upload.specs.Streamed.{fault_of};

use crate::streamed::fault_of;
use file_streaming::RemadeFile;
use sources::Source;
use std::alloc::{AllocError, Global};
use std::marker::Model;
use upload_core::ReadyUpload;
use upload_core::pieces::{PieceFault, Pieces};
use upload_core::status::UploadGoal;
use wire::message::ShareLength;

/// A source of padded ciphertext, and what is kept of what its first pass brought.
#[derive(Drop)]
pub struct RemadeStream<S: Source + Drop> {
    source: S,
    remade: RemadeFile,
}

impl<S: Source + Drop> Model for RemadeStream<S> {
    ghost use Rattle.file_upload.specs.RemadeStream.{RemadeStreaming};

    ghost Value = { RemadeStreaming S };

    ghost view = { λ s. record { source = s.source; remade = s.remade } };
}

impl<S: Source + Drop> RemadeStream<S> {
    /// The source of the padded ciphertext.
    pub fn source(&self) -> &S
        ensures { result.now ≡ self.now.source }
    {
        &self.source
    }
}

impl<S: Source + Drop> Pieces for RemadeStream<S> {
    ghost digests = { λ s. s.remade.kept.digests };

    ghost share_length = { λ s. kept_length s.remade.kept };

    ghost gives = { λ s share offset bytes after.
        GaveRemade S.gives s share offset bytes after };

    ghost fails = { λ s share offset len fault after.
        GaveNoRemade S.gives S.failures s fault after };

    fn piece(&mut self, share: u8, offset: u64, out: &mut [u8]) -> Result<(), PieceFault> {
        match self.remade.piece(&mut self.source, share, offset, out) {
            Ok(()) => Ok(()),
            Err(error) => Err(fault_of(error)),
        }
    }
}

/// The upload of shares that are made anew: takes over a source, and what is kept of it. So many
/// servers are to hold a share of their own.
pub fn ready_remade<S: Source + Drop>(
    alloc: Global,
    source: S,
    remade: RemadeFile,
    happy: u16,
) -> Result<ReadyUpload<RemadeStream<S>>, AllocError>
    ensures { IfOk result (λ ready. ready
        ≡ ready_remade (record { source = source; remade = remade }) happy) }
{
    let digests = remade.digests().to_vec(alloc)?;
    let length = ShareLength::new(remade.share_length()).unwrap();
    let goal = UploadGoal::new(*remade.cap(), digests, length);
    let pieces = RemadeStream { source, remade };
    Ok(ReadyUpload::new(pieces, goal, happy))
}
