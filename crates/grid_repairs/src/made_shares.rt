//! The pieces of shares that are made anew of others, which are read where they stand.

ghost use Rattle.std.specs.Prelude.{◌≡◌, ◌+◌, ◌<◌, ◌≤◌, length, IfErr, OnOk};
ghost use Rattle.share_source.specs.Decoded.{Decoding, GivesDecoded};
ghost use Rattle.carried_operations.specs.Fetched.{FetchedState, IsReadOver, IsUnread};
ghost use Rattle.file_upload.specs.RemadeStream.{GaveRemade, RemadeStreaming, remade_goal};
ghost use Rattle.grid_repairs.specs.Remaking.{GaveNonePlaced, lacks_memory, told_by};

use carried_operations::FetchedShares;
use file_upload::remade::RemadeStream;
use local_grid::Outside;
use share_source::ShareSource;
use std::marker::Model;
use upload_core::ReadyUpload;
use upload_core::pieces::{PieceFault, Pieces};

/// The padded ciphertext of a file, decoded from shares that are read where they stand.
pub(crate) type ReadShares<G> = ShareSource<FetchedShares<G>>;

/// Shares that are made anew of others, which are read for them, piece by piece. Where memory was
/// refused for that, this is told, and not a read that failed.
#[derive(Drop)]
pub(crate) struct MadeShares<G: Outside + Drop> {
    stream: RemadeStream<ReadShares<G>>,
}

impl<G: Outside + Drop> Model for MadeShares<G> {
    ghost Value = { RemadeStreaming (Decoding (FetchedState G)) };

    ghost view = { λ m. m.stream };
}

impl<G: Outside + Drop> Pieces for MadeShares<G> {
    ghost digests = { λ s. (remade_goal s.remade).digests };

    ghost share_length = { λ s. (remade_goal s.remade).share_length };

    ghost gives = { λ s share offset bytes after. GaveRemade (GivesDecoded
        (IsReadOver G.calls) (IsUnread G.calls)) s share offset bytes after };

    ghost fails = { λ s share offset len fault after. GaveNonePlaced (GivesDecoded
        (IsReadOver G.calls) (IsUnread G.calls)) (λ d. d.failures)
        lacks_memory s fault after };

    fn piece(&mut self, share: u8, offset: u64, out: &mut [u8]) -> Result<(), PieceFault> {
        match self.stream.piece(share, offset, out) {
            Ok(()) => Ok(()),
            Err(fault) => Err(told_by(fault, lacks_memory(self.stream.source()))),
        }
    }
}

// What an upload is told of why no piece came: where a read failed, whether for want of memory.
fn told_by(fault: PieceFault, lacks_memory: bool) -> PieceFault
    ensures { result ≡ told_by lacks_memory fault }
{
    match fault {
        PieceFault::SourceFault if lacks_memory => PieceFault::OutOfMemory,
        told => told,
    }
}

/// Whether memory was refused: for leaves or a decoder, which the last read wanted that failed, or
/// for a read of a share.
pub(crate) fn lacks_memory<G: Outside + Drop>(source: &ReadShares<G>) -> bool
    ensures { result ≡ lacks_memory source.now }
{
    source.lacks_memory() || source.bytes().lacks_memory()
}

/// The upload of shares that are made anew, which tells where memory was refused.
pub(crate) fn told_apart<G: Outside + Drop>(
    ready: ReadyUpload<RemadeStream<ReadShares<G>>>,
) -> ReadyUpload<MadeShares<G>>
    ensures { result ≡ ready }
{
    let (stream, goal, happy) = ready.into_parts();
    ReadyUpload::new(MadeShares { stream }, goal, happy)
}
