//! Where the bytes of a world's uploads come from.

ghost use Rattle.std.specs.Prelude.{◌≡◌, ◌+◌, ◌<◌, ◌≤◌, length, IfErr, OnOk};
ghost use Rattle.world_operations.specs.UploadPieces.{digests_of, fails, gives, share_length_of};
ghost use Rattle.world_operations.specs.UploadPieces.{ready_with};

use file_upload::streamed::Streamed;
use sources::ChangingSource;
use upload_core::ReadyUpload;
use upload_core::pieces::{PieceFault, Pieces, WholeShares};

/// The shares of an upload, or what they are made of again when they are asked for.
#[derive(Drop)]
pub enum UploadPieces {
    /// Shares in memory.
    Whole(WholeShares),
    /// A source of two texts, with what is kept of what its second pass brought.
    Streamed(Streamed<ChangingSource>),
}

impl UploadPieces {
    /// The same upload, of shares in memory.
    pub(crate) fn of_whole(ready: ReadyUpload<WholeShares>) -> ReadyUpload<UploadPieces>
        ensures { result ≡ ready_with ready UploadPieces.Whole }
    {
        let (shares, goal, happy) = ready.into_parts();
        ReadyUpload::new(UploadPieces::Whole(shares), goal, happy)
    }

    /// The same upload, of a source of two texts.
    pub(crate) fn of_stream(
        ready: ReadyUpload<Streamed<ChangingSource>>,
    ) -> ReadyUpload<UploadPieces>
        ensures { result ≡ ready_with ready UploadPieces.Streamed }
    {
        let (stream, goal, happy) = ready.into_parts();
        ReadyUpload::new(UploadPieces::Streamed(stream), goal, happy)
    }
}

impl Pieces for UploadPieces {
    ghost digests = { digests_of };

    ghost share_length = { share_length_of };

    ghost gives = { gives };

    ghost fails = { fails };

    fn piece(&mut self, share: u8, offset: u64, out: &mut [u8]) -> Result<(), PieceFault> {
        match self {
            UploadPieces::Whole(shares) => shares.piece(share, offset, out),
            UploadPieces::Streamed(streamed) => streamed.piece(share, offset, out),
        }
    }
}
