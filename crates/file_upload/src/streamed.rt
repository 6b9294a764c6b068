//! A source of the pieces of an upload's shares, which holds none of them.

ghost use Rattle.std.specs.Prelude.{◌≡◌, ◌+◌, ◌<◌, ◌≤◌, length, IfErr, OnOk};
ghost use Rattle.file_streaming.specs.Prepared.{share_length};
ghost use Rattle.file_upload.specs.Streamed.{GaveBytes, GaveNone, fault_of};

use cap_text::ReadCap;
use file_streaming::{PieceError, Prepared};
use sources::Source;
use std::marker::Model;
use upload_core::pieces::{PieceFault, Pieces};

/// A source, and what is kept of what its second pass brought.
#[derive(Drop)]
pub struct Streamed<S: Source + Drop> {
    pub(crate) source: S,
    pub(crate) kept: Prepared,
}

impl<S: Source + Drop> Model for Streamed<S> {
    ghost use Rattle.file_upload.specs.Streamed.{Streaming};

    ghost Value = { Streaming S };

    ghost view = { λ s. record { source = s.source; kept = s.kept } };
}

impl<S: Source + Drop> Streamed<S> {
    /// The read cap of the file.
    pub fn cap(&self) -> &ReadCap
        ensures { result.now ≡ self.now.kept.cap }
    {
        self.kept.cap()
    }
}

impl<S: Source + Drop> Pieces for Streamed<S> {
    ghost digests = { λ s. s.kept.digests };

    ghost share_length = { λ s. share_length s.kept };

    ghost gives = { λ s share offset bytes after. GaveBytes S.gives s share offset bytes after };

    ghost fails = { λ s share offset len fault after.
        GaveNone S.gives S.failures s fault after };

    fn piece(&mut self, share: u8, offset: u64, out: &mut [u8]) -> Result<(), PieceFault> {
        match self.kept.piece(&mut self.source, share, offset, out) {
            Ok(()) => Ok(()),
            Err(error) => Err(fault_of(error)),
        }
    }
}

/// What an upload calls the fault.
pub(crate) fn fault_of(error: PieceError) -> PieceFault
    ensures { result ≡ fault_of error }
{
    match error {
        PieceError::SourceChanged => PieceFault::SourceChanged,
        PieceError::SourceFault => PieceFault::SourceFault,
    }
}
