//! Uploads over sources: they store what whole encodings have, and end where a read fails.

ghost use Rattle.std.specs.Prelude.{◌≤◌};
ghost use Rattle.ueb.specs.Limits.{min_file_size};

use crate::prepare_tests::Halting;
use file_encoding::{Params, encode_all};
use file_streaming::PrepareError;
use file_upload::streamed::Streamed;
use file_upload::streamed_prepared::prepare_stream;
use placement::ServerId;
use request_record::operation::Operation;
use server_core::server::Server;
use share_store::memory::MemoryStore;
use share_store::store::Store;
use sources::{ChangingSource, FileSource, Source};
use std::alloc::Global;
use std::test::Fail;
use tagged_hash::share_digest;
use upload_core::Upload;
use upload_core::pieces::PieceFault;
use upload_core::status::{ServerInfo, UploadStatus};
use wire::message::ShareId;

const SERVER: [ServerInfo; 1] = [ServerInfo {
    node: 0,
    id: ServerId([0; 20]),
}];

// How an upload over a source ended.
#[derive(Clone, Copy, PartialEq, Eq)]
enum Ending {
    // It did not begin.
    Refused(PrepareError),
    // It stopped, and has sent nothing since.
    Failed(PieceFault),
    // One server is happy, and keeps the share of the whole encoding.
    Stored,
    // Anything else.
    Other,
}

// Sends the next request, if there is one, and takes its answer. `None` where memory is out.
fn step<S: Source + Drop>(
    alloc: Global,
    upload: &mut Upload<Streamed<S>>,
    server: &mut Server<MemoryStore>,
) -> Option<()> {
    let Some((node, request)) = upload.take_outgoing(alloc).ok()? else {
        return Some(());
    };
    if let Some(answer) = server.on_message(100, &request, 0).ok()? {
        upload.on_message(node, answer, 0).ok()?;
    }
    Some(())
}

// How an upload that has sent all stands. A happy one counts where its server keeps the share.
fn ending_of<S: Source + Drop>(
    upload: &Upload<Streamed<S>>,
    server: &Server<MemoryStore>,
    id: &ShareId,
    share: &[u8],
) -> Ending {
    let is_kept = server.store().closed(id) == Some(share_digest(share));
    match upload.status() {
        UploadStatus::Failed(fault) if !upload.has_outgoing() => Ending::Failed(*fault),
        UploadStatus::Happy(_) if is_kept => Ending::Stored,
        _ => Ending::Other,
    }
}

// How an upload of one share to one server ends. `None` where memory is out.
fn upload_ends<S: Source + Drop>(
    alloc: Global,
    source: S,
    params: &Params,
    share: &[u8],
) -> Option<Ending>
    requires { min_file_size ≤ S.size source }
{
    let ready = match prepare_stream(alloc, source, b"", params) {
        Ok(ready) => ready,
        Err(error) => return Some(Ending::Refused(error)),
    };
    let id = ShareId {
        index: *ready.pieces().cap().to_verify().storage_index(),
        share: 0,
    };
    let mut upload = ready.start(alloc, &SERVER, 5, 0).ok()?;
    let mut server = Server::start(alloc, MemoryStore::new(alloc), 10_000, false);
    for _ in 0..20 {
        step(alloc, &mut upload, &mut server)?;
    }
    Some(ending_of(&upload, &server, &id, share))
}

// The share of a file of so many bytes of one value, three segments of it, and how the upload of a
// source is to end.
fn ends_so<S: Source + Drop>(alloc: Global, source: S, value: u8, expected: Ending) -> bool
    requires { min_file_size ≤ S.size source }
{
    let Ok(params) = Params::new(1, 1, 1, 100) else {
        return false;
    };
    let Ok(encoded) = encode_all(alloc, &[value; 300], b"", &params) else {
        return false;
    };
    let Some(share) = encoded.shares.as_slice().first() else {
        return false;
    };
    upload_ends(alloc, source, &params, share.as_slice()) == Some(expected)
}

// Each read fails in turn, or finds the end of the file: one of each pass, and three of the piece.
#[test]
fn each_read_of_an_upload_fails_in_turn(rt: HostRuntime) {
    for left in 0..6 {
        for fails in [false, true] {
            let source = FileSource::new(Halting { left, fails }, 300);
            let expected = match (left, fails) {
                (0..2, false) => Ending::Refused(PrepareError::SourceChanged),
                (0..2, true) => Ending::Refused(PrepareError::SourceFault),
                (2..5, false) => Ending::Failed(PieceFault::SourceChanged),
                (2..5, true) => Ending::Failed(PieceFault::SourceFault),
                _ => Ending::Stored,
            };
            assert!(rt; ends_so(rt.alloc(), source, 0, expected), "{left}");
        }
    }
}

// A source that changes in its passes, behind them, and never.
#[test]
fn changing_sources_are_uploaded_or_fail(rt: HostRuntime) -> Result<(), Fail> {
    let alloc = rt.alloc();
    for (after, value, expected) in [
        (0, 255, Ending::Stored),
        (1, 0, Ending::Refused(PrepareError::SourceChanged)),
        (300, 0, Ending::Refused(PrepareError::SourceChanged)),
        (599, 0, Ending::Refused(PrepareError::SourceChanged)),
        (600, 0, Ending::Failed(PieceFault::SourceChanged)),
        (899, 0, Ending::Failed(PieceFault::SourceChanged)),
        (900, 0, Ending::Stored),
    ] {
        let file = vec![in alloc; 0u8; 300]?;
        let other = vec![in alloc; 255u8; 300]?;
        let source = ChangingSource::new(file, other, after);
        assert!(rt; ends_so(alloc, source, value, expected), "{after}");
    }
    Ok(())
}
