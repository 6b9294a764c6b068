//! Uploads that are carried over servers whose stores keep what they closed, with links in memory.

ghost use Rattle.std.specs.Prelude.{◌≡◌, IfOk};
ghost use Rattle.upload_core.specs.Calls.{upload_calls};
ghost use Rattle.carried_operations.specs.Kept.{AcknowledgedAreKept, AllStay, AreSound};
ghost use Rattle.carried_operations.specs.Kept.{memory_carries, memory_gives_up};
ghost use Rattle.carried_operations.specs.Stored.{HasBegun, IsCarried};
ghost use Rattle.local_grid.specs.Local.{local_calls};

use local_grid::error::LoopError;
use local_grid::grid::LocalGrid;
use local_grid::link::MemoryLink;
use local_grid::watched::{Watch, Watched};
use share_store::store::Keeping;
use upload_core::Upload;
use upload_core::pieces::Pieces;

/// Carries an upload as `carry_upload` does. However it ends, each server's closed shares stay as
/// they are. Where the servers were sound, each pair that the upload counts as acknowledged is kept
/// by its server, so each that it is Happy with: under the digest of the upload's share, and so,
/// unless two hash inputs clash, with exactly its bytes.
pub fn carry_to_keeping<S, P, W>(
    nodes: &mut LocalGrid<S, MemoryLink>,
    upload: Upload<P>,
    limit: u64,
    watch: W,
) -> Result<Upload<P>, LoopError>
where
    S: Keeping,
    P: Pieces + Drop,
    W: Watch + Drop,
    requires { HasBegun upload.course }
    ensures carried { IfOk result (λ ended. IsCarried (upload_calls P.gives P.fails)
        (local_calls S.calls memory_carries memory_gives_up) upload nodes.old ended nodes.new) }
    ensures stay { AllStay S.shelf nodes.old nodes.new }
    ensures kept { AreSound S.shelf nodes.old → IfOk result (λ ended. AcknowledgedAreKept S.shelf
        upload.course.goal ended.course.requests.entries nodes.new) }
{
    let mut watched = Watched::new(upload, watch);
    nodes.run_within(&mut watched, limit)?;
    Ok(watched.into_operation())
}
