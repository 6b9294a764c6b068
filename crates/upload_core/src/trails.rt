//! What the record tells of a transfer: whether its pieces wait, and whether it was given up.

ghost use Rattle.std.specs.Prelude.{◌≡◌, ◌==◌, ◌&&◌, map};
ghost use Rattle.request_record.specs.Record.{is_outstanding};
ghost use Rattle.request_record.specs.declared.entries.Entry.{Entry};
ghost use Rattle.upload_core.specs.Transfers.{is_abort_of, is_given_up, is_piece_before};
ghost use Rattle.upload_core.specs.Transfers.{waits_before};

use request_record::entries::Entry;
use request_record::requests::{Asked, Outcome, Request};
use wire::message::NodeId;

/// Does a piece of this share that begins before an offset wait for its answer from a server?
pub(crate) fn waits_before(entries: &[Entry], server: NodeId, share: u8, end: u64) -> bool
    ensures { result
        ≡ waits_before (map (λ (e : Entry). e.request) entries.now) server share end }
{
    entries.iter().any(|entry| is_waiting_before(&entry.request, server, share, end))
}

fn is_waiting_before(request: &Request, server: NodeId, share: u8, end: u64) -> bool
    ensures { result ≡ (request.now.server == server)
        && is_piece_before share end request.now.asked && is_outstanding request.now.outcome }
{
    request.server == server
        && is_piece_before(&request.asked, share, end)
        && matches!(request.outcome, Outcome::Outstanding)
}

// Is it a piece of this share that begins before an offset?
fn is_piece_before(asked: &Asked, share: u8, end: u64) -> bool
    ensures { result ≡ is_piece_before share end asked.now }
{
    match asked {
        Asked::Writing(number, offset, _) => *number == share && *offset < end,
        _ => false,
    }
}

/// Was the transfer of such a request to a server given up?
pub(crate) fn is_given_up(entries: &[Entry], server: NodeId, asked: &Asked) -> bool
    ensures { result ≡ is_given_up (map (λ (e : Entry). e.request) entries.now) server asked.now }
{
    entries
        .iter()
        .any(|entry| is_abort_at(&entry.request, server, asked))
}

fn is_abort_at(request: &Request, server: NodeId, asked: &Asked) -> bool
    ensures { result
        ≡ (request.now.server == server) && is_abort_of asked.now request.now.asked }
{
    request.server == server && is_abort_of(asked, &request.asked)
}

// Is it the Abort of the transfer of such a request?
fn is_abort_of(asked: &Asked, other: &Asked) -> bool
    ensures { result ≡ is_abort_of asked.now other.now }
{
    match (asked, other) {
        (
            Asked::Allocation(share, _) | Asked::Writing(share, _, _) | Asked::Closing(share),
            Asked::Aborting(number),
        ) => number == share,
        _ => false,
    }
}
