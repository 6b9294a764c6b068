//! Which pairs of a server and a share the answers of a record acknowledge.

ghost use Rattle.std.specs.Prelude.{◌≡◌, ◌++◌, IfOk, OnOk, map};
ghost use Rattle.request_record.specs.declared.entries.Entry.{Entry};
ghost use Rattle.upload_core.specs.Acknowledged.{acked_answer, acked_by, acked_held, acked_pairs};
ghost use Rattle.upload_core.specs.Acknowledged.{acked_share};

use crate::status::UploadGoal;
use request_record::entries::Entry;
use request_record::requests::{Asked, Outcome, Request};
use std::alloc::{AllocError, Global};
use wire::message::{Body, Digest, HeldShare, NodeId};

/// The pairs that the answers of these requests acknowledge.
pub(crate) fn acked_pairs(
    alloc: Global,
    goal: &UploadGoal,
    entries: &[Entry],
) -> Result<Vec<(NodeId, u16)>, AllocError>
    ensures { IfOk result (λ pairs. pairs.items
        ≡ acked_pairs goal.now (map (λ (e : Entry). e.request) entries.now)) }
{
    let mut pairs = Vec::new(alloc);
    for entry in entries {
        push_request(goal, &entry.request, &mut pairs)?;
    }
    Ok(pairs)
}

// Adds the pairs that the answer to a request acknowledges.
fn push_request(
    goal: &UploadGoal,
    request: &Request,
    pairs: &mut Vec<(NodeId, u16)>,
) -> Result<(), AllocError>
    ensures { OnOk result (pairs.new.items ≡ pairs.old.items ++ acked_by goal.now request.now) }
{
    match &request.outcome {
        Outcome::Answered(kept) => match kept.told() {
            Some(body) => push_answer(goal, request.server, request.asked, body, pairs),
            None => Ok(()),
        },
        _ => Ok(()),
    }
}

// Adds the pairs that an answer acknowledges.
fn push_answer(
    goal: &UploadGoal,
    server: NodeId,
    asked: Asked,
    body: &Body,
    pairs: &mut Vec<(NodeId, u16)>,
) -> Result<(), AllocError>
    ensures { OnOk result
        (pairs.new.items ≡ pairs.old.items ++ acked_answer goal.now server asked body.now) }
{
    match (asked, body) {
        (Asked::Holdings, Body::Have(_, held)) => push_held(goal, server, held.as_slice(), pairs),
        (Asked::Allocation(share, _), Body::Already(digest)) => {
            push_share(goal, server, share, digest, pairs)
        }
        (Asked::Writing(share, _, _), Body::Already(digest)) => {
            push_share(goal, server, share, digest, pairs)
        }
        (Asked::Closing(share), Body::Closed(digest)) => {
            push_share(goal, server, share, digest, pairs)
        }
        _ => Ok(()),
    }
}

// Adds the pairs of held shares.
fn push_held(
    goal: &UploadGoal,
    server: NodeId,
    held: &[HeldShare],
    pairs: &mut Vec<(NodeId, u16)>,
) -> Result<(), AllocError>
    ensures { OnOk result
        (pairs.new.items ≡ pairs.old.items ++ acked_held goal.now server held.now) }
{
    for share in held {
        push_share(goal, server, share.share, &share.digest, pairs)?;
    }
    Ok(())
}

// Adds the pair of a share, where this is its digest.
fn push_share(
    goal: &UploadGoal,
    server: NodeId,
    share: u8,
    digest: &Digest,
    pairs: &mut Vec<(NodeId, u16)>,
) -> Result<(), AllocError>
    ensures { OnOk result
        (pairs.new.items ≡ pairs.old.items ++ acked_share goal.now server share digest.now) }
{
    if goal.is_digest_of(share, digest) {
        pairs.push((server, u16::from(share)))?;
    }
    Ok(())
}
