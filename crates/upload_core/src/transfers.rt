//! Transfers: what an answer or a loss does to one, what is asked then, and which transfers failed.

ghost use Rattle.std.specs.Prelude.{◌≡◌, ◌↔◌, ◌+◌, ◌==◌, ◌&&◌, nat_lt, nat_le, option_to_list};
ghost use Rattle.std.specs.Prelude.{IsTrue};
ghost use Rattle.upload_core.specs.Acknowledged.{is_digest_of};
ghost use Rattle.upload_core.specs.Transfers.{carries, effect_of, fails, given_up, has_failed};
ghost use Rattle.upload_core.specs.Transfers.{is_acknowledged};
ghost use Rattle.upload_core.specs.Transfers.{is_transfer, next_of, piece_at, sent_from};
ghost use Rattle.request_record.specs.declared.requests.Outcome.TheVariants.{Answered};

use crate::status::UploadGoal;
use request_record::requests::{Asked, Outcome, Request};
use wire::message::Body;

/// The most bytes of a piece.
pub(crate) const MAX_PIECE: u64 = 32_768;

/// What an answer, or the loss of a request, does to its transfer.
#[derive(Clone, Copy, PartialEq, Eq)]
pub enum Effect {
    /// It fails.
    Fails,
    /// It goes on.
    Carries,
    /// Nothing more is asked: the share is acknowledged, or it was no request of a transfer.
    Rests,
}

impl Effect {
    /// Does the transfer fail?
    pub(crate) fn fails(self) -> bool
        ensures { IsTrue result ↔ (self ≡ Effect.Fails) }
    {
        matches!(self, Effect::Fails)
    }

    /// Does it go on?
    pub(crate) fn carries(self) -> bool
        ensures { IsTrue result ↔ (self ≡ Effect.Carries) }
    {
        matches!(self, Effect::Carries)
    }
}

/// What this answer to a request does to its transfer.
pub(crate) fn effect_of(goal: &UploadGoal, request: &Request, body: &Body) -> Effect
    ensures { result ≡ effect_of goal.now request.now.asked (Answered body.now) }
{
    if is_refusal(goal, request, body) {
        Effect::Fails
    } else if carries(goal, request.asked, body) {
        Effect::Carries
    } else {
        Effect::Rests
    }
}

/// Did the transfer of a request fail: by a loss, or by an answer that neither carries on nor
/// acknowledges?
pub(crate) fn has_failed(goal: &UploadGoal, request: &Request) -> bool
    ensures { result ≡ has_failed goal.now request.now }
{
    match &request.outcome {
        Outcome::Lost => is_transfer(request.asked),
        Outcome::Answered(kept) => match kept.told() {
            Some(body) => is_refusal(goal, request, body),
            None => is_transfer(request.asked),
        },
        _ => false,
    }
}

// Would this answer to a request of a transfer neither carry on nor acknowledge?
fn is_refusal(goal: &UploadGoal, request: &Request, body: &Body) -> bool
    ensures { result ≡ fails goal.now request.now.asked (Answered body.now) }
{
    is_transfer(request.asked)
        && !carries(goal, request.asked, body)
        && !is_acknowledged(goal, request.asked, body)
}

fn is_transfer(asked: Asked) -> bool
    ensures { result ≡ is_transfer asked }
{
    matches!(
        asked,
        Asked::Allocation(_, _) | Asked::Writing(_, _, _) | Asked::Closing(_)
    )
}

// Does the answer acknowledge the share of a transfer?
fn is_acknowledged(goal: &UploadGoal, asked: Asked, body: &Body) -> bool
    ensures { result ≡ is_acknowledged goal.now asked body.now }
{
    match (asked, body) {
        (Asked::Allocation(share, _), Body::Already(digest)) => goal.is_digest_of(share, digest),
        (Asked::Writing(share, _, _), Body::Already(digest)) => goal.is_digest_of(share, digest),
        (Asked::Closing(share), Body::Closed(digest)) => goal.is_digest_of(share, digest),
        _ => false,
    }
}

// Does an answer carry on?
fn carries(goal: &UploadGoal, asked: Asked, body: &Body) -> bool
    ensures { result ≡ carries goal.now asked body.now }
{
    match (asked, body) {
        (Asked::Allocation(_, _), Body::Granted) => true,
        (Asked::Writing(_, offset, len), Body::Wrote(next)) => is_end(offset, len, *next),
        (Asked::Writing(_, offset, len), Body::WrongOffset(next)) => {
            is_end(offset, len, *next) || is_sent_behind(goal, offset, len, *next)
        }
        _ => false,
    }
}

// Does a piece end here?
fn is_end(offset: u64, len: u32, next: u64) -> bool
    ensures { result ≡ next == offset + len }
{
    offset.checked_add(u64::from(len)) == Some(next)
}

// Does a place lie behind a piece, and was the share sent up to it?
fn is_sent_behind(goal: &UploadGoal, offset: u64, len: u32, next: u64) -> bool
    ensures { result ≡ nat_lt (offset + len) next && nat_le next (sent_from goal.now offset) }
{
    let end = offset.checked_add(u64::from(len));
    end.is_some_and(|end| end < next) && next <= sent_from(goal, offset)
}

/// How far a share is sent while no piece before this offset waits.
pub(crate) fn sent_from(goal: &UploadGoal, offset: u64) -> u64
    ensures { result ≡ sent_from goal.now offset }
{
    let ahead = u64::from(goal.ahead()) * MAX_PIECE;
    offset.saturating_add(ahead).min(goal.share_length().get())
}

/// After so many bytes of a share: the next piece, or Close.
pub(crate) fn next_of(goal: &UploadGoal, share: u8, sent: u64) -> Asked
    ensures { result ≡ next_of goal.now share sent }
{
    if sent == goal.share_length().get() {
        Asked::Closing(share)
    } else {
        piece_at(goal, share, sent)
    }
}

/// The piece of a share from an offset on.
pub(crate) fn piece_at(goal: &UploadGoal, share: u8, offset: u64) -> Asked
    ensures { result ≡ piece_at goal.now share offset }
{
    let left = goal.share_length().get().saturating_sub(offset);
    Asked::Writing(share, offset, left.min(MAX_PIECE) as u32)
}

/// What is asked where a transfer failed: Abort, where room was granted.
pub(crate) fn given_up(asked: &Asked) -> Option<Asked>
    ensures { option_to_list result ≡ given_up asked.now }
{
    match asked {
        Asked::Writing(share, _, _) | Asked::Closing(share) => Some(Asked::Aborting(*share)),
        _ => None,
    }
}
