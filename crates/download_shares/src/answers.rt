//! What becomes of the answers to what was asked.

ghost use Rattle.std.specs.Prelude.{◌≡◌, ◌↔◌, ℕ, List, IfNone, IfSome, IsTrue};
ghost use Rattle.download_shares.specs.BeginningMoves.{IsNewsOf, WaitsAt};
ghost use Rattle.download_shares.specs.Reads.{IsAnsweredBy};
ghost use Rattle.download_shares.specs.BeginningState.{BeginningsState};

use crate::beginnings::News;
use crate::begun::Begun;
use crate::holdings::Heard;
use request_record::requests::Requests;

/// What is told of what was heard.
pub(crate) fn news_of(begun: &[Begun], heard: Heard) -> News
    ensures { (s : BeginningsState) → s.begun ≡ begun.now → IsNewsOf s heard result }
{
    match heard {
        Heard::Nothing | Heard::Held => News::Nothing,
        Heard::Gone(holding) => News::Gone(holding),
        Heard::Bytes(holding, position) => {
            if waits_at(begun, holding, position) {
                News::Beginning(holding, position)
            } else {
                News::Bytes(holding, position)
            }
        }
    }
}

// Whether the beginning of a holding waits for the answer to the request at this position.
fn waits_at(begun: &[Begun], holding: usize, position: usize) -> bool
    ensures { (s : BeginningsState) → s.begun ≡ begun.now
        → IsTrue result ↔ WaitsAt s holding position }
{
    match begun.get(holding) {
        Some(begun) => begun.waiting == Some(position),
        None => false,
    }
}

/// The bytes that answered the request at a position.
pub fn bytes_at(requests: &Requests, position: usize) -> Option<&[u8]>
    ensures some { IfSome result (λ bytes. IsAnsweredBy requests.now.entries position bytes.now) }
    ensures none { IfNone result ((bytes : List ℕ)
        → IsAnsweredBy requests.now.entries position bytes → ⊥) }
{
    requests.bytes_at(position)
}
