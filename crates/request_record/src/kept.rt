//! The answers that counted, as a record keeps them: of a `Data` no bytes are in memory.

ghost use Rattle.std.specs.Prelude.{◌≡◌, ℕ, List, None, IfNone, IfSome, IsTrue};
ghost use Rattle.std.specs.Prelude.{false, option_map};
ghost use Rattle.wire.specs.declared.message.Body.TheVariants.{Data};
ghost use Rattle.request_record.specs.Kept.{data_in};
ghost use Rattle.request_record.specs.Written.{wrote_all};

use crate::requests::{Asked, Outcome};
use std::marker::Model;
use std::snapshot::Snapshot;
use wire::message::Body;

/// An answer that counted. Contracts see it whole. In memory it is whole too, but for a `Data`,
/// of which nothing is.
#[derive(Drop)]
pub struct Kept {
    answer: Answer,
}

// An answer in memory.
#[derive(Drop)]
enum Answer {
    /// As it came: it is no `Data`.
    Whole(Body),
    /// A `Data`, which only contracts see.
    Seen(Snapshot<Body>),
}

impl Model for Kept {
    ghost use Rattle.wire.specs.declared.message.Body.{Body};

    ghost Value = { Body };

    ghost use Rattle.request_record.specs.Kept.{IsKept, body_of};

    ghost view = { λ k. body_of k.answer };

    ghost invariant = { λ k. IsKept k.answer };
}

impl Kept {
    /// This answer. The bytes of a `Data` are given back, with no copy.
    pub(crate) fn of(body: Body) -> (Kept, Option<Vec<u8>>)
        ensures kept { result.0 ≡ body }
        ensures bytes { option_map (λ v. v.items) result.1 ≡ data_in body }
    {
        if is_data(&body) {
            let kept = Kept::seen(&body);
            (kept, bytes_in(body))
        } else {
            let kept = Kept {
                answer: Answer::Whole(body),
            };
            (kept, None)
        }
    }

    // This answer, which is a `Data`: of it nothing is kept in memory.
    fn seen(body: &Body) -> Kept
        requires { (bytes : List ℕ) × (body.now ≡ Data bytes) }
        ensures { result ≡ body.now }
    {
        Kept {
            answer: Answer::Seen(Snapshot::of(body)),
        }
    }

    /// The answer, where it is no `Data`.
    pub fn told(&self) -> Option<&Body>
        ensures some { IfSome result (λ body. (body.now ≡ self.now) × (data_in self.now ≡ None)) }
        ensures none { IfNone result ((bytes : List ℕ) × (self.now ≡ Data bytes)) }
    {
        match &self.answer {
            Answer::Whole(body) => Some(body),
            Answer::Seen(_) => None,
        }
    }

    /// Does it tell that so many bytes were written from an offset on, and no more?
    pub(crate) fn tells_written(&self, offset: u64, len: u32) -> bool
        ensures { (share : ℕ) → result
            ≡ wrote_all (Asked.Writing share offset len) (Outcome.Answered self.now) }
    {
        match self.told() {
            Some(Body::Wrote(next) | Body::WrongOffset(next)) => {
                offset <= *next && *next - offset == u64::from(len)
            }
            _ => false,
        }
    }
}

// Is this a `Data`?
fn is_data(body: &Body) -> bool
    ensures yes { IsTrue result → (bytes : List ℕ) × (body.now ≡ Data bytes) }
    ensures no { result ≡ false → data_in body.now ≡ None }
{
    matches!(body, Body::Data(_))
}

// The bytes of a `Data`.
fn bytes_in(body: Body) -> Option<Vec<u8>>
    ensures { option_map (λ v. v.items) result ≡ data_in body }
{
    match body {
        Body::Data(bytes) => Some(bytes.into_vec()),
        _ => None,
    }
}
