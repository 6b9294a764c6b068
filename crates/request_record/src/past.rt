//! All requests of a record, which contracts see, and of which nothing is in memory.

ghost use Rattle.std.specs.Prelude.{◌≡◌, [], ◌∷◌, ◌++◌, map, slice_set};
ghost use Rattle.request_record.specs.Record.{ticked_one};

use crate::requests::Request;
use std::marker::Model;
use std::snapshot::Snapshot;

/// All requests in order, as the steps that made them say. It has no bytes.
#[derive(Drop)]
#[cycle(past)]
pub(crate) struct Past {
    step: Snapshot<Step>,
}

// The last step, after all before it.
#[derive(Drop)]
#[cycle(past)]
enum Step {
    /// Nothing was asked.
    Nothing,
    /// One more request.
    Asked(Snapshot<Past>, Snapshot<Request>),
    /// The request at a position is this now.
    Settled(Snapshot<Past>, usize, Snapshot<Request>),
    /// Each took note of a tick at this second.
    Ticked(Snapshot<Past>, u64),
}

impl Model for Past {
    ghost use Rattle.request_record.specs.PastState.{PastState};

    ghost Value = { PastState };

    ghost use Rattle.request_record.specs.Past.{after_step};

    ghost view = { λ p. after_step p.step.value };

    ghost size = { λ p. p.steps };

    ghost use Rattle.std.proofs.Common.{arith};

    ghost size_decreases = { λ a h. Prim.grind arith };
}

impl Past {
    /// Nothing was asked.
    pub(crate) fn new() -> Past
        ensures { result.requests ≡ [] }
    {
        let step = Step::Nothing;
        Past {
            step: Snapshot::of(&step),
        }
    }

    /// One more request.
    pub(crate) fn asked(&self, request: &Request) -> Past
        ensures { result.requests ≡ self.now.requests ++ request.now ∷ [] }
    {
        let step = Step::Asked(Snapshot::of(self), Snapshot::of(request));
        Past {
            step: Snapshot::of(&step),
        }
    }

    /// The request at a position is this now.
    pub(crate) fn settled(&self, position: usize, request: &Request) -> Past
        ensures { result.requests ≡ slice_set self.now.requests position request.now }
    {
        let step = Step::Settled(Snapshot::of(self), position, Snapshot::of(request));
        Past {
            step: Snapshot::of(&step),
        }
    }

    /// Each takes note of a tick at this second.
    pub(crate) fn ticked(&self, now: u64) -> Past
        ensures { result.requests ≡ map (ticked_one now) self.now.requests }
    {
        let step = Step::Ticked(Snapshot::of(self), now);
        Past {
            step: Snapshot::of(&step),
        }
    }
}
