//! How the course of an upload ends, and how it fails.

ghost use Rattle.std.specs.Prelude.{◌≡◌, ◌&&◌, IfOk, OnErr, OnOk, nat_lt};
ghost use Rattle.placement.specs.Matching.{IsHappiness};
ghost use Rattle.upload_core.specs.declared.pieces.PieceFault.TheVariants.{OutOfMemory};
ghost use Rattle.upload_core.specs.Acknowledged.{acked_pairs};
ghost use Rattle.upload_core.specs.Course.{Ends, IsCourse};
ghost use Rattle.upload_core.specs.Rounds.{has_failed_since};

use crate::acknowledged::acked_pairs;
use crate::pieces::PieceFault;
use crate::rounds::has_failed_in;
use crate::state::Course;
use crate::status::{NodeList, PairList, UploadStatus};
use placement::{Matching, happiness};
use std::alloc::{AllocError, Global};
use wire::message::NodeId;

impl Course {
    /// Are shares to be placed again, where the acknowledged pairs reach so much happiness?
    pub(crate) fn is_to_place_again(&self, reached: usize) -> bool
        ensures { result ≡ nat_lt reached self.now.happy
            && has_failed_since self.now.goal self.now.round self.now.requests.entries }
    {
        reached < usize::from(self.happy)
            && has_failed_in(&self.goal, self.requests.kept_since(self.round))
    }

    /// Ends with a largest matching of the acknowledged pairs.
    pub(crate) fn end(&mut self, matching: Matching)
        requires { IsHappiness (acked_pairs self.old.goal self.old.requests.entries)
            matching.pairs.items matching.blocking.items }
        ensures { Ends self.old self.new }
    {
        let Matching { pairs, blocking } = matching;
        let reached = pairs.len();
        self.status = if reached >= usize::from(self.happy) {
            UploadStatus::Happy(PairList::from_vec(pairs))
        } else {
            UploadStatus::Unhappy(reached as u16, NodeList::from_vec(blocking))
        };
    }

    /// It fails where this outcome of a step found no memory.
    pub(crate) fn fail_by(&mut self, outcome: &Result<(), AllocError>)
        ensures ok { OnOk outcome.now (self.new ≡ self.old) }
        ensures err { OnErr outcome.now
            (self.new ≡ record self.old { status = UploadStatus.Failed OutOfMemory }) }
        ensures right { IsCourse self.new }
    {
        let status = &mut self.status;
        if outcome.is_err() {
            *status = UploadStatus::Failed(PieceFault::OutOfMemory);
        }
    }

    /// It ends for this fault.
    pub(crate) fn fail(&mut self, fault: PieceFault)
        ensures { self.new ≡ record self.old { status = UploadStatus.Failed fault } }
    {
        self.status = UploadStatus::Failed(fault);
    }
}

/// A largest matching of pairs, with its blocking set.
pub(crate) fn largest(alloc: Global, pairs: &[(NodeId, u16)]) -> Result<Matching, AllocError>
    ensures { IfOk result
        (λ matching. IsHappiness pairs.now matching.pairs.items matching.blocking.items) }
{
    happiness(alloc, pairs)
}
