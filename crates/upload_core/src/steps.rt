//! What a message, a second and a send do to the course of an upload, and what follows.

ghost use Rattle.std.specs.Prelude.{◌≡◌, ◌≢◌, ◌⊎◌, ◌<◌, ℕ, All, IfOk, IsOk};
ghost use Rattle.std.specs.Prelude.{OnErr, OnOk, Some, length, nat_eq, take};
ghost use Rattle.std.specs.List.{IsDistinct};
ghost use Rattle.request_record.specs.Asking.{after_message, after_tick, message_at, one_sent};
ghost use Rattle.request_record.specs.Record.{asked_all};
ghost use Rattle.placement.specs.Matching.{shares_of};
ghost use Rattle.upload_core.specs.Acknowledged.{acked_pairs};
ghost use Rattle.upload_core.specs.Course.{CanGoOn, IsCourse, MayPlace, Places, allocations};
ghost use Rattle.upload_core.specs.Course.{transfers};
ghost use Rattle.upload_core.specs.Moves.{Advances, GoesOn, Stops, TicksOn, followed_all};
ghost use Rattle.upload_core.specs.Sending.{first_to_send};
ghost use Rattle.upload_core.specs.Rounds.{IsSettled};
ghost use Rattle.upload_core.specs.State.{with_record};
ghost use Rattle.upload_core.specs.Trails.{AreFollowed, IsLostAt, IsPassed};

use crate::acknowledged::acked_pairs;
use crate::ending::largest;
use crate::rounds::servers_of;
use crate::state::Course;
use crate::status::UploadStatus;
use crate::transfers::effect_of;
use placement::place;
use request_record::ledger::Ledger;
use request_record::requests::Asked;
use std::alloc::{AllocError, Global};
use wire::message::{Body, Message, NodeId, ShareLength};

impl Course {
    /// Takes a message over, at a second.
    pub(crate) fn hear(
        &mut self,
        from: NodeId,
        message: Message,
        now: u64,
    ) -> Result<(), AllocError>
        requires { self.old.status ≡ UploadStatus.Running → CanGoOn self.old }
        ensures ok { OnOk result (Advances from message now self.old self.new) }
        ensures err { OnErr result
            (Stops (after_message from message now self.old.requests) self.old self.new) }
        ensures ended { self.old.status ≢ UploadStatus.Running → IsOk result }
        ensures goal { self.new.goal ≡ self.old.goal }
    {
        let Some(position) = self.heard_at(from, &message) else {
            self.requests.pass(now);
            return Ok(());
        };
        // The record may let the request go once its answer is taken.
        let request = self.requests.request(position);
        let asked = request.asked;
        let effect = effect_of(&self.goal, request, &message.body);
        self.requests.take_answer(from, message, now);
        if !self.is_running() {
            return Ok(());
        }
        self.follow(from, &asked, effect)?;
        self.go_on()
    }

    /// Takes note of a second in the record alone, once it ended. Without memory it is as it was.
    pub(crate) fn note(&mut self, now: u64) -> Result<(), AllocError>
        ensures ok { OnOk result
            (self.new ≡ with_record self.old (after_tick now self.old.requests)) }
        ensures err { OnErr result (self.new ≡ self.old) }
        ensures right { IsCourse self.new }
    {
        self.requests.tick(now)?;
        Ok(())
    }

    /// Takes note of a second while it runs.
    pub(crate) fn pass(&mut self, now: u64) -> Result<(), AllocError>
        requires runs { self.old.status ≡ UploadStatus.Running }
        requires can { CanGoOn self.old }
        ensures ok { OnOk result (TicksOn now self.old self.new) }
        ensures err { OnErr result ((self.new ≡ self.old)
            ⊎ Stops (after_tick now self.old.requests) self.old self.new) }
        ensures goal { self.new.goal ≡ self.old.goal }
    {
        let lost = self.requests.tick(now)?;
        if lost.is_empty() {
            return Ok(());
        }
        self.follow_lost(&lost)?;
        self.go_on()
    }

    /// The message of the first request to send, which is not to be sent any more.
    pub(crate) fn send(&mut self, position: usize, body: Body) -> Message
        requires first { first_to_send self.old ≡ Some position }
        requires there { position < length self.old.requests.entries }
        ensures message { result ≡ message_at position body self.old.requests }
        ensures sent { self.new ≡ with_record self.old (one_sent self.old.requests) }
    {
        let message = self.requests.message_at(position, body);
        self.requests.take_next();
        message
    }

    // Asks what follows the loss of the requests at these positions.
    fn follow_lost(&mut self, positions: &[usize]) -> Result<(), AllocError>
        requires lost { All (IsLostAt self.old.requests.entries) positions.now }
        requires passed { All (IsPassed self.old.goal self.old.requests.entries) positions.now }
        ensures ok { OnOk result (self.new ≡ with_record self.old
            (followed_all self.old.goal positions.now self.old.requests)) }
        ensures err { OnErr result (Stops self.old.requests self.old self.new) }
        ensures goal { self.new.goal ≡ self.old.goal }
    {
        for position in positions {
            self.follow_loss(*position)?;
        }
        Ok(())
    }

    /// Waits where a request is outstanding, and else places shares or ends.
    pub(crate) fn go_on(&mut self) -> Result<(), AllocError>
        requires { AreFollowed self.old.goal self.old.requests.entries }
        ensures ok { OnOk result (GoesOn self.old self.old.requests self.new) }
        ensures err { OnErr result (Stops self.old.requests self.old self.new) }
        ensures goal { self.new.goal ≡ self.old.goal }
    {
        if self.requests.outstanding() > 0 {
            return Ok(());
        }
        let alloc = *self.servers.allocator();
        let acked = acked_pairs(alloc, &self.goal, self.requests.kept_since(0))?;
        self.place_or_end(alloc, &acked)
    }

    // Places shares, or ends with a largest matching of these pairs, which are acknowledged. None
    // is made before the first placing.
    fn place_or_end(&mut self, alloc: Global, acked: &[(NodeId, u16)]) -> Result<(), AllocError>
        requires acked { acked.now ≡ acked_pairs self.old.goal self.old.requests.entries }
        requires settled { IsSettled self.old.requests.entries }
        requires followed { AreFollowed self.old.goal self.old.requests.entries }
        ensures ok { OnOk result (GoesOn self.old self.old.requests self.new) }
        ensures err { OnErr result (Stops self.old.requests self.old self.new) }
        ensures goal { self.new.goal ≡ self.old.goal }
    {
        if self.round > 0 {
            let matching = largest(alloc, acked)?;
            if !self.is_to_place_again(matching.pairs.len()) {
                self.end(matching);
                return Ok(());
            }
        }
        let transfers = self.placing(alloc, acked)?;
        if !transfers.is_empty() {
            return self.begin_round(&transfers);
        }
        self.end(largest(alloc, acked)?);
        Ok(())
    }

    // The pairs that are to be transferred.
    fn placing(
        &self,
        alloc: Global,
        acked: &[(NodeId, u16)],
    ) -> Result<Vec<(NodeId, u16)>, AllocError>
        requires acked { acked.now ≡ acked_pairs self.now.goal self.now.requests.entries }
        requires settled { IsSettled self.now.requests.entries }
        requires followed { AreFollowed self.now.goal self.now.requests.entries }
        ensures placing { IfOk result
            (λ pairs. Places self.now.goal self.now.requests.entries pairs.items) }
        ensures may { IfOk result (λ pairs. All (MayPlace self.now) pairs.items) }
        ensures once { IfOk result (λ pairs. IsDistinct nat_eq (shares_of pairs.items)) }
    {
        let servers = servers_of(alloc, &self.goal, self.requests.kept_since(0))?;
        let count = self.goal.share_count() as u16;
        let plan = place(alloc, &servers.readonly, &servers.writable, acked, count)?;
        let mut pairs = plan.m3;
        pairs.extend_from_slice(&plan.leftovers)?;
        Ok(pairs)
    }

    // Begins the transfer of each pair.
    fn begin_round(&mut self, pairs: &[(NodeId, u16)]) -> Result<(), AllocError>
        requires may { All (MayPlace self.old) pairs.now }
        requires once { IsDistinct nat_eq (shares_of pairs.now) }
        ensures ok { OnOk result (self.new ≡ record self.old {
          requests = asked_all (transfers self.old.goal pairs.now) self.old.requests;
          round = length self.old.requests.entries;
        }) }
        ensures err { OnErr result (Stops self.old.requests self.old self.new) }
        ensures goal { self.new.goal ≡ self.old.goal }
    {
        self.round = self.requests.len();
        allocate(&mut self.requests, pairs, self.goal.share_length())
    }
}

// Asks for room for each pair's share, or for the first of them where memory ends.
fn allocate(
    requests: &mut Ledger,
    pairs: &[(NodeId, u16)],
    length: ShareLength,
) -> Result<(), AllocError>
    requires { All (λ pair. pair.1 < 256) pairs.now }
    ensures ok { OnOk result
        (requests.new ≡ asked_all (allocations length pairs.now) requests.old) }
    ensures some { (k : ℕ)
        × (requests.new ≡ asked_all (allocations length (take k pairs.now)) requests.old) }
{
    for &(server, share) in pairs {
        requests.ask(server, Asked::Allocation(share as u8, length))?;
    }
    Ok(())
}
