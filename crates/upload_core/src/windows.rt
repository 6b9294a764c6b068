//! What follows an answer or a loss in the course of an upload.

ghost use Rattle.std.specs.Prelude.{◌≡◌, ◌<◌, ◌&&◌, ◌==◌, ℕ, IfSome, OnErr, OnOk, take};
ghost use Rattle.std.specs.Prelude.{option_to_list};
ghost use Rattle.request_record.specs.Record.{asked_all};
ghost use Rattle.request_record.specs.Written.{IsKeptAt};
ghost use Rattle.upload_core.specs.Course.{IsCourse};
ghost use Rattle.upload_core.specs.Moves.{Stops, asks_of_server, followed_at, heard_at, is_early};
ghost use Rattle.upload_core.specs.State.{with_record};
ghost use Rattle.upload_core.specs.Trails.{IsLostAt, IsPassed};
ghost use Rattle.upload_core.specs.Transfers.{asked_after, carried_on, is_given_up, on_piece};
ghost use Rattle.upload_core.specs.Transfers.{pieces_from, waits_before};

use crate::state::Course;
use crate::status::UploadGoal;
use crate::trails;
use crate::transfers::{Effect, MAX_PIECE, given_up, next_of, piece_at, sent_from};
use request_record::ledger::Ledger;
use request_record::requests::Asked;
use std::alloc::AllocError;
use wire::message::{Message, NodeId};

impl Course {
    /// The position of the request that a message from a server answers, where the answer counts
    /// and is in its turn.
    pub(crate) fn heard_at(&self, from: NodeId, message: &Message) -> Option<usize>
        ensures value { result ≡ heard_at from message.now self.now.requests }
        ensures kept { IfSome result (IsKeptAt self.now.requests.entries) }
    {
        let position = self.requests.counts_at(from, message)?;
        let request = self.requests.request(position);
        if self.is_early(request.server, &request.asked) {
            None
        } else {
            Some(position)
        }
    }

    /// Asks what follows the loss of the request at a position.
    pub(crate) fn follow_loss(&mut self, position: usize) -> Result<(), AllocError>
        requires lost { IsLostAt self.old.requests.entries position }
        requires passed { IsPassed self.old.goal self.old.requests.entries position }
        ensures ok { OnOk result (self.new
            ≡ with_record self.old (followed_at self.old.goal position self.old.requests)) }
        ensures err { OnErr result (Stops self.old.requests self.old self.new) }
        ensures goal { self.new.goal ≡ self.old.goal }
    {
        let request = self.requests.request(position);
        let (server, asked) = (request.server, request.asked);
        self.follow(server, &asked, Effect::Fails)
    }

    /// Asks of a server what follows its answer to such a request, or the loss of it, by what that
    /// does to the transfer. Without memory a beginning of it is asked.
    pub(crate) fn follow(
        &mut self,
        server: NodeId,
        asked: &Asked,
        effect: Effect,
    ) -> Result<(), AllocError>
        requires { (k : ℕ) → IsCourse (with_record self.old (asked_all
            (asks_of_server server (take k (asked_after self.old.goal self.old.requests.entries
            server asked.now effect))) self.old.requests)) }
        ensures ok { OnOk result (self.new ≡ with_record self.old (asked_all
            (asks_of_server server (asked_after self.old.goal self.old.requests.entries server
            asked.now effect)) self.old.requests)) }
        ensures err { OnErr result (Stops self.old.requests self.old self.new) }
        ensures goal { self.new.goal ≡ self.old.goal }
    {
        if effect.fails() {
            return self.give_up(server, asked);
        }
        if effect.carries() {
            return self.carry_on(server, asked);
        }
        Ok(())
    }

    // Gives the transfer of such a request to a server up, where that was not done.
    fn give_up(&mut self, server: NodeId, asked: &Asked) -> Result<(), AllocError>
        requires { (k : ℕ) → IsCourse (with_record self.old (asked_all
            (asks_of_server server (take k (asked_after self.old.goal self.old.requests.entries
            server asked.now Effect.Fails))) self.old.requests)) }
        ensures ok { OnOk result (self.new ≡ with_record self.old (asked_all
            (asks_of_server server (asked_after self.old.goal self.old.requests.entries server
            asked.now Effect.Fails)) self.old.requests)) }
        ensures err { OnErr result (Stops self.old.requests self.old self.new) }
        ensures goal { self.new.goal ≡ self.old.goal }
    {
        if self.is_given_up(server, asked) {
            return Ok(());
        }
        self.ask_next(server, given_up(asked))
    }

    // Goes on with the transfer of such a request to a server, where it was not given up.
    fn carry_on(&mut self, server: NodeId, asked: &Asked) -> Result<(), AllocError>
        requires { (k : ℕ) → IsCourse (with_record self.old (asked_all
            (asks_of_server server (take k (asked_after self.old.goal self.old.requests.entries
            server asked.now Effect.Carries))) self.old.requests)) }
        ensures ok { OnOk result (self.new ≡ with_record self.old (asked_all
            (asks_of_server server (asked_after self.old.goal self.old.requests.entries server
            asked.now Effect.Carries)) self.old.requests)) }
        ensures err { OnErr result (Stops self.old.requests self.old self.new) }
        ensures goal { self.new.goal ≡ self.old.goal }
    {
        if self.is_given_up(server, asked) {
            return Ok(());
        }
        self.ask_more(server, asked)
    }

    // Asks of a server what an answer to such a request carries on to.
    fn ask_more(&mut self, server: NodeId, asked: &Asked) -> Result<(), AllocError>
        requires { (k : ℕ) → IsCourse (with_record self.old (asked_all
            (asks_of_server server (take k (carried_on self.old.goal self.old.requests.entries
            server asked.now))) self.old.requests)) }
        ensures ok { OnOk result (self.new ≡ with_record self.old (asked_all
            (asks_of_server server (carried_on self.old.goal self.old.requests.entries server
            asked.now)) self.old.requests)) }
        ensures err { OnErr result (Stops self.old.requests self.old self.new) }
        ensures goal { self.new.goal ≡ self.old.goal }
    {
        match asked {
            Asked::Allocation(share, _) => {
                ask_pieces(&mut self.requests, &self.goal, server, *share)
            }
            Asked::Writing(share, offset, _) => {
                let next = self.next_after(server, *share, *offset);
                self.ask_next(server, next)
            }
            _ => Ok(()),
        }
    }

    // What the answer to the piece at an offset carries on to.
    fn next_after(&self, server: NodeId, share: u8, offset: u64) -> Option<Asked>
        ensures { option_to_list result
            ≡ on_piece self.now.goal self.now.requests.entries server share offset }
    {
        let sent = sent_from(&self.goal, offset);
        if self.waits_whole(server, share, sent) {
            None
        } else {
            Some(next_of(&self.goal, share, sent))
        }
    }

    // Was a share sent whole to a server, and does a piece of it wait?
    fn waits_whole(&self, server: NodeId, share: u8, sent: u64) -> bool
        ensures { result ≡ (sent == self.now.goal.share_length)
            && waits_before self.now.requests.entries server share self.now.goal.share_length }
    {
        let length = self.goal.share_length().get();
        sent == length && self.waits_before(server, share, length)
    }

    // Does a piece of this share that begins before an offset wait for its answer from a server?
    fn waits_before(&self, server: NodeId, share: u8, end: u64) -> bool
        ensures { result ≡ waits_before self.now.requests.entries server share end }
    {
        trails::waits_before(self.requests.kept_since(0), server, share, end)
    }

    // Does a piece before that of a request to this server wait, in the same transfer?
    fn is_early(&self, server: NodeId, asked: &Asked) -> bool
        ensures { result ≡ is_early self.now.requests.entries server asked.now }
    {
        match asked {
            Asked::Writing(share, offset, _) => self.waits_before(server, *share, *offset),
            _ => false,
        }
    }

    // Was the transfer of such a request to a server given up?
    fn is_given_up(&self, server: NodeId, asked: &Asked) -> bool
        ensures { result ≡ is_given_up self.now.requests.entries server asked.now }
    {
        trails::is_given_up(self.requests.kept_since(0), server, asked)
    }

    // Asks this of a server, if anything.
    fn ask_next(&mut self, server: NodeId, next: Option<Asked>) -> Result<(), AllocError>
        requires { IsCourse (with_record self.old (asked_all
            (asks_of_server server (option_to_list next)) self.old.requests)) }
        ensures ok { OnOk result (self.new ≡ with_record self.old (asked_all
            (asks_of_server server (option_to_list next)) self.old.requests)) }
        ensures err { OnErr result (Stops self.old.requests self.old self.new) }
        ensures goal { self.new.goal ≡ self.old.goal }
    {
        match next {
            Some(asked) => self.requests.ask(server, asked),
            None => Ok(()),
        }
    }
}

// Asks for the first pieces of a share to be written, or for the first of them where memory ends.
fn ask_pieces(
    requests: &mut Ledger,
    goal: &UploadGoal,
    server: NodeId,
    share: u8,
) -> Result<(), AllocError>
    ensures ok { OnOk result (requests.new ≡ asked_all (asks_of_server server
        (pieces_from goal.now goal.now.ahead share 0)) requests.old) }
    ensures some { (k : ℕ) × (requests.new ≡ asked_all (asks_of_server server
        (take k (pieces_from goal.now goal.now.ahead share 0))) requests.old) }
{
    let length = goal.share_length().get();
    for index in 0..goal.ahead() {
        let sent = length.min(u64::from(index) * MAX_PIECE);
        ask_piece(requests, goal, server, share, sent)?;
    }
    Ok(())
}

// Asks for the piece of a share from an offset on to be written, where there is one.
fn ask_piece(
    requests: &mut Ledger,
    goal: &UploadGoal,
    server: NodeId,
    share: u8,
    offset: u64,
) -> Result<(), AllocError>
    ensures ok { OnOk result (requests.new ≡ asked_all (asks_of_server server
        (pieces_from goal.now 1 share offset)) requests.old) }
    ensures err { OnErr result (requests.new ≡ requests.old) }
{
    if offset == goal.share_length().get() {
        return Ok(());
    }
    requests.ask(server, piece_at(goal, share, offset))
}
