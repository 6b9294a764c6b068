//! A check of a file's shares by its verify cap.

ghost use Rattle.std.specs.Prelude.{◌≡◌, ◌≢◌, ◌↔◌, ◌⊎◌, [], None, IfOk, IfSome, IsOk, OnErr, OnOk};
ghost use Rattle.std.specs.Prelude.{false, is_some, map, nat_eq, true};
ghost use Rattle.std.specs.List.{IsDistinct};
ghost use Rattle.request_record.specs.Asking.{after_message};
ghost use Rattle.request_record.specs.Follow.{Follows, IsSaid, Nothing};
ghost use Rattle.checker.specs.Calls.{GivesUp, check_calls};
ghost use Rattle.checker.specs.Good.{AreGoodShares};
ghost use Rattle.checker.specs.Moves.{Advances, Begins, Stops, StopsAt, TicksOn};
ghost use Rattle.checker.specs.Report.{IsReport};
ghost use Rattle.checker.specs.Right.{IsRight};
ghost use Rattle.checker.specs.Sending.{Takes, first_to_send};
ghost use Rattle.checker.specs.declared.status.CheckStatus.TheVariants.{Done, Failed, Running};

use crate::good::good_shares_of;
use crate::report::report_of;
use crate::state::{Machine, is_running};
use crate::status::{CheckStatus, Report};
use crate::wanted::MOST_PIECES;
use cap_text::VerifyCap;
use request_record::operation::Operation;
use std::alloc::{AllocError, Global};
use std::marker::Model;
use wire::message::{Message, NodeId};

/// A check of the shares that servers offer of one file.
///
/// Its record keeps each answer but for the bytes of shares: these are judged as they come. A check
/// that is begun by `start_keeping` keeps those of the shares too.
#[derive(Drop)]
pub struct Check {
    servers: Vec<NodeId>,
    machine: Machine,
    status: CheckStatus,
}

impl Model for Check {
    ghost use Rattle.checker.specs.State.{CheckState};
    ghost use Rattle.checker.specs.Book.{AsksItsOwn, IsKept, state_of};

    ghost Value = { CheckState };

    ghost view = { λ c. state_of c.machine c.servers.items c.status };

    ghost invariant = { λ c. IsKept c.machine c.status
        × AsksItsOwn c.servers.items c.machine.requests.entries };
}

impl Check {
    /// Asks each of the servers which shares it holds. Without servers the check is done at once.
    /// The servers are of distinct nodes. It keeps no bytes of shares.
    pub fn start(
        alloc: Global,
        cap: VerifyCap,
        servers: &[NodeId],
        session: u64,
        now: u64,
    ) -> Result<Check, AllocError>
        requires distinct { IsDistinct nat_eq servers.now }
        ensures begins { IfOk result (Begins cap servers.now session now) }
        ensures keeps { IfOk result (λ check. check.keeps ≡ false) }
    {
        Check::begin(alloc, cap, servers, session, now, false, 1)
    }

    /// As `start`, and it asks for so many pieces of a share at once: `MOST_PIECES` at most, one
    /// at least. Their bytes are kept until their turn comes.
    pub fn start_ahead(
        alloc: Global,
        cap: VerifyCap,
        servers: &[NodeId],
        session: u64,
        now: u64,
        pieces: usize,
    ) -> Result<Check, AllocError>
        requires distinct { IsDistinct nat_eq servers.now }
        ensures begins { IfOk result (Begins cap servers.now session now) }
        ensures keeps { IfOk result (λ check. check.keeps ≡ false) }
    {
        let ahead = pieces.min(MOST_PIECES);
        Check::begin(alloc, cap, servers, session, now, false, ahead)
    }

    /// As `start`, and it keeps the bytes of the shares that it reads, but for those of a share
    /// that it finds not to be good: `good_shares` hands them out.
    pub fn start_keeping(
        alloc: Global,
        cap: VerifyCap,
        servers: &[NodeId],
        session: u64,
        now: u64,
    ) -> Result<Check, AllocError>
        requires distinct { IsDistinct nat_eq servers.now }
        ensures begins { IfOk result (Begins cap servers.now session now) }
        ensures keeps { IfOk result (λ check. check.keeps ≡ true) }
    {
        Check::begin(alloc, cap, servers, session, now, true, 1)
    }

    // As `start`, of a check that keeps the bytes of shares or not, and asks for so many pieces of
    // a share at once.
    fn begin(
        alloc: Global,
        cap: VerifyCap,
        servers: &[NodeId],
        session: u64,
        now: u64,
        keeps: bool,
        ahead: usize,
    ) -> Result<Check, AllocError>
        requires distinct { IsDistinct nat_eq servers.now }
        ensures begins { IfOk result (Begins cap servers.now session now) }
        ensures keeps { IfOk result (λ check. check.keeps ≡ keeps) }
    {
        let machine = Machine::begin(alloc, cap, servers, session, now, keeps, ahead)?;
        Ok(Check {
            servers: Vec::from_slice(alloc, servers)?,
            machine,
            status: first_status(servers),
        })
    }

    /// Where it stands. While it runs a request is outstanding, and once it is done none is. No
    /// server is asked the same thing twice, nor for a byte of a share twice, nor anything else but
    /// which shares it holds, and bytes of those that it offered. Only the check's own servers are
    /// asked which shares they hold, and no request is sent more than four times.
    pub fn status(&self) -> CheckStatus
        ensures value { result ≡ self.now.status }
        ensures right { IsRight self.now }
    {
        let _ = self.machine.requests.len();
        self.status
    }

    /// The verify cap.
    pub fn cap(&self) -> &VerifyCap
        ensures { result.now ≡ self.now.cap }
    {
        &self.machine.cap
    }

    /// Is there a message to send?
    pub fn has_outgoing(&self) -> bool
        ensures { result ≡ is_some (first_to_send self.now) }
    {
        self.machine.requests.first().is_some()
    }

    /// What the check found, once it is done; `None` before, and where it failed.
    pub fn report(&self, alloc: Global) -> Result<Option<Report>, AllocError>
        ensures report { IfOk result (λ told. IfSome told
            (IsReport self.now.cap self.now.requests.entries)) }
        ensures none { IfOk result (λ told. (told ≡ None) ↔ (self.now.status ≢ Done)) }
    {
        match self.status {
            CheckStatus::Done => Ok(Some(report_of(alloc, &self.machine)?)),
            CheckStatus::Running | CheckStatus::Failed => Ok(None),
        }
    }

    /// The good shares that it found, once it is done: of the lowest numbers that have one, as many
    /// as are needed or as there are, each number with the bytes of its share. `None` before, and
    /// where it failed.
    pub fn good_shares(&self, alloc: Global) -> Result<Option<Vec<(u16, Vec<u8>)>>, AllocError>
        ensures good { IfOk result (λ told. IfSome told (λ l. AreGoodShares self.now.cap
            self.now.requests.entries (map (λ s. s.0) l.items)
            (map (λ s. s.1.items) l.items))) }
        ensures none { IfOk result (λ told. (told ≡ None)
            ↔ ((self.now.status ≢ Done) ⊎ (self.now.keeps ≡ false))) }
    {
        if !self.machine.keeps {
            return Ok(None);
        }
        match self.status {
            CheckStatus::Done => Ok(Some(good_shares_of(alloc, &self.machine)?)),
            CheckStatus::Running | CheckStatus::Failed => Ok(None),
        }
    }
}

impl Operation for Check {
    ghost calls = { check_calls };

    fn is_running(&self) -> bool {
        is_running(self.status)
    }

    /// It needs no memory.
    fn take_outgoing(&mut self, _alloc: Global) -> Result<Option<(NodeId, Message)>, AllocError>
        ensures ok { IfOk result (λ taken. Takes self.old taken self.new) }
        ensures err { OnErr result (GivesUp self.old self.new) }
        ensures follows { Follows Nothing self.old.requests self.new.requests }
        ensures never_fails { IsOk result }
    {
        Ok(self.machine.take_outgoing())
    }

    /// On an `Err`, which only one that runs gives, it has failed; the record goes on all the same.
    fn on_message(&mut self, from: NodeId, message: Message, now: u64) -> Result<(), AllocError>
        ensures ok { OnOk result (Advances from message now self.old self.new) }
        ensures err { OnErr result (GivesUp self.old self.new) }
        ensures follows { Follows (IsSaid from message self.old.requests.session)
            self.old.requests self.new.requests }
        ensures fails { OnErr result (self.new.status ≡ Failed) }
        ensures stops { OnErr result
            (Stops (after_message from message now self.old.requests) self.old self.new) }
        ensures ended { self.old.status ≢ Running → IsOk result }
    {
        match self.machine.hear(self.status, from, message, now) {
            Ok(status) => {
                self.status = status;
                Ok(())
            }
            Err(error) => {
                self.status = CheckStatus::Failed;
                Err(error)
            }
        }
    }

    /// On an `Err` one that ran has failed; one that ended is as it was.
    fn tick(&mut self, now: u64) -> Result<(), AllocError>
        ensures ok { OnOk result (TicksOn now self.old self.new) }
        ensures err { OnErr result (GivesUp self.old self.new) }
        ensures follows { Follows Nothing self.old.requests self.new.requests }
        ensures stops { OnErr result (StopsAt now self.old self.new) }
    {
        if !is_running(self.status) {
            return self.machine.note(now);
        }
        match self.machine.pass(now) {
            Ok(status) => {
                self.status = status;
                Ok(())
            }
            Err(error) => {
                self.status = CheckStatus::Failed;
                Err(error)
            }
        }
    }
}

// Where a check stands that begins.
fn first_status(servers: &[NodeId]) -> CheckStatus
    ensures runs { servers.now ≢ [] → result ≡ Running }
    ensures alone { servers.now ≡ [] → result ≡ Done }
{
    if servers.is_empty() {
        CheckStatus::Done
    } else {
        CheckStatus::Running
    }
}
