//! The record of what one operation asked of servers, in which no bytes of shares are kept.

ghost use Rattle.std.specs.Prelude.{◌≡◌, ◌<◌, ◌↔◌, length, slice_get, option_map};
ghost use Rattle.std.specs.Prelude.{IfOk, IfSome, IsTrue, OnOk, OnErr, All, Some, map, drop};
ghost use Rattle.request_record.specs.Record.{at, asked_more, counts_at, IsRecord, TakesNext};
ghost use Rattle.request_record.specs.Record.{outstanding_count};
ghost use Rattle.request_record.specs.Asking.{fresh, begun, after_message, after_tick};
ghost use Rattle.request_record.specs.Asking.{lost_by_tick, HasWork, SendsFirst, message_at};
ghost use Rattle.request_record.specs.Kept.{data_in};
ghost use Rattle.request_record.specs.Written.{kept, kept_of, IsKeptAt};

use crate::entries::{Entries, Entry};
use crate::kept::Kept;
use crate::positions::{drop_lost, sent_to, unqueue};
use crate::requests::{Asked, Outcome, Request};
use std::alloc::{AllocError, Global};
use std::collections::VecDeque;
use std::marker::Model;
use wire::message::{Body, Message, NodeId, StorageIndex};

/// An answer that counted: the position of its request and, where it is a `Data`, its bytes.
#[derive(Drop)]
pub struct Counted {
    pub position: usize,
    pub bytes: Option<Vec<u8>>,
}

/// The record of one operation: what it asked in order, and which requests are still to be sent. It
/// keeps no bytes of shares, and lets each `Writing` go that was written: only contracts see it
/// from then on.
///
/// A request is found by halving among those in memory. Beyond that a message costs nothing, but
/// where its request was sent again or was not yet sent: then what is to send; and where its
/// request is let go: then what is in memory of those asked after it. A tick costs what is in
/// memory since the first request that still waits, and what is to send. None of them grows with
/// all that was asked.
#[derive(Drop)]
pub struct Ledger {
    session: u64,
    entries: Entries,
    outgoing: VecDeque<usize>,
    clock: u64,
    /// How many requests wait for their answers.
    outstanding: usize,
    /// No request before this position waits for its answer.
    settled: usize,
    /// Before this position only requests that were sent again are to send.
    sent: usize,
}

impl Model for Ledger {
    ghost use Rattle.std.specs.Prelude.{◌≡◌};
    ghost use Rattle.request_record.specs.Record.{RequestsState, IsRecord, IsIndexed};
    ghost use Rattle.request_record.specs.Record.{requests_state};

    ghost Value = { RequestsState };

    ghost view = { λ r. requests_state r.session r.entries r.outgoing.items r.clock };

    ghost invariant = { λ r.
        IsRecord (requests_state r.session r.entries r.outgoing.items r.clock)
        × IsIndexed r.outstanding r.settled r.sent r.entries r.outgoing.items };
}

impl Ledger {
    /// The record of an operation that asked nothing yet.
    pub fn new(alloc: Global, session: u64, now: u64) -> Ledger
        ensures { result ≡ fresh session now }
    {
        Ledger {
            session,
            entries: Entries::new(alloc),
            outgoing: VecDeque::new(alloc),
            clock: now,
            outstanding: 0,
            settled: 0,
            sent: 0,
        }
    }

    /// The record of an operation that asks each of these servers which shares it holds.
    pub fn begin(
        alloc: Global,
        servers: &[NodeId],
        session: u64,
        now: u64,
    ) -> Result<Ledger, AllocError>
        ensures { IfOk result (λ r. r ≡ begun servers.now session now) }
    {
        let mut ledger = Ledger::new(alloc, session, now);
        for server in servers {
            ledger.ask(*server, Asked::Holdings)?;
        }
        Ok(ledger)
    }

    /// The operation's session.
    pub fn session(&self) -> u64
        ensures { result ≡ self.now.session }
    {
        self.session
    }

    /// The latest second that the operation was told.
    pub fn clock(&self) -> u64
        ensures { result ≡ self.now.clock }
    {
        self.clock
    }

    /// How many requests were asked: request `n` is at position `n - 1`.
    pub fn len(&self) -> usize
        ensures value { result ≡ length self.now.entries }
        ensures right { IsRecord self.now }
    {
        self.entries.len()
    }

    /// The request at a position, while it is in memory: what was written is not.
    pub fn request_at(&self, position: usize) -> Option<&Request>
        ensures { option_map (λ r. r.now) result ≡ kept (slice_get self.now.entries position) }
    {
        self.entries.get(position)
    }

    /// The request at a position, which is in memory.
    pub fn request(&self, position: usize) -> &Request
        requires { IsKeptAt self.now.entries position }
        ensures { slice_get self.now.entries position ≡ Some result.now }
    {
        self.entries.request(position)
    }

    /// The requests from a position on that are in memory, in order: all but those that were
    /// written.
    pub fn kept_since(&self, position: usize) -> &[Entry]
        ensures { map (λ e. e.request) result.now ≡ kept_of (drop position self.now.entries) }
    {
        self.entries.kept_since(position)
    }

    /// Records a request, and puts it at the end of those to send.
    pub fn ask(&mut self, server: NodeId, asked: Asked) -> Result<(), AllocError>
        ensures ok { OnOk result (self.new ≡ asked_more server asked self.old) }
        ensures err { OnErr result (self.new ≡ self.old) }
    {
        let position = self.entries.len();
        let request = Request::new(server, asked, self.clock);
        let waiting = usize::from(request.is_outstanding());
        self.outgoing.reserve(1)?;
        self.entries.push(request)?;
        self.outgoing.push_back_reserved(position);
        self.outstanding += waiting;
        Ok(())
    }

    /// The position of the request that a message from a server answers, where the answer counts.
    pub fn counts_at(&self, from: NodeId, message: &Message) -> Option<usize>
        ensures value { result ≡ counts_at from message.now self.now }
        ensures there { IfSome result (λ position. position < length self.now.entries) }
    {
        if message.session != self.session || message.number == 0 {
            return None;
        }
        let position = (message.number - 1) as usize;
        match self.entries.get(position) {
            Some(request) if request.awaits(from, &message.body) => Some(position),
            _ => None,
        }
    }

    /// Takes note of the time.
    pub fn pass(&mut self, now: u64)
        ensures { self.new ≡ at now self.old }
    {
        self.clock = self.clock.max(now);
    }

    /// Takes a message from a server over: keeps it where it answers a request and counts, and says
    /// at which position. The bytes of a `Data` are handed back, with no copy, and are not kept.
    /// The request is not sent any more.
    pub fn take_answer(&mut self, from: NodeId, message: Message, now: u64) -> Option<Counted>
        ensures position { option_map (λ c. c.position) result ≡ counts_at from message self.old }
        ensures bytes { IfSome result (λ c. option_map (λ v. v.items) c.bytes
            ≡ data_in message.body) }
        ensures record { self.new ≡ after_message from message now self.old }
    {
        let Some(position) = self.counts_at(from, &message) else {
            self.pass(now);
            return None;
        };
        unqueue(&mut self.outgoing, &self.entries, self.sent, position);
        let (kept, bytes) = Kept::of(message.body);
        self.entries.settle(position, Outcome::Answered(kept));
        self.outstanding -= 1;
        self.clock = self.clock.max(now);
        Some(Counted { position, bytes })
    }

    /// Takes note of a tick: a request that is due is sent again, one that is 20 seconds old is
    /// lost, and not sent any more. Gives the positions of those that it finds lost.
    pub fn tick(&mut self, now: u64) -> Result<Vec<usize>, AllocError>
        ensures lost { IfOk result (λ positions. positions.items ≡ lost_by_tick now self.old) }
        ensures ok { OnOk result (self.new ≡ after_tick now self.old) }
        ensures err { OnErr result (self.new ≡ self.old) }
        ensures kept { IfOk result (λ positions. All (IsKeptAt self.new.entries) positions.items) }
    {
        let now = self.clock.max(now);
        let mut resent = self.entries.find_resent(self.settled, now)?;
        let lost = self.entries.find_lost(self.settled, now)?;
        self.outgoing.append(&mut resent)?;
        drop_lost(&mut self.outgoing, &self.entries, now);
        self.entries.tick(self.settled, now);
        self.settled = self.entries.first_waiting(self.settled);
        self.outstanding -= lost.len();
        self.clock = now;
        Ok(lost)
    }

    /// How many requests wait for their answers.
    pub fn outstanding(&self) -> usize
        ensures { result ≡ outstanding_count self.now.entries }
    {
        self.outstanding
    }

    /// Does a request wait for its answer, or is one to be sent?
    pub fn has_work(&self) -> bool
        ensures { IsTrue result ↔ HasWork self.now }
    {
        0 < self.outstanding || 0 < self.outgoing.len()
    }

    /// The position of the first request to send.
    pub fn first(&self) -> Option<usize>
        ensures value { result ≡ slice_get self.now.outgoing 0 }
        ensures there { IfSome result (λ position. position < length self.now.entries) }
        ensures kept { IfSome result (IsKeptAt self.now.entries) }
    {
        self.outgoing.front().copied()
    }

    /// Takes the first of the requests to send.
    pub fn take_next(&mut self) -> Option<usize>
        ensures { TakesNext self.old result self.new }
    {
        let position = self.outgoing.pop_front()?;
        self.sent = sent_to(&self.entries, position, self.sent);
        Some(position)
    }

    /// Sends the first request to send, for the file of this storage index: gives the server that
    /// it asks, and its message. `None`, and nothing is sent, where there is none to send, or where
    /// it is a `Writing`.
    pub fn send_next(&mut self, index: StorageIndex) -> Option<(NodeId, Message)>
        ensures { SendsFirst index self.old result self.new }
    {
        let position = self.first()?;
        let request = self.request(position);
        let server = request.server;
        let body = request.asked.body(index)?;
        let message = self.message_at(position, body);
        self.take_next();
        Some((server, message))
    }

    /// How many requests are to send.
    pub fn outgoing_len(&self) -> usize
        ensures { result ≡ length self.now.outgoing }
    {
        self.outgoing.len()
    }

    /// The message of the request at a position, which says this.
    pub fn message_at(&self, position: usize, body: Body) -> Message
        requires { position < length self.now.entries }
        ensures { result ≡ message_at position body self.now }
    {
        let _len = self.entries.len();
        Message {
            session: self.session,
            number: position as u64 + 1,
            body,
        }
    }
}
