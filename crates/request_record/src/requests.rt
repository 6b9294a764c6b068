//! What one operation asks of servers, what becomes of it, and the record that keeps all answers.

ghost use Rattle.std.specs.Prelude.{◌≡◌, ◌≤◌, ◌<◌, ◌↔◌, ℕ, List, length, slice_get};
ghost use Rattle.std.specs.Prelude.{IfOk, IfSome, IfNone, IsTrue, OnOk, OnErr, All, Some, map};
ghost use Rattle.std.specs.Prelude.{option_map};
ghost use Rattle.request_record.specs.Record.{is_outstanding, fits, first_request, awaits, age_of};
ghost use Rattle.request_record.specs.Record.{passed, is_lost_at, is_resent_at, ticked_one};
ghost use Rattle.request_record.specs.Record.{was_sent_again, IsSentFew, IsRecord, TakesNext};
ghost use Rattle.request_record.specs.Record.{counts_at, asked_more, outstanding_count};
ghost use Rattle.request_record.specs.Asking.{fresh, begun, after_message, after_tick};
ghost use Rattle.request_record.specs.Asking.{lost_by_tick, HasWork};
ghost use Rattle.request_record.specs.Asking.{SendsFirst, Spells, IsWriting, message_at};
ghost use Rattle.request_record.specs.Kept.{IsDataAt};
ghost use Rattle.request_record.specs.Written.{is_written, kept, IsKeptAt};

use crate::kept::Kept;
use crate::ledger::{Counted, Ledger};
use std::alloc::{AllocError, Global};
use std::marker::Model;
use wire::message::{Body, Message, NodeId, ReadLength, ShareId, ShareLength, StorageIndex};

/// Seconds between the marks at which an unanswered request is sent again.
const MARK: u64 = 5;

/// How many marks there are.
const MARKS: u64 = 3;

/// The age in seconds at which an unanswered request is lost.
const LOST_AGE: u64 = 20;

/// What a request asks, of which share. The operation's file is known to it; the bytes of a
/// `Writing` are those of the share, and are not kept.
#[derive(Clone, Copy, PartialEq, Eq)]
pub enum Asked {
    /// Which shares the server holds.
    Holdings,
    /// Room for a share of this length.
    Allocation(u8, ShareLength),
    /// To write the bytes from an offset on, as many as this.
    Writing(u8, u64, u32),
    /// To keep a share that was written whole.
    Closing(u8),
    /// The bytes from an offset on, as many as this.
    Reading(u8, u64, ReadLength),
    /// To give a share up.
    Aborting(u8),
}

/// What became of a request.
#[derive(Drop)]
pub enum Outcome {
    /// No answer is waited for: it is an `Aborting`.
    Unawaited,
    /// It waits for its answer.
    Outstanding,
    /// This is the answer that counted.
    Answered(Kept),
    /// No answer came for 20 seconds.
    Lost,
}

/// One request. Its number is its position in the record, counted from 1.
#[derive(Drop)]
pub struct Request {
    /// The server asked.
    pub server: NodeId,
    /// How often it was sent.
    pub sendings: u8,
    /// How many of the marks 5, 10 and 15 seconds its sendings have used up.
    pub marks: u8,
    pub asked: Asked,
    /// The second at which it was first sent.
    pub first_sent: u64,
    pub outcome: Outcome,
}

impl Asked {
    /// Is this a kind of answer that fits?
    pub fn fits(self, body: &Body) -> bool
        ensures { result ≡ fits self body.now }
    {
        match self {
            Asked::Holdings => matches!(body, Body::Have(_, _)),
            Asked::Allocation(_, _) => matches!(
                body,
                Body::Already(_) | Body::Granted | Body::Busy | Body::Full
            ),
            Asked::Writing(_, _, _) => matches!(
                body,
                Body::Already(_) | Body::NoShare | Body::WrongOffset(_) | Body::Wrote(_)
            ),
            Asked::Closing(_) => matches!(
                body,
                Body::Closed(_) | Body::NoShare | Body::NotComplete(_)
            ),
            Asked::Reading(_, _, _) => matches!(body, Body::Data(_) | Body::NoShare),
            Asked::Aborting(_) => false,
        }
    }

    /// What the request's message says, for the file of this storage index. `None` for a
    /// `Writing`, whose message is a `Body::Write` with the bytes.
    pub fn body(self, index: StorageIndex) -> Option<Body>
        ensures spells { IfSome result (λ body. Spells index self body) }
        ensures none { IfNone result (IsWriting self) }
    {
        match self {
            Asked::Holdings => Some(Body::Ask(index)),
            Asked::Allocation(share, length) => {
                Some(Body::Allocate(ShareId { index, share }, length))
            }
            Asked::Writing(_, _, _) => None,
            Asked::Closing(share) => Some(Body::Close(ShareId { index, share })),
            Asked::Reading(share, offset, length) => {
                Some(Body::Read(ShareId { index, share }, offset, length))
            }
            Asked::Aborting(share) => Some(Body::Abort(ShareId { index, share })),
        }
    }
}

/// How many of the marks lie at or before this age.
fn passed(age: u64) -> u8
    ensures value { result ≡ passed age }
    ensures bound { result ≤ 3 }
{
    (age / MARK).min(MARKS) as u8
}

impl Request {
    /// A request that is sent first at this second.
    pub(crate) fn new(server: NodeId, asked: Asked, now: u64) -> Request
        ensures { result ≡ first_request server asked now }
    {
        let outcome = match &asked {
            Asked::Aborting(_) => Outcome::Unawaited,
            _ => Outcome::Outstanding,
        };
        Request {
            server,
            asked,
            first_sent: now,
            sendings: 1,
            marks: 0,
            outcome,
        }
    }

    /// Would this answer from this server count?
    pub fn awaits(&self, from: NodeId, body: &Body) -> bool
        ensures { result ≡ awaits from body.now self.now }
    {
        self.is_outstanding() && self.server == from && self.asked.fits(body)
    }

    pub(crate) fn is_outstanding(&self) -> bool
        ensures { result ≡ is_outstanding self.now.outcome }
    {
        matches!(self.outcome, Outcome::Outstanding)
    }

    fn age(&self, now: u64) -> u64
        ensures { result ≡ age_of now self.now }
    {
        now.saturating_sub(self.first_sent)
    }

    /// Is it lost at a tick at this second?
    pub(crate) fn is_lost_at(&self, now: u64) -> bool
        ensures { result ≡ is_lost_at now self.now }
    {
        self.is_outstanding() && LOST_AGE <= self.age(now)
    }

    /// Is it sent again at a tick at this second?
    pub(crate) fn is_resent_at(&self, now: u64) -> bool
        ensures { result ≡ is_resent_at now self.now }
    {
        let age = self.age(now);
        self.is_outstanding() && age < LOST_AGE && self.marks < passed(age)
    }

    /// Is it a `Writing` whose bytes were all written, by its answer?
    pub fn is_written(&self) -> bool
        ensures { result ≡ is_written self.now }
    {
        match (self.asked, &self.outcome) {
            (Asked::Writing(_, offset, len), Outcome::Answered(answer)) => {
                answer.tells_written(offset, len)
            }
            _ => false,
        }
    }

    /// Was it sent again, after its first sending?
    pub(crate) fn was_sent_again(&self) -> bool
        ensures { result ≡ was_sent_again self.now }
    {
        0 < self.marks
    }

    /// Takes note of a tick at this second.
    pub(crate) fn tick(&mut self, now: u64)
        requires { IsSentFew self.old }
        ensures { self.new ≡ ticked_one now self.old }
    {
        if self.is_lost_at(now) {
            self.outcome = Outcome::Lost;
        } else if self.is_resent_at(now) {
            self.sendings += 1;
            self.marks = passed(self.age(now));
        }
    }
}

/// The record of an operation that needs the bytes of its answers later: a ledger, and the bytes
/// that came.
#[derive(Drop)]
pub struct Requests {
    ledger: Ledger,
    /// At each request's position the bytes of the `Data` that answered it.
    bytes: Vec<Option<Vec<u8>>>,
}

impl Model for Requests {
    ghost use Rattle.std.specs.Prelude.{◌≡◌, map, option_map};
    ghost use Rattle.request_record.specs.Record.{RequestsState};
    ghost use Rattle.request_record.specs.Kept.{data_of};

    ghost Value = { RequestsState };

    ghost view = { λ r. r.ledger };

    ghost invariant = { λ r.
        map (option_map (λ v. v.items)) r.bytes.items ≡ map data_of r.ledger.entries };
}

impl Requests {
    /// The record of an operation that asked nothing yet.
    pub fn new(alloc: Global, session: u64, now: u64) -> Requests
        ensures { result ≡ fresh session now }
    {
        Requests {
            ledger: Ledger::new(alloc, session, now),
            bytes: Vec::new(alloc),
        }
    }

    /// The record of an operation that asks each of these servers which shares it holds.
    pub fn begin(
        alloc: Global,
        servers: &[NodeId],
        session: u64,
        now: u64,
    ) -> Result<Requests, AllocError>
        ensures { IfOk result (λ r. r ≡ begun servers.now session now) }
    {
        let mut requests = Requests::new(alloc, session, now);
        for server in servers {
            requests.ask(*server, Asked::Holdings)?;
        }
        Ok(requests)
    }

    /// The record without the bytes.
    pub fn ledger(&self) -> &Ledger
        ensures { result.now ≡ self.now }
    {
        &self.ledger
    }

    /// The operation's session.
    pub fn session(&self) -> u64
        ensures { result ≡ self.now.session }
    {
        self.ledger.session()
    }

    /// The latest second that the operation was told.
    pub fn clock(&self) -> u64
        ensures { result ≡ self.now.clock }
    {
        self.ledger.clock()
    }

    /// How many requests were asked: request `n` is at position `n - 1`.
    pub fn len(&self) -> usize
        ensures value { result ≡ length self.now.entries }
        ensures right { IsRecord self.now }
    {
        self.ledger.len()
    }

    /// The request at a position, while it is in memory: what was written is not.
    pub fn request_at(&self, position: usize) -> Option<&Request>
        ensures { option_map (λ r. r.now) result ≡ kept (slice_get self.now.entries position) }
    {
        self.ledger.request_at(position)
    }

    /// The request at a position, which is in memory.
    pub fn request(&self, position: usize) -> &Request
        requires { IsKeptAt self.now.entries position }
        ensures { slice_get self.now.entries position ≡ Some result.now }
    {
        self.ledger.request(position)
    }

    /// The bytes of the `Data` that answered the request at a position.
    pub fn bytes_at(&self, position: usize) -> Option<&[u8]>
        ensures some { IfSome result (λ bytes. IsDataAt self.now.entries position bytes.now) }
        ensures none { IfNone result ((bytes : List ℕ)
            → IsDataAt self.now.entries position bytes → ⊥) }
    {
        match self.bytes.get(position)? {
            Some(bytes) => Some(bytes.as_slice()),
            None => None,
        }
    }

    /// Records a request, and puts it at the end of those to send.
    pub fn ask(&mut self, server: NodeId, asked: Asked) -> Result<(), AllocError>
        ensures ok { OnOk result (self.new ≡ asked_more server asked self.old) }
        ensures err { OnErr result (self.new ≡ self.old) }
    {
        self.bytes.reserve(1)?;
        self.ledger.ask(server, asked)?;
        self.bytes.push_reserved(None);
        Ok(())
    }

    /// The position of the request that a message from a server answers, where the answer counts.
    pub fn counts_at(&self, from: NodeId, message: &Message) -> Option<usize>
        ensures value { result ≡ counts_at from message.now self.now }
        ensures there { IfSome result (λ position. position < length self.now.entries) }
    {
        self.ledger.counts_at(from, message)
    }

    /// Takes a message from a server over: keeps it where it answers a request and counts, with no
    /// copy, and says at which position. The request is not sent any more.
    pub fn take_answer(&mut self, from: NodeId, message: Message, now: u64) -> Option<usize>
        ensures position { result ≡ counts_at from message self.old }
        ensures record { self.new ≡ after_message from message now self.old }
    {
        let Counted { position, bytes } = self.ledger.take_answer(from, message, now)?;
        self.bytes[position] = bytes;
        Some(position)
    }

    /// Takes note of a tick: a request that is due is sent again, one that is 20 seconds old is
    /// lost, and not sent any more. Gives the positions of those that it finds lost.
    pub fn tick(&mut self, now: u64) -> Result<Vec<usize>, AllocError>
        ensures lost { IfOk result (λ positions. positions.items ≡ lost_by_tick now self.old) }
        ensures ok { OnOk result (self.new ≡ after_tick now self.old) }
        ensures err { OnErr result (self.new ≡ self.old) }
        ensures kept { IfOk result (λ positions. All (IsKeptAt self.new.entries) positions.items) }
    {
        self.ledger.tick(now)
    }

    /// How many requests wait for their answers.
    pub fn outstanding(&self) -> usize
        ensures { result ≡ outstanding_count self.now.entries }
    {
        self.ledger.outstanding()
    }

    /// Does a request wait for its answer, or is one to be sent?
    pub fn has_work(&self) -> bool
        ensures { IsTrue result ↔ HasWork self.now }
    {
        self.ledger.has_work()
    }

    /// The position of the first request to send.
    pub fn first(&self) -> Option<usize>
        ensures value { result ≡ slice_get self.now.outgoing 0 }
        ensures there { IfSome result (λ position. position < length self.now.entries) }
        ensures kept { IfSome result (IsKeptAt self.now.entries) }
    {
        self.ledger.first()
    }

    /// Takes the first of the requests to send.
    pub fn take_next(&mut self) -> Option<usize>
        ensures { TakesNext self.old result self.new }
    {
        self.ledger.take_next()
    }

    /// Sends the first request to send, as `Ledger::send_next`.
    pub fn send_next(&mut self, index: StorageIndex) -> Option<(NodeId, Message)>
        ensures { SendsFirst index self.old result self.new }
    {
        self.ledger.send_next(index)
    }

    /// How many requests are to send.
    pub fn outgoing_len(&self) -> usize
        ensures { result ≡ length self.now.outgoing }
    {
        self.ledger.outgoing_len()
    }

    /// The message of the request at a position, which says this.
    pub fn message_at(&self, position: usize, body: Body) -> Message
        requires { position < length self.now.entries }
        ensures { result ≡ message_at position body self.now }
    {
        self.ledger.message_at(position, body)
    }
}
