//! What a message, a tick and a send do to a check.

ghost use Rattle.std.specs.Prelude.{◌≡◌, ◌≢◌, ◌<◌, ◌≤◌, ◌∷◌, List, ℕ, []};
ghost use Rattle.std.specs.Prelude.{Some, IfNone, IfOk, IfSome, IsOk, OnErr, OnOk};
ghost use Rattle.std.specs.Prelude.{filter, length, map, max, nat_lt, option_map, slice_get};
ghost use Rattle.wire.specs.Held.{AreRising};
ghost use Rattle.wire.specs.Limits.{most_data};
ghost use Rattle.wire.specs.declared.message.HeldShare.{HeldShare};
ghost use Rattle.request_record.specs.Asking.{after_message};
ghost use Rattle.request_record.specs.Record.{asked_more};
ghost use Rattle.request_record.specs.declared.requests.Request.{Request};
ghost use Rattle.checker.specs.Book.{AreAwaited, AreAwaitedBut, AreLost, ArePushed, AsksMore};
ghost use Rattle.checker.specs.Book.{AsksNothing, HasAsked, HasBook, IsAsking, IsAwaitingAt};
ghost use Rattle.checker.specs.Book.{IsBrought, IsKept, IsNextSpan, IsSafe, IsSettledAt};
ghost use Rattle.checker.specs.Book.{IsTakenOnce, state_of};
ghost use Rattle.checker.specs.Hearing.{Hears, IsHeardIn};
ghost use Rattle.checker.specs.Moves.{Advances, FailsAt, Stops, TicksOn};
ghost use Rattle.checker.specs.Sending.{Takes};
ghost use Rattle.checker.specs.Shares.{offered_in};
ghost use Rattle.checker.specs.declared.offers.Offer.{Offer};
ghost use Rattle.checker.specs.declared.status.CheckStatus.{CheckStatus};
ghost use Rattle.checker.specs.declared.status.CheckStatus.TheVariants.{Failed, Running};

use crate::offers::Offer;
use crate::state::{Machine, Told, is_running};
use crate::status::CheckStatus;
use crate::wanted::{Span, span_ahead};
use request_record::ledger::Ledger;
use request_record::requests::{Asked, Outcome};
use share_reading::ShareReading;
use std::alloc::{AllocError, Global};
use wire::message::{Body, HeldShare, MAX_PIECE, Message, NodeId, ReadLength};

/// How many bytes the shares that are read at once may need to be judged, with what waits for its
/// turn.
const JUDGED_AT_ONCE: u64 = 64 << 20;

impl Machine {
    /// Takes a message from a node, at a second, and tells where it stands then. Only one that runs
    /// may find no memory.
    pub(crate) fn hear(
        &mut self,
        status: CheckStatus,
        from: NodeId,
        message: Message,
        now: u64,
    ) -> Result<CheckStatus, AllocError>
        requires kept { IsKept self.old status }
        ensures ok { IfOk result (λ ended. (servers : List ℕ) → Advances from message now
            (state_of self.old servers status) (state_of self.new servers ended)) }
        ensures err { OnErr result ((servers : List ℕ)
            → Stops (after_message from message now self.old.requests)
            (state_of self.old servers status) (state_of self.new servers Failed)) }
        ensures kept { IfOk result (IsKept self.new) }
        ensures failed { IsKept self.new Failed }
        ensures ended { status ≢ Running → IsOk result }
    {
        let Some(counted) = self.requests.take_answer(from, message, now) else {
            return Ok(status);
        };
        if !is_running(status) {
            return Ok(status);
        }
        self.take_in(counted.position, counted.bytes)?;
        self.settle()
    }

    /// Takes note of a second in the record alone, once it ended. Without memory it is as it was.
    pub(crate) fn note(&mut self, now: u64) -> Result<(), AllocError>
        ensures ok { OnOk result ((status : CheckStatus) (servers : List ℕ) → TicksOn now
            (state_of self.old servers status) (state_of self.new servers status)) }
        ensures err { OnErr result (self.new ≡ self.old) }
        ensures kept { (status : CheckStatus) → status ≢ Running → IsKept self.old status
            → IsKept self.new status }
    {
        self.requests.tick(now)?;
        Ok(())
    }

    /// Takes note of a second while it runs, and tells where it stands then.
    pub(crate) fn pass(&mut self, now: u64) -> Result<CheckStatus, AllocError>
        requires { IsKept self.old Running }
        ensures ok { IfOk result (λ ended. (servers : List ℕ) → TicksOn now
            (state_of self.old servers Running) (state_of self.new servers ended)) }
        ensures err { OnErr result ((servers : List ℕ) → FailsAt now
            (state_of self.old servers Running) (state_of self.new servers Failed)) }
        ensures kept { IfOk result (IsKept self.new) }
        ensures failed { IsKept self.new Failed }
    {
        let lost = self.requests.tick(now)?;
        self.lose(&lost)?;
        self.settle()
    }

    /// Takes the next message to send, and the node that it is for.
    pub(crate) fn take_outgoing(&mut self) -> Option<(NodeId, Message)>
        requires safe { IsSafe self.old }
        ensures takes { (servers : List ℕ) (status : CheckStatus) → Takes
            (state_of self.old servers status) result (state_of self.new servers status) }
        ensures kept { (status : CheckStatus) → IsKept self.old status → IsKept self.new status }
    {
        let _ = self.requests.len();
        self.requests.send_next(*self.cap.storage_index())
    }

    // These requests found no answer.
    fn lose(&mut self, positions: &[usize]) -> Result<(), AllocError>
        requires book { HasBook self.old positions.now }
        requires lost { AreLost self.old.requests.entries positions.now }
        requires safe { IsSafe self.old }
        ensures book { OnOk result (HasBook self.new []) }
        ensures awaited { AreAwaited self.old.offers.items
            → OnOk result (AreAwaited self.new.offers.items) }
        ensures asks { AsksMore self.old self.new }
        ensures safe { IsSafe self.new }
    {
        for position in positions {
            self.take_in(*position, None)?;
        }
        Ok(())
    }

    // Takes in what became of the request at a position, and the bytes that answered it.
    fn take_in(&mut self, position: usize, bytes: Option<Vec<u8>>) -> Result<(), AllocError>
        requires safe { IsSafe self.old }
        requires settled { IsSettledAt self.old.requests.entries position }
        requires brought { IsBrought self.old.requests.entries position
            (option_map (λ v. v.items) bytes) }
        requires book { (todo : List ℕ) × HasBook self.old (position ∷ todo) }
        ensures book { (todo : List ℕ) → HasBook self.old (position ∷ todo)
            → IsTakenOnce self.old.requests.entries position todo
            → OnOk result (HasBook self.new todo) }
        ensures awaited { AreAwaited self.old.offers.items
            → OnOk result (AreAwaited self.new.offers.items) }
        ensures asks { AsksMore self.old self.new }
        ensures safe { IsSafe self.new }
    {
        if position < self.told.len() {
            return self.take_holdings(position);
        }
        let offer = self.owners[position - self.told.len()];
        match self.offers[offer].piece_at(position) {
            Some((reading, piece)) => self.take_answer(offer, &reading, piece, bytes),
            None => Ok(()),
        }
    }

    // Takes note of the shares that a server holds, by the answer to the request at a position.
    fn take_holdings(&mut self, position: usize) -> Result<(), AllocError>
        requires safe { IsSafe self.old }
        requires asks { position < length self.old.told.items }
        requires settled { IsSettledAt self.old.requests.entries position }
        requires book { (todo : List ℕ) × HasBook self.old (position ∷ todo) }
        ensures book { (todo : List ℕ) → HasBook self.old (position ∷ todo)
            → IsTakenOnce self.old.requests.entries position todo
            → OnOk result (HasBook self.new todo) }
        ensures awaited { AreAwaited self.old.offers.items
            → OnOk result (AreAwaited self.new.offers.items) }
        ensures same { AsksNothing self.old self.new }
    {
        let first = self.offers.len();
        let request = self.requests.request(position);
        let held = held_by(&request.outcome);
        push_offers(
            self.alloc,
            self.keeps,
            &mut self.offers,
            self.cap.total(),
            request.server,
            held,
        )?;
        self.told[position] = Told {
            first,
            count: self.offers.len() - first,
        };
        Ok(())
    }

    // Takes what came for a piece of a share, and asks for more of it.
    fn take_answer(
        &mut self,
        offer: usize,
        reading: &ShareReading,
        piece: usize,
        bytes: Option<Vec<u8>>,
    ) -> Result<(), AllocError>
        requires safe { IsSafe self.old }
        requires waits { (position : ℕ) × (todo : List ℕ) × IsAwaitingAt self.old offer reading.now
            piece position (option_map (λ v. v.items) bytes) todo }
        ensures book { (position : ℕ) (todo : List ℕ) → IsAwaitingAt self.old offer reading.now
            piece position (option_map (λ v. v.items) bytes) todo
            → OnOk result (HasBook self.new todo) }
        ensures awaited { AreAwaited self.old.offers.items
            → OnOk result (AreAwaited self.new.offers.items) }
        ensures asks { AsksMore self.old self.new }
        ensures safe { IsSafe self.new }
    {
        match self.hear_piece(offer, reading, piece, bytes)? {
            Some(next) => self.ask_on(offer, &next),
            None => Ok(()),
        }
    }

    // Takes what came for a piece of a share: tells how far it is read then, or `None` where its
    // verdict is found.
    fn hear_piece(
        &mut self,
        offer: usize,
        reading: &ShareReading,
        piece: usize,
        bytes: Option<Vec<u8>>,
    ) -> Result<Option<ShareReading>, AllocError>
        requires there { (o : Offer) × (slice_get self.old.offers.items offer ≡ Some o)
            × ((entries : List Request) × (todo : List ℕ) × Hears self.old.cap entries todo
            o reading.now piece (option_map (λ v. v.items) bytes)) }
        ensures heard { IfOk result (λ next. (o : Offer)
            → slice_get self.old.offers.items offer ≡ Some o
            → IsHeardIn self.old offer reading.now piece (option_map (λ v. v.items) bytes)
            o self.new next) }
        ensures same { AsksNothing self.old self.new }
    {
        match self.offers[offer].hear(&self.cap, reading, piece, bytes)? {
            Some(next) => {
                self.room = room_after(self.room, self.ahead, &next);
                Ok(Some(next))
            }
            None => {
                self.reading = self.reading.saturating_sub(1);
                Ok(None)
            }
        }
    }

    /// Asks for the next pieces of a share: as many as may be asked for at once, and one at least.
    pub(crate) fn ask_on(&mut self, offer: usize, reading: &ShareReading) -> Result<(), AllocError>
        requires safe { IsSafe self.old }
        requires there { (o : Offer) × IsAsking self.old offer reading.now o }
        requires book { (todo : List ℕ) × HasBook self.old todo }
        ensures book { (todo : List ℕ) → HasBook self.old todo
            → OnOk result (HasBook self.new todo) }
        ensures awaited { AreAwaitedBut offer self.old.offers.items
            → OnOk result (AreAwaited self.new.offers.items) }
        ensures asks { AsksMore self.old self.new }
        ensures safe { IsSafe self.new }
        ensures same { OnOk result ((self.new.begun ≡ self.old.begun)
            × (length self.new.offers.items ≡ length self.old.offers.items)) }
    {
        while let Some(span) = self.next_span(offer, reading) {
            self.ask(offer, &span)?;
        }
        Ok(())
    }

    // The piece to ask for next of a share that is read so far, where one more is asked for: where
    // none is, or fewer are than may be at once.
    fn next_span(&self, offer: usize, reading: &ShareReading) -> Option<Span>
        requires { offer < length self.now.offers.items }
        ensures span { (o : Offer) → slice_get self.now.offers.items offer ≡ Some o
            → IfSome result (IsNextSpan reading.now o) }
        ensures range { IfSome result (λ s. (0 < s.length) × (s.length ≤ most_data)) }
        ensures fewer { (o : Offer) → slice_get self.now.offers.items offer ≡ Some o
            → IfSome result (λ _. length o.wanted.items < max 1 self.now.ahead) }
        ensures none { (o : Offer) → slice_get self.now.offers.items offer ≡ Some o
            → IfNone result (o.wanted.items ≢ []) }
    {
        let wanted = &self.offers[offer].wanted;
        let count = wanted.len();
        let most = self.ahead.max(1);
        if most <= count {
            return None;
        }
        span_ahead(reading, count)
    }

    // Asks for a piece of a share.
    fn ask(&mut self, offer: usize, span: &Span) -> Result<(), AllocError>
        requires there { offer < length self.old.offers.items }
        requires range { (0 < span.now.length) × (span.now.length ≤ most_data) }
        ensures ok { OnOk result ((o : Offer) → slice_get self.old.offers.items offer ≡ Some o
            → HasAsked self.old offer span.now o self.new) }
        ensures err { OnErr result (AsksNothing self.old self.new) }
    {
        let position = self.requests.len();
        let server = self.offers[offer].server;
        let share = self.offers[offer].share;
        self.owners.push(offer)?;
        self.offers[offer].want(position)?;
        ask_span(&mut self.requests, server, share, span)
    }
}

// Asks a server for these bytes of a share.
fn ask_span(requests: &mut Ledger, server: NodeId, share: u8, span: &Span) -> Result<(), AllocError>
    requires range { (0 < span.now.length) × (span.now.length ≤ most_data) }
    ensures ok { OnOk result (requests.new
        ≡ asked_more server (Asked.Reading share span.now.offset span.now.length) requests.old) }
    ensures err { OnErr result (requests.new ≡ requests.old) }
{
    let length = ReadLength::new(span.length).unwrap();
    requests.ask(server, Asked::Reading(share, span.offset, length))
}

// How many shares may be read at once, where the reading of one goes on so, and so many pieces of
// each may be kept until their turn: one at least, and as many as can be judged at once, once an
// extension block was read, which is that of each.
fn room_after(room: usize, ahead: usize, next: &ShareReading) -> usize {
    let ShareReading::Remaining(rest) = next else {
        return room;
    };
    let behind = (ahead as u64).saturating_sub(1);
    let kept = behind.saturating_mul(MAX_PIECE as u64);
    let size = rest.judging_size().saturating_add(kept);
    (JUDGED_AT_ONCE / size.max(1)).max(1) as usize
}

// The shares that an answer lists.
fn held_by(outcome: &Outcome) -> &[HeldShare]
    ensures offered { (total server : ℕ) → offered_in total server outcome.now
        ≡ map (λ (h : HeldShare). (server, h.share))
        (filter (λ (h : HeldShare). nat_lt h.share total) result.now) }
    ensures held { AreRising result.now }
{
    let Outcome::Answered(kept) = outcome else {
        return &[];
    };
    match kept.told() {
        Some(Body::Have(_, held)) => held.as_slice(),
        _ => &[],
    }
}

// Adds the shares of these that have a number below the file's.
fn push_offers(
    alloc: Global,
    keeps: bool,
    offers: &mut Vec<Offer>,
    total: u16,
    server: NodeId,
    held: &[HeldShare],
) -> Result<(), AllocError>
    ensures { OnOk result
        (ArePushed keeps total server held.now offers.old.items offers.new.items) }
{
    for share in held {
        if u16::from(share.share) < total {
            offers.push(Offer::new(alloc, keeps, server, share.share))?;
        }
    }
    Ok(())
}
