//! The shares that servers hold, and how far the beginning of each is read.

ghost use Rattle.std.specs.Prelude.{◌≡◌, ◌⊎◌, ◌<◌, ◌+◌, ℕ, List, [], IfErr, IfNone, IfOk, IfSome};
ghost use Rattle.std.specs.Prelude.{None, OnErr, OnOk, false, length, nat_eq, true};
ghost use Rattle.std.specs.List.{IsDistinct};
ghost use Rattle.share_layout.specs.Geometry.{IsGeometry};
ghost use Rattle.share_reading.specs.Opening.{Advances, Agrees, next_length, next_offset};
ghost use Rattle.share_reading.specs.Refusal.{IsRefused};
ghost use Rattle.share_reading.specs.declared.opening.Opening.{Opening};
ghost use Rattle.request_record.specs.Asking.{SendsFirst, after_message};
ghost use Rattle.download_shares.specs.HoldingMoves as holdings;
ghost use Rattle.download_shares.specs.HoldingMoves.{Asks, Begins, Blames, IsUnasked, Ticks};
ghost use Rattle.download_shares.specs.Numbers.{read_count};
ghost use Rattle.download_shares.specs.Right.{IsRight};
ghost use Rattle.download_shares.specs.Table.{IsFree, IsHolding, IsTable};
ghost use Rattle.download_shares.specs.declared.holding.Holding.{Holding};
ghost use Rattle.download_shares.specs.Causes.{AddsBlames, FailsAs, IsBeginningFault};
ghost use Rattle.download_shares.specs.Causes.{IsNumbered, IsOpeningFault, IsOtherHeader};
ghost use Rattle.download_shares.specs.Causes.{LeadsOn};
ghost use Rattle.download_shares.specs.Known.{AreBegun};
ghost use Rattle.download_shares.specs.BeginningMoves.{AsksNext, Awaits, BringsBytes, Compares};
ghost use Rattle.download_shares.specs.BeginningMoves.{CountsAsMany, GoesOn, IsGone};
ghost use Rattle.download_shares.specs.BeginningMoves.{HearsNews, IsBlockAt, IsFilled, IsReaderOf};
ghost use Rattle.download_shares.specs.BeginningMoves.{Rests};
ghost use Rattle.download_shares.specs.Opening.{AreCompared, AreComparedUpTo, AreOpening, IsFound};
ghost use Rattle.download_shares.specs.Opening.{IsToldOf, nobody};
ghost use Rattle.download_shares.specs.Reads.{AddsReads, IsAnsweredBy, IsInBeginning};
ghost use Rattle.download_shares.specs.BeginningState.{IsBegun};
ghost use Rattle.download_shares.specs.declared.begun.Begun.{Begun};

use crate::answers::{bytes_at, news_of};
use crate::begun::Begun;
use crate::holdings::Holdings;
use cap_text::VerifyCap;
use share_layout::Geometry;
use share_reading::opening::Progress;
use share_reading::{Opened, Opening, OpeningError};
use share_verify::Check;
use std::alloc::{AllocError, Global};
use std::marker::Model;
use wire::message::{Message, NodeId, ReadLength, StorageIndex};

/// The shares that servers hold, with the record of what was asked of each, and how far the
/// beginning of each is read.
#[derive(Drop)]
pub struct Beginnings {
    holdings: Holdings,
    // One for each holding, in the same order.
    begun: Vec<Begun>,
}

/// What a message brings.
#[derive(Clone, Copy, PartialEq, Eq)]
pub enum News {
    /// It counts for nothing, or tells which shares a server holds.
    Nothing,
    /// That a server has no such share: the holding at this position is gone.
    Gone(usize),
    /// The next bytes of the beginning of the share of the holding at this position, as the answer
    /// to the request at this position.
    Beginning(usize, usize),
    /// Other bytes of the share of the holding at this position, as the answer to the request at
    /// this position.
    Bytes(usize, usize),
}

impl Model for Beginnings {
    ghost use Rattle.download_shares.specs.BeginningState.{BeginningsState, beginnings_state};

    ghost Value = { BeginningsState };

    ghost view = { λ s. beginnings_state s.holdings s.begun.items };
}

impl Beginnings {
    /// Asks each of these servers, which are distinct, which shares it holds of a file with so many
    /// shares.
    pub fn begin(
        alloc: Global,
        total: u16,
        servers: &[NodeId],
        session: u64,
        now: u64,
    ) -> Result<Beginnings, AllocError>
        requires distinct { IsDistinct nat_eq servers.now }
        ensures begins { IfOk result (λ s. Begins total servers.now session now s.holdings) }
        ensures begun { IfOk result (λ s. s.begun ≡ []) }
        ensures known { IfOk result AreBegun }
        ensures opening { IfOk result (AreOpening nobody) }
    {
        Ok(Beginnings {
            holdings: Holdings::begin(alloc, total, servers, session, now)?,
            begun: Vec::new(alloc),
        })
    }

    /// The shares that servers hold.
    pub fn holdings(&self) -> &Holdings
        ensures { result.now ≡ self.now.holdings }
    {
        &self.holdings
    }

    /// How far each is read.
    pub fn begun(&self) -> &[Begun]
        ensures { result.now ≡ self.now.begun }
    {
        self.begun.as_slice()
    }

    /// Sends the first request to send, as `Requests::send_next`.
    pub fn send_next(&mut self, index: StorageIndex) -> Option<(NodeId, Message)>
        ensures sends { SendsFirst index self.old.holdings.requests result
            self.new.holdings.requests }
        ensures others { self.new ≡ record self.old {
          holdings = record self.old.holdings { requests = self.new.holdings.requests };
        } }
        ensures right { IsRight self.new.holdings }
    {
        self.holdings.send_next(index)
    }

    /// Takes a message from a server over, at a second, and says what it brings. After an `Err`
    /// nothing is kept of the beginnings but the record.
    pub fn take_answer(
        &mut self,
        from: NodeId,
        message: Message,
        now: u64,
    ) -> Result<News, AllocError>
        ensures requests { self.new.holdings.requests
            ≡ after_message from message now self.old.holdings.requests }
        ensures same { holdings.IsSame self.old.holdings self.new.holdings }
        ensures hears { IfOk result (HearsNews from message now self.old self.new) }
        ensures bytes { AreBegun self.old
            → IfOk result (BringsBytes self.new.holdings.requests.entries) }
        ensures known { AreBegun self.old → IfOk result (λ _. AreBegun self.new) }
        ensures opening { AreBegun self.old → AreOpening nobody self.old
            → IfOk result (λ news. AreOpening (IsToldOf news) self.new) }
    {
        let heard = self.holdings.take_answer(from, message, now)?;
        begin_more(&mut self.begun, self.holdings.holdings().len())?;
        Ok(news_of(&self.begun, heard))
    }

    /// Takes note of a second: a holding of which a request is lost then is not left any more.
    pub fn tick(&mut self, now: u64) -> Result<(), AllocError>
        ensures ok { OnOk result (Ticks now self.old.holdings self.new.holdings) }
        ensures begun { self.new.begun ≡ self.old.begun }
        ensures err { OnErr result (self.new ≡ self.old) }
        ensures known { AreBegun self.old → OnOk result (AreBegun self.new) }
        ensures opening { AreBegun self.old → AreOpening nobody self.old
            → OnOk result (AreOpening nobody self.new) }
    {
        self.holdings.tick(now)?;
        know_table(&self.holdings);
        Ok(())
    }

    /// Begins to read the share of a holding, where no extension block is accepted.
    pub fn open(&mut self, holding: usize) -> Result<(), AllocError>
        requires free { (h : Holding) × IsHolding self.old.holdings.table holding h
            × IsFree self.old.holdings.table h }
        requires known { AreBegun self.old }
        requires opening { AreOpening nobody self.old }
        ensures known { OnOk result (AreBegun self.new) }
        ensures opening { OnOk result (AreOpening nobody self.new) }
        ensures reads { OnOk result (read_count self.new.holdings.table.numbers
            ≡ read_count self.old.holdings.table.numbers + 1) }
        ensures goes { GoesOn self.old self.new }
        ensures blamed { self.new.holdings.blamed ≡ self.old.holdings.blamed }
        ensures adds { AddsReads (IsInBeginning self.new.holdings.requests.entries)
            self.old.holdings.requests.entries self.new.holdings.requests.entries }
        ensures count { CountsAsMany self.old self.new }
    {
        self.holdings.take_up(holding);
        self.ask_next(holding, &Opening::start())
    }

    /// Takes the next bytes of the beginning of a share, which answered the request at this
    /// position, where no extension block is accepted. Asks for the next ones, or blames the share;
    /// or the bytes are the extension block of the cap's file.
    pub fn go_on(
        &mut self,
        cap: &VerifyCap,
        holding: usize,
        position: usize,
    ) -> Result<Option<Opened>, AllocError>
        requires awaits { (o : Opening) × Awaits self.old holding position o }
        requires answered { (bytes : List ℕ)
            × IsAnsweredBy self.old.holdings.requests.entries position bytes }
        requires known { AreBegun self.old }
        requires opening { AreOpening (λ other. other ≡ holding) self.old }
        ensures known { IfOk result (λ _. AreBegun self.new) }
        ensures opening { IfOk result (λ o. IfNone o (AreOpening nobody self.new)) }
        ensures found { IfOk result (λ o. IfSome o (λ _. IsFound self.new holding)) }
        ensures block { IfOk result (λ o. IfSome o
            (IsBlockAt cap.now self.new.holdings.requests.entries position)) }
        // Where the extension block is found, nothing is asked.
        ensures found_asks { IfOk result (λ o. IfSome o
            (λ _. self.new.holdings.requests ≡ self.old.holdings.requests)) }
        ensures goes { GoesOn self.old self.new }
        ensures causes { AddsBlames (IsOpeningFault cap.now self.old.holdings.requests.entries)
            self.old.holdings.blamed self.new.holdings.blamed }
        ensures low { AddsBlames (IsNumbered self.old) self.old.holdings.blamed
            self.new.holdings.blamed }
        ensures adds { AddsReads (IsInBeginning self.new.holdings.requests.entries)
            self.old.holdings.requests.entries self.new.holdings.requests.entries }
        ensures count { CountsAsMany self.old self.new }
    {
        let Some(opening) = self.take_waiting(holding) else {
            return Ok(None);
        };
        if !self.holdings.holdings()[holding].left {
            return Ok(None);
        }
        match self.read_on(cap, &opening, position) {
            Err(error) => {
                self.holdings.blame(holding, error.check())?;
                Ok(None)
            }
            Ok(Progress::Next(next)) => {
                self.ask_next(holding, &next)?;
                Ok(None)
            }
            Ok(Progress::Done(opened)) => Ok(Some(opened)),
        }
    }

    /// An extension block of the cap's file is found, at this holding. No share is read until it is
    /// chosen again. One of which another header was read than it asks for is blamed, and one whose
    /// header is still out is not to be chosen yet.
    pub fn accept(&mut self, geometry: &Geometry, found: usize) -> Result<(), AllocError>
        requires valid { IsGeometry geometry.now }
        requires known { AreBegun self.old }
        requires found { IsFound self.old found }
        ensures known { OnOk result (AreBegun self.new) }
        ensures compared { OnOk result (AreCompared geometry.now self.new) }
        ensures requests { self.new.holdings.requests ≡ self.old.holdings.requests }
        ensures goes { GoesOn self.old self.new }
        ensures causes { AddsBlames (IsOtherHeader geometry.now
            self.old.holdings.requests.entries) self.old.holdings.blamed self.new.holdings.blamed }
        ensures low { AddsBlames (IsNumbered self.old) self.old.holdings.blamed
            self.new.holdings.blamed }
        ensures count { CountsAsMany self.old self.new }
    {
        for holding in 0..self.begun.len() {
            self.compare_one(geometry, holding)?;
        }
        Ok(())
    }

    // Compares what was read of the header of a share.
    fn compare_one(&mut self, geometry: &Geometry, holding: usize) -> Result<(), AllocError>
        requires valid { IsGeometry geometry.now }
        requires known { AreBegun self.old }
        requires there { holding < length self.old.begun }
        ensures begun { self.new.begun ≡ self.old.begun }
        ensures known { OnOk result (AreBegun self.new) }
        ensures compared { (found : ℕ) → AreComparedUpTo geometry.now found holding self.old
            → OnOk result (AreComparedUpTo geometry.now found (holding + 1) self.new) }
        ensures requests { self.new.holdings.requests ≡ self.old.holdings.requests }
        ensures goes { GoesOn self.old self.new }
        ensures causes { AddsBlames (IsOtherHeader geometry.now
            self.old.holdings.requests.entries) self.old.holdings.blamed self.new.holdings.blamed }
        ensures low { AddsBlames (IsNumbered self.old) self.old.holdings.blamed
            self.new.holdings.blamed }
        ensures count { CountsAsMany self.old self.new }
    {
        let begun = self.begun[holding];
        self.holdings.release(holding);
        let left = self.holdings.holdings()[holding].left;
        let Some(opening) = begun.opening else {
            return Ok(());
        };
        if left && differs(&opening, geometry) {
            return self.holdings.blame(holding, Check::Layout);
        }
        self.holdings.suspend(holding, is_header_out(&begun));
        Ok(())
    }

    /// Takes the next bytes of the beginning of a share, which answered the request at this
    /// position, where an extension block is accepted. The share is blamed where they are refused,
    /// or its header is not the one of a file with this geometry, and else it may be chosen.
    pub fn compare(
        &mut self,
        cap: &VerifyCap,
        geometry: &Geometry,
        holding: usize,
        position: usize,
    ) -> Result<(), AllocError>
        requires awaits { (o : Opening) × Awaits self.old holding position o }
        requires answered { (bytes : List ℕ)
            × IsAnsweredBy self.old.holdings.requests.entries position bytes }
        requires known { AreBegun self.old }
        ensures known { OnOk result (AreBegun self.new) }
        ensures compares { OnOk result (Compares holding self.old self.new) }
        // It is left only where its header is the one of such a file, as far as it is read.
        ensures agrees { OnOk result ((opening : Opening) (bytes : List ℕ)
            → Awaits self.old holding position opening
            → IsAnsweredBy self.old.holdings.requests.entries position bytes
            → IsGone holding self.new ⊎ LeadsOn cap.now geometry.now opening bytes) }
        ensures causes { AddsBlames (IsBeginningFault cap.now geometry.now
            self.old.holdings.requests.entries) self.old.holdings.blamed self.new.holdings.blamed }
        ensures low { AddsBlames (IsNumbered self.old) self.old.holdings.blamed
            self.new.holdings.blamed }
        ensures requests { self.new.holdings.requests ≡ self.old.holdings.requests }
        ensures goes { GoesOn self.old self.new }
    {
        let Some(opening) = self.take_waiting(holding) else {
            return Ok(());
        };
        if !self.holdings.holdings()[holding].left {
            return Ok(());
        }
        match self.compared(cap, geometry, &opening, position) {
            Some(check) => self.holdings.blame(holding, check),
            None => {
                self.holdings.suspend(holding, false);
                Ok(())
            }
        }
    }

    // The check that a share fails by the next bytes of its beginning. `None` where they lead on.
    fn compared(
        &self,
        cap: &VerifyCap,
        geometry: &Geometry,
        opening: &Opening,
        position: usize,
    ) -> Option<Check>
        requires answered { (bytes : List ℕ)
            × IsAnsweredBy self.now.holdings.requests.entries position bytes }
        ensures fails { IfSome result (λ check. (bytes : List ℕ)
            → IsAnsweredBy self.now.holdings.requests.entries position bytes
            → FailsAs cap.now geometry.now opening.now bytes check) }
        ensures leads { IfNone result ((bytes : List ℕ)
            → IsAnsweredBy self.now.holdings.requests.entries position bytes
            → LeadsOn cap.now geometry.now opening.now bytes) }
    {
        match self.read_on(cap, opening, position) {
            Err(error) => Some(error.check()),
            Ok(Progress::Next(next)) => {
                if next.agrees(geometry) {
                    None
                } else {
                    Some(Check::Layout)
                }
            }
            Ok(Progress::Done(_)) => None,
        }
    }

    /// A holding is read by this reader from now on. It is free.
    pub fn begin_reader(&mut self, holding: usize, reader: usize)
        requires free { (h : Holding) × IsHolding self.old.holdings.table holding h
            × IsFree self.old.holdings.table h }
        requires known { AreBegun self.old }
        ensures known { AreBegun self.new }
        ensures reader { IsReaderOf holding reader self.old self.new }
    {
        self.holdings.take_up(holding);
        self.begun[holding].reader = Some(reader);
    }

    /// Asks for bytes of the share of a holding, from an offset on, that were not asked for. Gives
    /// the position of the request.
    pub fn ask(&mut self, holding: usize, offset: u64, len: ReadLength) -> Result<usize, AllocError>
        requires there { holding < length self.old.holdings.table.holdings }
        requires unasked { IsUnasked self.old.holdings holding offset len }
        ensures position { IfOk result (λ position.
            position ≡ length self.old.holdings.requests.entries) }
        ensures asks { OnOk result (Asks holding offset len self.old.holdings self.new.holdings) }
        ensures begun { self.new.begun ≡ self.old.begun }
        ensures err { OnErr result (self.new ≡ self.old) }
        ensures known { AreBegun self.old → OnOk result (AreBegun self.new) }
    {
        self.holdings.ask(holding, offset, len)
    }

    /// A holding's share failed a check: it is not left any more.
    pub fn blame(&mut self, holding: usize, check: Check) -> Result<(), AllocError>
        requires { holding < length self.old.holdings.table.holdings }
        ensures blames { OnOk result (Blames holding check self.old.holdings self.new.holdings) }
        ensures begun { self.new.begun ≡ self.old.begun }
        ensures err { OnErr result (self.new ≡ self.old) }
        ensures known { AreBegun self.old → OnOk result (AreBegun self.new) }
    {
        self.holdings.blame(holding, check)
    }

    // The opening of a holding's share, which waits for no answer from now on.
    fn take_waiting(&mut self, holding: usize) -> Option<Opening>
        requires { holding < length self.old.begun }
        ensures opening { (b : Begun) → IsBegun self.old holding b → result ≡ b.opening }
        ensures rests { Rests holding self.old self.new }
    {
        let begun = &mut self.begun[holding];
        begun.waiting = None;
        begun.opening
    }

    // Asks for what an opening reads next of a holding's share.
    fn ask_next(&mut self, holding: usize, opening: &Opening) -> Result<(), AllocError>
        requires held { holding < length self.old.holdings.table.holdings }
        requires begun { holding < length self.old.begun }
        requires unasked { IsUnasked self.old.holdings holding (next_offset opening.now)
            (next_length opening.now) }
        ensures asks { OnOk result (AsksNext holding opening.now self.old self.new) }
        ensures err { OnErr result (self.new ≡ self.old) }
        ensures right { IsRight self.new.holdings }
    {
        let position = self
            .holdings
            .ask(holding, opening.next_offset(), length_of(opening))?;
        let begun = &mut self.begun[holding];
        begun.opening = Some(*opening);
        begun.waiting = Some(position);
        Ok(())
    }

    // What comes of the bytes that answered the request at a position.
    fn read_on(
        &self,
        cap: &VerifyCap,
        opening: &Opening,
        position: usize,
    ) -> Result<Progress, OpeningError>
        requires answered { (bytes : List ℕ)
            × IsAnsweredBy self.now.holdings.requests.entries position bytes }
        ensures taken { IfOk result (λ progress. (bytes : List ℕ)
            → IsAnsweredBy self.now.holdings.requests.entries position bytes
            → Advances cap.now opening.now bytes progress) }
        ensures refused { IfErr result (λ error. (bytes : List ℕ)
            → IsAnsweredBy self.now.holdings.requests.entries position bytes
            → IsRefused cap.now opening.now bytes error) }
    {
        let Some(bytes) = bytes_at(self.holdings.requests(), position) else {
            unreachable!();
        };
        opening.take(cap, bytes)
    }
}

// A law: the holdings that are read are left. The call does nothing.
fn know_table(holdings: &Holdings)
    ensures { IsTable holdings.now.table }
{
    let _ = holdings.holdings();
}

// There is one more for each holding.
fn begin_more(begun: &mut Vec<Begun>, count: usize) -> Result<(), AllocError>
    ensures { OnOk result (IsFilled count begun.old.items begun.new.items) }
{
    for _ in begun.len()..count {
        begun.push(Begun::new())?;
    }
    Ok(())
}

// How many bytes an opening reads next.
fn length_of(opening: &Opening) -> ReadLength
    ensures { result ≡ next_length opening.now }
{
    ReadLength::new(opening.next_length()).unwrap()
}

// Whether the header that was read is another than that of a file with this geometry.
fn differs(opening: &Opening, geometry: &Geometry) -> bool
    ensures same { result ≡ false → Agrees geometry.now opening.now }
    ensures other { result ≡ true → ¬ Agrees geometry.now opening.now }
{
    !opening.agrees(geometry)
}

// Whether a read of the header waits for its answer.
fn is_header_out(begun: &Begun) -> bool
    ensures some { result ≡ true → begun.now.opening ≡ None → ⊥ }
    ensures waits { result ≡ true → begun.now.waiting ≡ None → ⊥ }
{
    match begun.opening {
        Some(Opening::Start | Opening::Second(_)) => begun.waiting.is_some(),
        _ => false,
    }
}
