//! The readers of a file, and the holdings whose shares they read.

ghost use Rattle.std.specs.Prelude.{◌≡◌, ◌≢◌, ◌⊎◌, ◌↔◌, ℕ, ◌+◌, ◌<◌, ◌≤◌, ◌-◌, All};
ghost use Rattle.std.specs.Prelude.{IfOk, OnOk, Ok, Option, Some};
ghost use Rattle.std.specs.Prelude.{false, length, true};
ghost use Rattle.request_record.specs.Record.{outstanding_count};
ghost use Rattle.share_verify.specs.CapBlock.{geometry_by};
ghost use Rattle.download_shares.specs.Table.{IsFree, IsHolding};
ghost use Rattle.download_shares.specs.declared.holding.Holding.{Holding};
ghost use Rattle.download_shares.specs.Causes.{AddsBlames};
ghost use Rattle.download_shares.specs.Known.{AreBegun};
ghost use Rattle.download_shares.specs.Opening.{AreCompared};
ghost use Rattle.download_shares.specs.BeginningState.{BeginningsState};
ghost use Rattle.download_segments.specs.Handout.{TakesPiece};
ghost use Rattle.download_segments.specs.NoCodeWord.{IsNoCodeWord};
ghost use Rattle.download_file.specs.Asked.{AreAskedUp, IsAskedUp};
ghost use Rattle.download_file.specs.Changes.{IsSameFile, StaysAskedUp};
ghost use Rattle.download_file.specs.Making.{CanNotGoOn, IsInconsistent, MustWait};
ghost use Rattle.download_file.specs.State.{IsComplete, IsLive, new_file};
ghost use Rattle.download_core.specs.ReadingCauses.{HasCause, IsBlockFault};
ghost use Rattle.download_core.specs.ReadingPrompt.{IsPrompt};
ghost use Rattle.download_core.specs.Reading.{AreReading};
ghost use Rattle.download_core.specs.ReadingState.{ReadingState};
ghost use Rattle.download_core.specs.ReadingSteps.{Continues, HasHeard, HasTicked, IsAtEnd};
ghost use Rattle.download_core.specs.ReadingSteps.{IsPressed, IsStill, IsStuck, NoneIsLeft, work};

use crate::asking::ask_parts;
use crate::ending::why_not;
use cap_text::VerifyCap;
use download_file::{Made, PartialFile};
use download_segments::Piece;
use download_shares::{Beginnings, News};
use share_layout::Geometry;
use share_verify::Check;
use std::alloc::{AllocError, Global};
use std::marker::Model;
use ueb::Ueb;

/// How far a file is.
#[derive(Clone, Copy, PartialEq, Eq)]
pub enum Settled {
    /// All that is wanted was made.
    Complete,
    /// The blocks of a segment were right, and it is not the one whose hash is known.
    Inconsistent,
    /// It waits for answers.
    Waits,
    /// Nothing is waited for, and fewer shares are left than are needed.
    TooFew,
}

/// A file whose extension block is accepted, and the shares at servers that are read of it.
#[derive(Drop)]
pub struct FileReading {
    pub(crate) file: PartialFile,
    // The holding that each reader of the file reads.
    pub(crate) holdings: Vec<usize>,
    // Whether each reader that is read was asked for all that is wanted for the next segment.
    pub(crate) asked_up: bool,
}

impl Model for FileReading {
    ghost use Rattle.std.specs.Prelude.{◌≡◌, true};
    ghost use Rattle.download_file.specs.Asked.{AreAskedUp};
    ghost use Rattle.download_core.specs.ReadingState.{ReadingState, reading_state};

    ghost Value = { ReadingState };

    ghost view = { λ r. reading_state r.file r.holdings.items };

    ghost invariant = { λ r. r.asked_up ≡ true → AreAskedUp r.file };
}

impl FileReading {
    /// The bytes from the offset `from` up to `to` of a file are wanted. Nothing is read yet.
    pub fn new(
        alloc: Global,
        key: &[u8; 16],
        ueb: &Ueb,
        geometry: &Geometry,
        from: u64,
        to: u64,
    ) -> Result<FileReading, AllocError>
        requires geometry { geometry.now ≡ geometry_by ueb.now }
        requires some { from < to }
        requires inside { to ≤ geometry.now.size }
        ensures file { IfOk result (λ r. r.file ≡ new_file key.now ueb.now geometry.now from to) }
        ensures reading { IfOk result (λ r. (s : BeginningsState) → AreBegun s
            → AreCompared geometry.now s
            → length s.holdings.table.numbers ≡ geometry.now.total → AreReading s r) }
    {
        Ok(FileReading {
            file: PartialFile::new(alloc, key, ueb, geometry, from, to)?,
            holdings: Vec::new(alloc),
            asked_up: false,
        })
    }

    /// The file.
    pub fn file(&self) -> &PartialFile
        ensures { result.now ≡ self.now.file }
    {
        &self.file
    }

    /// Takes the first piece, where one is ready.
    pub fn take_piece(&mut self) -> Option<Piece>
        ensures taken { TakesPiece self.old.file.handout result self.new.file.handout }
        ensures rest { self.new ≡ record self.old {
          file = record self.old.file { handout = self.new.file.handout };
        } }
        ensures reading { (s : BeginningsState) → AreReading s self.old → AreReading s self.new }
        ensures same { IsSameFile self.old.file self.new.file }
    {
        self.file.take_piece()
    }

    /// A message brought this. What was read is taken, and a share that fails a check is blamed.
    /// After an `Err` nothing is kept of the file but what `continues` says.
    pub fn hear(
        &mut self,
        beginnings: &mut Beginnings,
        cap: &VerifyCap,
        news: News,
    ) -> Result<(), AllocError>
        requires heard { HasHeard beginnings.old self.old news }
        ensures reading { OnOk result (AreReading beginnings.new self.new) }
        ensures continues { Continues beginnings.old self.old beginnings.new self.new }
        // Nothing is asked, and each blame has its cause.
        ensures requests { beginnings.new.holdings.requests ≡ beginnings.old.holdings.requests }
        ensures causes { AddsBlames (HasCause cap.now beginnings.old.holdings.requests.entries
            self.new.file) beginnings.old.holdings.blamed beginnings.new.holdings.blamed }
    {
        self.follow(beginnings, news);
        match news {
            News::Nothing | News::Gone(_) => Ok(()),
            News::Beginning(holding, position) => {
                self.compare(beginnings, cap, holding, position)?;
                self.take_of(beginnings, holding)
            }
            News::Bytes(holding, _) => self.take_of(beginnings, holding),
        }
    }

    /// A second passed. The readers of shares that are lost are read no more. Where it is pressing,
    /// readers that are late are put aside, while others may be read in their place.
    pub fn pass(&mut self, beginnings: &Beginnings, pressing: bool) -> Result<(), AllocError>
        requires ticked { HasTicked beginnings.now self.old }
        ensures reading { OnOk result (AreReading beginnings.now self.new) }
        ensures continues { Continues beginnings.now self.old beginnings.now self.new }
        ensures pressed { OnOk result (pressing ≡ true
            → IsPressed beginnings.now self.new.file) }
    {
        self.end_gone(beginnings);
        if !pressing {
            return Ok(());
        }
        self.press(beginnings)
    }

    /// Begins to read shares, asks for what is wanted of them, and makes segments, as far as the
    /// answers allow. Where it is patient it makes none of eight segments while all of them are on
    /// their way.
    pub fn settle(
        &mut self,
        beginnings: &mut Beginnings,
        patient: bool,
    ) -> Result<Settled, AllocError>
        requires reading { AreReading beginnings.old self.old }
        ensures reading { OnOk result (AreReading beginnings.new self.new) }
        ensures continues { Continues beginnings.old self.old beginnings.new self.new }
        ensures causes { AddsBlames (IsBlockFault beginnings.new.holdings.requests.entries
            self.new.file) beginnings.old.holdings.blamed beginnings.new.holdings.blamed }
        ensures complete { IfOk result (λ settled.
            (settled ≡ Settled.Complete) ↔ IsComplete self.new.file) }
        ensures inconsistent { result ≡ Ok Settled.Inconsistent
            → IsInconsistent beginnings.new.holdings.requests.entries self.new.file }
        ensures no_code_word { result ≡ Ok Settled.Inconsistent
            → IsNoCodeWord self.new.file.handout.ueb }
        ensures waits { result ≡ Ok Settled.Waits
            → 0 < outstanding_count beginnings.new.holdings.requests.entries }
        // What is there is made at once.
        ensures prompt { result ≡ Ok Settled.Waits
            → IsPrompt patient beginnings.new.holdings.requests.entries self.new.file }
        // Nothing is waited for, and too few shares are left.
        ensures too_few { result ≡ Ok Settled.TooFew → IsAtEnd beginnings.new self.new }
    {
        while !self.file.is_complete() {
            match self.go_on(beginnings, patient)? {
                Made::Ready | Made::Wrong(_) => {}
                Made::Inconsistent => return Ok(Settled::Inconsistent),
                Made::Waits => return Ok(why_not(self, beginnings)),
            }
        }
        Ok(Settled::Complete)
    }

    // Asks for what the next segment needs, and makes it, or eight, where they are there.
    fn go_on(&mut self, beginnings: &mut Beginnings, patient: bool) -> Result<Made, AllocError>
        requires reading { AreReading beginnings.old self.old }
        requires more { ¬ IsComplete self.old.file }
        ensures reading { OnOk result (AreReading beginnings.new self.new) }
        ensures continues { Continues beginnings.old self.old beginnings.new self.new }
        ensures causes { AddsBlames (IsBlockFault beginnings.new.holdings.requests.entries
            self.new.file) beginnings.old.holdings.blamed beginnings.new.holdings.blamed }
        ensures inconsistent { result ≡ Ok Made.Inconsistent
            → IsInconsistent beginnings.new.holdings.requests.entries self.new.file }
        ensures no_code_word { result ≡ Ok Made.Inconsistent
            → IsNoCodeWord self.new.file.handout.ueb }
        ensures more { (made : Made) → result ≡ Ok made → made ≢ Made.Ready
            → ¬ IsComplete self.new.file }
        ensures stuck { result ≡ Ok Made.Waits → IsStuck beginnings.new self.new }
        ensures must { result ≡ Ok Made.Waits → MustWait patient self.new.file }
        ensures asked_up { result ≡ Ok Made.Waits → AreAskedUp self.new.file }
        ensures ready { result ≡ Ok Made.Ready
            → work beginnings.new self.new < work beginnings.old self.old }
        ensures wrong { (reader : ℕ) → result ≡ Ok (Made.Wrong reader)
            → work beginnings.new self.new < work beginnings.old self.old }
    {
        self.begin_more(beginnings)?;
        self.ask_all(beginnings)?;
        self.make(beginnings, patient)
    }

    // Begins to read more shares, where fewer are read than are needed, and one may be.
    fn begin_more(&mut self, beginnings: &mut Beginnings) -> Result<(), AllocError>
        requires reading { AreReading beginnings.old self.old }
        requires more { ¬ IsComplete self.old.file }
        ensures enough { OnOk result ((self.new.file.handout.geometry.needed
            ≤ length self.new.file.live) ⊎ NoneIsLeft beginnings.new self.new) }
        ensures handout { self.new.file.handout ≡ self.old.file.handout }
        ensures held { OnOk result (beginnings.new.holdings.table.holdings
            ≡ beginnings.old.holdings.table.holdings) }
        ensures reading { OnOk result (AreReading beginnings.new self.new) }
        ensures continues { Continues beginnings.old self.old beginnings.new self.new }
        ensures blamed { beginnings.new.holdings.blamed ≡ beginnings.old.holdings.blamed }
    {
        while self.file.live().len() < usize::from(self.file.geometry().needed()) {
            if !self.begin_one(beginnings)? {
                return Ok(());
            }
        }
        Ok(())
    }

    // Begins to read one share more, of fewer than are needed: one that was put aside and of which
    // nothing waits, else one that is chosen, else the first that was put aside. `false` where
    // there is none.
    fn begin_one(&mut self, beginnings: &mut Beginnings) -> Result<bool, AllocError>
        requires reading { AreReading beginnings.old self.old }
        requires few { length self.old.file.live < self.old.file.handout.geometry.needed }
        requires more { ¬ IsComplete self.old.file }
        ensures none { result ≡ Ok false → NoneIsLeft beginnings.new self.new }
        ensures live { result ≡ Ok true → length self.new.file.live
            ≡ length self.old.file.live + 1 }
        ensures handout { self.new.file.handout ≡ self.old.file.handout }
        ensures held { OnOk result (beginnings.new.holdings.table.holdings
            ≡ beginnings.old.holdings.table.holdings) }
        ensures reading { OnOk result (AreReading beginnings.new self.new) }
        ensures continues { Continues beginnings.old self.old beginnings.new self.new }
        ensures blamed { beginnings.new.holdings.blamed ≡ beginnings.old.holdings.blamed }
    {
        match self.first_idle() {
            Some(reader) => {
                self.resume(beginnings, reader)?;
                Ok(true)
            }
            None => self.begin_other(beginnings),
        }
    }

    // So it does with one that is chosen, else with the first that was put aside.
    fn begin_other(&mut self, beginnings: &mut Beginnings) -> Result<bool, AllocError>
        requires reading { AreReading beginnings.old self.old }
        requires few { length self.old.file.live < self.old.file.handout.geometry.needed }
        requires more { ¬ IsComplete self.old.file }
        ensures none { result ≡ Ok false → NoneIsLeft beginnings.new self.new }
        ensures live { result ≡ Ok true → length self.new.file.live
            ≡ length self.old.file.live + 1 }
        ensures handout { self.new.file.handout ≡ self.old.file.handout }
        ensures held { OnOk result (beginnings.new.holdings.table.holdings
            ≡ beginnings.old.holdings.table.holdings) }
        ensures reading { OnOk result (AreReading beginnings.new self.new) }
        ensures continues { Continues beginnings.old self.old beginnings.new self.new }
        ensures blamed { beginnings.new.holdings.blamed ≡ beginnings.old.holdings.blamed }
    {
        match beginnings.holdings().choose() {
            Some(holding) => {
                self.begin(beginnings, holding)?;
                Ok(true)
            }
            None => self.resume_first(beginnings),
        }
    }

    // A holding is read from now on. It is free, and fewer are read than are needed.
    fn begin(&mut self, beginnings: &mut Beginnings, holding: usize) -> Result<(), AllocError>
        requires reading { AreReading beginnings.old self.old }
        requires free { (h : Holding) × IsHolding beginnings.old.holdings.table holding h
            × IsFree beginnings.old.holdings.table h }
        requires few { length self.old.file.live < self.old.file.handout.geometry.needed }
        requires more { ¬ IsComplete self.old.file }
        ensures reading { OnOk result (AreReading beginnings.new self.new) }
        ensures continues { Continues beginnings.old self.old beginnings.new self.new }
        ensures blamed { beginnings.new.holdings.blamed ≡ beginnings.old.holdings.blamed }
        ensures handout { self.new.file.handout ≡ self.old.file.handout }
        ensures live { OnOk result (length self.new.file.live
            ≡ length self.old.file.live + 1) }
        ensures held { OnOk result (beginnings.new.holdings.table.holdings
            ≡ beginnings.old.holdings.table.holdings) }
    {
        let held = beginnings.holdings().holdings()[holding];
        self.asked_up = false;
        let reader = self.file.begin(held.server, held.share)?;
        self.holdings.push(holding)?;
        beginnings.begin_reader(holding, reader);
        Ok(())
    }

    // Asks each reader that is read for what is wanted of it now, where this was not done before.
    fn ask_all(&mut self, beginnings: &mut Beginnings) -> Result<(), AllocError>
        requires reading { AreReading beginnings.old self.old }
        ensures reading { OnOk result (AreReading beginnings.new self.new) }
        ensures continues { Continues beginnings.old self.old beginnings.new self.new }
        ensures blamed { beginnings.new.holdings.blamed ≡ beginnings.old.holdings.blamed }
        ensures asked_up { OnOk result (AreAskedUp self.new.file) }
        ensures live { OnOk result (self.new.file.live ≡ self.old.file.live) }
        ensures aside { OnOk result (self.new.file.aside ≡ self.old.file.aside) }
        ensures handout { self.new.file.handout ≡ self.old.file.handout }
        ensures table { OnOk result (beginnings.new.holdings.table
            ≡ beginnings.old.holdings.table) }
    {
        if self.asked_up {
            return Ok(());
        }
        for i in 0..self.file.live().len() {
            let reader = self.file.live()[i];
            self.ask(beginnings, reader)?;
        }
        self.asked_up = true;
        Ok(())
    }

    // Asks a reader that is read for what is wanted of it now.
    fn ask(&mut self, beginnings: &mut Beginnings, reader: usize) -> Result<(), AllocError>
        requires reading { AreReading beginnings.old self.old }
        requires live { IsLive self.old.file reader }
        ensures reading { OnOk result (AreReading beginnings.new self.new) }
        ensures continues { Continues beginnings.old self.old beginnings.new self.new }
        ensures blamed { beginnings.new.holdings.blamed ≡ beginnings.old.holdings.blamed }
        ensures asked_up { OnOk result (IsAskedUp self.new.file reader) }
        ensures others { OnOk result ((other : ℕ)
            → StaysAskedUp self.old.file self.new.file other) }
        ensures live { OnOk result (self.new.file.live ≡ self.old.file.live) }
        ensures aside { OnOk result (self.new.file.aside ≡ self.old.file.aside) }
        ensures handout { self.new.file.handout ≡ self.old.file.handout }
        ensures table { OnOk result (beginnings.new.holdings.table
            ≡ beginnings.old.holdings.table) }
    {
        let position = beginnings.holdings().requests().len();
        self.asked_up = false;
        let wanted = self.file.wanted(reader, position)?;
        ask_parts(beginnings, self.holdings[reader], &wanted)
    }

    // Makes the next segments. A share whose block of the next is wrong is blamed.
    fn make(&mut self, beginnings: &mut Beginnings, patient: bool) -> Result<Made, AllocError>
        requires reading { AreReading beginnings.old self.old }
        ensures reading { OnOk result (AreReading beginnings.new self.new) }
        ensures continues { Continues beginnings.old self.old beginnings.new self.new }
        ensures causes { AddsBlames (IsBlockFault beginnings.new.holdings.requests.entries
            self.new.file) beginnings.old.holdings.blamed beginnings.new.holdings.blamed }
        ensures inconsistent { result ≡ Ok Made.Inconsistent
            → IsInconsistent beginnings.new.holdings.requests.entries self.new.file }
        ensures no_code_word { result ≡ Ok Made.Inconsistent
            → IsNoCodeWord self.old.file.handout.ueb }
        ensures waits { result ≡ Ok Made.Waits → CanNotGoOn self.old.file }
        ensures must { result ≡ Ok Made.Waits
            → IsComplete self.old.file ⊎ MustWait patient self.old.file }
        ensures still { result ≡ Ok Made.Waits
            → IsStill beginnings.old self.old beginnings.new self.new }
        ensures handout { (made : Made) → result ≡ Ok made → made ≢ Made.Ready
            → self.new.file.handout ≡ self.old.file.handout }
        ensures ready { result ≡ Ok Made.Ready
            → work beginnings.new self.new < work beginnings.old self.old }
        ensures wrong { (reader : ℕ) → result ≡ Ok (Made.Wrong reader)
            → work beginnings.new self.new < work beginnings.old self.old }
    {
        let made = self.file.make(beginnings.holdings().requests(), patient)?;
        match made {
            Made::Ready => self.asked_up = false,
            Made::Wrong(reader) => self.blame(beginnings, reader, Check::Data)?,
            _ => {}
        }
        Ok(made)
    }
}
