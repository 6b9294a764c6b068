//! Readers that are late are put aside, while others may be read in their place.

ghost use Rattle.std.specs.Prelude.{◌≡◌, ◌↔◌, ◌+◌, ◌<◌, ℕ, [], IfNone, IfSome, IsTrue, None, Ok};
ghost use Rattle.std.specs.Prelude.{OnOk, false, length, slice_get, true};
ghost use Rattle.request_record.specs.Record.{was_sent_again_in};
ghost use Rattle.request_record.specs.Written.{kept};
ghost use Rattle.download_file.specs.State.{IsAside, IsLive, first_waiting};
ghost use Rattle.download_core.specs.Reading.{AreReading};
ghost use Rattle.download_core.specs.ReadingSteps.{Continues, HasNoOther, IsIdle, IsLate};
ghost use Rattle.download_core.specs.ReadingSteps.{IsPressed};

use crate::file_reading::FileReading;
use download_file::PartialFile;
use download_shares::{Beginnings, Begun};
use request_record::requests::{Outcome, Requests};
use std::alloc::AllocError;

impl FileReading {
    // Readers that are late are put aside, while others may be read in their place.
    pub(crate) fn press(&mut self, beginnings: &Beginnings) -> Result<(), AllocError>
        requires reading { AreReading beginnings.now self.old }
        ensures reading { OnOk result (AreReading beginnings.now self.new) }
        ensures continues { Continues beginnings.now self.old beginnings.now self.new }
        ensures pressed { OnOk result (IsPressed beginnings.now self.new.file) }
    {
        while self.has_other(beginnings) {
            let Some(reader) = self.first_late(beginnings) else {
                return Ok(());
            };
            self.put_aside(beginnings, reader)?;
        }
        Ok(())
    }

    // Whether a share may be read in the place of one that is late: one that is chosen, or one that
    // was put aside and of which nothing waits.
    fn has_other(&self, beginnings: &Beginnings) -> bool
        ensures { result ≡ false → HasNoOther beginnings.now self.now.file }
    {
        match beginnings.holdings().choose() {
            Some(_) => true,
            None => self.first_idle().is_some(),
        }
    }

    // The first reader that is read and late.
    fn first_late(&self, beginnings: &Beginnings) -> Option<usize>
        ensures live { IfSome result (IsLive self.now.file) }
        ensures late { IfSome result
            (IsLate beginnings.now.holdings.requests.entries self.now.file) }
        ensures none { IfNone result ((reader : ℕ) → IsLive self.now.file reader
            → ¬ IsLate beginnings.now.holdings.requests.entries self.now.file reader) }
    {
        for reader in self.file.live() {
            if is_late(beginnings.holdings().requests(), &self.file, *reader) {
                return Some(*reader);
            }
        }
        None
    }

    /// The first reader that is put aside and of which nothing waits.
    pub(crate) fn first_idle(&self) -> Option<usize>
        ensures idle { IfSome result (IsIdle self.now.file) }
        ensures none { IfNone result ((reader : ℕ) → ¬ IsIdle self.now.file reader) }
    {
        for reader in self.file.aside() {
            if self.is_idle(*reader) {
                return Some(*reader);
            }
        }
        None
    }

    // Whether nothing waits of a reader.
    fn is_idle(&self, reader: usize) -> bool
        ensures { IsTrue result ↔ (first_waiting self.now.file reader ≡ None) }
    {
        self.file.first_waiting(reader).is_none()
    }

    // A reader that is read is put aside.
    fn put_aside(&mut self, beginnings: &Beginnings, reader: usize) -> Result<(), AllocError>
        requires reading { AreReading beginnings.now self.old }
        requires live { IsLive self.old.file reader }
        ensures reading { OnOk result (AreReading beginnings.now self.new) }
        ensures continues { Continues beginnings.now self.old beginnings.now self.new }
        ensures fewer { OnOk result (length self.new.file.live < length self.old.file.live) }
    {
        let _ = beginnings;
        self.asked_up = false;
        self.file.put_aside(reader)
    }

    /// The first reader that is put aside is read again. `false` where there is none. Fewer are
    /// read than are needed.
    pub(crate) fn resume_first(&mut self, beginnings: &Beginnings) -> Result<bool, AllocError>
        requires reading { AreReading beginnings.now self.old }
        requires few { length self.old.file.live < self.old.file.handout.geometry.needed }
        ensures none { result ≡ Ok false → self.new.file.aside ≡ [] }
        ensures live { result ≡ Ok true → length self.new.file.live
            ≡ length self.old.file.live + 1 }
        ensures reading { OnOk result (AreReading beginnings.now self.new) }
        ensures continues { Continues beginnings.now self.old beginnings.now self.new }
        ensures handout { self.new.file.handout ≡ self.old.file.handout }
    {
        match self.file.aside().first().copied() {
            Some(reader) => {
                self.resume(beginnings, reader)?;
                Ok(true)
            }
            None => Ok(false),
        }
    }

    /// A reader that is put aside is read again. Fewer are read than are needed.
    pub(crate) fn resume(
        &mut self,
        beginnings: &Beginnings,
        reader: usize,
    ) -> Result<(), AllocError>
        requires reading { AreReading beginnings.now self.old }
        requires aside { IsAside self.old.file reader }
        requires few { length self.old.file.live < self.old.file.handout.geometry.needed }
        ensures reading { OnOk result (AreReading beginnings.now self.new) }
        ensures continues { Continues beginnings.now self.old beginnings.now self.new }
        ensures live { OnOk result (length self.new.file.live
            ≡ length self.old.file.live + 1) }
        ensures handout { self.new.file.handout ≡ self.old.file.handout }
    {
        let _ = beginnings;
        self.asked_up = false;
        self.file.resume(reader)
    }
}

// Whether the request of the part that waits first of a reader was sent again.
fn is_late(requests: &Requests, file: &PartialFile, reader: usize) -> bool
    ensures { IsTrue result ↔ IsLate requests.now.entries file.now reader }
{
    match file.first_waiting(reader) {
        Some(position) => was_sent_again(requests, position),
        None => false,
    }
}

// Whether the request at a position was sent again.
fn was_sent_again(requests: &Requests, position: usize) -> bool
    ensures { result ≡ was_sent_again_in (kept (slice_get requests.now.entries position)) }
{
    match requests.request_at(position) {
        Some(request) => 0 < request.marks,
        None => false,
    }
}

/// How many shares are late with the next bytes of their beginnings. It is for speed alone, so no
/// clause says it.
pub(crate) fn late_beginnings(beginnings: &Beginnings) -> usize {
    let requests = beginnings.holdings().requests();
    let mut late: usize = 0;
    for begun in beginnings.begun() {
        if is_late_beginning(requests, begun) {
            late = late.saturating_add(1);
        }
    }
    late
}

// Whether the next bytes of the beginning of a share are waited for, by a request that was sent
// again.
fn is_late_beginning(requests: &Requests, begun: &Begun) -> bool {
    match begun.waiting {
        Some(position) => is_out(requests, position) && was_sent_again(requests, position),
        None => false,
    }
}

// Whether the request at a position waits for its answer.
fn is_out(requests: &Requests, position: usize) -> bool {
    match requests.request_at(position) {
        Some(request) => matches!(request.outcome, Outcome::Outstanding),
        None => false,
    }
}
