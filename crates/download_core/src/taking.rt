//! How the readers of a file take what was answered, and end where their share is gone.

ghost use Rattle.std.specs.Prelude.{◌≡◌, ◌⊎◌, ℕ, ◌<◌, ◌-◌};
ghost use Rattle.std.specs.Prelude.{IfNone, IfSome, List, OnOk, Ok, Option, Some};
ghost use Rattle.std.specs.Prelude.{Contains, None, drop, false, true};
ghost use Rattle.download_shares.specs.BeginningMoves.{WaitsAt};
ghost use Rattle.download_shares.specs.Reads.{IsAnsweredBy};
ghost use Rattle.download_shares.specs.Causes.{AddsBlames, IsBeginningFault};
ghost use Rattle.download_file.specs.State.{IsHeard, first_waiting};
ghost use Rattle.download_file.specs.State.{waiting_at};
ghost use Rattle.download_core.specs.ReadingCauses.{IsBlameOf, IsPartFault};
ghost use Rattle.download_core.specs.Reading.{AreAwaited, AreKept, AreLinked, AreReading};
ghost use Rattle.download_core.specs.Reading.{AreReadingBut, IsGone, IsReadNow};
ghost use Rattle.download_core.specs.ReadingSteps.{Continues, HasHeard};
ghost use Rattle.download_core.specs.ReadingSteps.{IsTold, left_count};

use crate::file_reading::FileReading;
use cap_text::VerifyCap;
use download_parts::TreeFault;
use download_shares::{Beginnings, News, bytes_at};
use share_verify::Check;
use std::alloc::AllocError;

impl FileReading {
    // The next bytes of the beginning of a share came. Its header is compared.
    pub(crate) fn compare(
        &mut self,
        beginnings: &mut Beginnings,
        cap: &VerifyCap,
        holding: usize,
        position: usize,
    ) -> Result<(), AllocError>
        requires told { IsTold (Some holding) beginnings.old self.old holding }
        requires waits { WaitsAt beginnings.old holding position }
        requires answered { (bytes : List ℕ)
            × IsAnsweredBy beginnings.old.holdings.requests.entries position bytes }
        ensures told { OnOk result (IsTold None beginnings.new self.new holding) }
        ensures continues { Continues beginnings.old self.old beginnings.new self.new }
        ensures requests { beginnings.new.holdings.requests ≡ beginnings.old.holdings.requests }
        ensures causes { AddsBlames (IsBeginningFault cap.now self.old.file.handout.geometry
            beginnings.old.holdings.requests.entries) beginnings.old.holdings.blamed
            beginnings.new.holdings.blamed }
        ensures low { AddsBlames (λ b. b.share < self.old.file.handout.geometry.total)
            beginnings.old.holdings.blamed beginnings.new.holdings.blamed }
    {
        beginnings.compare(cap, self.file.geometry(), holding, position)?;
        self.end_gone(beginnings);
        Ok(())
    }

    // Takes what the reader of this holding, where it has one that is read or put aside, may take.
    pub(crate) fn take_of(
        &mut self,
        beginnings: &mut Beginnings,
        holding: usize,
    ) -> Result<(), AllocError>
        requires told { IsTold None beginnings.old self.old holding }
        ensures reading { OnOk result (AreReading beginnings.new self.new) }
        ensures continues { Continues beginnings.old self.old beginnings.new self.new }
        ensures requests { beginnings.new.holdings.requests ≡ beginnings.old.holdings.requests }
        ensures causes { AddsBlames (IsPartFault beginnings.old.holdings.requests.entries
            self.new.file) beginnings.old.holdings.blamed beginnings.new.holdings.blamed }
    {
        let Some(reader) = beginnings.begun()[holding].reader else {
            return Ok(());
        };
        if beginnings.holdings().holdings()[holding].left {
            self.take(beginnings, reader)?;
        }
        Ok(())
    }

    // Takes the answers of the reader of a holding's share, one after another, as far as they are
    // there. A share of which one is refused is blamed.
    fn take(&mut self, beginnings: &mut Beginnings, reader: usize) -> Result<(), AllocError>
        requires reading { AreReadingBut (Some reader) beginnings.old self.old }
        requires live { IsHeard self.old.file reader }
        ensures reading { OnOk result (AreReading beginnings.new self.new) }
        ensures continues { Continues beginnings.old self.old beginnings.new self.new }
        ensures requests { beginnings.new.holdings.requests ≡ beginnings.old.holdings.requests }
        ensures causes { AddsBlames (IsPartFault beginnings.old.holdings.requests.entries
            self.new.file) beginnings.old.holdings.blamed beginnings.new.holdings.blamed }
    {
        while let Some(position) = self.file.first_waiting(reader) {
            if !self.take_one(beginnings, reader, position)? {
                return Ok(());
            }
        }
        Ok(())
    }

    // Takes the answer to the request at this position, which is the first that waits of a reader.
    // `false` where it is not there, or refused.
    fn take_one(
        &mut self,
        beginnings: &mut Beginnings,
        reader: usize,
        position: usize,
    ) -> Result<bool, AllocError>
        requires reading { AreReadingBut (Some reader) beginnings.old self.old }
        requires live { IsHeard self.old.file reader }
        requires waits { first_waiting self.old.file reader ≡ Some position }
        ensures next { result ≡ Ok true
            → AreReadingBut (Some reader) beginnings.new self.new }
        ensures last { result ≡ Ok false → AreReading beginnings.new self.new }
        ensures continues { Continues beginnings.old self.old beginnings.new self.new }
        ensures requests { beginnings.new.holdings.requests ≡ beginnings.old.holdings.requests }
        ensures causes { AddsBlames (IsPartFault beginnings.old.holdings.requests.entries
            self.new.file) beginnings.old.holdings.blamed beginnings.new.holdings.blamed }
        ensures live { result ≡ Ok true → IsHeard self.new.file reader }
        ensures taken { result ≡ Ok true → waiting_at self.new.file reader
            ≡ drop 1 (waiting_at self.old.file reader) }
    {
        let Some(bytes) = bytes_at(beginnings.holdings().requests(), position) else {
            return Ok(false);
        };
        match self.file.take(reader, bytes) {
            Ok(()) => Ok(true),
            Err(TreeFault::OutOfMemory) => Err(AllocError),
            Err(TreeFault::Check(check)) => {
                self.blame(beginnings, reader, check)?;
                Ok(false)
            }
        }
    }

    // The share that a reader reads failed a check: it is read no more.
    pub(crate) fn blame(
        &mut self,
        beginnings: &mut Beginnings,
        reader: usize,
        check: Check,
    ) -> Result<(), AllocError>
        requires reading { AreReadingBut (Some reader) beginnings.old self.old }
        requires live { IsHeard self.old.file reader }
        ensures reading { OnOk result (AreReading beginnings.new self.new) }
        ensures continues { Continues beginnings.old self.old beginnings.new self.new }
        ensures requests { beginnings.new.holdings.requests ≡ beginnings.old.holdings.requests }
        ensures adds { AddsBlames (IsBlameOf beginnings.old self.old reader check)
            beginnings.old.holdings.blamed beginnings.new.holdings.blamed }
        ensures handout { self.new.file.handout ≡ self.old.file.handout }
        ensures fewer { OnOk result (left_count beginnings.new.holdings.table.holdings
            < left_count beginnings.old.holdings.table.holdings) }
    {
        beginnings.blame(self.holdings[reader], check)?;
        self.end_gone(beginnings);
        Ok(())
    }

    // The reader of a share that a message took away is read no more. Bytes take none away, so no
    // reader is looked at where they come.
    pub(crate) fn follow(&mut self, beginnings: &Beginnings, news: News)
        requires heard { HasHeard beginnings.now self.old news }
        ensures linked { AreLinked beginnings.now self.new }
        ensures continues { Continues beginnings.now self.old beginnings.now self.new }
        ensures awaits { (but : Option ℕ) → AreAwaited but beginnings.now self.old
            → AreAwaited but beginnings.now self.new }
        ensures holdings { self.new.holdings ≡ self.old.holdings }
        ensures handout { self.new.file.handout ≡ self.old.file.handout }
    {
        match news {
            News::Bytes(_, _) => {}
            _ => self.end_gone(beginnings),
        }
    }

    // The readers of shares that are not left any more are read no more.
    pub(crate) fn end_gone(&mut self, beginnings: &Beginnings)
        requires kept { AreKept beginnings.now self.old }
        requires live { (reader : ℕ) → IsHeard self.old.file reader
            → IsReadNow beginnings.now self.old reader ⊎ IsGone beginnings.now self.old reader }
        ensures linked { AreLinked beginnings.now self.new }
        ensures continues { Continues beginnings.now self.old beginnings.now self.new }
        ensures awaits { (but : Option ℕ) → AreAwaited but beginnings.now self.old
            → AreAwaited but beginnings.now self.new }
        ensures holdings { self.new.holdings ≡ self.old.holdings }
        ensures handout { self.new.file.handout ≡ self.old.file.handout }
    {
        while let Some(reader) = self.first_gone(beginnings) {
            self.asked_up = false;
            self.file.end(reader);
        }
    }

    // The first reader, of those that are read and then of those that are put aside, of which the
    // share is not left any more.
    fn first_gone(&self, beginnings: &Beginnings) -> Option<usize>
        requires kept { AreKept beginnings.now self.now }
        ensures live { IfSome result (IsHeard self.now.file) }
        ensures gone { IfSome result (IsGone beginnings.now self.now) }
        ensures none { IfNone result ((reader : ℕ) → IsHeard self.now.file reader
            → IsGone beginnings.now self.now reader → ⊥) }
    {
        match self.gone_among(beginnings, self.file.live()) {
            Some(reader) => Some(reader),
            None => self.gone_among(beginnings, self.file.aside()),
        }
    }

    // The first of these readers of which the share is not left any more.
    fn gone_among(&self, beginnings: &Beginnings, readers: &[usize]) -> Option<usize>
        requires kept { AreKept beginnings.now self.now }
        requires heard { (reader : ℕ) → Contains readers.now reader
            → IsHeard self.now.file reader }
        ensures among { IfSome result (Contains readers.now) }
        ensures gone { IfSome result (IsGone beginnings.now self.now) }
        ensures none { IfNone result ((reader : ℕ) → Contains readers.now reader
            → IsGone beginnings.now self.now reader → ⊥) }
    {
        for reader in readers {
            if self.is_gone(beginnings, *reader) {
                return Some(*reader);
            }
        }
        None
    }

    // Whether the share that a reader reads is not left any more.
    fn is_gone(&self, beginnings: &Beginnings, reader: usize) -> bool
        requires kept { AreKept beginnings.now self.now }
        requires live { IsHeard self.now.file reader }
        ensures gone { result ≡ true → IsGone beginnings.now self.now reader }
        ensures left { result ≡ false → IsGone beginnings.now self.now reader → ⊥ }
    {
        !beginnings.holdings().holdings()[self.holdings[reader]].left
    }
}
