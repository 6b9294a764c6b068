//! How a download ends, and why nothing more is made of a file now.

ghost use Rattle.std.specs.Prelude.{◌≡◌, ◌≢◌, ◌↔◌, ◌⊎◌, ◌<◌, None, IfOk, IsTrue, OnOk, false, min};
ghost use Rattle.request_record.specs.Record.{outstanding_count};
ghost use Rattle.download_shares.specs.Numbers.{read_count};
ghost use Rattle.download_shares.specs.Table.{NoneIsFree, IsTable};
ghost use Rattle.download_shares.specs.Opening.{nobody};
ghost use Rattle.download_core.specs.declared.status.DownloadStatus.TheVariants.{Failed, Running};
ghost use Rattle.download_core.specs.Prompt.{IsPromptIfFound};
ghost use Rattle.download_core.specs.Reading.{AreReading};
ghost use Rattle.download_core.specs.ReadingSteps.{IsAtEnd, IsStuck};
ghost use Rattle.download_core.specs.Steps.{AreOpened, EndsAs, IsFor, IsUnderWay, MovesOn};
ghost use Rattle.download_core.specs.Steps.{entries_of, found_of, status_of};

use crate::file_reading::{FileReading, Settled};
use crate::pressing::late_beginnings;
use crate::state::Machine;
use crate::status::DownloadStatus;
use download_shares::{Beginnings, Holdings};
use std::alloc::AllocError;

/// How many shares are opened at once at most.
const OPENINGS: usize = 4;

impl Machine {
    /// Goes on as far as it can without another answer, and tells where it stands. Where it is
    /// patient it waits for eight segments that are on their way.
    pub(crate) fn settle(&mut self, patient: bool) -> Result<DownloadStatus, AllocError>
        requires { IsUnderWay self.old }
        ensures moves { MovesOn self.old self.new }
        ensures none { self.old.found ≡ None → self.new.found ≡ None }
        ensures ends { IfOk result (EndsAs self.new) }
        ensures well { IfOk result (λ status. status ≢ Failed) }
        ensures prompt { IfOk result (λ status. status ≡ Running
            → IsPromptIfFound patient (entries_of self.new) (found_of self.new.found)) }
    {
        match &mut self.found {
            Some(found) => {
                let settled = found.reading.settle(&mut self.beginnings, patient)?;
                Ok(status_by(settled))
            }
            None => self.settle_opening(),
        }
    }

    // Opens more shares, where no extension block is accepted, and tells where it stands.
    fn settle_opening(&mut self) -> Result<DownloadStatus, AllocError>
        requires wanted { IsFor self.old }
        requires opened { AreOpened self.old.cap.total nobody self.old.beginnings }
        requires none { self.old.found ≡ None }
        ensures moves { MovesOn self.old self.new }
        ensures none { self.new.found ≡ None }
        ensures ends { IfOk result (EndsAs self.new) }
        ensures well { IfOk result (λ status. status ≢ Failed) }
    {
        self.open_more()?;
        if 0 < self.beginnings.holdings().requests().outstanding() {
            Ok(DownloadStatus::Running)
        } else {
            Ok(DownloadStatus::NotEnoughShares)
        }
    }

    // Opens shares, until as many as may be are opened at once, or none may be opened.
    fn open_more(&mut self) -> Result<(), AllocError>
        requires opened { AreOpened self.old.cap.total nobody self.old.beginnings }
        ensures opened { OnOk result (AreOpened self.old.cap.total nobody self.new.beginnings) }
        ensures found { self.new.found ≡ self.old.found }
        ensures needed { 0 < self.old.cap.needed }
        ensures enough { OnOk result ((0 < read_count self.new.beginnings.holdings.table.numbers)
            ⊎ NoneIsFree self.new.beginnings.holdings.table) }
        ensures moves { self.old.found ≡ None → MovesOn self.old self.new }
    {
        let wanted = self.openings();
        while self.beginnings.holdings().reading() < wanted {
            let Some(holding) = self.beginnings.holdings().choose() else {
                return Ok(());
            };
            self.beginnings.open(holding)?;
        }
        Ok(())
    }

    // How many shares are opened at once: as many as are needed, four at most. Where it is
    // pressing, one more for each that is late: for speed alone, so no clause says how many.
    fn openings(&self) -> usize
        ensures some { 0 < result }
        ensures needed { 0 < self.now.cap.needed }
        ensures plain { self.now.pressing ≡ false → result ≡ min self.now.cap.needed 4 }
    {
        let most = usize::from(self.cap.needed()).min(OPENINGS);
        if self.pressing {
            return most.saturating_add(late_beginnings(&self.beginnings));
        }
        most
    }
}

/// Whether a download that stands so runs.
pub(crate) fn is_running(status: DownloadStatus) -> bool
    ensures { IsTrue result ↔ (status ≡ Running) }
{
    matches!(status, DownloadStatus::Running)
}

// Where a download stands whose file stands so.
fn status_by(settled: Settled) -> DownloadStatus
    ensures status { result ≡ status_of settled }
    ensures well { result ≢ Failed }
{
    match settled {
        Settled::Complete => DownloadStatus::Done,
        Settled::Inconsistent => DownloadStatus::Inconsistent,
        Settled::Waits => DownloadStatus::Running,
        Settled::TooFew => DownloadStatus::NotEnoughShares,
    }
}

/// Why nothing more is made now: something is waited for, or too few shares are left.
pub(crate) fn why_not(reading: &FileReading, beginnings: &Beginnings) -> Settled
    requires reading { AreReading beginnings.now reading.now }
    requires stuck { IsStuck beginnings.now reading.now }
    ensures waits { result ≡ Settled.Waits
        → 0 < outstanding_count beginnings.now.holdings.requests.entries }
    ensures too_few { result ≡ Settled.TooFew → IsAtEnd beginnings.now reading.now }
    ensures only { (result ≡ Settled.Waits) ⊎ (result ≡ Settled.TooFew) }
{
    know_table(beginnings.holdings());
    if 0 < beginnings.holdings().requests().outstanding() {
        Settled::Waits
    } else {
        Settled::TooFew
    }
}

// A law: the holdings that are read are left. The call does nothing.
fn know_table(holdings: &Holdings)
    ensures { IsTable holdings.now.table }
{
    let _ = holdings.holdings();
}
