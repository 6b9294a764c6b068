//! How a check goes on to the next shares.

ghost use Rattle.std.specs.Prelude.{◌≡◌, ◌≢◌, ◌<◌, ◌≤◌, ◌+◌, []};
ghost use Rattle.std.specs.Prelude.{IfOk, IsTrue, OnOk, Some, false, length, slice_get, slice_set};
ghost use Rattle.request_record.specs.Record.{outstanding_count};
ghost use Rattle.checker.specs.Book.{AreAwaited, AsksMore, HasBook, IsKept, IsSafe, IsWithOffers};
ghost use Rattle.checker.specs.declared.offers.Offer.{Offer};
ghost use Rattle.checker.specs.declared.offers.Stage.TheVariants.{Read};
ghost use Rattle.checker.specs.declared.status.CheckStatus.TheVariants.{Failed};

use crate::offers::Stage;
use crate::state::Machine;
use crate::status::CheckStatus;
use share_reading::ShareReading;
use std::alloc::AllocError;

/// How many requests may wait at once beside one for each server.
const MORE_AT_ONCE: usize = 64;

impl Machine {
    /// Begins to read more shares, as many as may be read at once, and tells where it stands.
    pub(crate) fn settle(&mut self) -> Result<CheckStatus, AllocError>
        requires safe { IsSafe self.old }
        requires book { HasBook self.old [] }
        requires awaited { AreAwaited self.old.offers.items }
        ensures kept { IfOk result (IsKept self.new) }
        ensures asks { AsksMore self.old self.new }
        ensures stands { IfOk result (λ status. status ≢ Failed) }
        ensures failed { IsSafe self.new }
    {
        while self.begins_more() {
            self.begin_next()?;
        }
        Ok(self.standing())
    }

    // Whether one more share is begun: one is where no request waits. Else no more are begun than
    // there is room for, and no more than so many requests may wait.
    fn begins_more(&self) -> bool
        ensures more { IsTrue result → self.now.begun < length self.now.offers.items }
        ensures all { result ≡ false → outstanding_count self.now.requests.entries ≡ 0
            → length self.now.offers.items ≤ self.now.begun }
    {
        let waiting = self.requests.outstanding();
        let most = self.told.len().saturating_add(MORE_AT_ONCE);
        let has_room = waiting < most && self.reading < self.room;
        self.begun < self.offers.len() && (waiting == 0 || has_room)
    }

    // Begins to read the next share.
    fn begin_next(&mut self) -> Result<(), AllocError>
        requires safe { IsSafe self.old }
        requires book { HasBook self.old [] }
        requires more { self.old.begun < length self.old.offers.items }
        ensures book { OnOk result (HasBook self.new []) }
        ensures awaited { AreAwaited self.old.offers.items
            → OnOk result (AreAwaited self.new.offers.items) }
        ensures asks { AsksMore self.old self.new }
        ensures safe { IsSafe self.new }
        ensures less { OnOk result ((self.new.begun ≡ self.old.begun + 1)
            × (length self.new.offers.items ≡ length self.old.offers.items)) }
    {
        let reading = ShareReading::start();
        let offer = self.begin_reading(&reading);
        self.ask_on(offer, &reading)
    }

    // The next share is read from now on, and nothing is asked of it yet. Gives its position.
    fn begin_reading(&mut self, reading: &ShareReading) -> usize
        requires more { self.old.begun < length self.old.offers.items }
        ensures position { result ≡ self.old.begun }
        ensures begins { (o : Offer)
            → slice_get self.old.offers.items self.old.begun ≡ Some o
            → IsWithOffers self.old self.new (slice_set self.old.offers.items self.old.begun
            (record o { stage = Read reading.now })) (self.old.begun + 1) }
    {
        let offer = self.begun;
        self.offers[offer].stage = Stage::Read(*reading);
        self.begun += 1;
        self.reading = self.reading.saturating_add(1);
        offer
    }
}
