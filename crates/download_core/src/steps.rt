//! How a download takes what comes, sends, and hands out pieces.

ghost use Rattle.std.specs.Prelude.{◌≡◌, ◌≢◌, ℕ, List, None, IfOk, IsOk, OnErr, OnOk};
ghost use Rattle.std.specs.Prelude.{false, length, true};
ghost use Rattle.cap_text.specs.Cap.{verify_cap_of};
ghost use Rattle.download_shares.specs.Known.{AreBegun};
ghost use Rattle.download_shares.specs.BeginningMoves.{IsBlockAt};
ghost use Rattle.download_shares.specs.Opening.{IsFound};
ghost use Rattle.download_core.specs.declared.status.DownloadStatus.{DownloadStatus};
ghost use Rattle.download_core.specs.declared.status.DownloadStatus.TheVariants.{Failed, Running};
ghost use Rattle.download_core.specs.Moves.{Advances, StopsAt, TakesPiece, TicksOn};
ghost use Rattle.download_core.specs.Prompt.{IsPromptIfFound};
ghost use Rattle.download_core.specs.Sending.{Takes};
ghost use Rattle.download_core.specs.Steps.{HearsOf, IsFor, IsKept, IsUnderWay, MovesOn, OpensWith};
ghost use Rattle.download_core.specs.Steps.{PassesOn, entries_of, found_of, state_of};

use crate::ending::is_running;
use crate::file_reading::FileReading;
use crate::state::{FoundFile, Machine};
use crate::status::{DownloadStatus, Piece};
use download_shares::News;
use share_reading::Opened;
use std::alloc::AllocError;
use wire::message::{Message, NodeId};

impl Machine {
    /// Takes a message from a node, at a second, and tells where it stands then. Once it ended the
    /// message is noted in the record alone, which needs no memory.
    pub(crate) fn hear(
        &mut self,
        status: DownloadStatus,
        from: NodeId,
        message: Message,
        now: u64,
    ) -> Result<DownloadStatus, AllocError>
        requires { IsKept self.old status }
        ensures ok { IfOk result (λ ended. (servers : List ℕ) → Advances from message now
            (state_of self.old servers status) (state_of self.new servers ended)) }
        ensures err { OnErr result ((servers : List ℕ) → Advances from message now
            (state_of self.old servers status) (state_of self.new servers Failed)) }
        ensures kept { IfOk result (IsKept self.new) }
        ensures failed { IsKept self.new Failed }
        ensures ended { status ≢ Running → IsOk result }
        ensures well { status ≢ Failed → IfOk result (λ ended. ended ≢ Failed) }
        // What is there is handed out at once.
        ensures prompt { IfOk result (λ ended. ended ≡ Running
            → IsPromptIfFound true (entries_of self.new) (found_of self.new.found)) }
    {
        let heard = self.beginnings.take_answer(from, message, now);
        if !is_running(status) {
            return Ok(status);
        }
        let news = heard?;
        self.take_in(news)?;
        self.settle(true)
    }

    /// Takes note of a second in the record alone, once it ended. Without memory it is as it was.
    pub(crate) fn note(&mut self, now: u64) -> Result<(), AllocError>
        ensures ok { (status : DownloadStatus) → status ≢ Running → IsKept self.old status
            → OnOk result ((servers : List ℕ) → TicksOn now (state_of self.old servers status)
            (state_of self.new servers status)) }
        ensures err { OnErr result (self.new ≡ self.old) }
        ensures kept { (status : DownloadStatus) → status ≢ Running → IsKept self.old status
            → IsKept self.new status }
    {
        self.beginnings.tick(now)
    }

    /// Takes note of a second while it runs, and tells where it stands then.
    pub(crate) fn pass(&mut self, now: u64) -> Result<DownloadStatus, AllocError>
        requires { IsKept self.old Running }
        ensures ok { IfOk result (λ ended. (servers : List ℕ) → TicksOn now
            (state_of self.old servers Running) (state_of self.new servers ended)) }
        ensures err { OnErr result ((servers : List ℕ) → StopsAt now
            (state_of self.old servers Running) (state_of self.new servers Failed)) }
        ensures kept { IfOk result (IsKept self.new) }
        ensures failed { IsKept self.new Failed }
        ensures well { IfOk result (λ ended. ended ≢ Failed) }
        // What is there is handed out at once.
        ensures prompt { IfOk result (λ ended. ended ≡ Running
            → IsPromptIfFound false (entries_of self.new) (found_of self.new.found)) }
    {
        self.beginnings.tick(now)?;
        self.end_lost()?;
        self.settle(false)
    }

    /// Takes the next message to send, and the node that it is for.
    pub(crate) fn take_outgoing(&mut self) -> Option<(NodeId, Message)>
        requires verify { self.old.verify ≡ verify_cap_of self.old.cap }
        ensures takes { (servers : List ℕ) (status : DownloadStatus) → status ≢ Failed → Takes
            (state_of self.old servers status) result (state_of self.new servers status) }
        ensures kept { (status : DownloadStatus) → IsKept self.old status
            → IsKept self.new status }
    {
        self.know_right();
        self.beginnings.send_next(*self.verify.storage_index())
    }

    /// Takes the first piece that is ready.
    pub(crate) fn take_piece(&mut self) -> Option<Piece>
        ensures takes { (servers : List ℕ) (status : DownloadStatus) → TakesPiece
            (state_of self.old servers status) result (state_of self.new servers status) }
        ensures kept { (status : DownloadStatus) → IsKept self.old status
            → IsKept self.new status }
    {
        match &mut self.found {
            Some(found) => found.reading.take_piece(),
            None => None,
        }
    }

    // Takes what a message brought.
    fn take_in(&mut self, news: News) -> Result<(), AllocError>
        requires { HearsOf self.old news }
        ensures way { OnOk result (IsUnderWay self.new) }
        ensures moves { MovesOn self.old self.new }
    {
        match &mut self.found {
            Some(found) => found.reading.hear(&mut self.beginnings, &self.verify, news),
            None => self.open_on(news),
        }
    }

    // Takes the next bytes of the beginning of a share, where no extension block is accepted.
    fn open_on(&mut self, news: News) -> Result<(), AllocError>
        requires wanted { IsFor self.old }
        requires opens { OpensWith self.old.cap.total self.old.beginnings news }
        requires none { self.old.found ≡ None }
        ensures way { OnOk result (IsUnderWay self.new) }
        ensures moves { MovesOn self.old self.new }
    {
        let News::Beginning(holding, position) = news else {
            return Ok(());
        };
        match self.beginnings.go_on(&self.verify, holding, position)? {
            Some(opened) => self.accept(holding, position, &opened),
            None => Ok(()),
        }
    }

    // Accepts the extension block that answered the request at a position, of a holding's share.
    fn accept(&mut self, holding: usize, position: usize, opened: &Opened) -> Result<(), AllocError>
        requires wanted { IsFor self.old }
        requires known { AreBegun self.old.beginnings }
        requires count { length self.old.beginnings.holdings.table.numbers
            ≡ self.old.cap.total }
        requires found { IsFound self.old.beginnings holding }
        requires block { IsBlockAt self.old.verify (entries_of self.old) position opened.now }
        requires none { self.old.found ≡ None }
        ensures way { OnOk result (IsUnderWay self.new) }
        ensures moves { MovesOn self.old self.new }
    {
        let reading = FileReading::new(
            self.alloc,
            self.cap.key(),
            &opened.ueb,
            &opened.geometry,
            self.from,
            self.to,
        )?;
        self.found = Some(FoundFile { position, reading });
        self.beginnings.accept(&opened.geometry, holding)
    }

    // After a second the shares of which a request is lost are read no more, and readers that are
    // late may be put aside.
    fn end_lost(&mut self) -> Result<(), AllocError>
        requires { PassesOn self.old }
        ensures way { OnOk result (IsUnderWay self.new) }
        ensures moves { MovesOn self.old self.new }
    {
        match &mut self.found {
            Some(found) => found.reading.pass(&self.beginnings, self.pressing),
            None => Ok(()),
        }
    }
}
