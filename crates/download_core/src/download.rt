//! A download: bytes of a file by its cap, from servers, only with what proves them.

ghost use Rattle.std.specs.Prelude.{◌≡◌, ◌≢◌, ◌↔◌, ℕ, ◌<◌, ◌≤◌, [], Err, IfOk, IfSome, IsOk, OnErr};
ghost use Rattle.std.specs.Prelude.{IfNone, IsTrue, None, OnOk, false, is_some, nat_eq, true};
ghost use Rattle.std.specs.List.{IsDistinct};
ghost use Rattle.cap_text.specs.Cap.{verify_cap_of};
ghost use Rattle.proved_parts.specs.Evidence.{IsProved};
ghost use Rattle.request_record.specs.Follow.{Follows, IsSaid, Nothing};
ghost use Rattle.download_core.specs.Calls.{GivesUp, download_calls};
ghost use Rattle.download_core.specs.Evidence.{HasAllParts, IsAcceptedBlock, IsEvidenceOf};
ghost use Rattle.download_core.specs.Hashed.{GivenAreShown, IsGivenBy};
ghost use Rattle.download_core.specs.Moves.{Advances, Begins, StopsAt, TakesPiece, TicksOn};
ghost use Rattle.download_core.specs.Moves.{asked_servers};
ghost use Rattle.download_core.specs.Prompt.{HoldsNothingBack};
ghost use Rattle.download_core.specs.Proving.{EvidenceIsOfTheGiven};
ghost use Rattle.download_core.specs.Right.{IsRight};
ghost use Rattle.download_core.specs.Sections.{LaterReadsLieInSections, ReadsInSections};
ghost use Rattle.download_core.specs.Sections.{ReadsStayInSections};
ghost use Rattle.download_core.specs.Sending.{Takes, first_to_send};
ghost use Rattle.download_core.specs.Tested.{InconsistentShowsNoCodeWord, RightBlocksLead};
ghost use Rattle.download_core.specs.Whole.{TakenFollow, WholeFiles};
ghost use Rattle.download_core.specs.declared.status.DownloadStatus.TheVariants.{Done, Failed};
ghost use Rattle.download_core.specs.declared.status.DownloadStatus.TheVariants.{NotEnoughShares};
ghost use Rattle.download_core.specs.declared.status.DownloadStatus.TheVariants.{Inconsistent};
ghost use Rattle.download_core.specs.declared.status.DownloadStatus.TheVariants.{Running};

use crate::ending::is_running;
use crate::state::Machine;
use crate::status::{Blame, DownloadError, DownloadStatus, Piece};
use cap_text::ReadCap;
use proved_parts::Evidence;
use request_record::operation::Operation;
use std::alloc::{AllocError, Global};
use std::marker::Model;
use wire::message::{Message, NodeId};

/// A download of the bytes of a file from one offset to before another.
#[derive(Drop)]
pub struct Download {
    servers: Vec<NodeId>,
    machine: Machine,
    status: DownloadStatus,
}

impl Model for Download {
    ghost use Rattle.download_core.specs.State.{DownloadState};
    ghost use Rattle.download_core.specs.Steps.{IsKept, state_of};

    ghost Value = { DownloadState };

    ghost view = { λ d. state_of d.machine d.servers.items d.status };

    ghost invariant = { λ d. IsKept d.machine d.status };
}

impl Download {
    /// Asks each of the servers, which are distinct, which shares it holds. An empty range is done,
    /// and nobody is asked. `BadRange` where the range ends before it begins or behind the file's
    /// end.
    pub fn start(
        alloc: Global,
        cap: ReadCap,
        from: u64,
        to: u64,
        servers: &[NodeId],
        session: u64,
        now: u64,
    ) -> Result<Download, DownloadError>
        requires distinct { IsDistinct nat_eq servers.now }
        ensures begins { IfOk result (Begins cap from to servers.now session now) }
        ensures range { IfOk result (λ _. (from ≤ to) × (to ≤ cap.size)) }
        ensures bad_range { (result ≡ Err DownloadError.BadRange)
            ↔ (((from ≤ to) × (to ≤ cap.size)) → ⊥) }
    {
        if to < from || cap.size() < to {
            return Err(DownloadError::BadRange);
        }
        Download::begin(alloc, cap, from, to, false, servers, session, now).map_err(
            |_| DownloadError::OutOfMemory,
        )
    }

    /// As `start`, for servers that may be slow: a share whose server is late with what is asked of
    /// it, as a request is sent again, is put aside while another may be read in its place. What
    /// comes of it later is taken still, and it is read again where it is needed.
    pub fn start_pressing(
        alloc: Global,
        cap: ReadCap,
        from: u64,
        to: u64,
        servers: &[NodeId],
        session: u64,
        now: u64,
    ) -> Result<Download, DownloadError>
        requires distinct { IsDistinct nat_eq servers.now }
        ensures begins { IfOk result (Begins cap from to servers.now session now) }
        ensures range { IfOk result (λ _. (from ≤ to) × (to ≤ cap.size)) }
        ensures bad_range { (result ≡ Err DownloadError.BadRange)
            ↔ (((from ≤ to) × (to ≤ cap.size)) → ⊥) }
    {
        if to < from || cap.size() < to {
            return Err(DownloadError::BadRange);
        }
        Download::begin(alloc, cap, from, to, true, servers, session, now).map_err(
            |_| DownloadError::OutOfMemory,
        )
    }

    fn begin(
        alloc: Global,
        cap: ReadCap,
        from: u64,
        to: u64,
        pressing: bool,
        servers: &[NodeId],
        session: u64,
        now: u64,
    ) -> Result<Download, AllocError>
        requires ordered { from ≤ to }
        requires within { to ≤ cap.size }
        requires distinct { IsDistinct nat_eq servers.now }
        ensures { IfOk result (Begins cap from to servers.now session now) }
    {
        let asked = servers_to_ask(from, to, servers);
        let machine = Machine::begin(alloc, cap, from, to, pressing, asked, session, now)?;
        Ok(Download {
            servers: Vec::from_slice(alloc, servers)?,
            machine,
            status: first_status(from, to, servers),
        })
    }

    /// Where it stands. While it runs a request is outstanding. No request is sent more than four
    /// times.
    pub fn status(&self) -> DownloadStatus
        ensures value { result ≡ self.now.status }
        ensures right { IsRight self.now }
    {
        self.machine.know_right();
        self.status
    }

    /// The shares at servers that failed a check, in the order in which they did.
    pub fn blamed(&self) -> &[Blame]
        ensures { result.now ≡ self.now.blamed }
    {
        self.machine.beginnings.holdings().blamed()
    }

    /// Is there a message to send?
    pub fn has_outgoing(&self) -> bool
        ensures { result ≡ is_some (first_to_send self.now) }
    {
        let requests = self.machine.beginnings.holdings().requests();
        !has_failed(self.status) && requests.first().is_some()
    }

    /// Takes the next piece of the file.
    pub fn take_bytes(&mut self) -> Option<Piece>
        ensures takes { TakesPiece self.old result self.new }
        ensures given { IfSome result (IsGivenBy self.new) }
    {
        self.machine.take_piece()
    }

    /// The extension block that the download accepted. `None` where it accepted none yet.
    pub fn extension_block(&self) -> Option<&[u8]>
        ensures some { IfSome result (λ block. IsAcceptedBlock self.now.requests.entries
            self.now.found block.now) }
        ensures none { IfNone result (self.now.found ≡ None) }
    {
        self.machine.know_right();
        self.machine.extension_block()
    }

    /// What proves the segments that were made so far: a part for each, in order. `None` where no
    /// extension block is accepted.
    pub fn evidence(&self, alloc: Global) -> Result<Option<Evidence>, AllocError>
        ensures proved { IfOk result (λ evidence. IfSome evidence
            (IsProved (verify_cap_of self.now.cap))) }
        ensures made { IfOk result (IsEvidenceOf (verify_cap_of self.now.cap)
            self.now.requests.entries self.now.found) }
        // Where the whole file was made, each segment has its part.
        ensures whole { self.now.status ≡ Done → self.now.from ≡ 0
            → self.now.to ≡ self.now.cap.size → IfOk result (HasAllParts self.now.found) }
    {
        self.machine.know_right();
        self.machine.evidence(alloc)
    }
}

impl Operation for Download {
    ghost calls = { download_calls };

    fn is_running(&self) -> bool {
        is_running(self.status)
    }

    /// Takes the next message to send, and the node that it is for. One that failed sends nothing.
    /// It needs no memory.
    fn take_outgoing(&mut self, _alloc: Global) -> Result<Option<(NodeId, Message)>, AllocError>
        ensures ok { IfOk result (λ taken. Takes self.old taken self.new) }
        ensures err { OnErr result (GivesUp self.old self.new) }
        ensures follows { Follows Nothing self.old.requests self.new.requests }
        ensures never_fails { IsOk result }
        // A Read asks for bytes of a beginning, or of one section for the range.
        ensures reads { IfOk result (λ taken. IfSome taken (ReadsInSections self.old)) }
    {
        if has_failed(self.status) {
            return Ok(None);
        }
        self.machine.know_right();
        Ok(self.machine.take_outgoing())
    }

    /// Takes a message from a node over, at a second. On an `Err`, which only one that runs gives,
    /// it has failed; what it has stays.
    fn on_message(&mut self, from: NodeId, message: Message, now: u64) -> Result<(), AllocError>
        ensures ok { OnOk result (Advances from message now self.old self.new) }
        ensures err { OnErr result (GivesUp self.old self.new) }
        ensures follows { Follows (IsSaid from message self.old.requests.session)
            self.old.requests self.new.requests }
        // On an `Err` too.
        ensures advances { Advances from message now self.old self.new }
        ensures fails { OnErr result (self.new.status ≡ Failed) }
        // Only an `Err` makes it one that failed.
        ensures fails_not { OnOk result (self.old.status ≢ Failed → self.new.status ≢ Failed) }
        ensures ended { self.old.status ≢ Running → IsOk result }
        // What is there is handed out at once, but that eight segments may be awaited.
        ensures prompt { self.new.status ≡ Running → HoldsNothingBack true self.new }
    {
        match self.machine.hear(self.status, from, message, now) {
            Ok(status) => {
                self.status = status;
                Ok(())
            }
            Err(error) => {
                self.status = DownloadStatus::Failed;
                Err(error)
            }
        }
    }

    /// Takes note of a second. On an `Err` one that ran has failed, and what it has stays; one that
    /// ended is as it was.
    fn tick(&mut self, now: u64) -> Result<(), AllocError>
        ensures ok { OnOk result (TicksOn now self.old self.new) }
        ensures err { OnErr result (GivesUp self.old self.new) }
        ensures follows { Follows Nothing self.old.requests self.new.requests }
        ensures stops { OnErr result (StopsAt now self.old self.new) }
        // Only an `Err` makes it one that failed.
        ensures fails_not { OnOk result (self.old.status ≢ Failed → self.new.status ≢ Failed) }
        // What is there is handed out at once.
        ensures prompt { self.new.status ≡ Running → HoldsNothingBack false self.new }
    {
        if !is_running(self.status) {
            return self.machine.note(now);
        }
        match self.machine.pass(now) {
            Ok(status) => {
                self.status = status;
                Ok(())
            }
            Err(error) => {
                self.status = DownloadStatus::Failed;
                Err(error)
            }
        }
    }
}

// The servers that are asked which shares they hold.
fn servers_to_ask<'a>(from: u64, to: u64, servers: &'a [NodeId]) -> &'a [NodeId]
    ensures { result.now ≡ asked_servers from to servers.now }
{
    if from == to { &[] } else { servers }
}

// Where a download stands that begins.
fn first_status(from: u64, to: u64, servers: &[NodeId]) -> DownloadStatus
    ensures done { from ≡ to → result ≡ Done }
    ensures runs { from ≢ to → servers.now ≢ [] → result ≡ Running }
    ensures alone { from ≢ to → servers.now ≡ [] → result ≡ NotEnoughShares }
    ensures is_done { result ≡ Done → from ≡ to }
    ensures is_running { result ≡ Running → (from ≢ to) × (servers.now ≢ []) }
    ensures is_alone { result ≡ NotEnoughShares → servers.now ≡ [] }
    ensures others { result ≢ Inconsistent }
{
    if from == to {
        DownloadStatus::Done
    } else if servers.is_empty() {
        DownloadStatus::NotEnoughShares
    } else {
        DownloadStatus::Running
    }
}

// Whether a download that stands so has failed.
fn has_failed(status: DownloadStatus) -> bool
    ensures { IsTrue result ↔ (status ≡ Failed) }
{
    matches!(status, DownloadStatus::Failed)
}

/// A law of the definitions: each piece that a download gave is proved by what the download hashed.
/// The law is the contract; the call does nothing.
pub fn given_are_shown()
    ensures { GivenAreShown }
{}

/// A law of the definitions: a download that is inconsistent accepted the cap's extension block,
/// and its file is no code word by what the download tested. The law is the contract; the call does
/// nothing.
pub fn inconsistent_shows_no_code_word()
    ensures { InconsistentShowsNoCodeWord }
{}

/// A law of the definitions: each right block that a reader of a download holds leads to the roots
/// that the accepted extension block tells, by what the download tested. The law is the contract;
/// the call does nothing.
pub fn right_blocks_lead()
    ensures { RightBlocksLead }
{}

/// A law of the definitions: before an extension block is accepted a download reads a share only in
/// its header and where that names the extension block, and then within one section for its range.
/// The law is the contract; the call does nothing.
pub fn reads_stay_in_sections()
    ensures { ReadsStayInSections }
{}

/// A law of the definitions: what a download asks for once an extension block is accepted, of any
/// share, lies in blocks of segments that its range touches, or in a tree. The law is the contract;
/// the call does nothing.
pub fn later_reads_lie_in_sections()
    ensures { LaterReadsLieInSections }
{}

/// A law of the definitions: the pieces that a download gave, from the first byte of the cap's file
/// to its last, are the file of the cap: a ciphertext decrypted, whose segments' hashes have the
/// root in the extension block that the download accepted. The law is the contract; the call does
/// nothing.
pub fn whole_files()
    ensures { WholeFiles }
{}

/// A law of the definitions: a piece that is taken follows those that were taken before it. So the
/// pieces of a download that is done, each taken, reach from its first byte to its last. The law is
/// the contract; the call does nothing.
pub fn taken_follow()
    ensures { TakenFollow }
{}

/// A law of the definitions: each piece that a download gave is a slice of the segment of a part of
/// its evidence, decrypted. The law is the contract; the call does nothing.
pub fn evidence_is_of_the_given()
    ensures { EvidenceIsOfTheGiven }
{}
