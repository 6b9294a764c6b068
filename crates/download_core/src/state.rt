//! A download's record and its file, and what is read of them.

ghost use Rattle.std.specs.Prelude.{◌≡◌, ◌<◌, [], None, IfOk, IfNone, IfSome, nat_eq};
ghost use Rattle.std.specs.List.{IsDistinct};
ghost use Rattle.cap_text.specs.Cap.{verify_cap_of};
ghost use Rattle.request_record.specs.Asking.{AsksOnce, begun};
ghost use Rattle.request_record.specs.Record.{IsRecord};
ghost use Rattle.download_shares.specs.Opening.{nobody};
ghost use Rattle.download_core.specs.Evidence.{IsAcceptedBlock, IsEvidenceOf};
ghost use Rattle.download_core.specs.Given.{IsFileIfFound, IsRightIfFound};
ghost use Rattle.download_core.specs.Reads.{AsksOrReads};
ghost use Rattle.download_core.specs.Steps.{AreOpened, entries_of, found_of};

use crate::file_reading::FileReading;
use cap_text::{ReadCap, VerifyCap};
use download_shares::{Beginnings, bytes_at};
use proved_parts::{Bytes, Evidence, PartList};
use std::alloc::{AllocError, Global};
use wire::message::NodeId;

/// A file whose extension block is accepted.
#[derive(Drop)]
pub(crate) struct FoundFile {
    /// The position of the request whose answer is the extension block.
    pub(crate) position: usize,
    pub(crate) reading: FileReading,
}

/// A download but for how it stands.
#[derive(Drop)]
pub(crate) struct Machine {
    pub(crate) alloc: Global,
    pub(crate) cap: ReadCap,
    pub(crate) verify: VerifyCap,
    pub(crate) from: u64,
    pub(crate) to: u64,
    // Whether readers that are late are put aside, while others may be read in their place.
    pub(crate) pressing: bool,
    pub(crate) beginnings: Beginnings,
    pub(crate) found: Option<FoundFile>,
}

impl Machine {
    /// Asks each of these servers, which are distinct, which shares it holds. Where it is pressing,
    /// it puts readers aside that are late, while others may be read in their place.
    pub(crate) fn begin(
        alloc: Global,
        cap: ReadCap,
        from: u64,
        to: u64,
        pressing: bool,
        servers: &[NodeId],
        session: u64,
        now: u64,
    ) -> Result<Machine, AllocError>
        requires distinct { IsDistinct nat_eq servers.now }
        ensures cap { IfOk result (λ m. m.cap ≡ cap) }
        ensures verify { IfOk result (λ m. m.verify ≡ verify_cap_of cap) }
        ensures from_is { IfOk result (λ m. m.from ≡ from) }
        ensures to_is { IfOk result (λ m. m.to ≡ to) }
        ensures requests { IfOk result (λ m.
            m.beginnings.holdings.requests ≡ begun servers.now session now) }
        ensures blamed { IfOk result (λ m. m.beginnings.holdings.blamed ≡ []) }
        ensures opened { IfOk result (λ m. AreOpened cap.total nobody m.beginnings) }
        ensures found { IfOk result (λ m. m.found ≡ None) }
        ensures needed { IfOk result (λ _. 0 < cap.needed) }
    {
        Ok(Machine {
            alloc,
            cap,
            verify: cap.to_verify(),
            from,
            to,
            pressing,
            beginnings: Beginnings::begin(alloc, cap.total(), servers, session, now)?,
            found: None,
        })
    }

    /// The extension block that is accepted.
    pub(crate) fn extension_block(&self) -> Option<&[u8]>
        requires file { IsFileIfFound self.now.cap self.now.from self.now.to (entries_of self.now)
            (found_of self.now.found) }
        ensures some { IfSome result (λ block. IsAcceptedBlock (entries_of self.now)
            (found_of self.now.found) block.now) }
        ensures none { IfNone result (found_of self.now.found ≡ None) }
    {
        let Some(found) = &self.found else {
            return None;
        };
        let requests = self.beginnings.holdings().requests();
        let Some(text) = bytes_at(requests, found.position) else {
            unreachable!();
        };
        Some(text)
    }

    /// What proves the segments that were made so far.
    pub(crate) fn evidence(&self, alloc: Global) -> Result<Option<Evidence>, AllocError>
        requires verify { self.now.verify ≡ verify_cap_of self.now.cap }
        requires file { IsFileIfFound self.now.cap self.now.from self.now.to (entries_of self.now)
            (found_of self.now.found) }
        ensures { IfOk result (IsEvidenceOf self.now.verify (entries_of self.now)
            (found_of self.now.found)) }
    {
        let Some(found) = &self.found else {
            return Ok(None);
        };
        let requests = self.beginnings.holdings().requests();
        let Some(text) = bytes_at(requests, found.position) else {
            unreachable!();
        };
        let extension_block = Bytes::from_vec(Vec::from_slice(alloc, text)?);
        let parts = found.reading.file().evidence_parts(alloc, requests)?;
        Ok(Some(Evidence {
            extension_block,
            parts: PartList::from_vec(parts),
        }))
    }

    /// A law: what is read and made of the file is right, servers are asked which shares they hold
    /// and for shares that they offered, no byte is asked twice of one server, and no request is
    /// sent more than four times. The call does nothing.
    #[tactic(auto, using(crate::proofs::ReadLemmas::asks_or_reads))]
    pub(crate) fn know_right(&self)
        ensures file { IsRightIfFound (found_of self.now.found) }
        ensures asks { AsksOrReads (entries_of self.now) }
        ensures once { AsksOnce (entries_of self.now) }
        ensures recorded { IsRecord self.now.beginnings.holdings.requests }
    {
        let _ = self.beginnings.holdings().requests().len();
        if let Some(found) = &self.found {
            let _ = found.reading.file().geometry();
        }
    }
}
