//! The file of a download whose extension block is accepted.

ghost use Rattle.std.specs.Prelude.{◌≡◌, ◌≢◌, ◌↔◌, ℕ, ◌-◌, ◌<◌, ◌≤◌, ◌++◌, ◌∷◌, [], List};
ghost use Rattle.std.specs.Prelude.{All, Err, IfOk, IsSome, IsTrue, OnErr, OnOk, Some, drop};
ghost use Rattle.std.specs.Prelude.{length, map};
ghost use Rattle.std.specs.List.{range_with_len};
ghost use Rattle.request_record.specs.declared.requests.Request.{Request};
ghost use Rattle.share_verify.specs.CapBlock.{geometry_by};
ghost use Rattle.proved_parts.specs.Parts.{IsSegmentBy};
ghost use Rattle.download_segments.specs.Handout.{TakesPiece};
ghost use Rattle.download_file.specs.Answers.{AnswersFirst, IsMadeSegment, IsRead};
ghost use Rattle.download_file.specs.Asked.{AsksNoMore, AsksParts, IsAskedUp};
ghost use Rattle.download_file.specs.Changes.{HandsNothing, IsSameFile, OthersWait, StaysAskedUp};
ghost use Rattle.download_file.specs.Changes.{StaysRead};
ghost use Rattle.download_file.specs.Right.{IsFile, made_end};
ghost use Rattle.download_file.specs.State.{IsComplete, IsHeard, IsLive, IsReader, ReaderState};
ghost use Rattle.download_file.specs.State.{copies, copy, first_waiting, giver, new_file};
ghost use Rattle.download_file.specs.State.{waiting_at, waiting_from, without};
ghost use Rattle.download_file.specs.Taking.{IsRefused};

use crate::evidence::evidence_of;
use crate::reader::{Reader, begin_reader, end_reader};
use crate::taking::take_part;
use crate::window::{last_asked, plan_of};
use download_parts::{Plan, TreeFault};
use download_segments::{Group, Handout, Piece};
use download_supply::Wanted;
use proved_parts::EvidencePart;
use request_record::requests::Requests;
use share_layout::Geometry;
use share_verify::Check;
use std::alloc::{AllocError, Global};
use std::marker::Model;
use ueb::Ueb;
use wire::message::NodeId;

/// What became of the next segment.
#[derive(Clone, Copy, PartialEq, Eq)]
pub enum Made {
    /// It is not made now.
    Waits,
    /// A piece of it is ready.
    Ready,
    /// The block of the reader at this position is not the one that its block tree tells.
    Wrong(usize),
    /// Its blocks were right, and it is not the segment whose hash is known: the file is no code
    /// word.
    Inconsistent,
}

/// A file whose extension block is accepted: the shares of it that are read, and the segments that
/// are made of their blocks.
#[derive(Drop)]
pub struct PartialFile {
    pub(crate) alloc: Global,
    pub(crate) handout: Handout,
    pub(crate) plan: Plan,
    // How many pieces of each level of the ciphertext tree were taken.
    pub(crate) taken: [u32; 3],
    pub(crate) readers: Vec<Reader>,
    pub(crate) live: Vec<usize>,
    pub(crate) aside: Vec<usize>,
    pub(crate) groups: Vec<Group>,
}

impl Model for PartialFile {
    ghost use Rattle.std.specs.Prelude.{◌≡◌};
    ghost use Rattle.download_file.specs.Right.{IsFile};
    ghost use Rattle.download_file.specs.State.{FileState, file_state};

    ghost Value = { FileState };

    ghost view = { λ f. file_state f.handout f.plan.first f.plan.end f.taken f.readers.items
        f.live.items f.aside.items f.groups.items };

    ghost invariant = { λ f.
        IsFile (file_state f.handout f.plan.first f.plan.end f.taken f.readers.items f.live.items
        f.aside.items f.groups.items)
        × (f.plan.geometry ≡ f.handout.geometry) };
}

impl PartialFile {
    /// The bytes from the offset `from` up to `to` of a file are wanted. The key decrypts them.
    /// Nothing is read yet.
    pub fn new(
        alloc: Global,
        key: &[u8; 16],
        ueb: &Ueb,
        geometry: &Geometry,
        from: u64,
        to: u64,
    ) -> Result<PartialFile, AllocError>
        requires geometry { geometry.now ≡ geometry_by ueb.now }
        requires some { from < to }
        requires inside { to ≤ geometry.now.size }
        ensures file { IfOk result (λ file. file ≡ new_file key.now ueb.now geometry.now from to) }
        ensures reads { IfOk result (λ file. (entries : List Request) → IsRead entries file) }
        ensures right { IfOk result IsFile }
    {
        Ok(PartialFile {
            alloc,
            handout: Handout::new(alloc, key, ueb, geometry, from, to)?,
            plan: plan_of(geometry, from, to),
            taken: [0; 3],
            readers: Vec::new(alloc),
            live: Vec::new(alloc),
            aside: Vec::new(alloc),
            groups: Vec::new(alloc),
        })
    }

    /// The geometry of the file.
    pub fn geometry(&self) -> &Geometry
        ensures value { result.now ≡ self.now.handout.geometry }
        ensures right { IsFile self.now }
    {
        &self.plan.geometry
    }

    /// Whether all that is wanted was made.
    pub fn is_complete(&self) -> bool
        ensures complete { IsTrue result ↔ IsComplete self.now }
        ensures right { IsFile self.now }
    {
        self.handout.is_complete()
    }

    /// The positions of the readers that are read, first the one that is read the longest.
    pub fn live(&self) -> &[usize]
        ensures value { result.now ≡ self.now.live }
        ensures right { IsFile self.now }
    {
        self.live.as_slice()
    }

    /// A share at a server is read from the next segment on. Gives the position of its reader.
    pub fn begin(&mut self, server: NodeId, share: u8) -> Result<usize, AllocError>
        requires more { ¬ IsComplete self.old }
        requires there { share < self.old.handout.geometry.total }
        requires unread { (reader : ℕ) → (r : ReaderState) → IsHeard self.old reader
            → IsReader self.old reader r → r.share ≢ share }
        requires few { length self.old.live < self.old.handout.geometry.needed }
        ensures position { IfOk result (λ reader. reader ≡ length self.old.readers) }
        ensures copies { OnOk result (copies self.new
            ≡ copies self.old ++ copy server share ∷ []) }
        ensures live { OnOk result (self.new.live ≡ self.old.live ++ length self.old.readers ∷ []) }
        ensures aside { self.new.aside ≡ self.old.aside }
        ensures waiting { (reader : ℕ) → waiting_at self.new reader ≡ waiting_at self.old reader }
        ensures asked { AsksNoMore self.old self.new }
        ensures asked_up { (reader : ℕ) → IsLive self.old reader
            → StaysAskedUp self.old self.new reader }
        ensures reads { StaysRead self.old self.new }
        // Nothing else changes.
        ensures handout { self.new.handout ≡ self.old.handout }
        ensures same { IsSameFile self.old self.new }
        ensures unchanged { OnErr result (self.new ≡ self.old) }
        ensures right { IsFile self.new }
    {
        let Some(next) = self.handout.next() else {
            unreachable!();
        };
        let reader = self.readers.len();
        let gives = self.live.is_empty();
        let alloc = self.alloc;
        let begun = begin_reader(alloc, &self.plan, next, server, share, gives, &self.taken);
        self.readers.reserve(1)?;
        self.live.push(reader)?;
        self.readers.push_reserved(begun);
        Ok(reader)
    }

    /// A reader that is read or put aside is neither any more, for ever. What it was asked and has
    /// not answered does not wait any more. What was taken of it stays.
    pub fn end(&mut self, reader: usize)
        requires heard { IsHeard self.old reader }
        ensures live { self.new.live ≡ without reader self.old.live }
        ensures aside { self.new.aside ≡ without reader self.old.aside }
        ensures copies { copies self.new ≡ copies self.old }
        ensures none { waiting_at self.new reader ≡ [] }
        ensures others { OthersWait self.old reader self.new }
        ensures asked { AsksNoMore self.old self.new }
        // Another giver of the ciphertext tree is to be asked for what was not taken.
        ensures asked_up { giver self.old ≢ Some reader → (other : ℕ) → other ≢ reader
            → StaysAskedUp self.old self.new other }
        ensures reads { StaysRead self.old self.new }
        // Nothing else changes.
        ensures handout { self.new.handout ≡ self.old.handout }
        ensures same { IsSameFile self.old self.new }
        ensures right { IsFile self.new }
    {
        end_reader(
            &mut self.readers,
            &mut self.live,
            &mut self.aside,
            &self.taken,
            reader,
        );
    }

    /// What a reader that is read is to be asked now, one part after another: the first by the
    /// request at this position, and each other by the request behind. It waits from now on.
    /// Where memory is refused the reader is read no more.
    pub fn wanted(&mut self, reader: usize, position: usize) -> Result<Vec<Wanted>, AllocError>
        requires live { IsLive self.old reader }
        ensures asks { IfOk result (λ wanted.
            AsksParts self.old reader wanted.items self.new) }
        ensures waits { IfOk result (λ wanted. waiting_at self.new reader
            ≡ waiting_at self.old reader ++ waiting_from position wanted.items) }
        // All that is wanted for the next segment is asked.
        ensures asked_up { OnOk result (IsAskedUp self.new reader) }
        ensures others_asked_up { OnOk result ((other : ℕ)
            → StaysAskedUp self.old self.new other) }
        ensures live { OnOk result (self.new.live ≡ self.old.live) }
        ensures aside { OnOk result (self.new.aside ≡ self.old.aside) }
        ensures copies { copies self.new ≡ copies self.old }
        ensures others { OthersWait self.old reader self.new }
        ensures reads { StaysRead self.old self.new }
        // Nothing else changes.
        ensures handout { self.new.handout ≡ self.old.handout }
        ensures same { IsSameFile self.old self.new }
        ensures right { IsFile self.new }
    {
        let Some(next) = self.handout.next() else {
            return Ok(Vec::new(self.alloc));
        };
        let last = last_asked(&self.plan, next);
        let gives = self.live.first().copied() == Some(reader);
        match self.readers[reader].ask(self.alloc, gives, last, position) {
            Ok(wanted) => Ok(wanted),
            Err(error) => {
                end_reader(
                    &mut self.readers,
                    &mut self.live,
                    &mut self.aside,
                    &self.taken,
                    reader,
                );
                Err(error)
            }
        }
    }

    /// The position of the request whose answer is taken next of a reader. `None` where nothing
    /// waits.
    pub fn first_waiting(&self, reader: usize) -> Option<usize>
        ensures value { result ≡ first_waiting self.now reader }
        ensures right { IsFile self.now }
    {
        match self.readers.get(reader) {
            Some(found) => found.first_position(),
            None => None,
        }
    }

    /// Takes the answer to the first request that waits of a reader, which is read or put aside.
    /// The answer is refused with the check that it does not pass; then nothing changes.
    pub fn take(&mut self, reader: usize, bytes: &[u8]) -> Result<(), TreeFault>
        requires heard { IsHeard self.old reader }
        requires waits { IsSome (first_waiting self.old reader) }
        ensures taken { OnOk result
            (waiting_at self.new reader ≡ drop 1 (waiting_at self.old reader)) }
        // When it is refused.
        ensures refused { (check : Check) → result ≡ Err (TreeFault.Check check)
            → IsRefused self.old reader bytes.now check }
        ensures unchanged { OnErr result (self.new ≡ self.old) }
        ensures live { self.new.live ≡ self.old.live }
        ensures aside { self.new.aside ≡ self.old.aside }
        ensures copies { copies self.new ≡ copies self.old }
        ensures others { OthersWait self.old reader self.new }
        ensures asked { AsksNoMore self.old self.new }
        ensures asked_up { (other : ℕ) → StaysAskedUp self.old self.new other }
        // The bytes are what the reader's own server answered to the request that asked it.
        ensures reads { (entries : List Request) → IsRead entries self.old
            → AnswersFirst entries self.old reader bytes.now → IsRead entries self.new }
        // Nothing else changes.
        ensures handout { HandsNothing self.old self.new }
        ensures same { IsSameFile self.old self.new }
        ensures right { IsFile self.new }
    {
        let Some(first) = self.readers[reader].first() else {
            unreachable!();
        };
        if bytes.len() != first.wanted.read.length as usize {
            return Err(TreeFault::Check(Check::Layout));
        }
        take_part(
            self.alloc,
            &self.plan,
            &mut self.handout,
            &mut self.readers[reader],
            &mut self.taken,
            &first,
            bytes,
        )?;
        Ok(())
    }

    /// Takes the first piece, where one is ready.
    pub fn take_piece(&mut self) -> Option<Piece>
        ensures taken { TakesPiece self.old.handout result self.new.handout }
        // Nothing else changes.
        ensures rest { self.new ≡ record self.old { handout = self.new.handout } }
        ensures asked { AsksNoMore self.old self.new }
        ensures asked_up { (reader : ℕ) → StaysAskedUp self.old self.new reader }
        ensures reads { StaysRead self.old self.new }
        ensures same { IsSameFile self.old self.new }
        ensures right { IsFile self.new }
    {
        self.handout.take()
    }

    /// What proves the segments that were made, one after another: a part for each. The record is
    /// the one that the answers that were taken are in.
    pub fn evidence_parts(
        &self,
        alloc: Global,
        requests: &Requests,
    ) -> Result<Vec<EvidencePart>, AllocError>
        requires reads { IsRead requests.now.entries self.now }
        ensures all { IfOk result (λ parts. map (λ (p : EvidencePart). p.number) parts.items
            ≡ range_with_len self.now.first (made_end self.now - self.now.first)) }
        ensures by { IfOk result (λ parts. All (λ (p : EvidencePart).
            IsSegmentBy self.now.handout.ueb p.number p.segment p.path) parts.items) }
        // Each has the segment that was made.
        ensures made { IfOk result (λ parts. All (λ (p : EvidencePart).
            IsMadeSegment requests.now.entries self.now p.number p.segment) parts.items) }
        ensures right { IsFile self.now }
    {
        evidence_of(alloc, requests, &self.handout, &self.readers, &self.groups)
    }
}
