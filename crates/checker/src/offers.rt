//! The shares that servers offered, and how far each is read.

ghost use Rattle.std.specs.Prelude.{◌≡◌, ◌∷◌, ◌++◌, [], IfOk, OnOk, if◌then◌else◌};
ghost use Rattle.share_reading.specs.Judged.{IsUnderway};
ghost use Rattle.share_reading.specs.Reading.{is_behind};
ghost use Rattle.checker.specs.Offers.{IsEndedBy, IsNew, IsTaken, IsWanting};

use crate::pieces::Pieces;
use crate::wanted::{Came, Wanted};
use cap_text::VerifyCap;
use share_reading::{Found, Judged, ShareReading, Verdict};
use std::alloc::{AllocError, Global};
use std::collections::VecDeque;
use wire::message::NodeId;

/// How far the reading of a share at a server is.
#[derive(Clone, Copy)]
pub(crate) enum Stage {
    /// It is not begun.
    Waiting,
    /// It is read so far, and pieces of it are asked for.
    Read(ShareReading),
    /// Its verdict is found.
    Ended(Verdict),
}

/// A share that a server offered.
#[derive(Drop)]
pub(crate) struct Offer {
    /// The server.
    pub(crate) server: NodeId,
    /// The share's number.
    pub(crate) share: u8,
    /// The positions of the requests that brought its bytes from the first on, in order.
    pub(crate) front: Vec<usize>,
    /// The positions of those that brought its extension block's length and its extension block.
    pub(crate) back: Vec<usize>,
    /// The pieces that are asked for, in order, from the one on that is read next.
    pub(crate) wanted: VecDeque<Wanted>,
    /// What is judged of it.
    pub(crate) judged: Judged,
    /// Its bytes, where the check keeps them.
    pub(crate) pieces: Pieces,
    /// How far it is read.
    pub(crate) stage: Stage,
}

impl Offer {
    /// A share of which nothing is read.
    pub(crate) fn new(alloc: Global, keeps: bool, server: NodeId, share: u8) -> Offer
        ensures server { result.server ≡ server }
        ensures share { result.share ≡ share }
        ensures new { IsNew keeps result }
    {
        Offer {
            server,
            share,
            front: Vec::new(alloc),
            back: Vec::new(alloc),
            wanted: VecDeque::new(alloc),
            judged: Judged::begin(alloc),
            pieces: Pieces::new(alloc, keeps),
            stage: Stage::Waiting,
        }
    }

    /// What comes of the bytes that the request at a position brought, which the reading asked for
    /// next.
    pub(crate) fn take(
        &mut self,
        cap: &VerifyCap,
        reading: &ShareReading,
        position: usize,
        bytes: &[u8],
    ) -> Result<Found, AllocError>
        requires underway { IsUnderway cap.now reading.now self.old.judged }
        ensures taken { IfOk result (λ found. IsTaken cap.now reading.now position bytes.now found
            self.old
            self.new) }
        ensures wanted { self.new.wanted ≡ self.old.wanted }
    {
        let found = self
            .judged
            .take(cap, u16::from(self.share), reading, bytes)?;
        self.pieces.add(reading.is_behind(), bytes)?;
        self.note(reading, position)?;
        Ok(found)
    }

    // Takes note of the request that brought the bytes that the reading asked for.
    fn note(&mut self, reading: &ShareReading, position: usize) -> Result<(), AllocError>
        ensures front { OnOk result (self.new.front.items ≡ (if is_behind reading.now
            then self.old.front.items else self.old.front.items ++ position ∷ [])) }
        ensures back { OnOk result (self.new.back.items ≡ (if is_behind reading.now
            then self.old.back.items ++ position ∷ [] else self.old.back.items)) }
        ensures same { self.new
            ≡ record self.old { front = self.new.front; back = self.new.back } }
    {
        if reading.is_behind() {
            self.back.push(position)?;
        } else {
            self.front.push(position)?;
        }
        Ok(())
    }

    /// This is the verdict on it. What was judged of it is let go, and the bytes of one that is not
    /// good.
    pub(crate) fn end(&mut self, verdict: Verdict)
        ensures { IsEndedBy verdict self.old self.new }
    {
        let alloc = *self.front.allocator();
        self.judged = Judged::begin(alloc);
        if !matches!(verdict, Verdict::Good) {
            self.pieces = Pieces::new(alloc, self.pieces.keeps);
        }
        self.stage = Stage::Ended(verdict);
    }

    /// One more piece of it is asked for, by the request at this position.
    pub(crate) fn want(&mut self, position: usize) -> Result<(), AllocError>
        ensures { OnOk result (IsWanting position self.old self.new) }
    {
        self.wanted.push_back(Wanted {
            position,
            came: Came::Waits,
        })?;
        Ok(())
    }
}
