//! How a share is read on by what came for its pieces.

ghost use Rattle.std.specs.Prelude.{◌≡◌, ◌<◌, Bool, ℕ, List, [], Some, length, slice_get};
ghost use Rattle.std.specs.Prelude.{IfNone, IfOk, IfSome, IsTrue, false, option_map, true};
ghost use Rattle.request_record.specs.declared.requests.Request.{Request};
ghost use Rattle.share_reading.specs.declared.reading.ShareReading.{ShareReading};
ghost use Rattle.checker.specs.Book.{IsReading};
ghost use Rattle.checker.specs.Hearing.{Hears, IsHeard, IsNoted, IsReadOn, IsReady};
ghost use Rattle.checker.specs.Hearing.{IsTakenFirst};
ghost use Rattle.checker.specs.Wanted.{AllCame, AnyWaits, came_for};
ghost use Rattle.checker.specs.declared.wanted.Wanted.{Wanted};
ghost use Rattle.checker.specs.declared.offers.Stage.TheVariants.{Read};

use crate::offers::{Offer, Stage};
use crate::wanted::{Came, Standing, Wanted, standing_of};
use cap_text::VerifyCap;
use share_reading::{Found, ShareReading, Verdict};
use std::alloc::AllocError;

impl Offer {
    /// How far it is read, where the request at this position asks for one of the pieces that are
    /// not read yet; and which of them this is.
    pub(crate) fn piece_at(&self, position: usize) -> Option<(ShareReading, usize)>
        ensures reading { IfSome result (λ found. self.now.stage ≡ Read found.0) }
        ensures piece { IfSome result (λ found. (w : Wanted)
            × (slice_get self.now.wanted.items found.1 ≡ Some w) × (w.position ≡ position)) }
        ensures none { IfNone result ((r : ShareReading) (i : ℕ) (w : Wanted)
            → self.now.stage ≡ Read r → slice_get self.now.wanted.items i ≡ Some w
            → w.position ≡ position → ⊥) }
    {
        let Stage::Read(reading) = self.stage else {
            return None;
        };
        for i in 0..self.wanted.len() {
            if self.wanted[i].position == position {
                return Some((reading, i));
            }
        }
        None
    }

    /// Takes what came for one of its pieces, and reads on as far as it can: tells how far it is
    /// read then, or `None` where its verdict is found.
    ///
    /// It goes on while the next piece has as many bytes as were asked for. Another piece waits
    /// until no other does, and the share then ends: so its verdict rests on all that was asked.
    pub(crate) fn hear(
        &mut self,
        cap: &VerifyCap,
        reading: &ShareReading,
        piece: usize,
        bytes: Option<Vec<u8>>,
    ) -> Result<Option<ShareReading>, AllocError>
        requires hears { (entries : List Request) × (todo : List ℕ) × Hears cap.now entries todo
            self.old reading.now piece (option_map (λ v. v.items) bytes) }
        ensures { IfOk result (IsHeard cap.now self.old reading.now piece
            (option_map (λ v. v.items) bytes) self.new) }
    {
        self.note_came(piece, bytes);
        match standing_of(&self.wanted) {
            Standing::Waits => self.read_on(cap, reading, true),
            Standing::Came => self.read_on(cap, reading, false),
            Standing::Lost => {
                self.end(Verdict::Lost);
                Ok(None)
            }
        }
    }

    // Takes note of what came for one of its pieces.
    fn note_came(&mut self, piece: usize, bytes: Option<Vec<u8>>)
        requires { piece < length self.old.wanted.items }
        ensures { IsNoted piece (came_for bytes) self.old self.new }
    {
        self.wanted[piece].came = Came::of(bytes);
    }

    // Reads on by the pieces that came, of which one waits still, or for each of which bytes came.
    fn read_on(
        &mut self,
        cap: &VerifyCap,
        reading: &ShareReading,
        waits: bool,
    ) -> Result<Option<ShareReading>, AllocError>
        requires is { (entries : List Request) × (todo : List ℕ)
            × IsReading cap.now entries todo self.old reading.now }
        requires waits { IsTrue waits → AnyWaits self.old.wanted.items }
        requires came { waits ≡ false → AllCame self.old.wanted.items }
        ensures { IfOk result (IsReadOn cap.now self.old reading.now self.new) }
    {
        let mut reached = *reading;
        while self.is_ready(&reached, waits) {
            match self.take_first(cap, &reached)? {
                Found::Next(next) => reached = next,
                Found::Whole(verdict) => {
                    self.end(verdict);
                    return Ok(None);
                }
                Found::Stopped(check) => {
                    self.end(Verdict::Corrupt(check));
                    return Ok(None);
                }
            }
        }
        self.stage = Stage::Read(reached);
        Ok(Some(reached))
    }

    // Whether the next piece is read now: where it has as many bytes as were asked for, or none
    // waits.
    fn is_ready(&self, reading: &ShareReading, waits: bool) -> bool
        ensures yes { IsTrue result → IsReady reading.now waits self.now.wanted.items }
        ensures no { result ≡ false → waits ≡ false → AllCame self.now.wanted.items
            → self.now.wanted.items ≡ [] }
    {
        match self.wanted.front() {
            Some(first) => first.came.is_to_read(reading.next_length(), waits),
            None => false,
        }
    }

    // Reads the next piece, for which bytes came.
    fn take_first(&mut self, cap: &VerifyCap, reading: &ShareReading) -> Result<Found, AllocError>
        requires is { (entries : List Request) × (todo : List ℕ)
            × IsReading cap.now entries todo self.old reading.now }
        requires ready { (waits : Bool) × IsReady reading.now waits self.old.wanted.items }
        ensures { IfOk result (λ found. IsTakenFirst cap.now reading.now found self.old self.new) }
    {
        let Some(Wanted { position, came }) = self.wanted.pop_front() else {
            unreachable!();
        };
        let bytes = came.into_bytes();
        self.take(cap, reading, position, &bytes)
    }
}
