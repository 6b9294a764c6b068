//! How the next segments of a file are made.

ghost use Rattle.std.specs.Prelude.{◌≡◌, ◌≢◌, ◌⊎◌, ◌↔◌, ℕ, ◌+◌};
ghost use Rattle.std.specs.Prelude.{IfOk, IsTrue, Ok, true};
ghost use Rattle.download_segments.specs.NoCodeWord.{IsNoCodeWord};
ghost use Rattle.download_file.specs.Answers.{IsRead};
ghost use Rattle.download_file.specs.Asked.{AsksNoMore};
ghost use Rattle.download_file.specs.Changes.{IsSameFile, StaysAskedUp};
ghost use Rattle.download_file.specs.Making.{AwaitsRow, CanMakeRow, CanNotGoOn, IsInconsistent};
ghost use Rattle.download_file.specs.Making.{LacksNext, MakesNext, MakesPieces, MakesSegments};
ghost use Rattle.download_file.specs.Making.{MustWait, RefutesReader};
ghost use Rattle.download_file.specs.Right.{IsFile};
ghost use Rattle.download_file.specs.State.{IsComplete};

use crate::blocks::{awaits_block, find_wrong, has_all, join_blocks};
use crate::file::{Made, PartialFile};
use crate::group::begin_group;
use crate::row::{are_right, has_row, join_row};
use crate::window::asks_rows;
use download_segments::{make_segment, make_segments};
use request_record::requests::Requests;
use std::alloc::AllocError;

impl PartialFile {
    /// Makes pieces of the next segments, where all their blocks were taken and are right: of eight
    /// side by side where eight can be made, and else of one. Where it is patient it makes none
    /// while eight are on their way. The record is the one that the answers that were taken are in.
    pub fn make(&mut self, requests: &Requests, patient: bool) -> Result<Made, AllocError>
        requires reads { IsRead requests.now.entries self.old }
        ensures ready { result ≡ Ok Made.Ready → MakesPieces requests.now.entries self.old
            self.new }
        // Eight are made where eight can be made.
        ensures row { CanMakeRow requests.now.entries self.old
            → IfOk result (λ made. (made ≡ Made.Ready)
            × MakesSegments requests.now.entries 8 self.old self.new) }
        ensures wrong { (reader : ℕ) → result ≡ Ok (Made.Wrong reader)
            → RefutesReader requests.now.entries self.old reader }
        ensures inconsistent { result ≡ Ok Made.Inconsistent
            → IsInconsistent requests.now.entries self.new }
        ensures no_code_word { result ≡ Ok Made.Inconsistent
            → IsNoCodeWord self.old.handout.ueb }
        ensures waits { result ≡ Ok Made.Waits → CanNotGoOn self.old }
        // What is there is made at once.
        ensures prompt { result ≡ Ok Made.Waits
            → IsComplete self.old ⊎ MustWait patient self.old }
        // Only where it is ready is anything handed out.
        ensures same_handout { result ≢ Ok Made.Ready → self.new.handout ≡ self.old.handout }
        ensures asked_up { result ≢ Ok Made.Ready → (reader : ℕ)
            → StaysAskedUp self.old self.new reader }
        ensures reads { IsRead requests.now.entries self.new }
        // Nothing else changes.
        ensures live { self.new.live ≡ self.old.live }
        ensures aside { self.new.aside ≡ self.old.aside }
        ensures readers { self.new.readers ≡ self.old.readers }
        ensures asked { AsksNoMore self.old self.new }
        ensures same { IsSameFile self.old self.new }
        ensures right { IsFile self.new }
    {
        if self.make_row(requests)? {
            return Ok(Made::Ready);
        }
        if patient && self.awaits_row() {
            return Ok(Made::Waits);
        }
        self.make_next(requests)
    }

    // Makes a piece of the next segment, where all its blocks were taken and are right. The record
    // is the one that the answers that were taken are in.
    fn make_next(&mut self, requests: &Requests) -> Result<Made, AllocError>
        requires reads { IsRead requests.now.entries self.old }
        ensures ready { result ≡ Ok Made.Ready → MakesNext requests.now.entries self.old self.new }
        ensures wrong { (reader : ℕ) → result ≡ Ok (Made.Wrong reader)
            → RefutesReader requests.now.entries self.old reader }
        ensures inconsistent { result ≡ Ok Made.Inconsistent
            → IsInconsistent requests.now.entries self.new }
        ensures no_code_word { result ≡ Ok Made.Inconsistent
            → IsNoCodeWord self.old.handout.ueb }
        ensures waits { result ≡ Ok Made.Waits → CanNotGoOn self.old }
        ensures prompt { result ≡ Ok Made.Waits → IsComplete self.old ⊎ LacksNext self.old }
        // Only where it is ready is anything handed out.
        ensures same_handout { result ≢ Ok Made.Ready → self.new.handout ≡ self.old.handout }
        ensures asked_up { result ≢ Ok Made.Ready → (reader : ℕ)
            → StaysAskedUp self.old self.new reader }
        ensures reads { IsRead requests.now.entries self.new }
        // Nothing else changes.
        ensures live { self.new.live ≡ self.old.live }
        ensures aside { self.new.aside ≡ self.old.aside }
        ensures readers { self.new.readers ≡ self.old.readers }
        ensures asked { AsksNoMore self.old self.new }
        ensures same { IsSameFile self.old self.new }
        ensures right { IsFile self.new }
    {
        let Some(number) = self.handout.next() else {
            return Ok(Made::Waits);
        };
        if !has_all(&self.handout, &self.readers, &self.live, number) {
            return Ok(Made::Waits);
        }
        let geometry = self.plan.geometry;
        let size = geometry.block_length(number);
        let joined = join_blocks(
            self.alloc,
            requests,
            &self.readers,
            &self.live,
            number,
            size,
        )?;
        if let Some(wrong) = find_wrong(&self.readers, &self.live, number, &joined, size) {
            return Ok(Made::Wrong(wrong));
        }
        begin_group(
            self.alloc,
            &mut self.groups,
            &geometry,
            &self.readers,
            &self.live,
            number,
        )?;
        if !make_segment(
            self.alloc,
            &mut self.handout,
            &mut self.groups,
            number,
            &joined,
        )? {
            return Ok(Made::Inconsistent);
        }
        Ok(Made::Ready)
    }

    // Makes pieces of the next eight segments, where eight are wanted to their ends, their hashes
    // are known, and all their blocks were taken and are right. `false` where they are not made;
    // then, and where memory is refused, nothing is handed out. The record is the one that the
    // answers that were taken are in.
    fn make_row(&mut self, requests: &Requests) -> Result<bool, AllocError>
        requires reads { IsRead requests.now.entries self.old }
        ensures made { result ≡ Ok true → MakesSegments requests.now.entries 8 self.old self.new }
        ensures exact { IfOk result (λ made.
            IsTrue made ↔ CanMakeRow requests.now.entries self.old) }
        // Only where they are made is anything handed out.
        ensures same_handout { result ≢ Ok true → self.new.handout ≡ self.old.handout }
        ensures asked_up { result ≢ Ok true → (reader : ℕ)
            → StaysAskedUp self.old self.new reader }
        ensures reads { IsRead requests.now.entries self.new }
        // Nothing else changes.
        ensures live { self.new.live ≡ self.old.live }
        ensures aside { self.new.aside ≡ self.old.aside }
        ensures readers { self.new.readers ≡ self.old.readers }
        ensures asked { AsksNoMore self.old self.new }
        ensures same { IsSameFile self.old self.new }
        ensures right { IsFile self.new }
    {
        let Some(number) = self.handout.next() else {
            return Ok(false);
        };
        if !has_row(&self.handout, &self.readers, &self.live, number) {
            return Ok(false);
        }
        let geometry = self.plan.geometry;
        let size = geometry.block_length(number);
        let alloc = self.alloc;
        let rows = join_row(alloc, requests, &self.readers, &self.live, number, size)?;
        if !are_right(&self.readers, &self.live, number, &rows, size) {
            return Ok(false);
        }
        begin_group(
            alloc,
            &mut self.groups,
            &geometry,
            &self.readers,
            &self.live,
            number,
        )?;
        make_segments(alloc, &mut self.handout, &mut self.groups, number, &rows)
    }

    // Whether eight segments are on their way, and others are asked meanwhile.
    fn awaits_row(&self) -> bool
        ensures awaits { IsTrue result → AwaitsRow self.now }
        ensures right { IsFile self.now }
    {
        let Some(number) = self.handout.next() else {
            return false;
        };
        asks_rows(&self.plan.geometry)
            && self.handout.wants_row(number)
            && awaits_block(&self.readers, &self.live, number + 7)
    }
}
