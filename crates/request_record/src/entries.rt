//! The requests of a record by their positions. In memory is each that was not written.

ghost use Rattle.std.specs.Prelude.{◌≡◌, ◌≤◌, ◌<◌, ◌∷◌, ◌++◌, ◌^◌, [], length, map, take, drop};
ghost use Rattle.std.specs.Prelude.{slice_get, slice_set, option_map, Some, false};
ghost use Rattle.std.specs.Prelude.{All, IfOk, OnOk, OnErr};
ghost use Rattle.request_record.specs.Record.{with_outcome, ticked_one, resent_positions};
ghost use Rattle.request_record.specs.Record.{lost_positions};
ghost use Rattle.request_record.specs.Record.{AreSettled, IsSentFew};
ghost use Rattle.request_record.specs.Written.{is_written, kept, kept_of, IsKeptAt};
ghost use Rattle.request_record.specs.declared.requests.Request.{Request};

use crate::past::Past;
use crate::positions::{
    find_lost, find_resent, first_waiting, has_position, index_of, let_go, request_here, settle,
    tick_from,
};
use crate::requests::{Outcome, Request};
use std::alloc::{AllocError, Global};
use std::collections::VecDeque;
use std::marker::Model;

/// A request in memory, with its position.
#[derive(Drop)]
pub struct Entry {
    pub(crate) position: usize,
    pub request: Request,
}

/// The requests of a record, in order. Contracts see all of them. In memory is each that was not
/// written, with its position: a position is found by halving.
#[derive(Drop)]
pub(crate) struct Entries {
    kept: Vec<Entry>,
    past: Past,
    /// How many there are, with those that are not in memory.
    len: usize,
}

impl Model for Entries {
    ghost use Rattle.std.specs.Prelude.{◌≡◌, List};
    ghost use Rattle.request_record.specs.declared.requests.Request.{Request};

    ghost Value = { List Request };

    ghost use Rattle.request_record.specs.Entries.{IsInMemory};

    ghost view = { λ e. e.past.requests };

    ghost invariant = { λ e. IsInMemory e.len e.kept.items e.past.requests };
}

impl Entries {
    /// No request.
    pub(crate) fn new(alloc: Global) -> Entries
        ensures { result ≡ [] }
    {
        Entries {
            kept: Vec::new(alloc),
            past: Past::new(),
            len: 0,
        }
    }

    /// How many there are, with those that are not in memory.
    pub(crate) fn len(&self) -> usize
        ensures { result ≡ length self.now }
    {
        self.len
    }

    /// The request at a position, while it is in memory.
    pub(crate) fn get(&self, position: usize) -> Option<&Request>
        ensures { option_map (λ r. r.now) result ≡ kept (slice_get self.now position) }
    {
        let at = index_of(self.kept.as_slice(), position);
        request_here(self.kept.as_slice(), at, position)
    }

    /// The request at a position, which is in memory.
    pub(crate) fn request(&self, position: usize) -> &Request
        requires { IsKeptAt self.now position }
        ensures { slice_get self.now position ≡ Some result.now }
    {
        let at = index_of(self.kept.as_slice(), position);
        &self.kept[at].request
    }

    /// The requests from a position on that are in memory.
    pub(crate) fn kept_since(&self, position: usize) -> &[Entry]
        ensures { map (λ e. e.request) result.now ≡ kept_of (drop position self.now) }
    {
        let at = index_of(self.kept.as_slice(), position);
        &self.kept.as_slice()[at..]
    }

    /// One more request. No record has `usize::MAX` requests and one more.
    pub(crate) fn push(&mut self, request: Request) -> Result<(), AllocError>
        requires { is_written request ≡ false }
        ensures ok { OnOk result (self.new ≡ self.old ++ request ∷ []) }
        ensures err { OnErr result (self.new ≡ self.old) }
        ensures fits { OnOk result (length self.new < 2 ^ 64) }
    {
        let position = self.len;
        if position == usize::MAX {
            return Err(AllocError);
        }
        self.kept.reserve(1)?;
        self.past = self.past.asked(&request);
        self.kept.push_reserved(Entry { position, request });
        self.len = position + 1;
        Ok(())
    }

    /// The request at a position, which was not written, is settled so. If it is written now, it is
    /// let go.
    pub(crate) fn settle(&mut self, position: usize, outcome: Outcome)
        ensures { (r : Request) → slice_get self.old position ≡ Some r → is_written r ≡ false
            → self.new ≡ slice_set self.old position (with_outcome r outcome) }
    {
        let at = index_of(self.kept.as_slice(), position);
        if has_position(self.kept.as_slice(), at, position) {
            settle(&mut self.kept, at, outcome);
            self.past = self.past.settled(position, &self.kept[at].request);
            let_go(&mut self.kept, at);
        }
    }

    /// The positions of the requests that a tick at this second sends again. None before this
    /// position waits.
    pub(crate) fn find_resent(&self, from: usize, now: u64) -> Result<VecDeque<usize>, AllocError>
        requires { AreSettled from self.now }
        ensures { IfOk result (λ positions. positions.items ≡ resent_positions now self.now) }
    {
        let alloc = *self.kept.allocator();
        let at = index_of(self.kept.as_slice(), from);
        find_resent(alloc, &self.kept.as_slice()[at..], now)
    }

    /// The positions of the requests that a tick at this second finds lost. None before this
    /// position waits.
    pub(crate) fn find_lost(&self, from: usize, now: u64) -> Result<Vec<usize>, AllocError>
        requires { AreSettled from self.now }
        ensures { IfOk result (λ positions. positions.items ≡ lost_positions now self.now) }
    {
        let alloc = *self.kept.allocator();
        let at = index_of(self.kept.as_slice(), from);
        find_lost(alloc, &self.kept.as_slice()[at..], now)
    }

    /// Each request takes note of a tick at this second. None before this position waits.
    pub(crate) fn tick(&mut self, from: usize, now: u64)
        requires few { All IsSentFew self.old }
        requires settled { AreSettled from self.old }
        ensures { self.new ≡ map (ticked_one now) self.old }
    {
        let at = index_of(self.kept.as_slice(), from);
        tick_from(self.kept.as_mut_slice(), at, now);
        self.past = self.past.ticked(now);
    }

    /// The position of the first request that waits, or the end. None before this position waits.
    pub(crate) fn first_waiting(&self, from: usize) -> usize
        requires { AreSettled from self.now }
        ensures { AreSettled result self.now }
    {
        let at = index_of(self.kept.as_slice(), from);
        first_waiting(&self.kept.as_slice()[at..], self.len)
    }
}
