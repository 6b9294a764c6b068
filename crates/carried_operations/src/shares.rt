//! Shares at servers, each at a position.

ghost use Rattle.std.specs.Prelude.{◌≡◌, ◌+◌, ◌<◌, ◌^◌, IfOk, OnErr, false, length, true};
ghost use Rattle.carried_operations.specs.Fetched.{IsReadOver, IsUnanswered, IsUnread, StayOtherwise};

use crate::fetch::Fetch;
use crate::range::{SharePlace, ShareRange};
use local_grid::error::LoopError;
use local_grid::{Outside, carry_on};
use share_source::ShareBytes;
use sources::SourceFault;
use std::alloc::{AllocError, Global};
use std::marker::Model;
use wire::message::StorageIndex;

/// The most turns of the loop for one read.
const MOST_TURNS: u64 = 100_000_000;

/// Shares of one file at the servers of a grid, each at a position. Each read is an operation of
/// its own, in a session of its own, which holds as many bytes as it asks for.
#[derive(Drop)]
pub struct FetchedShares<G: Outside> {
    alloc: Global,
    outside: G,
    index: StorageIndex,
    places: Vec<SharePlace>,
    session: u64,
    lacks_memory: bool,
}

impl<G: Outside> Model for FetchedShares<G> {
    ghost use Rattle.carried_operations.specs.Fetched.{FetchedState};

    ghost Value = { FetchedState G };

    ghost view = { λ f. record {
      outside = f.outside;
      index = f.index;
      places = f.places.items;
      session = f.session;
      lacks_memory = f.lacks_memory;
    } };
}

impl<G: Outside> FetchedShares<G> {
    /// The shares at these places, by their positions, of the file of this storage index. The first
    /// read has this session.
    pub fn new(
        alloc: Global,
        outside: G,
        index: StorageIndex,
        places: Vec<SharePlace>,
        session: u64,
    ) -> FetchedShares<G>
        ensures { result ≡ record {
          outside = outside;
          index = index;
          places = places.items;
          session = session;
          lacks_memory = false;
        } }
    {
        FetchedShares {
            alloc,
            outside,
            index,
            places,
            session,
            lacks_memory: false,
        }
    }

    /// Where the shares stand, by their positions.
    pub fn places(&self) -> &[SharePlace]
        ensures { result.now ≡ self.now.places }
    {
        &self.places
    }

    /// The servers.
    pub fn outside(&self) -> &G
        ensures { result.now ≡ self.now.outside }
    {
        &self.outside
    }

    /// Whether memory was refused to a read, which failed.
    pub fn lacks_memory(&self) -> bool
        ensures { result ≡ self.now.lacks_memory }
    {
        self.lacks_memory
    }

    // Reads a range of the share at a position, and says whether its bytes came.
    fn fetch(&mut self, position: usize, offset: u64, out: &mut [u8]) -> Result<bool, AllocError>
        ensures read { IfOk result (λ came. came ≡ true
            → IsReadOver G.calls self.old position offset out.new self.new) }
        ensures unread { IfOk result (λ came. came ≡ false → IsUnanswered G.calls
            self.old position offset (length out.old) self.new) }
        ensures stays { StayOtherwise self.old self.new }
    {
        let length = out.len() as u64;
        if position >= self.places.len() || offset > u64::MAX - length {
            return Ok(false);
        }
        let range = ShareRange {
            place: self.places[position],
            offset,
            length,
        };
        let session = self.session;
        self.session = session.saturating_add(1);
        let mut fetch = Fetch::start(self.alloc, self.index, range, session, self.outside.clock())?;
        match carry_on(self.alloc, &mut self.outside, &mut fetch, MOST_TURNS) {
            Ok(()) => Ok(fetch.copy_to(out)),
            Err(LoopError::TurnLimit) => Ok(false),
            Err(LoopError::OutOfMemory) => Err(AllocError),
        }
    }
}

impl<G: Outside> ShareBytes for FetchedShares<G> {
    ghost gives = { λ s position offset bytes after.
        IsReadOver G.calls s position offset bytes after };

    ghost fails = { λ s position offset length after.
        IsUnread G.calls s position offset length after };

    fn read(&mut self, position: usize, offset: u64, out: &mut [u8]) -> Result<(), SourceFault> {
        match self.fetch(position, offset, out) {
            Ok(true) => Ok(()),
            Ok(false) => Err(SourceFault::Unreadable),
            Err(_) => {
                self.lacks_memory = true;
                Err(SourceFault::Unreadable)
            }
        }
    }
}
