//! The shares that may be read, and which of them were struck out.

ghost use Rattle.std.specs.Prelude.{◌≡◌, ◌+◌, ◌*◌, ◌<◌, ◌≤◌, ◌^◌, ℕ, List, [], false, true};
ghost use Rattle.std.specs.Prelude.{All, IfOk, IsTrue, MatchBool, OnErr, Option, Some, None};
ghost use Rattle.std.specs.Prelude.{length, map, replicate, slice_get, slice_set};
ghost use Rattle.share_layout.specs.Pieces.{pieces};
ghost use Rattle.share_source.specs.Reads.{WasRead};
ghost use Rattle.share_source.specs.Candidates.{AreBlocksTold, AreLeavesRead, AreSharesRead};
ghost use Rattle.share_source.specs.Candidates.{Brought, HasLeaf, HoldsOwnLeaves, IsBlockRead};
ghost use Rattle.share_source.specs.Candidates.{ShareRead, leaves_held, picked_numbers, struck_out};
ghost use Rattle.share_source.specs.Decoded.{blocks_read};
ghost use Rattle.share_source.specs.Reading.{AreLeft, AreTreesRead, StayStruck, unstruck_count};

use crate::bytes::ShareBytes;
use crate::held::Held;
use crate::leaves::read_leaves;
use crate::place::Place;
use std::alloc::{AllocError, Global};
use std::marker::Model;
use tagged_hash::{Tag, tagged};
use ueb::Ueb;

/// Shares of a file that may be read, by their positions, and their bytes. A share whose leaves or
/// block could not be read, or whose block had another hash than its leaves tell, is struck out for
/// good, and its leaves are let go.
#[derive(Drop)]
pub(crate) struct Candidates<B: ShareBytes + Drop> {
    alloc: Global,
    ueb: Ueb,
    numbers: Vec<u16>,
    held: Vec<Held>,
    struck: Vec<bool>,
    bytes: B,
}

impl<B: ShareBytes + Drop> Model for Candidates<B> {
    ghost use Rattle.share_source.specs.Candidates.{Candidates};
    ghost use Rattle.share_source.specs.Reading.{AreHeldLeaves};

    ghost Value = { Candidates B };

    ghost view = { λ c. record {
      ueb = c.ueb;
      numbers = c.numbers.items;
      held = c.held.items;
      struck = c.struck.items;
      bytes = c.bytes;
    } };

    ghost invariant = { λ c.
        AreHeldLeaves c.ueb c.numbers.items c.held.items c.struck.items };
}

impl<B: ShareBytes + Drop> Candidates<B> {
    /// Shares with these numbers, of which none is struck out, and no leaves are held.
    pub fn new(
        alloc: Global,
        ueb: Ueb,
        numbers: Vec<u16>,
        bytes: B,
    ) -> Result<Candidates<B>, AllocError>
        ensures { IfOk result (λ c. c ≡ record {
          ueb = ueb;
          numbers = numbers.items;
          held = replicate (length numbers.items) [];
          struck = replicate (length numbers.items) false;
          bytes = bytes;
        }) }
    {
        let held = Held::none_of(alloc, numbers.len())?;
        let struck = vec![in alloc; false; numbers.len()]?;
        Ok(Candidates {
            alloc,
            ueb,
            numbers,
            held,
            struck,
            bytes,
        })
    }

    /// The numbers of the shares.
    pub fn numbers(&self) -> &[u16]
        ensures numbers { result.now ≡ self.now.numbers }
        ensures count { length self.now.struck ≡ length self.now.numbers }
    {
        &self.numbers
    }

    /// The owner of their bytes.
    pub fn bytes(&self) -> &B
        ensures { result.now ≡ self.now.bytes }
    {
        &self.bytes
    }

    /// Gives the owner of their bytes back.
    pub fn into_bytes(self) -> B
        ensures { result ≡ self.bytes }
    {
        self.bytes
    }

    /// Whether the share at a position is not struck out.
    pub fn is_left(&self, position: usize) -> bool
        requires { position < length self.now.numbers }
        ensures { MatchBool result (slice_get self.now.struck position ≡ Some false)
            (slice_get self.now.struck position ≡ Some true) }
    {
        !self.struck[position]
    }

    /// Reads the leaves of each of these shares of which none are held. Where they cannot be read,
    /// that share is struck out, and no further one is read. Beside the leaves it holds the tree
    /// over them, while it compares its root.
    pub fn hold_leaves(&mut self, positions: &[usize]) -> Result<bool, AllocError>
        requires left { AreLeft self.old.struck positions.now }
        ensures ueb { self.new.ueb ≡ self.old.ueb }
        ensures numbers { self.new.numbers ≡ self.old.numbers }
        ensures struck { StayStruck self.old.struck self.new.struck }
        ensures read { AreTreesRead B.gives B.fails self.old self.new }
        ensures left { IfOk result (λ good. IsTrue good → self.new.struck ≡ self.old.struck) }
        ensures held { IfOk result (λ good. IsTrue good
            → All (λ position. HoldsOwnLeaves self.new position) positions.now) }
        ensures refused { IfOk result (λ good. good ≡ false
            → unstruck_count self.new.struck < unstruck_count self.old.struck) }
    {
        for i in 0..positions.len() {
            if !self.hold_tree(positions[i])? {
                return Ok(false);
            }
        }
        Ok(true)
    }

    // Reads the leaves of a share, where none are held, and strikes it out where there are none.
    fn hold_tree(&mut self, position: usize) -> Result<bool, AllocError>
        requires left { slice_get self.old.struck position ≡ Some false }
        ensures ueb { self.new.ueb ≡ self.old.ueb }
        ensures numbers { self.new.numbers ≡ self.old.numbers }
        ensures read { AreTreesRead B.gives B.fails self.old self.new }
        ensures good { IfOk result (λ good. IsTrue good
            → (self.new.struck ≡ self.old.struck) × HoldsOwnLeaves self.new position) }
        ensures stay { IfOk result (λ good. IsTrue good → (other : ℕ)
            → HoldsOwnLeaves self.old other → HoldsOwnLeaves self.new other) }
        ensures refused { IfOk result (λ good. good ≡ false
            → self.new.struck ≡ slice_set self.old.struck position true) }
        ensures err { OnErr result (self.new.struck ≡ self.old.struck) }
    {
        if self.held[position].is_none() {
            self.read_tree(position)
        } else {
            Ok(true)
        }
    }

    // Reads the leaves of a share of which none are held, and strikes it out where there are none.
    fn read_tree(&mut self, position: usize) -> Result<bool, AllocError>
        requires left { slice_get self.old.struck position ≡ Some false }
        requires none { leaves_held self.old.held position ≡ [] }
        ensures good { IfOk result (λ good. IsTrue good → (leaves : List (List ℕ))
            × AreLeavesRead B.gives B.fails self.old position (Some leaves) self.new) }
        ensures refused { IfOk result (λ good. good ≡ false
            → AreLeavesRead B.gives B.fails self.old position None self.new) }
        ensures err { OnErr result (WasRead B.gives B.fails self.old.bytes self.new.bytes
            × (self.new ≡ record self.old { bytes = self.new.bytes })) }
    {
        let number = self.numbers[position];
        match read_leaves(self.alloc, &self.ueb, &mut self.bytes, position, number)? {
            Some(leaves) => {
                self.held[position] = Held::of(leaves);
                Ok(true)
            }
            None => {
                self.strike(position);
                Ok(false)
            }
        }
    }

    // Strikes a share out, and lets its leaves go.
    fn strike(&mut self, position: usize)
        requires { position < length self.old.numbers }
        ensures { self.new ≡ struck_out self.old position self.old.bytes }
    {
        self.struck[position] = true;
        self.held[position] = Held::none(self.alloc);
    }

    /// Reads the block at a place of each of these shares, one after another. Where one cannot be
    /// read, or has another hash than the leaves of its share tell, that share is struck out, and
    /// no further one is read. Takes no memory.
    pub fn read_blocks(&mut self, place: Place, positions: &[usize], blocks: &mut [u8]) -> bool
        requires left { AreLeft self.old.struck positions.now }
        requires held { All (λ position. HoldsOwnLeaves self.old position) positions.now }
        requires room { length positions.now * place.size ≤ length blocks.old }
        ensures ueb { self.new.ueb ≡ self.old.ueb }
        ensures numbers { self.new.numbers ≡ self.old.numbers }
        ensures struck { StayStruck self.old.struck self.new.struck }
        ensures read { IsTrue result → AreSharesRead B.gives B.fails place self.old
            (blocks_read positions.now (pieces (length positions.now) place.size blocks.new))
            self.new }
        ensures told { IsTrue result → AreBlocksTold self.new.ueb place.segment
            (picked_numbers self.new.numbers positions.now)
            (map (leaves_held self.new.held) positions.now)
            (pieces (length positions.now) place.size blocks.new) }
        ensures refused { result ≡ false → ((reads : List ShareRead)
            × AreSharesRead B.gives B.fails place self.old reads self.new)
            × (unstruck_count self.new.struck < unstruck_count self.old.struck) }
    {
        for i in 0..positions.len() {
            let start = i * place.size;
            if !self.ask(positions[i], place, &mut blocks[start..start + place.size]) {
                return false;
            }
        }
        true
    }

    // Reads the block at a place of a share, and strikes it out where the block is refused.
    fn ask(&mut self, position: usize, place: Place, block: &mut [u8]) -> bool
        requires left { slice_get self.old.struck position ≡ Some false }
        requires held { HoldsOwnLeaves self.old position }
        requires long { length block.old ≡ place.size }
        ensures good { IsTrue result → IsBlockRead B.gives B.fails place self.old position
            (Some block.new) self.new
            × HasLeaf (leaves_held self.old.held position) place.segment (Some block.new)
            × (self.new ≡ record self.old { bytes = self.new.bytes }) }
        ensures refused { result ≡ false → (came : Option (List ℕ))
            × IsBlockRead B.gives B.fails place self.old position came self.new
            × (self.new ≡ struck_out self.old position self.new.bytes) }
    {
        let good = fetch(
            &mut self.bytes,
            &self.held[position],
            position,
            place,
            block,
        );
        if !good {
            self.strike(position);
        }
        good
    }
}

// Reads the block at a place of the share at a position, and says whether it has the hash that the
// leaves of the share tell.
fn fetch<B: ShareBytes>(
    bytes: &mut B,
    held: &Held,
    position: usize,
    place: Place,
    block: &mut [u8],
) -> bool
    requires long { length block.old ≡ place.size }
    ensures good { IsTrue result → Brought B.gives B.fails place position bytes.old
        (Some block.new) bytes.new × HasLeaf held.now place.segment (Some block.new) }
    ensures refused { result ≡ false → (came : Option (List ℕ))
        × Brought B.gives B.fails place position bytes.old came bytes.new
        × (¬ HasLeaf held.now place.segment came) }
{
    match bytes.read(position, place.begin, block) {
        Ok(()) => held.has_leaf(place.segment, &tagged(Tag::Block, block)),
        Err(_) => false,
    }
}
