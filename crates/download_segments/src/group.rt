//! Segments that are made of the blocks of the same readers.

ghost use Rattle.std.specs.Prelude.{◌≡◌, ◌≢◌, ◌<◌, ◌+◌, ◌*◌, ◌^◌, ◌++◌, ◌∷◌, ◌↔◌, [], ℕ};
ghost use Rattle.std.specs.Prelude.{IfOk, IsSome, IsTrue, Ok, OnErr, OnOk, Some, false, length};
ghost use Rattle.std.specs.Prelude.{map, true};
ghost use Rattle.share_layout.specs.Geometry.{segment_count};
ghost use Rattle.share_layout.specs.Pieces.{block_length, segment_length};
ghost use Rattle.proved_parts.specs.Decoding.{DecodesBlocks};
ghost use Rattle.download_parts.specs.Trees.{known_leaf};
ghost use Rattle.download_segments.specs.Decoding.{AreShareNumbers, blocks_in};
ghost use Rattle.download_segments.specs.Handout.{IsRowWanted, next_segment};
ghost use Rattle.download_segments.specs.State.{IsHandout, TreesGrow};
ghost use Rattle.download_segments.specs.GroupMaking.{AreLong, DecodesRow, MakesRow, MakesSegment};
ghost use Rattle.download_segments.specs.GroupMaking.{RefutesBlocks, RefutesRow, nth};
ghost use Rattle.download_segments.specs.GroupState.{GroupState, IsLast, new_group, with_end};

use crate::decoding::Decoding;
use crate::handout::Handout;
use share_layout::Geometry;
use std::alloc::{AllocError, Global};
use std::marker::Model;

/// The segments `first` to before `end`, which were made of the blocks of the readers at these
/// positions.
#[derive(Drop)]
pub struct Group {
    first: u32,
    end: u32,
    readers: Vec<usize>,
    decoding: Decoding,
}

impl Model for Group {
    ghost use Rattle.download_segments.specs.GroupState.{GroupState};

    ghost Value = { GroupState };

    ghost view = { λ g. record {
      first = g.first;
      end = g.end;
      readers = g.readers.items;
      decoding = g.decoding;
    } };
}

impl Group {
    /// The first of its segments.
    pub fn first(&self) -> u32
        ensures { result ≡ self.now.first }
    {
        self.first
    }

    /// The number behind its last segment.
    pub fn end(&self) -> u32
        ensures { result ≡ self.now.end }
    {
        self.end
    }

    /// The positions of its readers.
    pub fn positions(&self) -> &[usize]
        ensures { result.now ≡ self.now.readers }
    {
        self.readers.as_slice()
    }

    // Whether it is of the readers at these positions.
    fn is_of(&self, positions: &[usize]) -> bool
        ensures { IsTrue result ↔ (self.now.readers ≡ positions.now) }
    {
        self.readers.as_slice() == positions
    }

    // The segment before this one is its last.
    fn reach(&mut self, end: u32)
        ensures { self.new ≡ with_end self.old end }
    {
        self.end = end;
    }

    /// The segment with this number, of its blocks, which stand one after another.
    pub fn decode(&self, alloc: Global, number: u32, joined: &[u8]) -> Result<Vec<u8>, AllocError>
        requires there { number < segment_count self.now.decoding.geometry }
        requires long { length joined.now ≡ self.now.decoding.geometry.needed
            * block_length self.now.decoding.geometry number }
        ensures decodes { IfOk result (λ segment. DecodesBlocks self.now.decoding.geometry
            self.now.decoding.numbers (blocks_in self.now.decoding.geometry number joined.now)
            number segment.items) }
        ensures length { IfOk result (λ segment.
            length segment.items ≡ segment_length self.now.decoding.geometry number) }
    {
        self.decoding.decode(alloc, number, joined)
    }
}

/// Whether the last group is of the readers at these positions.
pub fn is_last_of(groups: &[Group], positions: &[usize]) -> bool
    ensures { IsTrue result → (group : GroupState) × IsLast groups.now group
        × (group.readers ≡ positions.now) }
{
    match groups.last() {
        Some(group) => group.is_of(positions),
        None => false,
    }
}

/// Adds a group of the readers at these positions, which read shares of these numbers, for the
/// segments from this one on.
pub fn push_group(
    alloc: Global,
    groups: &mut Vec<Group>,
    geometry: &Geometry,
    positions: &[usize],
    numbers: Vec<u16>,
    number: u32,
) -> Result<(), AllocError>
    requires shares { AreShareNumbers geometry.now numbers.items }
    ensures pushed { OnOk result (groups.new.items
        ≡ groups.old.items ++ new_group geometry.now positions.now numbers.items number ∷ []) }
    ensures unchanged { OnErr result (groups.new.items ≡ groups.old.items) }
{
    let group = Group {
        first: number,
        end: number,
        readers: Vec::from_slice(alloc, positions)?,
        decoding: Decoding::new(alloc, geometry, numbers)?,
    };
    groups.push(group)?;
    Ok(())
}

/// Makes the next segment of its blocks, which are those of the last group's readers and stand one
/// after another, and hands it out where it is proved: `true`. `false` where it is refuted.
pub fn make_segment(
    alloc: Global,
    handout: &mut Handout,
    groups: &mut Vec<Group>,
    number: u32,
    joined: &[u8],
) -> Result<bool, AllocError>
    requires right { IsHandout handout.old }
    requires next { next_segment handout.old ≡ Some number }
    requires known { IsSome (known_leaf handout.old.trees.ciphertext number) }
    requires some { 0 < length groups.old.items }
    requires geometry { (group : GroupState) → IsLast groups.old.items group
        → group.decoding.geometry ≡ handout.old.geometry }
    requires long { length joined.now ≡ handout.old.geometry.needed
        * block_length handout.old.geometry number }
    ensures made { result ≡ Ok true → MakesSegment handout.old groups.old.items number joined.now
        handout.new groups.new.items }
    ensures refuted { result ≡ Ok false
        → RefutesBlocks handout.old groups.old.items number joined.now }
    ensures same { result ≢ Ok true
        → (handout.new ≡ handout.old) × (groups.new.items ≡ groups.old.items) }
    ensures grow { TreesGrow handout.old.trees handout.new.trees }
    ensures right { IsHandout handout.new }
{
    let last = groups.len() - 1;
    let segment = groups[last].decode(alloc, number, joined)?;
    if !handout.hand_out(number, segment)? {
        return Ok(false);
    }
    groups[last].reach(number + 1);
    Ok(true)
}

/// Makes the next eight segments of their blocks, which are those of the last group's readers, and
/// of each segment stand one after another. They are handed out where all are proved: `true`.
pub fn make_segments(
    alloc: Global,
    handout: &mut Handout,
    groups: &mut Vec<Group>,
    number: u32,
    rows: &[Vec<u8>],
) -> Result<bool, AllocError>
    requires right { IsHandout handout.old }
    requires next { next_segment handout.old ≡ Some number }
    requires wanted { IsRowWanted handout.old number }
    requires some { 0 < length groups.old.items }
    requires geometry { (group : GroupState) → IsLast groups.old.items group
        → group.decoding.geometry ≡ handout.old.geometry }
    requires eight { length rows.now ≡ 8 }
    requires long { (i : ℕ) → i < 8 → length (nth (map (λ r. r.items) rows.now) i)
        ≡ handout.old.geometry.needed * block_length handout.old.geometry (number + i) }
    ensures made { result ≡ Ok true → MakesRow handout.old groups.old.items number
        (map (λ r. r.items) rows.now) handout.new groups.new.items }
    ensures refuted { result ≡ Ok false → RefutesRow handout.old groups.old.items number
        (map (λ r. r.items) rows.now) }
    ensures same { result ≢ Ok true
        → (handout.new ≡ handout.old) × (groups.new.items ≡ groups.old.items) }
    ensures right { IsHandout handout.new }
{
    let last = groups.len() - 1;
    let segments = decode_row(alloc, &groups[last], number, rows)?;
    if !handout.hand_out_row(number, segments)? {
        return Ok(false);
    }
    groups[last].reach(number + 8);
    Ok(true)
}

// Eight segments from this one on, of their blocks, which of each segment stand one after another.
fn decode_row(
    alloc: Global,
    group: &Group,
    number: u32,
    rows: &[Vec<u8>],
) -> Result<Vec<Vec<u8>>, AllocError>
    requires there { (i : ℕ) → i < 8 → number + i < segment_count group.now.decoding.geometry }
    requires low { number + 8 < 2 ^ 32 }
    requires eight { length rows.now ≡ 8 }
    requires long { AreLong group.now.decoding number (map (λ r. r.items) rows.now) }
    ensures eight { IfOk result (λ segments. length segments.items ≡ 8) }
    ensures decodes { IfOk result (λ segments. DecodesRow group.now.decoding number
        (map (λ r. r.items) rows.now) (map (λ s. s.items) segments.items)) }
{
    let mut segments = Vec::with_capacity(alloc, 8)?;
    let mut position = number;
    for row in rows {
        let segment = group.decode(alloc, position, row)?;
        segments.push(segment)?;
        position += 1;
    }
    Ok(segments)
}
