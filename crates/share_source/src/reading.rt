//! The shares that are read now, and what their blocks are decoded by.

ghost use Rattle.std.specs.Prelude.{◌≡◌, ◌≢◌, ◌⊎◌, ◌<◌, ℕ, All, Contains, IfErr, IfOk, IsErrOf};
ghost use Rattle.std.specs.Prelude.{OnErr, OnOk, Some, false, length, remove, replicate, slice_get};
ghost use Rattle.std.specs.Prelude.{slice_index, slice_set, take};
ghost use Rattle.zfec_code.specs.Rows.{AreDistinct};
ghost use Rattle.download_segments.specs.Decoding.{AreShareNumbers};
ghost use Rattle.share_source.specs.Candidates.{AreFirst, AreReadOn, HaveTooFew};
ghost use Rattle.share_source.specs.Candidates.{picked_numbers};
ghost use Rattle.share_source.specs.Reading.{AreLeft, IsReadingOf};

use crate::bytes::ShareBytes;
use crate::candidates::Candidates;
use crate::choosing::{find_spare, first_positions};
use share_gathering::file_code;
use share_layout::Geometry;
use std::alloc::{AllocError, Global};
use zfec_code::{Code, CodeError, Decoder};

/// The positions of the shares that are read now, their decoder, and room for a segment and its
/// blocks.
#[derive(Drop)]
pub(crate) struct Reading {
    pub alloc: Global,
    pub geometry: Geometry,
    pub code: Code,
    pub positions: Vec<usize>,
    pub decoder: Decoder,
    pub blocks: Vec<u8>,
    pub segment: Vec<u8>,
}

/// Why the blocks of a segment are not read.
#[derive(Clone, Copy, PartialEq, Eq)]
pub(crate) enum Shortage {
    /// No memory was left.
    Memory,
    /// Too few shares are left.
    Shares,
}

impl From<AllocError> for Shortage {
    ghost use Rattle.share_source.specs.declared.reading.Shortage.TheVariants.{Memory};

    ghost from_gives = { λ _ shortage. shortage ≡ Memory };

    fn from(_error: AllocError) -> Shortage {
        Shortage::Memory
    }
}

impl Reading {
    /// Takes the first shares of different numbers.
    ///
    /// Refuses `LengthMismatch` (fewer different numbers than are needed), and `OutOfMemory`.
    pub fn new(alloc: Global, geometry: Geometry, numbers: &[u16]) -> Result<Reading, CodeError>
        requires { All (λ number. number < geometry.total) numbers.now }
        ensures reading { IfOk result (IsReadingOf numbers.now) }
        ensures first { IfOk result (λ r. AreFirst numbers.now r.positions.items) }
        ensures geometry { IfOk result (λ r. r.geometry ≡ geometry) }
        ensures few { IsErrOf result CodeError.LengthMismatch
            → HaveTooFew geometry.needed numbers.now (replicate (length numbers.now) false) }
        ensures no_other { IfErr result
            (λ e. (e ≡ CodeError.OutOfMemory) ⊎ (e ≡ CodeError.LengthMismatch)) }
    {
        let needed = usize::from(geometry.needed());
        let positions = first_positions(alloc, numbers, needed)?;
        if positions.len() < needed {
            return Err(CodeError::LengthMismatch);
        }
        let code = file_code(alloc, &geometry)?;
        Ok(with_room(alloc, geometry, numbers, positions, code)?)
    }

    /// Lets a spare take the place of each share that was struck out.
    pub fn refill<B: ShareBytes + Drop>(
        &mut self,
        candidates: &Candidates<B>,
    ) -> Result<(), Shortage>
        requires { IsReadingOf candidates.now.numbers self.old }
        ensures reading { IsReadingOf candidates.now.numbers self.new }
        ensures geometry { self.new.geometry ≡ self.old.geometry }
        ensures read_on { AreReadOn self.old.positions.items candidates.now.struck
            self.new.positions.items }
        ensures left { OnOk result (AreLeft candidates.now.struck self.new.positions.items) }
        ensures few { IsErrOf result Shortage.Shares → HaveTooFew self.old.geometry.needed
            candidates.now.numbers candidates.now.struck }
    {
        for index in 0..self.positions.len() {
            if !candidates.is_left(self.positions[index]) {
                self.replace(candidates, index)?;
            }
        }
        Ok(())
    }

    // Lets a spare take the place of one of the shares.
    fn replace<B: ShareBytes + Drop>(
        &mut self,
        candidates: &Candidates<B>,
        index: usize,
    ) -> Result<(), Shortage>
        requires reading { IsReadingOf candidates.now.numbers self.old }
        requires index { index < length self.old.positions.items }
        ensures reading { IsReadingOf candidates.now.numbers self.new }
        ensures geometry { self.new.geometry ≡ self.old.geometry }
        ensures count { length self.new.positions.items ≡ length self.old.positions.items }
        ensures others { (i : ℕ) → i ≢ index → slice_get self.new.positions.items i
            ≡ slice_get self.old.positions.items i }
        ensures before { take index self.new.positions.items
            ≡ take index self.old.positions.items }
        ensures left { OnOk result (slice_get candidates.now.struck
            (slice_index self.new.positions.items index) ≡ Some false) }
        ensures few { IsErrOf result Shortage.Shares → HaveTooFew self.old.geometry.needed
            candidates.now.numbers candidates.now.struck }
    {
        let Some(position) = find_spare(candidates, &self.positions, index) else {
            return Err(Shortage::Shares);
        };
        self.put(candidates.numbers(), index, position)?;
        Ok(())
    }

    // Puts a share into the place of another. Where memory was refused, all is as it was.
    fn put(&mut self, numbers: &[u16], index: usize, position: usize) -> Result<(), AllocError>
        requires reading { IsReadingOf numbers.now self.old }
        requires index { index < length self.old.positions.items }
        requires there { position < length numbers.now }
        requires unlike { ¬ Contains
            (picked_numbers numbers.now (remove self.old.positions.items index))
            (slice_index numbers.now position) }
        ensures reading { IsReadingOf numbers.now self.new }
        ensures geometry { self.new.geometry ≡ self.old.geometry }
        ensures put { OnOk result
            (self.new.positions.items ≡ slice_set self.old.positions.items index position) }
        ensures err { OnErr result (self.new.positions.items ≡ self.old.positions.items) }
    {
        let mut picked = pick_numbers(self.alloc, numbers, &self.positions)?;
        picked[index] = numbers[position];
        self.decoder = new_decoder(self.alloc, &self.code, picked)?;
        self.positions[index] = position;
        Ok(())
    }
}

// The reading of the shares at these positions.
fn with_room(
    alloc: Global,
    geometry: Geometry,
    numbers: &[u16],
    positions: Vec<usize>,
    code: Code,
) -> Result<Reading, AllocError>
    requires range { All (λ number. number < geometry.total) numbers.now }
    requires there { All (λ p. p < length numbers.now) positions.items }
    requires numbers { AreShareNumbers geometry (picked_numbers numbers.now positions.items) }
    requires code { code ≡ record { k = geometry.needed; n = geometry.total } }
    ensures reading { IfOk result (IsReadingOf numbers.now) }
    ensures positions { IfOk result (λ r. r.positions.items ≡ positions.items) }
    ensures geometry { IfOk result (λ r. r.geometry ≡ geometry) }
{
    let picked = pick_numbers(alloc, numbers, &positions)?;
    let decoder = new_decoder(alloc, &code, picked)?;
    let size = geometry.segment_size() as usize;
    Ok(Reading {
        alloc,
        geometry,
        code,
        positions,
        decoder,
        blocks: vec![in alloc; 0u8; size]?,
        segment: vec![in alloc; 0u8; size]?,
    })
}

// The decoder of these shares.
fn new_decoder(alloc: Global, code: &Code, numbers: Vec<u16>) -> Result<Decoder, AllocError>
    requires count { length numbers.items ≡ code.now.k }
    requires below { All (λ n. n < code.now.n) numbers.items }
    requires distinct { AreDistinct numbers.items }
    ensures { IfOk result (λ decoder. decoder ≡ numbers.items) }
{
    match code.decoder(alloc, numbers) {
        Ok(decoder) => Ok(decoder),
        Err(CodeError::OutOfMemory) => Err(AllocError),
        Err(_) => unreachable!(),
    }
}

// The numbers of the shares at these positions.
fn pick_numbers(alloc: Global, numbers: &[u16], positions: &[usize]) -> Result<Vec<u16>, AllocError>
    requires { All (λ p. p < length numbers.now) positions.now }
    ensures { IfOk result (λ picked. picked.items ≡ picked_numbers numbers.now positions.now) }
{
    let mut picked = Vec::with_capacity(alloc, positions.len())?;
    for position in positions {
        picked.push(numbers[*position])?;
    }
    Ok(picked)
}
