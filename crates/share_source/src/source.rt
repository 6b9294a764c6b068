//! The padded ciphertext of a file, decoded segment by segment.

ghost use Rattle.std.specs.Prelude.{◌≡◌, ◌⊎◌, ◌<◌, ◌≤◌, ◌^◌, ◌↔◌, ℕ, All, IfErr, IfOk, IsErrOf};
ghost use Rattle.std.specs.Prelude.{IsTrue, OnErr, OnOk, [], drop, false, length, replicate, take};
ghost use Rattle.sources.specs.Source.{HasFailedMore};
ghost use Rattle.ueb.specs.Shape.{rounded_up};
ghost use Rattle.share_layout.specs.Geometry.{segment_count};
ghost use Rattle.share_layout.specs.Pieces.{block_length};
ghost use Rattle.download_segments.specs.Decoding.{AreShareNumbers};
ghost use Rattle.share_verify.specs.CapBlock.{geometry_by};
ghost use Rattle.share_source.specs.Candidates.{AreFirst, HaveTooFew, picked_numbers};
ghost use Rattle.share_source.specs.Decoded.{BroughtNothing, GivesDecoded};

use crate::bytes::ShareBytes;
use crate::candidates::Candidates;
use crate::reading::{Reading, Shortage};
use crate::segment::read_segment;
use share_layout::Geometry;
use share_verify::geometry_of;
use sources::{Source, SourceFault};
use std::alloc::Global;
use std::marker::Model;
use ueb::Ueb;
use zfec_code::CodeError;

/// The padded ciphertext of a file, decoded from as many good shares of it as are needed. A block
/// counts only where it has the hash that the leaves of its share's tree tell, which are read
/// before the share's first block. Where it has another, or it or the leaves cannot be read, its
/// share is struck out for good, and a spare takes its place: the next share that is not struck out
/// and has none of the others' numbers. Only of the shares that are read leaves are held.
#[derive(Drop)]
pub struct ShareSource<B: ShareBytes + Drop> {
    candidates: Candidates<B>,
    reading: Reading,
    lacks_memory: bool,
    failures: u64,
}

impl<B: ShareBytes + Drop> Model for ShareSource<B> {
    ghost use Rattle.share_source.specs.Decoded.{Decoding};
    ghost use Rattle.share_source.specs.Reading.{IsReadingOf};

    ghost Value = { Decoding B };

    ghost view = { λ s. record {
      geometry = s.reading.geometry;
      candidates = s.candidates;
      reading = s.reading.positions.items;
      lacks_memory = s.lacks_memory;
      failures = s.failures;
    } };

    ghost invariant = { λ s. IsReadingOf s.candidates.numbers s.reading };
}

impl<B: ShareBytes + Drop> ShareSource<B> {
    /// Decodes the segments of a file with this extension block from the shares with these numbers:
    /// from the first with different numbers, as many as are needed. The others are spares. Nothing
    /// is read yet.
    ///
    /// Refuses, tested in this order: `ShareOutOfRange` (a number that no share of the file has)
    /// and `LengthMismatch` (fewer different numbers than are needed); and `OutOfMemory`.
    pub fn new(
        alloc: Global,
        ueb: Ueb,
        numbers: Vec<u16>,
        bytes: B,
    ) -> Result<ShareSource<B>, CodeError>
        ensures source { IfOk result (λ s. s ≡ record {
          geometry = geometry_by ueb;
          candidates = record {
            ueb = ueb;
            numbers = numbers.items;
            held = replicate (length numbers.items) [];
            struck = replicate (length numbers.items) false;
            bytes = bytes;
          };
          reading = s.reading;
          lacks_memory = false;
          failures = 0;
        }) }
        ensures numbers { IfOk result
            (λ s. AreShareNumbers (geometry_by ueb) (picked_numbers numbers.items s.reading)) }
        ensures first { IfOk result (λ s. AreFirst numbers.items s.reading) }
        // When each refusal comes.
        ensures out_of_range { IsErrOf result CodeError.ShareOutOfRange
            → ¬ All (λ number. number < ueb.total_shares) numbers.items }
        ensures few { IsErrOf result CodeError.LengthMismatch → HaveTooFew ueb.needed_shares
            numbers.items (replicate (length numbers.items) false) }
        ensures in_range { IsErrOf result CodeError.LengthMismatch
            → All (λ number. number < ueb.total_shares) numbers.items }
        ensures no_other { IfErr result (λ e. (e ≡ CodeError.OutOfMemory)
            ⊎ (e ≡ CodeError.ShareOutOfRange) ⊎ (e ≡ CodeError.LengthMismatch)) }
    {
        let geometry = geometry_of(&ueb);
        if !are_of_file(&geometry, &numbers) {
            return Err(CodeError::ShareOutOfRange);
        }
        let reading = Reading::new(alloc, geometry, &numbers)?;
        Ok(ShareSource {
            candidates: Candidates::new(alloc, ueb, numbers, bytes)?,
            reading,
            lacks_memory: false,
            failures: 0,
        })
    }

    /// The positions of the shares that are read now. Others may be read later, where one of them
    /// is struck out.
    pub fn reading(&self) -> &[usize]
        ensures { result.now ≡ self.now.reading }
    {
        &self.reading.positions
    }

    /// Whether the last read that failed did so because no memory was left.
    pub fn lacks_memory(&self) -> bool
        ensures { result ≡ self.now.lacks_memory }
    {
        self.lacks_memory
    }

    /// The owner of the shares' bytes.
    pub fn bytes(&self) -> &B
        ensures { result.now ≡ self.now.candidates.bytes }
    {
        self.candidates.bytes()
    }

    /// Gives the owner of the shares' bytes back.
    pub fn into_bytes(self) -> B
        ensures { result ≡ self.candidates.bytes }
    {
        self.candidates.into_bytes()
    }
}

// Whether a share of the file has each of these numbers.
fn are_of_file(geometry: &Geometry, numbers: &[u16]) -> bool
    ensures { IsTrue result ↔ All (λ number. number < geometry.now.total) numbers.now }
{
    let total = geometry.total();
    numbers.iter().all(|number| *number < total)
}

impl<B: ShareBytes + Drop> Source for ShareSource<B> {
    ghost size = { λ s. rounded_up s.geometry.size s.geometry.needed };

    ghost failures = { λ s. s.failures };

    ghost gives = { λ s offset bytes after. GivesDecoded B.gives B.fails s offset bytes after };

    fn len(&self) -> u64 {
        padded_size(&self.reading.geometry)
    }

    fn read_at(&mut self, offset: u64, out: &mut [u8]) -> Result<usize, SourceFault>
        ensures few { IfOk result (λ count. count ≤ length out.old) }
        ensures gives { 0 < length out.old → IfOk result (λ count.
            GivesDecoded B.gives B.fails self.old offset (take count out.new) self.new) }
        ensures size { rounded_up self.new.geometry.size self.new.geometry.needed
            ≡ rounded_up self.old.geometry.size self.old.geometry.needed }
        ensures ok { OnOk result (self.new.failures ≡ self.old.failures) }
        ensures err { OnErr result (HasFailedMore self.old.failures self.new.failures) }
        // Why it failed.
        ensures nothing { OnErr result
            (BroughtNothing B.gives B.fails self.old offset self.new) }
    {
        if padded_size(&self.reading.geometry) <= offset {
            return Ok(0);
        }
        let size = u64::from(self.reading.geometry.segment_size());
        let number = (offset / size) as u32;
        match read_segment(&mut self.candidates, &mut self.reading, number) {
            Ok(whole) => {
                let within = (offset % size) as usize;
                Ok(copy_part(&self.reading.segment[..whole], within, out))
            }
            Err(shortage) => {
                self.lacks_memory = shortage == Shortage::Memory;
                self.failures = self.failures.saturating_add(1);
                Err(SourceFault::Unreadable)
            }
        }
    }

    fn failures(&self) -> u64 {
        self.failures
    }
}

// The bytes of a file with its padding.
fn padded_size(geometry: &Geometry) -> u64
    ensures { result ≡ rounded_up geometry.now.size geometry.now.needed }
{
    let needed = u64::from(geometry.needed());
    geometry.size().div_ceil(needed) * needed
}

// Copies as many bytes of a text from an offset inside on as there are and as `out` has room for,
// and says how many.
fn copy_part(text: &[u8], offset: usize, out: &mut [u8]) -> usize
    requires { offset < length text.now }
    ensures few { result ≤ length out.old }
    ensures some { 0 < length out.old → 0 < result }
    ensures part { take result out.new ≡ take result (drop offset text.now) }
{
    let count = out.len().min(text.len() - offset);
    out[..count].copy_from_slice(&text[offset..offset + count]);
    count
}
