//! A segment with its padding, read of shares and decoded.

ghost use Rattle.std.specs.Prelude.{◌≡◌, ◌*◌, ◌<◌, ◌≤◌, ◌++◌, ℕ, List, [], IfOk, IsErrOf, OnErr};
ghost use Rattle.std.specs.Prelude.{length, All, IsTrue, false, map, take};
ghost use Rattle.zfec_code.specs.Shares.{AreSharesOf, HaveLengths};
ghost use Rattle.share_layout.specs.Geometry.{segment_count};
ghost use Rattle.share_layout.specs.Pieces.{block_length, pieces};
ghost use Rattle.share_source.specs.Candidates.{AreBlocksTold, AreReadOn, AreSharesRead};
ghost use Rattle.share_source.specs.Candidates.{HaveTooFew, ShareRead, leaves_held, picked_numbers};
ghost use Rattle.share_source.specs.Decoded.{IsSegmentDecoded, block_place, blocks_read};
ghost use Rattle.share_source.specs.Reading.{IsReadingOf, StayStruck, unstruck_count};

use crate::bytes::ShareBytes;
use crate::candidates::Candidates;
use crate::place::Place;
use crate::reading::{Reading, Shortage};
use zfec_code::Decoder;

/// Reads the blocks of a segment and decodes them. The segment stands with its padding at the
/// beginning of its room then, and has so many bytes. A spare takes the place of each share that is
/// struck out; memory is taken only for that, and for leaves, where none are held of a share.
pub(crate) fn read_segment<B: ShareBytes + Drop>(
    candidates: &mut Candidates<B>,
    reading: &mut Reading,
    number: u32,
) -> Result<usize, Shortage>
    requires there { number < segment_count reading.old.geometry }
    requires reading { IsReadingOf candidates.old.numbers reading.old }
    ensures reading { IsReadingOf candidates.new.numbers reading.new }
    ensures geometry { reading.new.geometry ≡ reading.old.geometry }
    ensures ueb { candidates.new.ueb ≡ candidates.old.ueb }
    ensures numbers { candidates.new.numbers ≡ candidates.old.numbers }
    ensures read_on { AreReadOn reading.old.positions.items candidates.new.struck
        reading.new.positions.items }
    ensures long { IfOk result (λ len.
        len ≡ reading.old.geometry.needed * block_length reading.old.geometry number) }
    ensures decoded { IfOk result (λ len. IsSegmentDecoded B.gives B.fails reading.old.geometry
        number candidates.old (take len reading.new.segment.items) reading.new.positions.items
        candidates.new) }
    ensures asked { OnErr result ((reads : List ShareRead) × AreSharesRead B.gives B.fails
        (block_place reading.old.geometry number) candidates.old reads candidates.new) }
    ensures few { IsErrOf result Shortage.Shares → HaveTooFew reading.old.geometry.needed
        candidates.new.numbers candidates.new.struck }
{
    let place = Place::of(&reading.geometry, number);
    loop {
        if read_round(candidates, reading, place)? {
            return Ok(decode(candidates.numbers(), reading, place.size));
        }
    }
}

// Reads a block of each share, after spares took the places of those that were struck out, and
// leaves were read where none were held. Says whether all are good.
fn read_round<B: ShareBytes + Drop>(
    candidates: &mut Candidates<B>,
    reading: &mut Reading,
    place: Place,
) -> Result<bool, Shortage>
    requires reading { IsReadingOf candidates.old.numbers reading.old }
    requires room { reading.old.geometry.needed * place.size ≤ reading.old.geometry.segment_size }
    ensures reading { IsReadingOf candidates.new.numbers reading.new }
    ensures geometry { reading.new.geometry ≡ reading.old.geometry }
    ensures ueb { candidates.new.ueb ≡ candidates.old.ueb }
    ensures numbers { candidates.new.numbers ≡ candidates.old.numbers }
    ensures struck { StayStruck candidates.old.struck candidates.new.struck }
    ensures read_on { AreReadOn reading.old.positions.items candidates.new.struck
        reading.new.positions.items }
    ensures read { IfOk result (λ good. IsTrue good → (before : List ShareRead)
        × AreSharesRead B.gives B.fails place candidates.old
        (before ++ blocks_read reading.new.positions.items
        (pieces reading.old.geometry.needed place.size reading.new.blocks.items))
        candidates.new) }
    ensures told { IfOk result (λ good. IsTrue good → AreBlocksTold candidates.old.ueb
        place.segment (picked_numbers candidates.old.numbers reading.new.positions.items)
        (map (leaves_held candidates.new.held) reading.new.positions.items)
        (pieces reading.old.geometry.needed place.size reading.new.blocks.items)) }
    ensures refused { IfOk result (λ good. good ≡ false → ((reads : List ShareRead)
        × AreSharesRead B.gives B.fails place candidates.old reads candidates.new)
        × (unstruck_count candidates.new.struck < unstruck_count candidates.old.struck)) }
    ensures asked { OnErr result ((reads : List ShareRead)
        × AreSharesRead B.gives B.fails place candidates.old reads candidates.new) }
    ensures few { IsErrOf result Shortage.Shares → HaveTooFew reading.old.geometry.needed
        candidates.new.numbers candidates.new.struck }
{
    reading.refill(candidates)?;
    if !candidates.hold_leaves(&reading.positions)? {
        return Ok(false);
    }
    Ok(candidates.read_blocks(place, &reading.positions, &mut reading.blocks))
}

// Decodes the blocks of so many bytes each that stand one after another, and says how many bytes
// the segment has.
fn decode(numbers: &[u16], reading: &mut Reading, size: usize) -> usize
    requires reading { IsReadingOf numbers.now reading.old }
    requires room { reading.old.geometry.needed * size ≤ reading.old.geometry.segment_size }
    ensures reading { IsReadingOf numbers.now reading.new }
    ensures geometry { reading.new.geometry ≡ reading.old.geometry }
    ensures positions { reading.new.positions.items ≡ reading.old.positions.items }
    ensures long { result ≡ reading.old.geometry.needed * size }
    ensures shares { AreSharesOf reading.old.geometry.needed
        (take result reading.new.segment.items)
        (picked_numbers numbers.now reading.old.positions.items)
        (pieces reading.old.geometry.needed size reading.old.blocks.items) }
{
    let count = usize::from(reading.geometry.needed());
    let whole = count * size;
    let pairs = pair_blocks(numbers, &reading.positions, &reading.blocks, size);
    decode_pairs(
        &reading.decoder,
        &pairs[..count],
        whole,
        &mut reading.segment,
    );
    whole
}

// Decodes blocks to the first bytes of `out`, so many of them.
fn decode_pairs(decoder: &Decoder, pairs: &[(u16, &[u8])], whole: usize, out: &mut [u8])
    requires numbers { map (λ s. s.0) pairs.now ≡ decoder.now }
    requires lengths { HaveLengths (length decoder.now) (map (λ s. s.1.now) pairs.now) whole }
    requires room { whole ≤ length out.old }
    ensures { AreSharesOf (length decoder.now) (take whole out.new) (map (λ s. s.0) pairs.now)
        (map (λ s. s.1.now) pairs.now) }
{
    decoder.decode(pairs, &mut out[..whole]);
}

// Each of the first blocks with the number of its share.
fn pair_blocks<'a>(
    numbers: &[u16],
    positions: &[usize],
    joined: &'a [u8],
    size: usize,
) -> [(u16, &'a [u8]); 256]
    requires there { All (λ p. p < length numbers.now) positions.now }
    requires few { length positions.now ≤ 256 }
    requires joined { length positions.now * size ≤ length joined.now }
    ensures numbers { map (λ s. s.0) (take (length positions.now) result)
        ≡ picked_numbers numbers.now positions.now }
    ensures blocks { map (λ s. s.1.now) (take (length positions.now) result)
        ≡ pieces (length positions.now) size joined.now }
{
    let mut pairs = [(0u16, joined); 256];
    let mut rest = joined;
    for i in 0..positions.len() {
        let (block, others) = rest.split_at(size);
        pairs[i] = (numbers[positions[i]], block);
        rest = others;
    }
    pairs
}
