//! The pieces of a share that are asked for, and what came for each.

ghost use Rattle.std.specs.Prelude.{◌≡◌, ◌⊎◌, ◌↔◌, ◌≤◌, ◌<◌, ℕ, IfNone, IfSome, IsTrue, Vec};
ghost use Rattle.std.specs.Prelude.{false, length, true};
ghost use Rattle.std.specs.Global.{Global};
ghost use Rattle.wire.specs.Limits.{most_data};
ghost use Rattle.checker.specs.Wanted.{AllCame, AnyCameFor, AnyWaits, IsAhead, NoneWaits};
ghost use Rattle.checker.specs.Wanted.{came_for, length_ahead, offset_ahead};
ghost use Rattle.checker.specs.declared.wanted.Standing.TheVariants as standings;
ghost use Rattle.share_reading.specs.declared.reading.ShareReading.TheVariants as readings;

use share_reading::{Rest, ShareReading};
use std::collections::VecDeque;
use wire::message::MAX_PIECE;

/// The most pieces of a share that may be asked for at once.
pub const MOST_PIECES: usize = 8;

/// What came for a piece of a share.
#[derive(Drop)]
pub(crate) enum Came {
    /// Its request waits.
    Waits,
    /// These bytes.
    Bytes(Vec<u8>),
    /// No bytes: its request was lost, or the server has no such share.
    Nothing,
}

/// A piece of a share that is asked for, and not read yet.
#[derive(Drop)]
pub(crate) struct Wanted {
    /// The position of its request.
    pub(crate) position: usize,
    pub(crate) came: Came,
}

/// Which bytes of a share a piece is.
#[derive(Clone, Copy)]
pub(crate) struct Span {
    /// The offset of the first.
    pub(crate) offset: u64,
    /// How many they are: 1 to 32,768.
    pub(crate) length: u32,
}

/// How the pieces stand that are asked for of one share.
#[derive(Clone, Copy)]
pub(crate) enum Standing {
    /// One waits.
    Waits,
    /// None waits, and for one no bytes came.
    Lost,
    /// Bytes came for each.
    Came,
}

impl Came {
    /// These bytes came, or none.
    pub(crate) fn of(bytes: Option<Vec<u8>>) -> Came
        ensures { result ≡ came_for bytes }
    {
        match bytes {
            Some(bytes) => Came::Bytes(bytes),
            None => Came::Nothing,
        }
    }

    // Whether nothing came yet.
    fn waits(&self) -> bool
        ensures { IsTrue result ↔ (self.now ≡ Came.Waits) }
    {
        matches!(self, Came::Waits)
    }

    // Whether a piece is lost: this one, or one before.
    fn loses(&self, is_lost: bool) -> bool
        ensures yes { IsTrue result → IsTrue is_lost ⊎ (self.now ≡ Came.Nothing) }
        ensures no { result ≡ false → (is_lost ≡ false) × (self.now ≡ Came.Nothing → ⊥) }
    {
        match self {
            Came::Nothing => true,
            _ => is_lost,
        }
    }

    /// Whether bytes came that are read at their turn, where so many were asked for, and another
    /// piece waits or none does: as many as that, or any where none waits.
    pub(crate) fn is_to_read(&self, count: u32, waits: bool) -> bool
        ensures yes { IsTrue result → (bytes : Vec ℕ Global) × (self.now ≡ Came.Bytes bytes)
            × (waits ≡ true → length bytes.items ≡ count) }
        ensures no { result ≡ false → waits ≡ false → (bytes : Vec ℕ Global)
            → self.now ≡ Came.Bytes bytes → ⊥ }
    {
        match self {
            Came::Bytes(bytes) => !waits || bytes.len() == count as usize,
            Came::Waits | Came::Nothing => false,
        }
    }

    /// The bytes that came.
    pub(crate) fn into_bytes(self) -> Vec<u8>
        requires { (bytes : Vec ℕ Global) × (self ≡ Came.Bytes bytes) }
        ensures { self ≡ Came.Bytes result }
    {
        match self {
            Came::Bytes(bytes) => bytes,
            Came::Waits | Came::Nothing => unreachable!(),
        }
    }
}

/// The piece that comes so many pieces after the one that is read next; `None` where the share ends
/// before it. The beginning of a share is read one piece at a time, since each tells the next.
pub(crate) fn span_ahead(reading: &ShareReading, pieces: usize) -> Option<Span>
    ensures ahead { IfSome result (λ _. IsAhead reading.now pieces) }
    ensures offset { IfSome result (λ s. s.offset ≡ offset_ahead reading.now pieces) }
    ensures length { IfSome result (λ s. s.length ≡ length_ahead reading.now pieces) }
    ensures range { IfSome result (λ s. (0 < s.length) × (s.length ≤ most_data)) }
    ensures none { IfNone result (IsAhead reading.now pieces → ⊥) }
{
    match reading {
        ShareReading::Beginning(opening) => {
            if 0 < pieces {
                return None;
            }
            Some(Span {
                offset: opening.next_offset(),
                length: opening.next_length(),
            })
        }
        ShareReading::Remaining(rest) => rest_ahead(rest, pieces),
    }
}

// The same in the rest of a share.
fn rest_ahead(rest: &Rest, pieces: usize) -> Option<Span>
    ensures ahead { IfSome result (λ _. IsAhead (readings.Remaining rest.now) pieces) }
    ensures offset { IfSome result
        (λ s. s.offset ≡ offset_ahead (readings.Remaining rest.now) pieces) }
    ensures length { IfSome result
        (λ s. s.length ≡ length_ahead (readings.Remaining rest.now) pieces) }
    ensures range { IfSome result (λ s. (0 < s.length) × (s.length ≤ most_data)) }
    ensures none { IfNone result (IsAhead (readings.Remaining rest.now) pieces → ⊥) }
{
    let left = rest.offsets.extension_block - rest.next;
    let before = (pieces as u64).saturating_mul(MAX_PIECE as u64);
    if left <= before {
        return None;
    }
    Some(Span {
        offset: rest.next + before,
        length: (left - before).min(MAX_PIECE as u64) as u32,
    })
}

/// How these pieces stand.
pub(crate) fn standing_of(wanted: &VecDeque<Wanted>) -> Standing
    ensures waits { result ≡ standings.Waits → AnyWaits wanted.now.items }
    ensures lost { result ≡ standings.Lost
        → NoneWaits wanted.now.items × AnyCameFor Came.Nothing wanted.now.items }
    ensures came { result ≡ standings.Came → AllCame wanted.now.items }
{
    let mut is_lost = false;
    for i in 0..wanted.len() {
        let came = &wanted[i].came;
        if came.waits() {
            return Standing::Waits;
        }
        is_lost = came.loses(is_lost);
    }
    if is_lost {
        Standing::Lost
    } else {
        Standing::Came
    }
}
