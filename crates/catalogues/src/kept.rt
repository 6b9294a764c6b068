//! Which lines of a catalogue a put keeps that goes on from it.

ghost use Rattle.std.specs.Prelude.{◌≡◌, ◌↔◌, IsTrue, Some};
ghost use Rattle.catalogues.specs.Kept.{IsKept, IsLongBefore, IsNotBehind, MayKeep, size_read};

use crate::head::{Head, Moment};
use cap_text::Cap;

/// By how many seconds a time has to lie before another, if it is to be the earlier one for sure:
/// some file systems keep times in steps of two seconds.
const MARGIN: u64 = 2;

/// What the system tells of a regular file.
#[derive(Clone, Copy, Debug, PartialEq, Eq)]
pub struct FileState {
    /// How many bytes it has.
    pub size: u64,
    /// When it was last changed: its bytes, its name, or what else is kept of it.
    pub changed: Moment,
    /// When its bytes were last written, or are said to have been.
    pub modified: Moment,
}

impl Head {
    /// Whether lines of a catalogue that begins with this may stand in one that begins with `new`:
    /// where both tell the same numbers and the same fingerprint, and the clock did not go back
    /// from the one to the other.
    pub fn may_keep(&self, new: &Head) -> bool
        ensures { IsTrue result ↔ MayKeep self.now new.now }
    {
        self.numbers == new.numbers
            && self.fingerprint == new.fingerprint
            && is_not_behind(self.begun, new.begun)
    }
}

/// Whether a line of the catalogue that begins with `old` may stand in one that begins with `new`,
/// for a file that is there: the cap is one that reads a file of its size, and it was neither
/// changed nor written since two seconds before that catalogue was begun.
pub fn is_kept(old: &Head, new: &Head, cap: &Cap, file: &FileState) -> bool
    ensures { IsTrue result ↔ IsKept old.now new.now cap.now file.now }
{
    old.may_keep(new)
        && has_size(cap, file.size)
        && 0 < file.changed.seconds
        && is_long_before(file.changed, old.begun)
        && is_long_before(file.modified, old.begun)
}

// Whether a cap reads a file of this size.
fn has_size(cap: &Cap, size: u64) -> bool
    ensures { IsTrue result ↔ (size_read cap.now ≡ Some size) }
{
    match cap {
        Cap::Chk(cap) => cap.size() == size,
        Cap::Lit(cap) => cap.data().len() as u64 == size,
        Cap::Verify(_) => false,
    }
}

// Whether a moment lies before another by more than the margin.
fn is_long_before(a: Moment, b: Moment) -> bool
    ensures { IsTrue result ↔ IsLongBefore a b }
{
    let Some(seconds) = a.seconds.checked_add(MARGIN) else {
        return false;
    };
    seconds < b.seconds || (seconds == b.seconds && a.nanoseconds < b.nanoseconds)
}

// Whether a moment does not lie behind another.
fn is_not_behind(a: Moment, b: Moment) -> bool
    ensures { IsTrue result ↔ IsNotBehind a b }
{
    a.seconds < b.seconds || (a.seconds == b.seconds && a.nanoseconds <= b.nanoseconds)
}
