//! What a file is read by.

ghost use Rattle.std.specs.Prelude.{◌≡◌, ◌<◌, ◌≤◌, ℕ, List, length, take, IfOk, OnErr, OnOk};
ghost use Rattle.sources.specs.Source.{HasFailedMore};

use crate::error::SourceFault;

/// A file that is read at any offset, by a relation of its own: what a read brings, from the state
/// before it to the state after it. Two reads of one offset may bring different bytes.
pub trait Source {
    /// How many bytes it says that it has. That stays, whatever becomes of the file.
    ghost size: { Self → ℕ };

    /// How many reads of it failed.
    ghost failures: { Self → ℕ };

    /// From this state a read at this offset brought these bytes, and it is in that state then. A
    /// read that brings none found no more bytes.
    ghost gives: { Self → ℕ → List ℕ → Self → Type 0 };

    /// How many bytes it has.
    fn len(&self) -> u64
        ensures { result ≡ size self.now };

    /// Reads some bytes from an offset on, at most as many as `out` has: none only where there are
    /// no more, or where `out` is empty. After a failed read `out` holds any bytes.
    fn read_at(&mut self, offset: u64, out: &mut [u8]) -> Result<usize, SourceFault>
        ensures few { IfOk result (λ count. count ≤ length out.old) }
        ensures gives { 0 < length out.old
            → IfOk result (λ count. gives self.old offset (take count out.new) self.new) }
        ensures size { size self.new ≡ size self.old }
        ensures ok { OnOk result (failures self.new ≡ failures self.old) }
        ensures err { OnErr result (HasFailedMore (failures self.old) (failures self.new)) };

    /// How many reads failed. It stays at the greatest number that there is.
    fn failures(&self) -> u64
        ensures { result ≡ failures self.now };
}
