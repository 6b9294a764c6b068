//! What bytes of shares are read by.

ghost use Rattle.std.specs.Prelude.{ℕ, List, length, OnErr, OnOk};

use sources::SourceFault;

/// The bytes of shares, each of which stands at a position, by relations of their own: what a read
/// brings or that it fails, from the state before it to the state after it. Nothing that they bring
/// is trusted: two reads of one place may bring different bytes.
pub trait ShareBytes {
    /// From this state a read of the share at this position, from this offset on, brought these
    /// bytes, and the shares are in that state then.
    ghost gives: { Self → ℕ → ℕ → List ℕ → Self → Type 0 };

    /// From this state a read of the share at this position, from this offset on, of so many bytes
    /// failed, and the shares are in that state then.
    ghost fails: { Self → ℕ → ℕ → ℕ → Self → Type 0 };

    /// Fills `out` with the bytes of the share at a position from an offset on. Where there is no
    /// such share, or it has not so many bytes, or they cannot be had, the read fails, and `out`
    /// holds any bytes.
    fn read(&mut self, position: usize, offset: u64, out: &mut [u8]) -> Result<(), SourceFault>
        ensures gives { OnOk result (gives self.old position offset out.new self.new) }
        ensures fails { OnErr result
            (fails self.old position offset (length out.old) self.new) };
}
