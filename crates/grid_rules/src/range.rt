//! The bytes of a file that are asked for.

ghost use Rattle.std.specs.Prelude.{◌≡◌, ◌↔◌, Err, IfErr, IfOk};
ghost use Rattle.grid_faults.specs.declared.fault.Fault.{Fault};
ghost use Rattle.grid_rules.specs.Range.{IsWithin, asked_range};

use grid_faults::Fault;

/// A file's bytes from one offset on, and to before another.
#[derive(Clone, Copy, PartialEq, Eq)]
pub struct ByteRange {
    pub from: u64,
    pub to: u64,
}

/// The range that is asked for, of a file of so many bytes: it ends with the file, where no end is
/// named. `BadRange` where it ends before it begins, or behind the file's end.
pub fn range_of(from: u64, to: Option<u64>, size: u64) -> Result<ByteRange, Fault>
    ensures range { IfOk result (λ r. r ≡ asked_range from to size) }
    ensures within { IfOk result (IsWithin size) }
    ensures bad_range { (result ≡ Err Fault.BadRange)
        ↔ (IsWithin size (asked_range from to size) → ⊥) }
    ensures refused { IfErr result (λ fault. fault ≡ Fault.BadRange) }
{
    let to = to.unwrap_or(size);
    if to < from || size < to {
        return Err(Fault::BadRange);
    }
    Ok(ByteRange { from, to })
}
