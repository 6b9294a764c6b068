//! How a download of a span ended.

ghost use Rattle.std.specs.Prelude.{◌≡◌, Err, IfOk, Ok};
ghost use Rattle.carried_operations.specs.declared.downloads.CutShort.TheVariants as cuts;
ghost use Rattle.grid_telling.specs.declared.outcome.Failure.TheVariants as failures;
ghost use Rattle.grid_gets.specs.Spans.{EndsWith};

use carried_operations::downloads::{Carried, CutShort};
use grid_faults::Fault;
use grid_rules::becoming::fault_of_loop;
use grid_rules::reached_range_end;
use grid_telling::Failure;

/// How a download of a span ended that was not refused.
#[derive(Clone, Copy)]
pub(crate) enum Tried {
    Done,
    /// There were too few shares; all bytes up to this offset were written.
    TooFew(u64),
}

/// How a download ended that was carried, where too few shares are no fault yet.
pub(crate) fn end_of(carried: &Carried) -> Result<Tried, Failure>
    ensures ok { IfOk result
        (λ tried. (carried.now.ended ≡ Ok tt) × EndsWith carried.now tried) }
    ensures writer { carried.now.ended ≡ Err cuts.Writer → result ≡ Err failures.Writer }
{
    match carried.ended {
        Err(CutShort::Loop(error)) => Err(Failure::Fault(fault_of_loop(error))),
        Err(CutShort::Writer) => Err(Failure::Writer),
        Ok(()) => match reached_range_end(carried.download.status()) {
            Ok(()) => Ok(Tried::Done),
            Err(Fault::NotEnoughShares) => Ok(Tried::TooFew(carried.offset)),
            Err(fault) => Err(Failure::Fault(fault)),
        },
    }
}
