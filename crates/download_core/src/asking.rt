//! Parts of a share are asked for, one after another.

ghost use Rattle.std.specs.Prelude.{◌≡◌, ◌<◌, ◌≤◌, All, AllPairs, OnOk, length};
ghost use Rattle.download_parts.specs.PlanLaws.{AreApart};
ghost use Rattle.download_parts.specs.Plan.{max_read};
ghost use Rattle.download_shares.specs.HoldingMoves.{IsUnasked};
ghost use Rattle.download_shares.specs.Known.{AreBegun};
ghost use Rattle.download_shares.specs.BeginningMoves.{GoesOn};
ghost use Rattle.download_shares.specs.Reads.{AddsReads};
ghost use Rattle.download_file.specs.Asked.{IsOneOf};
ghost use Rattle.download_core.specs.ReadingSteps.{AsksParts, Grows};

use download_shares::Beginnings;
use download_supply::Wanted;
use std::alloc::AllocError;
use wire::message::ReadLength;

/// Asks for these parts of the share of a holding, one after another.
pub(crate) fn ask_parts(
    beginnings: &mut Beginnings,
    holding: usize,
    wanted: &[Wanted],
) -> Result<(), AllocError>
    requires known { AreBegun beginnings.old }
    requires there { holding < length beginnings.old.holdings.table.holdings }
    requires few { All (λ w. (0 < w.read.length) × (w.read.length ≤ max_read)) wanted.now }
    requires apart { AllPairs (λ v w.
        AreApart v.read.offset v.read.length w.read.offset w.read.length) wanted.now }
    requires fresh { All (λ w. IsUnasked beginnings.old.holdings holding w.read.offset
        w.read.length) wanted.now }
    ensures asks { OnOk result (AsksParts holding wanted.now beginnings.old beginnings.new) }
    ensures goes { GoesOn beginnings.old beginnings.new }
    ensures grows { Grows beginnings.old beginnings.new }
    ensures blamed { beginnings.new.holdings.blamed ≡ beginnings.old.holdings.blamed }
    ensures adds { AddsReads (λ _ _ offset len. IsOneOf wanted.now offset len)
        beginnings.old.holdings.requests.entries beginnings.new.holdings.requests.entries }
{
    for part in wanted {
        beginnings.ask(holding, part.read.offset, length_of(part.read.length))?;
    }
    Ok(())
}

// The length of a read.
fn length_of(length: u32) -> ReadLength
    requires some { 0 < length }
    requires few { length ≤ max_read }
    ensures { result ≡ length }
{
    ReadLength::new(length).unwrap()
}
