//! The good shares that a check hands out.

ghost use Rattle.std.specs.Prelude.{◌≡◌, ◌↔◌, ℕ, Some, IfNone, IfOk, IfSome, IsTrue, map};
ghost use Rattle.std.specs.Prelude.{slice_get, true};
ghost use Rattle.share_reading.specs.declared.verdict.Verdict.TheVariants.{Good};
ghost use Rattle.checker.specs.Found.{IsDone};
ghost use Rattle.checker.specs.Good.{AreGoodShares, HasGood, IsFound};
ghost use Rattle.checker.specs.declared.offers.Offer.{Offer};
ghost use Rattle.checker.specs.declared.offers.Stage.TheVariants.{Ended};

use crate::offers::{Offer, Stage};
use crate::state::Machine;
use share_reading::Verdict;
use std::alloc::{AllocError, Global};

/// The good shares of a check in which no share is read any more: of the lowest numbers that have
/// one, as many as are needed or as there are. It kept their bytes.
pub(crate) fn good_shares_of(
    alloc: Global,
    machine: &Machine,
) -> Result<Vec<(u16, Vec<u8>)>, AllocError>
    requires done { IsDone machine.now }
    requires keeps { machine.now.keeps ≡ true }
    ensures { IfOk result (λ l. AreGoodShares machine.now.cap machine.now.requests.entries
        (map (λ s. s.0) l.items) (map (λ s. s.1.items) l.items)) }
{
    let mut shares = Vec::new(alloc);
    for number in 0..machine.cap.total() {
        if shares.len() < usize::from(machine.cap.needed()) {
            if let Some(bytes) = good_share(alloc, machine, number)? {
                shares.push((number, bytes))?;
            }
        }
    }
    Ok(shares)
}

// The bytes of the first good share of this number.
fn good_share(alloc: Global, machine: &Machine, number: u16) -> Result<Option<Vec<u8>>, AllocError>
    requires done { IsDone machine.now }
    requires keeps { machine.now.keeps ≡ true }
    ensures some { IfOk result (λ found. IfSome found (λ bytes. IsFound machine.now.cap
        machine.now.requests.entries number bytes.items)) }
    ensures none { IfOk result (λ found. IfNone found
        (HasGood machine.now.cap machine.now.requests.entries number → ⊥)) }
{
    match good_offer(&machine.offers, number) {
        Some(offer) => Ok(Some(offer.pieces.joined(alloc)?)),
        None => Ok(None),
    }
}

// The first good share of this number.
fn good_offer(offers: &[Offer], number: u16) -> Option<&Offer>
    ensures some { IfSome result (λ offer. (k : ℕ) × (slice_get offers.now k ≡ Some offer.now)
        × (offer.now.share ≡ number) × (offer.now.stage ≡ Ended Good)) }
    ensures none { IfNone result ((k : ℕ) (o : Offer) → slice_get offers.now k ≡ Some o
        → o.share ≡ number → o.stage ≡ Ended Good → ⊥) }
{
    for offer in offers {
        if u16::from(offer.share) == number && is_good(offer) {
            return Some(offer);
        }
    }
    None
}

// Is its verdict that it is good?
fn is_good(offer: &Offer) -> bool
    ensures { IsTrue result ↔ (offer.now.stage ≡ Ended Good) }
{
    matches!(offer.stage, Stage::Ended(Verdict::Good))
}
