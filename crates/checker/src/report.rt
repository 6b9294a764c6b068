//! What a check tells once it is done.

ghost use Rattle.std.specs.Prelude.{◌≡◌, ◌++◌, List, All, IfOk, OnOk, length, map, nat_eq};
ghost use Rattle.std.specs.Prelude.{count_by};
ghost use Rattle.std.specs.List.{flat_map, range_with_len};
ghost use Rattle.std.specs.Set.{is_member};
ghost use Rattle.placement.specs.Matching.{IsLargestMatching, Pair, shares_of};
ghost use Rattle.checker.specs.Found.{IsDone, IsOver, found_among, found_of};
ghost use Rattle.checker.specs.Report.{IsReport, good_pairs, is_good};

use crate::offers::{Offer, Stage};
use crate::state::Machine;
use crate::status::{Report, ShareVerdict, VerdictList};
use placement::happiness;
use share_reading::Verdict;
use std::alloc::{AllocError, Global};
use wire::message::NodeId;

/// What a check found in which no share is read any more.
pub(crate) fn report_of(alloc: Global, machine: &Machine) -> Result<Report, AllocError>
    requires done { IsDone machine.now }
    ensures { IfOk result (IsReport machine.now.cap machine.now.requests.entries) }
{
    let verdicts = verdicts_of(alloc, machine)?;
    let good = good_pairs(alloc, &verdicts)?;
    let numbers = good_numbers(machine.cap.total(), &good);
    Ok(Report {
        verdicts: VerdictList::from_vec(verdicts),
        healthy: numbers == machine.cap.total(),
        recoverable: machine.cap.needed() <= numbers,
        happiness: happiness_of(alloc, &good)?,
    })
}

// The verdicts, by server as asked.
fn verdicts_of(alloc: Global, machine: &Machine) -> Result<Vec<ShareVerdict>, AllocError>
    requires done { IsDone machine.now }
    ensures { IfOk result (λ verdicts. verdicts.items
        ≡ flat_map (found_among machine.now.offers.items) machine.now.told.items) }
{
    let mut verdicts = Vec::new(alloc);
    for told in &machine.told {
        let end = told.first + told.count;
        push_verdicts(&mut verdicts, &machine.offers[told.first..end])?;
    }
    Ok(verdicts)
}

// Adds the verdicts on these shares.
fn push_verdicts(verdicts: &mut Vec<ShareVerdict>, offers: &[Offer]) -> Result<(), AllocError>
    requires ended { All IsOver offers.now }
    ensures { OnOk result
        (verdicts.new.items ≡ verdicts.old.items ++ map found_of offers.now) }
{
    for offer in offers {
        verdicts.push(verdict_of(offer))?;
    }
    Ok(())
}

// The verdict on a share whose reading ended.
fn verdict_of(offer: &Offer) -> ShareVerdict
    requires ended { IsOver offer.now }
    ensures { result ≡ found_of offer.now }
{
    let verdict = match offer.stage {
        Stage::Ended(verdict) => verdict,
        Stage::Waiting | Stage::Read(_) => unreachable!(),
    };
    ShareVerdict {
        server: offer.server,
        share: offer.share,
        verdict,
    }
}

// The servers and numbers of the good shares.
fn good_pairs(alloc: Global, verdicts: &[ShareVerdict]) -> Result<Vec<(NodeId, u16)>, AllocError>
    ensures { IfOk result (λ pairs. pairs.items ≡ good_pairs verdicts.now) }
{
    let mut pairs = Vec::new(alloc);
    for found in verdicts {
        if is_good(&found.verdict) {
            pairs.push((found.server, u16::from(found.share)))?;
        }
    }
    Ok(pairs)
}

fn is_good(verdict: &Verdict) -> bool
    ensures { result ≡ is_good verdict.now }
{
    matches!(verdict, Verdict::Good)
}

// How many numbers below this one are those of a pair.
fn good_numbers(total: u16, pairs: &[(NodeId, u16)]) -> u16
    ensures { result
        ≡ count_by (is_member nat_eq (shares_of pairs.now)) (range_with_len 0 total) }
{
    let mut count: u16 = 0;
    for number in 0..total {
        if has_number(pairs, number) {
            count += 1;
        }
    }
    count
}

// Whether this is the number of a pair.
fn has_number(pairs: &[(NodeId, u16)], number: u16) -> bool
    ensures { result ≡ is_member nat_eq (shares_of pairs.now) number }
{
    pairs.iter().any(|pair| pair.1 == number)
}

// The size of a largest matching of these pairs.
fn happiness_of(alloc: Global, pairs: &[(NodeId, u16)]) -> Result<usize, AllocError>
    ensures { IfOk result (λ size. (chosen : List Pair)
        × IsLargestMatching pairs.now chosen × (size ≡ length chosen)) }
{
    let matching = happiness(alloc, pairs)?;
    Ok(matching.pairs.len())
}
