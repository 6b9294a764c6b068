//! Which good shares of a file are read, where it is made anew.

ghost use Rattle.std.specs.Prelude.{◌≡◌, ◌==◌, ◌<◌, ◌≤◌, ℕ, All, IfOk, IsTrue, count_by, false};
ghost use Rattle.std.specs.Prelude.{map, true};
ghost use Rattle.std.specs.List.{Contains};
ghost use Rattle.placement.specs.Matching.{Pair};
ghost use Rattle.checker.specs.Report.{good_pairs, is_good};

use carried_operations::SharePlace;
use checker::status::ShareVerdict;
use share_reading::Verdict;
use std::alloc::{AllocError, Global};

/// How many shares of one number may be read.
const MOST_OF_A_NUMBER: usize = 2;

/// Where the good shares stand that may be read, by what a check found: of each number that has
/// one, the first two that were found at most.
pub(crate) fn candidate_places(
    alloc: Global,
    verdicts: &[ShareVerdict],
) -> Result<Vec<SharePlace>, AllocError>
    ensures good { IfOk result (λ places.
        All (λ p. Contains (good_pairs verdicts.now) (p.server, p.share)) places.items) }
    ensures all { IfOk result (λ places. (pair : Pair) → Contains (good_pairs verdicts.now) pair
        → Contains (map (λ p. p.share) places.items) pair.1) }
    ensures few { IfOk result (λ places.
        (number : ℕ) → count_by (λ p. p.share == number) places.items ≤ 2) }
{
    let mut places = Vec::new(alloc);
    'verdicts: for found in verdicts {
        if is_wanted(&places, found) {
            places.push(SharePlace {
                server: found.server,
                share: found.share,
            })?;
        }
    }
    Ok(places)
}

// Whether a share may be read beside these: it is good, and not too many have its number.
fn is_wanted(places: &[SharePlace], found: &ShareVerdict) -> bool
    ensures yes { IsTrue result → (is_good found.now.verdict ≡ true)
        × (count_by (λ p. p.share == found.now.share) places.now < 2) }
    ensures no { result ≡ false → is_good found.now.verdict ≡ true
        → 2 ≤ count_by (λ p. p.share == found.now.share) places.now }
{
    is_good(&found.verdict) && count_of(places, found.share) < MOST_OF_A_NUMBER
}

// Whether this is the verdict on a good share.
fn is_good(verdict: &Verdict) -> bool
    ensures { result ≡ is_good verdict.now }
{
    matches!(verdict, Verdict::Good)
}

// How many of these shares have this number.
fn count_of(places: &[SharePlace], number: u8) -> usize
    ensures { result ≡ count_by (λ p. p.share == number) places.now }
{
    places.iter().filter(|place| place.share == number).count()
}
