//! The plan of an upload: which share goes to which server.

ghost use Rattle.std.specs.Prelude.{◌≡◌, ◌≢◌, ℕ, ◌<◌, ◌≤◌, [], ◌++◌, length, map, nat_eq};
ghost use Rattle.std.specs.Prelude.{slice_index, All, Contains, IfOk};
ghost use Rattle.std.specs.List.{IsDistinct, zip};
ghost use Rattle.placement.specs.Matching.{IsLargestMatching};
ghost use Rattle.placement.specs.Plan.{IsSpread, Spreads, held_by, load_of, placeable};
ghost use Rattle.placement.specs.Plan.{remaining, shares_below, spare, untaken, unused};
ghost use Rattle.placement.specs.Plan.{without_shares};

use crate::matching::happiness;
use crate::pairs::{has_number, has_server, has_share};
use std::alloc::{AllocError, Global};

/// Where the shares of a file go. All lists are of (server, share) pairs, but the last.
#[derive(Debug, Drop)]
pub struct Plan {
    /// A largest matching of the read-only servers with the shares that they hold.
    pub m1: Vec<(u16, u16)>,
    /// A largest matching of the writable servers with the shares that they hold, shares of `m1`
    /// left out.
    pub m2: Vec<(u16, u16)>,
    /// The remaining shares, lowest first, with the writable servers that `m2` does not use, in
    /// their order.
    pub m3: Vec<(u16, u16)>,
    /// The shares that no matching took and no server holds, lowest first, each with the writable
    /// server to which the fewest shares of `m2`, `m3` and the leftovers before it go, the first of
    /// several.
    pub leftovers: Vec<(u16, u16)>,
    /// Those shares, where there is no writable server.
    pub unplaced: Vec<u16>,
}

/// The plan for the shares 0 to `n - 1`, from the servers that can only be read, those that can be
/// written, in their order, and the pairs held. As in `servers-of-happiness`, shares stay where
/// they are as far as they make servers happy, then each free server gets one, and what is left is
/// spread evenly.
pub fn place(
    alloc: Global,
    readonly: &[u16],
    writable: &[u16],
    held: &[(u16, u16)],
    n: u16,
) -> Result<Plan, AllocError>
    // No server is given twice, and the pairs held are of these servers and shares.
    requires distinct { IsDistinct nat_eq (readonly.now ++ writable.now) }
    requires known { All (λ p. Contains (readonly.now ++ writable.now) p.0 × (p.1 < n)) held.now }

    ensures m1 { IfOk result
        (λ plan. IsLargestMatching (held_by readonly.now held.now) plan.m1.items) }
    ensures m2 { IfOk result
        (λ plan. IsLargestMatching
        (without_shares plan.m1.items (held_by writable.now held.now)) plan.m2.items) }
    ensures m3 { IfOk result
        (λ plan. plan.m3.items
        ≡ zip (unused plan.m2.items writable.now) (remaining plan.m1.items plan.m2.items n)) }
    ensures leftovers { IfOk result
        (λ plan. Spreads writable.now (plan.m2.items ++ plan.m3.items)
        (spare plan.m1.items plan.m2.items plan.m3.items held.now n) plan.leftovers.items
        plan.unplaced.items) }

    // No matching of all pairs that may be placed has more pairs than the three have together.
    ensures best { IfOk result
        (λ plan. IsLargestMatching (placeable held.now writable.now n)
        (plan.m1.items ++ plan.m2.items ++ plan.m3.items)) }
{
    let m1 = kept_pairs(alloc, readonly, held)?;
    let m2 = open_pairs(alloc, writable, held, &m1)?;
    let shares = remaining_shares(alloc, &m1, &m2, n)?;
    let m3 = new_pairs(alloc, writable, &m2, &shares)?;
    let spare = spare_shares(alloc, held, &m3, &shares)?;
    let (leftovers, unplaced) = spread_or_leave(alloc, writable, &m2, &m3, spare)?;
    Ok(Plan {
        m1,
        m2,
        m3,
        leftovers,
        unplaced,
    })
}

/// A largest matching of the read-only servers with the shares that they hold.
fn kept_pairs(
    alloc: Global,
    readonly: &[u16],
    held: &[(u16, u16)],
) -> Result<Vec<(u16, u16)>, AllocError>
    ensures { IfOk result (λ m1. IsLargestMatching (held_by readonly.now held.now) m1.items) }
{
    let pairs = pairs_of(alloc, held, readonly)?;
    largest_pairs(alloc, &pairs)
}

/// A largest matching of the writable servers with the shares that they hold and that `m1` did not
/// take.
fn open_pairs(
    alloc: Global,
    writable: &[u16],
    held: &[(u16, u16)],
    m1: &[(u16, u16)],
) -> Result<Vec<(u16, u16)>, AllocError>
    ensures { IfOk result
        (λ m2. IsLargestMatching (without_shares m1.now (held_by writable.now held.now)) m2.items) }
{
    let pairs = pairs_of(alloc, held, writable)?;
    let pairs = pairs_without(alloc, &pairs, m1)?;
    largest_pairs(alloc, &pairs)
}

/// A largest matching of the pairs.
fn largest_pairs(alloc: Global, pairs: &[(u16, u16)]) -> Result<Vec<(u16, u16)>, AllocError>
    ensures { IfOk result (λ chosen. IsLargestMatching pairs.now chosen.items) }
{
    let matching = happiness(alloc, pairs)?;
    Ok(matching.pairs)
}

/// The shares that neither matching took, lowest first.
fn remaining_shares(
    alloc: Global,
    m1: &[(u16, u16)],
    m2: &[(u16, u16)],
    n: u16,
) -> Result<Vec<u16>, AllocError>
    ensures { IfOk result (λ shares. shares.items ≡ remaining m1.now m2.now n) }
{
    let shares = all_shares(alloc, n)?;
    let shares = shares_without(alloc, &shares, m1)?;
    shares_without(alloc, &shares, m2)
}

/// The writable servers that `m2` does not use, each with a share, until one side ends.
fn new_pairs(
    alloc: Global,
    writable: &[u16],
    m2: &[(u16, u16)],
    shares: &[u16],
) -> Result<Vec<(u16, u16)>, AllocError>
    ensures { IfOk result (λ m3. m3.items ≡ zip (unused m2.now writable.now) shares.now) }
{
    let servers = servers_without(alloc, writable, m2)?;
    pair_up(alloc, &servers, shares)
}

/// The shares that `m3` did not take and that no server holds.
fn spare_shares(
    alloc: Global,
    held: &[(u16, u16)],
    m3: &[(u16, u16)],
    shares: &[u16],
) -> Result<Vec<u16>, AllocError>
    ensures { IfOk result (λ rest. rest.items ≡ untaken held.now (untaken m3.now shares.now)) }
{
    let shares = shares_without(alloc, shares, m3)?;
    shares_without(alloc, &shares, held)
}

/// The spare shares with their servers, or unplaced where there is no server.
fn spread_or_leave(
    alloc: Global,
    servers: &[u16],
    m2: &[(u16, u16)],
    m3: &[(u16, u16)],
    spare: Vec<u16>,
) -> Result<(Vec<(u16, u16)>, Vec<u16>), AllocError>
    requires { IsDistinct nat_eq servers.now }
    ensures { IfOk result
        (λ lists. Spreads servers.now (m2.now ++ m3.now) spare.items lists.0.items lists.1.items) }
{
    if servers.is_empty() {
        return Ok((Vec::new(alloc), spare));
    }
    let leftovers = spread(alloc, servers, m2, m3, &spare)?;
    Ok((leftovers, Vec::new(alloc)))
}

/// The pairs of these servers.
fn pairs_of(
    alloc: Global,
    held: &[(u16, u16)],
    servers: &[u16],
) -> Result<Vec<(u16, u16)>, AllocError>
    ensures { IfOk result (λ pairs. pairs.items ≡ held_by servers.now held.now) }
{
    held.iter()
        .copied()
        .filter(|pair| has_number(servers, pair.0))
        .collect(alloc)
}

/// The pairs whose share was not taken.
fn pairs_without(
    alloc: Global,
    pairs: &[(u16, u16)],
    taken: &[(u16, u16)],
) -> Result<Vec<(u16, u16)>, AllocError>
    ensures { IfOk result (λ rest. rest.items ≡ without_shares taken.now pairs.now) }
{
    pairs
        .iter()
        .copied()
        .filter(|pair| !has_share(taken, pair.1))
        .collect(alloc)
}

/// The shares that were not taken.
fn shares_without(
    alloc: Global,
    shares: &[u16],
    taken: &[(u16, u16)],
) -> Result<Vec<u16>, AllocError>
    ensures { IfOk result (λ rest. rest.items ≡ untaken taken.now shares.now) }
{
    shares
        .iter()
        .copied()
        .filter(|share| !has_share(taken, *share))
        .collect(alloc)
}

/// The servers that the matching does not use.
fn servers_without(
    alloc: Global,
    servers: &[u16],
    chosen: &[(u16, u16)],
) -> Result<Vec<u16>, AllocError>
    ensures { IfOk result (λ rest. rest.items ≡ unused chosen.now servers.now) }
{
    servers
        .iter()
        .copied()
        .filter(|server| !has_server(chosen, *server))
        .collect(alloc)
}

/// The shares 0 to `n - 1`.
fn all_shares(alloc: Global, n: u16) -> Result<Vec<u16>, AllocError>
    ensures { IfOk result (λ shares. shares.items ≡ shares_below n) }
{
    (0..n).collect(alloc)
}

/// Each server with the share at its position, until one side ends.
fn pair_up(alloc: Global, servers: &[u16], shares: &[u16]) -> Result<Vec<(u16, u16)>, AllocError>
    ensures { IfOk result (λ pairs. pairs.items ≡ zip servers.now shares.now) }
{
    servers
        .iter()
        .copied()
        .zip(shares.iter().copied())
        .collect(alloc)
}

/// Gives each spare share to the server with the fewest shares of `m2`, `m3` and the spare shares
/// before it, the first of several.
fn spread(
    alloc: Global,
    servers: &[u16],
    m2: &[(u16, u16)],
    m3: &[(u16, u16)],
    spare: &[u16],
) -> Result<Vec<(u16, u16)>, AllocError>
    requires some { 0 < length servers.now }
    requires distinct { IsDistinct nat_eq servers.now }
    ensures { IfOk result
        (λ leftovers. IsSpread servers.now (m2.now ++ m3.now) spare.now leftovers.items) }
{
    let mut assigned = Vec::from_slice(alloc, m2)?;
    assigned.extend_from_slice(m3)?;
    let mut loads = loads_of(alloc, servers, &assigned)?;
    let mut leftovers = Vec::new(alloc);
    for share in spare {
        let position = least_position(&loads);
        leftovers.push((servers[position], *share))?;
        loads[position] += 1;
    }
    Ok(leftovers)
}

/// How many shares are assigned to each server.
fn loads_of(
    alloc: Global,
    servers: &[u16],
    assigned: &[(u16, u16)],
) -> Result<Vec<usize>, AllocError>
    ensures { IfOk result (λ loads. loads.items ≡ map (load_of assigned.now) servers.now) }
{
    servers
        .iter()
        .map(|server| load_of(assigned, *server))
        .collect(alloc)
}

/// How many shares are assigned to the server.
fn load_of(assigned: &[(u16, u16)], server: u16) -> usize
    ensures { result ≡ load_of assigned.now server }
{
    assigned.iter().filter(|pair| pair.0 == server).count()
}

/// The position of the least load, the first of several.
fn least_position(loads: &[usize]) -> usize
    requires { 0 < length loads.now }
    ensures within { result < length loads.now }
    ensures least { All (λ load. slice_index loads.now result ≤ load) loads.now }
    ensures first { (i : ℕ) → i < result → slice_index loads.now result < slice_index loads.now i }
{
    let mut least = 0;
    for (position, load) in loads.iter().enumerate() {
        if *load < loads[least] {
            least = position;
        }
    }
    least
}
