// Orders that Python's hashlib computed, worked placements, and all graphs of four servers and four
// shares against a search that tries each matching.

ghost use Rattle.std.specs.Prelude.{◌≤◌};

use placement::{Matching, Plan, ServerId, check, happiness, order, place};
use std::alloc::{AllocError, Global};
use std::process::Abort;
use std::test::Fail;

const SERVER_IDS: [ServerId; 7] = [
    ServerId([7; 20]),
    ServerId([1; 20]),
    ServerId([2; 20]),
    ServerId([7; 20]),
    ServerId([0; 20]),
    ServerId([255; 20]),
    ServerId([1; 20]),
];

#[test]
fn orders_by_hash_then_id_then_position(rt: HostRuntime) -> Result<(), Fail> {
    let rows = [
        (
            [0, 1, 2, 3, 4, 5, 6, 7, 8, 9, 10, 11, 12, 13, 14, 15],
            [0, 3, 1, 6, 4, 5, 2],
        ),
        ([0; 16], [2, 0, 3, 1, 6, 4, 5]),
    ];
    for (storage_index, positions) in rows {
        let found = order(rt.alloc(), &storage_index, &SERVER_IDS)?;
        assert!(rt; found.as_slice() == positions.as_slice());
    }
    Ok(())
}

#[test]
fn happiness_of_worked_graphs(rt: HostRuntime) -> Result<(), Fail> {
    let two = happiness(rt.alloc(), &[(0, 0), (0, 1), (1, 0)])?;
    assert!(rt; two.pairs.len() == 2);
    let none = happiness(rt.alloc(), &[])?;
    assert!(rt; none.pairs.len() == 0);
    assert!(rt; none.blocking.len() == 0);
    let mut one = happiness(rt.alloc(), &[(0, 0), (1, 0), (2, 0)])?;
    assert!(rt; one.pairs.len() == 1);
    one.blocking.sort_unstable();
    assert!(rt; one.blocking.as_slice() == [0, 1, 2].as_slice());
    Ok(())
}

#[test]
fn check_of_worked_matchings(rt: HostRuntime) -> Result<(), Fail> {
    let pairs = [(0, 0), (1, 0), (2, 0)];
    let one = [(0, 0)];
    let rows = [
        (one.as_slice(), [0, 1, 2].as_slice(), true),
        // too few servers in the blocking set
        (one.as_slice(), [0].as_slice(), false),
        // a share twice
        (pairs.as_slice(), [].as_slice(), false),
        // a pair that is not given
        ([(0, 1)].as_slice(), [0, 1, 2].as_slice(), false),
        // too few pairs
        ([].as_slice(), [0, 1, 2].as_slice(), false),
    ];
    for (chosen, set, answer) in rows {
        let matching = Matching {
            pairs: chosen.to_vec(rt.alloc())?,
            blocking: set.to_vec(rt.alloc())?,
        };
        assert!(rt; check(&matching, &pairs) == answer);
    }
    Ok(())
}

/// Compares the five lists of a plan.
fn expect_plan(
    rt: &impl Abort,
    plan: &Plan,
    matchings: [&[(u16, u16)]; 3],
    leftovers: &[(u16, u16)],
    unplaced: &[u16],
) {
    let [m1, m2, m3] = matchings;
    assert!(rt; plan.m1.as_slice() == m1);
    assert!(rt; plan.m2.as_slice() == m2);
    assert!(rt; plan.m3.as_slice() == m3);
    assert!(rt; plan.leftovers.as_slice() == leftovers);
    assert!(rt; plan.unplaced.as_slice() == unplaced);
}

#[test]
fn plans_where_nothing_is_held(rt: HostRuntime) -> Result<(), Fail> {
    let plan = place(rt.alloc(), &[], &[0, 1, 2], &[], 5)?;
    let matchings: [&[(u16, u16)]; 3] = [&[], &[], &[(0, 0), (1, 1), (2, 2)]];
    expect_plan(&rt, &plan, matchings, &[(0, 3), (1, 4)], &[]);
    // servers go by their position in the list, not by their number
    let plan = place(rt.alloc(), &[], &[4, 2, 3], &[], 5)?;
    let matchings: [&[(u16, u16)]; 3] = [&[], &[], &[(4, 0), (2, 1), (3, 2)]];
    expect_plan(&rt, &plan, matchings, &[(4, 3), (2, 4)], &[]);
    Ok(())
}

// Whether seven servers are ordered, and three pairs matched, each right where memory is not
// refused.
fn places_or_is_refused(alloc: Global) -> bool {
    let is_ordered = match order(alloc, &[0; 16], &SERVER_IDS) {
        Ok(positions) => positions.as_slice() == [2, 0, 3, 1, 6, 4, 5].as_slice(),
        Err(_) => true,
    };
    let is_matched = match happiness(alloc, &[(0, 0), (0, 1), (1, 0)]) {
        Ok(matching) => matching.pairs.len() == 2,
        Err(_) => true,
    };
    is_ordered && is_matched
}

#[test]
fn refused_memory_in_placing(rt: HostRuntime) {
    assert!(rt; places_or_is_refused(rt.alloc()));
}

#[test]
fn refused_memory_in_a_plan(rt: HostRuntime) {
    let is_right = match place(rt.alloc(), &[9], &[0, 1], &[(9, 0), (0, 0), (0, 1)], 4) {
        Ok(plan) => plan.m3.as_slice() == [(1, 2)].as_slice() && plan.leftovers.len() == 1,
        Err(_) => true,
    };
    assert!(rt; is_right);
}

#[test]
fn plans_where_some_is_held(rt: HostRuntime) -> Result<(), Fail> {
    let plan = place(rt.alloc(), &[9], &[0, 1], &[(9, 0), (0, 0), (0, 1)], 4)?;
    let matchings: [&[(u16, u16)]; 3] = [&[(9, 0)], &[(0, 1)], &[(1, 2)]];
    expect_plan(&rt, &plan, matchings, &[(0, 3)], &[]);
    // a share that a server holds is no leftover
    let plan = place(rt.alloc(), &[9], &[0], &[(9, 0), (9, 1), (9, 2)], 3)?;
    assert!(rt; plan.m1.len() == 1);
    assert!(rt; plan.m3.len() == 1);
    assert!(rt; plan.leftovers.len() == 0);
    assert!(rt; plan.unplaced.len() == 0);
    Ok(())
}

#[test]
fn plans_without_writable_servers(rt: HostRuntime) -> Result<(), Fail> {
    let plan = place(rt.alloc(), &[9], &[], &[(9, 0)], 2)?;
    expect_plan(&rt, &plan, [&[(9, 0)], &[], &[]], &[], &[1]);
    let plan = place(rt.alloc(), &[9], &[], &[(9, 0), (9, 1)], 2)?;
    assert!(rt; plan.m1.len() == 1);
    assert!(rt; plan.unplaced.len() == 0);
    Ok(())
}

// A graph is a number: its bit 4 s + h says that server s holds share h. These are the pairs of
// each server, and of each share.
const SERVERS: [u16; 4] = [0x000f, 0x00f0, 0x0f00, 0xf000];

const SHARES: [u16; 4] = [0x1111, 0x2222, 0x4444, 0x8888];

/// The pairs of a graph.
fn pairs_of(alloc: Global, graph: u16) -> Result<Vec<(u16, u16)>, AllocError> {
    let mut pairs = Vec::new(alloc);
    for server in 0..4u16 {
        for share in 0..4u16 {
            if graph & SERVERS[usize::from(server)] & SHARES[usize::from(share)] != 0 {
                pairs.push((server, share))?;
            }
        }
    }
    Ok(pairs)
}

/// How many of the servers, or of the shares, have a pair in the graph.
fn count_of(groups: &[u16; 4], graph: u16) -> usize
    ensures { result ≤ 4 }
{
    groups.iter().filter(|group| graph & **group != 0).count()
}

/// Whether no server and no share of the graph has two pairs.
fn is_one_to_one(graph: u16) -> bool {
    SERVERS
        .iter()
        .chain(SHARES.iter())
        .all(|group| (graph & *group).count_ones() <= 1)
}

/// The length of the longest of the matchings that are inside the graph.
fn longest(matchings: &[u16], graph: u16) -> u32 {
    let mut longest = 0;
    for matching in matchings {
        if matching & graph == *matching && longest < matching.count_ones() {
            longest = matching.count_ones();
        }
    }
    longest
}

#[test]
fn all_small_graphs(rt: HostRuntime) -> Result<(), Fail> {
    let alloc = rt.alloc();
    let mut matchings = Vec::new(alloc);
    for graph in 0..=u16::MAX {
        if is_one_to_one(graph) {
            matchings.push(graph)?;
        }
    }
    // 1 + 4 * 4 + 6 * 6 * 2 + 4 * 4 * 6 + 24
    assert!(rt; matchings.len() == 209);
    for graph in 0..=u16::MAX {
        let pairs = pairs_of(alloc, graph)?;
        let mut found = happiness(alloc, &pairs)?;
        let length = longest(&matchings, graph) as usize;
        assert!(rt; found.pairs.len() == length, "graph {graph:04x}");
        assert!(rt; check(&found, &pairs), "graph {graph:04x}");
        if let Some(last) = found.pairs.pop() {
            assert!(rt; !check(&found, &pairs), "graph {graph:04x}");
            found.pairs.push(last)?;
        }
        check_all_sets(&rt, &mut found, graph, &pairs)?;
    }
    Ok(())
}

/// Compares `check` with the equation at each set of servers.
fn check_all_sets(
    rt: &impl Abort,
    found: &mut Matching,
    graph: u16,
    pairs: &[(u16, u16)],
) -> Result<(), Fail> {
    for set in 0..16u16 {
        found.blocking.clear();
        let mut held = 0;
        for server in 0..4u16 {
            if set >> server & 1 == 1 {
                found.blocking.push(server)?;
                held |= graph & SERVERS[usize::from(server)];
            }
        }
        let blocked = count_of(&SERVERS, graph & !held) + count_of(&SHARES, held);
        assert!(rt;
            check(found, pairs) == (found.pairs.len() == blocked),
            "graph {graph:04x}, set {set}"
        );
    }
    Ok(())
}
