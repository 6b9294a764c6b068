// Two servers hold all four shares of a file: which share is read next, and at which of them.

use download_shares::Holdings;
use share_verify::Check;
use std::alloc::Global;
use std::test::Fail;
use wire::message::{Body, HeldList, HeldShare, Message, NodeId};

const SERVERS: [NodeId; 2] = [5, 9];

// The shares 0 to 3, as a server tells that it holds them.
fn four_shares(alloc: Global) -> Option<Body> {
    let mut list = Vec::new(alloc);
    for share in 0..4u8 {
        let digest = [0; 32];
        list.push(HeldShare { share, digest }).ok()?;
    }
    Some(Body::Have(false, HeldList::from_vec(list)?))
}

// Each server told that it holds the four shares: the holdings 0 to 3 are at the first server, and
// 4 to 7 at the second.
fn told(alloc: Global) -> Option<Holdings> {
    let mut holdings = Holdings::begin(alloc, 4, &SERVERS, 7, 0).ok()?;
    for (number, server) in [(1, 5), (2, 9)] {
        let message = Message {
            session: 7,
            number,
            body: four_shares(alloc)?,
        };
        holdings.take_answer(server, message, 0).ok()?;
    }
    Some(holdings)
}

// Reads the next share from now on, and tells its server and number.
fn read_next(holdings: &mut Holdings) -> Option<(NodeId, u8)> {
    let holding = holdings.choose()?;
    holdings.take_up(holding);
    let held = holdings.holdings().get(holding)?;
    Some((held.server, held.share))
}

// A holding is read no more, where it is there.
fn release(holdings: &mut Holdings, holding: usize) {
    if holding < holdings.holdings().len() {
        holdings.release(holding);
    }
}

// A holding failed a check, where it is there.
fn blame(holdings: &mut Holdings, holding: usize) -> Option<()> {
    if holding < holdings.holdings().len() {
        holdings.blame(holding, Check::Data).ok()?;
    }
    Some(())
}

// Are these the servers and numbers of the shares that are read next, one after another?
fn reads(holdings: &mut Holdings, expected: &[(NodeId, u8)]) -> bool {
    for one in expected {
        if read_next(holdings) != Some(*one) {
            return false;
        }
    }
    true
}

#[test]
fn shares_are_read_where_the_fewest_are_read(rt: HostRuntime) -> Result<(), Fail> {
    let Some(mut holdings) = told(rt.alloc()) else {
        panic!(rt; "the servers told nothing");
    };
    assert!(rt; reads(&mut holdings, &[(5, 0), (9, 1), (5, 2), (9, 3)]));
    assert!(rt; holdings.choose().is_none());
    Ok(())
}

#[test]
fn what_is_read_no_more_does_not_count(rt: HostRuntime) -> Result<(), Fail> {
    let Some(mut holdings) = told(rt.alloc()) else {
        panic!(rt; "the servers told nothing");
    };
    assert!(rt; reads(&mut holdings, &[(5, 0), (9, 1), (5, 2), (9, 3)]));
    // Share 1 at the second server failed: one is read there, and three at the first.
    assert!(rt; blame(&mut holdings, 5).is_some());
    assert!(rt; reads(&mut holdings, &[(5, 1)]));
    // Share 0 may be read anew: two are read at the first server, and one at the second.
    release(&mut holdings, 0);
    assert!(rt; reads(&mut holdings, &[(9, 0)]));
    // Both that are read at the second server may be read anew.
    release(&mut holdings, 4);
    release(&mut holdings, 7);
    assert!(rt; reads(&mut holdings, &[(9, 0), (9, 3)]));
    Ok(())
}
