//! The loop over servers of the tests' own, some of which go wrong, and a clock of their own.

use crate::asking::Asking;
use crate::fake::{FakeNetwork, FakeWire, Kind};
use crate::grids::{Grid, fake_grid};
use crate::server::LONG;
use local_grid::error::LoopError;
use local_grid::{Outside, carry_on};
use std::alloc::{AllocError, Global};
use std::test::Fail;
use wire::message::{Body, Message, NodeId, WriteData};

const TEN: [NodeId; 10] = [0, 1, 2, 3, 4, 5, 6, 7, 8, 9];

// Asks each of ten servers once, up to a second.
fn ask_ten(
    alloc: Global,
    grid: &mut Grid<FakeWire, FakeNetwork>,
    until: u64,
) -> Result<Asking, Fail> {
    let mut asks = Vec::new(alloc);
    for number in TEN {
        asks.push((number, 100 + u32::from(number)))?;
    }
    let mut asking = Asking::new(alloc, asks.as_slice(), until)?;
    match carry_on(alloc, grid, &mut asking, 10_000) {
        Ok(()) => Ok(asking),
        Err(_) => Err(Fail::from("a fault of the loop")),
    }
}

#[test]
fn all_answer_at_once(rt: HostRuntime) -> Result<(), Fail> {
    let alloc = rt.alloc();
    for step in [1, 2, 63, 64, 65, 1000] {
        let mut grid = fake_grid(alloc, &[Kind::Honest; 10], step)?;
        let asking = ask_ten(alloc, &mut grid, 100)?;
        assert!(rt; asking.is_answered(0, 0), "{step} at a time");
        assert!(rt; asking.ticks.is_empty() && grid.network().rests == 0);
    }
    Ok(())
}

// Whether a server is asked in vain.
fn is_silent(grid: &Grid<FakeWire, FakeNetwork>, number: usize) -> bool {
    match grid.remotes().get(number) {
        Some(remote) => remote.as_ref().is_some_and(|server| server.is_silent()),
        None => false,
    }
}

// How many bytes wait for a server, where it is elsewhere.
fn waiting(grid: &Grid<FakeWire, FakeNetwork>, number: usize) -> Option<usize> {
    match grid.remotes().get(number) {
        Some(remote) => remote.as_ref().map(|server| server.waiting()),
        None => None,
    }
}

// The seconds at which the loop ticks, where it waits for so many, and then skips to the next that
// counts, up to 60.
fn ticks_after(alloc: Global, waits: u64) -> Result<Vec<u64>, AllocError> {
    let mut ticks = Vec::new(alloc);
    for second in 1..=waits {
        ticks.push(second)?;
    }
    for skipped in 1..=60u64.saturating_sub(waits) / 5 {
        ticks.push(skipped.saturating_mul(5).saturating_add(waits))?;
    }
    Ok(ticks)
}

// Whether all but the fifth of ten servers answer at once, and that one is waited for so long.
fn waits_for_one(
    alloc: Global,
    grid: &mut Grid<FakeWire, FakeNetwork>,
    waits: u64,
) -> Result<bool, Fail> {
    let asking = ask_ten(alloc, grid, 60)?;
    let heard = asking.heard.as_slice();
    let others = heard.len() == 9 && heard.iter().all(|heard| heard.0 != 4 && heard.3 == 0);
    let has_waited = grid.network().rests == waits && grid.clock() == 60;
    let right = ticks_after(alloc, waits)?;
    Ok(others && has_waited && asking.ticks.as_slice() == right.as_slice())
}

// Whether it is asked in vain from then on, and waited for no more.
fn waits_no_more(
    alloc: Global,
    grid: &mut Grid<FakeWire, FakeNetwork>,
    waits: u64,
) -> Result<bool, Fail> {
    let is_silent = is_silent(grid, 4);
    let again = ask_ten(alloc, grid, 100)?;
    let is_left = again.heard.len() == 9 && grid.network().tries(4) == 1;
    Ok(is_silent && is_left && grid.network().rests == waits)
}

// Whether a server of this kind, the fifth of ten, holds nobody.
fn holds_nobody(alloc: Global, kind: Kind, waits: u64) -> Result<bool, Fail> {
    let mut kinds = [Kind::Honest; 10];
    kinds[4] = kind;
    let mut grid = fake_grid(alloc, &kinds, 1000)?;
    Ok(waits_for_one(alloc, &mut grid, waits)? && waits_no_more(alloc, &mut grid, waits)?)
}

#[test]
fn one_that_does_not_answer_holds_nobody(rt: HostRuntime) -> Result<(), Fail> {
    assert!(rt; holds_nobody(rt.alloc(), Kind::Silent, 20)?);
    assert!(rt; holds_nobody(rt.alloc(), Kind::Mute, 10)?);
    Ok(())
}

// Whether a server of this kind, the last of ten, costs nothing.
fn costs_nothing(alloc: Global, kind: Kind, step: usize) -> Result<bool, Fail> {
    let mut kinds = [Kind::Honest; 10];
    kinds[9] = kind;
    let mut grid = fake_grid(alloc, &kinds, step)?;
    let asking = ask_ten(alloc, &mut grid, 20)?;
    let others = asking.heard.len() == 9 && grid.network().rests == 0;
    Ok(others && asking.ticks.as_slice() == [5, 10, 15, 20].as_slice())
}

#[test]
fn those_that_end_cost_nothing(rt: HostRuntime) -> Result<(), Fail> {
    for kind in [Kind::Refuses, Kind::Other, Kind::Garbage, Kind::EndsInFrame] {
        for step in [1, 1000] {
            assert!(rt; costs_nothing(rt.alloc(), kind, step)?);
        }
    }
    Ok(())
}

// How often connections are made to a server of a kind that is asked five times.
fn tries_of(alloc: Global, kind: Kind) -> Result<(usize, usize), Fail> {
    let mut grid = fake_grid(alloc, &[kind], 1000)?;
    let mut heard = 0usize;
    for until in 1..=5 {
        let mut asking = Asking::new(alloc, &[(0, 10)], 5 * until)?;
        if carry_on(alloc, &mut grid, &mut asking, 1000).is_err() {
            return Err(Fail::from("a fault of the loop"));
        }
        heard = heard.saturating_add(asking.heard.len());
    }
    Ok((grid.network().tries(0), heard))
}

#[test]
fn connections_are_made_anew(rt: HostRuntime) -> Result<(), Fail> {
    let alloc = rt.alloc();
    assert!(rt; tries_of(alloc, Kind::Honest)? == (1, 5));
    assert!(rt; tries_of(alloc, Kind::EndsOnce)? == (2, 4));
    assert!(rt; tries_of(alloc, Kind::EndsInFrame)? == (3, 0));
    assert!(rt; tries_of(alloc, Kind::Refuses)? == (3, 0));
    assert!(rt; tries_of(alloc, Kind::Other)? == (1, 0));
    assert!(rt; tries_of(alloc, Kind::Garbage)? == (1, 0));
    Ok(())
}

#[test]
fn servers_of_both_kinds(rt: HostRuntime) -> Result<(), Fail> {
    let alloc = rt.alloc();
    let mut grid = fake_grid(alloc, &[Kind::Honest; 2], 1000)?;
    // the third is in this process; there is no fourth
    let mut asking = Asking::new(alloc, &[(2, 9), (0, 10), (3, 9), (1, 11)], 5)?;
    assert!(rt; carry_on(alloc, &mut grid, &mut asking, 1000).is_ok());
    let right = [(2, 1, 9, 0), (0, 2, 10, 0), (1, 4, 11, 0)];
    assert!(rt; asking.heard.as_slice() == right.as_slice());
    assert!(rt; grid.here().nodes().len() == 3 && grid.clock() == 5);
    Ok(())
}

#[test]
fn turns_are_limited(rt: HostRuntime) -> Result<(), Fail> {
    let alloc = rt.alloc();
    // two turns to ask and two to hear
    for (limit, right) in [(3, Err(LoopError::TurnLimit)), (4, Ok(()))] {
        let mut grid = fake_grid(alloc, &[Kind::Honest], 1000)?;
        let mut asking = Asking::new(alloc, &[(0, 10), (0, 20)], 100)?;
        assert!(rt; carry_on(alloc, &mut grid, &mut asking, limit) == right);
    }
    Ok(())
}

// A request to write 32,768 bytes.
fn long_request(alloc: Global) -> Result<Message, Fail> {
    let Some(bytes) = WriteData::from_vec(Vec::from_elem(alloc, 7, 32_768)?) else {
        return Err(Fail::from("too long"));
    };
    Ok(Message {
        session: 1,
        number: 1,
        body: Body::Write(LONG, 0, bytes),
    })
}

// Whether as many bytes wait for the server as are to, each time that it is told this.
fn is_bounded(
    grid: &mut Grid<FakeWire, FakeNetwork>,
    message: &Message,
) -> Result<bool, AllocError> {
    for count in 1..=600usize {
        let is_silent = grid.hand(0, message)?.is_none();
        // the greeting, and frames of 32,815 bytes up to the first above 16 MiB
        let right = count.min(512).saturating_mul(32_815).saturating_add(64);
        if !is_silent || waiting(grid, 0) != Some(right) {
            return Ok(false);
        }
    }
    Ok(true)
}

#[test]
fn what_a_server_is_told_is_bounded(rt: HostRuntime) -> Result<(), Fail> {
    let message = long_request(rt.alloc())?;
    let mut grid = fake_grid(rt.alloc(), &[Kind::Silent], 1000)?;
    assert!(rt; is_bounded(&mut grid, &message)?);
    Ok(())
}
