//! Many clients, one after the other.

use crate::guest::{Guest, House};
use crate::visits::{Visit, holds};
use std::fs;
use std::io::Write;
use std::test::Fail;

// Connects, and goes. Every third greets first, and every third sends what is none.
fn come_once(rt: &HostRuntime, house: &House, number: u64) -> Result<(), Fail> {
    let mut socket = house.socket(rt)?;
    match number % 3 {
        0 => {}
        1 => socket.write_all(&house.own)?,
        _ => socket.write_all(b"garbage")?,
    }
    Ok(())
}

// So many of them. How many are gone.
fn come_and_go(rt: &HostRuntime, house: &mut House, count: u64) -> Result<u64, Fail> {
    let mut gone = 0u64;
    for number in 0..count {
        come_once(rt, house, number)?;
        house.turns(rt, 1)?;
        gone = gone.saturating_add(house.count_gone() as u64);
    }
    Ok(gone)
}

// How many files this process has open.
fn open_files(rt: &HostRuntime) -> Result<usize, Fail> {
    let mut open = 0usize;
    for _ in fs::read_dir(rt, "/proc/self/fd")? {
        open = open.saturating_add(1);
    }
    Ok(open)
}

// How many pages of memory it holds.
fn pages(rt: &HostRuntime) -> Result<u64, Fail> {
    let text = fs::read_to_string(rt, "/proc/self/statm")?;
    match text.as_str().split(' ').nth(1) {
        Some(pages) => Ok(pages.parse::<u64>()?),
        None => Err(Fail::from("no pages")),
    }
}

// Whether all went and left nothing behind: 256 pages are 1 MiB, and some hundred bytes for each of
// them would be more.
fn leave_nothing(rt: &HostRuntime, house: &mut House, count: u64) -> Result<bool, Fail> {
    let (open, held) = (open_files(rt)?, pages(rt)?);
    let gone = come_and_go(rt, house, count)?;
    let more = pages(rt)?.saturating_sub(held);
    Ok(gone == count && more <= 256 && open_files(rt)? == open)
}

// Whether what the process holds does not grow with those who came, and who stays is served.
pub(crate) fn stands_many(
    rt: &HostRuntime,
    house: &mut House,
    guest: &mut Guest,
) -> Result<bool, Fail> {
    come_and_go(rt, house, 1000)?;
    Ok(leave_nothing(rt, house, 9000)? && house.serves(rt, guest)?)
}

#[test]
fn ten_thousand(rt: HostRuntime) -> Result<(), Fail> {
    assert!(rt; holds(&rt, "crowd", Visit::Many)?);
    Ok(())
}
