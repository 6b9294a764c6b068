//! Clients that do as they should.

use crate::guest::{Guest, House, read};
use crate::visits::{Visit, holds};
use std::test::Fail;
use wire::message::Body;

// Whether a share of 10 bytes is read.
fn gets(rt: &HostRuntime, house: &mut House, guest: &mut Guest, share: u8) -> Result<bool, Fail> {
    match house.answer(rt, guest, read(share, 0, 100)?)? {
        Body::Data(bytes) => Ok(bytes.as_slice() == [7; 10].as_slice()),
        _ => Ok(false),
    }
}

// Whether what one client puts is read by the other.
fn both_put(
    rt: &HostRuntime,
    house: &mut House,
    first: &mut Guest,
    second: &mut Guest,
) -> Result<bool, Fail> {
    let are_kept = house.keeps(rt, first, 0, 10)? && house.keeps(rt, second, 1, 10)?;
    Ok(are_kept && gets(rt, house, second, 0)? && gets(rt, house, first, 1)?)
}

// Whether they are two clients, though both have the same session.
fn are_two(
    rt: &HostRuntime,
    house: &mut House,
    first: &mut Guest,
    second: &mut Guest,
) -> Result<bool, Fail> {
    Ok(house.grants(rt, first, 2, 10)? && house.is_busy(rt, second, 2)? && house.count_gone() == 0)
}

// The two, of which one is there.
pub(crate) fn serves_two(
    rt: &HostRuntime,
    house: &mut House,
    first: &mut Guest,
) -> Result<bool, Fail> {
    let mut second = house.guest(rt)?;
    let both = both_put(rt, house, first, &mut second)?;
    Ok(both && are_two(rt, house, first, &mut second)?)
}

#[test]
fn two_clients(rt: HostRuntime) -> Result<(), Fail> {
    assert!(rt; holds(&rt, "two", Visit::Two)?);
    Ok(())
}

// Whether a share that a client was writing is written by another one once the first is gone.
pub(crate) fn takes_over(
    rt: &HostRuntime,
    house: &mut House,
    second: &mut Guest,
) -> Result<bool, Fail> {
    let mut first = house.guest(rt)?;
    let is_begun = house.grants(rt, &mut first, 0, 10)? && house.is_busy(rt, second, 0)?;
    drop(first);
    house.turns(rt, 3)?;
    Ok(is_begun && house.count_gone() == 1 && house.keeps(rt, second, 0, 10)?)
}

#[test]
fn a_client_that_goes(rt: HostRuntime) -> Result<(), Fail> {
    assert!(rt; holds(&rt, "goes", Visit::Leaving)?);
    Ok(())
}

// Asks so often for 32,768 bytes.
fn ask(guest: &mut Guest, asked: u64) -> Result<(), Fail> {
    for number in 0..asked {
        guest.queue(number, read(0, 0, 32_768)?)?;
    }
    Ok(())
}

// The number behind that of the last answer which is there, where so many were heard before.
fn hear_all(guest: &mut Guest, mut heard: u64) -> Result<u64, Fail> {
    for _ in 0..100 {
        match guest.hear()? {
            Some(answer) if answer.number == heard => heard = heard.saturating_add(1),
            Some(_) => return Err(Fail::from("another answer")),
            None => break,
        }
    }
    Ok(heard)
}

// How many answers come to requests of which each asks for 32,768 bytes, and which are all sent
// before one answer is read.
fn count_answers(rt: &HostRuntime, house: &mut House, asked: u64) -> Result<u64, Fail> {
    let mut guest = house.guest(rt)?;
    ask(&mut guest, asked)?;
    hear_answers(rt, house, &mut guest, asked)
}

// How many come.
fn hear_answers(
    rt: &HostRuntime,
    house: &mut House,
    guest: &mut Guest,
    asked: u64,
) -> Result<u64, Fail> {
    let mut heard = 0u64;
    for _ in 0..2000 {
        guest.send()?;
        house.turns(rt, 1)?;
        heard = hear_all(guest, heard)?;
        if heard == asked {
            return Ok(heard);
        }
    }
    Ok(heard)
}

// Whether as many answers come as are asked for.
pub(crate) fn all_come(
    rt: &HostRuntime,
    house: &mut House,
    first: &mut Guest,
) -> Result<bool, Fail> {
    if !house.keeps(rt, first, 0, 32_768)? {
        return Ok(false);
    }
    for asked in [1, 2, 3, 4, 5, 6, 31, 32, 33, 100, 500] {
        if count_answers(rt, house, asked)? != asked {
            return Ok(false);
        }
    }
    Ok(true)
}

#[test]
fn many_answers_wait(rt: HostRuntime) -> Result<(), Fail> {
    assert!(rt; holds(&rt, "many", Visit::ManyAnswers)?);
    Ok(())
}
