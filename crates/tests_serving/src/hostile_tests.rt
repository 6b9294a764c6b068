//! Clients that do what they should not, beside one that does as it should.

use crate::guest::{Guest, House, allocate, id, read};
use crate::visits::{Visit, holds};
use connections::Socket;
use std::alloc::Global;
use std::io::Write;
use std::test::Fail;
use wire::message::{Body, Message};

// Bytes behind a greeting.
fn behind(alloc: Global, house: &House, bytes: &[u8]) -> Result<Vec<u8>, Fail> {
    let mut all = Vec::from_slice(alloc, &house.own)?;
    all.extend_from_slice(bytes)?;
    Ok(all)
}

// Whether a client that sends these bytes is gone, and no other one.
fn ends(rt: &HostRuntime, house: &mut House, bytes: &[u8]) -> Result<bool, Fail> {
    let _stranger = house.stranger(rt, bytes)?;
    Ok(house.count_gone() == 1)
}

// The same of bytes that come behind a greeting.
fn ends_later(rt: &HostRuntime, house: &mut House, bytes: &[u8]) -> Result<bool, Fail> {
    let greeted = behind(rt.alloc(), house, bytes)?;
    ends(rt, house, greeted.as_slice())
}

// Whether clients that send garbage end, and a client is served beside them.
pub(crate) fn stands_garbage(
    rt: &HostRuntime,
    house: &mut House,
    guest: &mut Guest,
) -> Result<bool, Fail> {
    for byte in [0, 1, b'g', 255] {
        let is_ended = ends(rt, house, &[byte; 100])? && ends_later(rt, house, &[255; 100])?;
        if !(is_ended && house.serves(rt, guest)?) {
            return Ok(false);
        }
    }
    Ok(true)
}

#[test]
fn garbage(rt: HostRuntime) -> Result<(), Fail> {
    assert!(rt; holds(&rt, "garbage", Visit::Garbage)?);
    Ok(())
}

// Whether a client whose request comes in two halves is answered, and another one between them.
fn joins(
    rt: &HostRuntime,
    house: &mut House,
    guest: &mut Guest,
    front: &[u8],
    rest: &[u8],
) -> Result<bool, Fail> {
    let half = behind(rt.alloc(), house, front)?;
    let mut stranger = house.stranger(rt, half.as_slice())?;
    let is_free = begins(rt, house, guest)?;
    let sent = stranger.write(rest)?;
    house.turns(rt, 2)?;
    Ok(is_free && sent == rest.len() && house.is_busy(rt, guest, 0)?)
}

// Whether a client may write a share, which it gives up then.
fn begins(rt: &HostRuntime, house: &mut House, guest: &mut Guest) -> Result<bool, Fail> {
    let is_granted = house.grants(rt, guest, 0, 10)?;
    let aborted = house.answer(rt, guest, Body::Abort(id(0)))?;
    Ok(is_granted && matches!(aborted, Body::NoShare))
}

// The frame of a request to write a share.
fn request_frame(alloc: Global) -> Result<Vec<u8>, Fail> {
    let request = Message {
        session: 5,
        number: 1,
        body: allocate(0, 10)?,
    };
    Ok(request.encode(alloc)?)
}

// Whether all is well wherever a frame is cut in two.
pub(crate) fn stands_halves(
    rt: &HostRuntime,
    house: &mut House,
    guest: &mut Guest,
) -> Result<bool, Fail> {
    let frame = request_frame(rt.alloc())?;
    for count in 1..frame.len() {
        let (front, rest) = frame.as_slice().split_at(count);
        let joined = joins(rt, house, guest, front, rest)?;
        house.turns(rt, 2)?;
        if !joined || house.count_gone() != 1 {
            return Ok(false);
        }
    }
    Ok(true)
}

#[test]
fn half_frames(rt: HostRuntime) -> Result<(), Fail> {
    assert!(rt; holds(&rt, "half", Visit::Halves)?);
    Ok(())
}

// Whether a client that asks and never reads is heard no more at last.
fn is_stopped(rt: &HostRuntime, house: &mut House, greedy: &mut Guest) -> Result<bool, Fail> {
    for number in 0..100_000 {
        greedy.queue(number, read(0, 0, 32_768)?)?;
        if number % 100 == 99 {
            let all_went = greedy.send()?;
            house.turns(rt, 2)?;
            if !all_went {
                return Ok(true);
            }
        }
    }
    Ok(false)
}

// Whether a client is served beside one that never reads, for which no more waits than is bounded.
pub(crate) fn stands_greed(
    rt: &HostRuntime,
    house: &mut House,
    guest: &mut Guest,
) -> Result<bool, Fail> {
    if !house.keeps(rt, guest, 0, 32_768)? {
        return Ok(false);
    }
    let mut greedy = house.guest(rt)?;
    let is_stopped = is_stopped(rt, house, &mut greedy)?;
    Ok(is_stopped && serves_on(rt, house, guest)? && house.count_gone() == 0)
}

// Whether a client is served again and again.
fn serves_on(rt: &HostRuntime, house: &mut House, guest: &mut Guest) -> Result<bool, Fail> {
    for _ in 0..20 {
        if !house.serves(rt, guest)? {
            return Ok(false);
        }
    }
    Ok(true)
}

#[test]
fn one_that_never_reads(rt: HostRuntime) -> Result<(), Fail> {
    assert!(rt; holds(&rt, "never", Visit::Greed)?);
    Ok(())
}

// So many sockets that say nothing.
fn strangers(rt: &HostRuntime, house: &mut House, count: usize) -> Result<Vec<Socket>, Fail> {
    let mut strangers = Vec::new(rt.alloc());
    for _ in 0..count {
        strangers.push(house.socket(rt)?)?;
        house.turns(rt, 1)?;
    }
    Ok(strangers)
}

// Whether a new client is served.
fn serves_another(rt: &HostRuntime, house: &mut House) -> Result<bool, Fail> {
    let mut other = house.guest(rt)?;
    Ok(house.serves(rt, &mut other)? && !other.is_ended())
}

// More connect than there are places for, and none of them greets: whether those are served that
// greeted, or do.
pub(crate) fn stands_crowd(
    rt: &HostRuntime,
    house: &mut House,
    guest: &mut Guest,
) -> Result<bool, Fail> {
    let strangers = strangers(rt, house, 300)?;
    let stands = stands_strangers(rt, house, guest)?;
    drop(strangers);
    house.turns(rt, 5)?;
    Ok(stands && house.serves(rt, guest)?)
}

// Whether some of them had to go, and the others are served.
fn stands_strangers(rt: &HostRuntime, house: &mut House, guest: &mut Guest) -> Result<bool, Fail> {
    let made_room = house.count_gone() > 40;
    let serves = house.serves(rt, guest)? && serves_another(rt, house)?;
    Ok(made_room && serves && !guest.is_ended())
}

#[test]
fn more_than_places(rt: HostRuntime) -> Result<(), Fail> {
    assert!(rt; holds(&rt, "places", Visit::Crowd)?);
    Ok(())
}
