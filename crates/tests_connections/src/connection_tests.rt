//! A connection over a wire that brings few bytes at a time, fails, or ends.
//!
//! The test whose name begins with `refused_memory` passes too where any one allocation of its is
//! refused.

use crate::fake::{Behind, Fake};
use crate::messages::{
    COUNTED_SIZE, Ears, counted, data, greeting_of, hear, heard_over, server_mark, three_messages,
};
use connections::{
    Connection, ConnectionFault, GREETING_SIZE, Greeting, MAX_WAITING, Sent, Side, greeting,
};
use std::alloc::{AllocError, Global};
use std::test::Fail;

// How many of the messages 1 to 3 are whole where so many bytes came.
fn whole_in(bytes: usize) -> usize {
    bytes.saturating_sub(GREETING_SIZE) / COUNTED_SIZE
}

// Whether the first so many of the messages 1 to 3 were heard, and then this fault.
fn is_right(ears: &Ears, count: usize, fault: Option<ConnectionFault>) -> bool {
    let all: [u64; 3] = [1, 2, 3];
    all.get(..count) == Some(ears.numbers.as_slice()) && ears.fault == fault
}

// Whether an end hears so many of them over a wire, and then this fault.
fn hears(
    alloc: Global,
    wire: Fake,
    (side, own): (Side, &Greeting),
    (count, fault): (usize, Option<ConnectionFault>),
) -> Result<bool, Fail> {
    let ears = heard_over(alloc, wire, side, own, 1000)?;
    Ok(is_right(&ears, count, fault))
}

#[test]
fn few_bytes_at_a_time(rt: HostRuntime) -> Result<(), Fail> {
    let alloc = rt.alloc();
    let own = greeting_of(alloc, Some(server_mark(3)))?;
    let bytes = three_messages(alloc, &own)?;
    for step in [1, 2, 3, 28, 29, 30, 63, 64, 65, 1000] {
        let wire = Fake::new(alloc, bytes.as_slice(), step)?.halting();
        let all = hears(alloc, wire, (Side::Server, &own), (3, None))?;
        assert!(rt; all, "{step} at a time");
    }
    Ok(())
}

// Whether a client hears the messages that are whole in these bytes, where no more come, and where
// the wire ends behind them.
fn hears_what_came(alloc: Global, own: &Greeting, came: &[u8], step: usize) -> Result<bool, Fail> {
    let (end, count) = ((Side::Client, own), whole_in(came.len()));
    let wire = Fake::new(alloc, came, step)?;
    let is_open = hears(alloc, wire, end, (count, None))?;
    let wire = Fake::new(alloc, came, step)?.then(Behind::End);
    let is_ended = hears(alloc, wire, end, (count, Some(ConnectionFault::Ended)))?;
    Ok(is_open && is_ended)
}

#[test]
fn ends_at_each_byte(rt: HostRuntime) -> Result<(), Fail> {
    let alloc = rt.alloc();
    let own = greeting_of(alloc, Some(server_mark(3)))?;
    let bytes = three_messages(alloc, &own)?;
    for count in 0..bytes.len() + 1 {
        let came = bytes.as_slice().get(..count).unwrap_or(&[]);
        for step in [1, 50, 1000] {
            assert!(rt; hears_what_came(alloc, &own, came, step)?, "{count} bytes");
        }
    }
    Ok(())
}

#[test]
fn fails_at_each_call(rt: HostRuntime) -> Result<(), Fail> {
    let alloc = rt.alloc();
    let own = greeting_of(alloc, None)?;
    let bytes = three_messages(alloc, &own)?;
    let fault = Some(ConnectionFault::Ended);
    for calls in 0..bytes.len() {
        let wire = Fake::new(alloc, bytes.as_slice(), 1)?.failing_after(calls as u64);
        let is_right = hears(alloc, wire, (Side::Server, &own), (whole_in(calls), fault))?;
        assert!(rt; is_right, "call {calls}");
    }
    Ok(())
}

// Whether a connection that has greeted ends with this fault, and keeps it.
fn keeps_fault(
    alloc: Global,
    connection: &mut Connection<Fake>,
    fault: ConnectionFault,
) -> Result<bool, Fail> {
    let first = hear(alloc, connection, 1000)?.fault == Some(fault);
    let kept = connection.fault() == Some(fault) && connection.is_greeted();
    let sends = connection.send() == Err(fault);
    let again = hear(alloc, connection, 1)?.fault == Some(fault);
    Ok(first && kept && sends && again)
}

#[test]
fn a_fault_is_for_good(rt: HostRuntime) -> Result<(), Fail> {
    let alloc = rt.alloc();
    let own = greeting_of(alloc, None)?;
    let wire = Fake::new(alloc, &own, 64)?.failing_after(1);
    let mut connection = Connection::begin(alloc, wire, Side::Server, &own)?;
    let keeps = keeps_fault(alloc, &mut connection, ConnectionFault::Ended)?;
    let went_nothing = connection.waiting() == 64 && connection.wire().went().is_empty();
    assert!(rt; keeps && went_nothing);
    Ok(())
}

// Sends so many times, up to where nothing goes.
fn send_all(connection: &mut Connection<Fake>, times: u64) -> Option<ConnectionFault> {
    for _ in 0..times {
        if let Err(fault) = connection.send() {
            return Some(fault);
        }
    }
    None
}

// Queues the messages 1 to 3. Behind each it sends so many times more than behind the one before:
// so some of it goes before the next is queued. Whether no sending fails.
fn queue_three(
    alloc: Global,
    connection: &mut Connection<Fake>,
    sends: u64,
) -> Result<bool, AllocError> {
    let mut frame = Vec::new(alloc);
    let mut is_well = true;
    for number in 1..4u64 {
        connection.queue(&counted(number), &mut frame)?;
        is_well = is_well && send_all(connection, number.saturating_mul(sends)).is_none();
    }
    Ok(is_well)
}

// Whether they go over a wire that takes so many bytes in a call.
fn goes_in_steps(alloc: Global, own: &Greeting, step: usize) -> Result<bool, Fail> {
    let wire = Fake::new(alloc, &[], step)?.halting();
    let mut connection = Connection::begin(alloc, wire, Side::Client, own)?;
    let is_well = queue_three(alloc, &mut connection, 1)?;
    let all_went = send_all(&mut connection, 1000).is_none()
        && connection.waiting() == 0
        && connection.send() == Ok(Sent::Nothing);
    let bytes = three_messages(alloc, own)?;
    Ok(is_well && all_went && connection.wire().went() == bytes.as_slice())
}

#[test]
fn what_is_queued_goes(rt: HostRuntime) -> Result<(), Fail> {
    let own = greeting_of(rt.alloc(), Some(server_mark(3)))?;
    for step in [1, 2, 63, 64, 65, 1000] {
        assert!(rt; goes_in_steps(rt.alloc(), &own, step)?, "{step} at a time");
    }
    Ok(())
}

// Whether so many of these bytes go over a wire that takes one in a call, and fails then.
fn goes_up_to(alloc: Global, own: &Greeting, bytes: &[u8], calls: usize) -> Result<bool, Fail> {
    let wire = Fake::new(alloc, &[], 1)?.failing_after(calls as u64);
    let mut connection = Connection::begin(alloc, wire, Side::Client, own)?;
    queue_three(alloc, &mut connection, 0)?;
    let fails = send_all(&mut connection, 1000) == Some(ConnectionFault::Ended);
    let went = Some(connection.wire().went()) == bytes.get(..calls);
    Ok(fails && went && connection.waiting() == bytes.len().saturating_sub(calls))
}

#[test]
fn sending_fails_at_each_call(rt: HostRuntime) -> Result<(), Fail> {
    let alloc = rt.alloc();
    let own = greeting_of(alloc, None)?;
    let bytes = three_messages(alloc, &own)?;
    for calls in 0..bytes.len() {
        assert!(rt;
            goes_up_to(alloc, &own, bytes.as_slice(), calls)?,
            "call {calls}"
        );
    }
    Ok(())
}

// What an unmarked server hears of these bytes behind a client's greeting.
fn heard_of(alloc: Global, behind: &[u8]) -> Result<Ears, Fail> {
    let own: Greeting = greeting_of(alloc, None)?;
    let mut bytes = Vec::from_slice(alloc, &own)?;
    bytes.extend_from_slice(behind)?;
    let wire = Fake::new(alloc, bytes.as_slice(), 1_000_000)?;
    Ok(heard_over(alloc, wire, Side::Server, &own, 100)?)
}

// Whether it is told that these bytes begin no frame, or nothing.
fn is_no_frame(alloc: Global, behind: &[u8]) -> Result<bool, Fail> {
    match heard_of(alloc, behind)?.fault {
        None => Ok(false),
        Some(ConnectionFault::NoFrame) => Ok(true),
        Some(_) => Err(Fail::from("another fault")),
    }
}

// Lengths of frames, and whether there may be none so.
static LENGTHS: [(&[u8], bool); 4] = [
    (b"\0\0\0", false),
    (b"\0\0\0\0", true),
    (b"\0\x01\0\0", false),
    (b"\0\x01\0\x01", true),
];

// Whether a frame whose body is zeros is none once it is whole, and one with data of more bytes
// than there may be.
fn no_long_frames(alloc: Global) -> Result<bool, Fail> {
    let mut long = Vec::from_elem(alloc, 0, 65_539)?;
    long.as_mut_slice()[1] = 1;
    let is_half = !is_no_frame(alloc, long.as_slice())?;
    long.push(0)?;
    let is_whole = is_no_frame(alloc, long.as_slice())?;
    long.as_mut_slice()[4] = 16;
    Ok(is_half && is_whole && is_no_frame(alloc, long.as_slice())?)
}

#[test]
fn lengths_of_frames(rt: HostRuntime) -> Result<(), Fail> {
    for (behind, is_none) in LENGTHS {
        assert!(rt; is_no_frame(rt.alloc(), behind)? == is_none);
    }
    assert!(rt; no_long_frames(rt.alloc())?);
    Ok(())
}

// The frames of the messages 1 to 8, each of which has so many bytes.
fn eight_frames(alloc: Global, length: usize) -> Result<Vec<u8>, Fail> {
    let mut frames = Vec::new(alloc);
    for number in 1..9 {
        frames.extend_from_slice(data(alloc, number, length)?.encode(alloc)?.as_slice())?;
    }
    Ok(frames)
}

#[test]
fn frames_that_fill_the_room(rt: HostRuntime) -> Result<(), Fail> {
    let all: [u64; 8] = [1, 2, 3, 4, 5, 6, 7, 8];
    for length in [32_746, 32_747, 32_748, 32_768] {
        let ears = heard_of(rt.alloc(), eight_frames(rt.alloc(), length)?.as_slice())?;
        let is_right = ears.fault.is_none() && ears.numbers.as_slice() == all.as_slice();
        assert!(rt; is_right, "{length}");
    }
    Ok(())
}

// Queues three messages of 32,768 bytes, and one of so many.
fn fill(alloc: Global, connection: &mut Connection<Fake>, last: usize) -> Result<(), Fail> {
    let mut frame = Vec::new(alloc);
    for (number, length) in [(1, 32_768), (2, 32_768), (3, 32_768), (4, last)] {
        connection.queue(&data(alloc, number, length)?, &mut frame)?;
    }
    Ok(())
}

// Whether a connection is full, or not, where these wait.
fn is_full_above(alloc: Global, last: usize, full: bool) -> Result<bool, Fail> {
    let own = greeting_of(alloc, None)?;
    let wire = Fake::new(alloc, &[], 1)?;
    let mut connection = Connection::begin(alloc, wire, Side::Client, &own)?;
    fill(alloc, &mut connection, last)?;
    // 64 of the greeting, and 21 of each frame beside its data
    let waiting = connection.waiting() == last.saturating_add(64 + 4 * 21 + 3 * 32_768);
    let is_above = connection.waiting() > MAX_WAITING;
    Ok(waiting && connection.is_full() == full && is_above == full)
}

#[test]
fn full_above_the_limit(rt: HostRuntime) -> Result<(), Fail> {
    for (last, full) in [(32_619, false), (32_620, false), (32_621, true)] {
        assert!(rt; is_full_above(rt.alloc(), last, full)?, "{last}");
    }
    Ok(())
}

// What is heard of three messages, byte by byte, where memory for the beginning is there.
fn three_heard(alloc: Global) -> Option<Ears> {
    let own = greeting(alloc, None).ok()?;
    let bytes = three_messages(alloc, &own).ok()?;
    let wire = Fake::new(alloc, bytes.as_slice(), 1).ok()?;
    heard_over(alloc, wire, Side::Server, &own, 1000).ok()
}

#[test]
fn refused_memory_ends_a_connection(rt: HostRuntime) {
    let Some(ears) = three_heard(rt.alloc()) else {
        return;
    };
    let count = ears.numbers.len();
    assert!(rt; is_right(&ears, count, ears.fault));
    assert!(rt; (count == 3) == (ears.fault.is_none()));
    assert!(rt; matches!(ears.fault, None | Some(ConnectionFault::OutOfMemory)));
}
