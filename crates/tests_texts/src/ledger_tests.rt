//! The ledger of requests, which hands the bytes of shares out and keeps none, and the record that
//! keeps them.

use crate::requests_tests::{have, tells_holdings};
use request_record::entries::Entry;
use request_record::ledger::{Counted, Ledger};
use request_record::requests::{Asked, Outcome, Request, Requests};
use std::alloc::Global;
use wire::message::{Body, Message, ReadData, ReadLength};

// The bytes of a share that are read.
const BYTES: [u8; 3] = [5, 6, 7];

// These bytes, as the answer to the request of this number.
fn data(alloc: Global, number: u64) -> Option<Message> {
    let bytes = Vec::from_slice(alloc, &BYTES).ok()?;
    Some(Message {
        session: 7,
        number,
        body: Body::Data(ReadData::from_vec(bytes)?),
    })
}

// That there is no such share, as the answer to the request of this number.
fn no_share(number: u64) -> Message {
    Message {
        session: 7,
        number,
        body: Body::NoShare,
    }
}

// An operation of session 7 that asks server 9 at second 100 for its shares, and twice for bytes of
// share 4.
fn reading(alloc: Global) -> Option<Ledger> {
    let mut ledger = Ledger::begin(alloc, &[9], 7, 100).ok()?;
    let length = ReadLength::new(3)?;
    ledger.ask(9, Asked::Reading(4, 0, length)).ok()?;
    ledger.ask(9, Asked::Reading(4, 3, length)).ok()?;
    Some(ledger)
}

// Whether an answer counted at this position, with no bytes.
fn is_without_bytes(counted: &Counted, position: usize) -> bool {
    counted.position == position && counted.bytes.is_none()
}

// Whether an answer counted at this position, with the bytes of the share.
fn is_with_bytes(counted: &Counted, position: usize) -> bool {
    match &counted.bytes {
        Some(bytes) => counted.position == position && bytes.as_slice() == BYTES.as_slice(),
        None => false,
    }
}

// Whether a request was answered, and the answer is not told.
fn is_untold(request: Option<&Request>) -> bool {
    match request {
        Some(request) => match &request.outcome {
            Outcome::Answered(kept) => kept.told().is_none(),
            _ => false,
        },
        None => false,
    }
}

// Whether answers of each kind count once, bytes are handed out and not told, and a Have is told.
fn hands_out(alloc: Global) -> Option<bool> {
    let mut ledger = reading(alloc)?;
    let held = ledger.take_answer(9, have(alloc)?, 101)?;
    let bytes = ledger.take_answer(9, data(alloc, 2)?, 102)?;
    let gone = ledger.take_answer(9, no_share(3), 103)?;
    let again = ledger.take_answer(9, data(alloc, 2)?, 104);
    let mut is_right = is_without_bytes(&held, 0) && is_with_bytes(&bytes, 1);
    is_right &= is_without_bytes(&gone, 2) && again.is_none();
    is_right &= tells_holdings(ledger.request_at(0)) && is_untold(ledger.request_at(1));
    is_right &= !is_untold(ledger.request_at(2));
    Some(is_right && ledger.clock() == 104 && ledger.outstanding() == 0)
}

#[test]
fn bytes_are_handed_out(rt: HostRuntime) {
    assert!(rt; hands_out(rt.alloc()) == Some(true));
}

// Whether three requests are to send, and are lost 20 seconds later.
fn sends_and_loses(alloc: Global) -> Option<bool> {
    let mut ledger = reading(alloc)?;
    let first = ledger.message_at(ledger.first()?, Body::Busy);
    let mut is_right = first.session == 7 && first.number == 1;
    is_right &= ledger.session() == 7 && ledger.outgoing_len() == 3;
    is_right &= ledger.take_next() == Some(0) && ledger.outstanding() == 3;
    is_right &= ledger.counts_at(9, &no_share(2)) == Some(1) && ledger.has_work();
    let lost = ledger.tick(120).ok()?;
    is_right &= lost.as_slice() == &[0usize, 1, 2][..] && !ledger.has_work();
    Some(is_right && !Ledger::new(alloc, 7, 0).has_work())
}

#[test]
fn a_ledger_sends_and_loses(rt: HostRuntime) {
    assert!(rt; sends_and_loses(rt.alloc()) == Some(true));
}

#[test]
fn refused_memory_in_a_ledger(rt: HostRuntime) {
    assert!(rt; hands_out(rt.alloc()) != Some(false));
    assert!(rt; sends_and_loses(rt.alloc()) != Some(false));
}

// What this server answers to the request of this number.
fn answered(number: u64, body: Body) -> Message {
    Message {
        session: 7,
        number,
        body,
    }
}

// An operation of session 7 that writes 30 bytes of share 4 at server 9 in six requests from second
// 100 on, and gives the share up.
fn writing(alloc: Global) -> Option<Ledger> {
    let mut ledger = Ledger::new(alloc, 7, 100);
    for part in 0..6 {
        ledger.ask(9, Asked::Writing(4, part * 5, 5)).ok()?;
    }
    ledger.ask(9, Asked::Aborting(4)).ok()?;
    Some(ledger)
}

// Whether the requests in memory from a position on are the Writings at these offsets, and then the
// Aborting.
fn are_kept(entries: &[Entry], offsets: &[u64]) -> bool {
    let mut are = entries.len() == offsets.len() + 1;
    for (entry, offset) in entries.iter().zip(offsets) {
        are &= entry.request.asked == Asked::Writing(4, *offset, 5);
    }
    match entries.last() {
        Some(entry) => are && entry.request.asked == Asked::Aborting(4),
        None => false,
    }
}

// Whether the request at this position is in memory.
fn is_kept(ledger: &Ledger, position: usize) -> bool {
    ledger.request_at(position).is_some()
}

// Whether the request at this position was lost.
fn is_lost(ledger: &Ledger, position: usize) -> bool {
    match ledger.request_at(position) {
        Some(request) => matches!(request.outcome, Outcome::Lost),
        None => false,
    }
}

// Whether Writings that were written are let go, by a Wrote or a WrongOffset at their end, and no
// other: not one that was lost, one of which fewer bytes were written, or one refused.
fn lets_go(alloc: Global) -> Option<bool> {
    let mut ledger = writing(alloc)?;
    let written = ledger.take_answer(9, answered(2, Body::Wrote(10)), 101)?;
    let again = ledger.take_answer(9, answered(2, Body::Wrote(10)), 101);
    let late = ledger.take_answer(9, answered(1, Body::WrongOffset(5)), 102)?;
    let short = ledger.take_answer(9, answered(4, Body::WrongOffset(18)), 103)?;
    let refused = ledger.take_answer(9, answered(5, Body::NoShare), 104)?;
    let mut is_right = is_without_bytes(&written, 1) && is_without_bytes(&late, 0);
    is_right &= again.is_none() && short.position == 3 && refused.position == 4;
    is_right &= ledger.len() == 7 && ledger.outstanding() == 2;
    is_right &= are_kept(ledger.kept_since(0), &[10, 15, 20, 25]);
    is_right &= are_kept(ledger.kept_since(3), &[15, 20, 25]);
    is_right &= !is_kept(&ledger, 0) && !is_kept(&ledger, 1) && is_kept(&ledger, 2);
    is_right &= is_kept(&ledger, 6) && !is_kept(&ledger, 7) && ledger.outgoing_len() == 3;
    Some(is_right && is_ended(&mut ledger)?)
}

// Whether the last of the Writings is written after it was sent again, a late answer does not
// count, and the one that is left is lost.
fn is_ended(ledger: &mut Ledger) -> Option<bool> {
    let mut is_right = ledger.tick(105).ok()?.is_empty() && ledger.outgoing_len() == 5;
    is_right &= ledger
        .take_answer(9, answered(6, Body::Wrote(30)), 106)?
        .position
        == 5;
    is_right &= ledger
        .take_answer(9, answered(6, Body::Wrote(30)), 107)
        .is_none();
    is_right &= ledger.outgoing_len() == 3 && !is_kept(ledger, 5);
    is_right &= ledger.tick(120).ok()?.as_slice() == &[2usize][..];
    is_right &= is_lost(ledger, 2) && ledger.outstanding() == 0;
    is_right &= ledger
        .take_answer(9, answered(3, Body::Wrote(15)), 121)
        .is_none();
    is_right &= are_kept(ledger.kept_since(0), &[10, 15, 20]);
    is_right &= ledger.take_next() == Some(6) && ledger.take_next() == None && ledger.len() == 7;
    Some(is_right && ledger.kept_since(7).is_empty() && !ledger.has_work())
}

#[test]
fn written_requests_are_let_go(rt: HostRuntime) {
    assert!(rt; lets_go(rt.alloc()) == Some(true));
}

#[test]
fn refused_memory_where_requests_are_let_go(rt: HostRuntime) {
    assert!(rt; lets_go(rt.alloc()) != Some(false));
}

// Asks server 9 for bytes of share 4, and once more where memory was refused.
fn ask(requests: &mut Requests, offset: u64) -> Option<()> {
    let asked = Asked::Reading(4, offset, ReadLength::new(3)?);
    if requests.ask(9, asked).is_err() {
        requests.ask(9, asked).ok()?;
    }
    Some(())
}

// Whether these are the bytes of the share.
fn are_bytes(found: Option<&[u8]>) -> bool {
    match found {
        Some(bytes) => bytes == BYTES.as_slice(),
        None => false,
    }
}

// Whether bytes are found at their request's position once they came, and nowhere else.
fn keeps_bytes(alloc: Global) -> Option<bool> {
    let mut requests = Requests::new(alloc, 7, 100);
    ask(&mut requests, 0)?;
    ask(&mut requests, 3)?;
    let mut is_right = requests.bytes_at(1).is_none() && requests.ledger().outstanding() == 2;
    is_right &= requests.take_answer(9, data(alloc, 2)?, 101) == Some(1);
    is_right &= requests.take_answer(9, no_share(1), 102) == Some(0);
    requests.tick(130).ok()?;
    is_right &= requests.bytes_at(0).is_none();
    Some(is_right && are_bytes(requests.bytes_at(1)) && requests.bytes_at(2).is_none())
}

#[test]
fn bytes_are_kept(rt: HostRuntime) {
    assert!(rt; keeps_bytes(rt.alloc()) == Some(true));
}

#[test]
fn refused_memory_in_a_record_with_bytes(rt: HostRuntime) {
    assert!(rt; keeps_bytes(rt.alloc()) != Some(false));
}
