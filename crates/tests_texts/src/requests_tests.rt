//! The record of requests, against the times at which silent servers are asked again.

use request_record::requests::{Asked, Outcome, Request, Requests};
use std::alloc::Global;
use wire::message::{Body, HeldList, HeldShare, Message, ReadData, ReadLength, ShareLength};

// The seconds of the ticks, and those at which one request is sent. At the last tick it is lost.
const SILENT: [(&[u64], &[u64]); 4] = [
    (&[4, 5, 10, 15, 20], &[0, 5, 10, 15]),
    (&[12, 15, 25], &[0, 12, 15]),
    (&[20], &[0]),
    (
        &[1, 6, 7, 9, 11, 16, 19, 18_446_744_073_709_551_615],
        &[0, 6, 11, 16],
    ),
];

// Who answers, in which session, to which number, and whether a Closed then counts.
const ANSWERS: [(&str, u16, u64, u64, bool); 7] = [
    ("another server", 8, 7, 2, false),
    ("another session", 9, 8, 2, false),
    ("no number", 9, 7, 0, false),
    ("a number that was not asked", 9, 7, 4, false),
    ("a request of another kind", 9, 7, 1, false),
    ("an abort", 9, 7, 3, false),
    ("the request", 9, 7, 2, true),
];

fn closed(session: u64, number: u64) -> Message {
    Message {
        session,
        number,
        body: Body::Closed([5; 32]),
    }
}

fn is_lost(requests: &Requests, position: usize) -> bool {
    match requests.request_at(position) {
        Some(request) => matches!(request.outcome, Outcome::Lost),
        None => false,
    }
}

// The times at which a request to a silent server is sent, and that it is lost at the last tick and
// not before. `None` where that is not so, or memory is out.
fn sent_times(alloc: Global, ticks: &[u64]) -> Option<Vec<u64>> {
    let mut requests = Requests::new(alloc, 7, 0);
    requests.ask(9, Asked::Holdings).ok()?;
    let mut sent = Vec::new(alloc);
    note_sent(&mut sent, &mut requests, 0)?;
    for tick in ticks {
        if is_lost(&requests, 0) {
            return None;
        }
        requests.tick(*tick).ok()?;
        note_sent(&mut sent, &mut requests, *tick)?;
    }
    if is_lost(&requests, 0) && is_ended(&mut requests) {
        Some(sent)
    } else {
        None
    }
}

// Notes the time where the first request is sent, with no other behind it.
fn note_sent(sent: &mut Vec<u64>, requests: &mut Requests, now: u64) -> Option<()> {
    if requests.take_next() == Some(0) {
        sent.push(now).ok()?;
    }
    if requests.outgoing_len() == 0 {
        Some(())
    } else {
        None
    }
}

// Whether no request waits, and an answer that comes late does not count.
fn is_ended(requests: &mut Requests) -> bool {
    requests.outstanding() == 0 && requests.take_answer(9, closed(7, 1), 30) == None
}

#[test]
fn silent_servers(rt: HostRuntime) {
    for &(ticks, times) in &SILENT {
        let is_right = match sent_times(rt.alloc(), ticks) {
            Some(sent) => sent.as_slice() == times,
            None => false,
        };
        assert!(rt; is_right);
    }
}

// An operation of session 7 that asked server 9 for its shares, to keep share 3, and to give share
// 4 up.
fn asked(alloc: Global) -> Option<Requests> {
    let mut requests = Requests::new(alloc, 7, 0);
    requests.ask(9, Asked::Holdings).ok()?;
    requests.ask(9, Asked::Closing(3)).ok()?;
    requests.ask(9, Asked::Aborting(4)).ok()?;
    Some(requests)
}

// Whether a Closed from there counts as the answer to the second request, or does not count.
fn is_counted(alloc: Global, from: u16, session: u64, number: u64, counts: bool) -> bool {
    let Some(mut requests) = asked(alloc) else {
        return false;
    };
    let position = requests.take_answer(from, closed(session, number), 1);
    if counts {
        position == Some(1) && requests.outstanding() == 1
    } else {
        position == None && requests.outstanding() == 2
    }
}

#[test]
fn answers(rt: HostRuntime) {
    for &(what, from, session, number, counts) in &ANSWERS {
        assert!(rt;
            is_counted(rt.alloc(), from, session, number, counts),
            "{what}"
        );
    }
}

// Whether both requests that wait are sent again after five seconds, the abort not, and the answer
// to one counts the first time alone.
fn counts_once(alloc: Global) -> bool {
    let Some(mut requests) = asked(alloc) else {
        return false;
    };
    requests.session() == 7
        && requests.first() == Some(0)
        && requests.outgoing_len() == 3
        && requests.tick(5).is_ok()
        && requests.outgoing_len() == 5
        && answers_at(&mut requests, Some(1))
        && answers_at(&mut requests, None)
}

// Whether a Closed for the second request counts at this position.
fn answers_at(requests: &mut Requests, position: Option<usize>) -> bool {
    if requests.counts_at(9, &closed(7, 2)) != position {
        return false;
    }
    requests.take_answer(9, closed(7, 2), 6) == position
}

#[test]
fn an_answer_counts_once(rt: HostRuntime) {
    assert!(rt; counts_once(rt.alloc()));
}

// Whether a request is recorded and sent again after five seconds, where a call that was refused
// memory changes nothing and is made again.
fn is_recorded_and_sent(alloc: Global) -> bool {
    let mut requests = Requests::new(alloc, 7, 0);
    if requests.ask(9, Asked::Holdings).is_err() {
        if requests.outgoing_len() != 0 || requests.ask(9, Asked::Holdings).is_err() {
            return false;
        }
    }
    if requests.tick(5).is_err() {
        if requests.outgoing_len() != 1 || requests.tick(5).is_err() {
            return false;
        }
    }
    requests.outgoing_len() == 2
        && requests.outstanding() == 1
        && keeps_answer(alloc, &mut requests)
}

// Whether a Have with one share is kept as the answer to the first request.
fn keeps_answer(alloc: Global, requests: &mut Requests) -> bool {
    let Some(message) = have(alloc) else {
        return true;
    };
    requests.take_answer(9, message, 6) == Some(0) && requests.outstanding() == 0
}

// A Have with one share, of a server that takes none, as the answer to the first request.
pub(crate) fn have(alloc: Global) -> Option<Message> {
    let share = HeldShare {
        share: 3,
        digest: [5; 32],
    };
    let held = HeldList::from_vec(vec![in alloc; share].ok()?)?;
    Some(Message {
        session: 7,
        number: 1,
        body: Body::Have(true, held),
    })
}

#[test]
fn refused_memory_in_a_record(rt: HostRuntime) {
    assert!(rt; is_recorded_and_sent(rt.alloc()));
}

// Which answers fit a request: Have, Granted, Already, Busy, Full, Wrote, WrongOffset, Closed,
// NotComplete, Data, NoShare.
fn answer_kinds(alloc: Global) -> Option<Vec<Body>> {
    let held = HeldList::from_vec(Vec::new(alloc))?;
    let data = ReadData::from_vec(Vec::new(alloc))?;
    let kinds = vec![in alloc;
        Body::Have(true, held),
        Body::Granted,
        Body::Already([1; 32]),
        Body::Busy,
        Body::Full,
        Body::Wrote(1),
        Body::WrongOffset(1),
        Body::Closed([1; 32]),
        Body::NotComplete(1),
        Body::Data(data),
        Body::NoShare,
        Body::Ask([0; 16]),
    ];
    kinds.ok()
}

// Whether just the kinds marked `y` fit.
fn fit(asked: &Asked, kinds: &[Body], fitting: &str) -> bool {
    let mut fit = kinds.len() == fitting.len();
    for (body, mark) in kinds.iter().zip(fitting.chars()) {
        fit &= asked.fits(body) == (mark == 'y');
    }
    fit
}

#[test]
fn fitting_kinds(rt: HostRuntime) {
    let (Some(kinds), Some(length), Some(piece)) = (
        answer_kinds(rt.alloc()),
        ShareLength::new(9),
        ReadLength::new(9),
    ) else {
        assert!(rt; false);
        return;
    };
    for (asked, fitting) in [
        (Asked::Holdings, "y..........."),
        (Asked::Allocation(1, length), ".yyyy......."),
        (Asked::Writing(1, 0, 9), "..y..yy...y."),
        (Asked::Closing(1), ".......yy.y."),
        (Asked::Reading(1, 0, piece), ".........yy."),
        (Asked::Aborting(1), "............"),
    ] {
        assert!(rt; fit(&asked, &kinds, fitting), "{fitting}");
    }
}

// An operation of session 7 that asked server 9 for its shares at second 0, and again at second 5.
fn asked_again(alloc: Global) -> Option<Requests> {
    let mut requests = Requests::new(alloc, 7, 0);
    requests.ask(9, Asked::Holdings).ok()?;
    if requests.take_next() != Some(0) || requests.outgoing_len() != 0 {
        return None;
    }
    let lost = requests.tick(5).ok()?;
    if lost.len() == 0 && requests.first() == Some(0) {
        Some(requests)
    } else {
        None
    }
}

// Whether nothing waits for an answer, and nothing is to send.
fn is_done(requests: &Requests) -> bool {
    requests.outstanding() == 0 && requests.outgoing_len() == 0 && !requests.has_work()
}

// Whether a request was answered by a Have of a server that takes no shares.
pub(crate) fn tells_holdings(request: Option<&Request>) -> bool {
    match told_of(request) {
        Some(body) => matches!(body, Body::Have(true, _)),
        None => false,
    }
}

// The answer to a request, where it counted and is no Data.
fn told_of(request: Option<&Request>) -> Option<&Body> {
    match &request?.outcome {
        Outcome::Answered(kept) => kept.told(),
        _ => None,
    }
}

// A second sending that was not taken yet falls away with the answer.
fn is_done_once_answered(alloc: Global) -> Option<bool> {
    let mut requests = asked_again(alloc)?;
    let position = requests.take_answer(9, have(alloc)?, 6);
    let is_kept = tells_holdings(requests.request_at(0));
    Some(position == Some(0) && is_kept && requests.clock() == 6 && is_done(&requests))
}

// It falls away too where no answer comes.
fn is_done_once_lost(alloc: Global) -> Option<bool> {
    let mut requests = asked_again(alloc)?;
    let early = requests.tick(19).ok()?;
    let late = requests.tick(20).ok()?;
    Some(early.len() == 0 && late.as_slice() == &[0usize][..] && is_done(&requests))
}

#[test]
fn ended_requests_are_not_sent(rt: HostRuntime) {
    assert!(rt; is_done_once_answered(rt.alloc()) == Some(true));
    assert!(rt; is_done_once_lost(rt.alloc()) == Some(true));
}

#[test]
fn refused_memory_in_a_request_that_ends(rt: HostRuntime) {
    assert!(rt; is_done_once_answered(rt.alloc()) != Some(false));
    assert!(rt; is_done_once_lost(rt.alloc()) != Some(false));
}

// Whether this is a request to a server for its shares, made at second 100.
fn is_first_of(request: Option<&Request>, server: u16) -> bool {
    match request {
        Some(request) => {
            request.server == server
                && request.asked == Asked::Holdings
                && request.first_sent == 100
                && request.sendings == 1
        }
        None => false,
    }
}

// Whether an operation begins with a request to each server in turn, and loses each 20 seconds
// later, but that of the second server, which answers; none, where memory is out.
fn begins(alloc: Global) -> Option<bool> {
    let mut requests = Requests::begin(alloc, &[3, 9, 5], 7, 100).ok()?;
    let mut is_right = requests.session() == 7 && requests.clock() == 100;
    for (position, server) in [3u16, 9, 5].iter().enumerate() {
        is_right &= is_first_of(requests.request_at(position), *server);
        is_right &= requests.take_next() == Some(position);
    }
    let mut message = have(alloc)?;
    message.number = 2;
    is_right &= requests.take_next() == None && requests.outstanding() == 3;
    is_right &= requests.take_answer(9, message, 101) == Some(1);
    let lost = requests.tick(120).ok()?;
    is_right &= lost.as_slice() == &[0usize, 2][..];
    Some(is_right && requests.len() == 3 && is_done(&requests))
}

#[test]
fn an_operation_begins_with_all_servers(rt: HostRuntime) {
    assert!(rt; begins(rt.alloc()) == Some(true));
}

#[test]
fn refused_memory_in_a_beginning(rt: HostRuntime) {
    assert!(rt; begins(rt.alloc()) != Some(false));
}
