//! Checks that ask for several pieces of a share at once, whose answers come in any order, twice or
//! never.

use crate::checker_tests::{NODES, WRONG, Wrong, answer, encoded_by, taken, verify_cap};
use checker::status::CheckStatus;
use checker::{Check, MOST_PIECES};
use file_encoding::{Encoded, Params};
use request_record::operation::Operation;
use share_reading::Verdict;
use share_verify::Check as Section;
use std::alloc::Global;
use wire::message::{Body, Message, NodeId};

// A file of so many bytes in 74 segments has two shares, each of which gives it back: with 300,000
// bytes of blocks, three trees of 255 hashes, and two share hashes, which are 10 pieces.
const SIZE: usize = 300_000;

fn encoded(alloc: Global) -> Option<Encoded> {
    let params = Params::new(1, 1, 2, 4_096).ok()?;
    encoded_by(alloc, SIZE, &params)
}

// In which order the answers of a round come.
#[derive(Clone, Copy)]
enum Order {
    AsAsked,
    Reversed,
}

// What a server does that has the share with which something is wrong.
#[derive(Clone, Copy)]
enum Lies {
    // What is wrong is its share.
    Share(Wrong),
    // It answers no request for the piece at this offset.
    Silent(u64),
    // It answers the request for the piece at this offset by a byte less.
    Short(u64),
    // Both, at two offsets.
    ShortAndSilent(u64, u64),
}

// How a check ended: the verdict on the share with which something is wrong, how many others are
// good, and in how many rounds of answers.
#[derive(Clone, Copy, PartialEq, Eq)]
struct Ending {
    verdict: Option<Verdict>,
    good: usize,
    rounds: usize,
}

// A check that asks for so many pieces of a share at once, to its end. Each answer comes twice.
// `None` where more requests wait at once for one server, which has one share, or it fails.
fn ended(
    alloc: Global,
    encoded: &Encoded,
    lies: Lies,
    order: Order,
    pieces: usize,
) -> Option<Ending> {
    let cap = verify_cap(encoded)?;
    let mut check = Check::start_ahead(alloc, cap, &NODES, 5, 0, pieces).ok()?;
    let most = pieces.clamp(1, MOST_PIECES);
    let mut waiting = Vec::new(alloc);
    let mut now: u64 = 0;
    let mut rounds: usize = 0;
    for _ in 0..1_000 {
        if check.status() != CheckStatus::Running {
            break;
        }
        for request in taken(alloc, &mut check)? {
            waiting.push(request).ok()?;
        }
        if most < most_at_one(&waiting) {
            return None;
        }
        if waiting.is_empty() {
            now = now.saturating_add(5);
            check.tick(now).ok()?;
            continue;
        }
        rounds = rounds.saturating_add(1);
        if matches!(order, Order::Reversed) {
            waiting.reverse();
        }
        for (node, request) in &waiting {
            for _ in 0..2 {
                if let Some(message) = told(alloc, encoded, lies, *node, request)? {
                    check.on_message(*node, message, now).ok()?;
                }
            }
        }
        waiting.clear();
    }
    ending_of(alloc, &check, rounds)
}

// How many of these requests are for one server, at most.
fn most_at_one(sent: &[(NodeId, Message)]) -> usize {
    let mut most: usize = 0;
    for node in NODES {
        let mut count: usize = 0;
        for (to, _) in sent {
            if *to == node {
                count = count.saturating_add(1);
            }
        }
        most = most.max(count);
    }
    most
}

// What a server tells, if it does.
fn told(
    alloc: Global,
    encoded: &Encoded,
    lies: Lies,
    node: NodeId,
    request: &Message,
) -> Option<Option<Message>> {
    let wrong = match lies {
        Lies::Share(wrong) => wrong,
        _ => Wrong::Nothing,
    };
    let told = answer(alloc, encoded, wrong, node, request)?;
    let Body::Read(_, offset, _) = &request.body else {
        return Some(told);
    };
    if usize::from(node) != WRONG {
        return Some(told);
    }
    match lies {
        Lies::Silent(at) if at == *offset => Some(None),
        Lies::Short(at) if at == *offset => Some(shorter(alloc, told?)),
        Lies::ShortAndSilent(_, at) if at == *offset => Some(None),
        Lies::ShortAndSilent(at, _) if at == *offset => Some(shorter(alloc, told?)),
        _ => Some(told),
    }
}

// The same answer with a byte less.
fn shorter(alloc: Global, message: Message) -> Option<Message> {
    let Body::Data(data) = &message.body else {
        return None;
    };
    let bytes = data.as_slice();
    let kept = Vec::from_slice(alloc, bytes.get(..bytes.len().checked_sub(1)?)?).ok()?;
    Some(Message {
        session: message.session,
        number: message.number,
        body: Body::Data(wire::message::ReadData::from_vec(kept)?),
    })
}

fn ending_of(alloc: Global, check: &Check, rounds: usize) -> Option<Ending> {
    let report = check.report(alloc).ok()??;
    let mut ending = Ending {
        verdict: None,
        good: 0,
        rounds,
    };
    for found in report.verdicts.as_slice() {
        if usize::from(found.share) == WRONG {
            ending.verdict = Some(found.verdict);
        } else if found.verdict == Verdict::Good {
            ending.good = ending.good.saturating_add(1);
        }
    }
    Some(ending)
}

// The offset of the piece behind so many others of the rest of a share.
fn piece_at(pieces: u64) -> u64 {
    pieces.saturating_mul(32_768).saturating_add(36)
}

#[test]
fn pieces_are_asked_ahead(rt: HostRuntime) {
    let shares = encoded(rt.alloc());
    assert!(rt; shares.is_some());
    if let Some(encoded) = &shares {
        // One round for the holdings, three for the beginning of the first share, and three for
        // that of the other, which is begun then. Its 10 pieces follow.
        let counts = [
            (0, Order::AsAsked, 17),
            (1, Order::Reversed, 17),
            (2, Order::Reversed, 12),
            (8, Order::AsAsked, 9),
            (8, Order::Reversed, 9),
            (100, Order::AsAsked, 9),
        ];
        for (pieces, order, rounds) in counts {
            let lies = Lies::Share(Wrong::Nothing);
            let all = ended(rt.alloc(), encoded, lies, order, pieces);
            let expected = Ending {
                verdict: Some(Verdict::Good),
                good: 1,
                rounds,
            };
            assert!(rt; all == Some(expected), "{pieces} pieces");
        }
    }
}

// Whether the wrong share has this verdict, and the other is good.
fn has_verdict(
    alloc: Global,
    encoded: &Encoded,
    lies: Lies,
    order: Order,
    verdict: Verdict,
) -> bool {
    match ended(alloc, encoded, lies, order, MOST_PIECES) {
        Some(ending) => ending.verdict == Some(verdict) && ending.good == 1,
        None => false,
    }
}

#[test]
fn wrong_pieces_are_found(rt: HostRuntime) {
    let shares = encoded(rt.alloc());
    assert!(rt; shares.is_some());
    if let Some(encoded) = &shares {
        let layout = Verdict::Corrupt(Section::Layout);
        let data = Verdict::Corrupt(Section::Data);
        let cases = [
            (Lies::Share(Wrong::Cut(100_000)), Order::Reversed, layout),
            (Lies::Share(Wrong::Byte(100_000)), Order::Reversed, data),
            (Lies::Short(piece_at(5)), Order::AsAsked, layout),
            (Lies::Short(piece_at(9)), Order::Reversed, layout),
        ];
        for (i, (lies, order, verdict)) in cases.iter().enumerate() {
            let is_found = has_verdict(rt.alloc(), encoded, *lies, *order, *verdict);
            assert!(rt; is_found, "case {i}");
        }
    }
}

// A piece that is lost tells more than one that is short, wherever it is.
#[test]
fn lost_pieces_are_found(rt: HostRuntime) {
    let shares = encoded(rt.alloc());
    assert!(rt; shares.is_some());
    if let Some(encoded) = &shares {
        let cases = [
            (Lies::Share(Wrong::NoShare), Order::AsAsked),
            (Lies::Silent(piece_at(5)), Order::AsAsked),
            (
                Lies::ShortAndSilent(piece_at(2), piece_at(5)),
                Order::AsAsked,
            ),
            (
                Lies::ShortAndSilent(piece_at(5), piece_at(2)),
                Order::Reversed,
            ),
        ];
        for (i, (lies, order)) in cases.iter().enumerate() {
            let is_lost = has_verdict(rt.alloc(), encoded, *lies, *order, Verdict::Lost);
            assert!(rt; is_lost, "case {i}");
        }
    }
}
