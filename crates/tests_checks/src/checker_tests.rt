//! Checks of shares at servers in memory, some of which do not do as they should.

use cap_text::{Cap, VerifyCap};
use checker::Check;
use checker::status::CheckStatus;
use file_encoding::{Encoded, Params, encode_all};
use request_record::operation::Operation;
use share_layout::Offsets;
use share_reading::Verdict;
use share_verify::Check as Section;
use std::alloc::{AllocError, Global};
use wire::message::{Body, HeldList, HeldShare, Message, NodeId, ReadData};

// A file of so many bytes has 10 shares, of which 3 are needed; share n is at server n. The rest of
// a share takes two reads.
const SIZE: usize = 131_074;

// The servers.
pub(crate) const NODES: [NodeId; 10] = [0, 1, 2, 3, 4, 5, 6, 7, 8, 9];

// The share with which something is wrong.
pub(crate) const WRONG: usize = 1;

// What is wrong.
#[derive(Clone, Copy)]
pub(crate) enum Wrong {
    Nothing,
    // The servers from this one on hold nothing.
    Gone(usize),
    // Each server holds all shares.
    Copied,
    // This byte of the share is another one.
    Byte(usize),
    // This byte from its end.
    ByteFromEnd(usize),
    // The first byte of this section: the unused section, the ciphertext tree, the block tree, or
    // the share hashes.
    Section(usize),
    // The extension block's length is 0.
    NoBlock,
    // More bytes stand behind the extension block.
    Grown,
    // The share ends at this offset.
    Cut(usize),
    // The header and the length of the extension block are spelled in the second layout.
    SecondLayout,
    // The server answers no read.
    Mute,
    // It never answers.
    Silent,
    // It answers each read that it has no such share.
    NoShare,
}

#[derive(Clone, Copy, PartialEq, Eq, Debug)]
enum Found {
    Nothing,
    Good,
    Lost,
    Layout,
    Ueb,
    Unused,
    CiphertextTree,
    BlockTree,
    ShareHashes,
    Data,
}

// What a check told: how many verdicts, how many of them are `Good`, the one on the share that is
// wrong, and what follows from the good ones.
#[derive(Clone, Copy, PartialEq, Eq, Debug)]
struct Ending {
    verdicts: usize,
    good: usize,
    found: Found,
    healthy: bool,
    recoverable: bool,
    happiness: usize,
}

fn encoded(alloc: Global) -> Option<Encoded> {
    let params = Params::new(3, 7, 10, 4_096).ok()?;
    encoded_by(alloc, SIZE, &params)
}

// The shares of a file of so many bytes.
pub(crate) fn encoded_by(alloc: Global, size: usize, params: &Params) -> Option<Encoded> {
    let mut file = Vec::with_capacity(alloc, size).ok()?;
    for i in 0..size {
        file.push((i % 251) as u8).ok()?;
    }
    encode_all(alloc, &file, &[], params).ok()
}

pub(crate) fn verify_cap(encoded: &Encoded) -> Option<VerifyCap> {
    match encoded.cap {
        Cap::Chk(cap) => Some(cap.to_verify()),
        _ => None,
    }
}

// The share as its server has it.
fn kept_share(alloc: Global, share: &[u8], wrong: Wrong) -> Option<Vec<u8>> {
    let mut bytes = Vec::from_slice(alloc, share).ok()?;
    let offsets = Offsets::read(share).ok()?;
    let block = offsets.extension_block as usize;
    match wrong {
        Wrong::Byte(offset) => *bytes.get_mut(offset)? ^= 1,
        Wrong::ByteFromEnd(behind) => *bytes.get_mut(share.len().checked_sub(behind)?)? ^= 1,
        Wrong::Section(number) => {
            let sections = [
                offsets.unused,
                offsets.ciphertext_tree,
                offsets.block_tree,
                offsets.share_hashes.saturating_add(2),
            ];
            *bytes.get_mut(*sections.get(number)? as usize)? ^= 1;
        }
        Wrong::NoBlock => {
            for offset in block..block.saturating_add(4) {
                *bytes.get_mut(offset)? = 0;
            }
        }
        Wrong::Grown => bytes.extend_from_slice(&[7; 40]).ok()?,
        Wrong::Cut(offset) => bytes.truncate(offset),
        Wrong::SecondLayout => return second_layout(alloc, share, &offsets),
        _ => {}
    }
    Some(bytes)
}

// The share spelled in the second layout: all offsets are 32 bytes further, and the length of the
// extension block takes four bytes more.
fn second_layout(alloc: Global, share: &[u8], offsets: &Offsets) -> Option<Vec<u8>> {
    let block = offsets.extension_block as usize;
    let mut bytes = Vec::new(alloc);
    bytes.extend_from_slice(&[0, 0, 0, 2]).ok()?;
    for i in 0..8usize {
        let from = i.saturating_mul(4).saturating_add(4);
        let mut number = number_in(share.get(from..from.saturating_add(4))?)?;
        if 2 <= i {
            number = number.saturating_add(32);
        }
        bytes.extend_from_slice(&number.to_be_bytes()).ok()?;
    }
    bytes.extend_from_slice(share.get(36..block)?).ok()?;
    bytes.extend_from_slice(&[0; 4]).ok()?;
    bytes.extend_from_slice(share.get(block..)?).ok()?;
    Some(bytes)
}

fn number_in(bytes: &[u8]) -> Option<u64> {
    let mut number: u64 = 0;
    for byte in bytes {
        number = number.saturating_mul(256).saturating_add(u64::from(*byte));
    }
    Some(number)
}

// What a server answers, if it does.
pub(crate) fn answer(
    alloc: Global,
    encoded: &Encoded,
    wrong: Wrong,
    node: NodeId,
    request: &Message,
) -> Option<Option<Message>> {
    let is_wrong = usize::from(node) == WRONG;
    if is_wrong && matches!(wrong, Wrong::Silent) {
        return Some(None);
    }
    let body = match &request.body {
        Body::Ask(_) => Body::Have(false, held_by(alloc, encoded, wrong, usize::from(node))?),
        Body::Read(_, _, _) if is_wrong && matches!(wrong, Wrong::Mute) => return Some(None),
        Body::Read(_, _, _) if is_wrong && matches!(wrong, Wrong::NoShare) => Body::NoShare,
        Body::Read(id, offset, length) => {
            let share = encoded.shares.get(usize::from(id.share))?.as_slice();
            let wrong_here = if is_wrong { wrong } else { Wrong::Nothing };
            let kept = kept_share(alloc, share, wrong_here)?;
            let from = (*offset as usize).min(kept.len());
            let upto = from.saturating_add(length.get() as usize).min(kept.len());
            let bytes = Vec::from_slice(alloc, kept.get(from..upto)?).ok()?;
            Body::Data(ReadData::from_vec(bytes)?)
        }
        _ => return None,
    };
    Some(Some(Message {
        session: request.session,
        number: request.number,
        body,
    }))
}

fn held_by(alloc: Global, encoded: &Encoded, wrong: Wrong, node: usize) -> Option<HeldList> {
    let mut held = Vec::new(alloc);
    for number in 0..encoded.shares.len() {
        let is_held = match wrong {
            Wrong::Gone(first) => number == node && number < first,
            Wrong::Copied => true,
            _ => number == node,
        };
        if is_held {
            let share = u8::try_from(number).ok()?;
            held.push(HeldShare {
                share,
                digest: [0; 32],
            })
            .ok()?;
        }
    }
    // Numbers of the file's count of shares and above are passed over.
    held.push(HeldShare {
        share: 10,
        digest: [0; 32],
    })
    .ok()?;
    HeldList::from_vec(held)
}

fn found_of(verdict: Verdict) -> Found {
    match verdict {
        Verdict::Good => Found::Good,
        Verdict::Lost => Found::Lost,
        Verdict::Corrupt(Section::Layout) => Found::Layout,
        Verdict::Corrupt(Section::Ueb) => Found::Ueb,
        Verdict::Corrupt(Section::Unused) => Found::Unused,
        Verdict::Corrupt(Section::CiphertextTree) => Found::CiphertextTree,
        Verdict::Corrupt(Section::BlockTree) => Found::BlockTree,
        Verdict::Corrupt(Section::ShareHashes) => Found::ShareHashes,
        Verdict::Corrupt(Section::Data) => Found::Data,
    }
}

// A check that begins, and keeps the bytes of shares or not.
fn begun(alloc: Global, encoded: &Encoded, keeps: bool) -> Option<Check> {
    let cap = verify_cap(encoded)?;
    if keeps {
        Check::start_keeping(alloc, cap, &NODES, 5, 0).ok()
    } else {
        Check::start(alloc, cap, &NODES, 5, 0).ok()
    }
}

// A check to its end. `None` where more requests wait at once than servers and 64 more.
fn ended(alloc: Global, encoded: &Encoded, wrong: Wrong, keeps: bool) -> Option<Check> {
    let mut check = begun(alloc, encoded, keeps)?;
    let mut now: u64 = 0;
    for _ in 0..1_000 {
        if check.status() != CheckStatus::Running {
            break;
        }
        let sent = taken(alloc, &mut check)?;
        if 74 < sent.len() {
            return None;
        }
        if sent.is_empty() {
            now = now.saturating_add(5);
            check.tick(now).ok()?;
        }
        for (node, request) in &sent {
            if let Some(message) = answer(alloc, encoded, wrong, *node, request)? {
                check.on_message(*node, message, now).ok()?;
            }
        }
    }
    Some(check)
}

// What a check told at its end.
fn end_of(alloc: Global, encoded: &Encoded, wrong: Wrong) -> Option<Ending> {
    let report = ended(alloc, encoded, wrong, false)?.report(alloc).ok()??;
    let mut found = Found::Nothing;
    let mut good: usize = 0;
    for verdict in report.verdicts.as_slice() {
        if usize::from(verdict.server) == WRONG && usize::from(verdict.share) == WRONG {
            found = found_of(verdict.verdict);
        }
        if verdict.verdict == Verdict::Good {
            good = good.saturating_add(1);
        }
    }
    Some(Ending {
        verdicts: report.verdicts.as_slice().len(),
        good,
        found,
        healthy: report.healthy,
        recoverable: report.recoverable,
        happiness: report.happiness,
    })
}

// The numbers of the good shares that a check hands out. `None` where the bytes of one are not
// those of the file's share.
fn handed_out(alloc: Global, encoded: &Encoded, wrong: Wrong) -> Option<Vec<u16>> {
    let shares = ended(alloc, encoded, wrong, true)?
        .good_shares(alloc)
        .ok()??;
    let mut numbers = Vec::new(alloc);
    for (number, bytes) in &shares {
        let share = encoded.shares.get(usize::from(*number))?;
        if bytes.as_slice() != share.as_slice() {
            return None;
        }
        numbers.push(*number).ok()?;
    }
    Some(numbers)
}

// One share that is wrong among ten.
fn one_wrong(found: Found) -> Ending {
    Ending {
        verdicts: 10,
        good: 9,
        found,
        healthy: false,
        recoverable: true,
        happiness: 9,
    }
}

// So many good shares, of distinct numbers at distinct servers, and no others.
fn good_ones(good: usize) -> Ending {
    Ending {
        verdicts: good,
        good,
        found: if WRONG < good {
            Found::Good
        } else {
            Found::Nothing
        },
        healthy: good == 10,
        recoverable: 3 <= good,
        happiness: good,
    }
}

static WRONG_SHARES: [(Wrong, Found); 15] = [
    // The version, the blocks' length, and the offset of the share hashes.
    (Wrong::Byte(3), Found::Layout),
    (Wrong::Byte(7), Found::Layout),
    (Wrong::Byte(30), Found::Layout),
    (Wrong::Byte(36), Found::Data),
    (Wrong::Byte(36_000), Found::Data),
    (Wrong::Section(0), Found::Unused),
    (Wrong::Section(1), Found::CiphertextTree),
    (Wrong::Section(2), Found::BlockTree),
    (Wrong::Section(3), Found::ShareHashes),
    (Wrong::ByteFromEnd(1), Found::Ueb),
    (Wrong::NoBlock, Found::Ueb),
    (Wrong::Cut(20_000), Found::Layout),
    (Wrong::SecondLayout, Found::Layout),
    (Wrong::Mute, Found::Lost),
    (Wrong::NoShare, Found::Lost),
];

#[test]
fn wrong_shares_are_found(rt: HostRuntime) {
    let shares = encoded(rt.alloc());
    assert!(rt; shares.is_some());
    if let Some(encoded) = &shares {
        for (i, (wrong, found)) in WRONG_SHARES.iter().enumerate() {
            let ended = end_of(rt.alloc(), encoded, *wrong);
            assert!(rt; ended == Some(one_wrong(*found)), "share {i}: {ended:?}");
        }
    }
}

#[test]
fn good_shares_are_counted(rt: HostRuntime) {
    let shares = encoded(rt.alloc());
    assert!(rt; shares.is_some());
    if let Some(encoded) = &shares {
        let counts = [
            (Wrong::Nothing, good_ones(10)),
            (Wrong::Grown, good_ones(10)),
            (Wrong::Gone(8), good_ones(8)),
            (Wrong::Gone(2), good_ones(2)),
            (Wrong::Gone(0), good_ones(0)),
            (
                Wrong::Silent,
                Ending {
                    found: Found::Nothing,
                    ..good_ones(9)
                },
            ),
            (
                Wrong::Copied,
                Ending {
                    verdicts: 100,
                    good: 100,
                    ..good_ones(10)
                },
            ),
        ];
        for (i, (wrong, expected)) in counts.iter().enumerate() {
            let ended = end_of(rt.alloc(), encoded, *wrong);
            assert!(rt; ended == Some(*expected), "check {i}: {ended:?}");
        }
    }
}

#[test]
fn good_shares_are_handed_out(rt: HostRuntime) {
    let shares = encoded(rt.alloc());
    assert!(rt; shares.is_some());
    if let Some(encoded) = &shares {
        let cases: [(Wrong, &[u16]); 8] = [
            (Wrong::Nothing, &[0, 1, 2]),
            (Wrong::Copied, &[0, 1, 2]),
            // The bytes behind the extension block are no part of it.
            (Wrong::Grown, &[0, 1, 2]),
            // Corrupt in its data and in its beginning, and lost.
            (Wrong::Byte(36_000), &[0, 2, 3]),
            (Wrong::Byte(3), &[0, 2, 3]),
            (Wrong::NoShare, &[0, 2, 3]),
            (Wrong::Gone(2), &[0, 1]),
            (Wrong::Gone(0), &[]),
        ];
        for (i, (wrong, expected)) in cases.iter().enumerate() {
            let is_expected = match handed_out(rt.alloc(), encoded, *wrong) {
                Some(numbers) => numbers.as_slice() == *expected,
                None => false,
            };
            assert!(rt; is_expected, "check {i}");
        }
        assert!(rt; hands_nothing_out_at_first(rt.alloc(), encoded) == Some(true));
        assert!(rt; hands_nothing_out_unkept(rt.alloc(), encoded) == Some(true));
    }
}

// Whether a check that runs hands nothing out.
fn hands_nothing_out_at_first(alloc: Global, encoded: &Encoded) -> Option<bool> {
    let running = begun(alloc, encoded, true)?;
    Some(running.good_shares(alloc).ok()?.is_none())
}

// Whether a check that is done and keeps no bytes of shares hands nothing out.
fn hands_nothing_out_unkept(alloc: Global, encoded: &Encoded) -> Option<bool> {
    let done = ended(alloc, encoded, Wrong::Nothing, false)?;
    let is_none = done.good_shares(alloc).ok()?.is_none();
    Some(done.status() == CheckStatus::Done && is_none)
}

// How many shares are read at once, at first and once the extension block of one is read.
#[test]
fn shares_are_read_at_once(rt: HostRuntime) {
    let shares = encoded(rt.alloc());
    assert!(rt; shares.is_some());
    if let Some(encoded) = &shares {
        let counts = [10, 1, 1, 1, 10];
        for (i, expected) in counts.iter().enumerate() {
            let sent = sent_in_round(rt.alloc(), encoded, i);
            assert!(rt; sent == Some(*expected), "round {i}: {sent:?}");
        }
    }
}

// How many requests a check sends at once, after so many rounds in which each is answered.
fn sent_in_round(alloc: Global, encoded: &Encoded, rounds: usize) -> Option<usize> {
    let mut check = begun(alloc, encoded, false)?;
    for _ in 0..rounds {
        answer_all(alloc, encoded, &mut check)?;
    }
    Some(taken(alloc, &mut check)?.len())
}

// Each request that the check has to send is answered.
fn answer_all(alloc: Global, encoded: &Encoded, check: &mut Check) -> Option<()> {
    for (node, request) in &taken(alloc, check)? {
        let message = answer(alloc, encoded, Wrong::Nothing, *node, request)??;
        check.on_message(*node, message, 0).ok()?;
    }
    Some(())
}

// All requests that a check has to send.
pub(crate) fn taken(alloc: Global, check: &mut Check) -> Option<Vec<(NodeId, Message)>> {
    let mut sent = Vec::new(alloc);
    for _ in 0..1_000 {
        match check.take_outgoing(alloc).ok()? {
            Some(request) => sent.push(request).ok()?,
            None => break,
        }
    }
    Some(sent)
}

#[test]
fn a_check_without_servers_is_done(rt: HostRuntime) {
    let is_done = match without_servers(rt.alloc()) {
        Some(is_done) => is_done,
        None => false,
    };
    assert!(rt; is_done);
}

fn without_servers(alloc: Global) -> Option<bool> {
    let cap = verify_cap(&encoded(alloc)?)?;
    let check = Check::start_keeping(alloc, cap, &[], 5, 0).ok()?;
    let tells_none = tells_none(alloc, &check)?;
    Some(check.status() == CheckStatus::Done && !check.has_outgoing() && tells_none)
}

// Whether a check that is done found no share, and hands none out.
fn tells_none(alloc: Global, check: &Check) -> Option<bool> {
    let report = check.report(alloc).ok()??;
    let is_without = !report.healthy && !report.recoverable && report.happiness == 0;
    Some(is_without && check.good_shares(alloc).ok()??.is_empty())
}
