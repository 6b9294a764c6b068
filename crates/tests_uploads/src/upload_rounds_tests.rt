//! Uploads message by message: when requests are sent again, what servers hold before, and the
//! rounds of placing.

ghost use Rattle.std.specs.Prelude.{◌≡◌, IfSome, length, map, nat_eq};
ghost use Rattle.std.specs.List.{IsDistinct};
ghost use Rattle.carried_operations.specs.Stored.{HasBegun};
ghost use Rattle.upload_core.specs.declared.status.ServerInfo.{ServerInfo};

use crate::courses::{Asked, Course, asked_by};
use crate::upload_core_tests::{Conduct, SERVERS, SHARE_LENGTH, begun, share, verify_cap};
use Conduct::{Full, Honest, ReadOnly, Silent};
use cap_text::{ReadCap, VerifyCap};
use file_encoding::{Encoded, Params, encode_all};
use file_upload::prepared::{FileUpload, PreparedUpload, prepare};
use placement::ServerId;
use request_record::operation::Operation;
use server_core::server::Server;
use share_store::memory::MemoryStore;
use share_store::store::Store;
use std::alloc::Global;
use tagged_hash::share_digest;
use upload_core::pieces::WholeShares;
use upload_core::status::{ServerInfo, UploadGoal, UploadStatus};
use upload_core::{ReadyUpload, Upload};
use wire::message::{NodeId, ShareId, ShareLength};

pub(crate) const ONE: [ServerInfo; 1] = [ServerInfo {
    node: 0,
    id: ServerId([0; 20]),
}];

// The first is the first in the order of the file, by a program in Python.
const TWO: [ServerInfo; 2] = [
    ServerInfo {
        node: 0,
        id: ServerId([0; 20]),
    },
    ServerInfo {
        node: 1,
        id: ServerId([1; 20]),
    },
];

const TEN: [ServerInfo; 10] = [
    ServerInfo {
        node: 0,
        id: ServerId([0; 20]),
    },
    ServerInfo {
        node: 1,
        id: ServerId([1; 20]),
    },
    ServerInfo {
        node: 2,
        id: ServerId([2; 20]),
    },
    ServerInfo {
        node: 3,
        id: ServerId([3; 20]),
    },
    ServerInfo {
        node: 4,
        id: ServerId([4; 20]),
    },
    ServerInfo {
        node: 5,
        id: ServerId([5; 20]),
    },
    ServerInfo {
        node: 6,
        id: ServerId([6; 20]),
    },
    ServerInfo {
        node: 7,
        id: ServerId([7; 20]),
    },
    ServerInfo {
        node: 8,
        id: ServerId([8; 20]),
    },
    ServerInfo {
        node: 9,
        id: ServerId([9; 20]),
    },
];

// An upload of one share, of one, to these servers.
fn begun_one(alloc: Global, servers: &[ServerInfo]) -> Option<Upload<WholeShares>>
    requires { IsDistinct nat_eq (map (λ (s : ServerInfo). s.node) servers.now) }
{
    let shares = WholeShares::new(vec![in alloc; share(alloc, 7)?].ok()?);
    let digests = shares.digests(alloc).ok()?;
    let cap = ReadCap::new([1; 16], [2; 32], 1, 1, 39_000).ok()?;
    let length = ShareLength::new(SHARE_LENGTH as u64)?;
    let goal = UploadGoal::new(cap.to_verify(), digests, length);
    let ready = ReadyUpload::new(shares, goal, 1);
    ready.start(alloc, servers, 5, 0).ok()
}

// A store that keeps one share of the file.
fn store_with(alloc: Global, number: u8, bytes: &[u8]) -> Option<MemoryStore> {
    let mut store = MemoryStore::new(alloc);
    let id = ShareId {
        index: *verify_cap()?.storage_index(),
        share: number,
    };
    if store.closed(&id).is_some() {
        return None;
    }
    store.write(&id, 0, bytes).ok()?;
    if store.closed(&id).is_some() {
        return None;
    }
    store.close(&id, &share_digest(bytes)).ok()?;
    Some(store)
}

// Is an upload happy with these pairs?
fn is_happy_with(upload: &Upload<WholeShares>, expected: &[(NodeId, u16)]) -> bool {
    match happy_pairs(upload) {
        Some(pairs) => pairs == expected,
        None => false,
    }
}

// The pairs of a happy upload.
pub(crate) fn happy_pairs(upload: &Upload<WholeShares>) -> Option<&[(NodeId, u16)]> {
    match upload.status() {
        UploadStatus::Happy(pairs) => Some(pairs.as_slice()),
        _ => None,
    }
}

// Ticks of an upload whose one server is silent, and the seconds at which its Ask is sent. At the
// last tick it is lost.
const TICKS: [(&[u64], &[u64]); 4] = [
    (&[4, 5, 10, 15, 20], &[0, 5, 10, 15]),
    (&[12, 15, 25], &[0, 12, 15]),
    (&[20], &[0]),
    (
        &[1, 6, 7, 9, 11, 16, 19, 18_446_744_073_709_551_615],
        &[0, 6, 11, 16],
    ),
];

// Notes the second where the Ask is sent. `None` where anything else is, or the upload has ended.
fn note_ask(
    alloc: Global,
    upload: &mut Upload<WholeShares>,
    now: u64,
    seconds: &mut Vec<u64>,
) -> Option<()> {
    if !matches!(upload.status(), UploadStatus::Running) {
        return None;
    }
    if let Some((_, request)) = upload.take_outgoing(alloc).ok()? {
        if asked_by(&request.body) != Asked::Ask || upload.has_outgoing() {
            return None;
        }
        seconds.push(now).ok()?;
    }
    Some(())
}

// The seconds at which the Ask is sent. `None` where the upload does not end Unhappy, with no
// blocking set, at the last tick and not before.
fn asked_at(alloc: Global, ticks: &[u64]) -> Option<Vec<u64>> {
    let mut upload = begun_one(alloc, &ONE)?;
    let mut seconds = Vec::new(alloc);
    let mut now = 0;
    for tick in ticks {
        note_ask(alloc, &mut upload, now, &mut seconds)?;
        now = *tick;
        upload.tick(now).ok()?;
    }
    if ends_with_none(&upload) && !upload.has_outgoing() {
        Some(seconds)
    } else {
        None
    }
}

// Is an upload unhappy, with no pair and an empty blocking set?
fn ends_with_none(upload: &Upload<WholeShares>) -> bool {
    match upload.status() {
        UploadStatus::Unhappy(reached, blocking) => {
            *reached == 0 && blocking.as_slice().is_empty()
        }
        _ => false,
    }
}

#[test]
fn a_silent_server_is_asked_four_times(rt: HostRuntime) {
    for (i, (ticks, expected)) in TICKS.iter().enumerate() {
        let is_right = match asked_at(rt.alloc(), ticks) {
            Some(seconds) => seconds.as_slice() == *expected,
            None => false,
        };
        assert!(rt; is_right, "table {i}");
    }
}

// What one server is asked where its first Closed is lost on the way.
const CLOSED_AGAIN: [(u64, Asked); 6] = [
    (0, Asked::Ask),
    (0, Asked::Allocate(0)),
    (0, Asked::Write(0, 0)),
    (0, Asked::Write(0, 32_768)),
    (0, Asked::Close(0)),
    (5, Asked::Close(0)),
];

// Does a server keep the one share?
fn keeps_share(alloc: Global, course: &Course, node: NodeId) -> Option<bool> {
    Some(course.keeps(&verify_cap()?, node, 0, &share(alloc, 7)?))
}

fn close_is_sent_again(alloc: Global) -> Option<bool> {
    let mut course = Course::new(alloc, &[Honest])?;
    course.lost = Some(Asked::Close(0));
    let mut upload = begun_one(alloc, &ONE)?;
    course.carry(alloc, &mut upload)?;
    Some(
        keeps_share(alloc, &course, 0) == Some(true)
            && course.has_sent_to(alloc, 0, &CLOSED_AGAIN)
            && is_happy_with(&upload, &[(0, 0)]),
    )
}

#[test]
fn a_lost_closed_counts_once(rt: HostRuntime) {
    assert!(rt; close_is_sent_again(rt.alloc()) == Some(true));
}

// A server that keeps other bytes under the number of the one share.
fn junk_server(alloc: Global) -> Option<Server<MemoryStore>> {
    let store = store_with(alloc, 0, b"junk")?;
    Some(Server::start(alloc, store, 1_000_000, false))
}

// Servers that do so, of which the first keeps other bytes under the number of the one share.
fn after_junk(alloc: Global, conducts: &[Conduct]) -> Option<Course> {
    let mut course = Course::new(alloc, conducts)?;
    *course.grid.get_mut(0)? = junk_server(alloc)?;
    Some(course)
}

// Does the first server keep the other bytes still?
fn keeps_junk(course: &Course) -> Option<bool> {
    Some(course.keeps(&verify_cap()?, 0, 0, b"junk"))
}

// The share goes to the second server, and the first one's stays as it is.
fn goes_past_junk(alloc: Global) -> Option<bool> {
    let mut course = after_junk(alloc, &[Honest, Honest])?;
    let mut upload = begun_one(alloc, &TWO)?;
    course.carry(alloc, &mut upload)?;
    Some(
        keeps_junk(&course) == Some(true)
            && keeps_share(alloc, &course, 1) == Some(true)
            && course.has_allocated(alloc, &[(0, 0), (1, 0)])
            && is_happy_with(&upload, &[(1, 0)]),
    )
}

// There is no other server.
fn junk_alone_is_unhappy(alloc: Global) -> Option<bool> {
    let mut course = after_junk(alloc, &[Honest])?;
    let mut upload = begun_one(alloc, &ONE)?;
    course.carry(alloc, &mut upload)?;
    Some(ends_with_none(&upload) && keeps_junk(&course) == Some(true))
}

#[test]
fn junk_under_a_right_number_does_not_count(rt: HostRuntime) {
    assert!(rt; goes_past_junk(rt.alloc()) == Some(true));
    assert!(rt; junk_alone_is_unhappy(rt.alloc()) == Some(true));
}

// The first server in the order of the file has no room: in the second round its share goes to the
// one that has none yet.
fn full_is_placed_past(alloc: Global) -> Option<bool> {
    let mut course = Course::new(alloc, &[Full, Honest, Honest, Honest])?;
    let mut upload = begun(alloc, 3)?;
    course.carry(alloc, &mut upload)?;
    Some(
        allocates_in_two_rounds(alloc, &course) == Some(true)
            && course.has_sent_to(alloc, 0, &[(0, Asked::Ask), (0, Asked::Allocate(0))])
            && has_happy_pair(&upload, (1, 0)),
    )
}

// Are three shares placed at once, and the first one again on server 1?
fn allocates_in_two_rounds(alloc: Global, course: &Course) -> Option<bool> {
    let allocated = course.allocated(alloc)?;
    let (last, first) = allocated.as_slice().split_last()?;
    let is_first_round = first.len() == 3
        && first.contains(&(0, 0))
        && first.contains(&(3, 1))
        && first.contains(&(2, 2));
    Some(is_first_round && *last == (1, 0))
}

// Is this one of the pairs of a happy upload?
fn has_happy_pair(upload: &Upload<WholeShares>, pair: (NodeId, u16)) -> bool {
    match happy_pairs(upload) {
        Some(pairs) => pairs.contains(&pair),
        None => false,
    }
}

#[test]
fn a_full_server_is_asked_in_one_round(rt: HostRuntime) {
    assert!(rt; full_is_placed_past(rt.alloc()) == Some(true));
}

// A server that takes nothing holds share 0: that counts, and the others go to two further servers.
fn read_only_counts(alloc: Global) -> Option<bool> {
    let mut course = Course::new(alloc, &[ReadOnly, Honest, Honest, Honest])?;
    let store = store_with(alloc, 0, &share(alloc, 7)?)?;
    *course.grid.get_mut(0)? = Server::start(alloc, store, 1_000_000, true);
    let mut upload = begun(alloc, 3)?;
    course.carry(alloc, &mut upload)?;
    let allocated = course.allocated(alloc)?;
    let are_placed = allocated.as_slice().len() == 2
        && allocated.as_slice().contains(&(3, 1))
        && allocated.as_slice().contains(&(2, 2));
    let pairs = happy_pairs(&upload)?;
    Some(
        are_placed
            && pairs.len() == 3
            && pairs.contains(&(0, 0))
            && pairs.contains(&(3, 1))
            && pairs.contains(&(2, 2)),
    )
}

#[test]
fn shares_of_a_read_only_server_count(rt: HostRuntime) {
    assert!(rt; read_only_counts(rt.alloc()) == Some(true));
}

const FILE: [u8; 56] = [7; 56];

fn params() -> Option<Params> {
    Params::new(3, 7, 10, 131_072).ok()
}

// The file of 56 bytes made ready, at 3 of 10 and a happiness of 7.
fn prepared(alloc: Global) -> Option<PreparedUpload> {
    match prepare(alloc, &FILE, b"", &params()?).ok()? {
        FileUpload::Shares(prepared) => Some(prepared),
        FileUpload::Literal(_) => None,
    }
}

// The shares of the file.
pub(crate) fn encoded(alloc: Global) -> Option<Encoded> {
    encode_all(alloc, &FILE, b"", &params()?).ok()
}

// Does each of these servers keep its share of the file?
fn all_keep(
    alloc: Global,
    course: &Course,
    cap: &VerifyCap,
    pairs: &[(NodeId, u16)],
) -> Option<bool> {
    let encoded = encoded(alloc)?;
    for (node, number) in pairs {
        let bytes = encoded.shares.get(usize::from(*number))?.as_slice();
        if !course.keeps(cap, *node, u8::try_from(*number).ok()?, bytes) {
            return Some(false);
        }
    }
    Some(true)
}

// Do nine servers keep nine shares of the file as the upload says?
fn nine_keep(
    alloc: Global,
    course: &Course,
    cap: &VerifyCap,
    upload: &Upload<WholeShares>,
) -> Option<bool> {
    let pairs = happy_pairs(upload)?;
    Some(all_keep(alloc, course, cap, pairs)? && pairs.len() == 9)
}

// What a server is asked that never answers.
const UNANSWERED: [(u64, Asked); 4] = [
    (0, Asked::Ask),
    (5, Asked::Ask),
    (10, Asked::Ask),
    (15, Asked::Ask),
];

// The upload of the file to ten servers, and its verify cap.
pub(crate) fn begun_ten(alloc: Global) -> Option<(VerifyCap, Upload<WholeShares>)>
    ensures { IfSome result (λ begun. HasBegun begun.1.course) }
{
    let prepared = prepared(alloc)?;
    let cap = prepared.cap().to_verify();
    match prepared.into_upload().start(alloc, &TEN, 5, 0) {
        Ok(upload) => Some((cap, upload)),
        Err(_) => None,
    }
}

fn nine_of_ten_are_happy(alloc: Global) -> Option<bool> {
    let mut conducts = [Honest; 10];
    conducts[4] = Silent;
    let mut course = Course::new(alloc, &conducts)?;
    let (cap, mut upload) = begun_ten(alloc)?;
    course.carry(alloc, &mut upload)?;
    Some(
        nine_keep(alloc, &course, &cap, &upload) == Some(true)
            && course.has_sent_to(alloc, 4, &UNANSWERED),
    )
}

#[test]
fn one_silent_server_of_ten(rt: HostRuntime) {
    assert!(rt; nine_of_ten_are_happy(rt.alloc()) == Some(true));
}
