//! The server over a store in memory, and over one in a folder of the test's own, against the lines
//! of its table.
//!
//! The tests whose names begin with `refused_memory` pass too where any one allocation of theirs is
//! refused.

use server_core::error::ServerFault;
use server_core::keeping;
use server_core::server::Server;
use share_folders::folder::{Durability, FolderStore, Purpose};
use share_store::memory::MemoryStore;
use share_store::store::Store;
use std::alloc::Global;
use std::fs;
use std::test::Fail;
use wire::message::{Body, Digest, Message, ReadLength, ShareId, ShareLength, WriteData};

// The hash of `0123456789` under the tag of whole shares, by a program in Python.
const DIGEST: Digest =
    *b"\x9b\x43\x50\xa4\xfb\x28\x39\x4c\x37\xde\xae\xa3\xb5\x02\x95\x7b\x00\x3f\xa6\x5a\x79\x23\
        \x47\x14\x6d\xf8\xe9\x4f\x74\xd2\x43\x7d";

// What comes to the server: a request about a share of the file whose storage index is zeros, or
// something else.
#[derive(Clone, Copy)]
pub(crate) enum Event {
    Ask,
    Allocate(u8, u64),
    Write(u8, u64, &'static [u8]),
    Close(u8),
    Abort(u8),
    Read(u8, u64, u32),
    Granted,
    Tick,
    Restart,
    StoreFails,
}

// What the server says.
#[derive(Clone, Copy, PartialEq, Eq)]
pub(crate) enum Said {
    Nothing,
    Fault(ServerFault),
    Have(bool, usize),
    Granted,
    Already(Digest),
    Busy,
    Full,
    Wrote(u64),
    WrongOffset(u64),
    Closed(Digest),
    NotComplete(u64),
    Data(usize),
    NoShare,
    Request,
}

const STORE_FAULT: Said = Said::Fault(ServerFault::StoreFault);

// A client's node and session.
pub(crate) type Client = (u16, u64);

pub(crate) const FIRST: Client = (1, 5);

pub(crate) const SECOND: Client = (2, 5);

pub(crate) const OTHER_SESSION: Client = (1, 6);

// A time, a client, what comes, and what the server says to it.
pub(crate) type Row = (u64, Client, Event, Said);

fn id(share: u8) -> ShareId {
    ShareId {
        index: [0; 16],
        share,
    }
}

fn body(alloc: Global, event: Event) -> Option<Body> {
    Some(match event {
        Event::Ask => Body::Ask([0; 16]),
        Event::Allocate(share, length) => Body::Allocate(id(share), ShareLength::new(length)?),
        Event::Write(share, offset, bytes) => {
            let bytes = Vec::from_slice(alloc, bytes).ok()?;
            Body::Write(id(share), offset, WriteData::from_vec(bytes)?)
        }
        Event::Close(share) => Body::Close(id(share)),
        Event::Abort(share) => Body::Abort(id(share)),
        Event::Read(share, offset, length) => {
            Body::Read(id(share), offset, ReadLength::new(length)?)
        }
        _ => Body::Granted,
    })
}

fn heard(answer: &Body) -> Said {
    match answer {
        Body::Have(readonly, held) => Said::Have(*readonly, held.as_slice().len()),
        Body::Granted => Said::Granted,
        Body::Already(digest) => Said::Already(*digest),
        Body::Busy => Said::Busy,
        Body::Full => Said::Full,
        Body::Wrote(next) => Said::Wrote(*next),
        Body::WrongOffset(count) => Said::WrongOffset(*count),
        Body::Closed(digest) => Said::Closed(*digest),
        Body::NotComplete(count) => Said::NotComplete(*count),
        Body::Data(bytes) => Said::Data(bytes.as_slice().len()),
        Body::NoShare => Said::NoShare,
        _ => Said::Request,
    }
}

// The request, whose number is 3.
fn request(alloc: Global, client: Client, event: Event) -> Option<Message> {
    Some(Message {
        session: client.1,
        number: 3,
        body: body(alloc, event)?,
    })
}

// What the server answers, which is to repeat the request's session and number.
fn told(client: Client, answer: &Result<Option<Message>, ServerFault>) -> Said {
    match answer {
        Ok(None) => Said::Nothing,
        Ok(Some(answer)) if answer.session == client.1 && answer.number == 3 => heard(&answer.body),
        Ok(Some(_)) => Said::Request,
        Err(fault) => Said::Fault(*fault),
    }
}

fn send(
    alloc: Global,
    server: &mut Server<MemoryStore>,
    client: Client,
    event: Event,
    now: u64,
) -> Said {
    match request(alloc, client, event) {
        Some(request) => told(client, &keeping::serve(server, client.0, &request, now)),
        None => Said::Fault(ServerFault::OutOfMemory),
    }
}

fn happens(alloc: Global, server: &mut Server<MemoryStore>, row: &Row) -> Said {
    let (now, client, event, _) = *row;
    match event {
        Event::Tick => keeping::tick(server, now),
        Event::Restart => keeping::restart(server),
        Event::StoreFails => server.fail_store(),
        _ => return send(alloc, server, client, event, now),
    }
    Said::Nothing
}

// How many rows in turn go as they are to, up to the first that does not.
pub(crate) fn right_rows(alloc: Global, server: &mut Server<MemoryStore>, rows: &[Row]) -> usize {
    for (i, row) in rows.iter().enumerate() {
        if happens(alloc, server, row) != row.3 {
            return i;
        }
    }
    rows.len()
}

// What the store shows of itself: the digest of share 3, and the bytes of all.
fn shown(server: &Server<MemoryStore>) -> (Option<Digest>, u64) {
    let store = server.store();
    (store.closed(&id(3)), store.used())
}

// What the server says at last: where it was refused memory once, and the store shows no change,
// the same comes again.
fn happens_at_last(alloc: Global, server: &mut Server<MemoryStore>, row: &Row) -> Said {
    let before = shown(server);
    let said = happens(alloc, server, row);
    if said != Said::Fault(ServerFault::OutOfMemory) || shown(server) != before {
        return said;
    }
    happens(alloc, server, row)
}

// How many rows in turn go as they are to, where memory may be refused once.
fn right_rows_at_last(alloc: Global, server: &mut Server<MemoryStore>, rows: &[Row]) -> usize {
    for (i, row) in rows.iter().enumerate() {
        if happens_at_last(alloc, server, row) != row.3 {
            return i;
        }
    }
    rows.len()
}

pub(crate) fn server(alloc: Global, capacity: u64, readonly: bool) -> Server<MemoryStore> {
    Server::start(alloc, MemoryStore::new(alloc), capacity, readonly)
}

static ONE_BUCKET: [Row; 28] = [
    (0, FIRST, Event::Allocate(3, 10), Said::Granted),
    (0, FIRST, Event::Write(3, 0, b"0123"), Said::Wrote(4)),
    (0, FIRST, Event::Write(3, 0, b"0123"), Said::WrongOffset(4)),
    (0, FIRST, Event::Close(3), Said::NotComplete(4)),
    (
        0,
        FIRST,
        Event::Write(3, 4, b"456789!"),
        Said::WrongOffset(4),
    ),
    (0, FIRST, Event::Allocate(3, 10), Said::Granted),
    (0, FIRST, Event::Write(3, 4, b"456789"), Said::Wrote(10)),
    (0, FIRST, Event::Write(3, 10, b"!"), Said::WrongOffset(10)),
    (0, FIRST, Event::Ask, Said::Have(false, 0)),
    (0, FIRST, Event::Close(3), Said::Closed(DIGEST)),
    (0, FIRST, Event::Close(3), Said::Closed(DIGEST)),
    (0, FIRST, Event::Write(3, 0, b"0123"), Said::Already(DIGEST)),
    (0, FIRST, Event::Allocate(3, 10), Said::Already(DIGEST)),
    (0, SECOND, Event::Read(3, 8, 5), Said::Data(2)),
    (0, SECOND, Event::Read(3, 10, 1), Said::Data(0)),
    (0, SECOND, Event::Read(3, 11, 1), Said::Data(0)),
    (0, SECOND, Event::Read(4, 0, 1), Said::NoShare),
    (0, SECOND, Event::Granted, Said::Nothing),
    (0, SECOND, Event::Restart, Said::Nothing),
    (0, SECOND, Event::Read(3, 8, 5), Said::Data(2)),
    (0, SECOND, Event::Read(3, 10, 1), Said::Data(0)),
    (0, SECOND, Event::Read(3, 11, 1), Said::Data(0)),
    // `Close` again, late and by others
    (700, FIRST, Event::Tick, Said::Nothing),
    (700, FIRST, Event::Close(3), Said::Closed(DIGEST)),
    (9, OTHER_SESSION, Event::Close(3), Said::Closed(DIGEST)),
    (9, SECOND, Event::Close(3), Said::Closed(DIGEST)),
    (9, SECOND, Event::Abort(3), Said::NoShare),
    (9, SECOND, Event::Ask, Said::Have(false, 1)),
];

// The bytes that a server reads of share 3, from 8 on.
fn end_of_share(server: &mut Server<MemoryStore>) -> Option<[u8; 2]> {
    let request = Message {
        session: 7,
        number: 1,
        body: Body::Read(id(3), 8, ReadLength::new(5)?),
    };
    let Ok(Some(answer)) = server.on_message(9, &request, 0) else {
        return None;
    };
    let Body::Data(bytes) = answer.body else {
        return None;
    };
    match bytes.as_slice() {
        [first, second] => Some([*first, *second]),
        _ => None,
    }
}

#[test]
fn one_bucket(rt: HostRuntime) {
    let mut server = server(rt.alloc(), 100, false);
    assert_eq!(rt; right_rows(rt.alloc(), &mut server, &ONE_BUCKET), 28);
    assert_eq!(rt; end_of_share(&mut server), Some(*b"89"));
}

// The same over the files of a folder.
pub(crate) fn happens_in_folder(
    alloc: Global,
    server: &mut Server<FolderStore<HostRuntime>>,
    row: &Row,
) -> Said {
    let (now, client, event, _) = *row;
    match event {
        Event::Tick => server.tick(now),
        Event::Restart => server.restart(),
        _ => {
            return match request(alloc, client, event) {
                Some(request) => told(client, &server.on_message(client.0, &request, now)),
                None => Said::Nothing,
            };
        }
    }
    Said::Nothing
}

// How many rows in turn go as they are to, with a server that starts over the folder as it is.
fn right_rows_in_folder(rt: &HostRuntime, folder: &str, rows: &[Row]) -> Option<usize> {
    let store = FolderStore::open(rt, folder, Purpose::Writing(Durability::Synced)).ok()?;
    let mut server = Server::start(rt.alloc(), store, 100, false);
    for (i, row) in rows.iter().enumerate() {
        if happens_in_folder(rt.alloc(), &mut server, row) != row.3 {
            return Some(i);
        }
    }
    Some(rows.len())
}

// What another server finds in that folder, of whose room no closed share takes any.
static FOUND: [Row; 4] = [
    (0, SECOND, Event::Ask, Said::Have(false, 1)),
    (0, SECOND, Event::Read(3, 8, 5), Said::Data(2)),
    (0, SECOND, Event::Allocate(3, 10), Said::Already(DIGEST)),
    (0, SECOND, Event::Allocate(4, 101), Said::Full),
];

#[test]
fn one_bucket_in_folder(rt: HostRuntime) -> Result<(), Fail> {
    let process = std::process::id(rt.process());
    let folder = format!(in rt.alloc(); "/tmp/server-core-tests-{process}")?;
    let written = right_rows_in_folder(&rt, folder.as_str(), &ONE_BUCKET);
    let found = right_rows_in_folder(&rt, folder.as_str(), &FOUND);
    fs::remove_dir_all(&rt, folder.as_str())?;
    assert!(rt; written == Some(28));
    assert!(rt; found == Some(4));
    Ok(())
}

#[test]
fn refused_memory_one_bucket(rt: HostRuntime) {
    let mut server = server(rt.alloc(), 100, false);
    assert_eq!(rt;
        right_rows_at_last(rt.alloc(), &mut server, &ONE_BUCKET),
        28
    );
    let end = match end_of_share(&mut server) {
        None => end_of_share(&mut server),
        end => end,
    };
    assert_eq!(rt; end, Some(*b"89"));
}

static CAPACITY: [Row; 9] = [
    (0, FIRST, Event::Allocate(0, 10), Said::Granted),
    (0, FIRST, Event::Write(0, 0, b"0123456789"), Said::Wrote(10)),
    (0, FIRST, Event::Close(0), Said::Closed(DIGEST)),
    (0, FIRST, Event::Allocate(1, 8), Said::Granted),
    (0, FIRST, Event::Allocate(2, 3), Said::Full),
    (0, FIRST, Event::Allocate(2, 2), Said::Granted),
    (0, FIRST, Event::Allocate(4, 1), Said::Full),
    (0, FIRST, Event::Abort(1), Said::NoShare),
    (0, FIRST, Event::Allocate(4, 8), Said::Granted),
];

static READONLY: [Row; 2] = [
    (0, FIRST, Event::Allocate(0, 1), Said::Full),
    (0, FIRST, Event::Ask, Said::Have(true, 0)),
];

#[test]
fn capacity(rt: HostRuntime) {
    let mut server = server(rt.alloc(), 20, false);
    assert_eq!(rt; right_rows(rt.alloc(), &mut server, &CAPACITY), 9);
}

#[test]
fn takes_no_shares(rt: HostRuntime) {
    let mut server = server(rt.alloc(), 100, true);
    assert_eq!(rt; right_rows(rt.alloc(), &mut server, &READONLY), 2);
}

// What the server says to a client that asks for room for one byte. Where it was refused memory
// once, the client asks again.
fn allocates(server: &mut Server<MemoryStore>, file: u8, share: u8) -> Said {
    let Some(length) = ShareLength::new(1) else {
        return Said::Nothing;
    };
    let id = ShareId {
        index: [file; 16],
        share,
    };
    let request = Message {
        session: 1,
        number: 1,
        body: Body::Allocate(id, length),
    };
    let answer = match server.on_message(1, &request, 0) {
        Err(ServerFault::OutOfMemory) => server.on_message(1, &request, 0),
        answer => answer,
    };
    match answer {
        Ok(Some(answer)) => heard(&answer.body),
        Ok(None) => Said::Nothing,
        Err(fault) => Said::Fault(fault),
    }
}

fn are_granted(server: &mut Server<MemoryStore>, files: u8) -> bool {
    for file in 0..files {
        for share in 0..=255 {
            if allocates(server, file, share) != Said::Granted {
                return false;
            }
        }
    }
    true
}

#[test]
fn refused_memory_most_buckets(rt: HostRuntime) {
    let mut server = server(rt.alloc(), 5000, false);
    assert!(rt; are_granted(&mut server, 4));
    assert!(rt; allocates(&mut server, 4, 0) == Said::Full);
    server.tick(600);
    assert!(rt; allocates(&mut server, 4, 0) == Said::Granted);
}

// A bucket is touched by writes, by wrong offsets, by a close that comes too early and by its
// client's `Allocate`.
static OVER_TIME: [Row; 20] = [
    (0, FIRST, Event::Allocate(0, 8), Said::Granted),
    (0, SECOND, Event::Allocate(0, 8), Said::Busy),
    (599, SECOND, Event::Tick, Said::Nothing),
    (599, SECOND, Event::Allocate(0, 8), Said::Busy),
    (600, SECOND, Event::Tick, Said::Nothing),
    (600, SECOND, Event::Allocate(0, 8), Said::Granted),
    (3, FIRST, Event::Tick, Said::Nothing),
    (3, FIRST, Event::Allocate(0, 8), Said::Busy),
    (1000, SECOND, Event::Write(0, 0, b"0"), Said::Wrote(1)),
    (1500, SECOND, Event::Tick, Said::Nothing),
    (1500, SECOND, Event::Write(0, 0, b"0"), Said::WrongOffset(1)),
    (2000, SECOND, Event::Tick, Said::Nothing),
    (2000, SECOND, Event::Close(0), Said::NotComplete(1)),
    (2500, SECOND, Event::Tick, Said::Nothing),
    (2500, SECOND, Event::Allocate(0, 8), Said::Granted),
    (3099, FIRST, Event::Tick, Said::Nothing),
    (3099, FIRST, Event::Allocate(0, 8), Said::Busy),
    (3100, FIRST, Event::Tick, Said::Nothing),
    (3100, SECOND, Event::Write(0, 1, b"1"), Said::NoShare),
    (3100, FIRST, Event::Allocate(0, 8), Said::Granted),
];

#[test]
fn dropped_after_600_seconds(rt: HostRuntime) {
    let mut server = server(rt.alloc(), 100, false);
    assert_eq!(rt; right_rows(rt.alloc(), &mut server, &OVER_TIME), 20);
}

static ANOTHERS: [Row; 13] = [
    (0, FIRST, Event::Allocate(0, 10), Said::Granted),
    (0, SECOND, Event::Allocate(0, 10), Said::Busy),
    (0, SECOND, Event::Write(0, 0, b"0123456789"), Said::NoShare),
    (0, SECOND, Event::Close(0), Said::NoShare),
    (0, SECOND, Event::Abort(0), Said::NoShare),
    (0, OTHER_SESSION, Event::Allocate(0, 10), Said::Busy),
    (
        0,
        OTHER_SESSION,
        Event::Write(0, 0, b"0123456789"),
        Said::NoShare,
    ),
    (0, OTHER_SESSION, Event::Close(0), Said::NoShare),
    (0, OTHER_SESSION, Event::Abort(0), Said::NoShare),
    (0, FIRST, Event::Allocate(0, 9), Said::Busy),
    (0, FIRST, Event::Write(0, 0, b"0123456789"), Said::Wrote(10)),
    (0, FIRST, Event::Restart, Said::Nothing),
    (0, FIRST, Event::Close(0), Said::NoShare),
];

#[test]
fn another_clients_bucket(rt: HostRuntime) {
    let mut server = server(rt.alloc(), 100, false);
    assert_eq!(rt; right_rows(rt.alloc(), &mut server, &ANOTHERS), 13);
}

static FAILING: [Row; 18] = [
    (0, FIRST, Event::StoreFails, Said::Nothing),
    (0, FIRST, Event::Ask, STORE_FAULT),
    (0, FIRST, Event::Ask, Said::Have(false, 0)),
    (0, FIRST, Event::Allocate(3, 10), Said::Granted),
    (0, FIRST, Event::StoreFails, Said::Nothing),
    (0, FIRST, Event::Write(3, 0, b"0123456789"), STORE_FAULT),
    (0, FIRST, Event::Write(3, 0, b"0123456789"), Said::NoShare),
    (0, FIRST, Event::Allocate(3, 10), Said::Granted),
    (0, FIRST, Event::Write(3, 0, b"0123456789"), Said::Wrote(10)),
    (0, FIRST, Event::StoreFails, Said::Nothing),
    (0, FIRST, Event::Close(3), STORE_FAULT),
    (0, FIRST, Event::Close(3), Said::NoShare),
    (0, FIRST, Event::Allocate(3, 10), Said::Granted),
    (0, FIRST, Event::Write(3, 0, b"0123456789"), Said::Wrote(10)),
    (0, FIRST, Event::Close(3), Said::Closed(DIGEST)),
    (0, FIRST, Event::StoreFails, Said::Nothing),
    (0, FIRST, Event::Read(3, 0, 10), STORE_FAULT),
    (0, FIRST, Event::Read(3, 0, 10), Said::Data(10)),
];

#[test]
fn failing_store(rt: HostRuntime) {
    let mut server = server(rt.alloc(), 100, false);
    assert_eq!(rt; right_rows(rt.alloc(), &mut server, &FAILING), 18);
}
