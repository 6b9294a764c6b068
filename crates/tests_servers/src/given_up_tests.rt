//! Buckets that end with no close: of clients that are gone, that were given up, or that were left
//! too long; and that the store of a folder holds no file for them then.

use crate::server_core_tests::{
    Event, FIRST, OTHER_SESSION, Row, SECOND, Said, happens_in_folder, right_rows, server,
};
use server_core::keeping;
use server_core::server::Server;
use share_folders::folder::{Durability, FolderStore, Purpose};
use share_folders::names::OpenName;
use std::fs;
use std::test::Fail;

static TWO_CLIENTS: [Row; 6] = [
    (0, FIRST, Event::Allocate(0, 8), Said::Granted),
    (0, FIRST, Event::Write(0, 0, b"0"), Said::Wrote(1)),
    (0, OTHER_SESSION, Event::Allocate(1, 8), Said::Granted),
    (0, SECOND, Event::Allocate(2, 8), Said::Granted),
    (0, SECOND, Event::Write(2, 0, b"0123"), Said::Wrote(4)),
    (0, SECOND, Event::Allocate(0, 8), Said::Busy),
];

// Both sessions of the first client are gone. Another client begins the share at once.
static ONE_IS_GONE: [Row; 6] = [
    (0, FIRST, Event::Write(0, 1, b"1"), Said::NoShare),
    (0, OTHER_SESSION, Event::Write(1, 0, b"1"), Said::NoShare),
    (0, SECOND, Event::Allocate(0, 8), Said::Granted),
    (0, SECOND, Event::Write(0, 0, b"9"), Said::Wrote(1)),
    (0, SECOND, Event::Write(2, 4, b"45"), Said::Wrote(6)),
    (0, FIRST, Event::Allocate(1, 8), Said::Granted),
];

#[test]
fn a_client_is_forgotten(rt: HostRuntime) {
    let mut server = server(rt.alloc(), 100, false);
    assert_eq!(rt; right_rows(rt.alloc(), &mut server, &TWO_CLIENTS), 6);
    keeping::forget(&mut server, FIRST.0);
    keeping::let_go(&mut server);
    assert_eq!(rt; right_rows(rt.alloc(), &mut server, &ONE_IS_GONE), 6);
    // one that has no bucket
    server.forget(77);
    server.let_go();
    assert!(rt; right_rows(rt.alloc(), &mut server, &ONE_IS_GONE[4..5]) == 0);
}

// Whether these rows go as they are to, with a server over a folder.
fn all_right(
    rt: &HostRuntime,
    server: &mut Server<FolderStore<HostRuntime>>,
    rows: &[Row],
) -> bool {
    for row in rows {
        if happens_in_folder(rt.alloc(), server, row) != row.3 {
            return false;
        }
    }
    true
}

// How many files of open shares a folder has.
fn count_open(rt: &HostRuntime, folder: &str) -> Result<usize, Fail> {
    let mut count = 0usize;
    for entry in fs::read_dir(rt, folder)? {
        if OpenName::read(entry?.file_name().as_bytes()).is_some() {
            count = count.saturating_add(1);
        }
    }
    Ok(count)
}

static FOUR_SHARES: [Row; 8] = [
    (0, FIRST, Event::Allocate(0, 8), Said::Granted),
    (0, FIRST, Event::Write(0, 0, b"0"), Said::Wrote(1)),
    (0, FIRST, Event::Allocate(1, 8), Said::Granted),
    (0, FIRST, Event::Write(1, 0, b"0"), Said::Wrote(1)),
    (0, SECOND, Event::Allocate(2, 8), Said::Granted),
    (0, SECOND, Event::Write(2, 0, b"0"), Said::Wrote(1)),
    (0, OTHER_SESSION, Event::Allocate(3, 2), Said::Granted),
    (0, OTHER_SESSION, Event::Write(3, 0, b"0"), Said::Wrote(1)),
];

// One share is given up, and another one is given up and begun anew.
static TWO_ARE_GIVEN_UP: [Row; 4] = [
    (0, FIRST, Event::Abort(0), Said::NoShare),
    (0, FIRST, Event::Abort(1), Said::NoShare),
    (0, FIRST, Event::Allocate(1, 8), Said::Granted),
    (0, FIRST, Event::Write(1, 0, b"2"), Said::Wrote(1)),
];

static ONE_GOES_ON: [Row; 2] = [
    (599, OTHER_SESSION, Event::Write(3, 1, b"1"), Said::Wrote(2)),
    (600, SECOND, Event::Tick, Said::Nothing),
];

// How many files of open shares there are before and after each time that shares are let go of: of
// two that were given up, of those of a client that was forgotten, and of one that was left for 600
// seconds.
fn counts_in_folder(rt: &HostRuntime, folder: &str) -> Result<[usize; 4], Fail> {
    let store = FolderStore::open(rt, folder, Purpose::Writing(Durability::Unsynced))?;
    let mut server = Server::start(rt.alloc(), store, 100, false);
    let mut counts = [0; 4];
    let mut is_right = all_right(rt, &mut server, &FOUR_SHARES);
    counts[0] = count_open(rt, folder)?;
    is_right &= all_right(rt, &mut server, &TWO_ARE_GIVEN_UP);
    server.let_go();
    counts[1] = count_open(rt, folder)?;
    server.forget(SECOND.0);
    server.let_go();
    counts[2] = count_open(rt, folder)?;
    is_right &= all_right(rt, &mut server, &ONE_GOES_ON);
    server.let_go();
    counts[3] = count_open(rt, folder)?;
    if !is_right {
        return Err(Fail::new("a row went another way"));
    }
    Ok(counts)
}

// Whatever ends a bucket with no close, the store holds no file for its share once it was let go
// of, and one that was begun anew goes on.
#[test]
fn shares_are_let_go_of(rt: HostRuntime) -> Result<(), Fail> {
    let process = std::process::id(rt.process());
    let folder = format!(in rt.alloc(); "/tmp/given-up-tests-{process}")?;
    let counts = counts_in_folder(&rt, folder.as_str())?;
    fs::remove_dir_all(&rt, folder.as_str())?;
    assert!(rt; counts == [4, 3, 2, 1]);
    Ok(())
}
