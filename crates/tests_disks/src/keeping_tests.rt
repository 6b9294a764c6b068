//! A share is written, closed, listed and read over a folder in memory, by its store and by a
//! server.

use disks::memory::MemoryDisk;
use folder_keeping::laws::{confirmed_stay, found_are_safe, safe_stay};
use folder_keeping::opening::open;
use folder_keeping::serving_laws::{closed_are_served, safe_are_served, servers_are_orderly};
use folder_keeping::store::KeptFolder;
use server_core::server::{CAPACITY, Server};
use share_folders::disk::Durability;
use share_store::error::StoreError;
use share_store::store::Store;
use std::alloc::Global;
use std::test::Fail;
use wire::message::{Body, Digest, Message, ReadLength, ShareId, ShareLength, WriteData};

// The hash of `0123456789` under the tag of whole shares, by a program in Python.
const DIGEST: Digest =
    *b"\x9b\x43\x50\xa4\xfb\x28\x39\x4c\x37\xde\xae\xa3\xb5\x02\x95\x7b\x00\x3f\xa6\x5a\x79\x23\
        \x47\x14\x6d\xf8\xe9\x4f\x74\xd2\x43\x7d";

const ID: ShareId = ShareId {
    index: [1; 16],
    share: 3,
};

// A store over an empty folder, and how many names it found there.
fn opened(alloc: Global) -> Option<(KeptFolder<MemoryDisk>, usize)> {
    match open(
        alloc,
        MemoryDisk::new(alloc),
        Some([9; 16]),
        Durability::Synced,
    ) {
        Ok(opening) => Some((opening.store, opening.names.len())),
        Err(_) => None,
    }
}

// A store that has closed a share.
fn written(alloc: Global) -> Option<KeptFolder<MemoryDisk>> {
    let (mut store, names) = opened(alloc)?;
    if names != 0 || store.closed(&ID).is_some() {
        return None;
    }
    store.write(&ID, 0, b"01234").ok()?;
    store.write(&ID, 5, b"56789").ok()?;
    store.close(&ID, &DIGEST).ok()?;
    Some(store)
}

// Whether the share is told, listed and read.
fn is_kept(alloc: Global, store: &mut KeptFolder<MemoryDisk>) -> bool {
    let Some(count) = ReadLength::new(9) else {
        return false;
    };
    let Ok(found) = store.list(alloc, &[1; 16]) else {
        return false;
    };
    let Ok(read) = store.read(alloc, &ID, 6, count) else {
        return false;
    };
    store.closed(&ID) == Some(DIGEST)
        && found.as_slice().len() == 1
        && read.as_slice() == b"6789".as_slice()
}

#[test]
fn stores_keep(rt: HostRuntime) -> Result<(), Fail> {
    let Some(mut store) = written(rt.alloc()) else {
        assert!(rt; false);
        return Ok(());
    };
    assert!(rt; is_kept(rt.alloc(), &mut store));
    store.restart();
    assert!(rt; is_kept(rt.alloc(), &mut store));
    assert!(rt; store.used() == 0 && store.failures() == 0);
    Ok(())
}

#[test]
fn faults_are_counted(rt: HostRuntime) -> Result<(), Fail> {
    let Some((mut store, _)) = opened(rt.alloc()) else {
        assert!(rt; false);
        return Ok(());
    };
    let Some(count) = ReadLength::new(9) else {
        assert!(rt; false);
        return Ok(());
    };
    let read = store.read(rt.alloc(), &ID, 0, count);
    assert!(rt; matches!(read, Err(StoreError::StoreFault)));
    assert!(rt; store.failures() == 1);
    Ok(())
}

// What a server says to a message.
fn said(server: &mut Server<KeptFolder<MemoryDisk>>, body: Body) -> Option<Body> {
    let message = Message {
        session: 1,
        number: 2,
        body,
    };
    match server.on_message(5, &message, 0) {
        Ok(Some(answer)) => Some(answer.body),
        _ => None,
    }
}

// Whether a server takes a share, and gives its bytes.
fn is_served(alloc: Global) -> Option<bool> {
    let (store, _) = opened(alloc)?;
    let mut server = Server::start(alloc, store, CAPACITY, false);
    let bytes = WriteData::from_vec(Vec::from_slice(alloc, b"0123456789").ok()?)?;
    let granted = said(&mut server, Body::Allocate(ID, ShareLength::new(10)?))?;
    let wrote = said(&mut server, Body::Write(ID, 0, bytes))?;
    let closed = said(&mut server, Body::Close(ID))?;
    let data = said(&mut server, Body::Read(ID, 8, ReadLength::new(9)?))?;
    let is_taken = matches!(granted, Body::Granted) && matches!(wrote, Body::Wrote(10));
    match (closed, data) {
        (Body::Closed(digest), Body::Data(read)) => {
            Some(is_taken && digest == DIGEST && read.as_slice() == b"89".as_slice())
        }
        _ => Some(false),
    }
}

#[test]
fn servers_serve(rt: HostRuntime) -> Result<(), Fail> {
    assert!(rt; is_served(rt.alloc()) == Some(true));
    Ok(())
}

#[test]
fn laws_hold(_rt: HostRuntime) -> Result<(), Fail> {
    safe_stay::<MemoryDisk>();
    confirmed_stay::<MemoryDisk>();
    found_are_safe::<MemoryDisk>();
    servers_are_orderly::<MemoryDisk>();
    closed_are_served::<MemoryDisk>();
    safe_are_served::<MemoryDisk>();
    Ok(())
}
