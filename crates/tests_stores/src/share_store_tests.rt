// The stores: one in memory, and one over the files of folders of the tests' own.
//
// The base32 texts were computed by a program that shares no code with these crates.
//
// The tests whose names begin with `refused_memory` pass too where any one allocation of theirs is
// refused.

use share_folders::folder::{Durability, FolderStore, Purpose};
use share_folders::names::{ClosedName, OpenName};
use share_store::error::StoreError;
use share_store::memory::MemoryStore;
use share_store::store::Store;
use std::alloc::{AllocError, Global};
use std::test::Fail;
use std::{fs, io};
use wire::message::{Digest, HeldShare, ReadLength, ShareId, StorageIndex};

// The bytes 0 to 15, and their text.
pub(crate) const INDEX: StorageIndex = [0, 1, 2, 3, 4, 5, 6, 7, 8, 9, 10, 11, 12, 13, 14, 15];

pub(crate) const INDEX_TEXT: &str = "aaaqeayeaudaocajbifqydiob4";

const OTHER_INDEX: StorageIndex = [0, 1, 2, 3, 4, 5, 6, 7, 8, 9, 10, 11, 12, 13, 14, 16];

// 32 times the byte 7, and 32 times the byte 208: the text of the greater digest is the lower one.
pub(crate) const SEVENS: &str = "a4dqobyha4dqobyha4dqobyha4dqobyha4dqobyha4dqobyha4dq";

pub(crate) const GREATER: &str = "2dinbugq2dinbugq2dinbugq2dinbugq2dinbugq2dinbugq2dia";

// A call of a store about a share, and what it is to give. Shares are closed under a digest of 32
// times one byte.
#[derive(Clone, Copy)]
pub(crate) enum Call {
    // Bytes are written at an offset.
    Write(StorageIndex, u8, u64, &'static [u8]),
    Close(StorageIndex, u8, u8),
    // So many bytes are read from an offset on: these come.
    Read(StorageIndex, u8, u64, u32, &'static [u8]),
    // The shares of these numbers are listed, all under one digest.
    List(StorageIndex, &'static [u8], u8),
    // The share is not closed.
    Open(StorageIndex, u8),
    Closed(StorageIndex, u8, u8),
    // The closed shares have so many bytes, as far as they are reckoned, and there was no fault.
    Used(u64),
    Restart,
}

// A share that is written in pieces, closed and read.
static KEEPS: [Call; 12] = [
    Call::Used(0),
    Call::Write(INDEX, 3, 0, b"\x09\x09\x09\x09"),
    Call::Write(INDEX, 3, 0, b"\x01\x02\x03"),
    Call::Write(INDEX, 3, 3, b"\x04\x05"),
    Call::Open(INDEX, 3),
    Call::Close(INDEX, 3, 7),
    Call::Closed(INDEX, 3, 7),
    Call::Read(INDEX, 3, 0, 32_768, b"\x01\x02\x03\x04\x05"),
    Call::Read(INDEX, 3, 3, 1, b"\x04"),
    Call::Read(INDEX, 3, 4, 9, b"\x05"),
    Call::Read(INDEX, 3, 5, 1, b""),
    Call::Read(INDEX, 3, u64::MAX, 1, b""),
];

// The shares of a storage index come in order, and no other index's. An open one is gone after a
// restart.
static LISTS: [Call; 17] = [
    Call::Write(INDEX, 200, 0, b"\xc8"),
    Call::Close(INDEX, 200, 7),
    Call::Write(INDEX, 3, 0, b"\x03"),
    Call::Close(INDEX, 3, 7),
    Call::Write(INDEX, 10, 0, b"\x0a"),
    Call::Write(INDEX, 10, 1, b"\x0b"),
    Call::Close(INDEX, 10, 7),
    Call::Write(OTHER_INDEX, 5, 0, b"\x01\x02"),
    Call::Close(OTHER_INDEX, 5, 8),
    Call::Write(INDEX, 4, 0, b"\x01"),
    Call::Restart,
    Call::List(INDEX, b"\x03\x0a\xc8", 7),
    Call::List(OTHER_INDEX, b"\x05", 8),
    Call::Read(INDEX, 10, 0, 9, b"\x0a\x0b"),
    Call::Write(INDEX, 4, 3, b"\x06"),
    Call::Close(INDEX, 4, 7),
    Call::Read(INDEX, 4, 0, 9, b"\x06"),
];

pub(crate) fn share(index: StorageIndex, share: u8) -> ShareId {
    ShareId { index, share }
}

// Writes to a share that is not closed; no, where it is.
fn writes<S: Store>(
    store: &mut S,
    id: &ShareId,
    offset: u64,
    bytes: &[u8],
) -> Result<bool, StoreError> {
    if store.closed(id).is_some() {
        return Ok(false);
    }
    store.write(id, offset, bytes)?;
    Ok(true)
}

// Closes a share that is not closed; no, where it is.
fn closes<S: Store>(store: &mut S, id: &ShareId, digest: &Digest) -> Result<bool, StoreError> {
    if store.closed(id).is_some() {
        return Ok(false);
    }
    store.close(id, digest)?;
    Ok(true)
}

// Whether a read gives these bytes.
fn reads<S: Store>(
    alloc: Global,
    store: &mut S,
    id: &ShareId,
    offset: u64,
    count: u32,
    wanted: &[u8],
) -> Result<bool, StoreError> {
    let Some(count) = ReadLength::new(count) else {
        return Ok(false);
    };
    Ok(store.read(alloc, id, offset, count)?.as_slice() == wanted)
}

// Whether the shares that are listed have these numbers, and all this digest.
fn lists<S: Store>(
    alloc: Global,
    store: &mut S,
    index: &StorageIndex,
    numbers: &[u8],
    digest: &Digest,
) -> Result<bool, StoreError> {
    let found = store.list(alloc, index)?;
    let found: &[HeldShare] = found.as_slice();
    if found.len() != numbers.len() {
        return Ok(false);
    }
    for (held, number) in found.iter().zip(numbers.iter()) {
        if held.share != *number || held.digest != *digest {
            return Ok(false);
        }
    }
    Ok(true)
}

// Whether a call gives what it is to give.
pub(crate) fn gives<S: Store>(
    alloc: Global,
    store: &mut S,
    call: Call,
) -> Result<bool, StoreError> {
    match call {
        Call::Write(index, number, offset, bytes) => {
            writes(store, &share(index, number), offset, bytes)
        }
        Call::Close(index, number, digest) => closes(store, &share(index, number), &[digest; 32]),
        Call::Read(index, number, offset, count, wanted) => {
            reads(alloc, store, &share(index, number), offset, count, wanted)
        }
        Call::List(index, numbers, digest) => lists(alloc, store, &index, numbers, &[digest; 32]),
        Call::Open(index, number) => Ok(store.closed(&share(index, number)).is_none()),
        Call::Closed(index, number, digest) => {
            Ok(store.closed(&share(index, number)) == Some([digest; 32]))
        }
        Call::Used(bytes) => Ok(store.used() == bytes && store.failures() == 0),
        Call::Restart => {
            store.restart();
            Ok(true)
        }
    }
}

// How many calls in turn give what they are to give, up to the first that does not.
pub(crate) fn right_calls<S: Store>(alloc: Global, store: &mut S, calls: &[Call]) -> usize {
    for (i, call) in calls.iter().enumerate() {
        if gives(alloc, store, *call) != Ok(true) {
            return i;
        }
    }
    calls.len()
}

// What a store shows of itself: the digest of share 3, how many shares of its file there are, the
// bytes of all, and the faults.
type Shown = (Option<Digest>, usize, u64, u64);

// How many shares of a file are listed. Where there is no memory once, the call is made again.
fn count_listed<S: Store>(alloc: Global, store: &mut S) -> usize {
    for _ in 0..2 {
        if let Ok(found) = store.list(alloc, &INDEX) {
            return found.as_slice().len();
        }
    }
    usize::MAX
}

fn shown<S: Store>(alloc: Global, store: &mut S) -> Shown {
    let listed = count_listed(alloc, store);
    (
        store.closed(&share(INDEX, 3)),
        listed,
        store.used(),
        store.failures(),
    )
}

// Whether a call gives what it is to give, at once, or after it was refused memory once and changed
// nothing.
fn gives_at_last<S: Store>(alloc: Global, store: &mut S, call: Call) -> bool {
    let before = shown(alloc, store);
    let outcome = gives(alloc, store, call);
    if outcome != Err(StoreError::OutOfMemory) {
        return outcome == Ok(true);
    }
    shown(alloc, store) == before && gives(alloc, store, call) == Ok(true)
}

// How many calls in turn give what they are to give, where memory may be refused once.
fn right_at_last<S: Store>(alloc: Global, store: &mut S, calls: &[Call]) -> usize {
    for (i, call) in calls.iter().enumerate() {
        if !gives_at_last(alloc, store, *call) {
            return i;
        }
    }
    calls.len()
}

#[test]
fn memory_keeps(rt: HostRuntime) {
    let mut store = MemoryStore::new(rt.alloc());
    assert_eq!(rt; right_calls(rt.alloc(), &mut store, &KEEPS), 12);
    assert_eq!(rt; store.used(), 5);
}

#[test]
fn refused_memory_in_memory(rt: HostRuntime) {
    let mut store = MemoryStore::new(rt.alloc());
    assert_eq!(rt; right_at_last(rt.alloc(), &mut store, &LISTS), 17);
    assert_eq!(rt; store.used(), 7);
}

static FAILING: [Call; 4] = [
    Call::Write(INDEX, 3, 0, b"\x01\x02"),
    Call::Close(INDEX, 3, 7),
    Call::Read(INDEX, 3, 0, 9, b"\x01\x02"),
    Call::List(INDEX, b"\x03", 7),
];

// Each call fails in turn, and then goes as it should.
#[test]
fn memory_fails(rt: HostRuntime) {
    let mut store = MemoryStore::new(rt.alloc());
    for call in FAILING {
        store.fail_next();
        assert!(rt; gives(rt.alloc(), &mut store, call) == Err(StoreError::StoreFault));
        assert!(rt; gives(rt.alloc(), &mut store, call) == Ok(true));
    }
    assert_eq!(rt; store.failures(), 4);
}

// A path in a folder that is this process's own.
pub(crate) fn path(rt: &HostRuntime, rest: &str) -> Result<String, AllocError> {
    let process = std::process::id(rt.process());
    format!(in rt.alloc(); "/tmp/share-store-tests-{process}{rest}")
}

// The path of a file in that folder: an index, what comes after it, and an end.
pub(crate) fn file(rt: &HostRuntime, rest: &str, end: &str) -> Result<String, AllocError> {
    let folder = path(rt, "/")?;
    format!(in rt.alloc(); "{folder}{INDEX_TEXT}{rest}{end}")
}

// The path of an open share's file in that folder, as a store names it.
pub(crate) fn open_file(rt: &HostRuntime) -> Result<Option<String>, Fail> {
    let folder = path(rt, "")?;
    for entry in fs::read_dir(rt, folder.as_str())? {
        let entry = entry?;
        let name = entry.file_name();
        if OpenName::read(name.as_bytes()).is_some_and(|name| name.own.is_some()) {
            return Ok(Some(format!(in rt.alloc(); "{folder}/{name}")?));
        }
    }
    Ok(None)
}

// Sees that the folder is not there, and removes it.
pub(crate) fn remove(rt: &HostRuntime) -> io::Result<()> {
    let root = path(rt, "")?;
    if fs::exists(rt, root.as_str())? {
        fs::remove_dir_all(rt, root.as_str())?;
    }
    Ok(())
}

pub(crate) const WRITING: Purpose = Purpose::Writing(Durability::Synced);

// The store of the folder, which is made where it is not there.
pub(crate) fn open_for(
    rt: &HostRuntime,
    purpose: Purpose,
) -> Result<FolderStore<HostRuntime>, StoreError> {
    FolderStore::open(rt, path(rt, "")?.as_str(), purpose)
}

pub(crate) fn open(rt: &HostRuntime) -> Result<FolderStore<HostRuntime>, StoreError> {
    open_for(rt, WRITING)
}

// How many calls in turn give what they are to give in the folder's store, once it is opened.
pub(crate) fn right_in_folder(rt: &HostRuntime, calls: &[Call]) -> Result<usize, StoreError> {
    let mut store = open(rt)?;
    Ok(right_calls(rt.alloc(), &mut store, calls))
}

static KEPT: [Call; 2] = [Call::Used(0), Call::Read(INDEX, 3, 1, 3, b"\x02\x03\x04")];

#[test]
fn folder_keeps(rt: HostRuntime) -> Result<(), Fail> {
    remove(&rt)?;
    assert_eq!(rt; right_in_folder(&rt, &KEEPS)?, 12);
    assert_eq!(rt;
        fs::metadata(&rt, file(&rt, ".3.", SEVENS)?.as_str())?.len(),
        5
    );
    assert!(rt; open_file(&rt)?.is_none());
    assert_eq!(rt; right_in_folder(&rt, &KEPT)?, 2);
    remove(&rt)?;
    Ok(())
}

static LISTED: [Call; 5] = [
    Call::List(INDEX, b"\x03\x04\x0a\xc8", 7),
    Call::List(OTHER_INDEX, b"\x05", 8),
    Call::Read(INDEX, 4, 0, 9, b"\x06"),
    Call::Read(INDEX, 10, 0, 9, b"\x0a\x0b"),
    Call::Used(0),
];

// How many calls go right in a folder's store, where memory may be refused once: none, where it is
// not opened.
fn right_in_folder_at_last(rt: &HostRuntime, purpose: Purpose, calls: &[Call]) -> usize {
    let opened = match open_for(rt, purpose) {
        Err(StoreError::OutOfMemory) => open_for(rt, purpose),
        outcome => outcome,
    };
    match opened {
        Ok(mut store) => right_at_last(rt.alloc(), &mut store, calls),
        Err(_) => 0,
    }
}

#[test]
fn refused_memory_in_folder(rt: HostRuntime) {
    if remove(&rt).is_err() {
        return;
    }
    let written = right_in_folder_at_last(&rt, WRITING, &LISTS);
    let kept = right_in_folder_at_last(&rt, WRITING, &LISTED);
    let read = right_in_folder_at_last(&rt, Purpose::Reading, &LISTED[..4]);
    assert!(rt; remove(&rt).is_ok() || remove(&rt).is_ok());
    assert_eq!(rt; written, 17);
    assert_eq!(rt; kept, 5);
    assert_eq!(rt; read, 4);
}

static NAMES: [(&str, &str, usize); 12] = [
    (".0.", SEVENS, 1),
    (".0.", GREATER, 2),
    (".255.", SEVENS, 4),
    (".1.open", "", 8),
    (".01.", SEVENS, 16),
    (".256.", SEVENS, 32),
    ("..", SEVENS, 64),
    (".+2.", SEVENS, 128),
    ("", "", 256),
    ("_3.", SEVENS, 512),
    (".4_", SEVENS, 1024),
    (".5.", INDEX_TEXT, 2048),
];

// Makes a file of each name in the folder, and a folder with the name of a closed share.
pub(crate) fn fill(rt: &HostRuntime) -> Result<(), Fail> {
    for &(rest, end, size) in &NAMES {
        let name = file(rt, rest, end)?;
        let bytes = vec![in rt.alloc(); 0u8; size]?;
        fs::write(rt, name.as_str(), bytes.as_slice())?;
    }
    fs::create_dir(rt, file(rt, ".6.", SEVENS)?.as_str())?;
    Ok(())
}

static EMPTY: [Call; 1] = [Call::Used(0)];

static FILLED: [Call; 6] = [
    Call::Used(0),
    Call::Closed(INDEX, 0, 208),
    Call::Closed(INDEX, 255, 7),
    Call::Write(INDEX, 1, 8, b"\x03"),
    Call::Close(INDEX, 1, 7),
    Call::Read(INDEX, 1, 0, 9, b"\x03"),
];

// Other names and open files are ignored. Of two digests the one with the lower text counts.
#[test]
fn folder_ignores_other_names(rt: HostRuntime) -> Result<(), Fail> {
    remove(&rt)?;
    assert_eq!(rt; right_in_folder(&rt, &EMPTY)?, 1);
    fill(&rt)?;
    assert_eq!(rt; right_in_folder(&rt, &FILLED)?, 6);
    remove(&rt)?;
    Ok(())
}

static ONE_SHARE: [Call; 2] = [
    Call::Write(INDEX, 0, 0, b"\x01\x02"),
    Call::Close(INDEX, 0, 7),
];

// Whether a call of a folder's store fails, as the fault of this number.
fn fails(rt: &HostRuntime, store: &mut FolderStore<HostRuntime>, call: Call, number: u64) -> bool {
    gives(rt.alloc(), store, call) == Err(StoreError::StoreFault) && store.failures() == number
}

// Whether a read fails where the file at this path is gone, and where it is too short.
fn fails_to_read(
    rt: &HostRuntime,
    store: &mut FolderStore<HostRuntime>,
    closed: &str,
) -> io::Result<bool> {
    fs::remove_file(rt, closed)?;
    let gone = fails(rt, store, Call::Read(INDEX, 0, 0, 9, b"\x01\x02"), 1);
    fs::write(rt, closed, [1u8].as_slice())?;
    Ok(gone && fails(rt, store, Call::Read(INDEX, 0, 0, 9, b"\x01\x02"), 2))
}

// Whether no store is opened at a path that is no folder.
fn is_no_folder(rt: &HostRuntime, path: &str) -> bool {
    let outcome = FolderStore::open(rt, path, WRITING);
    matches!(&outcome, Err(StoreError::StoreFault))
}

// Whether a store whose shares are at this path puts one, and fails to read it then.
fn puts_and_fails(
    rt: &HostRuntime,
    store: &mut FolderStore<HostRuntime>,
    closed: &str,
) -> io::Result<bool> {
    let is_put = right_calls(rt.alloc(), store, &ONE_SHARE) == 2;
    Ok(is_put && fails_to_read(rt, store, closed)? && is_no_folder(rt, closed))
}

// A closed file that is gone, one that is too short, a path that is no folder, and a folder that is
// gone.
#[test]
fn folder_fails(rt: HostRuntime) -> Result<(), Fail> {
    remove(&rt)?;
    let closed = file(&rt, ".0.", SEVENS)?;
    let mut store = open(&rt)?;
    let reads = puts_and_fails(&rt, &mut store, closed.as_str())?;
    remove(&rt)?;
    let writes = fails(&rt, &mut store, Call::Write(INDEX, 1, 0, b"\x01"), 3);
    let closes = fails(&rt, &mut store, Call::Close(INDEX, 1, 7), 4);
    assert!(rt; reads && writes && closes);
    Ok(())
}

// Whether a name is written and read as that of a share with these digest bytes; none, where memory
// is out.
fn is_named(alloc: Global, number: u8, digest: u8, end: &str) -> Option<bool> {
    let key = (INDEX, number);
    let digest = [digest; 32];
    let written = ClosedName { key, digest }.text(alloc).ok()?;
    let wanted = format!(in alloc; "{INDEX_TEXT}.{number}.{end}").ok()?;
    Some(match ClosedName::read(wanted.as_bytes()) {
        Some(read) => read.key == key && read.digest == digest && written == wanted,
        None => false,
    })
}

#[test]
fn closed_names_are_read_as_written(rt: HostRuntime) {
    for number in [0u8, 9, 10, 99, 100, 255] {
        assert!(rt;
            is_named(rt.alloc(), number, 7, SEVENS) == Some(true),
            "{number}"
        );
        assert!(rt;
            is_named(rt.alloc(), number, 208, GREATER) == Some(true),
            "{number}"
        );
    }
}

// Whether a name with an index, what comes after it and an end is no closed share's.
fn is_other(alloc: Global, rest: &str, end: &str) -> Option<bool> {
    let name = format!(in alloc; "{INDEX_TEXT}{rest}{end}").ok()?;
    Some(ClosedName::read(name.as_bytes()).is_none())
}

// The names of the table but the first three, and a digest with a bit behind its last byte.
#[test]
fn other_names_are_not_read(rt: HostRuntime) {
    for &(rest, end, size) in &NAMES {
        assert!(rt; is_other(rt.alloc(), rest, end) == Some(size > 4), "{rest}");
    }
    let end = "a4dqobyha4dqobyha4dqobyha4dqobyha4dqobyha4dqobyha4dr";
    assert!(rt; is_other(rt.alloc(), ".3.", end) == Some(true));
}
