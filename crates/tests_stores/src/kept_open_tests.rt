//! The files that a store over a folder keeps open, which other programs change meanwhile, and a
//! store that is opened for reading.

use crate::share_store_tests::{
    Call, INDEX, INDEX_TEXT, SEVENS, WRITING, file, fill, gives, open, open_file, open_for, path,
    remove, right_calls, share,
};
use share_folders::folder::{FolderStore, Purpose};
use share_folders::names::{OpenName, OwnToken};
use share_store::error::StoreError;
use share_store::store::Store;
use std::alloc::Global;
use std::fs;
use std::test::Fail;

// What another program does to the file of an open share, after three bytes were written to it.
#[derive(Clone, Copy)]
enum Change {
    Nothing,
    // It is emptied, as by `> FILE`.
    Empty,
    // One with the same bytes takes its place.
    Replace,
    Remove,
    // A byte is added.
    Extend,
}

static CHANGES: [(Change, bool); 5] = [
    (Change::Nothing, true),
    (Change::Empty, false),
    (Change::Replace, false),
    (Change::Remove, false),
    (Change::Extend, false),
];

fn make_change(rt: &HostRuntime, change: Change) -> Result<(), Fail> {
    let Some(path) = open_file(rt)? else {
        return Err(Fail::new("no open file"));
    };
    match change {
        Change::Nothing => {}
        Change::Empty => fs::write(rt, path.as_str(), b"".as_slice())?,
        Change::Replace => {
            fs::remove_file(rt, path.as_str())?;
            fs::write(rt, path.as_str(), b"\x01\x02\x03".as_slice())?;
        }
        Change::Remove => fs::remove_file(rt, path.as_str())?,
        Change::Extend => fs::write(rt, path.as_str(), b"\x01\x02\x03\x04".as_slice())?,
    }
    Ok(())
}

// Whether a share is closed, of which a part was written before the change and the rest after it,
// and what stands under its closed name then.
fn closes_after(rt: &HostRuntime, changed: Change) -> Result<(bool, bool), Fail> {
    remove(rt)?;
    let mut store = open(rt)?;
    let alloc = rt.alloc();
    gives(alloc, &mut store, Call::Write(INDEX, 3, 0, b"\x01\x02\x03"))?;
    make_change(rt, changed)?;
    gives(alloc, &mut store, Call::Write(INDEX, 3, 3, b"\x04\x05"))?;
    let is_closed = gives(alloc, &mut store, Call::Close(INDEX, 3, 7)) == Ok(true);
    let stands = fs::exists(rt, file(rt, ".3.", SEVENS)?.as_str())?;
    Ok((is_closed, stands))
}

// A share is closed only where its file has what was written to it, and nothing else stands at its
// path.
#[test]
fn changed_files_are_not_closed(rt: HostRuntime) -> Result<(), Fail> {
    for (changed, is_closed) in CHANGES {
        assert!(rt; closes_after(&rt, changed)? == (is_closed, is_closed));
    }
    remove(&rt)?;
    Ok(())
}

static ANEW: [Call; 7] = [
    Call::Write(INDEX, 3, 0, b"\x09\x09"),
    Call::Write(INDEX, 3, 0, b"\x01"),
    Call::Write(INDEX, 3, 1, b"\x02"),
    Call::Close(INDEX, 3, 7),
    Call::Read(INDEX, 3, 0, 9, b"\x01\x02"),
    Call::Close(INDEX, 4, 7),
    Call::Read(INDEX, 4, 0, 9, b""),
];

// A share that is begun anew has only what is written then. What others left of it stays.
#[test]
fn shares_begin_anew(rt: HostRuntime) -> Result<(), Fail> {
    remove(&rt)?;
    let mut store = open(&rt)?;
    let left = file(&rt, ".3.open", "")?;
    fs::write(&rt, left.as_str(), b"left".as_slice())?;
    let right = right_calls(rt.alloc(), &mut store, &ANEW);
    let stays = fs::read(&rt, left.as_str())?.as_slice() == b"left".as_slice();
    assert!(rt; right == 7 && stays && open_file(&rt)?.is_none());
    remove(&rt)?;
    Ok(())
}

// What is read part by part, forwards and backwards, and between two shares.
static PARTS: [Call; 7] = [
    Call::Read(INDEX, 255, 0, 2, b"\0\0"),
    Call::Read(INDEX, 255, 2, 9, b"\0\0"),
    Call::Read(INDEX, 255, 1, 1, b"\0"),
    Call::Read(INDEX, 0, 1, 1, b"\0"),
    Call::Read(INDEX, 255, 3, 1, b"\0"),
    Call::Read(INDEX, 255, 4, 1, b""),
    Call::Closed(INDEX, 0, 208),
];

// Of a store that is opened for reading, how many shares are listed.
fn listed(rt: &HostRuntime, store: &mut FolderStore<HostRuntime>) -> Result<usize, StoreError> {
    Ok(store.list(rt.alloc(), &INDEX)?.as_slice().len())
}

// Whether the shares are read, and the folder under the name of a share is passed over once all are
// listed.
fn reads_and_lists(
    rt: &HostRuntime,
    store: &mut FolderStore<HostRuntime>,
) -> Result<bool, StoreError> {
    for call in PARTS {
        if !gives(rt.alloc(), store, call)? {
            return Ok(false);
        }
    }
    let was_told = store.closed(&share(INDEX, 6)).is_some();
    let count = listed(rt, store)?;
    Ok(was_told && count == 2 && store.closed(&share(INDEX, 6)).is_none() && store.failures() == 0)
}

// Whether another store fails where it is to read that folder.
fn fails_at_the_folder(rt: &HostRuntime) -> Result<bool, StoreError> {
    let mut store = open_for(rt, Purpose::Reading)?;
    let read = gives(rt.alloc(), &mut store, Call::Read(INDEX, 6, 0, 9, b""));
    Ok(read == Err(StoreError::StoreFault) && store.failures() == 1)
}

// Whether a store is opened for reading alone, or not, and reads and lists.
fn is_opened(rt: &HostRuntime, purpose: Purpose, readonly: bool) -> Result<bool, StoreError> {
    let mut store = open_for(rt, purpose)?;
    Ok(store.is_readonly() == readonly && reads_and_lists(rt, &mut store)?)
}

// A store looks at no file before its share is asked for: then a folder under the name of a share
// is passed over. One that is opened for reading takes no shares.
#[test]
fn a_store_for_reading(rt: HostRuntime) -> Result<(), Fail> {
    remove(&rt)?;
    drop(open_for(&rt, Purpose::Reading)?);
    fill(&rt)?;
    assert!(rt; is_opened(&rt, Purpose::Reading, true)? && is_opened(&rt, WRITING, false)?);
    assert!(rt; fails_at_the_folder(&rt)?);
    remove(&rt)?;
    Ok(())
}

// Whether a store that is opened so writes and closes no share.
fn takes_none(rt: &HostRuntime, purpose: Purpose) -> Result<bool, Fail> {
    let mut store = open_for(rt, purpose)?;
    let writes = gives(rt.alloc(), &mut store, Call::Write(INDEX, 3, 0, b"\x01"));
    let closes = gives(rt.alloc(), &mut store, Call::Close(INDEX, 3, 7));
    let fault = Err(StoreError::StoreFault);
    Ok(store.is_readonly() && writes == fault && closes == fault)
}

// A store that takes no shares, since it was opened for reading or its folder is `readonly`, writes
// and closes none.
#[test]
fn stores_that_take_no_shares(rt: HostRuntime) -> Result<(), Fail> {
    remove(&rt)?;
    drop(open(&rt)?);
    assert!(rt; takes_none(&rt, Purpose::Reading)?);
    fs::write(&rt, path(&rt, "/readonly")?.as_str(), b"".as_slice())?;
    assert!(rt; takes_none(&rt, WRITING)?);
    assert!(rt; open_file(&rt)?.is_none());
    remove(&rt)?;
    Ok(())
}

// What comes after the index in a name, and what an open share that has it is named by.
static OPEN_NAMES: [(&str, Option<(u8, Option<OwnToken>)>); 16] = [
    (".0.open", Some((0, None))),
    (".255.open", Some((255, None))),
    (".0.aaaqeayeaudaocajbifqydiob4.open", Some((0, Some(INDEX)))),
    (
        ".255.aaaqeayeaudaocajbifqydiob4.open",
        Some((255, Some(INDEX))),
    ),
    (
        ".7.77777777777777777777777774.open",
        Some((7, Some([255; 16]))),
    ),
    (".256.open", None),
    (".01.open", None),
    (".1.opem", None),
    (".1.open.damaged", None),
    ("_1.open", None),
    ("", None),
    (".256.aaaqeayeaudaocajbifqydiob4.open", None),
    (".7.aaaqeayeaudaocajbifqydiob5.open", None),
    (".7.AAAQEAYEAUDAOCAJBIFQYDIOB4.open", None),
    (".7.aaaqeayeaudaocajbifqydiob4", None),
    (".7.aaaqeayeaudaocajbifqydiob4.open.open", None),
];

// Whether a name of these is read as it is to be, and written so.
fn is_read(
    alloc: Global,
    rest: &str,
    wanted: Option<(u8, Option<OwnToken>)>,
) -> Result<bool, StoreError> {
    let name = format!(in alloc; "{INDEX_TEXT}{rest}")?;
    let (Some(read), Some((number, own))) = (OpenName::read(name.as_bytes()), wanted) else {
        return Ok(OpenName::read(name.as_bytes()).is_none() && wanted.is_none());
    };
    Ok(read.key == (INDEX, number) && read.own == own && read.text(alloc)? == name)
}

#[test]
fn open_names_are_read(rt: HostRuntime) -> Result<(), Fail> {
    for (rest, wanted) in OPEN_NAMES {
        assert!(rt; is_read(rt.alloc(), rest, wanted)?, "{rest}");
    }
    Ok(())
}
