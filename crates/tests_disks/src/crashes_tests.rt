//! Shares are put on a disk that stops at each call in turn, and is found in each state that a
//! crash may leave.

use crate::crash_disk::CrashDisk;
use disks::own::{begin, discard};
use folder_keeping::opening::open;
use folder_keeping::store::KeptFolder;
use share_folders::disk::Durability;
use share_folders::names::OpenName;
use share_store::store::Store;
use std::alloc::Global;
use std::cell::RefCell;
use std::test::Fail;
use test_disks::Held;
use wire::message::{ReadLength, ShareId};

// A share's number, the byte of its digest, and its bytes. The first is put once more at last.
static SHARES: [(u8, u8, &[u8]); 2] = [(3, 7, b"\x01\x02\x03"), (4, 8, b"\x04\x05")];

fn id_of(number: u8) -> ShareId {
    ShareId {
        index: [1; 16],
        share: number,
    }
}

// A store over a disk. One that takes shares has this byte in the names of the open ones' files.
fn opened(
    alloc: Global,
    held: &RefCell<Held>,
    own: Option<u8>,
) -> Option<KeptFolder<CrashDisk<'_>>> {
    let disk = CrashDisk { alloc, held };
    let opening = match own {
        Some(byte) => open(alloc, disk, Some([byte; 16]), Durability::Synced),
        None => open(alloc, disk, None, Durability::Unsynced),
    };
    match opening {
        Ok(opening) => Some(opening.store),
        Err(_) => None,
    }
}

// Puts a share by a store, and tells whether it was acknowledged.
fn is_put(store: &mut KeptFolder<CrashDisk<'_>>, share: (u8, u8, &[u8])) -> bool {
    let (number, digest, bytes) = share;
    let id = id_of(number);
    if store.closed(&id).is_some() || store.write(&id, 0, bytes).is_err() {
        return false;
    }
    match store.closed(&id) {
        None => store.close(&id, &[digest; 32]).is_ok(),
        Some(_) => false,
    }
}

// Begins the file of an open share and removes it.
fn begin_and_remove(alloc: Global, held: &RefCell<Held>) {
    let named = OpenName {
        key: ([1; 16], 5),
        own: Some([9; 16]),
    };
    let Ok(name) = named.text(alloc) else {
        return;
    };
    let mut disk = CrashDisk { alloc, held };
    if begin(&mut disk, name.as_str()).is_ok() {
        let _ = discard(&mut disk, name.as_str());
    }
}

// Whether a share is read whole and listed, or is not there where it was not acknowledged.
fn is_kept(
    alloc: Global,
    store: &mut KeptFolder<CrashDisk<'_>>,
    share: (u8, u8, &[u8]),
    acknowledged: bool,
) -> bool {
    let (number, digest, bytes) = share;
    let (Some(count), Ok(listed)) = (ReadLength::new(9), store.list(alloc, &[1; 16])) else {
        return false;
    };
    let is_listed = listed.as_slice().iter().any(|held| {
        held.share == number && held.digest == [digest; 32]
    });
    match store.read(alloc, &id_of(number), 0, count) {
        Ok(read) => is_listed && read.as_slice() == bytes,
        Err(_) => !is_listed && !acknowledged,
    }
}

// In how many states after a crash the shares are kept; none, where they are not in one of them.
fn kept_states(alloc: Global, held: &Held, acknowledged: [bool; 2]) -> Option<u64> {
    for choice in 0..u64::MAX {
        let (left, rest) = held.after_crash(alloc, choice).ok()?;
        if rest != 0 {
            return Some(choice);
        }
        let left = RefCell::new(left);
        let mut store = opened(alloc, &left, None)?;
        if !is_kept(alloc, &mut store, SHARES[0], acknowledged[0])
            || !is_kept(alloc, &mut store, SHARES[1], acknowledged[1])
        {
            return None;
        }
    }
    None
}

// What becomes of the shares where so many calls go well: in how many states they are kept, and
// whether all calls went well. Three stores are opened before the first share is put.
fn crash_after(alloc: Global, stop: u64) -> Option<(u64, bool)> {
    let held = RefCell::new(Held::new(alloc, u64::MAX));
    let mut first = opened(alloc, &held, Some(1))?;
    let mut second = opened(alloc, &held, Some(2))?;
    let mut third = opened(alloc, &held, Some(3))?;
    held.try_borrow_mut().ok()?.stop_after(stop);
    let acknowledged = [
        is_put(&mut first, SHARES[0]),
        is_put(&mut second, SHARES[1]),
    ];
    begin_and_remove(alloc, &held);
    is_put(&mut third, SHARES[0]);
    let held = held.try_borrow().ok()?;
    let states = kept_states(alloc, &held, acknowledged)?;
    Some((states, held.is_done()))
}

// Twenty calls, and a crash before each of them and behind the last.
#[test]
fn crashes_lose_nothing(rt: HostRuntime) -> Result<(), Fail> {
    let mut all = 0u64;
    for stop in 0..20 {
        let Some((states, is_done)) = crash_after(rt.alloc(), stop) else {
            assert!(rt; false, "{stop}");
            return Ok(());
        };
        assert!(rt; !is_done, "{stop}");
        all = all.saturating_add(states);
    }
    assert!(rt; crash_after(rt.alloc(), 20).is_some_and(|found| found.1));
    assert!(rt; all > 60, "{all}");
    Ok(())
}
