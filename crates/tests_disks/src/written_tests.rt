//! A file is written piece by piece on a disk that stops at each call in turn, and is found in each
//! state that a crash may leave.

use crate::crash_disk::CrashDisk;
use disks::whole::replace;
use disks::written::{begin, finish, give_up, write};
use std::alloc::Global;
use std::cell::RefCell;
use std::test::Fail;
use test_disks::Held;

const OLD: &[u8] = b"\x01\x02\x03";

const NEW: &[u8] = b"\x04\x05\x06\x07";

// Writes the file in two pieces, and tells whether that went well. One that does not get its name
// is given up.
fn is_written(alloc: Global, held: &RefCell<Held>) -> bool {
    let mut disk = CrashDisk { alloc, held };
    let Ok(mut file) = begin(&mut disk, "FILE.part") else {
        return false;
    };
    let (first, second) = NEW.split_at(1);
    for piece in [first, second] {
        if write(&mut disk, &mut file, piece).is_err() {
            let _ = give_up(&mut disk, "FILE.part");
            return false;
        }
    }
    finish(&mut disk, &file, 4, "FILE.part", "FILE").is_ok()
}

// Whether FILE has what it had or the new bytes, and the new ones where that is told, and the other
// file what it had.
fn is_right(left: &Held, is_told: bool) -> bool {
    let found = left.bytes("FILE");
    let is_old = found == Some(OLD) && !is_told;
    left.bytes("OTHER") == Some(OLD) && (found == Some(NEW) || is_old)
}

// In how many states after a crash that is so, and whether all calls went well.
fn crash_after(alloc: Global, stop: u64) -> Option<(u64, bool)> {
    let held = RefCell::new(Held::new(alloc, u64::MAX));
    let mut disk = CrashDisk { alloc, held: &held };
    replace(&mut disk, "FILE.part", "FILE", OLD).ok()?;
    replace(&mut disk, "OTHER.part", "OTHER", OLD).ok()?;
    held.try_borrow_mut().ok()?.stop_after(stop);
    let is_told = is_written(alloc, &held);
    let held = held.try_borrow().ok()?;
    for choice in 0..u64::MAX {
        let (left, rest) = held.after_crash(alloc, choice).ok()?;
        if rest != 0 {
            return Some((choice, held.is_done()));
        }
        if !is_right(&left, is_told) {
            return None;
        }
    }
    None
}

// Seven calls, and a crash before each of them and behind the last.
#[test]
fn a_written_file_comes_whole(rt: HostRuntime) -> Result<(), Fail> {
    let mut all = 0u64;
    for stop in 0..7 {
        let Some((states, is_done)) = crash_after(rt.alloc(), stop) else {
            assert!(rt; false, "{stop}");
            return Ok(());
        };
        assert!(rt; !is_done, "{stop}");
        all = all.saturating_add(states);
    }
    assert!(rt; crash_after(rt.alloc(), 7).is_some_and(|found| found.1));
    assert!(rt; all > 20, "{all}");
    Ok(())
}
