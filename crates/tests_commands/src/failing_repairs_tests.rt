// Repairs in which one call on a file or folder fails, or a share changes at one, each in turn.
//
// What is read of a share counts only where it leads to the cap, so another share takes the place
// of one that fails or changes, also between two readings of it.

use crate::failing_files::{CHANGED, Calls, FailingFiles};
use crate::failing_files_tests::{is_file_fault, status_of};
use crate::runs::{CAP_56, begins_with_56, cap_line, words_of};
use std::alloc::AllocError;
use std::test::Fail;
use std::{fs, io};
use test_folders::{holds, path, removes_all, writes};
use test_writers::Told;

// The folder of the last server, and its share, which is missing.
const LAST: &str = "/grid/server-009";

const MISSING: &str = "/grid/server-009/btqtqeoqjcl3aeqkqmueqgjgiy.6.\
    tcew23l5lacinsouseszla3wkich6k6ry62mhenbnhpccloxtuua";

// The status of a repair, and what it wrote and told.
#[derive(Drop)]
struct Repaired {
    status: u8,
    out: Vec<u8>,
    err: Told,
}

// Repairs the file of 56 bytes, and the call after so many is the one.
fn repair(rt: &HostRuntime, calls: &Calls, left: u64) -> Result<Repaired, AllocError> {
    let line = cap_line(rt, "repair", CAP_56)?;
    let words = words_of(rt, line.as_str())?;
    calls.left.set(left);
    let files = FailingFiles { rt: *rt, calls };
    let mut out = Vec::new(rt.alloc());
    let mut err = Told::new(rt.alloc(), false);
    let status = status_of(&files, words.as_slice(), &mut out, &mut err);
    Ok(Repaired { status, out, err })
}

// Whether it wrote this line, and told nothing.
fn gave(repaired: &Repaired, line: &[u8]) -> bool {
    repaired.status == 0 && repaired.out.as_slice() == line && repaired.err.rest().is_empty()
}

// Whether all ten servers have a share of their own.
fn is_whole(repaired: &Repaired) -> bool {
    gave(repaired, b"happiness 10\n")
}

// Whether all but one have.
fn is_nearly_whole(repaired: &Repaired) -> bool {
    gave(repaired, b"happiness 9\n")
}

// Whether a server was left out, since a share there could not be looked at, which is told.
fn leaves_one_out(repaired: &Repaired) -> bool {
    repaired.status == 5
        && repaired.out.as_slice() == b"happiness 9\n".as_slice()
        && !repaired.err.rest().is_empty()
}

// Whether it ended with a file fault, and nothing else.
fn has_fault(repaired: &Repaired) -> bool {
    repaired.status == 7 && repaired.out.is_empty() && is_file_fault(repaired.err.rest())
}

// The last server's folder is as that of a server that lost its share.
fn lose_share(rt: &HostRuntime) -> Result<(), Fail> {
    let folder = path(rt, LAST)?;
    fs::remove_dir_all(rt, folder.as_str())?;
    fs::create_dir(rt, folder.as_str())?;
    Ok(())
}

// More calls than such a repair makes, over 11.
const ELEVENTHS: u64 = 200;

// What the share that is missing and the one that changes had.
#[derive(Drop)]
struct Shares {
    lost: Vec<u8>,
    good: Vec<u8>,
}

impl Shares {
    fn read(rt: &HostRuntime) -> Result<Shares, Fail> {
        let lost = fs::read(rt, path(rt, MISSING)?.as_str())?;
        let good = fs::read(rt, path(rt, CHANGED)?.as_str())?;
        Ok(Shares { lost, good })
    }

    // Whether the missing one has what it had.
    fn is_made(&self, rt: &HostRuntime) -> io::Result<bool> {
        holds(rt, MISSING, self.lost.as_slice())
    }

    // Whether the other one has.
    fn is_good(&self, rt: &HostRuntime) -> io::Result<bool> {
        holds(rt, CHANGED, self.good.as_slice())
    }

    // Whether a repair in which the other one changes makes the missing one as it was.
    fn is_made_by_others(&self, rt: &HostRuntime, calls: &Calls, left: u64) -> Result<bool, Fail> {
        lose_share(rt)?;
        writes(rt, CHANGED, self.good.as_slice())?;
        let repaired = repair(rt, calls, left)?;
        Ok(is_whole(&repaired) && self.is_made(rt)?)
    }

    // How a repair ends in which a call fails.
    fn ending(&self, rt: &HostRuntime, calls: &Calls, left: u64) -> Result<Ending, Fail> {
        lose_share(rt)?;
        let ending = ending_of(&repair(rt, calls, left)?);
        if ending == Ending::Whole && !self.is_made(rt)? {
            return Ok(Ending::Other);
        }
        Ok(ending)
    }
}

// A share that was good changes: the missing one is made as it was, of others.
#[test]
fn a_share_that_changes_is_read_no_more(rt: HostRuntime) -> Result<(), Fail> {
    assert!(rt; begins_with_56(&rt));
    let shares = Shares::read(&rt)?;
    let calls = Calls::changing(rt);
    for turn in 0..ELEVENTHS {
        assert!(rt; shares.is_made_by_others(&rt, &calls, 11 * turn)?, "{turn}");
    }
    assert!(rt; shares.is_good(&rt)? && calls.left.get() < 11 * ELEVENTHS);
    assert!(rt; removes_all(&rt));
    Ok(())
}

// How a repair ended.
#[derive(Clone, Copy, PartialEq, Eq)]
enum Ending {
    Whole,
    // A server was left out, which may be told.
    NearlyWhole,
    Fault,
    Other,
}

fn ending_of(repaired: &Repaired) -> Ending {
    if is_whole(repaired) {
        Ending::Whole
    } else if is_nearly_whole(repaired) || leaves_one_out(repaired) {
        Ending::NearlyWhole
    } else if has_fault(repaired) {
        Ending::Fault
    } else {
        Ending::Other
    }
}

// A call that fails costs one server at most, but for one on the grid's folder.
#[test]
fn a_repair_goes_on_without_a_failed_server(rt: HostRuntime) -> Result<(), Fail> {
    assert!(rt; begins_with_56(&rt));
    let shares = Shares::read(&rt)?;
    let (calls, mut last, mut faults) = (Calls::new(), Ending::Other, 0u64);
    for turn in 0..ELEVENTHS {
        last = shares.ending(&rt, &calls, 11 * turn)?;
        assert!(rt; last != Ending::Other, "{turn}");
        if last == Ending::Fault {
            faults = faults.saturating_add(1);
        }
    }
    assert!(rt; last == Ending::Whole && calls.left.get() < 11 * ELEVENTHS);
    assert!(rt; 0 < faults && faults < ELEVENTHS / 10, "{faults}");
    assert!(rt; removes_all(&rt));
    Ok(())
}
