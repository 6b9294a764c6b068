// The commands, over a file system of the tests' own in which one call on a file or folder fails,
// each in turn.
//
// The failed call is told as a file fault, or its share counts as missing, or it changes nothing:
// never does another answer come, or a part of one. Files are read and written in short pieces, so
// that calls fail in mid-stream too.

use crate::failing_files::{Calls, FailingFiles};
use crate::runs::{
    CAP_56, CLOSED, HERE, ONES, ZEROS_CAP, ZEROS_PUT, begins_with_56, begins_with_zeros, cap_line,
    has_share, makes_file, put_line, puts_zeros, words_of, zeros_come,
};
use grid_commands::{DiskFiles, Locks, grid};
use std::net::Net;
use std::random::RandomSource;
use std::rt::{Clock, Files};
use std::test::Fail;
use std::{fs, io, str};
use test_folders::{counted, path, removes_all};
use test_writers::Told;

// How a run of a command ended.
#[derive(Clone, Copy, PartialEq, Eq)]
enum Ending {
    // The whole answer, as without a failed call.
    Whole,
    // A file fault, and nothing else.
    FileFault,
    // No server that keeps the share, and nothing else.
    Unhappy,
    // Too few shares, and nothing else.
    NotEnoughShares,
    Other,
}

// The ending that a status, standard output and standard error tell, where this is the whole
// answer.
fn told_ending(status: u8, out: &[u8], err: &[u8], whole: &[u8]) -> Ending {
    match status {
        0 if out == whole && err.is_empty() => Ending::Whole,
        4 if out.is_empty() && err == b"grid: 70 Unhappy reached 0 wanted 1\n".as_slice() => {
            Ending::Unhappy
        }
        5 if out.is_empty() && err == b"grid: 71 NotEnoughShares\n".as_slice() => {
            Ending::NotEnoughShares
        }
        7 if out.is_empty() && is_file_fault(err) => Ending::FileFault,
        _ => Ending::Other,
    }
}

// Whether these are the two lines of a file fault: the path with the reason, and the refusal.
pub(crate) fn is_file_fault(err: &[u8]) -> bool {
    match str::from_utf8(err) {
        Ok(text) => {
            text.starts_with('/')
                && text.contains("\ngrid: 90 FileFault /")
                && text.ends_with('\n')
                && text.lines().count() == 2
        }
        Err(_) => false,
    }
}

// The status of a command over such files.
pub(crate) fn status_of<R>(files: &R, words: &[&str], out: &mut Vec<u8>, err: &mut Told) -> u8
where
    R: Files + io::Input + Net + Clock + RandomSource + Locks + AllocGlobal + Clone + Drop,
{
    let mut named = DiskFiles::new(files);
    grid(files, words, &HERE, &mut named, out, err)
}

// How the words of a line end where the call after so many fails.
fn ending_of(rt: &HostRuntime, calls: &Calls, left: u64, line: &str, whole: &[u8]) -> Ending {
    let Ok(words) = words_of(rt, line) else {
        return Ending::Other;
    };
    calls.left.set(left);
    let files = FailingFiles { rt: *rt, calls };
    let mut out = Vec::new(rt.alloc());
    let mut err = Told::new(rt.alloc(), false);
    let status = status_of(&files, words.as_slice(), &mut out, &mut err);
    told_ending(status, &out, err.rest(), whole)
}

// How `put` of 56 zero bytes ends so.
fn put_ending(rt: &HostRuntime, calls: &Calls, left: u64) -> Ending {
    match put_line(rt, ONES) {
        Ok(line) if makes_file(rt, &[0; 56]) => {
            ending_of(rt, calls, left, line.as_str(), ZEROS_PUT.as_bytes())
        }
        _ => Ending::Other,
    }
}

// How `get` of a cap, whose file has these bytes, ends so.
fn get_ending(rt: &HostRuntime, calls: &Calls, left: u64, cap: &str, file: &[u8]) -> Ending {
    match cap_line(rt, "get", cap) {
        Ok(line) => ending_of(rt, calls, left, line.as_str(), file),
        Err(_) => Ending::Other,
    }
}

// Whether `put` goes well where no call fails.
fn puts_again(rt: &HostRuntime) -> bool {
    puts_zeros(rt) && has_share(rt, CLOSED, true)
}

// Whether `put` may end so: a fault of its file or of its server leaves no closed share, or a whole
// one whose name may not be on the disk, and nothing in the way of a second try.
fn is_put_ending(rt: &HostRuntime, ending: Ending) -> bool {
    match ending {
        Ending::Whole => has_share(rt, CLOSED, true),
        Ending::FileFault => has_share(rt, CLOSED, false) && puts_again(rt),
        Ending::Unhappy => (has_share(rt, CLOSED, false) || zeros_come(rt)) && puts_again(rt),
        _ => false,
    }
}

// More calls than `put` makes here: in the last run none fails.
const PUT_CALLS: u64 = 60;

#[test]
fn put_tells_each_failed_call(rt: HostRuntime) {
    let calls = Calls::new();
    let (mut has_fault, mut was_silent, mut is_whole) = (false, false, false);
    for left in 0..PUT_CALLS {
        let ending = put_ending(&rt, &calls, left);
        assert!(rt; is_put_ending(&rt, ending), "{left}");
        has_fault |= ending == Ending::FileFault;
        was_silent |= ending == Ending::Unhappy;
        is_whole = ending == Ending::Whole;
    }
    assert!(rt; has_fault && was_silent && is_whole && calls.left.get() < PUT_CALLS);
    assert!(rt; calls.has_cut_read.get() && calls.has_cut_write.get() && removes_all(&rt));
}

// More calls than `get` makes here on the grid's folder, those of 256 servers and the share's file.
const GET_CALLS: u64 = 340;

#[test]
fn get_gives_the_whole_file_or_none(rt: HostRuntime) {
    assert!(rt; begins_with_zeros(&rt));
    let calls = Calls::new();
    let (mut has_fault, mut has_missed, mut is_whole) = (false, false, false);
    for left in 0..GET_CALLS {
        let ending = get_ending(&rt, &calls, left, ZEROS_CAP, &[0; 56]);
        assert!(rt; ending != Ending::Other && zeros_come(&rt), "{left}");
        has_fault |= ending == Ending::FileFault;
        has_missed |= ending == Ending::NotEnoughShares;
        is_whole = ending == Ending::Whole;
    }
    assert!(rt; has_fault && has_missed && is_whole && calls.has_cut_read.get());
    assert!(rt; removes_all(&rt));
}

// How `get` of the cap of 56 zero bytes to a file ends so.
fn output_ending(rt: &HostRuntime, calls: &Calls, left: u64, output: &str) -> Ending {
    let Ok(line) = cap_line(rt, "get", ZEROS_CAP) else {
        return Ending::Other;
    };
    match format!(in rt.alloc(); "{line} -o {output}") {
        Ok(line) => ending_of(rt, calls, left, line.as_str(), &[]),
        Err(_) => Ending::Other,
    }
}

// More calls than `get` makes so.
const OUTPUT_CALLS: u64 = GET_CALLS + 20;

// The file that stood there stays as it was, or the whole one stands there.
#[test]
fn get_replaces_a_file_or_leaves_it(rt: HostRuntime) -> Result<(), Fail> {
    assert!(rt; begins_with_zeros(&rt));
    let (output, part) = (path(&rt, "/out")?, path(&rt, "/out.part")?);
    let calls = Calls::new();
    let (mut has_fault, mut has_missed, mut is_whole) = (false, false, false);
    for left in 0..OUTPUT_CALLS {
        fs::write(&rt, output.as_str(), "an old one")?;
        let ending = output_ending(&rt, &calls, left, output.as_str());
        let found = fs::read(&rt, output.as_str())?;
        let is_old = found.as_slice() == b"an old one".as_slice();
        is_whole = ending == Ending::Whole;
        assert!(rt; ending != Ending::Other && !(is_whole && is_old), "{left}");
        assert!(rt; is_old || found.as_slice() == [0; 56].as_slice(), "{left}");
        has_fault |= ending == Ending::FileFault;
        has_missed |= ending == Ending::NotEnoughShares;
        let _ = fs::remove_file(&rt, part.as_str());
    }
    assert!(rt; has_fault && has_missed && is_whole && calls.has_cut_write.get());
    assert!(rt; removes_all(&rt));
    Ok(())
}

// More calls than `get` makes of a file at 3 of 10, over 7.
const SEVENTHS_OF_TEN: u64 = 100;

// Where others hold enough shares, a failed call costs one server at most: the file comes, or the
// fault is one of the grid's folder. Each seventh call fails in turn.
#[test]
fn get_goes_on_without_a_failed_server(rt: HostRuntime) {
    assert!(rt; begins_with_56(&rt));
    let file = counted(&rt, 56).unwrap_or(Vec::new(rt.alloc()));
    let calls = Calls::new();
    let mut is_whole = false;
    for turn in 0..SEVENTHS_OF_TEN {
        let ending = get_ending(&rt, &calls, 7 * turn, CAP_56, &file);
        is_whole = ending == Ending::Whole;
        assert!(rt;
            is_whole || ending == Ending::FileFault && turn == 0,
            "{turn}"
        );
    }
    assert!(rt; is_whole && calls.left.get() < 7 * SEVENTHS_OF_TEN && calls.has_cut_read.get());
    assert!(rt; removes_all(&rt));
}
