// The commands where memory is refused, at each allocation in turn, as whoever runs the tests has
// it: each ends well with its whole result, or tells that and nothing else, but that a `get` has
// written a beginning of the file by then.

use crate::runs::{
    HERE, ONES, ZEROS_CAP, ZEROS_PUT, begins_with_zeros, cap_line, makes_file, put_line, words_of,
};
use grid_commands::{DiskFiles, grid};
use test_folders::removes_all;
use test_writers::Told;

// Whether the words of a line end well and write this, or tell that memory was refused and write
// nothing else but, of a `get`, a beginning. Their writers have their room before.
fn gives_or_is_refused(rt: &HostRuntime, line: &str, wanted: &[u8]) -> bool {
    let (Ok(words), Ok(mut out), Ok(mut err)) = (
        words_of(rt, line),
        Vec::with_capacity(rt.alloc(), 1000),
        Told::with_capacity(rt.alloc(), 1000),
    ) else {
        return true;
    };
    let mut files = DiskFiles::new(rt);
    match grid(rt, words.as_slice(), &HERE, &mut files, &mut out, &mut err) {
        0 => out.as_slice() == wanted && err.rest().is_empty(),
        7 => {
            let is_begun = line.starts_with("grid get ") && wanted.starts_with(out.as_slice());
            (out.is_empty() || is_begun) && err.rest() == b"grid: 1 OutOfMemory\n".as_slice()
        }
        _ => false,
    }
}

#[test]
fn refused_memory_in_put(rt: HostRuntime) {
    if makes_file(&rt, &[0; 56]) {
        if let Ok(line) = put_line(&rt, ONES) {
            assert!(rt; gives_or_is_refused(&rt, line.as_str(), ZEROS_PUT.as_bytes()));
        }
    }
    let _is_removed = removes_all(&rt);
}

// Whether a command on the cap of 56 zero bytes does so.
fn reads_or_is_refused(rt: &HostRuntime, command: &str, wanted: &[u8]) -> bool {
    if !begins_with_zeros(rt) {
        return true;
    }
    match cap_line(rt, command, ZEROS_CAP) {
        Ok(line) => gives_or_is_refused(rt, line.as_str(), wanted),
        Err(_) => true,
    }
}

#[test]
fn refused_memory_in_get(rt: HostRuntime) {
    assert!(rt; reads_or_is_refused(&rt, "get", &[0; 56]));
    let _is_removed = removes_all(&rt);
}

#[test]
fn refused_memory_in_check(rt: HostRuntime) {
    let wanted = b"server-000 0 good\nhealthy yes recoverable yes happiness 1\n";
    assert!(rt; reads_or_is_refused(&rt, "check", wanted));
    let _is_removed = removes_all(&rt);
}
