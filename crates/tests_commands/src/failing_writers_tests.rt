// The commands where a writer fails: the status tells it, and of standard output a line.

use crate::runs::{CAP_131074, HERE, begins_with_131074, cap_line, words_of};
use grid_commands::{DiskFiles, grid, refuse_words};
use std::alloc::AllocError;
use std::io;
use test_folders::{counted, removes_all};
use test_writers::Told;

// A writer that takes so many bytes, and then fails. It fails too where it is flushed with no room
// left.
#[derive(Drop)]
struct Short {
    left: usize,
    taken: Vec<u8>,
}

impl Short {
    fn new(rt: &HostRuntime, left: usize) -> Short {
        Short {
            left,
            taken: Vec::new(rt.alloc()),
        }
    }
}

impl io::Write for Short {
    fn write(&mut self, buf: &[u8]) -> io::Result<usize> {
        if self.left == 0 {
            return Err(io::Error::from(io::ErrorKind::BrokenPipe));
        }
        let count = buf.len().min(self.left);
        self.taken.extend_from_slice(&buf[..count])?;
        self.left -= count;
        Ok(count)
    }

    fn flush(&mut self) -> io::Result<()> {
        if self.left == 0 {
            return Err(io::Error::from(io::ErrorKind::BrokenPipe));
        }
        Ok(())
    }
}

impl io::IsTerminal for Short {
    fn is_terminal(&self) -> bool {
        false
    }
}

// What a standard output that fails is told by.
const OUTPUT_FAULT: &[u8] = b"grid: 99 OutputFault\n";

// Whether the words give this status with a standard output, or a standard error, that takes so
// many bytes, and write nothing to the other but the line of a standard output that fails.
fn ends_short(rt: &HostRuntime, words: &[&str], is_output: bool, left: usize, status: u8) -> bool {
    let mut other = Told::new(rt.alloc(), false);
    let mut short = Short::new(rt, left);
    let mut files = DiskFiles::new(rt);
    let ended = if is_output {
        grid(rt, words, &HERE, &mut files, &mut short, &mut other)
    } else {
        grid(rt, words, &HERE, &mut files, &mut other, &mut short)
    };
    let is_told = is_output && status == 7;
    let wanted = if is_told { OUTPUT_FAULT } else { &[] };
    ended == status && other.as_slice() == wanted
}

// The cap of 55 zero bytes.
const LIT_55: &str = "URI:LIT:\
    aaaaaaaaaaaaaaaaaaaaaaaaaaaaaaaaaaaaaaaaaaaaaaaaaaaaaaaaaaaaaaaaaaaaaaaaaaaaaaaaaaaaaaaa";

// Words, whether they write to standard output or else to standard error, how many bytes at least,
// and the status where those are taken.
static LINES: [(&[&str], bool, usize, u8); 3] = [
    (&["grid", "get", LIT_55, "--grid", "nowhere"], true, 55, 0),
    (&["grid", "cap", "URI:LIT:nbswy3dp"], true, 16, 0),
    (&["grid", "get", "URI:", "--grid", "nowhere"], false, 21, 3),
];

// Each write fails in turn, and the flush after the last; with one more byte of room none does.
#[test]
fn a_failed_writer_is_told_by_the_status(rt: HostRuntime) {
    for &(words, is_output, len, status) in &LINES {
        for left in 0..=len {
            assert!(rt; ends_short(&rt, words, is_output, left, 7), "{left}");
        }
        assert!(rt; ends_short(&rt, words, is_output, len + 1, status));
    }
    assert!(rt; ends_short(&rt, &["grid", "--help"], true, 100, 7));
    assert!(rt; ends_short(&rt, &["grid"], false, 100, 7));
}

// Whether `get` into a writer that takes so many bytes has status 7 and its line, and the writer a
// beginning of the file.
fn fails_after(rt: &HostRuntime, left: usize) -> Result<bool, AllocError> {
    let line = cap_line(rt, "get", CAP_131074)?;
    let words = words_of(rt, line.as_str())?;
    let mut out = Short::new(rt, left);
    let mut err = Told::new(rt.alloc(), false);
    let mut files = DiskFiles::new(rt);
    let status = grid(rt, words.as_slice(), &HERE, &mut files, &mut out, &mut err);
    let beginning = counted(rt, left)?;
    Ok(
        status == 7
            && err.as_slice() == OUTPUT_FAULT
            && out.taken.as_slice() == beginning.as_slice(),
    )
}

#[test]
fn a_beginning_is_written_before_a_writer_fails(rt: HostRuntime) {
    assert!(rt; begins_with_131074(&rt));
    for left in [0, 1, 131_072, 131_073] {
        assert!(rt; matches!(fails_after(&rt, left), Ok(true)), "{left}");
    }
    assert!(rt; removes_all(&rt));
}

// Whether a failure to read the words gives this status and text.
fn is_refused(rt: &HostRuntime, kind: io::ErrorKind, status: u8, beginning: &[u8]) -> bool {
    let mut told = Vec::new(rt.alloc());
    let ended = refuse_words(rt.alloc(), &io::Error::from(kind), &mut told);
    ended == status && told.as_slice().starts_with(beginning)
}

#[test]
fn words_that_are_no_words(rt: HostRuntime) {
    assert!(rt; is_refused(&rt, io::ErrorKind::InvalidData, 2, b"error: invalid UTF-8"));
    assert!(rt; is_refused(&rt, io::ErrorKind::OutOfMemory, 7, b"grid: 1 OutOfMemory\n"));
}
