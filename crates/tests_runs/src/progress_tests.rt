//! The line on standard error that tells how far a command is.

use crate::host::{Odd, OddHost, Plan};
use crate::host_runs::{CAP_131074, Ended, HERE, begin, remove, run};
use grid_commands::{DiskFiles, grid};
use std::alloc::AllocError;
use std::io::{self, IsTerminal, Write};
use test_folders::{counted, path};

// Back to the line's beginning, and the line is cleared.
const CLEAR: &str = "\r\x1b[K";

// Runs a command where each look at the clock takes so many milliseconds, where standard error is a
// terminal or not.
fn run_slowly(
    rt: &HostRuntime,
    line: &str,
    step: u64,
    is_terminal: bool,
) -> Result<Ended, AllocError> {
    let mut plan = Plan::new(Odd::Nothing);
    plan.step = step;
    run(
        &OddHost {
            rt: *rt,
            plan: &plan,
        },
        line,
        is_terminal,
    )
}

fn put_line(rt: &HostRuntime) -> Result<String, AllocError> {
    let root = path(rt, "")?;
    format!(in rt.alloc(); "grid put {root}/file --grid {root}/grid")
}

fn cap_line(rt: &HostRuntime, command: &str, cap: &str) -> Result<String, AllocError> {
    let root = path(rt, "")?;
    format!(in rt.alloc(); "grid {command} {cap} --grid {root}/grid")
}

// How many lines were told that begin so, each below 80 columns, the last of them cleared. `None`
// where something else was told.
fn lines_told(told: &[u8], beginning: &str) -> Option<u64> {
    let text = str::from_utf8(told).ok()?;
    let mut count: u64 = 0;
    for (position, line) in text.split(CLEAR).enumerate() {
        if position != 0 && !line.is_empty() {
            count = count.saturating_add(1);
            if !line.starts_with(beginning) || 80 <= line.len() {
                return None;
            }
        }
    }
    if text.starts_with(CLEAR) && text.ends_with(CLEAR) {
        Some(count)
    } else {
        None
    }
}

// Whether some were.
fn are_lines(told: &[u8], beginning: &str) -> bool {
    lines_told(told, beginning).is_some_and(|count| 1 < count)
}

// Whether the command tells lines that begin so on a terminal where it takes long, and nothing
// where it does not or where there is no terminal; and the same result.
fn tells_lines(rt: &HostRuntime, line: &str, beginning: &str) -> Result<bool, AllocError> {
    let quick = run_slowly(rt, line, 1, true)?;
    let unseen = run_slowly(rt, line, 200, false)?;
    let slow = run_slowly(rt, line, 200, true)?;
    Ok(
        quick.equals(&unseen)
            && quick.status == 0
            && quick.err.as_slice().is_empty()
            && slow.status == 0
            && slow.out.as_slice() == quick.out.as_slice()
            && are_lines(slow.err.as_slice(), beginning),
    )
}

// A second `put` asks and hears too little to take long: each starts with a grid of its own.
fn put_tells(rt: &HostRuntime) -> io::Result<bool> {
    begin(rt, 131_074)?;
    let line = put_line(rt)?;
    let slow = run_slowly(rt, line.as_str(), 200, true)?;
    begin(rt, 131_074)?;
    let quick = run_slowly(rt, line.as_str(), 1, true)?;
    Ok(
        slow.status == 0
            && are_lines(slow.err.rest(), "put: ")
            && quick.err.rest().is_empty()
            && slow.out.as_slice() == quick.out.as_slice(),
    )
}

// The file of two segments is written by two calls, which a slow clock tells of both.
fn others_tell(rt: &HostRuntime) -> io::Result<bool> {
    let checked = tells_lines(rt, cap_line(rt, "check", CAP_131074)?.as_str(), "check: ")?;
    let got = run_slowly(rt, cap_line(rt, "get", CAP_131074)?.as_str(), 1000, true)?;
    Ok(
        checked
            && got.status == 0
            && got.out.len() == 131_074
            && are_lines(got.err.as_slice(), "get: "),
    )
}

#[test]
fn long_commands_tell_how_far_they_are(rt: HostRuntime) {
    let outcome = put_tells(&rt);
    assert!(rt; matches!(outcome, Ok(true)));
    let outcome = others_tell(&rt);
    assert!(rt; matches!(outcome, Ok(true)) && remove(&rt).is_ok());
}

// A put of two files tells how many of them are done, and how many bytes of all.
fn files_tell(rt: &HostRuntime) -> io::Result<bool> {
    begin(rt, 131_074)?;
    let root = path(rt, "")?;
    let line = format!(in rt.alloc(); "grid put {root}/file {root}/file --grid {root}/grid")?;
    let slow = run_slowly(rt, line.as_str(), 200, true)?;
    let told = slow.err.rest();
    let is_second = str::from_utf8(told).is_ok_and(|text| text.contains("put 1 of 2: 0 MB"));
    Ok(slow.status == 0 && is_second && are_lines(told, "put "))
}

#[test]
fn commands_of_many_files_tell_of_all(rt: HostRuntime) {
    let outcome = files_tell(&rt);
    assert!(rt; matches!(outcome, Ok(true)) && remove(&rt).is_ok());
}

// Whether a fault's line begins on a line that is cleared.
fn clears_before_a_fault(rt: &HostRuntime) -> io::Result<bool> {
    begin(rt, 131_074)?;
    let root = path(rt, "")?;
    let line = format!(in rt.alloc(); "grid put {root}/file --grid {root}/grid --servers 6")?;
    let told = run_slowly(rt, line.as_str(), 200, true)?;
    let fault = "\r\x1b[Kgrid: 70 Unhappy reached 6 wanted 7\n";
    Ok(
        told.status == 4
            && told.out.is_empty()
            && told.err.rest().ends_with(fault.as_bytes())
            && told.err.rest().starts_with(b"\r\x1b[Kput: "),
    )
}

#[test]
fn a_fault_stands_on_a_cleared_line(rt: HostRuntime) {
    let outcome = clears_before_a_fault(&rt);
    assert!(rt; matches!(outcome, Ok(true)) && remove(&rt).is_ok());
}

// Whether a check whose clock goes on by 14 milliseconds at each look tells a line after the first
// second at the earliest, and ten a second at most.
fn is_told_seldom(rt: &HostRuntime) -> io::Result<bool> {
    begin(rt, 131_074)?;
    let is_put = run_slowly(rt, put_line(rt)?.as_str(), 0, false)?.status == 0;
    let mut plan = Plan::new(Odd::Nothing);
    plan.step = 14;
    let host = OddHost {
        rt: *rt,
        plan: &plan,
    };
    let told = run(&host, cap_line(rt, "check", CAP_131074)?.as_str(), true)?;
    let after = plan.clock.get().saturating_sub(1000);
    let count = lines_told(told.err.as_slice(), "check: ");
    Ok(is_put && count.is_some_and(|count| 1 < count && count <= 1 + after / 100))
}

#[test]
fn lines_are_told_ten_times_a_second_at_most(rt: HostRuntime) {
    let outcome = is_told_seldom(&rt);
    assert!(rt; matches!(outcome, Ok(true)) && remove(&rt).is_ok());
}

// A terminal to which nothing can be written.
#[derive(Drop)]
struct DeadTerminal;

impl Write for DeadTerminal {
    fn write(&mut self, _buf: &[u8]) -> io::Result<usize> {
        Err(io::Error::from(io::ErrorKind::BrokenPipe))
    }

    fn flush(&mut self) -> io::Result<()> {
        Ok(())
    }
}

impl IsTerminal for DeadTerminal {
    fn is_terminal(&self) -> bool {
        true
    }
}

// The status of a command over such a terminal, where each look at the clock takes a second.
fn status_of(rt: &HostRuntime, words: &[&str], out: &mut Vec<u8>) -> u8 {
    let mut plan = Plan::new(Odd::Nothing);
    plan.step = 1000;
    let host = OddHost {
        rt: *rt,
        plan: &plan,
    };
    let mut files = DiskFiles::new(&host);
    let mut err = DeadTerminal;
    grid(&host, words, &HERE, &mut files, out, &mut err)
}

// Whether a `get` over it gives the file.
fn is_got(rt: &HostRuntime) -> Result<bool, AllocError> {
    let line = cap_line(rt, "get", CAP_131074)?;
    let words: Vec<&str> = line.split(' ').collect(rt.alloc())?;
    let mut out = Vec::new(rt.alloc());
    let status = status_of(rt, words.as_slice(), &mut out);
    Ok(status == 0 && out.as_slice() == counted(rt, 131_074)?.as_slice())
}

// Whether a `get` that takes long gives the file where its lines cannot be written.
fn gets_without_lines(rt: &HostRuntime) -> io::Result<bool> {
    begin(rt, 131_074)?;
    let is_put = run_slowly(rt, put_line(rt)?.as_str(), 0, false)?.status == 0;
    Ok(is_put && is_got(rt)?)
}

#[test]
fn a_fault_of_the_line_is_passed_over(rt: HostRuntime) {
    let outcome = gets_without_lines(&rt);
    assert!(rt; matches!(outcome, Ok(true)) && remove(&rt).is_ok());
}
