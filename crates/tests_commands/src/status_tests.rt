//! `grid status`: what a grid's folders hold, by the names of their files, and which servers do not
//! stand.

use crate::runs::{CLOSED, HERE, begins_with_zeros, words_of};
use grid_commands::{DiskFiles, grid};
use std::alloc::AllocError;
use std::fs;
use std::test::Fail;
use test_folders::{path, removes_all};
use test_writers::Told;

// What a command wrote, and its status.
#[derive(Drop)]
struct Ended {
    status: u8,
    out: Vec<u8>,
    err: Told,
}

impl Ended {
    // Whether it ended so.
    fn is(&self, status: u8, out: &str, err: &str) -> bool {
        self.status == status
            && self.out.as_slice() == out.as_bytes()
            && self.err.rest() == err.as_bytes()
    }
}

// A command of `grid` on this process's grid, with these options.
fn run(rt: &HostRuntime, command: &str, options: &str) -> Result<Ended, AllocError> {
    let line = format!(in rt.alloc(); "grid {command}{options}")?;
    let words = words_of(rt, line.as_str())?;
    let mut out = Vec::new(rt.alloc());
    let mut err = Told::new(rt.alloc(), false);
    let mut files = DiskFiles::new(rt);
    let status = grid(rt, words.as_slice(), &HERE, &mut files, &mut out, &mut err);
    Ok(Ended { status, out, err })
}

// `status` of this process's grid, with these options.
fn status(rt: &HostRuntime, options: &str) -> Result<Ended, AllocError> {
    let place = path(rt, "/grid")?;
    let command = format!(in rt.alloc(); "status --grid {place}")?;
    run(rt, command.as_str(), options)
}

// Makes a grid of four servers, of which the last is served elsewhere.
fn begins(rt: &HostRuntime) -> Result<bool, AllocError> {
    let place = path(rt, "/grid")?;
    let command = format!(in rt.alloc(); "init {place} --servers 4 --server 3=unix:/run/\"x.sock")?;
    Ok(removes_all(rt) && run(rt, command.as_str(), " --k 1 --n 2 --happy 2")?.status == 0)
}

// Writes bytes to a file in the first server's folder.
fn writes(rt: &HostRuntime, name: &str, bytes: &str) -> Result<bool, AllocError> {
    let rest = format!(in rt.alloc(); "/grid/server-000/{name}")?;
    let file = path(rt, rest.as_str())?;
    Ok(fs::write(rt, file.as_str(), bytes).is_ok())
}

// The names of files, as those of shares, and their texts: two closed ones, one that is on its way
// to be set aside, one that was set aside, two open ones, and one of no share. Together the closed
// ones and the one on its way have 15 bytes.
static FILES: [(&str, &str); 7] = [
    (CLOSED, "four"),
    (
        "w3hm5rcm33g237wuaijiuuup7q.1.aaaaaaaaaaaaaaaaaaaaaaaaaaaaaaaaaaaaaaaaaaaaaaaaaaaa",
        "fives",
    ),
    (
        "w3hm5rcm33g237wuaijiuuup7q.0.jtekwrxuxx27zctnem7ska6zjwudmdyta5yamq5667dqfdotpzra\
        .aaaaaaaaaaaaaaaaaaaaaaaaaa.aside",
        "sixsix",
    ),
    (
        "w3hm5rcm33g237wuaijiuuup7q.0.jtekwrxuxx27zctnem7ska6zjwudmdyta5yamq5667dqfdotpzra\
        .damaged",
        "seven",
    ),
    (
        "w3hm5rcm33g237wuaijiuuup7q.2.aaaaaaaaaaaaaaaaaaaaaaaaaa.open",
        "",
    ),
    ("w3hm5rcm33g237wuaijiuuup7q.3.open", "more"),
    ("notes", "of the user's own"),
];

// Writes those files.
fn fills(rt: &HostRuntime) -> Result<bool, AllocError> {
    for (name, text) in FILES {
        if !writes(rt, name, text)? {
            return Ok(false);
        }
    }
    Ok(true)
}

// Takes the mark of the third server away.
fn unmarks(rt: &HostRuntime) -> Result<bool, AllocError> {
    let mark = path(rt, "/grid/server-002/grid-mark")?;
    Ok(fs::remove_file(rt, mark.as_str()).is_ok())
}

// The text of the grid's mark.
fn mark(rt: &HostRuntime) -> Result<String, AllocError> {
    let file = path(rt, "/grid/grid-mark")?;
    match fs::read_to_string(rt, file.as_str()) {
        Ok(text) => Ok(text),
        Err(_) => String::from_str(rt.alloc(), "no mark"),
    }
}

// The lines of that grid.
fn lines(rt: &HostRuntime) -> Result<String, AllocError> {
    let mark = mark(rt)?;
    format!(in rt.alloc();
        "{mark}ways k 1 n 2 happy 2 segment 131072\n\
server-000 shares 2 bytes 15 open 2 damaged 2\n\
server-001 shares 0 bytes 0 open 0 damaged 0\n\
server-002 no-mark\n\
server-003 elsewhere unix:/run/\"x.sock\n\
servers 2 of 4 elsewhere 1 shares 2 bytes 15 open 2 damaged 2\n"
    )
}

// Its object.
fn object(rt: &HostRuntime) -> Result<String, AllocError> {
    let mark = mark(rt)?;
    let identity = mark.as_str().split(' ').nth(1).unwrap_or("none");
    format!(in rt.alloc();
        "{{\"grid\":\"{identity}\",\
\"ways\":{{\"k\":1,\"n\":2,\"happy\":2,\"segment\":131072}},\"servers\":[\
{{\"server\":\"server-000\",\"shares\":2,\"bytes\":15,\"open\":2,\"damaged\":2}},\
{{\"server\":\"server-001\",\"shares\":0,\"bytes\":0,\"open\":0,\"damaged\":0}},\
{{\"server\":\"server-002\",\"verdict\":\"no-mark\"}},\
{{\"server\":\"server-003\",\"elsewhere\":\"unix:/run/\\\"x.sock\"}}],\
\"standing\":2,\"elsewhere\":1,\"shares\":2,\"bytes\":15,\"open\":2,\"damaged\":2}}\n"
    )
}

// With `-v`, why a server does not stand.
fn note(rt: &HostRuntime) -> Result<String, AllocError> {
    let folder = path(rt, "/grid/server-002")?;
    format!(in rt.alloc(); "server-002 no-mark: it has no mark of this grid ({folder})\n")
}

// Files are counted by their names, in a grid of which one server has lost its mark, and one is
// served elsewhere.
#[test]
fn files_are_counted_by_their_names(rt: HostRuntime) -> Result<(), Fail> {
    assert!(rt; begins(&rt)? && fills(&rt)? && unmarks(&rt)?);
    assert!(rt; status(&rt, "")?.is(4, lines(&rt)?.as_str(), ""));
    assert!(rt; status(&rt, " -v")?.is(4, lines(&rt)?.as_str(), note(&rt)?.as_str()));
    assert!(rt; status(&rt, " --json --known")?.is(4, object(&rt)?.as_str(), ""));
    assert!(rt; removes_all(&rt));
    Ok(())
}

// A grid that knows no servers has those whose folders stand, and each of these stands.
#[test]
fn a_grid_without_a_mark(rt: HostRuntime) -> Result<(), Fail> {
    assert!(rt; begins_with_zeros(&rt) && writes(&rt, CLOSED, "five5")?);
    let lines = "server-000 shares 1 bytes 5 open 0 damaged 0\n\
servers 1 of 1 shares 1 bytes 5 open 0 damaged 0\n";
    assert!(rt; status(&rt, "")?.is(0, lines, ""));
    let object = "{\"grid\":null,\"ways\":null,\"servers\":[\
{\"server\":\"server-000\",\"shares\":1,\"bytes\":5,\"open\":0,\"damaged\":0}],\
\"standing\":1,\"elsewhere\":0,\"shares\":1,\"bytes\":5,\"open\":0,\"damaged\":0}\n";
    assert!(rt; status(&rt, " --json")?.is(0, object, ""));
    assert!(rt; status(&rt, " --known")?.status == 3);
    assert!(rt; removes_all(&rt) && status(&rt, "")?.status == 7);
    Ok(())
}

// What a server's place may hold that is no server.
fn spoils(rt: &HostRuntime) -> Result<bool, AllocError> {
    let (first, second) = (path(rt, "/grid/server-000")?, path(rt, "/grid/server-001")?);
    let other = format!(in rt.alloc(); "{second}/grid-mark")?;
    let third = path(rt, "/grid/server-003")?;
    Ok(
        fs::remove_dir_all(rt, first.as_str()).is_ok()
            && fs::write(rt, other.as_str(), "grid none\n").is_ok()
            && fs::write(rt, third.as_str(), "no address\n").is_ok(),
    )
}

// Each server that does not stand is told by its own word.
#[test]
fn servers_that_do_not_stand(rt: HostRuntime) -> Result<(), Fail> {
    assert!(rt; begins(&rt)? && spoils(&rt)?);
    let mark = mark(&rt)?;
    let lines = format!(in rt.alloc();
        "{mark}ways k 1 n 2 happy 2 segment 131072\n\
server-000 missing\n\
server-001 other-mark\n\
server-002 shares 0 bytes 0 open 0 damaged 0\n\
server-003 no-address\n\
servers 1 of 4 shares 0 bytes 0 open 0 damaged 0\n"
    )?;
    assert!(rt; status(&rt, "")?.is(4, lines.as_str(), ""));
    assert!(rt; removes_all(&rt));
    Ok(())
}
