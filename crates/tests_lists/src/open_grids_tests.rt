// Puts of several files over servers that stay open, under one secret.

use crate::list_runs::{Came, ONES, joined, run, run_into};
use std::alloc::AllocError;
use std::fs;
use std::io::{self, ErrorKind, Write};
use std::test::Fail;
use test_folders::{begins, holds, makes_folder, path, placed, removes_all, stands, writes};

// The cap of 56 zero bytes, at one share of one, and the name of the file of its share, which were
// computed by programs that share no code with these crates.
const ZEROS_CAP: &str = "URI:CHK:vwuwqphq6vtyhagrqwyqajtjoq:\
    mulphu6sadrudv3w5tjchnmax5njyq74hibk3qaudszblkawpxgq:1:1:56";

const ZEROS_SHARE: &str = "/grid/server-000/\
    w3hm5rcm33g237wuaijiuuup7q.0.jtekwrxuxx27zctnem7ska6zjwudmdyta5yamq5667dqfdotpzra";

// Makes files of 56 ones and of 56 zeros.
fn write_both(rt: &HostRuntime) -> io::Result<()> {
    writes(rt, "/ones", &[1; 56])?;
    writes(rt, "/zeros", &[0; 56])
}

// A put of the ones, and then of the zeros twice.
fn put_thrice(rt: &HostRuntime) -> Result<Came, AllocError> {
    let (ones, zeros, grid) = (path(rt, "/ones")?, path(rt, "/zeros")?, path(rt, "/grid")?);
    let files = [ones.as_str(), zeros.as_str(), zeros.as_str()];
    Ok(run(rt, "put", &files, grid.as_str(), &ONES))
}

// Whether it told nothing, and wrote the line of the zeros twice.
fn is_twice(rt: &HostRuntime, came: &Came) -> Result<bool, AllocError> {
    let line = format!(in rt.alloc(); "{ZEROS_CAP}  @/zeros\n{ZEROS_CAP}  @/zeros\n")?;
    let twice = placed(rt, line.as_str())?;
    let is_well = came.status == 0 && came.told.is_empty();
    Ok(is_well && came.lines().ends_with(twice.as_bytes()))
}

// Whether a share that is cut short then is made again, and the same lines are written.
fn is_made_again(rt: &HostRuntime, first: &Came) -> Result<bool, Fail> {
    let whole = fs::read(rt, path(rt, ZEROS_SHARE)?.as_str())?;
    writes(rt, ZEROS_SHARE, b"cut")?;
    let again = put_thrice(rt)?;
    let is_same = again.status == 0 && again.lines() == first.lines();
    Ok(is_same && holds(rt, ZEROS_SHARE, whole.as_slice())?)
}

// A share that was cut short is made again, though the servers were open for another file before,
// and so is one that was cut short between two puts of its file.
#[test]
fn shares_that_were_cut_are_made_again(rt: HostRuntime) -> Result<(), Fail> {
    assert!(rt; begins(&rt));
    write_both(&rt)?;
    let first = put_thrice(&rt)?;
    assert!(rt; is_twice(&rt, &first)? && is_made_again(&rt, &first)?);
    assert!(rt; removes_all(&rt));
    Ok(())
}

// A put of both, with these words behind it.
fn put_both(rt: &HostRuntime, more: &[&str]) -> Result<Came, AllocError> {
    let mut out = Vec::new(rt.alloc());
    let mut came = put_both_into(rt, more, &mut out)?;
    came.out = out;
    Ok(came)
}

// The same with a standard output of its own.
fn put_both_into<O: Write>(
    rt: &HostRuntime,
    more: &[&str],
    out: &mut O,
) -> Result<Came, AllocError> {
    let (ones, zeros, grid) = (path(rt, "/ones")?, path(rt, "/zeros")?, path(rt, "/grid")?);
    let files = [ones.as_str(), zeros.as_str()];
    Ok(run_into(rt, "put", &files, grid.as_str(), more, out))
}

// The same under a secret that is said.
fn put_under(rt: &HostRuntime, secret: &str) -> Result<Came, AllocError> {
    let words = joined(rt, "--secret", secret, &ONES)?;
    put_both(rt, words.as_slice())
}

// Whether what is put without a secret is under the one that the grid keeps.
fn is_under_the_kept(rt: &HostRuntime) -> Result<bool, AllocError> {
    let kept = put_both(rt, &ONES)?;
    let said = put_under(rt, "well kept")?;
    let other = put_under(rt, "another")?;
    let all_well = kept.status == 0 && said.status == 0 && other.status == 0;
    let is_said = kept.under() == said.under() && kept.lines() == said.lines();
    Ok(all_well && is_said && kept.under() != other.under() && kept.lines() != other.lines())
}

// All files of a put are keyed by the secret that the grid keeps as the put begins, and so tells
// the first line of the catalogue.
#[test]
fn one_secret_for_all(rt: HostRuntime) -> Result<(), Fail> {
    assert!(rt; begins(&rt));
    write_both(&rt)?;
    makes_folder(&rt, "/grid")?;
    writes(&rt, "/grid/grid-secret", b"well kept\n")?;
    assert!(rt; is_under_the_kept(&rt)? && removes_all(&rt));
    Ok(())
}

// Takes so many bytes, and fails then.
#[derive(Drop)]
struct Short {
    left: usize,
}

impl Write for Short {
    fn write(&mut self, buf: &[u8]) -> io::Result<usize> {
        if self.left == 0 {
            return Err(io::Error::from(ErrorKind::BrokenPipe));
        }
        let count = buf.len().min(self.left);
        self.left -= count;
        Ok(count)
    }

    fn flush(&mut self) -> io::Result<()> {
        Ok(())
    }
}

// Where standard output fails, no further file is stored, and the status tells it.
#[test]
fn an_output_that_fails_ends_it(rt: HostRuntime) -> Result<(), Fail> {
    assert!(rt; begins(&rt));
    write_both(&rt)?;
    let mut short = Short { left: 150 };
    let came = put_both_into(&rt, &ONES, &mut short)?;
    assert!(rt; came.status == 7 && came.tells(b"grid: 99 OutputFault"));
    assert!(rt; !stands(&rt, ZEROS_SHARE)? && removes_all(&rt));
    Ok(())
}
