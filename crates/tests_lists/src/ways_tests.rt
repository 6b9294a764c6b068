//! The ways of a grid: by which numbers files are put into it.

use crate::list_runs::{Came, HERE, run_line};
use std::alloc::AllocError;
use std::test::Fail;
use test_folders::{begins, holds, makes_folder, path, placed, removes_all, stands, writes};

// One share of one.
const ONES: &[u8] = b"ways k 1 n 1 happy 1 segment 131072\n";

// `init` of a grid of the test's folder, with these words.
fn inits(rt: &HostRuntime, name: &str, words: &str) -> Result<Came, AllocError> {
    let grid = path(rt, name)?;
    let line = format!(in rt.alloc(); "grid init {grid}{words}")?;
    Ok(run_line(rt, line.as_str(), &HERE))
}

// `put` of the test's file into such a grid, with these words.
fn puts(rt: &HostRuntime, name: &str, words: &str) -> Result<Came, AllocError> {
    let (grid, file) = (path(rt, name)?, path(rt, "/file")?);
    let line = format!(in rt.alloc(); "grid put {file} --grid {grid}{words}")?;
    Ok(run_line(rt, line.as_str(), &HERE))
}

// Makes the test's folder, with a file of 56 zeros.
fn begins_with_zeros(rt: &HostRuntime) -> Result<bool, Fail> {
    let begun = begins(rt);
    writes(rt, "/file", &[0; 56])?;
    Ok(begun)
}

// Whether an `init` with numbers writes the ways, and tells their line.
fn writes_ways(rt: &HostRuntime) -> Result<bool, Fail> {
    let made = inits(rt, "/grid", " --servers 1 --k 1 --n 1 --happy 1")?;
    let is_told = made.status == 0 && made.out.ends_with(ONES);
    Ok(is_told && holds(rt, "/grid/grid-ways", ONES)?)
}

// Whether one without numbers writes none.
fn writes_none(rt: &HostRuntime) -> Result<bool, Fail> {
    let other = inits(rt, "/other", " --servers 1")?;
    Ok(other.wrote(0, "servers 1\n") && !stands(rt, "/other/grid-ways")?)
}

// An `init` writes the ways, with the usual numbers in place of those that it does not say, and
// tells their line. Without one of them there is no file.
#[test]
fn ways_are_written(rt: HostRuntime) -> Result<(), Fail> {
    assert!(rt; begins_with_zeros(&rt)?);
    assert!(rt; writes_ways(&rt)? && writes_none(&rt)?);
    assert!(rt; removes_all(&rt));
    Ok(())
}

// Whether numbers in no range are told, and nothing is made.
fn refuses_numbers(rt: &HostRuntime) -> Result<bool, Fail> {
    let made = inits(rt, "/grid", " --n 3")?;
    let is_told = made.tells(b"--happy is 7, and may be 1 to 3");
    let is_refused = made.status == 3 && made.tells(b"grid: 2 BadParameters");
    Ok(is_told && is_refused && !stands(rt, "/grid")?)
}

// Numbers in no range are told, and nothing is made. Nor does a grid that is marked get ways.
#[test]
fn ways_in_no_range(rt: HostRuntime) -> Result<(), Fail> {
    assert!(rt; begins_with_zeros(&rt)?);
    assert!(rt; refuses_numbers(&rt)?);
    assert!(rt; inits(&rt, "/grid", " --servers 1")?.status == 0);
    assert!(rt; inits(&rt, "/grid", " --add 1 --k 2")?.status == 2);
    assert!(rt; removes_all(&rt));
    Ok(())
}

// Whether a put into the grid writes with these words what one into another grid does with those.
// What both write.
fn put_twice(rt: &HostRuntime, words: &str, plain: &str) -> Result<(bool, Vec<u8>), AllocError> {
    let first = puts(rt, "/grid", words)?;
    let second = puts(rt, "/plain", plain)?;
    let are_well = first.status == 0 && second.status == 0;
    let are_same = first.out.as_slice() == second.out.as_slice();
    Ok((are_well && are_same, first.out))
}

// Whether the ways are taken, and other numbers come before them.
fn takes_ways(rt: &HostRuntime) -> Result<bool, AllocError> {
    let (is_taken, plain) = put_twice(rt, "", " --servers 2 --k 1 --n 2 --happy 2")?;
    let ones = " --servers 2 --k 1 --n 1 --happy 1";
    let (is_said, fewer) = put_twice(rt, " --n 1 --happy 1", ones)?;
    Ok(is_taken && is_said && fewer.as_slice() != plain.as_slice())
}

// A put takes the ways where it says nothing else; what it says comes first, number by number.
#[test]
fn puts_take_the_ways(rt: HostRuntime) -> Result<(), Fail> {
    assert!(rt; begins_with_zeros(&rt)?);
    assert!(rt; inits(&rt, "/grid", " --servers 2 --k 1 --n 2 --happy 2")?.status == 0);
    assert!(rt; takes_ways(&rt)?);
    assert!(rt; puts(&rt, "/grid", " --n 1")?.status == 3);
    assert!(rt; removes_all(&rt));
    Ok(())
}

// Texts that are none of ways.
static ODD_WAYS: [&str; 6] = [
    "",
    "ways k 1 n 1 happy 1 segment 131072",
    "ways k 01 n 1 happy 1 segment 131072\n",
    "ways k 2 n 1 happy 1 segment 131072\n",
    "ways k 1 n 1 happy 1 segment 131072\n\n",
    "ways k 1 n 1 happy 1 segment 4294967297\n",
];

// Whether a put into a grid with such a text is refused, with the path of its file.
fn is_refused(rt: &HostRuntime, text: &str) -> Result<bool, Fail> {
    writes(rt, "/grid/grid-ways", text.as_bytes())?;
    let put = puts(rt, "/grid", "")?;
    let told = placed(rt, "grid: 98 BadMark @/grid/grid-ways")?;
    Ok(put.is_silent(7) && put.tells(told.as_bytes()))
}

// What is no text of ways is refused by a put, with its path.
#[test]
fn odd_ways_are_refused(rt: HostRuntime) -> Result<(), Fail> {
    assert!(rt; begins_with_zeros(&rt)?);
    makes_folder(&rt, "/grid")?;
    for text in ODD_WAYS {
        assert!(rt; is_refused(&rt, text)?, "{text}");
    }
    writes(&rt, "/grid/grid-ways", ONES)?;
    assert!(rt; puts(&rt, "/grid", " --servers 1")?.status == 0);
    assert!(rt; removes_all(&rt));
    Ok(())
}

// Whether an `init` with other ways than those that stand is refused, and makes nothing.
fn refuses_others(rt: &HostRuntime) -> Result<bool, Fail> {
    let words = " --servers 1 --secret-file new --k 1 --n 2 --happy 1";
    let is_refused = inits(rt, "/grid", words)?.status == 7;
    let makes_none = !stands(rt, "/grid/grid-secret")? && !stands(rt, "/grid/server-000")?;
    Ok(is_refused && makes_none)
}

// An `init` that came to no end is made again with the same ways, and refused with others, before
// anything is written.
#[test]
fn other_ways_are_refused(rt: HostRuntime) -> Result<(), Fail> {
    assert!(rt; begins_with_zeros(&rt)?);
    makes_folder(&rt, "/grid")?;
    writes(&rt, "/grid/grid-ways", ONES)?;
    assert!(rt; refuses_others(&rt)?);
    let same = inits(&rt, "/grid", " --servers 1 --k 1 --n 1 --happy 1")?.status == 0;
    assert!(rt; same && holds(&rt, "/grid/grid-ways", ONES)?);
    assert!(rt; removes_all(&rt));
    Ok(())
}
