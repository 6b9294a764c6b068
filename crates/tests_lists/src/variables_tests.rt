//! Variables of the environment: the grid, and the file of the secret.

use crate::list_runs::{Came, run_line};
use grid_commands::Environment;
use std::alloc::AllocError;
use std::fs;
use std::test::Fail;
use test_folders::{begins, path, removes_all, writes};

// One share of one, at one server.
const ONES: &str = "--k 1 --happy 1 --n 1 --servers 1";

// Runs a put of the folder's file, with these words behind it, where these variables are set.
fn puts(
    rt: &HostRuntime,
    words: &str,
    grid: Option<&str>,
    secret_file: Option<&str>,
) -> Result<Came, AllocError> {
    let file = path(rt, "/file")?;
    let line = format!(in rt.alloc(); "grid put {file} {ONES}{words}")?;
    let environment = Environment {
        known: false,
        temporary: "/tmp",
        grid,
        secret_file,
    };
    Ok(run_line(rt, line.as_str(), &environment))
}

// Whether the words are wrong where a grid is neither written nor set.
fn lacks_a_grid(rt: &HostRuntime) -> Result<bool, AllocError> {
    let none = puts(rt, "", None, None)?;
    Ok(none.status == 2 && none.tells(b"  --grid <DIR>"))
}

// Whether a put goes to the grid that is written, and one that writes none to the one that is set.
fn goes_to_each(rt: &HostRuntime, set: &str, said: &str) -> Result<bool, Fail> {
    let words = format!(in rt.alloc(); " --grid {said}")?;
    let written = puts(rt, words.as_str(), Some(set), None)?;
    let is_written = written.status == 0 && fs::exists(rt, said)? && !fs::exists(rt, set)?;
    let meant = puts(rt, "", Some(set), None)?;
    let is_same = meant.out.as_slice() == written.out.as_slice();
    Ok(is_written && meant.status == 0 && is_same && fs::exists(rt, set)?)
}

// The grid of the environment is put to where none is written, and another one where that is.
// Without either the words are wrong.
#[test]
fn the_grid_of_the_environment(rt: HostRuntime) -> Result<(), Fail> {
    assert!(rt; begins(&rt));
    writes(&rt, "/file", &[0; 56])?;
    assert!(rt; lacks_a_grid(&rt)?);
    let (set, said) = (path(&rt, "/set")?, path(&rt, "/said")?);
    assert!(rt; goes_to_each(&rt, set.as_str(), said.as_str())?);
    assert!(rt; removes_all(&rt));
    Ok(())
}

// Whether the secret of a file that is set is taken where none is said, and a text that is said
// where it is.
fn takes_secrets(rt: &HostRuntime, grid: &str, secret: &str) -> Result<bool, AllocError> {
    let (to, set) = (Some(grid), Some(secret));
    let meant = puts(rt, "", to, set)?;
    let said = puts(rt, " --secret kept", to, None)?;
    let other = puts(rt, " --secret other", to, set)?;
    let is_kept = meant.status == 0 && meant.out.as_slice() == said.out.as_slice();
    Ok(is_kept && other.status == 0 && other.out.as_slice() != said.out.as_slice())
}

// The secret of the file that the environment names is that of a put that says none. A text that is
// said comes before it, and a file that is not there is a fault.
#[test]
fn the_secret_file_of_the_environment(rt: HostRuntime) -> Result<(), Fail> {
    assert!(rt; begins(&rt));
    writes(&rt, "/file", &[0; 56])?;
    writes(&rt, "/secret", b"kept\n")?;
    let (grid, secret) = (path(&rt, "/grid")?, path(&rt, "/secret")?);
    assert!(rt; takes_secrets(&rt, grid.as_str(), secret.as_str())?);
    let missing = path(&rt, "/missing")?;
    let refused = puts(&rt, "", Some(grid.as_str()), Some(missing.as_str()))?;
    assert!(rt; refused.status == 7 && removes_all(&rt));
    Ok(())
}
