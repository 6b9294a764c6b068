// `get -o FILE` over what may stand at FILE: the file comes whole or stays as it was, and what
// stands beside it stays.

use crate::runs::{CLOSED, HERE, ZEROS_CAP, begins_with_zeros, cap_line, words_of};
use grid_commands::{DiskFiles, grid};
use std::alloc::AllocError;
use std::fs;
use std::os::unix::fs::symlink;
use std::test::Fail;
use test_folders::{path, removes_all};
use test_writers::Told;

// The status of a `get` of 56 zero bytes to this path, and what it tells.
fn got(rt: &HostRuntime, output: &str) -> Result<(u8, String), AllocError> {
    let line = cap_line(rt, "get", ZEROS_CAP)?;
    let line = format!(in rt.alloc(); "{line} -o {output}")?;
    let words = words_of(rt, line.as_str())?;
    let mut out = Vec::new(rt.alloc());
    let mut err = Told::new(rt.alloc(), false);
    let mut files = DiskFiles::new(rt);
    let status = grid(rt, words.as_slice(), &HERE, &mut files, &mut out, &mut err);
    let told = String::from_utf8(Vec::from_slice(rt.alloc(), err.as_slice())?);
    Ok((status, told.unwrap_or(String::new(rt.alloc()))))
}

// Whether a `get` to this path goes well, and the file of 56 zero bytes stands at another.
fn comes(rt: &HostRuntime, output: &str, whole: &str) -> Result<bool, AllocError> {
    let (status, told) = got(rt, output)?;
    Ok(status == 0 && told.is_empty() && holds(rt, whole, &[0; 56]))
}

// Whether a `get` to this path ends with a file fault that names this one, behind the reason.
fn is_refused(rt: &HostRuntime, output: &str, named: &str) -> Result<bool, AllocError> {
    let (status, told) = got(rt, output)?;
    let line = format!(in rt.alloc(); "\ngrid: 90 FileFault {named}\n")?;
    let reason = format!(in rt.alloc(); "{named}: ")?;
    Ok(status == 7 && told.starts_with(reason.as_str()) && told.ends_with(line.as_str()))
}

// Whether a file has these bytes.
fn holds(rt: &HostRuntime, path: &str, bytes: &[u8]) -> bool {
    matches!(fs::read(rt, path), Ok(found) if found.as_slice() == bytes)
}

fn is_there(rt: &HostRuntime, path: &str) -> bool {
    fs::symlink_metadata(rt, path).is_ok()
}

// Whether a file comes where none stands, and leaves none beside it.
fn comes_alone(rt: &HostRuntime, out: &str, part: &str) -> Result<bool, AllocError> {
    Ok(comes(rt, out, out)? && !is_there(rt, part))
}

// Whether it comes in the place of an old one, and one of the user's own stays beside it.
fn comes_beside(rt: &HostRuntime, out: &str, part: &str) -> Result<bool, Fail> {
    fs::write(rt, out, "an old one")?;
    fs::write(rt, part, "of the user's own")?;
    Ok(comes(rt, out, out)? && holds(rt, part, b"of the user's own"))
}

// A file is written beside its place, under a name that is not taken, and replaces what stood
// there.
#[test]
fn a_file_comes_whole(rt: HostRuntime) -> Result<(), Fail> {
    assert!(rt; begins_with_zeros(&rt));
    let (out, part) = (path(&rt, "/out")?, path(&rt, "/out.part")?);
    assert!(rt; comes_alone(&rt, out.as_str(), part.as_str())?);
    assert!(rt; comes_beside(&rt, out.as_str(), part.as_str())?);
    let next = path(&rt, "/out.part.2")?;
    assert!(rt; !is_there(&rt, next.as_str()) && removes_all(&rt));
    Ok(())
}

// A folder and the empty name are refused; a device is written straight, and its fault told.
#[test]
fn folders_and_devices(rt: HostRuntime) -> Result<(), Fail> {
    assert!(rt; begins_with_zeros(&rt));
    let folder = path(&rt, "/grid")?;
    assert!(rt; is_refused(&rt, folder.as_str(), folder.as_str())?);
    assert!(rt; is_refused(&rt, "", "")?);
    assert!(rt; got(&rt, "/dev/null")?.0 == 0 && !is_there(&rt, "/dev/null.part"));
    assert!(rt; is_refused(&rt, "/dev/full", "/dev/full")? && is_there(&rt, "/dev/full"));
    assert!(rt; removes_all(&rt));
    Ok(())
}

// Whether the file at the end of a link comes, and the link stays.
fn comes_behind(rt: &HostRuntime, link: &str, far: &str) -> Result<bool, Fail> {
    Ok(comes(rt, link, far)? && fs::symlink_metadata(rt, link)?.is_symlink())
}

// Whether it does where a file stands there.
fn is_replaced_behind(rt: &HostRuntime) -> Result<bool, Fail> {
    let (far, link) = (path(rt, "/far")?, path(rt, "/link")?);
    fs::write(rt, far.as_str(), "an old one")?;
    symlink(rt, "far", link.as_str())?;
    comes_behind(rt, link.as_str(), far.as_str())
}

// Whether it does where none stands.
fn is_made_behind(rt: &HostRuntime) -> Result<bool, Fail> {
    let (new, loose) = (path(rt, "/new")?, path(rt, "/loose")?);
    symlink(rt, new.as_str(), loose.as_str())?;
    comes_behind(rt, loose.as_str(), new.as_str())
}

// A link stays, and the file at its end is replaced or made.
#[test]
fn links_stay(rt: HostRuntime) -> Result<(), Fail> {
    assert!(rt; begins_with_zeros(&rt));
    assert!(rt; is_replaced_behind(&rt)? && is_made_behind(&rt)?);
    assert!(rt; removes_all(&rt));
    Ok(())
}

// Whether a link that leads to itself is refused.
fn refuses_a_ring(rt: &HostRuntime) -> Result<bool, Fail> {
    let ring = path(rt, "/ring")?;
    symlink(rt, "ring", ring.as_str())?;
    Ok(is_refused(rt, ring.as_str(), ring.as_str())?)
}

// Whether a link to a device stays, and what comes is written to that.
fn writes_to_a_device(rt: &HostRuntime) -> Result<bool, Fail> {
    let null = path(rt, "/null")?;
    symlink(rt, "/dev/null", null.as_str())?;
    let is_got = got(rt, null.as_str())?.0 == 0;
    Ok(is_got && fs::symlink_metadata(rt, null.as_str())?.is_symlink())
}

// Links in a ring are refused, and one to a device is written straight.
#[test]
fn links_that_lead_to_no_file(rt: HostRuntime) -> Result<(), Fail> {
    assert!(rt; begins_with_zeros(&rt));
    assert!(rt; refuses_a_ring(&rt)? && writes_to_a_device(&rt)?);
    assert!(rt; removes_all(&rt));
    Ok(())
}

// Takes the only share away.
fn remove_share(rt: &HostRuntime) -> Result<(), Fail> {
    let share = format!(in rt.alloc(); "/grid/server-000/{CLOSED}")?;
    fs::remove_file(rt, path(rt, share.as_str())?.as_str())?;
    Ok(())
}

// Whether a `get` to this path tells that there are too few.
fn lacks_shares(rt: &HostRuntime, out: &str) -> Result<bool, AllocError> {
    let (status, told) = got(rt, out)?;
    Ok(status == 5 && told.as_str() == "grid: 71 NotEnoughShares\n")
}

// Where shares are missing the file stays as it was, and no empty file is left beside it.
#[test]
fn a_file_that_does_not_come(rt: HostRuntime) -> Result<(), Fail> {
    assert!(rt; begins_with_zeros(&rt));
    remove_share(&rt)?;
    let (out, part) = (path(&rt, "/out")?, path(&rt, "/out.part")?);
    fs::write(&rt, out.as_str(), "an old one")?;
    assert!(rt; lacks_shares(&rt, out.as_str())?);
    assert!(rt; holds(&rt, out.as_str(), b"an old one") && !is_there(&rt, part.as_str()));
    assert!(rt; removes_all(&rt));
    Ok(())
}
