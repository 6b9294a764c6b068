//! A server's folder, as it is found.

use crate::scrub_bytes_tests::{EMPTY, THREE};
use crate::scrub_folders::{
    ASIDE, Asked, CLOSED, DAMAGED, Did, Found, HALF, INDEX, Made, NOTHING, OPEN, OTHER_INDEX,
    PUT_ASIDE, REMOVE_DAMAGED, REMOVE_OPEN, Row, SET_ASIDE, begin, file, file_path, fill_half,
    make, make_all, make_folder, path, remove, tells,
};
use share_files::{FileKind, OPEN_SECONDS};
use std::test::Fail;
use std::{fs, io};

// Closed shares that are whole, damaged and empty, and an open one.
static FILES: [Made; 6] = [
    (INDEX, 0, CLOSED, b"\x01\x02\x03"),
    (INDEX, 10, CLOSED, b"\x01\x02\x02"),
    (INDEX, 2, CLOSED, b""),
    (OTHER_INDEX, 0, FileKind::Closed(EMPTY), b""),
    (OTHER_INDEX, 1, CLOSED, b"\x03"),
    (INDEX, 3, OPEN, b"\x01\x02\x03\x04\x05"),
];

// Makes them, a folder and a link with the names of closed shares, and a folder with that of an
// open one.
fn fill(rt: &HostRuntime) -> io::Result<()> {
    begin(rt)?;
    make_all(rt, &FILES)?;
    make_folder(rt, 4, CLOSED)?;
    make_folder(rt, 5, OPEN)?;
    let link = file_path(rt, &file(INDEX, 6, CLOSED), "")?;
    std::os::unix::fs::symlink(rt, "/dev/zero", link.as_str())?;
    fs::write(rt, path(rt, "/readonly")?.as_str(), b"other".as_slice())
}

// The rows of that folder.
static ROWS: [Row; 7] = [
    (INDEX, 0, CLOSED, Found::Whole),
    (INDEX, 2, CLOSED, DAMAGED),
    (INDEX, 4, CLOSED, Found::Odd),
    (INDEX, 6, CLOSED, Found::Odd),
    (INDEX, 10, CLOSED, DAMAGED),
    (OTHER_INDEX, 0, FileKind::Closed(EMPTY), Found::Whole),
    (OTHER_INDEX, 1, CLOSED, DAMAGED),
];

// Its rows with the open file, which stays.
static ROWS_WITH_OPEN: [Row; 8] = [
    (INDEX, 0, CLOSED, Found::Whole),
    (INDEX, 2, CLOSED, DAMAGED),
    (INDEX, 3, OPEN, Found::LeftOpen(5, Did::Nothing)),
    (INDEX, 4, CLOSED, Found::Odd),
    (INDEX, 6, CLOSED, Found::Odd),
    (INDEX, 10, CLOSED, DAMAGED),
    (OTHER_INDEX, 0, FileKind::Closed(EMPTY), Found::Whole),
    (OTHER_INDEX, 1, CLOSED, DAMAGED),
];

// Its rows with the open file, which is removed.
static ROWS_WITH_REMOVED: [Row; 8] = [
    (INDEX, 0, CLOSED, Found::Whole),
    (INDEX, 2, CLOSED, DAMAGED),
    (INDEX, 3, OPEN, Found::LeftOpen(5, Did::What)),
    (INDEX, 4, CLOSED, Found::Odd),
    (INDEX, 6, CLOSED, Found::Odd),
    (INDEX, 10, CLOSED, DAMAGED),
    (OTHER_INDEX, 0, FileKind::Closed(EMPTY), Found::Whole),
    (OTHER_INDEX, 1, CLOSED, DAMAGED),
];

// Its rows where the damaged shares are set aside.
static PUT_ASIDE_ROWS: [Row; 7] = [
    (INDEX, 0, CLOSED, Found::Whole),
    (INDEX, 2, CLOSED, PUT_ASIDE),
    (INDEX, 4, CLOSED, Found::Odd),
    (INDEX, 6, CLOSED, Found::Odd),
    (INDEX, 10, CLOSED, PUT_ASIDE),
    (OTHER_INDEX, 0, FileKind::Closed(EMPTY), Found::Whole),
    (OTHER_INDEX, 1, CLOSED, PUT_ASIDE),
];

// Its rows once they are set aside.
static ASIDE_ROWS: [Row; 7] = [
    (INDEX, 0, CLOSED, Found::Whole),
    (INDEX, 2, ASIDE, Found::Aside(0, Did::Nothing)),
    (INDEX, 4, CLOSED, Found::Odd),
    (INDEX, 6, CLOSED, Found::Odd),
    (INDEX, 10, ASIDE, Found::Aside(3, Did::Nothing)),
    (OTHER_INDEX, 0, FileKind::Closed(EMPTY), Found::Whole),
    (OTHER_INDEX, 1, ASIDE, Found::Aside(1, Did::Nothing)),
];

// The same where another one stands again under the name of share 10, and is set aside.
static AGAIN_ROWS: [Row; 8] = [
    (INDEX, 0, CLOSED, Found::Whole),
    (INDEX, 2, ASIDE, Found::Aside(0, Did::Nothing)),
    (INDEX, 4, CLOSED, Found::Odd),
    (INDEX, 6, CLOSED, Found::Odd),
    (INDEX, 10, CLOSED, PUT_ASIDE),
    (INDEX, 10, ASIDE, Found::Aside(3, Did::Nothing)),
    (OTHER_INDEX, 0, FileKind::Closed(EMPTY), Found::Whole),
    (OTHER_INDEX, 1, ASIDE, Found::Aside(1, Did::Nothing)),
];

// What is told changes nothing where nothing is asked for. An open file is told after 600 seconds.
#[test]
fn folders_are_told(rt: HostRuntime) -> Result<(), Fail> {
    fill(&rt)?;
    let before = Asked {
        seconds: OPEN_SECONDS - 60,
        ..REMOVE_OPEN
    };
    assert!(rt; tells(&rt, before, &ROWS, 7)?);
    let after = Asked {
        remove_open: false,
        ..REMOVE_OPEN
    };
    assert!(rt; tells(&rt, after, &ROWS_WITH_OPEN, 7)?);
    assert!(rt; tells(&rt, REMOVE_OPEN, &ROWS_WITH_REMOVED, 7)?);
    assert!(rt; tells(&rt, REMOVE_OPEN, &ROWS, 7)?);
    remove(&rt)?;
    Ok(())
}

// Whether the file of share 10 with this behind its name has these bytes.
fn holds(rt: &HostRuntime, rest: &str, bytes: &[u8]) -> io::Result<bool> {
    let path = file_path(rt, &file(INDEX, 10, CLOSED), rest)?;
    Ok(fs::read(rt, path.as_str())?.as_slice() == bytes)
}

// Damaged files are set aside, and none of them takes the place of another.
#[test]
fn damaged_files_are_set_aside(rt: HostRuntime) -> Result<(), Fail> {
    fill(&rt)?;
    assert!(rt; tells(&rt, SET_ASIDE, &PUT_ASIDE_ROWS, 7)?);
    assert!(rt; tells(&rt, SET_ASIDE, &ASIDE_ROWS, 3)?);
    let damaged = file(INDEX, 10, CLOSED);
    make(&rt, &damaged, b"\x09")?;
    assert!(rt; tells(&rt, SET_ASIDE, &AGAIN_ROWS, 4)?);
    assert!(rt; holds(&rt, ".damaged", b"\x01\x02\x02")? && holds(&rt, ".damaged.2", b"\x09")?);
    assert!(rt; !fs::exists(&rt, file_path(&rt, &damaged, "")?.as_str())?);
    remove(&rt)?;
    Ok(())
}

// Where a whole file stands beside one that was set aside, and a damaged one beside another.
static BESIDE: [Made; 2] = [
    (INDEX, 2, CLOSED, b"\x01\x02\x03"),
    (OTHER_INDEX, 1, CLOSED, b"\x02"),
];

static BESIDE_ROWS: [Row; 9] = [
    (INDEX, 0, CLOSED, Found::Whole),
    (INDEX, 2, CLOSED, Found::Whole),
    (INDEX, 2, ASIDE, Found::Aside(0, Did::What)),
    (INDEX, 4, CLOSED, Found::Odd),
    (INDEX, 6, CLOSED, Found::Odd),
    (INDEX, 10, ASIDE, Found::Aside(3, Did::Nothing)),
    (OTHER_INDEX, 0, FileKind::Closed(EMPTY), Found::Whole),
    (OTHER_INDEX, 1, CLOSED, DAMAGED),
    (OTHER_INDEX, 1, ASIDE, Found::Aside(1, Did::Nothing)),
];

static BESIDE_ROWS_LATER: [Row; 8] = [
    (INDEX, 0, CLOSED, Found::Whole),
    (INDEX, 2, CLOSED, Found::Whole),
    (INDEX, 4, CLOSED, Found::Odd),
    (INDEX, 6, CLOSED, Found::Odd),
    (INDEX, 10, ASIDE, Found::Aside(3, Did::Nothing)),
    (OTHER_INDEX, 0, FileKind::Closed(EMPTY), Found::Whole),
    (OTHER_INDEX, 1, CLOSED, DAMAGED),
    (OTHER_INDEX, 1, ASIDE, Found::Aside(1, Did::Nothing)),
];

// A file that was set aside is removed only beside a whole one of its share.
#[test]
fn aside_files_go_beside_whole_ones(rt: HostRuntime) -> Result<(), Fail> {
    fill(&rt)?;
    assert!(rt; tells(&rt, SET_ASIDE, &PUT_ASIDE_ROWS, 7)?);
    make_all(&rt, &BESIDE)?;
    assert!(rt; tells(&rt, REMOVE_DAMAGED, &BESIDE_ROWS, 7)?);
    assert!(rt; tells(&rt, REMOVE_DAMAGED, &BESIDE_ROWS_LATER, 7)?);
    remove(&rt)?;
    Ok(())
}

static HALF_ROWS: [Row; 3] = [
    (INDEX, 0, HALF, Found::HalfAside(3, Did::Nothing)),
    (INDEX, 1, HALF, Found::HalfAside(2, Did::Nothing)),
    (INDEX, 2, HALF, Found::HalfAside(0, Did::Nothing)),
];

static SETTLED_NOW: [Row; 3] = [
    (INDEX, 0, HALF, Found::HalfAside(3, Did::What)),
    (INDEX, 1, HALF, Found::HalfAside(2, Did::What)),
    (INDEX, 2, HALF, Found::HalfAside(0, Did::What)),
];

static SETTLED: [Row; 3] = [
    (INDEX, 0, CLOSED, Found::Whole),
    (INDEX, 1, ASIDE, Found::Aside(2, Did::Nothing)),
    (INDEX, 2, ASIDE, Found::Aside(0, Did::Nothing)),
];

// One that is damaged, and another on its way beside it.
static ONE_BESIDE: [Made; 2] = [(INDEX, 6, CLOSED, b"\x01"), (INDEX, 6, HALF, b"\x02\x02")];

static ONE_BESIDE_ROWS: [Row; 5] = [
    (INDEX, 0, CLOSED, Found::Whole),
    (INDEX, 1, ASIDE, Found::Aside(2, Did::Nothing)),
    (INDEX, 2, ASIDE, Found::Aside(0, Did::Nothing)),
    (INDEX, 6, CLOSED, PUT_ASIDE),
    (INDEX, 6, HALF, Found::HalfAside(2, Did::What)),
];

static BOTH_ASIDE_ROWS: [Row; 5] = [
    (INDEX, 0, CLOSED, Found::Whole),
    (INDEX, 1, ASIDE, Found::Aside(2, Did::Nothing)),
    (INDEX, 2, ASIDE, Found::Aside(0, Did::Nothing)),
    (INDEX, 6, ASIDE, Found::Aside(1, Did::Nothing)),
    (
        INDEX,
        6,
        FileKind::Aside(THREE, 2),
        Found::Aside(2, Did::Nothing),
    ),
];

// What is on its way is settled where that is asked for: a whole share has its name back. A file is
// set aside beside what others left so.
#[test]
fn files_on_their_way_are_settled(rt: HostRuntime) -> Result<(), Fail> {
    fill_half(&rt)?;
    assert!(rt; tells(&rt, REMOVE_DAMAGED, &HALF_ROWS, 0)?);
    assert!(rt; tells(&rt, SET_ASIDE, &SETTLED_NOW, 5)?);
    assert!(rt; tells(&rt, SET_ASIDE, &SETTLED, 3)?);
    make_all(&rt, &ONE_BESIDE)?;
    assert!(rt; tells(&rt, SET_ASIDE, &ONE_BESIDE_ROWS, 6)?);
    assert!(rt; tells(&rt, SET_ASIDE, &BOTH_ASIDE_ROWS, 3)?);
    remove(&rt)?;
    Ok(())
}

// What an earlier version left on its way, which counts as set aside.
static EARLIER: [Made; 1] = [(INDEX, 0, FileKind::Aside(THREE, 0), b"\x01\x02\x03")];

static EARLIER_ROWS: [Row; 1] = [(
    INDEX,
    0,
    FileKind::Aside(THREE, 0),
    Found::Aside(3, Did::Nothing),
)];

#[test]
fn earlier_names_are_set_aside(rt: HostRuntime) -> Result<(), Fail> {
    begin(&rt)?;
    make_all(&rt, &EARLIER)?;
    assert!(rt; tells(&rt, SET_ASIDE, &EARLIER_ROWS, 0)?);
    remove(&rt)?;
    Ok(())
}

// Where memory is refused once, the folder is told when it is asked for again.
#[test]
fn refused_memory_in_scrub(rt: HostRuntime) {
    if fill(&rt).is_err() {
        return;
    }
    let told = matches!(&tells(&rt, NOTHING, &ROWS, 7), Ok(true));
    let again = told || matches!(&tells(&rt, NOTHING, &ROWS, 7), Ok(true));
    assert!(rt; remove(&rt).is_ok() || remove(&rt).is_ok());
    assert!(rt; again);
}
