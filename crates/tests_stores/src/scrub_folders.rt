//! Folders of servers, and what a scrub tells of them.

use crate::scrub_bytes_tests::{Count, THREE};
use share_files::{FileKind, OPEN_SECONDS, ShareFile};
use share_scrub::{Action, Finding, Handling, Scrub, State};
use share_store::error::StoreError;
use std::alloc::AllocError;
use std::io::ErrorKind;
use std::time::{Duration, SystemTime};
use std::{fs, io};
use wire::message::StorageIndex;

pub(crate) const INDEX: StorageIndex = [1; 16];

pub(crate) const OTHER_INDEX: StorageIndex = [2; 16];

// A path in a folder that is this process's own.
pub(crate) fn path(rt: &HostRuntime, rest: &str) -> Result<String, AllocError> {
    let process = std::process::id(rt.process());
    format!(in rt.alloc(); "/tmp/scrub-tests-{process}{rest}")
}

pub(crate) fn file(index: StorageIndex, number: u8, kind: FileKind) -> ShareFile {
    let key = (index, number);
    ShareFile { key, kind }
}

// A closed file of three bytes, an open one, the first of its name that is set aside, and one on
// its way there, as a process leaves it that is killed then.
pub(crate) const CLOSED: FileKind = FileKind::Closed(THREE);

pub(crate) const OPEN: FileKind = FileKind::Open(None);

pub(crate) const ASIDE: FileKind = FileKind::Aside(THREE, 1);

pub(crate) const HALF: FileKind = FileKind::HalfAside(THREE, [9; 16]);

// The only fault of a path is that memory is out, and so it is of the next finding.
pub(crate) fn as_io<T: Drop>(outcome: Result<T, StoreError>) -> io::Result<T> {
    match outcome {
        Ok(value) => Ok(value),
        Err(_) => Err(io::Error::from(ErrorKind::OutOfMemory)),
    }
}

// The path of a share's file, and what comes after it.
pub(crate) fn file_path(rt: &HostRuntime, file: &ShareFile, rest: &str) -> io::Result<String> {
    let path = as_io(file.path(rt.alloc(), path(rt, "")?.as_str()))?;
    Ok(format!(in rt.alloc(); "{path}{rest}")?)
}

// Makes a share's file.
pub(crate) fn make(rt: &HostRuntime, file: &ShareFile, bytes: &[u8]) -> io::Result<()> {
    fs::write(rt, file_path(rt, file, "")?.as_str(), bytes)?;
    Ok(())
}

// A file, and its bytes.
pub(crate) type Made = (StorageIndex, u8, FileKind, &'static [u8]);

pub(crate) fn make_all(rt: &HostRuntime, all: &[Made]) -> io::Result<()> {
    for (index, number, kind, bytes) in all {
        make(rt, &file(*index, *number, *kind), *bytes)?;
    }
    Ok(())
}

// Makes a folder where a file of this kind is to be.
pub(crate) fn make_folder(rt: &HostRuntime, number: u8, kind: FileKind) -> io::Result<()> {
    fs::create_dir(rt, file_path(rt, &file(INDEX, number, kind), "")?.as_str())
}

// Makes the folder anew.
pub(crate) fn begin(rt: &HostRuntime) -> io::Result<()> {
    remove(rt)?;
    fs::create_dir(rt, path(rt, "")?.as_str())?;
    Ok(())
}

pub(crate) fn remove(rt: &HostRuntime) -> io::Result<()> {
    let root = path(rt, "")?;
    match fs::remove_dir_all(rt, root.as_str()) {
        Err(error) if error.kind() != ErrorKind::NotFound => Err(error),
        _ => Ok(()),
    }
}

// How a file was found, without the system's errors.
#[derive(Clone, Copy, Debug, PartialEq, Eq)]
pub(crate) enum Found {
    Whole,
    Damaged(Did),
    Unreadable,
    Odd,
    LeftOpen(u64, Did),
    Aside(u64, Did),
    HalfAside(u64, Did),
}

#[derive(Clone, Copy, Debug, PartialEq, Eq)]
pub(crate) enum Did {
    Nothing,
    What,
    Failed,
}

pub(crate) fn deed_of(action: &Action) -> Did {
    match action {
        Action::Left => Did::Nothing,
        Action::Done => Did::What,
        Action::Failed(_) => Did::Failed,
    }
}

// A file, and how it is found.
pub(crate) type Row = (StorageIndex, u8, FileKind, Found);

pub(crate) fn is_found(finding: &Finding, (index, number, kind, found): Row) -> bool {
    finding.file == file(index, number, kind) && found_of(&finding.state) == found
}

pub(crate) fn found_of(state: &State) -> Found {
    match state {
        State::Whole => Found::Whole,
        State::Damaged(action) => Found::Damaged(deed_of(action)),
        State::Unreadable(_) => Found::Unreadable,
        State::Odd => Found::Odd,
        State::LeftOpen(length, action) => Found::LeftOpen(*length, deed_of(action)),
        State::Aside(length, action) => Found::Aside(*length, deed_of(action)),
        State::HalfAside(length, action) => Found::HalfAside(*length, deed_of(action)),
    }
}

// What is asked of a scrub, and after how many seconds.
#[derive(Clone, Copy)]
pub(crate) struct Asked {
    pub(crate) set_aside: bool,
    pub(crate) remove_open: bool,
    pub(crate) remove_damaged: bool,
    pub(crate) seconds: u64,
}

pub(crate) const NOTHING: Asked = Asked {
    set_aside: false,
    remove_open: false,
    remove_damaged: false,
    seconds: 0,
};

pub(crate) const SET_ASIDE: Asked = Asked {
    set_aside: true,
    ..NOTHING
};

pub(crate) const REMOVE_OPEN: Asked = Asked {
    remove_open: true,
    seconds: OPEN_SECONDS + 1,
    ..NOTHING
};

pub(crate) const REMOVE_DAMAGED: Asked = Asked {
    remove_damaged: true,
    ..NOTHING
};

// Whether a scrub tells these in turn.
pub(crate) fn tells_rows(
    scrub: &mut Scrub<HostRuntime>,
    handling: &Handling,
    rows: &[Row],
    count: &mut Count,
) -> io::Result<bool> {
    for row in rows {
        match as_io(scrub.next(handling, count))? {
            Some(finding) if is_found(&finding, *row) => {}
            _ => return Ok(false),
        }
    }
    Ok(as_io(scrub.next(handling, count))?.is_none())
}

// Whether scrub tells this of the folder, and this many bytes are read.
pub(crate) fn tells(rt: &HostRuntime, asked: Asked, rows: &[Row], bytes: u64) -> io::Result<bool> {
    let handling = Handling {
        set_aside: asked.set_aside,
        remove_open: asked.remove_open,
        remove_damaged: asked.remove_damaged,
        now: later(SystemTime::now(rt)?, asked.seconds),
    };
    let mut count = Count { bytes: 0 };
    let mut scrub = Scrub::begin(rt, path(rt, "")?.as_str())?;
    let told = tells_rows(&mut scrub, &handling, rows, &mut count)?;
    Ok(told && count.bytes == bytes && scrub.total() >= bytes)
}

// A time so many seconds later.
pub(crate) fn later(time: SystemTime, seconds: u64) -> SystemTime {
    time.checked_add(Duration::from_secs(seconds))
        .unwrap_or(time)
}

// How a damaged file is found that stays, and one that is set aside.
pub(crate) const DAMAGED: Found = Found::Damaged(Did::Nothing);

pub(crate) const PUT_ASIDE: Found = Found::Damaged(Did::What);

// On their way are a whole share, a damaged one, and an empty one.
pub(crate) static HALVES: [Made; 3] = [
    (INDEX, 0, HALF, b"\x01\x02\x03"),
    (INDEX, 1, HALF, b"\x01\x02"),
    (INDEX, 2, HALF, b""),
];

// Makes them, and a folder that has such a name.
pub(crate) fn fill_half(rt: &HostRuntime) -> io::Result<()> {
    begin(rt)?;
    make_all(rt, &HALVES)?;
    make_folder(rt, 3, HALF)
}
