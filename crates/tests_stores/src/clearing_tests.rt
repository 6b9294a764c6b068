//! The way is cleared for shares that are put.

use crate::scrub_bytes_tests::{Count, EMPTY, THREE};
use crate::scrub_folders::{
    ASIDE, CLOSED, DAMAGED, Did, Found, HALF, INDEX, Made, NOTHING, OPEN, OTHER_INDEX, Row, begin,
    file, file_path, fill_half, later, make_all, make_folder, path, remove, tells,
};
use crate::synced_tests::{NotedFiles, Step, Steps};
use share_files::{FileKind, FolderFiles, KnownFiles, OPEN_SECONDS, Wanted};
use share_scrub::{Cleared, clear_way};
use std::io::ErrorKind;
use std::test::Fail;
use std::time::SystemTime;
use std::{fs, io};
use wire::message::{Digest, StorageIndex};

// Of shares of three bytes one that is whole, a short one, an empty one, one with the digest of
// another, a damaged one, one whose number has no share, an open one, and another's.
static ONE_INDEX: [Made; 8] = [
    (INDEX, 0, CLOSED, b"\x01\x02\x03"),
    (INDEX, 1, CLOSED, b"\x03"),
    (INDEX, 2, CLOSED, b""),
    (INDEX, 3, FileKind::Closed(EMPTY), b"\x01\x02\x03"),
    (INDEX, 4, CLOSED, b"\x01\x02\x02"),
    (INDEX, 5, CLOSED, b"\x01\x02\x03"),
    (INDEX, 7, OPEN, b"\x01"),
    (OTHER_INDEX, 1, CLOSED, b"\x03"),
];

// Makes them, and a folder.
fn fill_one_index(rt: &HostRuntime) -> io::Result<()> {
    begin(rt)?;
    make_folder(rt, 6, CLOSED)?;
    make_all(rt, &ONE_INDEX)
}

// Clears the way for shares of three bytes, after so many seconds.
fn clear<'a>(
    rt: &HostRuntime,
    steps: &'a Steps,
    digests: Option<&[Digest]>,
    seconds: u64,
) -> Result<Cleared, Fail> {
    clear_beside(rt, steps, digests, &[], seconds)
}

// The same while the shares of these numbers are read.
fn clear_beside<'a>(
    rt: &HostRuntime,
    steps: &'a Steps,
    digests: Option<&[Digest]>,
    reading: &[u8],
    seconds: u64,
) -> Result<Cleared, Fail> {
    let wanted = Wanted {
        index: INDEX,
        length: 3,
        digests,
        reading,
        now: later(SystemTime::now(rt)?, seconds),
    };
    let noted = NotedFiles { rt: *rt, steps };
    let folder = path(rt, "")?;
    let mut files = FolderFiles::new(&noted, folder.as_str(), wanted.now);
    let mut count = Count { bytes: 0 };
    Ok(clear_way(&mut files, &wanted, None, &mut count)?)
}

// Whether the way is cleared of so many files, which are set aside, and of so many open ones, and
// none is left.
fn clears<'a>(
    rt: &HostRuntime,
    steps: &'a Steps,
    (digests, seconds): (Option<&[Digest]>, u64),
    reading: &[u8],
    (set_aside, removed): (u64, u64),
) -> Result<bool, Fail> {
    let cleared = clear_beside(rt, steps, digests, reading, seconds)?;
    Ok(
        cleared.set_aside == set_aside
            && cleared.open_removed == removed
            && cleared.left.is_empty()
            && cleared.odd.as_slice() == [6].as_slice(),
    )
}

// The digests that were made.
static MADE: [Digest; 5] = [THREE; 5];

static CLEARED_ROWS: [Row; 8] = [
    (INDEX, 0, CLOSED, Found::Whole),
    (INDEX, 1, ASIDE, Found::Aside(1, Did::Nothing)),
    (INDEX, 2, ASIDE, Found::Aside(0, Did::Nothing)),
    (
        INDEX,
        3,
        FileKind::Aside(EMPTY, 1),
        Found::Aside(3, Did::Nothing),
    ),
    (INDEX, 4, ASIDE, Found::Aside(3, Did::Nothing)),
    (INDEX, 5, ASIDE, Found::Aside(3, Did::Nothing)),
    (INDEX, 6, CLOSED, Found::Odd),
    (OTHER_INDEX, 1, CLOSED, DAMAGED),
];

// Whether there is nothing to clear where there is no folder.
fn clears_nothing<'a>(rt: &HostRuntime, steps: &'a Steps) -> Result<bool, Fail> {
    let none = clear(rt, steps, None, 0)?;
    Ok(none.set_aside == 0 && none.odd.is_empty())
}

// Whether the way is cleared by the lengths of the files, each of which is renamed twice.
fn clears_by_length<'a>(rt: &HostRuntime, steps: &'a Steps) -> Result<bool, Fail> {
    let is_cleared = clears(rt, steps, (None, 0), &[], (2, 0))?;
    let each = [Step::Rename, Step::Rename, Step::SyncFolder];
    Ok(is_cleared && steps.were([each, each].as_flattened()))
}

// What is in the way goes, by its length and then by the digests that were made. An open file goes
// once it is left over.
#[test]
fn the_way_is_cleared(rt: HostRuntime) -> Result<(), Fail> {
    remove(&rt)?;
    let steps = Steps::new(rt.alloc());
    assert!(rt; clears_nothing(&rt, &steps)?);
    fill_one_index(&rt)?;
    assert!(rt; clears_by_length(&rt, &steps)?);
    let is_cleared = clears(&rt, &steps, (Some(MADE.as_slice()), 0), &[], (3, 0))?
        && clears(
            &rt,
            &steps,
            (Some(MADE.as_slice()), OPEN_SECONDS + 1),
            &[],
            (0, 1),
        )?
        && clears(
            &rt,
            &steps,
            (Some(MADE.as_slice()), OPEN_SECONDS + 1),
            &[],
            (0, 0),
        )?;
    assert!(rt; is_cleared && tells(&rt, NOTHING, &CLEARED_ROWS, 4)?);
    remove(&rt)?;
    Ok(())
}

// The files of shares that are read meanwhile stay, by their length and by their digest.
#[test]
fn shares_that_are_read_stay(rt: HostRuntime) -> Result<(), Fail> {
    fill_one_index(&rt)?;
    let steps = Steps::new(rt.alloc());
    let stay = clears(&rt, &steps, (None, 0), &[2], (1, 0))?
        && clears(&rt, &steps, (None, 0), &[9, 2], (0, 0))?
        && clears(&rt, &steps, (Some(MADE.as_slice()), 0), &[2, 4, 5], (1, 0))?
        && clears(&rt, &steps, (Some(MADE.as_slice()), 0), &[], (3, 0))?;
    remove(&rt)?;
    assert!(rt; stay);
    Ok(())
}

// Whole shares on their way: another's, and two beside which a whole and a damaged one stand.
static WHOLE_HALVES: [Made; 5] = [
    (OTHER_INDEX, 0, HALF, b"\x01\x02\x03"),
    (INDEX, 4, CLOSED, b"\x01\x02\x03"),
    (INDEX, 4, HALF, b"\x01\x02\x03"),
    (INDEX, 5, CLOSED, b"\x01\x02\x02"),
    (INDEX, 5, HALF, b"\x01\x02\x03"),
];

static WHOLE_HALVES_ROWS: [Row; 6] = [
    (INDEX, 0, CLOSED, Found::Whole),
    (INDEX, 1, ASIDE, Found::Aside(2, Did::Nothing)),
    (INDEX, 2, ASIDE, Found::Aside(0, Did::Nothing)),
    (INDEX, 4, CLOSED, Found::Whole),
    (INDEX, 5, CLOSED, Found::Whole),
    (OTHER_INDEX, 0, HALF, Found::HalfAside(3, Did::Nothing)),
];

// Whether two files are set aside where no link can be made, and none is left or odd.
fn clears_two(rt: &HostRuntime) -> Result<bool, Fail> {
    let steps = Steps::new(rt.alloc());
    steps.failing.set(Some(Step::Link));
    let cleared = clear(rt, &steps, Some(&[THREE; 6]), 0)?;
    Ok(cleared.set_aside == 2 && cleared.left.is_empty() && cleared.odd.is_empty())
}

// What is on its way is settled before the rest, without a link: a whole share is kept, also one
// that a whole share or a damaged one of its name stands beside.
#[test]
fn files_on_their_way_are_in_nobodys_way(rt: HostRuntime) -> Result<(), Fail> {
    fill_half(&rt)?;
    make_all(&rt, &WHOLE_HALVES)?;
    assert!(rt; clears_two(&rt)?);
    assert!(rt; tells(&rt, NOTHING, &WHOLE_HALVES_ROWS, 9)?);
    remove(&rt)?;
    Ok(())
}

// Whether the shares 1 and 2 are left where no file can be renamed.
fn leaves_two<'a>(rt: &HostRuntime, steps: &'a Steps) -> Result<bool, Fail> {
    steps.failing.set(Some(Step::Rename));
    let cleared = clear(rt, steps, None, 0)?;
    steps.failing.set(None);
    let left = cleared
        .left
        .iter()
        .map(|left| (left.share, left.reason.kind()));
    Ok(cleared.set_aside == 0 && left.eq([(1, ErrorKind::BrokenPipe), (2, ErrorKind::BrokenPipe)]))
}

// Whether the file of a share stands, and none is set aside.
fn stands(rt: &HostRuntime, number: u8) -> io::Result<bool> {
    let file = file(INDEX, number, CLOSED);
    let stands = fs::exists(rt, file_path(rt, &file, "")?.as_str())?;
    Ok(stands && !fs::exists(rt, file_path(rt, &file, ".damaged")?.as_str())?)
}

static LEFT_ROWS: [Row; 8] = [
    (INDEX, 0, CLOSED, Found::Whole),
    (INDEX, 1, ASIDE, Found::Aside(1, Did::Nothing)),
    (INDEX, 2, ASIDE, Found::Aside(0, Did::Nothing)),
    (INDEX, 3, FileKind::Closed(EMPTY), DAMAGED),
    (INDEX, 4, CLOSED, DAMAGED),
    (INDEX, 5, CLOSED, Found::Whole),
    (INDEX, 6, CLOSED, Found::Odd),
    (OTHER_INDEX, 1, CLOSED, DAMAGED),
];

// What cannot be set aside is told, and stands as it stood.
#[test]
fn what_is_left_is_told(rt: HostRuntime) -> Result<(), Fail> {
    fill_one_index(&rt)?;
    let steps = Steps::new(rt.alloc());
    assert!(rt; leaves_two(&rt, &steps)?);
    assert!(rt; stands(&rt, 1)? && stands(&rt, 2)?);
    assert!(rt; clears(&rt, &steps, (None, 0), &[], (2, 0))?);
    assert!(rt; tells(&rt, NOTHING, &LEFT_ROWS, 13)?);
    remove(&rt)?;
    Ok(())
}

// Clears the way where the files of the folder are those that are known of it.
fn clear_known(
    rt: &HostRuntime,
    known: &KnownFiles,
    index: StorageIndex,
    length: u64,
) -> Result<u64, Fail> {
    let wanted = Wanted {
        index,
        length,
        digests: None,
        reading: &[],
        now: SystemTime::UNIX_EPOCH,
    };
    let folder = path(rt, "")?;
    let mut files = FolderFiles::new(rt, folder.as_str(), wanted.now);
    let cleared = clear_way(&mut files, &wanted, Some(known), &mut Count { bytes: 0 })?;
    Ok(cleared.set_aside)
}

// The files that the folder has.
fn list_known(rt: &HostRuntime) -> Result<KnownFiles, Fail> {
    let folder = path(rt, "")?;
    Ok(FolderFiles::new(rt, folder.as_str(), SystemTime::UNIX_EPOCH).list_known()?)
}

// Of the files that are known those of a storage index go that are in the way, and no others; what
// came since is not known, and what went since is in nobody's way.
#[test]
fn known_files_are_cleared(rt: HostRuntime) -> Result<(), Fail> {
    fill_one_index(&rt)?;
    let known = list_known(&rt)?;
    make_all(&rt, &[(OTHER_INDEX, 2, CLOSED, b"\x03")])?;
    let cleared = [
        clear_known(&rt, &known, [3; 16], 1)?,
        clear_known(&rt, &known, OTHER_INDEX, 2)?,
        clear_known(&rt, &known, OTHER_INDEX, 2)?,
        clear_known(&rt, &known, INDEX, 3)?,
    ];
    let new = list_known(&rt)?;
    let later = clear_known(&rt, &new, OTHER_INDEX, 2)?;
    remove(&rt)?;
    assert!(rt; cleared == [0, 1, 0, 2] && later == 1);
    Ok(())
}
