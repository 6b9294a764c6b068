//! What a store puts on the disk, and when: over the host's files, whose syncs and renames are
//! noted, and one of which fails.

use crate::share_store_tests::{Call, INDEX, SEVENS, file, gives, path, remove, right_calls};
use share_folders::disk::make_folder;
use share_folders::folder::{Durability, FolderStore, Purpose};
use share_store::error::StoreError;
use share_store::store::Store;
use std::alloc::{Allocator, Global};
use std::cell::{Cell, RefCell};
use std::fs::{File, Metadata, OpenFile, OpenOptions};
use std::io::{Read, Seek, SeekFrom, Write};
use std::random::RandomSource;
use std::rt::Files;
use std::test::Fail;
use std::{fs, io};

// A call that is noted.
#[derive(Clone, Copy, PartialEq, Eq)]
pub(crate) enum Step {
    SyncFile,
    SyncFolder,
    Rename,
    Link,
    // Not noted, only counted.
    Look,
}

// The calls so far, and the one that fails.
#[derive(Drop)]
pub(crate) struct Steps {
    noted: RefCell<Vec<Step>>,
    pub(crate) failing: Cell<Option<Step>>,
    // How often it was asked what stands under a name.
    looks: Cell<u64>,
}

impl Steps {
    pub(crate) fn new(alloc: Global) -> Steps {
        Steps {
            noted: RefCell::new(Vec::new(alloc)),
            failing: Cell::new(None),
            looks: Cell::new(0),
        }
    }

    // Notes a call, which fails where it is the failing one.
    fn note(&self, step: Step) -> io::Result<()> {
        if self.failing.get() == Some(step) {
            return Err(io::Error::from(io::ErrorKind::BrokenPipe));
        }
        if let Ok(mut noted) = self.noted.try_borrow_mut() {
            noted.push(step)?;
        }
        Ok(())
    }

    // Whether these calls were noted, which are forgotten then.
    pub(crate) fn were(&self, steps: &[Step]) -> bool {
        let Ok(mut noted) = self.noted.try_borrow_mut() else {
            return false;
        };
        let same = noted.as_slice() == steps;
        noted.clear();
        same
    }
}

// The host's files.
#[derive(Clone, Copy)]
pub(crate) struct NotedFiles<'a> {
    pub(crate) rt: HostRuntime,
    pub(crate) steps: &'a Steps,
}

#[derive(Drop)]
pub(crate) struct NotedFile<'a> {
    file: File,
    steps: &'a Steps,
}

impl<'a> Alloc for NotedFiles<'a> {
    type A = Global;

    fn alloc(&self) -> Global {
        self.rt.alloc()
    }
}

impl<'a> Files for NotedFiles<'a> {
    type File = NotedFile<'a>;

    type Dir = <HostRuntime as Files>::Dir;

    fn open_file(&self, how: &OpenOptions, path: &str) -> io::Result<NotedFile<'a>> {
        Ok(NotedFile {
            file: self.rt.open_file(how, path)?,
            steps: self.steps,
        })
    }

    fn open_dir(&self, path: &str) -> io::Result<Self::Dir> {
        self.rt.open_dir(path)
    }

    fn metadata(&self, path: &str) -> io::Result<Metadata> {
        self.rt.metadata(path)
    }

    fn symlink_metadata(&self, path: &str) -> io::Result<Metadata> {
        self.steps
            .looks
            .set(self.steps.looks.get().saturating_add(1));
        if self.steps.failing.get() == Some(Step::Look) {
            return Err(io::Error::from(io::ErrorKind::BrokenPipe));
        }
        self.rt.symlink_metadata(path)
    }

    fn copy(&self, from: &str, to: &str) -> io::Result<u64> {
        self.rt.copy(from, to)
    }

    fn rename(&self, from: &str, to: &str) -> io::Result<()> {
        self.steps.note(Step::Rename)?;
        self.rt.rename(from, to)
    }

    fn hard_link(&self, original: &str, link: &str) -> io::Result<()> {
        self.steps.note(Step::Link)?;
        self.rt.hard_link(original, link)
    }

    fn remove_file(&self, path: &str) -> io::Result<()> {
        self.rt.remove_file(path)
    }

    fn create_dir(&self, path: &str) -> io::Result<()> {
        self.rt.create_dir(path)
    }

    fn remove_dir(&self, path: &str) -> io::Result<()> {
        self.rt.remove_dir(path)
    }

    fn remove_dir_all<B: Allocator>(&self, alloc: B, path: &str) -> io::Result<()> {
        self.rt.remove_dir_all(alloc, path)
    }
}

impl<'a> RandomSource for NotedFiles<'a> {
    fn fill_bytes(&self, buf: &mut [u8]) -> io::Result<()> {
        self.rt.fill_bytes(buf)
    }
}

impl<'a> Read for NotedFile<'a> {
    fn read(&mut self, buf: &mut [u8]) -> io::Result<usize> {
        self.file.read(buf)
    }
}

impl<'a> Write for NotedFile<'a> {
    fn write(&mut self, buf: &[u8]) -> io::Result<usize> {
        self.file.write(buf)
    }

    fn flush(&mut self) -> io::Result<()> {
        self.file.flush()
    }
}

impl<'a> Seek for NotedFile<'a> {
    fn seek(&mut self, to: SeekFrom) -> io::Result<u64> {
        self.file.seek(to)
    }
}

impl<'a> OpenFile for NotedFile<'a> {
    fn metadata(&self) -> io::Result<Metadata> {
        self.file.metadata()
    }

    fn set_len(&self, size: u64) -> io::Result<()> {
        self.file.set_len(size)
    }

    fn sync_all(&self) -> io::Result<()> {
        let step = if self.file.metadata()?.is_dir() {
            Step::SyncFolder
        } else {
            Step::SyncFile
        };
        self.steps.note(step)?;
        self.file.sync_all()
    }

    fn sync_data(&self) -> io::Result<()> {
        self.file.sync_data()
    }
}

// The store of a folder in the tests' own, whose calls are noted.
fn open_noted<'a>(
    rt: &HostRuntime,
    steps: &'a Steps,
    purpose: Purpose,
) -> Result<FolderStore<NotedFiles<'a>>, StoreError> {
    FolderStore::open(
        &NotedFiles { rt: *rt, steps },
        path(rt, "")?.as_str(),
        purpose,
    )
}

// Whether a share is written and closed in that store.
fn closes_one<'a>(
    rt: &HostRuntime,
    store: &mut FolderStore<NotedFiles<'a>>,
    number: u8,
) -> Result<bool, StoreError> {
    for call in [
        Call::Write(INDEX, number, 0, b"\x01\x02"),
        Call::Write(INDEX, number, 2, b"\x03"),
        Call::Close(INDEX, number, 7),
    ] {
        if !gives(rt.alloc(), store, call)? {
            return Ok(false);
        }
    }
    Ok(true)
}

static CLOSE: [Step; 3] = [Step::SyncFile, Step::Rename, Step::SyncFolder];

// Whether each step comes in its order where a share with bytes is closed, and one without.
fn closes_in_order<'a>(
    rt: &HostRuntime,
    steps: &Steps,
    store: &mut FolderStore<NotedFiles<'a>>,
) -> Result<bool, StoreError> {
    Ok(
        closes_one(rt, store, 3)?
            && steps.were(&CLOSE)
            && gives(rt.alloc(), store, Call::Close(INDEX, 4, 7))?
            && steps.were(&CLOSE),
    )
}

// The name of the folder above is put on the disk before the folder is made, and then its own. Of a
// share first the bytes are put there, and its name once it is renamed. What stands in the folder
// counts once its name and those in it are there.
#[test]
fn bytes_come_before_names(rt: HostRuntime) -> Result<(), Fail> {
    remove(&rt)?;
    let steps = Steps::new(rt.alloc());
    assert!(rt; puts_in_order(&rt, &steps)?);
    drop(open_noted(&rt, &steps, Purpose::Writing(Durability::Synced))?);
    assert!(rt; steps.were(&[Step::SyncFolder, Step::SyncFolder]));
    remove(&rt)?;
    Ok(())
}

// Whether a folder is made and shares are closed in it in that order.
fn puts_in_order(rt: &HostRuntime, steps: &Steps) -> Result<bool, StoreError> {
    let mut store = open_noted(rt, steps, Purpose::Writing(Durability::Synced))?;
    let is_made = steps.were(&[Step::SyncFolder, Step::SyncFolder]);
    Ok(is_made && closes_in_order(rt, steps, &mut store)?)
}

// The name of a folder that stands is put on the disk, whoever made it, and no store is opened
// where that fails.
#[test]
fn standing_folders(rt: HostRuntime) -> Result<(), Fail> {
    remove(&rt)?;
    fs::create_dir_all(&rt, path(&rt, "")?.as_str())?;
    let steps = Steps::new(rt.alloc());
    drop(open_noted(&rt, &steps, Purpose::Writing(Durability::Synced))?);
    assert!(rt; steps.were(&[Step::SyncFolder]));
    steps.failing.set(Some(Step::SyncFolder));
    let outcome = open_noted(&rt, &steps, Purpose::Writing(Durability::Synced));
    assert!(rt; matches!(&outcome, Err(StoreError::StoreFault)));
    remove(&rt)?;
    Ok(())
}

// A path, and how many folders are synced where the last one of it is made, and where it stands.
static PATHS: [(&str, usize, usize); 5] = [
    ("/a", 2, 1),
    ("/a/", 2, 1),
    ("/a/b/c", 6, 1),
    ("/a//b/", 4, 1),
    ("/a/b/..", 6, 1),
];

// Whether a folder is made, and stands when it is made again, with so many syncs.
fn is_made(rt: &HostRuntime, case: (&str, usize, usize)) -> Result<bool, Fail> {
    let (name, made, standing) = case;
    remove(rt)?;
    fs::create_dir_all(rt, path(rt, "")?.as_str())?;
    let steps = Steps::new(rt.alloc());
    let noted = NotedFiles {
        rt: *rt,
        steps: &steps,
    };
    let folder = path(rt, name)?;
    let is_new = stands_after(&noted, folder.as_str(), made)?;
    Ok(is_new && stands_after(&noted, folder.as_str(), standing)?)
}

// Whether it stands once it was made, with so many syncs.
fn stands_after(noted: &NotedFiles<'_>, folder: &str, syncs: usize) -> Result<bool, Fail> {
    make_folder(noted, folder, Durability::Synced)?;
    let all = vec![in noted.rt.alloc(); Step::SyncFolder; syncs]?;
    Ok(noted.steps.were(all.as_slice()) && fs::metadata(&noted.rt, folder)?.is_dir())
}

#[test]
fn made_folders(rt: HostRuntime) -> Result<(), Fail> {
    for case in PATHS {
        assert!(rt; is_made(&rt, case)?);
    }
    remove(&rt)?;
    Ok(())
}

// Whether a share is closed and read without a sync, unsynced and for reading.
fn syncs_nothing(rt: &HostRuntime, steps: &Steps) -> Result<bool, Fail> {
    let mut store = open_noted(rt, steps, Purpose::Writing(Durability::Unsynced))?;
    let is_closed = closes_one(rt, &mut store, 3)?;
    drop(open_noted(rt, steps, Purpose::Reading)?);
    Ok(is_closed && steps.were(&[Step::Rename]))
}

#[test]
fn nothing_is_synced_unasked(rt: HostRuntime) -> Result<(), Fail> {
    remove(&rt)?;
    let steps = Steps::new(rt.alloc());
    let is_quiet = syncs_nothing(&rt, &steps)?;
    remove(&rt)?;
    assert!(rt; is_quiet);
    Ok(())
}

// A call that fails in a close, whether the closed file stands then, and whether a further close
// goes well.
static FAILURES: [(Step, bool, bool); 3] = [
    (Step::SyncFile, false, false),
    (Step::Rename, false, true),
    (Step::SyncFolder, true, false),
];

// A failed close leaves the share open, and a whole file under its closed name or none. It can be
// begun anew and closed.
fn fails_and_closes(rt: &HostRuntime, failure: (Step, bool, bool)) -> Result<bool, Fail> {
    let (failing, stands, closes_again) = failure;
    remove(rt)?;
    let closed = file(rt, ".3.", SEVENS)?;
    let steps = Steps::new(rt.alloc());
    let mut store = open_noted(rt, &steps, Purpose::Writing(Durability::Synced))?;
    steps.failing.set(Some(failing));
    let first = closes_one(rt, &mut store, 3);
    steps.failing.set(None);
    Ok(
        first == Err(StoreError::StoreFault)
            && fs::exists(rt, closed.as_str())? == stands
            && closes_later(rt, &mut store, closes_again, closed.as_str())?,
    )
}

// Whether the share is closed now, or not before it is begun anew, and has its bytes.
fn closes_later<'a>(
    rt: &HostRuntime,
    store: &mut FolderStore<NotedFiles<'a>>,
    closes_again: bool,
    closed: &str,
) -> Result<bool, Fail> {
    let again = gives(rt.alloc(), store, Call::Close(INDEX, 3, 7));
    Ok(
        again.is_ok() == closes_again
            && (closes_again || closes_one(rt, store, 3)?)
            && fs::read(rt, closed)?.as_slice() == b"\x01\x02\x03".as_slice(),
    )
}

#[test]
fn failed_closes(rt: HostRuntime) -> Result<(), Fail> {
    for failure in FAILURES {
        assert!(rt; fails_and_closes(&rt, failure)?);
    }
    remove(&rt)?;
    Ok(())
}

// What stands under the names of other shares is not asked as a store is opened for writing, nor
// while it writes a share: then only at its own file is looked, before that is renamed.
#[test]
fn other_shares_are_not_looked_at(rt: HostRuntime) -> Result<(), Fail> {
    remove(&rt)?;
    fs::create_dir_all(&rt, path(&rt, "")?.as_str())?;
    for number in 10..20u8 {
        let rest = format!(in rt.alloc(); ".{number}.")?;
        fs::write(
            &rt,
            file(&rt, rest.as_str(), SEVENS)?.as_str(),
            b"".as_slice(),
        )?;
    }
    let steps = Steps::new(rt.alloc());
    let mut store = open_noted(&rt, &steps, Purpose::Writing(Durability::Synced))?;
    assert_eq!(rt; steps.looks.get(), 0);
    assert!(rt; closes_one(&rt, &mut store, 3)?);
    assert_eq!(rt; steps.looks.get(), 1);
    remove(&rt)?;
    Ok(())
}

static NO_LOOKS: [Call; 3] = [
    Call::List(INDEX, b"\x03", 7),
    Call::Read(INDEX, 3, 0, 9, b"\x01\x02\x03"),
    Call::List(INDEX, b"\x03", 7),
];

// Whether each of these is a fault where no look goes well, and the share is known then.
fn fails_to_look<'a>(
    rt: &HostRuntime,
    store: &mut FolderStore<NotedFiles<'a>>,
    calls: &[Call],
) -> Result<bool, StoreError> {
    let mut failed = 0u64;
    for call in calls {
        failed = failed.saturating_add(1);
        let fails = gives(rt.alloc(), store, *call) == Err(StoreError::StoreFault);
        let is_told = store.failures() == failed;
        if !(fails && is_told && gives(rt.alloc(), store, Call::Closed(INDEX, 3, 7))?) {
            return Ok(false);
        }
    }
    Ok(true)
}

// A look that fails is a fault, after which the share is there as before: it is listed and read
// once looks go well.
#[test]
fn failed_looks(rt: HostRuntime) -> Result<(), Fail> {
    remove(&rt)?;
    let steps = Steps::new(rt.alloc());
    assert!(rt; is_put(&rt, &steps)?);
    let mut store = open_noted(&rt, &steps, Purpose::Reading)?;
    steps.failing.set(Some(Step::Look));
    let fails = fails_to_look(&rt, &mut store, &NO_LOOKS)?;
    steps.failing.set(None);
    assert!(rt; fails && right_calls(rt.alloc(), &mut store, &NO_LOOKS) == 3);
    remove(&rt)?;
    Ok(())
}

// Whether a share is put.
fn is_put(rt: &HostRuntime, steps: &Steps) -> Result<bool, StoreError> {
    let mut store = open_noted(rt, steps, Purpose::Writing(Durability::Synced))?;
    closes_one(rt, &mut store, 3)
}
