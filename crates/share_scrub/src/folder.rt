//! The share files of a server's folder, one after the other.

ghost use Rattle.std.specs.Prelude.{◌≡◌, ◌≢◌, ◌++◌, ◌∷◌, [], List, Option, IfNone, IfOk, IfSome};
ghost use Rattle.std.specs.Prelude.{IsOkUnless, OnErr, None, Some, true};
ghost use Rattle.std.specs.IoError.{error_kind};
ghost use Rattle.std.specs.declared.io.ErrorKind.TheVariants.{NotFound};
ghost use Rattle.std.specs.Bool.{OnTrue};
ghost use Rattle.share_store.specs.declared.error.StoreError.{StoreError};
ghost use Rattle.share_store.specs.Shelf.{ShareKey};
ghost use Rattle.share_files.specs.declared.name.ShareFile.{ShareFile};
ghost use Rattle.share_files.specs.declared.acts.Act.{Act};
ghost use Rattle.share_files.specs.declared.acts.Act.TheVariants.{Judged};
ghost use Rattle.share_files.specs.declared.bytes.Verdict.TheVariants.{Damaged};
ghost use Rattle.share_files.specs.declared.name.FileKind.TheVariants.{Closed};
ghost use Rattle.share_files.specs.Acts.{IsNone, Was};
ghost use Rattle.share_files.specs.Name.{closed_file, half_file};
ghost use Rattle.share_files.specs.Verdict.{IsReadAs};
ghost use Rattle.share_scrub.specs.declared.folder.State.TheVariants.{Unreadable};
ghost use Rattle.share_scrub.specs.Scrub.{IsKeptUnless, whole_after};
ghost use Rattle.share_scrub.specs.Seen.{IsSeen, IsSeenAside, IsSeenClosed, IsSeenHalf, IsSeenOpen};
ghost use Rattle.share_scrub.specs.Seen.{IsReadSo, StoodThere, WasSeen};

use crate::ahead::{Ahead, Unread};
use share_files::{
    FileKind, FolderFiles, SeenWhole, ShareFile, Standing, Verdict, Watch, Went, set_aside, settle,
};
use share_folders::names::{ClosedName, OwnToken};
use share_store::error::StoreError;
use share_store::shelf::ShareKey;
use std::io;
use std::io::ErrorKind;
use std::marker::Model;
use std::random::RandomSource;
use std::rt::Files;
use std::time::SystemTime;
use wire::message::Digest;

/// What is done about the files that are found.
#[derive(Clone, Copy)]
pub struct Handling {
    /// Damaged files are set aside: they get a name with `.damaged` at its end, or `.damaged.2` and
    /// so on where that is taken, up to 99. None takes the place of a file that is there. And what
    /// is on its way is settled: a whole share gets its closed name back.
    pub set_aside: bool,
    /// Open files that are left over are removed.
    pub remove_open: bool,
    /// Files that were set aside are removed, where the same share stands closed and whole beside
    /// them.
    pub remove_damaged: bool,
    /// The time now.
    pub now: SystemTime,
}

/// What became of a file.
#[derive(Debug, Drop)]
pub enum Action {
    /// Nothing was asked for. A file that was set aside is left too where no whole one of its share
    /// stands beside it.
    Left,
    /// It was set aside, settled or removed.
    Done,
    /// That failed, and the file stands where it stood.
    Failed(io::Error),
}

/// How a file was found.
#[derive(Debug, Drop)]
pub enum State {
    /// Its bytes have the digest in its name.
    Whole,
    /// They have another.
    Damaged(Action),
    /// It could not be read to its end.
    Unreadable(io::Error),
    /// It has the name of a closed share, and is no regular file: a folder, a link, a pipe. Its
    /// server does not hold that share.
    Odd,
    /// Of an open share: it has so many bytes, and nobody wrote to it for 600 seconds.
    LeftOpen(u64, Action),
    /// Of a closed share, and it was set aside: it has so many bytes.
    Aside(u64, Action),
    /// Of a closed share, and it is on its way to be set aside, or was when its process ended: it
    /// has so many bytes, and may be whole.
    HalfAside(u64, Action),
}

/// A file that was looked at.
#[derive(Debug, Drop)]
pub struct Finding {
    pub file: ShareFile,
    pub state: State,
}

/// The share files of a folder that are still to be looked at. Only their names are held.
#[derive(Drop)]
pub struct Scrub<R: Files> {
    rt: R,
    folder: String,
    // the next one stands last
    left: Vec<ShareFile>,
    ahead: Ahead<R::File>,
    // the share of the last closed file that was whole
    whole: Option<ShareKey>,
    total: u64,
}

impl<R: Files> Model for Scrub<R> {
    ghost use Rattle.share_scrub.specs.Scrub.{ScrubState};

    ghost Value = { ScrubState };

    ghost view = { λ m. record { left = m.left.items; whole = m.whole } };
}

impl<R: Files + RandomSource + AllocGlobal + Clone + Drop> Scrub<R> {
    /// Lists the share files of a folder.
    ///
    /// An error where the folder cannot be read, or there is no memory.
    pub fn begin(rt: &R, folder: &str) -> io::Result<Scrub<R>>
        ensures { IfOk result (λ scrub. scrub.whole ≡ None) }
    {
        let mut listing = FolderFiles::new(rt, folder, SystemTime::UNIX_EPOCH).list_all()?;
        listing.files.reverse();
        Ok(Scrub {
            rt: rt.clone()?,
            folder: String::from_str(rt.alloc(), folder)?,
            left: listing.files,
            ahead: Ahead::new(rt.alloc()),
            whole: None,
            total: listing.total,
        })
    }

    /// How many bytes the closed shares had together when they were listed, with those that were
    /// on their way.
    pub fn total(&self) -> u64 {
        self.total
    }

    // The system.
    pub(crate) fn rt(&self) -> &R {
        &self.rt
    }

    // Is the next file a closed share that was not read yet?
    pub(crate) fn is_next_unread(&self) -> bool {
        match self.left.last() {
            Some(file) => self.unread_digest(file).is_some(),
            None => false,
        }
    }

    // Adds the next closed shares that were not read yet, until there are enough.
    pub(crate) fn find_unread(&self, folder: usize, unread: &mut Unread) -> Result<(), StoreError> {
        for file in self.left.iter().rev() {
            if unread.is_full() {
                return Ok(());
            }
            if let Some(digest) = self.unread_digest(file) {
                let path = file.path(self.rt.alloc(), self.folder.as_str())?;
                unread.add(folder, file, path, &digest)?;
            }
        }
        Ok(())
    }

    // The digest in the name of a closed share, unless it was read.
    fn unread_digest(&self, file: &ShareFile) -> Option<Digest> {
        match &file.kind {
            FileKind::Closed(digest) if !self.ahead.has(file) => Some(*digest),
            _ => None,
        }
    }

    // Takes note of what was seen of a file before its turn.
    pub(crate) fn note(&mut self, file: ShareFile, seen: Option<SeenWhole<R::File>>)
        ensures { self.new ≡ self.old }
    {
        self.ahead.note(file, seen);
    }

    /// Looks at the next files, until there is something to tell of one: of each closed share, of
    /// each file that was set aside, and of open files that are left over. What is gone is passed
    /// over, and so is what has the name of another than a closed share and is no regular file.
    /// `None` at the end.
    ///
    /// An error leaves the file out at which it came.
    pub fn next<W: Watch>(
        &mut self,
        handling: &Handling,
        watch: &mut W,
    ) -> Result<Option<Finding>, StoreError>
        ensures some { IfOk result (λ found. IfSome found (λ finding. (passed : List ShareFile)
            × (self.old.left ≡ self.new.left ++ finding.file ∷ passed))) }
        ensures none { IfOk result (λ found. IfNone found (self.new.left ≡ [])) }
        ensures err { OnErr result
            ((passed : List ShareFile) × (self.old.left ≡ self.new.left ++ passed)) }
        ensures whole { IfOk result (λ found. IfSome found (λ finding.
            self.new.whole ≡ whole_after finding.file.key finding.state self.old.whole)) }
        ensures kept { IfOk result (λ found. IfSome found (λ finding.
            IsKeptUnless self.old.whole finding.file.key finding.state)) }
        ensures seen { IfOk result (λ found. IfSome found WasSeen) }
        ensures read { IfOk result (λ found. IfSome found
            (λ finding. IsReadSo R.File.remaining finding.file.kind finding.state)) }
        ensures memory { IsOkUnless result StoreError.OutOfMemory }
    {
        while let Some(file) = self.left.pop() {
            let seen = self.ahead.take(&file);
            if let Some(state) = self.state_of(&file, seen.as_ref(), handling, watch)? {
                if matches!(state, State::Whole) {
                    self.whole = Some(file.key);
                }
                return Ok(Some(Finding { file, state }));
            }
        }
        Ok(None)
    }

    // How a file is found, and what is done about it.
    fn state_of<W: Watch>(
        &self,
        file: &ShareFile,
        seen: Option<&SeenWhole<R::File>>,
        handling: &Handling,
        watch: &mut W,
    ) -> Result<Option<State>, StoreError>
        ensures kept { IfOk result (λ found. IfSome found (λ state.
            IsKeptUnless self.now.whole file.now.key state)) }
        ensures seen { IfOk result (λ found. IfSome found (IsSeen file.now)) }
        ensures read { IfOk result (λ found. IfSome found
            (IsReadSo R.File.remaining file.now.kind)) }
        ensures memory { IsOkUnless result StoreError.OutOfMemory }
    {
        let mut files = FolderFiles::new(&self.rt, self.folder.as_str(), handling.now);
        let key = file.key;
        match &file.kind {
            FileKind::Closed(digest) => {
                let digest = *digest;
                let name = ClosedName { key, digest };
                closed_state(&mut files, &name, seen, handling, watch)
            }
            FileKind::Open(_) => open_state(&mut files, file, handling),
            FileKind::HalfAside(digest, own) => {
                let digest = *digest;
                half_state(
                    &mut files,
                    &ClosedName { key, digest },
                    own,
                    handling,
                    watch,
                )
            }
            FileKind::Aside(..) => {
                let goes = handling.remove_damaged && self.is_whole(&file.key);
                aside_state(&mut files, file, goes)
            }
        }
    }

    // Whether the closed file that was looked at last and was whole is of this share.
    fn is_whole(&self, key: &ShareKey) -> bool
        ensures { OnTrue result (self.now.whole ≡ Some key.now) }
    {
        match &self.whole {
            Some(whole) => *whole == *key,
            None => false,
        }
    }
}

// How the file of a closed share is found: by its bytes, where it is a regular file, unless it was
// seen whole before.
fn closed_state<R, W>(
    files: &mut FolderFiles<'_, R>,
    name: &ClosedName,
    seen: Option<&SeenWhole<R::File>>,
    handling: &Handling,
    watch: &mut W,
) -> Result<Option<State>, StoreError>
where
    R: Files + RandomSource + AllocGlobal + Clone + Drop,
    W: Watch,
    ensures kept { (whole : Option ShareKey) (key : ShareKey) → IfOk result
        (λ found. IfSome found (λ state. IsKeptUnless whole key state)) }
    ensures seen { IfOk result (λ found. IfSome found
        (IsSeenClosed (closed_file name.now) name.now.digest files.new)) }
    ensures read { IfOk result (λ found. IfSome found
        (IsReadSo R.File.remaining (Closed name.now.digest))) }
    ensures memory { IsOkUnless result StoreError.OutOfMemory }
{
    let file = ShareFile::closed(name);
    if let Some(seen) = seen {
        if files.recall(&file, &name.digest, seen) {
            return Ok(Some(State::Whole));
        }
    }
    read_state(files, name, handling, watch)
}

// The same of one that is read now.
fn read_state<R, W>(
    files: &mut FolderFiles<'_, R>,
    name: &ClosedName,
    handling: &Handling,
    watch: &mut W,
) -> Result<Option<State>, StoreError>
where
    R: Files + RandomSource + AllocGlobal + Clone + Drop,
    W: Watch,
    ensures kept { (whole : Option ShareKey) (key : ShareKey) → IfOk result
        (λ found. IfSome found (λ state. IsKeptUnless whole key state)) }
    ensures seen { IfOk result (λ found. IfSome found
        (IsSeenClosed (closed_file name.now) name.now.digest files.new)) }
    ensures read { IfOk result (λ found. IfSome found
        (IsReadSo R.File.remaining (Closed name.now.digest))) }
    ensures memory { IsOkUnless result StoreError.OutOfMemory }
{
    let file = ShareFile::closed(name);
    match files.look(&file) {
        Ok(Standing::Odd) => return Ok(Some(State::Odd)),
        Ok(Standing::Regular(..)) => {}
        Err(error) => return unreadable(error),
    }
    match files.judge(&file, &name.digest, watch) {
        Ok(Verdict::Whole) => Ok(Some(State::Whole)),
        Ok(Verdict::Damaged) => damaged_state(files, name, handling),
        Err(error) => unreadable(error),
    }
}

// A damaged file is set aside, where that is asked for.
fn damaged_state<R>(
    files: &mut FolderFiles<'_, R>,
    name: &ClosedName,
    handling: &Handling,
) -> Result<Option<State>, StoreError>
where
    R: Files + RandomSource + AllocGlobal + Clone + Drop,
    ensures kept { (whole : Option ShareKey) (key : ShareKey) → IfOk result
        (λ found. IfSome found (λ state. IsKeptUnless whole key state)) }
    ensures seen { IsNone None (closed_file name.now) name.now.digest files.old
        → Was (Judged (closed_file name.now) name.now.digest Damaged) files.old
        → IfOk result (λ found. IfSome found
        (IsSeenClosed (closed_file name.now) name.now.digest files.new)) }
    ensures read { IsReadAs R.File.remaining name.now.digest Damaged
        → IfOk result (λ found. IfSome found
        (IsReadSo R.File.remaining (Closed name.now.digest))) }
    ensures memory { IsOkUnless result StoreError.OutOfMemory }
{
    if !handling.set_aside {
        return Ok(Some(State::Damaged(Action::Left)));
    }
    let action = match set_aside(files, name, None) {
        Ok(Went::Aside) => Action::Done,
        // another file has its name since
        Ok(Went::Back) => Action::Failed(io::Error::from(ErrorKind::NotFound)),
        Err(error) => failed(error)?,
    };
    Ok(Some(State::Damaged(action)))
}

// How a file that is on its way is found: it is settled, where that is asked for. What another
// settled meanwhile is passed over.
fn half_state<R, W>(
    files: &mut FolderFiles<'_, R>,
    name: &ClosedName,
    own: &OwnToken,
    handling: &Handling,
    watch: &mut W,
) -> Result<Option<State>, StoreError>
where
    R: Files + RandomSource + AllocGlobal + Clone + Drop,
    W: Watch,
    ensures kept { (whole : Option ShareKey) (key : ShareKey) → IfOk result
        (λ found. IfSome found (λ state. IsKeptUnless whole key state)) }
    ensures seen { IfOk result
        (λ found. IfSome found (IsSeenHalf (half_file name.now own.now) files.new)) }
    ensures memory { IsOkUnless result StoreError.OutOfMemory }
{
    let file = ShareFile::half_aside(name, *own);
    let Some(length) = length_of(files, &file)? else {
        return Ok(None);
    };
    if !handling.set_aside {
        return Ok(Some(State::HalfAside(length, Action::Left)));
    }
    let action = match settle(files, name, own, watch) {
        Ok(_) => Action::Done,
        Err(error) if error.kind() == ErrorKind::NotFound => return Ok(None),
        Err(error) => failed(error)?,
    };
    Ok(Some(State::HalfAside(length, action)))
}

// How an open share's file is found, where nobody writes to it any more.
fn open_state<R>(
    files: &mut FolderFiles<'_, R>,
    file: &ShareFile,
    handling: &Handling,
) -> Result<Option<State>, StoreError>
where
    R: Files + RandomSource + AllocGlobal + Clone + Drop,
    ensures kept { (whole : Option ShareKey) (key : ShareKey) → IfOk result
        (λ found. IfSome found (λ state. IsKeptUnless whole key state)) }
    ensures seen { IfOk result (λ found. IfSome found (IsSeenOpen file.now files.new)) }
    ensures memory { IsOkUnless result StoreError.OutOfMemory }
{
    let length = match files.look(file) {
        Ok(Standing::Regular(length, true)) => length,
        Ok(_) => return Ok(None),
        Err(error) => return unreadable(error),
    };
    let action = if handling.remove_open {
        removal(files, file)?
    } else {
        Action::Left
    };
    Ok(Some(State::LeftOpen(length, action)))
}

// How a file that was set aside is found, and it is removed where it is to go.
fn aside_state<R>(
    files: &mut FolderFiles<'_, R>,
    file: &ShareFile,
    goes: bool,
) -> Result<Option<State>, StoreError>
where
    R: Files + RandomSource + AllocGlobal + Clone + Drop,
    ensures kept { (whole : Option ShareKey) (key : ShareKey) → (goes ≡ true → whole ≡ Some key)
        → IfOk result (λ found. IfSome found (λ state. IsKeptUnless whole key state)) }
    ensures seen { IfOk result (λ found. IfSome found (IsSeenAside file.now files.new)) }
    ensures memory { IsOkUnless result StoreError.OutOfMemory }
{
    let Some(length) = length_of(files, file)? else {
        return Ok(None);
    };
    let action = if goes {
        removal(files, file)?
    } else {
        Action::Left
    };
    Ok(Some(State::Aside(length, action)))
}

// How many bytes a regular file has. What is none or cannot be asked is no share, and is passed
// over.
fn length_of<R>(files: &mut FolderFiles<'_, R>, file: &ShareFile) -> Result<Option<u64>, StoreError>
where
    R: Files + RandomSource + AllocGlobal + Clone + Drop,
    ensures stood { IfOk result
        (λ found. IfSome found (λ length. StoodThere file.now length files.new)) }
    ensures memory { IsOkUnless result StoreError.OutOfMemory }
{
    match files.look(file) {
        Ok(Standing::Regular(length, _)) => Ok(Some(length)),
        Ok(Standing::Odd) => Ok(None),
        Err(error) if error.kind() == ErrorKind::OutOfMemory => Err(StoreError::OutOfMemory),
        Err(_) => Ok(None),
    }
}

// A file that cannot be read. What is gone is passed over.
fn unreadable(error: io::Error) -> Result<Option<State>, StoreError>
    ensures kept { (whole : Option ShareKey) (key : ShareKey) → IfOk result
        (λ found. IfSome found (λ state. IsKeptUnless whole key state)) }
    ensures seen { IfOk result (λ found. IfSome found
        (λ state. (state ≡ Unreadable error) × (error_kind error ≢ NotFound))) }
    ensures memory { IsOkUnless result StoreError.OutOfMemory }
{
    match error.kind() {
        ErrorKind::NotFound => Ok(None),
        ErrorKind::OutOfMemory => Err(StoreError::OutOfMemory),
        _ => Ok(Some(State::Unreadable(error))),
    }
}

// Removes a file.
fn removal<R>(files: &mut FolderFiles<'_, R>, file: &ShareFile) -> Result<Action, StoreError>
where
    R: Files + RandomSource + AllocGlobal + Clone + Drop,
    ensures still { (act : Act) → Was act files.old → Was act files.new }
    ensures memory { IsOkUnless result StoreError.OutOfMemory }
{
    match files.remove(file) {
        Ok(()) => Ok(Action::Done),
        Err(error) => failed(error),
    }
}

// What was to be done and failed.
fn failed(error: io::Error) -> Result<Action, StoreError>
    ensures memory { IsOkUnless result StoreError.OutOfMemory }
{
    match error.kind() {
        ErrorKind::OutOfMemory => Err(StoreError::OutOfMemory),
        _ => Ok(Action::Failed(error)),
    }
}
