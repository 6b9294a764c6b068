//! The files of one storage index, before its shares are put.

ghost use Rattle.std.specs.Prelude.{◌≡◌, ◌≢◌, ◌∷◌, ◌⊎◌, [], All, Ok, Option, Some, true, IfErr};
ghost use Rattle.std.specs.Prelude.{IfOk, IfSome, IsOkUnless, OnErr, OnOk};
ghost use Rattle.std.specs.IoError.{error_kind};
ghost use Rattle.std.specs.declared.io.ErrorKind.TheVariants.{NotFound, OutOfMemory};
ghost use Rattle.share_store.specs.declared.error.StoreError.{StoreError};
ghost use Rattle.std.specs.List.{AllByRecursion};
ghost use Rattle.share_files.specs.declared.acts.Act.TheVariants.{Unlisted};
ghost use Rattle.share_files.specs.declared.fate.Wanted.{Wanted};
ghost use Rattle.share_files.specs.declared.name.FileKind.TheVariants.{Closed};
ghost use Rattle.share_files.specs.Acts.{AreAllowed, IsAway, IsOf, Lists, Was, is_open};
ghost use Rattle.share_files.specs.Acts.{last_listed};
ghost use Rattle.share_files.specs.Known.{HasAllOf};
ghost use Rattle.share_files.specs.Going.{Goes};
ghost use Rattle.share_files.specs.Name.{closed_file};
ghost use Rattle.share_scrub.specs.Clearing.{Counts, IsCleared, IsClearedOf};
ghost use Rattle.share_scrub.specs.Counted.{Counted, GoesCounting, IsCountedSo, IsToldBy};
ghost use Rattle.share_scrub.specs.Counted.{outcome_aside, outcome_removed};
ghost use Rattle.share_scrub.specs.declared.mending.Outcome.TheVariants.{Kept, WasLeft};

use share_files::{
    Fate, FileKind, FolderFiles, KnownFiles, ShareFile, Standing, Wanted, Watch, Went, closed_fate,
    set_aside, settle,
};
use share_folders::names::ClosedName;
use share_store::error::StoreError;
use std::alloc::Global;
use std::io;
use std::io::ErrorKind;
use std::random::RandomSource;
use std::rt::Files;

/// What became of a file.
#[derive(Debug, Drop)]
pub enum Outcome {
    /// It stands where it stood, or is gone.
    Kept,
    /// It was a closed share's, and was set aside.
    WasSetAside,
    /// It was an open share's that was left over, and was removed.
    WasRemoved,
    /// It could not be read, or should have been set aside and could not be.
    WasLeft(io::Error),
    /// It is no regular file.
    WasOdd,
}

/// The file of a closed share that could not be read, or should have been set aside and could not
/// be.
#[derive(Debug, Drop)]
pub struct LeftShare {
    /// The share's number.
    pub share: u8,
    pub reason: io::Error,
}

/// What became of the files of a storage index in one folder.
#[derive(Debug, Drop)]
pub struct Cleared {
    /// How many files of closed shares were set aside.
    pub set_aside: u64,
    /// How many files of open shares that were left over were removed.
    pub open_removed: u64,
    /// Those that should have gone and did not.
    pub left: Vec<LeftShare>,
    /// The numbers of the shares whose closed names are those of something else than a regular
    /// file.
    pub odd: Vec<u8>,
}

impl Cleared {
    /// Before the first file.
    pub fn new(alloc: Global) -> Cleared
        ensures none { (result.set_aside ≡ 0) × (result.open_removed ≡ 0) }
        ensures empty { (result.left.items ≡ []) × (result.odd.items ≡ []) }
    {
        Cleared {
            set_aside: 0,
            open_removed: 0,
            left: Vec::new(alloc),
            odd: Vec::new(alloc),
        }
    }

    /// Counts the file of a share by what became of it. Where memory is refused it is not counted.
    pub fn count(&mut self, share: u8, outcome: Outcome) -> Result<(), StoreError>
        ensures counts { OnOk result (Counts share outcome self.old self.new) }
        ensures err { OnErr result (Counts share Kept self.old self.new) }
        ensures memory { IsOkUnless result StoreError.OutOfMemory }
    {
        match outcome {
            Outcome::Kept => {}
            Outcome::WasSetAside => self.set_aside = self.set_aside.saturating_add(1),
            Outcome::WasRemoved => self.open_removed = self.open_removed.saturating_add(1),
            Outcome::WasLeft(reason) => self.left.push(LeftShare { share, reason })?,
            Outcome::WasOdd => self.odd.push(share)?,
        }
        Ok(())
    }
}

/// Clears the way for the shares of a storage index in a folder. The file of an open share is
/// removed where nobody wrote to it for 600 seconds. The file of a closed share is set aside where
/// it has another length than the shares that are put, and, where their digests are given, where
/// the digest in its name or that of its bytes is none of them. Before all this, what is on its way
/// to be set aside is settled: a whole share gets its closed name back, and is held against what is
/// wanted as others are. Nothing else is touched. A folder that is not there has no files. Where
/// its files are known, as it was listed before, it is listed only behind what was settled.
///
/// `StoreFault` where the folder cannot be read: then nothing was done, but for what was on its
/// way. `OutOfMemory` leaves the files behind which it came as they are, and the one at which it
/// came too, or on its way.
pub fn clear_way<R, W>(
    files: &mut FolderFiles<'_, R>,
    wanted: &Wanted<'_>,
    known: Option<&KnownFiles>,
    watch: &mut W,
) -> Result<Cleared, StoreError>
where
    R: Files + RandomSource + AllocGlobal + Clone + Drop,
    W: Watch,
    requires { files.old ≡ [] }
    ensures cleared { IfOk result (λ cleared. IsCleared wanted.entry.now cleared files.new) }
    ensures allowed { AreAllowed (Some wanted.entry.now) files.new }
    ensures unread { IfErr result
        (λ e. e ≡ StoreError.StoreFault → Was Unlisted files.new) }
{
    let mut cleared = Cleared::new(files.alloc());
    let listed = settle_all(files, wanted, known, &mut cleared, watch)?;
    clear_files(files, listed.as_slice(), wanted, &mut cleared, watch)?;
    Ok(cleared)
}

// Settles what is on its way, and lists the files then.
fn settle_all<R, W>(
    files: &mut FolderFiles<'_, R>,
    wanted: &Wanted<'_>,
    known: Option<&KnownFiles>,
    cleared: &mut Cleared,
    watch: &mut W,
) -> Result<Vec<ShareFile>, StoreError>
where
    R: Files + RandomSource + AllocGlobal + Clone + Drop,
    W: Watch,
    ensures allowed { AreAllowed (Some wanted.entry.now) files.old
        → AreAllowed (Some wanted.entry.now) files.new }
    ensures counted { IsCountedSo wanted.entry.now cleared.old files.old
        → IfOk result (λ _. IsCountedSo wanted.entry.now cleared.new files.new) }
    ensures listed { IfOk result (λ listed. last_listed files.new ≡ Some listed.items) }
    ensures index { IfOk result
        (λ listed. All (λ f. f.key.0 ≡ wanted.entry.now.index) listed.items) }
    ensures unread { IfErr result
        (λ e. e ≡ StoreError.StoreFault → Was Unlisted files.new) }
{
    let listed = first_list(files, wanted, known)?;
    if settle_files(files, listed.as_slice(), wanted, cleared, watch)? {
        Ok(files.list(&wanted.index)?)
    } else {
        Ok(listed)
    }
}

// The files of what is wanted: those that are known, or else as the folder is listed.
fn first_list<R>(
    files: &mut FolderFiles<'_, R>,
    wanted: &Wanted<'_>,
    known: Option<&KnownFiles>,
) -> Result<Vec<ShareFile>, StoreError>
where
    R: Files + RandomSource + AllocGlobal + Clone + Drop,
    ensures listed { IfOk result (λ listed. Lists listed.items files.old files.new) }
    ensures index { IfOk result
        (λ listed. All (λ f. f.key.0 ≡ wanted.entry.now.index) listed.items) }
    ensures known { IfOk result (λ listed.
        IfSome known.entry (λ k. HasAllOf wanted.entry.now.index listed.items k.now)) }
    ensures err { OnErr result
        ((files.new ≡ Unlisted ∷ files.old) ⊎ (files.new ≡ files.old)) }
    ensures unread { IfErr result
        (λ e. e ≡ StoreError.StoreFault → files.new ≡ Unlisted ∷ files.old) }
{
    match known {
        Some(known) => Ok(files.recall_list(known, &wanted.index)?),
        None => Ok(files.list(&wanted.index)?),
    }
}

// Settles those of these files that are on their way, and says whether there are some. One that
// cannot be settled is in nobody's way.
fn settle_files<R, W>(
    files: &mut FolderFiles<'_, R>,
    listed: &[ShareFile],
    wanted: &Wanted<'_>,
    cleared: &mut Cleared,
    watch: &mut W,
) -> Result<bool, StoreError>
where
    R: Files + RandomSource + AllocGlobal + Clone + Drop,
    W: Watch,
    requires { All (λ f. f.key.0 ≡ wanted.now.index) listed.now }
    ensures allowed { AreAllowed (Some wanted.entry.now) files.old
        → AreAllowed (Some wanted.entry.now) files.new }
    ensures counted { IfOk result (λ _.
        GoesCounting wanted.entry.now cleared.old cleared.new files.old files.new) }
    ensures memory { IsOkUnless result StoreError.OutOfMemory }
{
    let mut are_some = false;
    for file in listed {
        let outcome = settle_file(files, file, watch)?;
        are_some = are_some || matches!(file.kind, FileKind::HalfAside(..));
        cleared.count(file.key.1, outcome)?;
    }
    Ok(are_some)
}

// Settles a file, where it is on its way.
fn settle_file<R, W>(
    files: &mut FolderFiles<'_, R>,
    file: &ShareFile,
    watch: &mut W,
) -> Result<Outcome, StoreError>
where
    R: Files + RandomSource + AllocGlobal + Clone + Drop,
    W: Watch,
    ensures counted { (wanted : Option Wanted) → IsOf wanted file.now
        → Counted wanted files.old files.new result }
    ensures memory { IsOkUnless result StoreError.OutOfMemory }
{
    let FileKind::HalfAside(digest, own) = &file.kind else {
        return Ok(Outcome::Kept);
    };
    let (key, digest) = (file.key, *digest);
    match settle(files, &ClosedName { key, digest }, own, watch) {
        Ok(Went::Aside) => Ok(Outcome::WasSetAside),
        Err(error) if error.kind() == ErrorKind::OutOfMemory => Err(StoreError::OutOfMemory),
        Ok(Went::Back) => Ok(Outcome::Kept),
        Err(_) => Ok(Outcome::Kept),
    }
}

// Clears these files away.
fn clear_files<R, W>(
    files: &mut FolderFiles<'_, R>,
    listed: &[ShareFile],
    wanted: &Wanted<'_>,
    cleared: &mut Cleared,
    watch: &mut W,
) -> Result<(), StoreError>
where
    R: Files + RandomSource + AllocGlobal + Clone + Drop,
    W: Watch,
    requires { All (λ f. f.key.0 ≡ wanted.now.index) listed.now }
    ensures allowed { AreAllowed (Some wanted.entry.now) files.old
        → AreAllowed (Some wanted.entry.now) files.new }
    ensures counted { IfOk result (λ _.
        GoesCounting wanted.entry.now cleared.old cleared.new files.old files.new) }
    ensures each { IfOk result (λ _. AllByRecursion
        (λ f. IsClearedOf wanted.entry.now cleared.new files.new f f.kind) listed.now) }
    ensures memory { IsOkUnless result StoreError.OutOfMemory }
{
    for file in listed {
        let outcome = clear_file(files, file, wanted, watch)?;
        cleared.count(file.key.1, outcome)?;
    }
    Ok(())
}

// Clears a file away.
fn clear_file<R, W>(
    files: &mut FolderFiles<'_, R>,
    file: &ShareFile,
    wanted: &Wanted<'_>,
    watch: &mut W,
) -> Result<Outcome, StoreError>
where
    R: Files + RandomSource + AllocGlobal + Clone + Drop,
    W: Watch,
    ensures goes { IsOf (Some wanted.entry.now) file.now
        → Counted (Some wanted.entry.now) files.old files.new result }
    ensures told { IsOf (Some wanted.entry.now) file.now → IfOk result (λ outcome.
        IsToldBy wanted.entry.now file.now files.new outcome file.now.kind) }
    ensures memory { IsOkUnless result StoreError.OutOfMemory }
{
    match &file.kind {
        FileKind::Closed(digest) => {
            let (key, digest) = (file.key, *digest);
            match clear_closed(files, &ClosedName { key, digest }, wanted, watch) {
                Ok(outcome) => Ok(outcome),
                Err(error) => left(error),
            }
        }
        FileKind::Open(_) => Ok(clear_open(files, file)),
        FileKind::HalfAside(..) | FileKind::Aside(..) => Ok(Outcome::Kept),
    }
}

// The file of an open share is removed where nobody writes to it any more. It is in nobody's way,
// so what becomes of others is not told.
fn clear_open<R>(files: &mut FolderFiles<'_, R>, file: &ShareFile) -> Outcome
where
    R: Files + RandomSource + AllocGlobal + Clone + Drop,
    ensures { (wanted : Option Wanted) → IsOf wanted file.now → is_open file.now.kind ≡ true
        → Goes wanted (outcome_aside result) (outcome_removed result) files.old files.new }
{
    match files.look(file) {
        Ok(Standing::Regular(_, true)) => match files.remove(file) {
            Ok(()) => Outcome::WasRemoved,
            Err(_) => Outcome::Kept,
        },
        _ => Outcome::Kept,
    }
}

// Sets the file of a closed share aside, where that is its fate.
fn clear_closed<R, W>(
    files: &mut FolderFiles<'_, R>,
    name: &ClosedName,
    wanted: &Wanted<'_>,
    watch: &mut W,
) -> io::Result<Outcome>
where
    R: Files + RandomSource + AllocGlobal + Clone + Drop,
    W: Watch,
    ensures goes { IsOf (Some wanted.entry.now) (closed_file name.now)
        → Counted (Some wanted.entry.now) files.old files.new result }
    ensures told { IsOf (Some wanted.entry.now) (closed_file name.now)
        → IfOk result (λ outcome. IsToldBy wanted.entry.now (closed_file name.now) files.new
        outcome (Closed name.now.digest)) }
    ensures gone { IsOf (Some wanted.entry.now) (closed_file name.now)
        → IfErr result (λ e. error_kind e ≡ NotFound → IsAway (closed_file name.now) files.new) }
{
    match closed_fate(files, name, Some(wanted), watch)? {
        Fate::SetAside => match set_aside(files, name, Some(wanted))? {
            Went::Aside => Ok(Outcome::WasSetAside),
            Went::Back => Ok(Outcome::Kept),
        },
        Fate::Odd => Ok(Outcome::WasOdd),
        Fate::Keep | Fate::Read => Ok(Outcome::Kept),
    }
}

// A file that could not be looked at or set aside, where it is not gone.
fn left(error: io::Error) -> Result<Outcome, StoreError>
    ensures gone { IfOk result (λ outcome. (outcome ≡ WasLeft error)
        ⊎ ((outcome ≡ Kept) × (error_kind error ≡ NotFound))) }
    ensures left { error_kind error ≢ NotFound → error_kind error ≢ OutOfMemory
        → result ≡ Ok (WasLeft error) }
    ensures memory { IsOkUnless result StoreError.OutOfMemory }
{
    match error.kind() {
        ErrorKind::NotFound => Ok(Outcome::Kept),
        ErrorKind::OutOfMemory => Err(StoreError::OutOfMemory),
        _ => Ok(Outcome::WasLeft(error)),
    }
}
