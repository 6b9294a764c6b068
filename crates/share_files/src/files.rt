//! The files of a server's folder: all by which they are looked at, and by which their names are
//! changed.

ghost use Rattle.std.specs.Prelude.{◌≡◌, ◌≢◌, ◌<◌, [], ◌∷◌, List, length, All, IfErr, IfOk, OnErr};
ghost use Rattle.std.specs.Prelude.{IsSorted};
ghost use Rattle.std.specs.Bool.{OnFalse, OnTrue};
ghost use Rattle.std.specs.IoError.{error_kind};
ghost use Rattle.std.specs.declared.io.ErrorKind.TheVariants.{NotFound, OutOfMemory};
ghost use Rattle.share_files.specs.declared.acts.Act.{Act};
ghost use Rattle.share_files.specs.declared.acts.Act.TheVariants.{Found, Judged, Made, Moved};
ghost use Rattle.share_files.specs.declared.acts.Act.TheVariants.{Removed, Unlisted};
ghost use Rattle.share_files.specs.declared.name.ShareFile.{ShareFile};
ghost use Rattle.share_files.specs.Acts.{Lists};
ghost use Rattle.share_files.specs.declared.bytes.Verdict.TheVariants.{Whole};
ghost use Rattle.share_files.specs.Failures.{failure_of};
ghost use Rattle.share_files.specs.Known.{HasAllOf};
ghost use Rattle.share_files.specs.Verdict.{IsReadAs};
ghost use Rattle.share_files.specs.Order.{file_order};

use crate::acts::{Act, Acts, Standing};
use crate::bytes::{Verdict, Watch, check_bytes};
use crate::changes::{make_file, remove_file, rename_file};
use crate::known::KnownFiles;
use crate::name::{FileKind, ShareFile};
use crate::seen::SeenWhole;
use cap_text::to_base32;
use disks::system::SystemDisk;
use share_folders::names::{OwnToken, draw_token};
use share_store::error::StoreError;
use std::alloc::{AllocError, Global};
use std::fs::{DirEntry, File, Metadata, OpenFile};
use std::io::ErrorKind;
use std::marker::Model;
use std::random::RandomSource;
use std::rt::Files;
use std::snapshot::Snapshot;
use std::time::{Duration, SystemTime};
use std::{fs, io};
use wire::message::{Digest, StorageIndex};

/// After so many seconds without a write an open share is left over: no server writes to it any
/// more.
pub const OPEN_SECONDS: u64 = 600;

// How many bytes are read at once.
const PIECE_SIZE: usize = 65_536;

/// The share files of a folder, and how many bytes those had together that may be shares.
#[derive(Drop)]
pub struct Listing {
    pub files: Vec<ShareFile>,
    pub total: u64,
}

/// The share files of a server's folder. All that is done to them goes through this, and contracts
/// see what was done: each method makes one call of the system, and adds one act. Where memory is
/// refused, the error is of that kind.
#[derive(Drop)]
pub struct FolderFiles<'a, R> {
    rt: &'a R,
    folder: &'a str,
    now: SystemTime,
    acts: Acts,
}

impl<'a, R> Model for FolderFiles<'a, R> {
    ghost use Rattle.std.specs.Prelude.{List};
    ghost use Rattle.share_files.specs.declared.acts.Act.{Act};

    ghost Value = { List Act };

    ghost view = { λ f. f.acts.done };
}

impl<'a, R> FolderFiles<'a, R>
where
    R: Files + RandomSource + AllocGlobal + Clone + Drop,
{
    /// What allocates.
    pub fn alloc(&self) -> Global {
        self.rt.alloc()
    }

    /// Those of this folder, at this time. Nothing was done yet.
    pub fn new(rt: &'a R, folder: &'a str, now: SystemTime) -> FolderFiles<'a, R>
        ensures { result ≡ [] }
    {
        FolderFiles {
            rt,
            folder,
            now,
            acts: Acts::new(),
        }
    }

    // Adds an act.
    fn add(&mut self, act: &Act)
        ensures { self.new ≡ act.now ∷ self.old }
    {
        self.acts = self.acts.with(act);
    }

    // Adds what a call came to, which was to do this with a file.
    fn came<T: Drop>(
        &mut self,
        file: &ShareFile,
        act: &Act,
        outcome: io::Result<T>,
    ) -> io::Result<T>
        ensures result { result ≡ outcome }
        ensures ok { IfOk outcome (λ _. self.new ≡ act.now ∷ self.old) }
        ensures err { IfErr outcome
            (λ e. self.new ≡ failure_of (error_kind e) file.now ∷ self.old) }
    {
        match &outcome {
            Ok(_) => self.add(act),
            Err(error) => self.add(&Act::failure(error, file)),
        }
        outcome
    }

    // The folder, of which names are changed.
    fn disk(&self) -> io::Result<SystemDisk<&'a R>> {
        let folder = String::from_str(self.rt.alloc(), self.folder)?;
        Ok(SystemDisk::new(self.rt, folder))
    }

    // The path of a file.
    fn path(&self, file: &ShareFile) -> io::Result<String> {
        file.path(self.rt.alloc(), self.folder).map_err(as_io)
    }

    /// The files of a storage index, in their order. A folder that is not there has none.
    pub fn list(&mut self, index: &StorageIndex) -> io::Result<Vec<ShareFile>>
        ensures listed { IfOk result (λ files. Lists files.items self.old self.new) }
        ensures index { IfOk result (λ files. All (λ f. f.key.0 ≡ index.now) files.items) }
        ensures sorted { IfOk result (λ files. IsSorted file_order files.items) }
        ensures err { OnErr result (self.new ≡ Unlisted ∷ self.old) }
    {
        let outcome = files_of(self.rt, self.folder, index);
        self.came_of_list(outcome)
    }

    /// The files of every storage index, to be told by theirs. A folder that is not there has none.
    pub fn list_known(&mut self) -> io::Result<KnownFiles>
        ensures listed { IfOk result (λ known. Lists known self.old self.new) }
        ensures err { IfErr result
            (λ e. error_kind e ≢ OutOfMemory → self.new ≡ Unlisted ∷ self.old) }
    {
        let outcome = every_file(self.rt, self.folder);
        let files = self.came_of_list(outcome)?;
        Ok(KnownFiles::of(self.rt.alloc(), &files)?)
    }

    /// The files of a storage index, of those that are known. Nothing is done where memory is
    /// refused, which alone can fail.
    pub fn recall_list(
        &mut self,
        known: &KnownFiles,
        index: &StorageIndex,
    ) -> Result<Vec<ShareFile>, AllocError>
        ensures listed { IfOk result (λ files. Lists files.items self.old self.new) }
        ensures index { IfOk result (λ files. All (λ f. f.key.0 ≡ index.now) files.items) }
        ensures all { IfOk result (λ files. HasAllOf index.now files.items known.now) }
        ensures err { OnErr result (self.new ≡ self.old) }
    {
        let files = known.of_index(self.rt.alloc(), index)?;
        self.add(&Act::Listed(Snapshot::of(&files)));
        Ok(files)
    }

    // Adds what a listing came to.
    fn came_of_list(&mut self, outcome: io::Result<Vec<ShareFile>>) -> io::Result<Vec<ShareFile>>
        ensures same { result ≡ outcome }
        ensures listed { IfOk outcome (λ files. Lists files.items self.old self.new) }
        ensures err { OnErr outcome (self.new ≡ Unlisted ∷ self.old) }
    {
        match &outcome {
            Ok(files) => self.add(&Act::Listed(Snapshot::of(files))),
            Err(_) => self.add(&Act::Unlisted),
        }
        outcome
    }

    /// All files of the folder, in their order.
    pub fn list_all(&self) -> io::Result<Listing>
        ensures { IfOk result (λ listing. IsSorted file_order listing.files.items) }
    {
        let mut listing = Listing {
            files: Vec::new(self.rt.alloc()),
            total: 0,
        };
        for entry in fs::read_dir(self.rt, self.folder)? {
            match entry {
                Ok(entry) => note_entry(&mut listing, &entry)?,
                Err(error) if error.kind() == ErrorKind::InvalidFilename => {}
                Err(error) => return Err(error),
            }
        }
        listing.files.sort_unstable();
        Ok(listing)
    }

    /// What stands under a file's name. A link is not followed.
    pub fn look(&mut self, file: &ShareFile) -> io::Result<Standing>
        ensures found { IfOk result (λ found. self.new ≡ Found file.now found ∷ self.old) }
        ensures err { IfErr result
            (λ e. self.new ≡ failure_of (error_kind e) file.now ∷ self.old) }
    {
        match self.standing(file) {
            Ok(found) => {
                self.add(&Act::Found(*file, found));
                Ok(found)
            }
            Err(error) => {
                self.add(&Act::failure(&error, file));
                Err(error)
            }
        }
    }

    // The same, which is not added.
    fn standing(&self, file: &ShareFile) -> io::Result<Standing> {
        let path = self.path(file)?;
        let found = fs::symlink_metadata(self.rt, path.as_str())?;
        if !found.is_file() {
            return Ok(Standing::Odd);
        }
        Ok(Standing::Regular(found.len(), is_left_over(&found, self.now)))
    }

    /// Whether the bytes of a file have this digest.
    pub fn judge<W: Watch>(
        &mut self,
        file: &ShareFile,
        digest: &Digest,
        watch: &mut W,
    ) -> io::Result<Verdict>
        ensures read { IfOk result (IsReadAs R.File.remaining digest.now) }
        ensures judged { IfOk result
            (λ verdict. self.new ≡ Judged file.now digest.now verdict ∷ self.old) }
        ensures err { IfErr result
            (λ e. self.new ≡ failure_of (error_kind e) file.now ∷ self.old) }
    {
        match self.verdict(file, digest, watch) {
            Ok(verdict) => {
                self.add(&Act::Judged(*file, *digest, verdict));
                Ok(verdict)
            }
            Err(error) => {
                self.add(&Act::failure(&error, file));
                Err(error)
            }
        }
    }

    /// Whether the bytes of a file that was read before have this digest. Nothing is done where
    /// they have another.
    pub fn recall(&mut self, file: &ShareFile, digest: &Digest, seen: &SeenWhole<R::File>) -> bool
        ensures read { OnTrue result (IsReadAs R.File.remaining digest.now Whole) }
        ensures judged { OnTrue result
            (self.new ≡ Judged file.now digest.now Whole ∷ self.old) }
        ensures other { OnFalse result (self.new ≡ self.old) }
    {
        if !seen.is_of(digest) {
            return false;
        }
        self.add(&Act::Judged(*file, *digest, Verdict::Whole));
        true
    }

    // Whether the bytes of a file have this digest, which is not added.
    fn verdict<W: Watch>(
        &self,
        file: &ShareFile,
        digest: &Digest,
        watch: &mut W,
    ) -> io::Result<Verdict>
        ensures { IfOk result (IsReadAs R.File.remaining digest.now) }
    {
        let path = self.path(file)?;
        let mut buffer = vec![in self.rt.alloc(); 0u8; PIECE_SIZE]?;
        check_with(self.rt, path.as_str(), digest, &mut buffer, watch)
    }

    /// Gives a file another name. What has that name is replaced.
    pub(crate) fn rename(&mut self, from: &ShareFile, to: &ShareFile) -> io::Result<()>
        ensures moved { IfOk result (λ _. self.new ≡ Moved from.now to.now ∷ self.old) }
        ensures err { IfErr result
            (λ e. self.new ≡ failure_of (error_kind e) from.now ∷ self.old) }
    {
        let outcome = self.renaming(from, to);
        self.came(from, &Act::Moved(*from, *to), outcome)
    }

    // The same, which is not added.
    fn renaming(&self, from: &ShareFile, to: &ShareFile) -> io::Result<()> {
        let mut disk = self.disk()?;
        rename_file(self.rt.alloc(), &mut disk, from, to).map_err(|error| error.reason())
    }

    /// Makes an empty file under a name that is free.
    pub(crate) fn make(&mut self, file: &ShareFile) -> io::Result<()>
        ensures made { IfOk result (λ _. self.new ≡ Made file.now ∷ self.old) }
        ensures err { IfErr result
            (λ e. self.new ≡ failure_of (error_kind e) file.now ∷ self.old) }
    {
        let outcome = self.making(file);
        self.came(file, &Act::Made(*file), outcome)
    }

    // The same, which is not added.
    fn making(&self, file: &ShareFile) -> io::Result<()> {
        let mut disk = self.disk()?;
        make_file(self.rt.alloc(), &mut disk, file).map_err(|error| error.reason())
    }

    /// Removes a file.
    pub fn remove(&mut self, file: &ShareFile) -> io::Result<()>
        ensures removed { IfOk result (λ _. self.new ≡ Removed file.now ∷ self.old) }
        ensures err { IfErr result
            (λ e. self.new ≡ failure_of (error_kind e) file.now ∷ self.old) }
    {
        let outcome = self.removing(file);
        self.came(file, &Act::Removed(*file), outcome)
    }

    // The same, which is not added.
    fn removing(&self, file: &ShareFile) -> io::Result<()> {
        let mut disk = self.disk()?;
        remove_file(self.rt.alloc(), &mut disk, file).map_err(|error| error.reason())
    }

    /// Puts the bytes of a file on the disk.
    pub(crate) fn sync(&self, file: &ShareFile) -> io::Result<()> {
        let path = self.path(file)?;
        File::open(self.rt, path.as_str())?.sync_all()
    }

    /// Puts the names of the folder on the disk.
    pub(crate) fn sync_names(&self) -> io::Result<()> {
        File::open(self.rt, self.folder)?.sync_all()
    }

    /// 16 bytes that no name has yet.
    pub(crate) fn draw(&self) -> io::Result<OwnToken>
        ensures { IfErr result (λ e. error_kind e ≢ NotFound) }
    {
        match draw_token(self.rt) {
            Err(error) if error.kind() == ErrorKind::NotFound => {
                Err(io::Error::from(ErrorKind::Other))
            }
            outcome => outcome,
        }
    }
}

// The files of a storage index in a folder, in their order. A folder may hold many of others: their
// names are compared with the letters of the index, and no more.
fn files_of<R: Files + AllocGlobal + Clone + Drop>(
    rt: &R,
    folder: &str,
    index: &StorageIndex,
) -> io::Result<Vec<ShareFile>>
    ensures index { IfOk result (λ files. All (λ f. f.key.0 ≡ index.now) files.items) }
    ensures sorted { IfOk result (λ files. IsSorted file_order files.items) }
{
    let alloc = rt.alloc();
    let letters = to_base32(alloc, index).map_err(|_| io::Error::from(ErrorKind::OutOfMemory))?;
    let mut files = Vec::new(alloc);
    let entries = match fs::read_dir(rt, folder) {
        Err(error) if error.kind() == ErrorKind::NotFound => return Ok(files),
        outcome => outcome?,
    };
    for entry in entries {
        match entry {
            Ok(entry) => {
                let name = entry.file_name();
                note(&mut files, name.as_bytes(), letters.as_bytes(), index)?;
            }
            Err(error) if error.kind() == ErrorKind::InvalidFilename => {}
            Err(error) => return Err(error),
        }
    }
    files.sort_unstable();
    Ok(files)
}

// All share files of a folder, in their order.
fn every_file<R: Files + AllocGlobal + Clone + Drop>(
    rt: &R,
    folder: &str,
) -> io::Result<Vec<ShareFile>> {
    let mut files = Vec::new(rt.alloc());
    let entries = match fs::read_dir(rt, folder) {
        Err(error) if error.kind() == ErrorKind::NotFound => return Ok(files),
        outcome => outcome?,
    };
    for entry in entries {
        match entry {
            Ok(entry) => {
                if let Some(file) = ShareFile::read(entry.file_name().as_bytes()) {
                    files.push(file)?;
                }
            }
            Err(error) if error.kind() == ErrorKind::InvalidFilename => {}
            Err(error) => return Err(error),
        }
    }
    files.sort_unstable();
    Ok(files)
}

// The error of the system for that of a store.
fn as_io(error: StoreError) -> io::Error {
    match error {
        StoreError::OutOfMemory => io::Error::from(ErrorKind::OutOfMemory),
        StoreError::StoreFault => io::Error::from(ErrorKind::Other),
    }
}

// Takes note of a file of a storage index, whose letters its name begins with.
fn note(
    files: &mut Vec<ShareFile>,
    name: &[u8],
    letters: &[u8],
    index: &StorageIndex,
) -> io::Result<()>
    ensures { All (λ f. f.key.0 ≡ index.now) files.old.items
        → All (λ f. f.key.0 ≡ index.now) files.new.items }
{
    if name.starts_with(letters) {
        if let Some(file) = ShareFile::read(name) {
            if file.key.0 == *index {
                files.push(file)?;
            }
        }
    }
    Ok(())
}

// Takes note of a share's file, and of how many bytes it has that may be a share's.
fn note_entry<R: Files + AllocGlobal>(
    listing: &mut Listing,
    entry: &DirEntry<R>,
) -> io::Result<()> {
    let Some(file) = ShareFile::read(entry.file_name().as_bytes()) else {
        return Ok(());
    };
    if matches!(file.kind, FileKind::Closed(_) | FileKind::HalfAside(..)) {
        let length = entry.metadata().map_or(0, |found| found.len());
        listing.total = listing.total.saturating_add(length);
    }
    listing.files.push(file)?;
    Ok(())
}

// Whether the bytes of the file at a path have this digest, which are read into a buffer.
fn check_with<R: Files, W: Watch>(
    rt: &R,
    path: &str,
    digest: &Digest,
    buffer: &mut [u8],
    watch: &mut W,
) -> io::Result<Verdict>
    requires { 0 < length buffer.old }
    ensures { IfOk result (IsReadAs R.File.remaining digest.now) }
{
    let mut file = File::open(rt, path)?;
    check_bytes(&mut file, digest, buffer, watch)
}

// Whether nobody wrote to a file for so long that nobody will.
fn is_left_over(found: &Metadata, now: SystemTime) -> bool {
    let Ok(written) = found.modified() else {
        return false;
    };
    match now.duration_since(written) {
        Ok(age) => age >= Duration::from_secs(OPEN_SECONDS),
        Err(_) => false,
    }
}
