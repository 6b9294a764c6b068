//! A store over the files of a folder.

ghost use Rattle.std.specs.Prelude.{◌≡◌, ◌-◌, ◌<◌, ◌≤◌, ◌^◌, ◌⊎◌, [], IfOk, IsErrOf, IsNone, List};
ghost use Rattle.std.specs.Prelude.{is_none};
ghost use Rattle.std.specs.String.{string_bytes};
ghost use Rattle.disks.specs.Names.{Name};
ghost use Rattle.share_store.specs.declared.error.StoreError.{StoreError};
ghost use Rattle.share_folders.specs.declared.listing.Purpose.{Purpose};
ghost use Rattle.share_folders.specs.Folder.{FolderState, counted, durability_of, folder_calls};
ghost use Rattle.share_folders.specs.Listed.{AreTaken};

pub use crate::disk::Durability;
use crate::disk::make_folder;
use crate::kept::DiskStore;
pub use crate::listing::Purpose;
use crate::listing::{Listing, is_readonly, list_folder, own_token};
use disks::system::SystemDisk;
use share_store::error::StoreError;
use share_store::shelf::key_of;
use share_store::store::Store;
use std::alloc::Global;
use std::marker::Model;
use std::random::RandomSource;
use std::rt::Files;
use wire::message::{Digest, HeldList, ReadData, ReadLength, ShareId, StorageIndex};

/// A store over the files of a folder. The names of the closed shares are read once, when it is
/// opened. A share's file is looked at when its share is asked for, and stays open while it is
/// written, or read. A folder's room is its disk's, so no lengths are summed.
///
/// The files of open shares have names that no other store makes: none removes, renames or writes
/// what another has, and each closed name is given to what its store wrote. Those that a process
/// leaves when it ends stay there until somebody removes them.
///
/// A synced store puts a share's bytes on the disk, renames its file and then puts the names of its
/// folder on the disk: where one of them fails, so does the close, and the share is open as it was.
/// A further close goes well only where it was the rename that failed; else none does until the
/// share is begun anew. Where only the names could not be put on the disk, the file stands under
/// its closed name, whole, and a power failure may take that name away. Once the share is begun
/// anew, a close under the same digest puts the new file, which is whole too, in its place; one
/// under another digest stands beside it. A store that is opened later finds the share closed.
#[derive(Drop)]
pub struct FolderStore<R: Files + AllocGlobal + Clone + Drop> {
    store: DiskStore<SystemDisk<R>>,
    failures: u64,
}

impl<R: Files + AllocGlobal + Clone + Drop> Model for FolderStore<R> {
    ghost use Rattle.std.specs.String.{string_bytes};
    ghost use Rattle.share_folders.specs.Folder.{FolderState, lengths_of};

    ghost Value = { FolderState };

    ghost view = { λ m. record {
      folder = string_bytes m.store.disk.folder;
      own = m.store.own;
      durability = m.store.durability;
      closed = m.store.closed.entries;
      opened = lengths_of m.store.opened.entries;
      failures = m.failures;
    } };
}

impl<R: Files + RandomSource + AllocGlobal + Clone + Drop> FolderStore<R> {
    /// Opens the store of a folder, which is made where it is not there. Files of open shares are
    /// ignored, and so are files with other names and what is no regular file. Of two closed files
    /// of one share the one with the lower digest text counts.
    ///
    /// `StoreFault` where the folder cannot be made or read, or, for synced writing, its name or
    /// the names of the closed shares not be put on the disk, and where the system gives no random
    /// bytes for the names of open files.
    pub fn open(rt: &R, folder: &str, purpose: Purpose) -> Result<FolderStore<R>, StoreError>
        ensures begins { IfOk result (λ s. (s.folder ≡ folder.now) × (s.opened ≡ [])
            × (s.failures ≡ 0)) }
        ensures reading { IfOk result (λ s. purpose ≡ Purpose.Reading → IsNone s.own) }
        ensures durability { IfOk result (λ s. s.durability ≡ durability_of purpose) }
        ensures taken { IfOk result (λ s. (names : List Name) × AreTaken names s.closed) }
    {
        make_folder(rt, folder, purpose.durability())?;
        FolderStore::open_standing(rt, folder, purpose)
    }

    /// The same of a folder that is there. Its name is its maker's to put on the disk, so that this
    /// is done once for many.
    pub fn open_standing(
        rt: &R,
        folder: &str,
        purpose: Purpose,
    ) -> Result<FolderStore<R>, StoreError>
        ensures begins { IfOk result (λ s. (s.folder ≡ folder.now) × (s.opened ≡ [])
            × (s.failures ≡ 0)) }
        ensures reading { IfOk result (λ s. purpose ≡ Purpose.Reading → IsNone s.own) }
        ensures durability { IfOk result (λ s. s.durability ≡ durability_of purpose) }
        ensures taken { IfOk result (λ s. (names : List Name) × AreTaken names s.closed) }
    {
        let mut disk = disk_of(rt, folder)?;
        let listing = list_folder(rt.alloc(), &mut disk, purpose.durability())?;
        FolderStore::over(disk, purpose, listing)
    }

    // The store of a folder that was listed.
    fn over(
        disk: SystemDisk<R>,
        purpose: Purpose,
        listing: Listing,
    ) -> Result<FolderStore<R>, StoreError>
        ensures begins { IfOk result (λ s. (s.folder ≡ string_bytes disk.folder) × (s.opened ≡ [])
            × (s.failures ≡ 0)) }
        ensures reading { IfOk result (λ s. purpose ≡ Purpose.Reading → IsNone s.own) }
        ensures durability { IfOk result (λ s. s.durability ≡ durability_of purpose) }
        ensures closed { IfOk result (λ s. s.closed ≡ listing.closed.entries) }
    {
        let alloc = disk.rt.alloc();
        let Listing { names, closed } = listing;
        let readonly = is_readonly(&disk, names.as_slice())?;
        let own = own_token(&disk.rt, purpose, readonly)?;
        Ok(FolderStore {
            store: DiskStore::new(alloc, disk, own, closed, purpose.durability()),
            failures: 0,
        })
    }
}

// The disk of a folder.
fn disk_of<R: Files + AllocGlobal + Clone + Drop>(
    rt: &R,
    folder: &str,
) -> Result<SystemDisk<R>, StoreError>
    ensures { IfOk result (λ disk. string_bytes disk.folder ≡ folder.now) }
{
    let path = String::from_str(rt.alloc(), folder)?;
    Ok(SystemDisk::new(rt.clone()?, path))
}

impl<R: Files + AllocGlobal + Clone + Drop> FolderStore<R> {
    /// Whether its server takes no further shares: it was opened for reading, or the folder had a
    /// file `readonly` then. A write or a close is a fault.
    pub fn is_readonly(&self) -> bool
        ensures { result ≡ is_none self.now.own }
    {
        self.store.own.is_none()
    }
}

impl<R: Files + AllocGlobal + Clone + Drop> FolderStore<R> {
    // Hands a call's outcome on, and counts it where it is a fault.
    fn count<T: Drop>(&mut self, outcome: Result<T, StoreError>) -> Result<T, StoreError>
        ensures same { result ≡ outcome }
        ensures counts { self.new ≡ record self.old {
          failures = counted outcome self.old.failures;
        } }
        ensures cause { IsErrOf result StoreError.StoreFault
            → (self.old.failures < self.new.failures) ⊎ (self.old.failures ≡ 2 ^ 64 - 1) }
        ensures count { self.old.failures ≤ self.new.failures }
    {
        if let Err(StoreError::StoreFault) = &outcome {
            self.failures = self.failures.saturating_add(1);
        }
        outcome
    }
}

impl<R: Files + AllocGlobal + Clone + Drop> Store for FolderStore<R> {
    ghost calls = { folder_calls };

    ghost fault_count = { λ s. s.failures };

    fn closed(&self, id: &ShareId) -> Option<Digest> {
        match self.store.closed.get(&key_of(id)) {
            Some(share) => Some(share.digest),
            None => None,
        }
    }

    // A folder's room is its disk's, so nothing is reckoned.
    fn used(&self) -> u64 {
        0
    }

    fn failures(&self) -> u64 {
        self.failures
    }

    fn write(&mut self, id: &ShareId, offset: u64, bytes: &[u8]) -> Result<(), StoreError> {
        let outcome = self.store.write_open(id, offset, bytes);
        self.count(outcome)
    }

    fn close(&mut self, id: &ShareId, digest: &Digest) -> Result<(), StoreError> {
        let outcome = self.store.close_open(id, digest);
        self.count(outcome)
    }

    fn read(
        &mut self,
        alloc: Global,
        id: &ShareId,
        offset: u64,
        length: ReadLength,
    ) -> Result<ReadData, StoreError> {
        let outcome = self.store.read_kept(alloc, id, offset, length);
        self.count(outcome)
    }

    // What is no regular file counts as not there. What cannot be looked at is a fault.
    fn list(&mut self, alloc: Global, index: &StorageIndex) -> Result<HeldList, StoreError> {
        let outcome = self.store.list_kept(alloc, index);
        self.count(outcome)
    }

    fn let_go(&mut self, id: &ShareId) {
        self.store.let_go(id);
    }

    fn restart(&mut self) {
        self.store.opened.clear();
    }
}
