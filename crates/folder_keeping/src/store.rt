//! A store over any disk, as a server calls it.

ghost use Rattle.std.specs.Prelude.{◌≡◌, ◌-◌, ◌<◌, ◌≤◌, ◌^◌, ◌⊎◌, [], IsErrOf};
ghost use Rattle.share_store.specs.declared.error.StoreError.{StoreError};
ghost use Rattle.share_folders.specs.Folder.{counted};
ghost use Rattle.folder_keeping.specs.Store.{disk_calls};

use disks::disk::Disk;
use share_folders::kept::DiskStore;
use share_store::error::StoreError;
use share_store::shelf::key_of;
use share_store::store::Store;
use std::alloc::Global;
use std::marker::Model;
use wire::message::{Digest, HeldList, ReadData, ReadLength, ShareId, StorageIndex};

/// A store over a disk. Each call is the one of `DiskStore`, as it is in `FolderStore`, which is
/// over the folder of the system.
#[derive(Drop)]
pub struct KeptFolder<D: Disk + Drop> {
    pub(crate) store: DiskStore<D>,
    pub(crate) failures: u64,
}

impl<D: Disk + Drop> Model for KeptFolder<D> {
    ghost use Rattle.folder_keeping.specs.Store.{StoreState};

    ghost Value = { StoreState D D.File };

    ghost view = { λ m. record {
      disk = m.store.disk;
      own = m.store.own;
      durability = m.store.durability;
      closed = m.store.closed.entries;
      opened = m.store.opened.entries;
      recent = m.store.recent;
      failures = m.failures;
    } };
}

impl<D: Disk + Drop> KeptFolder<D> {
    // Hands a call's outcome on, and counts it where it is a fault.
    fn count<T: Drop>(&mut self, outcome: Result<T, StoreError>) -> Result<T, StoreError>
        ensures same { result ≡ outcome }
        ensures counts { self.new ≡ record self.old {
          failures = counted outcome self.old.failures;
        } }
        ensures cause { IsErrOf result StoreError.StoreFault
            → (self.old.failures < self.new.failures) ⊎ (self.old.failures ≡ 2 ^ 64 - 1) }
        ensures count { self.old.failures ≤ self.new.failures }
    {
        if let Err(StoreError::StoreFault) = &outcome {
            self.failures = self.failures.saturating_add(1);
        }
        outcome
    }
}

impl<D: Disk + Drop> Store for KeptFolder<D> {
    ghost calls = { disk_calls (record {
      folder = D.folder;
      honest = D.honest;
      relied = D.relied;
      inode = D.inode;
    }) };

    ghost fault_count = { λ s. s.failures };

    fn closed(&self, id: &ShareId) -> Option<Digest> {
        match self.store.closed.get(&key_of(id)) {
            Some(share) => Some(share.digest),
            None => None,
        }
    }

    // A folder's room is its disk's, so nothing is reckoned.
    fn used(&self) -> u64 {
        0
    }

    fn failures(&self) -> u64 {
        self.failures
    }

    fn write(&mut self, id: &ShareId, offset: u64, bytes: &[u8]) -> Result<(), StoreError> {
        let outcome = self.store.write_open(id, offset, bytes);
        self.count(outcome)
    }

    fn close(&mut self, id: &ShareId, digest: &Digest) -> Result<(), StoreError> {
        let outcome = self.store.close_open(id, digest);
        self.count(outcome)
    }

    fn read(
        &mut self,
        alloc: Global,
        id: &ShareId,
        offset: u64,
        length: ReadLength,
    ) -> Result<ReadData, StoreError> {
        let outcome = self.store.read_kept(alloc, id, offset, length);
        self.count(outcome)
    }

    fn list(&mut self, alloc: Global, index: &StorageIndex) -> Result<HeldList, StoreError> {
        let outcome = self.store.list_kept(alloc, index);
        self.count(outcome)
    }

    fn let_go(&mut self, id: &ShareId) {
        self.store.let_go(id);
    }

    fn restart(&mut self) {
        self.store.opened.clear();
    }
}
