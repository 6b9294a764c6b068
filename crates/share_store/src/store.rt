//! What a server asks of its store.

ghost use Rattle.std.specs.Prelude.{◌≡◌, ◌≤◌, ◌<◌, ◌-◌, ◌^◌, ◌⊎◌, ℕ, None, IsErrOf};
ghost use Rattle.share_store.specs.declared.error.StoreError.{StoreError};
ghost use Rattle.share_store.specs.Shelf.{Shelf, AreRising};
ghost use Rattle.share_store.specs.Calls.{Calls, AreKept};

use crate::error::StoreError;
use std::alloc::Global;
use wire::message::{Digest, HeldList, ReadData, ReadLength, ShareId, StorageIndex};

/// A store of shares, by relations of its own: what each call gives, from the state before it to
/// the state after it. A share is written from its beginning on and then closed, and only closed
/// shares are read.
///
/// A call that answers `StoreFault` counts in `failures`.
pub trait Store {
    /// What each call gives.
    ghost calls: { Calls Self };

    /// The faults so far.
    ghost fault_count: { Self → ℕ };

    /// The digest of a share, where it is closed.
    fn closed(&self, id: &ShareId) -> Option<Digest>
        ensures { result ≡ calls.told self.now id.now };

    /// The sum of the closed shares' lengths in bytes.
    fn used(&self) -> u64
        ensures { result ≡ calls.used self.now };

    /// How many calls have answered `StoreFault`. At 2^64 - 1 the count stays.
    fn failures(&self) -> u64
        ensures { result ≡ fault_count self.now };

    /// Adds bytes at the end of an open share, `offset` being the number of bytes that it has.
    /// Offset 0 begins the share anew.
    fn write(&mut self, id: &ShareId, offset: u64, bytes: &[u8]) -> Result<(), StoreError>
        requires { calls.told self.old id.now ≡ None }
        ensures gives { calls.write_gives self.old id.now offset bytes.now result self.new }
        ensures cause { IsErrOf result StoreError.StoreFault
            → (fault_count self.old < fault_count self.new)
            ⊎ (fault_count self.old ≡ 2 ^ 64 - 1) }
        ensures count { fault_count self.old ≤ fault_count self.new };

    /// Closes an open share under a digest: from then on it stays as it is.
    fn close(&mut self, id: &ShareId, digest: &Digest) -> Result<(), StoreError>
        requires { calls.told self.old id.now ≡ None }
        ensures gives { calls.close_gives self.old id.now digest.now result self.new }
        ensures cause { IsErrOf result StoreError.StoreFault
            → (fault_count self.old < fault_count self.new)
            ⊎ (fault_count self.old ≡ 2 ^ 64 - 1) }
        ensures count { fault_count self.old ≤ fault_count self.new };

    /// Bytes of a closed share from an offset on: as many as asked for, or fewer at its end.
    fn read(
        &mut self,
        alloc: Global,
        id: &ShareId,
        offset: u64,
        length: ReadLength,
    ) -> Result<ReadData, StoreError>
        ensures gives { calls.read_gives self.old id.now offset length result self.new }
        ensures cause { IsErrOf result StoreError.StoreFault
            → (fault_count self.old < fault_count self.new)
            ⊎ (fault_count self.old ≡ 2 ^ 64 - 1) }
        ensures count { fault_count self.old ≤ fault_count self.new };

    /// The closed shares under a storage index with their digests, lowest number first.
    fn list(&mut self, alloc: Global, index: &StorageIndex) -> Result<HeldList, StoreError>
        ensures gives { calls.list_gives self.old index.now result self.new }
        ensures cause { IsErrOf result StoreError.StoreFault
            → (fault_count self.old < fault_count self.new)
            ⊎ (fault_count self.old ≡ 2 ^ 64 - 1) }
        ensures count { fault_count self.old ≤ fault_count self.new };

    /// An open share will not go on: nothing is kept of what was written to it, and nothing is held
    /// for it any more.
    fn let_go(&mut self, id: &ShareId)
        ensures { calls.let_go_gives self.old id.now self.new };

    /// A restart of the server: what was open may be gone.
    fn restart(&mut self)
        ensures { calls.restart_gives self.old self.new };
}

/// A store that keeps: each call is one of a shelf, on which a closed share stays as it is.
pub trait Keeping: Store {
    /// What it holds.
    ghost shelf: { Self → Shelf };

    /// A law: its closed shares stand in the order of their keys, each once. The call does
    /// nothing.
    fn know_order(&self)
        ensures { AreRising (shelf self.now).closed };

    /// What it does is what the shelf does.
    ghost kept: { AreKept Self.calls shelf };
}
