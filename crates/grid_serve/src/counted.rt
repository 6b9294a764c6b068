//! The store that counts.

ghost use Rattle.std.specs.Prelude.{◌≡◌, [], OnErr, OnOk};
ghost use Rattle.share_store.specs.Shelf as shelf;
ghost use Rattle.grid_serve.specs.Counted.{AreOthers, counted_calls, length_at};

use share_store::error::StoreError;
use share_store::shelf::{ShareKey, key_of};
use share_store::store::Store;
use std::alloc::{AllocError, Global};
use std::collections::BTreeMap;
use std::marker::Model;
use wire::message::{Digest, HeldList, ReadData, ReadLength, ShareId, StorageIndex};

/// A store over another one, of which it counts the bytes of the shares that are closed from its
/// start on. Those that were closed before are not counted.
#[derive(Drop)]
pub struct CountedStore<S: Store> {
    store: S,
    used: u64,
    // How many bytes each open share has.
    lengths: BTreeMap<ShareKey, u64>,
}

impl<S: Store> Model for CountedStore<S> {
    ghost use Rattle.grid_serve.specs.Counted.{CountedState};

    ghost Value = { CountedState S };

    ghost view = { λ c. record {
      store = c.store;
      used = c.used;
      lengths = c.lengths.entries;
    } };
}

impl<S: Store + Drop> CountedStore<S> {
    /// Counts from now on.
    pub fn new(alloc: Global, store: S) -> CountedStore<S>
        ensures { result ≡ record { store = store; used = 0; lengths = [] } }
    {
        CountedStore {
            store,
            used: 0,
            lengths: BTreeMap::new(alloc),
        }
    }
}

// Notes how many bytes an open share has.
fn note_length(
    lengths: &mut BTreeMap<ShareKey, u64>,
    id: &ShareId,
    length: u64,
) -> Result<(), AllocError>
    ensures noted { OnOk result (length_at id.now lengths.new.entries ≡ length) }
    ensures others { OnOk result
        (AreOthers (shelf.key_of id.now) lengths.old.entries lengths.new.entries) }
    ensures err { OnErr result (lengths.new.entries ≡ lengths.old.entries) }
{
    lengths.insert(key_of(id), length)?;
    Ok(())
}

// Forgets an open share, and gives how many bytes it had.
fn forget_length(lengths: &mut BTreeMap<ShareKey, u64>, id: &ShareId) -> u64
    ensures length { result ≡ length_at id.now lengths.old.entries }
    ensures none { length_at id.now lengths.new.entries ≡ 0 }
    ensures others { AreOthers (shelf.key_of id.now) lengths.old.entries lengths.new.entries }
{
    lengths.remove(&key_of(id)).unwrap_or(0)
}

impl<S: Store> Store for CountedStore<S> {
    ghost calls = { counted_calls S.calls };

    ghost fault_count = { λ c. S.fault_count c.store };

    fn closed(&self, id: &ShareId) -> Option<Digest> {
        self.store.closed(id)
    }

    fn used(&self) -> u64 {
        self.used
    }

    fn failures(&self) -> u64 {
        self.store.failures()
    }

    fn write(&mut self, id: &ShareId, offset: u64, bytes: &[u8]) -> Result<(), StoreError> {
        let length = offset.saturating_add(bytes.len() as u64);
        note_length(&mut self.lengths, id, length)?;
        self.store.write(id, offset, bytes)
    }

    fn close(&mut self, id: &ShareId, digest: &Digest) -> Result<(), StoreError> {
        self.store.close(id, digest)?;
        let length = forget_length(&mut self.lengths, id);
        self.used = self.used.saturating_add(length);
        Ok(())
    }

    fn read(
        &mut self,
        alloc: Global,
        id: &ShareId,
        offset: u64,
        length: ReadLength,
    ) -> Result<ReadData, StoreError> {
        self.store.read(alloc, id, offset, length)
    }

    fn list(&mut self, alloc: Global, index: &StorageIndex) -> Result<HeldList, StoreError> {
        self.store.list(alloc, index)
    }

    fn let_go(&mut self, id: &ShareId) {
        self.store.let_go(id);
        forget_length(&mut self.lengths, id);
    }

    fn restart(&mut self) {
        self.store.restart();
        self.lengths.clear();
    }
}
