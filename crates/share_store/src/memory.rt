//! A store in memory.

ghost use Rattle.std.specs.Prelude.{◌≡◌, ◌++◌, ◌==◌, ◌+◌, ◌-◌, ◌<◌, ◌≤◌, ◌^◌, ◌⊎◌, [], length};
ghost use Rattle.std.specs.Prelude.{true, false, None, refl, if◌then◌else◌, IfOk, IfErr, IsErr};
ghost use Rattle.std.specs.Prelude.{IsSome, IsOkUnless, OnOk, OnErr};
ghost use Rattle.std.specs.BTreeMap.{insert_entry, IsOrdered};
ghost use Rattle.share_store.specs.declared.error.StoreError.{StoreError};
ghost use Rattle.share_store.specs.Shelf.{at, order, written_at, AreRising, IsPutAt};
ghost use Rattle.share_store.specs.Memory.{MemoryState, faulted, memory_calls};
ghost use Rattle.share_store.specs.MemoryKeeps.{memory_keeps};

use crate::error::StoreError;
use crate::shelf::{ClosedShare, ShareBytes, ShareKey, key_of};
use crate::store::{Keeping, Store};
use crate::table::held_under;
use std::alloc::{AllocError, Global};
use std::collections::BTreeMap;
use std::collections::btree_map::Entry;
use std::marker::Model;
use wire::message::{Digest, HeldList, ReadData, ReadLength, ShareId, StorageIndex};

/// A store in memory, which keeps.
#[derive(Drop)]
pub struct MemoryStore {
    alloc: Global,
    closed: BTreeMap<ShareKey, ClosedShare>,
    opened: BTreeMap<ShareKey, ShareBytes>,
    // The sum of the closed lengths.
    closed_bytes: u64,
    failures: u64,
    failing: bool,
}

impl Model for MemoryStore {
    ghost use Rattle.share_store.specs.Memory.{MemoryState};

    ghost Value = { MemoryState };

    ghost view = { λ m. record {
      shelf = record { closed = m.closed.entries; opened = m.opened.entries };
      failures = m.failures;
      failing = m.failing;
    } };

    ghost use Rattle.std.specs.Prelude.{◌≡◌};
    ghost use Rattle.share_store.specs.Shelf.{used};

    ghost invariant = { λ m. m.closed_bytes ≡ used m.closed.entries };
}

impl MemoryStore {
    /// An empty store.
    pub fn new(alloc: Global) -> MemoryStore
        ensures { result ≡ record {
          shelf = record { closed = []; opened = [] };
          failures = 0;
          failing = false;
        } }
    {
        MemoryStore {
            alloc,
            closed: BTreeMap::new(alloc),
            opened: BTreeMap::new(alloc),
            closed_bytes: 0,
            failures: 0,
            failing: false,
        }
    }

    /// The next write, close, read or list answers `StoreFault`.
    pub fn fail_next(&mut self)
        ensures { self.new ≡ record {
          shelf = self.old.shelf;
          failures = self.old.failures;
          failing = true;
        } }
    {
        self.failing = true;
    }

    // Begins a call that can fail: it does where that was asked for.
    fn begin(&mut self) -> Result<(), StoreError>
        ensures ok { OnOk result ((self.old.failing ≡ false) × (self.new ≡ self.old)) }
        ensures err { IfErr result (λ e. (e ≡ StoreError.StoreFault)
            × (self.old.failing ≡ true) × (self.new ≡ faulted self.old)) }
        ensures cause { IsErr result → (self.old.failures < self.new.failures)
            ⊎ (self.old.failures ≡ 2 ^ 64 - 1) }
        ensures count { self.old.failures ≤ self.new.failures }
    {
        if !self.failing {
            return Ok(());
        }
        self.failing = false;
        self.failures = self.failures.saturating_add(1);
        Err(StoreError::StoreFault)
    }
}

// Begins an open share anew with these bytes.
fn begin_written(
    alloc: Global,
    opened: &mut BTreeMap<ShareKey, ShareBytes>,
    key: &ShareKey,
    bytes: &[u8],
) -> Result<(), StoreError>
    ensures written { OnOk result (written_at key.now opened.new.entries ≡ bytes.now) }
    ensures others { IsPutAt key.now opened.old.entries opened.new.entries }
    ensures err { IfErr result
        (λ e. (e ≡ StoreError.OutOfMemory) × (opened.new.entries ≡ opened.old.entries)) }
{
    opened.insert(*key, ShareBytes::from_slice(alloc, bytes)?)?;
    Ok(())
}

// Adds bytes at the end of an open share.
fn extend_written(
    opened: &mut BTreeMap<ShareKey, ShareBytes>,
    key: &ShareKey,
    bytes: &[u8],
) -> Result<(), StoreError>
    requires { IsSome (at key.now opened.old.entries) }
    ensures written { OnOk result (written_at key.now opened.new.entries
        ≡ written_at key.now opened.old.entries ++ bytes.now) }
    ensures others { IsPutAt key.now opened.old.entries opened.new.entries }
    ensures memory { IsOkUnless result StoreError.OutOfMemory }
    ensures err { OnErr result (opened.new.entries ≡ opened.old.entries) }
{
    if let Some(written) = opened.get_mut(key) {
        written.extend(bytes)?;
    }
    Ok(())
}

// Writes to an open share: at offset 0 it begins anew, and else the bytes come at its end.
fn put_written(
    alloc: Global,
    opened: &mut BTreeMap<ShareKey, ShareBytes>,
    key: &ShareKey,
    offset: u64,
    bytes: &[u8],
) -> Result<(), StoreError>
    ensures written { OnOk result (written_at key.now opened.new.entries
        ≡ (if offset == 0
        then bytes.now else written_at key.now opened.old.entries ++ bytes.now)) }
    ensures others { IsPutAt key.now opened.old.entries opened.new.entries }
    ensures err { IfErr result
        (λ e. (e ≡ StoreError.OutOfMemory) × (opened.new.entries ≡ opened.old.entries)) }
{
    if offset == 0 || !opened.contains_key(key) {
        return begin_written(alloc, opened, key, bytes);
    }
    extend_written(opened, key, bytes)
}

// How many bytes an open share has.
fn written_length(opened: &BTreeMap<ShareKey, ShareBytes>, key: &ShareKey) -> usize
    ensures { result ≡ length (written_at key.now opened.now.entries) }
{
    match opened.get(key) {
        Some(written) => written.len(),
        None => 0,
    }
}

// Moves an open share to the closed ones, with no copy of its bytes.
fn move_closed(
    alloc: Global,
    closed: &mut BTreeMap<ShareKey, ClosedShare>,
    opened: &mut BTreeMap<ShareKey, ShareBytes>,
    key: &ShareKey,
    digest: &Digest,
) -> Result<(), StoreError>
    requires { at key.now closed.old.entries ≡ None }
    ensures closed { OnOk result (closed.new.entries
        ≡ insert_entry order closed.old.entries key.now (record {
          bytes = written_at key.now opened.old.entries;
          digest = digest.now;
        })) }
    ensures opened { IsPutAt key.now opened.old.entries opened.new.entries }
    ensures ordered { IsOrdered order closed.old }
    ensures err { IfErr result (λ e. (e ≡ StoreError.OutOfMemory)
        × (closed.new.entries ≡ closed.old.entries)
        × (opened.new.entries ≡ opened.old.entries)) }
{
    if let Entry::Vacant(room) = closed.entry(*key)? {
        let bytes = match opened.remove(key) {
            Some(written) => written,
            None => ShareBytes::new(alloc),
        };
        room.insert(ClosedShare {
            bytes,
            digest: *digest,
        });
    }
    Ok(())
}

// Drops an open share.
fn drop_written(opened: &mut BTreeMap<ShareKey, ShareBytes>, key: &ShareKey)
    ensures gone { written_at key.now opened.new.entries ≡ [] }
    ensures others { IsPutAt key.now opened.old.entries opened.new.entries }
{
    opened.remove(key);
}

// A law: the closed shares stand in the order of their keys. The call does nothing.
fn know_rising(closed: &BTreeMap<ShareKey, ClosedShare>)
    ensures { AreRising closed.now.entries }
{
    let _ = closed.len();
}

impl Store for MemoryStore {
    ghost calls = { memory_calls };

    ghost fault_count = { λ s. s.failures };

    fn closed(&self, id: &ShareId) -> Option<Digest> {
        match self.closed.get(&key_of(id)) {
            Some(share) => Some(share.digest),
            None => None,
        }
    }

    fn used(&self) -> u64 {
        self.closed_bytes
    }

    fn failures(&self) -> u64 {
        self.failures
    }

    fn write(&mut self, id: &ShareId, offset: u64, bytes: &[u8]) -> Result<(), StoreError> {
        self.begin()?;
        put_written(self.alloc, &mut self.opened, &key_of(id), offset, bytes)
    }

    // The sum of the closed lengths stays below 2^64: a share for which it would not is refused as
    // one too many for the memory.
    fn close(&mut self, id: &ShareId, digest: &Digest) -> Result<(), StoreError> {
        self.begin()?;
        let key = key_of(id);
        let written = written_length(&self.opened, &key) as u64;
        let Some(used) = self.closed_bytes.checked_add(written) else {
            return Err(StoreError::OutOfMemory);
        };
        move_closed(self.alloc, &mut self.closed, &mut self.opened, &key, digest)?;
        self.closed_bytes = used;
        Ok(())
    }

    fn read(
        &mut self,
        alloc: Global,
        id: &ShareId,
        offset: u64,
        length: ReadLength,
    ) -> Result<ReadData, StoreError> {
        self.begin()?;
        let nothing = ShareBytes::new(alloc);
        let bytes = match self.closed.get(&key_of(id)) {
            Some(share) => &share.bytes,
            None => &nothing,
        };
        Ok(bytes.piece(alloc, offset, length)?)
    }

    fn list(&mut self, alloc: Global, index: &StorageIndex) -> Result<HeldList, StoreError> {
        self.begin()?;
        held_under(alloc, &self.closed, index)
    }

    fn let_go(&mut self, id: &ShareId) {
        drop_written(&mut self.opened, &key_of(id));
    }

    fn restart(&mut self) {
        self.opened.clear();
    }
}

impl Keeping for MemoryStore {
    ghost shelf = { λ s. s.shelf };

    fn know_order(&self) {
        know_rising(&self.closed);
    }

    ghost kept = { memory_keeps };
}
