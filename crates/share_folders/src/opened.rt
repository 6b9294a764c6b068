//! The open shares of a folder store, and how one is closed.

ghost use Rattle.std.specs.Prelude.{◌≡◌, ◌+◌, ◌++◌, ℕ, List, [], None, Some, true, false, length};
ghost use Rattle.std.specs.Prelude.{IsOkUnless, OnErr, OnOk, Option};
ghost use Rattle.std.specs.BTreeMap.{insert_entry};
ghost use Rattle.disks.specs.Names.{Name, lasts};
ghost use Rattle.disks.specs.Folder.{Folder};
ghost use Rattle.disks.specs.Laws.{StaysHeld};
ghost use Rattle.share_store.specs.declared.error.StoreError.{StoreError};
ghost use Rattle.share_store.specs.Shelf.{ShareKey, at, order, same_key};
ghost use Rattle.share_folders.specs.Folder.{length_at, lengths_of};
ghost use Rattle.share_folders.specs.Stored.{FileCloses, OwnStayButOf, StayOpen, WasWritten};
ghost use Rattle.share_folders.specs.Table.{StayBeside};

use crate::files::{Closing, OpenShare, append, begin_share, close_share};
use crate::table::KeptShare;
use disks::disk::Disk;
use share_store::error::StoreError;
use share_store::shelf::ShareKey;
use std::collections::BTreeMap;
use std::collections::btree_map::Entry;

/// How many bytes were written to an open share.
#[tactic(auto, using(crate::proofs::FolderLaws::length_is))]
pub(crate) fn written_length<F>(opened: &BTreeMap<ShareKey, OpenShare<F>>, key: &ShareKey) -> u64
    ensures { result ≡ length_at key.now (lengths_of opened.now.entries) }
{
    match opened.get(key) {
        Some(share) => share.length,
        None => 0,
    }
}

/// Puts an open share's file into the table, in place of one that was there.
#[tactic(auto, using(crate::proofs::FolderLaws::length_is))]
pub(crate) fn put_begun<F: Drop>(
    opened: &mut BTreeMap<ShareKey, OpenShare<F>>,
    key: &ShareKey,
    share: OpenShare<F>,
) -> Result<(), StoreError>
    ensures begun { OnOk result
        (length_at key.now (lengths_of opened.new.entries) ≡ share.length) }
    ensures there { OnOk result (at key.now opened.new.entries ≡ Some share) }
    ensures err { OnErr result (opened.new.entries ≡ opened.old.entries) }
    ensures others { StayBeside (same_key key.now) opened.old.entries opened.new.entries }
    ensures memory { IsOkUnless result StoreError.OutOfMemory }
{
    opened.insert(*key, share)?;
    Ok(())
}

// Adds bytes to the file of an open share.
#[tactic(auto, using(crate::proofs::FolderLaws::length_is))]
fn append_there<D: Disk>(
    disk: &mut D,
    opened: &mut BTreeMap<ShareKey, OpenShare<D::File>>,
    key: &ShareKey,
    bytes: &[u8],
) -> Result<(), StoreError>
    ensures long { OnOk result (length_at key.now (lengths_of opened.new.entries)
        ≡ length_at key.now (lengths_of opened.old.entries) + length bytes.now) }
    ensures others { StayBeside (same_key key.now) opened.old.entries opened.new.entries }
    ensures place { D.place disk.new ≡ D.place disk.old }
    ensures so_far { D.honest disk.new → D.honest disk.old }
    ensures written { D.honest disk.new → (name : Name) (before : List ℕ)
        → WasWritten D.inode (D.folder disk.old) name (at key.now opened.old.entries) before
        → OnOk result (WasWritten D.inode (D.folder disk.new) name
        (at key.now opened.new.entries) (before ++ bytes.now)) }
    ensures held { D.honest disk.new → (name : Name) (before : List ℕ)
        → WasWritten D.inode (D.folder disk.old) name (at key.now opened.old.entries) before
        → StaysHeld D.relied (D.folder disk.old) (D.folder disk.new) }
    ensures beside { D.honest disk.new → (own : Option (List ℕ)) → StayOpen D.inode own key.now ⊥
        result (D.folder disk.old) opened.old.entries (D.folder disk.new) opened.new.entries }
{
    match opened.get_mut(key) {
        Some(share) => append(disk, share, bytes),
        None => Err(StoreError::StoreFault),
    }
}

/// Adds bytes to an open share, which is open no longer where that fails.
pub(crate) fn append_to<D: Disk>(
    disk: &mut D,
    opened: &mut BTreeMap<ShareKey, OpenShare<D::File>>,
    key: &ShareKey,
    bytes: &[u8],
) -> Result<(), StoreError>
    ensures long { OnOk result (length_at key.now (lengths_of opened.new.entries)
        ≡ length_at key.now (lengths_of opened.old.entries) + length bytes.now) }
    ensures others { StayBeside (same_key key.now) opened.old.entries opened.new.entries }
    ensures place { D.place disk.new ≡ D.place disk.old }
    ensures so_far { D.honest disk.new → D.honest disk.old }
    ensures written { D.honest disk.new → (name : Name) (before : List ℕ)
        → WasWritten D.inode (D.folder disk.old) name (at key.now opened.old.entries) before
        → OnOk result (WasWritten D.inode (D.folder disk.new) name
        (at key.now opened.new.entries) (before ++ bytes.now)) }
    ensures held { D.honest disk.new → (name : Name) (before : List ℕ)
        → WasWritten D.inode (D.folder disk.old) name (at key.now opened.old.entries) before
        → StaysHeld D.relied (D.folder disk.old) (D.folder disk.new) }
    ensures beside { D.honest disk.new → (own : Option (List ℕ)) → StayOpen D.inode own key.now ⊥
        result (D.folder disk.old) opened.old.entries (D.folder disk.new) opened.new.entries }
{
    let outcome = append_there(disk, opened, key, bytes);
    if outcome.is_err() {
        forget_open(opened, key);
    }
    outcome
}

/// Forgets an open share.
#[tactic(auto, using(crate::proofs::FolderLaws::length_is))]
pub(crate) fn forget_open<F: Drop>(opened: &mut BTreeMap<ShareKey, OpenShare<F>>, key: &ShareKey)
    ensures gone { at key.now opened.new.entries ≡ None }
    ensures others { StayBeside (same_key key.now) opened.old.entries opened.new.entries }
{
    opened.remove(key);
}

// Gives an open share's file, to which nothing may have been written, its closed name.
fn close_file<D: Disk>(
    disk: &mut D,
    opened: &BTreeMap<ShareKey, OpenShare<D::File>>,
    key: &ShareKey,
    closing: &Closing<'_>,
) -> Result<(), StoreError>
    requires passing { lasts closing.now.open.now ≡ false }
    requires lasting { lasts closing.now.closed.now ≡ true }
    ensures place { D.place disk.new ≡ D.place disk.old }
    ensures so_far { D.honest disk.new → D.honest disk.old }
    ensures closes { D.honest disk.new → (bytes : List ℕ)
        → WasWritten D.inode (D.folder disk.old) closing.now.open.now
        (at key.now opened.now.entries) bytes
        → FileCloses D.relied closing.now.durability closing.now.closed.now bytes result
        (D.folder disk.old) (D.folder disk.new) }
    ensures beside { D.honest disk.new → (bytes : List ℕ)
        → WasWritten D.inode (D.folder disk.old) closing.now.open.now
        (at key.now opened.now.entries) bytes
        → OwnStayButOf D.inode closing.now.open.now (at key.now opened.now.entries)
        (D.folder disk.old) (D.folder disk.new) }
{
    match opened.get(key) {
        Some(share) => close_share(disk, share, closing),
        None => {
            let share = begin_share(disk, closing.open)?;
            close_share(disk, &share, closing)
        }
    }
}

/// Gives an open share's file its closed name, and puts the share into the table.
pub(crate) fn put_closed<D: Disk>(
    disk: &mut D,
    opened: &BTreeMap<ShareKey, OpenShare<D::File>>,
    closed: &mut BTreeMap<ShareKey, KeptShare>,
    key: &ShareKey,
    share: &KeptShare,
    closing: &Closing<'_>,
) -> Result<(), StoreError>
    requires open { at key.now closed.old.entries ≡ None }
    requires passing { lasts closing.now.open.now ≡ false }
    requires lasting { lasts closing.now.closed.now ≡ true }
    ensures closed { OnOk result
        (closed.new.entries ≡ insert_entry order closed.old.entries key.now share.now) }
    ensures err { OnErr result (closed.new.entries ≡ closed.old.entries) }
    ensures place { D.place disk.new ≡ D.place disk.old }
    ensures so_far { D.honest disk.new → D.honest disk.old }
    ensures closes { D.honest disk.new → (bytes : List ℕ)
        → WasWritten D.inode (D.folder disk.old) closing.now.open.now
        (at key.now opened.now.entries) bytes
        → FileCloses D.relied closing.now.durability closing.now.closed.now bytes result
        (D.folder disk.old) (D.folder disk.new) }
    ensures beside { D.honest disk.new → (bytes : List ℕ)
        → WasWritten D.inode (D.folder disk.old) closing.now.open.now
        (at key.now opened.now.entries) bytes
        → OwnStayButOf D.inode closing.now.open.now (at key.now opened.now.entries)
        (D.folder disk.old) (D.folder disk.new) }
{
    // room first: once the file is renamed, no memory is asked for
    match closed.entry(*key)? {
        Entry::Vacant(room) => {
            close_file(disk, opened, key, closing)?;
            room.insert(*share);
            Ok(())
        }
        Entry::Occupied(_) => Err(StoreError::StoreFault),
    }
}
