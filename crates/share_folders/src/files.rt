//! The files of a folder store. Only regular files are opened: what else has such a name, as a
//! folder, a socket or a pipe that nobody writes to, is a fault and is not waited for.

ghost use Rattle.std.specs.Prelude.{◌≡◌, ◌+◌, ◌++◌, ◌≤◌, ℕ, List, [], Some, true, false, length};
ghost use Rattle.std.specs.Prelude.{◌≢◌, take, drop, IfOk, OnOk};
ghost use Rattle.disks.specs.Names.{Name, IsRelied, lasts};
ghost use Rattle.disks.specs.Folder.{FileState, HasBytes, IsOwn};
ghost use Rattle.disks.specs.Laws.{OwnStay, OwnStayBeside, OwnStayBut, StaysHeld};
ghost use Rattle.share_store.specs.declared.error.StoreError.{StoreError};
ghost use Rattle.share_folders.specs.declared.disk.Durability.{Durability};
ghost use Rattle.share_folders.specs.Stored.{FileCloses, IsAs, WasWritten};
ghost use Rattle.wire.specs.Limits.{most_data};

use crate::disk::Durability;
use disks::closing::{finish_synced, finish_unsynced};
use disks::disk::Disk;
use disks::error::DiskError;
use disks::own::{begin, sync, write};
use disks::reading::{find_finished, open_finished, read_finished};
use share_store::error::StoreError;
use share_store::shelf::ShareKey;
use std::alloc::Global;
use std::cell::Cell;
use wire::message::ReadData;

/// What a store answers where its disk answers this.
pub fn as_stored<T: Drop>(outcome: Result<T, DiskError>) -> Result<T, StoreError>
    ensures { IsAs outcome result }
{
    match outcome {
        Ok(value) => Ok(value),
        Err(DiskError::OutOfMemory) => Err(StoreError::OutOfMemory),
        Err(_) => Err(StoreError::StoreFault),
    }
}

// The same where the disk's answer is a fault whatever its cause.
fn as_fault(outcome: Result<(), DiskError>) -> Result<(), StoreError>
    ensures { IsAs outcome result }
{
    match outcome {
        Ok(()) => Ok(()),
        Err(_) => Err(StoreError::StoreFault),
    }
}

/// The length of the regular file under a name; `None` for what else stands there, and where there
/// is nothing. It is a fault where it cannot be asked.
pub(crate) fn regular_length<D: Disk>(disk: &mut D, name: &str) -> Result<Option<u64>, StoreError>
    ensures place { D.place disk.new ≡ D.place disk.old }
    ensures so_far { D.honest disk.new → D.honest disk.old }
    ensures right { D.honest disk.new → (bytes : List ℕ)
        → IsRelied D.relied name.now bytes
        → HasBytes (D.folder disk.old) bytes ((D.folder disk.old).found name.now)
        → IfOk result (λ found. found ≡ Some (length bytes)) }
    ensures held { D.honest disk.new → StaysHeld D.relied (D.folder disk.old) (D.folder disk.new) }
    ensures opened { D.honest disk.new → OwnStay (D.folder disk.old) (D.folder disk.new) }
{
    as_stored(find_finished(disk, name))
}

/// The file of an open share. It is of this store alone, by its name, and stays open until the
/// share is closed: another store, or another program, that begins the share too makes a file of
/// its own.
#[derive(Drop)]
pub struct OpenShare<F> {
    file: F,
    /// How many bytes were written to it.
    pub(crate) length: u64,
    // Whether its bytes could not be put on the disk.
    is_lost: Cell<bool>,
    // Whether a close of it was begun: then the file may have its closed name already.
    is_closing: Cell<bool>,
}

/// Makes the file of an open share. What stands under its name is an earlier one of the same store,
/// and is removed first.
pub(crate) fn begin_share<D: Disk>(
    disk: &mut D,
    name: &str,
) -> Result<OpenShare<D::File>, StoreError>
    requires passing { lasts name.now ≡ false }
    ensures empty { IfOk result (λ share. share.length ≡ 0) }
    ensures place { D.place disk.new ≡ D.place disk.old }
    ensures so_far { D.honest disk.new → D.honest disk.old }
    ensures begun { D.honest disk.new → IfOk result
        (λ share. WasWritten D.inode (D.folder disk.new) name.now (Some share) []) }
    ensures held { D.honest disk.new → StaysHeld D.relied (D.folder disk.old) (D.folder disk.new) }
    ensures apart { D.honest disk.new → IfOk result (λ share. (other : Name) (i : ℕ)
        (was : FileState) → other ≢ name.now → IsOwn (D.folder disk.old) other i was
        → i ≢ D.inode share.file) }
    ensures others { D.honest disk.new
        → OwnStayBeside name.now (D.folder disk.old) (D.folder disk.new) }
{
    let file = as_stored(begin(disk, name))?;
    Ok(OpenShare {
        file,
        length: 0,
        is_lost: Cell::new(false),
        is_closing: Cell::new(false),
    })
}

/// Adds bytes at the end of an open share's file. After an error a part of them may be there: then
/// the file is of no use any more, whatever the cause. Nothing is added once a close was tried,
/// which may have given the file its closed name.
#[tactic(auto, using(crate::proofs::Closings::held_same))]
pub(crate) fn append<D: Disk>(
    disk: &mut D,
    share: &mut OpenShare<D::File>,
    bytes: &[u8],
) -> Result<(), StoreError>
    ensures long { OnOk result (share.new.length ≡ share.old.length + length bytes.now) }
    ensures place { D.place disk.new ≡ D.place disk.old }
    ensures so_far { D.honest disk.new → D.honest disk.old }
    ensures written { D.honest disk.new → (name : Name) (before : List ℕ)
        → WasWritten D.inode (D.folder disk.old) name (Some share.old) before
        → OnOk result (WasWritten D.inode (D.folder disk.new) name (Some share.new)
        (before ++ bytes.now)) }
    ensures held { D.honest disk.new → (name : Name) (before : List ℕ)
        → WasWritten D.inode (D.folder disk.old) name (Some share.old) before
        → StaysHeld D.relied (D.folder disk.old) (D.folder disk.new) }
    ensures same { D.inode share.new.file ≡ D.inode share.old.file }
    ensures others { D.honest disk.new
        → OwnStayBut (D.inode share.old.file) (D.folder disk.old) (D.folder disk.new) }
{
    if share.is_closing.get() {
        return Err(StoreError::StoreFault);
    }
    let Some(length) = share.length.checked_add(bytes.len() as u64) else {
        return Err(StoreError::StoreFault);
    };
    as_fault(write(disk, &mut share.file, bytes))?;
    share.length = length;
    Ok(())
}

/// What the file of an open share is closed with.
#[derive(Clone, Copy)]
pub(crate) struct Closing<'a> {
    pub(crate) durability: Durability,
    /// The file's name while it is open.
    pub(crate) open: &'a str,
    /// The file's name once it is closed.
    pub(crate) closed: &'a str,
}

/// Gives the file of an open share its closed name. It is a fault if another file has the open
/// name, which no store makes, or if the file has more or fewer bytes than were written. Synced,
/// its bytes are on the disk before that, and its name after it.
pub(crate) fn close_share<D: Disk>(
    disk: &mut D,
    share: &OpenShare<D::File>,
    closing: &Closing<'_>,
) -> Result<(), StoreError>
    requires passing { lasts closing.now.open.now ≡ false }
    requires lasting { lasts closing.now.closed.now ≡ true }
    ensures place { D.place disk.new ≡ D.place disk.old }
    ensures so_far { D.honest disk.new → D.honest disk.old }
    ensures closes { D.honest disk.new → (bytes : List ℕ)
        → WasWritten D.inode (D.folder disk.old) closing.now.open.now (Some share.now) bytes
        → FileCloses D.relied closing.now.durability closing.now.closed.now bytes result
        (D.folder disk.old) (D.folder disk.new) }
    ensures others { D.honest disk.new → (bytes : List ℕ)
        → WasWritten D.inode (D.folder disk.old) closing.now.open.now (Some share.now) bytes
        → OwnStayBut (D.inode share.now.file) (D.folder disk.old) (D.folder disk.new) }
{
    share.is_closing.set(true);
    match closing.durability {
        Durability::Synced => close_synced(disk, share, closing),
        Durability::Unsynced => close_unsynced(disk, share, closing),
    }
}

fn close_synced<D: Disk>(
    disk: &mut D,
    share: &OpenShare<D::File>,
    closing: &Closing<'_>,
) -> Result<(), StoreError>
    requires passing { lasts closing.now.open.now ≡ false }
    requires lasting { lasts closing.now.closed.now ≡ true }
    ensures place { D.place disk.new ≡ D.place disk.old }
    ensures so_far { D.honest disk.new → D.honest disk.old }
    ensures closes { D.honest disk.new → (bytes : List ℕ)
        → WasWritten D.inode (D.folder disk.old) closing.now.open.now (Some share.now) bytes
        → FileCloses D.relied Durability.Synced closing.now.closed.now bytes result
        (D.folder disk.old) (D.folder disk.new) }
    ensures others { D.honest disk.new → (bytes : List ℕ)
        → WasWritten D.inode (D.folder disk.old) closing.now.open.now (Some share.now) bytes
        → OwnStayBut (D.inode share.now.file) (D.folder disk.old) (D.folder disk.new) }
{
    sync_share(disk, share)?;
    let (open, closed) = (closing.open, closing.closed);
    as_stored(finish_synced(disk, &share.file, share.length, open, closed))
}

fn close_unsynced<D: Disk>(
    disk: &mut D,
    share: &OpenShare<D::File>,
    closing: &Closing<'_>,
) -> Result<(), StoreError>
    requires passing { lasts closing.now.open.now ≡ false }
    requires lasting { lasts closing.now.closed.now ≡ true }
    ensures place { D.place disk.new ≡ D.place disk.old }
    ensures so_far { D.honest disk.new → D.honest disk.old }
    ensures closes { D.honest disk.new → (bytes : List ℕ)
        → WasWritten D.inode (D.folder disk.old) closing.now.open.now (Some share.now) bytes
        → FileCloses D.relied Durability.Unsynced closing.now.closed.now bytes result
        (D.folder disk.old) (D.folder disk.new) }
    ensures others { D.honest disk.new → (bytes : List ℕ)
        → WasWritten D.inode (D.folder disk.old) closing.now.open.now (Some share.now) bytes
        → OwnStayBut (D.inode share.now.file) (D.folder disk.old) (D.folder disk.new) }
{
    let (open, closed) = (closing.open, closing.closed);
    as_stored(finish_unsynced(disk, &share.file, share.length, open, closed))
}

// Puts the bytes on the disk. Where that fails once the file is of no use any more: the system may
// forget which bytes are not there, and then a later call goes well without them.
fn sync_share<D: Disk>(disk: &mut D, share: &OpenShare<D::File>) -> Result<(), StoreError>
    ensures place { D.place disk.new ≡ D.place disk.old }
    ensures so_far { D.honest disk.new → D.honest disk.old }
    ensures synced { D.honest disk.new → (name : Name) (before : FileState)
        → IsOwn (D.folder disk.old) name (D.inode share.now.file) before
        → OnOk result (IsOwn (D.folder disk.new) name (D.inode share.now.file)
        (record before { is_synced = true })) }
    ensures held { D.honest disk.new → (name : Name) (before : FileState)
        → IsOwn (D.folder disk.old) name (D.inode share.now.file) before
        → before.is_finished ≡ false
        → StaysHeld D.relied (D.folder disk.old) (D.folder disk.new) }
    ensures others { D.honest disk.new
        → OwnStayBut (D.inode share.now.file) (D.folder disk.old) (D.folder disk.new) }
{
    if share.is_lost.get() {
        return Err(StoreError::StoreFault);
    }
    let outcome = sync(disk, &share.file);
    share.is_lost.set(outcome.is_err());
    as_stored(outcome)
}

/// The file of a closed share that is read. It stays open while no other share is read.
#[derive(Drop)]
pub struct RecentFile<F> {
    pub(crate) key: ShareKey,
    file: F,
}

/// Opens the file of a closed share.
pub(crate) fn open_closed<D: Disk>(
    disk: &mut D,
    key: &ShareKey,
    name: &str,
) -> Result<RecentFile<D::File>, StoreError>
    ensures key { IfOk result (λ recent. recent.key ≡ key.now) }
    ensures place { D.place disk.new ≡ D.place disk.old }
    ensures so_far { D.honest disk.new → D.honest disk.old }
    ensures bytes { D.honest disk.new → (bytes : List ℕ)
        → IsRelied D.relied name.now bytes
        → HasBytes (D.folder disk.old) bytes ((D.folder disk.old).found name.now)
        → IfOk result (λ recent. HasBytes (D.folder disk.new) bytes (Some (D.inode recent.file))) }
    ensures held { D.honest disk.new → StaysHeld D.relied (D.folder disk.old) (D.folder disk.new) }
    ensures opened { D.honest disk.new → OwnStay (D.folder disk.old) (D.folder disk.new) }
{
    let file = as_stored(open_finished(disk, name))?;
    Ok(RecentFile { key: *key, file })
}

/// As many bytes of a closed share's file as asked for, from a position on. It is a fault if there
/// are fewer. After an error the file is of no use any more.
pub(crate) fn read_at<D: Disk>(
    alloc: Global,
    disk: &mut D,
    recent: &mut RecentFile<D::File>,
    position: u64,
    count: u32,
) -> Result<ReadData, StoreError>
    requires { count ≤ most_data }
    ensures long { IfOk result (λ got. length got ≡ count) }
    ensures key { recent.new.key ≡ recent.old.key }
    ensures same { D.inode recent.new.file ≡ D.inode recent.old.file }
    ensures place { D.place disk.new ≡ D.place disk.old }
    ensures so_far { D.honest disk.new → D.honest disk.old }
    ensures given { D.honest disk.new → (bytes : List ℕ)
        → HasBytes (D.folder disk.old) bytes (Some (D.inode recent.old.file))
        → IfOk result (λ got. got ≡ take count (drop position bytes)) }
    ensures held { D.honest disk.new → StaysHeld D.relied (D.folder disk.old) (D.folder disk.new) }
    ensures opened { D.honest disk.new → OwnStay (D.folder disk.old) (D.folder disk.new) }
{
    let mut bytes = vec![in alloc; 0u8; count as usize]?;
    as_stored(read_finished(disk, &mut recent.file, position, bytes.as_mut_slice()))?;
    Ok(ReadData::from_vec(bytes).unwrap())
}
