//! What a store keeps in a folder: its closed shares and its open ones, over any disk.

ghost use Rattle.std.specs.Prelude.{◌≡◌, ◌+◌, ◌++◌, ◌-◌, ◌==◌, ◌≤◌, ℕ, List, [], None, Some, true};
ghost use Rattle.std.specs.Prelude.{length, min, take, drop, if◌then◌else◌, IfOk, IsOkUnless};
ghost use Rattle.std.specs.Prelude.{Contains, IsErrOf, IsSome, OnErr, OnOk, ⊤};
ghost use Rattle.std.specs.BTreeMap.{insert_entry};
ghost use Rattle.disks.specs.Folder.{HasBytes};
ghost use Rattle.disks.specs.Laws.{OwnStay, OwnStayBeside, StaysHeld};
ghost use Rattle.share_store.specs.declared.error.StoreError.{StoreError};
ghost use Rattle.share_store.specs.Shelf.{ShareKey, at, held_by, is_under, key_of, order, same_key};
ghost use Rattle.share_folders.specs.declared.table.KeptShare.{KeptShare};
ghost use Rattle.share_folders.specs.Folder.{length_at, length_of, lengths_of};
ghost use Rattle.share_folders.specs.Names.{closed_name, open_name};
ghost use Rattle.share_folders.specs.Stored.{FileCloses, HasShare, RecentHas, StayHeld, StayOpen};
ghost use Rattle.share_folders.specs.Stored.{IsLatest, IsReady, WasWritten};
ghost use Rattle.share_folders.specs.Table.{AreSeen, HasUnasked, StayBeside, has_index, is_known};
ghost use Rattle.wire.specs.Limits.{most_data};

use crate::disk::Durability;
use crate::files::{Closing, OpenShare, RecentFile, begin_share, open_closed, read_at};
use crate::lengths::{look_at, look_at_all};
use crate::names::{ClosedName, OpenName, OwnToken};
use crate::opened::{append_to, forget_open, put_begun, put_closed, written_length};
use crate::table::KeptShare;
use disks::disk::Disk;
use disks::own::discard;
use share_store::error::StoreError;
use share_store::shelf::{ShareKey, key_of};
use share_store::table::held_under;
use std::alloc::Global;
use std::collections::BTreeMap;
use wire::message::{Digest, HeldList, ReadData, ReadLength, ShareId, StorageIndex};

/// What a store keeps in a folder.
#[derive(Drop)]
pub struct DiskStore<D: Disk + Drop> {
    /// Where the names of files come from.
    pub alloc: Global,
    /// The folder.
    pub disk: D,
    /// What open shares' files are named by: none where no shares are taken.
    pub own: Option<OwnToken>,
    /// The closed shares.
    pub closed: BTreeMap<ShareKey, KeptShare>,
    /// The open shares.
    pub opened: BTreeMap<ShareKey, OpenShare<D::File>>,
    /// Whether a share outlasts a power failure once it is closed.
    pub durability: Durability,
    /// The file that was read last: a share is read part by part.
    pub recent: Option<RecentFile<D::File>>,
}

impl<D: Disk + Drop> DiskStore<D> {
    /// A store over a disk, with these closed shares.
    pub fn new(
        alloc: Global,
        disk: D,
        own: Option<OwnToken>,
        closed: BTreeMap<ShareKey, KeptShare>,
        durability: Durability,
    ) -> DiskStore<D>
        ensures disk { result.disk ≡ disk }
        ensures own { result.own ≡ own }
        ensures closed { result.closed.entries ≡ closed.entries }
        ensures opened { result.opened.entries ≡ [] }
        ensures durability { result.durability ≡ durability }
        ensures recent { result.recent ≡ None }
    {
        DiskStore {
            alloc,
            disk,
            own,
            closed,
            opened: BTreeMap::new(alloc),
            durability,
            recent: None,
        }
    }

    // What an open share's file is named by. A store that takes no shares has none.
    fn open_name(&self, id: &ShareId) -> Result<OpenName, StoreError>
        ensures key { IfOk result (λ name. name.key ≡ (id.now.index, id.now.share)) }
        ensures own { IfOk result (λ name. name.own ≡ self.now.own) }
        ensures takes { OnOk result (IsSome self.now.own) }
    {
        if self.own.is_none() {
            return Err(StoreError::StoreFault);
        }
        Ok(OpenName {
            key: key_of(id),
            own: self.own,
        })
    }

    // Begins an open share anew.
    fn begin(&mut self, name: &OpenName) -> Result<(), StoreError>
        ensures own { self.new.own ≡ self.old.own }
        ensures durability { self.new.durability ≡ self.old.durability }
        ensures closed { self.new.closed.entries ≡ self.old.closed.entries }
        ensures recent { self.new.recent ≡ self.old.recent }
        ensures others { StayBeside (same_key name.now.key) self.old.opened.entries
            self.new.opened.entries }
        ensures empty { OnOk result
            (length_at name.now.key (lengths_of self.new.opened.entries) ≡ 0) }
        ensures place { D.place self.new.disk ≡ D.place self.old.disk }
        ensures so_far { D.honest self.new.disk → D.honest self.old.disk }
        ensures begun { D.honest self.new.disk → OnOk result (WasWritten D.inode
            (D.folder self.new.disk) (open_name name.now.key name.now.own)
            (at name.now.key self.new.opened.entries) []) }
        ensures held { D.honest self.new.disk
            → StaysHeld D.relied (D.folder self.old.disk) (D.folder self.new.disk) }
        ensures beside { D.honest self.new.disk → StayOpen D.inode name.now.own name.now.key ⊤
            result (D.folder self.old.disk) self.old.opened.entries (D.folder self.new.disk)
            self.new.opened.entries }
    {
        let text = name.text(self.alloc)?;
        let share = begin_share(&mut self.disk, text.as_str())?;
        put_begun(&mut self.opened, &name.key, share)
    }

    // Begins an open share anew, where a write at this offset does, or nothing was written to it.
    fn begin_at(&mut self, name: &OpenName, offset: u64) -> Result<(), StoreError>
        ensures own { self.new.own ≡ self.old.own }
        ensures durability { self.new.durability ≡ self.old.durability }
        ensures closed { self.new.closed.entries ≡ self.old.closed.entries }
        ensures recent { self.new.recent ≡ self.old.recent }
        ensures others { StayBeside (same_key name.now.key) self.old.opened.entries
            self.new.opened.entries }
        ensures long { OnOk result (length_at name.now.key (lengths_of self.new.opened.entries)
            ≡ (if offset == 0 then 0
            else length_at name.now.key (lengths_of self.old.opened.entries))) }
        ensures place { D.place self.new.disk ≡ D.place self.old.disk }
        ensures so_far { D.honest self.new.disk → D.honest self.old.disk }
        ensures begun { D.honest self.new.disk → (before : List ℕ) → IsReady D.inode
            offset (D.folder self.old.disk) (open_name name.now.key name.now.own)
            (at name.now.key self.old.opened.entries) before
            → OnOk result (WasWritten D.inode
            (D.folder self.new.disk) (open_name name.now.key name.now.own)
            (at name.now.key self.new.opened.entries) (if offset == 0 then [] else before)) }
        ensures held { D.honest self.new.disk
            → StaysHeld D.relied (D.folder self.old.disk) (D.folder self.new.disk) }
        ensures beside { D.honest self.new.disk → StayOpen D.inode name.now.own name.now.key
            (offset ≡ 0) result (D.folder self.old.disk) self.old.opened.entries
            (D.folder self.new.disk) self.new.opened.entries }
    {
        if offset == 0 || written_length(&self.opened, &name.key) == 0 {
            return self.begin(name);
        }
        Ok(())
    }

    /// Adds bytes at the end of an open share.
    pub fn write_open(&mut self, id: &ShareId, offset: u64, bytes: &[u8]) -> Result<(), StoreError>
        ensures own { self.new.own ≡ self.old.own }
        ensures durability { self.new.durability ≡ self.old.durability }
        ensures closed { self.new.closed.entries ≡ self.old.closed.entries }
        ensures recent { self.new.recent ≡ self.old.recent }
        ensures others { StayBeside (same_key (key_of id.now)) self.old.opened.entries
            self.new.opened.entries }
        ensures takes { OnOk result (IsSome self.old.own) }
        ensures long { OnOk result
            (length_at (id.now.index, id.now.share) (lengths_of self.new.opened.entries)
            ≡ (if offset == 0 then 0
            else length_at (id.now.index, id.now.share) (lengths_of self.old.opened.entries))
            + length bytes.now) }
        ensures place { D.place self.new.disk ≡ D.place self.old.disk }
        ensures so_far { D.honest self.new.disk → D.honest self.old.disk }
        ensures written { D.honest self.new.disk → (before : List ℕ) → IsReady D.inode
            offset (D.folder self.old.disk) (open_name (key_of id.now) self.old.own)
            (at (key_of id.now) self.old.opened.entries) before
            → OnOk result (WasWritten D.inode
            (D.folder self.new.disk) (open_name (key_of id.now) self.old.own)
            (at (key_of id.now) self.new.opened.entries)
            ((if offset == 0 then [] else before) ++ bytes.now)) }
        ensures held { D.honest self.new.disk → (before : List ℕ) → IsReady D.inode
            offset (D.folder self.old.disk) (open_name (key_of id.now) self.old.own)
            (at (key_of id.now) self.old.opened.entries) before
            → StaysHeld D.relied (D.folder self.old.disk) (D.folder self.new.disk) }
        ensures beside { D.honest self.new.disk → StayOpen D.inode self.old.own (key_of id.now)
            (offset ≡ 0) result (D.folder self.old.disk) self.old.opened.entries
            (D.folder self.new.disk) self.new.opened.entries }
    {
        let name = self.open_name(id)?;
        self.begin_at(&name, offset)?;
        let outcome = append_to(&mut self.disk, &mut self.opened, &name.key, bytes);
        if outcome.is_err() {
            self.remove_open(&name);
        }
        outcome
    }

    // Removes the file of a share that is open no longer, where that goes.
    fn remove_open(&mut self, name: &OpenName)
        ensures own { self.new.own ≡ self.old.own }
        ensures durability { self.new.durability ≡ self.old.durability }
        ensures closed { self.new.closed.entries ≡ self.old.closed.entries }
        ensures recent { self.new.recent ≡ self.old.recent }
        ensures opened { self.new.opened.entries ≡ self.old.opened.entries }
        ensures place { D.place self.new.disk ≡ D.place self.old.disk }
        ensures so_far { D.honest self.new.disk → D.honest self.old.disk }
        ensures held { D.honest self.new.disk
            → StaysHeld D.relied (D.folder self.old.disk) (D.folder self.new.disk) }
        ensures beside { D.honest self.new.disk → OwnStayBeside
            (open_name name.now.key name.now.own) (D.folder self.old.disk)
            (D.folder self.new.disk) }
    {
        if let Ok(text) = name.text(self.alloc) {
            let _ = discard(&mut self.disk, text.as_str());
        }
    }

    /// Nothing is held any more for an open share that will not go on: its file is closed, and
    /// removed where that goes.
    #[tactic(auto, using(crate::proofs::Closings::held_same))]
    pub fn let_go(&mut self, id: &ShareId)
        ensures own { self.new.own ≡ self.old.own }
        ensures durability { self.new.durability ≡ self.old.durability }
        ensures closed { self.new.closed.entries ≡ self.old.closed.entries }
        ensures recent { self.new.recent ≡ self.old.recent }
        ensures gone { at (key_of id.now) self.new.opened.entries ≡ None }
        ensures others { StayBeside (same_key (key_of id.now)) self.old.opened.entries
            self.new.opened.entries }
        ensures place { D.place self.new.disk ≡ D.place self.old.disk }
        ensures so_far { D.honest self.new.disk → D.honest self.old.disk }
        ensures held { D.honest self.new.disk
            → StaysHeld D.relied (D.folder self.old.disk) (D.folder self.new.disk) }
        ensures beside { D.honest self.new.disk → OwnStayBeside
            (open_name (key_of id.now) self.old.own) (D.folder self.old.disk)
            (D.folder self.new.disk) }
    {
        forget_open(&mut self.opened, &key_of(id));
        if let Ok(name) = self.open_name(id) {
            self.remove_open(&name);
        }
    }

    /// Closes an open share under a digest.
    pub fn close_open(&mut self, id: &ShareId, digest: &Digest) -> Result<(), StoreError>
        requires { at (key_of id.now) self.old.closed.entries ≡ None }
        ensures own { self.new.own ≡ self.old.own }
        ensures durability { self.new.durability ≡ self.old.durability }
        ensures closed { OnOk result (self.new.closed.entries
            ≡ insert_entry order self.old.closed.entries (id.now.index, id.now.share) (record {
              length = Some (length_at (id.now.index, id.now.share)
                  (lengths_of self.old.opened.entries));
              digest = digest.now;
            })) }
        ensures takes { OnOk result (IsSome self.old.own) }
        ensures others { StayBeside (same_key (key_of id.now)) self.old.opened.entries
            self.new.opened.entries }
        ensures err_closed { OnErr result (self.new.closed.entries ≡ self.old.closed.entries) }
        ensures err_opened { OnErr result (self.new.opened.entries ≡ self.old.opened.entries) }
        ensures recent { OnOk result (self.new.recent ≡ None) }
        ensures err_recent { OnErr result (self.new.recent ≡ self.old.recent) }
        ensures place { D.place self.new.disk ≡ D.place self.old.disk }
        ensures so_far { D.honest self.new.disk → D.honest self.old.disk }
        ensures closes { D.honest self.new.disk → (bytes : List ℕ) → WasWritten D.inode
            (D.folder self.old.disk) (open_name (key_of id.now) self.old.own)
            (at (key_of id.now) self.old.opened.entries) bytes
            → FileCloses D.relied self.old.durability (closed_name (key_of id.now) digest.now)
            bytes result (D.folder self.old.disk) (D.folder self.new.disk) }
        ensures beside { D.honest self.new.disk → (bytes : List ℕ) → WasWritten D.inode
            (D.folder self.old.disk) (open_name (key_of id.now) self.old.own)
            (at (key_of id.now) self.old.opened.entries) bytes
            → StayOpen D.inode self.old.own (key_of id.now) ⊥ result (D.folder self.old.disk)
            self.old.opened.entries (D.folder self.new.disk) self.new.opened.entries }
    {
        let name = self.open_name(id)?;
        let (key, digest) = (name.key, *digest);
        let open = name.text(self.alloc)?;
        let closed = ClosedName { key, digest }.text(self.alloc)?;
        let length = Some(written_length(&self.opened, &key));
        put_closed(
            &mut self.disk,
            &self.opened,
            &mut self.closed,
            &key,
            &KeptShare { length, digest },
            &Closing {
                durability: self.durability,
                open: open.as_str(),
                closed: closed.as_str(),
            },
        )?;
        // what was read last may have had the name of this share before
        self.recent = None;
        forget_open(&mut self.opened, &key);
        Ok(())
    }

    /// Bytes of a closed share from an offset on.
    pub fn read_kept(
        &mut self,
        alloc: Global,
        id: &ShareId,
        offset: u64,
        count: ReadLength,
    ) -> Result<ReadData, StoreError>
        ensures own { self.new.own ≡ self.old.own }
        ensures durability { self.new.durability ≡ self.old.durability }
        ensures opened { self.new.opened.entries ≡ self.old.opened.entries }
        ensures seen { AreSeen self.old.closed.entries self.new.closed.entries }
        ensures others { StayBeside (same_key (id.now.index, id.now.share))
            self.old.closed.entries self.new.closed.entries }
        ensures known { OnOk result
            (is_known (at (id.now.index, id.now.share) self.new.closed.entries) ≡ true) }
        ensures long { IfOk result (λ got. length got ≡ min count
            (length_of (at (id.now.index, id.now.share) self.new.closed.entries) - offset)) }
        ensures place { D.place self.new.disk ≡ D.place self.old.disk }
        ensures so_far { D.honest self.new.disk → D.honest self.old.disk }
        ensures given { D.honest self.new.disk → (digest bytes : List ℕ) → HasShare D.relied D.inode
            (D.folder self.old.disk) self.old.closed.entries self.old.recent (key_of id.now) digest
            bytes → IfOk result (λ got. got ≡ take count (drop offset bytes)) }
        ensures still { D.honest self.new.disk → StayHeld D.relied D.inode
            (D.folder self.old.disk) self.old.closed.entries self.old.recent
            (D.folder self.new.disk) self.new.closed.entries self.new.recent }
        ensures held { D.honest self.new.disk
            → StaysHeld D.relied (D.folder self.old.disk) (D.folder self.new.disk) }
        ensures beside { D.honest self.new.disk
            → OwnStay (D.folder self.old.disk) (D.folder self.new.disk) }
    {
        let key = key_of(id);
        look_at(self.alloc, &mut self.disk, &mut self.closed, &key)?;
        let Some(share) = self.closed.get(&key) else {
            return Err(StoreError::StoreFault);
        };
        let left = bytes_left(share.length.unwrap_or(0), offset, count);
        let named = ClosedName {
            key,
            digest: share.digest,
        };
        read_named(
            alloc,
            &mut self.disk,
            &mut self.recent,
            &named,
            offset,
            left,
        )
    }

    /// The closed shares under a storage index with their digests, lowest number first.
    pub fn list_kept(&mut self, alloc: Global, index: &StorageIndex) -> Result<HeldList, StoreError>
        ensures own { self.new.own ≡ self.old.own }
        ensures durability { self.new.durability ≡ self.old.durability }
        ensures opened { self.new.opened.entries ≡ self.old.opened.entries }
        ensures seen { AreSeen self.old.closed.entries self.new.closed.entries }
        ensures others { StayBeside (has_index index.now) self.old.closed.entries
            self.new.closed.entries }
        ensures told { IfOk result (λ found. found
            ≡ held_by (λ (k : KeptShare). k.digest) index.now self.new.closed.entries) }
        ensures cause { IsErrOf result StoreError.StoreFault
            → HasUnasked index.now self.old.closed.entries }
        ensures each { D.honest self.new.disk → (key : ShareKey) (digest bytes : List ℕ)
            → HasShare D.relied D.inode (D.folder self.old.disk) self.old.closed.entries
            self.old.recent key digest bytes → is_under index.now key ≡ true → IfOk result
            (λ found. Contains found (record { share = key.1; digest = digest })) }
        ensures place { D.place self.new.disk ≡ D.place self.old.disk }
        ensures so_far { D.honest self.new.disk → D.honest self.old.disk }
        ensures still { D.honest self.new.disk → StayHeld D.relied D.inode
            (D.folder self.old.disk) self.old.closed.entries self.old.recent
            (D.folder self.new.disk) self.new.closed.entries self.new.recent }
        ensures held { D.honest self.new.disk
            → StaysHeld D.relied (D.folder self.old.disk) (D.folder self.new.disk) }
        ensures beside { D.honest self.new.disk
            → OwnStay (D.folder self.old.disk) (D.folder self.new.disk) }
    {
        let named = held_under(alloc, &self.closed, index)?;
        let (disk, closed) = (&mut self.disk, &mut self.closed);
        look_at_all(alloc, disk, closed, index, named.as_slice())?;
        held_under(alloc, &self.closed, index)
    }
}

// So many bytes of a closed share's file.
#[tactic(auto, using(crate::proofs::Closings::held_on, crate::proofs::Closings::held_same))]
fn read_named<D: Disk>(
    alloc: Global,
    disk: &mut D,
    recent: &mut Option<RecentFile<D::File>>,
    named: &ClosedName,
    offset: u64,
    count: u32,
) -> Result<ReadData, StoreError>
    requires { count ≤ most_data }
    ensures long { IfOk result (λ got. length got ≡ count) }
    ensures place { D.place disk.new ≡ D.place disk.old }
    ensures so_far { D.honest disk.new → D.honest disk.old }
    ensures given { D.honest disk.new → (bytes : List ℕ)
        → D.relied (closed_name named.now.key named.now.digest) bytes ≡ true
        → HasBytes (D.folder disk.old) bytes
        ((D.folder disk.old).found (closed_name named.now.key named.now.digest))
        → RecentHas D.inode (D.folder disk.old) named.now.key recent.old bytes
        → IfOk result (λ got. got ≡ take count (drop offset bytes)) }
    ensures recent { D.honest disk.new → (bytes : List ℕ)
        → D.relied (closed_name named.now.key named.now.digest) bytes ≡ true
        → HasBytes (D.folder disk.old) bytes
        ((D.folder disk.old).found (closed_name named.now.key named.now.digest))
        → RecentHas D.inode (D.folder disk.old) named.now.key recent.old bytes
        → RecentHas D.inode (D.folder disk.new) named.now.key recent.new bytes }
    ensures latest { IsLatest named.now.key recent.old recent.new }
    ensures held { D.honest disk.new → StaysHeld D.relied (D.folder disk.old) (D.folder disk.new) }
    ensures beside { D.honest disk.new → OwnStay (D.folder disk.old) (D.folder disk.new) }
{
    if count == 0 {
        return Ok(ReadData::from_vec(Vec::new(alloc)).unwrap());
    }
    let mut file = take_file(alloc, disk, recent, named)?;
    let bytes = read_at(alloc, disk, &mut file, offset, count)?;
    *recent = Some(file);
    Ok(bytes)
}

// A closed share's file: the one that was read last, or another one.
fn take_file<D: Disk>(
    alloc: Global,
    disk: &mut D,
    recent: &mut Option<RecentFile<D::File>>,
    named: &ClosedName,
) -> Result<RecentFile<D::File>, StoreError>
    ensures key { IfOk result (λ file. file.key ≡ named.now.key) }
    ensures none { recent.new ≡ None }
    ensures place { D.place disk.new ≡ D.place disk.old }
    ensures so_far { D.honest disk.new → D.honest disk.old }
    ensures bytes { D.honest disk.new → (bytes : List ℕ)
        → D.relied (closed_name named.now.key named.now.digest) bytes ≡ true
        → HasBytes (D.folder disk.old) bytes
        ((D.folder disk.old).found (closed_name named.now.key named.now.digest))
        → RecentHas D.inode (D.folder disk.old) named.now.key recent.old bytes
        → IfOk result (λ file. HasBytes (D.folder disk.new) bytes (Some (D.inode file.file))) }
    ensures held { D.honest disk.new → StaysHeld D.relied (D.folder disk.old) (D.folder disk.new) }
    ensures beside { D.honest disk.new → OwnStay (D.folder disk.old) (D.folder disk.new) }
{
    match recent.take() {
        Some(file) if file.key == named.key => Ok(file),
        _ => open_named(alloc, disk, named),
    }
}

// A closed share's file.
fn open_named<D: Disk>(
    alloc: Global,
    disk: &mut D,
    named: &ClosedName,
) -> Result<RecentFile<D::File>, StoreError>
    ensures key { IfOk result (λ recent. recent.key ≡ named.now.key) }
    ensures place { D.place disk.new ≡ D.place disk.old }
    ensures so_far { D.honest disk.new → D.honest disk.old }
    ensures bytes { D.honest disk.new → (bytes : List ℕ)
        → D.relied (closed_name named.now.key named.now.digest) bytes ≡ true
        → HasBytes (D.folder disk.old) bytes
        ((D.folder disk.old).found (closed_name named.now.key named.now.digest))
        → IfOk result (λ recent. HasBytes (D.folder disk.new) bytes (Some (D.inode recent.file))) }
    ensures held { D.honest disk.new → StaysHeld D.relied (D.folder disk.old) (D.folder disk.new) }
    ensures beside { D.honest disk.new → OwnStay (D.folder disk.old) (D.folder disk.new) }
{
    let text = named.text(alloc)?;
    open_closed(disk, &named.key, text.as_str())
}

// How many bytes of so many there are from an offset on, up to as many as asked for.
fn bytes_left(whole: u64, offset: u64, count: ReadLength) -> u32
    ensures value { result ≡ min count (whole - offset) }
    ensures bound { result ≤ most_data }
{
    whole.saturating_sub(offset).min(u64::from(count.get())) as u32
}
