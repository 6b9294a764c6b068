//! What a server's folder holds when its store is opened.

ghost use Rattle.std.specs.Prelude.{◌≡◌, ◌∷◌, ◌++◌, [], ℕ, List, Some, None, Contains, codes, true};
ghost use Rattle.std.specs.Prelude.{IfOk, OnOk, false, is_some, map};
ghost use Rattle.std.specs.Bool.{OnFalse};
ghost use Rattle.std.specs.String.{string_bytes};
ghost use Rattle.disks.specs.Names.{Name};
ghost use Rattle.disks.specs.Laws.{StaysHeld};
ghost use Rattle.share_store.specs.Shelf.{ShareKey, at, same_key};
ghost use Rattle.share_folders.specs.Folder.{durability_of, takes_shares};
ghost use Rattle.share_folders.specs.declared.disk.Durability.{Durability};
ghost use Rattle.share_folders.specs.Listed.{AreListed, AreSettled, AreTaken, HaveNoClosed};
ghost use Rattle.share_folders.specs.Listed.{IsEither, StayStanding};
ghost use Rattle.share_folders.specs.Names.{IsNamed, closed_name};

use crate::disk::Durability;
use crate::files::{as_stored, regular_length};
use crate::lengths::look_at;
use crate::names::{ClosedName, OwnToken, draw_token};
use crate::table::{KeptShare, keep_lower};
use disks::disk::Disk;
use disks::opening::sync_names;
use disks::system::SystemDisk;
use share_store::error::StoreError;
use share_store::shelf::ShareKey;
use std::alloc::Global;
use std::collections::BTreeMap;
use std::fs::Metadata;
use std::random::RandomSource;
use std::rt::Files;
use std::{fs, io};

// The name of the file by which a server takes no further shares.
const READONLY: &str = "readonly";

/// What the store of a folder is opened for. No file is looked at before its share is asked for,
/// but where two have the names of one share.
#[derive(Clone, Copy, PartialEq, Eq)]
pub enum Purpose {
    /// Shares are read, and none is taken.
    Reading,
    /// Shares are written too, and outlast a power failure or not.
    Writing(Durability),
}

impl Purpose {
    /// Whether what is written outlasts a power failure. For reading nothing is put on the disk.
    pub(crate) fn durability(self) -> Durability
        ensures { result ≡ durability_of self }
    {
        match self {
            Purpose::Reading => Durability::Unsynced,
            Purpose::Writing(durability) => durability,
        }
    }
}

/// The names in a folder, and its closed shares by them.
#[derive(Drop)]
pub struct Listing {
    pub names: Vec<String>,
    pub closed: BTreeMap<ShareKey, KeptShare>,
}

/// What a folder holds that is there. Synced, the names of closed shares are put on the disk: they
/// were left by a program that may have ended before it had put them there. However it ends, what
/// was durable is so still.
///
/// `StoreFault` where the folder cannot be read, or such a name not be put on the disk, and where
/// two files have names of one share and it cannot be told whether they are regular ones.
#[tactic(auto, using(crate::proofs::Closings::held_on))]
pub fn list_folder<D: Disk>(
    alloc: Global,
    disk: &mut D,
    durability: Durability,
) -> Result<Listing, StoreError>
    ensures listed { D.honest disk.new → IfOk result (λ listing.
        AreListed D.relied (map string_bytes listing.names.items) (D.folder disk.old)) }
    ensures taken { IfOk result (λ listing.
        AreTaken (map string_bytes listing.names.items) listing.closed.entries) }
    ensures place { D.place disk.new ≡ D.place disk.old }
    ensures so_far { D.honest disk.new → D.honest disk.old }
    ensures held { D.honest disk.new → StaysHeld D.relied (D.folder disk.old) (D.folder disk.new) }
    ensures settled { D.honest disk.new → durability ≡ Durability.Synced → IfOk result (λ listing.
        AreSettled D.relied (map string_bytes listing.names.items) (D.folder disk.old)
        (D.folder disk.new)) }
{
    let names = list_names(alloc, disk)?;
    let closed = take_names(alloc, disk, durability, names.as_slice())?;
    Ok(Listing { names, closed })
}

// The names in a folder.
fn list_names<D: Disk>(alloc: Global, disk: &mut D) -> Result<Vec<String>, StoreError>
    ensures listed { D.honest disk.new → IfOk result (λ names.
        AreListed D.relied (map string_bytes names.items) (D.folder disk.old)) }
    ensures place { D.place disk.new ≡ D.place disk.old }
    ensures so_far { D.honest disk.new → D.honest disk.old }
    ensures held { D.honest disk.new → StaysHeld D.relied (D.folder disk.old) (D.folder disk.new) }
    ensures standing { D.honest disk.new
        → StayStanding D.relied (D.folder disk.old) (D.folder disk.new) }
{
    as_stored(disk.list(alloc))
}

/// Whether a folder with these names has a file `readonly`.
pub(crate) fn is_readonly<R: Files + AllocGlobal + Clone + Drop>(
    disk: &SystemDisk<R>,
    names: &[String],
) -> Result<bool, StoreError>
    ensures { IfOk result (λ readonly. readonly ≡ true
        → Contains (map string_bytes names.now) (codes "readonly")) }
{
    if !has_readonly(names) {
        return Ok(false);
    }
    let folder = disk.folder.as_str();
    let path = format!(in disk.rt.alloc(); "{folder}/{READONLY}")?;
    is_file(fs::metadata(&disk.rt, path.as_str()))
}

// Whether the name of that file is among these.
fn has_readonly(names: &[String]) -> bool
    ensures { result ≡ true → Contains (map string_bytes names.now) (codes "readonly") }
{
    for name in names {
        if name.as_str() == READONLY {
            return true;
        }
    }
    false
}

// The closed shares of a folder with these names. Synced, their names are put on the disk.
#[tactic(auto, using(crate::proofs::Closings::held_on))]
fn take_names<D: Disk>(
    alloc: Global,
    disk: &mut D,
    durability: Durability,
    names: &[String],
) -> Result<BTreeMap<ShareKey, KeptShare>, StoreError>
    ensures taken { IfOk result (λ closed. AreTaken (map string_bytes names.now) closed.entries) }
    ensures place { D.place disk.new ≡ D.place disk.old }
    ensures so_far { D.honest disk.new → D.honest disk.old }
    ensures held { D.honest disk.new → StaysHeld D.relied (D.folder disk.old) (D.folder disk.new) }
    ensures settled { D.honest disk.new → durability ≡ Durability.Synced → OnOk result
        (AreSettled D.relied (map string_bytes names.now) (D.folder disk.old) (D.folder disk.new)) }
{
    settle_names(disk, durability, names)?;
    note_names(alloc, disk, names)
}

// Synced, puts the names in a folder on the disk, if a closed share's is among them.
#[tactic(auto, using(crate::proofs::Closings::held_same))]
fn settle_names<D: Disk>(
    disk: &mut D,
    durability: Durability,
    names: &[String],
) -> Result<(), StoreError>
    ensures place { D.place disk.new ≡ D.place disk.old }
    ensures so_far { D.honest disk.new → D.honest disk.old }
    ensures held { D.honest disk.new → StaysHeld D.relied (D.folder disk.old) (D.folder disk.new) }
    ensures settled { D.honest disk.new → durability ≡ Durability.Synced → OnOk result
        (AreSettled D.relied (map string_bytes names.now) (D.folder disk.old) (D.folder disk.new)) }
{
    match durability {
        Durability::Unsynced => Ok(()),
        Durability::Synced => settle_closed(disk, names),
    }
}

// Puts the names in a folder on the disk, if a closed share's is among them.
#[tactic(auto, using(crate::proofs::Closings::held_same))]
fn settle_closed<D: Disk>(disk: &mut D, names: &[String]) -> Result<(), StoreError>
    ensures place { D.place disk.new ≡ D.place disk.old }
    ensures so_far { D.honest disk.new → D.honest disk.old }
    ensures held { D.honest disk.new → StaysHeld D.relied (D.folder disk.old) (D.folder disk.new) }
    ensures settled { D.honest disk.new → OnOk result
        (AreSettled D.relied (map string_bytes names.now) (D.folder disk.old) (D.folder disk.new)) }
{
    if !has_closed(names) {
        return Ok(());
    }
    as_stored(sync_names(disk))
}

// Whether a closed share's name is among these.
fn has_closed(names: &[String]) -> bool
    ensures { OnFalse result (HaveNoClosed (map string_bytes names.now)) }
{
    for name in names {
        if is_closed_name(name.as_str()) {
            return true;
        }
    }
    false
}

// Whether this is a closed share's name.
fn is_closed_name(name: &str) -> bool
    ensures { OnFalse result ((key : ShareKey) (digest : List ℕ) → IsNamed key digest
        → name.now ≡ closed_name key digest → ⊥) }
{
    ClosedName::read(name.as_bytes()).is_some()
}

// The closed shares of a folder with these names.
#[tactic(auto, using(crate::proofs::Closings::held_same, crate::proofs::Taking::none_taken))]
fn note_names<D: Disk>(
    alloc: Global,
    disk: &mut D,
    names: &[String],
) -> Result<BTreeMap<ShareKey, KeptShare>, StoreError>
    ensures taken { IfOk result (λ closed. AreTaken (map string_bytes names.now) closed.entries) }
    ensures place { D.place disk.new ≡ D.place disk.old }
    ensures so_far { D.honest disk.new → D.honest disk.old }
    ensures held { D.honest disk.new → StaysHeld D.relied (D.folder disk.old) (D.folder disk.new) }
{
    let mut closed = BTreeMap::new(alloc);
    for name in names {
        take_name(alloc, disk, &mut closed, name.as_str())?;
    }
    Ok(closed)
}

// Takes note of a file, if it is a closed share's.
#[tactic(auto, using(crate::proofs::Closings::held_same))]
fn take_name<D: Disk>(
    alloc: Global,
    disk: &mut D,
    closed: &mut BTreeMap<ShareKey, KeptShare>,
    name: &str,
) -> Result<(), StoreError>
    ensures taken { OnOk result ((names : List Name) → AreTaken names closed.old.entries
        → AreTaken (names ++ name.now ∷ []) closed.new.entries) }
    ensures place { D.place disk.new ≡ D.place disk.old }
    ensures so_far { D.honest disk.new → D.honest disk.old }
    ensures held { D.honest disk.new → StaysHeld D.relied (D.folder disk.old) (D.folder disk.new) }
{
    match ClosedName::read(name.as_bytes()) {
        Some(named) => take_named(alloc, disk, closed, &named, name),
        None => Ok(()),
    }
}

// Takes note of a closed share's file. What it was noted under already stays.
#[tactic(auto, using(crate::proofs::Closings::held_same))]
fn take_named<D: Disk>(
    alloc: Global,
    disk: &mut D,
    closed: &mut BTreeMap<ShareKey, KeptShare>,
    named: &ClosedName,
    name: &str,
) -> Result<(), StoreError>
    ensures first { OnOk result (at named.now.key closed.old.entries ≡ None
        → at named.now.key closed.new.entries
        ≡ Some (record { length = None; digest = named.now.digest })) }
    ensures again { OnOk result ((k : KeptShare) → at named.now.key closed.old.entries ≡ Some k
        → k.digest ≡ named.now.digest → at named.now.key closed.new.entries ≡ Some k) }
    ensures either { OnOk result (IsEither named.now.digest
        (at named.now.key closed.old.entries) (at named.now.key closed.new.entries)) }
    ensures others { OnOk result ((other : ShareKey) → same_key named.now.key other ≡ false
        → at other closed.new.entries ≡ at other closed.old.entries) }
    ensures place { D.place disk.new ≡ D.place disk.old }
    ensures so_far { D.honest disk.new → D.honest disk.old }
    ensures held { D.honest disk.new → StaysHeld D.relied (D.folder disk.old) (D.folder disk.new) }
{
    match closed.get(&named.key) {
        None => {
            let digest = named.digest;
            keep_lower(
                alloc,
                closed,
                &named.key,
                &KeptShare {
                    length: None,
                    digest,
                },
            )
        }
        Some(share) if share.digest == named.digest => Ok(()),
        Some(_) => take_second(alloc, disk, closed, named, name),
    }
}

// Takes note of a further file of a closed share. What is no regular file does not stand before one
// that is; it is a fault where that cannot be told.
#[tactic(auto, using(crate::proofs::Closings::held_on))]
fn take_second<D: Disk>(
    alloc: Global,
    disk: &mut D,
    closed: &mut BTreeMap<ShareKey, KeptShare>,
    named: &ClosedName,
    name: &str,
) -> Result<(), StoreError>
    ensures either { OnOk result (IsEither named.now.digest
        (at named.now.key closed.old.entries) (at named.now.key closed.new.entries)) }
    ensures others { OnOk result ((other : ShareKey) → same_key named.now.key other ≡ false
        → at other closed.new.entries ≡ at other closed.old.entries) }
    ensures place { D.place disk.new ≡ D.place disk.old }
    ensures so_far { D.honest disk.new → D.honest disk.old }
    ensures held { D.honest disk.new → StaysHeld D.relied (D.folder disk.old) (D.folder disk.new) }
{
    look_at(alloc, disk, closed, &named.key)?;
    match regular_length(disk, name)? {
        Some(length) => {
            let (length, digest) = (Some(length), named.digest);
            keep_lower(alloc, closed, &named.key, &KeptShare { length, digest })
        }
        None => Ok(()),
    }
}

/// What open shares' files are named by, in a store that takes shares: it is drawn from the system.
pub(crate) fn own_token<R: RandomSource>(
    rt: &R,
    purpose: Purpose,
    readonly: bool,
) -> Result<Option<OwnToken>, StoreError>
    ensures { IfOk result (λ own. is_some own ≡ takes_shares purpose readonly) }
{
    if readonly {
        return Ok(None);
    }
    match purpose {
        Purpose::Reading => Ok(None),
        Purpose::Writing(_) => Ok(Some(draw_token(rt)?)),
    }
}

// Whether a regular file was found; what cannot be asked is none.
fn is_file(outcome: io::Result<Metadata>) -> Result<bool, StoreError> {
    match outcome {
        Ok(found) => Ok(found.is_file()),
        Err(error) => match StoreError::from(error) {
            StoreError::OutOfMemory => Err(StoreError::OutOfMemory),
            StoreError::StoreFault => Ok(false),
        },
    }
}
