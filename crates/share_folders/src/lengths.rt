//! The lengths of closed shares, which are asked when a share is asked for.

ghost use Rattle.std.specs.Prelude.{◌≡◌, ℕ, List, None, Some, false, true, is_some, IfNone, IfSome};
ghost use Rattle.std.specs.Prelude.{IsErrOf, IsOkUnless, OnErr, OnOk, length};
ghost use Rattle.disks.specs.Laws.{OwnStay, StaysHeld};
ghost use Rattle.share_store.specs.declared.error.StoreError.{StoreError};
ghost use Rattle.share_store.specs.Shelf.{ShareKey, at, same_key};
ghost use Rattle.share_folders.specs.Stored.{IsKept, StayKept};
ghost use Rattle.share_folders.specs.Table.{AreSeen, HasUnasked, IsUnasked, StayBeside, has_index};

use crate::files::regular_length;
use crate::names::ClosedName;
use crate::table::KeptShare;
use disks::disk::Disk;
use share_store::error::StoreError;
use share_store::shelf::ShareKey;
use std::alloc::Global;
use std::collections::BTreeMap;
use wire::message::{Digest, HeldShare, StorageIndex};

/// Asks the length of a closed share, where it is not known. A share is closed no longer where that
/// went well and nothing regular stands under its name. After an error all is as it was.
pub(crate) fn look_at<D: Disk>(
    alloc: Global,
    disk: &mut D,
    closed: &mut BTreeMap<ShareKey, KeptShare>,
    key: &ShareKey,
) -> Result<(), StoreError>
    ensures seen { AreSeen closed.old.entries closed.new.entries }
    ensures others { StayBeside (same_key key.now) closed.old.entries closed.new.entries }
    ensures known { OnOk result (IfSome (at key.now closed.new.entries)
        (λ k. is_some k.length ≡ true)) }
    ensures err { OnErr result (closed.new.entries ≡ closed.old.entries) }
    ensures cause { IsErrOf result StoreError.StoreFault
        → IsUnasked (at key.now closed.old.entries) }
    ensures place { D.place disk.new ≡ D.place disk.old }
    ensures so_far { D.honest disk.new → D.honest disk.old }
    ensures right { D.honest disk.new → (digest bytes : List ℕ)
        → IsKept D.relied (D.folder disk.old) closed.old.entries key.now digest bytes
        → OnOk result (at key.now closed.new.entries
        ≡ Some (record { length = Some (length bytes); digest = digest })) }
    ensures kept { D.honest disk.new → StayKept D.relied (D.folder disk.old) closed.old.entries
        (D.folder disk.new) closed.new.entries }
    ensures held { D.honest disk.new → StaysHeld D.relied (D.folder disk.old) (D.folder disk.new) }
    ensures opened { D.honest disk.new → OwnStay (D.folder disk.old) (D.folder disk.new) }
{
    let Some(digest) = digest_to_look_at(closed, key) else {
        return Ok(());
    };
    let name = ClosedName { key: *key, digest }.text(alloc)?;
    match regular_length(disk, name.as_str())? {
        Some(length) => note_length(closed, key, length, &digest),
        None => {
            forget_closed(closed, key);
            Ok(())
        }
    }
}

/// The same of these shares of one storage index, up to the first that cannot be looked at.
#[tactic(auto, using(crate::proofs::Closings::held_on, crate::proofs::Closings::held_same))]
pub(crate) fn look_at_all<D: Disk>(
    alloc: Global,
    disk: &mut D,
    closed: &mut BTreeMap<ShareKey, KeptShare>,
    index: &StorageIndex,
    shares: &[HeldShare],
) -> Result<(), StoreError>
    ensures seen { AreSeen closed.old.entries closed.new.entries }
    ensures others { StayBeside (has_index index.now) closed.old.entries closed.new.entries }
    ensures cause { IsErrOf result StoreError.StoreFault
        → HasUnasked index.now closed.old.entries }
    ensures place { D.place disk.new ≡ D.place disk.old }
    ensures so_far { D.honest disk.new → D.honest disk.old }
    ensures kept { D.honest disk.new → StayKept D.relied (D.folder disk.old) closed.old.entries
        (D.folder disk.new) closed.new.entries }
    ensures held { D.honest disk.new → StaysHeld D.relied (D.folder disk.old) (D.folder disk.new) }
    ensures opened { D.honest disk.new → OwnStay (D.folder disk.old) (D.folder disk.new) }
{
    for held in shares {
        look_at(alloc, disk, closed, &(*index, held.share))?;
    }
    Ok(())
}

// The digest of a closed share whose length is not known.
fn digest_to_look_at(closed: &BTreeMap<ShareKey, KeptShare>, key: &ShareKey) -> Option<Digest>
    ensures known { IfNone result (IfSome (at key.now closed.now.entries)
        (λ k. is_some k.length ≡ true)) }
    ensures unknown { IfSome result (λ digest. at key.now closed.now.entries
        ≡ Some (record { length = None; digest = digest })) }
{
    let share = closed.get(key)?;
    if share.length.is_some() {
        return None;
    }
    Some(share.digest)
}

// Notes the length of a closed share.
fn note_length(
    closed: &mut BTreeMap<ShareKey, KeptShare>,
    key: &ShareKey,
    length: u64,
    digest: &Digest,
) -> Result<(), StoreError>
    ensures noted { OnOk result (at key.now closed.new.entries
        ≡ Some (record { length = Some length; digest = digest.now })) }
    ensures others { OnOk result ((other : ShareKey) → same_key key.now other ≡ false
        → at other closed.new.entries ≡ at other closed.old.entries) }
    ensures err { OnErr result (closed.new.entries ≡ closed.old.entries) }
    ensures memory { IsOkUnless result StoreError.OutOfMemory }
{
    let share = KeptShare {
        length: Some(length),
        digest: *digest,
    };
    closed.insert(*key, share)?;
    Ok(())
}

// Forgets a closed share.
fn forget_closed(closed: &mut BTreeMap<ShareKey, KeptShare>, key: &ShareKey)
    ensures gone { at key.now closed.new.entries ≡ None }
    ensures others { (other : ShareKey) → same_key key.now other ≡ false
        → at other closed.new.entries ≡ at other closed.old.entries }
{
    closed.remove(key);
}
