//! A folder's table of closed shares, in the order of their keys.

ghost use Rattle.std.specs.Prelude.{◌≡◌, Some, false, IfOk, OnOk, OnErr, IsOkUnless};
ghost use Rattle.share_store.specs.declared.error.StoreError.{StoreError};
ghost use Rattle.share_store.specs.Shelf.{ShareKey, at, same_key};
ghost use Rattle.share_folders.specs.Table.{has_lower_text, lower_of};

use crate::names::base32_of;
use share_store::error::StoreError;
use share_store::shelf::ShareKey;
use share_store::table::HasDigest;
use std::alloc::Global;
use std::collections::BTreeMap;
use wire::message::Digest;

/// A closed share of which the bytes are kept elsewhere.
#[derive(Clone, Copy, PartialEq, Eq)]
pub struct KeptShare {
    /// How many bytes the share has, where that was asked.
    pub length: Option<u64>,
    pub digest: Digest,
}

impl HasDigest for KeptShare {
    ghost digest_of = { λ k. k.digest };

    fn digest(&self) -> Digest {
        self.digest
    }
}

/// Puts a closed share into the table. Where there is one at its key, the one with the lower
/// digest text counts.
pub(crate) fn keep_lower(
    alloc: Global,
    closed: &mut BTreeMap<ShareKey, KeptShare>,
    key: &ShareKey,
    share: &KeptShare,
) -> Result<(), StoreError>
    ensures kept { OnOk result (at key.now closed.new.entries
        ≡ Some (lower_of (at key.now closed.old.entries) share.now)) }
    ensures others { OnOk result ((other : ShareKey) → same_key key.now other ≡ false
        → at other closed.new.entries ≡ at other closed.old.entries) }
    ensures err { OnErr result (closed.new.entries ≡ closed.old.entries) }
    ensures memory { IsOkUnless result StoreError.OutOfMemory }
{
    if let Some(other) = closed.get(key) {
        if !is_lower_text(alloc, &share.digest, &other.digest)? {
            return Ok(());
        }
    }
    closed.insert(*key, *share)?;
    Ok(())
}

// Whether the first digest's text is below the second's, byte by byte.
fn is_lower_text(alloc: Global, first: &Digest, second: &Digest) -> Result<bool, StoreError>
    ensures value { IfOk result (λ lower. lower ≡ has_lower_text first.now second.now) }
    ensures memory { IsOkUnless result StoreError.OutOfMemory }
{
    let first = base32_of(alloc, first)?;
    let second = base32_of(alloc, second)?;
    Ok(first.as_bytes().cmp(second.as_bytes()).is_lt())
}
