//! Tables of closed shares in the order of their keys.

ghost use Rattle.std.specs.Prelude.{◌≡◌, ℕ, List, IfOk, IsOkUnless};
ghost use Rattle.std.specs.declared.ops.Bound.TheVariants.{Included};
ghost use Rattle.share_store.specs.declared.error.StoreError.{StoreError};
ghost use Rattle.share_store.specs.Shelf.{held_by};

use crate::error::StoreError;
use crate::shelf::{ClosedShare, ShareKey};
use std::alloc::Global;
use std::collections::BTreeMap;
use std::ops::Bound;
use wire::message::{Digest, HeldList, HeldShare, StorageIndex};

/// What has the digest of a closed share.
pub trait HasDigest {
    ghost digest_of: { Self → List ℕ };

    /// The digest that the share was closed with.
    fn digest(&self) -> Digest
        ensures { result ≡ digest_of self.now };
}

impl HasDigest for ClosedShare {
    ghost digest_of = { λ c. c.digest };

    fn digest(&self) -> Digest {
        self.digest
    }
}

// The keys under a storage index, from the lowest to the highest.
fn under(index: &StorageIndex) -> (Bound<ShareKey>, Bound<ShareKey>)
    ensures { result ≡ (Included (index.now, 0), Included (index.now, 255)) }
{
    (
        Bound::Included((*index, 0)),
        Bound::Included((*index, u8::MAX)),
    )
}

/// The closed shares under a storage index, lowest number first.
pub fn held_under<T: HasDigest>(
    alloc: Global,
    closed: &BTreeMap<ShareKey, T>,
    index: &StorageIndex,
) -> Result<HeldList, StoreError>
    ensures value { IfOk result
        (λ found. found ≡ held_by T.digest_of index.now closed.now.entries) }
    ensures memory { IsOkUnless result StoreError.OutOfMemory }
{
    let mut found = Vec::new(alloc);
    for (key, share) in closed.range(under(index)) {
        found.push(HeldShare {
            share: key.1,
            digest: share.digest(),
        })?;
    }
    Ok(HeldList::from_vec(found).unwrap())
}
