//! The share files of a folder, as it was listed once, so that a folder of many shares need not be
//! listed for each file of which shares are put.

ghost use Rattle.std.specs.Prelude.{◌≡◌, ℕ, All, IfOk, List, OnOk, filter};
ghost use Rattle.std.specs.List.{Contains};
ghost use Rattle.share_files.specs.declared.name.ShareFile.{ShareFile};
ghost use Rattle.share_files.specs.Known.{HasAllOf, StandUnder, TakesFrom, is_of, under};

use crate::name::ShareFile;
use std::alloc::{AllocError, Global};
use std::collections::BTreeMap;
use std::marker::Model;
use std::snapshot::Snapshot;
use wire::message::StorageIndex;

/// The share files that a folder had when it was listed once, by the storage indices of their
/// shares. Each takes some 150 bytes.
#[derive(Drop)]
pub struct KnownFiles {
    listed: Snapshot<Vec<ShareFile>>,
    by_index: BTreeMap<StorageIndex, Vec<ShareFile>>,
}

impl Model for KnownFiles {
    ghost use Rattle.std.specs.Prelude.{List};
    ghost use Rattle.share_files.specs.declared.name.ShareFile.{ShareFile};
    ghost use Rattle.share_files.specs.Known.{StandUnder};

    ghost Value = { List ShareFile };

    ghost view = { λ k. k.listed.value.items };

    ghost invariant = { λ k. StandUnder k.by_index k.listed.value.items };
}

impl KnownFiles {
    /// These, which were listed.
    pub(crate) fn of(alloc: Global, files: &Vec<ShareFile>) -> Result<KnownFiles, AllocError>
        ensures { IfOk result (λ known. known ≡ files.now.items) }
    {
        Ok(KnownFiles {
            listed: Snapshot::of(files),
            by_index: sorted_in(alloc, files.as_slice())?,
        })
    }

    /// Those of a storage index.
    pub(crate) fn of_index(
        &self,
        alloc: Global,
        index: &StorageIndex,
    ) -> Result<Vec<ShareFile>, AllocError>
        ensures index { IfOk result (λ files. All (λ f. f.key.0 ≡ index.now) files.items) }
        ensures all { IfOk result (λ files. HasAllOf index.now files.items self.now) }
    {
        match self.by_index.get(index) {
            Some(found) => of_these(alloc, found.as_slice(), index),
            None => Ok(Vec::new(alloc)),
        }
    }
}

// Those of these files that are of a storage index.
fn of_these(
    alloc: Global,
    files: &[ShareFile],
    index: &StorageIndex,
) -> Result<Vec<ShareFile>, AllocError>
    ensures { IfOk result (λ own. own.items ≡ filter (is_of index.now) files.now) }
{
    files
        .iter()
        .filter(|file| file.key.0 == *index)
        .copied()
        .collect(alloc)
}

// Files by the storage indices of their shares.
fn sorted_in(
    alloc: Global,
    files: &[ShareFile],
) -> Result<BTreeMap<StorageIndex, Vec<ShareFile>>, AllocError>
    ensures { IfOk result (λ map. StandUnder map files.now) }
{
    let mut map = BTreeMap::new(alloc);
    for file in files {
        add(alloc, &mut map, file)?;
    }
    Ok(map)
}

// One more.
fn add(
    alloc: Global,
    map: &mut BTreeMap<StorageIndex, Vec<ShareFile>>,
    file: &ShareFile,
) -> Result<(), AllocError>
    ensures added { OnOk result (Contains (under map.new file.now.key.0) file.now) }
    ensures kept { OnOk result ((index : List ℕ) (f : ShareFile) → Contains (under map.old index) f
        → Contains (under map.new index) f) }
{
    let index = file.key.0;
    let mut files = take_under(alloc, map, &index)?;
    files.push(*file)?;
    map.insert(index, files)?;
    Ok(())
}

// The files under a storage index, which are taken from there.
fn take_under(
    alloc: Global,
    map: &mut BTreeMap<StorageIndex, Vec<ShareFile>>,
    index: &StorageIndex,
) -> Result<Vec<ShareFile>, AllocError>
    ensures files { IfOk result (λ files. files.items ≡ under map.old index.now) }
    ensures taken { TakesFrom map.old map.new index.now }
{
    match map.remove(index) {
        Some(files) => Ok(files),
        None => Ok(Vec::with_capacity(alloc, 1)?),
    }
}
