//! How a store is opened over a disk.

ghost use Rattle.std.specs.Prelude.{◌≡◌, map, IfOk};
ghost use Rattle.std.specs.String.{string_bytes};
ghost use Rattle.folder_keeping.specs.Steps.{IsOpened};

use crate::store::KeptFolder;
use disks::disk::Disk;
use share_folders::disk::Durability;
use share_folders::kept::DiskStore;
use share_folders::listing::{Listing, list_folder};
use share_folders::names::OwnToken;
use share_store::error::StoreError;
use std::alloc::Global;

/// A store that was opened, and the names that it found in its folder.
#[derive(Drop)]
pub struct Opening<D: Disk + Drop> {
    pub store: KeptFolder<D>,
    pub names: Vec<String>,
}

/// Opens a store over a disk, as a folder's is opened.
pub fn open<D: Disk + Drop>(
    alloc: Global,
    mut disk: D,
    own: Option<OwnToken>,
    durability: Durability,
) -> Result<Opening<D>, StoreError>
    ensures found { IfOk result (λ opening. IsOpened (record {
      folder = D.folder;
      honest = D.honest;
      relied = D.relied;
      inode = D.inode;
    }) disk (map string_bytes opening.names.items) opening.store) }
    ensures own { IfOk result (λ opening. opening.store.own ≡ own) }
    ensures durability { IfOk result (λ opening. opening.store.durability ≡ durability) }
    ensures failures { IfOk result (λ opening. opening.store.failures ≡ 0) }
{
    let listing = list_folder(alloc, &mut disk, durability)?;
    let Listing { names, closed } = listing;
    let store = DiskStore::new(alloc, disk, own, closed, durability);
    Ok(Opening {
        store: KeptFolder { store, failures: 0 },
        names,
    })
}
