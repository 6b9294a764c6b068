//! How a file of a program's own gets a name that lasts.

ghost use Rattle.std.specs.Prelude.{◌≡◌, ℕ, List, Bool, true, false, OnOk};
ghost use Rattle.disks.specs.Names.{lasts};
ghost use Rattle.disks.specs.Folder.{IsOwn, IsDurable, HasBytes};
ghost use Rattle.disks.specs.Past.{Passed};
ghost use Rattle.disks.specs.Laws.{FilesStay, KeepsBeside, KeepsBut, OwnStayBut};

use crate::disk::Disk;
use crate::error::DiskError;

/// Gives a file of this program's own, which has so many bytes, a name that lasts. Where the bytes
/// were on the disk, so are they and that name once it went well, where it is relied on with them.
/// Nothing asks for memory once the file is renamed, and the folder is opened before.
pub fn finish_synced<D: Disk>(
    disk: &mut D,
    file: &D::File,
    length: u64,
    own: &str,
    last: &str,
) -> Result<(), DiskError>
    requires passing { lasts own.now ≡ false }
    requires lasting { lasts last.now ≡ true }
    ensures place { D.place disk.new ≡ D.place disk.old }
    ensures so_far { D.honest disk.new → D.honest disk.old }
    ensures durable { D.honest disk.new → (bytes : List ℕ)
        → IsOwn (D.folder disk.old) own.now (D.inode file.now)
        (record { bytes = bytes; is_synced = true; is_finished = false })
        → D.relied last.now bytes ≡ true
        → OnOk result (IsDurable (D.folder disk.new) last.now bytes) }

    // However it ends, and at each moment until then, what is durable and relied on stays so: under
    // this name what has the same bytes.
    ensures kept { D.honest disk.new → (bytes : List ℕ)
        → IsOwn (D.folder disk.old) own.now (D.inode file.now)
        (record { bytes = bytes; is_synced = true; is_finished = false })
        → KeepsBut D.relied last.now bytes (D.folder disk.old) (D.folder disk.new) }
    ensures files { D.honest disk.new → (bytes : List ℕ)
        → IsOwn (D.folder disk.old) own.now (D.inode file.now)
        (record { bytes = bytes; is_synced = true; is_finished = false })
        → FilesStay (D.folder disk.old) (D.folder disk.new) }
    ensures others { D.honest disk.new → (bytes : List ℕ)
        → IsOwn (D.folder disk.old) own.now (D.inode file.now)
        (record { bytes = bytes; is_synced = true; is_finished = false })
        → OwnStayBut (D.inode file.now) (D.folder disk.old) (D.folder disk.new) }
    ensures any_moment { D.honest disk.new → (bytes : List ℕ)
        → IsOwn (D.folder disk.old) own.now (D.inode file.now)
        (record { bytes = bytes; is_synced = true; is_finished = false })
        → Passed (KeepsBut D.relied last.now bytes (D.folder disk.old)) (D.past disk.old)
        (D.past disk.new) }
{
    let folder = disk.open_folder()?;
    disk.rename(file, length, own, last)?;
    disk.sync_folder(&folder)
}

/// The same where nothing is put on the disk: once it went well the name stands for the bytes,
/// until a crash, where it is relied on with them.
pub fn finish_unsynced<D: Disk>(
    disk: &mut D,
    file: &D::File,
    length: u64,
    own: &str,
    last: &str,
) -> Result<(), DiskError>
    requires passing { lasts own.now ≡ false }
    requires lasting { lasts last.now ≡ true }
    ensures place { D.place disk.new ≡ D.place disk.old }
    ensures so_far { D.honest disk.new → D.honest disk.old }
    ensures held { D.honest disk.new → (bytes : List ℕ) (synced : Bool)
        → IsOwn (D.folder disk.old) own.now (D.inode file.now)
        (record { bytes = bytes; is_synced = synced; is_finished = false })
        → D.relied last.now bytes ≡ true
        → OnOk result (HasBytes (D.folder disk.new) bytes ((D.folder disk.new).found last.now)) }
    ensures kept { D.honest disk.new → (bytes : List ℕ) (synced : Bool)
        → IsOwn (D.folder disk.old) own.now (D.inode file.now)
        (record { bytes = bytes; is_synced = synced; is_finished = false })
        → KeepsBeside D.relied last.now (D.folder disk.old) (D.folder disk.new) }
    ensures files { D.honest disk.new → (bytes : List ℕ) (synced : Bool)
        → IsOwn (D.folder disk.old) own.now (D.inode file.now)
        (record { bytes = bytes; is_synced = synced; is_finished = false })
        → FilesStay (D.folder disk.old) (D.folder disk.new) }
    ensures others { D.honest disk.new → (bytes : List ℕ) (synced : Bool)
        → IsOwn (D.folder disk.old) own.now (D.inode file.now)
        (record { bytes = bytes; is_synced = synced; is_finished = false })
        → OwnStayBut (D.inode file.now) (D.folder disk.old) (D.folder disk.new) }
{
    disk.rename(file, length, own, last)
}
