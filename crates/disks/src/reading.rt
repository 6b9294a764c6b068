//! Finished files are read.

ghost use Rattle.std.specs.Prelude.{◌≡◌, ℕ, List, true, length, take, drop, Some};
ghost use Rattle.std.specs.Prelude.{IfOk, OnOk};
ghost use Rattle.disks.specs.Folder.{HasBytes};
ghost use Rattle.disks.specs.Names.{IsRelied};
ghost use Rattle.disks.specs.Laws.{OwnStay, StaysHeld};

use crate::disk::Disk;
use crate::error::DiskError;

/// Opens the file under a name. Where that stands for bytes, and is relied on with them, the file
/// has them.
pub fn open_finished<D: Disk>(disk: &mut D, name: &str) -> Result<D::File, DiskError>
    ensures place { D.place disk.new ≡ D.place disk.old }
    ensures so_far { D.honest disk.new → D.honest disk.old }
    ensures bytes { D.honest disk.new → (bytes : List ℕ)
        → IsRelied D.relied name.now bytes
        → HasBytes (D.folder disk.old) bytes ((D.folder disk.old).found name.now)
        → IfOk result (λ file. HasBytes (D.folder disk.new) bytes (Some (D.inode file))) }

    // however it ends, what other names and files have, and is relied on, they have still
    ensures stays { D.honest disk.new → StaysHeld D.relied (D.folder disk.old) (D.folder disk.new) }
    ensures own { D.honest disk.new → OwnStay (D.folder disk.old) (D.folder disk.new) }
{
    disk.open(name)
}

/// How many bytes the regular file under a name has. Where that stands for bytes, and is relied on
/// with them, it is the number of these.
pub fn find_finished<D: Disk>(disk: &mut D, name: &str) -> Result<Option<u64>, DiskError>
    ensures place { D.place disk.new ≡ D.place disk.old }
    ensures so_far { D.honest disk.new → D.honest disk.old }
    ensures long { D.honest disk.new → (bytes : List ℕ)
        → IsRelied D.relied name.now bytes
        → HasBytes (D.folder disk.old) bytes ((D.folder disk.old).found name.now)
        → IfOk result (λ found. found ≡ Some (length bytes)) }
    ensures stays { D.honest disk.new → StaysHeld D.relied (D.folder disk.old) (D.folder disk.new) }
    ensures own { D.honest disk.new → OwnStay (D.folder disk.old) (D.folder disk.new) }
{
    disk.find(name)
}

/// Reads bytes of a finished file from an offset on: those that it has there.
pub fn read_finished<D: Disk>(
    disk: &mut D,
    file: &mut D::File,
    offset: u64,
    out: &mut [u8],
) -> Result<(), DiskError>
    ensures same { D.inode file.new ≡ D.inode file.old }
    ensures place { D.place disk.new ≡ D.place disk.old }
    ensures so_far { D.honest disk.new → D.honest disk.old }
    ensures bytes { D.honest disk.new → (bytes : List ℕ)
        → HasBytes (D.folder disk.old) bytes (Some (D.inode file.old))
        → OnOk result (out.new ≡ take (length out.new) (drop offset bytes)) }
    ensures stays { D.honest disk.new → StaysHeld D.relied (D.folder disk.old) (D.folder disk.new) }
    ensures own { D.honest disk.new → OwnStay (D.folder disk.old) (D.folder disk.new) }
{
    disk.read_at(file, offset, out)
}
