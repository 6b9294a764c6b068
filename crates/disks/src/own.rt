//! Files of a program's own, under names that pass.

ghost use Rattle.std.specs.Prelude.{◌≡◌, ◌≢◌, ◌++◌, ℕ, List, Bool, true, false, IfOk, OnOk};
ghost use Rattle.disks.specs.Names.{Name, lasts};
ghost use Rattle.disks.specs.Folder.{FileState, IsOwn};
ghost use Rattle.disks.specs.Changed.{nothing};
ghost use Rattle.disks.specs.Laws.{OwnStayBeside, OwnStayBut, StaysHeld};

use crate::disk::Disk;
use crate::error::DiskError;

/// Makes a file under a name that no other program gives. What stands there is an earlier one of
/// this program, and is removed first.
pub fn begin<D: Disk>(disk: &mut D, name: &str) -> Result<D::File, DiskError>
    requires passing { lasts name.now ≡ false }
    ensures place { D.place disk.new ≡ D.place disk.old }
    ensures so_far { D.honest disk.new → D.honest disk.old }
    ensures begun { D.honest disk.new → IfOk result
        (λ file. IsOwn (D.folder disk.new) name.now (D.inode file) nothing) }
    ensures apart { D.honest disk.new → IfOk result (λ file. (other : Name) (i : ℕ)
        (was : FileState) → other ≢ name.now → IsOwn (D.folder disk.old) other i was
        → i ≢ D.inode file) }
    ensures kept { D.honest disk.new → StaysHeld D.relied (D.folder disk.old) (D.folder disk.new) }
    ensures others { D.honest disk.new
        → OwnStayBeside name.now (D.folder disk.old) (D.folder disk.new) }
{
    match disk.create(name) {
        Ok(file) => return Ok(file),
        Err(DiskError::AlreadyExists) => {}
        Err(error) => return Err(error),
    }
    remove_regular(disk, name)?;
    disk.create(name)
}

// Removes the regular file under a name that passes.
fn remove_regular<D: Disk>(disk: &mut D, name: &str) -> Result<(), DiskError>
    requires passing { lasts name.now ≡ false }
    ensures place { D.place disk.new ≡ D.place disk.old }
    ensures so_far { D.honest disk.new → D.honest disk.old }
    ensures kept { D.honest disk.new → StaysHeld D.relied (D.folder disk.old) (D.folder disk.new) }
    ensures others { D.honest disk.new
        → OwnStayBeside name.now (D.folder disk.old) (D.folder disk.new) }
{
    if disk.find(name)?.is_none() {
        return Err(DiskError::Failed);
    }
    discard(disk, name)
}

/// Removes what stands under a name that passes.
pub fn discard<D: Disk>(disk: &mut D, name: &str) -> Result<(), DiskError>
    requires passing { lasts name.now ≡ false }
    ensures place { D.place disk.new ≡ D.place disk.old }
    ensures so_far { D.honest disk.new → D.honest disk.old }
    ensures kept { D.honest disk.new → StaysHeld D.relied (D.folder disk.old) (D.folder disk.new) }
    ensures others { D.honest disk.new
        → OwnStayBeside name.now (D.folder disk.old) (D.folder disk.new) }
{
    disk.remove(name)
}

/// Adds bytes to a file of this program's own. After an error it may hold anything.
pub fn write<D: Disk>(disk: &mut D, file: &mut D::File, bytes: &[u8]) -> Result<(), DiskError>
    ensures same { D.inode file.new ≡ D.inode file.old }
    ensures place { D.place disk.new ≡ D.place disk.old }
    ensures so_far { D.honest disk.new → D.honest disk.old }
    ensures written { D.honest disk.new → (name : Name) (before : FileState)
        → IsOwn (D.folder disk.old) name (D.inode file.old) before
        → OnOk result (IsOwn (D.folder disk.new) name (D.inode file.new) (record before {
          bytes = before.bytes ++ bytes.now;
          is_synced = false;
        })) }
    ensures kept { D.honest disk.new → (name : Name) (before : FileState)
        → IsOwn (D.folder disk.old) name (D.inode file.old) before
        → before.is_finished ≡ false
        → StaysHeld D.relied (D.folder disk.old) (D.folder disk.new) }
    ensures others { D.honest disk.new
        → OwnStayBut (D.inode file.old) (D.folder disk.old) (D.folder disk.new) }
{
    disk.append(file, bytes)
}

/// Puts the bytes of a file of this program's own on the disk. After an error it may hold anything:
/// the system may forget which bytes are not there, and then a later call goes well without them.
pub fn sync<D: Disk>(disk: &mut D, file: &D::File) -> Result<(), DiskError>
    ensures place { D.place disk.new ≡ D.place disk.old }
    ensures so_far { D.honest disk.new → D.honest disk.old }
    ensures synced { D.honest disk.new → (name : Name) (before : FileState)
        → IsOwn (D.folder disk.old) name (D.inode file.now) before
        → OnOk result (IsOwn (D.folder disk.new) name (D.inode file.now)
        (record before { is_synced = true })) }
    ensures kept { D.honest disk.new → (name : Name) (before : FileState)
        → IsOwn (D.folder disk.old) name (D.inode file.now) before
        → before.is_finished ≡ false
        → StaysHeld D.relied (D.folder disk.old) (D.folder disk.new) }
    ensures others { D.honest disk.new
        → OwnStayBut (D.inode file.now) (D.folder disk.old) (D.folder disk.new) }
{
    disk.sync_file(file)
}
