//! The names of a folder are put on the disk.

ghost use Rattle.std.specs.Prelude.{◌≡◌, ℕ, List, OnOk};
ghost use Rattle.disks.specs.Names.{Name, IsRelied};
ghost use Rattle.disks.specs.Folder.{IsDurable, StandsFor};
ghost use Rattle.disks.specs.Laws.{OwnStay, StaysHeld};
ghost use Rattle.disks.specs.Past.{Passed};
ghost use Rattle.disks.specs.Whole.{HasOwn, Keeps, Any};

use crate::disk::Disk;
use crate::error::DiskError;

/// Puts the names of a folder on the disk: what stands under one that lasts, with its bytes on the
/// disk, and is relied on, is durable once it went well.
pub fn sync_names<D: Disk>(disk: &mut D) -> Result<(), DiskError>
    ensures place { D.place disk.new ≡ D.place disk.old }
    ensures so_far { D.honest disk.new → D.honest disk.old }
    ensures durable { D.honest disk.new → (name : Name) (bytes : List ℕ)
        → IsRelied D.relied name bytes
        → StandsFor (D.folder disk.old) bytes ((D.folder disk.old).found name)
        → OnOk result (IsDurable (D.folder disk.new) name bytes) }
    ensures stays { D.honest disk.new → StaysHeld D.relied (D.folder disk.old) (D.folder disk.new) }
    ensures own { D.honest disk.new → OwnStay (D.folder disk.old) (D.folder disk.new) }
    ensures owns { D.honest disk.new → (name : Name)
        → (D.folder disk.new).own name ≡ (D.folder disk.old).own name }
    ensures owned { D.honest disk.new → (name : Name) (bytes : List ℕ)
        → HasOwn (D.folder disk.old) name bytes → HasOwn (D.folder disk.new) name bytes }
    ensures kept { D.honest disk.new → (own : Name)
        → Keeps D.relied own Any (D.folder disk.old) (D.folder disk.new) }
    ensures any_moment { D.honest disk.new → (own : Name)
        → Passed (Keeps D.relied own Any (D.folder disk.old)) (D.past disk.old) (D.past disk.new) }
{
    let folder = disk.open_folder()?;
    disk.sync_folder(&folder)
}
