//! How a finished file gets another name.

ghost use Rattle.std.specs.Prelude.{◌≡◌, ◌≢◌, ℕ, List, true, OnOk};
ghost use Rattle.disks.specs.Names.{Name, lasts};
ghost use Rattle.disks.specs.Folder.{IsDurable};
ghost use Rattle.disks.specs.Past.{Passed};
ghost use Rattle.disks.specs.Whole.{SparesMoved, Keeps, Any};

use crate::disk::Disk;
use crate::error::DiskError;
use crate::opening::sync_names;

/// Why a file did not get another name for good.
#[derive(Clone, Copy, Debug)]
pub struct Unmoved {
    /// Why the call failed.
    pub error: DiskError,
    /// Whether it has the other name, which may not be on the disk.
    pub is_moved: bool,
}

/// Gives a finished file another name, in the place of what stands there. What is said of it holds
/// where its names are relied on with its bytes.
pub fn move_finished<D: Disk>(disk: &mut D, from: &str, to: &str) -> Result<(), Unmoved>
    requires apart { from.now ≢ to.now }
    requires lasting { lasts from.now ≡ true }
    requires lasting_too { lasts to.now ≡ true }
    ensures place { D.place disk.new ≡ D.place disk.old }
    ensures so_far { D.honest disk.new → D.honest disk.old }
    ensures durable { D.honest disk.new → (bytes : List ℕ)
        → IsDurable (D.folder disk.old) from.now bytes
        → D.relied from.now bytes ≡ true → D.relied to.now bytes ≡ true
        → OnOk result (IsDurable (D.folder disk.new) to.now bytes) }

    // However it ends, and at each moment until then.
    ensures spared { D.honest disk.new → (bytes : List ℕ)
        → IsDurable (D.folder disk.old) from.now bytes → D.relied from.now bytes ≡ true
        → SparesMoved D.relied from.now to.now bytes (D.folder disk.old) (D.folder disk.new) }
    ensures any_moment { D.honest disk.new → (bytes : List ℕ)
        → IsDurable (D.folder disk.old) from.now bytes → D.relied from.now bytes ≡ true
        → Passed (SparesMoved D.relied from.now to.now bytes (D.folder disk.old)) (D.past disk.old)
        (D.past disk.new) }
{
    let (file, length) = match look_at(disk, from) {
        Ok(found) => found,
        Err(error) => return Err(stays_there(error)),
    };
    match disk.rename(&file, length, from, to) {
        Ok(()) => {}
        Err(error) => return Err(stays_there(error)),
    }
    match sync_names(disk) {
        Ok(()) => Ok(()),
        Err(error) => Err(Unmoved {
            error,
            is_moved: true,
        }),
    }
}

// Why a file has its name still.
fn stays_there(error: DiskError) -> Unmoved {
    Unmoved {
        error,
        is_moved: false,
    }
}

// The regular file under a name, and how many bytes it has.
fn look_at<D: Disk>(disk: &mut D, name: &str) -> Result<(D::File, u64), DiskError>
    ensures place { D.place disk.new ≡ D.place disk.old }
    ensures so_far { D.honest disk.new → D.honest disk.old }
    ensures kept { D.honest disk.new → (own : Name)
        → Keeps D.relied own Any (D.folder disk.old) (D.folder disk.new) }
    ensures any_moment { D.honest disk.new → (own : Name)
        → Passed (Keeps D.relied own Any (D.folder disk.old)) (D.past disk.old) (D.past disk.new) }
{
    let file = disk.open(name)?;
    match disk.find(name)? {
        Some(length) => Ok((file, length)),
        None => Err(DiskError::NotFound),
    }
}
