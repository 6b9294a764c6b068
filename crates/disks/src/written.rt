//! Files that are written piece by piece, and get their names once they are whole.

ghost use Rattle.std.specs.Prelude.{◌≡◌, ◌≢◌, ◌++◌, [], ℕ, List, true, false};
ghost use Rattle.std.specs.Prelude.{IfOk, IfErr, OnOk, OnErr, length};
ghost use Rattle.disks.specs.Names.{Name, IsRelied};
ghost use Rattle.disks.specs.Folder.{Folder, FileState, IsOwn, IsDurable, HasBytes};
ghost use Rattle.disks.specs.Past.{Passed};
ghost use Rattle.disks.specs.Whole.{SparesAll, Spares, OwnsNoMore};
ghost use Rattle.disks.specs.Written.{IsBegun, IsFilled, IsWriting};

use crate::disk::Disk;
use crate::error::DiskError;
use crate::moving::Unmoved;
use crate::opening::sync_names;
use crate::whole::take_away;

/// Makes a file under a name of its own, at which nothing stands: else the error is
/// `AlreadyExists`.
pub fn begin<D: Disk>(disk: &mut D, own: &str) -> Result<D::File, DiskError>
    ensures place { D.place disk.new ≡ D.place disk.old }
    ensures so_far { D.honest disk.new → D.honest disk.old }
    ensures begun { D.honest disk.new → IfOk result
        (λ file. IsWriting D.relied (D.folder disk.old) own.now (D.inode file) []
        (D.folder disk.new)) }

    // However it ends, and at each moment until then, nothing else is touched.
    ensures spared { D.honest disk.new
        → SparesAll D.relied (D.folder disk.old) (D.folder disk.new) }
    ensures any_moment { D.honest disk.new
        → Passed (SparesAll D.relied (D.folder disk.old)) (D.past disk.old) (D.past disk.new) }
    ensures refused { D.honest disk.new
        → OnErr result (OwnsNoMore (D.folder disk.old) (D.folder disk.new)) }
{
    disk.create(own)
}

/// Adds bytes to the file. After an error it may hold anything, and gets no name any more.
pub fn write<D: Disk>(disk: &mut D, file: &mut D::File, bytes: &[u8]) -> Result<(), DiskError>
    ensures same { D.inode file.new ≡ D.inode file.old }
    ensures place { D.place disk.new ≡ D.place disk.old }
    ensures so_far { D.honest disk.new → D.honest disk.old }
    ensures written { D.honest disk.new → (begun : Folder) (own : Name) (before : List ℕ)
        → IsWriting D.relied begun own (D.inode file.old) before (D.folder disk.old)
        → OnOk result (IsWriting D.relied begun own (D.inode file.new) (before ++ bytes.now)
        (D.folder disk.new)) }

    // However it ends, and at each moment until then, nothing else is touched.
    ensures begun { D.honest disk.new → (begun : Folder) (own : Name) (before : List ℕ)
        → IsWriting D.relied begun own (D.inode file.old) before (D.folder disk.old)
        → IsBegun D.relied begun own (D.folder disk.new) }
    ensures spared { D.honest disk.new → (begun : Folder) (own : Name) (before : List ℕ)
        → IsWriting D.relied begun own (D.inode file.old) before (D.folder disk.old)
        → SparesAll D.relied begun (D.folder disk.new) }
    ensures any_moment { D.honest disk.new → (begun : Folder) (own : Name) (before : List ℕ)
        → IsWriting D.relied begun own (D.inode file.old) before (D.folder disk.old)
        → Passed (SparesAll D.relied begun) (D.past disk.old) (D.past disk.new) }
{
    disk.append(file, bytes)
}

/// Puts the bytes of the file, which has so many, on the disk, and gives it its name, in the place
/// of what stands there. Where it got the name, but this could not be put on the disk, `is_moved`
/// says so; else it may have its own name still.
pub fn finish<D: Disk>(
    disk: &mut D,
    file: &D::File,
    length: u64,
    own: &str,
    last: &str,
) -> Result<(), Unmoved>
    requires apart { own.now ≢ last.now }
    ensures place { D.place disk.new ≡ D.place disk.old }
    ensures so_far { D.honest disk.new → D.honest disk.old }
    ensures durable { D.honest disk.new → (begun : Folder) (bytes : List ℕ)
        → IsWriting D.relied begun own.now (D.inode file.now) bytes (D.folder disk.old)
        → IsRelied D.relied last.now bytes
        → OnOk result (IsDurable (D.folder disk.new) last.now bytes) }
    ensures named { D.honest disk.new → (begun : Folder) (bytes : List ℕ)
        → IsWriting D.relied begun own.now (D.inode file.now) bytes (D.folder disk.old)
        → IsRelied D.relied last.now bytes → IfErr result (λ unmoved. unmoved.is_moved ≡ true
        → HasBytes (D.folder disk.new) bytes ((D.folder disk.new).found last.now)) }

    // However it ends, and at each moment until then: what stood there, or these bytes.
    ensures spared { D.honest disk.new → (begun : Folder) (bytes : List ℕ)
        → IsWriting D.relied begun own.now (D.inode file.now) bytes (D.folder disk.old)
        → Spares D.relied last.now bytes begun (D.folder disk.new) }
    ensures any_moment { D.honest disk.new → (begun : Folder) (bytes : List ℕ)
        → IsWriting D.relied begun own.now (D.inode file.now) bytes (D.folder disk.old)
        → Passed (Spares D.relied last.now bytes begun) (D.past disk.old) (D.past disk.new) }
    ensures gone { D.honest disk.new → (begun : Folder) (bytes : List ℕ)
        → IsWriting D.relied begun own.now (D.inode file.now) bytes (D.folder disk.old)
        → OnOk result (OwnsNoMore begun (D.folder disk.new)) }
{
    match disk.sync_file(file) {
        Ok(()) => name_synced(disk, file, length, own, last),
        Err(error) => Err(Unmoved {
            error,
            is_moved: false,
        }),
    }
}

// Gives a file its name, whose bytes are on the disk.
fn name_synced<D: Disk>(
    disk: &mut D,
    file: &D::File,
    length: u64,
    own: &str,
    last: &str,
) -> Result<(), Unmoved>
    requires apart { own.now ≢ last.now }
    ensures place { D.place disk.new ≡ D.place disk.old }
    ensures so_far { D.honest disk.new → D.honest disk.old }
    ensures durable { D.honest disk.new → (begun : Folder) (bytes : List ℕ)
        → IsFilled D.relied begun own.now (D.inode file.now) bytes true (D.folder disk.old)
        → IsRelied D.relied last.now bytes
        → OnOk result (IsDurable (D.folder disk.new) last.now bytes) }
    ensures named { D.honest disk.new → (begun : Folder) (bytes : List ℕ)
        → IsFilled D.relied begun own.now (D.inode file.now) bytes true (D.folder disk.old)
        → IsRelied D.relied last.now bytes → IfErr result (λ unmoved. unmoved.is_moved ≡ true
        → HasBytes (D.folder disk.new) bytes ((D.folder disk.new).found last.now)) }
    ensures spared { D.honest disk.new → (begun : Folder) (bytes : List ℕ)
        → IsFilled D.relied begun own.now (D.inode file.now) bytes true (D.folder disk.old)
        → Spares D.relied last.now bytes begun (D.folder disk.new) }
    ensures any_moment { D.honest disk.new → (begun : Folder) (bytes : List ℕ)
        → IsFilled D.relied begun own.now (D.inode file.now) bytes true (D.folder disk.old)
        → Passed (Spares D.relied last.now bytes begun) (D.past disk.old) (D.past disk.new) }
    ensures gone { D.honest disk.new → (begun : Folder) (bytes : List ℕ)
        → IsFilled D.relied begun own.now (D.inode file.now) bytes true (D.folder disk.old)
        → OnOk result (OwnsNoMore begun (D.folder disk.new)) }
{
    match disk.rename(file, length, own, last) {
        Ok(()) => {}
        Err(error) => {
            return Err(Unmoved {
                error,
                is_moved: false,
            });
        }
    }
    match sync_names(disk) {
        Ok(()) => Ok(()),
        Err(error) => Err(Unmoved {
            error,
            is_moved: true,
        }),
    }
}

/// Removes a file that was begun, if it has no byte: one that has some keeps its own name.
pub fn give_up<D: Disk>(disk: &mut D, own: &str) -> Result<(), DiskError>
    ensures place { D.place disk.new ≡ D.place disk.old }
    ensures so_far { D.honest disk.new → D.honest disk.old }
    ensures spared { D.honest disk.new → (begun : Folder)
        → IsBegun D.relied begun own.now (D.folder disk.old)
        → SparesAll D.relied begun (D.folder disk.new) }
    ensures any_moment { D.honest disk.new → (begun : Folder)
        → IsBegun D.relied begun own.now (D.folder disk.old)
        → Passed (SparesAll D.relied begun) (D.past disk.old) (D.past disk.new) }
    ensures left { D.honest disk.new → (i : ℕ) (file : FileState)
        → IsOwn (D.folder disk.old) own.now i file → length file.bytes ≢ 0
        → IsOwn (D.folder disk.new) own.now i file }
    ensures gone { D.honest disk.new → (i : ℕ) (file : FileState)
        → IsOwn (D.folder disk.old) own.now i file → file.bytes ≡ []
        → OnOk result ((D.folder disk.new).own own.now ≡ false) }
{
    match disk.find(own) {
        Ok(Some(0)) => take_away(disk, own),
        Ok(_) => Ok(()),
        Err(error) => Err(error),
    }
}
