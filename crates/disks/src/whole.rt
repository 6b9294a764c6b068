//! Files that appear whole under their names, with their bytes on the disk.

ghost use Rattle.std.specs.Prelude.{◌≡◌, ◌≢◌, ℕ, List, true, false, IfOk, IfErr, OnOk, Ok};
ghost use Rattle.disks.specs.Names.{Name, IsRelied};
ghost use Rattle.disks.specs.Folder.{IsOwn, IsDurable, StandsFor};
ghost use Rattle.disks.specs.Past.{Passed};
ghost use Rattle.disks.specs.Changed.{nothing};
ghost use Rattle.disks.specs.Whole.{SparesAll, Spares, OwnsNoMore, OwnsNoMoreThan, IsFree};
ghost use Rattle.disks.specs.Whole.{Keeps, Beside, Any, HasOwn};

use crate::disk::Disk;
use crate::error::DiskError;
use crate::opening::sync_names;

/// Why a file was not made.
#[derive(Clone, Copy, Debug)]
pub struct Unmade {
    /// Why the call failed.
    pub error: DiskError,
    /// Whether it may stand in part under its own name, which could not be removed.
    pub is_left: bool,
}

/// Makes a file of these bytes, or one in the place of what stands under this name. It is made
/// under a name of its own at which nothing stands, and renamed once its bytes are on the disk.
pub fn replace<D: Disk>(disk: &mut D, own: &str, last: &str, bytes: &[u8]) -> Result<(), Unmade>
    requires apart { own.now ≢ last.now }
    ensures place { D.place disk.new ≡ D.place disk.old }
    ensures so_far { D.honest disk.new → D.honest disk.old }
    ensures durable { D.honest disk.new → IsRelied D.relied last.now bytes.now
        → OnOk result (IsDurable (D.folder disk.new) last.now bytes.now) }

    // However it ends, and at each moment until then.
    ensures spared { D.honest disk.new
        → Spares D.relied last.now bytes.now (D.folder disk.old) (D.folder disk.new) }
    ensures any_moment { D.honest disk.new
        → Passed (Spares D.relied last.now bytes.now (D.folder disk.old)) (D.past disk.old)
        (D.past disk.new) }

    // No file is left under its own name, but where it could not be removed.
    ensures gone { D.honest disk.new
        → OnOk result (OwnsNoMore (D.folder disk.old) (D.folder disk.new)) }
    ensures left { D.honest disk.new → IfErr result (λ unmade. unmade.is_left ≡ false
        → OwnsNoMore (D.folder disk.old) (D.folder disk.new)) }
{
    let file = match make_synced(disk, own, bytes) {
        Ok(file) => file,
        Err(unmade) => return Err(unmade),
    };
    match disk.rename(&file, bytes.len() as u64, own, last) {
        Ok(()) => {}
        Err(error) => return Err(dropped(disk, own, error)),
    }
    match sync_names(disk) {
        Ok(()) => Ok(()),
        Err(error) => Err(Unmade {
            error,
            is_left: false,
        }),
    }
}

/// How a file got its name.
#[derive(Clone, Copy, Debug, PartialEq, Eq)]
pub enum Published {
    /// It was linked: whole, with its bytes on the disk.
    Linked,
    /// It was written under its name, where the disk has no links. A crash before this may leave it
    /// there in part.
    Written,
    /// It got none: something has that name, and stays as it is.
    Taken,
}

/// Makes a file of these bytes under a name at which nothing stands. It is made under a name of its
/// own, and linked once its bytes are on the disk.
pub fn publish<D: Disk>(
    disk: &mut D,
    own: &str,
    last: &str,
    bytes: &[u8],
) -> Result<Published, Unmade>
    requires apart { own.now ≢ last.now }
    ensures place { D.place disk.new ≡ D.place disk.old }
    ensures so_far { D.honest disk.new → D.honest disk.old }
    ensures durable { D.honest disk.new → IsRelied D.relied last.now bytes.now
        → IfOk result (λ published. published ≡ Published.Linked
        → IsDurable (D.folder disk.new) last.now bytes.now) }
    ensures written { D.honest disk.new → IfOk result (λ published. published ≡ Published.Written
        → HasOwn (D.folder disk.new) last.now bytes.now) }

    // However it ends, and at each moment until then: it never takes the place of another.
    ensures spared { D.honest disk.new
        → SparesAll D.relied (D.folder disk.old) (D.folder disk.new) }
    ensures any_moment { D.honest disk.new
        → Passed (SparesAll D.relied (D.folder disk.old)) (D.past disk.old) (D.past disk.new) }

    // No file is left under its own name, but where it could not be removed.
    ensures gone { D.honest disk.new → IfOk result
        (λ published. OwnsNoMoreThan last.now (D.folder disk.old) (D.folder disk.new)) }
    ensures left { D.honest disk.new → IfErr result (λ unmade. unmade.is_left ≡ false
        → OwnsNoMoreThan last.now (D.folder disk.old) (D.folder disk.new)) }
{
    match make_synced(disk, own, bytes) {
        Ok(_) => {}
        Err(unmade) => return Err(unmade),
    }
    let named = link_or_write(disk, own, last, bytes);
    let removed = take_away(disk, own);
    match named_alone(named, removed) {
        Ok(published) => end_published(disk, published),
        Err(unmade) => Err(unmade),
    }
}

// Puts the names on the disk, of which a file got one.
fn end_published<D: Disk>(disk: &mut D, published: Published) -> Result<Published, Unmade>
    ensures place { D.place disk.new ≡ D.place disk.old }
    ensures so_far { D.honest disk.new → D.honest disk.old }
    ensures same { IfOk result (λ told. told ≡ published) }
    ensures durable { D.honest disk.new → (name : Name) (bytes : List ℕ)
        → IsRelied D.relied name bytes
        → StandsFor (D.folder disk.old) bytes ((D.folder disk.old).found name)
        → OnOk result (IsDurable (D.folder disk.new) name bytes) }
    ensures owns { D.honest disk.new → (name : Name)
        → (D.folder disk.new).own name ≡ (D.folder disk.old).own name }
    ensures owned { D.honest disk.new → (name : Name) (bytes : List ℕ)
        → HasOwn (D.folder disk.old) name bytes → HasOwn (D.folder disk.new) name bytes }
    ensures kept { D.honest disk.new → (own : Name)
        → Keeps D.relied own Any (D.folder disk.old) (D.folder disk.new) }
    ensures any_moment { D.honest disk.new → (own : Name)
        → Passed (Keeps D.relied own Any (D.folder disk.old)) (D.past disk.old) (D.past disk.new) }
{
    let ended = sync_names(disk);
    match ended {
        Ok(()) => Ok(published),
        Err(error) => Err(Unmade {
            error,
            is_left: false,
        }),
    }
}

// How a file got its name, whose own name was removed or not.
fn named_alone(
    named: Result<Published, Unmade>,
    removed: Result<(), DiskError>,
) -> Result<Published, Unmade>
    ensures same { IfOk result (λ published. named ≡ Ok published) }
    ensures gone { IfOk result (λ published. removed ≡ Ok tt) }
    ensures left { IfErr result (λ unmade. unmade.is_left ≡ false
        → (removed ≡ Ok tt) × IfErr named (λ first. first.is_left ≡ false)) }
{
    match (named, removed) {
        (Ok(published), Ok(())) => Ok(published),
        (Ok(_), Err(error)) => Err(Unmade {
            error,
            is_left: true,
        }),
        (Err(unmade), Ok(())) => Err(unmade),
        (Err(unmade), Err(_)) => Err(Unmade {
            error: unmade.error,
            is_left: true,
        }),
    }
}

// Gives a file that was written its name, or writes it again where there are no links.
fn link_or_write<D: Disk>(
    disk: &mut D,
    own: &str,
    last: &str,
    bytes: &[u8],
) -> Result<Published, Unmade>
    ensures place { D.place disk.new ≡ D.place disk.old }
    ensures so_far { D.honest disk.new → D.honest disk.old }
    ensures linked { D.honest disk.new → (i : ℕ) → IsOwn (D.folder disk.old) own.now i
        (record { bytes = bytes.now; is_synced = true; is_finished = false })
        → IfOk result (λ published. published ≡ Published.Linked
        → IsRelied D.relied last.now bytes.now
        → StandsFor (D.folder disk.new) bytes.now ((D.folder disk.new).found last.now)) }
    ensures written { D.honest disk.new → IfOk result (λ published. published ≡ Published.Written
        → HasOwn (D.folder disk.new) last.now bytes.now) }
    ensures spared { D.honest disk.new → (i : ℕ) → IsOwn (D.folder disk.old) own.now i
        (record { bytes = bytes.now; is_synced = true; is_finished = false })
        → SparesAll D.relied (D.folder disk.old) (D.folder disk.new) }
    ensures any_moment { D.honest disk.new → (i : ℕ) → IsOwn (D.folder disk.old) own.now i
        (record { bytes = bytes.now; is_synced = true; is_finished = false })
        → Passed (SparesAll D.relied (D.folder disk.old)) (D.past disk.old) (D.past disk.new) }
    ensures owns { D.honest disk.new → (i : ℕ) → IsOwn (D.folder disk.old) own.now i
        (record { bytes = bytes.now; is_synced = true; is_finished = false })
        → (name : Name) → name ≢ own.now → name ≢ last.now
        → (D.folder disk.new).own name ≡ (D.folder disk.old).own name }
{
    match disk.link(own, last) {
        Ok(()) => Ok(Published::Linked),
        Err(DiskError::AlreadyExists) => Ok(Published::Taken),
        Err(error) if error.is_without_links() => write_alone(disk, last, bytes),
        Err(error) => Err(Unmade {
            error,
            is_left: false,
        }),
    }
}

// Makes a file under its name, at which something may stand.
fn write_alone<D: Disk>(disk: &mut D, last: &str, bytes: &[u8]) -> Result<Published, Unmade>
    ensures place { D.place disk.new ≡ D.place disk.old }
    ensures so_far { D.honest disk.new → D.honest disk.old }
    ensures linked { IfOk result (λ published. published ≢ Published.Linked) }
    ensures written { D.honest disk.new → IfOk result (λ published. published ≡ Published.Written
        → HasOwn (D.folder disk.new) last.now bytes.now) }
    ensures spared { D.honest disk.new
        → SparesAll D.relied (D.folder disk.old) (D.folder disk.new) }
    ensures any_moment { D.honest disk.new
        → Passed (SparesAll D.relied (D.folder disk.old)) (D.past disk.old) (D.past disk.new) }
    ensures owns { D.honest disk.new → (name : Name) → name ≢ last.now
        → (D.folder disk.new).own name ≡ (D.folder disk.old).own name }
{
    match make_synced(disk, last, bytes) {
        Ok(_) => Ok(Published::Written),
        Err(
            Unmade {
                error: DiskError::AlreadyExists,
                is_left: false,
            },
        ) => Ok(Published::Taken),
        Err(unmade) => Err(unmade),
    }
}

// Makes a file of these bytes under a name at which nothing stands, and puts them on the disk.
fn make_synced<D: Disk>(disk: &mut D, own: &str, bytes: &[u8]) -> Result<D::File, Unmade>
    ensures place { D.place disk.new ≡ D.place disk.old }
    ensures so_far { D.honest disk.new → D.honest disk.old }
    ensures made { D.honest disk.new → IfOk result
        (λ file. IsOwn (D.folder disk.new) own.now (D.inode file)
        (record { bytes = bytes.now; is_synced = true; is_finished = false })) }
    ensures free { D.honest disk.new → OnOk result (IsFree D.relied (D.folder disk.old) own.now) }
    ensures kept { D.honest disk.new
        → Keeps D.relied own.now (Beside own.now) (D.folder disk.old) (D.folder disk.new) }
    ensures spared { D.honest disk.new
        → SparesAll D.relied (D.folder disk.old) (D.folder disk.new) }
    ensures any_moment { D.honest disk.new
        → Passed (SparesAll D.relied (D.folder disk.old)) (D.past disk.old) (D.past disk.new) }
    ensures left { D.honest disk.new → IfErr result (λ unmade. unmade.is_left ≡ false
        → OwnsNoMore (D.folder disk.old) (D.folder disk.new)) }
{
    let mut file = match disk.create(own) {
        Ok(file) => file,
        Err(error) => {
            return Err(Unmade {
                error,
                is_left: false,
            });
        }
    };
    match write_synced(disk, &mut file, bytes) {
        Ok(()) => Ok(file),
        Err(error) => Err(dropped(disk, own, error)),
    }
}

// Writes bytes to a new file, and puts them on the disk.
fn write_synced<D: Disk>(disk: &mut D, file: &mut D::File, bytes: &[u8]) -> Result<(), DiskError>
    ensures same { D.inode file.new ≡ D.inode file.old }
    ensures place { D.place disk.new ≡ D.place disk.old }
    ensures so_far { D.honest disk.new → D.honest disk.old }
    ensures written { D.honest disk.new → (name : Name)
        → IsOwn (D.folder disk.old) name (D.inode file.old) nothing
        → OnOk result (IsOwn (D.folder disk.new) name (D.inode file.new)
        (record { bytes = bytes.now; is_synced = true; is_finished = false })) }
    ensures kept { D.honest disk.new → (name : Name)
        → IsOwn (D.folder disk.old) name (D.inode file.old) nothing
        → Keeps D.relied name (Beside name) (D.folder disk.old) (D.folder disk.new) }
    ensures any_moment { D.honest disk.new → (name : Name)
        → IsOwn (D.folder disk.old) name (D.inode file.old) nothing
        → Passed (Keeps D.relied name (Beside name) (D.folder disk.old)) (D.past disk.old)
        (D.past disk.new) }
{
    disk.append(file, bytes)?;
    disk.sync_file(file)
}

// Removes a file of this program's own that did not get its name.
fn dropped<D: Disk>(disk: &mut D, own: &str, error: DiskError) -> Unmade
    ensures place { D.place disk.new ≡ D.place disk.old }
    ensures so_far { D.honest disk.new → D.honest disk.old }
    ensures error { result.error ≡ error }
    ensures kept { D.honest disk.new
        → Keeps D.relied own.now (Beside own.now) (D.folder disk.old) (D.folder disk.new) }
    ensures any_moment { D.honest disk.new
        → Passed (Keeps D.relied own.now (Beside own.now) (D.folder disk.old)) (D.past disk.old)
        (D.past disk.new) }
    ensures gone { D.honest disk.new → result.is_left ≡ false
        → (D.folder disk.new).own own.now ≡ false }
{
    let outcome = take_away(disk, own);
    Unmade {
        error,
        is_left: outcome.is_err(),
    }
}

/// Removes the own name of a file.
pub(crate) fn take_away<D: Disk>(disk: &mut D, own: &str) -> Result<(), DiskError>
    ensures place { D.place disk.new ≡ D.place disk.old }
    ensures so_far { D.honest disk.new → D.honest disk.old }
    ensures stands { D.honest disk.new → (name : Name) (bytes : List ℕ)
        → IsRelied D.relied name bytes → name ≢ own.now
        → StandsFor (D.folder disk.old) bytes ((D.folder disk.old).found name)
        → StandsFor (D.folder disk.new) bytes ((D.folder disk.new).found name) }
    ensures owned { D.honest disk.new → (name : Name) (bytes : List ℕ) → name ≢ own.now
        → HasOwn (D.folder disk.old) name bytes → HasOwn (D.folder disk.new) name bytes }
    ensures kept { D.honest disk.new
        → Keeps D.relied own.now (Beside own.now) (D.folder disk.old) (D.folder disk.new) }
    ensures any_moment { D.honest disk.new
        → Passed (Keeps D.relied own.now (Beside own.now) (D.folder disk.old)) (D.past disk.old)
        (D.past disk.new) }
    ensures gone { D.honest disk.new → OnOk result ((D.folder disk.new).own own.now ≡ false) }
{
    disk.remove(own)
}
