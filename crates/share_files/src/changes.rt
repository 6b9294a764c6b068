//! The calls by which the names of share files are changed in a folder. Each changes the names of
//! the files that it is given, and no other.

ghost use Rattle.std.specs.Prelude.{◌≡◌};
ghost use Rattle.disks.specs.Calls.{Does, Either, Stays};
ghost use Rattle.disks.specs.Others.{Others};
ghost use Rattle.disks.specs.Steps.{Makes, Removes, Renames};
ghost use Rattle.share_files.specs.Name.{file_name};

use crate::name::ShareFile;
use disks::disk::Disk;
use disks::error::DiskError;
use std::alloc::Global;

/// Gives a regular file another name, in the place of what stands there.
pub fn rename_file<D: Disk>(
    alloc: Global,
    disk: &mut D,
    from: &ShareFile,
    to: &ShareFile,
) -> Result<(), DiskError>
    ensures place { D.place disk.new ≡ D.place disk.old }
    ensures so_far { D.honest disk.new → D.honest disk.old }
    ensures renames { D.honest disk.new → Does D.relied
        (Renames (file_name from.now) (file_name to.now))
        (Either Stays (Renames (file_name from.now) (file_name to.now))) result
        (D.folder disk.old) (D.folder disk.new) }
{
    match (from.text(alloc), to.text(alloc)) {
        (Ok(from), Ok(to)) => rename_named(disk, from.as_str(), to.as_str()),
        _ => Err(DiskError::OutOfMemory),
    }
}

// Gives the regular file under a name another one. To its own name nothing is renamed.
fn rename_named<D: Disk>(disk: &mut D, from: &str, to: &str) -> Result<(), DiskError>
    ensures place { D.place disk.new ≡ D.place disk.old }
    ensures so_far { D.honest disk.new → D.honest disk.old }
    ensures renames { D.honest disk.new → Does D.relied (Renames from.now to.now)
        (Either Stays (Renames from.now to.now)) result (D.folder disk.old)
        (D.folder disk.new) }
{
    if from == to {
        return Err(DiskError::Failed);
    }
    match look_at(disk, from) {
        Ok((file, length)) => disk.rename(&file, length, from, to),
        Err(error) => Err(error),
    }
}

// The regular file under a name, and how many bytes it has.
fn look_at<D: Disk>(disk: &mut D, name: &str) -> Result<(D::File, u64), DiskError>
    ensures place { D.place disk.new ≡ D.place disk.old }
    ensures so_far { D.honest disk.new → D.honest disk.old }
    ensures looks { D.honest disk.new → Others D.relied (D.folder disk.old) (D.folder disk.new) }
{
    let file = match disk.open(name) {
        Ok(file) => file,
        Err(error) => return Err(error),
    };
    match disk.find(name) {
        Ok(Some(length)) => Ok((file, length)),
        Ok(None) => Err(DiskError::NotFound),
        Err(error) => Err(error),
    }
}

/// Makes an empty file under a name that is free.
pub fn make_file<D: Disk>(alloc: Global, disk: &mut D, file: &ShareFile) -> Result<(), DiskError>
    ensures place { D.place disk.new ≡ D.place disk.old }
    ensures so_far { D.honest disk.new → D.honest disk.old }
    ensures makes { D.honest disk.new → Does D.relied (Makes (file_name file.now)) Stays result
        (D.folder disk.old) (D.folder disk.new) }
{
    let Ok(name) = file.text(alloc) else {
        return Err(DiskError::OutOfMemory);
    };
    match disk.create(name.as_str()) {
        Ok(_) => Ok(()),
        Err(error) => Err(error),
    }
}

/// Removes a file.
pub fn remove_file<D: Disk>(alloc: Global, disk: &mut D, file: &ShareFile) -> Result<(), DiskError>
    ensures place { D.place disk.new ≡ D.place disk.old }
    ensures so_far { D.honest disk.new → D.honest disk.old }
    ensures removes { D.honest disk.new → Does D.relied (Removes (file_name file.now))
        (Either Stays (Removes (file_name file.now))) result (D.folder disk.old)
        (D.folder disk.new) }
{
    match file.text(alloc) {
        Ok(name) => disk.remove(name.as_str()),
        Err(_) => Err(DiskError::OutOfMemory),
    }
}
