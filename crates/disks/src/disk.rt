//! A folder as a program uses it.

ghost use Rattle.std.specs.Prelude.{◌≡◌, ◌≢◌, ℕ, List, map};
ghost use Rattle.std.specs.String.{string_bytes};
ghost use Rattle.disks.specs.Names.{Relied};
ghost use Rattle.disks.specs.Folder.{Folder};
ghost use Rattle.disks.specs.Steps.{Creates, Appends, SyncsFile, Spoils, Renames, SyncsFolder};
ghost use Rattle.disks.specs.Steps.{Makes, MaySyncFolder, Opens, ReadsAt, Finds, Lists, Removes};
ghost use Rattle.disks.specs.Steps.{Links};
ghost use Rattle.disks.specs.Calls.{Gives, Does, Stays, Either, Passes};

use crate::error::DiskError;
use std::alloc::Global;

/// One folder, whose calls are steps of `specs/Steps` as long as it is honest, with what other
/// programs do meanwhile.
pub trait Disk {
    /// An open file.
    type File: Drop;

    /// The open folder, by which its names are put on the disk.
    type Folder: Drop;

    /// Where the folder stands. No call changes that.
    ghost place: { Self → List ℕ };

    /// What the folder holds.
    ghost folder: { Self → Folder };

    /// The states that it was in before now.
    ghost past: { Self → List Folder };

    /// Its calls so far gave what a folder gives. No code can tell.
    ghost honest: { Self → Type 0 };

    /// Which names other programs leave, with which bytes: they may take all others away.
    ghost relied: { Relied };

    /// The number of an open file.
    ghost inode: { Self.File → ℕ };

    /// Makes a file under a name under which nothing stands: else the error is `AlreadyExists`.
    fn create(&mut self, name: &str) -> Result<Self::File, DiskError>
        ensures place { place self.new ≡ place self.old }
        ensures so_far { honest self.new → honest self.old }
        ensures gives { honest self.new
            → Gives relied (λ file. Creates name.now (inode file)) Stays result (folder self.old)
            (folder self.new) }
        ensures passes { honest self.new → Passes relied (Makes name.now) (folder self.old)
            (past self.old) (past self.new) };

    /// Adds bytes at the end of a file.
    fn append(&mut self, file: &mut Self::File, bytes: &[u8]) -> Result<(), DiskError>
        ensures same { inode file.new ≡ inode file.old }
        ensures place { place self.new ≡ place self.old }
        ensures so_far { honest self.new → honest self.old }
        ensures gives { honest self.new → Does relied (Appends (inode file.old) bytes.now)
            (Spoils (inode file.old)) result (folder self.old) (folder self.new) }
        ensures passes { honest self.new
            → Passes relied (Either (Appends (inode file.old) bytes.now) (Spoils (inode file.old)))
            (folder self.old) (past self.old) (past self.new) };

    /// Puts the bytes of a file on the disk.
    fn sync_file(&mut self, file: &Self::File) -> Result<(), DiskError>
        ensures place { place self.new ≡ place self.old }
        ensures so_far { honest self.new → honest self.old }
        ensures gives { honest self.new → Does relied (SyncsFile (inode file.now))
            (Spoils (inode file.now)) result (folder self.old) (folder self.new) }
        ensures passes { honest self.new
            → Passes relied (Either (SyncsFile (inode file.now)) (Spoils (inode file.now)))
            (folder self.old) (past self.old) (past self.new) };

    /// Gives what stands under a name another one, in place of what stands there. It is an error
    /// where another file than this one stands under the first, or one with more or fewer bytes:
    /// what only a program does that keeps to no rule.
    fn rename(
        &mut self,
        file: &Self::File,
        length: u64,
        from: &str,
        to: &str,
    ) -> Result<(), DiskError>
        requires { from.now ≢ to.now }
        ensures place { place self.new ≡ place self.old }
        ensures so_far { honest self.new → honest self.old }
        ensures gives { honest self.new → Does relied (Renames from.now to.now)
            (Either Stays (Renames from.now to.now)) result (folder self.old)
            (folder self.new) }
        ensures passes { honest self.new
            → Passes relied (Either (Renames from.now to.now)
            (Either Stays (Renames from.now to.now))) (folder self.old) (past self.old)
            (past self.new) };

    /// Gives what stands under a name a further one, under which nothing stands: else the error is
    /// `AlreadyExists`.
    fn link(&mut self, from: &str, to: &str) -> Result<(), DiskError>
        ensures place { place self.new ≡ place self.old }
        ensures so_far { honest self.new → honest self.old }
        ensures gives { honest self.new → Does relied (Links from.now to.now)
            (Either Stays (Links from.now to.now)) result (folder self.old)
            (folder self.new) }
        ensures passes { honest self.new
            → Passes relied (Either (Links from.now to.now) (Either Stays (Links from.now to.now)))
            (folder self.old) (past self.old) (past self.new) };

    /// Opens the folder itself.
    fn open_folder(&mut self) -> Result<Self::Folder, DiskError>
        ensures place { place self.new ≡ place self.old }
        ensures so_far { honest self.new → honest self.old }
        ensures gives { honest self.new
            → Gives relied (λ opened. Stays) Stays result (folder self.old) (folder self.new) }
        ensures passes { honest self.new → Passes relied Stays (folder self.old) (past self.old)
            (past self.new) };

    /// Puts the names of the folder on the disk.
    fn sync_folder(&mut self, opened: &Self::Folder) -> Result<(), DiskError>
        ensures place { place self.new ≡ place self.old }
        ensures so_far { honest self.new → honest self.old }
        ensures gives { honest self.new → Does relied SyncsFolder MaySyncFolder result
            (folder self.old) (folder self.new) }
        ensures passes { honest self.new → Passes relied (Either SyncsFolder MaySyncFolder)
            (folder self.old) (past self.old) (past self.new) };

    /// Opens the regular file under a name.
    fn open(&mut self, name: &str) -> Result<Self::File, DiskError>
        ensures place { place self.new ≡ place self.old }
        ensures so_far { honest self.new → honest self.old }
        ensures gives { honest self.new
            → Gives relied (λ file. Opens name.now (inode file)) Stays result (folder self.old)
            (folder self.new) }
        ensures passes { honest self.new → Passes relied Stays (folder self.old) (past self.old)
            (past self.new) };

    /// Reads as many bytes of a file as there is room for, from an offset on. It is an error if it
    /// has fewer. After an error the file is of no use any more.
    fn read_at(
        &mut self,
        file: &mut Self::File,
        offset: u64,
        out: &mut [u8],
    ) -> Result<(), DiskError>
        ensures same { inode file.new ≡ inode file.old }
        ensures place { place self.new ≡ place self.old }
        ensures so_far { honest self.new → honest self.old }
        ensures gives { honest self.new
            → Does relied (ReadsAt (inode file.old) offset out.new) Stays result (folder self.old)
            (folder self.new) }
        ensures passes { honest self.new → Passes relied Stays (folder self.old) (past self.old)
            (past self.new) };

    /// How many bytes the regular file under a name has; `None` where there is none.
    fn find(&mut self, name: &str) -> Result<Option<u64>, DiskError>
        ensures place { place self.new ≡ place self.old }
        ensures so_far { honest self.new → honest self.old }
        ensures gives { honest self.new
            → Gives relied (Finds name.now) Stays result (folder self.old) (folder self.new) }
        ensures passes { honest self.new → Passes relied Stays (folder self.old) (past self.old)
            (past self.new) };

    /// The names that stand in the folder. Where it is not there the error is `NotFound`.
    fn list(&mut self, alloc: Global) -> Result<Vec<String>, DiskError>
        ensures place { place self.new ≡ place self.old }
        ensures so_far { honest self.new → honest self.old }
        ensures gives { honest self.new
            → Gives relied (λ names. Lists (map string_bytes names.items)) Stays result
            (folder self.old) (folder self.new) }
        ensures passes { honest self.new → Passes relied Stays (folder self.old) (past self.old)
            (past self.new) };

    /// Removes the name of a file of this program's own.
    fn remove(&mut self, name: &str) -> Result<(), DiskError>
        ensures place { place self.new ≡ place self.old }
        ensures so_far { honest self.new → honest self.old }
        ensures gives { honest self.new → Does relied (Removes name.now)
            (Either Stays (Removes name.now)) result (folder self.old) (folder self.new) }
        ensures passes { honest self.new
            → Passes relied (Either (Removes name.now) (Either Stays (Removes name.now)))
            (folder self.old) (past self.old) (past self.new) };
}

/// A disk that is honest whatever happens, as one in memory.
pub trait HonestDisk: Disk {
    /// It is.
    ghost always: { (d : Self) → Self.honest d };
}
