//! How the file of a closed share is set aside, and what is done where a process died on the way.
//!
//! No call of the system renames a file only where it is a certain one: what was looked at may be
//! another file by then, a share that was closed under the same name and acknowledged. So a file
//! that is to go first gets a name that says so, NAME.OWN.aside. OWN is drawn anew from the system
//! each time, so that nobody else gives a file that name: what stands there is one file for good,
//! and can be judged there, whoever else is at work.
//!
//! 1. The file with the closed name NAME is renamed to a name of its own on the way.
//! 2. There it is looked at anew, by its length and by its name, or else by its bytes.
//! 3. If it is to go, it gets the first name that is free of NAME.damaged, NAME.damaged.2 to
//!    NAME.damaged.99. An empty file is made there first, which fails where something has the name,
//!    and the file takes its place. So none takes that of another that was set aside.
//! 4. If it is a whole share, it gets its closed name back, once its bytes are on the disk. What
//!    has the closed name meanwhile gives way: it is the same share, or a damaged one.
//!
//! A process may die between any two of these steps. Its file stands on the way then, and whoever
//! comes next settles it by its bytes, as in 3 and 4. Of two that settle one file each judges the
//! same bytes, and one of them renames it; the other finds nothing (`NotFound`), and nothing is
//! left to do.
//!
//! So no whole share is lost. A file has its closed name, or one on the way, until it was judged
//! under a name at which no other file can come; and only what was judged to be none of the shares
//! is set aside. A share that was closed and acknowledged leaves its closed name in two ways: to a
//! name on the way, from where it comes back, or where the same share takes its place.

ghost use Rattle.std.specs.Prelude.{◌≡◌, ◌⊎◌, Option, Some, option_copied, IfErr, IfOk};
ghost use Rattle.std.specs.IoError.{error_kind};
ghost use Rattle.std.specs.declared.io.ErrorKind.TheVariants.{NotFound};
ghost use Rattle.share_files.specs.declared.acts.Act.TheVariants.{Gone, Judged};
ghost use Rattle.share_files.specs.declared.bytes.Verdict.TheVariants.{Whole};
ghost use Rattle.share_files.specs.declared.fate.Fate.TheVariants.{Odd};
ghost use Rattle.share_files.specs.declared.fate.Wanted.{Wanted};
ghost use Rattle.share_files.specs.Acts.{IsAway, IsNone, IsNoneThere, IsOf, Was, WasFound};
ghost use Rattle.share_files.specs.Going.{Goes, GoesAs, IsClosedFate, IsHalfFate};
ghost use Rattle.share_files.specs.Name.{closed_file, half_file};

use crate::acts::Standing;
use crate::bytes::Watch;
use crate::fate::{Claim, Fate, Wanted, fate_of, fate_read};
use crate::files::FolderFiles;
use crate::name::{MAX_ASIDE, ShareFile};
use share_folders::names::{ClosedName, OwnToken};
use std::io;
use std::io::ErrorKind;
use std::random::RandomSource;
use std::rt::Files;
use wire::message::Digest;

// Is told of bytes that were read before, which do not count again.
#[derive(Drop)]
struct Unwatched;

impl Watch for Unwatched {
    fn on_read(&mut self, _bytes: u64) {}
}

/// Where a file went that was on its way.
#[derive(Clone, Copy, Debug, PartialEq, Eq)]
pub enum Went {
    /// Its closed name, since it is a whole share.
    Back,
    /// A name of those that are set aside.
    Aside,
}

/// What is to become of the file of a closed share that has its closed name. Its bytes are read
/// where they tell, and where nothing is wanted. `NotFound` where it is gone.
pub fn closed_fate<R, W>(
    files: &mut FolderFiles<'_, R>,
    name: &ClosedName,
    wanted: Option<&Wanted<'_>>,
    watch: &mut W,
) -> io::Result<Fate>
where
    R: Files + RandomSource + AllocGlobal + Clone + Drop,
    W: Watch,
    ensures goes { (any : Option Wanted) → Goes any 0 0 files.old files.new }
    ensures fate { IfOk result (IsClosedFate (option_copied wanted.entry) (closed_file name.now)
        name.now.digest files.new) }
    ensures gone { IfErr result (λ e. error_kind e ≡ NotFound
        → Was (Gone (closed_file name.now)) files.new) }
{
    let file = ShareFile::closed(name);
    match fate_by_look(files, &file, name, wanted)? {
        Fate::Read => Ok(fate_read(files.judge(&file, &name.digest, watch)?)),
        fate => Ok(fate),
    }
}

// The same of one that is on its way. One that would stay by its length is read too.
fn half_fate<R>(
    files: &mut FolderFiles<'_, R>,
    half: &ShareFile,
    name: &ClosedName,
    wanted: Option<&Wanted<'_>>,
) -> io::Result<Fate>
where
    R: Files + RandomSource + AllocGlobal + Clone + Drop,
    requires { half.now.key ≡ name.now.key }
    ensures goes { (any : Option Wanted) → Goes any 0 0 files.old files.new }
    ensures fate { IfOk result
        (IsHalfFate (option_copied wanted.entry) half.now name.now.digest files.new) }
{
    match fate_by_look(files, half, name, wanted)? {
        Fate::Read | Fate::Keep => {
            let verdict = files.judge(half, &name.digest, &mut Unwatched)?;
            Ok(fate_read(verdict))
        }
        fate => Ok(fate),
    }
}

// What is to become of a file, as far as its closed name and its length tell.
fn fate_by_look<R>(
    files: &mut FolderFiles<'_, R>,
    file: &ShareFile,
    name: &ClosedName,
    wanted: Option<&Wanted<'_>>,
) -> io::Result<Fate>
where
    R: Files + RandomSource + AllocGlobal + Clone + Drop,
    requires { file.now.key ≡ name.now.key }
    ensures goes { (any : Option Wanted) → Goes any 0 0 files.old files.new }
    ensures found { IfOk result (λ fate. (fate ≡ Odd)
        ⊎ WasFound (option_copied wanted.entry) file.now name.now.digest fate files.new) }
    ensures gone { IfErr result (λ e. error_kind e ≡ NotFound → Was (Gone file.now) files.new) }
{
    let length = match files.look(file)? {
        Standing::Odd => return Ok(Fate::Odd),
        Standing::Regular(length, _) => length,
    };
    let claim = Claim {
        share: name.key.1,
        digest: name.digest,
        length: Some(length),
    };
    Ok(fate_of(&claim, wanted))
}

/// Sets the file of a closed share aside that was looked at. Where that fails it stands where it
/// stood, or is on its way. Another file may have its name meanwhile, a share that was just
/// acknowledged: that one gets its name back.
///
/// Then the folder is synced, so that the old name does not come back beside that of a share that
/// is closed later. Where that fails nothing more is done: a share that is closed with syncs has
/// the folder synced again, or fails.
pub fn set_aside<R>(
    files: &mut FolderFiles<'_, R>,
    name: &ClosedName,
    wanted: Option<&Wanted<'_>>,
) -> io::Result<Went>
where
    R: Files + RandomSource + AllocGlobal + Clone + Drop,
    ensures goes { IsOf (option_copied wanted.entry) (closed_file name.now)
        → IsNone (option_copied wanted.entry) (closed_file name.now) name.now.digest files.old
        → GoesAs (option_copied wanted.entry) files.old files.new result }
    ensures away { IsOf (option_copied wanted.entry) (closed_file name.now)
        → IsNone (option_copied wanted.entry) (closed_file name.now) name.now.digest files.old
        → IfOk result (λ _. IsAway (closed_file name.now) files.new) }
    ensures gone { IsOf (option_copied wanted.entry) (closed_file name.now)
        → IsNone (option_copied wanted.entry) (closed_file name.now) name.now.digest files.old
        → IfErr result (λ e. error_kind e ≡ NotFound → IsAway (closed_file name.now) files.new) }
{
    let own = files.draw()?;
    let half = ShareFile::half_aside(name, own);
    files.rename(&ShareFile::closed(name), &half)?;
    let fate = half_fate(files, &half, name, wanted)?;
    go_on(files, name, &own, fate)
}

/// Settles a file that is on its way: a whole share gets its closed name back, and a damaged one
/// is set aside. `NotFound` where it is gone. What is no regular file, or cannot be read, stays.
pub fn settle<R, W>(
    files: &mut FolderFiles<'_, R>,
    name: &ClosedName,
    own: &OwnToken,
    watch: &mut W,
) -> io::Result<Went>
where
    R: Files + RandomSource + AllocGlobal + Clone + Drop,
    W: Watch,
    ensures { (wanted : Option Wanted) → IsOf wanted (half_file name.now own.now)
        → GoesAs wanted files.old files.new result }
{
    let half = ShareFile::half_aside(name, *own);
    let fate = read_fate(files, &half, &name.digest, watch)?;
    go_on(files, name, own, fate)
}

// What is to become of a file that is on its way, by its bytes.
fn read_fate<R, W>(
    files: &mut FolderFiles<'_, R>,
    half: &ShareFile,
    digest: &Digest,
    watch: &mut W,
) -> io::Result<Fate>
where
    R: Files + RandomSource + AllocGlobal + Clone + Drop,
    W: Watch,
    ensures goes { (any : Option Wanted) → Goes any 0 0 files.old files.new }
    ensures fate { IfOk result
        (λ fate. (any : Option Wanted) → IsHalfFate any half.now digest.now files.new fate) }
{
    match files.look(half)? {
        Standing::Odd => Ok(Fate::Odd),
        Standing::Regular(..) => Ok(fate_read(files.judge(half, digest, watch)?)),
    }
}

// What is on its way goes where its fate says.
fn go_on<R>(
    files: &mut FolderFiles<'_, R>,
    name: &ClosedName,
    own: &OwnToken,
    fate: Fate,
) -> io::Result<Went>
where
    R: Files + RandomSource + AllocGlobal + Clone + Drop,
    ensures { (wanted : Option Wanted) → IsOf wanted (half_file name.now own.now)
        → IsHalfFate wanted (half_file name.now own.now) name.now.digest files.old fate
        → GoesAs wanted files.old files.new result }
{
    let went = match fate {
        Fate::SetAside => move_on(files, name, own)?,
        Fate::Keep => give_back(files, name, own)?,
        Fate::Read | Fate::Odd => return Err(io::Error::from(ErrorKind::AlreadyExists)),
    };
    let _ = files.sync_names();
    Ok(went)
}

// Gives a whole share that is on its way its closed name back.
fn give_back<R>(
    files: &mut FolderFiles<'_, R>,
    name: &ClosedName,
    own: &OwnToken,
) -> io::Result<Went>
where
    R: Files + RandomSource + AllocGlobal + Clone + Drop,
    ensures { (wanted : Option Wanted) → IsOf wanted (half_file name.now own.now)
        → Was (Judged (half_file name.now own.now) name.now.digest Whole) files.old
        → GoesAs wanted files.old files.new result }
{
    let half = ShareFile::half_aside(name, *own);
    files.sync(&half)?;
    files.rename(&half, &ShareFile::closed(name))?;
    Ok(Went::Back)
}

// Gives what is on its way the first name that is free of those that are set aside.
fn move_on<R>(files: &mut FolderFiles<'_, R>, name: &ClosedName, own: &OwnToken) -> io::Result<Went>
where
    R: Files + RandomSource + AllocGlobal + Clone + Drop,
    ensures { (wanted : Option Wanted) → IsOf wanted (half_file name.now own.now)
        → IsNoneThere wanted (half_file name.now own.now) name.now.digest files.old
        → GoesAs wanted files.old files.new result }
{
    for number in 1..=MAX_ASIDE {
        match move_to(files, name, own, number) {
            Err(error) if error.kind() == ErrorKind::AlreadyExists => {}
            outcome => return outcome,
        }
    }
    Err(io::Error::from(ErrorKind::AlreadyExists))
}

// Gives it the name of a number, over an empty file that is made there first.
fn move_to<R>(
    files: &mut FolderFiles<'_, R>,
    name: &ClosedName,
    own: &OwnToken,
    number: u8,
) -> io::Result<Went>
where
    R: Files + RandomSource + AllocGlobal + Clone + Drop,
    ensures { (wanted : Option Wanted) → IsOf wanted (half_file name.now own.now)
        → IsNoneThere wanted (half_file name.now own.now) name.now.digest files.old
        → GoesAs wanted files.old files.new result }
{
    let half = ShareFile::half_aside(name, *own);
    let place = ShareFile::aside(name, number);
    files.make(&place)?;
    match files.rename(&half, &place) {
        Ok(()) => Ok(Went::Aside),
        Err(error) => {
            let _ = files.remove(&place);
            Err(error)
        }
    }
}
