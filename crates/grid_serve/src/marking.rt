//! The mark of a folder that is served.

ghost use Rattle.std.specs.Prelude.{◌≡◌, ◌++◌, ◌∷◌, [], IfOk, IfSome, IsOk, Some};
ghost use Rattle.grid_marks.specs.Marks.{IsServers, mark_text};
ghost use Rattle.grid_serve.specs.Plans.{HasWanted};

use crate::fault::ServeFault;
use grid_faults::{Fault, told_path};
use grid_marks::{Kind, MAX_SERVERS, Mark, folder_mark, mark_path, publish_mark};
use std::alloc::Global;
use std::random::RandomSource;
use std::rt::Files;

/// The mark that a word of the command line spells, as its line in a folder does. `BadParameters`
/// of another word.
pub(crate) fn mark_of_word(alloc: Global, word: &str) -> Result<Mark, ServeFault>
    ensures servers { IfOk result IsServers }
    ensures line { IfOk result (λ mark. mark_text mark ≡ word.now ++ (10 ∷ [])) }
{
    let line = format!(in alloc; "{word}\n")?;
    match read_mark(alloc, line.as_bytes())? {
        Some(mark) => Ok(mark),
        None => Err(ServeFault::Fault(Fault::BadParameters)),
    }
}

// The mark of a server that a text is. Servers have the numbers from 0 to 255.
fn read_mark(alloc: Global, text: &[u8]) -> Result<Option<Mark>, ServeFault>
    ensures servers { IfOk result (λ read. IfSome read IsServers) }
    ensures text { IfOk result (λ read. IfSome read (λ mark. mark_text mark ≡ text.now)) }
{
    match Mark::read(alloc, Kind::Server, text) {
        Ok(Some(mark)) if mark.number < MAX_SERVERS => Ok(Some(mark)),
        Ok(_) => Ok(None),
        Err(error) => Err(ServeFault::Fault(Fault::from(error))),
    }
}

/// Refuses a folder that has another mark than it is to have: `OtherMark`.
pub(crate) fn refuse_other(
    alloc: Global,
    folder: &str,
    found: Option<Mark>,
    wanted: Option<Mark>,
) -> Result<(), ServeFault>
    ensures { IsOk result → IfSome found (λ mark. HasWanted wanted (Some mark)) }
{
    match (found, wanted) {
        (Some(found), Some(wanted)) if !found.is_alike(&wanted) => {
            let path = mark_path(alloc, folder)?;
            let told = told_path(alloc, path.as_str())?;
            Err(ServeFault::Fault(Fault::OtherMark(told)))
        }
        _ => Ok(()),
    }
}

/// Marks a folder that has no mark. It is on the disk then. Another process may have been first:
/// then that has to be the same mark.
pub(crate) fn mark_folder<R>(rt: &R, folder: &str, mark: &Mark) -> Result<(), ServeFault>
where
    R: Files + RandomSource + AllocGlobal,
{
    let path = mark_path(rt.alloc(), folder)?;
    publish_mark(rt, folder, path.as_str(), mark)?;
    let found = folder_mark(rt, folder)?;
    refuse_other(rt.alloc(), folder, found, Some(*mark))
}
