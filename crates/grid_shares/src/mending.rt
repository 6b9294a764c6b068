//! The way is cleared for the shares of a file, once all of them are made: what stands in the
//! servers' folders under the names of its shares, and is none of them, is set aside.

ghost use Rattle.std.specs.Prelude.{◌≡◌, ◌≢◌, ◌++◌, ◌&&◌, None, Some, if◌then◌else◌, option_map};
ghost use Rattle.std.specs.Prelude.{IfOk, IfSome, OnOk, [], true};
ghost use Rattle.grid_shares.specs.declared.mending.Way.TheVariants.{Unmarked};
ghost use Rattle.grid_shares.specs.Ways.{AreCleared, IsWanted, IsWay, is_still, is_touched};
ghost use Rattle.grid_shares.specs.Ways.{read_at, stuck_by, way_by};

use crate::placing::Placing;
use crate::standing::{KnownServer, OpenGrid};
use carried_operations::SharePlace;
use grid_faults::{Fault, server_name, told_path};
use grid_marks::{Mark, grid_mark, server_folder, try_known};
use grid_servers::is_served_elsewhere;
use grid_telling::Progress;
use share_files::{FolderFiles, Wanted};
use share_scrub::{Cleared, LeftShare, clear_way};
use share_store::error::StoreError;
use std::alloc::{AllocError, Global};
use std::io::{IsTerminal, Write};
use std::net::Net;
use std::random::RandomSource;
use std::rt::{Clock, Files};
use std::time::SystemTime;
use upload_core::status::UploadGoal;
use user_files::if_there;
use wire::message::NodeId;

// What the files of a share's storage index are held against: the length of the shares that were
// made, and with `mend` their digests too; but for the shares that are read meanwhile.
fn wanted_of<'a>(goal: &'a UploadGoal, mend: bool, reading: &'a [u8], now: SystemTime) -> Wanted<'a>
    ensures { IsWanted goal.now mend reading.now result }
{
    Wanted {
        index: *goal.cap().storage_index(),
        length: goal.share_length().get(),
        digests: if mend { Some(goal.digests()) } else { None },
        reading,
        now,
    }
}

/// What became of the files of a server.
#[derive(Clone, Copy)]
pub(crate) enum Way {
    /// Its folder has not its mark, so that it will be silent, or it is served elsewhere.
    Unmarked,
    /// Its folder could not be listed: its server will be silent.
    Unread,
    /// No share was left, and no file was touched.
    Clear,
    /// No share was left, and a file was set aside or removed.
    Changed,
    /// A share could not be looked at, or should have been set aside and could not be.
    Stuck,
}

/// What clearing the way at servers came to.
#[derive(Drop)]
pub(crate) struct Clearance {
    /// Those at which a share was left, in their order.
    pub(crate) stuck: Vec<NodeId>,
    /// Those whose folders were listed, and at which none was.
    pub(crate) clear: Vec<NodeId>,
    /// Whether all files stand as they stood.
    pub(crate) is_still: bool,
}

/// Clears the way for shares at each of the servers. Each share that was left is told. A folder
/// that cannot be read is passed over, and so is one without its mark in a grid that knows its
/// servers, and a server that is served elsewhere. The files of shares that are read meanwhile
/// stay. Where servers are held the files of each are listed once, and known from then on.
pub(crate) fn clear_servers<R, E>(
    rt: &R,
    placing: &Placing<'_>,
    goal: &UploadGoal,
    reading: &[SharePlace],
    held: &mut Option<OpenGrid<R>>,
    progress: &mut Progress<'_, R, E>,
) -> Result<Clearance, Fault>
where
    R: Files + Net + Clock + RandomSource + AllocGlobal + Clone + Drop,
    E: Write + IsTerminal,
    ensures cleared { IfOk result
        (λ clearance. AreCleared goal.now placing.now.mend reading.now placing.now.servers.now
        clearance.stuck.items clearance.is_still) }
    ensures held { held.new ≡ held.old }
{
    // without a clock no open file is left over
    let now = SystemTime::now(rt).unwrap_or(SystemTime::UNIX_EPOCH);
    let known = grid_mark(rt, placing.grid)?;
    let mut clearance = nothing_cleared(rt.alloc());
    for server in placing.servers {
        let own = read_at(rt.alloc(), reading, *server)?;
        let wanted = wanted_of(goal, placing.mend, own.as_slice(), now);
        let way = clear_server(rt, placing.grid, &known, *server, &wanted, held, progress)?;
        note_way(&mut clearance, *server, way)?;
    }
    Ok(clearance)
}

// Before the first server.
fn nothing_cleared(alloc: Global) -> Clearance
    ensures none { result.stuck.items ≡ [] }
    ensures still { result.is_still ≡ true }
{
    Clearance {
        stuck: Vec::new(alloc),
        clear: Vec::new(alloc),
        is_still: true,
    }
}

// The numbers of those of these shares that stand at a server.
fn read_at(alloc: Global, places: &[SharePlace], server: NodeId) -> Result<Vec<u8>, AllocError>
    ensures { IfOk result (λ numbers. numbers.items ≡ read_at places.now server) }
{
    places
        .iter()
        .filter(|place| place.server == server)
        .map(|place| place.share)
        .collect(alloc)
}

// Takes note of what became of a server.
fn note_way(clearance: &mut Clearance, server: NodeId, way: Way) -> Result<(), AllocError>
    ensures stuck { OnOk result
        (clearance.new.stuck.items ≡ clearance.old.stuck.items ++ stuck_by server way) }
    ensures still { OnOk result
        (clearance.new.is_still ≡ (clearance.old.is_still && is_still way)) }
{
    match way {
        Way::Clear => Ok(clearance.clear.push(server)?),
        Way::Unmarked => Ok(()),
        Way::Unread => {
            clearance.is_still = false;
            Ok(())
        }
        Way::Changed => {
            clearance.is_still = false;
            Ok(clearance.clear.push(server)?)
        }
        Way::Stuck => {
            clearance.is_still = false;
            Ok(clearance.stuck.push(server)?)
        }
    }
}

// The same at one server. In a grid with a mark, one without its own is passed over; in another,
// one that is served elsewhere.
fn clear_server<R, E>(
    rt: &R,
    grid: &str,
    known: &Option<Mark>,
    server: NodeId,
    wanted: &Wanted<'_>,
    held: &mut Option<OpenGrid<R>>,
    progress: &mut Progress<'_, R, E>,
) -> Result<Way, Fault>
where
    R: Files + Net + Clock + RandomSource + AllocGlobal + Clone + Drop,
    E: Write + IsTerminal,
    ensures way { IfOk result (IsWay wanted.entry.now) }
    ensures held { held.new ≡ held.old }
{
    let is_passed_over = match known {
        Some(known) => if_there(try_known(rt, grid, server, known))?.is_none(),
        None => is_served_elsewhere(rt, grid, server)?,
    };
    if is_passed_over {
        return Ok(Way::Unmarked);
    }
    let folder = server_folder(rt.alloc(), grid, server)?;
    learn(rt, held, server, folder.as_str(), wanted.now)?;
    let known = known_files(held, server);
    clear_folder(rt, server, folder.as_str(), wanted, known, progress)
}

// Lists the files of a server, where it is held and they are not known.
fn learn<R>(
    rt: &R,
    held: &mut Option<OpenGrid<R>>,
    server: NodeId,
    folder: &str,
    now: SystemTime,
) -> Result<(), AllocError>
where
    R: Files + Net + Clock + RandomSource + AllocGlobal + Clone + Drop,
    ensures { held.new ≡ held.old }
{
    match held {
        Some(standing) => standing.learn(rt, server, folder, now),
        None => Ok(()),
    }
}

// The files of a server, where it is held and they are known.
fn known_files<R>(held: &Option<OpenGrid<R>>, server: NodeId) -> Option<&KnownServer>
where
    R: Files + Net + Clock + RandomSource + AllocGlobal + Clone + Drop,
    ensures { IfSome result (λ known. known.now.server ≡ server) }
{
    match held {
        Some(standing) => standing.known_files(server),
        None => None,
    }
}

// The same in the folder of one whose mark, if any, is right.
fn clear_folder<R, E>(
    rt: &R,
    server: NodeId,
    folder: &str,
    wanted: &Wanted<'_>,
    known: Option<&KnownServer>,
    progress: &mut Progress<'_, R, E>,
) -> Result<Way, Fault>
where
    R: Files + Clock + RandomSource + AllocGlobal + Clone + Drop,
    E: Write + IsTerminal,
    requires { IfSome known (λ k. k.now.server ≡ server) }
    ensures way { IfOk result (IsWay wanted.entry.now) }
    ensures marked { IfOk result (λ way. way ≢ Unmarked) }
{
    let mut files = FolderFiles::new(rt, folder, wanted.now);
    let known = known.map(|known| &known.files);
    match clear_way(&mut files, wanted, known, progress) {
        Ok(cleared) => {
            tell_cleared(rt.alloc(), server, folder, &cleared, progress)?;
            Ok(way_of(&cleared))
        }
        Err(StoreError::OutOfMemory) => Err(Fault::OutOfMemory),
        Err(StoreError::StoreFault) => Ok(Way::Unread),
    }
}

// Whether a share was left, and else whether a file was touched.
fn way_of(cleared: &Cleared) -> Way
    ensures { result ≡ way_by cleared.now.left.items (is_touched cleared.now) }
{
    if !cleared.left.is_empty() {
        Way::Stuck
    } else if is_touched(cleared) {
        Way::Changed
    } else {
        Way::Clear
    }
}

// Whether a file was set aside or removed.
fn is_touched(cleared: &Cleared) -> bool
    ensures { result ≡ is_touched cleared.now }
{
    cleared.set_aside != 0 || cleared.open_removed != 0
}

// Tells what was done in a server's folder, and always what could not be done.
fn tell_cleared<R, E>(
    alloc: Global,
    server: NodeId,
    folder: &str,
    cleared: &Cleared,
    progress: &mut Progress<'_, R, E>,
) -> Result<(), Fault>
where
    R: Clock + AllocGlobal,
    E: Write + IsTerminal,
{
    let name = server_name(alloc, server)?;
    if cleared.set_aside != 0 {
        let count = cleared.set_aside;
        let line = format!(in alloc; "{name} mended: damaged shares set aside: {count}\n")?;
        progress.note(line.as_str());
    }
    if cleared.open_removed != 0 {
        let count = cleared.open_removed;
        let line = format!(in alloc; "{name} cleared: open shares removed: {count}\n")?;
        progress.note(line.as_str());
    }
    for share in cleared.odd.as_slice() {
        let line = format!(in alloc; "{name} share {share}: no regular file has its name\n")?;
        progress.note(line.as_str());
    }
    tell_left(
        alloc,
        name.as_str(),
        folder,
        cleared.left.as_slice(),
        progress,
    )
}

// Tells the shares that could not be set aside, each with the system's reason.
fn tell_left<R, E>(
    alloc: Global,
    name: &str,
    folder: &str,
    left: &[LeftShare],
    progress: &mut Progress<'_, R, E>,
) -> Result<(), Fault>
where
    R: Clock + AllocGlobal,
    E: Write + IsTerminal,
{
    for LeftShare { share, reason } in left {
        let path = told_path(alloc, folder)?;
        let line = format!(in alloc; "{name} {share} not-set-aside: {reason} ({path})\n")?;
        progress.tell(line.as_str());
    }
    Ok(())
}
