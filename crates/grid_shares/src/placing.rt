//! Shares that are all made, placed on servers by a `put` or a `repair`.

ghost use Rattle.std.specs.Prelude.{◌≡◌, ◌≤◌, ◌*◌, ◌-◌, ◌^◌, ℕ, List, length, min, map, nat_eq};
ghost use Rattle.std.specs.Prelude.{IfOk};
ghost use Rattle.std.specs.Prelude.{◌&&◌, IfSome, Some, false, if◌then◌else◌, is_some, true};
ghost use Rattle.std.specs.List.{IsDistinct};
ghost use Rattle.grid_faults.specs.Servers.{server_of};
ghost use Rattle.upload_core.specs.Moves.{Begins};
ghost use Rattle.upload_core.specs.State.{with_ahead};
ghost use Rattle.grid_servers.specs.Grids.{grid_calls};
ghost use Rattle.upload_core.specs.Calls.{upload_calls};
ghost use Rattle.grid_servers.specs.Opened.{AreOpenedToWrite, at_once};
ghost use Rattle.grid_shares.specs.Placing.{ArePlaced, AreUploaded};
ghost use Rattle.grid_shares.specs.Puts.{stored_status};
ghost use Rattle.grid_shares.specs.Standing.{WereOpened};

use crate::mending::{Clearance, clear_servers};
use crate::standing::OpenGrid;
use carried_operations::SharePlace;
use carried_operations::uploads::carry_upload;
use grid_faults::{Fault, servers_of};
use grid_rules::becoming::fault_of_loop;
use grid_rules::{reached_happiness, turn_limit};
use grid_servers::{
    Durability, FolderGrid, Purpose, lock_folders, pieces_at_once, servers_without,
};
use grid_telling::{Counting, Progress, Verb, note_servers};
use local_grid::Outside;
use std::alloc::Global;
use std::io::{IsTerminal, Write};
use std::net::Net;
use std::random::RandomSource;
use std::rt::{Clock, Files};
use upload_core::pieces::Pieces;
use upload_core::status::UploadGoal;
use upload_core::{ReadyUpload, Upload};
use user_files::Locks;
use wire::message::NodeId;

/// The exit status where a share that is none of the file's could not be set aside.
const NOT_CLEARED: u8 = 5;

// The most pieces of a share that may wait at a server elsewhere.
const MOST_AHEAD: usize = 8;

// The most of all shares together: two megabytes, which take 17 seconds at 1 Mbit/s. With more a
// put over a slow line would lose pieces, since a request is lost 20 seconds after it is asked.
const MOST_PIECES: usize = 64;

/// How a store puts shares on its disk.
pub fn durability_of(no_sync: bool) -> Durability
    ensures { result ≡ (if no_sync then Durability.Unsynced else Durability.Synced) }
{
    if no_sync {
        Durability::Unsynced
    } else {
        Durability::Synced
    }
}

/// The servers of a grid on which shares are placed, and how that is done.
#[derive(Clone, Copy)]
pub struct Placing<'a> {
    pub grid: &'a str,
    pub servers: &'a [NodeId],
    pub durability: Durability,
    /// Whether the bytes of closed shares are read first, and damaged ones are set aside.
    pub mend: bool,
    /// Whether the servers are asked over sockets.
    pub net: bool,
    /// Which command it is.
    pub verb: Verb,
}

/// What shares that were placed came to.
#[derive(Clone, Copy)]
pub struct Stored {
    /// How many servers acknowledged a share of their own, by its digest.
    pub happiness: usize,
    /// Whether all was set aside that is none of the file's shares.
    pub is_cleared: bool,
}

impl Stored {
    /// The exit status: 0, or 5 where something could not be set aside.
    pub fn status(&self) -> u8
        ensures { result ≡ stored_status self.now.is_cleared }
    {
        if self.is_cleared { 0 } else { NOT_CLEARED }
    }
}

/// Places shares on servers: those that are kept open, or else these, which are opened for it.
/// First what stands under their names in the servers' folders, and is none of them, is set aside.
/// A server at which that fails is left out, so that nothing counts which it holds. The files of
/// the shares at these places stay, which are read for it. Nothing was changed in any folder before
/// this. Their locks are held meanwhile.
///
/// The servers are opened anew where a file was touched on the way, or a folder is not there as it
/// was: so nothing counts that they told of files which are there no longer. They are kept where
/// each answered; after a fault none are.
///
/// `InUse` where a process serves one of the folders: then nothing is changed. `Unhappy` where
/// fewer servers than were wanted hold a share of their own.
pub fn place_shares<R, P, E>(
    rt: &R,
    placing: &Placing<'_>,
    kept: &mut Option<OpenGrid<R>>,
    ready: ReadyUpload<P>,
    reading: &[SharePlace],
    progress: &mut Progress<'_, R, E>,
) -> Result<Stored, Fault>
where
    R: Files + Net + Clock + RandomSource + Locks + AllocGlobal + Clone + Drop,
    P: Pieces + Drop,
    E: Write + IsTerminal,
    requires distinct { IsDistinct nat_eq placing.now.servers.now }
    requires kept { IfSome kept.old (λ g. WereOpened
        (grid_calls R.Stream.contents R.Stream.remaining) placing.now.grid.now g.grid) }
    ensures placed { IfOk result (ArePlaced (upload_calls P.gives P.fails)
        (grid_calls R.Stream.contents R.Stream.remaining) placing.now.grid.now (is_some kept.old)
        placing.now.mend reading.now placing.now.servers.now ready) }
    ensures kept { IfSome kept.new (λ g. WereOpened
        (grid_calls R.Stream.contents R.Stream.remaining) placing.now.grid.now g.grid) }
{
    let mut held = kept.take();
    let _locks = lock_folders(rt, placing.grid, placing.servers)?;
    let clearance = clear_servers(rt, placing, ready.goal(), reading, &mut held, progress)?;
    let servers = servers_without(rt.alloc(), placing.servers, clearance.stuck.as_slice())?;
    let is_cleared = clearance.stuck.as_slice().is_empty();
    progress.begin(placing.verb, Counting::Stored, bytes_of(ready.goal()));
    let mut standing = open_for(rt, placing, servers.as_slice(), held, clearance)?;
    let happiness = upload_to(
        rt,
        placing,
        servers.as_slice(),
        &mut standing,
        ready,
        progress,
    )?;
    *kept = standing.speaking();
    Ok(Stored {
        happiness,
        is_cleared,
    })
}

// The servers that are held, where they may be asked for another upload; else these are opened.
fn open_for<R>(
    rt: &R,
    placing: &Placing<'_>,
    servers: &[NodeId],
    held: Option<OpenGrid<R>>,
    clearance: Clearance,
) -> Result<OpenGrid<R>, Fault>
where
    R: Files + Net + Clock + RandomSource + AllocGlobal + Clone + Drop,
    requires { IfSome held (λ g. WereOpened (grid_calls R.Stream.contents R.Stream.remaining)
        placing.now.grid.now g.grid) }
    ensures opened { IfOk result (λ g. WereOpened (grid_calls R.Stream.contents R.Stream.remaining)
        placing.now.grid.now g.grid) }
    ensures anew { (is_some held && clearance.is_still) ≡ false
        → IfOk result (λ g. AreOpenedToWrite placing.now.grid.now placing.now.durability g.grid) }
{
    match still_fitting(held, &clearance) {
        Some(standing) => Ok(standing),
        None => OpenGrid::open(rt, placing, servers, clearance.clear),
    }
}

// The servers that are held, where they may be asked for another upload.
fn still_fitting<R>(held: Option<OpenGrid<R>>, clearance: &Clearance) -> Option<OpenGrid<R>>
where
    R: Files + Net + Clock + RandomSource + AllocGlobal + Clone + Drop,
    ensures held { IfSome result (λ g. held ≡ Some g) }
    ensures still { IfSome result (λ _. clearance.now.is_still ≡ true) }
{
    match held {
        Some(standing) => standing.after(clearance),
        None => None,
    }
}

// Uploads shares to these servers, which are distinct, and gives the happiness that was reached.
fn upload_to<R, P, E>(
    rt: &R,
    placing: &Placing<'_>,
    servers: &[NodeId],
    standing: &mut OpenGrid<R>,
    ready: ReadyUpload<P>,
    progress: &mut Progress<'_, R, E>,
) -> Result<usize, Fault>
where
    R: Files + Net + Clock + RandomSource + AllocGlobal + Clone + Drop,
    P: Pieces + Drop,
    E: Write + IsTerminal,
    requires { IsDistinct nat_eq servers.now }
    ensures uploaded { IfOk result (AreUploaded (upload_calls P.gives P.fails)
        (grid_calls R.Stream.contents R.Stream.remaining) standing.old.grid standing.old.session
        servers.now ready) }
    ensures opened { (grid : List ℕ) → WereOpened (grid_calls R.Stream.contents R.Stream.remaining)
        grid standing.old.grid → IfOk result (λ _. WereOpened
        (grid_calls R.Stream.contents R.Stream.remaining) grid standing.new.grid) }
{
    let session = standing.next_session();
    let (happy, turns, now) = (
        ready.happy(),
        turns_for(ready.goal()),
        standing.nodes.clock(),
    );
    let ahead = pieces_ahead(&standing.nodes, ready.goal());
    let upload = begin(rt.alloc(), ready, ahead, servers, session, now)?;
    let alloc = rt.alloc();
    let nodes = &mut standing.nodes;
    let upload = carry_upload(alloc, nodes, upload, turns, &mut *progress).map_err(fault_of_loop)?;
    let purpose = Purpose::Writing(placing.durability);
    note_servers(
        rt,
        placing.grid,
        servers,
        &standing.nodes,
        purpose,
        progress,
    )?;
    reached_happiness(upload.status(), happy)
}

// The bytes of all shares together.
fn bytes_of(goal: &UploadGoal) -> u64
    ensures { result ≡ min (goal.now.share_length * length goal.now.digests) (2 ^ 64 - 1) }
{
    let shares = goal.share_count() as u64;
    goal.share_length().get().saturating_mul(shares)
}

// How many turns of the loop their upload may take.
fn turns_for(goal: &UploadGoal) -> u64 {
    let shares = goal.share_count() as u64;
    turn_limit(shares, goal.share_length().get())
}

// How many pieces of a share may wait for their answers. Over folders of this process each comes
// after the answer to the one before it; where a server is elsewhere up to eight may wait, so that
// not each of them costs a round trip, and fewer where there are many shares.
fn pieces_ahead<R>(nodes: &FolderGrid<R>, goal: &UploadGoal) -> u8
where
    R: Files + Net + Clock + RandomSource + AllocGlobal + Clone + Drop,
    ensures some { 1 ≤ result }
    ensures few { result ≤ at_once nodes.now.remotes }
{
    let most = pieces_at_once(nodes).min(MOST_AHEAD);
    (MOST_PIECES / goal.share_count().max(1)).clamp(1, most) as u8
}

// Begins an upload to these servers, which are distinct, where so many pieces of a share may wait
// at one of them.
fn begin<P: Pieces + Drop>(
    alloc: Global,
    ready: ReadyUpload<P>,
    ahead: u8,
    servers: &[NodeId],
    session: u64,
    now: u64,
) -> Result<Upload<P>, Fault>
    requires distinct { IsDistinct nat_eq servers.now }
    requires some { 1 ≤ ahead }
    ensures begins { IfOk result (λ upload. Begins (with_ahead ahead ready.goal) ready.happy
        (map server_of servers.now) session now upload.course) }
    ensures pieces { IfOk result (λ upload. upload.pieces ≡ ready.pieces) }
{
    let infos = servers_of(alloc, servers)?;
    let ready = ready.with_ahead(ahead);
    Ok(ready.start(alloc, &infos, session, now)?)
}
