//! `grid repair`: the missing shares of a cap's file are made again and placed on servers, by
//! anyone who has its verify cap. It holds neither the file nor a share of it.

ghost use Rattle.std.specs.Prelude.{◌≡◌, ◌≤◌, ◌<◌, IfOk, IfSome, OnOk, is_some, nat_eq, true};
ghost use Rattle.std.specs.List.{IsDistinct};
ghost use Rattle.grid_servers.specs.Grids.{grid_calls};
ghost use Rattle.grid_shares.specs.Puts.{stored_status};
ghost use Rattle.grid_shares.specs.Standing.{WereOpened};
ghost use Rattle.grid_repairs.specs.Checks.{AreCheckedTo, IsCheckedAt, IsCheckedBy, WereChecked};
ghost use Rattle.grid_repairs.specs.Checks.{verify_of};
ghost use Rattle.grid_repairs.specs.Repairs.{AreOpenedFor, IsRepairBy, IsRepairedBy};
ghost use Rattle.grid_repairs.specs.Repairs.{IsRepairedFile, IsRepairedOver, happiness_text};

use crate::checking::{literal_outcome, note_report, verify_cap};
use crate::choosing::candidate_places;
use crate::remaking::{Made, remake};
use crate::standing::{OpenGrid, Place};
use cap_text::{Cap, VerifyCap};
use carried_operations::{FetchedShares, SharePlace};
use checker::status::Report;
use grid_faults::{Fault, Limit};
use grid_rules::read_cap;
use grid_servers::{FIRST_SESSION, FolderGrid, Purpose, open_servers};
use grid_shares::{Environment, Outcome, Placing, Stored, durability_of, place_shares};
use grid_telling::{Progress, Verb, note_limits};
use grid_words::RepairWords;
use std::alloc::{AllocError, Global};
use std::io::{IsTerminal, Write};
use std::net::Net;
use std::random::RandomSource;
use std::rt::{Clock, Files};
use user_files::Locks;
use wire::message::NodeId;

/// Shares at the servers of a grid in this process.
type GridShares<R> = FetchedShares<FolderGrid<R>>;

/// The greatest number of shares, and so of servers that may be wanted.
const MAX_SHARES: u64 = 256;

/// How files are repaired.
#[derive(Clone, Copy)]
pub struct Repairing<'a> {
    pub place: Place<'a>,
    /// How many servers are to hold a share of their own.
    pub happy: u64,
    /// Whether shares count that are not on the disk yet.
    pub no_sync: bool,
    /// Whether damaged shares are set aside.
    pub mend: bool,
}

/// Repairs the file of a cap, and gives the line with its happiness. A cap that holds its file has
/// no shares. Nothing is changed in a folder before all shares are made.
pub fn repair<R, E>(
    rt: &R,
    words: &RepairWords<'_>,
    environment: &Environment<'_>,
    progress: &mut Progress<'_, R, E>,
) -> Result<Outcome, Fault>
where
    R: Files + Net + Clock + RandomSource + Locks + AllocGlobal + Clone + Drop,
    E: Write + IsTerminal,
    ensures { IfOk result (IsRepairBy (grid_calls R.Stream.contents R.Stream.remaining) words.now) }
{
    may_repair(rt, words.happy, progress)?;
    let Some(cap) = verify_cap(&read_cap(words.cap)?) else {
        return literal_outcome(rt.alloc(), false);
    };
    let repairing = Repairing {
        place: Place {
            grid: words.grid,
            over_sockets: words.net,
            is_known: words.known || environment.known,
        },
        happy: words.happy,
        no_sync: words.no_sync,
        mend: words.mend,
    };
    let (mut reading, mut writing) = (None, None);
    match repair_shares(rt, &repairing, &cap, &mut reading, &mut writing, progress) {
        Ok(stored) => told_outcome(rt.alloc(), &stored),
        Err(fault) => Err(fault),
    }
}

/// Refuses a happiness that no file may have.
pub fn may_repair<R, E>(rt: &R, happy: u64, progress: &mut Progress<'_, R, E>) -> Result<(), Fault>
where
    R: Clock + AllocGlobal,
    E: Write + IsTerminal,
    ensures { OnOk result ((1 ≤ happy) × (happy ≤ 256)) }
{
    match happy_within(rt, happy, MAX_SHARES, progress) {
        Ok(_) => Ok(()),
        Err(fault) => Err(fault),
    }
}

/// Repairs the file of a cap among others, as `repair` does, and gives what became of its shares;
/// none where the cap holds the file. The servers are those that are kept for reading and for
/// writing, or else those of the place, which are opened. They are kept where none of them fell
/// silent.
pub fn repair_file<R, E>(
    rt: &R,
    repairing: &Repairing<'_>,
    cap: &Cap,
    reading: &mut Option<OpenGrid<R>>,
    writing: &mut Option<grid_shares::OpenGrid<R>>,
    progress: &mut Progress<'_, R, E>,
) -> Result<Option<Stored>, Fault>
where
    R: Files + Net + Clock + RandomSource + Locks + AllocGlobal + Clone + Drop,
    E: Write + IsTerminal,
    requires reading { IfSome reading.old (WereChecked
        (grid_calls R.Stream.contents R.Stream.remaining) repairing.now.place.grid.now) }
    requires writing { IfSome writing.old (λ g. WereOpened
        (grid_calls R.Stream.contents R.Stream.remaining) repairing.now.place.grid.now g.grid) }
    ensures repaired { IfOk result (IsRepairedFile
        (grid_calls R.Stream.contents R.Stream.remaining) repairing.now.place.grid.now
        (is_some reading.old) (is_some writing.old) repairing.now.mend
        repairing.now.happy (verify_of cap.now)) }
    ensures reading { IfSome reading.new (WereChecked
        (grid_calls R.Stream.contents R.Stream.remaining) repairing.now.place.grid.now) }
    ensures writing { IfSome writing.new (λ g. WereOpened
        (grid_calls R.Stream.contents R.Stream.remaining) repairing.now.place.grid.now g.grid) }
{
    match verify_cap(cap) {
        Some(cap) => {
            let stored = repair_shares(rt, repairing, &cap, reading, writing, progress)?;
            Ok(Some(stored))
        }
        None => Ok(None),
    }
}

// Repairs the shares of a cap's file: a check finds the good ones, and all are made again of some of
// these.
fn repair_shares<R, E>(
    rt: &R,
    repairing: &Repairing<'_>,
    cap: &VerifyCap,
    reading: &mut Option<OpenGrid<R>>,
    writing: &mut Option<grid_shares::OpenGrid<R>>,
    progress: &mut Progress<'_, R, E>,
) -> Result<Stored, Fault>
where
    R: Files + Net + Clock + RandomSource + Locks + AllocGlobal + Clone + Drop,
    E: Write + IsTerminal,
    requires reading { IfSome reading.old (WereChecked
        (grid_calls R.Stream.contents R.Stream.remaining) repairing.now.place.grid.now) }
    requires writing { IfSome writing.old (λ g. WereOpened
        (grid_calls R.Stream.contents R.Stream.remaining) repairing.now.place.grid.now g.grid) }
    ensures repaired { IfOk result (IsRepairedBy
        (grid_calls R.Stream.contents R.Stream.remaining) repairing.now.place.grid.now
        (is_some reading.old) (is_some writing.old) repairing.now.mend
        repairing.now.happy cap.now) }
    ensures reading { IfSome reading.new (WereChecked
        (grid_calls R.Stream.contents R.Stream.remaining) repairing.now.place.grid.now) }
    ensures writing { IfSome writing.new (λ g. WereOpened
        (grid_calls R.Stream.contents R.Stream.remaining) repairing.now.place.grid.now g.grid) }
{
    let happy = happy_within(rt, repairing.happy, u64::from(cap.total()), progress)?;
    let found = find_shares(rt, &repairing.place, cap, reading, progress)?;
    let placing = placing_of(repairing.place.grid, found.servers.as_slice(), repairing);
    repair_over(rt, &placing, &found.report, cap, happy, writing, progress)
}

// How shares are placed on these servers of a grid.
fn placing_of<'a>(grid: &'a str, servers: &'a [NodeId], repairing: &Repairing<'_>) -> Placing<'a>
    ensures grid { result.grid.now ≡ grid.now }
    ensures servers { result.servers.now ≡ servers.now }
    ensures mend { result.mend ≡ repairing.now.mend }
{
    Placing {
        grid,
        servers,
        durability: durability_of(repairing.no_sync),
        mend: repairing.mend,
        net: repairing.place.over_sockets,
        verb: Verb::Repair,
    }
}

// What is told of shares that were stored, and the exit status.
fn told_outcome(alloc: Global, stored: &Stored) -> Result<Outcome, Fault>
    ensures told { IfOk result
        (λ outcome. outcome.text.items ≡ happiness_text stored.now.happiness) }
    ensures status { IfOk result
        (λ outcome. outcome.status ≡ stored_status stored.now.is_cleared) }
{
    let line = format!(in alloc; "happiness {}\n", stored.happiness)?;
    Ok(Outcome {
        text: line.into_bytes(),
        status: stored.status(),
    })
}

// How many servers are wanted, from 1 to the most.
fn happy_within<R, E>(
    rt: &R,
    happy: u64,
    most: u64,
    progress: &mut Progress<'_, R, E>,
) -> Result<u16, Fault>
where
    R: Clock + AllocGlobal,
    E: Write + IsTerminal,
    ensures wanted { IfOk result (λ wanted. wanted ≡ happy) }
    ensures within { IfOk result (λ wanted. (1 ≤ wanted) × (wanted ≤ most)) }
{
    let limit = Limit {
        option: "--happy",
        value: happy,
        least: 1,
        most,
    };
    if limit.is_kept() {
        return u16::try_from(happy).map_err(|_| Fault::BadParameters);
    }
    note_limits(rt, &[limit], progress)?;
    Err(Fault::BadParameters)
}

// Repairs a file by what a check found at these servers: all shares are made again of some of the
// good ones, which are read once for it. Then they are placed, each piece made of what is read once
// more, and only then something is changed in a folder.
fn repair_over<R, E>(
    rt: &R,
    placing: &Placing<'_>,
    report: &Report,
    cap: &VerifyCap,
    happy: u16,
    kept: &mut Option<grid_shares::OpenGrid<R>>,
    progress: &mut Progress<'_, R, E>,
) -> Result<Stored, Fault>
where
    R: Files + Net + Clock + RandomSource + Locks + AllocGlobal + Clone + Drop,
    E: Write + IsTerminal,
    requires distinct { IsDistinct nat_eq placing.now.servers.now }
    requires kept { IfSome kept.old (λ g. WereOpened
        (grid_calls R.Stream.contents R.Stream.remaining) placing.now.grid.now g.grid) }
    ensures repaired { IfOk result (IsRepairedOver
        (grid_calls R.Stream.contents R.Stream.remaining) placing.now.grid.now (is_some kept.old)
        placing.now.mend report.now cap.now happy placing.now.servers.now) }
    ensures kept { IfSome kept.new (λ g. WereOpened
        (grid_calls R.Stream.contents R.Stream.remaining) placing.now.grid.now g.grid) }
{
    let places = candidate_places(rt.alloc(), report.verdicts.as_slice())?;
    progress.encode(Verb::Repair, cap.size());
    let bytes = open_shares(rt, placing, cap, places)?;
    let made = remake(rt.alloc(), cap, happy, bytes)?;
    let Made { ready, reading } = made;
    let stored = place_shares(rt, placing, kept, ready, reading.as_slice(), progress);
    progress.clear();
    stored
}

// What a check found, and its servers.
#[derive(Drop)]
struct Found {
    report: Report,
    servers: Vec<NodeId>,
}

// What a check finds at the servers that are kept, or else those of this place: good shares of as
// many numbers as are needed, at least. The servers are kept also where it does not.
fn find_shares<R, E>(
    rt: &R,
    place: &Place<'_>,
    cap: &VerifyCap,
    kept: &mut Option<OpenGrid<R>>,
    progress: &mut Progress<'_, R, E>,
) -> Result<Found, Fault>
where
    R: Files + Net + Clock + RandomSource + AllocGlobal + Clone + Drop,
    E: Write + IsTerminal,
    requires { IfSome kept.old
        (WereChecked (grid_calls R.Stream.contents R.Stream.remaining) place.now.grid.now) }
    ensures found { IfOk result (λ found. (by : IsCheckedBy
        (grid_calls R.Stream.contents R.Stream.remaining) place.now.grid.now (is_some kept.old)
        cap.now found.report) × (found.servers.items ≡ by.stood.servers)) }
    ensures enough { IfOk result (λ found. found.report.recoverable ≡ true) }
    ensures kept { IfSome kept.new
        (WereChecked (grid_calls R.Stream.contents R.Stream.remaining) place.now.grid.now) }
{
    let mut open = OpenGrid::take(rt, place, kept)?;
    let report = look_at(rt, place, cap, &mut open, progress)?;
    let servers = Vec::from_slice(rt.alloc(), open.servers())?;
    *kept = open.still_speaking();
    if report.recoverable {
        Ok(Found { report, servers })
    } else {
        Err(Fault::NotEnoughShares)
    }
}

// What a check finds at servers that are open, which is noted.
fn look_at<R, E>(
    rt: &R,
    place: &Place<'_>,
    cap: &VerifyCap,
    standing: &mut OpenGrid<R>,
    progress: &mut Progress<'_, R, E>,
) -> Result<Report, Fault>
where
    R: Files + Net + Clock + RandomSource + AllocGlobal + Clone + Drop,
    E: Write + IsTerminal,
    requires { IsDistinct nat_eq standing.old.servers }
    ensures found { IfOk result
        (IsCheckedAt (grid_calls R.Stream.contents R.Stream.remaining) cap.now standing.old) }
    ensures led { IfOk result (λ _.
        AreCheckedTo (grid_calls R.Stream.contents R.Stream.remaining) standing.old standing.new) }
{
    let report = standing.check(rt.alloc(), *cap, Verb::Repair, progress)?;
    note_report(rt, place.grid, &report, cap.total(), progress)?;
    Ok(report)
}

// The servers are opened at which these shares of a cap's file stand, for reading alone.
fn open_shares<R>(
    rt: &R,
    placing: &Placing<'_>,
    cap: &VerifyCap,
    places: Vec<SharePlace>,
) -> Result<GridShares<R>, Fault>
where
    R: Files + Net + Clock + RandomSource + AllocGlobal + Clone + Drop,
    ensures { IfOk result (AreOpenedFor placing.now.grid.now cap.now places.items) }
{
    let servers = servers_with(rt.alloc(), placing.servers, &places)?;
    let purpose = Purpose::Reading;
    let nodes = open_servers(rt, placing.grid, servers.as_slice(), purpose, placing.net)?;
    let index = *cap.storage_index();
    Ok(FetchedShares::new(rt.alloc(), nodes, index, places, FIRST_SESSION))
}

// Those of these servers at which one of the shares stands.
fn servers_with(
    alloc: Global,
    servers: &[NodeId],
    places: &[SharePlace],
) -> Result<Vec<NodeId>, AllocError> {
    let mut used = Vec::new(alloc);
    for server in servers {
        if places.iter().any(|place| place.server == *server) {
            used.push(*server)?;
        }
    }
    Ok(used)
}
