//! Downloads from servers in memory that hold given bytes.

use crate::cases::{Case, Wanted};
use crate::grid::{Grid, grid_of};
use crate::taken::{Site, Taken};
use download_core::Download;
use download_core::status::DownloadStatus;
use proved_parts::{Evidence, find_clash};
use request_record::operation::Operation;
use std::alloc::Global;
use wire::message::NodeId;

// The servers, of which not all need to hold a share.
const SERVERS: [NodeId; 10] = [0, 1, 2, 3, 4, 5, 6, 7, 8, 9];

// How many of these downloads, from the first on, end as they have to.
pub(crate) fn right_ones(alloc: Global, cases: &[Case]) -> usize {
    let mut kept = Vec::new(alloc);
    for (position, case) in cases.iter().enumerate() {
        if !ends_so(alloc, case, &mut kept) {
            return position;
        }
    }
    cases.len()
}

// Do two downloads of one file end as they have to, with one segment for each number?
pub(crate) fn agree(alloc: Global, one: &Case, other: &Case) -> bool {
    let mut kept = Vec::new(alloc);
    ends_so(alloc, one, &mut kept)
        && ends_so(alloc, other, &mut kept)
        && are_without_clash(alloc, kept.as_slice())
}

fn are_without_clash(alloc: Global, kept: &[Option<Evidence>]) -> bool {
    match kept {
        [Some(one), Some(other)] => match find_clash(alloc, one, other) {
            Ok(clash) => clash.is_none(),
            Err(_) => false,
        },
        _ => false,
    }
}

// Does a download end as it has to? What proves its segments is kept, if there is anything.
pub(crate) fn ends_so(alloc: Global, case: &Case, kept: &mut Vec<Option<Evidence>>) -> bool {
    match grid_of(alloc, &case.source) {
        Some(mut grid) => {
            grid.spoil(alloc, &case.wrong);
            ends_at(alloc, &grid, case, kept)
        }
        None => false,
    }
}

// Does it end so at these servers? A download is alive in here alone.
fn ends_at(alloc: Global, grid: &Grid, case: &Case, kept: &mut Vec<Option<Evidence>>) -> bool {
    if case.pressing {
        return ends_pressing(alloc, grid, case, kept);
    }
    match Download::start(alloc, grid.cap, case.from, case.to, &SERVERS, 7, 0) {
        Ok(mut download) => runs_so(alloc, &mut download, grid, case, kept),
        Err(_) => false,
    }
}

// So it does where shares of late servers are put aside.
fn ends_pressing(
    alloc: Global,
    grid: &Grid,
    case: &Case,
    kept: &mut Vec<Option<Evidence>>,
) -> bool {
    match Download::start_pressing(alloc, grid.cap, case.from, case.to, &SERVERS, 7, 0) {
        Ok(mut download) => runs_so(alloc, &mut download, grid, case, kept),
        Err(_) => false,
    }
}

fn runs_so(
    alloc: Global,
    download: &mut Download,
    grid: &Grid,
    case: &Case,
    kept: &mut Vec<Option<Evidence>>,
) -> bool {
    let mut site = Site::new(alloc, case.wrong);
    let mut taken = Taken::new(alloc, case.from);
    run(download, grid, &mut site, &mut taken)
        && site.now <= case.wanted.seconds
        && site.has_read(&case.wanted.reads)
        && taken.is(&case.wanted)
        && ended(download, &case.wanted)
        && keep(alloc, download, kept)
        && has_parts(grid, kept.last(), case.wanted.parts)
}

// Goes on to the end. `false` where a call found no memory, a server has no answer, or a byte is
// not the file's.
fn run(download: &mut Download, grid: &Grid, site: &mut Site, taken: &mut Taken) -> bool {
    for _ in 0..100_000 {
        if download.status() != DownloadStatus::Running {
            return true;
        }
        if !turn(download, grid, site) || !take_all(download, grid, taken) {
            return false;
        }
    }
    false
}

// The next message goes to its server, and the answer comes back. Where there is none five seconds
// pass, and what is late comes.
fn turn(download: &mut Download, grid: &Grid, site: &mut Site) -> bool {
    let Ok(sent) = download.take_outgoing(site.alloc) else {
        return false;
    };
    let Some((node, request)) = sent else {
        site.now = site.now.saturating_add(5);
        return hear_late(download, site) && download.tick(site.now).is_ok();
    };
    if site.is_silent(node) {
        return site.note(node, &request);
    }
    let due = site.due(node);
    match site.answer(grid, node, &request) {
        Some(message) if due <= site.now => { download.on_message(node, message, site.now).is_ok() }
        Some(message) => site.keep(due, node, message),
        None => false,
    }
}

// The answers that were late come, as far as they are due.
fn hear_late(download: &mut Download, site: &mut Site) -> bool {
    for _ in 0..1000 {
        let Some((node, message)) = site.take_due() else {
            return true;
        };
        if download.on_message(node, message, site.now).is_err() {
            return false;
        }
    }
    false
}

// Takes what is handed out.
fn take_all(download: &mut Download, grid: &Grid, taken: &mut Taken) -> bool {
    for count in 0..1000 {
        match download.take_bytes() {
            Some(piece) => {
                if !taken.take(grid.file.as_slice(), &piece) {
                    return false;
                }
            }
            None => return taken.count(count),
        }
    }
    false
}

fn ended(download: &Download, wanted: &Wanted) -> bool {
    download.status() == wanted.status && download.blamed() == wanted.blamed
}

fn keep(alloc: Global, download: &Download, kept: &mut Vec<Option<Evidence>>) -> bool {
    match download.evidence(alloc) {
        Ok(evidence) => kept.push(evidence).is_ok(),
        Err(_) => false,
    }
}

// Are so many segments proved?
fn has_parts(grid: &Grid, kept: Option<&Option<Evidence>>, parts: usize) -> bool {
    match kept {
        Some(Some(evidence)) => {
            evidence.proves(&grid.cap.to_verify()) && evidence.parts.as_slice().len() == parts
        }
        Some(None) => parts == 0,
        None => false,
    }
}
