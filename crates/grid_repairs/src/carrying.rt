//! A check that is carried to its end.

ghost use Rattle.std.specs.Prelude.{IfOk};
ghost use Rattle.grid_servers.specs.Grids.{grid_calls};
ghost use Rattle.carried_operations.specs.Checked.{HasBegun, IsCarried};

use cap_text::VerifyCap;
use carried_operations::checks::carry_check;
use checker::Check;
use grid_faults::Fault;
use grid_rules::becoming::fault_of_loop;
use grid_rules::turn_limit;
use grid_servers::FolderGrid;
use grid_telling::Progress;
use std::alloc::Global;
use std::io::{IsTerminal, Write};
use std::net::Net;
use std::random::RandomSource;
use std::rt::{Clock, Files};

/// How many bytes of a share are no blocks, at most: those of three trees over 1,048,576 segments,
/// and of its header, its share hashes and its extension block.
const MOST_HASHES: u64 = 1 << 28;

/// About how many bytes a share of a file has: those of its blocks.
pub(crate) fn share_bytes(cap: &VerifyCap) -> u64 {
    let needed = u64::from(cap.needed()).max(1);
    cap.size().div_ceil(needed)
}

// How many turns a check at so many servers may take: each of them may offer all shares.
fn check_limit(cap: &VerifyCap, servers: u64) -> u64 {
    let shares = servers.saturating_mul(u64::from(cap.total()));
    turn_limit(shares, share_bytes(cap).saturating_add(MOST_HASHES))
}

/// Carries a check at so many servers to its end.
pub(crate) fn carry<R, E>(
    alloc: Global,
    check: Check,
    servers: usize,
    nodes: &mut FolderGrid<R>,
    progress: &mut Progress<'_, R, E>,
) -> Result<Check, Fault>
where
    R: Files + Net + Clock + RandomSource + AllocGlobal + Clone + Drop,
    E: Write + IsTerminal,
    requires { HasBegun check }
    ensures { IfOk result (λ ended. IsCarried (grid_calls R.Stream.contents R.Stream.remaining)
        check nodes.old ended nodes.new) }
{
    let limit = check_limit(check.cap(), servers as u64);
    carry_check(alloc, nodes, check, limit, progress).map_err(fault_of_loop)
}
