//! Files over ten servers elsewhere, over wires of the tests' own.

use crate::fake::{FakeNetwork, FakeWire, Kind};
use crate::files::{check, file_of, is_read, put};
use crate::grids::{Grid, fake_grid};
use cap_text::ReadCap;
use local_grid::Outside;
use std::alloc::Global;
use std::test::Fail;

type Fakes = Grid<FakeWire, FakeNetwork>;

// Puts a file. Its cap, where so many servers have a share.
fn put_at(alloc: Global, grid: &mut Fakes, file: &[u8], servers: usize) -> Result<ReadCap, Fail> {
    let (cap, happiness) = put(alloc, grid, file)?;
    if happiness != servers {
        return Err(Fail::from("another happiness"));
    }
    Ok(cap)
}

// Whether a file is read, and its check finds it healthy where all ten have a share.
fn stands_well(
    alloc: Global,
    grid: &mut Fakes,
    file: &[u8],
    cap: ReadCap,
    healthy: bool,
) -> Result<bool, Fail> {
    let is_read = is_read(alloc, grid, cap, file)?;
    let is_found = match check(alloc, grid, &cap)? {
        Some(report) => report.recoverable && (report.healthy || !healthy),
        None => false,
    };
    Ok(is_read && is_found)
}

// Whether a file is put at ten servers at once, and read.
fn goes_over_ten(alloc: Global, length: usize, step: usize) -> Result<bool, Fail> {
    let file = file_of(alloc, length)?;
    let mut grid = fake_grid(alloc, &[Kind::Honest; 10], step)?;
    let cap = put_at(alloc, &mut grid, file.as_slice(), 10)?;
    let is_well = stands_well(alloc, &mut grid, file.as_slice(), cap, true)?;
    Ok(is_well && grid.clock() == 0 && grid.network().made.len() == 10)
}

#[test]
fn a_file_over_ten_servers(rt: HostRuntime) -> Result<(), Fail> {
    assert!(rt; goes_over_ten(rt.alloc(), 1000, 64)?);
    assert!(rt; goes_over_ten(rt.alloc(), 20_000, 10_000)?);
    Ok(())
}

// Whether it is put where the fourth server is of this kind, for which the client rests so often.
fn goes_over_nine(alloc: Global, file: &[u8], kind: Kind, rests: u64) -> Result<bool, Fail> {
    let mut kinds = [Kind::Honest; 10];
    kinds[3] = kind;
    let mut grid = fake_grid(alloc, &kinds, 10_000)?;
    let cap = put_at(alloc, &mut grid, file, 9)?;
    let has_waited = grid.clock() == 20 && grid.network().rests == rests;
    let is_well = stands_well(alloc, &mut grid, file, cap, false)?;
    Ok(has_waited && is_well && grid.network().rests == rests)
}

// A server that does not answer costs its 20 seconds once, in which the others go on.
#[test]
fn a_file_over_nine_servers(rt: HostRuntime) -> Result<(), Fail> {
    let file = file_of(rt.alloc(), 20_000)?;
    for (kind, rests) in [
        (Kind::Silent, 20),
        (Kind::Mute, 10),
        (Kind::Refuses, 0),
        (Kind::Garbage, 0),
        (Kind::EndsInFrame, 0),
        (Kind::Other, 0),
    ] {
        assert!(rt;
            goes_over_nine(rt.alloc(), file.as_slice(), kind, rests)?,
            "{rests}"
        );
    }
    Ok(())
}
