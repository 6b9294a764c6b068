//! The loop over sockets of the system: Unix and TCP on loopback.

use crate::asking::Asking;
use crate::files::{check, file_of, is_read, put};
use crate::grids::Grid;
use crate::sockets::{Both, Over, grid_at};
use connections::Address;
use local_grid::carry_on;
use std::alloc::{AllocError, Global};
use std::net::{Ipv4Addr, SocketAddr};
use std::test::Fail;
use std::{fs, process};

// A path that no other test has.
fn socket_path(rt: &HostRuntime, name: &str, number: u16) -> Result<String, AllocError> {
    let process = process::id(rt.process());
    format!(in rt.alloc(); "..{name}-{process}-{number}")
}

// So many servers over TCP.
fn over_tcp(rt: HostRuntime, count: u16) -> Result<Grid<Over, Both>, Fail> {
    let mut addresses = Vec::new(rt.alloc());
    for _ in 0..count {
        addresses.push(Address::Tcp(SocketAddr::from((Ipv4Addr::LOCALHOST, 0))))?;
    }
    grid_at(rt, addresses)
}

// So many servers over Unix sockets. Their files are removed: who is connected stays so.
fn over_unix(rt: HostRuntime, name: &str, count: u16) -> Result<Grid<Over, Both>, Fail> {
    let mut addresses = Vec::new(rt.alloc());
    for number in 0..count {
        addresses.push(Address::Unix(socket_path(&rt, name, number)?))?;
    }
    grid_at(rt, addresses)
}

fn remove_sockets(rt: &HostRuntime, name: &str, count: u16) -> Result<(), Fail> {
    for number in 0..count {
        fs::remove_file(rt, socket_path(rt, name, number)?.as_str())?;
    }
    Ok(())
}

// The lengths of pieces whose answers have so many bytes in all, with 21 beside each piece.
fn pieces_of(alloc: Global, total: usize) -> Result<Vec<(u16, u32)>, AllocError> {
    let mut pieces = Vec::new(alloc);
    let mut left = total;
    for _ in 0..100 {
        if left < 22 {
            break;
        }
        let length = (left - 21).min(32_768);
        pieces.push((0, length as u32))?;
        left = left.saturating_sub(length + 21);
    }
    Ok(pieces)
}

const TOTALS: [usize; 16] = [
    22, 32_789, 65_535, 65_536, 65_537, 131_008, 131_070, 131_071, 131_072, 131_073, 131_135,
    131_136, 131_137, 131_156, 262_144, 3_000_000,
];

// Asks one server for each of these sums of bytes.
fn all_totals(alloc: Global, grid: &mut Grid<Over, Both>) -> Result<bool, Fail> {
    for total in TOTALS {
        let pieces = pieces_of(alloc, total)?;
        let mut asking = Asking::new(alloc, pieces.as_slice(), 100)?;
        let went = carry_on(alloc, grid, &mut asking, 100_000);
        if went.is_err() {
            return Err(Fail::from("the loop ended with a fault"));
        }
        if !asking.is_answered(0, 100) {
            return Ok(false);
        }
    }
    Ok(true)
}

#[test]
fn answers_of_each_size_over_tcp(rt: HostRuntime) -> Result<(), Fail> {
    let mut grid = over_tcp(rt, 1)?;
    assert!(rt; all_totals(rt.alloc(), &mut grid)?);
    Ok(())
}

#[test]
fn answers_of_each_size_over_unix_sockets(rt: HostRuntime) -> Result<(), Fail> {
    let mut grid = over_unix(rt, "sizes", 1)?;
    let went = all_totals(rt.alloc(), &mut grid)?;
    remove_sockets(&rt, "sizes", 1)?;
    assert!(rt; went);
    Ok(())
}

// Puts a file, reads it and checks it.
fn goes_round(alloc: Global, grid: &mut Grid<Over, Both>) -> Result<bool, Fail> {
    let file = file_of(alloc, 20_000)?;
    let (cap, happiness) = put(alloc, grid, file.as_slice())?;
    let is_same = is_read(alloc, grid, cap, file.as_slice())?;
    let report = check(alloc, grid, &cap)?;
    Ok(happiness == 10 && is_same && report.is_some_and(|report| report.healthy))
}

#[test]
fn a_file_over_tcp(rt: HostRuntime) -> Result<(), Fail> {
    let mut grid = over_tcp(rt, 10)?;
    assert!(rt; goes_round(rt.alloc(), &mut grid)?);
    Ok(())
}

#[test]
fn a_file_over_unix_sockets(rt: HostRuntime) -> Result<(), Fail> {
    let mut grid = over_unix(rt, "file", 10)?;
    let went = goes_round(rt.alloc(), &mut grid)?;
    remove_sockets(&rt, "file", 10)?;
    assert!(rt; went);
    Ok(())
}
