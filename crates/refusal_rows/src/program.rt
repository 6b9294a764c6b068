//! The faults of the program, with their exit statuses.

use crate::rows::Rows;
use cap_text::CapError;
use grid_faults::Fault;
use grid_serve::ServeFault;
use std::alloc::{AllocError, Global};
use std::io::{self, ErrorKind};

pub(crate) fn tell_all(alloc: Global, rows: &mut Rows) -> Result<(), AllocError> {
    tell_caps(rows)?;
    tell_plain(rows)?;
    tell_paths(alloc, rows)?;
    tell_others(alloc, rows)?;
    tell_serving(alloc, rows)
}

fn tell_fault(rows: &mut Rows, fault: &Fault) -> Result<(), AllocError> {
    rows.tell_with_status("grid_faults::Fault", fault.number(), fault, fault.status())
}

fn tell_caps(rows: &mut Rows) -> Result<(), AllocError> {
    for error in [
        CapError::UnknownKind,
        CapError::BadBase32,
        CapError::BadNumber,
        CapError::BadParameters,
        CapError::WrongParts,
        CapError::LitTooLong,
    ] {
        tell_fault(rows, &Fault::Cap(error))?;
    }
    Ok(())
}

// Those that say nothing but their name.
fn tell_plain(rows: &mut Rows) -> Result<(), AllocError> {
    for fault in [
        Fault::OutOfMemory,
        Fault::BadParameters,
        Fault::TooLarge,
        Fault::TooManySegments,
        Fault::NotEnoughShares,
        Fault::Inconsistent,
        Fault::BadRange,
        Fault::SourceChanged,
        Fault::SourceFault,
        Fault::BadEvent,
        Fault::Stopped,
        Fault::TurnLimit,
        Fault::NeedsReadCap,
        Fault::AlreadyGrid,
        Fault::Output,
    ] {
        tell_fault(rows, &fault)?;
    }
    Ok(())
}

// Those that name a path.
fn tell_paths(alloc: Global, rows: &mut Rows) -> Result<(), AllocError> {
    for fault in [
        Fault::File(String::new(alloc), failed()),
        Fault::OtherMark(String::new(alloc)),
        Fault::BadMark(String::new(alloc)),
        Fault::NoServers(String::new(alloc)),
        Fault::UnknownGrid(String::new(alloc)),
        Fault::NotEmpty(String::new(alloc)),
        Fault::InUse(String::new(alloc)),
    ] {
        tell_fault(rows, &fault)?;
    }
    Ok(())
}

fn tell_others(alloc: Global, rows: &mut Rows) -> Result<(), AllocError> {
    for fault in [
        Fault::Unhappy {
            reached: 0,
            wanted: 1,
        },
        Fault::Socket(failed()),
        Fault::BadScript(1),
        Fault::SameFolder(String::new(alloc), String::new(alloc)),
    ] {
        tell_fault(rows, &fault)?;
    }
    Ok(())
}

fn failed() -> io::Error {
    io::Error::from(ErrorKind::NotFound)
}

// Those of a folder that is served.
fn tell_serving(alloc: Global, rows: &mut Rows) -> Result<(), AllocError> {
    for fault in [
        ServeFault::Socket(String::new(alloc), failed()),
        ServeFault::BadAddress(String::new(alloc)),
        ServeFault::NotLocal(String::new(alloc)),
    ] {
        let (number, status) = (fault.number(), fault.status());
        rows.tell_with_status("grid_serve::ServeFault", number, &fault, status)?;
    }
    Ok(())
}
