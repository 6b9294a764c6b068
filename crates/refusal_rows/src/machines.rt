//! Refusals of stores, servers, uploads, downloads, the loop and worlds.

use crate::rows::Rows;
use download_core::status::DownloadError;
use file_upload::repair::RepairError;
use local_grid::error::LoopError;
use server_core::error::ServerFault;
use share_store::error::StoreError;
use std::alloc::AllocError;
use upload_core::pieces::PieceFault;
use world::event::WorldError;
use world_operations::task::StartError;
use world_script::ScriptError;

pub(crate) fn tell_all(rows: &mut Rows) -> Result<(), AllocError> {
    tell_servers(rows)?;
    tell_uploads(rows)?;
    tell_downloads(rows)?;
    tell_worlds(rows)
}

fn tell_servers(rows: &mut Rows) -> Result<(), AllocError> {
    for error in [StoreError::OutOfMemory, StoreError::StoreFault] {
        rows.tell("share_store::StoreError", error.number(), &error)?;
    }
    for fault in [ServerFault::OutOfMemory, ServerFault::StoreFault] {
        rows.tell("server_core::ServerFault", fault.number(), &fault)?;
    }
    for error in [LoopError::OutOfMemory, LoopError::TurnLimit] {
        rows.tell("local_grid::LoopError", error.number(), &error)?;
    }
    Ok(())
}

fn tell_uploads(rows: &mut Rows) -> Result<(), AllocError> {
    for fault in [
        PieceFault::OutOfMemory,
        PieceFault::SourceChanged,
        PieceFault::SourceFault,
    ] {
        rows.name("upload_core::PieceFault", fault.number(), &fault)?;
    }
    for error in [
        RepairError::OutOfMemory,
        RepairError::BadParameters,
        RepairError::NotEnoughShares,
        RepairError::Inconsistent,
    ] {
        rows.name("file_upload::RepairError", error.number(), &error)?;
    }
    Ok(())
}

fn tell_downloads(rows: &mut Rows) -> Result<(), AllocError> {
    for error in [DownloadError::OutOfMemory, DownloadError::BadRange] {
        rows.name("download_core::DownloadError", error.number(), &error)?;
    }
    Ok(())
}

fn tell_worlds(rows: &mut Rows) -> Result<(), AllocError> {
    for error in [StartError::OutOfMemory, StartError::Refused] {
        rows.name("world_operations::StartError", error.number(), &error)?;
    }
    for error in [
        WorldError::OutOfMemory,
        WorldError::BadEvent,
        WorldError::Stopped,
    ] {
        rows.name("world::WorldError", error.number(), &error)?;
    }
    for error in [ScriptError::OutOfMemory, ScriptError::BadScript(1)] {
        rows.name("world_script::ScriptError", error.number(), &error)?;
    }
    Ok(())
}
