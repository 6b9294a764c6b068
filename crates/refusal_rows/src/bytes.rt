//! Refusals of texts, bytes and blocks.

use crate::rows::Rows;
use cap_text::CapError;
use catalogues::CatalogueError;
use connections::AddressError;
use merkle::OfferError;
use sources::{PartFault, SourceFault};
use std::alloc::AllocError;
use ueb::{Key, UebError};
use wire::error::WireError;
use zfec_code::CodeError;

pub(crate) fn tell_all(rows: &mut Rows) -> Result<(), AllocError> {
    tell_sources(rows)?;
    tell_code(rows)?;
    tell_trees(rows)?;
    tell_caps(rows)?;
    tell_blocks(rows)?;
    tell_frames(rows)?;
    tell_catalogues(rows)?;
    tell_addresses(rows)
}

fn tell_sources(rows: &mut Rows) -> Result<(), AllocError> {
    let fault = SourceFault::Unreadable;
    rows.name("sources::SourceFault", fault.number(), &fault)?;
    for fault in [PartFault::Ended, PartFault::Unreadable] {
        rows.name("sources::PartFault", fault.number(), &fault)?;
    }
    Ok(())
}

fn tell_code(rows: &mut Rows) -> Result<(), AllocError> {
    for error in [
        CodeError::OutOfMemory,
        CodeError::BadParameters,
        CodeError::RepeatedShare,
        CodeError::ShareOutOfRange,
        CodeError::LengthMismatch,
    ] {
        rows.name("zfec_code::CodeError", error.number(), &error)?;
    }
    Ok(())
}

fn tell_trees(rows: &mut Rows) -> Result<(), AllocError> {
    for error in [OfferError::OutOfMemory, OfferError::NotConsistent] {
        rows.tell("merkle::OfferError", error.number(), &error)?;
    }
    Ok(())
}

fn tell_caps(rows: &mut Rows) -> Result<(), AllocError> {
    for error in [
        CapError::OutOfMemory,
        CapError::UnknownKind,
        CapError::BadBase32,
        CapError::BadNumber,
        CapError::BadParameters,
        CapError::WrongParts,
        CapError::LitTooLong,
    ] {
        rows.tell("cap_text::CapError", error.number(), &error)?;
    }
    Ok(())
}

fn tell_blocks(rows: &mut Rows) -> Result<(), AllocError> {
    for error in [
        UebError::OutOfMemory,
        UebError::Malformed,
        UebError::KeyOrder,
        UebError::MissingKey(Key::Size),
        UebError::Disagrees(Key::Size),
        UebError::TooLong,
    ] {
        rows.tell("ueb::UebError", error.number(), &error)?;
    }
    Ok(())
}

fn tell_frames(rows: &mut Rows) -> Result<(), AllocError> {
    for error in [
        WireError::OutOfMemory,
        WireError::BadLength,
        WireError::BadKind,
        WireError::BadFields,
    ] {
        rows.tell("wire::WireError", error.number(), &error)?;
    }
    Ok(())
}

fn tell_catalogues(rows: &mut Rows) -> Result<(), AllocError> {
    for error in [
        CatalogueError::OutOfMemory,
        CatalogueError::NotACatalogue,
        CatalogueError::NotALine(1),
        CatalogueError::BadName,
    ] {
        rows.tell("catalogues::CatalogueError", error.number(), &error)?;
    }
    Ok(())
}

fn tell_addresses(rows: &mut Rows) -> Result<(), AllocError> {
    for error in [
        AddressError::OutOfMemory,
        AddressError::BadAddress,
        AddressError::NotLocal,
    ] {
        rows.tell("connections::AddressError", error.number(), &error)?;
    }
    Ok(())
}
