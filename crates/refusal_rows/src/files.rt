//! Refusals of shares and files.

use crate::rows::Rows;
use block_making::PieceError;
use download_parts::TreeFault;
use file_encoding::{EncodeError, ReadError, RegenerateError};
use file_streaming::{PrepareError, RemakeError};
use share_layout::{LayoutError, Section};
use share_reading::OpeningError;
use share_verify::{Check, ShareFault};
use std::alloc::AllocError;
use ueb::UebError;

pub(crate) fn tell_all(rows: &mut Rows) -> Result<(), AllocError> {
    tell_layout(rows)?;
    tell_shares(rows)?;
    tell_openings(rows)?;
    tell_parts(rows)?;
    tell_encoding(rows)?;
    tell_reading(rows)?;
    tell_preparing(rows)?;
    tell_remaking(rows)
}

fn tell_layout(rows: &mut Rows) -> Result<(), AllocError> {
    for error in [
        LayoutError::BadParameters,
        LayoutError::TooLarge,
        LayoutError::TooManySegments,
        LayoutError::BadVersion,
        LayoutError::BadOffset,
        LayoutError::Truncated(Section::Data),
        LayoutError::BadShareHashes,
        LayoutError::WriterFault,
    ] {
        rows.tell("share_layout::LayoutError", error.number(), &error)?;
    }
    Ok(())
}

fn tell_shares(rows: &mut Rows) -> Result<(), AllocError> {
    for fault in [
        ShareFault::Layout(LayoutError::BadVersion),
        ShareFault::OtherUeb,
        ShareFault::Ueb(UebError::KeyOrder),
        ShareFault::Unused,
        ShareFault::CiphertextTree,
        ShareFault::BlockTree,
        ShareFault::ShareHashes,
        ShareFault::Data,
    ] {
        rows.name("share_verify::ShareFault", fault.number(), &fault)?;
    }
    Ok(())
}

fn tell_openings(rows: &mut Rows) -> Result<(), AllocError> {
    for error in [
        OpeningError::OtherLength,
        OpeningError::Header(LayoutError::BadVersion),
        OpeningError::TooFar,
        OpeningError::TooLong,
        OpeningError::NoBlock,
        OpeningError::Ueb(ShareFault::OtherUeb),
        OpeningError::OtherHeader,
    ] {
        rows.name("share_reading::OpeningError", error.number(), &error)?;
    }
    Ok(())
}

// A part that fails a check is told by the check's name, and has its number.
fn tell_parts(rows: &mut Rows) -> Result<(), AllocError> {
    let fault = TreeFault::OutOfMemory;
    rows.name("download_parts::TreeFault", fault.number(), &fault)?;
    for check in [
        Check::Layout,
        Check::Ueb,
        Check::Unused,
        Check::CiphertextTree,
        Check::BlockTree,
        Check::ShareHashes,
        Check::Data,
    ] {
        rows.name("share_verify::Check", check.number(), &check)?;
        let fault = TreeFault::Check(check);
        rows.name("download_parts::TreeFault", fault.number(), &check)?;
    }
    Ok(())
}

fn tell_encoding(rows: &mut Rows) -> Result<(), AllocError> {
    for error in [
        EncodeError::OutOfMemory,
        EncodeError::BadParameters,
        EncodeError::TooLarge,
        EncodeError::TooManySegments,
    ] {
        rows.name("file_encoding::EncodeError", error.number(), &error)?;
    }
    Ok(())
}

fn tell_reading(rows: &mut Rows) -> Result<(), AllocError> {
    for error in [
        ReadError::OutOfMemory,
        ReadError::NotEnoughShares,
        ReadError::Inconsistent,
    ] {
        rows.name("file_encoding::ReadError", error.number(), &error)?;
    }
    for error in [
        RegenerateError::OutOfMemory,
        RegenerateError::BadNumber,
        RegenerateError::NotEnoughShares,
        RegenerateError::Inconsistent,
    ] {
        rows.name("file_encoding::RegenerateError", error.number(), &error)?;
    }
    Ok(())
}

fn tell_preparing(rows: &mut Rows) -> Result<(), AllocError> {
    for error in [PieceError::SourceChanged, PieceError::SourceFault] {
        rows.name("block_making::PieceError", error.number(), &error)?;
    }
    for error in [
        PrepareError::OutOfMemory,
        PrepareError::TooLarge,
        PrepareError::TooManySegments,
        PrepareError::SourceChanged,
        PrepareError::SourceFault,
    ] {
        rows.name("file_streaming::PrepareError", error.number(), &error)?;
    }
    Ok(())
}

fn tell_remaking(rows: &mut Rows) -> Result<(), AllocError> {
    for error in [
        RemakeError::OutOfMemory,
        RemakeError::Inconsistent,
        RemakeError::SourceChanged,
        RemakeError::SourceFault,
    ] {
        rows.name("file_streaming::RemakeError", error.number(), &error)?;
    }
    Ok(())
}
