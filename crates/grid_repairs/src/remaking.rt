//! The shares of a file, made anew of good ones that are read where they stand.

ghost use Rattle.std.specs.Prelude.{◌≡◌, ◌++◌, IfOk, IfSome, OnOk, map, slice_get};
ghost use Rattle.std.specs.Option.{option_to_list};
ghost use Rattle.share_source.specs.Block.{IsReadBlock};
ghost use Rattle.share_source.specs.Reads.{WasRead};
ghost use Rattle.carried_operations.specs.Fetched.{IsReadOver, IsUnread};
ghost use Rattle.grid_repairs.specs.Remaking.{AreMadeAnew, IsBegun, read_places};

use crate::made_shares::{MadeShares, lacks_memory, told_apart};
use cap_text::VerifyCap;
use carried_operations::{FetchedShares, SharePlace};
use file_streaming::{RemakeError, prepare_remade};
use file_upload::remade::ready_remade;
use grid_faults::Fault;
use grid_rules::becoming::fault_of_remaking;
use local_grid::Outside;
use share_source::{ReadBlock, ShareBytes, ShareSource, read_block};
use std::alloc::{AllocError, Global};
use ueb::Ueb;
use upload_core::ReadyUpload;
use zfec_code::CodeError;

/// All shares of a file, made ready for their upload, and where the shares stand that are read for
/// them.
#[derive(Drop)]
pub(crate) struct Made<G: Outside + Drop> {
    pub ready: ReadyUpload<MadeShares<G>>,
    pub reading: Vec<SharePlace>,
}

/// All shares of a cap's file, made anew of good ones, which are read once for it. Of the file it
/// holds some segments, and hashes.
///
/// `SourceFault` where not as many shares can be read to the end as are needed, `Inconsistent`
/// where these are no code word of the file, and as `prepare_remade` tells it.
pub(crate) fn remake<G: Outside + Drop>(
    alloc: Global,
    cap: &VerifyCap,
    happy: u16,
    bytes: FetchedShares<G>,
) -> Result<Made<G>, Fault>
    ensures { IfOk result (λ made. AreMadeAnew (IsReadOver G.calls)
        (IsUnread G.calls) cap.now happy bytes.places bytes made.ready
        made.reading.items) }
{
    let places = Vec::from_slice(alloc, bytes.places())?;
    let mut bytes = bytes;
    let Some(block) = first_block(alloc, cap, &mut bytes, places.len())? else {
        return Err(unread(bytes.lacks_memory()));
    };
    let ReadBlock {
        ueb,
        bytes: extension_block,
    } = block;
    let numbers = numbers_of(alloc, &places)?;
    let mut source = begin_source(alloc, ueb, numbers, bytes)?;
    match prepare_remade(alloc, &mut source, cap, &ueb, extension_block) {
        Ok(remade) => {
            let reading = read_places(alloc, &places, source.reading())?;
            let ready = told_apart(ready_remade(alloc, source, remade, happy)?);
            Ok(Made { ready, reading })
        }
        Err(RemakeError::SourceFault) => Err(unread(lacks_memory(&source))),
        Err(error) => Err(fault_of_remaking(error)),
    }
}

// Why shares could not be read.
fn unread(lacks_memory: bool) -> Fault {
    if lacks_memory {
        Fault::OutOfMemory
    } else {
        Fault::SourceFault
    }
}

// The numbers of these shares.
fn numbers_of(alloc: Global, places: &[SharePlace]) -> Result<Vec<u16>, AllocError>
    ensures { IfOk result (λ numbers. numbers.items ≡ map (λ p. p.share) places.now) }
{
    places
        .iter()
        .map(|place| u16::from(place.share))
        .collect(alloc)
}

// The places at these positions.
fn read_places(
    alloc: Global,
    places: &[SharePlace],
    positions: &[usize],
) -> Result<Vec<SharePlace>, AllocError>
    ensures { IfOk result (λ read. read.items ≡ read_places places.now positions.now) }
{
    let mut read = Vec::new(alloc);
    for position in positions {
        add_place(&mut read, place_at(places, *position))?;
    }
    Ok(read)
}

// The place at a position.
fn place_at(places: &[SharePlace], position: usize) -> Option<SharePlace>
    ensures { result ≡ slice_get places.now position }
{
    if position < places.len() {
        Some(places[position])
    } else {
        None
    }
}

// Adds a place, where there is one.
fn add_place(read: &mut Vec<SharePlace>, place: Option<SharePlace>) -> Result<(), AllocError>
    ensures { OnOk result (read.new.items ≡ read.old.items ++ option_to_list place) }
{
    if let Some(place) = place {
        read.push(place)?;
    }
    Ok(())
}

// The extension block of a cap's file, by the first of so many shares that leads to it.
fn first_block<B: ShareBytes>(
    alloc: Global,
    cap: &VerifyCap,
    bytes: &mut B,
    count: usize,
) -> Result<Option<ReadBlock>, AllocError>
    ensures block { IfOk result (λ found. IfSome found (λ block. IsReadBlock cap.now block
        × WasRead B.gives B.fails bytes.old bytes.new)) }
{
    for position in 0..count {
        if let Some(block) = read_block(alloc, cap, bytes, position)? {
            return Ok(Some(block));
        }
    }
    Ok(None)
}

// The source of the padded ciphertext of a file, over the shares with these numbers.
fn begin_source<B: ShareBytes + Drop>(
    alloc: Global,
    ueb: Ueb,
    numbers: Vec<u16>,
    bytes: B,
) -> Result<ShareSource<B>, Fault>
    ensures { IfOk result (IsBegun ueb numbers.items bytes) }
{
    match ShareSource::new(alloc, ueb, numbers, bytes) {
        Ok(source) => Ok(source),
        Err(CodeError::OutOfMemory) => Err(Fault::OutOfMemory),
        Err(_) => Err(Fault::NotEnoughShares),
    }
}
