//! The fields of a body, read from its front.

ghost use Rattle.wire.specs.Held.{held_list};
ghost use Rattle.wire.specs.Ranges.{share_length, read_length, write_data, read_data};
ghost use Rattle.wire.specs.Reading.{Gives, number_at, bytes_at, share_at, share_id_at};
ghost use Rattle.wire.specs.Reading.{held_share_at, shares_at, flag_at, count_at, in_range};

use crate::error::WireError;
use crate::message::{
    Digest, HeldList, HeldShare, MAX_SHARES, ReadData, ReadLength, ShareId, ShareLength,
    StorageIndex, WriteData,
};
use byteorder::{BigEndian, ByteOrder};
use std::alloc::Global;

fn u16_at(bytes: &[u8]) -> Result<(u16, &[u8]), WireError>
    ensures { Gives (λ x. (x.0, x.1.now)) result (number_at 2 bytes.now) }
{
    if bytes.len() < 2 {
        return Err(WireError::BadFields);
    }
    Ok((BigEndian::read_u16(bytes), &bytes[2..]))
}

pub(crate) fn u32_at(bytes: &[u8]) -> Result<(u32, &[u8]), WireError>
    ensures { Gives (λ x. (x.0, x.1.now)) result (number_at 4 bytes.now) }
{
    if bytes.len() < 4 {
        return Err(WireError::BadFields);
    }
    Ok((BigEndian::read_u32(bytes), &bytes[4..]))
}

pub(crate) fn u64_at(bytes: &[u8]) -> Result<(u64, &[u8]), WireError>
    ensures { Gives (λ x. (x.0, x.1.now)) result (number_at 8 bytes.now) }
{
    if bytes.len() < 8 {
        return Err(WireError::BadFields);
    }
    Ok((BigEndian::read_u64(bytes), &bytes[8..]))
}

pub(crate) fn index_at(bytes: &[u8]) -> Result<(StorageIndex, &[u8]), WireError>
    ensures { Gives (λ x. (x.0, x.1.now)) result (bytes_at 16 bytes.now) }
{
    match bytes.split_first_chunk::<16>() {
        Some((index, rest)) => Ok((*index, rest)),
        None => Err(WireError::BadFields),
    }
}

pub(crate) fn digest_at(bytes: &[u8]) -> Result<(Digest, &[u8]), WireError>
    ensures { Gives (λ x. (x.0, x.1.now)) result (bytes_at 32 bytes.now) }
{
    match bytes.split_first_chunk::<32>() {
        Some((digest, rest)) => Ok((*digest, rest)),
        None => Err(WireError::BadFields),
    }
}

#[tactic(auto, unfolding(crate::specs::Reading::share_at))]
fn share_at(bytes: &[u8]) -> Result<(u8, &[u8]), WireError>
    ensures { Gives (λ x. (x.0, x.1.now)) result (share_at bytes.now) }
{
    let (share, rest) = u16_at(bytes)?;
    if share < 256 {
        Ok((share as u8, rest))
    } else {
        Err(WireError::BadFields)
    }
}

#[tactic(auto, unfolding(crate::specs::Reading::share_id_at))]
pub(crate) fn share_id_at(bytes: &[u8]) -> Result<(ShareId, &[u8]), WireError>
    ensures { Gives (λ x. (x.0, x.1.now)) result (share_id_at bytes.now) }
{
    let (index, rest) = index_at(bytes)?;
    let (share, rest) = share_at(rest)?;
    Ok((ShareId { index, share }, rest))
}

#[tactic(auto, unfolding(crate::specs::Reading::held_share_at))]
fn held_share_at(bytes: &[u8]) -> Result<(HeldShare, &[u8]), WireError>
    ensures { Gives (λ x. (x.0, x.1.now)) result (held_share_at bytes.now) }
{
    let (share, rest) = share_at(bytes)?;
    let (digest, rest) = digest_at(rest)?;
    Ok((HeldShare { share, digest }, rest))
}

#[tactic(auto, unfolding(crate::specs::Reading::flag_at))]
pub(crate) fn flag_at(bytes: &[u8]) -> Result<(bool, &[u8]), WireError>
    ensures { Gives (λ x. (x.0, x.1.now)) result (flag_at bytes.now) }
{
    match bytes {
        [0, rest @ ..] => Ok((false, rest)),
        [1, rest @ ..] => Ok((true, rest)),
        _ => Err(WireError::BadFields),
    }
}

#[tactic(auto, unfolding(crate::specs::Reading::count_at))]
pub(crate) fn count_at(bytes: &[u8]) -> Result<(u16, &[u8]), WireError>
    ensures { Gives (λ x. (x.0, x.1.now)) result (count_at bytes.now) }
{
    let (count, rest) = u16_at(bytes)?;
    if count <= MAX_SHARES as u16 {
        Ok((count, rest))
    } else {
        Err(WireError::BadFields)
    }
}

/// So many shares.
pub(crate) fn shares_at(
    alloc: Global,
    count: u16,
    bytes: &[u8],
) -> Result<(Vec<HeldShare>, &[u8]), WireError>
    ensures { Gives (λ x. (x.0.items, x.1.now)) result (shares_at count bytes.now) }
{
    let mut shares = Vec::new(alloc);
    let mut rest = bytes;
    for _ in 0..count {
        let (held, after) = held_share_at(rest)?;
        shares.push(held)?;
        rest = after;
    }
    Ok((shares, rest))
}

pub(crate) fn held_list(shares: Vec<HeldShare>) -> Result<HeldList, WireError>
    ensures { Gives (λ x. x) result (in_range (held_list shares.items)) }
{
    match HeldList::from_vec(shares) {
        Some(held) => Ok(held),
        None => Err(WireError::BadFields),
    }
}

pub(crate) fn share_length(bytes: u64) -> Result<ShareLength, WireError>
    ensures { Gives (λ x. x) result (in_range (share_length bytes)) }
{
    match ShareLength::new(bytes) {
        Some(length) => Ok(length),
        None => Err(WireError::BadFields),
    }
}

pub(crate) fn read_length(bytes: u32) -> Result<ReadLength, WireError>
    ensures { Gives (λ x. x) result (in_range (read_length bytes)) }
{
    match ReadLength::new(bytes) {
        Some(length) => Ok(length),
        None => Err(WireError::BadFields),
    }
}

pub(crate) fn write_data(alloc: Global, bytes: &[u8]) -> Result<WriteData, WireError>
    ensures { Gives (λ x. x) result (in_range (write_data bytes.now)) }
{
    match WriteData::from_vec(Vec::from_slice(alloc, bytes)?) {
        Some(data) => Ok(data),
        None => Err(WireError::BadFields),
    }
}

pub(crate) fn read_data(alloc: Global, bytes: &[u8]) -> Result<ReadData, WireError>
    ensures { Gives (λ x. x) result (in_range (read_data bytes.now)) }
{
    match ReadData::from_vec(Vec::from_slice(alloc, bytes)?) {
        Some(data) => Ok(data),
        None => Err(WireError::BadFields),
    }
}
