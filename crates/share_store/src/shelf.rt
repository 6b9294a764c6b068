//! What a store holds in memory.

ghost use Rattle.std.specs.Prelude.{◌≡◌, ◌≤◌, ◌++◌, [], length, take, drop, IfOk, OnOk, OnErr};
ghost use Rattle.wire.specs.Limits.{most_data};
ghost use Rattle.share_store.specs.Shelf as shelf;

use std::alloc::{AllocError, Global};
use std::marker::Model;
use wire::message::{Digest, ReadData, ReadLength, ShareId, StorageIndex};

/// A share's key in the order of shares: its storage index, and then its number.
pub type ShareKey = (StorageIndex, u8);

/// The key of a share.
pub fn key_of(id: &ShareId) -> ShareKey
    ensures { result ≡ shelf.key_of id.now }
{
    (id.index, id.share)
}

/// The bytes of a share.
#[derive(Drop)]
pub struct ShareBytes {
    bytes: Vec<u8>,
}

impl Model for ShareBytes {
    ghost use Rattle.std.specs.Prelude.{ℕ, List};

    ghost Value = { List ℕ };

    ghost view = { λ b. b.bytes.items };
}

impl ShareBytes {
    /// No bytes; takes no memory.
    pub fn new(alloc: Global) -> ShareBytes
        ensures { result ≡ [] }
    {
        ShareBytes {
            bytes: Vec::new(alloc),
        }
    }

    /// A copy of these bytes.
    pub fn from_slice(alloc: Global, bytes: &[u8]) -> Result<ShareBytes, AllocError>
        ensures { IfOk result (λ b. b ≡ bytes.now) }
    {
        Ok(ShareBytes {
            bytes: Vec::from_slice(alloc, bytes)?,
        })
    }

    /// Adds bytes at the end. An error leaves the bytes as they were.
    pub fn extend(&mut self, bytes: &[u8]) -> Result<(), AllocError>
        ensures ok { OnOk result (self.new ≡ self.old ++ bytes.now) }
        ensures err { OnErr result (self.new ≡ self.old) }
    {
        self.bytes.extend_from_slice(bytes)
    }

    /// How many bytes there are.
    pub fn len(&self) -> usize
        ensures { result ≡ length self.now }
    {
        self.bytes.len()
    }

    /// A copy of the bytes from an offset on: as many as asked for, or fewer at the end.
    pub fn piece(
        &self,
        alloc: Global,
        offset: u64,
        count: ReadLength,
    ) -> Result<ReadData, AllocError>
        ensures { IfOk result (λ d. d ≡ take count (drop offset self.now)) }
    {
        let piece = piece_of(self.bytes.as_slice(), offset, count);
        Ok(ReadData::from_vec(Vec::from_slice(alloc, piece)?).unwrap())
    }
}

// The bytes from an offset on: as many as asked for, or fewer at the end.
fn piece_of(bytes: &[u8], offset: u64, count: ReadLength) -> &[u8]
    ensures value { result.now ≡ take count (drop offset bytes.now) }
    ensures bound { length result.now ≤ most_data }
{
    let start = (offset as usize).min(bytes.len());
    let rest = &bytes[start..];
    &rest[..rest.len().min(count.get() as usize)]
}

/// A closed share: its bytes, and the digest that it was closed with.
#[derive(Drop)]
pub struct ClosedShare {
    pub bytes: ShareBytes,
    pub digest: Digest,
}
