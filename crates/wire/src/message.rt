//! What clients and servers say to each other.

ghost use Rattle.std.specs.Prelude.{◌≡◌, ℕ, ◌+◌, ◌≤◌, List, Option, length};
ghost use Rattle.wire.specs.Limits.{longest_share, most_data};
ghost use Rattle.wire.specs.Ranges.{share_length, read_length, write_data, read_data};
ghost use Rattle.wire.specs.Held.{AreHeld, IsHeldShare, held_list};

use std::alloc::AllocError;
use std::marker::Model;

/// The most bytes that one `Write`, `Read` or `Data` carries or asks for.
pub const MAX_PIECE: usize = 32_768;

/// The most shares that a file has, and so the most that a `Have` lists.
pub const MAX_SHARES: usize = 256;

/// The number of a node of the grid, as an operation names the server that it asks.
pub type NodeId = u16;

/// The name of a file's shares at every server: the 16 bytes of its storage index.
pub type StorageIndex = [u8; 16];

/// The SHA-256 digest of a whole share, 32 bytes.
pub type Digest = [u8; 32];

/// One share of one file.
#[derive(Clone, Copy, PartialEq, Eq)]
pub struct ShareId {
    pub index: StorageIndex,
    pub share: u8,
}

/// A share that a server holds whole, and the digest of its bytes.
#[derive(Clone, Copy, PartialEq, Eq)]
pub struct HeldShare {
    pub share: u8,
    pub digest: Digest,
}

impl HeldShare {
    /// The lowest number that a share listed after this one may have.
    fn next_share(&self) -> u16
        ensures next { result ≡ self.now.share + 1 }
        ensures held { IsHeldShare self.now }
    {
        u16::from(self.share) + 1
    }
}

/// The length of a share in bytes: 1 to 2^41.
#[derive(Clone, Copy, PartialEq, Eq)]
pub struct ShareLength {
    bytes: u64,
}

impl Model for ShareLength {
    ghost Value = { ℕ };

    ghost view = { λ l. l.bytes };

    ghost invariant = { λ l. (1 ≤ l.bytes) × (l.bytes ≤ longest_share) };

    ghost inverse = { λ n. record { bytes = n } };
}

impl ShareLength {
    /// The longest share, in bytes.
    pub const MAX: u64 = 1 << 41;

    /// A length of so many bytes, or `None` where that is out of range.
    pub fn new(bytes: u64) -> Option<ShareLength>
        ensures { result ≡ share_length bytes }
    {
        if 1 <= bytes && bytes <= ShareLength::MAX {
            Some(ShareLength { bytes })
        } else {
            None
        }
    }

    /// The number of bytes.
    pub fn get(self) -> u64
        ensures value { result ≡ self }
        ensures range { (1 ≤ self) × (self ≤ longest_share) }
    {
        self.bytes
    }
}

/// How many bytes a `Read` asks for: 1 to 32,768.
#[derive(Clone, Copy, PartialEq, Eq)]
pub struct ReadLength {
    bytes: u32,
}

impl Model for ReadLength {
    ghost Value = { ℕ };

    ghost view = { λ l. l.bytes };

    ghost invariant = { λ l. (1 ≤ l.bytes) × (l.bytes ≤ most_data) };

    ghost inverse = { λ n. record { bytes = n } };
}

impl ReadLength {
    /// A length of so many bytes, or `None` where that is out of range.
    pub fn new(bytes: u32) -> Option<ReadLength>
        ensures { result ≡ read_length bytes }
    {
        if 1 <= bytes && bytes <= MAX_PIECE as u32 {
            Some(ReadLength { bytes })
        } else {
            None
        }
    }

    /// The number of bytes.
    pub fn get(self) -> u32
        ensures value { result ≡ self }
        ensures range { (1 ≤ self) × (self ≤ most_data) }
    {
        self.bytes
    }
}

/// The bytes of a `Write`: 1 to 32,768 of them.
#[derive(Drop)]
pub struct WriteData {
    bytes: Vec<u8>,
}

impl Model for WriteData {
    ghost Value = { List ℕ };

    ghost view = { λ d. d.bytes.items };

    ghost invariant = { λ d. (1 ≤ length d.bytes.items) × (length d.bytes.items ≤ most_data) };
}

impl Clone for WriteData {
    ghost is_clone = { λ d e. e ≡ d };

    fn clone(&self) -> Result<WriteData, AllocError> {
        Ok(WriteData {
            bytes: Vec::from_slice(*self.bytes.allocator(), self.bytes.as_slice())?,
        })
    }
}

impl WriteData {
    /// Takes the bytes over, without memory; `None` where there are none or more than 32,768.
    pub fn from_vec(bytes: Vec<u8>) -> Option<WriteData>
        ensures { result ≡ write_data bytes.items }
    {
        if 1 <= bytes.len() && bytes.len() <= MAX_PIECE {
            Some(WriteData { bytes })
        } else {
            None
        }
    }

    /// The bytes.
    pub fn as_slice(&self) -> &[u8]
        ensures value { result.now ≡ self.now }
        ensures range { (1 ≤ length self.now) × (length self.now ≤ most_data) }
    {
        self.bytes.as_slice()
    }

    /// Gives the bytes back, without memory.
    pub fn into_vec(self) -> Vec<u8>
        ensures { result.items ≡ self }
    {
        self.bytes
    }
}

/// The bytes of a `Data`: at most 32,768.
#[derive(Drop)]
pub struct ReadData {
    bytes: Vec<u8>,
}

impl Model for ReadData {
    ghost Value = { List ℕ };

    ghost view = { λ d. d.bytes.items };

    ghost invariant = { λ d. length d.bytes.items ≤ most_data };
}

impl Clone for ReadData {
    ghost is_clone = { λ d e. e ≡ d };

    fn clone(&self) -> Result<ReadData, AllocError> {
        Ok(ReadData {
            bytes: Vec::from_slice(*self.bytes.allocator(), self.bytes.as_slice())?,
        })
    }
}

impl ReadData {
    /// Takes the bytes over, without memory; `None` where there are more than 32,768.
    pub fn from_vec(bytes: Vec<u8>) -> Option<ReadData>
        ensures { result ≡ read_data bytes.items }
    {
        if bytes.len() <= MAX_PIECE {
            Some(ReadData { bytes })
        } else {
            None
        }
    }

    /// The bytes.
    pub fn as_slice(&self) -> &[u8]
        ensures value { result.now ≡ self.now }
        ensures range { length self.now ≤ most_data }
    {
        self.bytes.as_slice()
    }

    /// Gives the bytes back, without memory.
    pub fn into_vec(self) -> Vec<u8>
        ensures { result.items ≡ self }
    {
        self.bytes
    }
}

/// Shares of one file that a server holds: their numbers rise strictly, so there are at most 256.
#[derive(Drop)]
pub struct HeldList {
    items: Vec<HeldShare>,
}

impl Model for HeldList {
    ghost use Rattle.std.specs.Prelude.{List};
    ghost use Rattle.wire.specs.declared.message.HeldShare.{HeldShare};
    ghost use Rattle.wire.specs.Held.{AreHeld};

    ghost Value = { List HeldShare };

    ghost view = { λ h. h.items.items };

    ghost invariant = { λ h. AreHeld h.items.items };
}

impl Clone for HeldList {
    ghost is_clone = { λ h k. k ≡ h };

    fn clone(&self) -> Result<HeldList, AllocError> {
        Ok(HeldList {
            items: Vec::from_slice(*self.items.allocator(), self.items.as_slice())?,
        })
    }
}

impl HeldList {
    /// Takes the shares over, without memory; `None` where their numbers do not rise strictly.
    pub fn from_vec(items: Vec<HeldShare>) -> Option<HeldList>
        ensures { result ≡ held_list items.items }
    {
        let mut low: u16 = 0;
        for held in &items {
            if u16::from(held.share) < low {
                return None;
            }
            low = held.next_share();
        }
        Some(HeldList { items })
    }

    /// The shares, lowest number first.
    pub fn as_slice(&self) -> &[HeldShare]
        ensures value { result.now ≡ self.now }
        ensures held { AreHeld self.now }
    {
        self.items.as_slice()
    }

    /// Gives the shares back, without memory.
    pub fn into_vec(self) -> Vec<HeldShare>
        ensures { result.items ≡ self }
    {
        self.items
    }
}

/// What a message says. A server answers the requests `Ask`, `Allocate`, `Write`, `Close`, `Abort`
/// and `Read`; the other kinds are answers.
#[derive(Drop)]
pub enum Body {
    /// Which shares of this file does the server hold?
    Ask(StorageIndex),
    /// Whether the server takes no further shares, and the shares that it holds whole.
    Have(bool, HeldList),
    /// Room for a share of this length.
    Allocate(ShareId, ShareLength),
    /// The share may be written.
    Granted,
    /// The server holds the share whole, with this digest.
    Already(Digest),
    /// Another client or session is writing the share.
    Busy,
    /// The server has no room, or takes no further shares.
    Full,
    /// These bytes of a share, from this offset on.
    Write(ShareId, u64, WriteData),
    /// The bytes were written; the next ones begin at this offset.
    Wrote(u64),
    /// The bytes do not begin where they should, which is after this many, or pass the end.
    WrongOffset(u64),
    /// All bytes of the share were written: it is to be kept.
    Close(ShareId),
    /// The share is kept whole, with this digest.
    Closed(Digest),
    /// The share has only this many bytes so far.
    NotComplete(u64),
    /// The share is given up.
    Abort(ShareId),
    /// Bytes of a share, from this offset on: as many as this, or fewer at its end.
    Read(ShareId, u64, ReadLength),
    /// The bytes that were read.
    Data(ReadData),
    /// There is no such share, or none that this client is writing.
    NoShare,
}

impl Clone for Body {
    ghost is_clone = { λ b c. c ≡ b };

    fn clone(&self) -> Result<Body, AllocError> {
        Ok(match self {
            Body::Ask(index) => Body::Ask(*index),
            Body::Have(readonly, held) => Body::Have(*readonly, held.clone()?),
            Body::Allocate(id, length) => Body::Allocate(*id, *length),
            Body::Granted => Body::Granted,
            Body::Already(digest) => Body::Already(*digest),
            Body::Busy => Body::Busy,
            Body::Full => Body::Full,
            Body::Write(id, offset, data) => Body::Write(*id, *offset, data.clone()?),
            Body::Wrote(next) => Body::Wrote(*next),
            Body::WrongOffset(written) => Body::WrongOffset(*written),
            Body::Close(id) => Body::Close(*id),
            Body::Closed(digest) => Body::Closed(*digest),
            Body::NotComplete(written) => Body::NotComplete(*written),
            Body::Abort(id) => Body::Abort(*id),
            Body::Read(id, offset, length) => Body::Read(*id, *offset, *length),
            Body::Data(data) => Body::Data(data.clone()?),
            Body::NoShare => Body::NoShare,
        })
    }
}

/// A message of one operation. An answer repeats the session and the number of its request.
#[derive(Drop)]
pub struct Message {
    /// The operation that the message belongs to.
    pub session: u64,
    /// Which of the operation's requests it is, or answers.
    pub number: u64,
    pub body: Body,
}

impl Clone for Message {
    ghost is_clone = { λ m n. n ≡ m };

    fn clone(&self) -> Result<Message, AllocError> {
        Ok(Message {
            session: self.session,
            number: self.number,
            body: self.body.clone()?,
        })
    }
}
