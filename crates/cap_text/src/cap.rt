//! The three kinds of caps.

ghost use Rattle.std.specs.Prelude.{◌≡◌, ◌<◌, ◌≤◌, ◌↔◌, Err, IsTrue, length};
ghost use Rattle.std.specs.Result.{OkIff};
ghost use Rattle.cap_text.specs.Cap.{ReadCapValue, VerifyCapValue, AreParameters, IsReadCap};
ghost use Rattle.cap_text.specs.Cap.{IsVerifyCap, IsLitCap, max_lit_size, read_cap_value};
ghost use Rattle.cap_text.specs.Cap.{verify_cap_value};

use crate::error::CapError;
use crate::fields::Fields;
use std::marker::Model;

/// The least size of a file that has a read cap, in bytes: a smaller one has a literal cap.
pub const MIN_SIZE: u64 = 56;

/// The greatest size of a file, in bytes.
pub const MAX_SIZE: u64 = 1 << 40;

/// The greatest number of shares of a file.
pub const MAX_SHARES: u16 = 256;

/// The greatest size of a literal cap's data, in bytes.
pub const MAX_LIT_SIZE: usize = 55;

/// The greatest number of letters of a literal cap's data: those of 55 bytes.
pub const MAX_LIT_LETTERS: usize = 88;

/// A cap of an immutable file.
#[derive(Clone, Copy, Debug, PartialEq, Eq)]
pub enum Cap {
    /// A cap that reads a file.
    Chk(ReadCap),
    /// A cap that finds and checks a file's shares, and cannot decrypt them.
    Verify(VerifyCap),
    /// A cap that holds a small file itself.
    Lit(LitCap),
}

/// What it takes to find, check and decrypt a file: its key, the hash of its extension block, how
/// it is encoded, and its size.
#[derive(Clone, Copy, Debug, PartialEq, Eq)]
pub struct ReadCap {
    key: [u8; 16],
    ueb_hash: [u8; 32],
    needed: u16,
    total: u16,
    size: u64,
}

impl Model for ReadCap {
    ghost Value = { ReadCapValue };

    ghost view = { λ c. read_cap_value c.key c.ueb_hash c.needed c.total c.size };

    ghost inverse = { λ v. record {
      key = v.key;
      ueb_hash = v.ueb_hash;
      needed = v.needed;
      total = v.total;
      size = v.size;
    } };

    ghost invariant = { λ c.
        IsReadCap (read_cap_value c.key c.ueb_hash c.needed c.total c.size) };
}

impl ReadCap {
    ghost use Rattle.std.specs.Prelude.{◌≡◌, ◌↔◌, Err};
    ghost use Rattle.std.specs.Result.{OkIff};
    ghost use Rattle.cap_text.specs.Cap.{AreParameters, IsReadCap, verify_cap_of};
    ghost use Rattle.cap_text.specs.CapText.{AreFields, read_cap_of};

    /// The cap with these fields: of `total` shares any `needed` give the file of `size` bytes
    /// back. `BadParameters` where not 1 <= needed <= total <= 256, or the size is not 56 to 2^40.
    pub fn new(
        key: [u8; 16],
        ueb_hash: [u8; 32],
        needed: u16,
        total: u16,
        size: u64,
    ) -> Result<ReadCap, CapError>
        ensures value { OkIff result (AreParameters needed total size)
            (read_cap_value key ueb_hash needed total size) }
        ensures refused { (result ≡ Err CapError.BadParameters)
            ↔ ¬ (AreParameters needed total size) }
    {
        if !are_parameters(u64::from(needed), u64::from(total), size) {
            return Err(CapError::BadParameters);
        }
        Ok(ReadCap {
            key,
            ueb_hash,
            needed,
            total,
            size,
        })
    }

    // The cap with these fields, of which the first is the key.
    pub(crate) fn from_fields(fields: Fields) -> ReadCap
        requires { AreFields fields }
        ensures { result ≡ read_cap_of fields }
    {
        let key = fields.first;
        let ueb_hash = fields.ueb_hash;
        ReadCap {
            key,
            ueb_hash,
            needed: fields.needed,
            total: fields.total,
            size: fields.size,
        }
    }

    /// The key of the file.
    pub fn key(&self) -> &[u8; 16]
        ensures value { result.now ≡ self.now.key }
        ensures cap { IsReadCap self.now }
    {
        &self.key
    }

    /// The hash of the file's extension block.
    pub fn ueb_hash(&self) -> &[u8; 32]
        ensures value { result.now ≡ self.now.ueb_hash }
        ensures cap { IsReadCap self.now }
    {
        &self.ueb_hash
    }

    /// How many shares are needed: 1 to 256.
    pub fn needed(&self) -> u16
        ensures value { result ≡ self.now.needed }
        ensures cap { IsReadCap self.now }
    {
        self.needed
    }

    /// How many shares there are: as many as are needed, to 256.
    pub fn total(&self) -> u16
        ensures value { result ≡ self.now.total }
        ensures cap { IsReadCap self.now }
    {
        self.total
    }

    /// The size of the file in bytes.
    pub fn size(&self) -> u64
        ensures value { result ≡ self.now.size }
        ensures cap { IsReadCap self.now }
    {
        self.size
    }

    /// The verify cap of the same file: the storage index of the key in its place, and the other
    /// fields.
    pub fn to_verify(&self) -> VerifyCap
        ensures { result ≡ verify_cap_of self.now }
    {
        VerifyCap {
            storage_index: tagged_hash::storage_index(&self.key),
            ueb_hash: self.ueb_hash,
            needed: self.needed,
            total: self.total,
            size: self.size,
        }
    }
}

/// What it takes to find and check a file's shares: its storage index, and the fields of the read
/// cap but for the key.
#[derive(Clone, Copy, Debug, PartialEq, Eq)]
pub struct VerifyCap {
    storage_index: [u8; 16],
    ueb_hash: [u8; 32],
    needed: u16,
    total: u16,
    size: u64,
}

impl Model for VerifyCap {
    ghost Value = { VerifyCapValue };

    ghost view = { λ c.
        verify_cap_value c.storage_index c.ueb_hash c.needed c.total c.size };

    ghost inverse = { λ v. record {
      storage_index = v.storage_index;
      ueb_hash = v.ueb_hash;
      needed = v.needed;
      total = v.total;
      size = v.size;
    } };

    ghost invariant = { λ c.
        IsVerifyCap (verify_cap_value c.storage_index c.ueb_hash c.needed c.total c.size) };
}

impl VerifyCap {
    ghost use Rattle.std.specs.Prelude.{◌≡◌};
    ghost use Rattle.cap_text.specs.Cap.{IsVerifyCap};
    ghost use Rattle.cap_text.specs.CapText.{AreFields, verify_cap_from};

    // The cap with these fields, of which the first is the storage index.
    pub(crate) fn from_fields(fields: Fields) -> VerifyCap
        requires { AreFields fields }
        ensures { result ≡ verify_cap_from fields }
    {
        let storage_index = fields.first;
        let ueb_hash = fields.ueb_hash;
        VerifyCap {
            storage_index,
            ueb_hash,
            needed: fields.needed,
            total: fields.total,
            size: fields.size,
        }
    }

    /// The storage index of the file.
    pub fn storage_index(&self) -> &[u8; 16]
        ensures value { result.now ≡ self.now.storage_index }
        ensures cap { IsVerifyCap self.now }
    {
        &self.storage_index
    }

    /// The hash of the file's extension block.
    pub fn ueb_hash(&self) -> &[u8; 32]
        ensures value { result.now ≡ self.now.ueb_hash }
        ensures cap { IsVerifyCap self.now }
    {
        &self.ueb_hash
    }

    /// How many shares are needed: 1 to 256.
    pub fn needed(&self) -> u16
        ensures value { result ≡ self.now.needed }
        ensures cap { IsVerifyCap self.now }
    {
        self.needed
    }

    /// How many shares there are: as many as are needed, to 256.
    pub fn total(&self) -> u16
        ensures value { result ≡ self.now.total }
        ensures cap { IsVerifyCap self.now }
    {
        self.total
    }

    /// The size of the file in bytes.
    pub fn size(&self) -> u64
        ensures value { result ≡ self.now.size }
        ensures cap { IsVerifyCap self.now }
    {
        self.size
    }
}

/// A file of at most 55 bytes.
#[derive(Clone, Copy, Debug, PartialEq, Eq)]
pub struct LitCap {
    bytes: [u8; MAX_LIT_SIZE],
    len: usize,
}

impl Model for LitCap {
    ghost use Rattle.std.specs.Prelude.{ℕ, ◌-◌, List, ◌++◌, length, take, replicate};
    ghost use Rattle.cap_text.specs.Cap.{max_lit_size};
    ghost use Rattle.cap_text.specs.LitBuffer.{IsLitBuffer, lit_buffer_again};

    ghost Value = { List ℕ };

    ghost view = { λ c. take c.len c.bytes };

    ghost inverse = { λ file. record {
      bytes = file ++ replicate (max_lit_size - length file) 0;
      len = length file;
    } };

    ghost inverse_ok = { λ c lit. let same = lit_buffer_again c.bytes c.len lit in
        λ i. record { bytes = same.bytes i; len = same.size i } };

    ghost invariant = { λ c. IsLitBuffer c.bytes c.len };
}

impl LitCap {
    /// The cap that holds this file. `LitTooLong` where it has more than 55 bytes.
    pub fn new(file: &[u8]) -> Result<LitCap, CapError>
        ensures value { OkIff result (length file.now ≤ max_lit_size) file.now }
        ensures refused { (result ≡ Err CapError.LitTooLong) ↔ (max_lit_size < length file.now) }
    {
        if file.len() > MAX_LIT_SIZE {
            return Err(CapError::LitTooLong);
        }
        let mut bytes = [0u8; MAX_LIT_SIZE];
        bytes[..file.len()].copy_from_slice(file);
        Ok(LitCap {
            bytes,
            len: file.len(),
        })
    }

    /// The file.
    pub fn data(&self) -> &[u8]
        ensures value { result.now ≡ self.now }
        ensures cap { IsLitCap self.now }
    {
        &self.bytes[..self.len]
    }
}

// Whether a cap may have these numbers.
pub(crate) fn are_parameters(needed: u64, total: u64, size: u64) -> bool
    ensures { IsTrue result ↔ AreParameters needed total size }
{
    let shares = 1 <= needed && needed <= total && total <= u64::from(MAX_SHARES);
    shares && MIN_SIZE <= size && size <= MAX_SIZE
}
