//! A share of a file, as its bytes.

ghost use Rattle.std.specs.Prelude.{◌≡◌, ℕ, List, map, IfOk};

use std::alloc::{AllocError, Global};
use std::marker::Model;

/// A share's bytes.
#[derive(Drop)]
pub struct Share {
    pub(crate) bytes: Vec<u8>,
}

impl Model for Share {
    ghost Value = { List ℕ };

    ghost view = { λ s. s.bytes.items };
}

impl Share {
    /// Takes the bytes over, without memory.
    pub fn from_vec(bytes: Vec<u8>) -> Share
        ensures { result ≡ bytes.items }
    {
        Share { bytes }
    }

    /// The bytes.
    pub fn as_slice(&self) -> &[u8]
        ensures { result.now ≡ self.now }
    {
        self.bytes.as_slice()
    }

    /// Gives the bytes back, without memory.
    pub fn into_vec(self) -> Vec<u8>
        ensures { result.items ≡ self }
    {
        self.bytes
    }
}

/// Strings that come with the numbers of the shares that they are said to be, as slices. None is
/// copied.
pub fn slices_of(alloc: Global, shares: &[(u16, Vec<u8>)]) -> Result<Vec<(u16, &[u8])>, AllocError>
    ensures numbers { IfOk result
        (λ slices. map (λ s. s.0) slices.items ≡ map (λ s. s.0) shares.now) }
    ensures bytes { IfOk result
        (λ slices. map (λ s. s.1.now) slices.items ≡ map (λ s. s.1.items) shares.now) }
{
    let mut slices = Vec::with_capacity(alloc, shares.len())?;
    for share in shares {
        slices.push((share.0, share.1.as_slice()))?;
    }
    Ok(slices)
}
