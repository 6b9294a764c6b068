// Vectors that contracts see as lists.

ghost use Rattle.std.specs.Prelude.{◌≡◌, ℕ, List};

use std::marker::Model;

/// Bytes of any number.
#[derive(Drop)]
pub struct Bytes {
    items: Vec<u8>,
}

impl Model for Bytes {
    ghost Value = { List ℕ };

    ghost view = { λ b. b.items.items };
}

impl Bytes {
    /// Takes the bytes over, without memory.
    pub fn from_vec(items: Vec<u8>) -> Bytes
        ensures { result ≡ items.items }
    {
        Bytes { items }
    }

    /// The bytes.
    pub fn as_slice(&self) -> &[u8]
        ensures { result.now ≡ self.now }
    {
        self.items.as_slice()
    }

    /// Gives the bytes back, without memory.
    pub fn into_vec(self) -> Vec<u8>
        ensures { result.items ≡ self }
    {
        self.items
    }
}

/// The hashes that lead from a leaf of a tree to its root: the siblings, from the leaf upward.
#[derive(Drop)]
pub struct Path {
    items: Vec<[u8; 32]>,
}

impl Model for Path {
    ghost Value = { List (List ℕ) };

    ghost view = { λ p. p.items.items };
}

impl Path {
    /// Takes the hashes over, without memory.
    pub fn from_vec(items: Vec<[u8; 32]>) -> Path
        ensures { result ≡ items.items }
    {
        Path { items }
    }

    /// The hashes.
    pub fn as_slice(&self) -> &[[u8; 32]]
        ensures { result.now ≡ self.now }
    {
        self.items.as_slice()
    }

    /// Gives the hashes back, without memory.
    pub fn into_vec(self) -> Vec<[u8; 32]>
        ensures { result.items ≡ self }
    {
        self.items
    }
}
