//! Pieces of a file.

use proved_parts::Bytes;

/// A piece of a file: bytes of one segment, decrypted.
#[derive(Drop)]
pub struct Piece {
    /// The offset of the first byte in the file.
    pub offset: u64,
    /// The bytes, one at least.
    pub bytes: Bytes,
}
