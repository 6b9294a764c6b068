//! The parts of a plan.

/// A part of a plan: the bytes of one read.
#[derive(Clone, Copy, Debug, PartialEq, Eq)]
pub enum Part {
    /// The share hashes, whole.
    ShareHashes,
    /// Some nodes of the block tree.
    BlockTree(NodePiece),
    /// Some nodes of the ciphertext tree.
    CiphertextTree(NodePiece),
    /// The piece of this number of the wanted segments' blocks.
    Data(u32),
}

/// Some nodes of a tree, by their level, counted from the root, and their piece of it.
#[derive(Clone, Copy, Debug, PartialEq, Eq)]
pub struct NodePiece {
    /// The level, from 0 on.
    pub level: u32,
    /// The piece of it, from 0 on.
    pub index: u32,
}

/// Nodes of a tree that stand one behind another in a row.
#[derive(Clone, Copy, Debug, PartialEq, Eq)]
pub struct Nodes {
    /// The row, counted from the root, which is row 0.
    pub row: u32,
    /// The position of the first of them in the row.
    pub from: u32,
    /// How many they are: 1 to `MAX_NODES`.
    pub count: u32,
}

/// Pieces of the wanted segments' blocks, one behind another.
#[derive(Clone, Copy, Debug, PartialEq, Eq)]
pub struct DataPieces {
    /// The first of them.
    pub first: u32,
    /// The one behind the last.
    pub end: u32,
}

/// Bytes of a share.
#[derive(Clone, Copy, Debug, PartialEq, Eq)]
pub struct Read {
    /// The offset of the first.
    pub offset: u64,
    /// How many they are: 1 to `MAX_READ`.
    pub length: u32,
}
