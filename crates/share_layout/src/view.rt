//! A share's sections, as slices of its bytes.

/// A share's sections, as slices of its bytes.
#[derive(Clone, Copy, PartialEq, Eq)]
pub struct ShareView<'a> {
    /// The blocks, one for each segment: `Geometry::share_data_size` bytes.
    pub blocks: &'a [u8],
    /// The section of a tree that is no longer used: `Geometry::tree_size` bytes.
    pub unused: &'a [u8],
    /// The nodes of the tree over the hashes of the ciphertext's segments, 32 bytes each:
    /// `Geometry::tree_size` bytes.
    pub ciphertext_tree: &'a [u8],
    /// The nodes of the tree over the hashes of the blocks, 32 bytes each: `Geometry::tree_size`
    /// bytes.
    pub block_tree: &'a [u8],
    /// The hashes that lead from the share to the root over all shares, 32 bytes each, behind their
    /// nodes' numbers in two: `Geometry::hashes_size` bytes.
    pub share_hashes: &'a [u8],
    /// The extension block: at most `ueb::MAX_LENGTH` bytes.
    pub extension_block: &'a [u8],
}
