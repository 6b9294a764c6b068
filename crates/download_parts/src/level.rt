//! What is read of a level of a tree.

/// What is read of a level: nodes of a row, counted from the root, which is row 0.
#[derive(Clone, Copy, Debug, PartialEq, Eq)]
pub struct Level {
    /// The row.
    pub row: u32,
    /// The position of the first node in the row.
    pub first: u32,
    /// The offset behind the last.
    pub end: u32,
}
