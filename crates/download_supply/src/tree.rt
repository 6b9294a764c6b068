//! The trees that are read in pieces.

ghost use Rattle.std.specs.Prelude.{◌≡◌};
ghost use Rattle.download_supply.specs.Batch.{part_of};

use download_parts::{NodePiece, Part};

/// A hash tree over the segments, which a share has a copy of.
#[derive(Clone, Copy, PartialEq, Eq)]
pub(crate) enum Tree {
    /// The one over the share's blocks.
    Blocks,
    /// The one over the ciphertext's segments.
    Ciphertext,
}

impl Tree {
    /// A piece of it as a part of a plan.
    pub(crate) fn part(self, level: u32, index: u32) -> Part
        ensures { result ≡ part_of self level index }
    {
        let piece = NodePiece { level, index };
        match self {
            Tree::Blocks => Part::BlockTree(piece),
            Tree::Ciphertext => Part::CiphertextTree(piece),
        }
    }
}
