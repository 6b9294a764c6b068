//! How far the parts of a plan are passed.

ghost use Rattle.std.specs.Prelude.{◌≡◌, ◌+◌, ◌^◌, ◌<◌, length};
ghost use Rattle.download_supply.specs.Batch.{levels_of};
ghost use Rattle.download_supply.specs.Cursors.{IsNext, cursor_at, index_of, no_parts, passed};

use crate::tree::Tree;
use download_parts::Part;

/// How far the parts of a plan are passed, section by section, and of a tree level by level: of
/// each the parts before the cursor are.
#[derive(Clone, Copy, Debug, PartialEq, Eq)]
pub struct Cursors {
    /// Whether the share hashes are.
    pub share_hashes: bool,
    /// The next piece of each level of the block tree.
    pub block_tree: [u32; 3],
    /// The next piece of each level of the ciphertext tree.
    pub ciphertext_tree: [u32; 3],
    /// The next piece of the data.
    pub data_piece: u32,
}

impl Cursors {
    /// No part is passed.
    pub fn none() -> Cursors
        ensures { result ≡ no_parts }
    {
        Cursors {
            share_hashes: false,
            block_tree: [0; 3],
            ciphertext_tree: [0; 3],
            data_piece: 0,
        }
    }

    /// The cursor of a level of a tree.
    pub(crate) fn of_level(&self, tree: Tree, level: u32) -> u32
        requires { level < length (levels_of tree self.now) }
        ensures { result ≡ cursor_at (levels_of tree self.now) level }
    {
        match tree {
            Tree::Blocks => self.block_tree[level as usize],
            Tree::Ciphertext => self.ciphertext_tree[level as usize],
        }
    }

    /// Passes the part that is the next of its section or level.
    pub(crate) fn pass(&mut self, part: &Part)
        requires next { IsNext self.old part.now }
        requires low { index_of part.now + 1 < 2 ^ 32 }
        ensures { self.new ≡ passed self.old part.now }
    {
        match part {
            Part::ShareHashes => self.share_hashes = true,
            Part::BlockTree(piece) => self.block_tree[piece.level as usize] = piece.index + 1,
            Part::CiphertextTree(piece) => {
                self.ciphertext_tree[piece.level as usize] = piece.index + 1
            }
            Part::Data(index) => self.data_piece = *index + 1,
        }
    }
}
