//! The parts of a share that a download reads, and what it knows of a file's hash trees by them.
//!
//! A `Plan` is which bytes of a share a download reads, once the file's extension block is known: a
//! function of the geometry and of the segments that are wanted. Nothing of it depends on answers.
//! The share hashes are read whole. Of the block tree and of the ciphertext tree levels of rows are
//! read, in groups that prove themselves by the level above. Of the blocks those of the wanted
//! segments are read: as many together as a read has room for, or a larger one alone, in several
//! reads. All parts of a plan are disjoint.
//!
//! `FileTrees` are the share tree and the ciphertext tree, whose roots the extension block tells,
//! and a `BlockTree` is that of one share, whose root is a leaf of the share tree. All nodes that
//! are known lead to these roots. Bytes of a share are taken whole where they go with what is
//! known, and else refused whole.
#![tactic(auto)]

mod block_tree;
mod error;
mod file_trees;
mod level;
mod offers;
mod part;
mod partial;
mod plan;
mod plan_laws;
mod tree_laws;

pub use block_tree::BlockTree;
pub use error::TreeFault;
pub use file_trees::FileTrees;
pub use level::Level;
pub use part::{DataPieces, NodePiece, Nodes, Part, Read};
pub use plan::{MAX_NODES, MAX_READ, Plan, constants_are_the_limits};
pub use plan_laws::{
    levels_hold_groups, parts_are_apart, parts_hold_the_blocks, parts_lie_inside,
    pieces_are_groups, pieces_are_under_pieces, pieces_end_with_blocks,
};
pub use tree_laws::{block_roots_lead, leaves_lead};
