//! Merkle hash trees of Tahoe-LAFS immutable files.
//!
//! Leaves and nodes are hashes of 32 bytes. The leaves are padded to a power of two, position i by
//! the empty leaf i, and a node above them is the tagged hash of its two children. Nodes are
//! numbered row by row from the root, which is 0, so the children of node i are 2 i + 1 and 2 i +
//! 2.
#![tactic(auto)]

mod beside;
mod error;
mod nodes;
mod numbers;
mod one_tree;
mod padding;
mod partial;
mod path;
mod rows;
mod taking;
mod tree;

pub use error::OfferError;
pub use nodes::{are_tree_nodes, are_tree_nodes_beside};
pub use numbers::{height, needed_number, node_number, sibling, sibling_number};
pub use one_tree::{known_nodes_are_own, siblings_agree, trees_agree};
pub use padding::Padding;
pub use partial::{
    Partial, known_leaves_give_the_root, known_leaves_lead, known_paths_are_known,
    own_nodes_are_consistent,
};
pub use path::{check_path, leaf_agrees, own_paths_are_within, paths_agree, siblings_lead};
pub use tree::Tree;
