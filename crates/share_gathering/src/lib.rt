//! What is gathered of a file segment by segment, so that its shares can be made again piece by
//! piece: only hashes are kept.
#![tactic(auto)]

mod buffers;
mod code;
mod endings;
mod few;
mod finishing;
mod groups;
mod kept;
mod laws;
mod pieces;
mod shares;
mod wholes;

pub use buffers::Buffers;
pub use code::file_code;
pub use endings::digests_of;
pub use finishing::{Behind, Finished, Trees, build_trees, write_all_hashes};
pub use groups::{Group, segments_at_once};
pub use kept::{Kept, file_slots};
pub use laws::{blocks_or_clash, digests_in_order, one_by_one};
pub use shares::{ShareSoFar, add_leaves, add_segments, add_segments_beside, begin_shares};
pub use wholes::begin_wholes;
