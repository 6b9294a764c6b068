//! Shares of an immutable file: how the file is cut up, and how a share stands in its bytes.
//!
//! A `Geometry` says how a file of some size is cut into segments, these into blocks, and how long
//! each part of a share is. A share is a header, with a version and eight numbers, and six
//! sections: its blocks, a tree that is no longer used, the ciphertext tree, the block tree, the
//! share hashes and the extension block behind its length. There are two layouts, those of
//! Tahoe-LAFS: numbers have four bytes in the first and eight in the second, which is used exactly
//! where a number does not fit four bytes.
//!
//! `ShareView` reads a share whose geometry is known, `locate_ueb` finds the extension block of one
//! whose geometry is not, `Offsets` tells where the sections stand by a header alone, and
//! `ShareWriter` writes a share to any writer. Each refusal is the first fault.
#![tactic(auto)]

mod error;
mod geometry;
mod layout;
mod offsets;
mod reader;
mod share_hashes;
mod view;
mod writer;

pub use error::{LayoutError, Section};
pub use geometry::{Geometry, geometry_gives_itself, segments_are_pieces, segments_have_lengths};
pub use layout::{Layout, number_at};
pub use offsets::Offsets;
pub use reader::{
    has_header, headers_tell_their_offsets, locate_ueb, shares_have_one_reading,
    shares_locate_their_blocks,
};
pub use share_hashes::carries_numbers;
pub use view::ShareView;
pub use writer::{ShareWriter, sections_make_a_share};
