//! Segments of a file whose extension block is accepted: decoded from blocks, proved by the
//! ciphertext tree, decrypted, and handed out as pieces in order.
//!
//! `Decoding` makes a segment of the blocks of as many shares as are needed. `Handout` has the
//! file's hash trees. It takes a segment where its hash is the leaf that the ciphertext tree tells,
//! and makes a piece of its wanted bytes.
//!
//! A `Group` has the segments that are made of the blocks of the same readers, one after another:
//! which readers these are, and which segments. Segments are made by the last group: one, or eight
//! in a row.
#![tactic(auto)]

mod decoding;
mod group;
mod group_row;
mod handout;
mod laws;
mod piece;
mod row;

pub use decoding::Decoding;
pub use group::{Group, is_last_of, make_segment, make_segments, push_group};
pub use group_row::block_hashes;
pub use handout::Handout;
pub use laws::{
    blocks_lead, next_segments_follow, no_code_words, pieces_agree, pieces_are_of_the_file,
    proved_segments_stay, segments_are_unique, trees_grow,
};
pub use piece::Piece;
