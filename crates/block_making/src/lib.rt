//! The blocks of a file's shares, made again from the file where only their hashes are kept,
//! and kept between the pieces of an upload.
#![tactic(auto)]

mod encoder;
mod error;
mod maker;
mod parts;
mod slot;
mod slots;

pub use encoder::{Encoder, encode_lane, lane_of};
pub use error::PieceError;
pub use maker::BlockMaker;
pub use parts::put_part;
pub use slots::{BlockSlots, MAX_ROOM, MAX_SLOTS, PIECES_ROOM, window_for};
