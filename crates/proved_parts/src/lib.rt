//! Segments of a file of Tahoe-LAFS: decoded from blocks, and proved by a cap, whoever sends them.
//!
//! `decode_segment` decodes one from as many blocks as are needed.
//!
//! Evidence is an extension block and segments of ciphertext, each with the path from its hash to
//! the root of the ciphertext tree. `Evidence::proves` says whether a cap proves it. For one cap
//! and one number there are no two proved segments, but where two hash inputs have one hash:
//! `find_clash` gives these.
#![tactic(auto)]

mod bytes;
mod clash;
mod decoding;
mod evidence;
mod laws;

pub use bytes::{Bytes, Path};
pub use clash::find_clash;
pub use decoding::decode_segment;
pub use evidence::{Evidence, EvidencePart, PartList};
pub use laws::{
    blocks_say_one_thing, files_of_caps_have_parts, own_parts_are_within, parts_agree,
    parts_are_of_the_file,
};
