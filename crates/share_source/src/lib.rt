//! The padded ciphertext of a file as a source, decoded from good shares of it while it is read.
//!
//! Whoever brings the bytes of shares is not trusted. An extension block counts where it is the
//! cap's, and the leaves of a block tree count where the tree over them is the one to which the
//! share's own hashes lead.
#![tactic(auto)]

mod block;
mod bytes;
mod candidates;
mod choosing;
mod hashes;
mod held;
mod laws;
mod leaf_reading;
mod leaves;
mod place;
mod reading;
mod segment;
mod source;

pub use block::{ReadBlock, read_block};
pub use bytes::ShareBytes;
pub use laws::reads_agree;
pub use leaves::read_leaves;
pub use source::ShareSource;
