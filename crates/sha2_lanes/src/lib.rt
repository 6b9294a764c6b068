//! SHA-256 (FIPS 180-4), with vectors of eight words.
//!
//! `double_sha256_of_eight` hashes eight messages of one length side by side. `Sha256Stream` hashes
//! one message that comes in pieces: it makes the schedules of eight blocks in a row side by side,
//! and runs their rounds one block after the other. `update_eight` gives eight of them a piece
//! each, side by side. The definition is that of the crate `sha2`. No call takes memory.
#![tactic(auto)]

ghost use Rattle.std.specs.Prelude.{◌≡◌, ◌<◌, ◌^◌, ◌++◌, All, length, map};
ghost use Rattle.sha2.specs.Sha256.{sha256};

use digest::{digests, second};
use message::hashes;

mod digest;
mod group;
mod message;
mod round;
mod schedule;
mod side_by_side;
mod stream;
mod words;

pub use side_by_side::update_eight;
pub use stream::Sha256Stream;

/// SHA-256, applied twice, of `prefix` with each of eight messages behind it. The messages have
/// `len` bytes each, and the prefix has fewer than 2^32.
pub fn double_sha256_of_eight(prefix: &[u8], messages: &[&[u8]; 8], len: usize) -> [[u8; 32]; 8]
    requires prefix { length prefix.now < 2 ^ 32 }
    requires len { len < 2 ^ 63 }
    requires messages { All (λ m. length m.now ≡ len) messages.now }
    ensures { result ≡ map (λ m. sha256 (sha256 (prefix.now ++ m.now))) messages.now }
{
    digests(second(hashes(prefix, messages, len)))
}
