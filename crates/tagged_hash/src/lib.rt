//! The tagged hashes of Tahoe-LAFS immutable files.
//!
//! Every hash is SHA-256 (FIPS 180-4) applied twice, to a text that begins with the netstring of a
//! tag, so that hashes of different uses never share an input by accident. A netstring of a text is
//! its length in decimal, `:`, the text and `,`. No call here takes memory.
#![tactic(auto)]

ghost use Rattle.std.specs.Prelude.{◌≡◌};
ghost use Rattle.tagged_hash.specs.ConvergentKey.{IsSecret, convergent_key_of};
ghost use Rattle.tagged_hash.specs.TaggedHash.{HashesHave32Bytes, tagged_hash, node_hash};
ghost use Rattle.tagged_hash.specs.TaggedHash.{empty_leaf_hash, storage_index_of, share_digest};

use input::{HashInput, first_half};

mod convergence;
mod decimal;
mod eight;
mod finishing;
mod hasher;
mod input;
mod row;
mod tag;
mod waiting;
mod wholes;

pub use convergence::KeyHasher;
pub use decimal::{DecimalText, read_decimal};
pub use eight::update_eight;
pub use finishing::{Endings, finish_digests};
pub use hasher::TaggedHasher;
pub use row::{WORTH_LANES, pieces_from, tagged_eight, tagged_pieces};
pub use tag::Tag;
pub use waiting::{WaitingHasher, hashed_eight};
pub use wholes::{HashedBlocks, WholeHashers};

/// The hash of `message` under `tag`.
pub fn tagged(tag: Tag, message: &[u8]) -> [u8; 32]
    ensures { result ≡ tagged_hash tag message.now }
{
    let mut hasher = TaggedHasher::new(tag);
    hasher.update(message);
    hasher.finish()
}

/// The hash of an inner node of a tree, from the hashes of its left and right child.
pub fn pair(left: &[u8; 32], right: &[u8; 32]) -> [u8; 32]
    ensures { result ≡ node_hash left.now right.now }
{
    let mut input = HashInput::new();
    input.push(Tag::TreeNode.netstring());
    input.push_netstring(left);
    input.push_netstring(right);
    input.finish()
}

/// The leaf that pads a tree at position `i`: the hash of `i` in decimal.
pub fn empty_leaf(i: u32) -> [u8; 32]
    ensures { result ≡ empty_leaf_hash i }
{
    let position = DecimalText::new(u64::from(i));
    tagged(Tag::EmptyLeaf, position.as_bytes())
}

/// The storage index of a file's key: the first 16 bytes of the key's hash.
pub fn storage_index(key: &[u8; 16]) -> [u8; 16]
    ensures { result ≡ storage_index_of key.now }
{
    first_half(&tagged(Tag::StorageIndex, key))
}

/// The digest of a whole share, as a server keeps it.
pub fn share_digest(share: &[u8]) -> [u8; 32]
    ensures { result ≡ share_digest share.now }
{
    tagged(Tag::WholeShare, share)
}

/// The convergent key of `file`: equal files, secrets and encodings have equal keys. Any `k` of the
/// `n` shares give the file back, whose segments have `segment_size` bytes. The secret, which may
/// be empty, has at most 64 bytes.
pub fn convergent_key(k: u16, n: u16, segment_size: u32, secret: &[u8], file: &[u8]) -> [u8; 16]
    requires { IsSecret secret.now }
    ensures { result ≡ convergent_key_of k n segment_size secret.now file.now }
{
    let mut hasher = KeyHasher::new(k, n, segment_size, secret);
    hasher.update(file);
    hasher.finish()
}

/// A law of the definitions: every hash has 32 bytes. The law is the contract; the call does
/// nothing.
pub fn hashes_have_32_bytes()
    ensures { HashesHave32Bytes }
{}
