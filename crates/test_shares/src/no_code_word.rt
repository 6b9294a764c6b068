//! A file whose shares all pass their checks, and are no code word.
//!
//! It has 112 bytes at 2 of 4, in two segments of two blocks of 28 bytes. The blocks of the first
//! segment are all the same, which is a code word. Those of the second are bytes 7 in the shares 0
//! and 1, and bytes 8 in the shares 2 and 3: the first two give a segment of bytes 7, the last two
//! one of bytes 8, and one of each yet another.

use crate::held::Held;
use cap_text::ReadCap;
use std::alloc::{AllocError, Global};
use tagged_hash::{Tag, pair, tagged};
use ueb::{Expect, Ueb};
use wire::message::NodeId;

/// The size of the file.
pub const SIZE: usize = 112;

/// The size of each of its segments.
pub const SEGMENT_SIZE: usize = 56;

// The numbers of a share's header: the version, the length of a block, the length of the data, and
// where the sections begin.
const HEADER: [u32; 9] = [1, 28, 56, 36, 92, 188, 284, 380, 482];

// The nodes of the share tree that the shares 0 and 1 carry, and those that 2 and 3 carry.
const NODES: [[u16; 3]; 2] = [[2, 3, 4], [1, 5, 6]];

/// What is needed to make the file's shares.
#[derive(Drop)]
pub struct NoCodeWord {
    /// The cap, by whoever made the file.
    pub cap: ReadCap,
    extension_block: Vec<u8>,
    told: u8,
}

impl NoCodeWord {
    /// The file whose ciphertext tree tells that the second segment is bytes `told`.
    pub fn new(alloc: Global, told: u8) -> Option<NoCodeWord> {
        let expect = Expect {
            needed: 2,
            total: 4,
            size: SIZE as u64,
        };
        let [root, _, _] = ciphertext_tree(told);
        let block = Ueb::new(&expect, SEGMENT_SIZE as u32, [1; 32], root, share_root());
        let extension_block = block.write(alloc).ok()?;
        let hash = tagged(Tag::ExtensionBlock, &extension_block);
        Some(NoCodeWord {
            cap: ReadCap::new([9; 16], hash, 2, 4, SIZE as u64).ok()?,
            extension_block,
            told,
        })
    }

    /// The share of a number below 4.
    pub fn share(&self, alloc: Global, number: u8) -> Result<Vec<u8>, AllocError> {
        let half = usize::from(number / 2 % 2);
        let mut draft = Draft {
            bytes: Vec::new(alloc),
            has_failed: false,
        };
        draft.put_header();
        draft.put(&[7; 28]);
        draft.put(&second_block(half));
        draft.put(&[0; 96]);
        draft.put_tree(&ciphertext_tree(self.told));
        draft.put_tree(&block_tree(half));
        draft.put_hashes(half);
        draft.put_block(&self.extension_block);
        draft.finish()
    }

    /// Shares of these numbers at these servers.
    pub fn held(&self, alloc: Global, placed: &[(NodeId, u8)]) -> Option<Vec<Held>> {
        let mut all = Vec::new(alloc);
        for (server, share) in placed {
            all.push(Held {
                server: *server,
                share: *share,
                bytes: self.share(alloc, *share).ok()?,
                gone: false,
            })
            .ok()?;
        }
        Some(all)
    }
}

// A share in the making, which may have found no memory.
#[derive(Drop)]
struct Draft {
    bytes: Vec<u8>,
    has_failed: bool,
}

impl Draft {
    fn put(&mut self, text: &[u8]) {
        if self.bytes.extend_from_slice(text).is_err() {
            self.has_failed = true;
        }
    }

    fn put_header(&mut self) {
        for number in &HEADER {
            self.put(&number.to_be_bytes());
        }
    }

    fn put_tree(&mut self, tree: &[[u8; 32]; 3]) {
        for node in tree {
            self.put(node);
        }
    }

    // The share hashes of a half, each after the number of its node.
    fn put_hashes(&mut self, half: usize) {
        let hashes = share_hashes(half);
        for i in 0..3 {
            self.put(&NODES[half % 2][i].to_be_bytes());
            self.put(&hashes[i]);
        }
    }

    // The extension block, after its length.
    fn put_block(&mut self, block: &[u8]) {
        let length = (block.len() % 5000) as u32;
        self.put(&length.to_be_bytes());
        self.put(block);
    }

    fn finish(self) -> Result<Vec<u8>, AllocError> {
        if self.has_failed {
            Err(AllocError)
        } else {
            Ok(self.bytes)
        }
    }
}

// The block of the second segment, in the shares of this half.
fn second_block(half: usize) -> [u8; 28] {
    if half == 0 { [7; 28] } else { [8; 28] }
}

// A tree of two leaves.
fn tree(left: [u8; 32], right: [u8; 32]) -> [[u8; 32]; 3] {
    [pair(&left, &right), left, right]
}

fn ciphertext_tree(told: u8) -> [[u8; 32]; 3] {
    tree(
        tagged(Tag::CiphertextSegment, &[7; SEGMENT_SIZE]),
        tagged(Tag::CiphertextSegment, &[told; SEGMENT_SIZE]),
    )
}

fn block_tree(half: usize) -> [[u8; 32]; 3] {
    tree(
        tagged(Tag::Block, &[7; 28]),
        tagged(Tag::Block, &second_block(half)),
    )
}

// The root of the block tree of each share of a half.
fn block_root(half: usize) -> [u8; 32] {
    let [root, _, _] = block_tree(half);
    root
}

// The node of the share tree above the two shares of a half.
fn half_root(half: usize) -> [u8; 32] {
    let leaf = block_root(half);
    pair(&leaf, &leaf)
}

fn share_root() -> [u8; 32] {
    pair(&half_root(0), &half_root(1))
}

// The node above the other half, and the leaves of this one.
fn share_hashes(half: usize) -> [[u8; 32]; 3] {
    let leaf = block_root(half);
    [half_root(1 - half % 2), leaf, leaf]
}
