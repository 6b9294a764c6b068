//! Tagged hashes of data whose last piece may wait, to be hashed beside others.

ghost use Rattle.std.proofs.Common.{Bor};
ghost use Rattle.std.specs.Prelude.{◌≡◌, ◌<◌, ◌++◌, ℕ, List, [], Some, slice_get};
ghost use Rattle.sha2_lanes.specs.Stream.{HasMessage, Taken, taken_by, with_more};
ghost use Rattle.tagged_hash.specs.declared.hasher.TaggedHasher.{TaggedHasher};
ghost use Rattle.tagged_hash.specs.declared.tag.Tag.{Tag};
ghost use Rattle.tagged_hash.specs.TaggedHash.{tagged_hash};
ghost use Rattle.tagged_hash.specs.TaggedHasher.{Holds, IsGiven, input_of};

use crate::hasher::TaggedHasher;
use crate::tag::Tag;
use sha2_lanes::{Sha256Stream, update_eight};
use std::alloc::Global;
use std::marker::Model;

/// A tagged hash of data that comes in pieces, of which contracts see what the hash input comes to
/// so far. The last piece waits: it is hashed when the next one comes, or before that.
#[derive(Drop)]
pub struct WaitingHasher {
    hasher: TaggedHasher,
    // What is still to be hashed.
    waiting: Vec<u8>,
}

impl Model for WaitingHasher {
    ghost use Rattle.sha2_lanes.specs.Stream.{Taken, with_more};
    ghost use Rattle.tagged_hash.specs.TaggedHasher.{HasData, input_of};

    ghost Value = { Taken };

    ghost view = { λ w. with_more (input_of w.hasher) w.waiting.items };

    ghost invariant = { λ w. ∥ HasData w.hasher ∥₁ };
}

impl WaitingHasher {
    /// The hasher of no data under `tag`.
    pub fn new(alloc: Global, tag: Tag) -> WaitingHasher
        ensures { IsGiven result tag [] }
    {
        WaitingHasher {
            hasher: TaggedHasher::new(tag),
            waiting: Vec::new(alloc),
        }
    }

    /// Adds `piece` to what was given before.
    pub fn update(&mut self, piece: &[u8])
        ensures more { self.new ≡ with_more self.old piece.now }
        ensures given { (tag : Tag) (given : List ℕ) → IsGiven self.old tag given
            → IsGiven self.new tag (given ++ piece.now) }
    {
        hash_waiting(&mut self.hasher, &mut self.waiting);
        if self.waiting.extend_from_slice(piece).is_err() {
            self.hasher.update(piece);
        }
    }

    /// Hashes what waits.
    pub fn hash(&mut self)
        ensures { self.new ≡ self.old }
    {
        hash_waiting(&mut self.hasher, &mut self.waiting);
    }

    // A hasher of what is hashed so far, and what waits.
    fn parts(&self) -> (Sha256Stream, &[u8])
        ensures whole { with_more (taken_by result.0) result.1.now ≡ self.now }
        ensures some { ∥ HasMessage result.0 ∥₁ }
    {
        (self.hasher.input.stream(), &self.waiting)
    }

    /// What waited was hashed elsewhere, as by `hashed_eight`, which made this hasher.
    pub fn take_over(&mut self, hashed: TaggedHasher)
        requires { input_of hashed ≡ self.old }
        ensures { self.new ≡ self.old }
    {
        self.hasher = hashed;
        self.waiting.clear();
    }

    /// Does anything wait?
    pub fn has_waiting(&self) -> bool {
        !self.waiting.is_empty()
    }

    /// The hash of all data given.
    pub fn finish(mut self) -> [u8; 32]
        ensures { (tag : Tag) (given : List ℕ) → IsGiven self tag given
            → result ≡ tagged_hash tag given }
    {
        hash_waiting(&mut self.hasher, &mut self.waiting);
        self.hasher.finish()
    }
}

/// The hashers that eight come to once what waits is hashed, side by side. It is for each of them
/// to take its own over.
pub fn hashed_eight(hashers: &[&WaitingHasher; 8]) -> [TaggedHasher; 8]
    ensures { (j : ℕ) (old : Bor Taken) (new : TaggedHasher) → j < 8
        → slice_get hashers.now j ≡ Some old → slice_get result j ≡ Some new
        → input_of new ≡ old.now }
{
    let (s0, p0) = hashers[0].parts();
    let (s1, p1) = hashers[1].parts();
    let (s2, p2) = hashers[2].parts();
    let (s3, p3) = hashers[3].parts();
    let (s4, p4) = hashers[4].parts();
    let (s5, p5) = hashers[5].parts();
    let (s6, p6) = hashers[6].parts();
    let (s7, p7) = hashers[7].parts();
    let mut streams = [s0, s1, s2, s3, s4, s5, s6, s7];
    update_eight(&mut streams, &[p0, p1, p2, p3, p4, p5, p6, p7]);
    let [a, b, c, d, e, f, g, h] = streams;
    [
        TaggedHasher::of(a),
        TaggedHasher::of(b),
        TaggedHasher::of(c),
        TaggedHasher::of(d),
        TaggedHasher::of(e),
        TaggedHasher::of(f),
        TaggedHasher::of(g),
        TaggedHasher::of(h),
    ]
}

// Gives a hasher what waits for it.
fn hash_waiting(hasher: &mut TaggedHasher, waiting: &mut Vec<u8>)
    ensures given { (tag : Tag) (given : List ℕ) → Holds hasher.old tag given
        → Holds hasher.new tag (given ++ waiting.old.items) }
    ensures none { waiting.new.items ≡ [] }
{
    hasher.update(waiting);
    waiting.clear();
}
