//! Tagged hashes of eight texts, each with its own lengths, side by side.

ghost use Rattle.std.specs.Prelude.{◌<◌, ◌++◌, ℕ, List};
ghost use Rattle.sha2_lanes.specs.Lanes.{text};
ghost use Rattle.tagged_hash.specs.declared.tag.Tag.{Tag};
ghost use Rattle.tagged_hash.specs.TaggedHasher.{HoldsIn};

use crate::hasher::TaggedHasher;

/// Adds to each of eight texts its piece, as `TaggedHasher::update` does: side by side as far as
/// all pieces have whole groups of 512 bytes. The texts and the pieces have lengths of their own.
pub fn update_eight(hashers: &mut [TaggedHasher; 8], pieces: &[&[u8]; 8])
    ensures { (j : ℕ) (tag : Tag) (given : List ℕ) → j < 8 → HoldsIn hashers.old j tag given
        → HoldsIn hashers.new j tag (given ++ text pieces.now j) }
{
    let mut streams = [
        hashers[0].input.stream(),
        hashers[1].input.stream(),
        hashers[2].input.stream(),
        hashers[3].input.stream(),
        hashers[4].input.stream(),
        hashers[5].input.stream(),
        hashers[6].input.stream(),
        hashers[7].input.stream(),
    ];
    sha2_lanes::update_eight(&mut streams, pieces);
    let [a, b, c, d, e, f, g, h] = streams;
    *hashers = [
        TaggedHasher::of(a),
        TaggedHasher::of(b),
        TaggedHasher::of(c),
        TaggedHasher::of(d),
        TaggedHasher::of(e),
        TaggedHasher::of(f),
        TaggedHasher::of(g),
        TaggedHasher::of(h),
    ];
}
