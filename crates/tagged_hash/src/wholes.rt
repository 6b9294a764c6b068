//! The digests of whole shares, whose bytes come in pieces: those of seven shares are made side by
//! side, and another text may ride beside them.

ghost use Rattle.std.specs.Prelude.{◌≡◌, ◌≢◌, ◌+◌, ◌<◌, ◌≤◌, ◌++◌, ℕ, List, []};
ghost use Rattle.std.specs.Prelude.{length, min, slice_index_or, take};
ghost use Rattle.sha2_lanes.specs.Lanes.{text};
ghost use Rattle.tagged_hash.specs.TaggedHash.{tagged_hash};
ghost use Rattle.tagged_hash.specs.TaggedHasher.{Holds, HoldsIn};
ghost use Rattle.tagged_hash.specs.declared.tag.Tag.{Tag};
ghost use Rattle.tagged_hash.specs.declared.tag.Tag.TheVariants.{Block, WholeShare};
ghost use Rattle.tagged_hash.specs.Wholes.{IsGivenAt};

use crate::eight::update_eight;
use crate::hasher::TaggedHasher;
use crate::tag::Tag;
use std::mem;

/// The hashers of at most seven shares, whose numbers follow one another, each in its lane of
/// eight. Another text may ride in the last.
#[derive(Drop)]
pub struct WholeHashers {
    hashers: [TaggedHasher; 8],
    // How many shares there are.
    count: usize,
}

/// What was hashed beside the blocks that at most three whole shares were given.
#[derive(Drop)]
pub struct HashedBlocks {
    /// The hash of each block.
    pub blocks: [[u8; 32]; 3],
    /// How much of another text was given to its hasher.
    pub len: usize,
}

impl WholeHashers {
    /// The hashers of so many shares, or of seven where there are more: they were given no byte
    /// yet.
    pub fn new(count: usize) -> WholeHashers
        ensures { (j : ℕ) → j < 7 → j < count → IsGivenAt result j [] }
    {
        WholeHashers {
            hashers: [
                TaggedHasher::new(Tag::WholeShare),
                TaggedHasher::new(Tag::WholeShare),
                TaggedHasher::new(Tag::WholeShare),
                TaggedHasher::new(Tag::WholeShare),
                TaggedHasher::new(Tag::WholeShare),
                TaggedHasher::new(Tag::WholeShare),
                TaggedHasher::new(Tag::WholeShare),
                TaggedHasher::new(Tag::WholeShare),
            ],
            count,
        }
    }

    /// Gives each share its piece, and the lanes that are nobody's the others.
    pub fn update(&mut self, pieces: &[&[u8]; 8])
        ensures { (j : ℕ) (given : List ℕ) → j < 7 → IsGivenAt self.old j given
            → IsGivenAt self.new j (given ++ text pieces.now j) }
    {
        if self.count == 1 {
            self.hashers[0].update(pieces[0]);
        } else {
            update_eight(&mut self.hashers, pieces);
        }
    }

    /// Gives each share its piece, and beside them another hasher the beginning of its text, as
    /// long as the first piece. Says how much that is: one share alone has nothing beside it.
    pub fn update_beside(
        &mut self,
        pieces: &[&[u8]; 8],
        other: &mut TaggedHasher,
        rest: &[u8],
    ) -> usize
        ensures shares { (j : ℕ) (given : List ℕ) → j < 7 → IsGivenAt self.old j given
            → IsGivenAt self.new j (given ++ text pieces.now j) }
        ensures within { result ≤ length rest.now }
        ensures other { (tag : Tag) (given : List ℕ) → Holds other.old tag given
            → Holds other.new tag (given ++ take result rest.now) }
    {
        if self.count == 1 {
            self.update(pieces);
            return 0;
        }
        give_beside(&mut self.hashers, pieces, other, rest)
    }

    /// Gives each of at most three shares a block, and another hasher the beginning of its text,
    /// as long as the first block. Beside them each block is hashed by itself, in a lane that is
    /// nobody's.
    pub fn update_hashing(
        &mut self,
        blocks: &[&[u8]; 3],
        other: &mut TaggedHasher,
        rest: &[u8],
    ) -> HashedBlocks
        ensures shares { (j : ℕ) (given : List ℕ) → j < 3 → IsGivenAt self.old j given
            → IsGivenAt self.new j (given ++ text blocks.now j) }
        ensures blocks { (j : ℕ) → j < 3
            → slice_index_or result.blocks j [] ≡ tagged_hash Block (text blocks.now j) }
        ensures len { result.len ≡ min (length (text blocks.now 0)) (length rest.now) }
        ensures other { (tag : Tag) (given : List ℕ) → Holds other.old tag given
            → Holds other.new tag (given ++ take result.len rest.now) }
    {
        begin_blocks(&mut self.hashers);
        let len = give_beside(&mut self.hashers, &twice(blocks), other, rest);
        HashedBlocks {
            blocks: finish_blocks(&mut self.hashers),
            len,
        }
    }

    /// Gives all shares the same bytes.
    pub fn update_all(&mut self, bytes: &[u8])
        ensures { (j : ℕ) (given : List ℕ) → j < 7 → IsGivenAt self.old j given
            → IsGivenAt self.new j (given ++ bytes.now) }
    {
        self.update(&[bytes; 8]);
    }

    /// The digests of the shares. What stands behind theirs is nobody's.
    pub fn finish(self) -> [[u8; 32]; 7]
        ensures { (j : ℕ) (given : List ℕ) → j < 7 → IsGivenAt self j given
            → slice_index_or result j [] ≡ tagged_hash WholeShare given }
    {
        let [a, b, c, d, e, f, g, _last] = self.hashers;
        [
            a.finish(),
            b.finish(),
            c.finish(),
            d.finish(),
            e.finish(),
            f.finish(),
            g.finish(),
        ]
    }
}

// Gives seven hashers their pieces, and beside them another one the beginning of its text, as long
// as the first piece. Says how much that is.
fn give_beside(
    hashers: &mut [TaggedHasher; 8],
    pieces: &[&[u8]; 8],
    other: &mut TaggedHasher,
    rest: &[u8],
) -> usize
    ensures seven { (j : ℕ) (tag : Tag) (given : List ℕ) → j < 7 → HoldsIn hashers.old j tag given
        → HoldsIn hashers.new j tag (given ++ text pieces.now j) }
    ensures len { result ≡ min (length (text pieces.now 0)) (length rest.now) }
    ensures other { (tag : Tag) (given : List ℕ) → Holds other.old tag given
        → Holds other.new tag (given ++ take result rest.now) }
{
    let len = pieces[0].len().min(rest.len());
    if len == 0 {
        update_eight(hashers, pieces);
    } else {
        update_seven(hashers, pieces, other, &rest[..len]);
    }
    len
}

// Gives seven hashers their pieces, and beside them another one its own, in the place of the last.
fn update_seven(
    hashers: &mut [TaggedHasher; 8],
    pieces: &[&[u8]; 8],
    other: &mut TaggedHasher,
    piece: &[u8],
)
    ensures seven { (j : ℕ) (tag : Tag) (given : List ℕ) → j < 7 → HoldsIn hashers.old j tag given
        → HoldsIn hashers.new j tag (given ++ text pieces.now j) }
    ensures other { (tag : Tag) (given : List ℕ) → Holds other.old tag given
        → Holds other.new tag (given ++ piece.now) }
{
    mem::swap(&mut hashers[7], other);
    update_eight(hashers, &with_last(pieces, piece));
    mem::swap(&mut hashers[7], other);
}

// The pieces with another one in the last lane.
fn with_last<'a>(pieces: &[&'a [u8]; 8], last: &'a [u8]) -> [&'a [u8]; 8]
    ensures others { (j : ℕ) → j < 7 → text result j ≡ text pieces.now j }
    ensures last { text result 7 ≡ last.now }
{
    [
        pieces[0], pieces[1], pieces[2], pieces[3], pieces[4], pieces[5], pieces[6], last,
    ]
}

// Puts new hashers of blocks into the three lanes behind those of three shares.
fn begin_blocks(hashers: &mut [TaggedHasher; 8])
    ensures shares { (j : ℕ) (tag : Tag) (given : List ℕ) → j < 3 → HoldsIn hashers.old j tag given
        → HoldsIn hashers.new j tag given }
    ensures blocks { (j : ℕ) → j < 3 → HoldsIn hashers.new (3 + j) Block [] }
{
    for lane in 3..6 {
        hashers[lane] = TaggedHasher::new(Tag::Block);
    }
}

// The blocks of three shares in the lanes of the shares, and in those behind these. The others have
// the first block.
fn twice<'a>(blocks: &[&'a [u8]; 3]) -> [&'a [u8]; 8]
    ensures shares { (j : ℕ) → j < 3 → text result j ≡ text blocks.now j }
    ensures blocks { (j : ℕ) → j < 3 → text result (3 + j) ≡ text blocks.now j }
{
    let [a, b, c] = *blocks;
    [a, b, c, a, b, c, a, a]
}

// The hashes of the blocks that the three hashers behind those of three shares were given.
fn finish_blocks(hashers: &mut [TaggedHasher; 8]) -> [[u8; 32]; 3]
    ensures shares { (j : ℕ) (tag : Tag) (given : List ℕ) → j < 3 → HoldsIn hashers.old j tag given
        → HoldsIn hashers.new j tag given }
    ensures blocks { (j : ℕ) (given : List ℕ) → j < 3 → HoldsIn hashers.old (3 + j) Block given
        → slice_index_or result j [] ≡ tagged_hash Block given }
{
    [
        finish_at(hashers, 3),
        finish_at(hashers, 4),
        finish_at(hashers, 5),
    ]
}

// The hash of what one of eight hashers was given. In its lane stands a new one.
fn finish_at(hashers: &mut [TaggedHasher; 8], lane: usize) -> [u8; 32]
    requires { lane < 8 }
    ensures others { (j : ℕ) (tag : Tag) (given : List ℕ) → j ≢ lane
        → HoldsIn hashers.old j tag given → HoldsIn hashers.new j tag given }
    ensures hash { (tag : Tag) (given : List ℕ) → HoldsIn hashers.old lane tag given
        → result ≡ tagged_hash tag given }
{
    mem::replace(&mut hashers[lane], TaggedHasher::new(Tag::Block)).finish()
}
