//! What makes the blocks of a share again.

ghost use Rattle.std.specs.Prelude.{◌≡◌, ◌≢◌, ◌+◌, ◌-◌, ◌*◌, ◌<◌, ◌≤◌, ◌^◌, ◌++◌, ℕ, List, [], All};
ghost use Rattle.std.specs.Prelude.{drop, false, length, replicate, slice_index_or, take, true};
ghost use Rattle.std.specs.Prelude.{IsErrOf, OnOk};
ghost use Rattle.tagged_hash.specs.TaggedHash.{tagged_hash};
ghost use Rattle.tagged_hash.specs.declared.tag.Tag.TheVariants.{Block};
ghost use Rattle.share_layout.specs.Geometry.{block_size, segment_count};
ghost use Rattle.share_layout.specs.Pieces.{block_length};
ghost use Rattle.zfec_code.specs.ShareValue.{share_block};
ghost use Rattle.file_encoding.specs.Encoding.{padded_segment};
ghost use Rattle.sources.specs.Change.{DiffersFromFile, HasEndedEarly};
ghost use Rattle.sources.specs.Source.{HasFailedMore};
ghost use Rattle.block_making.specs.Making.{ArePut, AreSlots, HasOtherBlock, HaveBlocks, IsBlock};
ghost use Rattle.block_making.specs.Making.{IsBlockPut, IsMaking, IsSegmentRead, WereRead, leaf_at};
ghost use Rattle.block_making.specs.Making.{ciphertext_from, making_with};

use crate::encoder::{Encoder, encode_lane, lane_of};
use crate::error::PieceError;
use crate::parts::put_part;
use crate::slots::BlockSlots;
use aes_ctr::Aes128;
use merkle::Tree;
use share_layout::Geometry;
use sources::{Source, read_part};
use std::marker::Model;
use tagged_hash::{Tag, tagged_pieces};

/// What makes the blocks of a share of a file again, and with them those of other shares.
#[derive(Drop)]
pub struct BlockMaker<'a> {
    geometry: Geometry,
    encoder: &'a Encoder,
    trees: &'a [Tree],
    share: u8,
}

impl<'a> Model for BlockMaker<'a> {
    ghost use Rattle.block_making.specs.Making.{IsMaking, Making, making_with};

    ghost Value = { Making };

    ghost view = { λ m. making_with m.geometry m.encoder.now.cipher m.trees.now m.share };

    ghost invariant = { λ m.
        IsMaking (making_with m.geometry m.encoder.now.cipher m.trees.now m.share)
        m.encoder.now.code };
}

impl<'a> BlockMaker<'a> {
    /// What makes the blocks of a share, by the trees over the blocks of all shares.
    pub fn new(
        geometry: Geometry,
        encoder: &'a Encoder,
        trees: &'a [Tree],
        share: u8,
    ) -> BlockMaker<'a>
        requires { IsMaking (making_with geometry encoder.now.cipher trees.now share)
            encoder.now.code }
        ensures { result ≡ making_with geometry encoder.now.cipher trees.now share }
    {
        BlockMaker {
            geometry,
            encoder,
            trees,
            share,
        }
    }
}

impl BlockMaker<'_> {
    /// Writes the blocks that a piece of the share meets, and tells the slots where the share goes
    /// on. A block that no slot holds is made of its segment, and with it those of other shares
    /// that want it next.
    ///
    /// The two buffers have room for a segment with its padding, and for eight blocks side by side.
    pub fn put_blocks<S: Source>(
        &self,
        source: &mut S,
        segment: &mut [u8],
        lanes: &mut [u8],
        slots: &mut BlockSlots,
        offset: u64,
        out: &mut [u8],
    ) -> Result<(), PieceError>
        requires segment { self.now.geometry.segment_size ≤ length segment.old }
        requires lanes { 8 * block_size self.now.geometry ≤ length lanes.old }
        requires slots { AreSlots self.now.geometry self.now.leaves slots.old }
        requires inside { offset + length out.old < 2 ^ 63 }
        ensures put { OnOk result (ArePut self.now offset out.old out.new) }
        ensures read { OnOk result (WereRead S.gives source.old self.now.geometry offset
            (length out.old) source.new) }
        ensures changed { IsErrOf result PieceError.SourceChanged
            → (file : List ℕ) → HaveBlocks self.now file
            → DiffersFromFile S.gives source.old file source.new }
        ensures fault { IsErrOf result PieceError.SourceFault
            → HasFailedMore (S.failures source.old) (S.failures source.new) }
        ensures size { S.size source.new ≡ S.size source.old }
        ensures failures { OnOk result (S.failures source.new ≡ S.failures source.old) }
        ensures slots { AreSlots self.now.geometry self.now.leaves slots.new }
    {
        let block_size = u64::from(self.geometry.block_size());
        let data = self.geometry.layout().header_size() as u64;
        let first = offset.saturating_sub(data) / block_size;
        let last = (offset + out.len() as u64).saturating_sub(data);
        let end = last
            .div_ceil(block_size)
            .min(u64::from(self.geometry.segment_count()));
        for number in first..end {
            self.put_block(source, number as u32, segment, lanes, slots, offset, out)?;
        }
        slots.advance(self.share, last / block_size);
        Ok(())
    }

    // Writes the block of a segment where the piece meets it: from its slot, or made anew.
    fn put_block<S: Source>(
        &self,
        source: &mut S,
        number: u32,
        segment: &mut [u8],
        lanes: &mut [u8],
        slots: &mut BlockSlots,
        offset: u64,
        out: &mut [u8],
    ) -> Result<(), PieceError>
        requires number { number < segment_count self.now.geometry }
        requires segment { self.now.geometry.segment_size ≤ length segment.old }
        requires lanes { 8 * block_size self.now.geometry ≤ length lanes.old }
        requires slots { AreSlots self.now.geometry self.now.leaves slots.old }
        requires inside { offset + length out.old < 2 ^ 63 }
        ensures put { OnOk result
            (IsBlockPut S.gives source.old self.now number offset out.old out.new source.new) }
        ensures changed { IsErrOf result PieceError.SourceChanged
            → (file : List ℕ) → HaveBlocks self.now file
            → DiffersFromFile S.gives source.old file source.new }
        ensures fault { IsErrOf result PieceError.SourceFault
            → HasFailedMore (S.failures source.old) (S.failures source.new) }
        ensures size { S.size source.new ≡ S.size source.old }
        ensures failures { OnOk result (S.failures source.new ≡ S.failures source.old) }
        ensures slots { AreSlots self.now.geometry self.now.leaves slots.new }
    {
        let size = self.geometry.block_length(number) as usize;
        let before = u64::from(number) * u64::from(self.geometry.block_size());
        let begin = self.geometry.layout().header_size() as u64 + before;
        if let Some(block) = slots.get(self.share, number) {
            put_part(begin, block, offset, out);
            return Ok(());
        }
        let padded = &mut segment[..size * usize::from(self.geometry.needed())];
        self.read_segment(source, number, padded)?;
        if !self.make_blocks(number, padded, lanes, slots) {
            return Err(PieceError::SourceChanged);
        }
        put_part(begin, &lanes[..size], offset, out);
        Ok(())
    }

    // Reads a segment and encrypts it, if it is to be, with its padding behind it.
    fn read_segment<S: Source>(
        &self,
        source: &mut S,
        number: u32,
        padded: &mut [u8],
    ) -> Result<(), PieceError>
        requires number { number < segment_count self.now.geometry }
        requires room { length padded.old
            ≡ block_length self.now.geometry number * self.now.geometry.needed }
        ensures read { OnOk result
            (IsSegmentRead S.gives source.old self.now number padded.new source.new) }
        ensures ended { IsErrOf result PieceError.SourceChanged
            → HasEndedEarly S.gives source.old self.now.geometry.size source.new }
        ensures fault { IsErrOf result PieceError.SourceFault
            → HasFailedMore (S.failures source.old) (S.failures source.new) }
        ensures size { S.size source.new ≡ S.size source.old }
        ensures failures { OnOk result (S.failures source.new ≡ S.failures source.old) }
    {
        let offset = u64::from(number) * u64::from(self.geometry.segment_size());
        let len = self.geometry.segment_length(number) as usize;
        read_part(source, offset, &mut padded[..len])?;
        encrypt(&self.encoder.cipher, offset, len, padded);
        Ok(())
    }

    // Makes the share's block of a padded segment, which is then in the first lane, and before it
    // those of the other shares that want it next. Says whether they have the hashes that are kept;
    // those that have go into their slots.
    fn make_blocks(
        &self,
        number: u32,
        padded: &[u8],
        lanes: &mut [u8],
        slots: &mut BlockSlots,
    ) -> bool
        requires number { number < segment_count self.now.geometry }
        requires padded { length padded.now
            ≡ block_length self.now.geometry number * self.now.geometry.needed }
        requires room { 8 * block_length self.now.geometry number ≤ length lanes.old }
        requires slots { AreSlots self.now.geometry self.now.leaves slots.old }
        ensures made { result ≡ true → IsBlock self.now.geometry self.now.leaves self.now.share
            number (take (block_length self.now.geometry number) lanes.new) }
        ensures other { result ≡ false → (segment : List ℕ)
            → padded.now ≡ padded_segment self.now.geometry.needed segment
            → HasOtherBlock self.now number segment }
        ensures slots { AreSlots self.now.geometry self.now.leaves slots.new }
    {
        let mut shares = [self.share; 256];
        let count = self.choose(number, slots, &mut shares);
        let first = count.min(8);
        self.make_groups(&shares[first..count], number, padded, lanes, slots)
            && self.make_group(&shares[..first], number, padded, lanes, slots)
    }

    // Which shares' blocks of a segment are made: this share's first, and then those of others that
    // want it next. The list has this share at each position before, and its first positions count.
    fn choose(&self, number: u32, slots: &BlockSlots, shares: &mut [u8]) -> usize
        requires some { 0 < length shares.old }
        requires own { slice_index_or shares.old 0 0 ≡ self.now.share }
        requires low { All (λ share. share < self.now.geometry.total) shares.old }
        ensures some { 1 ≤ result }
        ensures within { result ≤ length shares.new }
        ensures own { slice_index_or shares.new 0 0 ≡ self.now.share }
        ensures low { All (λ share. share < self.now.geometry.total) shares.new }
    {
        let mut count = 1;
        for share in 0..self.geometry.total() {
            let share = share as u8;
            if share != self.share && count < shares.len() && slots.wants(share, number) {
                shares[count] = share;
                count += 1;
            }
        }
        count
    }

    // Makes the blocks of any number of shares, eight at a time, and says the same.
    fn make_groups(
        &self,
        shares: &[u8],
        number: u32,
        padded: &[u8],
        lanes: &mut [u8],
        slots: &mut BlockSlots,
    ) -> bool
        requires low { All (λ share. share < self.now.geometry.total) shares.now }
        requires number { number < segment_count self.now.geometry }
        requires padded { length padded.now
            ≡ block_length self.now.geometry number * self.now.geometry.needed }
        requires room { 8 * block_length self.now.geometry number ≤ length lanes.old }
        requires slots { AreSlots self.now.geometry self.now.leaves slots.old }
        ensures other { result ≡ false → (segment : List ℕ)
            → padded.now ≡ padded_segment self.now.geometry.needed segment
            → HasOtherBlock self.now number segment }
        ensures slots { AreSlots self.now.geometry self.now.leaves slots.new }
    {
        for group in 0..shares.len().div_ceil(8) {
            let first = 8 * group;
            let end = shares.len().min(first + 8);
            if !self.make_group(&shares[first..end], number, padded, lanes, slots) {
                return false;
            }
        }
        true
    }

    // Makes the blocks of at most eight shares of a padded segment, each in its lane, and hashes
    // them side by side. Says whether they have the hashes that are kept; those that have go into
    // their slots.
    fn make_group(
        &self,
        shares: &[u8],
        number: u32,
        padded: &[u8],
        lanes: &mut [u8],
        slots: &mut BlockSlots,
    ) -> bool
        requires few { length shares.now ≤ 8 }
        requires low { All (λ share. share < self.now.geometry.total) shares.now }
        requires number { number < segment_count self.now.geometry }
        requires padded { length padded.now
            ≡ block_length self.now.geometry number * self.now.geometry.needed }
        requires room { 8 * block_length self.now.geometry number ≤ length lanes.old }
        requires slots { AreSlots self.now.geometry self.now.leaves slots.old }
        ensures made { result ≡ true → 0 < length shares.now
            → IsBlock self.now.geometry self.now.leaves (slice_index_or shares.now 0 0) number
            (take (block_length self.now.geometry number) lanes.new) }
        ensures other { result ≡ false → (segment : List ℕ)
            → padded.now ≡ padded_segment self.now.geometry.needed segment
            → HasOtherBlock self.now number segment }
        ensures slots { AreSlots self.now.geometry self.now.leaves slots.new }
    {
        let size = self.geometry.block_length(number) as usize;
        self.encode(shares, padded, size, lanes);
        let mut hashes = [[0; 32]; 8];
        tagged_pieces(Tag::Block, lanes, size, &mut hashes[..shares.len()]);
        for lane in 0..shares.len() {
            let block = lane_of(lanes, size, lane);
            if !self.keep(shares[lane], number, block, &hashes[lane], slots) {
                return false;
            }
        }
        true
    }

    // Writes the blocks of shares of a padded segment into lanes of `size` bytes.
    fn encode(&self, shares: &[u8], padded: &[u8], size: usize, lanes: &mut [u8])
        requires low { All (λ share. share < self.now.geometry.total) shares.now }
        requires padded { length padded.now ≡ self.now.geometry.needed * size }
        requires room { length shares.now * size ≤ length lanes.old }
        ensures { (i : ℕ) → i < length shares.now → take size (drop (i * size) lanes.new)
            ≡ share_block self.now.geometry.needed (slice_index_or shares.now i 0) size
            padded.now }
    {
        for lane in 0..shares.len() {
            let share = u16::from(shares[lane]);
            encode_lane(&self.encoder.code, padded, share, size, lane, lanes);
        }
    }

    // Puts a block with this hash into its slot, if that is the hash that is kept.
    fn keep(
        &self,
        share: u8,
        number: u32,
        block: &[u8],
        hash: &[u8; 32],
        slots: &mut BlockSlots,
    ) -> bool
        requires share { share < self.now.geometry.total }
        requires number { number < segment_count self.now.geometry }
        requires long { length block.now ≡ block_length self.now.geometry number }
        requires hash { hash.now ≡ tagged_hash Block block.now }
        requires slots { AreSlots self.now.geometry self.now.leaves slots.old }
        ensures is { result ≡ true
            → IsBlock self.now.geometry self.now.leaves share number block.now }
        ensures other { result ≡ false
            → tagged_hash Block block.now ≢ leaf_at self.now.leaves share number }
        ensures slots { AreSlots self.now.geometry self.now.leaves slots.new }
    {
        if *hash != leaf(&self.trees[usize::from(share)], number) {
            return false;
        }
        slots.put(share, number, block);
        true
    }
}

// Encrypts the first bytes, which stand at an offset of their file, if there is a cipher. The
// others become zero.
fn encrypt(cipher: &Option<Aes128>, offset: u64, len: usize, padded: &mut [u8])
    requires within { len ≤ length padded.old }
    requires offset { offset + len < 2 ^ 64 }
    ensures { padded.new ≡ ciphertext_from cipher.now offset (take len padded.old)
        ++ replicate (length padded.old - len) 0 }
{
    if let Some(cipher) = cipher {
        cipher.xor_at(offset, &mut padded[..len]);
    }
    padded[len..].fill(0);
}

// The leaf of a tree with this number.
fn leaf(tree: &Tree, number: u32) -> [u8; 32]
    requires { number < length tree.now }
    ensures { result ≡ slice_index_or tree.now number [] }
{
    let nodes = tree.nodes();
    nodes[nodes.len() / 2 + number as usize]
}
