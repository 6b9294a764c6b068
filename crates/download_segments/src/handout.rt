//! Segments, proved and decrypted, as pieces to hand out.

ghost use Rattle.std.specs.Prelude.{◌≡◌, ◌≢◌, ◌≤◌, ◌<◌, ◌^◌, ◌+◌, ◌-◌, ◌*◌, ◌%◌, ◌↔◌, ◌++◌, All};
ghost use Rattle.std.specs.Prelude.{IfOk, IfSome, IsSome, IsTrue, OnErr, OnOk, Ok, Err, Some, true};
ghost use Rattle.std.specs.Prelude.{false, drop, length, map, take};
ghost use Rattle.aes_ctr.specs.CounterMode.{xored_from};
ghost use Rattle.tagged_hash.specs.TaggedHash.{tagged_hash};
ghost use Rattle.tagged_hash.specs.declared.tag.Tag.TheVariants.{CiphertextSegment};
ghost use Rattle.merkle.specs.Inputs.{AreHashes};
ghost use Rattle.merkle.specs.Partial.{IsNotConsistent, Takes, starting};
ghost use Rattle.share_layout.specs.Geometry.{hashes_size, segment_count};
ghost use Rattle.share_layout.specs.Pieces.{segment_length};
ghost use Rattle.share_verify.specs.CapBlock.{geometry_by};
ghost use Rattle.proved_parts.specs.Parts.{IsSegmentBy};
ghost use Rattle.download_parts.specs.Offers.{nodes_offered, share_hashes_offered};
ghost use Rattle.download_parts.specs.Refusal.{HasNumbers, IsHashesRefusal};
ghost use Rattle.download_parts.specs.Trees.{IsBlockRoot, IsBlockTree, known_leaf};
ghost use Rattle.download_segments.specs.Handout.{IsRowWanted, ProvesRow, TakesPiece};
ghost use Rattle.download_segments.specs.Handout.{first_handed_out, handed_out, next_end};
ghost use Rattle.download_segments.specs.Handout.{next_segment};
ghost use Rattle.download_segments.specs.State.{IsHandout, ProvesSegment, RefutesSegment};
ghost use Rattle.download_segments.specs.State.{TreesGrow, starting_handout, with_trees};

use crate::piece::Piece;
use crate::row::segment_hashes;
use aes_ctr::Aes128;
use download_parts::{BlockTree, FileTrees, Nodes, TreeFault};
use proved_parts::{Bytes, EvidencePart, Path};
use share_layout::Geometry;
use share_verify::Check;
use std::alloc::{AllocError, Global};
use std::collections::VecDeque;
use std::marker::Model;
use tagged_hash::{Tag, tagged};
use ueb::Ueb;

/// What is handed out of a file whose extension block is accepted: pieces of its segments, in
/// order, each proved by the ciphertext tree.
#[derive(Drop)]
pub struct Handout {
    alloc: Global,
    cipher: Aes128,
    ueb: Ueb,
    geometry: Geometry,
    trees: FileTrees,
    to: u64,
    handed: u64,
    reached: u64,
    ready: VecDeque<Piece>,
}

impl Model for Handout {
    ghost use Rattle.download_segments.specs.State.{HandoutState, IsHandout, handout_state};

    ghost Value = { HandoutState };

    ghost view = { λ h. handout_state h.cipher h.ueb h.geometry h.trees h.to h.handed h.reached
        h.ready.items };

    ghost invariant = { λ h. IsHandout (handout_state h.cipher h.ueb h.geometry h.trees h.to
        h.handed h.reached h.ready.items) };
}

impl Handout {
    /// The bytes of the file from the offset `from` up to `to` are wanted, which is not behind the
    /// file's end. The key decrypts them. Nothing is known yet but what the extension block says.
    pub fn new(
        alloc: Global,
        key: &[u8; 16],
        ueb: &Ueb,
        geometry: &Geometry,
        from: u64,
        to: u64,
    ) -> Result<Handout, AllocError>
        requires geometry { geometry.now ≡ geometry_by ueb.now }
        requires ordered { from ≤ to }
        requires inside { to ≤ geometry.now.size }
        ensures handout { IfOk result (λ handout.
            handout ≡ starting_handout key.now ueb.now geometry.now from to) }
        ensures right { IfOk result IsHandout }
    {
        Ok(Handout {
            alloc,
            cipher: Aes128::new(key),
            ueb: *ueb,
            geometry: *geometry,
            trees: FileTrees::new(alloc, ueb, geometry)?,
            to,
            handed: from,
            reached: from,
            ready: VecDeque::new(alloc),
        })
    }

    /// The geometry of the file.
    pub fn geometry(&self) -> &Geometry
        ensures value { result.now ≡ self.now.geometry }
        ensures right { IsHandout self.now }
    {
        &self.geometry
    }

    /// Whether all pieces were made.
    pub fn is_complete(&self) -> bool
        ensures complete { IsTrue result ↔ (self.now.reached ≡ self.now.to) }
        ensures right { IsHandout self.now }
    {
        self.reached == self.to
    }

    /// The number of the segment of which a piece is made next: the one that begins at the offset
    /// up to which pieces were made, or has it inside. `None` where all pieces were made.
    pub fn next(&self) -> Option<u32>
        ensures value { result ≡ next_segment self.now }
        ensures there { IfSome result (λ number. number < segment_count self.now.geometry) }
        ensures right { IsHandout self.now }
    {
        if self.reached < self.to {
            Some((self.reached / u64::from(self.geometry.segment_size())) as u32)
        } else {
            None
        }
    }

    /// Takes the share hashes of a share, and gives the tree over its blocks, of which the root is
    /// then known. There is such a share, and the bytes have the length of share hashes.
    ///
    /// They are refused as failing the check of the layout where they carry other numbers than
    /// those of the nodes that lead from the share to the root, and else as failing the check of
    /// the share hashes where they do not go with what is known of the share tree.
    pub fn take_share_hashes(&mut self, share: u16, bytes: &[u8]) -> Result<BlockTree, TreeFault>
        requires there { share < self.old.geometry.total }
        requires long { length bytes.now ≡ hashes_size self.old.geometry }
        ensures taken { OnOk result (Takes self.old.trees.shares
            (share_hashes_offered self.old.geometry.total share bytes.now)
            self.new.trees.shares) }
        ensures tree { IfOk result (λ tree.
            tree ≡ starting tree.root (segment_count self.old.geometry)) }
        ensures leads { IfOk result (λ tree.
            IsBlockTree tree (segment_count self.old.geometry)) }
        ensures root { IfOk result (λ tree.
            known_leaf self.new.trees.shares share ≡ Some tree.root) }
        ensures block_root { IfOk result (λ tree. IsBlockRoot self.old.ueb.share_root_hash
            self.old.ueb.total_shares share tree.root) }
        // When each refusal comes.
        ensures refused { (check : Check) → result ≡ Err (TreeFault.Check check)
            → IsHashesRefusal self.old.trees share bytes.now check }
        ensures numbers { ¬ HasNumbers self.old.trees share bytes.now
            → result ≡ Err (TreeFault.Check Check.Layout) }
        ensures unchanged { OnErr result (self.new ≡ self.old) }
        // Nothing else changes.
        ensures others { self.new ≡ with_trees self.old self.new.trees }
        ensures ciphertext { self.new.trees.ciphertext ≡ self.old.trees.ciphertext }
        ensures grow { TreesGrow self.old.trees self.new.trees }
        ensures sound { IsHandout self.old }
        ensures right { IsHandout self.new }
    {
        self.trees.take_share_hashes(self.alloc, share, bytes)
    }

    /// Takes nodes of a row of the ciphertext tree, whose hashes are the bytes, 32 each. They are
    /// refused, as failing the check of the ciphertext tree, where they do not go with what is
    /// known.
    pub fn take_nodes(&mut self, nodes: &Nodes, bytes: &[u8]) -> Result<(), TreeFault>
        requires low { nodes.now.row ≤ 20 }
        requires inside { nodes.now.from + nodes.now.count ≤ 2 ^ nodes.now.row }
        requires long { length bytes.now ≡ 32 * nodes.now.count }
        ensures taken { OnOk result (Takes self.old.trees.ciphertext
            (nodes_offered nodes.now bytes.now) self.new.trees.ciphertext) }
        // When it is refused.
        ensures refused { (check : Check) → result ≡ Err (TreeFault.Check check)
            → (check ≡ Check.CiphertextTree) × IsNotConsistent self.old.trees.ciphertext
            (nodes_offered nodes.now bytes.now) }
        ensures unchanged { OnErr result (self.new ≡ self.old) }
        // Nothing else changes.
        ensures others { self.new ≡ with_trees self.old self.new.trees }
        ensures shares { self.new.trees.shares ≡ self.old.trees.shares }
        ensures grow { TreesGrow self.old.trees self.new.trees }
        ensures sound { IsHandout self.old }
        ensures right { IsHandout self.new }
    {
        self.trees.take_nodes(self.alloc, nodes, bytes)
    }

    /// Whether the hash of a segment is known. There is such a segment.
    pub fn knows(&self, segment: u32) -> bool
        requires { segment < segment_count self.now.geometry }
        ensures known { IsTrue result ↔ IsSome (known_leaf self.now.trees.ciphertext segment) }
        ensures right { IsHandout self.now }
    {
        self.trees.leaf(segment).is_some()
    }

    /// The path of a segment, from its hash upward, where these bytes have the segment's length and
    /// their hash is the one that is known. There is a segment with this number.
    pub fn path_of(&self, number: u32, segment: &[u8]) -> Result<Option<Vec<[u8; 32]>>, AllocError>
        requires { number < segment_count self.now.geometry }
        ensures proved { IfOk result (λ path.
            IsSome path ↔ ProvesSegment self.now number segment.now) }
        ensures by { IfOk result (λ path. IfSome path (λ siblings.
            IsSegmentBy self.now.ueb number segment.now siblings.items)) }
        ensures right { IsHandout self.now }
    {
        if segment.len() != self.geometry.segment_length(number) as usize {
            return Ok(None);
        }
        self.path_by_hash(number, segment)
    }

    // The same of bytes that have the segment's length.
    fn path_by_hash(&self, number: u32, segment: &[u8]) -> Result<Option<Vec<[u8; 32]>>, AllocError>
        requires there { number < segment_count self.now.geometry }
        requires long { length segment.now ≡ segment_length self.now.geometry number }
        ensures proved { IfOk result (λ path.
            IsSome path ↔ ProvesSegment self.now number segment.now) }
        ensures by { IfOk result (λ path. IfSome path (λ siblings.
            IsSegmentBy self.now.ueb number segment.now siblings.items)) }
        ensures right { IsHandout self.now }
    {
        if !self.has_hash(number, segment) {
            return Ok(None);
        }
        let Some(path) = self.trees.path(number)? else {
            unreachable!();
        };
        know_hashes(&path);
        Ok(Some(path))
    }

    // Whether the hash of these bytes is the one that is known for a segment.
    fn has_hash(&self, number: u32, segment: &[u8]) -> bool
        requires { number < segment_count self.now.geometry }
        ensures known { IsTrue result ↔ (known_leaf self.now.trees.ciphertext number
            ≡ Some (tagged_hash CiphertextSegment segment.now)) }
        ensures right { IsHandout self.now }
    {
        self.has_leaf(number, &tagged(Tag::CiphertextSegment, segment))
    }

    // Whether this is the hash that is known for a segment.
    fn has_leaf(&self, number: u32, hash: &[u8; 32]) -> bool
        requires { number < segment_count self.now.geometry }
        ensures known { IsTrue result
            ↔ (known_leaf self.now.trees.ciphertext number ≡ Some hash.now) }
        ensures right { IsHandout self.now }
    {
        match self.trees.leaf(number) {
            Some(leaf) => leaf == *hash,
            None => false,
        }
    }

    /// A segment with its path, where these bytes are the segment's, as `path_of` tells.
    pub fn part_of(&self, number: u32, segment: Vec<u8>) -> Result<Option<EvidencePart>, AllocError>
        requires { number < segment_count self.now.geometry }
        ensures proved { IfOk result (λ part.
            IsSome part ↔ ProvesSegment self.now number segment.items) }
        ensures number { IfOk result (λ part. IfSome part (λ p. p.number ≡ number)) }
        ensures segment { IfOk result (λ part. IfSome part (λ p. p.segment ≡ segment.items)) }
        ensures by { IfOk result (λ part. IfSome part (λ p.
            IsSegmentBy self.now.ueb p.number p.segment p.path)) }
        ensures right { IsHandout self.now }
    {
        let Some(path) = self.path_of(number, &segment)? else {
            return Ok(None);
        };
        Ok(Some(EvidencePart {
            number,
            segment: Bytes::from_vec(segment),
            path: Path::from_vec(path),
        }))
    }

    /// Makes a piece of the wanted bytes of the next segment, where the hash of these bytes is the
    /// one that is known for it: `true`. `false` where it is another; then nothing changes. The
    /// number is the one that `next` tells, the segment's hash is known, and the bytes have its
    /// length.
    pub fn hand_out(&mut self, number: u32, segment: Vec<u8>) -> Result<bool, AllocError>
        requires next { next_segment self.old ≡ Some number }
        requires known { IsSome (known_leaf self.old.trees.ciphertext number) }
        requires long { length segment.items ≡ segment_length self.old.geometry number }
        ensures proved { IfOk result (λ made.
            IsTrue made ↔ ProvesSegment self.old number segment.items) }
        ensures handed { result ≡ Ok true → self.new ≡ handed_out self.old segment.items }
        ensures refuted { result ≡ Ok false → RefutesSegment self.old number segment.items }
        ensures same { result ≡ Ok false → self.new ≡ self.old }
        ensures unchanged { OnErr result (self.new ≡ self.old) }
        ensures grow { TreesGrow self.old.trees self.new.trees }
        ensures sound { IsHandout self.old }
        ensures right { IsHandout self.new }
    {
        let Some(_) = self.path_by_hash(number, &segment)? else {
            return Ok(false);
        };
        let end = self.end_behind(self.reached);
        let bytes = self.decrypted(segment, self.reached, end);
        self.ready.push_back(Piece {
            offset: self.reached,
            bytes: Bytes::from_vec(bytes),
        })?;
        self.reached = end;
        Ok(true)
    }

    /// Whether eight segments from this one on are wanted, each to its end. There is a segment with
    /// this number.
    pub fn wants_row(&self, number: u32) -> bool
        requires { number < segment_count self.now.geometry }
        ensures wanted { IsTrue result ↔ IsRowWanted self.now number }
        ensures right { IsHandout self.now }
    {
        (u64::from(number) + 8) * u64::from(self.geometry.segment_size()) <= self.to
    }

    /// Makes pieces of the next eight segments, where the hash of each is the one that is known for
    /// it: `true`. `false` where one is another or is not known; then nothing changes. The first
    /// has the number that `next` tells. All eight are wanted to their ends, and have the length of
    /// a whole segment.
    pub fn hand_out_row(&mut self, number: u32, segments: Vec<Vec<u8>>) -> Result<bool, AllocError>
        requires next { next_segment self.old ≡ Some number }
        requires wanted { IsRowWanted self.old number }
        requires eight { length segments.items ≡ 8 }
        requires long { All (λ s. length s.items ≡ self.old.geometry.segment_size) segments.items }
        ensures proved { IfOk result (λ made. IsTrue made
            ↔ ProvesRow self.old number (map (λ s. s.items) segments.items)) }
        ensures handed { result ≡ Ok true → self.new
            ≡ first_handed_out self.old (map (λ s. s.items) segments.items) 8 }
        ensures same { result ≢ Ok true → self.new ≡ self.old }
        ensures sound { IsHandout self.old }
        ensures right { IsHandout self.new }
    {
        if !self.proves_row(number, &segments) {
            return Ok(false);
        }
        let (mut pieces, reached) = self.pieces_of(number, segments)?;
        self.ready.append(&mut pieces)?;
        self.reached = reached;
        Ok(true)
    }

    // Whether the hashes of these segments are those that are known for eight segments from this
    // one on.
    fn proves_row(&self, number: u32, segments: &[Vec<u8>]) -> bool
        requires next { next_segment self.now ≡ Some number }
        requires wanted { IsRowWanted self.now number }
        requires eight { length segments.now ≡ 8 }
        requires long { All (λ s. length s.items ≡ self.now.geometry.segment_size) segments.now }
        ensures { IsTrue result ↔ ProvesRow self.now number (map (λ s. s.items) segments.now) }
    {
        let hashes = segment_hashes(segments, self.geometry.segment_size() as usize);
        let mut offset = number;
        for hash in &hashes {
            if !self.has_leaf(offset, hash) {
                return false;
            }
            offset += 1;
        }
        true
    }

    // The pieces of the next segments, which are proved, and the offset behind them.
    fn pieces_of(
        &self,
        number: u32,
        segments: Vec<Vec<u8>>,
    ) -> Result<(VecDeque<Piece>, u64), AllocError>
        requires next { next_segment self.now ≡ Some number }
        requires wanted { IsRowWanted self.now number }
        requires eight { length segments.items ≡ 8 }
        requires proved { ProvesRow self.now number (map (λ s. s.items) segments.items) }
        ensures { IfOk result (λ r.
            (record self.now { reached = r.1; ready = self.now.ready ++ r.0.items })
            ≡ first_handed_out self.now (map (λ s. s.items) segments.items) 8) }
    {
        let mut pieces = VecDeque::with_capacity(self.alloc, 8)?;
        let mut reached = self.reached;
        for segment in segments {
            let end = self.end_behind(reached);
            let bytes = self.decrypted(segment, reached, end);
            pieces.push_back(Piece {
                offset: reached,
                bytes: Bytes::from_vec(bytes),
            })?;
            reached = end;
        }
        Ok((pieces, reached))
    }

    // The offset up to which pieces are made with the next segment, where they are made up to this
    // one.
    fn end_behind(&self, reached: u64) -> u64
        requires { reached < self.now.to }
        ensures { result ≡ next_end (record self.now { reached = reached }) }
    {
        let size = u64::from(self.geometry.segment_size());
        self.to.min((reached / size + 1) * size)
    }

    // The bytes of a segment from this offset of the file up to another, decrypted.
    fn decrypted(&self, segment: Vec<u8>, reached: u64, end: u64) -> Vec<u8>
        requires more { reached ≤ end }
        requires within { reached % self.now.geometry.segment_size
            + (end - reached) ≤ length segment.items }
        ensures { result.items ≡ xored_from self.now.key reached
            (take (end - reached)
            (drop (reached % self.now.geometry.segment_size) segment.items)) }
    {
        let skipped = reached % u64::from(self.geometry.segment_size());
        let count = end - reached;
        let mut bytes = cut(segment, skipped as usize, count as usize);
        self.cipher.xor_at(reached, &mut bytes);
        bytes
    }

    /// Takes the first piece, where one is ready.
    pub fn take(&mut self) -> Option<Piece>
        ensures taken { TakesPiece self.old result self.new }
        ensures sound { IsHandout self.old }
        ensures right { IsHandout self.new }
    {
        let piece = self.ready.pop_front()?;
        self.handed = piece.offset + piece.bytes.as_slice().len() as u64;
        Some(piece)
    }
}

// So many bytes of a text, behind others that are skipped. Takes no memory.
fn cut(text: Vec<u8>, skipped: usize, count: usize) -> Vec<u8>
    requires { skipped + count ≤ length text.items }
    ensures { result.items ≡ take count (drop skipped text.items) }
{
    let mut text = text;
    text.truncate(skipped + count);
    drop(text.drain(..skipped));
    text
}

// A law: hashes have 32 bytes each. The call does nothing.
fn know_hashes(hashes: &[[u8; 32]])
    ensures { AreHashes hashes.now }
{
    let _ = hashes;
}
