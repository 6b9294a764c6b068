//! Pieces of the shares of a file of which only hashes are kept.

ghost use Rattle.std.specs.Prelude.{◌≡◌, ◌+◌, ◌<◌, ◌≤◌, ◌^◌, ◌++◌, ℕ, List, length, map};
ghost use Rattle.std.specs.Prelude.{replicate, IsErrOf, OnOk};
ghost use Rattle.merkle.specs.Tree.{tree_nodes, tree_root};
ghost use Rattle.share_layout.specs.Geometry.{share_data_size, tree_size};
ghost use Rattle.share_layout.specs.Layout.{header, header_size, layout_of, spelled};
ghost use Rattle.share_verify.specs.Pieces.{joined};
ghost use Rattle.sources.specs.Change.{DiffersFromFile};
ghost use Rattle.sources.specs.Source.{HasFailedMore};
ghost use Rattle.block_making.specs.Making.{IsPieceOf, WereRead, put_at};
ghost use Rattle.share_gathering.specs.Gathered.{behind_blocks};
ghost use Rattle.share_gathering.specs.KeptFile.{GivesKept, IsKeptOf, kept_leaves, kept_length};

use crate::finishing::spelled_length;
use crate::kept::Kept;
use block_making::{BlockMaker, PieceError, put_part};
use merkle::Tree;
use share_layout::{Geometry, Layout, Offsets};
use sources::Source;

impl Kept {
    /// Fills `out` with the bytes of a share from an offset on. They lie in the share.
    ///
    /// Its blocks come from their slots, or else their segments are read and encoded again, each
    /// once, with the blocks of other shares that go on with them. Each block has to have the hash
    /// that is kept. Refuses `SourceChanged` where the source brought other bytes than those of
    /// which this is kept, or ended early, and `SourceFault` where a read failed. `out` then holds
    /// any bytes. Takes no memory.
    pub fn piece<S: Source>(
        &mut self,
        source: &mut S,
        share: u8,
        offset: u64,
        out: &mut [u8],
    ) -> Result<(), PieceError>
        requires number { share < length self.old.digests }
        requires inside { offset + length out.old ≤ kept_length self.old }
        ensures gives { OnOk result (GivesKept self.old share offset out.new) }
        ensures read { OnOk result (WereRead S.gives source.old self.old.geometry offset
            (length out.old) source.new) }
        ensures changed { IsErrOf result PieceError.SourceChanged → (bytes : List ℕ)
            → IsKeptOf self.old bytes → DiffersFromFile S.gives source.old bytes source.new }
        ensures fault { IsErrOf result PieceError.SourceFault
            → HasFailedMore (S.failures source.old) (S.failures source.new) }
        ensures size { S.size source.new ≡ S.size source.old }
        ensures failures { OnOk result (S.failures source.new ≡ S.failures source.old) }
        ensures same { self.new ≡ self.old }
    {
        // The tree that is no longer used is zero bytes.
        out.fill(0);
        let maker = BlockMaker::new(self.geometry, &self.encoder, &self.block_trees, share);
        maker.put_blocks(
            source,
            &mut self.buffers.segments,
            &mut self.buffers.lanes,
            &mut self.slots,
            offset,
            out,
        )?;
        self.put_sections(share, offset, out);
        Ok(())
    }

    // Writes what stands around the blocks of a share, where the piece meets it. The bytes of the
    // tree that is no longer used are zero.
    fn put_sections(&self, share: u8, offset: u64, out: &mut [u8])
        requires number { share < length self.now.digests }
        requires inside { offset + length out.old ≤ kept_length self.now }
        ensures { (front blocks behind : List ℕ)
            → length front ≡ header_size (layout_of self.now.geometry)
            → length blocks ≡ share_data_size self.now.geometry
            → IsPieceOf (front ++ blocks
            ++ (replicate (tree_size self.now.geometry) 0 ++ behind)) offset out.old
            → IsPieceOf (header self.now.geometry ++ blocks
            ++ behind_blocks self.now.geometry self.now.leaves (kept_leaves self.now share)
            (map tree_root self.now.block_leaves) self.now.extension_block share) offset out.new }
    {
        let offsets = Offsets::of(&self.geometry);
        let share = usize::from(share);
        put_header(&self.geometry, offset, out);
        put_tree(&self.ciphertext_tree, offsets.ciphertext_tree, offset, out);
        put_tree(&self.block_trees[share], offsets.block_tree, offset, out);
        put_part(offsets.share_hashes, &self.share_hashes[share], offset, out);
        let block = &self.extension_block;
        put_ending(offsets.layout, block, offsets.extension_block, offset, out);
    }
}

// Writes the header of a share.
fn put_header(geometry: &Geometry, offset: u64, out: &mut [u8])
    requires { offset + length out.old < 2 ^ 64 }
    ensures { out.new ≡ put_at 0 (header geometry.now) offset out.old }
{
    let mut header = [0; 68];
    let length = geometry.header(&mut header);
    put_part(0, &header[..length], offset, out);
}

// Writes the nodes of a tree.
fn put_tree(tree: &Tree, begin: u64, offset: u64, out: &mut [u8])
    requires begin { begin < 2 ^ 41 }
    requires out { offset + length out.old < 2 ^ 64 }
    ensures { out.new ≡ put_at begin (joined (tree_nodes tree.now)) offset out.old }
{
    put_part(begin, tree.nodes().as_flattened(), offset, out);
}

// Writes the extension block behind its length.
fn put_ending(layout: Layout, extension_block: &[u8], begin: u64, offset: u64, out: &mut [u8])
    requires short { length extension_block.now < 2 ^ 32 }
    requires begin { begin < 2 ^ 41 }
    requires out { offset + length out.old < 2 ^ 64 }
    ensures { out.new ≡ put_at begin
        (spelled layout (length extension_block.now) ++ extension_block.now) offset out.old }
{
    let (length, width) = spelled_length(layout, extension_block.len());
    put_part(begin, &length[..width], offset, out);
    put_part(begin + width as u64, extension_block, offset, out);
}
