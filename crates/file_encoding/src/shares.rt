// The shares of a file: each is begun with what needs no other share, and finished when the root
// over all of them is known.

ghost use Rattle.std.specs.Prelude.{◌≡◌, ◌≤◌, ◌<◌, ◌+◌, ◌-◌, ◌*◌, ◌/◌, ◌%◌, ◌^◌, ◌++◌, ℕ, List, []};
ghost use Rattle.std.specs.Prelude.{length, map, IfOk, OnOk, replicate, All};
ghost use Rattle.std.specs.List.{range_with_len};
ghost use Rattle.merkle.specs.Tree.{height, needed_numbers, tree_nodes, tree_root};
ghost use Rattle.tagged_hash.specs.TaggedHash.{tagged_hash};
ghost use Rattle.tagged_hash.specs.declared.tag.Tag.TheVariants.{Block};
ghost use Rattle.ueb.specs.Limits.{max_length};
ghost use Rattle.share_layout.specs.Geometry.{block_size, segment_count, tree_size};
ghost use Rattle.share_layout.specs.Layout.{header_size, layout_of, offsets_of};
ghost use Rattle.share_verify.specs.Pieces.{block_hashes, joined};
ghost use Rattle.file_encoding.specs.BegunFiles.{AreBegun};
ghost use Rattle.file_encoding.specs.Blocks.{FitTogether, draft_of, finished, numbered};
ghost use Rattle.file_encoding.specs.Blocks.{padded_block, padded_blocks};

use crate::blocks::Segments;
use crate::draft::{Begun, Draft};
use crate::share::Share;
use merkle::Tree;
use share_layout::Geometry;
use std::alloc::{AllocError, Global};
use tagged_hash::{Tag, tagged_pieces};
use zfec_code::Code;

/// What all shares of a file are made of.
#[derive(Clone, Copy)]
pub(crate) struct Common<'a> {
    pub geometry: &'a Geometry,
    pub code: &'a Code,
    /// The ciphertext, with its last segment padded.
    pub padded: &'a [u8],
    /// The bytes of the tree that is no longer used.
    pub unused: &'a [u8],
    pub ciphertext_tree: &'a Tree,
    ghost fit: { FitTogether geometry.now code.now padded.now unused.now ciphertext_tree.now },
}

impl<'a> Common<'a> {
    /// Begins the share of this number. The block is a buffer for each block of it.
    pub(crate) fn begin_share(
        &self,
        alloc: Global,
        number: u16,
        block: &mut [u8],
    ) -> Result<Begun, AllocError>
        requires in_range { number < self.now.geometry.now.total }
        requires block { length block.old ≡ block_size self.now.geometry.now }
        ensures draft { IfOk result (λ begun. begun.draft ≡ draft_of self.now.geometry.now
            self.now.padded.now (tree_nodes self.now.ciphertext_tree.now) number) }
        ensures root { IfOk result (λ begun. begun.root ≡ tree_root (block_hashes
            (padded_blocks self.now.geometry.now number self.now.padded.now))) }
    {
        let mut draft = Draft::begin(alloc, self.geometry, number)?;
        let tree = self.put_blocks(alloc, block, &mut draft)?;
        self.put_trees(&tree, &mut draft)?;
        Ok(Begun {
            draft,
            root: tree.root(),
        })
    }

    // Writes a share's blocks behind its header, and gives the tree over their hashes.
    fn put_blocks(
        &self,
        alloc: Global,
        block: &mut [u8],
        draft: &mut Draft,
    ) -> Result<Tree, AllocError>
        requires geometry { draft.old.geometry ≡ self.now.geometry.now }
        requires in_range { draft.old.number < self.now.geometry.now.total }
        requires block { length block.old ≡ block_size self.now.geometry.now }
        requires next { length draft.old.bytes ≡ header_size (layout_of self.now.geometry.now) }
        ensures blocks { OnOk result (draft.new ≡ record draft.old {
          bytes = draft.old.bytes ++ joined (padded_blocks self.now.geometry.now
              draft.old.number self.now.padded.now);
        }) }
        ensures size { OnOk result (length draft.new.bytes
            ≡ (offsets_of self.now.geometry.now).unused) }
        ensures tree { IfOk result (λ tree. tree ≡ block_hashes
            (padded_blocks self.now.geometry.now draft.old.number self.now.padded.now)) }
        ensures leaves { IfOk result (λ tree. length tree ≡ segment_count self.now.geometry.now) }
    {
        let before = draft.bytes().len();
        let segments = Segments::of(self.geometry, self.padded);
        for number in 0..segments.count {
            self.put_block(segments.segment(number), block, draft)?;
        }
        let mut hashes = vec![in alloc; [0u8; 32]; segments.count]?;
        tagged_pieces(
            Tag::Block,
            &draft.bytes()[before..],
            block.len(),
            &mut hashes,
        );
        self.ciphertext_tree.build_beside(alloc, &hashes)
    }

    // Writes a share's block of a padded segment.
    fn put_block(
        &self,
        segment: &[u8],
        buffer: &mut [u8],
        draft: &mut Draft,
    ) -> Result<(), AllocError>
        requires in_range { draft.old.number < self.now.geometry.now.total }
        requires whole { length segment.now % self.now.geometry.now.needed ≡ 0 }
        requires buffer { length segment.now / self.now.geometry.now.needed ≤ length buffer.old }
        requires room { length draft.old.bytes + length segment.now / self.now.geometry.now.needed
            ≤ (offsets_of draft.old.geometry).extension_block }
        ensures { OnOk result (draft.new ≡ record draft.old {
          bytes = draft.old.bytes ++ padded_block self.now.geometry.now.needed draft.old.number
              segment.now;
        }) }
    {
        let size = segment.len() / usize::from(self.geometry.needed());
        let block = &mut buffer[..size];
        self.code.encode(segment, draft.number(), block);
        draft.put(block)
    }

    // Writes a share's three trees behind its blocks.
    fn put_trees(&self, block_tree: &Tree, draft: &mut Draft) -> Result<(), AllocError>
        requires geometry { draft.old.geometry ≡ self.now.geometry.now }
        requires leaves { length block_tree.now ≡ segment_count self.now.geometry.now }
        requires next { length draft.old.bytes ≡ (offsets_of self.now.geometry.now).unused }
        ensures trees { OnOk result (draft.new ≡ record draft.old {
          bytes = draft.old.bytes ++ replicate (tree_size self.now.geometry.now) 0
              ++ joined (tree_nodes self.now.ciphertext_tree.now)
              ++ joined (tree_nodes block_tree.now);
        }) }
        ensures size { OnOk result (length draft.new.bytes
            ≡ (offsets_of self.now.geometry.now).share_hashes) }
    {
        draft.put(self.unused)?;
        put_tree(self.ciphertext_tree, draft)?;
        put_tree(block_tree, draft)
    }
}

// Writes the nodes of a tree with a leaf for each segment.
fn put_tree(tree: &Tree, draft: &mut Draft) -> Result<(), AllocError>
    requires leaves { length tree.now ≡ segment_count draft.old.geometry }
    requires room { length draft.old.bytes + tree_size draft.old.geometry
        ≤ (offsets_of draft.old.geometry).extension_block }
    ensures nodes { OnOk result (draft.new ≡ record draft.old {
      bytes = draft.old.bytes ++ joined (tree_nodes tree.now);
    }) }
    ensures size { OnOk result (length draft.new.bytes
        ≡ length draft.old.bytes + tree_size draft.old.geometry) }
{
    draft.put(tree.nodes().as_flattened())
}

/// Begins all shares, by number. The block is a buffer for each block of a share.
pub(crate) fn begin_shares(
    alloc: Global,
    common: &Common<'_>,
    block: &mut [u8],
) -> Result<Vec<Begun>, AllocError>
    requires { length block.old ≡ block_size common.now.geometry.now }
    ensures { IfOk result (λ begun. AreBegun common.now.geometry.now common.now.padded.now
        (tree_nodes common.now.ciphertext_tree.now) common.now.geometry.now.total begun.items) }
{
    let total = common.geometry.total();
    let mut begun = Vec::with_capacity(alloc, usize::from(total))?;
    for number in 0..total {
        begun.push(common.begin_share(alloc, number, block)?)?;
    }
    Ok(begun)
}

/// The tree over the roots of all begun shares.
pub(crate) fn build_share_tree(alloc: Global, begun: &[Begun]) -> Result<Tree, AllocError>
    requires some { 0 < length begun.now }
    requires few { length begun.now ≤ 256 }
    ensures { IfOk result (λ tree. tree ≡ map (λ b. b.root) begun.now) }
{
    let mut roots = Vec::with_capacity(alloc, begun.len())?;
    for share in begun {
        roots.push(share.root)?;
    }
    Tree::build(alloc, &roots)
}

/// Finishes begun shares: the share hashes of each, and the extension block behind its length.
pub(crate) fn finish_shares(
    alloc: Global,
    begun: Vec<Begun>,
    share_tree: &Tree,
    extension_block: &[u8],
) -> Result<Vec<Share>, AllocError>
    requires total { All (λ b. b.draft.geometry.total ≡ length share_tree.now) begun.items }
    requires few { length share_tree.now ≤ 256 }
    requires short { length extension_block.now ≤ max_length }
    ensures { IfOk result (λ shares. shares.items ≡ map
        (λ b. finished share_tree.now extension_block.now b.draft) begun.items) }
{
    let mut shares = Vec::with_capacity(alloc, begun.len())?;
    for share in begun {
        shares.push(finish_share(alloc, share, share_tree, extension_block)?)?;
    }
    Ok(shares)
}

// Finishes a begun share.
fn finish_share(
    alloc: Global,
    begun: Begun,
    share_tree: &Tree,
    extension_block: &[u8],
) -> Result<Share, AllocError>
    requires total { begun.draft.geometry.total ≡ length share_tree.now }
    requires few { length share_tree.now ≤ 256 }
    requires short { length extension_block.now ≤ max_length }
    ensures { IfOk result (λ share.
        share ≡ finished share_tree.now extension_block.now begun.draft) }
{
    let mut draft = begun.draft;
    let numbers = needed_nodes(alloc, share_tree, draft.number())?;
    put_numbered(share_tree.nodes(), &numbers, &mut draft)?;
    draft.finish(extension_block)
}

// The numbers of the nodes that lead from a leaf to the root.
fn needed_nodes(alloc: Global, tree: &Tree, leaf: u16) -> Result<Vec<u32>, AllocError>
    requires { leaf < length tree.now }
    ensures numbers { IfOk result (λ numbers. numbers.items ≡ needed_numbers
        (height (length tree.now)) leaf) }
{
    tree.needed(alloc, u32::from(leaf))
}

// Writes the nodes of these numbers, each behind its number in two bytes.
fn put_numbered(nodes: &[[u8; 32]], numbers: &[u32], draft: &mut Draft) -> Result<(), AllocError>
    requires inside { All (λ n. n < length nodes.now) numbers.now }
    requires few { length nodes.now ≤ 2 ^ 16 }
    requires room { length draft.old.bytes + length numbers.now * 34
        ≤ (offsets_of draft.old.geometry).extension_block }
    ensures bytes { OnOk result (draft.new ≡ record draft.old {
      bytes = draft.old.bytes ++ numbered nodes.now numbers.now;
    }) }
    ensures size { OnOk result (length draft.new.bytes
        ≡ length draft.old.bytes + length numbers.now * 34) }
{
    for number in numbers {
        draft.put(&(*number as u16).to_be_bytes())?;
        draft.put(&nodes[*number as usize])?;
    }
    Ok(())
}
