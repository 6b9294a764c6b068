//! One share at one server as a supply of blocks.

ghost use Rattle.std.specs.Prelude.{◌≡◌, ◌⊎◌, ◌↔◌, ◌+◌, ◌<◌, ◌≤◌, Err, IfOk, IsTrue, OnErr, OnOk};
ghost use Rattle.std.specs.Prelude.{Some, length};
ghost use Rattle.share_layout.specs.Geometry.{segment_count};
ghost use Rattle.download_parts.specs.Plan.{IsNodePiece, length_of, max_read};
ghost use Rattle.download_parts.specs.Trees.{IsBlockTree};
ghost use Rattle.download_supply.specs.Asking.{AsksNow, IsAsked, IsWanted, IsWantedCiphertext};
ghost use Rattle.download_supply.specs.Asking.{IsWithin, OnlyAsks};
ghost use Rattle.download_supply.specs.Batch.{IsCiphertextUpTo, IsStep};
ghost use Rattle.download_supply.specs.Cursors.{IsPassed, cursor_at};
ghost use Rattle.download_supply.specs.Blocks.{IsHeld, IsReady, block_offset, block_positions};
ghost use Rattle.download_supply.specs.Supply.{IsSupply, gives_from, new_supply};
ghost use Rattle.download_supply.specs.Taking.{IsDue, IsProved, RefutesPiece, TakesPiece};
ghost use Rattle.download_supply.specs.Taking.{holds_more, known_hash, with_taken};

use crate::batch::Batch;
use crate::cursors::Cursors;
use crate::tree::Tree;
use crate::wanted::Wanted;
use download_parts::{BlockTree, NodePiece, Part, Plan, TreeFault};
use share_verify::Check;
use std::alloc::{AllocError, Global};
use std::marker::Model;

/// One share at one server as a supply of the blocks of some segments.
#[derive(Drop)]
pub struct Supply {
    plan: Plan,
    start: u32,
    given: [u32; 3],
    asked: Cursors,
    taken: Cursors,
    tree: Option<BlockTree>,
    held: Vec<usize>,
}

impl Model for Supply {
    ghost use Rattle.download_supply.specs.Supply.{IsSupply, SupplyState, supply_state};

    ghost Value = { SupplyState };

    ghost view = { λ s. supply_state s.plan.geometry s.start s.plan.first s.plan.end s.given
        s.asked s.taken s.tree s.held.items };

    ghost invariant = { λ s. IsSupply (supply_state s.plan.geometry s.start s.plan.first
        s.plan.end s.given s.asked s.taken s.tree s.held.items) };
}

impl Supply {
    /// A supply of the segments from `first` on, in a download by this plan.
    pub fn new(alloc: Global, plan: &Plan, first: u32) -> Supply
        requires from { plan.now.first ≤ first }
        requires before { first < plan.now.end }
        ensures value { result
            ≡ new_supply plan.now.geometry plan.now.first first plan.now.end }
        ensures right { IsSupply result }
    {
        Supply {
            plan: Plan::of(&plan.geometry, first, plan.end),
            start: plan.first,
            given: [0; 3],
            asked: Cursors::none(),
            taken: Cursors::none(),
            tree: None,
            held: Vec::new(alloc),
        }
    }

    /// Whether it was asked for nothing of the ciphertext tree.
    pub fn gave_none(&self) -> bool
        ensures value { IsTrue result ↔ (self.now.asked.ciphertext_tree ≡ self.now.given) }
        ensures right { IsSupply self.now }
    {
        self.asked.ciphertext_tree == self.given
    }

    /// From now on it gives the ciphertext tree, from these pieces of each level on. It was asked
    /// for none of it.
    pub fn give_ciphertext(&mut self, taken: &[u32; 3])
        requires none { (p : NodePiece) → ¬ IsAsked self.old (Part.CiphertextTree p) }
        requires pieces { (p : NodePiece) → p.index < cursor_at taken.now p.level
            → IsNodePiece self.old.geometry self.old.start self.old.end p }
        ensures gives { self.new ≡ gives_from self.old taken.now }
        ensures asked { (part : Part) → IsAsked self.new part ↔ IsAsked self.old part }
        ensures right { IsSupply self.new }
    {
        self.given = *taken;
        self.asked.ciphertext_tree = *taken;
        self.taken.ciphertext_tree = *taken;
    }

    /// What is to be asked of the share hashes, of the block tree and of the data for the segments
    /// up to this one, in the order in which it is to be taken. Beyond the supply's segments it is
    /// nothing.
    pub fn wanted(&mut self, alloc: Global, last: u32) -> Result<Vec<Wanted>, AllocError>
        ensures asks { IfOk result (λ wanted. AsksNow self.old self.new wanted.items) }
        ensures exact { OnOk result ((part : Part)
            → IsAsked self.new part ↔ (IsAsked self.old part ⊎ IsWanted self.old last part)) }
        ensures only { OnOk result (OnlyAsks self.old self.new) }
        ensures unchanged { OnErr result (self.new ≡ self.old) }
        ensures right { IsSupply self.new }
    {
        let (asked, wanted) = self.own_parts(alloc, last)?;
        self.asked = asked;
        Ok(wanted)
    }

    /// What is to be asked of the ciphertext tree for the segments up to this one, in the order in
    /// which it is to be taken. Beyond the download's segments it is nothing.
    pub fn wanted_ciphertext(&mut self, alloc: Global, last: u32) -> Result<Vec<Wanted>, AllocError>
        ensures asks { IfOk result (λ wanted. AsksNow self.old self.new wanted.items) }
        ensures exact { OnOk result ((part : Part) → IsAsked self.new part
            ↔ (IsAsked self.old part ⊎ IsWantedCiphertext self.old last part)) }
        ensures only { OnOk result (OnlyAsks self.old self.new) }
        ensures unchanged { OnErr result (self.new ≡ self.old) }
        ensures right { IsSupply self.new }
    {
        let (asked, wanted) = self.ciphertext_parts(alloc, last)?;
        self.asked = asked;
        Ok(wanted)
    }

    /// Takes the block tree that the share hashes tell the root of.
    pub fn take_tree(&mut self, tree: BlockTree)
        requires due { IsDue self.old Part.ShareHashes }
        requires leads { IsBlockTree tree (segment_count self.old.geometry) }
        ensures taken { self.new
            ≡ record (with_taken self.old Part.ShareHashes) { tree = Some tree } }
        ensures right { IsSupply self.new }
    {
        self.tree = Some(tree);
        self.taken.pass(&Part::ShareHashes);
    }

    /// Takes a piece of the block tree, whose hashes are the bytes, 32 each. They are refused, as
    /// failing the check of the block tree, where they do not go with what is known.
    pub fn take_nodes(
        &mut self,
        alloc: Global,
        piece: &NodePiece,
        bytes: &[u8],
    ) -> Result<(), TreeFault>
        requires due { IsDue self.old (Part.BlockTree piece.now) }
        requires long { length bytes.now
            ≡ length_of self.old.geometry self.old.first self.old.end (Part.BlockTree piece.now) }
        ensures taken { OnOk result (TakesPiece self.old piece.now bytes.now self.new) }
        // When it is refused.
        ensures refused { (check : Check) → result ≡ Err (TreeFault.Check check)
            → (check ≡ Check.BlockTree) × RefutesPiece self.old piece.now bytes.now }
        ensures unchanged { OnErr result (self.new ≡ self.old) }
        ensures right { IsSupply self.new }
    {
        let nodes = self.plan.nodes(piece);
        // It is there: the share hashes are taken first.
        let Some(tree) = &mut self.tree else {
            return Ok(());
        };
        tree.take_nodes(alloc, &nodes, bytes)?;
        self.taken.pass(&Part::BlockTree(*piece));
        Ok(())
    }

    /// A piece of the ciphertext tree, which the share gave, is taken.
    pub fn take_ciphertext(&mut self, piece: &NodePiece)
        requires due { IsDue self.old (Part.CiphertextTree piece.now) }
        ensures taken { self.new ≡ with_taken self.old (Part.CiphertextTree piece.now) }
        ensures right { IsSupply self.new }
    {
        self.taken.pass(&Part::CiphertextTree(*piece));
    }

    /// Takes the next piece of the data, which is the answer at this position.
    pub fn take_data(&mut self, position: usize) -> Result<(), AllocError>
        requires due { self.old.taken.data_piece < self.old.asked.data_piece }
        ensures taken { OnOk result (self.new ≡ holds_more self.old position) }
        ensures unchanged { OnErr result (self.new ≡ self.old) }
        ensures right { IsSupply self.new }
    {
        self.held.push(position)?;
        self.taken.data_piece += 1;
        Ok(())
    }

    /// Whether the block of a segment can be told right or wrong: all pieces of the data that hold
    /// it are taken, and its hash is known.
    pub fn is_ready(&self, segment: u32) -> bool
        ensures ready { IsTrue result ↔ IsReady self.now segment }
        ensures right { IsSupply self.now }
    {
        if segment < self.plan.first || self.plan.end <= segment {
            return false;
        }
        let pieces = self.plan.block_pieces(segment);
        pieces.end as usize <= self.held.len() && self.hash(segment).is_some()
    }

    // The hash of a segment's block, where it is known.
    fn hash(&self, segment: u32) -> Option<[u8; 32]>
        requires { segment < self.now.end }
        ensures { result ≡ known_hash self.now segment }
    {
        match &self.tree {
            Some(tree) => tree.leaf(segment),
            None => None,
        }
    }

    /// Whether a block is the one of a segment, by the hash that is known.
    pub fn proves(&self, segment: u32, block: &[u8]) -> bool
        requires { segment < self.now.end }
        ensures { IsTrue result ↔ IsProved self.now segment block.now }
    {
        match &self.tree {
            Some(tree) => tree.proves(segment, block) == Some(true),
            None => false,
        }
    }

    /// Whether this is the hash that is known of a segment's block.
    pub fn proves_hash(&self, segment: u32, hash: &[u8; 32]) -> bool
        requires { segment < self.now.end }
        ensures { IsTrue result ↔ (known_hash self.now segment ≡ Some hash.now) }
    {
        match self.hash(segment) {
            Some(known) => known == *hash,
            None => false,
        }
    }

    /// The positions of the answers that hold the block of a segment, which is ready.
    pub fn block_positions(&self, segment: u32) -> &[usize]
        requires { IsHeld self.now segment }
        ensures { result.now ≡ block_positions self.now segment }
    {
        let pieces = self.plan.block_pieces(segment);
        &self.held[pieces.first as usize..pieces.end as usize]
    }

    /// Where the block of a segment begins in the first of those answers: below
    /// `download_parts::MAX_READ` bytes.
    pub fn block_offset(&self, segment: u32) -> u32
        requires { IsWithin self.now segment }
        ensures value { result ≡ block_offset self.now.geometry self.now.first segment }
        ensures low { result < max_read }
    {
        self.plan.block_offset(segment)
    }

    // The parts of its own plan that are wanted, and the cursors behind them.
    fn own_parts(&self, alloc: Global, last: u32) -> Result<(Cursors, Vec<Wanted>), AllocError>
        ensures step { IfOk result (λ r. IsStep self.now r.0 r.1.items) }
        ensures exact { IfOk result (λ r. (part : Part)
            → IsPassed r.0 part ↔ (IsPassed self.now.asked part ⊎ IsWanted self.now last part)) }
    {
        let plan = self.plan;
        if last < plan.first || plan.end <= last {
            return Ok((self.asked, Vec::new(alloc)));
        }
        let upto = Plan::of(&plan.geometry, plan.first, last + 1);
        let mut batch = Batch::new(alloc, &plan, &self.asked);
        batch.ask_hashes()?;
        batch.ask_tree(Tree::Blocks, &upto)?;
        batch.ask_data(upto.data_piece_count())?;
        Ok(batch.finish())
    }

    // The parts of the ciphertext tree that are wanted, and the cursors behind them.
    fn ciphertext_parts(
        &self,
        alloc: Global,
        last: u32,
    ) -> Result<(Cursors, Vec<Wanted>), AllocError>
        ensures step { IfOk result (λ r. IsStep self.now r.0 r.1.items) }
        ensures exact { IfOk result (λ r. (part : Part) → IsPassed r.0 part
            ↔ (IsPassed self.now.asked part ⊎ IsCiphertextUpTo self.now last part)) }
    {
        let end = self.plan.end;
        if last < self.start || end <= last {
            return Ok((self.asked, Vec::new(alloc)));
        }
        let geometry = self.plan.geometry;
        let upto = Plan::of(&geometry, self.start, last + 1);
        let mut batch = Batch::new(alloc, &Plan::of(&geometry, self.start, end), &self.asked);
        batch.ask_tree(Tree::Ciphertext, &upto)?;
        Ok(batch.finish())
    }
}
