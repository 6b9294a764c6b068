//! Parts of a plan that are asked together.

ghost use Rattle.std.specs.Prelude.{◌≡◌, ℕ, ◌+◌, ◌^◌, ◌<◌, ◌≤◌, OnOk, [], length, max, true};
ghost use Rattle.download_parts.specs.Level.{level_count, tree_height};
ghost use Rattle.download_parts.specs.Plan.{IsPart, data_pieces};
ghost use Rattle.download_supply.specs.Batch.{AreRaised, IsBatch, IsMore, IsOpen, levels_of};
ghost use Rattle.download_supply.specs.Batch.{part_of, raised, with_levels};
ghost use Rattle.download_supply.specs.Cursors.{IsNext, index_of, passed};
ghost use Rattle.download_supply.specs.Upper.{HasOverPassed};

use crate::cursors::Cursors;
use crate::tree::Tree;
use crate::wanted::Wanted;
use download_parts::{Part, Plan};
use std::alloc::{AllocError, Global};
use std::marker::Model;

/// Parts of a plan that are asked, one after another, from some cursors on.
#[derive(Drop)]
pub(crate) struct Batch {
    plan: Plan,
    begun: Cursors,
    reached: Cursors,
    wanted: Vec<Wanted>,
}

impl Model for Batch {
    ghost use Rattle.download_supply.specs.Batch.{BatchState, IsBatch, batch_state};

    ghost Value = { BatchState };

    ghost view = { λ b. batch_state b.plan.geometry b.plan.first b.plan.end b.begun b.reached
        b.wanted.items };

    ghost invariant = { λ b. IsBatch (batch_state b.plan.geometry b.plan.first b.plan.end b.begun
        b.reached b.wanted.items) };
}

impl Batch {
    /// No part yet.
    pub(crate) fn new(alloc: Global, plan: &Plan, begun: &Cursors) -> Batch
        ensures geometry { result.geometry ≡ plan.now.geometry }
        ensures first { result.first ≡ plan.now.first }
        ensures end { result.end ≡ plan.now.end }
        ensures begun { result.begun ≡ begun.now }
        ensures reached { result.reached ≡ begun.now }
    {
        Batch {
            plan: *plan,
            begun: *begun,
            reached: *begun,
            wanted: Vec::new(alloc),
        }
    }

    /// The cursors that are reached, and the parts.
    pub(crate) fn finish(self) -> (Cursors, Vec<Wanted>)
        ensures reached { result.0 ≡ self.reached }
        ensures wanted { result.1.items ≡ self.wanted }
        ensures right { IsBatch self }
    {
        (self.reached, self.wanted)
    }

    // Asks the part that is the next of its section or level.
    fn ask(&mut self, part: Part) -> Result<(), AllocError>
        requires part { IsPart self.old.geometry self.old.first self.old.end part }
        requires next { IsNext self.old.reached part }
        requires upper { HasOverPassed self.old.geometry self.old.first self.old.reached part }
        requires low { index_of part + 1 < 2 ^ 32 }
        ensures reached { OnOk result (self.new.reached ≡ passed self.old.reached part) }
        ensures more { IsMore self.old self.new }
    {
        let read = self.plan.read(&part);
        self.wanted.push(Wanted { part, read })?;
        self.reached.pass(&part);
        Ok(())
    }

    /// Asks the share hashes, where they were not asked.
    pub(crate) fn ask_hashes(&mut self) -> Result<(), AllocError>
        ensures reached { OnOk result
            (self.new.reached ≡ record self.old.reached { share_hashes = true }) }
        ensures more { IsMore self.old self.new }
    {
        if self.reached.share_hashes {
            return Ok(());
        }
        self.ask(Part::ShareHashes)
    }

    // Asks the pieces of a level of a tree before this one.
    fn ask_level(&mut self, tree: Tree, level: u32, count: u32) -> Result<(), AllocError>
        requires there { level < length (levels_of tree self.old.reached) }
        requires parts { (index : ℕ) → index < count
            → IsPart self.old.geometry self.old.first self.old.end (part_of tree level index) }
        requires upper { (index : ℕ) → index < count → HasOverPassed self.old.geometry
            self.old.first self.old.reached (part_of tree level index) }
        requires opened { IsOpen tree self.old.reached }
        ensures reached { OnOk result (self.new.reached ≡ with_levels tree self.old.reached
            (raised (levels_of tree self.old.reached) level count)) }
        ensures more { IsMore self.old self.new }
    {
        let from = self.reached.of_level(tree, level);
        for index in from..count {
            self.ask(tree.part(level, index))?;
        }
        Ok(())
    }

    /// Asks the pieces of a tree that this plan has.
    pub(crate) fn ask_tree(&mut self, tree: Tree, plan: &Plan) -> Result<(), AllocError>
        requires geometry { plan.now.geometry ≡ self.old.geometry }
        requires first { plan.now.first ≡ self.old.first }
        requires end { plan.now.end ≤ self.old.end }
        requires levels { length (levels_of tree self.old.reached) ≡ 3 }
        requires opened { IsOpen tree self.old.reached }
        ensures levels { OnOk result (AreRaised plan.now.geometry plan.now.first plan.now.end
            (level_count (tree_height plan.now.geometry))
            (levels_of tree self.old.reached) (levels_of tree self.new.reached)) }
        ensures others { OnOk result (self.new.reached
            ≡ with_levels tree self.old.reached (levels_of tree self.new.reached)) }
        ensures more { IsMore self.old self.new }
    {
        for level in 0..plan.level_count() {
            self.ask_level(tree, level, plan.piece_count(level))?;
        }
        Ok(())
    }

    /// Asks the pieces of the data before this one.
    pub(crate) fn ask_data(&mut self, count: u32) -> Result<(), AllocError>
        requires { count ≤ data_pieces self.old.geometry self.old.first self.old.end }
        ensures reached { OnOk result (self.new.reached
            ≡ record self.old.reached { data_piece = max self.old.reached.data_piece count }) }
        ensures more { IsMore self.old self.new }
    {
        for index in self.reached.data_piece..count {
            self.ask(Part::Data(index))?;
        }
        Ok(())
    }
}
