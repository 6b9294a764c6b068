//! A share that is read.

ghost use Rattle.std.specs.Prelude.{◌≡◌, ◌<◌, ◌≤◌, ◌++◌, ◌∷◌, ℕ, [], true, false, All, Contains};
ghost use Rattle.std.specs.Prelude.{Err, IfOk, OnErr, OnOk, Some, drop, length};
ghost use Rattle.std.specs.Prelude.{slice_get};
ghost use Rattle.share_layout.specs.Geometry.{segment_count};
ghost use Rattle.download_parts.specs.Plan.{IsNodePiece, length_of};
ghost use Rattle.download_parts.specs.Trees.{IsBlockTree};
ghost use Rattle.download_supply.specs.Asking.{OnlyAsks};
ghost use Rattle.download_supply.specs.Cursors.{cursor_at};
ghost use Rattle.download_supply.specs.Supply.{IsSupply, new_supply};
ghost use Rattle.download_supply.specs.Taking.{IsDue, RefutesPiece, TakesPiece, holds_more};
ghost use Rattle.download_supply.specs.Taking.{with_taken};
ghost use Rattle.download_file.specs.State.{ReaderState, first_position, waiting_from, without};
ghost use Rattle.download_file.specs.Steps.{Asks, AsksNoTree, CanGive, EndsReader, Gives};
ghost use Rattle.download_file.specs.Steps.{GivesFirst, IsBegun, Leaves, Resumes};

use download_parts::{BlockTree, NodePiece, Part, Plan, TreeFault};
use download_supply::{Supply, Wanted};
use share_verify::Check;
use std::alloc::{AllocError, Global};
use std::collections::VecDeque;
use std::marker::Model;
use wire::message::NodeId;

/// A part that was asked of a reader and not taken yet.
#[derive(Clone, Copy, PartialEq, Eq)]
pub struct Waiting {
    /// The position of the request that asked it.
    pub position: usize,
    /// The part, and its bytes.
    pub wanted: Wanted,
}

/// A share at a server that is read.
#[derive(Drop)]
pub(crate) struct Reader {
    server: NodeId,
    share: u8,
    supply: Supply,
    waiting: VecDeque<Waiting>,
}

impl Model for Reader {
    ghost use Rattle.download_file.specs.State.{ReaderState};

    ghost Value = { ReaderState };

    ghost view = { λ r. record {
      server = r.server;
      share = r.share;
      supply = r.supply;
      waiting = r.waiting.items;
    } };
}

impl Reader {
    /// A reader of the segments from `first` on of a share with this number at a server, in a
    /// download by this plan. Nothing is asked of it yet.
    pub(crate) fn new(alloc: Global, plan: &Plan, first: u32, server: NodeId, share: u8) -> Reader
        requires from { plan.now.first ≤ first }
        requires before { first < plan.now.end }
        ensures server { result.server ≡ server }
        ensures share { result.share ≡ share }
        ensures supply { result.supply
            ≡ new_supply plan.now.geometry plan.now.first first plan.now.end }
        ensures waiting { result.waiting ≡ [] }
        ensures right { IsSupply result.supply }
    {
        Reader {
            server,
            share,
            supply: Supply::new(alloc, plan, first),
            waiting: VecDeque::new(alloc),
        }
    }

    /// The number of the share.
    pub(crate) fn share(&self) -> u8
        ensures { result ≡ self.now.share }
    {
        self.share
    }

    /// What was asked and taken of it.
    pub(crate) fn supply(&self) -> &Supply
        ensures { result.now ≡ self.now.supply }
    {
        &self.supply
    }

    /// The first part that waits.
    pub(crate) fn first(&self) -> Option<Waiting>
        ensures { result ≡ slice_get self.now.waiting 0 }
    {
        self.waiting.front().copied()
    }

    /// The position of the request that asked it.
    pub(crate) fn first_position(&self) -> Option<usize>
        ensures { result ≡ first_position self.now.waiting }
    {
        match self.waiting.front() {
            Some(first) => Some(first.position),
            None => None,
        }
    }

    /// From now on it gives the ciphertext tree: from these pieces of each level on where it was
    /// asked for none of it, and else from where it was.
    pub(crate) fn give(&mut self, taken: &[u32; 3])
        requires { CanGive self.old taken.now }
        ensures gives { Gives self.old taken.now self.new }
        ensures right { IsSupply self.new.supply }
    {
        if self.supply.gave_none() {
            self.supply.give_ciphertext(taken);
        }
    }

    /// It is read no more.
    pub(crate) fn stop(&mut self)
        ensures { self.new ≡ record self.old { waiting = [] } }
    {
        self.waiting.clear();
    }

    /// What is to be asked of it for the segments up to this one, of the ciphertext tree too where
    /// it gives that. It waits from now on, the first part at this position and the others behind.
    pub(crate) fn ask(
        &mut self,
        alloc: Global,
        gives: bool,
        last: u32,
        position: usize,
    ) -> Result<Vec<Wanted>, AllocError>
        ensures asks { IfOk result (λ wanted.
            Asks self.old.supply gives last wanted.items self.new.supply) }
        ensures waits { IfOk result (λ wanted.
            self.new.waiting ≡ self.old.waiting ++ waiting_from position wanted.items) }
        // It is asked for the ciphertext tree only where it gives that.
        ensures none { gives ≡ false → AsksNoTree self.old.supply self.new.supply }
        ensures only { OnlyAsks self.old.supply self.new.supply }
        ensures server { self.new.server ≡ self.old.server }
        ensures share { self.new.share ≡ self.old.share }
        ensures right { IsSupply self.new.supply }
    {
        let wanted = ask_supply(alloc, &mut self.supply, gives, last)?;
        wait_for(&mut self.waiting, position, &wanted)?;
        Ok(wanted)
    }

    /// Takes the block tree that the share hashes tell the root of.
    pub(crate) fn take_tree(&mut self, tree: BlockTree)
        requires due { IsDue self.old.supply Part.ShareHashes }
        requires leads { IsBlockTree tree (segment_count self.old.supply.geometry) }
        ensures taken { self.new ≡ record self.old {
          supply = record (with_taken self.old.supply Part.ShareHashes) { tree = Some tree };
          waiting = drop 1 self.old.waiting;
        } }
        ensures right { IsSupply self.new.supply }
    {
        self.supply.take_tree(tree);
        drop_first(&mut self.waiting);
    }

    /// Takes a piece of the block tree, whose hashes are the bytes, 32 each.
    pub(crate) fn take_nodes(
        &mut self,
        alloc: Global,
        piece: &NodePiece,
        bytes: &[u8],
    ) -> Result<(), TreeFault>
        requires due { IsDue self.old.supply (Part.BlockTree piece.now) }
        requires long { length bytes.now ≡ length_of self.old.supply.geometry
            self.old.supply.first self.old.supply.end (Part.BlockTree piece.now) }
        ensures taken { OnOk result
            (TakesPiece self.old.supply piece.now bytes.now self.new.supply) }
        ensures server { self.new.server ≡ self.old.server }
        ensures share { self.new.share ≡ self.old.share }
        ensures waiting { OnOk result (self.new.waiting ≡ drop 1 self.old.waiting) }
        ensures refused { (check : Check) → result ≡ Err (TreeFault.Check check)
            → (check ≡ Check.BlockTree) × RefutesPiece self.old.supply piece.now bytes.now }
        ensures unchanged { OnErr result (self.new ≡ self.old) }
        ensures right { IsSupply self.new.supply }
    {
        self.supply.take_nodes(alloc, piece, bytes)?;
        drop_first(&mut self.waiting);
        Ok(())
    }

    /// A piece of the ciphertext tree, which the share gave, is taken.
    pub(crate) fn take_ciphertext(&mut self, piece: &NodePiece)
        requires due { IsDue self.old.supply (Part.CiphertextTree piece.now) }
        ensures taken { self.new ≡ record self.old {
          supply = with_taken self.old.supply (Part.CiphertextTree piece.now);
          waiting = drop 1 self.old.waiting;
        } }
        ensures right { IsSupply self.new.supply }
    {
        self.supply.take_ciphertext(piece);
        drop_first(&mut self.waiting);
    }

    /// Takes the next piece of the data, which is the answer at this position.
    pub(crate) fn take_data(&mut self, position: usize) -> Result<(), AllocError>
        requires due { self.old.supply.taken.data_piece < self.old.supply.asked.data_piece }
        ensures taken { OnOk result (self.new ≡ record self.old {
          supply = holds_more self.old.supply position;
          waiting = drop 1 self.old.waiting;
        }) }
        ensures unchanged { OnErr result (self.new ≡ self.old) }
        ensures right { IsSupply self.new.supply }
    {
        self.supply.take_data(position)?;
        drop_first(&mut self.waiting);
        Ok(())
    }
}

// What a supply is to be asked for the segments up to this one, of the ciphertext tree too where it
// gives that.
fn ask_supply(
    alloc: Global,
    supply: &mut Supply,
    gives: bool,
    last: u32,
) -> Result<Vec<Wanted>, AllocError>
    ensures asks { IfOk result (λ wanted. Asks supply.old gives last wanted.items supply.new) }
    ensures none { gives ≡ false → AsksNoTree supply.old supply.new }
    ensures only { OnlyAsks supply.old supply.new }
    ensures right { IsSupply supply.new }
{
    if gives {
        ask_giver(alloc, supply, last)
    } else {
        ask_other(alloc, supply, last)
    }
}

// What a supply that gives the ciphertext tree is to be asked.
fn ask_giver(alloc: Global, supply: &mut Supply, last: u32) -> Result<Vec<Wanted>, AllocError>
    ensures asks { IfOk result (λ wanted. Asks supply.old true last wanted.items supply.new) }
    ensures only { OnlyAsks supply.old supply.new }
    ensures right { IsSupply supply.new }
{
    let mut wanted = supply.wanted(alloc, last)?;
    let mut more = supply.wanted_ciphertext(alloc, last)?;
    wanted.append(&mut more)?;
    Ok(wanted)
}

// What another supply is to be asked.
fn ask_other(alloc: Global, supply: &mut Supply, last: u32) -> Result<Vec<Wanted>, AllocError>
    ensures asks { IfOk result (λ wanted. Asks supply.old false last wanted.items supply.new) }
    ensures none { AsksNoTree supply.old supply.new }
    ensures only { OnlyAsks supply.old supply.new }
    ensures right { IsSupply supply.new }
{
    supply.wanted(alloc, last)
}

// These parts wait from now on, the first at this position and the others behind.
fn wait_for(
    waiting: &mut VecDeque<Waiting>,
    position: usize,
    wanted: &[Wanted],
) -> Result<(), AllocError>
    ensures { OnOk result (waiting.new.items ≡ waiting.old.items
        ++ waiting_from position wanted.now) }
{
    let mut position = position;
    for part in wanted {
        waiting.push_back(Waiting {
            position,
            wanted: *part,
        })?;
        let Some(next) = position.checked_add(1) else {
            return Err(AllocError);
        };
        position = next;
    }
    Ok(())
}

// The first part waits no more.
fn drop_first(waiting: &mut VecDeque<Waiting>)
    ensures { waiting.new.items ≡ drop 1 waiting.old.items }
{
    let _ = waiting.pop_front();
}

/// A reader of the segments from `first` on of a share with this number at a server, in a download
/// by this plan. Where it gives the ciphertext tree, it does from what was taken on.
pub(crate) fn begin_reader(
    alloc: Global,
    plan: &Plan,
    first: u32,
    server: NodeId,
    share: u8,
    gives: bool,
    taken: &[u32; 3],
) -> Reader
    requires from { plan.now.first ≤ first }
    requires before { first < plan.now.end }
    requires pieces { (p : NodePiece) → p.index < cursor_at taken.now p.level
        → IsNodePiece plan.now.geometry plan.now.first plan.now.end p }
    ensures { IsBegun plan.now.geometry plan.now.first first plan.now.end server share gives
        taken.now result }
{
    let mut reader = Reader::new(alloc, plan, first, server, share);
    if !gives {
        return reader;
    }
    reader.give(taken);
    reader
}

/// The reader at a position is read no more, and not put aside. Where it gave the ciphertext tree,
/// the first that is left gives it from now on.
pub(crate) fn end_reader(
    readers: &mut Vec<Reader>,
    live: &mut Vec<usize>,
    aside: &mut Vec<usize>,
    taken: &[u32; 3],
    reader: usize,
)
    requires there { All (λ position. position < length readers.old.items) live.old.items }
    requires found { reader < length readers.old.items }
    requires gives { (position : ℕ) → (r : ReaderState) → Contains live.old.items position
        → slice_get readers.old.items position ≡ Some r → CanGive r taken.now }
    ensures live { live.new.items ≡ without reader live.old.items }
    ensures aside { aside.new.items ≡ without reader aside.old.items }
    ensures ends { EndsReader readers.old.items live.old.items taken.now reader
        readers.new.items }
{
    readers[reader].stop();
    drop_reader(aside, reader);
    leave(readers, live, taken, reader);
}

/// The reader at a position is not one of those that are read any more. Where it gave the
/// ciphertext tree, the first that is left gives it from now on.
pub(crate) fn leave(
    readers: &mut Vec<Reader>,
    live: &mut Vec<usize>,
    taken: &[u32; 3],
    reader: usize,
)
    requires there { All (λ position. position < length readers.old.items) live.old.items }
    requires gives { (position : ℕ) → (r : ReaderState)
        → Contains (without reader live.old.items) position
        → slice_get readers.old.items position ≡ Some r → CanGive r taken.now }
    ensures live { live.new.items ≡ without reader live.old.items }
    ensures leaves { Leaves readers.old.items live.old.items taken.now reader readers.new.items }
{
    let gave = live.first().copied() == Some(reader);
    drop_reader(live, reader);
    if gave {
        give_first(readers, live, taken);
    }
}

/// The reader at a position, which is put aside, is read again, behind the others. Where there is
/// no other it gives the ciphertext tree. Where memory is refused nothing changes.
pub(crate) fn resume_reader(
    readers: &mut Vec<Reader>,
    live: &mut Vec<usize>,
    aside: &mut Vec<usize>,
    taken: &[u32; 3],
    reader: usize,
) -> Result<(), AllocError>
    requires there { reader < length readers.old.items }
    requires gives { (r : ReaderState) → slice_get readers.old.items reader ≡ Some r
        → CanGive r taken.now }
    ensures live { OnOk result (live.new.items ≡ live.old.items ++ reader ∷ []) }
    ensures aside { OnOk result (aside.new.items ≡ without reader aside.old.items) }
    ensures resumes { OnOk result (Resumes readers.old.items live.old.items taken.now reader
        readers.new.items) }
    ensures same_live { OnErr result (live.new.items ≡ live.old.items) }
    ensures same_aside { OnErr result (aside.new.items ≡ aside.old.items) }
    ensures unchanged { OnErr result (readers.new.items ≡ readers.old.items) }
{
    let alone = live.is_empty();
    live.push(reader)?;
    drop_reader(aside, reader);
    if alone {
        give_first(readers, &[reader], taken);
    }
    Ok(())
}

// The reader at a position is not listed any more.
fn drop_reader(listed: &mut Vec<usize>, reader: usize)
    ensures { listed.new.items ≡ without reader listed.old.items }
{
    listed.retain(|position| !(*position == reader));
}

// The first of these readers, where there is one, gives the ciphertext tree from now on.
fn give_first(readers: &mut Vec<Reader>, live: &[usize], taken: &[u32; 3])
    requires there { All (λ position. position < length readers.old.items) live.now }
    requires gives { (position : ℕ) → (r : ReaderState) → Contains live.now position
        → slice_get readers.old.items position ≡ Some r → CanGive r taken.now }
    ensures { GivesFirst readers.old.items live.now taken.now readers.new.items }
{
    if let Some(position) = live.first().copied() {
        readers[position].give(taken);
    }
}
