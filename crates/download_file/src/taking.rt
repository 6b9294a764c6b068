//! Parts of shares that are taken.

ghost use Rattle.std.specs.Prelude.{◌≡◌, ◌↔◌, ◌<◌, ℕ, Err, IsTrue, List, OnErr, OnOk, drop, length};
ghost use Rattle.download_supply.specs.Cursors.{cursor_at};
ghost use Rattle.download_supply.specs.Supply.{IsSupply};
ghost use Rattle.download_supply.specs.Taking.{IsDue, with_taken};
ghost use Rattle.download_file.specs.Steps.{IsTaker, TakesPart};
ghost use Rattle.download_file.specs.Taking.{RefutesPart};

use crate::reader::{Reader, Waiting};
use download_parts::{NodePiece, Part, Plan, TreeFault};
use download_segments::Handout;
use share_verify::Check;
use std::alloc::Global;

/// Takes bytes as the first part that waits of a reader, of which they have the length, in a
/// download by this plan. `taken` counts the pieces of the ciphertext tree that were taken.
pub(crate) fn take_part(
    alloc: Global,
    plan: &Plan,
    handout: &mut Handout,
    reader: &mut Reader,
    taken: &mut [u32; 3],
    first: &Waiting,
    bytes: &[u8],
) -> Result<(), TreeFault>
    requires taker { IsTaker handout.old plan.now.first plan.now.end reader.old first.now }
    requires plan { plan.now.geometry ≡ handout.old.geometry }
    requires long { length bytes.now ≡ first.now.wanted.read.length }
    ensures taken { OnOk result (TakesPart handout.old reader.old taken.old plan.now.first
        plan.now.end first.now.wanted.part first.now.position handout.new reader.new taken.new) }
    ensures refused { (check : Check) → result ≡ Err (TreeFault.Check check)
        → RefutesPart handout.old plan.now.first plan.now.end reader.old
        first.now.wanted.part bytes.now check }
    ensures handout { OnErr result (handout.new ≡ handout.old) }
    ensures reader { OnErr result (reader.new ≡ reader.old) }
    ensures pieces { OnErr result (taken.new ≡ taken.old) }
{
    match first.wanted.part {
        Part::ShareHashes => take_hashes(plan, handout, reader, first, bytes),
        Part::BlockTree(piece) => take_nodes(alloc, plan, handout, reader, &piece, first, bytes),
        Part::CiphertextTree(piece) => {
            take_ciphertext(plan, handout, reader, taken, &piece, first, bytes)
        }
        Part::Data(index) => take_data(plan, handout, reader, index, first),
    }
}

// Takes the share hashes.
fn take_hashes(
    plan: &Plan,
    handout: &mut Handout,
    reader: &mut Reader,
    first: &Waiting,
    bytes: &[u8],
) -> Result<(), TreeFault>
    requires part { first.now.wanted.part ≡ Part.ShareHashes }
    requires taker { IsTaker handout.old plan.now.first plan.now.end reader.old first.now }
    requires plan { plan.now.geometry ≡ handout.old.geometry }
    requires long { length bytes.now ≡ first.now.wanted.read.length }
    ensures taken { OnOk result ((taken : List ℕ) → TakesPart handout.old reader.old taken
        plan.now.first plan.now.end first.now.wanted.part first.now.position handout.new reader.new
        taken) }
    ensures refused { (check : Check) → result ≡ Err (TreeFault.Check check)
        → RefutesPart handout.old plan.now.first plan.now.end reader.old
        first.now.wanted.part bytes.now check }
    ensures handout { OnErr result (handout.new ≡ handout.old) }
    ensures reader { OnErr result (reader.new ≡ reader.old) }
{
    let _ = plan;
    let _ = first;
    let share = u16::from(reader.share());
    let tree = handout.take_share_hashes(share, bytes)?;
    reader.take_tree(tree);
    Ok(())
}

// Takes a piece of the block tree.
fn take_nodes(
    alloc: Global,
    plan: &Plan,
    handout: &Handout,
    reader: &mut Reader,
    piece: &NodePiece,
    first: &Waiting,
    bytes: &[u8],
) -> Result<(), TreeFault>
    requires part { first.now.wanted.part ≡ Part.BlockTree piece.now }
    requires taker { IsTaker handout.now plan.now.first plan.now.end reader.old first.now }
    requires plan { plan.now.geometry ≡ handout.now.geometry }
    requires long { length bytes.now ≡ first.now.wanted.read.length }
    ensures taken { OnOk result ((taken : List ℕ) → TakesPart handout.now reader.old taken
        plan.now.first plan.now.end first.now.wanted.part first.now.position handout.now reader.new
        taken) }
    ensures refused { (check : Check) → result ≡ Err (TreeFault.Check check)
        → RefutesPart handout.now plan.now.first plan.now.end reader.old
        first.now.wanted.part bytes.now check }
    ensures reader { OnErr result (reader.new ≡ reader.old) }
{
    let _ = plan;
    let _ = handout;
    let _ = first;
    reader.take_nodes(alloc, piece, bytes)
}

// Takes a piece of the ciphertext tree.
fn take_ciphertext(
    plan: &Plan,
    handout: &mut Handout,
    reader: &mut Reader,
    taken: &mut [u32; 3],
    piece: &NodePiece,
    first: &Waiting,
    bytes: &[u8],
) -> Result<(), TreeFault>
    requires part { first.now.wanted.part ≡ Part.CiphertextTree piece.now }
    requires taker { IsTaker handout.old plan.now.first plan.now.end reader.old first.now }
    requires plan { plan.now.geometry ≡ handout.old.geometry }
    requires long { length bytes.now ≡ first.now.wanted.read.length }
    ensures taken { OnOk result (TakesPart handout.old reader.old taken.old plan.now.first
        plan.now.end first.now.wanted.part first.now.position handout.new reader.new taken.new) }
    ensures refused { (check : Check) → result ≡ Err (TreeFault.Check check)
        → RefutesPart handout.old plan.now.first plan.now.end reader.old
        first.now.wanted.part bytes.now check }
    ensures handout { OnErr result (handout.new ≡ handout.old) }
    ensures reader { OnErr result (reader.new ≡ reader.old) }
    ensures pieces { OnErr result (taken.new ≡ taken.old) }
{
    let _ = first;
    // Another reader gave it, where this one was put aside.
    if was_taken(taken, piece) {
        pass_over(reader, piece);
        return Ok(());
    }
    let nodes = plan.nodes(piece);
    handout.take_nodes(&nodes, bytes)?;
    reader.take_ciphertext(piece);
    taken[piece.level as usize] = piece.index + 1;
    Ok(())
}

// Whether this piece of the ciphertext tree was taken.
fn was_taken(taken: &[u32; 3], piece: &NodePiece) -> bool
    requires { piece.now.level < 3 }
    ensures { IsTrue result ↔ (piece.now.index < cursor_at taken.now piece.now.level) }
{
    piece.index < taken[piece.level as usize]
}

// A piece of the ciphertext tree that another reader gave is passed over.
fn pass_over(reader: &mut Reader, piece: &NodePiece)
    requires { IsDue reader.old.supply (Part.CiphertextTree piece.now) }
    ensures taken { reader.new ≡ record reader.old {
      supply = with_taken reader.old.supply (Part.CiphertextTree piece.now);
      waiting = drop 1 reader.old.waiting;
    } }
    ensures right { IsSupply reader.new.supply }
{
    reader.take_ciphertext(piece);
}

// Takes a piece of the data.
fn take_data(
    plan: &Plan,
    handout: &Handout,
    reader: &mut Reader,
    index: u32,
    first: &Waiting,
) -> Result<(), TreeFault>
    requires part { first.now.wanted.part ≡ Part.Data index }
    requires taker { IsTaker handout.now plan.now.first plan.now.end reader.old first.now }
    ensures taken { OnOk result ((taken : List ℕ) → TakesPart handout.now reader.old taken
        plan.now.first plan.now.end first.now.wanted.part first.now.position handout.now reader.new
        taken) }
    ensures refused { (check : Check) → ¬ (result ≡ Err (TreeFault.Check check)) }
    ensures reader { OnErr result (reader.new ≡ reader.old) }
{
    let _ = plan;
    let _ = handout;
    let _ = index;
    reader.take_data(first.position)?;
    Ok(())
}
