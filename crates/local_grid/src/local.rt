//! The servers of one process alone, and what the loop of one process does.

ghost use Rattle.std.specs.Prelude.{◌↔◌};
ghost use Rattle.local_grid.specs.Turns as one;
ghost use Rattle.local_grid.specs.Local.{local_calls, of_one};
ghost use Rattle.local_grid.specs.OutsideTurns.{LoopState, Turns};

use crate::grid::LocalGrid;
use crate::link::Link;
use crate::outside::{Happening, Outside};
use request_record::operation::Operation;
use share_store::store::Store;
use std::alloc::AllocError;
use wire::message::{Message, NodeId};

/// The seconds that pass in a tick.
const STEP: u64 = 5;

impl<S: Store, L: Link> Outside for LocalGrid<S, L> {
    ghost calls = { local_calls S.calls L.carries L.gives_up };

    fn clock(&self) -> u64 {
        self.clock()
    }

    fn hand(&mut self, node: NodeId, message: &Message) -> Result<Option<Message>, AllocError> {
        self.exchange(node, message)
    }

    fn wait(&mut self) -> Result<Happening, AllocError> {
        let second = self.clock().saturating_add(STEP);
        self.pass_to(second);
        Ok(Happening::Second(second))
    }
}

/// Over the servers of one process a turn of this loop is one of the loop of that process. So what
/// holds of turns here holds of those. The law is the contract; the call does nothing.
pub fn turns_of_one_process<O: Operation, S: Store, L: Link>()
    ensures { (old new : LoopState O (one.GridState S L))
        → Turns O.calls (local_calls S.calls L.carries L.gives_up) old new
        ↔ one.Turns O.calls S.calls L.carries (of_one old) (of_one new) }
{}
