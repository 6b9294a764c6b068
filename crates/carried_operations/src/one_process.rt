//! What answers over the servers of one process say.

ghost use Rattle.std.specs.Prelude.{◌↔◌, ℕ};
ghost use Rattle.wire.specs.declared.message.Message.{Message};
ghost use Rattle.local_grid.specs.Turns as one;
ghost use Rattle.local_grid.specs.Local.{local_calls, of_one};
ghost use Rattle.local_grid.specs.OutsideTurns.{LoopState};
ghost use Rattle.carried_operations.specs.Came.{Brings};
ghost use Rattle.carried_operations.specs.OneProcess.{IsAnswered};

use local_grid::link::Link;
use request_record::operation::Operation;
use share_store::store::Store;

/// Over the servers of one process an answer came in a turn exactly where its server was asked in
/// that turn, and answered over its link. The law is the contract; the call does nothing.
pub fn answers_of_one_process<O: Operation, S: Store, L: Link>()
    ensures { (server : ℕ) (answer : Message) (old new : LoopState O (one.GridState S L))
        → Brings O.calls (local_calls S.calls L.carries L.gives_up) server answer old new
        ↔ IsAnswered O.calls S.calls L.carries server answer (of_one old) (of_one new) }
{}
