//! What servers that stay open do, where they are those of one process.

ghost use Rattle.std.specs.Prelude.{◌↔◌};
ghost use Rattle.local_grid.specs.Turns.{GridState};
ghost use Rattle.local_grid.specs.Local.{local_calls};
ghost use Rattle.grid_shares.specs.Standing.{GoesOn, IsStep};

use local_grid::link::Link;
use share_store::store::Store;

/// To the servers of one process nothing comes while they stay open but messages over their links,
/// whose answers come back, and five seconds at a time. The law is the contract; the call does
/// nothing.
pub fn steps_of_one_process<S: Store, L: Link>()
    ensures { (old new : GridState S L)
        → GoesOn (local_calls S.calls L.carries L.gives_up) old new
        ↔ IsStep S.calls L.carries old new }
{}
