//! Servers of one process alone.

ghost use Rattle.std.specs.Prelude.{◌≡◌, ℕ, [], Option};
ghost use Rattle.wire.specs.declared.message.Message.{Message};
ghost use Rattle.local_grid.specs.Local.{local_calls};
ghost use Rattle.local_grid.specs.declared.outside.Happening.{Happening};
ghost use Rattle.served_grid.specs.Served.{ServedState, served_calls};

use connections::Wire;
use local_grid::link::Link;
use share_store::store::Store;

/// Where no server is served elsewhere, what happens is what happens in a grid of one process.
#[tactic(auto, using(crate::proofs::Alone::hands_alone, crate::proofs::Alone::happens_alone, crate::proofs::Alone::stops_alone))]
pub fn know_alone<S: Store, L: Link, W: Wire>()
    ensures handed { (old new : ServedState S L W) (node : ℕ) (m : Message)
        (answer : Option Message) → old.remotes ≡ []
        → (served_calls S.calls L.carries L.gives_up W.calls).handed old node m answer new
        → (local_calls S.calls L.carries L.gives_up).handed old.here node m answer new.here
        × (new.remotes ≡ []) }
    ensures happened { (old new : ServedState S L W) (happening : Happening) → old.remotes ≡ []
        → (served_calls S.calls L.carries L.gives_up W.calls).happened old happening new
        → (local_calls S.calls L.carries L.gives_up).happened old.here happening new.here
        × (new.remotes ≡ []) }
    ensures hand_stops { (old new : ServedState S L W) (node : ℕ) (m : Message)
        → old.remotes ≡ []
        → (served_calls S.calls L.carries L.gives_up W.calls).hand_stops old node m new
        → (local_calls S.calls L.carries L.gives_up).hand_stops old.here node m new.here
        × (new.remotes ≡ []) }
    ensures wait_stops { (old new : ServedState S L W) → old.remotes ≡ []
        → ¬ ((served_calls S.calls L.carries L.gives_up W.calls).wait_stops old new) }
{}
