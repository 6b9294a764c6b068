//! What holds of any two worlds. The law is a contract; its call does nothing.

ghost use Rattle.world.specs.Later.{IsLater, NothingClashedBefore};
ghost use Rattle.world.specs.State.{WorldState};

/// Where no two inputs of a later world clash, none of an earlier one do: so what the calls of an
/// earlier world promise unless inputs clash holds of it.
pub fn nothing_clashed_before()
    ensures { (old new : WorldState) → IsLater old new → NothingClashedBefore old new }
{}
