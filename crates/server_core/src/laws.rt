//! What holds of every server over a store that keeps. Each law is a contract; its call does
//! nothing.

ghost use Rattle.server_core.specs.Sound.{MessagesKeep, TicksKeep, RestartsKeep, StartsSound};
ghost use Rattle.server_core.specs.Sound.{MessagesLeaveOthers, TicksLeaveClosed};
ghost use Rattle.server_core.specs.Sound.{RestartsLeaveClosed, LettingGoLeavesWritten};
ghost use Rattle.server_core.specs.Sound.{ForgettingKeeps, ForgettingLeavesOthers};
ghost use Rattle.server_core.specs.Sound.{LettingGoKeeps};

/// A message leaves closed shares as they are, and the buckets of other clients and sessions and
/// their bytes, whatever the server's state.
pub fn messages_leave_others()
    ensures { MessagesLeaveOthers }
{}

/// A tick leaves closed shares as they are, whatever the server's state.
pub fn ticks_leave_closed()
    ensures { TicksLeaveClosed }
{}

/// A restart leaves closed shares as they are, whatever the server's state.
pub fn restarts_leave_closed()
    ensures { RestartsLeaveClosed }
{}

/// Where its store lets go of shares, a server leaves closed shares as they are, and what clients
/// have written, whatever its state.
pub fn letting_go_leaves_written()
    ensures { LettingGoLeavesWritten }
{}

/// Where a client is forgotten, the buckets of all other clients stay, and none of its own does.
pub fn forgetting_leaves_others()
    ensures { ForgettingLeavesOthers }
{}

/// A message leaves a sound server sound, its closed shares as they are, and the buckets of other
/// clients and sessions and their bytes; what `Already`, `Closed`, `Have` and `Data` tell is so.
pub fn messages_keep()
    ensures { MessagesKeep }
{}

/// A tick leaves a sound server sound, and its closed shares as they are.
pub fn ticks_keep()
    ensures { TicksKeep }
{}

/// A restart leaves a sound server sound, and its closed shares as they are.
pub fn restarts_keep()
    ensures { RestartsKeep }
{}

/// A client that is forgotten leaves a sound server sound, and its closed shares as they are.
pub fn forgetting_keeps()
    ensures { ForgettingKeeps }
{}

/// A store that lets go of shares leaves a sound server sound, and its closed shares as they are.
pub fn letting_go_keeps()
    ensures { LettingGoKeeps }
{}

/// A server whose closed shares have the digests of their bytes is sound from its start on.
pub fn starts_sound()
    ensures { StartsSound }
{}
