//! What holds of whole courses of a connection. Each law is a contract; its call does nothing.

ghost use Rattle.std.specs.Prelude.{◌≡◌, ◌++◌, List, ℕ, [], length};
ghost use Rattle.wire.specs.Stream.{stream};
ghost use Rattle.wire.specs.declared.message.Message.{Message};
ghost use Rattle.connections.specs.Connections.{ConnectionState, begun};
ghost use Rattle.connections.specs.Courses.{Course, Event, bytes_in, bytes_out, given};
ghost use Rattle.connections.specs.Courses.{queued};
ghost use Rattle.connections.specs.declared.connection.Side.{Side};

use crate::ends::Wire;

/// No byte is lost or invented on its way in: what came over the wire is the other end's greeting,
/// the frames of the messages that were given, in this order, and what is no message yet.
pub fn all_that_came_is_given<W: Wire>()
    ensures { (wire : W) (side : Side) (own : List ℕ)
        (events : List Event) (last : ConnectionState W)
        → Course W.calls (begun wire side own) events last
        → bytes_in events ≡ last.greeting ++ stream (given events) last.came.rest }
{}

/// Nor on its way out: the own greeting and the frames of the messages that were queued, in this
/// order, are what was sent over the wire, and what waits.
pub fn all_that_is_queued_goes<W: Wire>()
    ensures { (wire : W) (side : Side) (own : List ℕ)
        (events : List Event) (last : ConnectionState W)
        → Course W.calls (begun wire side own) events last
        → own ++ stream (queued events) [] ≡ bytes_out events ++ last.waiting }
{}

/// One end hears what the other says. Where what came at one end is what was sent at the other, up
/// to where it has come, the greeting that it has is the other's own, and the messages that it gave
/// are those that the other queued, in this order and with none left out, up to where it is.
pub fn what_is_queued_is_given<V: Wire, W: Wire>()
    ensures { (there : V) (side : Side) (own : List ℕ)
        (said : List Event) (speaker : ConnectionState V)
        (here : W) (other_side : Side) (other : List ℕ)
        (events : List Event) (hearer : ConnectionState W)
        (more : List ℕ)
        → Course V.calls (begun there side own) said speaker
        → Course W.calls (begun here other_side other) events hearer
        → length own ≡ 64 → length hearer.greeting ≡ 64
        → bytes_out said ≡ bytes_in events ++ more
        → (hearer.greeting ≡ own)
        × ((others : List Message) × (queued said ≡ given events ++ others)) }
{}
