//! The loop.

ghost use Rattle.std.specs.Prelude.{◌≡◌, ◌≤◌, Some, None, true, OnOk, OnErr, IsErrOf};
ghost use Rattle.local_grid.specs.declared.error.LoopError.{LoopError};
ghost use Rattle.local_grid.specs.OutsideTurns.{Finishes, GoesOn, GoesPast, IsCutShort, RunsOut};
ghost use Rattle.local_grid.specs.OutsideTurns.{StopsAfter, Turns};

use crate::error::LoopError;
use crate::outside::{Happening, Outside};
use request_record::operation::Operation;
use std::alloc::{AllocError, Global};
use wire::message::{Message, NodeId};

/// Carries messages between an operation and servers until the operation is at its end. In each
/// turn the operation's next message goes to its server; where it has none, the operation hears
/// what comes next, or takes note of a second.
///
/// `TurnLimit` where the operation still runs after so many turns, and `OutOfMemory` where memory
/// was refused in the middle of a turn: then all is as the turn had it until then.
pub fn carry_on<O: Operation, G: Outside>(
    alloc: Global,
    outside: &mut G,
    operation: &mut O,
    limit: u64,
) -> Result<(), LoopError>
    ensures ok { OnOk result (Finishes O.calls G.calls limit
        (record { operation = operation.old; outside = outside.old })
        (record { operation = operation.new; outside = outside.new })) }
    ensures turn_limit { IsErrOf result LoopError.TurnLimit
        → GoesPast O.calls G.calls limit
        (record { operation = operation.old; outside = outside.old })
        (record { operation = operation.new; outside = outside.new }) }
    ensures memory { IsErrOf result LoopError.OutOfMemory
        → RunsOut O.calls G.calls limit
        (record { operation = operation.old; outside = outside.old })
        (record { operation = operation.new; outside = outside.new }) }
    ensures clock { G.calls.clock outside.old ≤ G.calls.clock outside.new }
{
    for _ in 0..limit {
        if !operation.is_running() {
            return Ok(());
        }
        turn(alloc, outside, operation)?;
    }
    if operation.is_running() {
        return Err(LoopError::TurnLimit);
    }
    Ok(())
}

// One turn of an operation that runs.
fn turn<O: Operation, G: Outside>(
    alloc: Global,
    outside: &mut G,
    operation: &mut O,
) -> Result<(), AllocError>
    requires { O.calls.runs operation.old ≡ true }
    ensures ok { OnOk result (Turns O.calls G.calls
        (record { operation = operation.old; outside = outside.old })
        (record { operation = operation.new; outside = outside.new })) }
    ensures err { OnErr result (IsCutShort O.calls G.calls
        (record { operation = operation.old; outside = outside.old })
        (record { operation = operation.new; outside = outside.new })) }
    ensures clock { G.calls.clock outside.old ≤ G.calls.clock outside.new }
{
    match operation.take_outgoing(alloc)? {
        Some((node, message)) => hand(outside, operation, node, &message),
        None => meet(outside, operation),
    }
}

// Hands a message of the operation's on, which hears the answer where one comes at once.
fn hand<O: Operation, G: Outside>(
    outside: &mut G,
    operation: &mut O,
    node: NodeId,
    message: &Message,
) -> Result<(), AllocError>
    ensures ok { OnOk result (GoesOn O.calls G.calls operation.old outside.old
        (Some (node, message.now))
        (record { operation = operation.new; outside = outside.new })) }
    ensures err { OnErr result (StopsAfter O.calls G.calls operation.old outside.old
        (Some (node, message.now))
        (record { operation = operation.new; outside = outside.new })) }
    ensures clock { G.calls.clock outside.new ≡ G.calls.clock outside.old }
{
    match outside.hand(node, message)? {
        Some(answer) => operation.on_message(node, answer, outside.clock()),
        None => Ok(()),
    }
}

// Waits for what happens next, which the operation meets.
fn meet<O: Operation, G: Outside>(outside: &mut G, operation: &mut O) -> Result<(), AllocError>
    ensures ok { OnOk result (GoesOn O.calls G.calls operation.old outside.old None
        (record { operation = operation.new; outside = outside.new })) }
    ensures err { OnErr result (StopsAfter O.calls G.calls operation.old outside.old None
        (record { operation = operation.new; outside = outside.new })) }
    ensures clock { G.calls.clock outside.old ≤ G.calls.clock outside.new }
{
    match outside.wait()? {
        Happening::Came(node, message) => operation.on_message(node, message, outside.clock()),
        Happening::Second(second) => operation.tick(second),
    }
}
