//! What the operations of a world came to.

ghost use Rattle.std.specs.Prelude.{◌≡◌, ◌↔◌, IfOk, true};
ghost use Rattle.std.specs.String.{string_bytes};
ghost use Rattle.world_script.specs.Agreement.{Agree};
ghost use Rattle.world_script.specs.Telling.{ending_text};

use crate::agreement::agree;
use crate::operation_lines::{end_lines, operation_line};
use std::alloc::{AllocError, Global};
use world_operations::operation::Operation;

/// How a script ended.
#[derive(Drop)]
pub struct Ending {
    /// A line for each operation, one that says whether all bytes agree, and one that counts the
    /// events.
    pub lines: String,
    /// Do all bytes agree?
    pub agrees: bool,
}

// The end of a world of these operations, to which so many events led.
pub(crate) fn ending_of(
    alloc: Global,
    operations: &[Operation],
    events: u128,
) -> Result<Ending, AllocError>
    ensures agrees { IfOk result (λ ending. (ending.agrees ≡ true) ↔ Agree operations.now) }
    ensures lines { IfOk result (λ ending. string_bytes ending.lines
        ≡ ending_text operations.now ending.agrees events) }
{
    let agrees = agree(alloc, operations)?;
    let mut lines = String::new(alloc);
    for number in 0..operations.len() {
        lines.push_str(operation_line(alloc, number, &operations[number])?.as_str())?;
    }
    lines.push_str(end_lines(alloc, agrees, events)?.as_str())?;
    Ok(Ending { lines, agrees })
}
