//! The lines of a script.

ghost use Rattle.std.specs.Prelude.{◌≡◌, ◌≢◌, ◌≤◌, ◌<◌, ℕ, [], Err, IfOk, drop, false, length};
ghost use Rattle.std.specs.Prelude.{map, take};
ghost use Rattle.std.specs.List.{slice_index_or};
ghost use Rattle.world_script.specs.Refused.{AreSkipped, FailsToRead, IsNoScript};
ghost use Rattle.world_script.specs.Script.{AreNodes, Reads, SpellsScript, is_skipped};
ghost use Rattle.world_script.specs.Script.{lines_of};
ghost use Rattle.world_script.specs.declared.command.Script.{Script};
ghost use Rattle.world_script.specs.declared.error.ScriptError.TheVariants.{BadScript};

use crate::command::{Command, Script};
use crate::error::ScriptError;
use crate::line::read_line;
use crate::nodes::{Nodes, read_nodes};
use std::alloc::{AllocError, Global};

/// The script that a text spells. The whole text is read before anything runs.
///
/// Refuses with the number, from 1 on, of the first line that spells no command that may stand
/// there; with line 1 where there is no command at all; and where there is no memory.
pub fn parse(alloc: Global, text: &[u8]) -> Result<Script, ScriptError>
    ensures script { IfOk result (SpellsScript (lines_of text.now)) }
    ensures nodes { IfOk result AreNodes }
    ensures refused { (line : ℕ) → result ≡ Err (BadScript line)
        → IsNoScript (lines_of text.now) line }
    ensures no_script { (line : ℕ) → result ≡ Err (BadScript line)
        → (script : Script) → ¬ (SpellsScript (lines_of text.now) script) }
{
    let lines = lines_of(alloc, text)?;
    read_lines(alloc, lines.as_slice())
}

// The lines of a text.
fn lines_of(alloc: Global, text: &[u8]) -> Result<Vec<&[u8]>, AllocError>
    ensures { IfOk result (λ lines. map (λ l. l.now) lines.items ≡ lines_of text.now) }
{
    text.split(|byte| *byte == b'\n').collect(alloc)
}

// Is it a line that is skipped?
fn is_skipped(line: &[u8]) -> bool
    ensures { result ≡ is_skipped line.now }
{
    match line {
        [] => true,
        [first, ..] => *first == b'#',
    }
}

// The script that these lines spell.
fn read_lines(alloc: Global, lines: &[&[u8]]) -> Result<Script, ScriptError>
    ensures script { IfOk result (SpellsScript (map (λ l. l.now) lines.now)) }
    ensures nodes { IfOk result AreNodes }
    ensures refused { (line : ℕ) → result ≡ Err (BadScript line)
        → IsNoScript (map (λ l. l.now) lines.now) line }
{
    for first in 0..lines.len() {
        if !is_skipped(lines[first]) {
            return read_from(alloc, lines, first);
        }
    }
    Err(ScriptError::BadScript(1))
}

// The script whose first command stands at a line.
fn read_from(alloc: Global, lines: &[&[u8]], first: usize) -> Result<Script, ScriptError>
    requires at { first < length lines.now }
    requires before { AreSkipped (take first (map (λ l. l.now) lines.now)) }
    requires counts { is_skipped (slice_index_or (map (λ l. l.now) lines.now) first []) ≡ false }
    ensures script { IfOk result (SpellsScript (map (λ l. l.now) lines.now)) }
    ensures nodes { IfOk result AreNodes }
    ensures refused { (line : ℕ) → result ≡ Err (BadScript line)
        → IsNoScript (map (λ l. l.now) lines.now) line }
{
    match read_nodes(alloc, lines[first]) {
        Ok(Nodes { honest, liars }) => Ok(Script {
            honest,
            liars,
            commands: read_commands(alloc, lines, first + 1)?,
        }),
        Err(error) => Err(error.at(first)),
    }
}

// The commands that the lines spell from one on.
fn read_commands(alloc: Global, lines: &[&[u8]], from: usize) -> Result<Vec<Command>, ScriptError>
    requires { from ≤ length lines.now }
    ensures value { IfOk result
        (λ commands. Reads (drop from (map (λ l. l.now) lines.now)) commands.items) }
    ensures refused { (line : ℕ) → result ≡ Err (BadScript line)
        → FailsToRead from (map (λ l. l.now) lines.now) line }
{
    let mut commands = Vec::new(alloc);
    for index in from..lines.len() {
        if is_skipped(lines[index]) {
            continue;
        }
        match read_line(alloc, lines[index]) {
            Ok(command) => commands.push(command)?,
            Err(error) => return Err(error.at(index)),
        }
    }
    Ok(commands)
}
