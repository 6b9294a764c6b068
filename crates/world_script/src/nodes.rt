//! The first command of a script, which names its nodes.

ghost use Rattle.std.specs.Prelude.{◌≡◌, ◌≢◌, ◌≤◌, ◌+◌, ◌↔◌, ◌∷◌, Err, IfNone, IfOk, IfSome};
ghost use Rattle.std.specs.Prelude.{IsTrue, List, codes, decimal, map};
ghost use Rattle.world_script.specs.Refused.{NameNoNodes};
ghost use Rattle.world_script.specs.Script.{SpellsNodes, kind_name, words_of};
ghost use Rattle.world_script.specs.declared.command.Kind.{Kind};
ghost use Rattle.world_script.specs.declared.error.LineError.TheVariants.{NoCommand};

use crate::command::Kind;
use crate::error::LineError;
use crate::fields::number;
use crate::line::words_of;
use std::alloc::Global;

// The most nodes.
const MAX_NODES: usize = 256;

// The nodes of a script.
#[derive(Drop)]
pub(crate) struct Nodes {
    pub(crate) honest: u16,
    pub(crate) liars: Vec<Kind>,
}

// The nodes that a line spells.
pub(crate) fn read_nodes(alloc: Global, line: &[u8]) -> Result<Nodes, LineError>
    ensures value { IfOk result (λ nodes. SpellsNodes nodes.honest nodes.liars.items
        (words_of line.now)) }
    ensures none { result ≡ Err NoCommand → NameNoNodes (words_of line.now) }
{
    let words = words_of(alloc, line)?;
    match words.as_slice() {
        [b"nodes", honest, kinds @ ..] => nodes_of(alloc, number(honest)?, kinds),
        _ => Err(LineError::NoCommand),
    }
}

// So many honest nodes, and liars of these kinds.
fn nodes_of(alloc: Global, honest: u64, kinds: &[&[u8]]) -> Result<Nodes, LineError>
    ensures value { IfOk result (λ nodes. SpellsNodes nodes.honest nodes.liars.items
        (codes "nodes" ∷ decimal honest ∷ map (λ w. w.now) kinds.now)) }
    ensures none { result ≡ Err NoCommand
        → NameNoNodes (codes "nodes" ∷ decimal honest ∷ map (λ w. w.now) kinds.now) }
{
    if !are_few(honest, kinds.len()) {
        return Err(LineError::NoCommand);
    }
    Ok(Nodes {
        honest: honest as u16,
        liars: read_kinds(alloc, kinds)?,
    })
}

// Whether there may be so many honest nodes and so many liars.
fn are_few(honest: u64, liars: usize) -> bool
    ensures { IsTrue result ↔ ((1 ≤ honest) × (honest + liars ≤ 256)) }
{
    honest >= 1 && liars <= MAX_NODES && honest <= (MAX_NODES - liars) as u64
}

// The kinds of these names.
fn read_kinds(alloc: Global, words: &[&[u8]]) -> Result<Vec<Kind>, LineError>
    ensures value { IfOk result (λ kinds. map kind_name kinds.items ≡ map (λ w. w.now) words.now) }
    ensures none { result ≡ Err NoCommand
        → (kinds : List Kind) → map kind_name kinds ≢ map (λ w. w.now) words.now }
{
    let mut kinds = Vec::with_capacity(alloc, words.len())?;
    for word in words {
        match kind_named(word) {
            Some(kind) => kinds.push(kind)?,
            None => return Err(LineError::NoCommand),
        }
    }
    Ok(kinds)
}

// The kind of this name.
fn kind_named(word: &[u8]) -> Option<Kind>
    ensures value { IfSome result (λ kind. word.now ≡ kind_name kind) }
    ensures none { IfNone result ((kind : Kind) → word.now ≢ kind_name kind) }
{
    match word {
        b"silent" => Some(Kind::Silent),
        b"junk" => Some(Kind::Junk),
        b"replay" => Some(Kind::Replay),
        _ => None,
    }
}
