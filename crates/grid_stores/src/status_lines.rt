//! What a grid is, in lines.

ghost use Rattle.std.specs.Prelude.{◌≡◌, ◌++◌, IfOk, OnOk};
ghost use Rattle.std.specs.List.{flat_map};
ghost use Rattle.std.specs.String.{string_bytes};
ghost use Rattle.grid_stores.specs.StatusLines.{elsewhere_text, head_lines, held_text, last_line};
ghost use Rattle.grid_stores.specs.StatusLines.{mark_line, server_line, state_text, status_lines};
ghost use Rattle.grid_stores.specs.StatusLines.{ways_line};

use crate::held::Held;
use crate::states::{GridState, ServerState, State, totals_of};
use file_encoding::Params;
use grid_faults::{Fault, server_name};
use grid_marks::Mark;
use grid_rules::ways_text;
use std::alloc::{AllocError, Global};

/// The mark and the ways of a grid, a line for each server, and one of all.
pub(crate) fn status_lines(alloc: Global, grid: &GridState) -> Result<String, Fault>
    ensures { IfOk result (λ text. string_bytes text ≡ status_lines grid.now) }
{
    let mut text = head_lines(alloc, grid)?;
    push_servers(alloc, &mut text, grid.servers.as_slice())?;
    Ok(text)
}

// The lines of the mark and of the ways, where there are some.
fn head_lines(alloc: Global, grid: &GridState) -> Result<String, Fault>
    ensures { IfOk result (λ text. string_bytes text ≡ head_lines grid.now) }
{
    let mut text = mark_line(alloc, &grid.mark)?;
    text.push_str(ways_line(alloc, &grid.ways)?.as_str())?;
    Ok(text)
}

fn mark_line(alloc: Global, mark: &Option<Mark>) -> Result<String, Fault>
    ensures { IfOk result (λ text. string_bytes text ≡ mark_line mark.now) }
{
    match mark {
        Some(mark) => Ok(mark.text(alloc)?),
        None => Ok(String::new(alloc)),
    }
}

fn ways_line(alloc: Global, ways: &Option<Params>) -> Result<String, AllocError>
    ensures { IfOk result (λ text. string_bytes text ≡ ways_line ways.now) }
{
    match ways {
        Some(ways) => ways_text(alloc, ways),
        None => Ok(String::new(alloc)),
    }
}

// Adds a line for each of these servers, and one of all.
fn push_servers(alloc: Global, text: &mut String, servers: &[ServerState]) -> Result<(), AllocError>
    ensures { OnOk result (string_bytes text.new
        ≡ string_bytes text.old ++ (flat_map server_line servers.now ++ last_line servers.now)) }
{
    text.push_str(server_lines(alloc, servers)?.as_str())?;
    text.push_str(last_line(alloc, servers)?.as_str())
}

fn server_lines(alloc: Global, servers: &[ServerState]) -> Result<String, AllocError>
    ensures { IfOk result (λ text. string_bytes text ≡ flat_map server_line servers.now) }
{
    let mut text = String::new(alloc);
    for found in servers {
        push_line(alloc, &mut text, found)?;
    }
    Ok(text)
}

fn push_line(alloc: Global, text: &mut String, found: &ServerState) -> Result<(), AllocError>
    ensures { OnOk result
        (string_bytes text.new ≡ string_bytes text.old ++ server_line found.now) }
{
    text.push_str(server_line(alloc, found)?.as_str())
}

fn server_line(alloc: Global, found: &ServerState) -> Result<String, AllocError>
    ensures { IfOk result (λ text. string_bytes text ≡ server_line found.now) }
{
    let name = server_name(alloc, found.server)?;
    let state = state_text(alloc, &found.state)?;
    format!(in alloc; "{name} {state}\n")
}

// How a server stands.
fn state_text(alloc: Global, state: &State) -> Result<String, AllocError>
    ensures { IfOk result (λ text. string_bytes text ≡ state_text state.now) }
{
    match state {
        State::Here(held) => held_text(alloc, held),
        State::Elsewhere(address) => format!(in alloc; "elsewhere {address}"),
        State::Lacking(lack) => String::from_str(alloc, lack.word()),
    }
}

// What is held.
fn held_text(alloc: Global, held: &Held) -> Result<String, AllocError>
    ensures { IfOk result (λ text. string_bytes text ≡ held_text held.now) }
{
    let (shares, bytes) = (held.shares, held.bytes);
    let (opened, damaged) = (held.opened, held.damaged);
    format!(in alloc; "shares {shares} bytes {bytes} open {opened} damaged {damaged}")
}

// The line of all servers. Those elsewhere are told where there are some.
fn last_line(alloc: Global, servers: &[ServerState]) -> Result<String, AllocError>
    ensures { IfOk result (λ text. string_bytes text ≡ last_line servers.now) }
{
    let totals = totals_of(servers);
    let (standing, all) = (totals.standing, servers.len());
    let elsewhere = elsewhere_text(alloc, totals.elsewhere)?;
    let held = held_text(alloc, &totals.held)?;
    format!(in alloc; "servers {standing} of {all}{elsewhere} {held}\n")
}

fn elsewhere_text(alloc: Global, count: u64) -> Result<String, AllocError>
    ensures { IfOk result (λ text. string_bytes text ≡ elsewhere_text count) }
{
    if count == 0 {
        return Ok(String::new(alloc));
    }
    format!(in alloc; " elsewhere {count}")
}
