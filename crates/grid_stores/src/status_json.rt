//! What a grid is, for programs: one JSON object.

ghost use Rattle.std.specs.Prelude.{◌≡◌, ◌++◌, IfOk, OnOk, codes};
ghost use Rattle.std.specs.List.{flat_map};
ghost use Rattle.std.specs.String.{string_bytes};
ghost use Rattle.grid_stores.specs.StatusJson.{address_member, further_object, head_json};
ghost use Rattle.grid_stores.specs.StatusJson.{held_members, json_byte, json_text, mark_json};
ghost use Rattle.grid_stores.specs.StatusJson.{server_object, server_objects, state_members};
ghost use Rattle.grid_stores.specs.StatusJson.{status_json, tail_json, totals_json, verdict_member};
ghost use Rattle.grid_stores.specs.StatusJson.{ways_json};

use crate::held::Held;
use crate::states::{GridState, ServerState, State, Totals, totals_of};
use cap_text::to_base32;
use file_encoding::Params;
use grid_faults::{Fault, server_name};
use grid_marks::Mark;
use std::alloc::{AllocError, Global};

/// The object of a grid.
pub(crate) fn status_json(alloc: Global, grid: &GridState) -> Result<Vec<u8>, Fault>
    ensures { IfOk result (λ text. text.items ≡ status_json grid.now) }
{
    let mut text = head_json(alloc, grid)?;
    push_servers(alloc, &mut text, grid.servers.as_slice())?;
    Ok(text)
}

// Its mark and its ways, up to its servers.
fn head_json(alloc: Global, grid: &GridState) -> Result<Vec<u8>, Fault>
    ensures { IfOk result (λ text. text.items ≡ head_json grid.now) }
{
    let mark = mark_json(alloc, &grid.mark)?;
    let ways = ways_json(alloc, &grid.ways)?;
    let text = format!(in alloc; "{{\"grid\":{mark},\"ways\":{ways},\"servers\":[")?;
    Ok(text.into_bytes())
}

// The identity of a grid, or `null`.
fn mark_json(alloc: Global, mark: &Option<Mark>) -> Result<String, Fault>
    ensures { IfOk result (λ text. string_bytes text ≡ mark_json mark.now) }
{
    let Some(mark) = mark else {
        return Ok(String::from_str(alloc, "null")?);
    };
    let identity = to_base32(alloc, &mark.identity)?;
    Ok(format!(in alloc; "\"{identity}\"")?)
}

// The ways of a grid, or `null`.
fn ways_json(alloc: Global, ways: &Option<Params>) -> Result<String, AllocError>
    ensures { IfOk result (λ text. string_bytes text ≡ ways_json ways.now) }
{
    let Some(ways) = ways else {
        return String::from_str(alloc, "null");
    };
    let (needed, total) = (ways.needed(), ways.total());
    let (happy, segment) = (ways.happy(), ways.max_segment());
    format!(in alloc; "{{\"k\":{needed},\"n\":{total},\"happy\":{happy},\"segment\":{segment}}}")
}

// Adds the objects of these servers, and what all of them are.
fn push_servers(
    alloc: Global,
    text: &mut Vec<u8>,
    servers: &[ServerState],
) -> Result<(), AllocError>
    ensures { OnOk result (text.new.items
        ≡ text.old.items ++ (server_objects servers.now ++ tail_json servers.now)) }
{
    text.extend_from_slice(server_objects(alloc, servers)?.as_slice())?;
    text.extend_from_slice(tail_json(alloc, servers)?.as_bytes())
}

// The objects of these servers, with commas between them.
fn server_objects(alloc: Global, servers: &[ServerState]) -> Result<Vec<u8>, AllocError>
    ensures { IfOk result (λ text. text.items ≡ server_objects servers.now) }
{
    let mut text = Vec::new(alloc);
    if let Some((first, others)) = servers.split_first() {
        push_object(alloc, &mut text, first)?;
        push_further(alloc, &mut text, others)?;
    }
    Ok(text)
}

// Adds the objects of servers behind the first, each with a comma before it.
fn push_further(
    alloc: Global,
    text: &mut Vec<u8>,
    servers: &[ServerState],
) -> Result<(), AllocError>
    ensures { OnOk result
        (text.new.items ≡ text.old.items ++ flat_map further_object servers.now) }
{
    text.extend_from_slice(further_objects(alloc, servers)?.as_slice())
}

fn further_objects(alloc: Global, servers: &[ServerState]) -> Result<Vec<u8>, AllocError>
    ensures { IfOk result (λ text. text.items ≡ flat_map further_object servers.now) }
{
    let mut text = Vec::new(alloc);
    for found in servers {
        push_after_comma(alloc, &mut text, found)?;
    }
    Ok(text)
}

fn push_after_comma(
    alloc: Global,
    text: &mut Vec<u8>,
    found: &ServerState,
) -> Result<(), AllocError>
    ensures { OnOk result (text.new.items ≡ text.old.items ++ further_object found.now) }
{
    text.extend_from_slice(b",")?;
    push_object(alloc, text, found)
}

// Adds the object of a server.
fn push_object(alloc: Global, text: &mut Vec<u8>, found: &ServerState) -> Result<(), AllocError>
    ensures { OnOk result (text.new.items ≡ text.old.items ++ server_object found.now) }
{
    let name = server_name(alloc, found.server)?;
    text.extend_from_slice(format!(in alloc; "{{\"server\":\"{name}\",")?.as_bytes())?;
    push_members(alloc, text, &found.state)
}

// Adds how a server stands, and the object's end.
fn push_members(alloc: Global, text: &mut Vec<u8>, state: &State) -> Result<(), AllocError>
    ensures { OnOk result (text.new.items ≡ text.old.items ++ state_members state.now) }
{
    match state {
        State::Here(held) => push_held(alloc, text, held),
        State::Elsewhere(address) => push_address(text, address.as_str()),
        State::Lacking(lack) => push_verdict(alloc, text, lack.word()),
    }
}

fn push_held(alloc: Global, text: &mut Vec<u8>, held: &Held) -> Result<(), AllocError>
    ensures { OnOk result
        (text.new.items ≡ text.old.items ++ (held_members held.now ++ codes "}")) }
{
    let held = held_members(alloc, held)?;
    text.extend_from_slice(held.as_bytes())?;
    text.extend_from_slice(b"}")
}

fn push_verdict(alloc: Global, text: &mut Vec<u8>, word: &str) -> Result<(), AllocError>
    ensures { OnOk result (text.new.items ≡ text.old.items ++ verdict_member word.now) }
{
    let member = format!(in alloc; "\"verdict\":\"{word}\"}}")?;
    text.extend_from_slice(member.as_bytes())
}

fn push_address(text: &mut Vec<u8>, address: &str) -> Result<(), AllocError>
    ensures { OnOk result (text.new.items ≡ text.old.items ++ address_member address.now) }
{
    text.extend_from_slice(b"\"elsewhere\":\"")?;
    push_json(text, address.as_bytes())?;
    text.extend_from_slice(b"\"}")
}

// Adds a text as it stands in a string of JSON. It has no control characters.
fn push_json(out: &mut Vec<u8>, text: &[u8]) -> Result<(), AllocError>
    ensures { OnOk result (out.new.items ≡ out.old.items ++ json_text text.now) }
{
    for byte in text {
        push_byte(out, *byte)?;
    }
    Ok(())
}

// Quotes and backslashes are escaped.
fn push_byte(out: &mut Vec<u8>, byte: u8) -> Result<(), AllocError>
    ensures { OnOk result (out.new.items ≡ out.old.items ++ json_byte byte) }
{
    match byte {
        b'"' | b'\\' => out.extend_from_slice(&[b'\\', byte]),
        _ => Ok(out.push(byte)?),
    }
}

// What is held.
fn held_members(alloc: Global, held: &Held) -> Result<String, AllocError>
    ensures { IfOk result (λ text. string_bytes text ≡ held_members held.now) }
{
    let (shares, bytes) = (held.shares, held.bytes);
    let (opened, damaged) = (held.opened, held.damaged);
    format!(in alloc;
        "\"shares\":{shares},\"bytes\":{bytes},\"open\":{opened},\"damaged\":{damaged}"
    )
}

// What stands behind the objects of these servers.
fn tail_json(alloc: Global, servers: &[ServerState]) -> Result<String, AllocError>
    ensures { IfOk result (λ text. string_bytes text ≡ tail_json servers.now) }
{
    let totals = totals_of(servers);
    totals_json(alloc, &totals)
}

fn totals_json(alloc: Global, totals: &Totals) -> Result<String, AllocError>
    ensures { IfOk result (λ text. string_bytes text ≡ totals_json totals.now) }
{
    let (standing, elsewhere) = (totals.standing, totals.elsewhere);
    let held = held_members(alloc, &totals.held)?;
    format!(in alloc; "],\"standing\":{standing},\"elsewhere\":{elsewhere},{held}}}\n")
}
