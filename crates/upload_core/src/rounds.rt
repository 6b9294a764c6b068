//! Rounds: which servers take shares, where shares are placed, and how an upload ends.

ghost use Rattle.std.specs.Prelude.{◌≡◌, ◌∷◌, ◌++◌, [], IfOk, OnOk, false, filter};
ghost use Rattle.std.specs.Prelude.{if◌then◌else◌, map, nat_eq, not, true};
ghost use Rattle.std.specs.List.{list_any};
ghost use Rattle.std.specs.Set.{is_member};
ghost use Rattle.request_record.specs.declared.entries.Entry.{Entry};
ghost use Rattle.upload_core.specs.Course.{server_where};
ghost use Rattle.upload_core.specs.Rounds.{has_answered_as, readonly_servers, writable_servers};
ghost use Rattle.upload_core.specs.Transfers.{has_failed};

use crate::status::UploadGoal;
use crate::transfers::has_failed;
use request_record::entries::Entry;
use request_record::requests::{Asked, Outcome, Request};
use std::alloc::{AllocError, Global};
use wire::message::{Body, NodeId};

/// The servers that answered their Asks, by what they take.
#[derive(Drop)]
pub(crate) struct Servers {
    pub writable: Vec<NodeId>,
    pub readonly: Vec<NodeId>,
}

/// The servers that answered: those where a transfer failed count as taking no shares.
pub(crate) fn servers_of(
    alloc: Global,
    goal: &UploadGoal,
    entries: &[Entry],
) -> Result<Servers, AllocError>
    ensures writable { IfOk result (λ s. s.writable.items
        ≡ writable_servers goal.now (map (λ (e : Entry). e.request) entries.now)) }
    ensures readonly { IfOk result (λ s. s.readonly.items
        ≡ readonly_servers goal.now (map (λ (e : Entry). e.request) entries.now)) }
{
    let mut told = Told {
        failed: Vec::new(alloc),
        taking: Vec::new(alloc),
        closed: Vec::new(alloc),
    };
    for entry in entries {
        told.note(goal, &entry.request)?;
    }
    told.into_servers(alloc)
}

/// What a record tells of servers.
#[derive(Drop)]
pub(crate) struct Told {
    /// Those at which a transfer failed.
    pub failed: Vec<NodeId>,
    /// Those that said that they take shares.
    pub taking: Vec<NodeId>,
    /// Those that said that they take none.
    pub closed: Vec<NodeId>,
}

impl Told {
    // Takes note of a request.
    fn note(&mut self, goal: &UploadGoal, request: &Request) -> Result<(), AllocError>
        ensures failed { OnOk result (self.new.failed.items ≡ self.old.failed.items
            ++ server_where (has_failed goal.now) request.now) }
        ensures taking { OnOk result (self.new.taking.items ≡ self.old.taking.items
            ++ server_where (has_answered_as false) request.now) }
        ensures closed { OnOk result (self.new.closed.items ≡ self.old.closed.items
            ++ server_where (has_answered_as true) request.now) }
    {
        let server = request.server;
        push_where(&mut self.failed, has_failed(goal, request), server)?;
        push_where(&mut self.taking, has_answered_as(false, request), server)?;
        push_where(&mut self.closed, has_answered_as(true, request), server)
    }

    // Those that take shares, and those that take none, of which those are the last that said that
    // they take some.
    fn into_servers(self, alloc: Global) -> Result<Servers, AllocError>
        ensures writable { IfOk result (λ s. s.writable.items
            ≡ filter (λ t. not (is_member nat_eq self.failed.items t)) self.taking.items) }
        ensures readonly { IfOk result (λ s. s.readonly.items ≡ self.closed.items
            ++ filter (λ t. is_member nat_eq self.failed.items t) self.taking.items) }
    {
        let Told {
            failed,
            taking,
            closed,
        } = self;
        let writable = servers_not_in(alloc, &taking, &failed)?;
        let mut shut = servers_in(alloc, &taking, &failed)?;
        let mut readonly = closed;
        readonly.append(&mut shut)?;
        Ok(Servers { writable, readonly })
    }
}

// Adds a server, where this is so.
fn push_where(list: &mut Vec<NodeId>, is: bool, server: NodeId) -> Result<(), AllocError>
    ensures { OnOk result (list.new.items ≡ list.old.items ++ (if is then server ∷ [] else [])) }
{
    if is {
        list.push(server)?;
    }
    Ok(())
}

// Those of the servers that are in the list.
fn servers_in(alloc: Global, servers: &[NodeId], list: &[NodeId]) -> Result<Vec<NodeId>, AllocError>
    ensures { IfOk result
        (λ found. found.items ≡ filter (λ s. is_member nat_eq list.now s) servers.now) }
{
    servers
        .iter()
        .copied()
        .filter(|server| has_number(list, *server))
        .collect(alloc)
}

// Those of the servers that are not in the list.
fn servers_not_in(
    alloc: Global,
    servers: &[NodeId],
    list: &[NodeId],
) -> Result<Vec<NodeId>, AllocError>
    ensures { IfOk result
        (λ found. found.items ≡ filter (λ s. not (is_member nat_eq list.now s)) servers.now) }
{
    servers
        .iter()
        .copied()
        .filter(|server| !has_number(list, *server))
        .collect(alloc)
}

fn has_number(list: &[NodeId], number: NodeId) -> bool
    ensures { result ≡ is_member nat_eq list.now number }
{
    list.contains(&number)
}

fn has_answered_as(readonly: bool, request: &Request) -> bool
    ensures { result ≡ has_answered_as readonly request.now }
{
    match (request.asked, &request.outcome) {
        (Asked::Holdings, Outcome::Answered(kept)) => match kept.told() {
            Some(Body::Have(told, _)) => *told == readonly,
            _ => false,
        },
        _ => false,
    }
}

/// Did the transfer of one of these requests fail?
pub(crate) fn has_failed_in(goal: &UploadGoal, entries: &[Entry]) -> bool
    ensures { result
        ≡ list_any (has_failed goal.now) (map (λ (e : Entry). e.request) entries.now) }
{
    entries.iter().any(|entry| has_failed(goal, &entry.request))
}
