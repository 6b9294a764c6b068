//! The servers of a grid that are served elsewhere.

ghost use Rattle.std.specs.Prelude.{◌≡◌, ◌↔◌, ◌<◌, None, Some, get_or, length, IfOk, IfSome};
ghost use Rattle.std.specs.Prelude.{IsTrue};
ghost use Rattle.std.specs.Prelude.{OnOk};
ghost use Rattle.grid_servers.specs.Opened.{AllElsewhere, AreApart, IsNumberOf, StandsElsewhere};
ghost use Rattle.grid_servers.specs.Opened.{greeting_to};

use crate::opening::{Opening, make_room};
use crate::sites::{address_of, find_site};
use connections::{Address, Greeting, Nonblocking, Socket, greeting};
use grid_faults::Fault;
use grid_marks::Mark;
use served_grid::RemoteServer;
use std::alloc::Global;
use std::rt::Files;
use wire::message::NodeId;

/// A server elsewhere, over a socket.
pub(crate) type Remote = RemoteServer<Nonblocking<Socket>>;

/// The servers elsewhere, by number, and where each is reached.
#[derive(Drop)]
pub(crate) struct Elsewhere {
    pub(crate) remotes: Vec<Option<Remote>>,
    pub(crate) addresses: Vec<Option<Address>>,
}

/// Those of these servers that are served elsewhere: none of which a node stands here.
#[tactic(auto, using(crate::proofs::Standing::none_elsewhere, crate::proofs::Standing::none_apart))]
pub(crate) fn find_elsewhere<R, N>(
    rt: &R,
    opening: &Opening<'_>,
    servers: &[NodeId],
    here: &[Option<N>],
) -> Result<Elsewhere, Fault>
where
    R: Files + AllocGlobal,
    ensures stand { IfOk result (λ found. AllElsewhere opening.now.known found.remotes.items) }
    ensures apart { IfOk result (λ found. AreApart here.now found.remotes.items) }
{
    let mut found = Elsewhere {
        remotes: Vec::new(rt.alloc()),
        addresses: Vec::new(rt.alloc()),
    };
    for server in servers {
        if is_free(here, *server) {
            add_elsewhere(rt, opening, *server, here, &mut found)?;
        }
    }
    Ok(found)
}

// Whether nothing stands at a number.
fn is_free<N>(here: &[Option<N>], server: NodeId) -> bool
    ensures { IsTrue result → get_or here.now server None ≡ None }
{
    !matches!(here.get(usize::from(server)), Some(Some(_)))
}

// Adds a server of which no node stands here, where it is served elsewhere.
fn add_elsewhere<R, N>(
    rt: &R,
    opening: &Opening<'_>,
    server: NodeId,
    here: &[Option<N>],
    found: &mut Elsewhere,
) -> Result<(), Fault>
where
    R: Files + AllocGlobal,
    requires free { get_or here.now server None ≡ None }
    requires stand { AllElsewhere opening.now.known found.old.remotes.items }
    requires apart { AreApart here.now found.old.remotes.items }
    ensures stand { OnOk result (AllElsewhere opening.now.known found.new.remotes.items) }
    ensures apart { OnOk result (AreApart here.now found.new.remotes.items) }
{
    let Some(address) = find_address(rt, opening, server)? else {
        return Ok(());
    };
    put_address(server, address, &mut found.addresses)?;
    let greeting = greeting_to(rt.alloc(), opening.known, server)?;
    put_remote(
        opening,
        server,
        RemoteServer::new(&greeting),
        here,
        &mut found.remotes,
    )
}

// Where a server is reached that is served elsewhere. A grid that knows its servers has no others.
fn find_address<R>(rt: &R, opening: &Opening<'_>, server: NodeId) -> Result<Option<Address>, Fault>
where
    R: Files + AllocGlobal,
    ensures { IfOk result (λ found. IfSome found (λ _. IsNumberOf opening.now.known server)) }
{
    if !is_number_of(&opening.known, server) {
        return Ok(None);
    }
    let found = find_site(rt, opening.grid, server)?;
    Ok(address_of(rt.alloc(), opening.grid, server, &found)?)
}

// Whether a grid may have a server of this number.
fn is_number_of(known: &Option<Mark>, server: NodeId) -> bool
    ensures { IsTrue result ↔ IsNumberOf known.now server }
{
    match known {
        None => true,
        Some(known) => server < known.number,
    }
}

// Puts an address at its number.
fn put_address(
    server: NodeId,
    address: Address,
    addresses: &mut Vec<Option<Address>>,
) -> Result<(), Fault> {
    make_room(addresses, server)?;
    addresses[usize::from(server)] = Some(address);
    Ok(())
}

// Puts a server elsewhere at its number.
fn put_remote<N>(
    opening: &Opening<'_>,
    server: NodeId,
    remote: Remote,
    here: &[Option<N>],
    remotes: &mut Vec<Option<Remote>>,
) -> Result<(), Fault>
    requires free { get_or here.now server None ≡ None }
    requires own { StandsElsewhere opening.now.known server (Some remote) }
    requires stand { AllElsewhere opening.now.known remotes.old.items }
    requires apart { AreApart here.now remotes.old.items }
    ensures stand { OnOk result (AllElsewhere opening.now.known remotes.new.items) }
    ensures apart { OnOk result (AreApart here.now remotes.new.items) }
{
    make_room(remotes, server)?;
    remotes[usize::from(server)] = Some(remote);
    Ok(())
}

// What a server elsewhere is told: that the mark of its number is wanted, in a grid that has one.
fn greeting_to(alloc: Global, known: Option<Mark>, server: NodeId) -> Result<Greeting, Fault>
    ensures { IfOk result (λ greeting. greeting ≡ greeting_to known server) }
{
    let wanted = match known {
        Some(known) => Some(Mark::of_server(known.identity, server)),
        None => None,
    };
    Ok(greeting(alloc, wanted)?)
}
