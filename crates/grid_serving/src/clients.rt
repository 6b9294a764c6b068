//! The clients of a server, each at a place of its own.

ghost use Rattle.std.specs.Prelude.{◌≡◌, ◌<◌, None, IfErr, IfOk, IfSome, OnErr, OnOk, Some};
ghost use Rattle.std.specs.Prelude.{option_map, replicate, slice_get, slice_set, true};
ghost use Rattle.server_core.specs.ServerState.{LetsGoOfEnded, without_client};
ghost use Rattle.grid_serving.specs.Places.{holds_at, is_awake, is_greeting, is_late};
ghost use Rattle.grid_serving.specs.Places.{only_if, places_of, woken};
ghost use Rattle.grid_serving.specs.Turns.{FailsAt, FailsInTurn, IsCutOffAt, LeaveInTurn, LeavesAt};
ghost use Rattle.grid_serving.specs.Turns.{MakesRoom, ServesAt, ServesInTurn, TurnsTo, WakesAt};

use crate::client::{Client, TurnFault};
use crate::desk::Desk;
use crate::limits::MOST_CLIENTS;
use connections::{ConnectionFault, Wire};
use server_core::server::Server;
use share_store::store::Store;
use std::alloc::{AllocError, Global};
use std::collections::VecDeque;
use std::marker::Model;
use wire::message::NodeId;

/// Why a client is gone.
#[derive(Clone, Copy, PartialEq, Eq)]
pub enum Why {
    /// Its connection ended.
    Ended(ConnectionFault),
    /// It was still for too long, or its greeting took too long.
    Late,
    /// It had not greeted, and another one came for which there was no place.
    NoPlace,
    /// The server had not enough memory for a message of it.
    OutOfMemory,
}

/// A client that is gone, and why.
#[derive(Clone, Copy, PartialEq, Eq)]
pub struct Gone {
    pub node: NodeId,
    pub why: Why,
}

/// The clients of a server, each at a place of its own, or nobody there.
#[derive(Drop)]
pub struct Clients<W: Wire> {
    places: Vec<Option<Client<W>>>,
    // The place at which room was made last.
    turned: NodeId,
    // Those that are gone and were not told yet, in their order.
    gone: VecDeque<Gone>,
}

impl<W: Wire> Model for Clients<W> {
    ghost use Rattle.std.specs.Prelude.{◌≡◌, List, Option, length};
    ghost use Rattle.grid_serving.specs.Places.{ClientState};

    ghost Value = { List (Option (ClientState W)) };

    ghost view = { λ c. c.places.items };

    ghost invariant = { λ c. length c.places.items ≡ 256 };
}

impl<W: Wire + Drop> Clients<W> {
    /// Nobody is there.
    pub fn new(alloc: Global) -> Result<Clients<W>, AllocError>
        ensures { IfOk result (λ clients. clients ≡ replicate 256 None) }
    {
        Ok(Clients {
            places: no_clients(alloc)?,
            turned: 0,
            gone: VecDeque::new(alloc),
        })
    }

    /// The next client that is gone and was not told yet.
    pub fn next_gone(&mut self) -> Option<Gone>
        ensures { self.new ≡ self.old }
    {
        self.gone.pop_front()
    }

    /// A place at which nobody is.
    pub fn free_place(&self) -> Option<NodeId>
        ensures within { IfSome result (λ node. node < 256) }
        ensures free { IfSome result (λ node. slice_get self.now node ≡ Some None) }
    {
        for node in 0..MOST_CLIENTS {
            if self.places[usize::from(node)].is_none() {
                return Some(node);
            }
        }
        None
    }

    /// Puts a client at a place at which nobody is.
    pub fn put(&mut self, node: NodeId, client: Client<W>)
        requires within { node < 256 }
        requires free { slice_get self.old node ≡ Some None }
        ensures { self.new ≡ slice_set self.old node (Some client) }
    {
        self.places[usize::from(node)] = Some(client);
    }

    /// There may be something to do for the client at a place, if one is there.
    pub fn wake(&mut self, node: NodeId)
        requires { node < 256 }
        ensures { WakesAt node self.old self.new }
    {
        wake_at(&mut self.places[usize::from(node)]);
    }

    /// Each client for which there may be something to do has its turn. Whether there may be more
    /// to do at once.
    ///
    /// An error where the server had not enough memory for a message. Its client is gone then.
    pub fn serve_ready<S: Store>(
        &mut self,
        server: &mut Server<S>,
        desk: &mut Desk,
        now: u64,
    ) -> Result<bool, AllocError>
        ensures ok { OnOk result (ServesInTurn W.calls S.calls
            (places_of is_awake self.old) now self.old server.old self.new server.new) }
        ensures err { OnErr result (FailsInTurn W.calls S.calls
            (places_of is_awake self.old) now self.old server.old self.new server.new) }
        ensures desk { desk.new.own ≡ desk.old.own }
    {
        let _ = &self.places;
        let mut is_more = false;
        for node in 0..MOST_CLIENTS {
            is_more |= self.serve_if_ready(server, desk, node, now)?;
        }
        Ok(is_more)
    }

    // The client at a place has its turn, where there may be something to do for it. Whether there
    // may be more.
    fn serve_if_ready<S: Store>(
        &mut self,
        server: &mut Server<S>,
        desk: &mut Desk,
        node: NodeId,
        now: u64,
    ) -> Result<bool, AllocError>
        requires { node < 256 }
        ensures ok { OnOk result (ServesInTurn W.calls S.calls
            (only_if (holds_at is_awake self.old node) node) now self.old server.old
            self.new server.new) }
        ensures err { OnErr result (FailsInTurn W.calls S.calls
            (only_if (holds_at is_awake self.old node) node) now self.old server.old
            self.new server.new) }
        ensures desk { desk.new.own ≡ desk.old.own }
    {
        if !self.is_ready(node) {
            return Ok(false);
        }
        self.serve(server, desk, node, now)?;
        Ok(self.is_ready(node))
    }

    // Whether there may be something to do for a client at this place.
    fn is_ready(&self, node: NodeId) -> bool
        requires { node < 256 }
        ensures { result ≡ holds_at is_awake self.now node }
    {
        match &self.places[usize::from(node)] {
            Some(client) => client.is_ready(),
            None => false,
        }
    }

    // The client at a place has its turn. Where that breaks off it is gone.
    fn serve<S: Store>(
        &mut self,
        server: &mut Server<S>,
        desk: &mut Desk,
        node: NodeId,
        now: u64,
    ) -> Result<(), AllocError>
        requires { node < 256 }
        ensures ok { OnOk result
            (ServesAt W.calls S.calls node now self.old server.old self.new server.new) }
        ensures err { OnErr result
            (FailsAt W.calls S.calls node now self.old server.old self.new server.new) }
        ensures desk { desk.new.own ≡ desk.old.own }
    {
        let place = &mut self.places[usize::from(node)];
        match serve_at(place, server, desk, node, now) {
            Ok(()) => Ok(()),
            Err(TurnFault::Ended(fault)) => {
                self.note(node, Why::Ended(fault));
                Ok(())
            }
            Err(TurnFault::OutOfMemory) => {
                self.note(node, Why::OutOfMemory);
                Err(AllocError)
            }
        }
    }

    /// Clients that were still for too long are gone.
    pub fn end_late<S: Store>(&mut self, server: &mut Server<S>, now: u64)
        ensures { LeaveInTurn S.calls (places_of (is_late now) self.old) self.old server.old
            self.new server.new }
    {
        let _ = &self.places;
        for node in 0..MOST_CLIENTS {
            self.end_if_late(server, node, now);
        }
    }

    // The client at a place is gone, where it was still for too long.
    fn end_if_late<S: Store>(&mut self, server: &mut Server<S>, node: NodeId, now: u64)
        requires { node < 256 }
        ensures { LeaveInTurn S.calls (only_if (holds_at (is_late now) self.old node) node)
            self.old server.old self.new server.new }
    {
        if self.is_late(node, now) {
            self.end(server, node, Why::Late);
        }
    }

    // Whether a client at this place was still for too long.
    fn is_late(&self, node: NodeId, now: u64) -> bool
        requires { node < 256 }
        ensures { result ≡ holds_at (is_late now) self.now node }
    {
        match &self.places[usize::from(node)] {
            Some(client) => client.is_late(now),
            None => false,
        }
    }

    /// Ends the next client, in turn, that has not greeted, if there is one: whoever connects and
    /// says nothing keeps nobody out.
    pub fn make_room<S: Store>(&mut self, server: &mut Server<S>)
        ensures { MakesRoom S.calls self.old server.old self.new server.new }
    {
        if let Some(node) = self.next_greeting() {
            self.turned = node;
            self.end(server, node, Why::NoPlace);
        }
    }

    // The place of the next client, in turn, that has not greeted.
    fn next_greeting(&self) -> Option<NodeId>
        ensures within { IfSome result (λ node. node < 256) }
        ensures greets { IfSome result (λ node. holds_at is_greeting self.now node ≡ true) }
    {
        for step in 1..=MOST_CLIENTS {
            let node = self.turned.wrapping_add(step) % MOST_CLIENTS;
            if self.is_greeting(node) {
                return Some(node);
            }
        }
        None
    }

    // Whether the greeting of a client at this place is still to come.
    fn is_greeting(&self, node: NodeId) -> bool
        requires { node < 256 }
        ensures { result ≡ holds_at is_greeting self.now node }
    {
        match &self.places[usize::from(node)] {
            Some(client) => client.is_greeting(),
            None => false,
        }
    }

    // The client at a place is gone, and its buckets end.
    fn end<S: Store>(&mut self, server: &mut Server<S>, node: NodeId, why: Why)
        requires { node < 256 }
        ensures { LeavesAt S.calls node self.old server.old self.new server.new }
    {
        self.places[usize::from(node)] = None;
        end_buckets(server, node);
        self.note(node, why);
    }

    // Notes that a client is gone. Where there is no memory for that it is not told.
    fn note(&mut self, node: NodeId, why: Why)
        ensures { self.new ≡ self.old }
    {
        let _ = self.gone.push_back(Gone { node, why });
    }
}

// Nobody is at any place.
fn no_clients<W: Wire + Drop>(alloc: Global) -> Result<Vec<Option<Client<W>>>, AllocError>
    ensures { IfOk result (λ places. places.items ≡ replicate 256 None) }
{
    let mut places = Vec::new(alloc);
    for _ in 0..MOST_CLIENTS {
        places.push(None)?;
    }
    Ok(places)
}

// There may be something to do for the client at a place.
fn wake_at<W: Wire + Drop>(place: &mut Option<Client<W>>)
    ensures { place.new ≡ option_map woken place.old }
{
    if let Some(client) = place {
        client.set_ready(true);
    }
}

// The buckets of a client that is gone end, and the store lets go of shares that have none.
fn end_buckets<S: Store>(server: &mut Server<S>, node: NodeId)
    ensures { LetsGoOfEnded S.calls (without_client node server.old) server.new }
{
    server.forget(node);
    server.let_go();
}

// The client at a place has its turn, if one is there. Where that breaks off it is gone, and its
// buckets end.
fn serve_at<W: Wire + Drop, S: Store>(
    place: &mut Option<Client<W>>,
    server: &mut Server<S>,
    desk: &mut Desk,
    node: NodeId,
    now: u64,
) -> Result<(), TurnFault>
    ensures ok { OnOk result
        (TurnsTo W.calls S.calls node now place.old server.old place.new server.new) }
    ensures err { IfErr result (λ fault. IsCutOffAt W.calls S.calls node now fault place.old
        server.old place.new server.new) }
    ensures desk { desk.new.own ≡ desk.old.own }
{
    let Some(mut client) = place.take() else {
        return Ok(());
    };
    match client.turn(server, desk, node, now) {
        Ok(()) => {
            *place = Some(client);
            server.let_go();
            Ok(())
        }
        Err(fault) => {
            end_buckets(server, node);
            Err(fault)
        }
    }
}
