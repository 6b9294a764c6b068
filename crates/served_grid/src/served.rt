//! The servers of a grid, in this process and elsewhere, and the clock.

ghost use Rattle.std.specs.Prelude.{◌≡◌, ◌≤◌, ◌↔◌, None, IfOk, IsTrue, OnErr, OnOk, map};
ghost use Rattle.std.specs.Prelude.{option_map, slice_get};
ghost use Rattle.local_grid.specs.Turns.{later};
ghost use Rattle.served_grid.specs.Remotes.{ticked_remote};
ghost use Rattle.served_grid.specs.Served.{Brings, Happens, HandsAt, HearsAll, IsFar, StopsAt};
ghost use Rattle.served_grid.specs.Served.{heard_of};
ghost use Rattle.served_grid.specs.Served.{nothing, passed_all};

use crate::network::Network;
use crate::ready::Ready;
use crate::remote::{Came, RemoteServer};
use connections::{Room, Wire};
use local_grid::grid::LocalGrid;
use local_grid::link::Link;
use local_grid::{Happening, Outside};
use share_store::store::Store;
use std::alloc::{AllocError, Global};
use std::marker::Model;
use wire::message::{Message, NodeId};

/// The most seconds that pass in one tick, and those that pass where nothing is awaited.
const STEP: u64 = 5;

/// The servers of a grid by number, in this process and elsewhere, and the clock.
#[derive(Drop)]
pub struct ServedGrid<S: Store, L: Link, W: Wire, N: Network<W>> {
    alloc: Global,
    here: LocalGrid<S, L>,
    remotes: Vec<Option<RemoteServer<W>>>,
    network: N,
    ready: Ready,
    // Those that the network says are ready.
    woken: Vec<NodeId>,
    // Room for a frame, and for what is read in one call.
    frame: Vec<u8>,
    room: Room,
    // What the network's clock said last.
    seconds: u64,
}

impl<S: Store, L: Link, W: Wire, N: Network<W>> Model for ServedGrid<S, L, W, N> {
    ghost use Rattle.served_grid.specs.Served.{ServedState};

    ghost Value = { ServedState S L W };

    ghost view = { λ g. record { here = g.here; remotes = g.remotes.items } };
}

impl<S: Store, L: Link, W: Wire + Drop, N: Network<W>> ServedGrid<S, L, W, N> {
    /// Servers of this process, and servers elsewhere at numbers that no server of this process
    /// has. The clock goes on from that of the former.
    pub fn new(
        alloc: Global,
        here: LocalGrid<S, L>,
        remotes: Vec<Option<RemoteServer<W>>>,
        mut network: N,
    ) -> Result<ServedGrid<S, L, W, N>, AllocError>
    where
        S: Drop,
        L: Drop,
        N: Drop,
        ensures { IfOk result (λ g. g ≡ record { here = here; remotes = remotes.items }) }
    {
        let ready = Ready::new(alloc, remotes.len())?;
        let room = Room::new(alloc)?;
        let seconds = network.seconds();
        Ok(ServedGrid {
            alloc,
            here,
            remotes,
            network,
            ready,
            woken: Vec::new(alloc),
            frame: Vec::new(alloc),
            room,
            seconds,
        })
    }

    /// The servers of this process, and the clock.
    pub fn here(&self) -> &LocalGrid<S, L>
        ensures { result.now ≡ self.now.here }
    {
        &self.here
    }

    /// The servers elsewhere, by number.
    pub fn remotes(&self) -> &[Option<RemoteServer<W>>]
        ensures { result.now ≡ self.now.remotes }
    {
        &self.remotes
    }

    /// What servers elsewhere are reached by.
    pub fn network(&self) -> &N {
        &self.network
    }

    // Whether a server elsewhere has this number.
    fn is_remote(&self, node: NodeId) -> bool
        ensures { IsTrue result ↔ IsFar (slice_get self.now.remotes node) }
    {
        let position = usize::from(node);
        position < self.remotes.len() && self.remotes[position].is_some()
    }

    // Asks the server elsewhere of this number, which has then something to be told.
    fn ask(&mut self, node: NodeId, message: &Message) -> Result<(), AllocError>
        requires { IsFar (slice_get self.old.remotes node) }
        ensures ok { OnOk result (HandsAt S.calls L.carries self.old node
            (slice_get self.old.remotes node) message.now None self.new) }
        ensures err { OnErr result (StopsAt S.calls L.carries L.gives_up self.old node
            (slice_get self.old.remotes node) message.now self.new) }
        ensures clock { self.new.here ≡ self.old.here }
    {
        self.ready.add(node)?;
        let position = usize::from(node);
        match &mut self.remotes[position] {
            Some(remote) => {
                remote.ask(
                    self.alloc,
                    &mut self.network,
                    node,
                    message,
                    &mut self.frame,
                )
            }
            None => unreachable!(),
        }
    }

    // The next message that came from a server elsewhere, if one did.
    fn next_message(&mut self) -> Result<Option<(NodeId, Message)>, AllocError>
        ensures ok { IfOk result (λ came. Brings W.calls self.old came self.new) }
        ensures err { OnErr result (HearsAll W.calls self.old nothing self.new) }
    {
        for _ in 0..u64::MAX {
            let Some(node) = self.ready.take_turn()? else {
                return Ok(None);
            };
            if let Some(came) = self.hear_in_turn(node)? {
                return Ok(Some(came));
            }
        }
        Ok(None)
    }

    // The next message of the server elsewhere whose turn it is, if one came. Where there is
    // nothing it is ready no longer.
    fn hear_in_turn(&mut self, node: NodeId) -> Result<Option<(NodeId, Message)>, AllocError>
        ensures ok { IfOk result (λ came. Brings W.calls self.old came self.new) }
        ensures err { OnErr result (HearsAll W.calls self.old nothing self.new) }
    {
        match self.hear(node)? {
            Came::Message(message) => Ok(Some((node, message))),
            Came::More => Ok(None),
            Came::Nothing => {
                self.ready.end_turn();
                Ok(None)
            }
        }
    }

    // Hears the server elsewhere of this number.
    fn hear(&mut self, node: NodeId) -> Result<Came, AllocError>
        ensures ok { IfOk result
            (λ came. HearsAll W.calls self.old (heard_of node came) self.new) }
        ensures err { OnErr result (HearsAll W.calls self.old nothing self.new) }
    {
        let position = usize::from(node);
        if position >= self.remotes.len() {
            return Ok(Came::Nothing);
        }
        match &mut self.remotes[position] {
            Some(remote) => remote.hear(&mut self.room),
            None => Ok(Came::Nothing),
        }
    }

    // Whether something is awaited of a server elsewhere.
    fn is_awaited(&self) -> bool {
        self.remotes.iter().any(|remote| matches!(remote, Some(remote) if remote.is_awaited()))
    }

    // How many seconds passed since this was asked last, but at most 5: where there were more the
    // process stood still, and what came meanwhile is to be heard.
    fn passed(&mut self) -> u64
        ensures same { self.new ≡ self.old }
        ensures most { result ≤ 5 }
    {
        let seconds = self.network.seconds();
        let passed = seconds.saturating_sub(self.seconds);
        self.seconds = seconds.max(self.seconds);
        passed.min(STEP)
    }

    // So many seconds pass, of which all servers take note. The second that is then.
    fn pass(&mut self, seconds: u64) -> u64
        requires { seconds ≤ 5 }
        ensures after { self.new ≡ passed_all result self.old }
        ensures later_on { self.old.here.clock ≤ result }
        ensures soon { result ≤ later self.old.here.clock }
        ensures step { seconds ≡ 5 → result ≡ later self.old.here.clock }
    {
        let now = self.here.clock().saturating_add(seconds);
        self.here.pass_to(now);
        tick_each(&mut self.remotes);
        now
    }

    // What happens next, where there are servers elsewhere.
    fn wait_for_any(&mut self) -> Result<Happening, AllocError>
        ensures ok { IfOk result (λ happening. Happens W.calls self.old happening self.new) }
        ensures err { OnErr result (HearsAll W.calls self.old nothing self.new) }
    {
        for _ in 0..u64::MAX {
            let passed = self.passed();
            if passed > 0 {
                return Ok(Happening::Second(self.pass(passed)));
            }
            if let Some((node, message)) = self.next_message()? {
                return Ok(Happening::Came(node, message));
            }
            if !self.is_awaited() {
                return Ok(Happening::Second(self.pass(STEP)));
            }
            self.rest()?;
        }
        Ok(Happening::Second(self.pass(0)))
    }

    // Waits for a moment, or until a server elsewhere is ready.
    fn rest(&mut self) -> Result<(), AllocError>
        ensures { self.new ≡ self.old }
    {
        self.woken.clear();
        self.network.rest(&mut self.woken)?;
        for node in self.woken.iter() {
            self.ready.add(*node)?;
        }
        Ok(())
    }
}

// A server elsewhere takes note of a tick, where there is one.
fn tick_at<W: Wire + Drop>(position: &mut Option<RemoteServer<W>>)
    ensures { position.new ≡ option_map ticked_remote position.old }
{
    if let Some(remote) = position {
        remote.tick();
    }
}

// Each server elsewhere takes note of a tick.
fn tick_each<W: Wire + Drop>(remotes: &mut Vec<Option<RemoteServer<W>>>)
    ensures { remotes.new.items ≡ map (option_map ticked_remote) remotes.old.items }
{
    for position in remotes.iter_mut() {
        tick_at(position);
    }
}

impl<S: Store, L: Link, W: Wire + Drop, N: Network<W>> Outside for ServedGrid<S, L, W, N> {
    ghost use Rattle.served_grid.specs.Served.{served_calls};

    ghost calls = { served_calls S.calls L.carries L.gives_up W.calls };

    fn clock(&self) -> u64 {
        self.here.clock()
    }

    fn hand(&mut self, node: NodeId, message: &Message) -> Result<Option<Message>, AllocError> {
        if self.is_remote(node) {
            self.ask(node, message)?;
            return Ok(None);
        }
        self.here.exchange(node, message)
    }

    // Without servers elsewhere nothing is waited for, and the clock of the system is not asked.
    fn wait(&mut self) -> Result<Happening, AllocError> {
        if self.remotes.is_empty() {
            return Ok(Happening::Second(self.pass(STEP)));
        }
        self.wait_for_any()
    }
}
