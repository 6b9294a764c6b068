//! The loop of a server over sockets.

ghost use Rattle.std.specs.Prelude.{◌≡◌, ◌<◌, ◌∷◌, ℕ, List, [], None, IfNone, IfOk, IfSome, OnErr};
ghost use Rattle.std.specs.Prelude.{OnOk, Some, slice_get};
ghost use Rattle.grid_serving.specs.Loops.{Comes, Fails, FailsReady, Passes, RoomIsMade, Seats};
ghost use Rattle.grid_serving.specs.Loops.{ServesReady, Takes, TakesNext, TakesWaiting, Tells};
ghost use Rattle.grid_serving.specs.Loops.{TellsGone, Turns, Wakes, begun_loop};
ghost use Rattle.grid_serving.specs.Turns.{WakeInTurn};

use crate::client::Client;
use crate::clients::{Clients, Gone};
use crate::desk::Desk;
use crate::limits::{MOST_CLIENTS, MOST_TAKEN};
use connections::{Address, Greeting, Listener, Nonblocking, Socket, Wire};
use mio::{Events, Poll, Token};
use server_core::server::Server;
use share_store::store::Store;
use std::collections::VecDeque;
use std::io::{self, ErrorKind};
use std::marker::Model;
use std::net::Net;
use std::rt::{Clock, Files};
use std::time::{Duration, Instant};
use wire::message::NodeId;

// The token of what listens: no client's place.
const LISTENER: usize = 256;

// How many sockets are told to be ready at once at most.
const MOST_EVENTS: usize = 512;

/// What happened to clients.
#[derive(Clone, Copy, PartialEq, Eq)]
pub enum News {
    /// One came, to this place.
    Came(NodeId),
    /// One was refused: each place had a client that had greeted, or its socket failed.
    Refused,
    /// One is gone.
    Gone(Gone),
}

/// A server, and the clients that are connected to it.
#[derive(Drop)]
pub struct Serving<S: Store> {
    server: Server<S>,
    clients: Clients<Nonblocking<Socket>>,
    desk: Desk,
    poll: Poll,
    events: Events,
    listener: Listener,
    // Whether clients may wait to be taken, and whether there may be more to do at once.
    comes: bool,
    is_owed: bool,
    start: Instant,
    clock: u64,
    news: VecDeque<News>,
}

impl<S: Store> Model for Serving<S> {
    ghost use Rattle.connections.specs.declared.ends.Nonblocking.{Nonblocking};
    ghost use Rattle.connections.specs.declared.socket.Socket.{Socket};
    ghost use Rattle.grid_serving.specs.Loops.{LoopState};

    ghost Value = { LoopState (Nonblocking Socket) S };

    ghost view = { λ s. record {
      listener = s.listener;
      server = s.server;
      own = s.desk.own;
      clients = s.clients;
      clock = s.clock;
      comes = s.comes;
      is_owed = s.is_owed;
      news = s.news.items;
    } };
}

impl<S: Store + Drop> Serving<S> {
    /// A server with no clients, which listens at an address. An error where the system refuses
    /// that, and where there is not enough memory.
    pub fn start<R: Net + Files + Clock + AllocGlobal>(
        rt: &R,
        server: Server<S>,
        own: &Greeting,
        address: &Address,
    ) -> io::Result<Serving<S>>
        ensures { IfOk result (λ s. s ≡ begun_loop s.listener server own.now) }
    {
        let poll = Poll::new(rt)?;
        let mut listener = Listener::bind(rt, address)?;
        listener.register(poll.registry(), Token(LISTENER))?;
        Serving::over(rt, server, own, poll, listener)
    }

    // The same once it listens.
    fn over<R: Clock + AllocGlobal>(
        rt: &R,
        server: Server<S>,
        own: &Greeting,
        poll: Poll,
        listener: Listener,
    ) -> io::Result<Serving<S>>
        ensures begun { IfOk result (λ s. s ≡ begun_loop s.listener server own.now) }
        ensures listener { IfOk result (λ s. s.listener ≡ listener) }
    {
        let alloc = rt.alloc();
        let clients = Clients::new(alloc)?;
        let desk = Desk::new(alloc, own)?;
        let events = Events::with_capacity(alloc, MOST_EVENTS)?;
        Ok(Serving {
            server,
            clients,
            desk,
            poll,
            events,
            listener,
            comes: true,
            is_owed: true,
            start: Instant::now(rt)?,
            clock: 0,
            news: VecDeque::new(alloc),
        })
    }

    /// What it listens with.
    pub fn listener(&self) -> &Listener
        ensures { result.now ≡ self.now.listener }
    {
        &self.listener
    }

    /// Waits so long at most for what is ready, and does it. An error where the system fails, and
    /// where there was not enough memory for a message: the program is to end then.
    pub fn turn<R: Clock>(&mut self, rt: &R, most: Duration) -> io::Result<()>
        ensures ok { OnOk result
            (Turns ⟦<Nonblocking<Socket> as Wire>⟧.calls S.calls self.old self.new) }
        ensures err { OnErr result
            (Fails ⟦<Nonblocking<Socket> as Wire>⟧.calls S.calls self.old self.new) }
    {
        self.rest(most)?;
        let now = self.start.elapsed(rt)?.as_secs();
        let takes = self.take_clients(now);
        let serves = self.serve_ready(now)?;
        self.is_owed = takes | serves;
        self.pass(now);
        Ok(())
    }

    /// What happened to a client and was not told yet, in its order.
    pub fn next_news(&mut self) -> Option<News>
        ensures some { IfSome result
            (λ one. self.old ≡ record self.new { news = one ∷ self.new.news }) }
        ensures none { IfNone result ((self.old.news ≡ []) × (self.new ≡ self.old)) }
    {
        self.news.pop_front()
    }

    // Waits so long at most, or until something is ready. Where there is more to do it only looks.
    // A signal that a program stopped and goes on is no fault.
    fn rest(&mut self, most: Duration) -> io::Result<()>
        ensures { Wakes self.old self.new }
    {
        let wait = if self.is_owed { Duration::ZERO } else { most };
        match self.poll.poll(&mut self.events, Some(wait)) {
            Ok(()) => {
                self.wake_ready();
                Ok(())
            }
            Err(error) if error.kind() == ErrorKind::Interrupted => Ok(()),
            Err(error) => Err(error),
        }
    }

    // Wakes the clients that events tell of.
    fn wake_ready(&mut self)
        ensures { Wakes self.old self.new }
    {
        let comes = wake_told(&self.events, &mut self.clients);
        self.comes |= comes;
    }

    // Takes clients that wait. Whether others may wait.
    fn take_clients(&mut self, now: u64) -> bool
        ensures { TakesWaiting S.calls now self.old self.new }
    {
        if !self.comes {
            return false;
        }
        for _ in 0..MOST_TAKEN {
            if !self.take_next(now) {
                return false;
            }
        }
        true
    }

    // Takes the next client that waits, if one does, and the system has room for it: else it is
    // tried again at the next turn.
    fn take_next(&mut self, now: u64) -> bool
        ensures { TakesNext S.calls now self.old result self.new }
    {
        match self.listener.accept() {
            Ok(Some(socket)) => {
                self.take(socket, now);
                true
            }
            Ok(None) => {
                self.comes = false;
                false
            }
            Err(_) => false,
        }
    }

    // Takes a client, if there is a place for it.
    fn take(&mut self, socket: Socket, now: u64)
        ensures { Takes S.calls now self.old self.new }
    {
        self.make_room();
        let news = self.seat(socket, now);
        self.note(news);
    }

    // Makes room where no place is free, if somebody has not greeted.
    fn make_room(&mut self)
        ensures { RoomIsMade S.calls self.old self.new }
    {
        if self.clients.free_place().is_none() {
            self.clients.make_room(&mut self.server);
            self.note_gone();
        }
    }

    // Puts a client at a free place, if there is one. What is to be told of it.
    fn seat(&mut self, socket: Socket, now: u64) -> News
        ensures { Seats now self.old result self.new }
    {
        let Some(node) = self.clients.free_place() else {
            return News::Refused;
        };
        match self.put(node, socket, now) {
            Ok(()) => News::Came(node),
            Err(_) => News::Refused,
        }
    }

    // Puts a client at a place at which nobody is.
    fn put(&mut self, node: NodeId, mut socket: Socket, now: u64) -> io::Result<()>
        requires within { node < 256 }
        requires free { slice_get self.old.clients node ≡ Some None }
        ensures ok { OnOk result (Comes node now self.old self.new) }
        ensures err { OnErr result (self.new ≡ self.old) }
    {
        socket.register(self.poll.registry(), Token(usize::from(node)))?;
        let client = Client::new(&self.desk, Nonblocking { stream: socket }, now)?;
        self.clients.put(node, client);
        Ok(())
    }

    // The clients that may be served have their turns. Whether there may be more to do at once.
    fn serve_ready(&mut self, now: u64) -> io::Result<bool>
        ensures ok { OnOk result
            (ServesReady ⟦<Nonblocking<Socket> as Wire>⟧.calls S.calls now self.old self.new) }
        ensures err { OnErr result
            (FailsReady ⟦<Nonblocking<Socket> as Wire>⟧.calls S.calls now self.old self.new) }
    {
        let served = self
            .clients
            .serve_ready(&mut self.server, &mut self.desk, now);
        self.note_gone();
        Ok(served?)
    }

    // The time. Each second, clients that were still for too long are ended.
    fn pass(&mut self, now: u64)
        ensures { Passes S.calls now self.old self.new }
    {
        if now == self.clock {
            return;
        }
        self.clock = now;
        self.server.tick(now);
        self.server.let_go();
        self.clients.end_late(&mut self.server, now);
        self.note_gone();
    }

    // Notes the clients that are gone.
    fn note_gone(&mut self)
        ensures news { TellsGone self.old.news self.new.news }
        ensures others { self.new ≡ record self.old { news = self.new.news } }
    {
        for _ in 0..usize::MAX {
            let Some(gone) = self.clients.next_gone() else {
                return;
            };
            self.note(News::Gone(gone));
        }
    }

    // Notes what happened. Where there is no memory for that it is not told.
    fn note(&mut self, news: News)
        ensures news { Tells news self.old.news self.new.news }
        ensures others { self.new ≡ record self.old { news = self.new.news } }
    {
        let _ = self.news.push_back(news);
    }
}

// Wakes the clients of which events tell. Whether they tell of what listens, too.
fn wake_told<W: Wire + Drop>(events: &Events, clients: &mut Clients<W>) -> bool
    ensures { (nodes : List ℕ) × WakeInTurn nodes clients.old clients.new }
{
    let mut comes = false;
    for event in events {
        comes |= wake_one(event.token(), clients);
    }
    comes
}

// Wakes the client with a token. Whether that is of no client.
fn wake_one<W: Wire + Drop>(token: Token, clients: &mut Clients<W>) -> bool
    ensures { (nodes : List ℕ) × WakeInTurn nodes clients.old clients.new }
{
    match NodeId::try_from(token.0) {
        Ok(node) if node < MOST_CLIENTS => {
            clients.wake(node);
            false
        }
        _ => true,
    }
}
