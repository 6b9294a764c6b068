//! A client of a server: its connection, and how long it has been still.

ghost use Rattle.std.specs.Prelude.{◌≡◌, IfErr, IfOk, OnOk};
ghost use Rattle.grid_serving.specs.Places.{is_greeting, is_late, new_client};
ghost use Rattle.grid_serving.specs.Turns.{Answers, BreaksOff, HasTurn, IsServed, MovesNow};

use crate::desk::Desk;
use crate::limits::{GREETING_LIMIT, STEPS, STILL_LIMIT, WAITING_LIMIT};
use connections::{Connection, ConnectionFault, Heard, Sent, Side, Wire};
use server_core::error::ServerFault;
use server_core::server::Server;
use share_store::store::Store;
use std::alloc::AllocError;
use std::marker::Model;
use wire::message::{Message, NodeId};

/// Why a client's turn breaks off.
#[derive(Clone, Copy, PartialEq, Eq)]
pub enum TurnFault {
    /// Its connection ended.
    Ended(ConnectionFault),
    /// The server had not enough memory for a message.
    OutOfMemory,
}

impl From<ConnectionFault> for TurnFault {
    ghost use Rattle.std.specs.Prelude.{◌≡◌};
    ghost use Rattle.grid_serving.specs.declared.client.TurnFault.TheVariants.{Ended};

    ghost from_gives = { λ fault e. e ≡ Ended fault };

    fn from(fault: ConnectionFault) -> TurnFault {
        TurnFault::Ended(fault)
    }
}

/// A client, which is its connection. It has a turn only while there may be something to do: what
/// its socket tells once is not told again.
#[derive(Drop)]
pub struct Client<W: Wire> {
    connection: Connection<W>,
    // The second at which it came, and the one at which bytes came or went last.
    came: u64,
    moved: u64,
    is_ready: bool,
}

impl<W: Wire> Model for Client<W> {
    ghost use Rattle.grid_serving.specs.Places.{ClientState};

    ghost Value = { ClientState W };

    ghost view = { λ c. record {
      connection = c.connection;
      came = c.came;
      moved = c.moved;
      is_ready = c.is_ready;
    } };
}

impl<W: Wire + Drop> Client<W> {
    /// A client that has just come: the server's greeting waits for it.
    pub fn new(desk: &Desk, wire: W, now: u64) -> Result<Client<W>, AllocError>
        ensures { IfOk result (λ c. c ≡ new_client wire desk.now.own now) }
    {
        Ok(Client {
            connection: Connection::begin(desk.alloc, wire, Side::Server, &desk.own)?,
            came: now,
            moved: now,
            is_ready: true,
        })
    }

    /// Whether there may be something to do.
    pub fn is_ready(&self) -> bool
        ensures { result ≡ self.now.is_ready }
    {
        self.is_ready
    }

    /// There may be something to do, or there is nothing until that is told.
    pub fn set_ready(&mut self, is_ready: bool)
        ensures { self.new ≡ record self.old { is_ready = is_ready } }
    {
        self.is_ready = is_ready;
    }

    /// Whether its greeting is still to come.
    pub fn is_greeting(&self) -> bool
        ensures { result ≡ is_greeting self.now }
    {
        self.connection.greeting().len() < 64
    }

    /// Whether it has been still for too long, or its greeting takes too long.
    pub fn is_late(&self, now: u64) -> bool
        ensures { result ≡ is_late now self.now }
    {
        if self.is_greeting() && now.saturating_sub(self.came) >= GREETING_LIMIT {
            return true;
        }
        let still = now.saturating_sub(self.moved);
        still >= STILL_LIMIT || (self.connection.waiting() > 0 && still >= WAITING_LIMIT)
    }

    /// Its turn: what came is answered, as far as it takes the answers, and sent.
    pub fn turn<S: Store>(
        &mut self,
        server: &mut Server<S>,
        desk: &mut Desk,
        node: NodeId,
        now: u64,
    ) -> Result<(), TurnFault>
        ensures ok { OnOk result
            (HasTurn W.calls S.calls node now self.old server.old self.new server.new) }
        ensures err { IfErr result (λ fault. BreaksOff W.calls S.calls node now fault
            self.old.connection server.old server.new) }
        ensures desk { desk.new.own ≡ desk.old.own }
    {
        for _ in 0..STEPS {
            let is_more = self.step(server, desk, node, now)?;
            self.set_ready(is_more);
            if !is_more {
                return Ok(());
            }
        }
        self.send(now)?;
        Ok(())
    }

    // One step. Whether there may be more to do at once.
    fn step<S: Store>(
        &mut self,
        server: &mut Server<S>,
        desk: &mut Desk,
        node: NodeId,
        now: u64,
    ) -> Result<bool, TurnFault>
        ensures ok { OnOk result
            (HasTurn W.calls S.calls node now self.old server.old self.new server.new) }
        ensures err { IfErr result (λ fault. BreaksOff W.calls S.calls node now fault
            self.old.connection server.old server.new) }
        ensures desk { desk.new.own ≡ desk.old.own }
    {
        if self.connection.is_full() {
            return Ok(self.send(now)?);
        }
        match self.connection.hear(&mut desk.room)? {
            Heard::Message(message) => {
                self.answer(server, desk, node, &message, now)?;
                Ok(true)
            }
            Heard::Bytes => {
                self.moved = now;
                Ok(true)
            }
            Heard::Nothing => Ok(self.send(now)? && self.connection.waiting() > 0),
        }
    }

    // Has a message answered. Where the store fails it stays without an answer.
    fn answer<S: Store>(
        &mut self,
        server: &mut Server<S>,
        desk: &mut Desk,
        node: NodeId,
        message: &Message,
        now: u64,
    ) -> Result<(), TurnFault>
        ensures ok { OnOk result (Answers W.calls S.calls node now message.now self.old.connection
            server.old self.new.connection server.new) }
        ensures others { self.new ≡ record self.old { connection = self.new.connection } }
        ensures err { IfErr result (λ fault.
            IsServed S.calls node now fault message.now server.old server.new) }
        ensures desk { desk.new.own ≡ desk.old.own }
    {
        match server.on_message(node, message, now) {
            Ok(Some(answer)) => match self.connection.queue(&answer, &mut desk.frame) {
                Ok(()) => Ok(()),
                Err(_) => Err(TurnFault::Ended(ConnectionFault::OutOfMemory)),
            },
            Ok(None) | Err(ServerFault::StoreFault) => Ok(()),
            Err(ServerFault::OutOfMemory) => Err(TurnFault::OutOfMemory),
        }
    }

    // Sends what waits, as far as it goes in one call. Whether there may be more to send at once.
    fn send(&mut self, now: u64) -> Result<bool, ConnectionFault>
        ensures { OnOk result (MovesNow W.calls now self.old self.new) }
    {
        match self.connection.send()? {
            Sent::Nothing => Ok(false),
            Sent::Bytes => {
                self.moved = now;
                Ok(true)
            }
        }
    }
}
