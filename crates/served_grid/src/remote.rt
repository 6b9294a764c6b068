//! A server elsewhere, with the connection to it.

ghost use Rattle.std.specs.Prelude.{◌≡◌, ◌≤◌, [], None, IfErr, IfOk, OnOk, OnErr};
ghost use Rattle.served_grid.specs.Heard.{Hears, HearsInVain, ended_with, messages_of, noted};
ghost use Rattle.served_grid.specs.Remotes.{Connects, Gave, IsAsked, IsBroken, Reaches};
ghost use Rattle.served_grid.specs.Remotes.{awaiting, given_up, is_awaited, is_away, is_silent};
ghost use Rattle.served_grid.specs.Remotes.{patience, queued_over, ticked_remote, unasked};
ghost use Rattle.served_grid.specs.Remotes.{waiting_for};

use crate::network::Network;
use connections::{Connection, ConnectionFault, Greeting, Heard, Room, Sent, Side, Wire};
use std::alloc::{AllocError, Global};
use std::marker::Model;
use wire::message::{Message, NodeId};

/// How often a connection to a server is made at most.
const MOST_TRIES: u8 = 3;

/// At how many ticks in a row a server may not have greeted.
const GREETING_TICKS: u64 = 10;

/// At how many ticks in a row a server that greeted may not have answered.
const ANSWER_TICKS: u64 = 20;

/// How many calls that send, and then how many that read, a server gets before others have their
/// turn.
const CALLS: usize = 8;

/// Where more bytes than these wait for a server, what it is asked is lost.
const MOST_WAITING: usize = 16_777_216;

/// What was heard of a server elsewhere.
#[derive(Drop)]
pub(crate) enum Came {
    /// A message. Others may have come too.
    Message(Message),
    /// There may be more to send or to read.
    More,
    /// There is nothing, until the network says that there is.
    Nothing,
}

/// A server elsewhere. It is connected to when it is first asked, and anew where it is asked after
/// its connection ended, twice at most.
#[derive(Drop)]
pub struct RemoteServer<W: Wire> {
    own: Greeting,
    connection: Option<Connection<W>>,
    tries: u8,
    awaited: u64,
    quiet: u64,
    // That with which the last connection ended.
    fault: Option<ConnectionFault>,
}

impl<W: Wire> Model for RemoteServer<W> {
    ghost use Rattle.std.specs.Prelude.{IfSome};
    ghost use Rattle.served_grid.specs.Remotes.{IsClients, RemoteState};

    ghost Value = { RemoteState W };

    ghost view = { λ r. record {
      own = r.own;
      connection = r.connection;
      tries = r.tries;
      awaited = r.awaited;
      quiet = r.quiet;
      fault = r.fault;
    } };

    ghost invariant = { λ r. IfSome r.connection (IsClients W.calls r.own) };
}

impl<W: Wire + Drop> RemoteServer<W> {
    /// A server that was not asked yet, and is told this greeting.
    pub fn new(own: &Greeting) -> RemoteServer<W>
        ensures { result ≡ unasked own.now }
    {
        RemoteServer {
            own: *own,
            connection: None,
            tries: MOST_TRIES,
            awaited: 0,
            quiet: 0,
            fault: None,
        }
    }

    /// Does nothing come from it any more?
    pub fn is_silent(&self) -> bool
        ensures { result ≡ is_silent self.now }
    {
        self.connection.is_none() && self.tries == 0
    }

    /// Does no connection to it stand, though one was tried? Nothing comes from it then, unless it
    /// is reached when it is asked again.
    pub fn is_away(&self) -> bool
        ensures { result ≡ is_away self.now }
    {
        self.connection.is_none() && self.tries < MOST_TRIES
    }

    /// The fault with which the last connection to it ended. None where none ended with one, and of
    /// a server that was given up since it did not answer.
    pub fn fault(&self) -> Option<ConnectionFault>
        ensures { result ≡ self.now.fault }
    {
        self.fault
    }

    /// How many bytes are still to be sent to it: at most 16,842,756, which is where nothing more
    /// is queued, and one frame.
    pub fn waiting(&self) -> usize
        ensures value { result ≡ waiting_for self.now.connection }
        ensures bound { result ≤ 16842756 }
    {
        match &self.connection {
            Some(connection) => connection.waiting(),
            None => 0,
        }
    }

    /// Whether something is awaited of it.
    pub(crate) fn is_awaited(&self) -> bool
        ensures { result ≡ is_awaited self.now }
    {
        self.connection.is_some() && self.awaited > 0
    }

    /// Puts a message behind what is to be sent, over a connection that is made where there is
    /// none. Where none can be made, or too many bytes wait, the message is lost.
    pub(crate) fn ask<N: Network<W>>(
        &mut self,
        alloc: Global,
        network: &mut N,
        server: NodeId,
        message: &Message,
        frame: &mut Vec<u8>,
    ) -> Result<(), AllocError>
        ensures ok { OnOk result (IsAsked self.old message.now self.new) }
        ensures err { OnErr result (Reaches self.old.connection self.old self.new) }
    {
        if self.connection.is_none() {
            self.connect(alloc, network, server)?;
        }
        self.queue(message, frame)
    }

    // Begins to connect, while there are tries.
    fn connect<N: Network<W>>(
        &mut self,
        alloc: Global,
        network: &mut N,
        server: NodeId,
    ) -> Result<(), AllocError>
        requires { self.old.connection ≡ None }
        ensures ok { OnOk result (Connects self.old self.new) }
        ensures err { OnErr result (Connects self.old self.new) }
    {
        if self.tries == 0 {
            return Ok(());
        }
        self.tries -= 1;
        if let Some(wire) = network.connect(server)? {
            self.connection = Some(Connection::begin(alloc, wire, Side::Client, &self.own)?);
        }
        Ok(())
    }

    // Queues a message, where a connection stands.
    fn queue(&mut self, message: &Message, frame: &mut Vec<u8>) -> Result<(), AllocError>
        ensures ok { OnOk result
            (self.new ≡ queued_over self.old.connection message.now self.old) }
        ensures err { OnErr result (self.new ≡ self.old) }
    {
        let Some(connection) = &mut self.connection else {
            return Ok(());
        };
        if connection.waiting() > MOST_WAITING {
            return Ok(());
        }
        connection.queue(message, frame)?;
        self.count();
        Ok(())
    }

    // One answer more is awaited.
    fn count(&mut self)
        ensures { self.new ≡ awaiting self.old }
    {
        if self.awaited == 0 {
            self.quiet = 0;
        }
        self.awaited = self.awaited.saturating_add(1);
    }

    /// A tick. A server of which something is awaited too long is given up.
    pub(crate) fn tick(&mut self)
        ensures { self.new ≡ ticked_remote self.old }
    {
        if !self.is_awaited() {
            return;
        }
        self.quiet = self.quiet.saturating_add(1);
        if self.patience() <= self.quiet {
            self.give_up();
        }
    }

    // No connection stands any more, and none will.
    fn give_up(&mut self)
        ensures { self.new ≡ given_up self.old }
    {
        self.connection = None;
        self.tries = 0;
        self.awaited = 0;
        self.quiet = 0;
        self.fault = None;
    }

    // At how many ticks in a row it may be waited for.
    fn patience(&self) -> u64
        ensures { result ≡ patience self.now.connection }
    {
        match &self.connection {
            Some(connection) if !connection.is_greeted() => GREETING_TICKS,
            _ => ANSWER_TICKS,
        }
    }

    /// Sends what waits, as far as it goes, and hears the next message. A connection with a fault
    /// ends. An error only where the fault is memory that was refused.
    pub(crate) fn hear(&mut self, room: &mut Room) -> Result<Came, AllocError>
        ensures heard { IfOk result
            (λ came. Hears W.calls self.old self.old.connection came self.new) }
        ensures err { OnErr result
            (HearsInVain W.calls self.old self.old.connection self.new) }
    {
        let Some(connection) = &mut self.connection else {
            return Ok(Came::Nothing);
        };
        match carry(connection, room) {
            Ok(came) => {
                self.note(&came);
                Ok(came)
            }
            Err(fault) => {
                self.connection = None;
                self.end_with(fault);
                match fault {
                    ConnectionFault::OutOfMemory => Err(AllocError),
                    _ => Ok(Came::Nothing),
                }
            }
        }
    }

    // A message that came is awaited no longer.
    fn note(&mut self, came: &Came)
        ensures { self.new ≡ noted came.now self.old }
    {
        if let Came::Message(_) = came {
            self.awaited = self.awaited.saturating_sub(1);
            self.quiet = 0;
        }
    }

    // The connection ended with a fault. It is not made anew to a server that is another, or that
    // sent what is no frame.
    fn end_with(&mut self, fault: ConnectionFault)
        ensures { self.new ≡ ended_with fault self.old }
    {
        self.connection = None;
        self.awaited = 0;
        self.fault = Some(fault);
        if matches!(
            fault,
            ConnectionFault::OtherGreeting | ConnectionFault::NoFrame
        ) {
            self.tries = 0;
        }
    }
}

// Sends what waits, as far as it goes in some calls, and hears the next message in some more.
fn carry<W: Wire>(connection: &mut Connection<W>, room: &mut Room) -> Result<Came, ConnectionFault>
    requires { connection.old.fault ≡ None }
    ensures ok { IfOk result
        (λ came. Gave W.calls connection.old (messages_of came) connection.new) }
    ensures err { IfErr result (λ fault. IsBroken W.calls connection.old fault) }
{
    let all_sent = send(connection)?;
    match hear(connection, room)? {
        Came::Nothing if !all_sent => Ok(Came::More),
        came => Ok(came),
    }
}

// Sends what waits, and says whether that is all that can be sent before the network says so.
fn send<W: Wire>(connection: &mut Connection<W>) -> Result<bool, ConnectionFault>
    requires { connection.old.fault ≡ None }
    ensures ok { OnOk result (Gave W.calls connection.old [] connection.new) }
    ensures err { IfErr result (λ fault. IsBroken W.calls connection.old fault) }
{
    for _ in 0..CALLS {
        if connection.send()? == Sent::Nothing {
            return Ok(true);
        }
    }
    Ok(false)
}

// Hears the next message.
fn hear<W: Wire>(connection: &mut Connection<W>, room: &mut Room) -> Result<Came, ConnectionFault>
    requires { connection.old.fault ≡ None }
    ensures ok { IfOk result
        (λ came. Gave W.calls connection.old (messages_of came) connection.new) }
    ensures err { IfErr result (λ fault. IsBroken W.calls connection.old fault) }
{
    for _ in 0..CALLS {
        match connection.hear(room)? {
            Heard::Message(message) => return Ok(Came::Message(message)),
            Heard::Bytes => {}
            Heard::Nothing => return Ok(Came::Nothing),
        }
    }
    Ok(Came::More)
}
