//! A connection: what came over it and is no message yet, and what is still to be sent.

ghost use Rattle.std.specs.Prelude.{◌≡◌, ◌++◌, ◌+◌, ◌↔◌, ◌<◌, ◌≤◌, [], Err, IfErr, IfOk, IsTrue};
ghost use Rattle.std.specs.Prelude.{None, OnErr, OnOk, Some, drop, length, take};
ghost use Rattle.wire.specs.Frames.{IsMessage, frame};
ghost use Rattle.wire.specs.Stream.{IsPartial};
ghost use Rattle.connections.specs.declared.fault.ConnectionFault.{ConnectionFault};
ghost use Rattle.connections.specs.Connections.{AreFit, Breaks, Faults, Goes, HasGreeted};
ghost use Rattle.connections.specs.Connections.{Hears, begun, put_behind};

use crate::ends::{Arrival, Wire};
use crate::fault::ConnectionFault;
use crate::greeting_text::{GREETING_SIZE, Greeting, fits};
use crate::room::Room;
use bytes::BytesMut;
use std::alloc::{AllocError, Global};
use std::marker::Model;
use wire::error::WireError;
use wire::feed::Feed;
use wire::message::Message;

/// The most bytes that came and are no message yet: less than a frame, and what one call reads.
pub const MAX_HELD: usize = 131_075;

/// A connection for which more bytes than this wait is full.
pub const MAX_WAITING: usize = 131_072;

/// Whose end of a connection it is.
#[derive(Clone, Copy, PartialEq, Eq)]
pub enum Side {
    Client,
    Server,
}

/// What was heard of the other end.
#[derive(Drop)]
pub enum Heard {
    /// A message. Others may have come too.
    Message(Message),
    /// Bytes came. They may end a message.
    Bytes,
    /// Nothing is there yet.
    Nothing,
}

/// What was sent.
#[derive(Clone, Copy, PartialEq, Eq)]
pub enum Sent {
    /// Bytes. Others may wait.
    Bytes,
    /// None: none waits, or none can be sent yet.
    Nothing,
}

/// A connection, of which no call waits. Its fault is told for good.
#[derive(Drop)]
pub struct Connection<W: Wire> {
    wire: W,
    side: Side,
    own: Greeting,
    // The other end's greeting, of which so many bytes came.
    greeting: Greeting,
    greeted: usize,
    feed: Feed,
    outgoing: BytesMut,
    fault: Option<ConnectionFault>,
}

impl<W: Wire> Model for Connection<W> {
    ghost use Rattle.std.specs.Prelude.{take};
    ghost use Rattle.connections.specs.Connections.{ConnectionState};
    ghost use Rattle.connections.specs.Limits.{IsWithin};

    ghost Value = { ConnectionState W };

    ghost view = { λ c. record {
      wire = c.wire;
      side = c.side;
      own = c.own;
      greeting = take c.greeted c.greeting;
      came = c.feed;
      waiting = c.outgoing.items;
      fault = c.fault;
    } };

    ghost invariant = { λ c. IsWithin c.greeting c.greeted c.feed };
}

impl<W: Wire> Connection<W> {
    /// A connection over which nothing came and nothing went: the own greeting waits.
    pub fn begin(
        alloc: Global,
        wire: W,
        side: Side,
        own: &Greeting,
    ) -> Result<Connection<W>, AllocError>
    where
        W: Drop,
        ensures { IfOk result (λ c. c ≡ begun wire side own.now) }
    {
        let mut outgoing = BytesMut::new(alloc);
        outgoing.extend_from_slice(own)?;
        Ok(Connection {
            wire,
            side,
            own: *own,
            greeting: [0; GREETING_SIZE],
            greeted: 0,
            feed: Feed::new(alloc),
            outgoing,
            fault: None,
        })
    }

    /// The wire.
    pub fn wire(&self) -> &W
        ensures { result.now ≡ self.now.wire }
    {
        &self.wire
    }

    /// The fault that was told, if any.
    pub fn fault(&self) -> Option<ConnectionFault>
        ensures { result ≡ self.now.fault }
    {
        self.fault
    }

    /// What came of the other end's greeting.
    pub fn greeting(&self) -> &[u8]
        ensures { result.now ≡ self.now.greeting }
    {
        &self.greeting[..self.greeted]
    }

    /// Whether the other end's greeting is whole.
    pub fn is_greeted(&self) -> bool
        ensures { IsTrue result ↔ (length self.now.greeting ≡ GREETING_SIZE) }
    {
        self.greeting().len() == GREETING_SIZE
    }

    /// How many bytes are still to be sent.
    pub fn waiting(&self) -> usize
        ensures { result ≡ length self.now.waiting }
    {
        self.outgoing.len()
    }

    /// Whether so many bytes wait that nothing should be asked or answered before some went.
    pub fn is_full(&self) -> bool
        ensures { IsTrue result ↔ (MAX_WAITING < length self.now.waiting) }
    {
        self.waiting() > MAX_WAITING
    }

    /// Puts a message's frame behind what waits. `buffer` is room for the frame.
    pub fn queue(&mut self, message: &Message, buffer: &mut Vec<u8>) -> Result<(), AllocError>
        ensures ok { OnOk result (self.new ≡ put_behind (frame message.now) self.old) }
        ensures right { IsMessage message.now }
        ensures bound { length self.new.waiting ≤ length self.old.waiting + 65540 }
        ensures err { OnErr result (self.new ≡ self.old) }
    {
        message.encode_to(buffer)?;
        self.outgoing.extend_from_slice(buffer)
    }

    /// Sends what waits, as far as it goes in one call.
    pub fn send(&mut self) -> Result<Sent, ConnectionFault>
        ensures told { (fault : ConnectionFault) → self.old.fault ≡ Some fault
            → (result ≡ Err fault) × (self.new ≡ self.old) }
        ensures sent { IfOk result (λ sent. Goes W.calls self.old sent self.new) }
        ensures fault { self.old.fault ≡ None
            → IfErr result (λ fault. Breaks W.calls self.old fault self.new) }
    {
        if let Some(fault) = self.fault {
            return Err(fault);
        }
        if self.outgoing.is_empty() {
            return Ok(Sent::Nothing);
        }
        match self.wire.send(self.outgoing.as_slice()) {
            Ok(Some(count)) => {
                self.outgoing.advance(count);
                Ok(Sent::Bytes)
            }
            Ok(None) => Ok(Sent::Nothing),
            Err(_) => {
                self.fault = Some(ConnectionFault::Ended);
                Err(ConnectionFault::Ended)
            }
        }
    }

    /// Gives the next message, where its frame came whole, and else reads what is there, in one
    /// call. The other end's greeting is read first, and no byte behind it in the same call.
    pub fn hear(&mut self, room: &mut Room) -> Result<Heard, ConnectionFault>
        ensures told { (fault : ConnectionFault) → self.old.fault ≡ Some fault
            → (result ≡ Err fault) × (self.new ≡ self.old) }
        ensures heard { IfOk result (λ heard. Hears W.calls self.old heard self.new) }
        ensures fault { self.old.fault ≡ None
            → IfErr result (λ fault. Breaks W.calls self.old fault self.new) }
        ensures bound { length self.new.came.rest ≤ MAX_HELD }
    {
        if let Some(fault) = self.fault {
            return Err(fault);
        }
        let heard = self.try_hear(room);
        if let Err(fault) = &heard {
            self.fault = Some(*fault);
        }
        heard
    }

    // As `hear`, where no fault was told.
    fn try_hear(&mut self, room: &mut Room) -> Result<Heard, ConnectionFault>
        ensures heard { IfOk result (λ heard. Hears W.calls self.old heard self.new) }
        ensures fault { IfErr result (λ fault. Faults W.calls self.old fault self.new) }
        ensures waiting { OnErr result (self.new.waiting ≡ self.old.waiting) }
    {
        if self.greeted < GREETING_SIZE {
            return self.hear_greeting();
        }
        if !self.is_fit() {
            return Err(ConnectionFault::OtherGreeting);
        }
        self.hear_frames(room)
    }

    // Whether the greetings of both ends fit.
    fn is_fit(&self) -> bool
        requires { length self.now.greeting ≡ 64 }
        ensures { IsTrue result ↔ AreFit self.now.side self.now.own self.now.greeting }
    {
        match self.side {
            Side::Client => fits(&self.own, &self.greeting),
            Side::Server => fits(&self.greeting, &self.own),
        }
    }

    // Reads what is there of the other end's greeting.
    fn hear_greeting(&mut self) -> Result<Heard, ConnectionFault>
        requires { length self.old.greeting < 64 }
        ensures heard { IfOk result (λ heard. Hears W.calls self.old heard self.new) }
        ensures fault { IfErr result (λ fault. Faults W.calls self.old fault self.new) }
        ensures waiting { OnErr result (self.new.waiting ≡ self.old.waiting) }
    {
        match self.wire.receive(&mut self.greeting[self.greeted..]) {
            Ok(Arrival::Bytes(count)) => {
                self.greeted += count;
                Ok(Heard::Bytes)
            }
            Ok(Arrival::NotYet) => Ok(Heard::Nothing),
            Ok(Arrival::End) | Err(_) => Err(ConnectionFault::Ended),
        }
    }

    // Gives the message in front, or reads.
    fn hear_frames(&mut self, room: &mut Room) -> Result<Heard, ConnectionFault>
        requires { HasGreeted self.old }
        ensures heard { IfOk result (λ heard. Hears W.calls self.old heard self.new) }
        ensures fault { IfErr result (λ fault. Faults W.calls self.old fault self.new) }
        ensures waiting { OnErr result (self.new.waiting ≡ self.old.waiting) }
    {
        match self.feed.next() {
            Ok(Some(message)) => Ok(Heard::Message(message)),
            Ok(None) => self.read(room),
            Err(WireError::OutOfMemory) => Err(ConnectionFault::OutOfMemory),
            Err(_) => Err(ConnectionFault::NoFrame),
        }
    }

    // Reads what is there, in one call.
    fn read(&mut self, room: &mut Room) -> Result<Heard, ConnectionFault>
        requires whole { length self.old.greeting ≡ 64 }
        requires partial { IsPartial self.old.came.rest }
        requires sound { self.old.came.fault ≡ None }
        ensures heard { IfOk result (λ heard. Hears W.calls self.old heard self.new) }
        ensures fault { IfErr result (λ fault. Faults W.calls self.old fault self.new) }
        ensures waiting { OnErr result (self.new.waiting ≡ self.old.waiting) }
    {
        let room = room.as_mut_slice();
        match self.wire.receive(room) {
            Ok(Arrival::Bytes(count)) => {
                self.feed.feed(&room[..count])?;
                Ok(Heard::Bytes)
            }
            Ok(Arrival::NotYet) => Ok(Heard::Nothing),
            Ok(Arrival::End) | Err(_) => Err(ConnectionFault::Ended),
        }
    }
}
