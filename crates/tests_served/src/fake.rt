//! A network of the tests' own: its wires have the servers behind them, and its clock goes on by a
//! second at each rest.

use crate::server::{answer, greeting_of, server};
use connections::{Arrival, GREETING_SIZE, Wire};
use served_grid::Network;
use server_core::server::Server;
use share_store::memory::MemoryStore;
use std::alloc::{AllocError, Global};
use std::io::{self, ErrorKind};
use wire::feed::Feed;
use wire::message::{Message, NodeId};

/// How a server is, or is at first.
#[derive(Clone, Copy, PartialEq, Eq)]
pub(crate) enum Kind {
    Honest,
    /// No connection to it can be made.
    Refuses,
    /// It does not greet.
    Mute,
    /// It greets, and answers nothing.
    Silent,
    /// It has the mark of another server.
    Other,
    /// It answers with bytes that are no frame.
    Garbage,
    /// Its connection ends within the frame of each first answer.
    EndsInFrame,
    /// So it is once, and then it is honest.
    EndsOnce,
}

/// A wire with a server behind it. It brings and takes so many bytes in a call.
#[derive(Drop)]
pub(crate) struct FakeWire {
    alloc: Global,
    kind: Kind,
    server: Server<MemoryStore>,
    step: usize,
    // How many bytes of the client's greeting came, and the stream behind it.
    greeted: usize,
    came: Feed,
    // What is said to the client, and how much of that it read.
    said: Vec<u8>,
    heard: usize,
    ended: bool,
}

impl FakeWire {
    fn new(alloc: Global, number: NodeId, kind: Kind, step: usize) -> Result<FakeWire, AllocError> {
        let mut said = Vec::new(alloc);
        if kind != Kind::Mute {
            let number = if kind == Kind::Other { 99 } else { number };
            said.extend_from_slice(&greeting_of(alloc, number)?)?;
        }
        Ok(FakeWire {
            alloc,
            kind,
            server: server(alloc)?,
            step,
            greeted: 0,
            came: Feed::new(alloc),
            said,
            heard: 0,
            ended: false,
        })
    }

    // Bytes came from the client.
    fn take(&mut self, bytes: &[u8]) -> Result<(), AllocError> {
        let greeting = bytes.len().min(GREETING_SIZE.saturating_sub(self.greeted));
        self.greeted = self.greeted.saturating_add(greeting);
        self.came.feed(bytes.get(greeting..).unwrap_or(&[]))?;
        for _ in 0..bytes.len() {
            match self.came.next() {
                Ok(Some(message)) => self.answer(&message)?,
                _ => return Ok(()),
            }
        }
        Ok(())
    }

    fn answer(&mut self, message: &Message) -> Result<(), AllocError> {
        if self.ended {
            return Ok(());
        }
        match self.kind {
            Kind::Mute | Kind::Silent => Ok(()),
            Kind::Garbage => self.said.extend_from_slice(&[255; 8]),
            _ => self.say(message),
        }
    }

    fn say(&mut self, message: &Message) -> Result<(), AllocError> {
        let Some(said) = answer(&mut self.server, message)? else {
            return Ok(());
        };
        let frame = said.encode(self.alloc)?;
        let mut count = frame.len();
        if matches!(self.kind, Kind::EndsInFrame | Kind::EndsOnce) {
            count /= 2;
            self.ended = true;
        }
        self.said
            .extend_from_slice(frame.as_slice().get(..count).unwrap_or(&[]))
    }
}

impl Wire for FakeWire {
    ghost calls = { record {
      came = λ old bytes new. Unit {0};
      sent = λ old bytes new. Unit {0};
      ended = λ old new. Unit {0};
      failed = λ old new. Unit {0};
    } };

    fn receive(&mut self, room: &mut [u8]) -> io::Result<Arrival> {
        let Some(rest) = self.said.as_slice().get(self.heard..) else {
            return Ok(Arrival::End);
        };
        let count = self.step.min(rest.len()).min(room.len());
        if count == 0 {
            return Ok(if self.ended {
                Arrival::End
            } else {
                Arrival::NotYet
            });
        }
        room[..count].copy_from_slice(&rest[..count]);
        self.heard = self.heard.saturating_add(count);
        Ok(Arrival::Bytes(count))
    }

    fn send(&mut self, bytes: &[u8]) -> io::Result<Option<usize>> {
        if self.ended {
            return Err(io::Error::from(ErrorKind::BrokenPipe));
        }
        let count = self.step.min(bytes.len());
        if count == 0 {
            return Ok(None);
        }
        self.take(&bytes[..count])?;
        Ok(Some(count))
    }
}

/// A network whose servers are of these kinds, by number.
#[derive(Drop)]
pub(crate) struct FakeNetwork {
    alloc: Global,
    kinds: Vec<Kind>,
    step: usize,
    /// The numbers of the servers to which connections were made, or were to be.
    pub(crate) made: Vec<NodeId>,
    now: u64,
    /// How often nothing was to do.
    pub(crate) rests: u64,
}

impl FakeNetwork {
    pub(crate) fn new(
        alloc: Global,
        kinds: &[Kind],
        step: usize,
    ) -> Result<FakeNetwork, AllocError> {
        Ok(FakeNetwork {
            alloc,
            kinds: Vec::from_slice(alloc, kinds)?,
            step,
            made: Vec::new(alloc),
            now: 1000,
            rests: 0,
        })
    }

    /// How often a connection to a server was to be made.
    pub(crate) fn tries(&self, server: NodeId) -> usize {
        self.made.iter().filter(|number| **number == server).count()
    }

    // How a server is now.
    fn kind(&self, server: NodeId) -> Kind {
        match self.kinds.get(usize::from(server)) {
            Some(Kind::EndsOnce) if self.tries(server) > 1 => Kind::Honest,
            Some(kind) => *kind,
            None => Kind::Refuses,
        }
    }
}

impl Network<FakeWire> for FakeNetwork {
    fn connect(&mut self, server: NodeId) -> Result<Option<FakeWire>, AllocError> {
        self.made.push(server)?;
        match self.kind(server) {
            Kind::Refuses => Ok(None),
            kind => Ok(Some(FakeWire::new(self.alloc, server, kind, self.step)?)),
        }
    }

    fn seconds(&mut self) -> u64 {
        self.now
    }

    fn rest(&mut self, _ready: &mut Vec<NodeId>) -> Result<(), AllocError> {
        self.rests = self.rests.saturating_add(1);
        self.now = self.now.saturating_add(1);
        Ok(())
    }
}
