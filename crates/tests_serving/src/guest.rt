//! A client of the tests' own, and a server for it.

use connections::{
    Address, Connection, Greeting, Heard, Nonblocking, Room, Side, Socket, greeting,
};
use grid_serving::{News, Serving};
use server_core::server::Server;
use share_store::memory::MemoryStore;
use std::alloc::{AllocError, Global};
use std::io::Write;
use std::test::Fail;
use std::time::Duration;
use std::{fs, io, process};
use wire::message::{Body, Message, ReadLength, ShareId, ShareLength, WriteData};

// A share of a file of the tests' own.
pub(crate) fn id(share: u8) -> ShareId {
    ShareId {
        index: [9; 16],
        share,
    }
}

// A client, over a socket.
#[derive(Drop)]
pub(crate) struct Guest {
    alloc: Global,
    connection: Connection<Nonblocking<Socket>>,
    frame: Vec<u8>,
    room: Room,
}

impl Guest {
    // A client of a server that has no mark, over this socket.
    pub(crate) fn over(alloc: Global, stream: Socket) -> Result<Guest, Fail> {
        let wire = Nonblocking { stream };
        Ok(Guest {
            alloc,
            connection: Connection::begin(alloc, wire, Side::Client, &own_greeting(alloc)?)?,
            frame: Vec::new(alloc),
            room: Room::new(alloc)?,
        })
    }

    // Puts a request behind what waits. Its session is 5, and each has a number.
    pub(crate) fn queue(&mut self, number: u64, body: Body) -> Result<(), AllocError> {
        let message = Message {
            session: 5,
            number,
            body,
        };
        self.connection.queue(&message, &mut self.frame)
    }

    // Sends what waits, as far as the server takes it. Whether all went.
    pub(crate) fn send(&mut self) -> Result<bool, Fail> {
        for _ in 0..1000 {
            match self.connection.send() {
                Ok(connections::Sent::Bytes) => {}
                Ok(connections::Sent::Nothing) => return Ok(self.connection.waiting() == 0),
                Err(_) => return Err(Fail::from("a fault of sending")),
            }
        }
        Ok(false)
    }

    // The next answer that is there.
    pub(crate) fn hear(&mut self) -> Result<Option<Message>, Fail> {
        for _ in 0..100 {
            match self.connection.hear(&mut self.room) {
                Ok(Heard::Message(message)) => return Ok(Some(message)),
                Ok(Heard::Bytes) => {}
                Ok(Heard::Nothing) => return Ok(None),
                Err(_) => return Err(Fail::from("the connection ended")),
            }
        }
        Ok(None)
    }

    // Whether the server has ended the connection.
    pub(crate) fn is_ended(&mut self) -> bool {
        for _ in 0..1000 {
            match self.connection.hear(&mut self.room) {
                Ok(Heard::Nothing) => return false,
                Ok(_) => {}
                Err(_) => return true,
            }
        }
        false
    }
}

pub(crate) fn allocate(share: u8, length: u64) -> Result<Body, Fail> {
    match ShareLength::new(length) {
        Some(length) => Ok(Body::Allocate(id(share), length)),
        None => Err(Fail::from("no length")),
    }
}

pub(crate) fn write(
    alloc: Global,
    share: u8,
    offset: u64,
    byte: u8,
    count: usize,
) -> Result<Body, Fail> {
    match WriteData::from_vec(Vec::from_elem(alloc, byte, count)?) {
        Some(bytes) => Ok(Body::Write(id(share), offset, bytes)),
        None => Err(Fail::from("no bytes")),
    }
}

pub(crate) fn read(share: u8, offset: u64, count: u32) -> Result<Body, Fail> {
    match ReadLength::new(count) {
        Some(count) => Ok(Body::Read(id(share), offset, count)),
        None => Err(Fail::from("no count")),
    }
}

// A server of the tests' own, whose store is in memory, and where it listens.
#[derive(Drop)]
pub(crate) struct House {
    pub(crate) serving: Serving<MemoryStore>,
    path: String,
    pub(crate) own: Greeting,
}

fn own_greeting(alloc: Global) -> Result<Greeting, Fail> {
    match greeting(alloc, None) {
        Ok(own) => Ok(own),
        Err(_) => Err(Fail::from("no greeting")),
    }
}

impl House {
    // A server at a path that no other test has.
    pub(crate) fn open(rt: &HostRuntime, name: &str) -> Result<House, Fail> {
        let alloc = rt.alloc();
        let process = process::id(rt.process());
        let path = format!(in alloc; "..{name}-{process}")?;
        let own = own_greeting(alloc)?;
        let server = Server::start(alloc, MemoryStore::new(alloc), 1_000_000, false);
        let at = Address::Unix(String::from_str(alloc, path.as_str())?);
        Ok(House {
            serving: Serving::start(rt, server, &own, &at)?,
            path,
            own,
        })
    }

    // Removes its socket.
    pub(crate) fn shut(&self, rt: &HostRuntime) -> io::Result<()> {
        fs::remove_file(rt, self.path.as_str())
    }

    // A socket that is connected to it.
    pub(crate) fn socket(&self, rt: &HostRuntime) -> Result<Socket, Fail> {
        let at = Address::Unix(String::from_str(rt.alloc(), self.path.as_str())?);
        Ok(Socket::connect(rt, &at)?)
    }

    // A client that has greeted.
    pub(crate) fn guest(&mut self, rt: &HostRuntime) -> Result<Guest, Fail> {
        let mut guest = Guest::over(rt.alloc(), self.socket(rt)?)?;
        guest.send()?;
        self.turns(rt, 3)?;
        Ok(guest)
    }

    // A socket over which these bytes went.
    pub(crate) fn stranger(&mut self, rt: &HostRuntime, bytes: &[u8]) -> Result<Socket, Fail> {
        let mut socket = self.socket(rt)?;
        if socket.write(bytes)? != bytes.len() {
            return Err(Fail::from("not all bytes went"));
        }
        self.turns(rt, 3)?;
        Ok(socket)
    }

    // So many turns, each of which waits some thousandths of a second at most.
    pub(crate) fn turns(&mut self, rt: &HostRuntime, count: u64) -> Result<(), Fail> {
        for _ in 0..count {
            self.serving.turn(rt, Duration::from_millis(5))?;
        }
        Ok(())
    }

    // How many clients are gone since this was asked last.
    pub(crate) fn count_gone(&mut self) -> usize {
        let mut count = 0usize;
        for _ in 0..10_000 {
            match self.serving.next_news() {
                Some(News::Gone(_)) => count = count.saturating_add(1),
                Some(_) => {}
                None => return count,
            }
        }
        count
    }

    // What the server answers to a request of a client.
    pub(crate) fn answer(
        &mut self,
        rt: &HostRuntime,
        guest: &mut Guest,
        body: Body,
    ) -> Result<Body, Fail> {
        guest.queue(1, body)?;
        guest.send()?;
        for _ in 0..100 {
            self.turns(rt, 1)?;
            if let Some(answer) = guest.hear()? {
                return Ok(answer.body);
            }
        }
        Err(Fail::from("no answer"))
    }

    // Whether a client is answered.
    pub(crate) fn serves(&mut self, rt: &HostRuntime, guest: &mut Guest) -> Result<bool, Fail> {
        let answer = self.answer(rt, guest, Body::Ask(id(0).index))?;
        Ok(matches!(answer, Body::Have(false, _)))
    }

    // Writes and closes a share of so many bytes. Whether each request was answered as it is to be.
    pub(crate) fn keeps(
        &mut self,
        rt: &HostRuntime,
        guest: &mut Guest,
        share: u8,
        count: usize,
    ) -> Result<bool, Fail> {
        if !self.grants(rt, guest, share, count as u64)? {
            return Ok(false);
        }
        let wrote = self.answer(rt, guest, write(rt.alloc(), share, 0, 7, count)?)?;
        Ok(matches!(wrote, Body::Wrote(_)) && self.closes(rt, guest, share)?)
    }

    // Whether a client may write a share.
    pub(crate) fn grants(
        &mut self,
        rt: &HostRuntime,
        guest: &mut Guest,
        share: u8,
        count: u64,
    ) -> Result<bool, Fail> {
        let granted = self.answer(rt, guest, allocate(share, count)?)?;
        Ok(matches!(granted, Body::Granted))
    }

    // Whether another client is writing a share.
    pub(crate) fn is_busy(
        &mut self,
        rt: &HostRuntime,
        guest: &mut Guest,
        share: u8,
    ) -> Result<bool, Fail> {
        let busy = self.answer(rt, guest, allocate(share, 10)?)?;
        Ok(matches!(busy, Body::Busy))
    }

    // Whether a share is closed.
    fn closes(&mut self, rt: &HostRuntime, guest: &mut Guest, share: u8) -> Result<bool, Fail> {
        let closed = self.answer(rt, guest, Body::Close(id(share)))?;
        Ok(matches!(closed, Body::Closed(_)))
    }
}
