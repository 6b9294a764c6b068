//! Connections over the system's sockets, both ends in this process: Unix and TCP on loopback.

use crate::messages::{data, greeting_of, server_mark};
use connections::{
    Address, Connection, ConnectionFault, Greeting, Heard, Listener, Nonblocking, Room, Side,
    Socket,
};
use mio::{Events, Poll, Token};
use std::alloc::{AllocError, Global};
use std::net::{Ipv4Addr, SocketAddr};
use std::test::Fail;
use std::time::Duration;
use std::{fs, io, process};
use wire::message::{Body, Message};

type Ends = Connection<Nonblocking<Socket>>;

// The numbers of messages, and their lengths.
type Lengths = Vec<(u64, usize)>;

// A path that no other test has.
fn socket_path(rt: &HostRuntime, name: &str) -> Result<String, AllocError> {
    let process = process::id(rt.process());
    format!(in rt.alloc(); "/tmp/connections-{name}-{process}")
}

// Where a listener listens.
fn address_of(listener: &Listener, bound: Address) -> io::Result<Address> {
    match listener {
        Listener::Tcp(listener) => Ok(Address::Tcp(listener.local_addr()?)),
        Listener::Unix(_) => Ok(bound),
    }
}

// A client of a listener to which none came yet.
fn first_client(rt: &HostRuntime, listener: &Listener, bound: Address) -> Result<Socket, Fail> {
    if listener.accept()?.is_some() {
        return Err(Fail::from("a client before one connected"));
    }
    Ok(Socket::connect(rt, &address_of(listener, bound)?)?)
}

// Waits until a client came to what is registered under 7.
fn wait(alloc: Global, poll: &mut Poll) -> Result<(), Fail> {
    let mut events = Events::with_capacity(alloc, 8)?;
    poll.poll(&mut events, Some(Duration::from_secs(10)))?;
    let came = events
        .iter()
        .all(|event| event.token() == Token(7) && event.is_readable());
    if !came {
        return Err(Fail::from("another event"));
    }
    Ok(())
}

// A client and a server that are connected.
fn sockets(rt: &HostRuntime, bound: Address) -> Result<(Socket, Socket), Fail> {
    let mut poll = Poll::new(rt)?;
    let mut listener = Listener::bind(rt, &bound)?;
    listener.register(poll.registry(), Token(7))?;
    let client = first_client(rt, &listener, bound)?;
    wait(rt.alloc(), &mut poll)?;
    match listener.accept()? {
        Some(server) => Ok((client, server)),
        None => Err(Fail::from("no client")),
    }
}

// An end of a connection over a socket.
fn end(alloc: Global, stream: Socket, side: Side, own: &Greeting) -> Result<Ends, AllocError> {
    Connection::begin(alloc, Nonblocking { stream }, side, own)
}

// What one end gave: numbers and lengths of messages whose bytes are right.
fn take(ends: &mut Ends, room: &mut Room, taken: &mut Lengths) -> Result<(), Fail> {
    for _ in 0..100 {
        match ends.hear(room) {
            Ok(Heard::Message(message)) => taken.push(length_of(&message)?)?,
            Ok(Heard::Bytes) => {}
            Ok(Heard::Nothing) => return Ok(()),
            Err(_) => return Err(Fail::from("a fault")),
        }
    }
    Ok(())
}

// The number of a message of the tests' own, and how many bytes it has.
fn length_of(message: &Message) -> Result<(u64, usize), Fail> {
    match &message.body {
        Body::Data(bytes) => {
            let byte = (message.number % 251) as u8;
            if bytes.as_slice().iter().all(|other| *other == byte) {
                return Ok((message.number, bytes.as_slice().len()));
            }
            Err(Fail::from("other bytes"))
        }
        _ => Err(Fail::from("another message")),
    }
}

// Messages whose frames and the greeting have so many bytes.
fn queue_bytes(alloc: Global, ends: &mut Ends, total: usize) -> Result<Lengths, Fail> {
    let mut frame = Vec::new(alloc);
    let mut queued = Vec::new(alloc);
    for number in 1..=100 {
        let room = total.saturating_sub(ends.waiting());
        if room < 21 {
            break;
        }
        let length = (room - 21).min(32_768);
        ends.queue(&data(alloc, number, length)?, &mut frame)?;
        queued.push((number, length))?;
    }
    Ok(queued)
}

// A client and a server that are connected.
#[derive(Drop)]
struct Pair {
    client: Ends,
    server: Ends,
}

impl Pair {
    fn begin(rt: &HostRuntime, bound: Address) -> Result<Pair, Fail> {
        let own = greeting_of(rt.alloc(), Some(server_mark(3)))?;
        let (client, server) = sockets(rt, bound)?;
        let client = end(rt.alloc(), client, Side::Client, &own)?;
        let server = end(rt.alloc(), server, Side::Server, &own)?;
        Ok(Pair { client, server })
    }

    // Sends at both ends, and takes at both what came.
    fn step(&mut self, room: &mut Room, came: &mut Came) -> Result<(), Fail> {
        if self.client.send().is_err() || self.server.send().is_err() {
            return Err(Fail::from("a fault of sending"));
        }
        take(&mut self.server, room, &mut came.at_server)?;
        take(&mut self.client, room, &mut came.at_client)
    }

    // What comes, until these came.
    fn exchange(&mut self, alloc: Global, asked: usize, answered: usize) -> Result<Came, Fail> {
        let mut room = Room::new(alloc)?;
        let mut came = Came {
            at_server: Vec::new(alloc),
            at_client: Vec::new(alloc),
        };
        for _ in 0..10_000 {
            self.step(&mut room, &mut came)?;
            if came.at_server.len() == asked && came.at_client.len() == answered {
                break;
            }
        }
        Ok(came)
    }
}

// What came at both ends.
#[derive(Drop)]
struct Came {
    at_server: Lengths,
    at_client: Lengths,
}

// Whether all goes both ways over two sockets, where so many bytes wait at each end first.
fn goes_both_ways(rt: &HostRuntime, bound: Address, total: usize) -> Result<bool, Fail> {
    let mut pair = Pair::begin(rt, bound)?;
    let asked = queue_bytes(rt.alloc(), &mut pair.client, total)?;
    let answered = queue_bytes(rt.alloc(), &mut pair.server, total)?;
    let came = pair.exchange(rt.alloc(), asked.len(), answered.len())?;
    Ok(
        came.at_server.as_slice() == asked.as_slice()
            && came.at_client.as_slice() == answered.as_slice(),
    )
}

// The address of this machine at which any port is free.
fn any_port() -> Address {
    Address::Tcp(SocketAddr::from((Ipv4Addr::LOCALHOST, 0)))
}

// A Unix socket's address.
fn unix_at(rt: &HostRuntime, path: &str) -> Result<Address, AllocError> {
    Ok(Address::Unix(String::from_str(rt.alloc(), path)?))
}

// The same over a Unix socket, which is removed then.
fn goes_over_unix(rt: &HostRuntime, path: &str, total: usize) -> Result<bool, Fail> {
    let goes = goes_both_ways(rt, unix_at(rt, path)?, total)?;
    fs::remove_file(rt, path)?;
    Ok(goes)
}

#[test]
fn sizes_around_the_limit(rt: HostRuntime) -> Result<(), Fail> {
    let path = socket_path(&rt, "sizes")?;
    for total in [
        64, 84, 85, 86, 131_071, 131_072, 131_073, 131_156, 262_144, 1_000_000,
    ] {
        assert!(rt; goes_both_ways(&rt, any_port(), total)?, "{total}");
        assert!(rt; goes_over_unix(&rt, path.as_str(), total)?, "{total}");
    }
    Ok(())
}

// What a client hears of a server that is gone.
fn hears_the_end(rt: &HostRuntime, bound: Address) -> Result<bool, Fail> {
    let own = greeting_of(rt.alloc(), None)?;
    let mut room = Room::new(rt.alloc())?;
    let (client, server) = sockets(rt, bound)?;
    let mut client = end(rt.alloc(), client, Side::Client, &own)?;
    let before = client.hear(&mut room);
    drop(server);
    let after = client.hear(&mut room);
    Ok(matches!(before, Ok(Heard::Nothing)) && matches!(after, Err(ConnectionFault::Ended)))
}

#[test]
fn a_server_that_is_gone(rt: HostRuntime) -> Result<(), Fail> {
    assert!(rt; hears_the_end(&rt, any_port())?);
    let path = socket_path(&rt, "gone")?;
    let is_heard = hears_the_end(&rt, unix_at(&rt, path.as_str())?)?;
    fs::remove_file(&rt, path.as_str())?;
    assert!(rt; is_heard);
    Ok(())
}

#[test]
fn nobody_listens(rt: HostRuntime) -> Result<(), Fail> {
    let path = socket_path(&rt, "nobody")?;
    assert!(rt; Socket::connect(&rt, &Address::Unix(path)).is_err());
    Ok(())
}
