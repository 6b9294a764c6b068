//! Servers elsewhere that are reached over sockets of the system.

use crate::network::Network;
use connections::{Address, Nonblocking, Socket};
use mio::{Events, Poll, Token};
use std::alloc::{AllocError, Global};
use std::io::{self, ErrorKind};
use std::net::Net;
use std::rt::Clock;
use std::time::{Duration, Instant};
use wire::message::NodeId;

/// How many sockets are told to be ready at once at most.
const MOST_EVENTS: usize = 256;

/// The longest rest, in milliseconds.
const REST: u64 = 200;

/// The sockets by which servers elsewhere are reached, and the system's clock. Where no server has
/// an address no call of the system is made, and its seconds stay 0.
#[derive(Drop)]
pub struct Sockets<R: Net + Clock> {
    rt: R,
    addresses: Vec<Option<Address>>,
    // `None` where no server has an address
    watch: Option<Watch>,
}

// What says when sockets are ready, and since when seconds are counted.
#[derive(Drop)]
struct Watch {
    poll: Poll,
    events: Events,
    start: Instant,
}

impl<R: Net + Clock + Drop> Sockets<R> {
    /// The servers at these addresses, by number.
    pub fn new(rt: R, alloc: Global, addresses: Vec<Option<Address>>) -> io::Result<Sockets<R>> {
        let has_one = addresses.iter().any(|address| matches!(address, Some(_)));
        let watch = if has_one {
            Some(begin_watch(&rt, alloc)?)
        } else {
            None
        };
        Ok(Sockets {
            rt,
            addresses,
            watch,
        })
    }

    // Begins to connect to a server that has an address.
    fn socket(&self, server: NodeId) -> io::Result<Socket> {
        let (Some(watch), Some(Some(address))) = (
            &self.watch,
            self.addresses.get(usize::from(server)),
        ) else {
            return Err(io::Error::from(ErrorKind::NotFound));
        };
        let mut socket = Socket::connect(&self.rt, address)?;
        socket.register(watch.poll.registry(), Token(usize::from(server)))?;
        Ok(socket)
    }
}

// Watches no socket yet.
fn begin_watch<R: Net + Clock>(rt: &R, alloc: Global) -> io::Result<Watch> {
    Ok(Watch {
        poll: Poll::new(rt)?,
        events: Events::with_capacity(alloc, MOST_EVENTS)?,
        start: Instant::now(rt)?,
    })
}

impl<R: Net + Clock + Drop> Network<Nonblocking<Socket>> for Sockets<R> {
    fn connect(&mut self, server: NodeId) -> Result<Option<Nonblocking<Socket>>, AllocError> {
        match self.socket(server) {
            Ok(stream) => Ok(Some(Nonblocking { stream })),
            Err(error) if error.kind() == ErrorKind::OutOfMemory => Err(AllocError),
            Err(_) => Ok(None),
        }
    }

    fn seconds(&mut self) -> u64 {
        let Some(watch) = &self.watch else {
            return 0;
        };
        match watch.start.elapsed(&self.rt) {
            Ok(passed) => passed.as_secs(),
            Err(_) => 0,
        }
    }

    fn rest(&mut self, ready: &mut Vec<NodeId>) -> Result<(), AllocError> {
        let Some(watch) = &mut self.watch else {
            return Ok(());
        };
        let pause = Duration::from_millis(REST);
        if watch.poll.poll(&mut watch.events, Some(pause)).is_err() {
            return Ok(());
        }
        for event in &watch.events {
            if let Ok(server) = NodeId::try_from(event.token().0) {
                ready.push(server)?;
            }
        }
        Ok(())
    }
}
