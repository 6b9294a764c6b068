//! Sockets of this machine: each server listens at a port that the system gives, and the client
//! connects to it.

use crate::ends::SocketPair;
use std::io::{self, ErrorKind};
use std::net::{Ipv4Addr, Net, OpenListener, OpenStream, SocketAddr, TcpListener, TcpStream};
use std::time::Duration;

// How many seconds a read or write may wait for the other end, which is in this process too.
const TIMEOUT: u64 = 5;

// How many strangers may knock at a server before the client is let in.
const STRANGERS: usize = 16;

/// Opens a listener of this machine at a port that the system gives.
pub fn listen<R: Net>(rt: &R) -> io::Result<R::Listener> {
    TcpListener::bind(rt, SocketAddr::from((Ipv4Addr::LOCALHOST, 0)))
}

/// Connects a client to a listener, and takes its connection and no other. Each end waits at most 5
/// seconds for the other.
pub fn connect<R: Net>(rt: &R, listener: &R::Listener) -> io::Result<SocketPair<R::Stream>> {
    let client = connect_to(rt, listener)?;
    let server = accept_from(listener, client.local_addr()?)?;
    prepared(SocketPair { client, server })
}

// Connects to a listener.
fn connect_to<R: Net>(rt: &R, listener: &R::Listener) -> io::Result<R::Stream> {
    let address = listener.local_addr()?;
    TcpStream::connect(rt, address)
}

// Both ends, which send without delay and wait so long.
fn prepared<S: OpenStream + Drop>(pair: SocketPair<S>) -> io::Result<SocketPair<S>> {
    prepare(&pair.client)?;
    prepare(&pair.server)?;
    Ok(pair)
}

fn prepare<S: OpenStream>(stream: &S) -> io::Result<()> {
    stream.set_nodelay(true)?;
    let timeout = Some(Duration::from_secs(TIMEOUT));
    stream.set_read_timeout(timeout)?;
    stream.set_write_timeout(timeout)
}

// The connection that comes from this address. Another program may have connected first.
fn accept_from<L: OpenListener>(listener: &L, from: SocketAddr) -> io::Result<L::Stream> {
    for _ in 0..STRANGERS {
        let (stream, peer) = listener.accept()?;
        if peer == from {
            return Ok(stream);
        }
    }
    Err(io::Error::from(ErrorKind::ConnectionRefused))
}
