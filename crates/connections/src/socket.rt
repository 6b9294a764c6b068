//! Sockets of the system: TCP and Unix.

use crate::address::Address;
use mio::net::{TcpListener, TcpStream, UnixListener, UnixStream};
use mio::{Interest, Registry, Token};
use std::io::{self, ErrorKind, Read, Write};
use std::net::Net;
use std::rt::Files;

/// A socket that is connected, or is being connected. Its reads and writes answer `WouldBlock`
/// where they would wait.
#[derive(Drop)]
pub enum Socket {
    Tcp(TcpStream),
    Unix(UnixStream),
}

impl Socket {
    /// Begins to connect, and does not wait.
    pub fn connect<R: Net>(rt: &R, address: &Address) -> io::Result<Socket> {
        match address {
            Address::Unix(path) => Ok(Socket::Unix(UnixStream::connect(rt, path.as_str())?)),
            Address::Tcp(address) => Socket::over(TcpStream::connect(rt, *address)?),
        }
    }

    // A TCP stream whose bytes go at once: a request waits for its answer.
    fn over(stream: TcpStream) -> io::Result<Socket> {
        stream.set_nodelay(true)?;
        Ok(Socket::Tcp(stream))
    }

    /// Has a poll tell under a token when it is ready. A change is told once: who does not read or
    /// write up to `WouldBlock` has to look at it again without being told.
    pub fn register(&mut self, registry: &Registry, token: Token) -> io::Result<()> {
        let interests = Interest::READABLE | Interest::WRITABLE;
        match self {
            Socket::Tcp(stream) => registry.register(stream, token, interests),
            Socket::Unix(stream) => registry.register(stream, token, interests),
        }
    }
}

impl Read for Socket {
    fn read(&mut self, room: &mut [u8]) -> io::Result<usize> {
        match self {
            Socket::Tcp(stream) => stream.read(room),
            Socket::Unix(stream) => stream.read(room),
        }
    }
}

impl Write for Socket {
    fn write(&mut self, bytes: &[u8]) -> io::Result<usize> {
        match self {
            Socket::Tcp(stream) => stream.write(bytes),
            Socket::Unix(stream) => stream.write(bytes),
        }
    }

    fn flush(&mut self) -> io::Result<()> {
        Ok(())
    }
}

/// A socket at which clients connect.
#[derive(Drop)]
pub enum Listener {
    Tcp(TcpListener),
    Unix(UnixListener),
}

impl Listener {
    /// Listens at an address.
    pub fn bind<R: Net + Files>(rt: &R, address: &Address) -> io::Result<Listener> {
        match address {
            Address::Unix(path) => Ok(Listener::Unix(UnixListener::bind(rt, path.as_str())?)),
            Address::Tcp(address) => Ok(Listener::Tcp(TcpListener::bind(rt, *address)?)),
        }
    }

    /// Has a poll tell under a token when clients connect. A change is told once.
    pub fn register(&mut self, registry: &Registry, token: Token) -> io::Result<()> {
        match self {
            Listener::Tcp(listener) => registry.register(listener, token, Interest::READABLE),
            Listener::Unix(listener) => registry.register(listener, token, Interest::READABLE),
        }
    }

    /// The next client that waits, if one does.
    pub fn accept(&self) -> io::Result<Option<Socket>> {
        match self.accept_one() {
            Ok(socket) => Ok(Some(socket)),
            Err(error) if error.kind() == ErrorKind::WouldBlock => Ok(None),
            Err(error) => Err(error),
        }
    }

    fn accept_one(&self) -> io::Result<Socket> {
        match self {
            Listener::Tcp(listener) => Socket::over(listener.accept()?.0),
            Listener::Unix(listener) => Ok(Socket::Unix(listener.accept()?.0)),
        }
    }
}
