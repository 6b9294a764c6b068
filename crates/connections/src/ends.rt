//! One end of a connection.

ghost use Rattle.std.specs.Prelude.{◌<◌, IfOk, OnErr, length};
ghost use Rattle.connections.specs.Wires.{Arrives, Leaves, WireCalls, known_calls};

use std::io::{self, ErrorKind, Read, Write};
use std::marker::Model;

/// What a reading came to.
#[derive(Clone, Copy, PartialEq, Eq)]
pub enum Arrival {
    /// So many bytes came, at least one.
    Bytes(usize),
    /// None is there yet.
    NotYet,
    /// The other end sends nothing any more.
    End,
}

/// One end of a connection, by relations of its own: which bytes came and which were sent, from the
/// state before a call to the state after it. No call waits.
pub trait Wire {
    /// What each call does.
    ghost calls: { WireCalls Self };

    /// Reads what is there, as far as there is room.
    fn receive(&mut self, room: &mut [u8]) -> io::Result<Arrival>
        requires room { 0 < length room.old }
        ensures ok { IfOk result
            (λ arrival. Arrives calls self.old room.new arrival self.new) }
        ensures err { OnErr result (calls.failed self.old self.new) };

    /// Sends a beginning of these bytes, and gives how many. None where none can be sent yet.
    fn send(&mut self, bytes: &[u8]) -> io::Result<Option<usize>>
        requires some { 0 < length bytes.now }
        ensures ok { IfOk result (λ count. Leaves calls self.old bytes.now count self.new) }
        ensures err { OnErr result (calls.failed self.old self.new) };
}

/// A stream of which reads and writes answer `WouldBlock` where they would wait.
#[derive(Drop)]
pub struct Nonblocking<S> {
    pub stream: S,
}

impl<S: Read + Write> Wire for Nonblocking<S> {
    ghost calls = { known_calls S.contents S.remaining };

    fn receive(&mut self, room: &mut [u8]) -> io::Result<Arrival> {
        match self.stream.read(room) {
            Ok(0) => Ok(Arrival::End),
            Ok(count) => Ok(Arrival::Bytes(count)),
            Err(error) if error.kind() == ErrorKind::WouldBlock => Ok(Arrival::NotYet),
            Err(error) => Err(error),
        }
    }

    fn send(&mut self, bytes: &[u8]) -> io::Result<Option<usize>> {
        match self.stream.write(bytes) {
            Ok(0) => Err(io::Error::from(ErrorKind::WriteZero)),
            Ok(count) => Ok(Some(count)),
            Err(error) if error.kind() == ErrorKind::WouldBlock => Ok(None),
            Err(error) => Err(error),
        }
    }
}
