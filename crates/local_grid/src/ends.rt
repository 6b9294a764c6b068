//! Both ends of a connection.

ghost use Rattle.std.specs.Prelude.{OnErr, OnOk};
ghost use Rattle.local_grid.specs.Ends.{EndsCalls, pair_calls};

use crate::link::Way;
use std::io::{self, Read, Write};
use std::marker::Model;

/// Both ends of a connection, by relations of their own: what a call does, from the state before it
/// to the state after it.
pub trait Ends {
    /// What each call does.
    ghost calls: { EndsCalls Self };

    /// Writes a piece at the end where a way begins.
    fn send(&mut self, way: Way, piece: &[u8]) -> io::Result<()>
        ensures ok { OnOk result (calls.sent self.old way piece.now self.new) }
        ensures err { OnErr result (calls.failed self.old way self.new) };

    /// Fills the room with what comes at the other end of the way.
    fn receive(&mut self, way: Way, room: &mut [u8]) -> io::Result<()>
        ensures ok { OnOk result (calls.came self.old way room.new self.new) }
        ensures err { OnErr result (calls.failed self.old way self.new) };
}

/// The client's end and the server's.
#[derive(Drop)]
pub struct SocketPair<S> {
    pub client: S,
    pub server: S,
}

impl<S: Read + Write> Ends for SocketPair<S> {
    ghost calls = { pair_calls S.contents S.remaining };

    fn send(&mut self, way: Way, piece: &[u8]) -> io::Result<()> {
        match way {
            Way::ToServer => self.client.write_all(piece),
            Way::ToClient => self.server.write_all(piece),
        }
    }

    fn receive(&mut self, way: Way, room: &mut [u8]) -> io::Result<()> {
        match way {
            Way::ToServer => self.server.read_exact(room),
            Way::ToClient => self.client.read_exact(room),
        }
    }
}
