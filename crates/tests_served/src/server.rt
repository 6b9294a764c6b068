//! What a server of the tests' own says.

use connections::{Greeting, greeting};
use grid_marks::{Kind, Mark};
use server_core::error::ServerFault;
use server_core::server::Server;
use share_store::memory::MemoryStore;
use std::alloc::{AllocError, Global};
use wire::message::{Body, Message, ShareId, ShareLength, WriteData};

/// A share that each server has, of as many bytes as one answer can have.
pub(crate) const LONG: ShareId = ShareId {
    index: [0; 16],
    share: 0,
};

/// How many.
const LONG_SIZE: usize = 32_768;

/// The mark of a server of this number.
pub(crate) fn server_mark(number: u16) -> Mark {
    Mark {
        identity: *b"a grid of tests!",
        kind: Kind::Server,
        number,
    }
}

/// Its greeting.
pub(crate) fn greeting_of(alloc: Global, number: u16) -> Result<Greeting, AllocError> {
    match greeting(alloc, Some(server_mark(number))) {
        Ok(greeting) => Ok(greeting),
        Err(_) => Err(AllocError),
    }
}

/// A server in memory, that holds nothing but the long share.
pub(crate) fn server(alloc: Global) -> Result<Server<MemoryStore>, AllocError> {
    let mut server = Server::start(alloc, MemoryStore::new(alloc), 100_000_000, false);
    let bytes = WriteData::from_vec(Vec::from_elem(alloc, 7, LONG_SIZE)?);
    let (Some(length), Some(bytes)) = (ShareLength::new(LONG_SIZE as u64), bytes) else {
        return Err(AllocError);
    };
    ask(&mut server, Body::Allocate(LONG, length))?;
    ask(&mut server, Body::Write(LONG, 0, bytes))?;
    ask(&mut server, Body::Close(LONG))?;
    Ok(server)
}

// Asks a server.
fn ask(server: &mut Server<MemoryStore>, body: Body) -> Result<Option<Message>, AllocError> {
    let message = Message {
        session: 0,
        number: 1,
        body,
    };
    answer(server, &message)
}

/// What it says.
pub(crate) fn answer(
    server: &mut Server<MemoryStore>,
    message: &Message,
) -> Result<Option<Message>, AllocError> {
    match server.on_message(0, message, 0) {
        Ok(said) => Ok(said),
        Err(ServerFault::StoreFault) => Ok(None),
        Err(ServerFault::OutOfMemory) => Err(AllocError),
    }
}
