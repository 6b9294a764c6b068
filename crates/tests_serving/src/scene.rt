//! A server in memory and one client of it, by a clock of the tests' own.

use connections::{Greeting, Wire};
use grid_serving::{Client, Clients, Desk, Why};
use server_core::server::Server;
use share_store::memory::MemoryStore;
use std::alloc::{AllocError, Global};
use std::test::Fail;

/// The greeting of both, which have no mark.
pub(crate) const OWN: Greeting =
    *b"grid-frames 1 no mark\n                                          ";

#[derive(Drop)]
pub(crate) struct Scene<W: Wire> {
    server: Server<MemoryStore>,
    desk: Desk,
    clients: Clients<W>,
}

impl<W: Wire + Drop> Scene<W> {
    /// A client over this wire, that came at this second.
    pub(crate) fn new(alloc: Global, wire: W, now: u64) -> Result<Scene<W>, Fail> {
        let desk = Desk::new(alloc, &OWN)?;
        let client = Client::new(&desk, wire, now)?;
        let mut clients = Clients::new(alloc)?;
        let Some(node) = clients.free_place() else {
            return Err(Fail::from("no place"));
        };
        clients.put(node, client);
        Ok(Scene {
            server: Server::start(alloc, MemoryStore::new(alloc), 1_000_000, false),
            desk,
            clients,
        })
    }

    /// A turn at this second, in which there may be something to do. Why the client is gone, if it
    /// is.
    pub(crate) fn turn(&mut self, now: u64) -> Result<Option<Why>, AllocError> {
        // the first place is its
        self.clients.wake(0);
        self.clients
            .serve_ready(&mut self.server, &mut self.desk, now)?;
        self.clients.end_late(&mut self.server, now);
        match self.clients.next_gone() {
            Some(gone) => Ok(Some(gone.why)),
            None => Ok(None),
        }
    }

    pub(crate) fn into_server(self) -> Server<MemoryStore> {
        self.server
    }
}
