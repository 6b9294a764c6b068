//! Servers at sockets of the system, by the loop of a server, which have a turn at each rest of the
//! client, since this repository starts no thread.

use crate::grids::{Grid, grid_over};
use crate::server::{greeting_of, server};
use connections::{Address, Listener, Nonblocking, Socket};
use grid_serving::Serving;
use served_grid::{Network, Sockets};
use share_store::memory::MemoryStore;
use std::alloc::AllocError;
use std::io;
use std::test::Fail;
use std::time::Duration;
use wire::message::NodeId;

pub(crate) type Over = Nonblocking<Socket>;

/// The sockets of a client, and the servers at their other ends.
#[derive(Drop)]
pub(crate) struct Both {
    rt: HostRuntime,
    sockets: Sockets<HostRuntime>,
    servers: Vec<Serving<MemoryStore>>,
}

impl Network<Over> for Both {
    fn connect(&mut self, server: NodeId) -> Result<Option<Over>, AllocError> {
        self.sockets.connect(server)
    }

    fn seconds(&mut self) -> u64 {
        self.sockets.seconds()
    }

    fn rest(&mut self, ready: &mut Vec<NodeId>) -> Result<(), AllocError> {
        for serving in self.servers.iter_mut() {
            if serving.turn(&self.rt, Duration::ZERO).is_err() {
                return Err(AllocError);
            }
        }
        self.sockets.rest(ready)
    }
}

// Where a listener listens.
fn address_of(listener: &Listener, bound: Address) -> io::Result<Address> {
    match listener {
        Listener::Tcp(listener) => Ok(Address::Tcp(listener.local_addr()?)),
        Listener::Unix(_) => Ok(bound),
    }
}

// Starts the server of the next number at an address, and keeps where it is reached.
fn start_next(
    rt: &HostRuntime,
    bound: Address,
    servers: &mut Vec<Serving<MemoryStore>>,
    reached: &mut Vec<Option<Address>>,
) -> Result<(), Fail> {
    let number = NodeId::try_from(servers.len()).unwrap_or(NodeId::MAX);
    let own = greeting_of(rt.alloc(), number)?;
    let serving = Serving::start(rt, server(rt.alloc())?, &own, &bound)?;
    reached.push(Some(address_of(serving.listener(), bound)?))?;
    servers.push(serving)?;
    Ok(())
}

/// A grid of servers that listen at these addresses, by number.
pub(crate) fn grid_at(rt: HostRuntime, addresses: Vec<Address>) -> Result<Grid<Over, Both>, Fail> {
    let alloc = rt.alloc();
    let count = NodeId::try_from(addresses.len()).unwrap_or(NodeId::MAX);
    let mut servers = Vec::new(alloc);
    let mut reached = Vec::new(alloc);
    for bound in addresses {
        start_next(&rt, bound, &mut servers, &mut reached)?;
    }
    let both = Both {
        rt,
        sockets: Sockets::new(rt, alloc, reached)?,
        servers,
    };
    Ok(grid_over(alloc, count, both)?)
}
