//! Links to the servers of this process.

ghost use Rattle.std.specs.Prelude.{◌≡◌, length, IfOk, Ok};

use grid_faults::{Fault, is_memory};
use local_grid::link::MemoryLink;
use local_grid::{GridLink, SocketLink, SocketPair, connect, listen};
use std::io;
use std::net::Net;

/// A link to a server, in memory or over sockets.
pub(crate) type ServerLink<R> = GridLink<SocketPair<<R as Net>::Stream>>;

/// So many links.
pub(crate) fn open_links<R>(
    rt: &R,
    count: usize,
    over_sockets: bool,
) -> Result<Vec<ServerLink<R>>, Fault>
where
    R: Net + AllocGlobal,
    ensures { IfOk result (λ links. length links.items ≡ count) }
{
    let mut links = Vec::with_capacity(rt.alloc(), count)?;
    for _ in 0..count {
        let link = if over_sockets {
            GridLink::Sockets(open_sockets(rt)?)
        } else {
            GridLink::Memory(MemoryLink::new(rt.alloc()))
        };
        links.push(link)?;
    }
    Ok(links)
}

// A link over sockets, with a listener of its own, which is closed once its client is in. Where no
// connection is made the link carries nothing.
fn open_sockets<R>(rt: &R) -> Result<SocketLink<SocketPair<R::Stream>>, Fault>
where
    R: Net + AllocGlobal,
{
    let listener = of_sockets(listen(rt))?;
    Ok(SocketLink::new(rt.alloc(), connect(rt, &listener).ok()))
}

/// The result of a call on the system's sockets.
pub(crate) fn of_sockets<T>(outcome: io::Result<T>) -> Result<T, Fault>
    ensures { IfOk result (λ value. outcome ≡ Ok value) }
{
    match outcome {
        Ok(value) => Ok(value),
        Err(error) if is_memory(&error) => Err(Fault::OutOfMemory),
        Err(error) => Err(Fault::Socket(error)),
    }
}
