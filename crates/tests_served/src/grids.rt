//! Grids of servers elsewhere.

use crate::fake::{FakeNetwork, FakeWire, Kind};
use crate::server::{greeting_of, server};
use connections::Wire;
use local_grid::grid::LocalGrid;
use local_grid::link::MemoryLink;
use local_grid::node::Node;
use served_grid::{Network, RemoteServer, ServedGrid};
use share_store::memory::MemoryStore;
use std::alloc::{AllocError, Global};
use wire::message::NodeId;

pub(crate) type Grid<W, N> = ServedGrid<MemoryStore, MemoryLink, W, N>;

/// So many servers elsewhere, each greeted with its own mark, and one in this process behind them.
pub(crate) fn grid_over<W: Wire + Drop, N: Network<W> + Drop>(
    alloc: Global,
    count: NodeId,
    network: N,
) -> Result<Grid<W, N>, AllocError> {
    let mut remotes = Vec::new(alloc);
    let mut nodes = Vec::new(alloc);
    for number in 0..count {
        remotes.push(Some(RemoteServer::new(&greeting_of(alloc, number)?)))?;
        nodes.push(None)?;
    }
    nodes.push(Some(Node::new(server(alloc)?, MemoryLink::new(alloc))))?;
    ServedGrid::new(alloc, LocalGrid::new(alloc, nodes), remotes, network)
}

/// Servers of these kinds elsewhere.
pub(crate) fn fake_grid(
    alloc: Global,
    kinds: &[Kind],
    step: usize,
) -> Result<Grid<FakeWire, FakeNetwork>, AllocError> {
    let network = FakeNetwork::new(alloc, kinds, step)?;
    let count = NodeId::try_from(kinds.len()).unwrap_or(NodeId::MAX);
    grid_over(alloc, count, network)
}
