//! What servers keep to which the loop of a process carries an upload.

use crate::upload_rounds_tests::{begun_ten, encoded, happy_pairs};
use cap_text::VerifyCap;
use carried_operations::keeping::carry_to_keeping;
use file_encoding::Encoded;
use local_grid::grid::LocalGrid;
use local_grid::link::MemoryLink;
use local_grid::node::Node;
use local_grid::watched::Watch;
use server_core::server::Server;
use share_store::memory::MemoryStore;
use share_store::store::Store;
use std::alloc::Global;
use tagged_hash::share_digest;
use upload_core::Upload;
use upload_core::pieces::WholeShares;
use wire::message::{Message, NodeId, ShareId};

// Nobody looks on.
#[derive(Drop)]
pub(crate) struct Nobody;

impl Watch for Nobody {
    fn asked(&mut self, _server: NodeId, _message: &Message) {}

    fn heard(&mut self, _server: NodeId, _message: &Message) {}
}

// Ten servers in memory, with links in memory.
pub(crate) fn ten_nodes(alloc: Global) -> Option<LocalGrid<MemoryStore, MemoryLink>> {
    let mut nodes = Vec::with_capacity(alloc, 10).ok()?;
    for _ in 0..10 {
        let server = Server::start(alloc, MemoryStore::new(alloc), 1_000_000, false);
        let node = Node::new(server, MemoryLink::new(alloc));
        nodes.push(Some(node)).ok()?;
    }
    Some(LocalGrid::new(alloc, nodes))
}

// Does a server hold the share of a number closed, as these bytes?
fn holds(
    nodes: &LocalGrid<MemoryStore, MemoryLink>,
    cap: &VerifyCap,
    (server, number): (NodeId, u16),
    bytes: &[u8],
) -> Option<bool> {
    let share = ShareId {
        index: *cap.storage_index(),
        share: u8::try_from(number).ok()?,
    };
    let node = nodes.nodes().get(usize::from(server))?.as_ref()?;
    Some(node.server().store().closed(&share) == Some(share_digest(bytes)))
}

// Do servers hold these shares of the file?
fn all_hold(
    nodes: &LocalGrid<MemoryStore, MemoryLink>,
    cap: &VerifyCap,
    encoded: &Encoded,
    pairs: &[(NodeId, u16)],
) -> Option<bool> {
    for pair in pairs {
        let bytes = encoded.shares.get(usize::from(pair.1))?.as_slice();
        if !holds(nodes, cap, *pair, bytes)? {
            return Some(false);
        }
    }
    Some(true)
}

// Do ten servers hold ten shares of the file as the upload says?
pub(crate) fn ten_hold(
    alloc: Global,
    nodes: &LocalGrid<MemoryStore, MemoryLink>,
    cap: &VerifyCap,
    upload: &Upload<WholeShares>,
) -> Option<bool> {
    let pairs = happy_pairs(upload)?;
    let encoded = encoded(alloc)?;
    Some(all_hold(nodes, cap, &encoded, pairs)? && pairs.len() == 10)
}

// The shares that the loop carries to ten servers are closed there afterwards, each at its own.
fn ten_keep(alloc: Global) -> Option<bool> {
    let mut nodes = ten_nodes(alloc)?;
    let (cap, upload) = begun_ten(alloc)?;
    match carry_to_keeping(&mut nodes, upload, 10_000, Nobody) {
        Ok(upload) => ten_hold(alloc, &nodes, &cap, &upload),
        Err(_) => None,
    }
}

#[test]
fn servers_keep_what_the_loop_carries(rt: HostRuntime) {
    assert!(rt; ten_keep(rt.alloc()) == Some(true));
}
