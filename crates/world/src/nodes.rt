//! The nodes of a world, as the servers of its operations.

ghost use Rattle.std.specs.Prelude.{◌≡◌, ◌≤◌, IfOk, decimal, map, nat_eq};
ghost use Rattle.std.specs.List.{IsDistinct, range_with_len};
ghost use Rattle.sha1.specs.Sha1.{sha1};
ghost use Rattle.world.specs.State.{server_of};

use placement::ServerId;
use sha1::Sha1;
use std::alloc::{AllocError, Global};
use tagged_hash::DecimalText;
use upload_core::status::ServerInfo;
use wire::message::NodeId;

/// So many nodes, from number 0 on.
pub(crate) fn nodes_up_to(alloc: Global, count: usize) -> Result<Vec<NodeId>, AllocError>
    requires { count ≤ 256 }
    ensures nodes { IfOk result (λ nodes. nodes.items ≡ range_with_len 0 count) }
    ensures distinct { IfOk result (λ nodes. IsDistinct nat_eq nodes.items) }
{
    let mut nodes = Vec::with_capacity(alloc, count)?;
    for node in 0..count {
        nodes.push(node as NodeId)?;
    }
    Ok(nodes)
}

/// The servers of these nodes: a node's id is the SHA-1 of its number in decimal.
pub(crate) fn servers_at(alloc: Global, nodes: &[NodeId]) -> Result<Vec<ServerInfo>, AllocError>
    ensures { IfOk result (λ servers. servers.items ≡ map server_of nodes.now) }
{
    nodes.iter().map(|node| server_of(*node)).collect(alloc)
}

fn server_of(node: NodeId) -> ServerInfo
    ensures { result ≡ server_of node }
{
    ServerInfo {
        node,
        id: id_of(node),
    }
}

fn id_of(node: NodeId) -> ServerId
    ensures { result.0 ≡ sha1 (decimal node) }
{
    let text = DecimalText::new(u64::from(node));
    ServerId(Sha1::digest(text.as_bytes()))
}
