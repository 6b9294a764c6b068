//! The servers of a grid, by the names of their folders.

ghost use Rattle.std.specs.Prelude.{◌≡◌, IfOk, map, nat_eq};
ghost use Rattle.std.specs.List.{IsDistinct, range_with_len};
ghost use Rattle.std.specs.String.{string_bytes};
ghost use Rattle.sha1.specs.Sha1.{sha1};
ghost use Rattle.grid_faults.specs.Servers.{made_line, server_name, server_of, server_word};
ghost use Rattle.upload_core.specs.declared.status.ServerInfo.{ServerInfo};

use placement::ServerId;
use sha1::Sha1;
use std::alloc::{AllocError, Global};
use upload_core::status::ServerInfo;
use wire::message::NodeId;

/// The numbers of the first servers.
pub fn first_servers(alloc: Global, count: u16) -> Result<Vec<NodeId>, AllocError>
    ensures numbers { IfOk result (λ numbers. numbers.items ≡ range_with_len 0 count) }
    ensures distinct { IfOk result (λ numbers. IsDistinct nat_eq numbers.items) }
{
    (0..count).collect(alloc)
}

/// The servers of these numbers: the number is the node, and the id is the SHA-1 of the folder's
/// name.
pub fn servers_of(alloc: Global, numbers: &[NodeId]) -> Result<Vec<ServerInfo>, AllocError>
    ensures servers { IfOk result (λ servers. servers.items ≡ map server_of numbers.now) }
    ensures nodes { IfOk result (λ servers. map (λ (s : ServerInfo). s.node) servers.items
        ≡ numbers.now) }
{
    let mut servers = Vec::with_capacity(alloc, numbers.len())?;
    for number in numbers {
        servers.push(server_of(alloc, *number)?)?;
    }
    Ok(servers)
}

fn server_of(alloc: Global, number: NodeId) -> Result<ServerInfo, AllocError>
    ensures { IfOk result (λ server. server ≡ server_of number) }
{
    let name = server_name(alloc, number)?;
    Ok(ServerInfo {
        node: number,
        id: server_id(name.as_str()),
    })
}

/// The name of a server's folder: its number has three digits.
pub fn server_name(alloc: Global, server: NodeId) -> Result<String, AllocError>
    ensures { IfOk result (λ name. string_bytes name ≡ server_name server) }
{
    let (hundreds, tens, ones) = (server / 100, server / 10 % 10, server % 10);
    format!(in alloc; "server-{hundreds}{tens}{ones}")
}

/// The line that tells of a grid that was made, with so many servers.
pub fn made_line(alloc: Global, grid: &str, servers: usize) -> Result<String, AllocError>
    ensures { IfOk result (λ line. string_bytes line ≡ made_line grid.now servers) }
{
    let word = server_word(servers);
    format!(in alloc; "made {grid} with {servers} {word}\n")
}

fn server_word(servers: usize) -> &'static str
    ensures { result.now ≡ server_word servers }
{
    if servers == 1 { "server" } else { "servers" }
}

fn server_id(name: &str) -> ServerId
    ensures { result.0 ≡ sha1 name.now }
{
    let mut hasher = Sha1::new();
    hasher.update(name.as_bytes());
    ServerId(hasher.finalize())
}
