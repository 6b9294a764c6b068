//! The servers that are asked only where the others do not have enough.

ghost use Rattle.std.specs.Prelude.{All, Contains, IfOk, nat_eq};
ghost use Rattle.std.specs.List.{IsDistinct};

use download_core::status::Blame;
use grid_faults::Fault;
use grid_servers::{FolderGrid, is_silent, servers_without};
use grid_telling::{Progress, note_blame};
use std::alloc::AllocError;
use std::io::{IsTerminal, Write};
use std::net::Net;
use std::rt::{Clock, Files};
use wire::message::NodeId;

/// The servers of a grid that were blamed, or silent.
#[derive(Drop)]
pub(crate) struct Suspects<'a, R> {
    rt: &'a R,
    grid: &'a str,
    servers: Vec<NodeId>,
}

impl<'a, R> Suspects<'a, R>
where
    R: Files + Net + Clock + AllocGlobal + Clone + Drop,
{
    /// None yet.
    pub(crate) fn new(rt: &'a R, grid: &'a str) -> Suspects<'a, R> {
        Suspects {
            rt,
            grid,
            servers: Vec::new(rt.alloc()),
        }
    }

    /// These servers without the suspects, in their order.
    pub(crate) fn without(&self, servers: &[NodeId]) -> Result<Vec<NodeId>, AllocError>
        requires { IsDistinct nat_eq servers.now }
        ensures distinct { IfOk result (λ left. IsDistinct nat_eq left.items) }
        ensures some { IfOk result (λ left. All (Contains servers.now) left.items) }
    {
        servers_without(self.rt.alloc(), servers, self.servers.as_slice())
    }

    /// Takes note of those of these servers that were blamed, or are silent now.
    pub(crate) fn note<E>(
        &mut self,
        nodes: &FolderGrid<R>,
        servers: &[NodeId],
        blamed: &[Blame],
        progress: &mut Progress<'_, R, E>,
    ) -> Result<(), Fault>
    where
        E: Write + IsTerminal,
    {
        for blame in blamed {
            if !self.servers.contains(&blame.server) {
                self.servers.push(blame.server)?;
                note_blame(self.rt, self.grid, blame.server, blame.share, progress)?;
            }
        }
        for server in servers {
            if is_silent(nodes, *server) && !self.servers.contains(server) {
                self.servers.push(*server)?;
            }
        }
        Ok(())
    }
}
