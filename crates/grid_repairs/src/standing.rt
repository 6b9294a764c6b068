//! The servers of a grid that stay open from one check to the next.

ghost use Rattle.std.specs.Prelude.{◌≡◌, IfOk, IfSome, None, is_some, nat_eq};
ghost use Rattle.std.specs.List.{IsDistinct};
ghost use Rattle.grid_servers.specs.Grids.{grid_calls};
ghost use Rattle.grid_repairs.specs.Checks.{AreCheckedTo, AreNew, IsCheckedAt, Stands, WereChecked};

use crate::carrying::{carry, share_bytes};
use cap_text::VerifyCap;
use checker::Check;
use checker::status::Report;
use grid_faults::Fault;
use grid_servers::{
    FIRST_SESSION, FolderGrid, Purpose, asked_servers, is_silent, open_servers, pieces_at_once,
};
use grid_telling::{Counting, Progress, Verb, note_servers};
use local_grid::Outside;
use std::alloc::{AllocError, Global};
use std::io::{IsTerminal, Write};
use std::marker::Model;
use std::net::Net;
use std::random::RandomSource;
use std::rt::{Clock, Files};
use wire::message::NodeId;

/// Where the shares of files are looked at.
#[derive(Clone, Copy)]
pub struct Place<'a> {
    /// The folder of a grid.
    pub grid: &'a str,
    /// Whether its servers are asked over sockets of this machine.
    pub over_sockets: bool,
    /// Whether it has to be one that `init` marked.
    pub is_known: bool,
}

/// Servers of a grid that were opened for reading, over which checks may have been carried since.
#[derive(Drop)]
pub struct OpenGrid<R>
where
    R: Files + Net + Clock + AllocGlobal + Clone + Drop,
{
    servers: Vec<NodeId>,
    nodes: FolderGrid<R>,
    // Those that were not silent as they were opened.
    speaking: Vec<NodeId>,
    // That of the next check.
    session: u64,
}

impl<R> Model for OpenGrid<R>
where
    R: Files + Net + Clock + AllocGlobal + Clone + Drop,
{
    ghost use Rattle.grid_servers.specs.Grids.{FolderGridState};
    ghost use Rattle.grid_repairs.specs.Checks.{Standing};

    ghost Value = { Standing (FolderGridState R.Stream) };

    ghost view = { λ g. record {
      servers = g.servers.items;
      grid = g.nodes;
      session = g.session;
    } };
}

impl<R> OpenGrid<R>
where
    R: Files + Net + Clock + RandomSource + AllocGlobal + Clone + Drop,
{
    // Opens the servers of a grid.
    fn open(rt: &R, place: &Place<'_>) -> Result<OpenGrid<R>, Fault>
        ensures { IfOk result (AreNew place.now.grid.now) }
    {
        let grid = place.grid;
        let servers = asked_servers(rt, grid, place.is_known)?;
        let reading = Purpose::Reading;
        let nodes = open_servers(rt, grid, servers.as_slice(), reading, place.over_sockets)?;
        let speaking = speaking_of(rt.alloc(), servers.as_slice(), &nodes)?;
        Ok(OpenGrid {
            servers,
            nodes,
            speaking,
            session: FIRST_SESSION,
        })
    }

    /// Those that are kept, or else those of this place, just opened. None are kept then.
    pub(crate) fn take(
        rt: &R,
        place: &Place<'_>,
        kept: &mut Option<OpenGrid<R>>,
    ) -> Result<OpenGrid<R>, Fault>
        requires { IfSome kept.old
            (WereChecked (grid_calls R.Stream.contents R.Stream.remaining) place.now.grid.now) }
        ensures stand { IfOk result (Stands (grid_calls R.Stream.contents R.Stream.remaining)
            place.now.grid.now (is_some kept.old)) }
        ensures kept { kept.new ≡ None }
    {
        match kept.take() {
            Some(open) => Ok(open),
            None => OpenGrid::open(rt, place),
        }
    }

    /// The servers.
    pub(crate) fn servers(&self) -> &[NodeId]
        ensures { result.now ≡ self.now.servers }
    {
        self.servers.as_slice()
    }

    /// What a check finds, in a session of its own.
    pub(crate) fn check<E>(
        &mut self,
        alloc: Global,
        cap: VerifyCap,
        verb: Verb,
        progress: &mut Progress<'_, R, E>,
    ) -> Result<Report, Fault>
    where
        E: Write + IsTerminal,
        requires { IsDistinct nat_eq self.old.servers }
        ensures found { IfOk result
            (IsCheckedAt (grid_calls R.Stream.contents R.Stream.remaining) cap self.old) }
        ensures led { IfOk result (λ _.
            AreCheckedTo (grid_calls R.Stream.contents R.Stream.remaining) self.old self.new) }
    {
        progress.begin(verb, Counting::Answered(share_bytes(&cap)), 0);
        let (session, now) = (self.session, self.nodes.clock());
        self.session = session.saturating_add(1);
        let pieces = pieces_at_once(&self.nodes);
        let servers = self.servers.as_slice();
        let check = Check::start_ahead(alloc, cap, servers, session, now, pieces)?;
        let check = carry(alloc, check, servers.len(), &mut self.nodes, progress)?;
        // One without a report found no memory.
        check.report(alloc)?.ok_or(Fault::OutOfMemory)
    }

    /// Tells of each server that is silent.
    pub(crate) fn note<E>(
        &self,
        rt: &R,
        grid: &str,
        progress: &mut Progress<'_, R, E>,
    ) -> Result<(), Fault>
    where
        E: Write + IsTerminal,
    {
        let servers = self.servers.as_slice();
        note_servers(rt, grid, servers, &self.nodes, Purpose::Reading, progress)
    }

    /// These servers for another check, where none fell silent: one that did may answer again once
    /// it is opened anew.
    pub(crate) fn still_speaking(self) -> Option<OpenGrid<R>>
        ensures { IfSome result (λ g. g ≡ self) }
    {
        if self.all_speak() { Some(self) } else { None }
    }

    fn all_speak(&self) -> bool {
        self.speaking
            .iter()
            .all(|server| !is_silent(&self.nodes, *server))
    }
}

// Those of these servers that are not silent.
fn speaking_of<R>(
    alloc: Global,
    servers: &[NodeId],
    nodes: &FolderGrid<R>,
) -> Result<Vec<NodeId>, AllocError>
where
    R: Files + Net + Clock + AllocGlobal + Clone + Drop,
{
    let mut speaking = Vec::new(alloc);
    for server in servers {
        if !is_silent(nodes, *server) {
            speaking.push(*server)?;
        }
    }
    Ok(speaking)
}
