//! The servers of a grid that stay open from one file to the next.

ghost use Rattle.std.specs.Prelude.{◌≡◌, ◌≤◌, IfErr, IfOk, IfSome, None, OnOk, is_some, nat_eq};
ghost use Rattle.std.specs.List.{IsDistinct};
ghost use Rattle.grid_servers.specs.Grids.{grid_calls};
ghost use Rattle.grid_gets.specs.Gets.{AreNew, AreReadTo, IsBegun, IsGot, Stands, UnlessWriter};
ghost use Rattle.grid_gets.specs.Gets.{WereRead};

use crate::sending::send;
use crate::spans::Spans;
use cap_text::ReadCap;
use grid_faults::Fault;
use grid_marks::is_grid;
use grid_rules::ByteRange;
use grid_servers::{Purpose, open_servers, standing_servers};
use grid_telling::{Counting, Failure, Progress, Verb, note_servers};
use std::io::{IsTerminal, Write};
use std::marker::Model;
use std::net::Net;
use std::random::RandomSource;
use std::rt::{Clock, Files};
use wire::message::NodeId;

/// Where files are got.
#[derive(Clone, Copy)]
pub struct Place<'a> {
    /// The folder of a grid.
    pub grid: &'a str,
    /// Whether its servers are asked over sockets of this machine.
    pub over_sockets: bool,
}

/// Servers of a grid that were opened for reading, from which files may have been got since.
#[derive(Drop)]
pub struct OpenGrid<'a, R>
where
    R: Files + Net + Clock + AllocGlobal + Clone + Drop,
{
    servers: Vec<NodeId>,
    spans: Spans<'a, R>,
}

impl<'a, R> Model for OpenGrid<'a, R>
where
    R: Files + Net + Clock + AllocGlobal + Clone + Drop,
{
    ghost use Rattle.grid_servers.specs.Grids.{FolderGridState};
    ghost use Rattle.grid_gets.specs.Gets.{Standing};

    ghost Value = { Standing (FolderGridState R.Stream) };

    ghost view = { λ g. record {
      servers = g.servers.items;
      grid = g.spans.grid;
      session = g.spans.session;
    } };
}

impl<'a, R> OpenGrid<'a, R>
where
    R: Files + Net + Clock + RandomSource + AllocGlobal + Clone + Drop,
{
    // Opens the servers that stand in a grid.
    fn open(rt: &'a R, place: &Place<'a>) -> Result<OpenGrid<'a, R>, Fault>
        ensures { IfOk result (AreNew place.now.grid.now) }
    {
        let grid = place.grid;
        is_grid(rt, grid)?;
        let servers = standing_servers(rt, grid)?;
        let reading = Purpose::Reading;
        let nodes = open_servers(rt, grid, servers.as_slice(), reading, place.over_sockets)?;
        Ok(OpenGrid {
            servers,
            spans: Spans::new(rt, grid, nodes),
        })
    }

    /// Those that are kept, or else those of this place, just opened. None are kept then.
    pub(crate) fn take(
        rt: &'a R,
        place: &Place<'a>,
        kept: &mut Option<OpenGrid<'a, R>>,
    ) -> Result<OpenGrid<'a, R>, Fault>
        requires { IfSome kept.old
            (WereRead (grid_calls R.Stream.contents R.Stream.remaining) place.now.grid.now) }
        ensures stand { IfOk result (Stands (grid_calls R.Stream.contents R.Stream.remaining)
            place.now.grid.now (is_some kept.old)) }
        ensures kept { kept.new ≡ None }
    {
        match kept.take() {
            Some(open) => Ok(open),
            None => OpenGrid::open(rt, place),
        }
    }

    /// Writes a range of a cap's file, each segment once it is proved.
    pub(crate) fn write_range<O, E>(
        &mut self,
        cap: &ReadCap,
        range: &ByteRange,
        out: &mut O,
        progress: &mut Progress<'_, R, E>,
    ) -> Result<(), Failure>
    where
        O: Write,
        E: Write + IsTerminal,
        requires distinct { IsDistinct nat_eq self.old.servers }
        requires ordered { range.now.from ≤ range.now.to }
        ensures ok { OnOk result (IsGot (grid_calls R.Stream.contents R.Stream.remaining) cap.now
            range.now self.old (O.contents out.old) (O.contents out.new)) }
        ensures read { OnOk result
            (AreReadTo (grid_calls R.Stream.contents R.Stream.remaining) self.old self.new) }
        ensures err { IfErr result (λ failure. UnlessWriter failure (IsBegun
            (grid_calls R.Stream.contents R.Stream.remaining) cap.now range.now self.old
            (O.contents out.old) (O.contents out.new))) }
    {
        let bytes = range.to.saturating_sub(range.from);
        progress.begin(Verb::Get, Counting::Added, bytes);
        self.spans.begin_file();
        self.spans
            .write_range(self.servers.as_slice(), cap, range, out, progress)?;
        send(out, &[])
    }

    /// Tells of each server that is silent.
    pub(crate) fn note<E>(
        &self,
        rt: &R,
        place: &Place<'_>,
        progress: &mut Progress<'_, R, E>,
    ) -> Result<(), Fault>
    where
        E: Write + IsTerminal,
    {
        let (servers, nodes) = (self.servers.as_slice(), self.spans.nodes());
        note_servers(rt, place.grid, servers, nodes, Purpose::Reading, progress)
    }
}
