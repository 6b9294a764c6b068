//! A range of a file that is got in spans, one download after another over the same servers, so
//! that memory holds what one span takes.

ghost use Rattle.std.specs.Prelude.{◌≡◌, ◌≤◌, ◌<◌, IfErr, IfOk, IfSome, OnOk, None, Some, nat_eq};
ghost use Rattle.std.specs.List.{IsDistinct};
ghost use Rattle.carried_operations.specs.declared.downloads.CutShort.TheVariants as cuts;
ghost use Rattle.download_core.specs.Moves.{Begins};
ghost use Rattle.grid_servers.specs.Grids.{grid_calls};
ghost use Rattle.grid_telling.specs.declared.outcome.Failure.TheVariants as failures;
ghost use Rattle.grid_gets.specs.Gets.{AcceptsOnly, UnlessWriter};
ghost use Rattle.grid_gets.specs.Spans.{EndsWith, Leads, StaysBlock, Stops, reached_by};

use crate::suspects::Suspects;
use crate::tried::{Tried, end_of};
use crate::watching::Watching;
use cap_text::ReadCap;
use carried_operations::downloads::{Carried, CutShort, carry_download};
use download_core::Download;
use grid_faults::Fault;
use grid_rules::ByteRange;
use grid_rules::becoming::fault_of_download;
use grid_servers::{FIRST_SESSION, FolderGrid, pieces_at_once};
use grid_telling::{Failure, Progress};
use local_grid::Outside;
use std::alloc::Global;
use std::io::{IsTerminal, Write};
use std::marker::Model;
use std::net::Net;
use std::rt::{Clock, Files};
use wire::message::NodeId;

/// How many bytes one download gets at most: what it was answered stays in memory while it runs. A
/// span ends where a multiple of so many bytes of the file does, and so with a segment, where
/// segments have a power of two.
const SPAN: u64 = 64 << 20;

/// The servers of a grid from which spans are got.
#[derive(Drop)]
pub(crate) struct Spans<'a, R>
where
    R: Files + Net + Clock + AllocGlobal + Clone + Drop,
{
    alloc: Global,
    nodes: FolderGrid<R>,
    // those that are asked only where the others do not have enough
    suspects: Suspects<'a, R>,
    // that of the spans before
    extension_block: Option<Vec<u8>>,
    session: u64,
}

impl<'a, R> Model for Spans<'a, R>
where
    R: Files + Net + Clock + AllocGlobal + Clone + Drop,
{
    ghost use Rattle.std.specs.Prelude.{option_map};
    ghost use Rattle.grid_servers.specs.Grids.{FolderGridState};
    ghost use Rattle.grid_gets.specs.Spans.{Spanning};

    ghost Value = { Spanning (FolderGridState R.Stream) };

    ghost view = { λ s. record {
      session = s.session;
      grid = s.nodes;
      block = option_map (λ block. block.items) s.extension_block;
    } };
}

impl<'a, R> Spans<'a, R>
where
    R: Files + Net + Clock + AllocGlobal + Clone + Drop,
{
    /// Before the first span.
    pub(crate) fn new(rt: &'a R, grid: &'a str, nodes: FolderGrid<R>) -> Spans<'a, R>
        ensures { result ≡ record { session = FIRST_SESSION; grid = nodes; block = None } }
    {
        Spans {
            alloc: rt.alloc(),
            nodes,
            suspects: Suspects::new(rt, grid),
            extension_block: None,
            session: FIRST_SESSION,
        }
    }

    /// Before the first span of another file. Servers that were blamed or silent stay suspects.
    pub(crate) fn begin_file(&mut self)
        ensures { self.new ≡ record self.old { block = None } }
    {
        self.extension_block = None;
    }

    /// The servers.
    pub(crate) fn nodes(&self) -> &FolderGrid<R> {
        &self.nodes
    }

    /// Writes a range of a cap's file, span by span, each segment once it is proved. These servers
    /// are asked, which are distinct.
    pub(crate) fn write_range<O, E>(
        &mut self,
        servers: &[NodeId],
        cap: &ReadCap,
        range: &ByteRange,
        out: &mut O,
        progress: &mut Progress<'_, R, E>,
    ) -> Result<(), Failure>
    where
        O: Write,
        E: Write + IsTerminal,
        requires distinct { IsDistinct nat_eq servers.now }
        requires ordered { range.now.from ≤ range.now.to }
        ensures ok { OnOk result (Leads (grid_calls R.Stream.contents R.Stream.remaining) cap.now
            servers.now self.old range.now.from (O.contents out.old) self.new range.now.to
            (O.contents out.new)) }
        ensures err { IfErr result (λ failure. UnlessWriter failure (Stops (grid_calls
            R.Stream.contents R.Stream.remaining) cap.now servers.now self.old range.now.from
            range.now.to (O.contents out.old) (O.contents out.new))) }
    {
        let mut from = range.from;
        'spans: while from < range.to {
            let to = span_end(from, range.to);
            self.write_span(servers, cap, from, to, out, progress)?;
            from = to;
        }
        Ok(())
    }

    // Writes a span: from the servers that are no suspects, and where these do not have enough,
    // from all.
    fn write_span<O, E>(
        &mut self,
        servers: &[NodeId],
        cap: &ReadCap,
        from: u64,
        to: u64,
        out: &mut O,
        progress: &mut Progress<'_, R, E>,
    ) -> Result<(), Failure>
    where
        O: Write,
        E: Write + IsTerminal,
        requires distinct { IsDistinct nat_eq servers.now }
        requires ordered { from ≤ to }
        ensures ok { OnOk result (Leads (grid_calls R.Stream.contents R.Stream.remaining) cap.now
            servers.now self.old from (O.contents out.old) self.new to (O.contents out.new)) }
        ensures err { IfErr result (λ failure. UnlessWriter failure (Stops (grid_calls
            R.Stream.contents R.Stream.remaining) cap.now servers.now self.old from to
            (O.contents out.old) (O.contents out.new))) }
    {
        let trusted = self.suspects.without(servers)?;
        let are_all = trusted.len() == servers.len();
        match self.try_span(trusted.as_slice(), cap, from, to, out, progress)? {
            Tried::Done => Ok(()),
            Tried::TooFew(_) if are_all => Err(Failure::Fault(Fault::NotEnoughShares)),
            Tried::TooFew(at) => self.try_all(servers, cap, at, to, out, progress),
        }
    }

    // Writes the rest of a span, from all of these servers.
    fn try_all<O, E>(
        &mut self,
        servers: &[NodeId],
        cap: &ReadCap,
        from: u64,
        to: u64,
        out: &mut O,
        progress: &mut Progress<'_, R, E>,
    ) -> Result<(), Failure>
    where
        O: Write,
        E: Write + IsTerminal,
        requires distinct { IsDistinct nat_eq servers.now }
        requires ordered { from ≤ to }
        ensures ok { OnOk result (Leads (grid_calls R.Stream.contents R.Stream.remaining) cap.now
            servers.now self.old from (O.contents out.old) self.new to (O.contents out.new)) }
        ensures err { IfErr result (λ failure. UnlessWriter failure (Stops (grid_calls
            R.Stream.contents R.Stream.remaining) cap.now servers.now self.old from to
            (O.contents out.old) (O.contents out.new))) }
    {
        match self.try_span(servers, cap, from, to, out, progress)? {
            Tried::Done => Ok(()),
            Tried::TooFew(_) => Err(Failure::Fault(Fault::NotEnoughShares)),
        }
    }

    // Carries the download of a span to its end, in a session of its own.
    fn try_span<O, E>(
        &mut self,
        servers: &[NodeId],
        cap: &ReadCap,
        from: u64,
        to: u64,
        out: &mut O,
        progress: &mut Progress<'_, R, E>,
    ) -> Result<Tried, Failure>
    where
        O: Write,
        E: Write + IsTerminal,
        requires distinct { IsDistinct nat_eq servers.now }
        requires ordered { from ≤ to }
        ensures ok { IfOk result (λ tried. Leads (grid_calls R.Stream.contents R.Stream.remaining)
            cap.now servers.now self.old from (O.contents out.old) self.new (reached_by tried to)
            (O.contents out.new)) }
        ensures within { IfOk result (λ tried. reached_by tried to ≤ to) }
        ensures err { IfErr result (λ failure. UnlessWriter failure (Stops (grid_calls
            R.Stream.contents R.Stream.remaining) cap.now servers.now self.old from to
            (O.contents out.old) (O.contents out.new))) }
    {
        let session = self.session;
        self.session = session.saturating_add(1);
        let now = self.nodes.clock();
        let pressing = pieces_at_once(&self.nodes) > 1;
        let download = begin_download(self.alloc, pressing, cap, from, to, servers, session, now)?;
        let mut watch = Watching::new(&mut *progress);
        let carried = carry_download(self.alloc, &mut self.nodes, download, from, out, &mut watch);
        self.conclude(servers, &carried, progress)
    }

    // How a download ended that was carried. Where the writer failed, that is told before all else.
    fn conclude<E>(
        &mut self,
        servers: &[NodeId],
        carried: &Carried,
        progress: &mut Progress<'_, R, E>,
    ) -> Result<Tried, Failure>
    where
        E: Write + IsTerminal,
        ensures ended { IfOk result
            (λ tried. (carried.now.ended ≡ Ok tt) × EndsWith carried.now tried) }
        ensures same { IfOk result (λ _. self.new ≡ record self.old { block = self.new.block }) }
        ensures stays { IfOk result (λ _. StaysBlock self.old.block self.new.block) }
        ensures accepts { IfOk result (λ _. AcceptsOnly self.new.block carried.now.download) }
        ensures writer { carried.now.ended ≡ Err cuts.Writer → result ≡ Err failures.Writer }
    {
        let noted = self.note(servers, &carried.download, progress);
        if let Err(CutShort::Writer) = carried.ended {
            return Err(Failure::Writer);
        }
        noted?;
        end_of(carried)
    }

    // Takes note of what a download found: its extension block is compared with that of those
    // before, and servers that are silent or were blamed are suspects.
    fn note<E>(
        &mut self,
        servers: &[NodeId],
        download: &Download,
        progress: &mut Progress<'_, R, E>,
    ) -> Result<(), Fault>
    where
        E: Write + IsTerminal,
        ensures same { OnOk result (self.new ≡ record self.old { block = self.new.block }) }
        ensures stays { OnOk result (StaysBlock self.old.block self.new.block) }
        ensures accepts { OnOk result (AcceptsOnly self.new.block download.now) }
    {
        self.compare(download.extension_block())?;
        self.suspects
            .note(&self.nodes, servers, download.blamed(), progress)
    }

    // Compares the extension block of a download with that of those before. Both have the hash that
    // the cap tells.
    fn compare(&mut self, block: Option<&[u8]>) -> Result<(), Fault>
        ensures same { OnOk result (self.new ≡ record self.old { block = self.new.block }) }
        ensures stays { OnOk result (StaysBlock self.old.block self.new.block) }
        ensures some { OnOk result (IfSome block.entry (λ b. self.new.block ≡ Some b.now)) }
    {
        let Some(block) = block else {
            return Ok(());
        };
        match &self.extension_block {
            Some(first) => same_block(first.as_slice(), block),
            None => {
                self.extension_block = Some(Vec::from_slice(self.alloc, block)?);
                Ok(())
            }
        }
    }
}

// Refuses an extension block that is not the first one.
fn same_block(first: &[u8], block: &[u8]) -> Result<(), Fault>
    ensures { OnOk result (first.now ≡ block.now) }
{
    if first == block {
        Ok(())
    } else {
        Err(Fault::Inconsistent)
    }
}

// Where the span ends that begins at an offset before the range's end.
fn span_end(from: u64, to: u64) -> u64
    requires { from < to }
    ensures goes_on { from < result }
    ensures within { result ≤ to }
{
    let next = (from / SPAN).saturating_add(1).saturating_mul(SPAN);
    to.min(next)
}

// The download of a span, from these servers, which are distinct. Where a server is elsewhere it is
// pressing: it does not wait for shares whose servers are late.
fn begin_download(
    alloc: Global,
    pressing: bool,
    cap: &ReadCap,
    from: u64,
    to: u64,
    servers: &[NodeId],
    session: u64,
    now: u64,
) -> Result<Download, Fault>
    requires { IsDistinct nat_eq servers.now }
    ensures { IfOk result (Begins cap.now from to servers.now session now) }
{
    if pressing {
        return Download::start_pressing(alloc, *cap, from, to, servers, session, now).map_err(
            fault_of_download,
        );
    }
    Download::start(alloc, *cap, from, to, servers, session, now).map_err(fault_of_download)
}
