//! Downloads that are carried to their end, and whose bytes are written as soon as they are proved.

ghost use Rattle.std.specs.Prelude.{◌≡◌, ◌⊎◌, [], false, true, Ok, Err, IfErr, OnOk};
ghost use Rattle.std.specs.Io.KnownBytes.{Keeps};
ghost use Rattle.download_core.specs.Calls.{is_running};
ghost use Rattle.download_core.specs.State.{handed, ready};
ghost use Rattle.local_grid.specs.declared.error.LoopError.{LoopError};
ghost use Rattle.carried_operations.specs.Written.{HasBegun, IsWritten, TurnsAndWrites};
ghost use Rattle.carried_operations.specs.Written.{UnlessWriter, Writes, capped};
ghost use Rattle.carried_operations.specs.declared.downloads.CutShort.TheVariants as cuts;

use download_core::{Download, taken_follow};
use local_grid::error::LoopError;
use local_grid::watched::{Watch, Watched};
use local_grid::{Outside, carry_on};
use request_record::operation::Operation;
use std::alloc::Global;
use std::io::{self, Write};

/// The most turns of the loop for one download.
const MOST_TURNS: u64 = 100_000_000;

/// What looks on while a download is carried and written.
pub trait WriteWatch: Watch {
    /// So many bytes were written.
    fn wrote(&mut self, bytes: u64);
}

impl<W: WriteWatch> WriteWatch for &mut W {
    fn wrote(&mut self, bytes: u64) {
        (**self).wrote(bytes);
    }
}

/// Why a download was not carried as far as it goes.
#[derive(Clone, Copy, Drop)]
pub enum CutShort {
    Loop(LoopError),
    /// Its bytes could not be written.
    Writer,
}

/// What became of a download that was carried.
#[derive(Drop)]
pub struct Carried {
    pub download: Download,
    /// The offset up to which its bytes were written.
    pub offset: u64,
    pub ended: Result<(), CutShort>,
}

impl Carried {
    // Is it still to be carried?
    fn goes_on(&self) -> bool
        ensures runs { result ≡ true → (self.now.ended ≡ Ok tt)
            × (is_running self.now.download.status ≡ true) }
        ensures ends { result ≡ false → self.now.ended ≡ Ok tt
            → is_running self.now.download.status ≡ false }
    {
        self.ended.is_ok() && self.download.is_running()
    }
}

/// Carries a download that has just begun, as far as it goes. What a turn makes ready is written at
/// once, so that memory never holds the file twice, as answers and as bytes.
pub fn carry_download<G, O, W>(
    alloc: Global,
    outside: &mut G,
    download: Download,
    from: u64,
    out: &mut O,
    watch: &mut W,
) -> Carried
where
    G: Outside,
    O: Write,
    W: WriteWatch + Drop,
    requires begun { HasBegun download }
    requires from_is { from ≡ download.from }
    ensures written { IsWritten G.calls download outside.old (O.contents out.old) result
        outside.new (O.contents out.new) }
    ensures ends { result.ended ≡ Ok tt → is_running result.download.status ≡ false }
{
    // No effect at run time. The proof reads from it that the download is right.
    let _ = download.status();
    let mut carried = Carried {
        download,
        offset: from,
        ended: Ok(()),
    };
    'turns: for _ in 0..MOST_TURNS {
        if !carried.goes_on() {
            return carried;
        }
        carried = turn(alloc, outside, carried.download, carried.offset, out, watch);
    }
    within_limit(carried)
}

// The end of a download that took so many turns: one that still runs took too many.
fn within_limit(carried: Carried) -> Carried
    ensures same { (result ≡ carried) ⊎ ((carried.ended ≡ Ok tt) × (result ≡ record {
      download = carried.download;
      offset = carried.offset;
      ended = Err (cuts.Loop LoopError.TurnLimit);
    })) }
    ensures ends { result.ended ≡ Ok tt → is_running result.download.status ≡ false }
{
    if carried.goes_on() {
        return Carried {
            download: carried.download,
            offset: carried.offset,
            ended: Err(CutShort::Loop(LoopError::TurnLimit)),
        };
    }
    carried
}

// One turn of a download that runs. What it makes ready is written.
fn turn<G, O, W>(
    alloc: Global,
    outside: &mut G,
    download: Download,
    offset: u64,
    out: &mut O,
    watch: &mut W,
) -> Carried
where
    G: Outside,
    O: Write,
    W: WriteWatch + Drop,
    requires runs { is_running download.status ≡ true }
    requires none { ready download ≡ [] }
    requires offset_is { offset ≡ capped (handed download) }
    ensures ok { OnOk result.ended (TurnsAndWrites G.calls
        (record { operation = download; outside = outside.old }) (O.contents out.old)
        (record { operation = result.download; outside = outside.new }) (O.contents out.new)) }
    ensures offset { OnOk result.ended (result.offset ≡ capped (handed result.download)) }
    ensures unwritten { IfErr result.ended (λ cut. UnlessWriter cut
        (Keeps (O.contents out.old) (O.contents out.new))) }
{
    let mut watched = Watched::new(download, &mut *watch);
    let turned = carry_on(alloc, outside, &mut watched, 1);
    let download = watched.into_operation();
    match turned {
        Ok(()) => write_ready(download, offset, out, watch),
        // It runs still, after this one turn.
        Err(LoopError::TurnLimit) => write_ready(download, offset, out, watch),
        Err(error) => Carried {
            download,
            offset,
            ended: Err(CutShort::Loop(error)),
        },
    }
}

// Writes what is ready.
fn write_ready<O, W>(download: Download, offset: u64, out: &mut O, watch: &mut W) -> Carried
where
    O: Write,
    W: WriteWatch + Drop,
    requires { offset ≡ capped (handed download) }
    ensures ok { OnOk result.ended (Writes download (O.contents out.old) result.download
        (O.contents out.new)) }
    ensures offset { OnOk result.ended (result.offset ≡ capped (handed result.download)) }
    ensures unwritten { IfErr result.ended (λ cut. UnlessWriter cut
        (Keeps (O.contents out.old) (O.contents out.new))) }
{
    let (mut download, mut reached) = (download, offset);
    let ended = match write_pieces(&mut download, &mut reached, out) {
        Ok(()) => Ok(()),
        Err(_) => Err(CutShort::Writer),
    };
    watch.wrote(reached.saturating_sub(offset));
    Carried {
        download,
        offset: reached,
        ended,
    }
}

// Writes all pieces that are ready, in their order, up to one at which the writer fails. The offset
// is that up to which they were written.
fn write_pieces<O: Write>(download: &mut Download, offset: &mut u64, out: &mut O) -> io::Result<()>
    requires { offset.old ≡ capped (handed download.old) }
    ensures ok { OnOk result (Writes download.old (O.contents out.old) download.new
        (O.contents out.new)) }
    ensures offset { OnOk result (offset.new ≡ capped (handed download.new)) }
{
    taken_follow();
    // No effect at run time. The proof reads from it that what is ready is right.
    let _ = download.status();
    'pieces: while let Some(piece) = download.take_bytes() {
        let _ = download.status();
        let bytes = piece.bytes.as_slice();
        out.write_all(bytes)?;
        *offset = piece.offset.saturating_add(bytes.len() as u64);
    }
    Ok(())
}
