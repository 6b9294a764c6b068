//! A file of the system as a source.

ghost use Rattle.std.specs.Prelude.{◌≡◌, ◌<◌, ◌≤◌, length, take, IfOk, OnOk};
ghost use Rattle.sources.specs.Opened.{GivesOpened, WasRead};

use crate::error::SourceFault;
use crate::source::Source;
use std::io;
use std::io::{Read, Seek, SeekFrom};
use std::marker::Model;

/// An open file, and the size that it had when it was opened. Of the bytes of a file of the system
/// nothing is known: two reads of one offset may bring what they like. It is read to that size and
/// no further: where it was cut, reads end early, and what was added since is not read. A seek or a
/// read that fails is counted, an interrupted one too.
#[derive(Drop)]
pub struct FileSource<F: Read + Seek + Drop> {
    file: F,
    size: u64,
    failures: u64,
}

impl<F: Read + Seek + Drop> Model for FileSource<F> {
    ghost use Rattle.sources.specs.Opened.{Opened};

    ghost Value = { Opened F };

    ghost view = { λ s. record { file = s.file; size = s.size; failures = s.failures } };
}

impl<F: Read + Seek + Drop> FileSource<F> {
    /// Takes an open file over, of this size.
    pub fn new(file: F, size: u64) -> FileSource<F>
        ensures { result ≡ record { file = file; size = size; failures = 0 } }
    {
        FileSource {
            file,
            size,
            failures: 0,
        }
    }
}

impl<F: Read + Seek + Drop> Source for FileSource<F> {
    ghost size = { λ s. s.size };

    ghost failures = { λ s. s.failures };

    ghost gives = { λ s offset bytes after.
        GivesOpened F.stream_position F.stream_bytes F.remaining s offset bytes after };

    fn len(&self) -> u64 {
        self.size
    }

    fn read_at(&mut self, offset: u64, out: &mut [u8]) -> Result<usize, SourceFault> {
        if self.size <= offset {
            return Ok(0);
        }
        let room = out.len().min((self.size - offset) as usize);
        match read_from(&mut self.file, offset, &mut out[..room]) {
            Ok(count) => Ok(count),
            Err(_) => {
                self.failures = self.failures.saturating_add(1);
                Err(SourceFault::Unreadable)
            }
        }
    }

    fn failures(&self) -> u64 {
        self.failures
    }
}

// Some bytes of an open file from an offset on.
fn read_from<F: Read + Seek>(file: &mut F, offset: u64, out: &mut [u8]) -> io::Result<usize>
    ensures few { IfOk result (λ count. count ≤ length out.old) }
    ensures read { 0 < length out.old → IfOk result (λ count. WasRead F.stream_position
        F.stream_bytes F.remaining file.old offset (take count out.new) file.new) }
{
    file.seek(SeekFrom::Start(offset))?;
    file.read(out)
}
