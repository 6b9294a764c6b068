//! Readers that bring few bytes at a time, or fail.

use sources::{FileSource, PartFault, Source, SourceFault, read_part};
use std::io;
use std::io::{Cursor, ErrorKind, Read, Seek, SeekFrom};

const TEXT: &[u8] = b"eleven byte";

// A reader over the text that reads so many bytes at once at most, and whose reads or seeks of
// these numbers fail, the first being number 1.
#[derive(Drop)]
struct OddReader {
    at_once: usize,
    failing_read: u64,
    failing_seek: u64,
    offset: u64,
    reads: u64,
    seeks: u64,
}

impl Read for OddReader {
    fn read(&mut self, buf: &mut [u8]) -> io::Result<usize> {
        self.reads = self.reads.saturating_add(1);
        if self.reads == self.failing_read {
            return Err(io::Error::from(ErrorKind::TimedOut));
        }
        let start = TEXT.len().min(self.offset as usize);
        let count = (TEXT.len() - start).min(buf.len()).min(self.at_once);
        buf[..count].copy_from_slice(&TEXT[start..start + count]);
        self.offset = (start + count) as u64;
        Ok(count)
    }
}

impl Seek for OddReader {
    fn seek(&mut self, to: SeekFrom) -> io::Result<u64> {
        self.seeks = self.seeks.saturating_add(1);
        match to {
            SeekFrom::Start(offset) if self.seeks != self.failing_seek => {
                self.offset = offset;
                Ok(offset)
            }
            _ => Err(io::Error::from(ErrorKind::NotSeekable)),
        }
    }
}

fn odd_source(at_once: usize, failing_read: u64, failing_seek: u64) -> FileSource<OddReader> {
    let reader = OddReader {
        at_once,
        failing_read,
        failing_seek,
        offset: 0,
        reads: 0,
        seeks: 0,
    };
    FileSource::new(reader, 11)
}

// A part is read once whole, whatever a read brings at once.
#[test]
fn short_reads_fill_a_part(rt: HostRuntime) {
    for at_once in 1..12 {
        let mut source = odd_source(at_once, 0, 0);
        let mut out = [0u8; 11];
        assert!(rt; read_part(&mut source, 0, &mut out) == Ok(()));
        assert!(rt; out.as_slice() == TEXT && source.failures() == 0);
        assert!(rt; read_part(&mut source, 7, &mut out[..4]) == Ok(()) && out.starts_with(b"byte"));
        assert!(rt; read_part(&mut source, 7, &mut out[..5]) == Err(PartFault::Ended));
    }
}

// Of a part that takes four reads each fails in turn: it is counted, and the next try is right.
#[test]
fn each_read_fails_in_turn(rt: HostRuntime) {
    for failing in 1..5 {
        for is_seek in [false, true] {
            let (read, seek) = if is_seek { (0, failing) } else { (failing, 0) };
            let mut source = odd_source(3, read, seek);
            let mut out = [0u8; 11];
            assert!(rt; read_part(&mut source, 0, &mut out) == Err(PartFault::Unreadable));
            assert_eq!(rt; source.failures(), 1);
            assert!(rt; read_part(&mut source, 0, &mut out) == Ok(()));
            assert!(rt; out.as_slice() == TEXT && source.failures() == 1);
        }
    }
}

// A source is read to the size that it was given, and to no byte behind it.
#[test]
fn no_byte_behind_the_size(rt: HostRuntime) {
    let mut source = FileSource::new(Cursor::new(TEXT), 6);
    let mut out = [b'-'; 11];
    assert_eq!(rt; source.len(), 6);
    assert!(rt; source.read_at(4, &mut out) == Ok(2) && out.starts_with(b"en-"));
    assert!(rt; source.read_at(6, &mut out) == Ok(0) && source.read_at(8, &mut out) == Ok(0));
    assert!(rt; source.read_at(u64::MAX, &mut out) == Ok(0));
    assert!(rt; source.read_at(0, &mut out) == Ok(6) && out.starts_with(b"eleven--"));
    assert_eq!(rt; source.failures(), 0);
}

// A text that ends before its size ends there, at every try.
#[test]
fn a_text_that_is_too_short_ends(rt: HostRuntime) {
    let mut source = FileSource::new(Cursor::new(TEXT), 20);
    let mut out = [0u8; 20];
    assert!(rt; read_part(&mut source, 0, &mut out[..11]) == Ok(()) && out.starts_with(TEXT));
    assert!(rt; read_part(&mut source, 0, &mut out) == Err(PartFault::Ended));
    assert!(rt; source.read_at(15, &mut out) == Ok(0) && source.failures() == 0);
}

// No offset can be moved to where a seek fails for good, and each try is counted.
#[test]
fn failures_are_counted(rt: HostRuntime) {
    let mut source = FileSource::new(NoReader, 11);
    let mut out = [0u8; 4];
    for tries in 1..4 {
        assert!(rt; source.read_at(0, &mut out) == Err(SourceFault::Unreadable));
        assert_eq!(rt; source.failures(), tries);
    }
    assert_eq!(rt; source.len(), 11);
}

// A pipe: it cannot be moved, and a read of it would bring bytes of another offset.
#[derive(Drop)]
struct NoReader;

impl Read for NoReader {
    fn read(&mut self, buf: &mut [u8]) -> io::Result<usize> {
        Ok(buf.len())
    }
}

impl Seek for NoReader {
    fn seek(&mut self, _to: SeekFrom) -> io::Result<u64> {
        Err(io::Error::from(ErrorKind::NotSeekable))
    }
}
