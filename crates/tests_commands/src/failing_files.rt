//! The host's file system, in which one call on a file or folder fails, or at which a share
//! changes.

use grid_commands::Locks;
use std::alloc::{Allocator, Global};
use std::cell::Cell;
use std::fs::{File, Metadata, OpenFile, OpenOptions};
use std::io::{BufRead, Lines, Read, Seek, SeekFrom, Write};
use std::net::{Net, SocketAddr, TcpListener, TcpStream};
use std::random::RandomSource;
use std::rt::{Clock, Files};
use std::time::Duration;
use std::{fs, io};
use test_folders::path;

// The most bytes that one call reads or writes: a file of 56 bytes is read by two calls and its end
// by a third.
const PIECE: usize = 40;

// A share of the file of 56 bytes, which changes: that of the second server.
pub(crate) const CHANGED: &str = "/grid/server-001/btqtqeoqjcl3aeqkqmueqgjgiy.5.\
    njkq4jjqev77ljm5cuvyvrnhygaiu7cgysv2wku4hyudmdpgkirq";

// Where the first byte of its block stands.
const BLOCK: usize = 36;

// How many calls go well before the one that fails, and which calls failed in mid-stream.
#[derive(Drop)]
pub(crate) struct Calls {
    pub left: Cell<u64>,
    pub has_cut_read: Cell<bool>,
    pub has_cut_write: Cell<bool>,
    // Where a share changes at that call, in place of a failure.
    changing: Option<HostRuntime>,
}

impl Calls {
    pub fn new() -> Calls {
        Calls {
            left: Cell::new(0),
            has_cut_read: Cell::new(false),
            has_cut_write: Cell::new(false),
            changing: None,
        }
    }

    // No call fails, but a share changes before it.
    pub fn changing(rt: HostRuntime) -> Calls {
        Calls {
            left: Cell::new(0),
            has_cut_read: Cell::new(false),
            has_cut_write: Cell::new(false),
            changing: Some(rt),
        }
    }

    // Counts a call, which fails where none is left. The calls after it go well again.
    fn count(&self) -> io::Result<()> {
        let left = self.left.get();
        self.left.set(left.wrapping_sub(1));
        if left != 0 {
            return Ok(());
        }
        match self.changing {
            None => Err(io::Error::from(io::ErrorKind::BrokenPipe)),
            Some(rt) => change_block(&rt),
        }
    }

    // The same of a call in a stream, which is noted where it fails in the middle.
    fn count_in(&self, is_middle: bool, has_cut: &Cell<bool>) -> io::Result<()> {
        let outcome = self.count();
        if is_middle && outcome.is_err() {
            has_cut.set(true);
        }
        outcome
    }
}

// Changes a byte of the block of that share.
fn change_block(rt: &HostRuntime) -> io::Result<()> {
    let share = path(rt, CHANGED)?;
    let mut bytes = fs::read(rt, share.as_str())?;
    if let Some(byte) = bytes.get_mut(BLOCK) {
        *byte ^= 1;
    }
    fs::write(rt, share.as_str(), bytes.as_slice())
}

// The host's file system, with a call that fails.
#[derive(Clone, Copy)]
pub(crate) struct FailingFiles<'a> {
    pub rt: HostRuntime,
    pub calls: &'a Calls,
}

// A file of it, and whether bytes were read from it or written to it.
#[derive(Drop)]
pub(crate) struct FailingFile<'a> {
    file: File,
    calls: &'a Calls,
    is_begun: bool,
}

// The names in a folder of it.
#[derive(Drop)]
pub(crate) struct FailingNames<'a> {
    names: <HostRuntime as Files>::Dir,
    calls: &'a Calls,
}

impl<'a> Alloc for FailingFiles<'a> {
    type A = Global;

    fn alloc(&self) -> Global {
        self.rt.alloc()
    }
}

impl<'a> Files for FailingFiles<'a> {
    type File = FailingFile<'a>;

    type Dir = FailingNames<'a>;

    fn open_file(&self, how: &OpenOptions, path: &str) -> io::Result<FailingFile<'a>> {
        self.calls.count()?;
        let file = self.rt.open_file(how, path)?;
        Ok(FailingFile {
            file,
            calls: self.calls,
            is_begun: false,
        })
    }

    fn open_dir(&self, path: &str) -> io::Result<FailingNames<'a>> {
        self.calls.count()?;
        let names = self.rt.open_dir(path)?;
        Ok(FailingNames {
            names,
            calls: self.calls,
        })
    }

    fn metadata(&self, path: &str) -> io::Result<Metadata> {
        self.calls.count()?;
        self.rt.metadata(path)
    }

    fn symlink_metadata(&self, path: &str) -> io::Result<Metadata> {
        self.calls.count()?;
        self.rt.symlink_metadata(path)
    }

    fn copy(&self, from: &str, to: &str) -> io::Result<u64> {
        self.calls.count()?;
        self.rt.copy(from, to)
    }

    fn rename(&self, from: &str, to: &str) -> io::Result<()> {
        self.calls.count()?;
        self.rt.rename(from, to)
    }

    fn remove_file(&self, path: &str) -> io::Result<()> {
        self.calls.count()?;
        self.rt.remove_file(path)
    }

    fn create_dir(&self, path: &str) -> io::Result<()> {
        self.calls.count()?;
        self.rt.create_dir(path)
    }

    fn remove_dir(&self, path: &str) -> io::Result<()> {
        self.calls.count()?;
        self.rt.remove_dir(path)
    }

    fn remove_dir_all<B: Allocator>(&self, alloc: B, path: &str) -> io::Result<()> {
        self.calls.count()?;
        self.rt.remove_dir_all(alloc, path)
    }
}

// Sockets and the clock are the host's; random bytes are too, and may fail.
impl<'a> Net for FailingFiles<'a> {
    type Stream = TcpStream;

    type Listener = TcpListener;

    fn bind(&self, addr: SocketAddr) -> io::Result<TcpListener> {
        self.rt.bind(addr)
    }

    fn connect(&self, addr: SocketAddr) -> io::Result<TcpStream> {
        Net::connect(&self.rt, addr)
    }
}

// What comes over standard input.
const NOTHING: &[u8] = &[];

impl<'a> io::Input for FailingFiles<'a> {
    type Reader = &'static [u8];

    fn read_line<A: Allocator + Clone>(&self, _buf: &mut String<A>) -> io::Result<usize> {
        Ok(0)
    }

    fn lines<A: Allocator>(&self, alloc: A) -> Lines<&'static [u8], A> {
        NOTHING.lines(alloc)
    }

    fn reader(&self) -> &'static [u8] {
        NOTHING
    }
}

impl<'a> RandomSource for FailingFiles<'a> {
    fn fill_bytes(&self, buf: &mut [u8]) -> io::Result<()> {
        self.calls.count()?;
        self.rt.fill_bytes(buf)
    }
}

// Nothing else holds a lock. One that is taken together with others may fail.
impl<'a> Locks for FailingFiles<'a> {
    type Lock = ();

    fn try_lock(&self, _path: &str) -> io::Result<Option<()>> {
        Ok(Some(()))
    }

    fn try_lock_shared(&self, _path: &str) -> io::Result<Option<()>> {
        self.calls.count()?;
        Ok(Some(()))
    }
}

impl<'a> Clock for FailingFiles<'a> {
    fn monotonic(&self) -> io::Result<Duration> {
        self.rt.monotonic()
    }

    fn since_1970(&self) -> io::Result<Duration> {
        self.rt.since_1970()
    }
}

impl<'a> Read for FailingFile<'a> {
    fn read(&mut self, buf: &mut [u8]) -> io::Result<usize> {
        self.calls
            .count_in(self.is_begun, &self.calls.has_cut_read)?;
        self.is_begun = true;
        let len = buf.len().min(PIECE);
        self.file.read(&mut buf[..len])
    }
}

impl<'a> Write for FailingFile<'a> {
    fn write(&mut self, buf: &[u8]) -> io::Result<usize> {
        self.calls
            .count_in(self.is_begun, &self.calls.has_cut_write)?;
        self.is_begun = true;
        let len = buf.len().min(PIECE);
        self.file.write(&buf[..len])
    }

    fn flush(&mut self) -> io::Result<()> {
        self.calls.count()?;
        self.file.flush()
    }
}

impl<'a> Seek for FailingFile<'a> {
    fn seek(&mut self, to: SeekFrom) -> io::Result<u64> {
        self.calls.count()?;
        self.file.seek(to)
    }
}

impl<'a> OpenFile for FailingFile<'a> {
    fn metadata(&self) -> io::Result<Metadata> {
        self.calls.count()?;
        self.file.metadata()
    }

    fn set_len(&self, size: u64) -> io::Result<()> {
        self.calls.count()?;
        self.file.set_len(size)
    }

    fn sync_all(&self) -> io::Result<()> {
        self.calls.count()?;
        self.file.sync_all()
    }

    fn sync_data(&self) -> io::Result<()> {
        self.calls.count()?;
        self.file.sync_data()
    }
}

impl<'a> Read for FailingNames<'a> {
    fn read(&mut self, buf: &mut [u8]) -> io::Result<usize> {
        self.calls.count()?;
        self.names.read(buf)
    }
}
