//! The host's files, of which those in some folders stand in memory too. What changes these stops
//! at a call, and nothing is changed from then on.

use crate::crashed_folders::Folders;
use grid_commands::Locks;
use std::alloc::{Allocator, Global};
use std::cell::{RefCell, RefMut};
use std::fs::{File, Metadata, OpenFile, OpenOptions};
use std::io::{self, BufRead, Lines, Read, Seek, SeekFrom, Write};
use std::net::{Net, SocketAddr, TcpListener, TcpStream};
use std::random::RandomSource;
use std::rt::{Clock, Files};
use std::time::Duration;

// The files, and the folders in memory.
#[derive(Clone, Copy)]
pub(crate) struct StoppingFiles<'a> {
    pub(crate) rt: HostRuntime,
    pub(crate) folders: &'a RefCell<Folders>,
}

// What an open file is in memory.
#[derive(Clone, Copy)]
enum Kind {
    // a file of one of the folders, with its number
    Held(usize),
    // a folder
    Folder,
    // any other file
    Other,
}

// An open file.
#[derive(Drop)]
pub(crate) struct StoppingFile<'a> {
    file: File,
    of: StoppingFiles<'a>,
    path: String,
    kind: Kind,
}

impl<'a> StoppingFiles<'a> {
    fn held(&self) -> io::Result<RefMut<'a, Folders>> {
        match self.folders.try_borrow_mut() {
            Ok(folders) => Ok(folders),
            Err(_) => Err(io::Error::from(io::ErrorKind::Other)),
        }
    }

    // Whether something stands at a path.
    fn stands(&self, path: &str) -> bool {
        self.rt.symlink_metadata(path).is_ok()
    }

    // What the file that was opened at a path is. It is made in memory where nothing stood there,
    // and taken away again where that stops.
    fn kind_of(&self, path: &str, is_fresh: bool) -> io::Result<Kind> {
        if self.rt.metadata(path)?.is_dir() {
            return Ok(Kind::Folder);
        }
        let mut folders = self.held()?;
        if !folders.has(path) {
            return Ok(Kind::Other);
        }
        if is_fresh {
            if let Err(error) = folders.create(self.rt.alloc(), path) {
                self.rt.remove_file(path)?;
                return Err(error);
            }
        }
        Ok(Kind::Held(folders.found(path)?))
    }
}

impl<'a> Alloc for StoppingFiles<'a> {
    type A = Global;

    fn alloc(&self) -> Global {
        self.rt.alloc()
    }
}

impl<'a> Files for StoppingFiles<'a> {
    type File = StoppingFile<'a>;

    type Dir = <HostRuntime as Files>::Dir;

    fn open_file(&self, how: &OpenOptions, path: &str) -> io::Result<StoppingFile<'a>> {
        let is_fresh = !self.stands(path);
        let file = self.rt.open_file(how, path)?;
        let kind = self.kind_of(path, is_fresh)?;
        Ok(StoppingFile {
            file,
            of: *self,
            path: String::from_str(self.rt.alloc(), path)?,
            kind,
        })
    }

    fn open_dir(&self, path: &str) -> io::Result<Self::Dir> {
        self.rt.open_dir(path)
    }

    fn metadata(&self, path: &str) -> io::Result<Metadata> {
        self.rt.metadata(path)
    }

    fn symlink_metadata(&self, path: &str) -> io::Result<Metadata> {
        self.rt.symlink_metadata(path)
    }

    fn copy(&self, from: &str, to: &str) -> io::Result<u64> {
        self.rt.copy(from, to)
    }

    fn rename(&self, from: &str, to: &str) -> io::Result<()> {
        let mut folders = self.held()?;
        folders.rename(self.rt.alloc(), from, to)?;
        self.rt.rename(from, to)
    }

    fn remove_file(&self, path: &str) -> io::Result<()> {
        let mut folders = self.held()?;
        if folders.has(path) {
            folders.remove(self.rt.alloc(), path)?;
        }
        self.rt.remove_file(path)
    }

    fn hard_link(&self, original: &str, link: &str) -> io::Result<()> {
        let mut folders = self.held()?;
        folders.link(self.rt.alloc(), original, link)?;
        self.rt.hard_link(original, link)
    }

    fn create_dir(&self, path: &str) -> io::Result<()> {
        self.held()?.call()?;
        self.rt.create_dir(path)
    }

    fn remove_dir(&self, path: &str) -> io::Result<()> {
        self.held()?.call()?;
        self.rt.remove_dir(path)
    }

    fn remove_dir_all<B: Allocator>(&self, alloc: B, path: &str) -> io::Result<()> {
        self.held()?.call()?;
        self.rt.remove_dir_all(alloc, path)
    }
}

// Sockets, the clock and random bytes are the host's, and nothing comes over standard input.
impl<'a> Net for StoppingFiles<'a> {
    type Stream = TcpStream;

    type Listener = TcpListener;

    fn bind(&self, addr: SocketAddr) -> io::Result<TcpListener> {
        self.rt.bind(addr)
    }

    fn connect(&self, addr: SocketAddr) -> io::Result<TcpStream> {
        Net::connect(&self.rt, addr)
    }
}

const NOTHING: &[u8] = &[];

impl<'a> io::Input for StoppingFiles<'a> {
    type Reader = &'static [u8];

    fn read_line<A: Allocator + Clone>(&self, _buf: &mut String<A>) -> io::Result<usize> {
        Ok(0)
    }

    fn lines<A: Allocator>(&self, alloc: A) -> Lines<&'static [u8], A> {
        NOTHING.lines(alloc)
    }

    fn reader(&self) -> &'static [u8] {
        NOTHING
    }
}

impl<'a> RandomSource for StoppingFiles<'a> {
    fn fill_bytes(&self, buf: &mut [u8]) -> io::Result<()> {
        self.rt.fill_bytes(buf)
    }
}

// Nothing else holds a lock.
impl<'a> Locks for StoppingFiles<'a> {
    type Lock = ();

    fn try_lock(&self, _path: &str) -> io::Result<Option<()>> {
        Ok(Some(()))
    }

    fn try_lock_shared(&self, _path: &str) -> io::Result<Option<()>> {
        Ok(Some(()))
    }
}

impl<'a> Clock for StoppingFiles<'a> {
    fn monotonic(&self) -> io::Result<Duration> {
        self.rt.monotonic()
    }

    fn since_1970(&self) -> io::Result<Duration> {
        self.rt.since_1970()
    }
}

impl<'a> Read for StoppingFile<'a> {
    fn read(&mut self, buf: &mut [u8]) -> io::Result<usize> {
        self.file.read(buf)
    }
}

impl<'a> Write for StoppingFile<'a> {
    fn write(&mut self, buf: &[u8]) -> io::Result<usize> {
        if let Kind::Held(number) = self.kind {
            let mut folders = self.of.held()?;
            folders.append(self.path.as_str(), number, buf)?;
        }
        self.file.write_all(buf)?;
        Ok(buf.len())
    }

    fn flush(&mut self) -> io::Result<()> {
        self.file.flush()
    }
}

impl<'a> Seek for StoppingFile<'a> {
    fn seek(&mut self, to: SeekFrom) -> io::Result<u64> {
        self.file.seek(to)
    }
}

impl<'a> OpenFile for StoppingFile<'a> {
    fn metadata(&self) -> io::Result<Metadata> {
        self.file.metadata()
    }

    fn set_len(&self, size: u64) -> io::Result<()> {
        self.file.set_len(size)
    }

    fn sync_all(&self) -> io::Result<()> {
        let mut folders = self.of.held()?;
        match self.kind {
            Kind::Held(number) => folders.sync_file(self.path.as_str(), number),
            Kind::Folder => folders.sync_names(self.of.rt.alloc(), self.path.as_str()),
            Kind::Other => Ok(()),
        }
    }

    fn sync_data(&self) -> io::Result<()> {
        self.sync_all()
    }
}
