//! A host whose sockets and clock are the tests' own; its files are the system's.

use grid_commands::Locks;
use std::alloc::{Allocator, Global};
use std::cell::Cell;
use std::fs::{File, Metadata, OpenOptions};
use std::io;
use std::io::{BufRead, Lines, Read, Write};
use std::net::{
    Ipv4Addr, Net, OpenListener, OpenStream, Shutdown, SocketAddr, TcpListener, TcpStream,
};
use std::os::fd::{AsRawFd, RawFd};
use std::random::RandomSource;
use std::rt::{Clock, Files};
use std::time::Duration;

// What is odd about the sockets of the fourth server.
#[derive(Clone, Copy, PartialEq, Eq)]
pub(crate) enum Odd {
    Nothing,
    // No listener can be made.
    NoListener,
    // Nobody can connect.
    NoConnection,
    // Somebody else connects first.
    Stranger,
    // Each call on the server's end fails once so many went well.
    Closes(u64),
    // The server's end is shut both ways once so many calls on it went well.
    Ends(u64),
    // The server's end sends bytes that are no frame.
    Garbage,
    // It sends frames of the greatest length that there is.
    TooLong,
    // It sends half of each frame.
    Half,
    // It sends each frame with a byte more, as if another began.
    More,
}

// What the tests' own host does, and what it did.
#[derive(Drop)]
pub(crate) struct Plan {
    pub odd: Odd,
    // How many listeners were made.
    pub listeners: Cell<u64>,
    // How many calls on the odd end were made.
    pub calls: Cell<u64>,
    // The clock, in milliseconds, and how far each look at it moves it.
    pub clock: Cell<u64>,
    pub step: u64,
    // By how many seconds the time of day is ahead of the system's.
    pub ahead: u64,
}

impl Plan {
    pub(crate) fn new(odd: Odd) -> Plan {
        Plan {
            odd,
            listeners: Cell::new(0),
            calls: Cell::new(0),
            clock: Cell::new(0),
            step: 0,
            ahead: 0,
        }
    }
}

#[derive(Clone, Copy)]
pub(crate) struct OddHost<'a> {
    pub rt: HostRuntime,
    pub plan: &'a Plan,
}

impl<'a> Alloc for OddHost<'a> {
    type A = Global;

    fn alloc(&self) -> Global {
        self.rt.alloc()
    }
}

impl<'a> Files for OddHost<'a> {
    type File = File;

    type Dir = <HostRuntime as Files>::Dir;

    fn open_file(&self, how: &OpenOptions, path: &str) -> io::Result<File> {
        self.rt.open_file(how, path)
    }

    fn open_dir(&self, path: &str) -> io::Result<<HostRuntime as Files>::Dir> {
        self.rt.open_dir(path)
    }

    fn metadata(&self, path: &str) -> io::Result<Metadata> {
        self.rt.metadata(path)
    }

    fn symlink_metadata(&self, path: &str) -> io::Result<Metadata> {
        self.rt.symlink_metadata(path)
    }

    fn copy(&self, from: &str, to: &str) -> io::Result<u64> {
        self.rt.copy(from, to)
    }

    fn rename(&self, from: &str, to: &str) -> io::Result<()> {
        self.rt.rename(from, to)
    }

    fn remove_file(&self, path: &str) -> io::Result<()> {
        self.rt.remove_file(path)
    }

    fn create_dir(&self, path: &str) -> io::Result<()> {
        self.rt.create_dir(path)
    }

    fn remove_dir(&self, path: &str) -> io::Result<()> {
        self.rt.remove_dir(path)
    }

    fn remove_dir_all<B: Allocator>(&self, alloc: B, path: &str) -> io::Result<()> {
        self.rt.remove_dir_all(alloc, path)
    }
}

// What comes over standard input.
const NOTHING: &[u8] = &[];

impl<'a> io::Input for OddHost<'a> {
    type Reader = &'static [u8];

    fn read_line<A: Allocator + Clone>(&self, _buf: &mut String<A>) -> io::Result<usize> {
        Ok(0)
    }

    fn lines<A: Allocator>(&self, alloc: A) -> Lines<&'static [u8], A> {
        NOTHING.lines(alloc)
    }

    fn reader(&self) -> &'static [u8] {
        NOTHING
    }
}

impl<'a> RandomSource for OddHost<'a> {
    fn fill_bytes(&self, buf: &mut [u8]) -> io::Result<()> {
        self.rt.fill_bytes(buf)
    }
}

// Nothing else holds a lock.
impl<'a> Locks for OddHost<'a> {
    type Lock = ();

    fn try_lock(&self, _path: &str) -> io::Result<Option<()>> {
        Ok(Some(()))
    }

    fn try_lock_shared(&self, _path: &str) -> io::Result<Option<()>> {
        Ok(Some(()))
    }
}

impl<'a> Clock for OddHost<'a> {
    fn monotonic(&self) -> io::Result<Duration> {
        let now = self.plan.clock.get().saturating_add(self.plan.step);
        self.plan.clock.set(now);
        Ok(Duration::from_millis(now))
    }

    fn since_1970(&self) -> io::Result<Duration> {
        let since = self.rt.since_1970()?;
        Ok(since.saturating_add(Duration::from_secs(self.plan.ahead)))
    }
}

impl<'a> Net for OddHost<'a> {
    type Stream = OddStream<'a>;

    type Listener = OddListener<'a>;

    fn bind(&self, addr: SocketAddr) -> io::Result<OddListener<'a>> {
        // A server listens at this machine alone, at a port that the system gives.
        if addr != SocketAddr::from((Ipv4Addr::LOCALHOST, 0)) {
            return Err(io::Error::from(io::ErrorKind::AddrNotAvailable));
        }
        let number = self.plan.listeners.get();
        self.plan.listeners.set(number.wrapping_add(1));
        let is_odd = number == 3;
        if is_odd && self.plan.odd == Odd::NoListener {
            return Err(io::Error::from(io::ErrorKind::AddrInUse));
        }
        let listener = self.rt.bind(addr)?;
        let stranger = if is_odd && self.plan.odd == Odd::Stranger {
            Some(Net::connect(&self.rt, listener.local_addr()?)?)
        } else {
            None
        };
        Ok(OddListener {
            listener,
            _stranger: stranger,
            is_odd,
            plan: self.plan,
        })
    }

    fn connect(&self, addr: SocketAddr) -> io::Result<OddStream<'a>> {
        let is_fourth = self.plan.listeners.get() == 4;
        if is_fourth && self.plan.odd == Odd::NoConnection {
            return Err(io::Error::from(io::ErrorKind::ConnectionRefused));
        }
        Ok(OddStream {
            stream: Net::connect(&self.rt, addr)?,
            is_odd: false,
            plan: self.plan,
        })
    }
}

#[derive(Drop)]
pub(crate) struct OddListener<'a> {
    listener: TcpListener,
    _stranger: Option<TcpStream>,
    is_odd: bool,
    plan: &'a Plan,
}

impl<'a> AsRawFd for OddListener<'a> {
    fn as_raw_fd(&self) -> RawFd {
        self.listener.as_raw_fd()
    }
}

impl<'a> OpenListener for OddListener<'a> {
    type Stream = OddStream<'a>;

    fn accept(&self) -> io::Result<(OddStream<'a>, SocketAddr)> {
        let (stream, from) = self.listener.accept()?;
        let (is_odd, plan) = (self.is_odd, self.plan);
        Ok((
            OddStream {
                stream,
                is_odd,
                plan,
            },
            from,
        ))
    }

    fn local_addr(&self) -> io::Result<SocketAddr> {
        self.listener.local_addr()
    }
}

// An end of a connection, which may be that of the odd server.
#[derive(Drop)]
pub(crate) struct OddStream<'a> {
    stream: TcpStream,
    is_odd: bool,
    plan: &'a Plan,
}

impl<'a> OddStream<'a> {
    // Counts a call on the odd server's end, which fails where none is left.
    fn count(&self) -> io::Result<()> {
        if !self.is_odd {
            return Ok(());
        }
        let calls = self.plan.calls.get();
        self.plan.calls.set(calls.wrapping_add(1));
        match self.plan.odd {
            Odd::Closes(left) if calls >= left => {
                Err(io::Error::from(io::ErrorKind::ConnectionReset))
            }
            Odd::Ends(left) if calls >= left => {
                // An end that is shut already stays so.
                let _ = self.stream.shutdown(Shutdown::Both);
                Ok(())
            }
            _ => Ok(()),
        }
    }

    // What the odd server's end sends in place of the first bytes of a piece.
    fn send_odd(&mut self, buf: &[u8]) -> io::Result<()> {
        let half = buf.len() / 2;
        match self.plan.odd {
            Odd::Garbage => send_over(&mut self.stream, buf, 0),
            Odd::TooLong => send_over(&mut self.stream, buf, 255),
            Odd::Half => self.stream.write_all(&buf[..half]),
            Odd::More => {
                self.stream.write_all(buf)?;
                self.stream.write_all(&[0])
            }
            _ => self.stream.write_all(buf),
        }
    }
}

// Sends a piece whose first four bytes are these.
fn send_over(to: &mut TcpStream, buf: &[u8], byte: u8) -> io::Result<()> {
    let count = buf.len().min(4);
    to.write_all(&[byte; 4][..count])?;
    to.write_all(&buf[count..])
}

impl<'a> Read for OddStream<'a> {
    fn read(&mut self, buf: &mut [u8]) -> io::Result<usize> {
        self.count()?;
        self.stream.read(buf)
    }
}

impl<'a> Write for OddStream<'a> {
    fn write(&mut self, buf: &[u8]) -> io::Result<usize> {
        self.count()?;
        if self.is_odd {
            self.send_odd(buf)?;
            return Ok(buf.len());
        }
        self.stream.write(buf)
    }

    fn flush(&mut self) -> io::Result<()> {
        Ok(())
    }
}

impl<'a> AsRawFd for OddStream<'a> {
    fn as_raw_fd(&self) -> RawFd {
        self.stream.as_raw_fd()
    }
}

impl<'a> OpenStream for OddStream<'a> {
    fn local_addr(&self) -> io::Result<SocketAddr> {
        self.stream.local_addr()
    }

    fn set_nodelay(&self, nodelay: bool) -> io::Result<()> {
        self.stream.set_nodelay(nodelay)
    }

    fn set_read_timeout(&self, _dur: Option<Duration>) -> io::Result<()> {
        self.stream
            .set_read_timeout(Some(Duration::from_millis(200)))
    }

    fn set_write_timeout(&self, dur: Option<Duration>) -> io::Result<()> {
        self.stream.set_write_timeout(dur)
    }
}
