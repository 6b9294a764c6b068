//! A client of the tests' own in memory. All that it says is there at the beginning, and comes in
//! pieces; what it is told is kept.

ghost use Rattle.std.specs.Prelude.{◌≤◌, length};

use connections::{Arrival, Wire};
use std::alloc::{AllocError, Global};
use std::cell::{RefCell, RefMut};
use std::io::{self, ErrorKind};

/// How a line takes its calls.
#[derive(Clone, Copy)]
pub(crate) struct Pace {
    /// The most bytes of a call.
    pub(crate) step: usize,
    /// Whether the first of two readings finds nothing, and the first of two writings no room.
    pub(crate) stutters: bool,
    /// The call that fails, counted from one, and so does each after it.
    pub(crate) fails_at: u64,
}

/// What a client says, and what it is told.
#[derive(Drop)]
pub(crate) struct Line {
    pace: Pace,
    says: Vec<u8>,
    // How much of that was read.
    read: usize,
    told: Vec<u8>,
    readings: u64,
    writings: u64,
}

impl Line {
    pub(crate) fn new(alloc: Global, says: &[u8], pace: Pace) -> Result<Line, AllocError> {
        Ok(Line {
            pace,
            says: Vec::from_slice(alloc, says)?,
            read: 0,
            told: Vec::new(alloc),
            readings: 0,
            writings: 0,
        })
    }

    /// What it was told.
    pub(crate) fn into_told(self) -> Vec<u8> {
        self.told
    }

    /// How many bytes went in either direction.
    pub(crate) fn moved(&self) -> usize {
        self.read.saturating_add(self.told.len())
    }

    // Fails where it is time.
    fn check(&self) -> io::Result<()> {
        if self.readings.saturating_add(self.writings) >= self.pace.fails_at {
            return Err(io::Error::from(ErrorKind::ConnectionReset));
        }
        Ok(())
    }

    // Whether a call of this number, of its direction, finds nothing.
    fn pauses(&self, number: u64) -> bool {
        self.pace.stutters && number % 2 == 1
    }

    // Gives the next bytes that are said, and how many.
    fn give(&mut self, room: &mut [u8]) -> usize
        ensures { result ≤ length room.new }
    {
        let Some(rest) = self.says.as_slice().get(self.read..) else {
            return 0;
        };
        let count = self.pace.step.min(rest.len()).min(room.len());
        room[..count].copy_from_slice(&rest[..count]);
        self.read = self.read.saturating_add(count);
        count
    }
}

/// The server's end of a line.
#[derive(Drop)]
pub(crate) struct End<'a> {
    pub(crate) line: &'a RefCell<Line>,
}

impl<'a> End<'a> {
    fn line(&self) -> io::Result<RefMut<'a, Line>> {
        match self.line.try_borrow_mut() {
            Ok(line) => Ok(line),
            Err(_) => Err(io::Error::from(ErrorKind::Other)),
        }
    }
}

impl<'a> Wire for End<'a> {
    ghost calls = { record {
      came = λ old bytes new. Unit {0};
      sent = λ old bytes new. Unit {0};
      ended = λ old new. Unit {0};
      failed = λ old new. Unit {0};
    } };

    fn receive(&mut self, room: &mut [u8]) -> io::Result<Arrival> {
        let mut line = self.line()?;
        line.readings = line.readings.saturating_add(1);
        line.check()?;
        if line.pauses(line.readings) {
            return Ok(Arrival::NotYet);
        }
        let count = line.give(room);
        if count == 0 {
            return Ok(Arrival::NotYet);
        }
        Ok(Arrival::Bytes(count))
    }

    fn send(&mut self, bytes: &[u8]) -> io::Result<Option<usize>> {
        let mut line = self.line()?;
        line.writings = line.writings.saturating_add(1);
        line.check()?;
        let count = line.pace.step.min(bytes.len());
        if count == 0 || line.pauses(line.writings) {
            return Ok(None);
        }
        line.told.extend_from_slice(&bytes[..count])?;
        Ok(Some(count))
    }
}
