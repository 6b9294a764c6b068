//! A wire of the tests' own.

use connections::{Arrival, Wire};
use std::alloc::{AllocError, Global};
use std::io::{self, ErrorKind};
use std::marker::Model;

// What a wire brings once all that was to come came.
#[derive(Clone, Copy, PartialEq, Eq)]
pub(crate) enum Behind {
    Nothing,
    End,
}

// A wire that brings given bytes, so many in a call, and takes so many.
#[derive(Drop)]
pub(crate) struct Fake {
    coming: Vec<u8>,
    came: usize,
    behind: Behind,
    step: usize,
    // How many calls go well, before one fails.
    calls: u64,
    // Whether every second call finds nothing to do yet.
    halting: bool,
    halted: bool,
    went: Vec<u8>,
}

impl Fake {
    // A wire that brings these bytes.
    pub(crate) fn new(alloc: Global, coming: &[u8], step: usize) -> Result<Fake, AllocError> {
        Ok(Fake {
            coming: Vec::from_slice(alloc, coming)?,
            came: 0,
            behind: Behind::Nothing,
            step,
            calls: u64::MAX,
            halting: false,
            halted: false,
            went: Vec::new(alloc),
        })
    }

    // The same, with this behind them.
    pub(crate) fn then(mut self, behind: Behind) -> Fake {
        self.behind = behind;
        self
    }

    // The same, where a call fails after so many.
    pub(crate) fn failing_after(mut self, calls: u64) -> Fake {
        self.calls = calls;
        self
    }

    // The same, where every second call finds nothing to do yet.
    pub(crate) fn halting(mut self) -> Fake {
        self.halting = true;
        self
    }

    // What was sent.
    pub(crate) fn went(&self) -> &[u8] {
        self.went.as_slice()
    }

    // Whether a call finds something to do.
    fn call(&mut self) -> io::Result<bool> {
        if self.calls == 0 {
            return Err(io::Error::from(ErrorKind::ConnectionReset));
        }
        self.calls -= 1;
        self.halted = self.halting && !self.halted;
        Ok(!self.halted)
    }
}

impl Wire for Fake {
    ghost calls = { record {
      came = λ old bytes new. Unit {0};
      sent = λ old bytes new. Unit {0};
      ended = λ old new. Unit {0};
      failed = λ old new. Unit {0};
    } };

    fn receive(&mut self, room: &mut [u8]) -> io::Result<Arrival> {
        if !self.call()? {
            return Ok(Arrival::NotYet);
        }
        let Some(rest) = self.coming.as_slice().get(self.came..) else {
            return Ok(Arrival::End);
        };
        let count = self.step.min(rest.len()).min(room.len());
        if count == 0 {
            return match self.behind {
                Behind::Nothing => Ok(Arrival::NotYet),
                Behind::End => Ok(Arrival::End),
            };
        }
        room[..count].copy_from_slice(&rest[..count]);
        self.came = self.came.saturating_add(count);
        Ok(Arrival::Bytes(count))
    }

    fn send(&mut self, bytes: &[u8]) -> io::Result<Option<usize>> {
        let count = self.step.min(bytes.len());
        if !self.call()? || count == 0 {
            return Ok(None);
        }
        self.went.extend_from_slice(&bytes[..count])?;
        Ok(Some(count))
    }
}
