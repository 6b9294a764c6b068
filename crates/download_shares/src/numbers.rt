//! For one share number the holdings of it that are left, and the one that is read.

ghost use Rattle.std.specs.Prelude.{◌≡◌, OnErr, OnOk, is_some};
ghost use Rattle.download_shares.specs.Numbers.{is_at, no_holding, released, taken_up};
ghost use Rattle.download_shares.specs.Numbers.{with_position};
ghost use Rattle.download_shares.specs.Numbers.{without_position};
ghost use Rattle.request_record.specs.Record.{without};

use std::alloc::{AllocError, Global};
use std::marker::Model;

/// The positions of the holdings of a share number that are left, in the order in which they were
/// told, and of the one that is read.
#[derive(Drop)]
pub(crate) struct Number {
    left: Vec<usize>,
    reading: Option<usize>,
}

impl Model for Number {
    ghost use Rattle.download_shares.specs.HoldingState.{NumberState};

    ghost Value = { NumberState };

    ghost view = { λ n. record { left = n.left.items; reading = n.reading } };
}

impl Number {
    /// None is left.
    pub(crate) fn new(alloc: Global) -> Number
        ensures { result ≡ no_holding }
    {
        Number {
            left: Vec::new(alloc),
            reading: None,
        }
    }

    /// The positions of those that are left.
    pub(crate) fn left(&self) -> &[usize]
        ensures { result.now ≡ self.now.left }
    {
        self.left.as_slice()
    }

    /// Whether one is read.
    pub(crate) fn is_read(&self) -> bool
        ensures { result ≡ is_some self.now.reading }
    {
        self.reading.is_some()
    }

    /// Whether the one at this position is read.
    pub(crate) fn reads(&self, position: usize) -> bool
        ensures { result ≡ is_at position self.now.reading }
    {
        match self.reading {
            Some(other) => other == position,
            None => false,
        }
    }

    /// One more is left.
    pub(crate) fn add(&mut self, position: usize) -> Result<(), AllocError>
        ensures ok { OnOk result (self.new ≡ with_position position self.old) }
        ensures err { OnErr result (self.new ≡ self.old) }
    {
        self.left.push(position)?;
        Ok(())
    }

    /// One is not left any more, and not read.
    pub(crate) fn remove(&mut self, position: usize)
        ensures { self.new ≡ without_position position self.old }
    {
        drop_position(&mut self.left, position);
        self.release(position);
    }

    /// One is read from now on, where none is.
    pub(crate) fn take_up(&mut self, position: usize)
        ensures { self.new ≡ record self.old { reading = taken_up position self.old.reading } }
    {
        if self.reading.is_none() {
            self.reading = Some(position);
        }
    }

    /// One is not read any more.
    pub(crate) fn release(&mut self, position: usize)
        ensures { self.new ≡ record self.old { reading = released position self.old.reading } }
    {
        if self.reads(position) {
            self.reading = None;
        }
    }
}

// A position is not listed any more.
fn drop_position(positions: &mut Vec<usize>, position: usize)
    ensures { positions.new.items ≡ without position positions.old.items }
{
    positions.retain(|other| !(*other == position));
}
