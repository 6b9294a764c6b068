//! A short queue of bits, which go in and come out as the bits of small numbers.

ghost use Rattle.std.specs.Prelude.{◌≡◌, ◌+◌, ◌-◌, ◌*◌, ◌^◌, ◌<◌, ◌≤◌, ◌++◌, ◌↔◌, ℕ, List, []};
ghost use Rattle.std.specs.Prelude.{IsTrue, length, replicate};
ghost use Rattle.cap_text.specs.Base32.{bits};

use std::marker::Model;

// At most 16 bits, as the lowest ones of a number.
#[derive(Drop)]
pub(crate) struct BitQueue {
    number: u32,
    count: u32,
}

impl Model for BitQueue {
    ghost Value = { List ℕ };

    ghost view = { λ q. bits q.count q.number };

    ghost invariant = { λ q. (q.count ≤ 16) × (q.number < 2 ^ q.count) };
}

impl BitQueue {
    // No bits.
    pub(crate) fn new() -> BitQueue
        ensures { result ≡ [] }
    {
        BitQueue {
            number: 0,
            count: 0,
        }
    }

    // How many bits there are.
    pub(crate) fn len(&self) -> u32
        ensures { result ≡ length self.now }
    {
        self.count
    }

    // Whether no bit is set.
    pub(crate) fn is_zero(&self) -> bool
        ensures { IsTrue result ↔ (self.now ≡ replicate (length self.now) 0) }
    {
        self.number == 0
    }

    // Adds the lowest `width` bits of a number, all that it has.
    pub(crate) fn push(&mut self, number: u8, width: u32)
        requires narrow { number < 2 ^ width }
        requires room { length self.old + width ≤ 16 }
        ensures { self.new ≡ self.old ++ bits width number }
    {
        self.number = self.number << width | u32::from(number);
        self.count += width;
    }

    // Takes the first `width` bits out, as a number.
    pub(crate) fn pop(&mut self, width: u32) -> u8
        requires narrow { width ≤ 8 }
        requires enough { width ≤ length self.old }
        ensures front { self.old ≡ bits width result ++ self.new }
        ensures small { result < 2 ^ width }
    {
        self.count -= width;
        let front = self.number >> self.count;
        self.number &= (1 << self.count) - 1;
        front as u8
    }
}
