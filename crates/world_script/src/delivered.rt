//! Which messages were delivered.

ghost use Rattle.std.specs.Prelude.{◌≡◌, ◌↔◌, ◌∷◌, ◌++◌, [], List, IsTrue, OnOk};
ghost use Rattle.world.specs.declared.event.Event.{Event};
ghost use Rattle.world_script.specs.Plans.{AreMarked, IsFirstLeft, IsMarked, IsNoted};

use std::alloc::{AllocError, Global};
use std::marker::Model;
use world::event::Event;

// The messages that were delivered, by their positions.
#[derive(Drop)]
pub(crate) struct Delivered {
    flags: Vec<bool>,
    // All messages before this position were delivered.
    first: usize,
}

impl Model for Delivered {
    ghost use Rattle.std.specs.Prelude.{ℕ, ◌<◌, List, Bool};
    ghost use Rattle.world_script.specs.Plans.{IsMarked};

    ghost Value = { List Bool };

    ghost view = { λ d. d.flags.items };

    ghost invariant = { λ d. (p : ℕ) → p < d.first → IsMarked d.flags.items p };
}

impl Delivered {
    // None was.
    pub(crate) fn new(alloc: Global) -> Delivered
        ensures { result ≡ [] }
    {
        Delivered {
            flags: Vec::new(alloc),
            first: 0,
        }
    }

    // Was the message at a position delivered?
    fn has(&self, position: usize) -> bool
        ensures { IsTrue result ↔ IsMarked self.now position }
    {
        match self.flags.get(position) {
            Some(flag) => *flag,
            None => false,
        }
    }

    // An event was taken: its message is delivered, if it delivers one.
    pub(crate) fn note(&mut self, event: &Event) -> Result<(), AllocError>
        ensures { OnOk result ((events : List Event) → AreMarked self.old events
            → AreMarked self.new (events ++ event.now ∷ [])) }
    {
        match event {
            Event::Deliver(position) => self.add(*position),
            _ => Ok(()),
        }
    }

    // The message at a position is delivered.
    fn add(&mut self, position: usize) -> Result<(), AllocError>
        ensures { OnOk result (IsNoted self.old position self.new) }
    {
        let _first = self.first;
        for _length in self.flags.len()..position {
            self.flags.push(false)?;
        }
        if position < self.flags.len() {
            self.flags[position] = true;
        } else {
            self.flags.push(true)?;
        }
        Ok(())
    }

    // The oldest of so many messages that was not delivered.
    pub(crate) fn oldest(&mut self, sent: usize) -> Option<usize>
        ensures same { self.new ≡ self.old }
        ensures left { IsFirstLeft self.old sent result }
    {
        for position in self.first..sent {
            if !self.has(position) {
                return Some(position);
            }
            self.first = position + 1;
        }
        None
    }
}
