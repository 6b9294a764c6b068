//! What a command makes: one event after the other.

ghost use Rattle.std.specs.Prelude.{◌≡◌, ◌≢◌, [], Err, IfOk};
ghost use Rattle.world.specs.declared.event.WorldError.TheVariants.{BadEvent, Stopped};
ghost use Rattle.world_script.specs.Plans.{GivesNext, IsDrawn, IsPlanOf, MakesNone, most_of};

use crate::command::Command;
use crate::delivered::Delivered;
use crate::events::events_of;
use rand_core::SeedableRng;
use rand_core::utils::NextWord;
use rand_pcg::Pcg32;
use std::alloc::Global;
use world::event::{Event, WorldError};
use world_operations::operation::Operation;

// The most messages that one `drain` delivers.
const MOST_DRAINED: u64 = 1_000_000;

// What a command still makes.
#[derive(Drop)]
pub(crate) enum Plan {
    // These events, the last one first.
    Fixed(Vec<Event>),
    // The oldest message that was not delivered, again and again.
    Oldest,
    // So many messages, drawn by these words.
    Drawn(Pcg32, u64),
}

impl Plan {
    // The plan of a command, in a world of so many honest nodes and with these operations.
    pub(crate) fn of(
        alloc: Global,
        command: &Command,
        honest: u16,
        operations: &[Operation],
    ) -> Result<Plan, WorldError>
        ensures value { IfOk result (λ plan. IsPlanOf plan command.now honest operations.now []) }
        ensures refused { result ≡ Err BadEvent
            → MakesNone command.now honest operations.now }
        ensures going { result ≢ Err Stopped }
    {
        match command {
            Command::Drain => Ok(Plan::Oldest),
            Command::Random(start, count) => Ok(Plan::Drawn(Pcg32::seed_from_u64(*start), *count)),
            _ => Ok(Plan::Fixed(events_of(alloc, command, honest, operations)?)),
        }
    }

    // How many events it makes at most.
    pub(crate) fn most(&self) -> u64
        ensures { result ≡ most_of self.now }
    {
        match self {
            Plan::Fixed(events) => events.len() as u64,
            Plan::Oldest => MOST_DRAINED,
            Plan::Drawn(_, count) => *count,
        }
    }

    // The next event, where so many messages were sent.
    pub(crate) fn next(&mut self, delivered: &mut Delivered, sent: usize) -> Option<Event>
        ensures next { GivesNext self.old delivered.old sent result self.new }
        ensures same { delivered.new ≡ delivered.old }
    {
        match self {
            Plan::Fixed(events) => events.pop(),
            Plan::Oldest => delivered.oldest(sent).map(Event::Deliver),
            Plan::Drawn(words, _) => draw(words, sent).map(Event::Deliver),
        }
    }
}

// A message of so many, drawn by the next word.
fn draw(words: &mut Pcg32, sent: usize) -> Option<usize>
    ensures { IsDrawn words.old sent result words.new }
{
    if sent == 0 {
        return None;
    }
    Some(words.next_word() as usize % sent)
}
