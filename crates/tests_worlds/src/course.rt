//! Worlds, driven.

use crate::liars::liars_of;
use crate::steps::{Case, File, Kept, Liars, Step, event_of};
use std::alloc::Global;
use test_outcomes::{
    are_without_clash, blames, ends_so, finds, is_said, kept_end, reads_lie, says,
};
use test_shares::no_code_word::SIZE;
use wire::message::NodeId;
use world::World;
use world::event::{Event, WorldError};

// How far a world is.
#[derive(Clone, Copy)]
struct Course {
    alloc: Global,
    // The liars are the nodes from this one on up to before that one.
    honest: NodeId,
    nodes: NodeId,
    kept: Kept,
    delivered: usize,
}

// How many of these worlds, from the first on, go as they have to.
pub(crate) fn right_ones(alloc: Global, cases: &[Case]) -> usize {
    for (position, case) in cases.iter().enumerate() {
        if !goes(alloc, case) {
            return position;
        }
    }
    cases.len()
}

// Does a world take all of its steps? It is alive in here alone.
pub(crate) fn goes(alloc: Global, case: &Case) -> bool {
    match world_of(alloc, case) {
        Some(mut world) => Course::new(alloc, case).play(&mut world, case.steps),
        None => false,
    }
}

fn world_of(alloc: Global, case: &Case) -> Option<World> {
    let liars = liars_of(alloc, case)?;
    if case.honest == 0 || case.honest > 100 || liars.len() > 100 {
        return None;
    }
    World::new(alloc, case.honest, liars).ok()
}

// Nobody keeps a share.
const NO_KEEPERS: Kept = Kept {
    told: 0,
    pairs: &[],
};

impl Course {
    fn new(alloc: Global, case: &Case) -> Course {
        let (liars, kept) = match case.liars {
            Liars::None => (0, NO_KEEPERS),
            Liars::Counter(_) => (1, NO_KEEPERS),
            Liars::Keepers(kept) => (4, kept),
            Liars::Tellers(tables) => ((tables.len() % 100) as NodeId, NO_KEEPERS),
        };
        Course {
            alloc,
            honest: case.honest,
            nodes: case.honest.saturating_add(liars),
            kept,
            delivered: 0,
        }
    }

    fn play(&mut self, world: &mut World, steps: &[Step]) -> bool {
        for step in steps {
            if !self.go(world, step) {
                return false;
            }
        }
        true
    }

    fn go(&mut self, world: &mut World, step: &Step) -> bool {
        match step {
            Step::Drain => self.drain(world),
            Step::Settle => self.settle(world),
            Step::LiarsFirst => self.hear_liars(world),
            Step::DownloadKept => self.download_kept(world),
            Step::Refused(_, _) => { self.take(world, step) == Some(Err(WorldError::BadEvent)) }
            Step::Run => run_upload(self.alloc, world) == Some(true) && stops(world),
            Step::Ends(number, status, pieces, bytes, byte) => {
                ends_so(world, *number, *status, (*pieces, *bytes), Some(*byte))
            }
            Step::KeptEnd => kept_end(self.alloc, world, self.kept.told, self.kept.pairs),
            Step::Blames(number, wanted) => blames(world.operations(), *number, wanted),
            Step::Finds(number, good, wanted) => {
                finds(self.alloc, world.operations(), *number, *good, wanted)
            }
            Step::Reads(node, share, parts) => {
                reads_lie(self.alloc, world.sent(), *node, *share, parts)
            }
            Step::Says(node, count) => says(world.sent(), *node, *count),
            Step::NoClash => are_without_clash(self.alloc, world.operations()),
            Step::Said(position, said) => is_said(world, *position, *said),
            _ => self.take(world, step) == Some(Ok(())),
        }
    }

    // Takes the event of a step, if there is memory for it.
    fn take(&self, world: &mut World, step: &Step) -> Option<Result<(), WorldError>> {
        let event = event_of(self.alloc, step)?;
        Some(world.step(&event))
    }

    fn drain(&mut self, world: &mut World) -> bool {
        for _ in 0..1_000_000 {
            let position = self.delivered;
            if position >= world.sent().len() {
                return true;
            }
            self.delivered = position + 1;
            if !deliver(world, position) {
                return false;
            }
        }
        false
    }

    fn settle(&mut self, world: &mut World) -> bool {
        for _ in 0..100_000 {
            if !self.drain(world) {
                return false;
            }
            let before = world.sent().len();
            if !self.have_turns(world) {
                return false;
            }
            if world.sent().len() == before {
                return true;
            }
        }
        false
    }

    // What is delivered here is so once more where all messages are.
    fn hear_liars(&self, world: &mut World) -> bool {
        let mut heard = self.delivered;
        for _ in 0..100_000 {
            let before = world.sent().len();
            if !self.deliver_liars(world, heard, before) || !self.have_turns(world) {
                return false;
            }
            if world.sent().len() == before {
                return true;
            }
            heard = before;
        }
        false
    }

    // Delivers those of these messages that a liar sent or is to hear.
    fn deliver_liars(&self, world: &mut World, from: usize, to: usize) -> bool {
        for position in from..to {
            if self.is_of_liar(world, position) && !deliver(world, position) {
                return false;
            }
        }
        true
    }

    fn is_of_liar(&self, world: &World, position: usize) -> bool {
        match world.sent().get(position) {
            Some(sent) => self.honest <= sent.from || self.honest <= sent.to,
            None => false,
        }
    }

    // Each liar has its turn.
    fn have_turns(&self, world: &mut World) -> bool {
        for liar in self.honest..self.nodes {
            if world.step(&Event::Turn(liar)).is_err() {
                return false;
            }
        }
        true
    }

    fn download_kept(&self, world: &mut World) -> bool {
        for node in 0..(self.kept.pairs.len() % 100) as NodeId {
            let file = File::NoCodeWord(self.kept.told);
            let step = Step::Download(node, file, 0, SIZE as u64);
            if self.take(world, &step) != Some(Ok(())) {
                return false;
            }
        }
        true
    }
}

fn deliver(world: &mut World, position: usize) -> bool {
    world.step(&Event::Deliver(position)).is_ok()
}

// Does a run take an upload to three honest nodes, and each message once, oldest first?
fn run_upload(alloc: Global, world: &mut World) -> Option<bool> {
    let mut events = Vec::new(alloc);
    events
        .push(event_of(alloc, &Step::Upload(0, 1, 3, 3))?)
        .ok()?;
    for position in 0..24 {
        events.push(Event::Deliver(position)).ok()?;
    }
    Some(world.run(events.as_slice()) == (25, Ok(())))
}

// Does a run stop at its first event that is refused?
fn stops(world: &mut World) -> bool {
    let events = [Event::Pass(1), Event::Deliver(1000), Event::Pass(1)];
    world.run(&events) == (1, Err(WorldError::BadEvent))
}
