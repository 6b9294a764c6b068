//! Uploads that are carried to servers that do not answer at once.

use crate::kept_tests::{Nobody, ten_hold, ten_nodes};
use crate::upload_rounds_tests::begun_ten;
use carried_operations::uploads::carry_upload;
use local_grid::error::LoopError;
use local_grid::grid::LocalGrid;
use local_grid::link::MemoryLink;
use local_grid::{Happening, Outside};
use share_store::memory::MemoryStore;
use std::alloc::{AllocError, Global};
use wire::message::{Message, NodeId};

// Servers in memory whose answers come while the operation waits, the last one first. Where none is
// left five seconds pass.
#[derive(Drop)]
struct LateServers {
    grid: LocalGrid<MemoryStore, MemoryLink>,
    answers: Vec<(NodeId, Message)>,
}

impl Outside for LateServers {
    ghost use Rattle.local_grid.specs.Outside.{OutsideCalls};

    ghost calls = { record {
      clock = λ s. s.grid.clock;
      handed = λ old node message answer new. Unit {0};
      happened = λ old happening new. Unit {0};
      hand_stops = λ old node message new. Unit {0};
      wait_stops = λ old new. Unit {0};
    } };

    fn clock(&self) -> u64 {
        self.grid.clock()
    }

    fn hand(&mut self, node: NodeId, message: &Message) -> Result<Option<Message>, AllocError> {
        if let Some(answer) = self.grid.exchange(node, message)? {
            self.answers.push((node, answer))?;
        }
        Ok(None)
    }

    fn wait(&mut self) -> Result<Happening, AllocError> {
        if let Some((node, answer)) = self.answers.pop() {
            return Ok(Happening::Came(node, answer));
        }
        let second = self.grid.clock().saturating_add(5);
        self.grid.pass_to(second);
        Ok(Happening::Second(second))
    }
}

fn late_servers(alloc: Global) -> Option<LateServers> {
    Some(LateServers {
        grid: ten_nodes(alloc)?,
        answers: Vec::new(alloc),
    })
}

// The shares that are carried to ten such servers are closed there afterwards, each at its own.
fn ten_store(alloc: Global) -> Option<bool> {
    let mut servers = late_servers(alloc)?;
    let (cap, upload) = begun_ten(alloc)?;
    match carry_upload(alloc, &mut servers, upload, 10_000, Nobody) {
        Ok(upload) => ten_hold(alloc, &servers.grid, &cap, &upload),
        Err(_) => None,
    }
}

#[test]
fn late_answers_count(rt: HostRuntime) {
    assert!(rt; ten_store(rt.alloc()) == Some(true));
}

// Ten servers are asked first: nine turns are too few.
fn ends_by_limit(alloc: Global) -> Option<bool> {
    let mut servers = late_servers(alloc)?;
    let (_, upload) = begun_ten(alloc)?;
    match carry_upload(alloc, &mut servers, upload, 9, Nobody) {
        Ok(_) => None,
        Err(error) => Some(error == LoopError::TurnLimit),
    }
}

#[test]
fn turns_are_counted(rt: HostRuntime) {
    assert!(rt; ends_by_limit(rt.alloc()) == Some(true));
}
