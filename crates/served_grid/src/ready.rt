//! The servers elsewhere that may have something to say or can be told something.

use std::alloc::{AllocError, Global};
use std::collections::VecDeque;
use wire::message::NodeId;

/// The servers that are ready, each once, in the order of their turns.
#[derive(Drop)]
pub(crate) struct Ready {
    turns: VecDeque<NodeId>,
    // Which stand there, by number.
    listed: Vec<bool>,
}

impl Ready {
    /// None of so many servers.
    pub(crate) fn new(alloc: Global, count: usize) -> Result<Ready, AllocError> {
        Ok(Ready {
            turns: VecDeque::new(alloc),
            listed: Vec::from_elem(alloc, false, count)?,
        })
    }

    /// A server is ready.
    pub(crate) fn add(&mut self, server: NodeId) -> Result<(), AllocError> {
        let position = usize::from(server);
        if self.listed.get(position) == Some(&false) {
            self.turns.push_back(server)?;
            self.listed[position] = true;
        }
        Ok(())
    }

    /// The server whose turn it is. The others have theirs before its next one.
    pub(crate) fn take_turn(&mut self) -> Result<Option<NodeId>, AllocError> {
        let Some(server) = self.turns.pop_front() else {
            return Ok(None);
        };
        self.turns.push_back(server)?;
        Ok(Some(server))
    }

    /// The server that had the last turn is ready no longer.
    pub(crate) fn end_turn(&mut self) {
        if let Some(server) = self.turns.pop_back() {
            if let Some(listed) = self.listed.get_mut(usize::from(server)) {
                *listed = false;
            }
        }
    }
}
