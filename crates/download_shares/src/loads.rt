//! How many shares are read at each server.

use std::alloc::{AllocError, Global};
use std::collections::HashMap;
use wire::message::NodeId;

/// How many shares are read at each server that told of one. It is there so that no choice counts
/// them: nothing but which of several free holdings is read next rests on it.
#[derive(Drop)]
pub(crate) struct Loads {
    counts: HashMap<NodeId, usize>,
}

impl Loads {
    /// No server told of a share.
    pub(crate) fn new(alloc: Global) -> Loads {
        Loads {
            counts: HashMap::new(alloc),
        }
    }

    /// A server tells of a share.
    pub(crate) fn join(&mut self, server: NodeId) -> Result<(), AllocError> {
        if !self.counts.contains_key(&server) {
            self.counts.insert(server, 0)?;
        }
        Ok(())
    }

    /// How many are read at a server.
    pub(crate) fn at(&self, server: NodeId) -> usize {
        self.counts.get(&server).copied().unwrap_or(0)
    }

    /// One more is read at a server.
    pub(crate) fn rise(&mut self, server: NodeId) {
        if let Some(count) = self.counts.get_mut(&server) {
            *count = count.saturating_add(1);
        }
    }

    /// So many fewer are read at a server.
    pub(crate) fn fall(&mut self, server: NodeId, fewer: usize) {
        if let Some(count) = self.counts.get_mut(&server) {
            *count = count.saturating_sub(fewer);
        }
    }
}
