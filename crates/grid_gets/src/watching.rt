//! The progress of a `get` by the bytes that it writes.

use carried_operations::downloads::WriteWatch;
use grid_telling::Progress;
use local_grid::watched::Watch;
use std::io::{IsTerminal, Write};
use std::rt::Clock;
use wire::message::{Message, NodeId};

/// Tells how far a `get` is while a download of it is carried.
#[derive(Drop)]
pub(crate) struct Watching<'a, 'b, R, E> {
    progress: &'a mut Progress<'b, R, E>,
}

impl<'a, 'b, R, E> Watching<'a, 'b, R, E> {
    /// What tells so.
    pub(crate) fn new(progress: &'a mut Progress<'b, R, E>) -> Watching<'a, 'b, R, E> {
        Watching { progress }
    }
}

impl<'a, 'b, R, E> Watch for Watching<'a, 'b, R, E>
where
    R: Clock + AllocGlobal,
    E: Write + IsTerminal,
{
    fn asked(&mut self, server: NodeId, message: &Message) {
        self.progress.asked(server, message);
    }

    fn heard(&mut self, server: NodeId, message: &Message) {
        self.progress.heard(server, message);
    }
}

impl<'a, 'b, R, E> WriteWatch for Watching<'a, 'b, R, E>
where
    R: Clock + AllocGlobal,
    E: Write + IsTerminal,
{
    fn wrote(&mut self, bytes: u64) {
        self.progress.add(bytes);
    }
}
