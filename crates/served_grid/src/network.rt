//! What servers elsewhere are reached by: wires, and a clock.

use connections::Wire;
use std::alloc::AllocError;
use wire::message::NodeId;

/// What servers elsewhere are reached by, and the clock. Nothing is promised of it but that no call
/// but `rest` waits.
pub trait Network<W: Wire> {
    /// Begins to connect to a server. `None` where no connection can be made.
    fn connect(&mut self, server: NodeId) -> Result<Option<W>, AllocError>;

    /// The seconds since some start.
    fn seconds(&mut self) -> u64;

    /// Waits until wires have something to read or can take something, or a moment passed, at most
    /// a fifth of a second. Puts the numbers of their servers behind those that are there.
    fn rest(&mut self, ready: &mut Vec<NodeId>) -> Result<(), AllocError>;
}
