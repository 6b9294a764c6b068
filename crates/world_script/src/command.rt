//! What a script says.

use file_encoding::Params;
use proved_parts::Bytes;

/// What a liar does.
#[derive(Clone, Copy, Debug, PartialEq, Eq)]
pub enum Kind {
    /// It sends nothing.
    Silent,
    /// It answers the last request with data that nobody stored.
    Junk,
    /// It sends the last frame back to its sender.
    Replay,
}

/// A command after the first. Nodes are named by their numbers; uploads, operations and messages
/// by their positions. None of them need be there.
#[derive(Drop)]
pub enum Command {
    /// A node uploads a file of at least 56 bytes.
    Upload(u64, Bytes, Params),
    /// A node downloads the whole file of an upload.
    Download(u64, u64),
    /// A node downloads the file of an upload from one position to before another.
    DownloadRange(u64, u64, u64, u64),
    /// A node checks the shares of an upload.
    Check(u64, u64),
    /// A node repairs the file of a check of its own that is done, for so many servers at least.
    Repair(u64, u64, u64),
    /// A message that was sent comes to its receiver.
    Deliver(u64),
    /// All messages come that did not yet, the oldest first, until none is left.
    Drain,
    /// From this seed, so many messages come that are drawn from all that were sent.
    Random(u64, u64),
    /// So many seconds pass, and each honest node's clock ticks.
    Pass(u64),
    /// A node restarts.
    Restart(u64),
    /// A node's store fails at its next call that can fail.
    Fail(u64),
    /// An operation ends as one that found no memory.
    Refuse(u64),
    /// A liar's turn.
    Turn(u64),
    /// A liar sends bytes, one at least, to a node.
    Forge(u64, u64, Bytes),
}

/// A script: 1 to 256 nodes, and what happens.
#[derive(Drop)]
pub struct Script {
    /// How many nodes are honest, one at least.
    pub honest: u16,
    /// The nodes after them.
    pub liars: Vec<Kind>,
    /// What happens, in order.
    pub commands: Vec<Command>,
}
