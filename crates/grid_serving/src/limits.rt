//! How much a client gets of a server.

use wire::message::NodeId;

/// The most clients that are served at a time. Each has a place, and its node is its place.
pub const MOST_CLIENTS: NodeId = 256;

/// How many clients are taken before those that are there have their turns.
pub(crate) const MOST_TAKEN: usize = 64;

/// How many messages or readings a client gets before the others have their turn.
pub const STEPS: usize = 32;

/// The seconds that a client has for its greeting.
pub const GREETING_LIMIT: u64 = 10;

/// The seconds that bytes may wait for a client while none goes and none comes.
pub const WAITING_LIMIT: u64 = 60;

/// The seconds for which no byte may come or go.
pub const STILL_LIMIT: u64 = 600;
