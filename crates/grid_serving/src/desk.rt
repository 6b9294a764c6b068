//! What the clients of a server share.

ghost use Rattle.std.specs.Prelude.{◌≡◌, IfOk};

use connections::{Greeting, Room};
use std::alloc::{AllocError, Global};

/// What the clients of a server share: the server's greeting, and room for bytes.
#[derive(Drop)]
pub struct Desk {
    pub(crate) alloc: Global,
    pub(crate) own: Greeting,
    pub(crate) frame: Vec<u8>,
    pub(crate) room: Room,
}

impl Desk {
    /// The desk of a server with this greeting.
    pub fn new(alloc: Global, own: &Greeting) -> Result<Desk, AllocError>
        ensures { IfOk result (λ desk. desk.own ≡ own.now) }
    {
        Ok(Desk {
            alloc,
            own: *own,
            frame: Vec::new(alloc),
            room: Room::new(alloc)?,
        })
    }
}
