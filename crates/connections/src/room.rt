//! Room for what is read in one call.

ghost use Rattle.std.specs.Prelude.{◌≡◌, length, vec_len};

use std::alloc::{AllocError, Global};

/// How many bytes are read at most in one call.
pub const ROOM_SIZE: usize = 65_536;

/// Room for what is read in one call. Connections that take turns may share it.
#[derive(Drop)]
pub struct Room {
    bytes: Vec<u8>,
    ghost size: { vec_len bytes ≡ 65536 },
}

impl Room {
    /// Room that can be used for any connection.
    pub fn new(alloc: Global) -> Result<Room, AllocError> {
        Ok(Room {
            bytes: Vec::from_elem(alloc, 0, ROOM_SIZE)?,
        })
    }

    /// All of it.
    pub(crate) fn as_mut_slice(&mut self) -> &mut [u8]
        ensures { length result.now ≡ 65536 }
    {
        self.bytes.as_mut_slice()
    }
}
