//! Why a connection ends.

use std::alloc::AllocError;

/// Why a connection ended. It is no refusal of a command: a server whose connection ends is silent.
#[derive(Clone, Copy, PartialEq, Eq)]
pub enum ConnectionFault {
    /// There was not enough memory.
    OutOfMemory,
    /// A call on the wire failed, or the other end sends nothing any more.
    Ended,
    /// The other end's greeting is not one that fits.
    OtherGreeting,
    /// What came is not the frame of a message.
    NoFrame,
}

impl From<AllocError> for ConnectionFault {
    ghost use Rattle.std.specs.Prelude.{◌≡◌};
    ghost use Rattle.connections.specs.declared.fault.ConnectionFault.TheVariants.{OutOfMemory};

    ghost from_gives = { λ _ e. e ≡ OutOfMemory };

    fn from(_error: AllocError) -> ConnectionFault {
        ConnectionFault::OutOfMemory
    }
}
