//! Why a message is not answered.

ghost use Rattle.std.specs.Prelude.{◌≡◌, Some};
ghost use Rattle.server_core.specs.declared.error.ServerFault.TheVariants.{OutOfMemory};
ghost use Rattle.server_core.specs.Faults.{fault_number, fault_text, fault_of};

use share_store::error::StoreError;
use std::alloc::{AllocError, AllocFailed};
use std::error::Error;
use std::fmt;

/// Why a server does not answer a message.
#[derive(Clone, Copy, Debug, PartialEq, Eq)]
pub enum ServerFault {
    /// There was not enough memory. The server is as it was.
    OutOfMemory,
    /// The store failed. The bucket in question is gone.
    StoreFault,
}

impl ServerFault {
    /// The number of the fault.
    pub fn number(self) -> u8
        ensures { result ≡ fault_number self }
    {
        match self {
            ServerFault::OutOfMemory => 1,
            ServerFault::StoreFault => 60,
        }
    }
}

impl fmt::Display for ServerFault {
    ghost output = { λ e. Some (fault_text e) };

    fn fmt<W: fmt::Write>(&self, f: &mut fmt::Formatter<W>) -> fmt::Result {
        let name = match self {
            ServerFault::OutOfMemory => "OutOfMemory",
            ServerFault::StoreFault => "StoreFault",
        };
        f.write_str(name)
    }
}

impl Error for ServerFault {}

impl From<StoreError> for ServerFault {
    ghost from_gives = { λ store e. e ≡ fault_of store };

    fn from(error: StoreError) -> ServerFault {
        match error {
            StoreError::OutOfMemory => ServerFault::OutOfMemory,
            StoreError::StoreFault => ServerFault::StoreFault,
        }
    }
}

impl From<AllocError> for ServerFault {
    ghost from_gives = { λ _ e. e ≡ OutOfMemory };

    fn from(_error: AllocError) -> ServerFault {
        ServerFault::OutOfMemory
    }
}

impl<T: Drop> From<AllocFailed<T>> for ServerFault {
    ghost from_gives = { λ _ e. e ≡ OutOfMemory };

    fn from(_error: AllocFailed<T>) -> ServerFault {
        ServerFault::OutOfMemory
    }
}
