//! Why a folder is not served, or is served no longer.

ghost use Rattle.std.specs.Prelude.{◌≡◌, IfOk, is_some};
ghost use Rattle.std.specs.IoError.{error_kind};
ghost use Rattle.grid_serve.specs.Faults.{serve_has_reason, serve_number, serve_status};

use grid_faults::{Fault, reason_line, told_path};
use std::alloc::{AllocError, Global};
use std::io::{self, ErrorKind};
use thiserror::Error;

/// Why a folder is not served. Its text is its name and what belongs to it.
#[derive(Debug, Drop, Error)]
pub enum ServeFault {
    /// What any command may end with.
    #[error("{0}")]
    Fault(Fault),
    /// This text is no address.
    #[error("BadAddress {0}")]
    BadAddress(String),
    /// Other machines may reach this address.
    #[error("NotLocal {0}")]
    NotLocal(String),
    /// No socket could be made at this address, or sockets failed, and the system's reason, which
    /// its text leaves out.
    #[error("SocketFault {0}")]
    Socket(String, io::Error),
}

impl ServeFault {
    /// The number of the fault.
    pub fn number(&self) -> u8
        ensures { result ≡ serve_number self.now }
    {
        match self {
            ServeFault::Fault(fault) => fault.number(),
            ServeFault::Socket(..) => 91,
            ServeFault::BadAddress(_) => 103,
            ServeFault::NotLocal(_) => 104,
        }
    }

    /// The exit status: 3 for an address that is none or is not taken, and 7 for a socket that
    /// fails. Of any other fault as `Fault` has it.
    pub fn status(&self) -> u8
        ensures { result ≡ serve_status self.now }
    {
        match self {
            ServeFault::Fault(fault) => fault.status(),
            ServeFault::BadAddress(_) | ServeFault::NotLocal(_) => 3,
            ServeFault::Socket(..) => 7,
        }
    }

    /// The line that tells why the fault came, with its end. None for one that says all itself.
    pub fn reason_line(&self, alloc: Global) -> Result<Option<String>, AllocError>
        ensures { IfOk result (λ line. is_some line ≡ serve_has_reason self.now) }
    {
        match self {
            ServeFault::Fault(fault) => reason_line(alloc, fault),
            ServeFault::Socket(address, error) => {
                Ok(Some(format!(in alloc; "{address}: {error}\n")?))
            }
            _ => Ok(None),
        }
    }

    /// The fault of the sockets at an address: one of memory where a call found none.
    pub fn of_sockets(alloc: Global, address: &str, error: io::Error) -> ServeFault
        ensures { error_kind error ≡ ErrorKind.OutOfMemory
            → result ≡ ServeFault.Fault Fault.OutOfMemory }
    {
        if error.kind() == ErrorKind::OutOfMemory {
            return ServeFault::Fault(Fault::OutOfMemory);
        }
        match told_path(alloc, address) {
            Ok(address) => ServeFault::Socket(address, error),
            Err(refused) => ServeFault::from(refused),
        }
    }
}

impl From<Fault> for ServeFault {
    ghost use Rattle.std.specs.Prelude.{◌≡◌};
    ghost use Rattle.grid_serve.specs.declared.fault.ServeFault.TheVariants as serve;

    ghost from_gives = { λ fault e. e ≡ serve.Fault fault };

    fn from(fault: Fault) -> ServeFault {
        ServeFault::Fault(fault)
    }
}

impl From<AllocError> for ServeFault {
    ghost use Rattle.std.specs.Prelude.{◌≡◌};
    ghost use Rattle.grid_faults.specs.declared.fault.Fault.TheVariants as faults;
    ghost use Rattle.grid_serve.specs.declared.fault.ServeFault.TheVariants as serve;

    ghost from_gives = { λ _ e. e ≡ serve.Fault faults.OutOfMemory };

    fn from(_error: AllocError) -> ServeFault {
        ServeFault::Fault(Fault::OutOfMemory)
    }
}
