//! Where a server listens.

ghost use Rattle.std.specs.Prelude.{◌≡◌, ◌≢◌, ◌↔◌, IfErr, IfOk, IsErrOf, IsOk};
ghost use Rattle.std.specs.Prelude.{IsOkUnless, IsTrue};
ghost use Rattle.connections.specs.Addresses.{IsAddressText, IsLocal, IsNoAddress};
ghost use Rattle.connections.specs.Refusals.{refusal_number, refusal_text};

use std::alloc::{AllocError, Global};
use std::fmt;
use std::net::SocketAddr;

/// Why a text is not taken for an address at which to listen.
#[derive(Clone, Copy, Debug, PartialEq, Eq)]
pub enum AddressError {
    /// There was not enough memory.
    OutOfMemory,
    /// The text is no `unix:PATH`, and no numbers with a port.
    BadAddress,
    /// Other machines may reach the address.
    NotLocal,
}

impl AddressError {
    /// The number of the refusal.
    pub fn number(self) -> u8
        ensures { result ≡ refusal_number self }
    {
        match self {
            AddressError::OutOfMemory => 1,
            AddressError::BadAddress => 103,
            AddressError::NotLocal => 104,
        }
    }
}

impl fmt::Display for AddressError {
    ghost use Rattle.std.specs.Prelude.{Some};

    ghost output = { λ e. Some (refusal_text e) };

    fn fmt<W: fmt::Write>(&self, f: &mut fmt::Formatter<W>) -> fmt::Result {
        f.write_str(match self {
            AddressError::OutOfMemory => "OutOfMemory",
            AddressError::BadAddress => "BadAddress",
            AddressError::NotLocal => "NotLocal",
        })
    }
}

impl From<AllocError> for AddressError {
    ghost use Rattle.connections.specs.declared.address.AddressError.TheVariants.{OutOfMemory};

    ghost from_gives = { λ _ e. e ≡ OutOfMemory };

    fn from(_error: AllocError) -> AddressError {
        AddressError::OutOfMemory
    }
}

/// Where a server listens.
#[derive(Drop)]
pub enum Address {
    /// A Unix socket at this path.
    Unix(String),
    /// An IP address and a port.
    Tcp(SocketAddr),
}

/// How the text of a Unix socket's address begins.
const UNIX: &str = "unix:";

impl Address {
    /// The address that a text spells: `unix:PATH`, or numbers as `127.0.0.1:7000` or `[::1]:7000`.
    /// A name of a machine is none: to look it up may take any time.
    pub fn read(alloc: Global, text: &str) -> Result<Address, AddressError>
        ensures value { IfOk result (λ address. IsAddressText text.now address) }
        ensures bad { IsErrOf result AddressError.BadAddress → IsNoAddress text.now }
        ensures local { IfErr result (λ e. e ≢ AddressError.NotLocal) }
    {
        match text.strip_prefix(UNIX) {
            Some("") => Err(AddressError::BadAddress),
            Some(path) => Ok(Address::Unix(String::from_str(alloc, path)?)),
            None => match text.parse::<SocketAddr>() {
                Ok(address) => Ok(Address::Tcp(address)),
                Err(_) => Err(AddressError::BadAddress),
            },
        }
    }

    /// Whether programs of this machine alone reach it: a Unix socket, or a loopback address.
    pub fn is_local(&self) -> bool
        ensures { IsTrue result ↔ IsLocal self.now }
    {
        match self {
            Address::Unix(_) => true,
            Address::Tcp(address) => address.ip().is_loopback(),
        }
    }

    /// Refuses an address that other machines may reach.
    pub fn check_local(&self) -> Result<(), AddressError>
        ensures ok { IsOk result ↔ IsLocal self.now }
        ensures only { IsOkUnless result AddressError.NotLocal }
    {
        if self.is_local() {
            Ok(())
        } else {
            Err(AddressError::NotLocal)
        }
    }
}
