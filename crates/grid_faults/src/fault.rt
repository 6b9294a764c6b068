//! Why a command ended without its result: each fault has a number, an exit status and a text.

ghost use Rattle.std.specs.Prelude.{◌≡◌, ◌≢◌, ◌↔◌, IsTrue};
ghost use Rattle.std.specs.IoError.{error_kind};
ghost use Rattle.grid_faults.specs.Fault.{fault_number, fault_of_cap, fault_status};

use cap_text::CapError;
use std::alloc::{AllocError, AllocFailed};
use std::io::{self, ErrorKind};
use thiserror::Error;

/// A fault. Its text is its name and what belongs to it.
#[derive(Debug, Drop, Error)]
pub enum Fault {
    /// An allocation was refused.
    #[error("OutOfMemory")]
    OutOfMemory,
    /// A number or the secret is outside its range.
    #[error("BadParameters")]
    BadParameters,
    /// The text is no cap.
    #[error("{0}")]
    Cap(CapError),
    /// The file has too many bytes.
    #[error("TooLarge")]
    TooLarge,
    /// The file has too many segments of the size that was asked for.
    #[error("TooManySegments")]
    TooManySegments,
    /// Fewer servers than were wanted hold a share of their own.
    #[error("Unhappy reached {reached} wanted {wanted}")]
    Unhappy { reached: u16, wanted: u16 },
    /// Fewer shares pass their checks than are needed.
    #[error("NotEnoughShares")]
    NotEnoughShares,
    /// The shares pass their checks, and yet are not those of one file.
    #[error("Inconsistent")]
    Inconsistent,
    /// The range ends before it begins, or behind the file's end.
    #[error("BadRange")]
    BadRange,
    /// The file that is stored changed while it was read, or became shorter.
    #[error("SourceChanged")]
    SourceChanged,
    /// The file that is stored could not be read to its end.
    #[error("SourceFault")]
    SourceFault,
    /// What a script says is not there, or cannot be.
    #[error("BadEvent")]
    BadEvent,
    /// The world of a script was stopped before.
    #[error("Stopped")]
    Stopped,
    /// The file or the folder of this path could not be read or written, and the system's reason,
    /// which its text leaves out.
    #[error("FileFault {0}")]
    File(String, io::Error),
    /// No socket could be made at which a server listens, and the system's reason, which its text
    /// leaves out.
    #[error("SocketFault")]
    Socket(io::Error),
    /// The servers did not come to an end within the turns that a command takes.
    #[error("TurnLimit")]
    TurnLimit,
    /// The line of this number, from 1 on, spells no command of a script that may stand there.
    #[error("BadScript {0}")]
    BadScript(usize),
    /// The cap has no key, and the command needs one.
    #[error("NeedsReadCap")]
    NeedsReadCap,
    /// The folder is a grid that knows its servers already.
    #[error("AlreadyGrid")]
    AlreadyGrid,
    /// The folders of these two servers are one.
    #[error("SameFolder {0} {1}")]
    SameFolder(String, String),
    /// The folder of this path has a mark already, of another grid or of another server.
    #[error("OtherMark {0}")]
    OtherMark(String),
    /// The file of this path is not the mark of a grid that it should be.
    #[error("BadMark {0}")]
    BadMark(String),
    /// The result could not be written.
    #[error("OutputFault")]
    Output,
    /// The grid of this path has no server.
    #[error("NoServers {0}")]
    NoServers(String),
    /// The folder of this path is no grid that `init` marked.
    #[error("UnknownGrid {0}")]
    UnknownGrid(String),
    /// The folder of this path, which is to become a server's, holds something.
    #[error("NotEmpty {0}")]
    NotEmpty(String),
    /// A process serves the folder of this path, or writes there, or listens at this address.
    #[error("InUse {0}")]
    InUse(String),
}

impl Fault {
    /// The number of the fault.
    pub fn number(&self) -> u8
        ensures { result ≡ fault_number self.now }
    {
        match self {
            Fault::OutOfMemory => 1,
            Fault::BadParameters => 2,
            Fault::Cap(error) => error.number(),
            Fault::TooLarge => 30,
            Fault::TooManySegments => 31,
            Fault::Unhappy { .. } => 70,
            Fault::NotEnoughShares => 71,
            Fault::Inconsistent => 72,
            Fault::BadRange => 73,
            Fault::SourceChanged => 74,
            Fault::SourceFault => 75,
            Fault::BadEvent => 80,
            Fault::Stopped => 81,
            Fault::File(..) => 90,
            Fault::Socket(_) => 91,
            Fault::TurnLimit => 92,
            Fault::BadScript(_) => 93,
            Fault::NeedsReadCap => 94,
            Fault::AlreadyGrid => 95,
            Fault::SameFolder(..) => 96,
            Fault::OtherMark(_) => 97,
            Fault::BadMark(_) => 98,
            Fault::Output => 99,
            Fault::NoServers(_) => 100,
            Fault::UnknownGrid(_) => 101,
            Fault::NotEmpty(_) => 102,
            Fault::InUse(_) => 105,
        }
    }

    /// The exit status: 3 for refused input, 4 for an unhappy upload, 5 for too few shares and for
    /// a grid without a server, 6 for inconsistent ones, and 7 for memory, a file that fails or
    /// changes, a folder, a socket or a result that cannot be written, a grid's mark that is none,
    /// a folder or an address that is in use, for too many turns, and for a world that was stopped.
    pub fn status(&self) -> u8
        ensures { result ≡ fault_status self.now }
    {
        match self {
            Fault::BadParameters
            | Fault::Cap(_)
            | Fault::TooLarge
            | Fault::TooManySegments
            | Fault::BadRange
            | Fault::BadEvent
            | Fault::BadScript(_)
            | Fault::NeedsReadCap
            | Fault::AlreadyGrid
            | Fault::SameFolder(..)
            | Fault::OtherMark(_)
            | Fault::UnknownGrid(_)
            | Fault::NotEmpty(_) => 3,
            Fault::Unhappy { .. } => 4,
            Fault::NotEnoughShares | Fault::NoServers(_) => 5,
            Fault::Inconsistent => 6,
            Fault::OutOfMemory
            | Fault::SourceChanged
            | Fault::SourceFault
            | Fault::Stopped
            | Fault::File(..)
            | Fault::Socket(_)
            | Fault::TurnLimit
            | Fault::BadMark(_)
            | Fault::Output
            | Fault::InUse(_) => 7,
        }
    }

    /// The fault of the file or folder of this path, on which a call failed: one of memory where
    /// the call found none.
    pub fn of_path(path: String, error: io::Error) -> Fault
        ensures memory { error_kind error ≡ ErrorKind.OutOfMemory → result ≡ Fault.OutOfMemory }
        ensures path { error_kind error ≢ ErrorKind.OutOfMemory
            → result ≡ Fault.File path error }
    {
        if is_memory(&error) {
            return Fault::OutOfMemory;
        }
        Fault::File(path, error)
    }
}

/// Whether a call on a file failed for want of memory.
pub fn is_memory(error: &io::Error) -> bool
    ensures { IsTrue result ↔ (error_kind error.now ≡ ErrorKind.OutOfMemory) }
{
    error.kind() == ErrorKind::OutOfMemory
}

impl From<CapError> for Fault {
    ghost from_gives = { λ error fault. fault ≡ fault_of_cap error };

    fn from(error: CapError) -> Fault {
        match error {
            CapError::OutOfMemory => Fault::OutOfMemory,
            _ => Fault::Cap(error),
        }
    }
}

impl From<AllocError> for Fault {
    ghost use Rattle.grid_faults.specs.declared.fault.Fault.TheVariants.{OutOfMemory};

    ghost from_gives = { λ _ fault. fault ≡ OutOfMemory };

    fn from(_error: AllocError) -> Fault {
        Fault::OutOfMemory
    }
}

impl<T: Drop> From<AllocFailed<T>> for Fault {
    ghost use Rattle.grid_faults.specs.declared.fault.Fault.TheVariants.{OutOfMemory};

    ghost from_gives = { λ _ fault. fault ≡ OutOfMemory };

    fn from(_error: AllocFailed<T>) -> Fault {
        Fault::OutOfMemory
    }
}
