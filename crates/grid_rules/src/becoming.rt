//! Which fault an error of a crate below becomes, where that is no error of a cap or of an
//! allocation.

ghost use Rattle.std.specs.Prelude.{◌≡◌};
ghost use Rattle.grid_rules.specs.Becoming.{fault_of_download, fault_of_encoding, fault_of_loop};
ghost use Rattle.grid_rules.specs.Becoming.{fault_of_piece, fault_of_preparing, fault_of_remaking};
ghost use Rattle.grid_rules.specs.KeptNumbers.{NumbersAreKept};

use download_core::status::DownloadError;
use file_encoding::EncodeError;
use file_streaming::{PrepareError, RemakeError};
use grid_faults::Fault;
use local_grid::error::LoopError;
use upload_core::pieces::PieceFault;

/// The law that an error of a crate below keeps its number where it becomes a fault. It does
/// nothing.
pub fn numbers_are_kept()
    ensures { NumbersAreKept }
{}

/// The fault that a fault of a share's pieces becomes.
pub fn fault_of_piece(error: PieceFault) -> Fault
    ensures { result ≡ fault_of_piece error }
{
    match error {
        PieceFault::OutOfMemory => Fault::OutOfMemory,
        PieceFault::SourceChanged => Fault::SourceChanged,
        PieceFault::SourceFault => Fault::SourceFault,
    }
}

/// The fault that an error of encoding becomes.
pub fn fault_of_encoding(error: EncodeError) -> Fault
    ensures { result ≡ fault_of_encoding error }
{
    match error {
        EncodeError::OutOfMemory => Fault::OutOfMemory,
        EncodeError::BadParameters => Fault::BadParameters,
        EncodeError::TooLarge => Fault::TooLarge,
        EncodeError::TooManySegments => Fault::TooManySegments,
    }
}

/// The fault that the refusal of a file that is read twice becomes.
pub fn fault_of_preparing(error: PrepareError) -> Fault
    ensures { result ≡ fault_of_preparing error }
{
    match error {
        PrepareError::OutOfMemory => Fault::OutOfMemory,
        PrepareError::TooLarge => Fault::TooLarge,
        PrepareError::TooManySegments => Fault::TooManySegments,
        PrepareError::SourceChanged => Fault::SourceChanged,
        PrepareError::SourceFault => Fault::SourceFault,
    }
}

/// The fault that the refusal to make shares anew becomes.
pub fn fault_of_remaking(error: RemakeError) -> Fault
    ensures { result ≡ fault_of_remaking error }
{
    match error {
        RemakeError::OutOfMemory => Fault::OutOfMemory,
        RemakeError::Inconsistent => Fault::Inconsistent,
        RemakeError::SourceChanged => Fault::SourceChanged,
        RemakeError::SourceFault => Fault::SourceFault,
    }
}

/// The fault that the refusal of a download's start becomes.
pub fn fault_of_download(error: DownloadError) -> Fault
    ensures { result ≡ fault_of_download error }
{
    match error {
        DownloadError::OutOfMemory => Fault::OutOfMemory,
        DownloadError::BadRange => Fault::BadRange,
    }
}

/// The fault that the loop's refusal becomes.
pub fn fault_of_loop(error: LoopError) -> Fault
    ensures { result ≡ fault_of_loop error }
{
    match error {
        LoopError::OutOfMemory => Fault::OutOfMemory,
        LoopError::TurnLimit => Fault::TurnLimit,
    }
}
