//! Why a fault came, in a line of its own.

ghost use Rattle.std.specs.Prelude.{◌≡◌, is_some, IfOk};
ghost use Rattle.grid_faults.specs.Fault.{has_reason};

use crate::fault::Fault;
use std::alloc::{AllocError, Global};

/// The line that tells why a fault came, with its end: of a file, a folder or a socket the system's
/// reason, and of too many segments the way out. `None` for a fault that says all by itself.
pub fn reason_line(alloc: Global, fault: &Fault) -> Result<Option<String>, AllocError>
    ensures { IfOk result (λ line. is_some line ≡ has_reason fault.now) }
{
    match fault {
        Fault::File(path, error) => Ok(Some(format!(in alloc; "{path}: {error}\n")?)),
        Fault::Socket(error) => Ok(Some(format!(in alloc; "127.0.0.1: {error}\n")?)),
        Fault::TooManySegments => Ok(Some(String::from_str(alloc, GREATER_SEGMENTS)?)),
        _ => Ok(None),
    }
}

// What helps against too many segments: of 1,048,576 bytes each, a file of 2^40 has no more.
const GREATER_SEGMENTS: &str = "the file has fewer segments with --segment 1048576\n";
