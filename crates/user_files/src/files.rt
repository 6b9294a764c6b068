//! Files and folders by their paths.

ghost use Rattle.std.specs.Prelude.{◌≡◌, ◌≤◌, length, Ok, Some, IfOk, IfErr, IfSome};

use crate::pieces::read_to_limit;
use grid_faults::{Fault, is_memory, told_path};
use std::alloc::Global;
use std::fs::{File, OpenFile};
use std::io;
use std::rt::Files;

/// The bytes of a file, where there are at most `limit`, and none where there are more. No more
/// than that and one byte is read, and memory is asked for once, by the file's length.
pub fn read_at_most<R: Files + AllocGlobal>(
    rt: &R,
    path: &str,
    limit: u64,
) -> io::Result<Option<Vec<u8>>>
    ensures { IfOk result (λ read. IfSome read (λ bytes. length bytes.items ≤ limit)) }
{
    let file = File::open(rt, path)?;
    let length = file.metadata()?.len();
    if length > limit {
        return Ok(None);
    }
    read_to_limit(rt.alloc(), file, length, limit)
}

/// The result of a call on a path, with a fault that names the path, as it is told.
pub fn at_path<T>(alloc: Global, outcome: io::Result<T>, path: &str) -> Result<T, Fault>
    ensures ok { IfOk outcome (λ value. result ≡ Ok value) }
    ensures taken { IfOk result (λ value. outcome ≡ Ok value) }
{
    match outcome {
        Ok(value) => Ok(value),
        Err(error) => Err(Fault::of_path(told_path(alloc, path)?, error)),
    }
}

/// The result of a call on what a server keeps, where a failed call counts as nothing found: a
/// server is not trusted to answer.
pub fn if_there<T: Drop>(outcome: io::Result<T>) -> Result<Option<T>, Fault>
    ensures there { IfOk outcome (λ value. result ≡ Ok (Some value)) }
    ensures taken { IfOk result (λ found. IfSome found (λ value. outcome ≡ Ok value)) }
    ensures memory { IfErr result (λ fault. fault ≡ Fault.OutOfMemory) }
{
    match outcome {
        Ok(value) => Ok(Some(value)),
        Err(error) if is_memory(&error) => Err(Fault::OutOfMemory),
        Err(_) => Ok(None),
    }
}
