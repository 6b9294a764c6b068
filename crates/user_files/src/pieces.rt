//! Readers that are read in pieces: held up to a limit, compared, or copied.

ghost use Rattle.std.specs.Prelude.{◌≡◌, ◌≤◌, ◌<◌, ◌+◌, ◌-◌, ◌^◌, ◌↔◌, length, min, take, IfOk};
ghost use Rattle.std.specs.Prelude.{IfSome, IsTrue};
ghost use Rattle.std.specs.Io.KnownBytes.{Consumes, IsAtEnd};

use std::alloc::Global;
use std::io;
use std::io::{ErrorKind, Read};

/// How many bytes one read asks for at most, where a reader is read to its end and not held.
pub(crate) const PIECE_SIZE: usize = 64 << 10;

/// The bytes of a reader, where there are at most `limit`, and none where there are more. No more
/// than that and one byte is read. Memory is asked for once where so many are expected.
pub(crate) fn read_to_limit<F: Read + Drop>(
    alloc: Global,
    reader: F,
    expected: u64,
    limit: u64,
) -> io::Result<Option<Vec<u8>>>
    ensures few { IfOk result (λ read. IfSome read (λ bytes. length bytes.items ≤ limit)) }
    ensures all { limit < 2 ^ 64 - 1 → IfOk result (λ read. IfSome (F.remaining reader)
        (λ all. IfSome read (λ bytes. bytes.items ≡ all))) }
{
    let bytes = read_beginning(alloc, reader, expected, limit)?;
    if bytes.len() as u64 > limit {
        return Ok(None);
    }
    Ok(Some(bytes))
}

/// The first bytes of a reader: as many as there are, and at most one more than `limit`.
pub(crate) fn read_beginning<F: Read + Drop>(
    alloc: Global,
    reader: F,
    expected: u64,
    limit: u64,
) -> io::Result<Vec<u8>>
    ensures { IfOk result (λ bytes. IfSome (F.remaining reader)
        (λ all. bytes.items ≡ take (min (limit + 1) (2 ^ 64 - 1)) all)) }
{
    let room = expected.min(limit).saturating_add(2);
    let mut bytes = Vec::with_capacity(alloc, room as usize)?;
    reader
        .take(limit.saturating_add(1))
        .read_to_end(&mut bytes)?;
    Ok(bytes)
}

/// Whether a reader has these bytes and no more. It is read in pieces, up to the first difference.
pub(crate) fn has_bytes<F: Read>(
    reader: &mut F,
    bytes: &[u8],
    buffer: &mut [u8],
) -> io::Result<bool>
    requires { 0 < length buffer.old }
    ensures same { IfOk result (λ same. IfSome (F.remaining reader.old)
        (λ all. IsTrue same ↔ (all ≡ bytes.now))) }
{
    let mut left = bytes;
    for _ in 0..u64::MAX {
        let count = read_some(reader, buffer)?;
        if count == 0 {
            return Ok(left.is_empty());
        }
        match left.strip_prefix(&buffer[..count]) {
            Some(rest) => left = rest,
            None => return Ok(false),
        }
    }
    Err(io::Error::from(ErrorKind::FileTooLarge))
}

/// Reads some bytes. A read that was interrupted is made again.
pub(crate) fn read_some<F: Read>(reader: &mut F, buffer: &mut [u8]) -> io::Result<usize>
    requires { 0 < length buffer.old }
    ensures few { IfOk result (λ count. count ≤ length buffer.old) }
    ensures read { IfOk result (λ count. Consumes (F.remaining reader.old)
        (F.remaining reader.new) (take count buffer.new)) }
    ensures end { IfOk result (λ count. count ≡ 0 → IsAtEnd (F.remaining reader.new)) }
    ensures room { length buffer.new ≡ length buffer.old }
{
    for _ in 0..u64::MAX {
        match reader.read(buffer) {
            Err(error) if error.kind() == ErrorKind::Interrupted => {}
            outcome => return outcome,
        }
    }
    Err(io::Error::from(ErrorKind::Interrupted))
}
