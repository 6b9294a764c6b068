//! Whether bytes that are read have a share's digest.

ghost use Rattle.std.specs.Prelude.{◌≡◌, ◌≢◌, ◌<◌, length, IfErr, IfOk, IfSome, OnOk, Option, List};
ghost use Rattle.std.specs.Prelude.{ℕ};
ghost use Rattle.std.specs.IoError.{error_kind};
ghost use Rattle.std.specs.declared.io.ErrorKind.TheVariants.{Interrupted};
ghost use Rattle.std.specs.Io.KnownBytes.{IsAtEnd};
ghost use Rattle.share_files.specs.Verdict.{IsVerdict};
ghost use Rattle.share_files.specs.Reading.{HasRead};

use std::io;
use std::io::{ErrorKind, Read};
use tagged_hash::{Tag, TaggedHasher};
use wire::message::Digest;

/// What the bytes of a share are to the digest that it was closed with.
#[derive(Clone, Copy, Debug, PartialEq, Eq)]
pub enum Verdict {
    /// They have it.
    Whole,
    /// They have another.
    Damaged,
}

/// What is told how many bytes are read.
pub trait Watch {
    /// So many bytes more were read.
    fn on_read(&mut self, bytes: u64);
}

/// Reads to the end, and says whether the bytes have this digest. The buffer, which has room for a
/// byte at least, holds the bytes of one read.
///
/// An error is one of the reader. A read that was interrupted is made again.
pub fn check_bytes<R: Read, W: Watch>(
    reader: &mut R,
    digest: &Digest,
    buffer: &mut [u8],
    watch: &mut W,
) -> io::Result<Verdict>
    requires { 0 < length buffer.old }
    ensures verdict { IfOk result (λ verdict. IfSome (R.remaining reader.old)
        (λ bytes. IsVerdict verdict digest.now bytes)) }
    ensures end { OnOk result (IsAtEnd (R.remaining reader.new)) }
    ensures retried { IfErr result (λ e. error_kind e ≢ Interrupted) }
{
    let mut hasher = TaggedHasher::new(Tag::WholeShare);
    for _ in 0..u64::MAX {
        match read_piece(reader, &mut hasher, buffer) {
            Ok(0) => return Ok(verdict_of(hasher, digest)),
            Ok(count) => watch.on_read(count as u64),
            Err(error) if error.kind() == ErrorKind::Interrupted => {}
            Err(error) => return Err(error),
        }
    }
    Err(io::Error::from(ErrorKind::FileTooLarge))
}

// Reads bytes, and hashes them.
fn read_piece<R: Read>(
    reader: &mut R,
    hasher: &mut TaggedHasher,
    buffer: &mut [u8],
) -> io::Result<usize>
    requires { 0 < length buffer.old }
    ensures read { (all : Option (List ℕ)) → HasRead all (R.remaining reader.old) hasher.old
        → HasRead all (R.remaining reader.new) hasher.new }
    ensures end { IfOk result (λ count. count ≡ 0 → IsAtEnd (R.remaining reader.new)) }
    ensures room { length buffer.new ≡ length buffer.old }
{
    let count = reader.read(buffer)?;
    hasher.update(&buffer[..count]);
    Ok(count)
}

// Whether what a hasher was given has this digest.
fn verdict_of(hasher: TaggedHasher, digest: &Digest) -> Verdict
    ensures { (all left : Option (List ℕ)) → HasRead all left hasher → IsAtEnd left
        → IfSome all (λ bytes. IsVerdict result digest.now bytes) }
{
    if hasher.finish() == *digest {
        Verdict::Whole
    } else {
        Verdict::Damaged
    }
}
