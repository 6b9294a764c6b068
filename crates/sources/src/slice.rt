//! Bytes in memory as a source.

ghost use Rattle.std.specs.Prelude.{◌≡◌, ◌<◌, ◌+◌, ◌≤◌, length, take, drop};
ghost use Rattle.sources.specs.Source.{IsFrom};
ghost use Rattle.sources.specs.Texts.{GivesText};

use crate::error::SourceFault;
use crate::source::Source;
use std::marker::Model;

/// A slice, which always brings the same bytes and never fails.
#[derive(Drop)]
pub struct SliceSource<'a> {
    bytes: &'a [u8],
}

impl<'a> Model for SliceSource<'a> {
    ghost use Rattle.std.specs.Prelude.{ℕ, List};

    ghost Value = { List ℕ };

    ghost view = { λ s. s.bytes.now };
}

impl<'a> SliceSource<'a> {
    /// The source of these bytes.
    pub fn new(bytes: &'a [u8]) -> SliceSource<'a>
        ensures { result ≡ bytes.now }
    {
        SliceSource { bytes }
    }
}

impl<'a> Source for SliceSource<'a> {
    ghost size = { λ s. length s };

    ghost failures = { λ s. 0 };

    ghost gives = { GivesText };

    fn len(&self) -> u64 {
        self.bytes.len() as u64
    }

    fn read_at(&mut self, offset: u64, out: &mut [u8]) -> Result<usize, SourceFault> {
        Ok(copy_from(self.bytes, offset, out))
    }

    fn failures(&self) -> u64 {
        0
    }
}

/// Copies as many bytes of a text from an offset on as there are and as `out` has room for, and
/// says how many.
pub(crate) fn copy_from(text: &[u8], offset: u64, out: &mut [u8]) -> usize
    ensures few { result ≤ length out.old }
    ensures from { 0 < length out.old → IsFrom text.now offset (take result out.new) }
{
    let start = text.len().min(offset as usize);
    let count = out.len().min(text.len() - start);
    out[..count].copy_from_slice(&text[start..start + count]);
    count
}
