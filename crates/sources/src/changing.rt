//! A source whose bytes change while it is read.

ghost use Rattle.std.specs.Prelude.{◌≡◌, ◌<◌, ◌+◌, ◌-◌, ◌≤◌, length, take, drop};
ghost use Rattle.sources.specs.Source.{IsFrom};
ghost use Rattle.sources.specs.Texts.{GivesChanging};

use crate::error::SourceFault;
use crate::slice::copy_from;
use crate::source::Source;
use std::marker::Model;

/// Two texts of one length. The first `left` bytes that it hands out, counted over all reads, come
/// from `file`, later ones from `other`, each at its own offset.
#[derive(Drop)]
pub struct ChangingSource {
    file: Vec<u8>,
    other: Vec<u8>,
    left: u64,
}

impl Model for ChangingSource {
    ghost use Rattle.std.specs.Prelude.{◌≡◌, length};
    ghost use Rattle.sources.specs.Texts.{Changing};

    ghost Value = { Changing };

    ghost view = { λ s. record {
      file = s.file.items;
      other = s.other.items;
      left = s.left;
    } };

    ghost invariant = { λ s. length s.other.items ≡ length s.file.items };
}

impl ChangingSource {
    /// Takes two texts of one length over.
    pub fn new(file: Vec<u8>, other: Vec<u8>, after: u64) -> ChangingSource
        requires { length other.items ≡ length file.items }
        ensures { result ≡ record { file = file.items; other = other.items; left = after } }
    {
        ChangingSource {
            file,
            other,
            left: after,
        }
    }
}

impl Source for ChangingSource {
    ghost size = { λ s. length s.file };

    ghost failures = { λ s. 0 };

    ghost gives = { GivesChanging };

    fn len(&self) -> u64 {
        self.file.len() as u64
    }

    fn read_at(&mut self, offset: u64, out: &mut [u8]) -> Result<usize, SourceFault> {
        if self.left == 0 {
            return Ok(copy_from(&self.other, offset, out));
        }
        let room = out.len().min(self.left as usize);
        let count = copy_from(&self.file, offset, &mut out[..room]);
        self.left -= count as u64;
        Ok(count)
    }

    fn failures(&self) -> u64 {
        0
    }
}
