//! What a user chooses for an upload.

ghost use Rattle.std.specs.Prelude.{◌≡◌, ◌↔◌, Err};
ghost use Rattle.file_encoding.specs.Params.{AreChosen};

use crate::error::EncodeError;
use std::marker::Model;
use ueb::MAX_SHARES;

/// The greatest convergence secret, in bytes. It may be empty.
pub const MAX_SECRET_SIZE: usize = 64;

/// The greatest segment that a user may choose, in bytes.
pub const MAX_CHOSEN_SEGMENT_SIZE: u32 = 1 << 20;

/// How a file is encoded and placed: how many shares are needed, on how many servers they have to
/// be, how many there are in all, and the greatest length of a segment in bytes.
///
/// Its ranges are `1 <= needed <= total <= 256`, `1 <= happy <= total`, and segments of 1 to 2^20
/// bytes.
#[derive(Clone, Copy, Debug, PartialEq, Eq)]
pub struct Params {
    needed: u16,
    happy: u16,
    total: u16,
    max_segment: u32,
}

impl Model for Params {
    ghost use Rattle.file_encoding.specs.Params.{AreChosen, UploadParameters};

    ghost Value = { UploadParameters };

    ghost view = { λ p. record {
      needed = p.needed;
      happy = p.happy;
      total = p.total;
      max_segment = p.max_segment;
    } };

    ghost invariant = { λ p. AreChosen p.needed p.happy p.total p.max_segment };

    ghost inverse = { λ p. record {
      needed = p.needed;
      happy = p.happy;
      total = p.total;
      max_segment = p.max_segment;
    } };
}

impl Params {
    ghost use Rattle.std.specs.Result.{OkIff};

    /// These parameters, or `BadParameters` where one is outside its range.
    pub fn new(needed: u64, happy: u64, total: u64, max_segment: u64) -> Result<Params, EncodeError>
        ensures value { OkIff result (AreChosen needed happy total max_segment)
            (record { needed = needed; happy = happy; total = total; max_segment = max_segment }) }
        ensures refused { (result ≡ Err EncodeError.BadParameters)
            ↔ ¬ AreChosen needed happy total max_segment }
    {
        let shares = 1 <= needed && needed <= total && total <= u64::from(MAX_SHARES);
        let servers = 1 <= happy && happy <= total;
        let segment = 1 <= max_segment && max_segment <= u64::from(MAX_CHOSEN_SEGMENT_SIZE);
        if !(shares && servers && segment) {
            return Err(EncodeError::BadParameters);
        }
        Ok(Params {
            needed: needed as u16,
            happy: happy as u16,
            total: total as u16,
            max_segment: max_segment as u32,
        })
    }

    /// How many shares give the file back.
    pub fn needed(&self) -> u16
        ensures value { result ≡ self.now.needed }
        ensures chosen { AreChosen self.now.needed self.now.happy self.now.total
            self.now.max_segment }
    {
        self.needed
    }

    /// On how many servers, each with a share of its own, the file has to be.
    pub fn happy(&self) -> u16
        ensures value { result ≡ self.now.happy }
        ensures chosen { AreChosen self.now.needed self.now.happy self.now.total
            self.now.max_segment }
    {
        self.happy
    }

    /// How many shares there are in all.
    pub fn total(&self) -> u16
        ensures value { result ≡ self.now.total }
        ensures chosen { AreChosen self.now.needed self.now.happy self.now.total
            self.now.max_segment }
    {
        self.total
    }

    /// The greatest length of a segment, in bytes, before it is rounded up to a multiple of the
    /// shares needed.
    pub fn max_segment(&self) -> u32
        ensures value { result ≡ self.now.max_segment }
        ensures chosen { AreChosen self.now.needed self.now.happy self.now.total
            self.now.max_segment }
    {
        self.max_segment
    }
}
