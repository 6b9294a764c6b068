//! A share that is judged as it is read.

ghost use Rattle.std.specs.Prelude.{◌≡◌, [], IfOk, List, None, OnOk, ℕ};
ghost use Rattle.cap_text.specs.Cap.{VerifyCapValue};
ghost use Rattle.share_reading.specs.OpeningReads.{Brought};
ghost use Rattle.share_reading.specs.declared.opening.Opening.TheVariants as openings;
ghost use Rattle.share_reading.specs.Judged.{Comes, GoesOn, IsAtEnd, IsJudgedBy, IsJudgedOn};
ghost use Rattle.share_reading.specs.Judged.{IsUnderway, IsVerdictOn};
ghost use Rattle.share_reading.specs.Reads.{IsReadBy};

use crate::reading::{Progress, ShareReading};
use crate::verdict::{Verdict, verdict_of};
use cap_text::VerifyCap;
use share_verify::{Check, Judging};
use std::alloc::{AllocError, Global};

/// What is judged of a share that is read so far.
///
/// It keeps nothing of the share's beginning, and of the bytes behind it what `Judging` keeps.
#[derive(Drop)]
pub struct Judged {
    alloc: Global,
    /// `None` before the beginning is read.
    judging: Option<Judging>,
}

/// What comes of the bytes that a read brought.
#[derive(Clone, Copy, PartialEq, Eq)]
pub enum Found {
    /// More is to be read.
    Next(ShareReading),
    /// All bytes of the share are read, and this is the verdict on them.
    Whole(Verdict),
    /// The share is not read on: it fails this check first.
    Stopped(Check),
}

impl Judged {
    /// Nothing is judged of a share of which nothing was read. Takes no memory.
    pub fn begin(alloc: Global) -> Judged
        ensures { (cap : VerifyCapValue)
            → IsJudgedBy cap [] [] (ShareReading.Beginning openings.Start) result }
    {
        Judged {
            alloc,
            judging: None,
        }
    }

    /// What comes of the bytes that the read of the reading's `next_length` bytes from its
    /// `next_place` on brought, as `Reading::take` tells it; and the verdict on the share as share
    /// `num` of the cap's file once all of it is read: `Good`, or `Corrupt` with the check of the
    /// first fault that `share_verify::verify_share` tells. The bytes are let go.
    pub fn take(
        &mut self,
        cap: &VerifyCap,
        num: u16,
        reading: &ShareReading,
        bytes: &[u8],
    ) -> Result<Found, AllocError>
        requires underway { IsUnderway cap.now reading.now self.old }
        ensures comes { IfOk result (Comes cap.now reading.now bytes.now) }
        ensures judged { (front back : List Brought) → IsReadBy cap.now front back reading.now
            → IsJudgedBy cap.now front back reading.now self.old
            → IfOk result (λ found. IsJudgedOn cap.now num front back reading.now bytes.now found
            self.new) }
    {
        match reading.take(cap, bytes) {
            Ok(Progress::Next(next)) => {
                self.go_on(&next, bytes)?;
                Ok(Found::Next(next))
            }
            Ok(Progress::Whole) => Ok(Found::Whole(self.judge(num, bytes)?)),
            Err(check) => Ok(Found::Stopped(check)),
        }
    }

    // Takes the bytes that led to this reading.
    fn go_on(&mut self, next: &ShareReading, bytes: &[u8]) -> Result<(), AllocError>
        ensures { OnOk result (GoesOn self.old.judging next.now bytes.now self.new.judging) }
    {
        let ShareReading::Remaining(rest) = next else {
            return Ok(());
        };
        match &mut self.judging {
            Some(judging) => judging.take(bytes),
            None => {
                self.judging = Some(Judging::begin(self.alloc, &rest.ueb));
                Ok(())
            }
        }
    }

    // The verdict on the share that ends with these bytes before its extension block.
    fn judge(&mut self, num: u16, bytes: &[u8]) -> Result<Verdict, AllocError>
        requires { IsAtEnd self.old bytes.now }
        ensures { IfOk result (λ verdict. (cap : VerifyCapValue) → IsVerdictOn cap num self.old
            bytes.now verdict) }
    {
        let Some(judging) = &mut self.judging else {
            unreachable!();
        };
        judging.take(bytes)?;
        Ok(verdict_of(judging.verdict(num)))
    }
}
