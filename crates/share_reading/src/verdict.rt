//! The verdict on a share.

ghost use Rattle.std.specs.Prelude.{◌≡◌, MatchResult};
ghost use Rattle.share_verify.specs.Checks.{check_of};
ghost use Rattle.share_reading.specs.declared.verdict.Verdict.TheVariants.{Corrupt, Good};

use share_verify::{Check, ShareFault};

/// What is found of a share at a server.
#[derive(Clone, Copy, PartialEq, Eq)]
pub enum Verdict {
    /// It is the share of its number of the cap's file.
    Good,
    /// It fails this check first.
    Corrupt(Check),
    /// A read of it was lost, or the server answered that there is no such share.
    Lost,
}

/// The verdict by what `share_verify` says of a whole share.
pub(crate) fn verdict_of(told: Result<(), ShareFault>) -> Verdict
    ensures { MatchResult told (λ _. result ≡ Good) (λ fault. result ≡ Corrupt (check_of fault)) }
{
    match told {
        Ok(()) => Verdict::Good,
        Err(fault) => Verdict::Corrupt(fault.check()),
    }
}
