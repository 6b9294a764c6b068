//! Laws of the reads that an opening makes.

ghost use Rattle.share_reading.specs.Blame.{RefusedSharesFail};
ghost use Rattle.share_reading.specs.OpeningReads.{LeadOn, Rise};

/// A law of the definitions: with the bytes that its next read brought, the reads of an opening
/// lead to the opening that it goes on to. The law is the contract; the call does nothing.
pub fn reads_lead_on()
    ensures { LeadOn }
{}

/// A law of the definitions: each read of an opening begins where what was read before it ends, or
/// behind that. The law is the contract; the call does nothing.
pub fn reads_rise()
    ensures { Rise }
{}

/// A law of the definitions: where a share is given up at its beginning, no share that has the
/// bytes that were read passes the check of the refusal. The law is the contract; the call does
/// nothing.
pub fn refused_shares_fail()
    ensures { RefusedSharesFail }
{}
