//! Laws of the reads by which a share is read. Each law is a contract; its call does nothing.

ghost use Rattle.share_reading.specs.Reads.{Ask, End, GoOn, Stop};
ghost use Rattle.share_reading.specs.Verdict.{AreExclusive};
ghost use Rattle.share_reading.specs.Whole.{AreOne};

/// Where reads led to a reading, the next read is one of the share's beginning or of its rest, and
/// asks for no byte that was read.
pub fn readings_ask()
    ensures { Ask }
{}

/// With the bytes that the next read brought, the reads lead to the reading that goes on.
pub fn readings_go_on()
    ensures { GoOn }
{}

/// Where a share is read whole, the bytes that were read are those of one share, joined by offset.
pub fn readings_end()
    ensures { End }
{}

/// Where a reading stops, no share that has what was read passes the check.
pub fn readings_stop()
    ensures { Stop }
{}

/// Two shares that were read whole by the same reads are one.
pub fn whole_shares_are_one()
    ensures { AreOne }
{}

/// A share has at most one kind of verdict, and one that was read to its end fails one check first.
/// Where no two of its reads begin at one offset, it has one verdict; so where its reading stopped,
/// it fails the check of the first fault of its beginning, and no other.
pub fn verdicts_are_exclusive()
    ensures { AreExclusive }
{}
