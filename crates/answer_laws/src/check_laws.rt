//! Laws of what a check finds of a share that a server tells as it is.

ghost use Rattle.answer_laws.specs.Checks.Reads.{OwnReadsAreGood};
ghost use Rattle.answer_laws.specs.Checks.Reports.{OwnAnswersAreGood};

/// A law of the definitions: the verdict on a share that passes, by reads that brought its own
/// bytes, is `Good`, or `Lost` where a read was lost. The law is the contract; the call does
/// nothing.
pub fn own_reads_are_good()
    ensures { OwnReadsAreGood }
{}

/// A law of the definitions: what a report tells of a share that passes is `Good` where its server
/// answered with its own bytes alone and no read was lost, and `Corrupt` only where the server
/// answered with other bytes. The law is the contract; the call does nothing.
pub fn own_answers_are_good()
    ensures { OwnAnswersAreGood }
{}
