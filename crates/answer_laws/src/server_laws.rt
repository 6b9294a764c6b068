//! Laws of what a server over a store that keeps tells.

ghost use Rattle.answer_laws.specs.Servers.Again.{ToldIsToldAgain};
ghost use Rattle.answer_laws.specs.Servers.Telling.{AsksListAll, ReadsBringClosed};

/// A law of the definitions: an answer to an `Ask` lists every share that is closed under the
/// storage index. The law is the contract; the call does nothing.
pub fn asks_list_all()
    ensures { AsksListAll }
{}

/// A law of the definitions: a read of a closed share is answered by its bytes at the position
/// asked, as many as asked for, and fewer at its end. The law is the contract; the call does
/// nothing.
pub fn reads_bring_closed()
    ensures { ReadsBringClosed }
{}

/// A law of the definitions: a share that a sound server once told closed with a digest is closed
/// so in each later state, each later answer to an `Ask` lists it with that digest, and each later
/// read of it is answered by its bytes. The law is the contract; the call does nothing.
pub fn told_is_told_again()
    ensures { ToldIsToldAgain }
{}
