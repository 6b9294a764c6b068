//! Laws of what downloads and checks find of shares that servers tell as they are.

ghost use Rattle.answer_laws.specs.Enough.Checks.{ToldSharesAreGood};
ghost use Rattle.answer_laws.specs.Enough.Downloads.{EnoughAreFound};
ghost use Rattle.answer_laws.specs.Enough.Servers.{ServersTellAll};

/// A law of the definitions: each answer of a sound server tells what is so: it lists all shares
/// that are closed under the storage index, or has the bytes of a closed share. The law is the
/// contract; the call does nothing.
pub fn servers_tell_all()
    ensures { ServersTellAll }
{}

/// A law of the definitions: where servers tell as many different shares as are needed, a download
/// gives up only if one of its requests to one of these servers was lost, or two hash inputs clash.
/// The law is the contract; the call does nothing.
pub fn enough_are_found()
    ensures { EnoughAreFound }
{}

/// A law of the definitions: the report of a check calls a share that its server tells `Good`,
/// unless one of the requests to that server was lost. No hash is compared for it. The law is the
/// contract; the call does nothing.
pub fn told_shares_are_good()
    ensures { ToldSharesAreGood }
{}
