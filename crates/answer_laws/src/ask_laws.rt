//! Laws of what downloads and checks ask of all their servers.

ghost use Rattle.answer_laws.specs.Asking.Checks.{ChecksAskAll};
ghost use Rattle.answer_laws.specs.Asking.Downloads.{DownloadsAskAll};

/// A law of the definitions: a download asks each of its servers which shares it holds, as it
/// begins, and that stays so with each call; one of an empty range asks nobody, and is done. The
/// law is the contract; the call does nothing.
pub fn downloads_ask_all()
    ensures { DownloadsAskAll }
{}

/// A law of the definitions: a check asks each of its servers which shares it holds, as it begins,
/// and that stays so with each call. The law is the contract; the call does nothing.
pub fn checks_ask_all()
    ensures { ChecksAskAll }
{}
