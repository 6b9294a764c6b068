//! Laws of files that are read.

ghost use Rattle.download_core.specs.Laws.{BlocksAreAnswered, SendingStays};

/// A law of the definitions: what is read does not depend on which requests are still to be sent.
/// The law is the contract; the call does nothing.
pub fn sending_stays()
    ensures { SendingStays }
{}

/// A law of the definitions: where a share is blamed for a block, all that the reader of the block
/// holds is what the blamed server answered of the blamed share. The law is the contract; the call
/// does nothing.
pub fn blocks_are_answered()
    ensures { BlocksAreAnswered }
{}
