//! Laws of what a read brings.

ghost use Rattle.answer_laws.specs.Downloads.Answers.{OwnBeginningsGoOn, OwnOrOther};
ghost use Rattle.answer_laws.specs.Downloads.Downloads.{DownloadsBlameFairly, EncodedSharesServe};
ghost use Rattle.answer_laws.specs.Downloads.FairBlame.{BlocksAreBlamedFairly};
ghost use Rattle.answer_laws.specs.Downloads.FairBlame.{PartsAreBlamedFairly};
ghost use Rattle.answer_laws.specs.Downloads.OwnParts.{OwnPartsHaveLengths, OwnPiecesGoOn};
ghost use Rattle.answer_laws.specs.Downloads.OwnParts.{OwnPiecesJoin};
ghost use Rattle.answer_laws.specs.Downloads.OwnReaders.{OwnBlocksAreRight, OwnBytesAreTaken};
ghost use Rattle.answer_laws.specs.Downloads.Siblings.{PiecesHaveSiblings, ShareHashesHaveSiblings};

/// A law of the definitions: each node that the bytes of a piece of a tree offer comes with its
/// sibling, where what is above the piece is known. The law is the contract; the call does nothing.
pub fn pieces_have_siblings()
    ensures { PiecesHaveSiblings }
{}

/// A law of the definitions: each node that share hashes offer to the share tree comes with its
/// sibling, whatever is known. The law is the contract; the call does nothing.
pub fn share_hashes_have_siblings()
    ensures { ShareHashesHaveSiblings }
{}

/// A law of the definitions: a share that passes has as many bytes of each part of a plan as are
/// asked. The law is the contract; the call does nothing.
pub fn own_parts_have_lengths()
    ensures { OwnPartsHaveLengths }
{}

/// A law of the definitions: a share's own bytes of a piece of a tree offer nodes of its tree, and
/// are not refused where what is known are nodes of that tree, and what proves the piece is known.
/// The law is the contract; the call does nothing.
pub fn own_pieces_go_on()
    ensures { OwnPiecesGoOn }
{}

/// A law of the definitions: a share's own pieces of the data join to its own block. The law is the
/// contract; the call does nothing.
pub fn own_pieces_join()
    ensures { OwnPiecesJoin }
{}

/// A law of the definitions: each answer of a server to a read of a share has the share's own
/// bytes, or one of them has others. The law is the contract; the call does nothing.
pub fn own_or_other()
    ensures { OwnOrOther }
{}

/// A law of the definitions: a share that passes is not blamed for its beginning where its server
/// answered with its own bytes alone. The law is the contract; the call does nothing.
pub fn own_beginnings_go_on()
    ensures { OwnBeginningsGoOn }
{}

/// A law of the definitions: a share's own bytes of the first part that waits of a reader are not
/// refused where all that is known are nodes of its trees. The law is the contract; the call does
/// nothing.
pub fn own_bytes_are_taken()
    ensures { OwnBytesAreTaken }
{}

/// A law of the definitions: a block of a share's own bytes is not refuted where all that is known
/// are nodes of its block tree. The law is the contract; the call does nothing.
pub fn own_blocks_are_right()
    ensures { OwnBlocksAreRight }
{}

/// A law of the definitions: without a clash, who is blamed for a part had sent other bytes than
/// the share has. The law is the contract; the call does nothing.
pub fn parts_are_blamed_fairly()
    ensures { PartsAreBlamedFairly }
{}

/// A law of the definitions: without a clash, who is blamed for a block had sent other bytes than
/// the share has. The law is the contract; the call does nothing.
pub fn blocks_are_blamed_fairly()
    ensures { BlocksAreBlamedFairly }
{}

/// A law of the definitions: without a clash, who is blamed by a download had sent other bytes than
/// the share has, for whatever check the share is blamed. The law is the contract; the call does
/// nothing.
pub fn downloads_blame_fairly()
    ensures { DownloadsBlameFairly }
{}

/// A law of the definitions: the shares of a ciphertext's encoding have nodes of the trees with the
/// roots that its extension block tells, and what is hashed for these is hashed for the encoding.
/// The law is the contract; the call does nothing.
pub fn encoded_shares_serve()
    ensures { EncodedSharesServe }
{}
