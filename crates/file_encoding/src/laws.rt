//! Laws of the definitions. Each law is a contract; the calls do nothing.

ghost use Rattle.file_encoding.specs.Binding.{CiphertextSharesAreBound, FileSharesAreBound};
ghost use Rattle.file_encoding.specs.Binding.{OwnSharesAreWithin};
ghost use Rattle.file_encoding.specs.Laws.{AcceptedSharesPass, CiphertextSharesPass};
ghost use Rattle.file_encoding.specs.Laws.{FileSharesPass, SharesAreNotLong, SharesHaveOneLength};
ghost use Rattle.file_encoding.specs.OwnFile.{OwnSharesGiveTheFile};
ghost use Rattle.file_encoding.specs.Parts.{EncodingHasParts, FileHasParts, FilesAreOfTheirCaps};
ghost use Rattle.file_encoding.specs.Parts.{OwnEvidenceIsWithin, OwnTreesAreWithin};
ghost use Rattle.file_encoding.specs.RemadeLaws.{EnoughPass, FewLack, GoodSharesGiveOwn};
ghost use Rattle.file_encoding.specs.RemadeLaws.{RegeneratedPass};

/// A law: each share of a ciphertext's encoding passes `verify_share` with the encoding's verify
/// cap and its own number.
pub fn ciphertext_shares_pass()
    ensures { CiphertextSharesPass }
{}

/// A law: each share of a file's encoding passes `verify_share` with the encoding's verify cap and
/// its own number, whatever the secret.
pub fn file_shares_pass()
    ensures { FileSharesPass }
{}

/// A law: as many shares of a file's encoding as are needed, with different numbers, give the file
/// back, whichever they are and whatever the secret: `read_from` finds enough of them, they do not
/// contradict one another, and what it reads is the file.
pub fn own_shares_give_the_file()
    ensures { OwnSharesGiveTheFile }
{}

/// A law: the cap of a ciphertext's encoding proves each of its segments, by the encoding's
/// extension block and the segment's path in the ciphertext tree.
pub fn encoding_has_parts()
    ensures { EncodingHasParts }
{}

/// A law: the cap of a file's encoding proves each segment of its ciphertext so, whatever the
/// secret.
pub fn file_has_parts()
    ensures { FileHasParts }
{}

/// A law: a share made of a ciphertext and an extension block that a cap accepts passes
/// `verify_share` with that cap and its own number, where the block tells the roots that are
/// computed from the ciphertext, whoever wrote it.
pub fn accepted_shares_pass()
    ensures { AcceptedSharesPass }
{}

/// A law: all shares of a file's encoding have one length.
pub fn shares_have_one_length()
    ensures { SharesHaveOneLength }
{}

/// A law: each share of a file's encoding has some bytes, and no more than a server takes.
pub fn shares_are_not_long()
    ensures { SharesAreNotLong }
{}

/// A law: what evidence of a file's own segments hashes is hashed for the file's encoding.
pub fn own_evidence_is_within()
    ensures { OwnEvidenceIsWithin }
{}

/// A law: a file is the one of its encoding's cap, by the encoding's extension block, whatever the
/// secret.
pub fn files_are_of_their_caps()
    ensures { FilesAreOfTheirCaps }
{}

/// A law: what a file's extension block, its segments and their tree hash is hashed for the file's
/// encoding.
pub fn own_trees_are_within()
    ensures { OwnTreesAreWithin }
{}

/// A law: without a clash a share that passes `verify_share` with the verify cap of a ciphertext's
/// encoding is the encoding's share of that number.
pub fn ciphertext_shares_are_bound()
    ensures { CiphertextSharesAreBound }
{}

/// A law: without a clash a share that passes `verify_share` with the verify cap of a file's
/// encoding is the encoding's share of that number, byte for byte, whatever the secret.
pub fn file_shares_are_bound()
    ensures { FileSharesAreBound }
{}

/// A law: what is hashed where a share of a file's encoding is checked is hashed for the encoding.
pub fn own_shares_are_within()
    ensures { OwnSharesAreWithin }
{}

/// A law: shares that are made anew pass `verify_share`, each with its own number, and have one
/// length, whoever made the cap.
pub fn regenerated_pass()
    ensures { RegeneratedPass }
{}

/// A law: without a clash the shares that are made anew, of any that pass for the verify cap of a
/// file's encoding, are the encoding's, byte for byte, and nothing keeps them from being made.
pub fn good_shares_give_own()
    ensures { GoodSharesGiveOwn }
{}

/// A law: where as many numbers pass as are needed, shares are not lacking.
pub fn enough_pass()
    ensures { EnoughPass }
{}

/// A law: nor are they where all that are given pass, with rising numbers, as many as are needed.
pub fn few_lack()
    ensures { FewLack }
{}
