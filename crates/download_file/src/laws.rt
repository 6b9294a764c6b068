//! Laws of files that are read.

ghost use Rattle.download_file.specs.Hashed.{GivenAreHashed, HashedStays};
ghost use Rattle.download_file.specs.Laws.{FirstPartsAreProved, GivenStays, ReadsStay};
ghost use Rattle.download_file.specs.Tested.{InconsistentIsNoCodeWord, TestedStays};
ghost use Rattle.download_file.specs.Whole.{SegmentsAreMadeOnce, WholeFiles};

/// A law of the definitions: where answers stay, what the record says of the file stays true. The
/// law is the contract; the call does nothing.
pub fn reads_stay()
    ensures { ReadsStay }
{}

/// A law of the definitions: where answers stay, the pieces that were given of the file are given
/// still. The law is the contract; the call does nothing.
pub fn given_stays()
    ensures { GivenStays }
{}

/// A law of the definitions: what proves the first part that waits of a reader that is read is
/// known: the nodes 7 rows above a piece of a tree, or the root where that is nearer. The law is
/// the contract; the call does nothing.
pub fn first_parts_are_proved()
    ensures { FirstPartsAreProved }
{}

/// A law of the definitions: all that is hashed for a piece that is given was hashed for the file:
/// its extension block, segments that were made, and nodes whose children are known. The law is the
/// contract; the call does nothing.
pub fn given_are_hashed()
    ensures { GivenAreHashed }
{}

/// A law of the definitions: where answers stay and the file goes on, what was hashed for it stays
/// so. The law is the contract; the call does nothing.
pub fn hashed_stays()
    ensures { HashedStays }
{}

/// A law of the definitions: where answers stay and the file goes on, what was tested of it stays
/// so. The law is the contract; the call does nothing.
pub fn tested_stays()
    ensures { TestedStays }
{}

/// A law of the definitions: where a file is inconsistent, what was tested of it tells that it is
/// no code word: right blocks that its readers hold, and nodes whose children are known. The law is
/// the contract; the call does nothing.
pub fn inconsistent_is_no_code_word()
    ensures { InconsistentIsNoCodeWord }
{}

/// A law of the definitions: what is made of the blocks of a segment is one thing, however often it
/// is made. The law is the contract; the call does nothing.
pub fn segments_are_made_once()
    ensures { SegmentsAreMadeOnce }
{}

/// A law of the definitions: the pieces that were given of a file, from its first byte to its last,
/// are a ciphertext decrypted whose segments were made, and whose hashes have the root in the
/// extension block. The law is the contract; the call does nothing.
pub fn whole_files()
    ensures { WholeFiles }
{}
