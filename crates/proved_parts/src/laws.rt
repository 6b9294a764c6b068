// Laws of the definitions. Each law is a contract; the calls do nothing.

ghost use Rattle.proved_parts.specs.Laws.{BlocksSayOneThing, FilesOfCapsHaveParts};
ghost use Rattle.proved_parts.specs.Laws.{OwnPartsAreWithin};
ghost use Rattle.proved_parts.specs.Laws.{PartsAgree, PartsAreOfTheFile};

/// A law: the extension block of a cap's file says one thing.
pub fn blocks_say_one_thing()
    ensures { BlocksSayOneThing }
{}

/// A law: where no two of some hash inputs have one hash, two parts of one cap's file with one
/// number, for which nothing else is hashed, have one segment.
pub fn parts_agree()
    ensures { PartsAgree }
{}

/// A law: each segment of the file of a cap is a part of it, whoever wrote its extension block.
pub fn files_of_caps_have_parts()
    ensures { FilesOfCapsHaveParts }
{}

/// A law: what a ciphertext's own parts hash is hashed for its segments and their tree.
pub fn own_parts_are_within()
    ensures { OwnPartsAreWithin }
{}

/// A law: where no two of some hash inputs have one hash, a part of a cap's file is the segment of
/// the file, where that is known.
pub fn parts_are_of_the_file()
    ensures { PartsAreOfTheFile }
{}
