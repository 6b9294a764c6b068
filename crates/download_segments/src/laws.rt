//! Laws of segments. Each law is a contract; the calls do nothing.

ghost use Rattle.download_segments.specs.Agreement.{PiecesAgree, PiecesAreOfTheFile};
ghost use Rattle.download_segments.specs.Laws.{BlocksLead, GrowBySteps, NextSegmentsFollow};
ghost use Rattle.download_segments.specs.Laws.{NoCodeWords, ProvedSegmentsStay, SegmentsAreUnique};

/// A law: the same blocks decode to one segment.
pub fn segments_are_unique()
    ensures { SegmentsAreUnique }
{}

/// A law: a block that the block tree of a share proves leads to the root of the share tree.
pub fn blocks_lead()
    ensures { BlocksLead }
{}

/// A law: where proved blocks decode to a segment that is refuted, the file is no code word.
pub fn no_code_words()
    ensures { NoCodeWords }
{}

/// A law: what is known of the trees stays known over any number of steps.
pub fn trees_grow()
    ensures { GrowBySteps }
{}

/// A law: a segment that is proved stays so.
pub fn proved_segments_stay()
    ensures { ProvedSegmentsStay }
{}

/// A law: the segment behind one that is handed out is the next, where more is wanted.
pub fn next_segments_follow()
    ensures { NextSegmentsFollow }
{}

/// A law: without a clash no offset of a cap's file has two bytes in pieces of it, whoever sent
/// them.
pub fn pieces_agree()
    ensures { PiecesAgree }
{}

/// A law: without a clash each byte of a piece is the one of the cap's file, where that is known.
pub fn pieces_are_of_the_file()
    ensures { PiecesAreOfTheFile }
{}
