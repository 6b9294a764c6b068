//! Laws of plans.

ghost use Rattle.download_parts.specs.PlanLaws.{LevelsHoldGroups, PartsAreApart};
ghost use Rattle.download_parts.specs.PlanLaws.{PartsHoldTheBlocks};
ghost use Rattle.download_parts.specs.PlanLaws.{PartsLieInside, PiecesAreGroups};
ghost use Rattle.download_parts.specs.PlanLaws.{PiecesAreUnderPieces, PiecesEndWithBlocks};

/// A law of the definitions: two parts of a plan are one, or they have no byte in common. The law
/// is the contract; the call does nothing.
pub fn parts_are_apart()
    ensures { PartsAreApart }
{}

/// A law of the definitions: each part of a plan lies in its section, which ends before the
/// extension block's length. The law is the contract; the call does nothing.
pub fn parts_lie_inside()
    ensures { PartsLieInside }
{}

/// A law of the definitions: the pieces of the data hold the bytes of the wanted segments' blocks,
/// and no others. The law is the contract; the call does nothing.
pub fn parts_hold_the_blocks()
    ensures { PartsHoldTheBlocks }
{}

/// A law of the definitions: a piece of the data that comes to the end of a block ends with the end
/// of one. The law is the contract; the call does nothing.
pub fn pieces_end_with_blocks()
    ensures { PiecesEndWithBlocks }
{}

/// A law of the definitions: of each level all nodes that have a segment below them are read in
/// each group above a wanted segment. The law is the contract; the call does nothing.
pub fn levels_hold_groups()
    ensures { LevelsHoldGroups }
{}

/// A law of the definitions: the pieces of a tree are whole groups, so that the nodes of each prove
/// themselves by the level above. The law is the contract; the call does nothing.
pub fn pieces_are_groups()
    ensures { PiecesAreGroups }
{}

/// A law of the definitions: above a piece is one piece of the level above, in each plan that has
/// the piece. The law is the contract; the call does nothing.
pub fn pieces_are_under_pieces()
    ensures { PiecesAreUnderPieces }
{}
