//! Laws of trees of which some nodes are known.

ghost use Rattle.download_parts.specs.TreeLaws.{BlockRootsLead, LeavesLead};

/// A law of the definitions: each leaf that is known leads to the root by siblings that are known.
/// The law is the contract; the call does nothing.
pub fn leaves_lead()
    ensures { LeavesLead }
{}

/// A law of the definitions: the root of a share's block tree leads to the root of the share tree.
/// The law is the contract; the call does nothing.
pub fn block_roots_lead()
    ensures { BlockRootsLead }
{}
