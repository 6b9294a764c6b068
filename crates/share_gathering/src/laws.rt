//! What the definitions of a file's encoding say of one that is made segment by segment. Each law
//! is a contract; its call does nothing.

ghost use Rattle.share_gathering.specs.Clash.{BlocksOrClash};
ghost use Rattle.share_gathering.specs.Laws.{DigestsInOrder, OneByOne};

/// A file whose segments are encrypted, encoded and hashed one after another, each let go before
/// the next, gives the hashes of the whole file's encoding.
pub fn one_by_one()
    ensures { OneByOne }
{}

/// The digest of a share is that of its header, its blocks in order and what follows from the
/// leaves of all trees.
pub fn digests_in_order()
    ensures { DigestsInOrder }
{}

/// Blocks that have the hashes of a share's blocks are these blocks, or two different hash inputs
/// with one hash are at hand.
pub fn blocks_or_clash()
    ensures { BlocksOrClash }
{}
