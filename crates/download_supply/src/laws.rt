//! Laws of supplies.

ghost use Rattle.download_supply.specs.Laws.{DueIsProved, FirstIsDue, JoinedHasLength};
ghost use Rattle.download_supply.specs.Laws.{LeadOnGiving, LeadOnTogether, LeavesAreKnown};
ghost use Rattle.download_supply.specs.Laws.{LongerPlansHoldMore, OverProves};
ghost use Rattle.download_supply.specs.Laws.{SupplyPartsAreApart, TakenIsReady};
ghost use Rattle.download_supply.specs.Laws.{TakenNodesAreKnown, UpperFirstGiving};
ghost use Rattle.download_supply.specs.Laws.{UpperFirstTogether};

/// A law of the definitions: two parts that a supply is read in are one, or they have no byte in
/// common. The law is the contract; the call does nothing.
pub fn supply_parts_are_apart()
    ensures { SupplyPartsAreApart }
{}

/// A law of the definitions: where parts lead from what was taken to what was asked, the first of
/// them is due. The law is the contract; the call does nothing.
pub fn first_is_due()
    ensures { FirstIsDue }
{}

/// A law of the definitions: once all that is wanted up to a segment is taken, the segment is
/// ready. The law is the contract; the call does nothing.
pub fn taken_is_ready()
    ensures { TakenIsReady }
{}

/// A law of the definitions: nodes of a row are known once they are taken. The law is the contract;
/// the call does nothing.
pub fn taken_nodes_are_known()
    ensures { TakenNodesAreKnown }
{}

/// A law of the definitions: a tree that knows the pieces that are wanted up to a segment knows the
/// segment's leaf. The law is the contract; the call does nothing.
pub fn leaves_are_known()
    ensures { LeavesAreKnown }
{}

/// A law of the definitions: the block that is joined of pieces, each of its length, has the
/// block's length. The law is the contract; the call does nothing.
pub fn joined_has_length()
    ensures { JoinedHasLength }
{}

/// A law of the definitions: parts that wait to be taken, and those that are asked then, lead on
/// together. The law is the contract; the call does nothing.
pub fn waiting_goes_on()
    ensures { LeadOnTogether }
{}

/// A law of the definitions: parts that wait to be taken lead on where the supply begins to give
/// the ciphertext tree. The law is the contract; the call does nothing.
pub fn waiting_goes_on_giving()
    ensures { LeadOnGiving }
{}

/// A law of the definitions: each part of a plan is one of each longer plan, at its offset, and has
/// its bytes there. The law is the contract; the call does nothing.
pub fn longer_plans_hold_more()
    ensures { LongerPlansHoldMore }
{}

/// A law of the definitions: parts that wait to be taken, and those that are asked then, come each
/// after the piece over it. The law is the contract; the call does nothing.
pub fn waiting_stays_ordered()
    ensures { UpperFirstTogether }
{}

/// A law of the definitions: parts that wait to be taken come each after the piece over it, also
/// where the supply begins to give the ciphertext tree. The law is the contract; the call does
/// nothing.
pub fn waiting_stays_ordered_giving()
    ensures { UpperFirstGiving }
{}

/// A law of the definitions: what proves a piece of a tree is known where the piece over it is, and
/// by the root alone where there is none. The law is the contract; the call does nothing.
pub fn over_proves()
    ensures { OverProves }
{}

/// A law of the definitions: what proves a piece of the block tree that is due is known, where the
/// piece over it is taken. The law is the contract; the call does nothing.
pub fn due_is_proved()
    ensures { DueIsProved }
{}
