//! Laws of entities with their parents of which a part is known.

ghost use Rattle.table_loader.specs.Parents.{PartsAreRightStores, PartsAreStores, GivenRowsAreClosed, AncestorsAreAll, OthersAreAll, EntitiesAreWhole, ClosedAgain};

/// Where a part of the entities has all that stands above it, its store has each of its entities as the
/// store of all entities has it.
pub fn parts_are_right_stores()
    ensures { PartsAreRightStores }
{}

/// Where all entities make a store, a part of them is refused for a repeated id or lack of memory alone:
/// it has no cycle.
pub fn parts_are_stores()
    ensures { PartsAreStores }
{}

/// Rows that agree with what there is, each of whose parents is given or said to be absent, are a part with
/// all that stands above it.
pub fn given_rows_are_closed()
    ensures { GivenRowsAreClosed }
{}

/// Where an id was looked up, and each ancestor that it has in the store of what was found, these are its
/// ancestors in the store of all entities.
pub fn ancestors_are_all()
    ensures { AncestorsAreAll }
{}

/// What was looked up is but for its ancestors as the store of all entities has it.
pub fn others_are_all()
    ensures { OthersAreAll }
{}

/// An entity that was looked up with each of its ancestors is as the store of all entities has it.
pub fn entities_are_whole()
    ensures { EntitiesAreWhole }
{}

/// Ancestors that are taken for parents reach no more.
pub fn closed_again()
    ensures { ClosedAgain }
{}
