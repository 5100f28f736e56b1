//! Places at which entities are asked for.

ghost use Rattle.std.specs.Prelude.{◌≡◌, OnOk};
ghost use Rattle.entity_loading.specs.Places.{IsPlaced};

use policy_values::EntityUID;
use std::alloc::AllocError;
use std::collections::BTreeSet;

/// An entity that is asked for, and the number of a node of a table: what stands there along the trie is
/// asked of it. Places are ordered by their ids, and then by their numbers.
#[derive(Debug, Drop, PartialEq, Eq, PartialOrd, Ord)]
pub struct Place {
    /// The id of the entity.
    pub uid: EntityUID,
    /// The number of the node.
    pub number: usize,
}

/// Adds a place.
pub fn ask(places: &mut BTreeSet<Place>, uid: &EntityUID, number: usize) -> Result<(), AllocError>
    ensures { OnOk result
        (IsPlaced (record { uid = uid.now; number = number }) places.old.keys places.new.keys) }
{
    let uid = uid.try_clone()?;
    places.insert(Place { uid, number })?;
    Ok(())
}
