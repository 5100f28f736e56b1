//! Places by their entities.

ghost use Rattle.std.specs.Prelude.{◌≡◌, IfOk, OnOk};
ghost use Rattle.entity_loading.specs.Kept.{IsGrouped, IsNumbered};

use crate::Place;
use policy_values::EntityUID;
use std::alloc::{AllocError, Global};
use std::collections::{BTreeMap, BTreeSet};

/// For each entity the numbers of the nodes at which it is reached.
pub(crate) type Numbers = BTreeMap<EntityUID, Vec<usize>>;

/// The numbers of the places.
pub(crate) fn numbers_of(alloc: Global, places: &BTreeSet<Place>) -> Result<Numbers, AllocError>
    ensures { IfOk result (IsGrouped places.now.keys) }
{
    let mut numbers = BTreeMap::new(alloc);
    for place in places.iter() {
        add_number(alloc, &mut numbers, &place.uid, place.number)?;
    }
    Ok(numbers)
}

fn add_number(
    alloc: Global,
    numbers: &mut Numbers,
    uid: &EntityUID,
    number: usize,
) -> Result<(), AllocError>
    ensures { OnOk result (IsNumbered uid.now number numbers.old numbers.new) }
{
    let mut list = match numbers.remove(uid) {
        Some(list) => list,
        None => Vec::new(alloc),
    };
    list.push(number)?;
    numbers.insert(uid.try_clone()?, list)?;
    Ok(())
}
