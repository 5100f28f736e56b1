//! How errors read.

use crate::texts::assert_same;
use entity_loading::{PartialRequestError, WrongNumberOfEntitiesError};
use manifest_core::{MismatchedMissingEntityError, MismatchedNotStrictSchemaError};
use policy_values::{Eid, EntityType, EntityUID, Name, Text};
use std::alloc::{AllocError, Global};

fn wrong_number(alloc: Global) -> Result<String, AllocError> {
    let error = WrongNumberOfEntitiesError {
        expected: 2,
        got: 1,
    };
    format!(in alloc; "{error}")
}

#[test]
fn numbers_are_shown(rt: HostRuntime) -> Result<(), AllocError> {
    let text = wrong_number(rt.alloc())?;
    assert_same(
        &rt,
        text.as_str(),
        "entity loader returned the wrong number of entities. Expected 2 but got 1 entities",
    );
    Ok(())
}

fn action(alloc: Global, eid: &str) -> Result<EntityUID, AllocError> {
    match Name::parse(alloc, "Action")? {
        Some(name) => Ok(EntityUID {
            entity_type: EntityType::new(name),
            eid: Eid::new(Text::from_str(alloc, eid)?),
        }),
        None => Err(AllocError),
    }
}

fn missing(alloc: Global) -> Result<String, AllocError> {
    let entity = action(alloc, "gone")?;
    let error = MismatchedMissingEntityError { entity };
    format!(in alloc; "{error}")
}

#[test]
fn what_is_missing_is_shown(rt: HostRuntime) -> Result<(), AllocError> {
    let text = missing(rt.alloc())?;
    assert_same(
        &rt,
        text.as_str(),
        "entity manifest doesn't match schema. Schema is missing entity Action::\"gone\". Either you wrote an entity manifest by hand (not recommended) or you are using an out-of-date entity manifest with respect to the schema",
    );
    Ok(())
}

fn not_strict(alloc: Global) -> Result<String, AllocError> {
    let error = MismatchedNotStrictSchemaError {};
    format!(in alloc; "{error}")
}

fn partial(alloc: Global) -> Result<String, AllocError> {
    let error = PartialRequestError {};
    format!(in alloc; "{error}")
}

#[test]
fn refusals_of_manifests_are_shown(rt: HostRuntime) -> Result<(), AllocError> {
    let schema = not_strict(rt.alloc())?;
    assert_same(
        &rt,
        schema.as_str(),
        "entity manifests are only compatible with schemas that validate in strict mode. Tried to use an invalid schema with an entity manifest",
    );
    let request = partial(rt.alloc())?;
    assert_same(
        &rt,
        request.as_str(),
        "entity slicing requires a fully concrete request. Got a partial request",
    );
    Ok(())
}
