//! The ids that requests, entities and values hold.

ghost use Rattle.std.specs.Prelude.{◌≡◌, ◌++◌, IfOk, OnOk, map};
ghost use Rattle.std.specs.Map.Iter.{deref};
ghost use Rattle.policy_values.specs.declared.entity_uid.EntityUID.{EntityUID};
ghost use Rattle.policy_values.specs.Value.{vals_of, fields_of};
ghost use Rattle.entity_store.specs.Request.{IsWhole};
ghost use Rattle.level_spec.specs.Cut.{ids_in, ids_in_all, ids_in_fields, ids_held, ids_asked};
ghost use Rattle.level_spec.specs.Hops.{held_by};

use policy_core::{Entities, Entity, EntityUID, Request, Text, Value, ValueKind};
use std::alloc::{AllocError, Global};
use std::collections::BTreeMap;

/// The ids that a request holds: its entries, and all ids anywhere in its context.
pub(crate) fn asked<'a>(
    alloc: Global,
    request: &'a Request,
) -> Result<Vec<&'a EntityUID>, AllocError>
    requires { IsWhole request.now }
    ensures { IfOk result (λ ids. map (deref {X = EntityUID}) ids.items ≡ ids_asked request.now) }
{
    let mut ids = Vec::new(alloc);
    ids.push(request.principal.as_ref().unwrap())?;
    ids.push(request.action.as_ref().unwrap())?;
    ids.push(request.resource.as_ref().unwrap())?;
    let context = request.context.as_ref().unwrap();
    add_ids_of_fields(context.fields(), &mut ids)?;
    Ok(ids)
}

/// The ids that the entities of these ids hold, where they are stored.
pub(crate) fn held_by<'a>(
    alloc: Global,
    entities: &'a Entities,
    ids: Vec<&EntityUID>,
) -> Result<Vec<&'a EntityUID>, AllocError>
    ensures { IfOk result (λ held. map (deref {X = EntityUID}) held.items ≡
        held_by entities.now (map (deref {X = EntityUID}) ids.entry.items)) }
{
    let mut held = Vec::new(alloc);
    for uid in ids {
        if let Some(entity) = entities.entity(uid) {
            add_held(entity, &mut held)?;
        }
    }
    Ok(held)
}

// Adds the ids in the attributes and the tags of an entity.
fn add_held<'a>(entity: &'a Entity, ids: &mut Vec<&'a EntityUID>) -> Result<(), AllocError>
    ensures { OnOk result (map (deref {X = EntityUID}) ids.new.items ≡
        map (deref {X = EntityUID}) ids.old.items ++ ids_held entity.now) }
{
    add_ids_of_fields(entity.attrs(), ids)?;
    add_ids_of_fields(entity.tags(), ids)
}

// Adds the ids anywhere in a value.
#[cycle(ids)]
fn add_ids<'a>(value: &'a Value, ids: &mut Vec<&'a EntityUID>) -> Result<(), AllocError>
    ensures { OnOk result (map (deref {X = EntityUID}) ids.new.items ≡
        map (deref {X = EntityUID}) ids.old.items ++ ids_in value.now) }
{
    match value.kind() {
        ValueKind::EntityUID(uid) => Ok(ids.push(uid)?),
        ValueKind::Set(items) => add_ids_of_all(items, ids),
        ValueKind::Record(fields) => add_ids_of_fields(fields, ids),
        ValueKind::Bool(_)
        | ValueKind::Long(_)
        | ValueKind::String(_)
        | ValueKind::Decimal(_)
        | ValueKind::IpAddr(_)
        | ValueKind::DateTime(_)
        | ValueKind::Duration(_) => Ok(()),
    }
}

#[cycle(ids)]
fn add_ids_of_all<'a>(items: &'a Vec<Value>, ids: &mut Vec<&'a EntityUID>) -> Result<(), AllocError>
    ensures { OnOk result (map (deref {X = EntityUID}) ids.new.items ≡
        map (deref {X = EntityUID}) ids.old.items ++ ids_in_all (vals_of items.now.items)) }
{
    for item in items {
        add_ids(item, ids)?;
    }
    Ok(())
}

#[cycle(ids)]
fn add_ids_of_fields<'a>(
    fields: &'a BTreeMap<Text, Value>,
    ids: &mut Vec<&'a EntityUID>,
) -> Result<(), AllocError>
    ensures { OnOk result (map (deref {X = EntityUID}) ids.new.items ≡
        map (deref {X = EntityUID}) ids.old.items ++ ids_in_fields (fields_of fields.now.entries)) }
{
    for (_, item) in fields.iter() {
        add_ids(item, ids)?;
    }
    Ok(())
}
