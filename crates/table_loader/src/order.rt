//! The order of what stands in maps and sets.

ghost use Rattle.std.specs.Prelude.{IfSome};
ghost use Rattle.std.specs.List.{AllByRecursion};
ghost use Rattle.policy_values.specs.Value.{fields_of};
ghost use Rattle.table_loader.specs.Order.{IsOrdered, AreOrdered, IsEntityOrdered};

use entity_store::{Entities, Entity, Request};
use policy_values::{Text, Value, ValueKind};
use std::collections::BTreeMap;

/// Keys ascend in the value, in each record that is reached through records.
#[cycle(ordering)]
pub fn value_is_ordered(value: &Value)
    ensures { IsOrdered value.now }
{
    match value.kind() {
        ValueKind::Record(fields) => fields_are_ordered(fields),
        _ => {}
    }
}

/// Keys ascend in the fields, and in each record that is reached from them through records.
#[cycle(ordering)]
pub fn fields_are_ordered(fields: &BTreeMap<Text, Value>)
    ensures { AreOrdered (fields_of fields.now.entries) }
{
    // for the proof: the keys of a map ascend
    let _count = fields.len();
    for (_key, value) in fields.iter() {
        value_is_ordered(value);
    }
}

/// Keys ascend in the attributes and in the tags of the entity, and its ancestors ascend.
pub fn entity_is_ordered(entity: &Entity)
    ensures { IsEntityOrdered entity.now }
{
    fields_are_ordered(entity.attrs());
    fields_are_ordered(entity.tags());
    // for the proof: the ids of a set ascend
    let _ancestors = entity.ancestors();
}

/// Keys and ancestors ascend in each entity of the store.
pub fn entities_are_ordered(entities: &Entities)
    ensures { AllByRecursion IsEntityOrdered entities.now }
{
    for entity in entities.iter() {
        entity_is_ordered(entity);
    }
}

/// Keys ascend in the context of the request, where it is known.
pub fn request_is_ordered(request: &Request)
    ensures { IfSome request.now.context AreOrdered }
{
    if let Some(context) = &request.context {
        fields_are_ordered(context.fields());
    }
}
