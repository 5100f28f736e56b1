//! The types of what may stand for a slot.

ghost use Rattle.std.specs.Prelude.{◌≡◌, ◌∷◌, [], Some, map, IfOk};
ghost use Rattle.std.specs.Option.{option_copied};
ghost use Rattle.policy_values.specs.Reaches.{has};
ghost use Rattle.policy_values.specs.Uid.{text_cmp};
ghost use Rattle.link_spec.specs.Linked.{slot_types, types_above, types_around};
ghost use Rattle.policy_typecheck.specs.Pointed.{pointed};

use policy_set::{EntityReference, PrincipalOrResourceConstraint};
use policy_values::EntityType;
use schema_core::{ValidatorEntityType, ValidatorSchema};
use std::alloc::{AllocError, Global};
use std::cmp::Ordering;

// The types of what may stand for the slot of a constraint on a variable of the type; where there is no slot,
// none.
pub(crate) fn slot_types<'a>(
    alloc: Global,
    schema: &'a ValidatorSchema,
    constraint: &PrincipalOrResourceConstraint,
    name: &'a EntityType,
) -> Result<Vec<Option<&'a EntityType>>, AllocError>
    ensures { IfOk result (λ r. map option_copied r.items ≡
        slot_types schema.now constraint.now name.now) }
{
    match constraint {
        PrincipalOrResourceConstraint::Any | PrincipalOrResourceConstraint::Is(_) => {
            one(alloc, None)
        }
        PrincipalOrResourceConstraint::Eq(entity) => match entity {
            EntityReference::EUID(_) => one(alloc, None),
            EntityReference::Slot => one(alloc, Some(name)),
        },
        PrincipalOrResourceConstraint::In(entity)
        | PrincipalOrResourceConstraint::IsIn(_, entity) => match entity {
            EntityReference::EUID(_) => one(alloc, None),
            EntityReference::Slot => each(alloc, &types_around(alloc, schema, name)?),
        },
    }
}

fn one<'a>(
    alloc: Global,
    slot: Option<&'a EntityType>,
) -> Result<Vec<Option<&'a EntityType>>, AllocError>
    ensures { IfOk result (λ r. r.items ≡ slot.entry ∷ []) }
{
    let mut slots = Vec::new(alloc);
    slots.push(slot)?;
    Ok(slots)
}

fn each<'a>(
    alloc: Global,
    names: &Vec<&'a EntityType>,
) -> Result<Vec<Option<&'a EntityType>>, AllocError>
    ensures { IfOk result (λ r. map option_copied r.items ≡ map Some (pointed names.now.items)) }
{
    let mut slots = Vec::new(alloc);
    for name in names {
        slots.push(Some(*name))?;
    }
    Ok(slots)
}

// The types that have the type among their descendants, ascending, and the type itself, once.
fn types_around<'a>(
    alloc: Global,
    schema: &'a ValidatorSchema,
    name: &'a EntityType,
) -> Result<Vec<&'a EntityType>, AllocError>
    ensures { IfOk result (λ r. pointed r.items ≡ types_around schema.now name.now) }
{
    let mut around = types_above(alloc, schema, name)?;
    if !is_among(&around, name) {
        around.push(name)?;
    }
    Ok(around)
}

fn types_above<'a>(
    alloc: Global,
    schema: &'a ValidatorSchema,
    name: &EntityType,
) -> Result<Vec<&'a EntityType>, AllocError>
    ensures { IfOk result (λ r. pointed r.items ≡ types_above schema.now name.now) }
{
    let mut above = Vec::new(alloc);
    for entity_type in schema.entity_types() {
        if is_above(entity_type, name) {
            above.push(entity_type.name())?;
        }
    }
    Ok(above)
}

fn is_above(entity_type: &ValidatorEntityType, name: &EntityType) -> bool
    ensures { result ≡ has text_cmp entity_type.now.descendants name.now }
{
    entity_type.has_descendant(name)
}

fn is_among(names: &Vec<&EntityType>, name: &EntityType) -> bool
    ensures { result ≡ has text_cmp (pointed names.now.items) name.now }
{
    for other in names {
        if name.cmp(other) == Ordering::Equal {
            return true;
        }
    }
    false
}
