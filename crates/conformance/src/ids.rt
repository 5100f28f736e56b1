//! Ids of enumerated types.

ghost use Rattle.std.specs.Prelude.{◌≡◌, None, Some, IfOk, if◌then◌else◌};
ghost use Rattle.std.specs.Option.{option_copied};
ghost use Rattle.policy_values.specs.Value.{vals_of, fields_of};
ghost use Rattle.schema_core.specs.KindView.{kind_of};
ghost use Rattle.typing_spec.specs.Conforms.{is_listed, is_listed_in, lists_ids};
ghost use Rattle.policy_scope.specs.Names.{choices_without, choices_in, others_listed};
ghost use Rattle.conformance.specs.Ids.{unlisted_in, unlisted_in_all, unlisted_in_fields};

use findings::{InvalidEnumEntityError, ListOf};
use policy_values::{Eid, EntityUID, Text, Value, ValueKind};
use schema_core::{ListedIds, ValidatorEntityTypeKind, ValidatorSchema};
use std::alloc::{AllocError, Global};
use std::collections::BTreeMap;

/// Whether the id is listed, where its type is enumerated.
pub(crate) fn is_listed(schema: &ValidatorSchema, uid: &EntityUID) -> bool
    ensures { result ≡ is_listed schema.now uid.now }
{
    match schema.get_entity_type(uid.entity_type()) {
        Some(ty) => is_listed_in(ty.kind(), &uid.eid),
        None => true,
    }
}

fn is_listed_in(kind: &ValidatorEntityTypeKind, eid: &Eid) -> bool
    ensures { result ≡ is_listed_in (kind_of kind.now) eid.now }
{
    match kind {
        ValidatorEntityTypeKind::Enum(ids) => ids.contains(eid),
        ValidatorEntityTypeKind::Standard { .. } => true,
    }
}

/// The ids that the id's type lists, where it is enumerated and does not list this one.
pub(crate) fn choices_without<'a>(schema: &'a ValidatorSchema, uid: &EntityUID) -> Option<&'a [Eid]>
    ensures { option_copied result ≡ choices_without schema.now uid.now }
{
    let ty = schema.get_entity_type(uid.entity_type())?;
    let choices = choices_in(ty.kind())?;
    others_listed(uid, choices)
}

fn others_listed<'a>(uid: &EntityUID, choices: &'a ListedIds) -> Option<&'a [Eid]>
    ensures { option_copied result ≡ others_listed uid.now choices.now }
{
    if choices.contains(&uid.eid) {
        None
    } else {
        Some(choices.as_slice())
    }
}

fn choices_in(kind: &ValidatorEntityTypeKind) -> Option<&ListedIds>
    ensures { option_copied result ≡ choices_in (kind_of kind.now) }
{
    match kind {
        ValidatorEntityTypeKind::Enum(ids) => Some(ids),
        ValidatorEntityTypeKind::Standard { .. } => None,
    }
}

/// The id, and those that its type lists.
pub(crate) fn unlisted(
    alloc: Global,
    uid: &EntityUID,
    choices: &[Eid],
) -> Result<InvalidEnumEntityError, AllocError>
    ensures { IfOk result (λ e. e ≡ record { uid = uid.now; choices = choices.now }) }
{
    let mut listed = Vec::new(alloc);
    for eid in choices {
        listed.push(eid.try_clone()?)?;
    }
    Ok(InvalidEnumEntityError {
        uid: uid.try_clone()?,
        choices: ListOf::new(listed),
    })
}

/// Whether each id in the value is listed, where its type is enumerated.
pub(crate) fn lists_ids(schema: &ValidatorSchema, v: &Value) -> bool
    ensures { result ≡ lists_ids schema.now v.now }
{
    match unlisted_in(schema, v) {
        Some(_) => false,
        None => true,
    }
}

/// The first id in the value that its type does not list.
#[cycle(ids)]
fn unlisted_in<'a>(schema: &ValidatorSchema, v: &'a Value) -> Option<&'a EntityUID>
    ensures { option_copied result ≡ unlisted_in schema.now v.now }
{
    match v.kind() {
        ValueKind::EntityUID(uid) => unlisted_id(schema, uid),
        ValueKind::Set(items) => unlisted_in_set(schema, items),
        ValueKind::Record(fields) => unlisted_in_fields(schema, fields),
        _ => None,
    }
}

fn unlisted_id<'a>(schema: &ValidatorSchema, uid: &'a EntityUID) -> Option<&'a EntityUID>
    ensures { option_copied result ≡ (if is_listed schema.now uid.now then None else Some uid.now) }
{
    if is_listed(schema, uid) {
        None
    } else {
        Some(uid)
    }
}

#[cycle(ids)]
#[tactic(auto, using(type_relations::proofs::MemberSteps::size_in))]
fn unlisted_in_set<'a>(schema: &ValidatorSchema, items: &'a Vec<Value>) -> Option<&'a EntityUID>
    ensures { option_copied result ≡ unlisted_in_all schema.now (vals_of items.now.items) }
{
    for item in items {
        if let Some(uid) = unlisted_in(schema, item) {
            return Some(uid);
        }
    }
    None
}

/// The first id in the fields that its type does not list.
#[cycle(ids)]
pub(crate) fn unlisted_in_fields<'a>(
    schema: &ValidatorSchema,
    fields: &'a BTreeMap<Text, Value>,
) -> Option<&'a EntityUID>
    ensures { option_copied result ≡ unlisted_in_fields schema.now (fields_of fields.now.entries) }
{
    for (_, v) in fields.iter() {
        if let Some(uid) = unlisted_in(schema, v) {
            return Some(uid);
        }
    }
    None
}
