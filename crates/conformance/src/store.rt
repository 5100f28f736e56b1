//! The rules of stores.

ghost use Rattle.std.specs.Prelude.{◌≡◌, ◌↔◌, true, not, None, Some, IfOk, OnErr, IsSome, IsTrue, find, MatchResult};
ghost use Rattle.std.specs.List.{list_all};
ghost use Rattle.std.specs.List.Sorted.{IsStrictlySortedBy};
ghost use Rattle.std.specs.Option.{option_copied, option_map};
ghost use Rattle.policy_values.specs.Least.{IsLeastIfAny};
ghost use Rattle.policy_values.specs.Basename.{is_action_type};
ghost use Rattle.policy_values.specs.Uid.{uid_cmp, uid_eq};
ghost use Rattle.policy_values.specs.Value.{fields_of};
ghost use Rattle.schema_core.specs.Schema.{type_below, action_below};
ghost use Rattle.conformance.specs.declared.store_rule.StoreRule.TheVariants.{TagsNotAllowed};
ghost use Rattle.conformance.specs.StoreRules.{IsConformanceFault, first_store_fault, entity_fault, action_entity_fault, typed_entity_fault, declared_entity_fault, further_fault, first_broken, attribute_fault, declared_fault, tags_fault, tag_fault, ancestors_fault, ancestor_fault, is_of, first_key, has_all_ancestors, lacks, lacks_it};

use crate::ids::{is_listed, lists_ids};
use crate::misfits::first_missing;
use crate::{ConformanceError, EntityDoesNotConform, StoreRule};
use entity_store::{Entities, Entity};
use policy_values::{EntityType, EntityUID, Text, Value, lower};
use schema_core::{ValidatorActionId, ValidatorEntityType, ValidatorSchema};
use schema_types::{AttributeType, Attributes, Type};
use std::alloc::AllocError;
use std::cmp::Ordering;
use std::collections::{BTreeMap, BTreeSet};
use type_relations::has_value;

/// Whether the store conforms to the schema. The entity of an action has to be declared as an action, without
/// attributes and tags, and with exactly the ancestors that the schema gives the action. Any other entity has
/// to be of a declared type that lists it where it is enumerated; its attributes are declared, of their
/// types, and none that is required is missing; its tags are of the type of tags, if there is one; its
/// ancestors are of types that it may be in. Ids in attributes and tags, and ancestors, are listed where
/// their types are enumerated.
///
/// Errs with the first entity that breaks a rule, in the order of the ids, and the first rule that it breaks.
pub fn conforms(schema: &ValidatorSchema, entities: &Entities) -> Result<(), ConformanceError>
    ensures { MatchResult result (λ _. first_store_fault schema.now entities.now ≡ None)
        (IsConformanceFault (first_store_fault schema.now entities.now)) }
{
    let lacking = least_lacking(schema, entities);
    for entity in entities.iter() {
        let lacks = is_id(lacking, entity.uid());
        if let Some(rule) = broken_rule(schema, entity, lacks)? {
            let uid = entity.uid().try_clone()?;
            return Err(ConformanceError::EntityDoesNotConform(EntityDoesNotConform { uid, rule }));
        }
    }
    Ok(())
}

// Whether the id is this one.
fn is_id(known: Option<&EntityUID>, uid: &EntityUID) -> bool
    ensures { IsTrue result ↔ (option_copied known.entry ≡ Some uid.now) }
{
    match known {
        Some(known) => same_id(known, uid),
        None => false,
    }
}

fn same_id(one: &EntityUID, other: &EntityUID) -> bool
    ensures { result ≡ uid_eq one.now other.now }
{
    one.cmp(other) == Ordering::Equal
}

// The first rule that the entity breaks, where it is known whether an ancestor of its action is missing
// in it.
fn broken_rule(
    schema: &ValidatorSchema,
    entity: &Entity,
    lacks: bool,
) -> Result<Option<StoreRule>, AllocError>
    requires { IsTrue (is_action_type entity.now.uid.entity_type) → lacks ≡
        not (has_all_ancestors schema.now entity.now) }
    ensures rule { IfOk result (λ rule. rule ≡ entity_fault schema.now entity.now) }
    ensures memory { OnErr result (IsSome (entity_fault schema.now entity.now)) }
{
    if entity.uid().is_action() {
        return Ok(broken_action_rule(schema, entity, lacks));
    }
    broken_typed_rule(schema, entity)
}

// The first rule that the entity of an action breaks.
fn broken_action_rule(schema: &ValidatorSchema, entity: &Entity, lacks: bool) -> Option<StoreRule>
    requires { lacks ≡ not (has_all_ancestors schema.now entity.now) }
    ensures { result ≡ action_entity_fault schema.now entity.now }
{
    if schema.get_action_id(entity.uid()).is_none() {
        return Some(StoreRule::ActionNotDeclared);
    }
    if least_key(entity.attrs()).is_some() {
        return Some(StoreRule::ActionHasAttributes);
    }
    if least_key(entity.tags()).is_some() {
        return Some(StoreRule::ActionHasTags);
    }
    if lacks || !has_only_its_ancestors(schema, entity) {
        return Some(StoreRule::ActionAncestorsDiffer);
    }
    None
}

// Whether the entity has no ancestor that its action lacks.
fn has_only_its_ancestors(schema: &ValidatorSchema, entity: &Entity) -> bool
    ensures { result ≡ list_all (action_below schema.now entity.now.uid) entity.now.ancestors }
{
    let uid = entity.uid();
    for above in entity.ancestors() {
        if !is_action_in(schema, uid, above) {
            return false;
        }
    }
    true
}

// Whether the action is a descendant of the other.
fn is_action_in(schema: &ValidatorSchema, uid: &EntityUID, above: &EntityUID) -> bool
    ensures { result ≡ action_below schema.now uid.now above.now }
{
    match schema.get_action_id(above) {
        Some(action) => action.descendants().contains(uid),
        None => false,
    }
}

// The least id of an entity in which an ancestor of its action is missing.
fn least_lacking<'a>(schema: &'a ValidatorSchema, entities: &Entities) -> Option<&'a EntityUID>
    ensures { IsLeastIfAny uid_cmp (λ uid. lacks schema.now.action_ids entities.now uid ≡ true)
        (option_copied result) }
{
    let mut least = None;
    for action in schema.action_ids() {
        least = lower(least, first_without(entities, action));
    }
    least
}

// The first descendant of the action whose entity lacks it as an ancestor.
fn first_without<'a>(entities: &Entities, action: &'a ValidatorActionId) -> Option<&'a EntityUID>
    ensures found { option_copied result ≡
        find (lacks_it entities.now action.now) action.now.descendants }
    ensures ascending { IsStrictlySortedBy uid_cmp action.now.descendants }
{
    for uid in action.descendants() {
        if lacks_it(entities, action, uid) {
            return Some(uid);
        }
    }
    None
}

// Whether the id is that of an action's entity that lacks the action as an ancestor.
fn lacks_it(entities: &Entities, action: &ValidatorActionId, uid: &EntityUID) -> bool
    ensures { result ≡ lacks_it entities.now action.now uid.now }
{
    match entities.entity(uid) {
        Some(entity) => uid.is_action() && !entity.ancestors().contains(action.name()),
        None => false,
    }
}

// The first rule that an entity breaks that is not of an action.
fn broken_typed_rule(
    schema: &ValidatorSchema,
    entity: &Entity,
) -> Result<Option<StoreRule>, AllocError>
    ensures rule { IfOk result (λ rule. rule ≡ typed_entity_fault schema.now entity.now) }
    ensures memory { OnErr result (IsSome (typed_entity_fault schema.now entity.now)) }
{
    match schema.get_entity_type(entity.uid().entity_type()) {
        Some(ty) => broken_declared_rule(schema, entity, ty),
        None => Ok(Some(StoreRule::TypeNotDeclared)),
    }
}

// The first rule that an entity of a declared type breaks.
fn broken_declared_rule(
    schema: &ValidatorSchema,
    entity: &Entity,
    ty: &ValidatorEntityType,
) -> Result<Option<StoreRule>, AllocError>
    ensures rule { IfOk result (λ rule. rule ≡ declared_entity_fault schema.now entity.now ty.now) }
    ensures memory { OnErr result (IsSome (declared_entity_fault schema.now entity.now ty.now)) }
{
    if !is_listed(schema, entity.uid()) {
        return Ok(Some(StoreRule::IdNotListed));
    }
    match broken_attribute_rule(schema, ty.attributes(), entity.attrs())? {
        Some(rule) => Ok(Some(rule)),
        None => broken_further_rule(schema, entity, ty),
    }
}

// The first rule that it breaks behind those of single attributes.
fn broken_further_rule(
    schema: &ValidatorSchema,
    entity: &Entity,
    ty: &ValidatorEntityType,
) -> Result<Option<StoreRule>, AllocError>
    ensures rule { IfOk result (λ rule. rule ≡ further_fault schema.now entity.now ty.now) }
    ensures memory { OnErr result (IsSome (further_fault schema.now entity.now ty.now)) }
{
    if let Some(key) = first_missing(ty.attributes(), entity.attrs()) {
        return Ok(Some(StoreRule::RequiredAttributeMissing(key.try_clone()?)));
    }
    match broken_tag_rule(schema, ty.tag_type(), entity.tags())? {
        Some(rule) => Ok(Some(rule)),
        None => broken_ancestor_rule(schema, entity.uid().entity_type(), entity.ancestors()),
    }
}

// The first rule that an attribute breaks.
fn broken_attribute_rule(
    schema: &ValidatorSchema,
    attrs: &Attributes,
    fields: &BTreeMap<Text, Value>,
) -> Result<Option<StoreRule>, AllocError>
    ensures rule { IfOk result (λ rule. rule ≡
        first_broken (attribute_fault schema.now attrs.now) (fields_of fields.now.entries)) }
    ensures memory { OnErr result
        (IsSome (first_broken (attribute_fault schema.now attrs.now)
        (fields_of fields.now.entries))) }
{
    for (key, v) in fields.iter() {
        if let Some(rule) = attribute_fault(schema, attrs, key, v)? {
            return Ok(Some(rule));
        }
    }
    Ok(None)
}

fn attribute_fault(
    schema: &ValidatorSchema,
    attrs: &Attributes,
    key: &Text,
    v: &Value,
) -> Result<Option<StoreRule>, AllocError>
    ensures rule { IfOk result (λ rule. rule ≡ attribute_fault schema.now attrs.now key.now v.now) }
    ensures memory { OnErr result (IsSome (attribute_fault schema.now attrs.now key.now v.now)) }
{
    match attrs.get_attr(key) {
        Some(declared) => declared_fault(schema, key, v, declared),
        None => Ok(Some(StoreRule::AttributeNotDeclared(key.try_clone()?))),
    }
}

fn declared_fault(
    schema: &ValidatorSchema,
    key: &Text,
    v: &Value,
    declared: &AttributeType,
) -> Result<Option<StoreRule>, AllocError>
    ensures rule { IfOk result (λ rule. rule ≡ declared_fault schema.now key.now v.now declared.now) }
    ensures memory { OnErr result (IsSome (declared_fault schema.now key.now v.now declared.now)) }
{
    if !is_of(&declared.attr_type, v) {
        return Ok(Some(StoreRule::AttributeOfAnotherType(key.try_clone()?)));
    }
    if !lists_ids(schema, v) {
        return Ok(Some(StoreRule::AttributeHoldsUnlistedId(key.try_clone()?)));
    }
    Ok(None)
}

// The first rule that a tag breaks, where tags are of this type, if there may be any.
fn broken_tag_rule(
    schema: &ValidatorSchema,
    ty: Option<&Type>,
    tags: &BTreeMap<Text, Value>,
) -> Result<Option<StoreRule>, AllocError>
    ensures rule { IfOk result (λ rule. rule ≡
        tags_fault schema.now (option_copied ty.entry) (fields_of tags.now.entries)) }
    ensures memory { OnErr result
        (IsSome (tags_fault schema.now (option_copied ty.entry) (fields_of tags.now.entries))) }
{
    match ty {
        Some(ty) => broken_tag_of(schema, ty, tags),
        None => Ok(any_tag(tags)),
    }
}

fn any_tag(tags: &BTreeMap<Text, Value>) -> Option<StoreRule>
    ensures { result ≡ option_map (λ _. TagsNotAllowed) (first_key (fields_of tags.now.entries)) }
{
    match least_key(tags) {
        Some(_) => Some(StoreRule::TagsNotAllowed),
        None => None,
    }
}

fn broken_tag_of(
    schema: &ValidatorSchema,
    ty: &Type,
    tags: &BTreeMap<Text, Value>,
) -> Result<Option<StoreRule>, AllocError>
    ensures rule { IfOk result (λ rule. rule ≡
        first_broken (tag_fault schema.now ty.now) (fields_of tags.now.entries)) }
    ensures memory { OnErr result
        (IsSome (first_broken (tag_fault schema.now ty.now) (fields_of tags.now.entries))) }
{
    for (key, v) in tags.iter() {
        if let Some(rule) = tag_fault(schema, ty, key, v)? {
            return Ok(Some(rule));
        }
    }
    Ok(None)
}

fn tag_fault(
    schema: &ValidatorSchema,
    ty: &Type,
    key: &Text,
    v: &Value,
) -> Result<Option<StoreRule>, AllocError>
    ensures rule { IfOk result (λ rule. rule ≡ tag_fault schema.now ty.now key.now v.now) }
    ensures memory { OnErr result (IsSome (tag_fault schema.now ty.now key.now v.now)) }
{
    if !is_of(ty, v) {
        return Ok(Some(StoreRule::TagOfAnotherType(key.try_clone()?)));
    }
    if !lists_ids(schema, v) {
        return Ok(Some(StoreRule::TagHoldsUnlistedId(key.try_clone()?)));
    }
    Ok(None)
}

// Whether the value is of the type.
fn is_of(t: &Type, v: &Value) -> bool
    ensures { result ≡ is_of t.now v.now }
{
    has_value(t, v)
}

// The first rule that an ancestor breaks of an entity of the type.
fn broken_ancestor_rule(
    schema: &ValidatorSchema,
    ty: &EntityType,
    ancestors: &BTreeSet<EntityUID>,
) -> Result<Option<StoreRule>, AllocError>
    ensures rule { IfOk result (λ rule. rule ≡ ancestors_fault schema.now ty.now ancestors.now.keys) }
    ensures memory { OnErr result (IsSome (ancestors_fault schema.now ty.now ancestors.now.keys)) }
{
    for above in ancestors {
        if let Some(rule) = ancestor_fault(schema, ty, above)? {
            return Ok(Some(rule));
        }
    }
    Ok(None)
}

fn ancestor_fault(
    schema: &ValidatorSchema,
    ty: &EntityType,
    above: &EntityUID,
) -> Result<Option<StoreRule>, AllocError>
    ensures rule { IfOk result (λ rule. rule ≡ ancestor_fault schema.now ty.now above.now) }
    ensures memory { OnErr result (IsSome (ancestor_fault schema.now ty.now above.now)) }
{
    if !is_type_below(schema, ty, above.entity_type()) {
        return Ok(Some(StoreRule::AncestorNotAllowed(above.try_clone()?)));
    }
    if !is_listed(schema, above) {
        return Ok(Some(StoreRule::AncestorNotListed(above.try_clone()?)));
    }
    Ok(None)
}

// Whether entities of the type may have ancestors of the other.
fn is_type_below(schema: &ValidatorSchema, ty: &EntityType, above: &EntityType) -> bool
    ensures { result ≡ type_below schema.now ty.now above.now }
{
    match schema.get_entity_type(above) {
        Some(declared) => declared.descendants().contains(ty),
        None => false,
    }
}

// The least key of the fields.
fn least_key(fields: &BTreeMap<Text, Value>) -> Option<&Text>
    ensures { option_copied result ≡ first_key (fields_of fields.now.entries) }
{
    let (key, _) = fields.first_key_value()?;
    Some(key)
}
