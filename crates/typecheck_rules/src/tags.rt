//! The rules of tags, and what is found of `getTag`.

ghost use Rattle.std.specs.Prelude.{◌≡◌, IfOk};
ghost use Rattle.std.specs.Option.{option_copied, option_and_then};
ghost use Rattle.schema_types.specs.Names.{only_name};
ghost use Rattle.schema_types.specs.Ty.{entity};
ghost use Rattle.findings.specs.Finding as finding;
ghost use Rattle.type_relations.specs.Attributes.{names_of};
ghost use Rattle.typing_spec.specs.Environment as environment;
ghost use Rattle.typing_spec.specs.Rules as rule;
ghost use Rattle.typecheck_rules.specs.Own as own;
ghost use Rattle.typecheck_rules.specs.Walked as walked;
ghost use Rattle.typecheck_rules.specs.Found.{findings_from};

use crate::booleans::possible;
use crate::finding::{Finding, FindingKind, one};
use crate::shapes::{is_entity, is_string};
use policy_expressions::{Expr, ExprKind, Literal, Loc};
use policy_values::{EntityType, Quoted, Text};
use schema_core::ValidatorSchema;
use schema_types::{EntityLUB, EntityRecordKind, Type, TypeKind};
use std::alloc::{AllocError, Global};

fn declared_tags<'s>(schema: &'s ValidatorSchema, name: &EntityType) -> Option<&'s Type>
    ensures { option_copied result ≡ environment.declared_tags schema.now name.now }
{
    match schema.get_entity_type(name) {
        Some(declared) => declared.tag_type(),
        None => None,
    }
}

/// The type of the tags of an entity, where it may have tags and their type is known.
pub fn tag_type(
    alloc: Global,
    schema: &ValidatorSchema,
    t: &Type,
) -> Result<Option<Type>, AllocError>
    ensures { IfOk result (λ o. o ≡ rule.tag_type schema.now t.now) }
{
    match t.kind() {
        TypeKind::EntityOrRecord(EntityRecordKind::Entity(lub)) => tags_of_one(alloc, schema, lub),
        _ => Ok(None),
    }
}

#[tactic(auto, using(crate::proofs::TagSteps::tags_of_one))]
fn tags_of_one(
    alloc: Global,
    schema: &ValidatorSchema,
    lub: &EntityLUB,
) -> Result<Option<Type>, AllocError>
    ensures { IfOk result (λ o. o ≡ rule.tag_type schema.now (entity lub.now)) }
{
    match lub.get_single_entity() {
        Some(name) => copied(alloc, declared_tags(schema, name)),
        None => Ok(None),
    }
}

fn copied(alloc: Global, t: Option<&Type>) -> Result<Option<Type>, AllocError>
    ensures { IfOk result (λ o. o ≡ option_copied t.entry) }
{
    match t {
        Some(t) => Ok(Some(t.try_clone(alloc)?)),
        None => Ok(None),
    }
}

/// Whether an entity of the type may have tags.
pub fn may_have_tags(schema: &ValidatorSchema, t: &Type) -> bool
    ensures { result ≡ rule.may_have_tags schema.now t.now }
{
    match t.kind() {
        TypeKind::EntityOrRecord(EntityRecordKind::AnyEntity) => true,
        TypeKind::EntityOrRecord(EntityRecordKind::Entity(lub)) => some_has_tags(schema, lub),
        _ => false,
    }
}

fn some_has_tags(schema: &ValidatorSchema, lub: &EntityLUB) -> bool
    ensures { result ≡ rule.may_have_tags schema.now (entity lub.now) }
{
    for name in lub.iter() {
        if declared_tags(schema, name).is_some() {
            return true;
        }
    }
    false
}

/// The type of `hasTag`.
pub fn has_tag_type(schema: &ValidatorSchema, t: &Type, u: &Type) -> Option<Type>
    ensures { result ≡ rule.has_tag_type schema.now t.now u.now }
{
    if is_entity(t) && is_string(u) {
        Some(possible(may_have_tags(schema, t)))
    } else {
        None
    }
}

/// The type of `getTag`, by whether the tag is known to be there.
pub fn get_tag_type(
    alloc: Global,
    schema: &ValidatorSchema,
    known: bool,
    t: &Type,
    u: &Type,
) -> Result<Option<Type>, AllocError>
    ensures { IfOk result (λ o. o ≡ rule.get_tag_type schema.now known t.now u.now) }
{
    if is_entity(t) && is_string(u) && known {
        tag_type(alloc, schema, t)
    } else {
        Ok(None)
    }
}

/// What is found of `getTag`, by whether the tag is known to be there, the tag's expression and the
/// entity's type.
pub fn tag_found(
    alloc: Global,
    schema: &ValidatorSchema,
    known: bool,
    tag: &Expr<()>,
    loc: Option<Loc>,
    t: &Type,
) -> Result<Vec<Finding>, AllocError>
    ensures { IfOk result (λ r. findings_from r.items ≡ own.tag_found schema.now known tag.now loc t.now) }
{
    if known {
        no_tags_found(alloc, schema, loc, t)
    } else {
        let tag = tag_text(alloc, tag)?;
        let types = entity_names(t)?;
        one(alloc, FindingKind::UnsafeTagAccess(types, tag), loc)
    }
}

fn no_tags_found(
    alloc: Global,
    schema: &ValidatorSchema,
    loc: Option<Loc>,
    t: &Type,
) -> Result<Vec<Finding>, AllocError>
    ensures { IfOk result (λ r. findings_from r.items ≡ own.if_none (rule.tag_type schema.now t.now)
        (walked.one (finding.NoTagsAllowed (option_and_then only_name (names_of t.now))) loc)) }
{
    match tag_type(alloc, schema, t)? {
        Some(tags) => {
            drop(tags);
            Ok(Vec::new(alloc))
        }
        None => {
            let name = only_type(t)?;
            one(alloc, FindingKind::NoTagsAllowed(name), loc)
        }
    }
}

// The only type of an entity, where it is known.
fn only_type(t: &Type) -> Result<Option<EntityType>, AllocError>
    ensures { IfOk result (λ o. o ≡ option_and_then only_name (names_of t.now)) }
{
    match t.kind() {
        TypeKind::EntityOrRecord(EntityRecordKind::Entity(lub)) => single(lub),
        TypeKind::EntityOrRecord(EntityRecordKind::ActionEntity { name, .. }) => {
            Ok(Some(name.try_clone()?))
        }
        _ => Ok(None),
    }
}

fn single(lub: &EntityLUB) -> Result<Option<EntityType>, AllocError>
    ensures { IfOk result (λ o. o ≡ only_name lub.now) }
{
    match lub.get_single_entity() {
        Some(name) => Ok(Some(name.try_clone()?)),
        None => Ok(None),
    }
}

// The types of an entity that is no action, where they are known.
fn entity_names(t: &Type) -> Result<Option<EntityLUB>, AllocError>
    ensures { IfOk result (λ o. o ≡ own.entity_names t.now) }
{
    match t.kind() {
        TypeKind::EntityOrRecord(EntityRecordKind::Entity(lub)) => Ok(Some(lub.try_clone()?)),
        _ => Ok(None),
    }
}

// How a tag prints: a string literal as a string.
fn tag_text(alloc: Global, tag: &Expr<()>) -> Result<Text, AllocError>
    ensures { IfOk result (λ t. t ≡ own.tag_text tag.now) }
{
    match tag.kind() {
        ExprKind::Lit(Literal::String(text)) => {
            let text = Quoted(text);
            let printed = format!(in alloc; "\"{text}\"")?;
            Text::from_string(printed)
        }
        _ => Text::from_str(alloc, "<expression>"),
    }
}
