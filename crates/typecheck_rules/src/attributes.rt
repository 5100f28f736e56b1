//! The rules of attributes and of `is`, and what is found of `.`.

ghost use Rattle.std.specs.Prelude.{◌≡◌, ◌∷◌, [], IfOk, IfSome, option_copied};
ghost use Rattle.std.specs.List.{list_all};
ghost use Rattle.schema_core.specs.RequestEnvs.{env_data_of};
ghost use Rattle.type_relations.specs.Attributes.{attrs_in, union_attrs};
ghost use Rattle.type_relations.specs.Join.{text_eq};
ghost use Rattle.typing_spec.specs.Environment.{declared_attributes};
ghost use Rattle.typing_spec.specs.Rules as rule;
ghost use Rattle.findings.specs.Access as access;
ghost use Rattle.findings.specs.Finding as finding;
ghost use Rattle.typecheck_rules.specs.Own as own;
ghost use Rattle.typecheck_rules.specs.Walked as walked;
ghost use Rattle.typecheck_rules.specs.Found.{findings_from};

use crate::booleans::possible;
use crate::finding::{Finding, FindingKind, one};
use crate::shapes::{has_attributes, is_record};
use findings::AttributeAccess;
use policy_expressions::{Expr, Loc};
use policy_values::{EntityType, Text};
use schema_core::{RequestEnv, ValidatorSchema};
use schema_types::{
    AttributeType, Attributes, DeclaredAttributes, EntityLUB, EntityRecordKind, Type, TypeKind,
};
use std::alloc::{AllocError, Global};
use std::cmp::Ordering;
use type_relations::{lookup_attribute_type, may_have_attr};

/// The attribute that the values of the type declare.
pub fn attribute_of(
    alloc: Global,
    schema: &ValidatorSchema,
    t: &Type,
    n: &Text,
) -> Result<Option<AttributeType>, AllocError>
    ensures { IfOk result (λ o. o ≡ rule.attribute_of schema.now t.now n.now) }
{
    match own_attributes(schema, t) {
        Some(attributes) => copied(alloc, attributes.get_attr(n)),
        None => lookup_attribute_type(alloc, schema, t, n),
    }
}

// All attributes of the type, where they stand in one place: others are put together from several types.
fn own_attributes<'a>(schema: &'a ValidatorSchema, t: &'a Type) -> Option<&'a Attributes>
    ensures { IfSome result (λ xs. xs.now ≡ attrs_in (declared_attributes schema.now) t.now) }
{
    match t.kind() {
        TypeKind::EntityOrRecord(kind) => match kind {
            EntityRecordKind::Record { attrs, .. } => Some(attrs),
            EntityRecordKind::ActionEntity { attrs, .. } => Some(attrs),
            EntityRecordKind::Entity(lub) => declared_alone(schema, lub),
            EntityRecordKind::AnyEntity => None,
        },
        _ => None,
    }
}

#[tactic(auto, using(crate::proofs::AttributeSteps::alone))]
fn declared_alone<'a>(schema: &'a ValidatorSchema, lub: &EntityLUB) -> Option<&'a Attributes>
    ensures { IfSome result (λ xs. xs.now ≡ union_attrs (declared_attributes schema.now) lub.now) }
{
    match lub.get_single_entity() {
        Some(name) => schema.attributes_of(name),
        None => None,
    }
}

fn copied(
    alloc: Global,
    attribute: Option<&AttributeType>,
) -> Result<Option<AttributeType>, AllocError>
    ensures { IfOk result (λ o. o ≡ option_copied attribute.entry) }
{
    match attribute {
        Some(attribute) => Ok(Some(attribute.try_clone(alloc)?)),
        None => Ok(None),
    }
}

/// The type of `has`, by whether the attribute is known to be there, and by the attribute that the operand's
/// type declares.
pub fn has_type(
    schema: &ValidatorSchema,
    known: bool,
    t: &Type,
    n: &Text,
    attribute: &Option<AttributeType>,
) -> Option<Type>
    requires { attribute.now ≡ rule.attribute_of schema.now t.now n.now }
    ensures { result ≡ rule.has_type schema.now known t.now n.now }
{
    if has_attributes(t) {
        match attribute {
            Some(declared) => Some(declared_has(known, t, declared)),
            None => Some(possible(may_have_attr(schema, t, n))),
        }
    } else {
        None
    }
}

fn declared_has(known: bool, t: &Type, attribute: &AttributeType) -> Type
    ensures { result ≡ rule.declared_has known t.now attribute.now }
{
    if known || (attribute.is_required() && is_record(t)) {
        Type::singleton_boolean(true)
    } else {
        Type::primitive_boolean()
    }
}

/// The type of `is`.
pub fn is_type(t: &Type, n: &EntityType) -> Option<Type>
    ensures { result ≡ rule.is_type t.now n.now }
{
    match t.kind() {
        TypeKind::EntityOrRecord(kind) => match kind {
            EntityRecordKind::Record { .. } => None,
            EntityRecordKind::AnyEntity => Some(Type::primitive_boolean()),
            EntityRecordKind::Entity(lub) => Some(is_one_of(lub, n)),
            EntityRecordKind::ActionEntity { name, .. } => Some(is_same(name, n)),
        },
        _ => None,
    }
}

fn is_same(name: &EntityType, n: &EntityType) -> Type
    ensures { result ≡ rule.is_one_of (name.now ∷ []) n.now }
{
    if is_same_name(n, name) {
        Type::singleton_boolean(true)
    } else {
        Type::singleton_boolean(false)
    }
}

fn is_one_of(lub: &EntityLUB, n: &EntityType) -> Type
    ensures { result ≡ rule.is_one_of lub.now n.now }
{
    if !lub.contains(n) {
        Type::singleton_boolean(false)
    } else if are_all(lub, n) {
        Type::singleton_boolean(true)
    } else {
        Type::primitive_boolean()
    }
}

fn are_all(lub: &EntityLUB, n: &EntityType) -> bool
    ensures { result ≡ list_all (text_eq n.now) lub.now }
{
    for name in lub.iter() {
        if !is_same_name(n, name) {
            return false;
        }
    }
    true
}

fn is_same_name(n: &EntityType, name: &EntityType) -> bool
    ensures { result ≡ text_eq n.now name.now }
{
    n.cmp(name) == Ordering::Equal
}

/// What is found of an attribute that may be absent.
pub fn optional_found(
    alloc: Global,
    env: &RequestEnv<'_>,
    tree: &Expr<Option<Type>>,
    n: &Text,
    loc: Option<Loc>,
) -> Result<Vec<Finding>, AllocError>
    ensures { IfOk result (λ r. findings_from r.items ≡ walked.one
        (finding.UnsafeOptionalAttributeAccess (access.attribute_access (env_data_of env.now) tree.now n.now))
        loc) }
{
    let access = AttributeAccess::from_expr(alloc, env, tree, n.try_clone()?)?;
    one(
        alloc,
        FindingKind::UnsafeOptionalAttributeAccess(access),
        loc,
    )
}

/// What is found of an attribute that is not declared.
pub fn undeclared_found(
    alloc: Global,
    schema: &ValidatorSchema,
    env: &RequestEnv<'_>,
    tree: &Expr<Option<Type>>,
    t: &Type,
    n: &Text,
    loc: Option<Loc>,
) -> Result<Vec<Finding>, AllocError>
    ensures { IfOk result (λ r. findings_from r.items ≡
        own.undeclared_found schema.now (access.attribute_access (env_data_of env.now) tree.now n.now)
        n.now loc t.now) }
{
    let access = AttributeAccess::from_expr(alloc, env, tree, n.try_clone()?)?;
    let may_exist = may_have_attr(schema, t, n);
    one(
        alloc,
        FindingKind::UnsafeAttributeAccess(access, may_exist),
        loc,
    )
}
