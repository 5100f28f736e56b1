//! What a schema says of roots and of edges.

ghost use Rattle.std.specs.Prelude.{◌≡◌, ◌∷◌, [], Some, IfOk};
ghost use Rattle.std.specs.Option.{option_map_or};
ghost use Rattle.schema_types.specs.Ty.{entity, record_of, no_attrs};
ghost use Rattle.schema_types.specs.declared.kinds.OpenTag.TheVariants.{ClosedAttributes};
ghost use Rattle.schema_core.specs.Schema.{type_at, action_at};
ghost use Rattle.schema_core.specs.EnvData.{literal_type};
ghost use Rattle.typing_spec.specs.Environment.{declared_tags};
ghost use Rattle.typing_spec.specs.Rules as rule;
ghost use Rattle.reads_spec.specs.PathTypes as paths;
ghost use Rattle.access_tries.specs.declared.edge.Step.TheVariants as step;
ghost use Rattle.manifest_core.specs.Mismatches as is;

use crate::error::{
    MismatchedEntityManifestError, MismatchedMissingEntityError, MismatchedNotStrictSchemaError,
};
use access_tries::{Edge, EntityRoot};
use entity_store::RequestType;
use policy_expressions::Var;
use policy_values::{EntityType, EntityUID, Text};
use schema_core::{ValidatorSchema, euid_literal};
use schema_types::{Attributes, EntityLUB, EntityRecordKind, OpenTag, Type, TypeKind};
use std::alloc::{AllocError, Global};
use std::collections::BTreeMap;
use typecheck_rules::attribute_of;

// A manifest names an id that a schema does not declare.
fn missing(uid: &EntityUID) -> Result<Option<MismatchedEntityManifestError>, AllocError>
    ensures { IfOk result (λ o. o ≡ Some (is.missing uid.now)) }
{
    let entity = uid.try_clone()?;
    Ok(Some(MismatchedEntityManifestError::MismatchedMissingEntity(MismatchedMissingEntityError {
        entity,
    })))
}

fn literal_fault(
    schema: &ValidatorSchema,
    uid: &EntityUID,
) -> Result<Option<MismatchedEntityManifestError>, AllocError>
    ensures { IfOk result (λ o. o ≡
        is.unless_there (literal_type schema.now uid.now) (is.missing uid.now)) }
{
    match (
        schema.get_action_id(uid),
        schema.get_entity_type(uid.entity_type()),
    ) {
        (None, None) => missing(uid),
        (Some(_), _) => Ok(None),
        (None, Some(_)) => Ok(None),
    }
}

fn action_fault(
    schema: &ValidatorSchema,
    uid: &EntityUID,
) -> Result<Option<MismatchedEntityManifestError>, AllocError>
    ensures { IfOk result (λ o. o ≡
        is.unless_there (action_at schema.now uid.now) (is.missing uid.now)) }
{
    match schema.get_action_id(uid) {
        Some(_) => Ok(None),
        None => missing(uid),
    }
}

fn type_fault(schema: &ValidatorSchema, name: &EntityType) -> Option<MismatchedEntityManifestError>
    ensures { result ≡ is.unless_there (type_at schema.now name.now) is.not_strict }
{
    match schema.get_entity_type(name) {
        Some(_) => None,
        None => Some(MismatchedEntityManifestError::MismatchedNotStrictSchema(
            MismatchedNotStrictSchemaError {},
        )),
    }
}

fn root_fault(
    schema: &ValidatorSchema,
    request_type: &RequestType,
    root: &EntityRoot,
) -> Result<Option<MismatchedEntityManifestError>, AllocError>
    ensures { IfOk result (λ o. o ≡ is.root_fault schema.now request_type.now root.now) }
{
    match root {
        EntityRoot::Literal(uid) => literal_fault(schema, uid),
        EntityRoot::Var(Var::Principal) => Ok(type_fault(schema, &request_type.principal)),
        EntityRoot::Var(Var::Action) => action_fault(schema, &request_type.action),
        EntityRoot::Var(Var::Resource) => Ok(type_fault(schema, &request_type.resource)),
        EntityRoot::Var(Var::Context) => action_fault(schema, &request_type.action),
    }
}

fn child_fault(t: &Type) -> Option<MismatchedEntityManifestError>
    ensures { result ≡ is.child_fault t.now }
{
    match t.kind() {
        TypeKind::EntityOrRecord(_) => None,
        _ => Some(MismatchedEntityManifestError::ChildOfPrimitive),
    }
}

/// What is wrong with an edge that leads on from a value of the type.
pub(crate) fn edge_fault(
    schema: &ValidatorSchema,
    request_type: &RequestType,
    t: &Type,
    edge: &Edge,
) -> Result<Option<MismatchedEntityManifestError>, AllocError>
    ensures { IfOk result (λ o. o ≡ is.edge_fault schema.now request_type.now t.now edge.now) }
{
    match edge {
        Edge::Root(root) => root_fault(schema, request_type, root),
        Edge::Field(_) => Ok(child_fault(t)),
        Edge::AnyTag => Ok(child_fault(t)),
    }
}

fn type_of_field(
    alloc: Global,
    schema: &ValidatorSchema,
    t: &Type,
    name: &Text,
) -> Result<Option<Type>, AllocError>
    ensures { IfOk result (λ o. o ≡ paths.type_along schema.now t.now (step.Field name.now)) }
{
    match attribute_of(alloc, schema, t, name)? {
        Some(attribute) => Ok(Some(attribute.attr_type)),
        None => Ok(None),
    }
}

fn type_of_tags(
    alloc: Global,
    schema: &ValidatorSchema,
    t: &Type,
) -> Result<Option<Type>, AllocError>
    ensures { IfOk result (λ o. o ≡ rule.tag_type schema.now t.now) }
{
    match t.kind() {
        TypeKind::EntityOrRecord(EntityRecordKind::Entity(lub)) => tags_of_one(alloc, schema, lub),
        _ => Ok(None),
    }
}

#[tactic(auto, using(typecheck_rules::proofs::TagSteps::tags_of_one))]
fn tags_of_one(
    alloc: Global,
    schema: &ValidatorSchema,
    lub: &EntityLUB,
) -> Result<Option<Type>, AllocError>
    ensures { IfOk result (λ o. o ≡ rule.tag_type schema.now (entity lub.now)) }
{
    match lub.get_single_entity() {
        Some(name) => declared_tags(alloc, schema, name),
        None => Ok(None),
    }
}

fn declared_tags(
    alloc: Global,
    schema: &ValidatorSchema,
    name: &EntityType,
) -> Result<Option<Type>, AllocError>
    ensures { IfOk result (λ o. o ≡ declared_tags schema.now name.now) }
{
    match schema.get_entity_type(name) {
        Some(declared) => match declared.tag_type() {
            Some(tags) => Ok(Some(tags.try_clone(alloc)?)),
            None => Ok(None),
        },
        None => Ok(None),
    }
}

fn entities_of(alloc: Global, name: &EntityType) -> Result<Option<Type>, AllocError>
    ensures { IfOk result (λ o. o ≡ Some (entity (name.now ∷ []))) }
{
    let name = name.try_clone()?;
    Ok(Some(Type::named_entity_reference(alloc, name)?))
}

// The type of the contexts in which an action is asked for; without fields, where it is not declared.
fn context_of(
    alloc: Global,
    schema: &ValidatorSchema,
    action: &EntityUID,
) -> Result<Option<Type>, AllocError>
    ensures { IfOk result (λ o. o ≡
        Some (record_of (option_map_or (λ a. a.context)
        (action_at schema.now action.now) no_attrs) ClosedAttributes)) }
{
    let attrs = match schema.context_type(action) {
        Some(attrs) => attrs.try_clone()?,
        None => Attributes::with_attributes(alloc, BTreeMap::new(alloc))?,
    };
    Ok(Some(Type::record(attrs, OpenTag::ClosedAttributes)))
}

fn root_type(
    alloc: Global,
    schema: &ValidatorSchema,
    request_type: &RequestType,
    root: &EntityRoot,
) -> Result<Option<Type>, AllocError>
    ensures { IfOk result (λ o. o ≡
        paths.root_type schema.now (is.environment_of schema.now request_type.now) root.now) }
{
    match root {
        EntityRoot::Literal(uid) => euid_literal(alloc, uid, schema),
        EntityRoot::Var(Var::Principal) => entities_of(alloc, &request_type.principal),
        EntityRoot::Var(Var::Action) => euid_literal(alloc, &request_type.action, schema),
        EntityRoot::Var(Var::Resource) => entities_of(alloc, &request_type.resource),
        EntityRoot::Var(Var::Context) => context_of(alloc, schema, &request_type.action),
    }
}

/// The type behind an edge that leads on from a value of the type, where the schema declares it.
pub(crate) fn type_behind(
    alloc: Global,
    schema: &ValidatorSchema,
    request_type: &RequestType,
    t: &Type,
    edge: &Edge,
) -> Result<Option<Type>, AllocError>
    ensures { IfOk result (λ o. o ≡ is.type_behind schema.now request_type.now t.now edge.now) }
{
    match edge {
        Edge::Field(name) => type_of_field(alloc, schema, t, name),
        Edge::AnyTag => type_of_tags(alloc, schema, t),
        Edge::Root(root) => root_type(alloc, schema, request_type, root),
    }
}
