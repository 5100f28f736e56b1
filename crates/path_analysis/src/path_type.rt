//! The types of what paths lead to, and the declared parts of paths.

ghost use Rattle.std.specs.Prelude.{◌≡◌, ◌≤◌, nat_eq, option_map, take, length, IfOk, IfSome, option_copied};
ghost use Rattle.schema_core.specs.EnvData.{context_type_in};
ghost use Rattle.schema_core.specs.RequestEnvs.{env_data_of};
ghost use Rattle.schema_types.specs.Ty.{entity};
ghost use Rattle.type_relations.specs.Attributes.{attrs_in, union_attrs};
ghost use Rattle.typing_spec.specs.Environment.{declared_attributes, declared_tags, type_of_variable};
ghost use Rattle.typing_spec.specs.Rules.{attribute_of, tag_type};
ghost use Rattle.reads_spec.specs.PathTypes.{type_along, step_on, types_along, is_declared, declared_steps, root_type, path_type, is_declared_path, declared_part};
ghost use Rattle.path_analysis.specs.PathView.{type_in};

use crate::setting::Setting;
use access_tries::{AccessPath, EntityRoot, Step};
use policy_expressions::Var;
use policy_values::{EntityType, Text};
use schema_core::{RequestEnv, ValidatorSchema, euid_literal};
use schema_types::{
    AttributeType, Attributes, DeclaredAttributes, EntityLUB, EntityRecordKind, Type, TypeKind,
};
use std::alloc::{AllocError, Global};
use type_relations::lookup_attribute_type;

/// The type of what a path leads to.
#[derive(Drop)]
pub(crate) enum PathType<'a> {
    /// It stands in the schema.
    Held(&'a Type),
    /// That of a context with these attributes.
    Context(&'a Attributes),
    /// It is made.
    Made(Type),
}

/// The type of what a path leads to, where each of its steps is declared.
pub(crate) fn path_type<'a>(
    at: &Setting<'a>,
    path: &AccessPath,
) -> Result<Option<PathType<'a>>, AllocError>
    ensures { IfOk result (λ o. option_map type_in o ≡
        path_type at.now.schema.now (env_data_of at.now.env.now) path.now) }
{
    let root = root_type(at, path.root())?;
    type_behind(at, root, path.steps())
}

/// The path as far as its steps are declared.
pub(crate) fn declared_part(at: &Setting<'_>, path: AccessPath) -> Result<AccessPath, AllocError>
    ensures { IfOk result (λ r. r ≡ declared_part at.now.schema.now (env_data_of at.now.env.now) path) }
{
    let count = declared_count(at, &path)?;
    let (root, mut steps) = path.into_parts();
    steps.truncate(count);
    Ok(AccessPath::new(root, steps))
}

/// Whether each step of the path is declared.
pub(crate) fn is_declared_path(at: &Setting<'_>, path: &AccessPath) -> Result<bool, AllocError>
    ensures { IfOk result (λ b. b ≡
        is_declared_path at.now.schema.now (env_data_of at.now.env.now) path.now) }
{
    Ok(declared_count(at, path)? == path.steps().len())
}

// How many steps are declared, from the root on.
fn declared_count(at: &Setting<'_>, path: &AccessPath) -> Result<usize, AllocError>
    ensures part { IfOk result (λ n. take n path.now.steps ≡
        declared_steps at.now.schema.now
        (root_type at.now.schema.now (env_data_of at.now.env.now) path.now.root) path.now.steps) }
    ensures whole { IfOk result (λ n. nat_eq n (length path.now.steps) ≡
        is_declared_path at.now.schema.now (env_data_of at.now.env.now) path.now) }
    ensures bound { IfOk result (λ n. n ≤ length path.now.steps) }
{
    let root = root_type(at, path.root())?;
    count_declared(at, root, path.steps())
}

fn count_declared<'a>(
    at: &Setting<'a>,
    t: Option<PathType<'a>>,
    steps: &[Step],
) -> Result<usize, AllocError>
    ensures part { IfOk result (λ n. take n steps.now ≡
        declared_steps at.now.schema.now (option_map type_in t.entry) steps.now) }
    ensures whole { IfOk result (λ n. nat_eq n (length steps.now) ≡
        is_declared at.now.schema.now (option_map type_in t.entry) steps.now) }
    ensures bound { IfOk result (λ n. n ≤ length steps.now) }
{
    match steps {
        [] => Ok(0),
        [first, rest @ ..] => match step_on(at, t, first)? {
            None => Ok(0),
            next => Ok(count_declared(at, next, rest)? + 1),
        },
    }
}

// The type behind the steps.
fn type_behind<'a>(
    at: &Setting<'a>,
    t: Option<PathType<'a>>,
    steps: &[Step],
) -> Result<Option<PathType<'a>>, AllocError>
    ensures { IfOk result (λ o. option_map type_in o ≡
        types_along at.now.schema.now (option_map type_in t.entry) steps.now) }
{
    match steps {
        [] => Ok(t),
        [first, rest @ ..] => {
            let next = step_on(at, t, first)?;
            type_behind(at, next, rest)
        }
    }
}

fn step_on<'a>(
    at: &Setting<'a>,
    t: Option<PathType<'a>>,
    step: &Step,
) -> Result<Option<PathType<'a>>, AllocError>
    ensures { IfOk result (λ o. option_map type_in o ≡
        step_on at.now.schema.now (option_map type_in t.entry) step.now) }
{
    match t {
        Some(t) => type_along(at, t, step),
        None => Ok(None),
    }
}

// The type one step on.
fn type_along<'a>(
    at: &Setting<'a>,
    t: PathType<'a>,
    step: &Step,
) -> Result<Option<PathType<'a>>, AllocError>
    ensures { IfOk result (λ o. option_map type_in o ≡
        type_along at.now.schema.now (type_in t.entry) step.now) }
{
    match step {
        Step::Field(name) => field_type(at, t, name),
        Step::AnyTag => Ok(tags_type(at.schema, t)),
    }
}

fn field_type<'a>(
    at: &Setting<'a>,
    t: PathType<'a>,
    name: &Text,
) -> Result<Option<PathType<'a>>, AllocError>
    ensures { IfOk result (λ o. option_map type_in o ≡
        option_map (λ a. a.attr_type) (attribute_of at.now.schema.now (type_in t.entry) name.now)) }
{
    match t {
        PathType::Held(t) => field_of(at, own_attributes(at.schema, t), t, name),
        PathType::Context(attributes) => Ok(held(attributes.get_attr(name))),
        PathType::Made(t) => field_of(at, attributes_of_one(at.schema, &t), &t, name),
    }
}

// By the attributes of the type, where they stand in one place: others are put together from several types.
fn field_of<'a>(
    at: &Setting<'a>,
    attributes: Option<&'a Attributes>,
    t: &Type,
    name: &Text,
) -> Result<Option<PathType<'a>>, AllocError>
    requires { IfSome attributes (λ xs. xs.now ≡
        attrs_in (declared_attributes at.now.schema.now) t.now) }
    ensures { IfOk result (λ o. option_map type_in o ≡
        option_map (λ a. a.attr_type) (attribute_of at.now.schema.now t.now name.now)) }
{
    match attributes {
        Some(attributes) => Ok(held(attributes.get_attr(name))),
        None => Ok(made(lookup_attribute_type(at.alloc, at.schema, t, name)?)),
    }
}

fn held<'a>(attribute: Option<&'a AttributeType>) -> Option<PathType<'a>>
    ensures { option_map type_in result ≡ option_map (λ a. a.attr_type) (option_copied attribute.entry) }
{
    match attribute {
        Some(attribute) => Some(PathType::Held(&attribute.attr_type)),
        None => None,
    }
}

fn made<'a>(attribute: Option<AttributeType>) -> Option<PathType<'a>>
    ensures { option_map type_in result ≡ option_map (λ a. a.attr_type) attribute }
{
    match attribute {
        Some(attribute) => Some(PathType::Made(attribute.attr_type)),
        None => None,
    }
}

fn own_attributes<'a>(schema: &'a ValidatorSchema, t: &'a Type) -> Option<&'a Attributes>
    ensures { IfSome result (λ xs. xs.now ≡ attrs_in (declared_attributes schema.now) t.now) }
{
    match t.kind() {
        TypeKind::EntityOrRecord(EntityRecordKind::Record { attrs, .. }) => Some(attrs),
        _ => attributes_of_one(schema, t),
    }
}

// The attributes of the entities of one type.
fn attributes_of_one<'a>(schema: &'a ValidatorSchema, t: &Type) -> Option<&'a Attributes>
    ensures { IfSome result (λ xs. xs.now ≡ attrs_in (declared_attributes schema.now) t.now) }
{
    match t.kind() {
        TypeKind::EntityOrRecord(EntityRecordKind::Entity(lub)) => declared_alone(schema, lub),
        _ => None,
    }
}

#[tactic(auto, using(crate::proofs::OneType::attributes_of_one))]
fn declared_alone<'a>(schema: &'a ValidatorSchema, lub: &EntityLUB) -> Option<&'a Attributes>
    ensures { IfSome result (λ xs. xs.now ≡ union_attrs (declared_attributes schema.now) lub.now) }
{
    match lub.get_single_entity() {
        Some(name) => schema.attributes_of(name),
        None => None,
    }
}

// The type of the tags.
fn tags_type<'a>(schema: &'a ValidatorSchema, t: PathType<'a>) -> Option<PathType<'a>>
    ensures { option_map type_in result ≡ tag_type schema.now (type_in t.entry) }
{
    match t {
        PathType::Held(t) => held_type(tags_of(schema, t)),
        PathType::Context(_) => None,
        PathType::Made(t) => held_type(tags_of(schema, &t)),
    }
}

fn held_type<'a>(t: Option<&'a Type>) -> Option<PathType<'a>>
    ensures { option_map type_in result ≡ option_copied t.entry }
{
    match t {
        Some(t) => Some(PathType::Held(t)),
        None => None,
    }
}

fn tags_of<'a>(schema: &'a ValidatorSchema, t: &Type) -> Option<&'a Type>
    ensures { option_copied result ≡ tag_type schema.now t.now }
{
    match t.kind() {
        TypeKind::EntityOrRecord(EntityRecordKind::Entity(lub)) => tags_of_one(schema, lub),
        _ => None,
    }
}

#[tactic(auto, using(crate::proofs::OneType::tags_of_one))]
fn tags_of_one<'a>(schema: &'a ValidatorSchema, lub: &EntityLUB) -> Option<&'a Type>
    ensures { option_copied result ≡ tag_type schema.now (entity lub.now) }
{
    match lub.get_single_entity() {
        Some(name) => declared_tags(schema, name),
        None => None,
    }
}

fn declared_tags<'a>(schema: &'a ValidatorSchema, name: &EntityType) -> Option<&'a Type>
    ensures { option_copied result ≡ declared_tags schema.now name.now }
{
    match schema.get_entity_type(name) {
        Some(declared) => declared.tag_type(),
        None => None,
    }
}

// The type of a root.
fn root_type<'a>(at: &Setting<'a>, root: &EntityRoot) -> Result<Option<PathType<'a>>, AllocError>
    ensures { IfOk result (λ o. option_map type_in o ≡
        root_type at.now.schema.now (env_data_of at.now.env.now) root.now) }
{
    match root {
        EntityRoot::Literal(uid) => Ok(made_type(euid_literal(at.alloc, uid, at.schema)?)),
        EntityRoot::Var(var) => variable_type(at, *var),
    }
}

fn variable_type<'a>(at: &Setting<'a>, var: Var) -> Result<Option<PathType<'a>>, AllocError>
    ensures { IfOk result (λ o. option_map type_in o ≡
        type_of_variable at.now.schema.now (env_data_of at.now.env.now) var) }
{
    match var {
        Var::Principal => Ok(Some(PathType::Made(at.env.principal_type(at.alloc)?))),
        Var::Action => Ok(made_type(at.env.action_type(at.alloc, at.schema)?)),
        Var::Resource => Ok(Some(PathType::Made(at.env.resource_type(at.alloc)?))),
        Var::Context => Ok(Some(context_type(at)?)),
    }
}

fn context_type<'a>(at: &Setting<'a>) -> Result<PathType<'a>, AllocError>
    ensures { IfOk result (λ t. type_in t ≡ context_type_in (env_data_of at.now.env.now)) }
{
    match at.env {
        RequestEnv::DeclaredAction { context, .. } => Ok(PathType::Context(context)),
        RequestEnv::UndeclaredAction => Ok(PathType::Made(at.env.context_type(at.alloc)?)),
    }
}

fn made_type<'a>(t: Option<Type>) -> Option<PathType<'a>>
    ensures { option_map type_in result ≡ t }
{
    match t {
        Some(t) => Some(PathType::Made(t)),
        None => None,
    }
}
