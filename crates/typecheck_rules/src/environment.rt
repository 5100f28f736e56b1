//! What an environment says of the parts of expressions that hold no expression.

ghost use Rattle.std.specs.Prelude.{◌≡◌, ◌∷◌, [], IfOk, option_map};
ghost use Rattle.std.specs.Option.{option_copied};
ghost use Rattle.policy_expressions.specs.Tree.{trees_of};
ghost use Rattle.schema_core.specs.RequestEnvs.{env_data_of};
ghost use Rattle.typing_spec.specs.Environment as environment;

use policy_expressions::{Expr, ExprKind, Literal, SlotId, Var};
use policy_values::{EntityType, EntityUID};
use schema_core::{RequestEnv, ValidatorSchema, euid_literal};
use schema_types::Type;
use std::alloc::{AllocError, Global};

/// The type of what is known to be true, or known to be false.
pub fn truth_type(b: bool) -> Type
    ensures { result ≡ environment.truth_type b }
{
    if b {
        Type::singleton_boolean(true)
    } else {
        Type::singleton_boolean(false)
    }
}

/// The type of a literal; none exactly where it is an id that the schema does not know.
pub fn literal_type(
    alloc: Global,
    schema: &ValidatorSchema,
    literal: &Literal,
) -> Result<Option<Type>, AllocError>
    ensures { IfOk result (λ o. o ≡ environment.type_of_literal schema.now literal.now) }
{
    match literal {
        Literal::Bool(b) => Ok(Some(truth_type(*b))),
        Literal::Long(_) => Ok(Some(Type::primitive_long())),
        Literal::String(_) => Ok(Some(Type::primitive_string())),
        Literal::EntityUID(uid) => euid_literal(alloc, uid, schema),
    }
}

/// The type that the environment gives a variable.
pub fn variable_type(
    alloc: Global,
    schema: &ValidatorSchema,
    env: &RequestEnv<'_>,
    variable: Var,
) -> Result<Option<Type>, AllocError>
    ensures { IfOk result (λ o. o ≡ environment.type_of_variable schema.now (env_data_of env.now) variable) }
{
    match variable {
        Var::Principal => Ok(Some(env.principal_type(alloc)?)),
        Var::Action => env.action_type(alloc, schema),
        Var::Resource => Ok(Some(env.resource_type(alloc)?)),
        Var::Context => Ok(Some(env.context_type(alloc)?)),
    }
}

/// The type of what stands for a slot.
pub fn slot_type(alloc: Global, env: &RequestEnv<'_>, slot: SlotId) -> Result<Type, AllocError>
    ensures { IfOk result (λ t. t ≡ environment.type_of_slot (env_data_of env.now) slot) }
{
    match slot {
        SlotId::Principal => slot_entity(alloc, env.principal_slot()),
        SlotId::Resource => slot_entity(alloc, env.resource_slot()),
    }
}

fn slot_entity(alloc: Global, name: Option<&EntityType>) -> Result<Type, AllocError>
    ensures { IfOk result (λ t. t ≡ environment.slot_entity (option_copied name.entry)) }
{
    match name {
        Some(name) => Type::named_entity_reference(alloc, name.try_clone()?),
        None => Ok(Type::any_entity_reference()),
    }
}

/// The id that an expression is on every request of the environment.
pub fn known_id<'a>(env: &RequestEnv<'a>, e: &'a Expr<()>) -> Option<&'a EntityUID>
    ensures { option_copied result ≡ environment.known_id (env_data_of env.now) e.now }
{
    match e.kind() {
        ExprKind::Lit(Literal::EntityUID(uid)) => Some(uid),
        ExprKind::Var(Var::Action) => env.action_entity_uid(),
        _ => None,
    }
}

/// The ids that an expression lists: those of the elements of a set, or its own alone; none where one is
/// not known.
pub fn listed_ids<'a>(
    alloc: Global,
    env: &RequestEnv<'a>,
    e: &'a Expr<()>,
) -> Result<Option<Vec<EntityUID>>, AllocError>
    ensures { IfOk result
        (λ o. option_map (λ us. us.items) o ≡ environment.listed_ids (env_data_of env.now) e.now) }
{
    match e.kind() {
        ExprKind::Set(elements) => known_ids(alloc, env, elements),
        _ => own_id(alloc, known_id(env, e)),
    }
}

// The id alone, where it is known.
fn own_id(alloc: Global, uid: Option<&EntityUID>) -> Result<Option<Vec<EntityUID>>, AllocError>
    ensures { IfOk result
        (λ o. option_map (λ us. us.items) o ≡ option_map (λ u. u ∷ []) (option_copied uid.entry)) }
{
    match uid {
        Some(uid) => {
            let mut ids = Vec::new(alloc);
            ids.push(uid.try_clone()?)?;
            Ok(Some(ids))
        }
        None => Ok(None),
    }
}

// The ids of all these, where each is known.
fn known_ids<'a>(
    alloc: Global,
    env: &RequestEnv<'a>,
    elements: &'a [Expr<()>],
) -> Result<Option<Vec<EntityUID>>, AllocError>
    ensures { IfOk result (λ o. option_map (λ us. us.items) o ≡
        environment.known_ids (env_data_of env.now) (trees_of elements.now)) }
{
    let mut ids = Vec::new(alloc);
    for element in elements {
        match known_id(env, element) {
            Some(uid) => ids.push(uid.try_clone()?)?,
            None => return Ok(None),
        }
    }
    Ok(Some(ids))
}
