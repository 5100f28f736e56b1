//! Environments of a schema, and what is known of expressions.

use crate::lines::{assert_same, document_of};
use json_document::Document;
use policy_expressions::{Expr, Var};
use policy_values::Text;
use schema_core::{RequestEnv, ValidatorSchema, euid_literal};
use std::alloc::{AllocError, Global};
use typing_spec::{Capability, CapabilitySet};

const DOCUMENT: &str =
    r#"{"schema":{"entityTypes":{"Group":{},"Photo":{},"User":{"memberOf":["Group"]}},"actions":[{"id":["Action","view"],"principals":["User","Group"],"resources":["Photo"],"context":{"n":"Long"}},{"id":["Action","list"]}]}}"#;

// Its environments, in their order, each with whether its action is declared and whether it has slots: an
// action that applies to nothing has none.
const ENVIRONMENTS: &str = r#"Group Action::"view" Photo true false false
User Action::"view" Photo true false false
"#;

// That all types of an environment can be made.
fn make_types(alloc: Global, schema: &ValidatorSchema, env: &RequestEnv) -> Result<(), AllocError> {
    drop(env.principal_type(alloc)?);
    drop(env.action_type(alloc, schema)?);
    drop(env.resource_type(alloc)?);
    drop(env.context_type(alloc)?);
    Ok(())
}

fn is_declared(
    alloc: Global,
    schema: &ValidatorSchema,
    env: &RequestEnv,
) -> Result<bool, AllocError> {
    match env.action_entity_uid() {
        Some(action) => Ok(euid_literal(alloc, action, schema)?.is_some()),
        None => Ok(false),
    }
}

// The entries of an environment.
fn add_env(env: &RequestEnv, is_declared: bool, text: &mut String) -> Result<(), AllocError> {
    let Some(ty) = env.to_request_type()? else {
        return text.push_str("no action\n");
    };
    write!(
        text,
        "{} {} {} {is_declared} ",
        ty.principal, ty.action, ty.resource
    )?;
    let of_principal = env.principal_slot().is_some();
    write!(text, "{of_principal} {}\n", env.resource_slot().is_some())
}

fn add_envs(alloc: Global, document: &Document, text: &mut String) -> Result<(), AllocError> {
    for env in document.schema.unlinked_request_envs(alloc)? {
        make_types(alloc, &document.schema, &env)?;
        let is_declared = is_declared(alloc, &document.schema, &env)?;
        add_env(&env, is_declared, text)?;
    }
    Ok(())
}

#[test]
fn environments_of_a_schema(rt: HostRuntime) -> Result<(), AllocError> {
    let document = document_of(rt.alloc(), DOCUMENT)?;
    let mut text = String::new(rt.alloc());
    add_envs(rt.alloc(), &document, &mut text)?;
    assert_same(&rt, text.as_str(), ENVIRONMENTS);
    Ok(())
}

// That of which it is known that it has the attribute.
fn known<'a>(alloc: Global, expr: &'a Expr<()>, name: &str) -> Result<Capability<'a>, AllocError> {
    Ok(Capability::new_attribute(expr, Text::from_str(alloc, name)?))
}

fn set_of<'a>(alloc: Global, one: &Capability<'a>) -> Result<CapabilitySet<'a>, AllocError> {
    CapabilitySet::singleton(alloc, one.try_clone(alloc)?)
}

fn union_of<'a>(
    alloc: Global,
    one: &Capability<'a>,
    other: &Capability<'a>,
) -> Result<CapabilitySet<'a>, AllocError> {
    set_of(alloc, one)?.union(&set_of(alloc, other)?)
}

// What is common to the set of both and to the set of the other.
fn common_of<'a>(
    alloc: Global,
    one: &Capability<'a>,
    other: &Capability<'a>,
) -> Result<CapabilitySet<'a>, AllocError> {
    union_of(alloc, one, other)?.intersect(&set_of(alloc, other)?)
}

// Whether the set holds what is known of each of two expressions.
fn add_set(
    set: &CapabilitySet<'_>,
    one: &Capability<'_>,
    other: &Capability<'_>,
    text: &mut String,
) -> Result<(), AllocError> {
    write!(text, "{} {}|", set.contains(one), set.contains(other))
}

// Of the set of one, of both, and of what is common to both and to the other.
fn add_sets<'a>(
    alloc: Global,
    one: &Capability<'a>,
    other: &Capability<'a>,
    text: &mut String,
) -> Result<(), AllocError> {
    add_set(&set_of(alloc, one)?, one, other, text)?;
    add_set(&union_of(alloc, one, other)?, one, other, text)?;
    add_set(&common_of(alloc, one, other)?, one, other, text)
}

fn sets(alloc: Global, text: &mut String) -> Result<(), AllocError> {
    let principal = Expr::var(Var::Principal, (), None);
    let resource = Expr::var(Var::Resource, (), None);
    let name = known(alloc, &principal, "name")?;
    let owner = known(alloc, &resource, "owner")?;
    add_sets(alloc, &name, &owner, text)
}

#[test]
fn what_is_known_of_expressions(rt: HostRuntime) -> Result<(), AllocError> {
    let mut text = String::new(rt.alloc());
    sets(rt.alloc(), &mut text)?;
    assert_same(&rt, text.as_str(), "true false|true true|false true|");
    Ok(())
}
