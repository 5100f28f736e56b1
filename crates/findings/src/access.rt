//! How an attribute is reached.

ghost use Rattle.std.specs.Prelude.{◌≡◌, ◌++◌, ◌∷◌, IfOk, OnOk, Some, option_copied, string_bytes, codes};
ghost use Rattle.schema_core.specs.RequestEnvs.{env_data_of};
ghost use Rattle.findings.specs.Access.{types_noted, variable_access, access_of, attribute_access};
ghost use Rattle.findings.specs.Texts.{guard_of, guard_text};

use crate::ListOf;
use policy_expressions::{Expr, ExprKind, Var};
use policy_values::{EntityUID, Text};
use schema_core::RequestEnv;
use schema_types::{EntityLUB, EntityRecordKind, Type, TypeKind};
use std::alloc::{AllocError, Global};
use std::fmt::Write;

/// Attributes, from the left, and of what they are.
#[derive(Debug, Drop, PartialEq, Eq, Hash)]
pub enum AttributeAccess {
    /// Of an entity of one of these types.
    EntityLUB(EntityLUB, ListOf<Text>),
    /// Of the context of this action.
    Context(EntityUID, ListOf<Text>),
    /// Of anything else.
    Other(ListOf<Text>),
}

impl AttributeAccess {
    /// How the attribute of the expression is reached. By what is met first from it to the left, through
    /// accesses: an expression that is typed as an entity, and not as an action; the context of a declared
    /// action; anything else but an access.
    pub fn from_expr(
        alloc: Global,
        req_env: &RequestEnv<'_>,
        expr: &Expr<Option<Type>>,
        attr: Text,
    ) -> Result<AttributeAccess, AllocError>
        ensures { IfOk result (λ access. access ≡ attribute_access (env_data_of req_env.now) expr.now attr) }
    {
        let mut attrs = Vec::new(alloc);
        attrs.push(attr)?;
        access_of(req_env, expr, attrs)
    }

    /// The test that would make the access safe.
    pub fn suggested_has_guard(&self, alloc: Global) -> Result<Text, AllocError>
        ensures { IfOk result (λ guard. guard ≡ guard_text self.now) }
    {
        match self {
            AttributeAccess::EntityLUB(_, attrs) => guard_of(alloc, "e", attrs),
            AttributeAccess::Context(_, attrs) => guard_of(alloc, "context", attrs),
            AttributeAccess::Other(attrs) => guard_of(alloc, "e", attrs),
        }
    }
}

// The attributes of the target.
fn access_of(
    env: &RequestEnv<'_>,
    target: &Expr<Option<Type>>,
    attrs: Vec<Text>,
) -> Result<AttributeAccess, AllocError>
    ensures { IfOk result (λ access. access ≡ access_of (env_data_of env.now) target.now attrs.items) }
{
    match noted_types(target.data()) {
        Some(types) => Ok(AttributeAccess::EntityLUB(types.try_clone()?, ListOf::new(attrs))),
        None => match target.kind() {
            ExprKind::GetAttr(x, attr) => {
                let more = in_prefix(attrs, attr)?;
                access_of(env, x, more)
            }
            ExprKind::Var(v) => variable_access(env, *v, attrs),
            _ => Ok(AttributeAccess::Other(ListOf::new(attrs))),
        },
    }
}

// The entity types of a note.
fn noted_types(note: &Option<Type>) -> Option<&EntityLUB>
    ensures { option_copied result ≡ types_noted note.now }
{
    match note {
        None => None,
        Some(t) => match t.kind() {
            TypeKind::EntityOrRecord(kind) => match kind {
                EntityRecordKind::Entity(types) => Some(types),
                _ => None,
            },
            _ => None,
        },
    }
}

// The attributes of a variable that is no entity of a known type.
fn variable_access(
    env: &RequestEnv<'_>,
    v: Var,
    attrs: Vec<Text>,
) -> Result<AttributeAccess, AllocError>
    ensures { IfOk result (λ access. access ≡ variable_access (env_data_of env.now) v attrs.items) }
{
    match v {
        Var::Context => match env.action_entity_uid() {
            Some(action) => Ok(AttributeAccess::Context(action.try_clone()?, ListOf::new(attrs))),
            None => Ok(AttributeAccess::Other(ListOf::new(attrs))),
        },
        _ => Ok(AttributeAccess::Other(ListOf::new(attrs))),
    }
}

// The attribute, and then the attributes.
fn in_prefix(mut attrs: Vec<Text>, attr: &Text) -> Result<Vec<Text>, AllocError>
    ensures { IfOk result (λ more. more.items ≡ attr.now ∷ attrs.items) }
{
    let attr = attr.try_clone()?;
    attrs.insert(0, attr)?;
    Ok(attrs)
}

// The test for the last attribute of an expression; for some attribute, where there is none.
fn guard_of(alloc: Global, start: &str, attrs: &ListOf<Text>) -> Result<Text, AllocError>
    ensures { IfOk result (λ guard. guard ≡ guard_of start.now attrs.now) }
{
    let mut text = String::from_str(alloc, start)?;
    let mut rest = attrs.as_slice().iter();
    let Some(first) = rest.next() else {
        text.push_str(" has f")?;
        return Text::from_string(text);
    };
    let mut last = first;
    for attr in rest {
        add_attribute(&mut text, last)?;
        last = attr;
    }
    add_test(&mut text, last)?;
    Text::from_string(text)
}

// Adds an attribute that is reached on the way.
fn add_attribute(text: &mut String, attr: &Text) -> Result<(), AllocError>
    ensures { OnOk result (string_bytes text.new ≡ string_bytes text.old ++ (codes "." ++ attr.now)) }
{
    write!(text, ".{attr}")?;
    Ok(())
}

// Adds the test for the attribute.
fn add_test(text: &mut String, attr: &Text) -> Result<(), AllocError>
    ensures { OnOk result (string_bytes text.new ≡ string_bytes text.old ++ (codes " has " ++ attr.now)) }
{
    write!(text, " has {attr}")?;
    Ok(())
}
