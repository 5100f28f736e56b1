//! Literals, variables and slots.

ghost use Rattle.std.specs.Prelude.{◌≡◌, IfOk, Some};
ghost use Rattle.schema_core.specs.RequestEnvs.{env_data_of};
ghost use Rattle.policy_expressions.specs.Tree.{lit, var, slot};
ghost use Rattle.typing_spec.specs.Environment as environment;
ghost use Rattle.typecheck_rules.specs.Operators.{leaf_walked};
ghost use Rattle.typecheck_operators.specs.Reported.{mark, walked_of};

use crate::reported::{Reported, Typing, failed, typed};
use policy_expressions::{BuildError, Expr, Literal, Loc, SlotId, Var};
use schema_core::{RequestEnv, ValidatorSchema};
use schema_types::Type;
use std::alloc::Global;
use typecheck_rules::{literal_type, slot_type, variable_type};
use typing_spec::CapabilitySet;

/// A literal: its own type, where it has one.
pub fn literal_reported<'a>(
    alloc: Global,
    schema: &ValidatorSchema,
    l: &Literal,
    loc: Option<Loc>,
) -> Result<Reported<'a>, BuildError>
    ensures { IfOk result (λ r. walked_of r ≡
        leaf_walked (lit l.now) (mark loc) (environment.type_of_literal schema.now l.now)) }
{
    match literal_type(alloc, schema, l)? {
        Some(of) => {
            let note = or_drop!(of.try_clone(alloc), of);
            let l = or_drop!(l.try_clone(), of, note);
            let tree = Expr::lit(l, Some(note), loc);
            let caps = CapabilitySet::new(alloc);
            Ok(typed(alloc, Typing { of, caps, tree })?)
        }
        None => {
            let tree = Expr::lit(l.try_clone()?, None, loc);
            Ok(failed(alloc, tree, Vec::new(alloc))?)
        }
    }
}

/// A variable: the type that the environment gives it, where it gives one.
pub fn variable_reported<'a>(
    alloc: Global,
    schema: &ValidatorSchema,
    env: &RequestEnv<'_>,
    v: Var,
    loc: Option<Loc>,
) -> Result<Reported<'a>, BuildError>
    ensures { IfOk result (λ r. walked_of r ≡
        leaf_walked (var v) (mark loc) (environment.type_of_variable schema.now
        (env_data_of env.now) v)) }
{
    match variable_type(alloc, schema, env, v)? {
        Some(of) => {
            let note = or_drop!(of.try_clone(alloc), of);
            let tree = Expr::var(v, Some(note), loc);
            let caps = CapabilitySet::new(alloc);
            Ok(typed(alloc, Typing { of, caps, tree })?)
        }
        None => {
            let tree = Expr::var(v, None, loc);
            Ok(failed(alloc, tree, Vec::new(alloc))?)
        }
    }
}

/// A slot: the type that the environment gives what stands for it.
pub fn slot_reported<'a>(
    alloc: Global,
    env: &RequestEnv<'_>,
    id: SlotId,
    loc: Option<Loc>,
) -> Result<Reported<'a>, BuildError>
    ensures { IfOk result (λ r. walked_of r ≡
        leaf_walked (slot id) (mark loc) (Some (environment.type_of_slot (env_data_of env.now)
        id))) }
{
    let of = slot_type(alloc, env, id)?;
    let note = or_drop!(of.try_clone(alloc), of);
    let tree = Expr::slot(id, Some(note), loc);
    let caps = CapabilitySet::new(alloc);
    Ok(typed(alloc, Typing { of, caps, tree })?)
}
