//! The check of a condition in an environment.

ghost use Rattle.std.specs.Prelude.{◌≡◌, ◌∷◌, [], IfOk, nat_lt};
ghost use Rattle.schema_core.specs.RequestEnvs.{env_data_of};
ghost use Rattle.policy_expressions.specs.Tree.{depth_of};
ghost use Rattle.typecheck_rules.specs.Check.{check_walked, checked, condition_walked};
ghost use Rattle.typecheck_operators.specs.Reported.{walked_of};
ghost use Rattle.typecheck_walk.specs.Answer.{Reports, too_deep};

use crate::PolicyCheck;
use crate::errors::errors_of;
use crate::setting::Setting;
use crate::walks::walk;
use findings::{TooDeep, ValidationError};
use policy_expressions::{BuildError, Expr};
use policy_values::Text;
use schema_types::{Primitive, TypeKind};
use std::alloc::{AllocError, Global};
use typecheck_operators::{Failure, Reported, expect, into_tree};
use typecheck_rules::Expected;
use typing_spec::CapabilitySet;

// What is deeper is not typed.
const MAX_TYPED_DEPTH: u32 = 200;

/// Whether a condition is too deep to be typed.
pub fn is_too_deep(condition: &Expr<()>) -> bool
    ensures { result ≡ nat_lt 200 (depth_of condition.now) }
{
    condition.depth() > MAX_TYPED_DEPTH
}

/// The check of a condition in an environment: what is deeper than 200 fails with `TooDeep` alone.
pub fn check_condition<'a>(
    at: &Setting<'a, '_, '_, '_>,
    id: &Text,
    condition: &'a Expr<()>,
) -> Result<PolicyCheck, AllocError>
    ensures { IfOk result
        (λ r. Reports id.now (checked at.now.schema.now
        (env_data_of at.now.env.now) condition.now) r) }
{
    if is_too_deep(condition) {
        return Ok(PolicyCheck::Fail(only_too_deep(at.alloc, id)?));
    }
    check_walk(at, id, condition)
}

/// The check of an expression, at any depth.
pub fn check_walk<'a>(
    at: &Setting<'a, '_, '_, '_>,
    id: &Text,
    e: &'a Expr<()>,
) -> Result<PolicyCheck, AllocError>
    ensures { IfOk result
        (λ r. Reports id.now (check_walked
        (condition_walked at.now.schema.now (env_data_of at.now.env.now) e.now)) r) }
{
    match walk_condition(at, e) {
        Ok(reported) => answer(at.alloc, id, reported),
        // An expression with types is no deeper than the expression itself, so that there is memory alone
        // to want.
        Err(_) => Err(AllocError),
    }
}

/// That the policy's condition is too deep.
pub fn only_too_deep(alloc: Global, id: &Text) -> Result<Vec<ValidationError>, AllocError>
    ensures { IfOk result (λ es. es.items ≡ too_deep id.now ∷ []) }
{
    let error = ValidationError::TooDeep(TooDeep {
        source_loc: None,
        policy_id: id.try_clone()?,
    });
    let mut errors = Vec::new(alloc);
    errors.push(error)?;
    Ok(errors)
}

fn walk_condition<'a>(
    at: &Setting<'a, '_, '_, '_>,
    e: &'a Expr<()>,
) -> Result<Reported<'a>, BuildError>
    ensures { IfOk result (λ r. walked_of r ≡
        condition_walked at.now.schema.now (env_data_of at.now.env.now) e.now) }
{
    let caps = CapabilitySet::new(at.alloc);
    let reported = walk(at, &caps, e)?;
    let reported = expect(at.alloc, Expected::Boolean, e.source_loc(), reported)?;
    Ok(reported)
}

fn answer(alloc: Global, id: &Text, reported: Reported<'_>) -> Result<PolicyCheck, AllocError>
    ensures { IfOk result (λ r. Reports id.now (check_walked (walked_of reported.entry)) r) }
{
    match reported {
        Reported::Success(a) => match a.of.kind() {
            TypeKind::True
            | TypeKind::Primitive {
                primitive_type: Primitive::Bool,
            } => Ok(PolicyCheck::Success(into_tree(Box::into_inner(a)))),
            TypeKind::False => Ok(PolicyCheck::Irrelevant(into_tree(Box::into_inner(a)))),
            _ => {
                drop(a);
                Ok(PolicyCheck::Fail(Vec::new(alloc)))
            }
        },
        Reported::Fail(failure) => {
            let Failure { tree, found } = Box::into_inner(failure);
            drop(tree);
            Ok(PolicyCheck::Fail(errors_of(alloc, id, found)?))
        }
    }
}
