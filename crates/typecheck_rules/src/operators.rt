//! Operators of two operands.

ghost use Rattle.std.specs.Prelude.{◌≡◌, IfOk};
ghost use Rattle.schema_core.specs.RequestEnvs.{env_data_of};
ghost use Rattle.typing_spec.specs.Rules as rule;
ghost use Rattle.typecheck_rules.specs.Operators as definition;

use crate::booleans::{possible, sum_type};
use crate::compared::{are_one, equal_type, order_type};
use crate::environment::{known_id, truth_type};
use crate::membership::in_type;
use crate::sets::{contains_sets_type, contains_type};
use crate::tags::{get_tag_type, has_tag_type, may_have_tags};
use policy_expressions::{BinaryOp, Expr};
use schema_core::{RequestEnv, ValidatorSchema};
use schema_types::Type;
use std::alloc::{AllocError, Global};

/// The type of an operator, by whether the tag that its operands name is known to be there, by the operands
/// and by their types.
pub fn binary_type<'a>(
    alloc: Global,
    schema: &ValidatorSchema,
    env: &RequestEnv<'a>,
    op: BinaryOp,
    known: bool,
    x: &'a Expr<()>,
    y: &'a Expr<()>,
    t: &Type,
    u: &Type,
) -> Result<Option<Type>, AllocError>
    ensures { IfOk result
        (λ o. o ≡ rule.binary_type schema.now (env_data_of env.now) op known x.now y.now t.now u.now) }
{
    match op {
        BinaryOp::Eq => equal_type(alloc, known_id(env, x), known_id(env, y), t, u),
        BinaryOp::Less | BinaryOp::LessEq => Ok(order_type(t, u)),
        BinaryOp::Add | BinaryOp::Sub | BinaryOp::Mul => Ok(sum_type(t, u)),
        BinaryOp::In => in_type(alloc, schema, env, x, y, t, u),
        BinaryOp::Contains => contains_type(alloc, t, u),
        BinaryOp::ContainsAll | BinaryOp::ContainsAny => contains_sets_type(alloc, t, u),
        BinaryOp::GetTag => get_tag_type(alloc, schema, known, t, u),
        BinaryOp::HasTag => Ok(has_tag_type(schema, t, u)),
    }
}

/// The type that an operator gives where it has none, by its operands and by the type that the left
/// one gives.
pub fn binary_given<'a>(
    schema: &ValidatorSchema,
    env: &RequestEnv<'a>,
    op: BinaryOp,
    x: &'a Expr<()>,
    y: &'a Expr<()>,
    t: &Option<Type>,
) -> Option<Type>
    ensures { result ≡ definition.binary_given schema.now (env_data_of env.now) op x.now y.now t.now }
{
    match op {
        BinaryOp::Eq => match are_one(known_id(env, x), known_id(env, y)) {
            Some(b) => Some(truth_type(b)),
            None => Some(Type::primitive_boolean()),
        },
        BinaryOp::Add | BinaryOp::Sub | BinaryOp::Mul => Some(Type::primitive_long()),
        BinaryOp::GetTag => None,
        BinaryOp::HasTag => match t {
            Some(t) => Some(possible(may_have_tags(schema, t))),
            None => None,
        },
        BinaryOp::Less
        | BinaryOp::LessEq
        | BinaryOp::In
        | BinaryOp::Contains
        | BinaryOp::ContainsAll
        | BinaryOp::ContainsAny => Some(Type::primitive_boolean()),
    }
}
