//! What is found of an operator of two operands itself, by the types that they give.

ghost use Rattle.std.specs.Prelude.{◌≡◌, [], IfOk};
ghost use Rattle.std.specs.Option.{option_map_or};
ghost use Rattle.schema_core.specs.RequestEnvs.{env_data_of};
ghost use Rattle.findings.specs.declared.helps.LubContext.TheVariants as context;
ghost use Rattle.typecheck_rules.specs.Own as own;
ghost use Rattle.typecheck_rules.specs.Operators as definition;
ghost use Rattle.typecheck_rules.specs.Found.{findings_from};

use crate::compared::equal_type;
use crate::environment::known_id;
use crate::finding::Finding;
use crate::joins::no_join;
use crate::order::order_found;
use crate::sets::contains_found;
use crate::tags::tag_found;
use findings::LubContext;
use policy_expressions::{BinaryOp, Expr, Loc};
use schema_core::{RequestEnv, ValidatorSchema};
use schema_types::Type;
use std::alloc::{AllocError, Global};

/// What is found of an operator itself, by whether the tag that its operands name is known to be there, by
/// the operands and by the types that they give.
pub fn binary_own<'a>(
    alloc: Global,
    schema: &ValidatorSchema,
    env: &RequestEnv<'a>,
    op: BinaryOp,
    known: bool,
    x: &'a Expr<()>,
    y: &'a Expr<()>,
    loc: Option<Loc>,
    t: &Option<Type>,
    u: &Option<Type>,
) -> Result<Vec<Finding>, AllocError>
    ensures { IfOk result (λ r. findings_from r.items ≡ definition.binary_own schema.now
        (env_data_of env.now) op known x.now y.now (record { note = tt; loc = loc }) t.now u.now) }
{
    match op {
        BinaryOp::Eq => match t {
            Some(t) => match u {
                Some(u) => {
                    let of = equal_type(alloc, known_id(env, x), known_id(env, y), t, u)?;
                    equal_found(alloc, of, loc, t, u)
                }
                None => Ok(Vec::new(alloc)),
            },
            None => Ok(Vec::new(alloc)),
        },
        BinaryOp::Less | BinaryOp::LessEq => {
            order_own(alloc, x.source_loc(), y.source_loc(), t, u)
        }
        BinaryOp::Contains => contains_own(alloc, loc, t, u),
        BinaryOp::ContainsAll | BinaryOp::ContainsAny => sets_own(alloc, loc, t, u),
        BinaryOp::GetTag => tag_own(alloc, schema, known, y, loc, t),
        BinaryOp::Add | BinaryOp::Sub | BinaryOp::Mul | BinaryOp::In | BinaryOp::HasTag => {
            Ok(Vec::new(alloc))
        }
    }
}

fn equal_found(
    alloc: Global,
    of: Option<Type>,
    loc: Option<Loc>,
    t: &Type,
    u: &Type,
) -> Result<Vec<Finding>, AllocError>
    ensures { IfOk result (λ r. findings_from r.items ≡ own.equal_found of loc t.now u.now) }
{
    match of {
        Some(of) => {
            drop(of);
            Ok(Vec::new(alloc))
        }
        None => no_join(alloc, LubContext::Equality, loc, t, u),
    }
}

fn order_own(
    alloc: Global,
    left: Option<Loc>,
    right: Option<Loc>,
    t: &Option<Type>,
    u: &Option<Type>,
) -> Result<Vec<Finding>, AllocError>
    ensures { IfOk result
        (λ r. findings_from r.items ≡ own.of_both (own.order_found left right) t.now u.now) }
{
    match t {
        Some(t) => match u {
            Some(u) => order_found(alloc, left, right, t, u),
            None => Ok(Vec::new(alloc)),
        },
        None => Ok(Vec::new(alloc)),
    }
}

fn contains_own(
    alloc: Global,
    loc: Option<Loc>,
    t: &Option<Type>,
    u: &Option<Type>,
) -> Result<Vec<Finding>, AllocError>
    ensures { IfOk result (λ r. findings_from r.items ≡ own.of_both (own.contains_found loc) t.now u.now) }
{
    match t {
        Some(t) => match u {
            Some(u) => contains_found(alloc, loc, t, u),
            None => Ok(Vec::new(alloc)),
        },
        None => Ok(Vec::new(alloc)),
    }
}

fn sets_own(
    alloc: Global,
    loc: Option<Loc>,
    t: &Option<Type>,
    u: &Option<Type>,
) -> Result<Vec<Finding>, AllocError>
    ensures { IfOk result (λ r. findings_from r.items ≡
        own.of_both (own.no_join context.ContainsAnyAll loc) t.now u.now) }
{
    match t {
        Some(t) => match u {
            Some(u) => no_join(alloc, LubContext::ContainsAnyAll, loc, t, u),
            None => Ok(Vec::new(alloc)),
        },
        None => Ok(Vec::new(alloc)),
    }
}

fn tag_own(
    alloc: Global,
    schema: &ValidatorSchema,
    known: bool,
    tag: &Expr<()>,
    loc: Option<Loc>,
    t: &Option<Type>,
) -> Result<Vec<Finding>, AllocError>
    ensures { IfOk result (λ r. findings_from r.items ≡
        option_map_or (own.tag_found schema.now known tag.now loc) t.now []) }
{
    match t {
        Some(t) => tag_found(alloc, schema, known, tag, loc, t),
        None => Ok(Vec::new(alloc)),
    }
}
