//! Operators of one operand.

ghost use Rattle.std.specs.Prelude.{◌≡◌, IfOk};
ghost use Rattle.typecheck_rules.specs.Operators.{unary_given, unary_fitting, unary_walked};
ghost use Rattle.typecheck_operators.specs.Operands.{unary_of};
ghost use Rattle.typecheck_operators.specs.Reported.{mark, operand_of, walked_of};

use crate::reported::{Part, Reported, Typing, ended_typed, expect, failed, parted};
use policy_expressions::{BuildError, Expr, Loc, UnaryOp};
use schema_types::Type;
use std::alloc::Global;
use typecheck_rules::{of_unary, unary_type};
use typing_spec::CapabilitySet;

fn unary_given(op: UnaryOp) -> Type
    ensures { result ≡ unary_given op }
{
    match op {
        UnaryOp::Not | UnaryOp::IsEmpty => Type::primitive_boolean(),
        UnaryOp::Neg => Type::primitive_long(),
    }
}

/// An operator of one operand, by what this comes to.
pub fn unary_reported<'a>(
    alloc: Global,
    op: UnaryOp,
    loc: Option<Loc>,
    place: Option<Loc>,
    v: Reported<'a>,
) -> Result<Reported<'a>, BuildError>
    ensures { IfOk result (λ r. walked_of r ≡
        unary_walked op (mark loc) place (walked_of v.entry)) }
{
    let v = expect(alloc, of_unary(op), place, v)?;
    unary_fitting(alloc, op, loc, v)
}

fn unary_fitting<'a>(
    alloc: Global,
    op: UnaryOp,
    loc: Option<Loc>,
    v: Reported<'a>,
) -> Result<Reported<'a>, BuildError>
    ensures { IfOk result (λ r. walked_of r ≡ unary_fitting op (mark loc) (walked_of v.entry)) }
{
    let v = parted(alloc, v)?;
    unary_ended(alloc, op, loc, v)
}

fn unary_ended<'a>(
    alloc: Global,
    op: UnaryOp,
    loc: Option<Loc>,
    v: Part<'a>,
) -> Result<Reported<'a>, BuildError>
    ensures { IfOk result (λ r. walked_of r ≡ unary_of op (mark loc) (operand_of v.entry)) }
{
    let Part {
        ok,
        of,
        caps,
        tree,
        found,
    } = v;
    drop(caps);
    match of {
        Some(u) => {
            let own = unary_type(op, &u);
            drop(u);
            match own {
                Some(t) => {
                    let note = or_drop!(t.try_clone(alloc), t, tree, found);
                    let tree = or_drop!(
                        Expr::unary_app(alloc, op, tree, Some(note), loc),
                        t,
                        found
                    );
                    let caps = CapabilitySet::new(alloc);
                    Ok(ended_typed(alloc, ok, Typing { of: t, caps, tree }, found)?)
                }
                None => {
                    let tree = or_drop!(
                        Expr::unary_app(alloc, op, tree, Some(unary_given(op)), loc),
                        found
                    );
                    Ok(failed(alloc, tree, found)?)
                }
            }
        }
        None => {
            let tree = or_drop!(
                Expr::unary_app(alloc, op, tree, Some(unary_given(op)), loc),
                found
            );
            Ok(failed(alloc, tree, found)?)
        }
    }
}
