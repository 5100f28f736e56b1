//! `&&`.

ghost use Rattle.std.specs.Prelude.{◌≡◌, IfOk, Some, None};
ghost use Rattle.policy_expressions.specs.Tree.{conj};
ghost use Rattle.typing_spec.specs.Typing.{at, and_caps};
ghost use Rattle.typecheck_rules.specs.Operators as definition;
ghost use Rattle.typecheck_rules.specs.Found.{findings_from};
ghost use Rattle.typecheck_operators.specs.Reported.{mark, operand_of, walked_of};
ghost use Rattle.typecheck_walk.specs.Sides.{and_by, and_of, and_own, and_reached};

use crate::sides::{Own, Sides, if_reached, sides_of};
use policy_expressions::{BuildError, Expr, Loc};
use schema_types::{Type, TypeKind};
use std::alloc::{AllocError, Global};
use typecheck_operators::{Part, Reported, Typing, ended_typed, failed, or_drop, parted};
use typecheck_rules::and_type;
use typing_spec::CapabilitySet;

/// `&&`, by what its sides come to. Errs where memory runs out, or the expression would be nested
/// too deep.
pub fn and_sides<'a>(
    alloc: Global,
    loc: Option<Loc>,
    v: Reported<'a>,
    w: Reported<'a>,
) -> Result<Reported<'a>, BuildError>
    ensures { IfOk result (λ r. walked_of r ≡
        definition.and_sides (mark loc) (walked_of v.entry) (walked_of w.entry)) }
{
    let v = or_drop!(parted(alloc, v), w);
    let w = or_drop!(parted(alloc, w), v);
    and_ended(alloc, loc, v, w)
}

fn and_ended<'a>(
    alloc: Global,
    loc: Option<Loc>,
    v: Part<'a>,
    w: Part<'a>,
) -> Result<Reported<'a>, BuildError>
    ensures { IfOk result (λ r. walked_of r ≡
        and_of (mark loc) (operand_of v.entry) (operand_of w.entry)) }
{
    let own = or_drop!(and_own(alloc, &v, &w), v, w);
    let sides = or_drop!(sides_of(v, w), own);
    and_by(alloc, loc, own, sides)
}

// The type by the rule, of the types that are given. A false left side leaves the right one
// unreached.
fn and_own<'a>(alloc: Global, v: &Part<'a>, w: &Part<'a>) -> Result<Option<Own<'a>>, AllocError>
    ensures { IfOk result (λ o. o ≡ and_own (operand_of v.now) (operand_of w.now)) }
{
    match &v.of {
        Some(t) => match t.kind() {
            TypeKind::False => Ok(Some(Own {
                of: Type::singleton_boolean(false),
                caps: CapabilitySet::new(alloc),
                is_reached: false,
            })),
            _ => and_reached(alloc, t, &v.caps, w),
        },
        None => Ok(None),
    }
}

fn and_reached<'a>(
    alloc: Global,
    t: &Type,
    cs: &CapabilitySet<'a>,
    w: &Part<'a>,
) -> Result<Option<Own<'a>>, AllocError>
    ensures { IfOk result (λ o. o ≡ and_reached t.now cs.now (operand_of w.now)) }
{
    match &w.of {
        Some(u) => match and_type(t, u) {
            Some(of) => {
                let caps = or_drop!(caps_of_both(alloc, u, cs, &w.caps), of);
                Ok(Some(Own {
                    of,
                    caps,
                    is_reached: true,
                }))
            }
            None => Ok(None),
        },
        None => Ok(None),
    }
}

fn caps_of_both<'a>(
    alloc: Global,
    u: &Type,
    cs: &CapabilitySet<'a>,
    ds: &CapabilitySet<'a>,
) -> Result<CapabilitySet<'a>, AllocError>
    ensures { IfOk result (λ s. s ≡ and_caps u.now cs.now ds.now) }
{
    match u.kind() {
        TypeKind::False => Ok(CapabilitySet::new(alloc)),
        _ => cs.union(ds),
    }
}

fn and_by<'a>(
    alloc: Global,
    loc: Option<Loc>,
    own: Option<Own<'a>>,
    sides: Sides,
) -> Result<Reported<'a>, BuildError>
    ensures { IfOk result (λ r. walked_of r ≡
        and_by (mark loc) own.entry sides.ok sides.left sides.right
        (findings_from sides.found.items)) }
{
    match own {
        Some(own) => and_typed(alloc, loc, own, sides),
        None => and_failed(alloc, loc, sides),
    }
}

fn and_typed<'a>(
    alloc: Global,
    loc: Option<Loc>,
    own: Own<'a>,
    sides: Sides,
) -> Result<Reported<'a>, BuildError>
    ensures { IfOk result (λ r. walked_of r ≡
        and_by (mark loc) (Some own.entry) sides.ok sides.left sides.right
        (findings_from sides.found.items)) }
{
    let Own {
        of,
        caps,
        is_reached,
    } = own;
    let Sides {
        ok,
        left,
        right,
        found,
    } = sides;
    let right = if_reached(is_reached, right);
    let tree = or_drop!(and_tree(alloc, &of, left, right, loc), of, caps, found);
    Ok(ended_typed(alloc, ok, Typing { of, caps, tree }, found)?)
}

fn and_tree(
    alloc: Global,
    of: &Type,
    left: Expr<Option<Type>>,
    right: Expr<Option<Type>>,
    loc: Option<Loc>,
) -> Result<Expr<Option<Type>>, BuildError>
    ensures { IfOk result (λ t. t ≡ conj left right (at of.now (mark loc))) }
{
    let note = or_drop!(of.try_clone(alloc), left, right);
    Expr::and(alloc, left, right, Some(note), loc)
}

fn and_failed<'a>(alloc: Global, loc: Option<Loc>, sides: Sides) -> Result<Reported<'a>, BuildError>
    ensures { IfOk result (λ r. walked_of r ≡
        and_by (mark loc) None sides.ok sides.left sides.right (findings_from sides.found.items)) }
{
    let Sides {
        ok: _,
        left,
        right,
        found,
    } = sides;
    let note = Type::primitive_boolean();
    let tree = or_drop!(Expr::and(alloc, left, right, Some(note), loc), found);
    Ok(failed(alloc, tree, found)?)
}
