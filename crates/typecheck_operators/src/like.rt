//! `like`.

ghost use Rattle.std.specs.Prelude.{◌≡◌, IfOk, Some};
ghost use Rattle.policy_expressions.specs.Tree.{like};
ghost use Rattle.typing_spec.specs.Signatures.{bool_type};
ghost use Rattle.typecheck_rules.specs.Walked.{lends};
ghost use Rattle.typecheck_rules.specs.Operators as definition;
ghost use Rattle.typecheck_operators.specs.Operands.{like_of};
ghost use Rattle.typecheck_operators.specs.Reported.{mark, operand_of, walked_of};

use crate::reported::{Part, Reported, Typing, ended_typed, expect, failed, parted};
use policy_expressions::{BuildError, Expr, Loc, Pattern};
use schema_types::Type;
use std::alloc::Global;
use typecheck_rules::{Expected, like_type};
use typing_spec::CapabilitySet;

/// `like`, by what its operand comes to. Errs where memory runs out, or the expression would be
/// nested too deep.
pub fn like_reported<'a>(
    alloc: Global,
    pattern: &Pattern,
    loc: Option<Loc>,
    place: Option<Loc>,
    v: Reported<'a>,
) -> Result<Reported<'a>, BuildError>
    ensures { IfOk result (λ r. walked_of r ≡
        definition.like_walked pattern.now (mark loc) place (walked_of v.entry)) }
{
    let v = expect(alloc, Expected::StringOfLike, place, v)?;
    like_fitting(alloc, pattern, loc, v)
}

fn like_fitting<'a>(
    alloc: Global,
    pattern: &Pattern,
    loc: Option<Loc>,
    v: Reported<'a>,
) -> Result<Reported<'a>, BuildError>
    ensures { IfOk result (λ r. walked_of r ≡
        definition.like_fitting pattern.now (mark loc) (walked_of v.entry)) }
{
    let v = parted(alloc, v)?;
    like_ended(alloc, pattern, loc, v)
}

fn like_ended<'a>(
    alloc: Global,
    pattern: &Pattern,
    loc: Option<Loc>,
    v: Part<'a>,
) -> Result<Reported<'a>, BuildError>
    ensures { IfOk result (λ r. walked_of r ≡ like_of pattern.now (mark loc) (operand_of v.entry)) }
{
    let Part {
        ok,
        of,
        caps,
        tree,
        found,
    } = v;
    drop(caps);
    match of {
        Some(t) => {
            let own = like_type(&t);
            drop(t);
            match own {
                Some(of) => {
                    let note = or_drop!(of.try_clone(alloc), of, tree, found);
                    let pattern = or_drop!(pattern.try_clone(alloc), of, note, tree, found);
                    let tree = or_drop!(
                        Expr::like(alloc, tree, pattern, Some(note), loc),
                        of,
                        found
                    );
                    let caps = CapabilitySet::new(alloc);
                    Ok(ended_typed(alloc, ok, Typing { of, caps, tree }, found)?)
                }
                None => {
                    let tree = or_drop!(like_giving(alloc, tree, pattern, loc), found);
                    Ok(failed(alloc, tree, found)?)
                }
            }
        }
        None => {
            let tree = or_drop!(like_giving(alloc, tree, pattern, loc), found);
            Ok(failed(alloc, tree, found)?)
        }
    }
}

fn like_giving(
    alloc: Global,
    tree: Expr<Option<Type>>,
    pattern: &Pattern,
    loc: Option<Loc>,
) -> Result<Expr<Option<Type>>, BuildError>
    ensures { IfOk result (λ r. r ≡ like tree pattern.now (lends (Some bool_type) (mark loc))) }
{
    let pattern = or_drop!(pattern.try_clone(alloc), tree);
    let note = Type::primitive_boolean();
    Expr::like(alloc, tree, pattern, Some(note), loc)
}
