//! `is`.

ghost use Rattle.std.specs.Prelude.{◌≡◌, IfOk, Some};
ghost use Rattle.policy_expressions.specs.Tree.{is_type};
ghost use Rattle.typing_spec.specs.Signatures.{bool_type};
ghost use Rattle.typecheck_rules.specs.Walked.{lends};
ghost use Rattle.typecheck_rules.specs.Operators as definition;
ghost use Rattle.typecheck_operators.specs.Operands.{is_of};
ghost use Rattle.typecheck_operators.specs.Reported.{mark, operand_of, walked_of};

use crate::reported::{Part, Reported, Typing, ended_typed, expect, failed, parted};
use policy_expressions::{BuildError, Expr, Loc};
use policy_values::EntityType;
use schema_types::Type;
use std::alloc::Global;
use typecheck_rules::{Expected, is_type};
use typing_spec::CapabilitySet;

/// `is`, by what its operand comes to. Errs where memory runs out, or the expression would be
/// nested too deep.
pub fn is_reported<'a>(
    alloc: Global,
    name: &EntityType,
    loc: Option<Loc>,
    place: Option<Loc>,
    v: Reported<'a>,
) -> Result<Reported<'a>, BuildError>
    ensures { IfOk result (λ r. walked_of r ≡
        definition.is_walked name.now (mark loc) place (walked_of v.entry)) }
{
    let v = expect(alloc, Expected::EntityOfIs, place, v)?;
    is_fitting(alloc, name, loc, v)
}

fn is_fitting<'a>(
    alloc: Global,
    name: &EntityType,
    loc: Option<Loc>,
    v: Reported<'a>,
) -> Result<Reported<'a>, BuildError>
    ensures { IfOk result (λ r. walked_of r ≡
        definition.is_fitting name.now (mark loc) (walked_of v.entry)) }
{
    let v = parted(alloc, v)?;
    is_ended(alloc, name, loc, v)
}

fn is_ended<'a>(
    alloc: Global,
    name: &EntityType,
    loc: Option<Loc>,
    v: Part<'a>,
) -> Result<Reported<'a>, BuildError>
    ensures { IfOk result (λ r. walked_of r ≡ is_of name.now (mark loc) (operand_of v.entry)) }
{
    let Part {
        ok,
        of,
        caps,
        tree,
        found,
    } = v;
    drop(caps);
    match of {
        Some(t) => {
            let own = is_type(&t, name);
            drop(t);
            match own {
                Some(of) => {
                    let note = or_drop!(of.try_clone(alloc), of, tree, found);
                    let name = or_drop!(name.try_clone(), of, note, tree, found);
                    let tree = or_drop!(Expr::is(alloc, tree, name, Some(note), loc), of, found);
                    let caps = CapabilitySet::new(alloc);
                    Ok(ended_typed(alloc, ok, Typing { of, caps, tree }, found)?)
                }
                None => {
                    let tree = or_drop!(is_giving(alloc, tree, name, loc), found);
                    Ok(failed(alloc, tree, found)?)
                }
            }
        }
        None => {
            let tree = or_drop!(is_giving(alloc, tree, name, loc), found);
            Ok(failed(alloc, tree, found)?)
        }
    }
}

fn is_giving(
    alloc: Global,
    tree: Expr<Option<Type>>,
    name: &EntityType,
    loc: Option<Loc>,
) -> Result<Expr<Option<Type>>, BuildError>
    ensures { IfOk result (λ r. r ≡ is_type tree name.now (lends (Some bool_type) (mark loc))) }
{
    let name = or_drop!(name.try_clone(), tree);
    let note = Type::primitive_boolean();
    Expr::is(alloc, tree, name, Some(note), loc)
}
