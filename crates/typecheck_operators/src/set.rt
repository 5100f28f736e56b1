//! Set literals.

ghost use Rattle.std.specs.Prelude.{◌≡◌, IfOk, option_map};
ghost use Rattle.policy_expressions.specs.Tree.{trees_of};
ghost use Rattle.typecheck_rules.specs.Operators as definition;
ghost use Rattle.typecheck_rules.specs.Found.{findings_from};
ghost use Rattle.typecheck_operators.specs.Parts.{set_by_type, set_in_parts};
ghost use Rattle.typecheck_operators.specs.Reported.{mark, walked_of, all_of};

use crate::parts::{are_typed, rest_of_all, types_given};
use crate::reported::{Reported, Typing, ended_typed, failed};
use policy_expressions::{BuildError, Expr, Loc};
use schema_types::Type;
use std::alloc::Global;
use typecheck_rules::{Finding, joined, set_found, set_type};
use typing_spec::CapabilitySet;

/// A set literal, by what its elements come to. Errs where memory runs out, or the expression would
/// be nested too deep.
#[tactic(auto, using(crate::proofs::PartLaws::set_by_parts))]
pub fn set_reported<'a>(
    alloc: Global,
    loc: Option<Loc>,
    ws: Vec<Reported<'a>>,
) -> Result<Reported<'a>, BuildError>
    ensures { IfOk result (λ r. walked_of r ≡
        definition.set_walked (mark loc) (all_of ws.entry.items)) }
{
    let ok = are_typed(&ws);
    let types = types_given(alloc, &ws)?;
    let rest = rest_of_all(alloc, ws)?;
    set_ended(alloc, loc, ok, types, rest.trees, rest.found)
}

fn set_ended<'a>(
    alloc: Global,
    loc: Option<Loc>,
    ok: bool,
    types: Option<Vec<Type>>,
    trees: Vec<Expr<Option<Type>>>,
    found: Vec<Finding>,
) -> Result<Reported<'a>, BuildError>
    ensures { IfOk result (λ r. walked_of r ≡
        set_in_parts (mark loc) ok (option_map (λ v. v.items) types) (trees_of trees.items)
        (findings_from found.items)) }
{
    match types {
        Some(types) => {
            let own = set_found(alloc, loc, types.as_slice())?;
            let of = set_type(alloc, types.as_slice())?;
            drop(types);
            let found = or_drop!(joined(found, own), of);
            set_typed(alloc, loc, ok, of, trees, found)
        }
        None => {
            let tree = Expr::set(trees, None, loc)?;
            Ok(failed(alloc, tree, found)?)
        }
    }
}

fn set_typed<'a>(
    alloc: Global,
    loc: Option<Loc>,
    ok: bool,
    of: Option<Type>,
    trees: Vec<Expr<Option<Type>>>,
    found: Vec<Finding>,
) -> Result<Reported<'a>, BuildError>
    ensures { IfOk result (λ r. walked_of r ≡
        set_by_type (mark loc) ok of (trees_of trees.items) (findings_from found.items)) }
{
    match of {
        Some(of) => {
            let note = or_drop!(of.try_clone(alloc), of);
            let tree = or_drop!(Expr::set(trees, Some(note), loc), of);
            let caps = CapabilitySet::new(alloc);
            Ok(ended_typed(alloc, ok, Typing { of, caps, tree }, found)?)
        }
        None => {
            let tree = Expr::set(trees, None, loc)?;
            Ok(failed(alloc, tree, found)?)
        }
    }
}
