//! Calls of extension functions.

ghost use Rattle.std.specs.Prelude.{◌≡◌, IfOk, Some, None, option_map};
ghost use Rattle.std.specs.Option.{option_and_then, option_copied};
ghost use Rattle.std.specs.List.{slice_get};
ghost use Rattle.policy_expressions.specs.Tree.{call, trees_of, no_trees};
ghost use Rattle.typing_spec.specs.Signatures.{call_type};
ghost use Rattle.findings.specs.Finding as finding;
ghost use Rattle.typecheck_rules.specs.Walked as walked;
ghost use Rattle.typecheck_rules.specs.Walked.{lends, one};
ghost use Rattle.typecheck_rules.specs.Operators as definition;
ghost use Rattle.typecheck_rules.specs.Found.{findings_from};
ghost use Rattle.typecheck_operators.specs.Parts.{argument_walked, call_by_type};
ghost use Rattle.typecheck_operators.specs.Reported.{mark, walked_of, all_of};

use crate::parts::{Rest, are_typed, rest_of_all, types_given};
use crate::reported::{Reported, Typing, ended_typed, expect, failed};
use policy_expressions::{BuildError, Expr, Loc};
use policy_values::Name;
use schema_types::Type;
use std::alloc::{AllocError, Global};
use typecheck_rules::{
    CalledFunction, Expected, Finding, argument_types, call_found, call_type, joined, result_type,
    undefined_found,
};
use typing_spec::CapabilitySet;

/// A call of an undefined function, whose arguments are not looked at. Errs where memory runs out.
pub fn undefined_reported<'a>(
    alloc: Global,
    f: &Name,
    loc: Option<Loc>,
) -> Result<Reported<'a>, BuildError>
    ensures { IfOk result (λ r. walked_of r ≡
        walked.Fail (call f.now no_trees (lends None (mark loc)))
        (one (finding.UndefinedFunction f.now) loc)) }
{
    let found = undefined_found(alloc, f, loc)?;
    let tree = Expr::extension_function_app(f.try_clone()?, Vec::new(alloc), None, loc)?;
    Ok(failed(alloc, tree, found)?)
}

/// A call, by what its arguments come to. Errs where memory runs out, or the expression would be
/// nested too deep.
pub fn call_reported<'a>(
    alloc: Global,
    f: &Name,
    g: CalledFunction<'_>,
    xs: &Vec<Expr<()>>,
    loc: Option<Loc>,
    ws: Vec<Reported<'a>>,
) -> Result<Reported<'a>, BuildError>
    ensures { IfOk result (λ r. walked_of r ≡
        definition.call_walked f.now (Some g.entry.function) (trees_of xs.now.items) (mark loc)
        (all_of ws.entry.items)) }
{
    let own = call_found(alloc, g, xs.as_slice(), loc)?;
    let ws = arguments_reported(alloc, &own, argument_types(g), xs, ws)?;
    call_fitting(alloc, f, g, xs, loc, own, ws)
}

// Only where the call has no finding of its own have the arguments to fit.
fn arguments_reported<'a>(
    alloc: Global,
    own: &Vec<Finding>,
    types: &[Type],
    xs: &Vec<Expr<()>>,
    ws: Vec<Reported<'a>>,
) -> Result<Vec<Reported<'a>>, AllocError>
    ensures { IfOk result (λ r. all_of r.items ≡
        definition.arguments_walked (findings_from own.now.items) types.now (trees_of xs.now.items)
        (all_of ws.entry.items)) }
{
    match own.as_slice() {
        [] => arguments_fitting(alloc, types, xs, ws),
        _ => Ok(ws),
    }
}

// The arguments have to be of the types, one after another.
fn arguments_fitting<'a>(
    alloc: Global,
    types: &[Type],
    xs: &Vec<Expr<()>>,
    ws: Vec<Reported<'a>>,
) -> Result<Vec<Reported<'a>>, AllocError>
    ensures { IfOk result (λ r. all_of r.items ≡
        definition.arguments_fitting types.now (trees_of xs.now.items) (all_of ws.entry.items)) }
{
    let mut fitted = Vec::new(alloc);
    for w in ws {
        let i = fitted.len();
        let w = argument_reported(alloc, type_at(types, i), argument_at(xs, i), w)?;
        fitted.push(w)?;
    }
    Ok(fitted)
}

fn type_at(types: &[Type], i: usize) -> Option<&Type>
    ensures { option_copied result ≡ slice_get types.now i }
{
    types.get(i)
}

fn argument_at(xs: &Vec<Expr<()>>, i: usize) -> Option<&Expr<()>>
    ensures { option_copied result ≡ slice_get xs.now.items i }
{
    xs.as_slice().get(i)
}

fn argument_reported<'a>(
    alloc: Global,
    t: Option<&Type>,
    x: Option<&Expr<()>>,
    w: Reported<'a>,
) -> Result<Reported<'a>, AllocError>
    ensures { IfOk result (λ r. walked_of r ≡
        argument_walked (option_copied t.entry) (option_copied x.entry) (walked_of w.entry)) }
{
    match t {
        Some(t) => match x {
            Some(x) => expect(alloc, Expected::Argument(t), x.source_loc(), w),
            None => Ok(w),
        },
        None => Ok(w),
    }
}

#[tactic(auto, using(crate::proofs::PartLaws::call_by_parts))]
fn call_fitting<'a>(
    alloc: Global,
    f: &Name,
    g: CalledFunction<'_>,
    xs: &Vec<Expr<()>>,
    loc: Option<Loc>,
    own: Vec<Finding>,
    ws: Vec<Reported<'a>>,
) -> Result<Reported<'a>, BuildError>
    ensures { IfOk result (λ r. walked_of r ≡
        definition.call_fitting f.now g.entry.function (trees_of xs.now.items) (mark loc)
        (findings_from own.items) (all_of ws.entry.items)) }
{
    let ok = are_typed(&ws);
    let types = types_given(alloc, &ws)?;
    let rest = rest_of_all(alloc, ws)?;
    let found = joined(own, rest.found)?;
    let of = call_own(alloc, g, xs, types)?;
    let trees = rest.trees;
    call_ended(alloc, f, g, loc, ok, of, Rest { trees, found })
}

fn call_ended<'a>(
    alloc: Global,
    f: &Name,
    g: CalledFunction<'_>,
    loc: Option<Loc>,
    ok: bool,
    of: Option<Type>,
    rest: Rest,
) -> Result<Reported<'a>, BuildError>
    ensures { IfOk result (λ r. walked_of r ≡
        call_by_type f.now g.entry.function (mark loc) ok of (trees_of rest.trees.items)
        (findings_from rest.found.items)) }
{
    let Rest { trees, found } = rest;
    match of {
        Some(of) => {
            let note = or_drop!(of.try_clone(alloc), of);
            let f = or_drop!(f.try_clone(), of, note);
            let tree = or_drop!(Expr::extension_function_app(f, trees, Some(note), loc), of);
            let caps = CapabilitySet::new(alloc);
            Ok(ended_typed(alloc, ok, Typing { of, caps, tree }, found)?)
        }
        None => {
            let note = result_type(alloc, g)?;
            let f = or_drop!(f.try_clone(), note);
            let tree = Expr::extension_function_app(f, trees, Some(note), loc)?;
            Ok(failed(alloc, tree, found)?)
        }
    }
}

// The type of the call, where the arguments give types.
fn call_own(
    alloc: Global,
    g: CalledFunction<'_>,
    xs: &Vec<Expr<()>>,
    types: Option<Vec<Type>>,
) -> Result<Option<Type>, AllocError>
    ensures { IfOk result (λ o. o ≡
        option_and_then (call_type (Some g.entry.function) (trees_of xs.now.items))
        (option_map (λ v. v.items) types)) }
{
    match types {
        Some(types) => {
            let of = call_type(alloc, g, xs.as_slice(), types.as_slice())?;
            drop(types);
            Ok(of)
        }
        None => Ok(None),
    }
}
