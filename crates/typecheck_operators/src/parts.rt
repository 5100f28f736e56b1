//! The operands of a set and of a call, one part after another.

ghost use Rattle.std.specs.Prelude.{◌≡◌, ◌++◌, IfOk, map, option_map};
ghost use Rattle.std.specs.List.{list_all};
ghost use Rattle.typecheck_rules.specs.Walked.{has_typing, tree_of, findings_of, findings_of_all};
ghost use Rattle.typecheck_rules.specs.Operators as definition;
ghost use Rattle.typecheck_rules.specs.Found.{findings_from};
ghost use Rattle.typecheck_operators.specs.Parts.{types_given};
ghost use Rattle.typecheck_operators.specs.Reported.{walked_of, all_of};

use crate::reported::{Failure, Reported, into_tree};
use policy_expressions::Expr;
use schema_types::Type;
use std::alloc::{AllocError, Global};
use typecheck_rules::Finding;

// Whether there is a typing.
pub(crate) fn is_typed(w: &Reported<'_>) -> bool
    ensures { result ≡ has_typing (walked_of w.now) }
{
    match w {
        Reported::Success(_) => true,
        Reported::Fail(_) => false,
    }
}

// The type that an operand gives.
pub(crate) fn type_given(alloc: Global, w: &Reported<'_>) -> Result<Option<Type>, AllocError>
    ensures { IfOk result (λ o. o ≡ definition.type_given (walked_of w.now)) }
{
    match w {
        Reported::Success(a) => Ok(Some(a.of.try_clone(alloc)?)),
        Reported::Fail(failure) => match failure.tree.data() {
            Some(t) => Ok(Some(t.try_clone(alloc)?)),
            None => Ok(None),
        },
    }
}

// The expression, and what is found.
pub(crate) fn reported_rest(alloc: Global, w: Reported<'_>) -> (Expr<Option<Type>>, Vec<Finding>)
    ensures tree { result.0 ≡ tree_of (walked_of w.entry) }
    ensures found { findings_from result.1.items ≡ findings_of (walked_of w.entry) }
{
    match w {
        Reported::Success(a) => {
            let tree = into_tree(Box::into_inner(a));
            (tree, Vec::new(alloc))
        }
        Reported::Fail(failure) => {
            let Failure { tree, found } = Box::into_inner(failure);
            (tree, found)
        }
    }
}

// Puts more findings behind these.
pub(crate) fn add_found(found: &mut Vec<Finding>, mut more: Vec<Finding>) -> Result<(), AllocError>
    ensures { IfOk result (λ _. findings_from found.new.items ≡
        findings_from found.old.items ++ findings_from more.items) }
{
    found.append(&mut more)?;
    Ok(())
}

// Whether all have a typing.
pub(crate) fn are_typed(ws: &Vec<Reported<'_>>) -> bool
    ensures { result ≡ list_all has_typing (all_of ws.now.items) }
{
    for w in ws {
        if !is_typed(w) {
            return false;
        }
    }
    true
}

// The types that operands give, where each gives one.
pub(crate) fn types_given(
    alloc: Global,
    ws: &Vec<Reported<'_>>,
) -> Result<Option<Vec<Type>>, AllocError>
    ensures { IfOk result (λ o. option_map (λ v. v.items) o ≡ types_given (all_of ws.now.items)) }
{
    let mut types = Vec::new(alloc);
    for w in ws {
        match type_given(alloc, w)? {
            Some(t) => types.push(t)?,
            None => return Ok(None),
        }
    }
    Ok(Some(types))
}

// The expressions, and all that is found.
#[derive(Drop)]
pub(crate) struct Rest {
    pub(crate) trees: Vec<Expr<Option<Type>>>,
    pub(crate) found: Vec<Finding>,
}

pub(crate) fn rest_of_all(alloc: Global, ws: Vec<Reported<'_>>) -> Result<Rest, AllocError>
    ensures trees { IfOk result (λ r. r.trees.items ≡ map tree_of (all_of ws.entry.items)) }
    ensures found { IfOk result (λ r. findings_from r.found.items ≡
        findings_of_all (all_of ws.entry.items)) }
{
    let mut trees = Vec::new(alloc);
    let mut found = Vec::new(alloc);
    for w in ws {
        let (tree, more) = reported_rest(alloc, w);
        trees.push(tree)?;
        add_found(&mut found, more)?;
    }
    Ok(Rest { trees, found })
}
