//! The body of a policy in JSON.

ghost use Rattle.std.specs.Prelude.{◌≡◌, IfOk, Some, None, map, option_map};
ghost use Rattle.json_trees.specs.Trees.{tree_view, trees_view};
ghost use Rattle.json_expressions.specs.Exprs.{expr_of};
ghost use Rattle.json_expressions.specs.Forms.{join_tree};
ghost use Rattle.json_expressions.specs.Reads.{bounded, on_two};
ghost use Rattle.json_document.specs.Body.{behind, body_of, clause_form, clause_of, clauses_of, left_fold, negated, or_true};

use json_expressions::{Bounded, Junction, joined, read_expr, unary};
use json_trees::{Tree, items_of, lone_member};
use policy_expressions::{Expr, Literal, UnaryOp};
use std::alloc::{AllocError, Global};

// The next one behind what there is.
fn add(
    alloc: Global,
    junction: Junction,
    all: Option<Bounded<Expr<()>>>,
    next: Bounded<Expr<()>>,
) -> Result<Bounded<Expr<()>>, AllocError>
    ensures { IfOk result (λ r. r ≡ behind (on_two (join_tree junction)) all next) }
{
    match all {
        None => Ok(next),
        Some(all) => joined(alloc, junction, all, next),
    }
}

#[tactic(auto, using(json_expressions::proofs::Bounds::unary_reads))]
fn read_negation(alloc: Global, tree: &Tree<'_>) -> Result<Option<Bounded<Expr<()>>>, AllocError>
    ensures { IfOk result (λ o. o ≡ option_map bounded (option_map negated (expr_of (tree_view tree.now)))) }
{
    let read = read_expr(alloc, tree)?;
    unary(alloc, UnaryOp::Not, read)
}

fn read_clause_form(
    alloc: Global,
    key: &str,
    tree: &Tree<'_>,
) -> Result<Option<Bounded<Expr<()>>>, AllocError>
    ensures { IfOk result (λ o. o ≡ option_map bounded (clause_form key.now (expr_of (tree_view tree.now)))) }
{
    match key {
        "when" => read_expr(alloc, tree),
        "unless" => read_negation(alloc, tree),
        _ => Ok(None),
    }
}

#[tactic(auto, unfolding(crate::specs::Body::clause_of))]
fn read_clause(alloc: Global, tree: &Tree<'_>) -> Result<Option<Bounded<Expr<()>>>, AllocError>
    ensures { IfOk result (λ o. o ≡ option_map bounded (clause_of (tree_view tree.now))) }
{
    match lone_member(tree) {
        Some((key, member)) => read_clause_form(alloc, key, member),
        None => Ok(None),
    }
}

fn read_clauses(alloc: Global, items: &[Tree<'_>]) -> Result<Option<Bounded<Expr<()>>>, AllocError>
    ensures { IfOk result (λ o. o ≡
        option_map (λ cs. or_true (left_fold (on_two (join_tree Junction.All)) None (map bounded cs)))
        (clauses_of (trees_view items.now))) }
{
    let mut all = None;
    for item in items {
        let Ok(next) = read_clause(alloc, item) else {
            drop(all);
            return Err(AllocError);
        };
        let Some(next) = next else {
            drop(all);
            return Ok(None);
        };
        all = Some(add(alloc, Junction::All, all, next)?);
    }
    Ok(Some(or_true(all)))
}

fn or_true(all: Option<Bounded<Expr<()>>>) -> Bounded<Expr<()>>
    ensures { result ≡ or_true all }
{
    match all {
        Some(all) => all,
        None => Bounded::Within(Expr::lit(Literal::Bool(true), (), None)),
    }
}

// The clauses of a list, joined.
fn read_list(alloc: Global, tree: &Tree<'_>) -> Result<Option<Bounded<Expr<()>>>, AllocError>
    ensures { IfOk result (λ o. o ≡ option_map bounded (body_of (Some (tree_view tree.now)))) }
{
    match items_of(tree) {
        Some(items) => read_clauses(alloc, items),
        None => Ok(None),
    }
}

/// The body of a policy: its clauses joined from the left by `&&`, where an `unless` is negated.
pub(crate) fn read_body(
    alloc: Global,
    tree: Option<&Tree<'_>>,
) -> Result<Option<Bounded<Expr<()>>>, AllocError>
    ensures { IfOk result (λ o. o ≡
        option_map bounded (body_of (option_map (λ t. tree_view t.now) tree.entry))) }
{
    match tree {
        Some(tree) => read_list(alloc, tree),
        None => Ok(Some(or_true(None))),
    }
}
