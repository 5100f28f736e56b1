//! Parts of conditions that never err.

ghost use Rattle.std.specs.Prelude.{◌≡◌};
ghost use Rattle.policy_expressions.specs.Tree.{trees_of};
ghost use Rattle.condition_truth.specs.Outlines.{is_sure, are_sure, is_sure_operator};

use policy_expressions::{BinaryOp, Expr, ExprKind, UnaryOp};
use schema_types::Type;

fn is_sure_operator(op: BinaryOp) -> bool
    ensures { result ≡ is_sure_operator op }
{
    match op {
        BinaryOp::Add | BinaryOp::Sub | BinaryOp::Mul | BinaryOp::GetTag => false,
        _ => true,
    }
}

/// Whether a part of a condition is a test without `.`, `getTag`, arithmetic and calls of functions.
#[cycle(sure)]
pub(crate) fn is_sure(e: &Expr<Option<Type>>) -> bool
    ensures { result ≡ is_sure e.now }
{
    match e.kind() {
        ExprKind::Lit(_) | ExprKind::Var(_) => true,
        ExprKind::UnaryApp(UnaryOp::IsEmpty, x) => is_sure(x),
        ExprKind::BinaryApp(op, x, y) => is_sure_operator(*op) && is_sure(x) && is_sure(y),
        ExprKind::HasAttr(x, _) | ExprKind::Like(x, _) | ExprKind::Is(x, _) => is_sure(x),
        ExprKind::Set(xs) => are_sure(xs),
        _ => false,
    }
}

#[cycle(sure)]
#[tactic(auto, using(policy_expressions::proofs::TreeSteps::depth_in))]
fn are_sure(xs: &Vec<Expr<Option<Type>>>) -> bool
    ensures { result ≡ are_sure (trees_of xs.now.items) }
{
    for x in xs {
        if !is_sure(x) {
            return false;
        }
    }
    true
}
