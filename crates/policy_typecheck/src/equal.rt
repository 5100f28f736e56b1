//! When typed expressions are equal, and when answers are.

ghost use Rattle.std.specs.Prelude.{◌≡◌, ◌↔◌, IsTrue};
ghost use Rattle.policy_expressions.specs.Tree.{named_of, trees_of};
ghost use Rattle.policy_typecheck.specs.Equal.{SameNotes, SameBelow, SameOfTrees, SameOfNamed, SameTyped, same_typed};

use crate::TypecheckAnswer;
use crate::answer::is_same_type;
use policy_expressions::{Expr, ExprKind};
use policy_values::Text;
use schema_types::Type;
use std::collections::BTreeMap;

impl<'a> PartialEq for TypecheckAnswer<'a> {
    ghost use Rattle.std.specs.Cmp.{partial_equiv_from_equiv};
    ghost use Rattle.policy_typecheck.specs.Equal.{same_answer};
    ghost use Rattle.policy_typecheck.specs.EqualLaws.{same_answer_equiv};

    ghost eq = { same_answer };

    ghost laws = { partial_equiv_from_equiv same_answer_equiv };

    // The expressions differ in places at most, and after a success the same is known.
    fn eq(&self, other: &TypecheckAnswer<'a>) -> bool {
        match (self, other) {
            (
                TypecheckAnswer::TypecheckSuccess {
                    expr_type: e,
                    expr_capability: k,
                },
                TypecheckAnswer::TypecheckSuccess {
                    expr_type: f,
                    expr_capability: m,
                },
            ) => same_typed(e, f) && *k == *m,
            (
                TypecheckAnswer::TypecheckFail {
                    expr_recovery_type: e,
                },
                TypecheckAnswer::TypecheckFail {
                    expr_recovery_type: f,
                },
            ) => same_typed(e, f),
            _ => false,
        }
    }
}

impl<'a> Eq for TypecheckAnswer<'a> {
    ghost use Rattle.policy_typecheck.specs.EqualLaws.{same_answer_equiv};

    ghost laws = { same_answer_equiv };
}

// Whether the expressions differ in places at most.
fn same_typed(a: &Expr<Option<Type>>, b: &Expr<Option<Type>>) -> bool
    ensures { result ≡ same_typed a.now b.now }
{
    is_same_typed(a, b)
}

fn is_same_typed(a: &Expr<Option<Type>>, b: &Expr<Option<Type>>) -> bool
    ensures { IsTrue result ↔ SameTyped a.now b.now }
{
    a.same_shape(b) && same_notes(a, b)
}

// Whether expressions of one shape have the same types at the same parts.
#[cycle(notes)]
fn same_notes(a: &Expr<Option<Type>>, b: &Expr<Option<Type>>) -> bool
    ensures { IsTrue result ↔ SameNotes a.now b.now }
{
    same_note(a.data(), b.data()) && same_below(a, b)
}

#[cycle(notes)]
fn same_below(a: &Expr<Option<Type>>, b: &Expr<Option<Type>>) -> bool
    ensures { IsTrue result ↔ SameBelow a.now b.now }
{
    match (a.kind(), b.kind()) {
        (ExprKind::Lit(_), ExprKind::Lit(_)) => true,
        (ExprKind::Var(_), ExprKind::Var(_)) => true,
        (ExprKind::Slot(_), ExprKind::Slot(_)) => true,
        (ExprKind::If(x, y, z), ExprKind::If(u, v, w)) => {
            same_notes(x, u) && same_notes(y, v) && same_notes(z, w)
        }
        (ExprKind::And(x, y), ExprKind::And(u, v)) => same_notes(x, u) && same_notes(y, v),
        (ExprKind::Or(x, y), ExprKind::Or(u, v)) => same_notes(x, u) && same_notes(y, v),
        (ExprKind::UnaryApp(_, x), ExprKind::UnaryApp(_, u)) => same_notes(x, u),
        (ExprKind::BinaryApp(_, x, y), ExprKind::BinaryApp(_, u, v)) => {
            same_notes(x, u) && same_notes(y, v)
        }
        (ExprKind::GetAttr(x, _), ExprKind::GetAttr(u, _)) => same_notes(x, u),
        (ExprKind::HasAttr(x, _), ExprKind::HasAttr(u, _)) => same_notes(x, u),
        (ExprKind::Like(x, _), ExprKind::Like(u, _)) => same_notes(x, u),
        (ExprKind::Is(x, _), ExprKind::Is(u, _)) => same_notes(x, u),
        (ExprKind::ExtensionFunctionApp(_, xs), ExprKind::ExtensionFunctionApp(_, us)) => {
            same_of_all(xs, us)
        }
        (ExprKind::Set(xs), ExprKind::Set(us)) => same_of_all(xs, us),
        (ExprKind::Record(xs), ExprKind::Record(us)) => same_of_named(xs, us),
        _ => false,
    }
}

#[cycle(notes)]
#[tactic(auto, using(policy_expressions::proofs::TreeSteps::depth_in))]
fn same_of_all(xs: &Vec<Expr<Option<Type>>>, us: &Vec<Expr<Option<Type>>>) -> bool
    ensures { IsTrue result ↔ SameOfTrees (trees_of xs.now.items) (trees_of us.now.items) }
{
    if xs.len() != us.len() {
        return false;
    }
    for (i, x) in xs.iter().enumerate() {
        if !same_notes(x, &us[i]) {
            return false;
        }
    }
    true
}

#[cycle(notes)]
fn same_of_named(
    xs: &BTreeMap<Text, Expr<Option<Type>>>,
    us: &BTreeMap<Text, Expr<Option<Type>>>,
) -> bool
    ensures { IsTrue result ↔ SameOfNamed (named_of xs.now.entries) (named_of us.now.entries) }
{
    let mut rest = us.iter();
    for (_, x) in xs.iter() {
        match rest.next() {
            None => return false,
            Some((_, u)) => {
                if !same_notes(x, u) {
                    return false;
                }
            }
        }
    }
    match rest.next() {
        None => true,
        Some(_) => false,
    }
}

fn same_note(a: &Option<Type>, b: &Option<Type>) -> bool
    ensures { IsTrue result ↔ (a.now ≡ b.now) }
{
    match (a, b) {
        (None, None) => true,
        (Some(t), Some(u)) => is_same_type(t, u),
        _ => false,
    }
}
