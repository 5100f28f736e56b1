//! Expressions that differ in notes and places at most.

ghost use Rattle.std.specs.Prelude.{◌≡◌, ◌↔◌, IsTrue};
ghost use Rattle.policy_expressions.specs.Tree.{trees_of, named_of};
ghost use Rattle.policy_expressions.specs.Shape.{SameShape, SameShapes, SameNamed};

use crate::{BinaryOp, Expr, ExprKind, Literal, Pattern, SlotId, UnaryOp, Var};
use policy_values::{EntityType, Name, Text};
use std::collections::BTreeMap;

impl<T> Expr<T> {
    /// Whether two expressions differ in their notes and places at most.
    pub fn same_shape<U>(&self, other: &Expr<U>) -> bool
        ensures { IsTrue result ↔ SameShape self.now other.now }
    {
        same_shape(self, other)
    }
}

#[cycle(shape)]
fn same_shape<T, U>(a: &Expr<T>, b: &Expr<U>) -> bool
    ensures { IsTrue result ↔ SameShape a.now b.now }
{
    match (a.kind(), b.kind()) {
        (ExprKind::Lit(l), ExprKind::Lit(m)) => same_literal(l, m),
        (ExprKind::Var(v), ExprKind::Var(w)) => same_var(*v, *w),
        (ExprKind::Slot(i), ExprKind::Slot(j)) => same_slot(*i, *j),
        (ExprKind::If(x, y, z), ExprKind::If(u, v, w)) => {
            same_shape(x, u) && same_shape(y, v) && same_shape(z, w)
        }
        (ExprKind::And(x, y), ExprKind::And(u, v)) => same_shape(x, u) && same_shape(y, v),
        (ExprKind::Or(x, y), ExprKind::Or(u, v)) => same_shape(x, u) && same_shape(y, v),
        (ExprKind::UnaryApp(o, x), ExprKind::UnaryApp(p, u)) => {
            same_unary(*o, *p) && same_shape(x, u)
        }
        (ExprKind::BinaryApp(o, x, y), ExprKind::BinaryApp(p, u, v)) => {
            same_binary(*o, *p) && same_shape(x, u) && same_shape(y, v)
        }
        (ExprKind::GetAttr(x, m), ExprKind::GetAttr(u, n)) => same_shape(x, u) && same_text(m, n),
        (ExprKind::HasAttr(x, m), ExprKind::HasAttr(u, n)) => same_shape(x, u) && same_text(m, n),
        (ExprKind::Like(x, p), ExprKind::Like(u, q)) => same_shape(x, u) && same_pattern(p, q),
        (ExprKind::Is(x, s), ExprKind::Is(u, t)) => same_shape(x, u) && same_type(s, t),
        (ExprKind::ExtensionFunctionApp(f, xs), ExprKind::ExtensionFunctionApp(g, us)) => {
            same_name(f, g) && same_shapes(xs, us)
        }
        (ExprKind::Set(xs), ExprKind::Set(us)) => same_shapes(xs, us),
        (ExprKind::Record(xs), ExprKind::Record(us)) => same_named(xs, us),
        _ => false,
    }
}

#[cycle(shape)]
#[tactic(auto, using(crate::proofs::TreeSteps::depth_in))]
fn same_shapes<T, U>(xs: &Vec<Expr<T>>, us: &Vec<Expr<U>>) -> bool
    ensures { IsTrue result ↔ SameShapes (trees_of xs.now.items) (trees_of us.now.items) }
{
    if xs.len() != us.len() {
        return false;
    }
    for (i, x) in xs.iter().enumerate() {
        if !same_shape(x, &us[i]) {
            return false;
        }
    }
    true
}

#[cycle(shape)]
fn same_named<T, U>(xs: &BTreeMap<Text, Expr<T>>, us: &BTreeMap<Text, Expr<U>>) -> bool
    ensures { IsTrue result ↔ SameNamed (named_of xs.now.entries) (named_of us.now.entries) }
{
    let mut rest = us.iter();
    for (m, x) in xs.iter() {
        match rest.next() {
            None => return false,
            Some((n, u)) => {
                if !same_text(m, n) || !same_shape(x, u) {
                    return false;
                }
            }
        }
    }
    match rest.next() {
        None => true,
        Some(_) => false,
    }
}

fn same_text(a: &Text, b: &Text) -> bool
    ensures { IsTrue result ↔ (a.now ≡ b.now) }
{
    *a == *b
}

fn same_literal(a: &Literal, b: &Literal) -> bool
    ensures { IsTrue result ↔ (a.now ≡ b.now) }
{
    *a == *b
}

fn same_var(a: Var, b: Var) -> bool
    ensures { IsTrue result ↔ (a ≡ b) }
{
    a == b
}

fn same_slot(a: SlotId, b: SlotId) -> bool
    ensures { IsTrue result ↔ (a ≡ b) }
{
    a == b
}

fn same_pattern(a: &Pattern, b: &Pattern) -> bool
    ensures { IsTrue result ↔ (a.now ≡ b.now) }
{
    a.elements() == b.elements()
}

fn same_type(a: &EntityType, b: &EntityType) -> bool
    ensures { IsTrue result ↔ (a.now ≡ b.now) }
{
    *a == *b
}

fn same_name(a: &Name, b: &Name) -> bool
    ensures { IsTrue result ↔ (a.now ≡ b.now) }
{
    *a == *b
}

fn same_unary(a: UnaryOp, b: UnaryOp) -> bool
    ensures { IsTrue result ↔ (a ≡ b) }
{
    a == b
}

fn same_binary(a: BinaryOp, b: BinaryOp) -> bool
    ensures { IsTrue result ↔ (a ≡ b) }
{
    a == b
}
