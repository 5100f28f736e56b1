//! What expressions read, as a hash takes it: most expressions whose attributes and tags are asked for are
//! kept apart by it.

ghost use Rattle.std.specs.Prelude.{◌≡◌, fold};
ghost use Rattle.typing_spec.specs.Path.{literal_fed, path_fed, place_of};

use policy_expressions::{Expr, ExprKind, Literal, Var};
use std::hash::{Hash, Hasher};

/// Hashes what the expression reads, from the left: variables, literals and attributes; of slots, calls,
/// sets and records how deep they are.
#[tactic(auto, using(policy_values::proofs::HashSteps::fold_both))]
pub(crate) fn feed_path<H: Hasher>(e: &Expr<()>, state: &mut H)
    ensures { state.new ≡ fold H.write state.old (path_fed e.now) }
{
    match e.kind() {
        ExprKind::Lit(l) => feed_literal(l, state),
        ExprKind::Var(v) => state.write_u8(place_of(*v)),
        ExprKind::If(x, y, z) => {
            feed_path(x, state);
            feed_path(y, state);
            feed_path(z, state);
        }
        ExprKind::And(x, y) | ExprKind::Or(x, y) | ExprKind::BinaryApp(_, x, y) => {
            feed_path(x, state);
            feed_path(y, state);
        }
        ExprKind::GetAttr(x, n) | ExprKind::HasAttr(x, n) => {
            feed_path(x, state);
            n.hash(state);
        }
        ExprKind::UnaryApp(_, x) | ExprKind::Like(x, _) | ExprKind::Is(x, _) => feed_path(x, state),
        ExprKind::Slot(_)
        | ExprKind::ExtensionFunctionApp(_, _)
        | ExprKind::Set(_)
        | ExprKind::Record(_) => { state.write_u32(e.depth()) }
    }
}

fn feed_literal<H: Hasher>(l: &Literal, state: &mut H)
    ensures { state.new ≡ fold H.write state.old (literal_fed l.now) }
{
    match l {
        Literal::Bool(b) => b.hash(state),
        Literal::Long(n) => n.hash(state),
        Literal::String(text) => text.hash(state),
        Literal::EntityUID(uid) => uid.hash(state),
    }
}

fn place_of(v: Var) -> u8
    ensures { result ≡ place_of v }
{
    match v {
        Var::Principal => 0,
        Var::Action => 1,
        Var::Resource => 2,
        Var::Context => 3,
    }
}
