//! Whether an expression has a slot.

ghost use Rattle.std.specs.Prelude.{◌≡◌};
ghost use Rattle.policy_expressions.specs.Tree.{trees_of, named_of};
ghost use Rattle.policy_expressions.specs.Slots.{has_slot, some_has_slot, some_named_has_slot};
ghost use Rattle.policy_expressions.specs.KindSlots.{slot_in};

use crate::{Expr, ExprKind};
use policy_values::Text;
use std::collections::BTreeMap;

// Whether some part of a kind is a slot.
pub(crate) fn slot_in<T>(kind: &ExprKind<T>) -> bool
    ensures { result ≡ slot_in kind.now }
{
    match kind {
        ExprKind::Lit(_) | ExprKind::Var(_) => false,
        ExprKind::Slot(_) => true,
        ExprKind::If(x, y, z) => x.has_slot() || y.has_slot() || z.has_slot(),
        ExprKind::And(x, y) | ExprKind::Or(x, y) | ExprKind::BinaryApp(_, x, y) => {
            x.has_slot() || y.has_slot()
        }
        ExprKind::UnaryApp(_, x)
        | ExprKind::GetAttr(x, _)
        | ExprKind::HasAttr(x, _)
        | ExprKind::Like(x, _)
        | ExprKind::Is(x, _) => x.has_slot(),
        ExprKind::ExtensionFunctionApp(_, items) | ExprKind::Set(items) => some_has_slot(items),
        ExprKind::Record(fields) => some_named_has_slot(fields),
    }
}

fn some_has_slot<T>(items: &Vec<Expr<T>>) -> bool
    ensures { result ≡ some_has_slot (trees_of items.now.items) }
{
    for item in items {
        if item.has_slot() {
            return true;
        }
    }
    false
}

fn some_named_has_slot<T>(fields: &BTreeMap<Text, Expr<T>>) -> bool
    ensures { result ≡ some_named_has_slot (named_of fields.now.entries) }
{
    for (_, item) in fields.iter() {
        if item.has_slot() {
            return true;
        }
    }
    false
}
