//! Numbers that are equal for expressions of one shape, by which a part is found again.

use policy_expressions::{Expr, ExprKind, Literal};
use schema_types::Type;

const PRIME: u64 = 0x0000_0100_0000_01b3;

fn mixed(hash: u64, part: u64) -> u64 {
    (hash ^ part).wrapping_mul(PRIME).rotate_left(23)
}

fn text_mixed(hash: u64, text: &str) -> u64 {
    let mut mixed_so_far = mixed(hash, text.len() as u64);
    for byte in text.as_bytes() {
        mixed_so_far = mixed(mixed_so_far, u64::from(*byte));
    }
    mixed_so_far
}

fn literal_mixed(hash: u64, literal: &Literal) -> u64 {
    match literal {
        Literal::Bool(value) => mixed(hash, u64::from(*value)),
        Literal::Long(number) => mixed(hash, number.unsigned_abs()),
        Literal::String(text) => text_mixed(hash, text.as_str()),
        Literal::EntityUID(uid) => {
            text_mixed(
                text_mixed(hash, uid.entity_type().as_str()),
                uid.eid().as_str(),
            )
        }
    }
}

/// The number, mixed with one for the expression's shape.
#[cycle(hashes)]
pub(crate) fn shape_mixed(hash: u64, e: &Expr<Option<Type>>) -> u64 {
    match e.kind() {
        ExprKind::Lit(literal) => literal_mixed(mixed(hash, 1), literal),
        ExprKind::Var(variable) => mixed(mixed(hash, 2), *variable as u64),
        ExprKind::Slot(slot) => mixed(mixed(hash, 3), *slot as u64),
        ExprKind::If(x, y, z) => { shape_mixed(shape_mixed(shape_mixed(mixed(hash, 4), x), y), z) }
        ExprKind::And(x, y) => shape_mixed(shape_mixed(mixed(hash, 5), x), y),
        ExprKind::Or(x, y) => shape_mixed(shape_mixed(mixed(hash, 6), x), y),
        ExprKind::UnaryApp(op, x) => shape_mixed(mixed(mixed(hash, 7), *op as u64), x),
        ExprKind::BinaryApp(op, x, y) => {
            shape_mixed(shape_mixed(mixed(mixed(hash, 8), *op as u64), x), y)
        }
        ExprKind::GetAttr(x, name) => text_mixed(shape_mixed(mixed(hash, 9), x), name.as_str()),
        ExprKind::HasAttr(x, name) => text_mixed(shape_mixed(mixed(hash, 10), x), name.as_str()),
        ExprKind::Like(x, _) => shape_mixed(mixed(hash, 11), x),
        ExprKind::Is(x, name) => text_mixed(shape_mixed(mixed(hash, 12), x), name.as_str()),
        ExprKind::ExtensionFunctionApp(name, xs) => {
            shapes_mixed(text_mixed(mixed(hash, 13), name.as_str()), xs)
        }
        ExprKind::Set(xs) => shapes_mixed(mixed(hash, 14), xs),
        ExprKind::Record(fields) => mixed(mixed(hash, 15), fields.len() as u64),
    }
}

#[cycle(hashes)]
#[tactic(auto, using(policy_expressions::proofs::TreeSteps::depth_in))]
fn shapes_mixed(hash: u64, xs: &Vec<Expr<Option<Type>>>) -> u64 {
    let mut mixed_so_far = mixed(hash, xs.len() as u64);
    for x in xs {
        mixed_so_far = shape_mixed(mixed_so_far, x);
    }
    mixed_so_far
}
