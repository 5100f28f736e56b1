//! Types that the shapes of the operands give.

ghost use Rattle.std.specs.Prelude.{◌≡◌};
ghost use Rattle.typing_spec.specs.Rules as rule;

use crate::shapes::{is_set, is_string};
use policy_expressions::UnaryOp;
use schema_types::{Primitive, Type, TypeKind};

/// The type of `&&`.
pub fn and_type(t: &Type, u: &Type) -> Option<Type>
    ensures { result ≡ rule.and_type t.now u.now }
{
    match (t.kind(), u.kind()) {
        (TypeKind::True, TypeKind::True) => Some(Type::singleton_boolean(true)),
        (TypeKind::True, TypeKind::False) => Some(Type::singleton_boolean(false)),
        (
            TypeKind::True,
            TypeKind::Primitive {
                primitive_type: Primitive::Bool,
            },
        ) => Some(Type::primitive_boolean()),
        (
            TypeKind::Primitive {
                primitive_type: Primitive::Bool,
            },
            TypeKind::True,
        ) => Some(Type::primitive_boolean()),
        (
            TypeKind::Primitive {
                primitive_type: Primitive::Bool,
            },
            TypeKind::False,
        ) => Some(Type::singleton_boolean(false)),
        (
            TypeKind::Primitive {
                primitive_type: Primitive::Bool,
            },
            TypeKind::Primitive {
                primitive_type: Primitive::Bool,
            },
        ) => Some(Type::primitive_boolean()),
        _ => None,
    }
}

/// The type of `||`.
pub fn or_type(t: &Type, u: &Type) -> Option<Type>
    ensures { result ≡ rule.or_type t.now u.now }
{
    match (t.kind(), u.kind()) {
        (TypeKind::False, TypeKind::True) => Some(Type::singleton_boolean(true)),
        (TypeKind::False, TypeKind::False) => Some(Type::singleton_boolean(false)),
        (
            TypeKind::False,
            TypeKind::Primitive {
                primitive_type: Primitive::Bool,
            },
        ) => Some(Type::primitive_boolean()),
        (
            TypeKind::Primitive {
                primitive_type: Primitive::Bool,
            },
            TypeKind::True,
        ) => Some(Type::singleton_boolean(true)),
        (
            TypeKind::Primitive {
                primitive_type: Primitive::Bool,
            },
            TypeKind::False,
        ) => Some(Type::primitive_boolean()),
        (
            TypeKind::Primitive {
                primitive_type: Primitive::Bool,
            },
            TypeKind::Primitive {
                primitive_type: Primitive::Bool,
            },
        ) => Some(Type::primitive_boolean()),
        _ => None,
    }
}

/// The type of an operator of one operand.
pub fn unary_type(op: UnaryOp, t: &Type) -> Option<Type>
    ensures { result ≡ rule.unary_type op t.now }
{
    match op {
        UnaryOp::Not => not_type(t),
        UnaryOp::Neg => neg_type(t),
        UnaryOp::IsEmpty => bool_if(is_set(t)),
    }
}

fn not_type(t: &Type) -> Option<Type>
    ensures { result ≡ rule.unary_type UnaryOp.Not t.now }
{
    match t.kind() {
        TypeKind::True => Some(Type::singleton_boolean(false)),
        TypeKind::False => Some(Type::singleton_boolean(true)),
        TypeKind::Primitive {
            primitive_type: Primitive::Bool,
        } => Some(Type::primitive_boolean()),
        _ => None,
    }
}

fn neg_type(t: &Type) -> Option<Type>
    ensures { result ≡ rule.unary_type UnaryOp.Neg t.now }
{
    match t.kind() {
        TypeKind::Primitive {
            primitive_type: Primitive::Long,
        } => Some(Type::primitive_long()),
        _ => None,
    }
}

/// The type of arithmetic of two operands.
pub fn sum_type(t: &Type, u: &Type) -> Option<Type>
    ensures { result ≡ rule.sum_type t.now u.now }
{
    match (t.kind(), u.kind()) {
        (
            TypeKind::Primitive {
                primitive_type: Primitive::Long,
            },
            TypeKind::Primitive {
                primitive_type: Primitive::Long,
            },
        ) => Some(Type::primitive_long()),
        _ => None,
    }
}

/// The type of `like`.
pub fn like_type(t: &Type) -> Option<Type>
    ensures { result ≡ rule.like_type t.now }
{
    bool_if(is_string(t))
}

/// Bool, where the test passes.
pub fn bool_if(passes: bool) -> Option<Type>
    ensures { result ≡ rule.bool_if passes }
{
    if passes {
        Some(Type::primitive_boolean())
    } else {
        None
    }
}

/// The type of what may be true, and is false where the test fails.
pub fn possible(passes: bool) -> Type
    ensures { result ≡ rule.possible passes }
{
    if passes {
        Type::primitive_boolean()
    } else {
        Type::singleton_boolean(false)
    }
}
