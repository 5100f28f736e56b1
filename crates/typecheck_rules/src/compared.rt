//! The rules of `==`, `<` and `<=`.

ghost use Rattle.std.specs.Prelude.{◌≡◌, IfOk};
ghost use Rattle.std.specs.Option.{option_copied};
ghost use Rattle.typing_spec.specs.Rules as rule;

use crate::booleans::bool_if;
use crate::environment::truth_type;
use crate::expected::is_same_type;
use crate::joins::bool_if_joined;
use crate::shapes::{is_comparable, is_long};
use policy_values::EntityUID;
use schema_types::Type;
use std::alloc::{AllocError, Global};
use std::cmp::Ordering;
use type_relations::are_types_disjoint;

/// Whether two ids that are known are one.
pub fn are_one(x: Option<&EntityUID>, y: Option<&EntityUID>) -> Option<bool>
    ensures { result ≡ rule.are_one (option_copied x.entry) (option_copied y.entry) }
{
    match x {
        Some(x) => match y {
            Some(y) => Some(x.cmp(y) == Ordering::Equal),
            None => None,
        },
        None => None,
    }
}

fn are_disjoint(t: &Type, u: &Type) -> bool
    ensures { result ≡ rule.are_disjoint t.now u.now }
{
    are_types_disjoint(t, u)
}

/// The type of `==`, by the ids that its operands are, where they are known, and by their types.
pub fn equal_type(
    alloc: Global,
    x: Option<&EntityUID>,
    y: Option<&EntityUID>,
    t: &Type,
    u: &Type,
) -> Result<Option<Type>, AllocError>
    ensures { IfOk result
        (λ o. o ≡ rule.equal_type (option_copied x.entry) (option_copied y.entry) t.now u.now) }
{
    if are_disjoint(t, u) {
        return Ok(Some(Type::singleton_boolean(false)));
    }
    match are_one(x, y) {
        Some(b) => Ok(Some(truth_type(b))),
        None => bool_if_joined(alloc, t, u),
    }
}

/// The type of `<` and `<=`.
pub fn order_type(t: &Type, u: &Type) -> Option<Type>
    ensures { result ≡ rule.order_type t.now u.now }
{
    bool_if(is_same_type(t, u) && (is_long(t) || is_comparable(t)))
}
