//! What is found of the operands of `<` and `<=`.

ghost use Rattle.std.specs.Prelude.{◌≡◌, ◌∷◌, [], IfOk, IsTrue};
ghost use Rattle.typing_spec.specs.Signatures.{long_type, datetime_type, duration_type};
ghost use Rattle.schema_types.specs.Ty.{extension};
ghost use Rattle.typing_spec.specs.Words.{is_word};
ghost use Rattle.typecheck_rules.specs.Own as own;
ghost use Rattle.typecheck_rules.specs.Found.{findings_from};

use crate::compared::order_type;
use crate::finding::{Finding, FindingKind, joined, one};
use crate::shapes::{is_comparable, is_long};
use policy_expressions::Loc;
use policy_values::Name;
use schema_types::Type;
use std::alloc::{AllocError, Global};

/// What is found of two operands that are compared.
pub fn order_found(
    alloc: Global,
    left: Option<Loc>,
    right: Option<Loc>,
    t: &Type,
    u: &Type,
) -> Result<Vec<Finding>, AllocError>
    ensures { IfOk result (λ r. findings_from r.items ≡ own.order_found left right t.now u.now) }
{
    match order_type(t, u) {
        Some(of) => {
            drop(of);
            Ok(Vec::new(alloc))
        }
        None => order_wrong(alloc, left, right, t, u),
    }
}

fn order_wrong(
    alloc: Global,
    left: Option<Loc>,
    right: Option<Loc>,
    t: &Type,
    u: &Type,
) -> Result<Vec<Finding>, AllocError>
    ensures { IfOk result (λ r. findings_from r.items ≡ own.order_wrong left right t.now u.now) }
{
    if is_long(t) {
        no_long(alloc, right, u)
    } else if is_long(u) {
        no_long(alloc, left, t)
    } else if is_comparable(t) {
        other_type(alloc, t, right, u)
    } else if is_comparable(u) {
        other_type(alloc, u, left, t)
    } else {
        let found = not_ordered(alloc, left, t)?;
        let more = not_ordered(alloc, right, u)?;
        joined(found, more)
    }
}

// An operand that has to be a long.
fn no_long(alloc: Global, loc: Option<Loc>, t: &Type) -> Result<Vec<Finding>, AllocError>
    ensures { IfOk result (λ r. findings_from r.items ≡ own.wrong (long_type ∷ []) loc t.now) }
{
    let mut types = Vec::new(alloc);
    types.push(Type::primitive_long())?;
    wrong(alloc, types, loc, t)
}

// An operand that has to be of the type of the other.
fn other_type(
    alloc: Global,
    expected: &Type,
    loc: Option<Loc>,
    t: &Type,
) -> Result<Vec<Finding>, AllocError>
    ensures { IfOk result (λ r. findings_from r.items ≡ own.wrong (expected.now ∷ []) loc t.now) }
{
    let mut types = Vec::new(alloc);
    types.push(expected.try_clone(alloc)?)?;
    wrong(alloc, types, loc, t)
}

// An operand that has to be of a type that can be compared.
fn not_ordered(alloc: Global, loc: Option<Loc>, t: &Type) -> Result<Vec<Finding>, AllocError>
    ensures { IfOk result (λ r. findings_from r.items ≡
        own.wrong (datetime_type ∷ duration_type ∷ long_type ∷ []) loc t.now) }
{
    let mut types = Vec::new(alloc);
    types.push(extension_type(alloc, "datetime")?)?;
    types.push(extension_type(alloc, "duration")?)?;
    types.push(Type::primitive_long())?;
    wrong(alloc, types, loc, t)
}

#[tactic(auto, using(typing_spec::proofs::Words::word_is_name))]
fn extension_type(alloc: Global, name: &str) -> Result<Type, AllocError>
    requires { IsTrue (is_word name.now) }
    ensures { IfOk result (λ t. t ≡ extension name.now) }
{
    let name = Name::parse(alloc, name)?;
    Ok(Type::extension(name.unwrap()))
}

// An operand that has to be of another type.
fn wrong(
    alloc: Global,
    types: Vec<Type>,
    loc: Option<Loc>,
    t: &Type,
) -> Result<Vec<Finding>, AllocError>
    ensures { IfOk result (λ r. findings_from r.items ≡ own.wrong types.items loc t.now) }
{
    let kind = FindingKind::UnexpectedType(types, t.try_clone(alloc)?, None);
    one(alloc, kind, loc)
}
