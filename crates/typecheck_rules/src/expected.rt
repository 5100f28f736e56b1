//! What operands have to be.

ghost use Rattle.std.specs.Prelude.{◌≡◌, IfOk, option_map};
ghost use Rattle.typing_spec.specs.Signatures.{same_type};
ghost use Rattle.typecheck_rules.specs.Expected as definition;
ghost use Rattle.typecheck_rules.specs.Walked as walked;
ghost use Rattle.typecheck_rules.specs.Found.{expected_of, findings_from};

use crate::finding::{Finding, FindingKind, one};
use crate::shapes::{
    has_attributes, is_boolean, is_entity, is_entity_or_set, is_long, is_record, is_set, is_string,
    is_typed_set,
};
use findings::UnexpectedTypeHelp;
use policy_expressions::{BinaryOp, Loc, UnaryOp};
use schema_types::Type;
use std::alloc::{AllocError, Global};

/// What an operand has to be.
#[derive(Clone, Copy)]
pub enum Expected<'a> {
    /// The operand of `!`, a test, a side of `&&` or `||`.
    Boolean,
    /// The operand of `-` of one operand.
    Long,
    /// An operand of `+`.
    LongOfSum,
    /// An operand of `-` or `*`.
    LongOfProduct,
    /// The right operand of `getTag` or `hasTag`.
    Tag,
    /// The operand of `like`.
    StringOfLike,
    /// The operand of `isEmpty`.
    SetOfIsEmpty,
    /// The left operand of `contains`.
    SetOfContains,
    /// The left operand of `containsAll` or `containsAny`.
    LeftSet,
    /// The right operand of `containsAll` or `containsAny`.
    RightSet,
    /// The left operand of `getTag` or `hasTag`.
    EntityOfTag,
    /// The operand of `is`.
    EntityOfIs,
    /// The left operand of `in`.
    EntityOfIn,
    /// The right operand of `in`.
    Entities,
    /// The operand of `.`.
    Owner,
    /// The operand of `has`.
    OwnerOfHas,
    /// An argument of a call.
    Argument(&'a Type),
}

/// What the operand of an operator has to be.
pub fn of_unary<'a>(op: UnaryOp) -> Expected<'a>
    ensures { expected_of result ≡ definition.of_unary op }
{
    match op {
        UnaryOp::Not => Expected::Boolean,
        UnaryOp::Neg => Expected::Long,
        UnaryOp::IsEmpty => Expected::SetOfIsEmpty,
    }
}

/// What the left operand of an operator has to be, where it is not the other operand that decides.
pub fn left_of<'a>(op: BinaryOp) -> Option<Expected<'a>>
    ensures { option_map expected_of result ≡ definition.left_of op }
{
    match op {
        BinaryOp::Eq | BinaryOp::Less | BinaryOp::LessEq => None,
        BinaryOp::Add => Some(Expected::LongOfSum),
        BinaryOp::Sub | BinaryOp::Mul => Some(Expected::LongOfProduct),
        BinaryOp::In => Some(Expected::EntityOfIn),
        BinaryOp::Contains => Some(Expected::SetOfContains),
        BinaryOp::ContainsAll | BinaryOp::ContainsAny => Some(Expected::LeftSet),
        BinaryOp::GetTag | BinaryOp::HasTag => Some(Expected::EntityOfTag),
    }
}

/// What the right operand of an operator has to be, where it is not the other operand that decides.
pub fn right_of<'a>(op: BinaryOp) -> Option<Expected<'a>>
    ensures { option_map expected_of result ≡ definition.right_of op }
{
    match op {
        BinaryOp::Eq | BinaryOp::Less | BinaryOp::LessEq | BinaryOp::Contains => None,
        BinaryOp::Add => Some(Expected::LongOfSum),
        BinaryOp::Sub | BinaryOp::Mul => Some(Expected::LongOfProduct),
        BinaryOp::In => Some(Expected::Entities),
        BinaryOp::ContainsAll | BinaryOp::ContainsAny => Some(Expected::RightSet),
        BinaryOp::GetTag | BinaryOp::HasTag => Some(Expected::Tag),
    }
}

/// Whether a type passes.
pub fn fits(x: Expected<'_>, t: &Type) -> bool
    ensures { result ≡ (expected_of x.entry).fits t.now }
{
    match x {
        Expected::Boolean => is_boolean(t),
        Expected::Long | Expected::LongOfSum | Expected::LongOfProduct => is_long(t),
        Expected::Tag | Expected::StringOfLike => is_string(t),
        Expected::SetOfContains => is_typed_set(t),
        Expected::SetOfIsEmpty | Expected::LeftSet | Expected::RightSet => is_set(t),
        Expected::EntityOfTag | Expected::EntityOfIs | Expected::EntityOfIn => is_entity(t),
        Expected::Entities => is_entity_or_set(t),
        Expected::Owner | Expected::OwnerOfHas => has_attributes(t),
        Expected::Argument(expected) => is_same_type(t, expected),
    }
}

/// Whether the types are one.
pub fn is_same_type(t: &Type, u: &Type) -> bool
    ensures { result ≡ same_type t.now u.now }
{
    t == u
}

// What may help where the type does not pass.
fn help(x: Expected<'_>, t: &Type) -> Option<UnexpectedTypeHelp>
    ensures { result ≡ (expected_of x.entry).help t.now }
{
    match x {
        Expected::Boolean
        | Expected::Long
        | Expected::Tag
        | Expected::EntityOfTag
        | Expected::Owner
        | Expected::Argument(_) => None,
        Expected::LongOfSum => sum_help(t),
        Expected::LongOfProduct => product_help(t),
        Expected::StringOfLike => like_help(t),
        Expected::SetOfIsEmpty => empty_help(t),
        Expected::SetOfContains | Expected::LeftSet => contains_help(t),
        Expected::RightSet => Some(UnexpectedTypeHelp::TryUsingSingleContains),
        Expected::EntityOfIs => Some(UnexpectedTypeHelp::TypeTestNotSupported),
        Expected::EntityOfIn => Some(UnexpectedTypeHelp::TryUsingContains),
        Expected::Entities | Expected::OwnerOfHas => contents_help(t),
    }
}

fn sum_help(t: &Type) -> Option<UnexpectedTypeHelp>
    ensures { result ≡ definition.sum_help t.now }
{
    if is_string(t) {
        Some(UnexpectedTypeHelp::ConcatenationNotSupported)
    } else {
        product_help(t)
    }
}

fn product_help(t: &Type) -> Option<UnexpectedTypeHelp>
    ensures { result ≡ definition.product_help t.now }
{
    if is_set(t) {
        Some(UnexpectedTypeHelp::SetOperationsNotSupported)
    } else {
        None
    }
}

fn like_help(t: &Type) -> Option<UnexpectedTypeHelp>
    ensures { result ≡ definition.like_help t.now }
{
    if is_entity(t) {
        Some(UnexpectedTypeHelp::TryUsingIs)
    } else {
        None
    }
}

fn empty_help(t: &Type) -> Option<UnexpectedTypeHelp>
    ensures { result ≡ definition.empty_help t.now }
{
    if is_string(t) {
        Some(UnexpectedTypeHelp::TryUsingEqEmptyString)
    } else {
        None
    }
}

fn contains_help(t: &Type) -> Option<UnexpectedTypeHelp>
    ensures { result ≡ definition.contains_help t.now }
{
    if is_entity(t) {
        Some(UnexpectedTypeHelp::TryUsingIn)
    } else if is_record(t) {
        Some(UnexpectedTypeHelp::TryUsingHas)
    } else if is_string(t) {
        Some(UnexpectedTypeHelp::TryUsingLike)
    } else {
        None
    }
}

fn contents_help(t: &Type) -> Option<UnexpectedTypeHelp>
    ensures { result ≡ definition.contents_help t.now }
{
    if is_set(t) {
        Some(UnexpectedTypeHelp::TryUsingContains)
    } else if is_string(t) {
        Some(UnexpectedTypeHelp::TryUsingLike)
    } else {
        None
    }
}

// The types that are named to the reader.
fn types(alloc: Global, x: Expected<'_>) -> Result<Vec<Type>, AllocError>
    ensures { IfOk result (λ v. v.items ≡ (expected_of x.entry).types) }
{
    let mut types = Vec::new(alloc);
    match x {
        Expected::Boolean => types.push(Type::primitive_boolean())?,
        Expected::Long | Expected::LongOfSum | Expected::LongOfProduct => {
            types.push(Type::primitive_long())?
        }
        Expected::Tag | Expected::StringOfLike => types.push(Type::primitive_string())?,
        Expected::SetOfContains | Expected::SetOfIsEmpty | Expected::LeftSet | Expected::RightSet =>
            types.push(Type::any_set())?,
        Expected::EntityOfTag | Expected::EntityOfIs | Expected::EntityOfIn => {
            types.push(Type::any_entity_reference())?
        }
        Expected::Entities => {
            types.push(Type::set(alloc, Type::any_entity_reference())?)?;
            types.push(Type::any_entity_reference())?;
        }
        Expected::Owner | Expected::OwnerOfHas => {
            types.push(Type::any_entity_reference())?;
            types.push(Type::any_record(alloc)?)?;
        }
        Expected::Argument(expected) => types.push(expected.try_clone(alloc)?)?,
    }
    Ok(types)
}

/// What is found of an operand whose type does not pass.
pub fn unexpected(
    alloc: Global,
    x: Expected<'_>,
    loc: Option<Loc>,
    t: &Type,
) -> Result<Vec<Finding>, AllocError>
    ensures { IfOk result (λ r. findings_from r.items ≡ walked.unexpected (expected_of x.entry) loc t.now) }
{
    let types = types(alloc, x)?;
    let kind = FindingKind::UnexpectedType(types, t.try_clone(alloc)?, help(x, t));
    one(alloc, kind, loc)
}
