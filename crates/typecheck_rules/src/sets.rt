//! Sets and records.

ghost use Rattle.std.specs.Prelude.{◌≡◌, IfOk, Err, option_map};
ghost use Rattle.std.specs.Result.{result_ok};
ghost use Rattle.schema_types.specs.declared.kinds.OpenTag.TheVariants.{ClosedAttributes};
ghost use Rattle.schema_types.specs.Required.{required_attrs};
ghost use Rattle.schema_types.specs.Ty.{record_of, set_of};
ghost use Rattle.type_relations.specs.declared.mode.SubtypeMode.TheVariants.{Strict};
ghost use Rattle.type_relations.specs.Join.{join_all};
ghost use Rattle.typing_spec.specs.Rules as rule;
ghost use Rattle.typecheck_rules.specs.Own as own;
ghost use Rattle.findings.specs.declared.helps.LubContext.TheVariants as context;
ghost use Rattle.typecheck_rules.specs.Found.{findings_from};

use crate::finding::{Finding, FindingKind, one};
use crate::joins::{ascending, bool_if_joined, no_join, strict_join_all};
use crate::shapes::is_set;
use findings::LubContext;
use policy_expressions::Loc;
use policy_values::Text;
use schema_types::{LubHelp, OpenTag, Type, TypeKind};
use std::alloc::{AllocError, Global};
use std::collections::BTreeMap;

/// The type of `contains`.
pub fn contains_type(alloc: Global, t: &Type, u: &Type) -> Result<Option<Type>, AllocError>
    ensures { IfOk result (λ o. o ≡ rule.contains_type t.now u.now) }
{
    match t.kind() {
        TypeKind::Set {
            element_type: Some(element),
        } => bool_if_joined(alloc, element, u),
        _ => Ok(None),
    }
}

/// The type of `containsAll` and `containsAny`.
pub fn contains_sets_type(alloc: Global, t: &Type, u: &Type) -> Result<Option<Type>, AllocError>
    ensures { IfOk result (λ o. o ≡ rule.contains_sets_type t.now u.now) }
{
    if is_set(t) && is_set(u) {
        bool_if_joined(alloc, t, u)
    } else {
        Ok(None)
    }
}

/// What is found of the operands of `contains`.
pub fn contains_found(
    alloc: Global,
    loc: Option<Loc>,
    t: &Type,
    u: &Type,
) -> Result<Vec<Finding>, AllocError>
    ensures { IfOk result (λ r. findings_from r.items ≡ own.contains_found loc t.now u.now) }
{
    match t.kind() {
        TypeKind::Set {
            element_type: Some(element),
        } => no_join(alloc, LubContext::Contains, loc, element, u),
        _ => Ok(Vec::new(alloc)),
    }
}

/// The type of a set literal, by the types of its elements.
pub fn set_type(alloc: Global, types: &[Type]) -> Result<Option<Type>, AllocError>
    ensures { IfOk result (λ o. o ≡ rule.set_type types.now) }
{
    match types {
        [] => Ok(None),
        [_, ..] => set_of_joined(alloc, types),
    }
}

fn set_of_joined(alloc: Global, types: &[Type]) -> Result<Option<Type>, AllocError>
    ensures { IfOk result (λ o. o ≡ option_map set_of (result_ok (join_all Strict types.now))) }
{
    match strict_join_all(alloc, types)? {
        Ok(element) => Ok(Some(Type::set(alloc, element)?)),
        Err(_) => Ok(None),
    }
}

/// What is found of a set literal, by the types of its elements.
pub fn set_found(
    alloc: Global,
    loc: Option<Loc>,
    types: &[Type],
) -> Result<Vec<Finding>, AllocError>
    ensures { IfOk result (λ r. findings_from r.items ≡ own.set_found loc types.now) }
{
    match types {
        [] => one(alloc, FindingKind::EmptySetForbidden, loc),
        [_, ..] => elements_found(alloc, loc, types),
    }
}

fn elements_found(
    alloc: Global,
    loc: Option<Loc>,
    types: &[Type],
) -> Result<Vec<Finding>, AllocError>
    ensures { IfOk result (λ r. findings_from r.items ≡
        own.incompatible context.Set loc types.now (join_all Strict types.now)) }
{
    match strict_join_all(alloc, types)? {
        Ok(joined) => {
            drop(joined);
            Ok(Vec::new(alloc))
        }
        Err(why) => incompatible_elements(alloc, loc, why, types),
    }
}

fn incompatible_elements(
    alloc: Global,
    loc: Option<Loc>,
    why: LubHelp,
    types: &[Type],
) -> Result<Vec<Finding>, AllocError>
    ensures { IfOk result
        (λ r. findings_from r.items ≡ own.incompatible context.Set loc types.now (Err why)) }
{
    let types = ascending(alloc, types)?;
    one(
        alloc,
        FindingKind::IncompatibleTypes(types, why, LubContext::Set),
        loc,
    )
}

/// The type of a record literal, by the types of its fields.
pub fn record_type(alloc: Global, fields: BTreeMap<Text, Type>) -> Result<Type, AllocError>
    ensures { IfOk result (λ t. t ≡ record_of (required_attrs fields.entries) ClosedAttributes) }
{
    Type::record_with_required_attributes(alloc, fields, OpenTag::ClosedAttributes)
}
