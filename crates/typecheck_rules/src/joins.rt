//! Strict joins, and what is found where there is none.

ghost use Rattle.std.specs.Prelude.{◌≡◌, ◌∷◌, [], IfOk, Err, is_some};
ghost use Rattle.type_relations.specs.declared.mode.SubtypeMode.TheVariants.{Strict};
ghost use Rattle.type_relations.specs.Join.{join, join_all};
ghost use Rattle.typing_spec.specs.Rules as rule;
ghost use Rattle.typecheck_rules.specs.Own as own;
ghost use Rattle.typecheck_rules.specs.Found.{findings_from};

use crate::finding::{Finding, FindingKind, one};
use findings::LubContext;
use policy_expressions::Loc;
use schema_types::{LubHelp, Type};
use std::alloc::{AllocError, Global};
use std::collections::BTreeSet;
use type_relations::{LubError, SubtypeMode, least_upper_bound, reduce_to_least_upper_bound};

/// The strict join, or why there is none.
pub fn strict_join(alloc: Global, t: &Type, u: &Type) -> Result<Result<Type, LubHelp>, AllocError>
    ensures { IfOk result (λ r. r ≡ join Strict t.now u.now) }
{
    match least_upper_bound(alloc, t, u, SubtypeMode::Strict) {
        Ok(joined) => Ok(Ok(joined)),
        Err(LubError::Help(why)) => Ok(Err(why)),
        Err(LubError::OutOfMemory) => Err(AllocError),
    }
}

/// The strict join of a list of types, or why there is none.
pub fn strict_join_all(alloc: Global, types: &[Type]) -> Result<Result<Type, LubHelp>, AllocError>
    ensures { IfOk result (λ r. r ≡ join_all Strict types.now) }
{
    match reduce_to_least_upper_bound(alloc, types, SubtypeMode::Strict) {
        Ok(joined) => Ok(Ok(joined)),
        Err(LubError::Help(why)) => Ok(Err(why)),
        Err(LubError::OutOfMemory) => Err(AllocError),
    }
}

/// The strict join, where there is one.
pub fn joined_type(alloc: Global, t: &Type, u: &Type) -> Result<Option<Type>, AllocError>
    ensures { IfOk result (λ o. o ≡ rule.strict_join t.now u.now) }
{
    match strict_join(alloc, t, u)? {
        Ok(joined) => Ok(Some(joined)),
        Err(_) => Ok(None),
    }
}

/// Bool, where the types have a join.
pub fn bool_if_joined(alloc: Global, t: &Type, u: &Type) -> Result<Option<Type>, AllocError>
    ensures { IfOk result (λ o. o ≡ rule.bool_if (is_some (rule.strict_join t.now u.now))) }
{
    match strict_join(alloc, t, u)? {
        Ok(joined) => {
            drop(joined);
            Ok(Some(Type::primitive_boolean()))
        }
        Err(_) => Ok(None),
    }
}

/// What is found of two types that need a join.
pub fn no_join(
    alloc: Global,
    place: LubContext,
    loc: Option<Loc>,
    t: &Type,
    u: &Type,
) -> Result<Vec<Finding>, AllocError>
    ensures { IfOk result (λ r. findings_from r.items ≡ own.no_join place loc t.now u.now) }
{
    match strict_join(alloc, t, u)? {
        Ok(joined) => {
            drop(joined);
            Ok(Vec::new(alloc))
        }
        Err(why) => incompatible(alloc, place, loc, why, t, u),
    }
}

fn incompatible(
    alloc: Global,
    place: LubContext,
    loc: Option<Loc>,
    why: LubHelp,
    t: &Type,
    u: &Type,
) -> Result<Vec<Finding>, AllocError>
    ensures { IfOk result
        (λ r. findings_from r.items ≡ own.incompatible place loc (t.now ∷ u.now ∷ []) (Err why)) }
{
    let mut types = BTreeSet::new(alloc);
    types.insert(t.try_clone(alloc)?)?;
    types.insert(u.try_clone(alloc)?)?;
    one(
        alloc,
        FindingKind::IncompatibleTypes(types, why, place),
        loc,
    )
}

/// The types ascending, each once.
pub fn ascending(alloc: Global, types: &[Type]) -> Result<BTreeSet<Type>, AllocError>
    ensures { IfOk result (λ s. s.keys ≡ own.ascending types.now) }
{
    let mut set = BTreeSet::new(alloc);
    for t in types {
        set.insert(t.try_clone(alloc)?)?;
    }
    Ok(set)
}
