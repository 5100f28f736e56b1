// Types and actions in the order of their names, each with its sets.
ghost use Rattle.std.specs.Prelude.{◌≡◌, map, IfOk};
ghost use Rattle.std.specs.BTreeMap.{IsOrdered};
ghost use Rattle.std.specs.BTreeSet.{IsOrdered as Ascends};
ghost use Rattle.policy_values.specs.Uid.{text_cmp, uid_cmp};
ghost use Rattle.schema_core.specs.Listing.{HasAscending};
ghost use Rattle.schema_core.specs.Arranged.{arranged_type, arranged_action, keys_found};

use crate::listing::{Kinds, TypesOf};
use crate::{ValidatorActionId, ValidatorEntityType};
use policy_values::{EntityType, EntityUID, Key, SharedSet, SharedSteps};
use schema_types::Attributes;
use std::alloc::{AllocError, Global};
use std::collections::{BTreeMap, BTreeSet};

/// Each type with the set at it.
pub fn arranged_types(
    alloc: Global,
    kinds: Kinds,
    types: &SharedSteps<EntityType>,
) -> Result<Vec<ValidatorEntityType>, AllocError>
    requires { HasAscending text_cmp text_cmp types.now.entries }
    ensures each { IfOk result (λ list. list.items ≡ map (arranged_type types.now.entries) kinds.entries) }
    ensures ordered { IfOk result (λ _. IsOrdered text_cmp kinds) }
{
    let mut list = Vec::new(alloc);
    for (name, kind) in kinds {
        let descendants = copied_set(alloc, types, &name)?;
        list.push(ValidatorEntityType::with_set(alloc, name, descendants, kind)?)?;
    }
    Ok(list)
}

/// Each action with the sets at it.
pub fn arranged_actions(
    alloc: Global,
    contexts: BTreeMap<EntityUID, Attributes>,
    actions: &SharedSteps<EntityUID>,
    principals: &TypesOf,
    resources: &TypesOf,
) -> Result<Vec<ValidatorActionId>, AllocError>
    requires actions { HasAscending uid_cmp uid_cmp actions.now.entries }
    requires principals { HasAscending uid_cmp text_cmp principals.now.entries }
    requires resources { HasAscending uid_cmp text_cmp resources.now.entries }
    ensures each { IfOk result (λ list. list.items ≡ map
        (arranged_action actions.now.entries principals.now.entries resources.now.entries) contexts.entries) }
    ensures ordered { IfOk result (λ _. IsOrdered uid_cmp contexts) }
{
    let mut list = Vec::new(alloc);
    for (name, context) in contexts {
        let principals = copied_set(alloc, principals, &name)?;
        let resources = copied_set(alloc, resources, &name)?;
        let descendants = copied_set(alloc, actions, &name)?;
        list.push(ValidatorActionId {
            name,
            principals,
            resources,
            descendants,
            context,
        })?;
    }
    Ok(list)
}

// The set at a name.
fn copied_set<A: Key, K: Key>(
    alloc: Global,
    sets: &BTreeMap<A, SharedSet<K>>,
    name: &A,
) -> Result<BTreeSet<K>, AllocError>
    requires { HasAscending A.cmp K.cmp sets.now.entries }
    ensures keys { IfOk result (λ set. set.keys ≡ keys_found A.cmp sets.now.entries name.now) }
    ensures ordered { IfOk result (Ascends K.cmp) }
{
    match sets.get(name) {
        Some(set) => set.as_set().clone(),
        None => Ok(BTreeSet::new(alloc)),
    }
}
