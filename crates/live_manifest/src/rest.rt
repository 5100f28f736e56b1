//! The tries of all policies but one.

ghost use Rattle.std.specs.Prelude.{◌≡◌, List, filter, map, slice_get, IfOk};
ghost use Rattle.std.specs.List.{AllZip};
ghost use Rattle.std.specs.Map.Iter.{deref};
ghost use Rattle.std.specs.declared.vec.Vec.{Vec};
ghost use Rattle.std.specs.declared.alloc.Global.{Global};
ghost use Rattle.access_tries.specs.Table.{Table};
ghost use Rattle.policy_set.specs.Data.{PolicyData};
ghost use Rattle.policy_set.specs.Removal.{is_another_policy};
ghost use Rattle.live_manifest.specs.Tries.{AreTriesOf, HasTriesOf, HaveTries, IsTrieOr, IsUnionAt};

use access_tries::RootAccessTrie;
use policy_set::{Policy, PolicySet};
use policy_values::Text;
use schema_core::ValidatorSchema;
use std::alloc::{AllocError, Global};
use std::cmp::Ordering;
use std::collections::BTreeMap;

/// For each environment of the schema the union of the tries of some policies.
pub(crate) fn all_united(
    alloc: Global,
    schema: &ValidatorSchema,
    tries: &[&Vec<RootAccessTrie>],
) -> Result<Vec<RootAccessTrie>, AllocError>
    ensures { (ps : List PolicyData) →
        AllZip (HasTriesOf schema.now) ps (map (deref {X = Vec Table Global}) tries.now) →
        IfOk result (λ ts. AreTriesOf schema.now ps ts.items) }
{
    let envs = schema.unlinked_request_envs(alloc)?;
    let mut united = Vec::new(alloc);
    for number in 0..envs.len() {
        united.push(union_at(alloc, number, tries)?)?;
    }
    Ok(united)
}

/// The tries of each policy but the one with the id.
pub(crate) fn others<'a>(
    alloc: Global,
    schema: &ValidatorSchema,
    policies: &PolicySet,
    id: &Text,
    tries: &'a BTreeMap<Text, Vec<RootAccessTrie>>,
) -> Result<Vec<&'a Vec<RootAccessTrie>>, AllocError>
    requires { HaveTries schema.now tries.now policies.now.policies }
    ensures { IfOk result
        (λ os. AllZip (HasTriesOf schema.now)
        (filter (is_another_policy id.now) policies.now.policies)
        (map (deref {X = Vec Table Global}) os.items)) }
{
    let _schema = schema;
    let mut others = Vec::new(alloc);
    for policy in policies.policies() {
        if is_another(policy, id) {
            if let Some(own) = tries.get(policy.id()) {
                others.push(own)?;
            }
        }
    }
    Ok(others)
}

fn is_another(policy: &Policy, id: &Text) -> bool
    ensures { result ≡ is_another_policy id.now policy.now }
{
    id.cmp(policy.id()) != Ordering::Equal
}

// The union of the tries with the number. It is made half by half, so that no trie is copied more often than
// halves are made.
fn union_at(
    alloc: Global,
    number: usize,
    tries: &[&Vec<RootAccessTrie>],
) -> Result<RootAccessTrie, AllocError>
    ensures { IfOk result (IsUnionAt number (map (deref {X = Vec Table Global}) tries.now)) }
{
    match tries {
        [] => Ok(RootAccessTrie::new(alloc)),
        [own] => trie_at(alloc, number, own),
        _ => {
            let (prefix, back) = tries.split_at(tries.len() / 2);
            let prefix = union_at(alloc, number, prefix)?;
            let back = union_at(alloc, number, back)?;
            prefix.union(alloc, &back)
        }
    }
}

fn trie_at(
    alloc: Global,
    number: usize,
    own: &Vec<RootAccessTrie>,
) -> Result<RootAccessTrie, AllocError>
    ensures { IfOk result (IsTrieOr (slice_get own.now.items number)) }
{
    match own.get(number) {
        Some(trie) => trie.try_clone(alloc),
        None => Ok(RootAccessTrie::new(alloc)),
    }
}
