//! What ancestors' tries name, from their roots.

ghost use Rattle.std.specs.Prelude.{◌≡◌, ◌≤◌, ◌↔◌, ℕ, true, [], IsSome, IfOk, OnOk};
ghost use Rattle.std.specs.BTreeSet.{contains};
ghost use Rattle.access_tries.specs.Table.{IsTable};
ghost use Rattle.access_tries.specs.Views.{view_leads, whole};
ghost use Rattle.policy_values.specs.declared.entity_uid.EntityUID.{EntityUID};
ghost use Rattle.policy_values.specs.Uid.{uid_cmp};
ghost use Rattle.policy_core.specs.Eval.{known_fields};
ghost use Rattle.reads_spec.specs.Restrict.{root_value};
ghost use Rattle.entity_store.specs.Request.{IsWhole, known};
ghost use Rattle.entity_store.specs.Store.{Store};
ghost use Rattle.policy_values.specs.Value.{entity, rec};
ghost use Rattle.entity_loading.specs.Names.{IsKept, IsNamed, Names};
ghost use Rattle.entity_loading.specs.Waiting.{Has, Gives, Adds, WaitFrom, WaitingNames};

use crate::names::{Waiting, name_each_entity, name_fields, name_later};
use access_tries::{EntityRoot, Node, TrieRef};
use entity_store::{Context, Entity, Request};
use policy_expressions::Var;
use policy_values::EntityUID;
use std::alloc::{AllocError, Global};
use std::collections::{BTreeMap, BTreeSet};

/// The ids that are asked for as ancestors at the node: those that its ancestors' tries name, followed in the
/// request and in what is kept of entities.
pub fn named_ids(
    alloc: Global,
    request: &Request,
    kept: &BTreeMap<EntityUID, Entity>,
    trie: &TrieRef<'_>,
) -> Result<BTreeSet<EntityUID>, AllocError>
    requires { IsWhole request.now }
    ensures { IfOk result (λ ids. (s : Store) → IsKept kept.now s → (y : EntityUID) →
        (contains uid_cmp ids y ≡ true) ↔ IsNamed trie.now request.now s y) }
{
    let mut ids = BTreeSet::new(alloc);
    let mut waiting = BTreeMap::new(alloc);
    for (root, below) in trie.ancestors_required().roots() {
        name_root(alloc, request, root, &below, &mut ids, &mut waiting)?;
    }
    name_waiting(alloc, trie.nodes(), kept, waiting, &mut ids)?;
    Ok(ids)
}

// From the ids that wait, those at the least number first: as each node leads to later ones, each id waits at
// a node once.
fn name_waiting(
    alloc: Global,
    nodes: &[Node],
    kept: &BTreeMap<EntityUID, Entity>,
    mut waiting: Waiting,
    ids: &mut BTreeSet<EntityUID>,
) -> Result<(), AllocError>
    requires table { IsTable nodes.now }
    requires there { WaitFrom 0 nodes.now waiting }
    ensures { OnOk result ((s : Store) → IsKept kept.now s → (y : EntityUID) → Has ids.new y ↔
        Gives s (whole nodes.now) ids.old waiting y) }
{
    while let Some((number, uids)) = waiting.pop_first() {
        let trie = TrieRef::new(nodes, number);
        name_each_entity(alloc, &uids, kept, &trie, ids, &mut waiting)?;
    }
    Ok(())
}

fn name_root(
    alloc: Global,
    request: &Request,
    root: &EntityRoot,
    trie: &TrieRef<'_>,
    ids: &mut BTreeSet<EntityUID>,
    waiting: &mut Waiting,
) -> Result<(), AllocError>
    requires whole { IsWhole request.now }
    requires there { view_leads trie.now [] ≡ true }
    ensures named { OnOk result ((s : Store) →
        Adds (Names s (root_value request.now root.now) trie.now)
        (Gives s trie.now ids.old waiting.old) (Gives s trie.now ids.new waiting.new)) }
    ensures later { OnOk result (WaitFrom 0 trie.now.nodes waiting.old →
        WaitFrom 0 trie.now.nodes waiting.new) }
{
    match root {
        EntityRoot::Literal(uid) => name_later(alloc, uid, trie, waiting),
        EntityRoot::Var(Var::Principal) => name_entry(alloc, &request.principal, trie, waiting),
        EntityRoot::Var(Var::Action) => name_entry(alloc, &request.action, trie, waiting),
        EntityRoot::Var(Var::Resource) => name_entry(alloc, &request.resource, trie, waiting),
        EntityRoot::Var(Var::Context) => name_context(alloc, &request.context, trie, ids, waiting),
    }
}

fn name_entry(
    alloc: Global,
    entry: &Option<EntityUID>,
    trie: &TrieRef<'_>,
    waiting: &mut Waiting,
) -> Result<(), AllocError>
    requires known { IsSome entry.now }
    requires there { view_leads trie.now [] ≡ true }
    ensures named { OnOk result ((s : Store) →
        Adds (Names s (entity (known entry.now)) trie.now)
        (WaitingNames s trie.now.nodes waiting.old) (WaitingNames s trie.now.nodes waiting.new)) }
    ensures later { OnOk result (WaitFrom 0 trie.now.nodes waiting.old →
        WaitFrom 0 trie.now.nodes waiting.new) }
{
    match entry {
        Some(uid) => name_later(alloc, uid, trie, waiting),
        None => Ok(()),
    }
}

fn name_context(
    alloc: Global,
    context: &Option<Context>,
    trie: &TrieRef<'_>,
    ids: &mut BTreeSet<EntityUID>,
    waiting: &mut Waiting,
) -> Result<(), AllocError>
    requires { IsSome context.now }
    ensures named { OnOk result ((s : Store) →
        Adds (Names s (rec (known_fields context.now)) trie.now)
        (Gives s trie.now ids.old waiting.old) (Gives s trie.now ids.new waiting.new)) }
    ensures later { OnOk result (WaitFrom 0 trie.now.nodes waiting.old →
        WaitFrom 0 trie.now.nodes waiting.new) }
{
    match context {
        Some(context) => name_fields(alloc, context.fields(), trie, ids, waiting),
        None => Ok(()),
    }
}
