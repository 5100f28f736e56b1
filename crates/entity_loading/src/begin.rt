//! Where the entries of a request, and entity literals, lead along a trie.

ghost use Rattle.std.specs.Prelude.{◌≡◌, ◌⊎◌, Bool, true, [], IsSome, IfOk, OnOk, IfErr};
ghost use Rattle.access_tries.specs.Edges.{Address};
ghost use Rattle.access_tries.specs.Views.{view_leads};
ghost use Rattle.reads_spec.specs.Among.{IsIn};
ghost use Rattle.reads_spec.specs.Restrict.{root_value};
ghost use Rattle.policy_values.specs.declared.entity_uid.EntityUID.{EntityUID};
ghost use Rattle.entity_store.specs.Request.{IsWhole, known};
ghost use Rattle.policy_values.specs.Value.{entity, rec};
ghost use Rattle.entity_loading.specs.declared.place.Place.{Place};
ghost use Rattle.entity_loading.specs.Begun.{root_points, roots_point, IsFirst, IsRoot, SomeRootBlocks};
ghost use Rattle.entity_loading.specs.Leads.{Leads, RootLeads, IsLed, IsEdgeLed};
ghost use Rattle.entity_loading.specs.Places.{IsAtOrBelow};
ghost use Rattle.entity_loading.specs.CannotGoOn.{RefusedBy};
ghost use Rattle.entity_loading.specs.Needs.{Adds, sees, points};

use crate::blocking::blocked_in_context;
use crate::follow::{FollowError, follow_fields};
use crate::place::{Place, ask};
use access_tries::{Edge, EntityRoot, RootAccessTrie, TrieRef, links_of};
use entity_store::{Context, Request};
use policy_expressions::Var;
use policy_values::EntityUID;
use std::alloc::{AllocError, Global};
use std::collections::BTreeSet;

/// The places that are asked for first, as [`root_places`] gives them. Refused where a path cannot go on from
/// a value of the context.
pub fn first_places(
    alloc: Global,
    request: &Request,
    trie: &RootAccessTrie,
) -> Result<BTreeSet<Place>, FollowError>
    requires { IsWhole request.now }
    ensures asked { IfOk result
        (λ start. Adds trie.now (roots_point trie.now request.now) [] start.keys) }
    ensures first { IfOk result (λ start. (q : Place) → IsIn q start.keys → IsFirst trie.now q) }
    ensures leads { IfOk result (λ _. (b : Bool) (x : EntityUID) (a : Address) →
        roots_point trie.now request.now b x a ≡ true → RootLeads trie.now request.now b x a) }
    ensures why { IfErr result (RefusedBy (SomeRootBlocks trie.now request.now)) }
{
    if let Some(value) = blocked_in_context(alloc, request, trie)? {
        return Err(FollowError::Incompatible(value));
    }
    Ok(root_places(alloc, request, trie)?)
}

/// The places to which the roots' values lead along the trie.
pub fn root_places(
    alloc: Global,
    request: &Request,
    trie: &RootAccessTrie,
) -> Result<BTreeSet<Place>, AllocError>
    requires { IsWhole request.now }
    ensures asked { IfOk result
        (λ start. Adds trie.now (roots_point trie.now request.now) [] start.keys) }
    ensures first { IfOk result (λ start. (q : Place) → IsIn q start.keys → IsFirst trie.now q) }
    ensures leads { IfOk result (λ _. (b : Bool) (x : EntityUID) (a : Address) →
        roots_point trie.now request.now b x a ≡ true → RootLeads trie.now request.now b x a) }
{
    let nodes = trie.nodes();
    let mut start = BTreeSet::new(alloc);
    for link in links_of(nodes, 0) {
        let below = TrieRef::new(nodes, link.number);
        ask_edge(request, &link.edge, &below, &mut start)?;
    }
    Ok(start)
}

fn ask_edge(
    request: &Request,
    edge: &Edge,
    trie: &TrieRef<'_>,
    next: &mut BTreeSet<Place>,
) -> Result<(), AllocError>
    requires whole { IsWhole request.now }
    requires there { view_leads trie.now [] ≡ true }
    ensures asked { OnOk result
        (Adds trie.now.nodes
        (λ b. root_points b trie.now request.now edge.now) next.old.keys next.new.keys) }
    ensures below { OnOk result ((q : Place) → IsIn q next.new.keys → IsIn q next.old.keys ⊎
        (IsRoot edge.now × IsAtOrBelow trie.now q)) }
    ensures leads { OnOk result (IsEdgeLed trie.now request.now edge.now) }
{
    match edge {
        Edge::Root(root) => ask_root(request, root, trie, next),
        Edge::Field(_) | Edge::AnyTag => Ok(()),
    }
}

fn ask_root(
    request: &Request,
    root: &EntityRoot,
    trie: &TrieRef<'_>,
    next: &mut BTreeSet<Place>,
) -> Result<(), AllocError>
    requires whole { IsWhole request.now }
    requires there { view_leads trie.now [] ≡ true }
    ensures asked { OnOk result
        (Adds trie.now.nodes
        (λ b. points (root_value request.now root.now)
        (sees b trie.now)) next.old.keys next.new.keys) }
    ensures below { OnOk result ((q : Place) → IsIn q next.new.keys → IsIn q next.old.keys ⊎
        IsAtOrBelow trie.now q) }
    ensures leads { OnOk result
        (IsLed trie.now (points (root_value request.now root.now))
        (Leads (root_value request.now root.now))) }
{
    match root {
        EntityRoot::Literal(uid) => ask_at(uid, trie, next),
        EntityRoot::Var(Var::Principal) => ask_entry(&request.principal, trie, next),
        EntityRoot::Var(Var::Action) => ask_entry(&request.action, trie, next),
        EntityRoot::Var(Var::Resource) => ask_entry(&request.resource, trie, next),
        EntityRoot::Var(Var::Context) => match &request.context {
            Some(context) => follow_context(context, trie, next),
            None => Ok(()),
        },
    }
}

fn ask_entry(
    entry: &Option<EntityUID>,
    trie: &TrieRef<'_>,
    next: &mut BTreeSet<Place>,
) -> Result<(), AllocError>
    requires known { IsSome entry.now }
    requires there { view_leads trie.now [] ≡ true }
    ensures asked { OnOk result
        (Adds trie.now.nodes
        (λ b. points (entity (known entry.now)) (sees b trie.now)) next.old.keys next.new.keys) }
    ensures below { OnOk result ((q : Place) → IsIn q next.new.keys → IsIn q next.old.keys ⊎
        IsAtOrBelow trie.now q) }
    ensures leads { OnOk result
        (IsLed trie.now (points (entity (known entry.now))) (Leads (entity (known entry.now)))) }
{
    match entry {
        Some(uid) => ask_at(uid, trie, next),
        None => Ok(()),
    }
}

fn ask_at(uid: &EntityUID, trie: &TrieRef<'_>, next: &mut BTreeSet<Place>) -> Result<(), AllocError>
    requires there { view_leads trie.now [] ≡ true }
    ensures asked { OnOk result
        (Adds trie.now.nodes
        (λ b. points (entity uid.now) (sees b trie.now)) next.old.keys next.new.keys) }
    ensures below { OnOk result ((q : Place) → IsIn q next.new.keys → IsIn q next.old.keys ⊎
        IsAtOrBelow trie.now q) }
    ensures leads { OnOk result (IsLed trie.now (points (entity uid.now)) (Leads (entity uid.now))) }
{
    ask(next, uid, trie.number())
}

fn follow_context(
    context: &Context,
    trie: &TrieRef<'_>,
    next: &mut BTreeSet<Place>,
) -> Result<(), AllocError>
    ensures asked { OnOk result
        (Adds trie.now.nodes
        (λ b. points (rec context.now) (sees b trie.now)) next.old.keys next.new.keys) }
    ensures below { OnOk result ((q : Place) → IsIn q next.new.keys → IsIn q next.old.keys ⊎
        IsAtOrBelow trie.now q) }
    ensures leads { OnOk result (IsLed trie.now (points (rec context.now)) (Leads (rec context.now))) }
{
    follow_fields(context.fields(), trie, next)
}
