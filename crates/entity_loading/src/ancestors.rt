//! The ancestors that are asked for after the last round.

ghost use Rattle.std.specs.Prelude.{◌≡◌, ◌≤◌, ◌+◌, ◌↔◌, ◌&&◌, ◌||◌, true, length, map, Some, IfOk, IfErr, OnOk};
ghost use Rattle.std.specs.BTreeMap.{get};
ghost use Rattle.std.specs.List.{AllZip, AllByRecursion};
ghost use Rattle.std.specs.List.Sorted.{IsStrictlySortedBy};
ghost use Rattle.access_tries.specs.Table.{IsTable};
ghost use Rattle.entity_loader.specs.Answers.{IsHonestList};
ghost use Rattle.entity_loader.specs.State.{Continues};
ghost use Rattle.entity_loading.specs.Names.{IsKept};
ghost use Rattle.policy_core.specs.Operators.{above};
ghost use Rattle.policy_values.specs.declared.entity_uid.EntityUID.{EntityUID};
ghost use Rattle.policy_values.specs.Uid.{uid_cmp, uid_eq};
ghost use Rattle.entity_store.specs.Request.{IsWhole};
ghost use Rattle.entity_store.specs.Store.{Store};
ghost use Rattle.entity_loading.specs.Answering.{AreUnderIds};
ghost use Rattle.entity_loading.specs.Causes.{CauseOf, IsRight};
ghost use Rattle.entity_loading.specs.Joining.{lists, asks, brings, AreJoined, IsAskedFor, AreAscending, HasMore};
ghost use Rattle.entity_store.specs.FromParents.{without_links};
ghost use Rattle.entity_loading.specs.KeptPart.{AreAlike};
ghost use Rattle.entity_loading.specs.Ordered.{WhereKnown};
ghost use Rattle.entity_loading.specs.Unasked.{DemandNothing, AsksForSome};

use crate::borrowed::borrowed_tries;
use crate::error::EntitySliceError;
use crate::rounds::Loaded;
use crate::{Place, named_ids};
use access_tries::Node;
use entity_loader::{AncestorsRequest, EntityLoader, LoadError};
use entity_store::{Entity, Request};
use policy_values::{EntityUID, try_clone_fields};
use std::alloc::{AllocError, Global};
use std::collections::{BTreeMap, BTreeSet};

/// What is kept, with the ancestors that are asked for.
pub(crate) fn with_ancestors<D: EntityLoader>(
    alloc: Global,
    nodes: &[Node],
    request: &Request,
    loaded: Loaded,
    loader: &mut D,
) -> Result<BTreeMap<EntityUID, Entity>, EntitySliceError>
    requires table { IsTable nodes.now }
    requires whole { IsWhole request.now }
    requires ids { AreUnderIds loaded.kept }
    ensures goes_on { Continues (D.state loader.old) (D.state loader.new) }
    ensures rounds { (D.state loader.new).rounds ≡ (D.state loader.old).rounds }
    ensures lists { (D.state loader.new).lists ≤ (D.state loader.old).lists + 1 }
    ensures unasked { DemandNothing nodes.now loaded.asked.keys →
        D.state loader.new ≡ D.state loader.old }
    ensures ids { IfOk result AreUnderIds }
    ensures alike { IfOk result (λ found. AreAlike (get uid_cmp found) (get uid_cmp loaded.kept)) }
    ensures ascending { IfOk result (λ found. AreAscending (get uid_cmp loaded.kept) →
        AreAscending (get uid_cmp found)) }
    ensures honest { WhereKnown (D.state loader.old) (λ s. (t : Store) → IsKept loaded.kept t →
        IfOk result (λ found.
        AreJoined (D.state loader.old).exact s nodes.now request.now loaded t found)) }
    ensures cause { IfErr result (CauseOf (λ v. ⊥) (D.state loader.old) (D.state loader.new)) }
    ensures right { WhereKnown (D.state loader.old) (λ s.
        IfErr result (IsRight (λ v. ⊥) (D.state loader.old) (D.state loader.new))) }
{
    let Loaded { asked, mut kept } = loaded;
    let requests = ancestors_requests(alloc, nodes, request, &asked, &kept)?;
    if requests.is_empty() {
        return Ok(kept);
    }
    let lists = lists_for(alloc, &requests, loader)?;
    add_all(alloc, &requests, lists, &mut kept)?;
    Ok(kept)
}

// For each id of the places, where its trie names some, the ids that it names.
fn ancestors_requests(
    alloc: Global,
    nodes: &[Node],
    request: &Request,
    asked: &BTreeSet<Place>,
    kept: &BTreeMap<EntityUID, Entity>,
) -> Result<Vec<AncestorsRequest>, AllocError>
    requires table { IsTable nodes.now }
    requires whole { IsWhole request.now }
    ensures some { IfOk result (λ requests. AllByRecursion AsksForSome requests.items) }
    ensures ascending { IfOk result
        (λ requests. IsStrictlySortedBy uid_cmp (map (λ r. r.entity_id) requests.items)) }
    ensures asked { IfOk result (λ requests. (t : Store) → IsKept kept.now t → (x y : EntityUID) →
        (asks requests.items x y ≡ true) ↔ IsAskedFor nodes.now request.now asked.now.keys t x y) }
{
    let borrowed = borrowed_tries(alloc, nodes, asked)?;
    let mut requests = Vec::new(alloc);
    for (uid, borrowed) in borrowed.iter() {
        let ids = named_ids(alloc, request, kept, &borrowed.trie(nodes))?;
        if !ids.is_empty() {
            requests.push(AncestorsRequest {
                entity_id: uid.try_clone()?,
                ancestors: items_of(alloc, &ids)?,
            })?;
        }
    }
    Ok(requests)
}

// The ids of a set, in their order.
fn items_of(alloc: Global, ids: &BTreeSet<EntityUID>) -> Result<Vec<EntityUID>, AllocError>
    ensures { IfOk result (λ items. items.items ≡ ids.now.keys) }
{
    let mut items = Vec::new(alloc);
    for id in ids.iter() {
        items.push(id.try_clone()?)?;
    }
    Ok(items)
}

// What comes for the requests: as many lists.
fn lists_for<D: EntityLoader>(
    alloc: Global,
    requests: &Vec<AncestorsRequest>,
    loader: &mut D,
) -> Result<Vec<Vec<EntityUID>>, EntitySliceError>
    requires { IsStrictlySortedBy uid_cmp (map (λ r. r.entity_id) requests.now.items) }
    ensures goes_on { Continues (D.state loader.old) (D.state loader.new) }
    ensures rounds { (D.state loader.new).rounds ≡ (D.state loader.old).rounds }
    ensures lists { (D.state loader.new).lists ≤ (D.state loader.old).lists + 1 }
    ensures fit { IfOk result (λ lists. length requests.now.items ≡ length lists.items) }
    ensures cause { IfErr result (CauseOf (λ v. ⊥) (D.state loader.old) (D.state loader.new)) }
    ensures honest { WhereKnown (D.state loader.old) (λ s. IfOk result (λ lists.
        AllZip (IsHonestList (D.state loader.old).exact s) requests.now.items lists.items)) }
    ensures right { WhereKnown (D.state loader.old) (λ s.
        IfErr result (IsRight (λ v. ⊥) (D.state loader.old) (D.state loader.new))) }
{
    let lists = match loader.load_ancestors(alloc, requests) {
        Ok(lists) => lists,
        Err(LoadError::Failed) => return Err(EntitySliceError::LoaderFault),
        Err(LoadError::OutOfMemory) => return Err(EntitySliceError::OutOfMemory),
    };
    let expected = requests.len();
    let got = lists.len();
    if expected != got {
        return Err(EntitySliceError::WrongNumberOfAncestors { expected, got });
    }
    Ok(lists)
}

// Adds to each entity that is kept the ancestors that came for it.
fn add_all(
    alloc: Global,
    requests: &Vec<AncestorsRequest>,
    lists: Vec<Vec<EntityUID>>,
    kept: &mut BTreeMap<EntityUID, Entity>,
) -> Result<(), AllocError>
    requires ids { AreUnderIds kept.old }
    requires fit { length requests.now.items ≡ length lists.items }
    ensures ids { OnOk result (AreUnderIds kept.new) }
    ensures alike { OnOk result (AreAlike (get uid_cmp kept.new) (get uid_cmp kept.old)) }
    ensures more { OnOk result
        (HasMore (brings requests.now.items lists.items) (get uid_cmp kept.old)
        (get uid_cmp kept.new)) }
{
    let mut lists = lists.into_iter();
    for request in requests {
        if let Some(list) = lists.next() {
            add_ancestors(alloc, &request.entity_id, list, kept)?;
        }
    }
    Ok(())
}

fn add_ancestors(
    alloc: Global,
    uid: &EntityUID,
    ids: Vec<EntityUID>,
    kept: &mut BTreeMap<EntityUID, Entity>,
) -> Result<(), AllocError>
    requires { AreUnderIds kept.old }
    ensures ids { OnOk result (AreUnderIds kept.new) }
    ensures alike { OnOk result (AreAlike (get uid_cmp kept.new) (get uid_cmp kept.old)) }
    ensures more { OnOk result
        (HasMore (λ x y. uid_eq uid.now x && lists ids.items y) (get uid_cmp kept.old)
        (get uid_cmp kept.new)) }
{
    let Some(entity) = kept.get(uid) else {
        return Ok(());
    };
    let more = with_more(alloc, entity, ids)?;
    kept.insert(uid.try_clone()?, more)?;
    Ok(())
}

fn with_more(alloc: Global, entity: &Entity, ids: Vec<EntityUID>) -> Result<Entity, AllocError>
    ensures alike { IfOk result (λ e. without_links e ≡ without_links entity.now) }
    ensures more { IfOk result (λ e. (y : EntityUID) → above (Some e) y ≡
        (above (Some entity.now) y || lists ids.items y)) }
    ensures ascending { IfOk result (λ e. IsStrictlySortedBy uid_cmp e.ancestors) }
{
    let mut ancestors = entity.ancestors().clone()?;
    for id in ids {
        ancestors.insert(id)?;
    }
    let attrs = try_clone_fields(alloc, entity.attrs())?;
    let tags = try_clone_fields(alloc, entity.tags())?;
    Ok(Entity::new(entity.uid().try_clone()?, attrs, ancestors, tags))
}
