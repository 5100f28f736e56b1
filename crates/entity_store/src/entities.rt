//! Stores of entities.

ghost use Rattle.std.specs.Prelude.{◌≡◌, All, map, IfOk, OnOk, if◌then◌else◌};
ghost use Rattle.std.specs.List.Sorted.{IsStrictlySortedBy};
ghost use Rattle.std.specs.Option.{option_map};
ghost use Rattle.std.specs.Ordering.{is_eq};
ghost use Rattle.std.specs.BTreeMap as tree;
ghost use Rattle.policy_values.specs.Least.{IsLeastIfAny};
ghost use Rattle.policy_values.specs.Repeated.{IsRepeated};
ghost use Rattle.policy_values.specs.Uid.{uid_cmp};
ghost use Rattle.entity_store.specs.Store.{entity_at};
ghost use Rattle.entity_store.specs.Entries.{AreStored};
ghost use Rattle.entity_store.specs.Linked.{links_of, linked};
ghost use Rattle.entity_store.specs.FromParents.{ids_of};

use crate::Entity;
use policy_values::{EntityUID, SharedSteps, Steps, closure_of, first_own, least_repeated};
use std::alloc::{AllocError, Global};
use std::collections::BTreeMap;
use std::collections::btree_map::Values;
use std::marker::Model;

/// A store: entities under their ids, in the order of the ids.
#[derive(Debug)]
pub struct Entities {
    pub(crate) entities: BTreeMap<EntityUID, Entity>,
}

impl Drop for Entities {
    fn drop(self) {
        let Entities { entities } = self;
        drop(entities);
    }
}

impl Model for Entities {
    ghost use Rattle.entity_store.specs.Store.{Store, coded_entity};
    ghost use Rattle.std.specs.Coded.{coded_list};

    ghost Value = { Store };

    ghost coded = { coded_list coded_entity };

    ghost use Rattle.std.specs.BTreeMap.{values};
    ghost use Rattle.entity_store.specs.Entries.{AreStored};

    ghost view = { λ s. values s.entities };

    ghost invariant = { λ s. AreStored s.entities };
}

impl Entities {
    ghost use Rattle.std.specs.Prelude.{◌≡◌, All, length, map, MatchResult};
    ghost use Rattle.std.specs.Option.{option_copied};
    ghost use Rattle.std.specs.List.Sorted.{IsStrictlySortedBy};
    ghost use Rattle.std.specs.Map.Iter.{ShowsInOrder, deref};
    ghost use Rattle.policy_values.specs.Uid.{uid_cmp};
    ghost use Rattle.entity_store.specs.Store.{StoredEntity, entity_at};
    ghost use Rattle.entity_store.specs.FromParents.{IsFromAncestors, IsFromParents, IsRefused, IsRepeatedly};

    /// The store of these entities, each with all ids that are reached from it by parents as its ancestors,
    /// also those that have no entity. It is refused where two entities have one id, with the least such id,
    /// and else where an id is its own ancestor, with the least such id.
    pub fn from_parents(alloc: Global, entities: Vec<Entity>) -> Result<Entities, EntitiesError>
        ensures { MatchResult result (IsFromParents entities.items) (IsRefused entities.items) }
    {
        if let Some(uid) = least_repeated_id(alloc, &entities)? {
            return Err(EntitiesError::Duplicate(uid));
        }
        let parents = parents_of(alloc, &entities)?;
        let ancestors = closure_of(alloc, &parents)?;
        drop(parents);
        if let Some(uid) = first_own(&ancestors) {
            return Err(EntitiesError::Cycle(uid.try_clone()?));
        }
        let entities = with_ancestors(alloc, entities, &ancestors)?;
        Ok(under_ids(alloc, entities)?)
    }

    /// The store of these entities, each with the ancestors that it lists. It is refused where two entities
    /// have one id, with the least such id.
    pub fn from_ancestors(alloc: Global, entities: Vec<Entity>) -> Result<Entities, EntitiesError>
        ensures { MatchResult result (IsFromAncestors entities.items) (IsRepeatedly entities.items) }
    {
        if let Some(repeated) = least_repeated_id(alloc, &entities)? {
            return Err(EntitiesError::Duplicate(repeated));
        }
        Ok(under_ids(alloc, entities)?)
    }

    /// How many entities there are.
    pub fn len(&self) -> usize
        ensures { result ≡ length self.now }
    {
        self.entities.len()
    }

    /// The entity with an id, where there is one.
    pub fn entity(&self, uid: &EntityUID) -> Option<&Entity>
        ensures { option_copied result ≡ entity_at self.now uid.now }
    {
        self.entities.get(uid)
    }

    /// All entities, in the order of their ids.
    pub fn iter(&self) -> Values<'_, EntityUID, Entity>
        ensures rest { result ≡ self.now }
        ensures runs { ShowsInOrder (deref {X = StoredEntity}) }
        ensures ascending { IsStrictlySortedBy uid_cmp (map (λ e. e.uid) self.now) }
        ensures ancestors { All (λ e. IsStrictlySortedBy uid_cmp e.ancestors) self.now }
    {
        self.entities.values()
    }
}

/// Why entities are no store.
#[derive(Debug, Drop)]
pub enum EntitiesError {
    /// Two entities have this id, and no two have a lesser one.
    Duplicate(EntityUID),
    /// The id is its own ancestor, and no lesser one is.
    Cycle(EntityUID),
    /// There is no memory left.
    OutOfMemory,
}

impl From<AllocError> for EntitiesError {
    ghost use Rattle.entity_store.specs.declared.entities.EntitiesError.TheVariants.{OutOfMemory};
    ghost use Rattle.std.specs.Prelude.{◌≡◌};

    ghost from_gives = { λ _ e. e ≡ OutOfMemory };

    fn from(_error: AllocError) -> EntitiesError {
        EntitiesError::OutOfMemory
    }
}

// The least id that two of the entities have.
fn least_repeated_id(alloc: Global, entities: &[Entity]) -> Result<Option<EntityUID>, AllocError>
    ensures { IfOk result (IsLeastIfAny uid_cmp (IsRepeated (ids_of entities.now))) }
{
    let mut ids = Vec::new(alloc);
    for entity in entities {
        ids.push(entity.uid().try_clone()?)?;
    }
    least_repeated(alloc, &ids)
}

// What each entity lists.
fn parents_of(alloc: Global, entities: &[Entity]) -> Result<Steps<EntityUID>, AllocError>
    requires { (uid : EntityUID) → ¬ IsRepeated (ids_of entities.now) uid }
    ensures { IfOk result (λ parents. (uid : EntityUID) →
        tree.get uid_cmp parents uid ≡ option_map links_of (entity_at entities.now uid)) }
{
    let mut parents = BTreeMap::new(alloc);
    for entity in entities {
        parents.insert(entity.uid().try_clone()?, entity.ancestors().clone()?)?;
    }
    Ok(parents)
}

// Each entity with the ancestors that there are for its id.
fn with_ancestors(
    alloc: Global,
    entities: Vec<Entity>,
    ancestors: &SharedSteps<EntityUID>,
) -> Result<Vec<Entity>, AllocError>
    ensures { IfOk result
        (λ list. list.items ≡ map (linked (tree.get uid_cmp ancestors.now)) entities.items) }
{
    let mut list = Vec::new(alloc);
    for entity in entities {
        match ancestors.get(entity.uid()) {
            Some(reached) => list.push(entity.with_ancestors(reached.try_clone()?))?,
            None => list.push(entity)?,
        }
    }
    Ok(list)
}

// The entities under their ids.
fn under_ids(alloc: Global, entities: Vec<Entity>) -> Result<Entities, AllocError>
    requires { (uid : EntityUID) → ¬ IsRepeated (ids_of entities.items) uid }
    ensures ordered { IfOk result (λ store. IsStrictlySortedBy uid_cmp (ids_of store)) }
    ensures kept { IfOk result
        (λ store. (uid : EntityUID) → entity_at store uid ≡ entity_at entities.items uid) }
    ensures ascending { IfOk result (All (λ e. IsStrictlySortedBy uid_cmp e.ancestors)) }
{
    let mut placed = BTreeMap::new(alloc);
    for entity in entities {
        add(&mut placed, entity)?;
    }
    Ok(Entities { entities: placed })
}

// Adds an entity under its id.
fn add(entities: &mut BTreeMap<EntityUID, Entity>, entity: Entity) -> Result<(), AllocError>
    requires { AreStored entities.old }
    ensures added { OnOk result ((uid : EntityUID) → tree.get uid_cmp entities.new uid ≡
        (if is_eq (uid_cmp entity.uid uid) then Some entity else tree.get uid_cmp entities.old uid)) }
    ensures stored { OnOk result (AreStored entities.new) }
{
    let (uid, entity) = entity.under_id()?;
    entities.insert(uid, entity)?;
    Ok(())
}
