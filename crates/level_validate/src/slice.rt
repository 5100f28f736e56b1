//! A store cut at a level.

ghost use Rattle.std.specs.Prelude.{◌≡◌, IfOk, map, suc};
ghost use Rattle.std.specs.Map.Iter.{deref};
ghost use Rattle.policy_values.specs.declared.entity_uid.EntityUID.{EntityUID};
ghost use Rattle.entity_store.specs.Request.{IsWhole};
ghost use Rattle.level_spec.specs.Cut.{entities_among, cut};
ghost use Rattle.level_validate.specs.Fresh.{AreFresh};

use crate::held::{asked, held_by};
use level_spec::laws::hops_reach;
use policy_core::{Entities, Entity, EntityUID, Request, try_clone_fields};
use std::alloc::{AllocError, Global};
use std::collections::BTreeSet;

/// The store cut at a level: empty at level 0; at each level above it, the entities that are reached from the
/// request in one step fewer, each whole. No step reaches what the request holds: its entries, and all ids
/// anywhere in its context. With each step, all ids anywhere in the attributes and tags of the entities that
/// were reached before are reached too.
///
/// Each id is looked up once, and so it takes time n log n in the store, and a look at the levels.
pub fn slice_at_level(
    alloc: Global,
    request: &Request,
    entities: &Entities,
    level: u32,
) -> Result<Entities, AllocError>
    requires { IsWhole request.now }
    ensures { IfOk result (λ s. s ≡ cut level request.now entities.now) }
{
    if level == 0 {
        return Ok(Entities::new(alloc));
    }
    let reached = reached_in(alloc, request, entities, level - 1)?;
    entities_among(alloc, &reached, entities)
}

// The ids that are reached in so many steps. With each of them only what was reached anew is looked up.
fn reached_in(
    alloc: Global,
    request: &Request,
    entities: &Entities,
    steps: u32,
) -> Result<BTreeSet<EntityUID>, AllocError>
    requires { IsWhole request.now }
    ensures { IfOk result (λ ids. entities_among ids.keys entities.now ≡
        cut (suc steps) request.now entities.now) }
{
    hops_reach();
    let _ascending = entities.iter();
    let mut reached = BTreeSet::new(alloc);
    let mut fresh = add_fresh(alloc, asked(alloc, request)?, &mut reached)?;
    for _step in 0..steps {
        if fresh.is_empty() {
            break;
        }
        fresh = add_fresh(alloc, held_by(alloc, entities, fresh)?, &mut reached)?;
    }
    Ok(reached)
}

// Adds ids to those that are reached, and answers those of them that were not.
fn add_fresh<'a>(
    alloc: Global,
    ids: Vec<&'a EntityUID>,
    reached: &mut BTreeSet<EntityUID>,
) -> Result<Vec<&'a EntityUID>, AllocError>
    ensures { IfOk result
        (λ fresh. AreFresh (map
        (deref {X = EntityUID}) ids.entry.items) reached.old.keys reached.new.keys
        (map (deref {X = EntityUID}) fresh.items)) }
{
    let mut fresh = Vec::new(alloc);
    for uid in ids {
        if reached.insert(uid.try_clone()?)? {
            fresh.push(uid)?;
        }
    }
    Ok(fresh)
}

// The entities whose ids are among these.
fn entities_among(
    alloc: Global,
    ids: &BTreeSet<EntityUID>,
    entities: &Entities,
) -> Result<Entities, AllocError>
    ensures { IfOk result (λ s. s ≡ entities_among ids.now.keys entities.now) }
{
    let mut kept = Entities::new(alloc);
    for entity in entities.iter() {
        if ids.contains(entity.uid()) {
            kept.push(copy_of(alloc, entity)?)?;
        }
    }
    Ok(kept)
}

// An equal entity.
fn copy_of(alloc: Global, entity: &Entity) -> Result<Entity, AllocError>
    ensures { IfOk result (λ e. e ≡ entity.now) }
{
    let uid = entity.uid().try_clone()?;
    let attrs = try_clone_fields(alloc, entity.attrs())?;
    let ancestors = entity.ancestors().clone()?;
    let tags = try_clone_fields(alloc, entity.tags())?;
    Ok(Entity::new(uid, attrs, ancestors, tags))
}
