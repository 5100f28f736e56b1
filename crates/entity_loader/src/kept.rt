//! What is kept of answers.

ghost use Rattle.std.specs.Prelude.{◌≡◌, OnOk, IfOk, IfErr, cond, Some};
ghost use Rattle.std.specs.BTreeMap.{get};
ghost use Rattle.policy_values.specs.declared.entity_uid.EntityUID.{EntityUID};
ghost use Rattle.policy_values.specs.Uid.{uid_cmp, uid_eq};
ghost use Rattle.entity_loader.specs.Kept.{kept_with, WhyNotKept};
ghost use Rattle.reads_spec.specs.Merge.{merge_entities};

use crate::entities::merge_entities;
use entity_store::Entity;
use policy_values::EntityUID;
use std::alloc::{AllocError, Global};
use std::collections::BTreeMap;

/// Why an answer is not kept.
#[derive(Debug, Drop)]
pub enum KeepError {
    /// What is kept of an entity, and what is said of it now, do not merge.
    DoNotMerge {
        /// What was kept.
        kept: Entity,
        /// What is said now.
        got: Entity,
    },
    /// There is no memory left.
    OutOfMemory,
}

impl From<AllocError> for KeepError {
    ghost use Rattle.std.specs.Prelude.{◌≡◌};
    ghost use Rattle.entity_loader.specs.declared.kept.KeepError.TheVariants.{OutOfMemory};

    ghost from_gives = { λ _ e. e ≡ OutOfMemory };

    fn from(_error: AllocError) -> KeepError {
        KeepError::OutOfMemory
    }
}

/// Keeps an entity under its id, merged with what is kept there. Where it is not kept, nothing is said of
/// what is kept.
pub fn keep(
    alloc: Global,
    kept: &mut BTreeMap<EntityUID, Entity>,
    entity: Entity,
) -> Result<(), KeepError>
    ensures ok { OnOk result ((x : EntityUID) → get uid_cmp kept.new x ≡
        cond (uid_eq entity.uid x) (kept_with (get uid_cmp kept.old entity.uid) entity)
        (get uid_cmp kept.old x)) }
    ensures err { IfErr result (WhyNotKept (get uid_cmp kept.old entity.uid) entity) }
{
    let uid = entity.uid().try_clone()?;
    let known = kept.remove(&uid);
    let merged = match merged_with(alloc, known, entity) {
        Ok(merged) => merged,
        Err(error) => return Err(error),
    };
    put(kept, uid, merged)?;
    Ok(())
}

fn put(
    kept: &mut BTreeMap<EntityUID, Entity>,
    uid: EntityUID,
    entity: Entity,
) -> Result<(), AllocError>
    ensures { OnOk result ((x : EntityUID) → get uid_cmp kept.new x ≡
        cond (uid_eq uid x) (Some entity) (get uid_cmp kept.old x)) }
{
    kept.insert(uid, entity)?;
    Ok(())
}

fn merged_with(alloc: Global, known: Option<Entity>, entity: Entity) -> Result<Entity, KeepError>
    ensures ok { IfOk result (λ e. Some e ≡ kept_with known entity) }
    ensures err { IfErr result (WhyNotKept known entity) }
{
    match known {
        Some(known) => merged(alloc, known, entity),
        None => Ok(entity),
    }
}

fn merged(alloc: Global, known: Entity, entity: Entity) -> Result<Entity, KeepError>
    ensures ok { IfOk result (λ e. Some e ≡ merge_entities known entity) }
    ensures err { IfErr result (WhyNotKept (Some known) entity) }
{
    match merge_entities(alloc, &known, &entity)? {
        Some(merged) => Ok(merged),
        None => Err(KeepError::DoNotMerge {
            kept: known,
            got: entity,
        }),
    }
}
