//! What is kept of the answers of a round, and what they lead to.

ghost use Rattle.std.specs.Prelude.{◌≡◌, [], IfOk, IfErr, OnOk};
ghost use Rattle.std.specs.BTreeMap.{get};
ghost use Rattle.access_tries.specs.Table.{IsTable};
ghost use Rattle.entity_loading.specs.Answered.{answers_point};
ghost use Rattle.entity_loading.specs.Places.{IsBelowSome};
ghost use Rattle.entity_loading.specs.Needs.{Adds};
ghost use Rattle.entity_loading.specs.declared.place.Place.{Place};
ghost use Rattle.entity_loader.specs.Kept.{kept_with};
ghost use Rattle.policy_values.specs.Uid.{uid_cmp, uid_eq};
ghost use Rattle.policy_values.specs.declared.entity_uid.EntityUID.{EntityUID};
ghost use Rattle.reads_spec.specs.Among.{IsIn};
ghost use Rattle.entity_loading.specs.Answering.{AreUnderIds};
ghost use Rattle.entity_loading.specs.Keeping.{kept_and, refusal_of, IsNotKept, AreNotKept, AreNotTaken, Keeps};

use crate::error::{EntitySliceError, IncompatibleEntityManifestError};
use crate::{FollowError, Place, next_places};
use access_tries::Node;
use entity_loader::{KeepError, keep};
use entity_store::Entity;
use policy_values::EntityUID;
use std::alloc::Global;
use std::collections::{BTreeMap, BTreeSet};

/// Why a trie does not fit what is found.
pub(crate) fn refusal(error: FollowError) -> EntitySliceError
    ensures { result ≡ refusal_of error }
{
    match error {
        FollowError::Incompatible(value) => {
            let error = IncompatibleEntityManifestError { value };
            EntitySliceError::IncompatibleEntityManifest(error)
        }
        FollowError::OutOfMemory => EntitySliceError::OutOfMemory,
    }
}

/// Keeps what was found, and answers the places to which it leads.
pub(crate) fn take_answers(
    alloc: Global,
    nodes: &[Node],
    pending: &BTreeSet<Place>,
    found: BTreeMap<EntityUID, Entity>,
    kept: &mut BTreeMap<EntityUID, Entity>,
) -> Result<BTreeSet<Place>, EntitySliceError>
    requires table { IsTable nodes.now }
    requires found_ids { AreUnderIds found }
    requires kept_ids { AreUnderIds kept.old }
    ensures ids { OnOk result (AreUnderIds kept.new) }
    ensures kept { OnOk result ((x : EntityUID) → get uid_cmp kept.new x ≡
        kept_and (get uid_cmp kept.old x) (get uid_cmp found x)) }
    ensures asked { IfOk result
        (λ next. Adds nodes.now
        (answers_point nodes.now (get uid_cmp found) pending.now.keys) [] next.keys) }
    ensures below { IfOk result (λ next. (q : Place) → IsIn q next.keys →
        IsBelowSome nodes.now pending.now.keys q) }
    ensures why { IfErr result
        (AreNotTaken nodes.now pending.now.keys (get uid_cmp kept.old) (get uid_cmp found)) }
{
    let next = match next_places(alloc, nodes, pending, &found) {
        Ok(next) => next,
        Err(error) => return Err(refusal(error)),
    };
    keep_all(alloc, kept, found)?;
    Ok(next)
}

// Keeps all that was found.
fn keep_all(
    alloc: Global,
    kept: &mut BTreeMap<EntityUID, Entity>,
    mut found: BTreeMap<EntityUID, Entity>,
) -> Result<(), EntitySliceError>
    requires found_ids { AreUnderIds found }
    requires kept_ids { AreUnderIds kept.old }
    ensures ids { OnOk result (AreUnderIds kept.new) }
    ensures kept { OnOk result ((x : EntityUID) → get uid_cmp kept.new x ≡
        kept_and (get uid_cmp kept.old x) (get uid_cmp found x)) }
    ensures why { IfErr result (AreNotKept (get uid_cmp kept.old) (get uid_cmp found)) }
{
    while let Some((uid, entity)) = found.pop_first() {
        keep_one(alloc, kept, uid, entity)?;
    }
    Ok(())
}

fn keep_one(
    alloc: Global,
    kept: &mut BTreeMap<EntityUID, Entity>,
    uid: EntityUID,
    entity: Entity,
) -> Result<(), EntitySliceError>
    ensures kept { OnOk result (Keeps entity (get uid_cmp kept.old) (get uid_cmp kept.new)) }
    ensures why { IfErr result (IsNotKept uid (get uid_cmp kept.old entity.uid) entity) }
{
    match keep(alloc, kept, entity) {
        Ok(()) => Ok(()),
        Err(KeepError::DoNotMerge { kept, got }) => Err(EntitySliceError::InconsistentLoader {
            uid,
            kept: Some(kept),
            got,
        }),
        Err(KeepError::OutOfMemory) => Err(EntitySliceError::OutOfMemory),
    }
}
