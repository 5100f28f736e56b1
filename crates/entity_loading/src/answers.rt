//! What a loader answers.

ghost use Rattle.std.specs.Prelude.{◌≡◌, ◌≤◌, ◌+◌, ℕ, length, map, None, Some, cond, IfOk, IfErr, OnOk};
ghost use Rattle.std.specs.BTreeMap.{get};
ghost use Rattle.std.specs.List.Sorted.{IsStrictlySortedBy};
ghost use Rattle.policy_values.specs.declared.entity_uid.EntityUID.{EntityUID};
ghost use Rattle.policy_values.specs.Uid.{uid_cmp, uid_eq};
ghost use Rattle.entity_loader.specs.State.{Continues};
ghost use Rattle.entity_loading.specs.Answering.{AreUnderIds, AreHonest, IsPut, IsStray, IsStrayAnswer, AreStray, answered};
ghost use Rattle.entity_loading.specs.Causes.{CauseOf, IsRight};
ghost use Rattle.entity_loading.specs.Ordered.{WhereKnown};

use crate::error::{EntitySliceError, WrongNumberOfEntitiesError};
use entity_loader::{EntityAnswer, EntityLoader, EntityRequest, LoadError};
use entity_store::Entity;
use policy_values::EntityUID;
use std::alloc::{AllocError, Global};
use std::collections::BTreeMap;

/// What comes for requests: entities under their ids, each of which was asked for.
pub(crate) fn answers_for<D: EntityLoader>(
    alloc: Global,
    requests: &Vec<EntityRequest<'_>>,
    loader: &mut D,
) -> Result<BTreeMap<EntityUID, Entity>, EntitySliceError>
    requires { IsStrictlySortedBy uid_cmp (map (λ r. r.entity_id) requests.now.items) }
    ensures goes_on { Continues (D.state loader.old) (D.state loader.new) }
    ensures rounds { (D.state loader.new).rounds ≤ (D.state loader.old).rounds + 1 }
    ensures lists { (D.state loader.new).lists ≡ (D.state loader.old).lists }
    ensures ids { IfOk result AreUnderIds }
    ensures cause { IfErr result (CauseOf (λ v. ⊥) (D.state loader.old) (D.state loader.new)) }
    ensures honest { WhereKnown (D.state loader.old) (λ s. IfOk result (λ found.
        AreHonest (D.state loader.old).exact s requests.now.items (get uid_cmp found))) }
    ensures right { WhereKnown (D.state loader.old) (λ s.
        IfErr result (IsRight (λ v. ⊥) (D.state loader.old) (D.state loader.new))) }
{
    let answers = match loader.load_entities(alloc, requests) {
        Ok(answers) => answers,
        Err(LoadError::Failed) => return Err(EntitySliceError::LoaderFault),
        Err(LoadError::OutOfMemory) => return Err(EntitySliceError::OutOfMemory),
    };
    let expected = requests.len();
    let got = answers.len();
    if expected != got {
        let error = WrongNumberOfEntitiesError { expected, got };
        return Err(EntitySliceError::WrongNumberOfEntities(error));
    }
    under_ids(alloc, requests, answers)
}

// The entities under their ids.
fn under_ids(
    alloc: Global,
    requests: &Vec<EntityRequest<'_>>,
    answers: Vec<EntityAnswer>,
) -> Result<BTreeMap<EntityUID, Entity>, EntitySliceError>
    requires { length requests.now.items ≡ length answers.items }
    ensures ids { IfOk result AreUnderIds }
    ensures found { IfOk result (λ found. (x : EntityUID) → get uid_cmp found x ≡
        answered None requests.now.items answers.items x) }
    ensures why { IfErr result (AreStray requests.now.items answers.items) }
{
    let mut found = BTreeMap::new(alloc);
    let mut left = answers.into_iter();
    for request in requests {
        let Some(answer) = left.next() else {
            return Ok(found);
        };
        put_answer(&mut found, &request.entity_id, answer)?;
    }
    Ok(found)
}

// Keeps what was answered, where it is an entity.
fn put_answer(
    found: &mut BTreeMap<EntityUID, Entity>,
    uid: &EntityUID,
    answer: EntityAnswer,
) -> Result<(), EntitySliceError>
    ensures put { OnOk result (IsPut uid.now answer (get uid_cmp found.old) (get uid_cmp found.new)) }
    ensures why { IfErr result (IsStrayAnswer uid.now answer) }
{
    match answer {
        Some(entity) => put(found, uid, entity),
        None => Ok(()),
    }
}

// Keeps an entity under the id that was asked for.
fn put(
    found: &mut BTreeMap<EntityUID, Entity>,
    uid: &EntityUID,
    entity: Entity,
) -> Result<(), EntitySliceError>
    ensures put { OnOk result ((x : EntityUID) → get uid_cmp found.new x ≡
        cond (uid_eq uid.now x) (Some entity) (get uid_cmp found.old x)) }
    ensures id { OnOk result (entity.uid ≡ uid.now) }
    ensures why { IfErr result (IsStray uid.now entity) }
{
    let uid = uid.try_clone()?;
    if *entity.uid() != uid {
        return Err(EntitySliceError::InconsistentLoader {
            uid,
            kept: None,
            got: entity,
        });
    }
    insert(found, uid, entity)?;
    Ok(())
}

fn insert(
    found: &mut BTreeMap<EntityUID, Entity>,
    uid: EntityUID,
    entity: Entity,
) -> Result<(), AllocError>
    ensures { OnOk result ((x : EntityUID) → get uid_cmp found.new x ≡
        cond (uid_eq uid x) (Some entity) (get uid_cmp found.old x)) }
{
    found.insert(uid, entity)?;
    Ok(())
}
