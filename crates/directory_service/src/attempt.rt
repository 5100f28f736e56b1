//! Deciding on what was looked up so far.

ghost use Rattle.std.specs.Prelude.{◌≡◌, ◌≢◌, None, IfOk};
ghost use Rattle.conformance.specs.StoreRules.{first_store_fault};
ghost use Rattle.sqlite.specs.Held.{state};
ghost use Rattle.entity_store.specs.Request.{IsWhole};
ghost use Rattle.entity_store.specs.FromParents.{IsFromParents};
ghost use Rattle.typing_spec.specs.Conforms.{RequestConforms};
ghost use Rattle.entity_manifest.specs.Accepted.{IsAccepted};
ghost use Rattle.entity_manifest.specs.OfPolicies.{IsManifestOf};
ghost use Rattle.entity_manifest.specs.declared.EntitySliceError.TheVariants.{LoaderFault};
ghost use Rattle.entity_files.specs.Fetched.{AreFetched};
ghost use Rattle.entity_files.specs.Rows.{known_entities, known_store};
ghost use Rattle.directory_service.specs.Attempts.{OfStore, IsAttempt, Becomes};

use crate::row_fault::{RowError, RowFault};
use conformance::{ConformanceError, conforms};
use entity_files::{Fetched, FetchedLoader};
use entity_manifest::{EntityManifest, EntitySliceError, Steps, load_for_request};
use entity_store::{Entities, EntitiesError, Request};
use policy_set::{PolicySet, Response, decide};
use policy_values::EntityUID;
use schema_core::ValidatorSchema;
use sqlite::{Alter, Connection};
use std::alloc::{AllocError, Global};
use std::collections::BTreeSet;
use std::sync::ledger::Ledger;

/// The ids that have to be looked up before a request is decided.
#[derive(Drop)]
pub struct MissingIds {
    /// The ids; none where the loader failed for another reason.
    pub ids: Vec<EntityUID>,
    /// Whether their ancestors are needed too, as far as rows lead to them.
    pub above: bool,
}

/// What deciding on what was looked up so far comes to.
#[derive(Drop)]
pub enum Attempt {
    /// The response.
    Decided(Response),
    /// These ids have to be looked up first.
    Missing(MissingIds),
    /// What the request reads is not loaded.
    Refused(EntitySliceError),
}

// Checks that each entity that was found conforms, with the ancestors that it has by what was found.
fn check_entities(schema: &ValidatorSchema, entities: &Entities) -> Result<(), RowError>
    ensures { IfOk result (λ _. first_store_fault schema.now entities.now ≡ None) }
{
    match conforms(schema, entities) {
        Ok(()) => Ok(()),
        Err(ConformanceError::OutOfMemory) => Err(RowError::OutOfMemory),
        Err(ConformanceError::EntityDoesNotConform(fault)) => Err(RowError::Row(RowFault::Breaks(
            fault,
        ))),
    }
}

// The store of what was found.
fn store_of(alloc: Global, fetched: &Fetched) -> Result<Entities, RowError>
    ensures { IfOk result (IsFromParents fetched.now.found.items) }
{
    match fetched.entities(alloc) {
        Ok(entities) => Ok(entities),
        Err(EntitiesError::Duplicate(uid)) => Err(RowError::Row(RowFault::NoEntity(uid))),
        Err(EntitiesError::Cycle(uid)) => Err(RowError::Row(RowFault::Cycle(uid))),
        Err(EntitiesError::OutOfMemory) => Err(RowError::OutOfMemory),
    }
}

/// Adds those of the ids that were not looked up.
pub(crate) fn add_unseen(
    seen: &BTreeSet<EntityUID>,
    unseen: &mut Vec<EntityUID>,
    ids: &BTreeSet<EntityUID>,
) -> Result<(), AllocError> {
    for uid in ids {
        if !seen.contains(uid) {
            unseen.push(uid.try_clone()?)?;
        }
    }
    Ok(())
}

// The ancestors of actions' entities that were not looked up: such an entity conforms with all of its
// ancestors, and with no others.
fn unseen_above_actions(
    alloc: Global,
    seen: &BTreeSet<EntityUID>,
    entities: &Entities,
) -> Result<Vec<EntityUID>, AllocError> {
    let mut unseen = Vec::new(alloc);
    for entity in entities.iter() {
        if entity.uid().is_action() {
            add_unseen(seen, &mut unseen, entity.ancestors())?;
        }
    }
    Ok(unseen)
}

/// Decides by the manifest of accepted policies, on a whole request that conforms, with what was looked up so
/// far.
///
/// Where the database says the store of its rows and that conforms, a decision is the response on all of it,
/// and nothing is refused. Errs with the row that is at fault: where two entities that were found have one
/// id, an id is its own ancestor, or an entity does not conform.
pub(crate) fn try_decide<S: Alter, L: Ledger>(
    alloc: Global,
    schema: &ValidatorSchema,
    policies: &PolicySet,
    manifest: &EntityManifest,
    request: &Request,
    conn: &Connection<S>,
    fetched: &Fetched,
    steps: &mut Steps<L>,
) -> Result<Attempt, RowError>
    requires accepted { IsAccepted schema.now policies.now }
    requires manifest { IsManifestOf schema.now policies.now.policies manifest.now }
    requires whole { IsWhole request.now }
    requires conforms { RequestConforms schema.now request.now }
    requires fetched { AreFetched (known_entities (state S.Store conn.now)) fetched.now }
    ensures right { OfStore schema.now (known_store (state S.Store conn.now)) (λ w.
        IfOk result (IsAttempt policies.now.policies request.now w)) }
    ensures no_fault { IfOk result (λ a. a ≢ Attempt.Refused LoaderFault) }
{
    let entities = store_of(alloc, fetched)?;
    let unseen = unseen_above_actions(alloc, &fetched.seen, &entities)?;
    if !unseen.is_empty() {
        return Ok(Attempt::Missing(MissingIds {
            ids: unseen,
            above: true,
        }));
    }
    check_entities(schema, &entities)?;
    let mut loader = FetchedLoader::new(alloc, conn, fetched, &entities);
    let loaded = load_for_request(
        alloc,
        schema,
        policies,
        manifest,
        request,
        &mut loader,
        steps,
    );
    // Ancestors are asked for once, when all entities are there.
    let above = loader.lists > 0;
    let missing = MissingIds {
        ids: loader.into_missing(),
        above,
    };
    attempt_of(alloc, policies, request, loaded, missing)
}

// What loading came to.
fn attempt_of(
    alloc: Global,
    policies: &PolicySet,
    request: &Request,
    loaded: Result<Entities, EntitySliceError>,
    missing: MissingIds,
) -> Result<Attempt, RowError>
    requires { IsWhole request.now }
    ensures { IfOk result (Becomes policies.now.policies request.now loaded) }
{
    match loaded {
        Ok(entities) => Ok(Attempt::Decided(decide(alloc, policies, request, &entities)?)),
        Err(EntitySliceError::LoaderFault) => Ok(Attempt::Missing(missing)),
        Err(EntitySliceError::OutOfMemory) => Err(RowError::OutOfMemory),
        Err(error) => Ok(Attempt::Refused(error)),
    }
}
